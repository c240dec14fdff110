//! The program without files and standard streams: reads graphs and answers query lines.
//!
//! Marks name the source of a rule. '(as deno_graph)' is a rule of Deno's crate of this name.
//! '(extension)' is a rule of this library.
#![tactic(auto)]

mod answer_line;
mod arguments;
mod device;
mod engine;
mod exit_error;
mod fast_path;
mod fault;
mod graph_keys;
mod lines;
mod memory;
mod query;
mod references;
mod session;
mod streams;
mod write_all;
mod write_deps;
mod write_exports;
mod write_inputs;
mod write_json;
mod write_paths;
mod write_public_names;
mod write_shared_names;

pub use arguments::{read_args, read_args_with};
pub use device::{DeviceFault, Input, Output};
pub use engine::{serve, serve_with};
pub use exit_error::ExitError;
pub use fault::EngineFault;
pub use graph_keys::keyed_graph;
pub use memory::{MemoryInput, MemoryOutput};
pub use streams::{ReaderInput, WriterOutput};
pub use symq_reader::{FormatFault, read_graph};
