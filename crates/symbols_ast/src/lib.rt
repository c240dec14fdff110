//! Syntax trees of modules, raw module graphs, and the modules of a checked graph. The check itself
//! is in `symbols_graph`, a crate above this one.
//!
//! Marks say where a rule comes from. '(as deno_graph)' marks a rule of Deno's crate deno_graph,
//! '(extension)' one that this library adds.
#![tactic(auto)]

pub mod graph;
pub mod ids;
pub mod tree;
