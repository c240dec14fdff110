//! The symbols of the modules of a graph: what a module declares, what it exports, and what its
//! declarations refer to. This crate re-exports all that a user of the library needs from the
//! crates below it.
//!
//! Marks say where a rule comes from: '(as deno_graph)' where it is that of Deno's crate of this
//! name, '(extension)' where this library adds it.
#![tactic(auto)]

pub mod check;
pub mod exports;
pub mod paths;
pub mod queries;
pub mod root;

pub use symbols_deps as deps;
pub use symbols_graph::{ids, tree};
pub use symbols_nodes::nodes;
pub use symbols_table::{analyze, decl, info};
