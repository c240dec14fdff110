//! Declarations as nodes of a syntax tree: their names, namespaces and tests, and what a reference
//! is.
//!
//! Marks say where a rule comes from. '(as deno_graph)' marks a rule of Deno's crate deno_graph,
//! '(extension)' one that this library adds, '(own name ..)' a function that deno_graph has
//! elsewhere.
#![tactic(auto)]

pub mod deps;
pub mod nodes;
