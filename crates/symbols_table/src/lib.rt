//! The symbol table of one module: its symbols with their declarations, exports, children and
//! members.
//!
//! Marks say where a rule comes from. '(as deno_graph)' marks a rule of Deno's crate deno_graph,
//! '(extension)' one that this library adds, '(own name ..)' a function that deno_graph has
//! elsewhere.
#![tactic(auto)]

mod builder;
pub mod decl;
pub mod info;

pub use builder::analyze;
