//! The dependencies of declarations: the references found by visiting a declaration's syntax tree.
//!
//! Marks say where a rule comes from. '(as deno_graph)' marks a rule of Deno's crate deno_graph,
//! '(extension)' one that this library adds.
#![tactic(auto)]

mod annotations;
mod edge_table;
mod known;
pub mod laws;
mod pattern_edges;
mod references;
mod resolve_deps;
mod rules;
mod starts;
mod visit;

pub use resolve_deps::ResolveDeps;
pub use symbols_nodes::deps::{
    EntityName, ReferenceNamespace, ResolveDepsMode, SymbolNodeDep, entity_name,
};
