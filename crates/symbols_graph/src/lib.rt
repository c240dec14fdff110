//! Module graphs that passed a check: which graphs are accepted, and why others are refused. The
//! types of trees, ids and raw graphs are those of `symbols_ast`.
//!
//! Marks say where a rule comes from. '(as deno_graph)' marks a rule of Deno's crate deno_graph,
//! '(extension)' one that this library adds.
#![tactic(auto)]

mod child_list;
mod duplicates;
mod graph;
mod graph_check;
mod graph_maps;
mod hash_keys;
pub mod laws;
mod lookup_counter;
mod node_shape;
mod put_check;
mod redirects;
mod tree_check;

pub use graph::ModuleGraph;
pub use hash_keys::KeyBytes;
pub use lookup_counter::LookupCounter;
pub use symbols_ast::graph::{
    GraphFault, GraphModule, RawGraph, RawModule, RawModuleKind, RawResolution, TreeFault,
};
pub use symbols_ast::{ids, tree};
