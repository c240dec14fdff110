//! Re-exports of `symbols_graph`: raw graphs and their check.

pub use symbols_graph::{
    GraphFault, GraphModule, KeyBytes, ModuleGraph, RawGraph, RawModule, RawModuleKind,
    RawResolution, TreeFault,
};
