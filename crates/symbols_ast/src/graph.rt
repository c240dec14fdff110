//! Raw module graphs, the faults for which they are refused, and the modules of a checked graph.

mod faults;
mod module;
mod raw;

pub use faults::{GraphFault, TreeFault};
pub use module::GraphModule;
pub use raw::{RawGraph, RawModule, RawModuleKind, RawResolution};
