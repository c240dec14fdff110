//! The exports of a module: its local exports, and those that its `export *` statements re-export.
#![tactic(auto)]

mod collected_exports;
mod export_chain;
mod export_walk;
mod frame;
mod frame_chain;
pub mod laws;
mod module_exports;
mod name_filter;
mod public_name;
mod shadowed;
mod shared_name;
mod star_statements;

pub use export_chain::{
    ChainIter, ResolvedExport, ResolvedExportOrReExportAllPath, ResolvedReExportAllPath,
};
pub use export_walk::{export_of, export_of_counted, exports, exports_counted};
pub use module_exports::{ModuleExports, UnresolvedSpecifier};
pub use public_name::{PublicName, public_names};
pub use shared_name::SharedName;
pub use symbols_graph::LookupCounter;
