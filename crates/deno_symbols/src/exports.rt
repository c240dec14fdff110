//! Re-exports of `symbols_exports`: the exports of a module.

pub use symbols_exports::{
    ChainIter, LookupCounter, ModuleExports, PublicName, ResolvedExport,
    ResolvedExportOrReExportAllPath, ResolvedReExportAllPath, SharedName, UnresolvedSpecifier,
    export_of, export_of_counted, exports, exports_counted, public_names,
};
