//! A name that several modules export.

use crate::export_chain::ResolvedExportOrReExportAllPath;

/// A name other than `default` that two or more reachable modules export locally and the queried
/// module itself doesn't export (extension).
#[derive(Drop)]
pub struct SharedName<'a> {
    /// The name.
    pub name: String,
    /// The chain to each module that exports it, in chain order.
    pub exporters: Vec<ResolvedExportOrReExportAllPath<'a>>,
}
