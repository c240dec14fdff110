//! The chain of an export, built from the frames of a walk.

ghost use Rattle.std.specs.Prelude.{◌≡◌, ◌&&◌, IfOk, map};
ghost use Rattle.std.specs.Str.{bytes_eq};
ghost use Rattle.symbols_table.specs.Events.{default_export_name};
ghost use Rattle.symbols_exports.specs.ExportChains.{resolved_export, statements_of_chain};
ghost use Rattle.symbols_exports.specs.inner.Collecting.{frame_view, has_star_statements};

use crate::export_chain::{
    ResolvedExport, ResolvedExportOrReExportAllPath, ResolvedReExportAllPath,
};
use crate::frame::Frame;
use std::alloc::{AllocError, Global};

/// Returns the chain that has the statements of the frames, in order, and ends with the export.
#[inline(always)]
pub(crate) fn chain_of_frames<'a>(
    alloc: Global,
    stack: &[Frame<'a>],
    export: ResolvedExport,
) -> Result<ResolvedExportOrReExportAllPath<'a>, AllocError>
    ensures statements { IfOk result
        (λ chain. statements_of_chain chain ≡ map frame_view stack.now) }
    ensures end { IfOk result (λ chain. resolved_export chain ≡ export) }
{
    let mut chain = ResolvedExportOrReExportAllPath::Export(export);
    for frame in stack.iter().rev() {
        chain = ResolvedExportOrReExportAllPath::ReExportAllPath(ResolvedReExportAllPath {
            referrer_module: frame.referrer,
            specifier: frame.specifier_text,
            next: Box::new(alloc, chain)?,
        });
    }
    Ok(chain)
}

/// Returns whether a name is left out: it is `default`, and at least one `export *` was followed.
pub(crate) fn is_excluded_default(name: &str, stack: &[Frame<'_>]) -> bool
    ensures { result ≡ (bytes_eq name.now default_export_name
        && has_star_statements (map frame_view stack.now)) }
{
    name == "default" && !stack.is_empty()
}
