//! A frame of the walk: an `export *` statement that it is at or has followed.

ghost use Rattle.std.specs.Prelude.{◌≡◌};
ghost use Rattle.symbols_exports.specs.CollectedNames.{unresolved_star_view};
ghost use Rattle.symbols_exports.specs.inner.Collecting.{frame_view};

use crate::module_exports::UnresolvedSpecifier;
use symbols_graph::ids::ModuleId;

/// An `export *` statement that a walk is at or has followed: its module, its index among that
/// module's statements, and its specifier.
#[derive(Clone, Copy)]
pub(crate) struct Frame<'a> {
    pub(crate) referrer: ModuleId,
    pub(crate) position: usize,
    pub(crate) specifier_text: &'a str,
}

impl<'a> Frame<'a> {
    /// Returns the statement as one that resolves to no module.
    pub(crate) fn unresolved(self) -> UnresolvedSpecifier<'a>
        ensures { unresolved_star_view result ≡ frame_view self.entry }
    {
        UnresolvedSpecifier {
            referrer: self.referrer,
            specifier: self.specifier_text,
        }
    }
}
