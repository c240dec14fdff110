//! The names that a walk along `export *` collects.

ghost use Rattle.std.specs.Prelude.{◌≡◌};
ghost use Rattle.symbols_exports.specs.CollectedNames.{resolved_export_views};
ghost use Rattle.symbols_exports.specs.inner.NameFilter.{is_name_search_done, collects_shared};

use crate::export_chain::ResolvedExportOrReExportAllPath;
use indexmap::IndexMap;
use std::hash::RandomState;
use symbols_root::Rules;

/// The names that a walk collects: all exported names, or a given one.
#[derive(Clone, Copy)]
pub(crate) enum NameFilter<'n> {
    AllNames,
    OneName(&'n str),
}

impl NameFilter<'_> {
    /// Returns whether the walk can stop before its end: it looks for one name, and that was found
    /// or is `default`. No `export *` re-exports `default`.
    pub(crate) fn is_name_search_done(
        self,
        resolved: &IndexMap<String, ResolvedExportOrReExportAllPath<'_>, RandomState>,
    ) -> bool
        ensures { result ≡ is_name_search_done self.entry
            (resolved_export_views resolved.now.entries) }
    {
        match self {
            NameFilter::AllNames => false,
            NameFilter::OneName(name) => !resolved.is_empty() || name == "default",
        }
    }

    /// Returns whether later chains of a name are stored, for the shared names. They are stored by
    /// strict rules, if all names are collected.
    pub(crate) fn collects_shared(self, rules: Rules) -> bool
        ensures { result ≡ collects_shared self.entry rules }
    {
        match (self, rules) {
            (NameFilter::AllNames, Rules::Strict) => true,
            (NameFilter::AllNames, Rules::Deno) => false,
            (NameFilter::OneName(_), _) => false,
        }
    }
}
