//! Laws of the definitions, for the crates above. The functions here do nothing: a law is the
//! contract of a function.

ghost use Rattle.std.specs.Prelude.{ℕ, List};
ghost use Rattle.symbols_exports.specs.ExportAnswers.{AreExportListsCorrectAndUnique};

use symbols_root::RootSymbol;

/// States that the computed lists of exports, unresolved statements and shared names are those of
/// the definitions, for every module at which they begin.
pub fn exports_are_listed(root: &RootSymbol<'_>)
    ensures { (start : List ℕ) → AreExportListsCorrectAndUnique root.now.graph start }
{}
