//! Laws of the definitions, for the crates above. The functions here do nothing: a law is the
//! contract of a function.

ghost use Rattle.std.specs.List.{IsDistinct};
ghost use Rattle.std.specs.Str.{bytes_eq};

use crate::RootSymbol;

/// States that a root stores no module twice.
pub fn stored_modules_distinct(root: &RootSymbol<'_>)
    ensures { IsDistinct bytes_eq root.now.stored }
{
    root.stores_once();
}
