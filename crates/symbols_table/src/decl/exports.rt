//! The iterator over the exports of a symbol.

ghost use Rattle.std.specs.Prelude.{◌≡◌, [], IfSome, Some, length};
ghost use Rattle.std.specs.Iterator.{YieldsFirstBy, at_most, item_count, UpTo};
ghost use Rattle.std.specs.Iterator.SizeHint.{IsWithinCount};
ghost use Rattle.symbols_table.specs.DeclViews.{exports_view};
ghost use Rattle.symbols_table.specs.TableViews.{export_entry_view};

use indexmap::IndexMap;
use indexmap::map::Slice;
use std::hash::RandomState;
use std::iter::FusedIterator;
use std::marker::Model;
use symbols_ast::ids::SymbolId;

/// An iterator over the exported names of a symbol with their symbols. A name has the position of
/// its first export. The view is the list of the exports that remain.
#[derive(Drop)]
pub struct Exports<'a> {
    rest: Slice<'a, String, SymbolId>,
}

impl<'a> Model for Exports<'a> {
    ghost use Rattle.std.specs.Prelude.{ℕ, List};
    ghost use Rattle.symbols_ast.specs.declared.ids.SymbolId.{SymbolId};
    ghost use Rattle.symbols_table.specs.DeclViews.{exports_view};

    ghost Value = { List (List ℕ × SymbolId) };

    ghost view = { λ exports. exports_view exports.rest };
}

impl<'a> Exports<'a> {
    pub(crate) fn new(exports: &'a IndexMap<String, SymbolId, RandomState>) -> Exports<'a>
        ensures { result ≡ exports_view exports.now.entries }
    {
        Exports {
            rest: exports.as_slice(),
        }
    }

    pub(crate) fn none() -> Exports<'a>
        ensures { result ≡ [] }
    {
        Exports { rest: Slice::new() }
    }
}

impl<'a> Iterator for Exports<'a> {
    type Item = (&'a str, SymbolId);

    ghost next_gives = { YieldsFirstBy export_entry_view (λ left. left) };

    ghost remaining = { item_count (λ left. left) };

    fn next(&mut self) -> Option<(&'a str, SymbolId)> {
        let ((name, symbol_id), other_items) = self.rest.split_first()?;
        self.rest = other_items;
        Some((name.as_str(), *symbol_id))
    }

    fn size_hint(&self) -> (usize, Option<usize>)
        ensures lower { IsWithinCount result.0 (at_most (length self.now)) }
        ensures upper { IfSome result.1 (UpTo (at_most (length self.now))) }
        ensures exact { result ≡ (length self.now, Some (length self.now)) }
    {
        let len = self.rest.len();
        (len, Some(len))
    }
}

impl<'a> ExactSizeIterator for Exports<'a> {
    fn len(&self) -> usize {
        self.rest.len()
    }
}

impl<'a> FusedIterator for Exports<'a> {}
