//! The iterator over the children of a symbol.

ghost use Rattle.std.specs.Prelude.{◌≡◌, IfSome, Some, length};
ghost use Rattle.std.specs.Iterator.{YieldsFirst, at_most, item_count, UpTo};
ghost use Rattle.std.specs.Iterator.SizeHint.{IsWithinCount};

use std::iter::FusedIterator;
use std::marker::Model;
use symbols_ast::ids::SymbolId;

/// An iterator over the symbols that are declared in a symbol's body, each once, in order of first
/// insertion. Its view is the list of the symbols that remain.
#[derive(Drop)]
pub struct ChildIds<'a> {
    rest: &'a [SymbolId],
}

impl<'a> Model for ChildIds<'a> {
    ghost use Rattle.std.specs.Prelude.{List};
    ghost use Rattle.symbols_ast.specs.declared.ids.SymbolId.{SymbolId};

    ghost Value = { List SymbolId };

    ghost view = { λ ids. ids.rest.now };
}

impl<'a> ChildIds<'a> {
    pub(crate) fn new(children: &'a [SymbolId]) -> ChildIds<'a>
        ensures { result ≡ children.now }
    {
        ChildIds { rest: children }
    }

    /// Returns the symbols that the iterator has not returned yet.
    pub fn as_slice(&self) -> &'a [SymbolId]
        ensures { result.now ≡ self.now }
    {
        self.rest
    }
}

impl<'a> Iterator for ChildIds<'a> {
    type Item = SymbolId;

    ghost next_gives = { YieldsFirst (λ left. left) };

    ghost remaining = { item_count (λ left. left) };

    fn next(&mut self) -> Option<SymbolId> {
        let (first, other_items) = self.rest.split_first()?;
        self.rest = other_items;
        Some(*first)
    }

    fn size_hint(&self) -> (usize, Option<usize>)
        ensures lower { IsWithinCount result.0 (at_most (length self.now)) }
        ensures upper { IfSome result.1 (UpTo (at_most (length self.now))) }
        ensures exact { result ≡ (length self.now, Some (length self.now)) }
    {
        let len = self.rest.len();
        (len, Some(len))
    }
}

impl<'a> ExactSizeIterator for ChildIds<'a> {
    fn len(&self) -> usize {
        self.rest.len()
    }
}

impl<'a> FusedIterator for ChildIds<'a> {}
