//! Lists of specifiers that have none twice.

ghost use Rattle.std.specs.Prelude.{◌≡◌, ◌≤◌, ◌^◌, ◌∷◌, [], length, slice_get, OnOk};
ghost use Rattle.std.specs.Option.{option_copied};
ghost use Rattle.symbols_answers.specs.Questions.{append_specifier_if_absent};
ghost use Rattle.symbols_queries.specs.inner.SpecifierLists.{specifiers_of_keys};

use indexmap::IndexSet;
use std::alloc::{AllocError, Global};
use std::hash::RandomState;
use std::marker::Model;

/// A specifier, and others after it in order of insertion. None occurs twice.
#[derive(Drop)]
pub(crate) struct SpecifierList<'q, 'a> {
    first: &'q str,
    added: IndexSet<&'a str, RandomState>,
}

impl<'q, 'a> Model for SpecifierList<'q, 'a> {
    ghost use Rattle.std.specs.Prelude.{◌∷◌, ℕ, List};
    ghost use Rattle.symbols_queries.specs.inner.SpecifierLists.{specifiers_of_keys};

    ghost Value = { List (List ℕ) };

    ghost view = { λ list. list.first.now ∷ specifiers_of_keys list.added.keys };
}

impl<'q, 'a> SpecifierList<'q, 'a> {
    /// Returns the list of one specifier.
    pub(crate) fn new(alloc: Global, keys: RandomState, first: &'q str) -> SpecifierList<'q, 'a>
        ensures { result ≡ first.now ∷ [] }
    {
        SpecifierList {
            first,
            added: IndexSet::with_hasher(alloc, keys),
        }
    }

    /// Returns the specifier at an index, or `None` past the end.
    pub(crate) fn get(&self, index: usize) -> Option<&str>
        ensures at { option_copied result ≡ slice_get self.now index }
        ensures few { length self.now ≤ 2 ^ 63 }
    {
        if index > self.added.len() {
            return None;
        }
        if index == 0 {
            return Some(self.first);
        }
        match self.added.get_index(index - 1) {
            Some(specifier) => Some(*specifier),
            None => None,
        }
    }

    /// Adds a specifier at the end, unless the list has it.
    pub(crate) fn add(&mut self, specifier: &'a str) -> Result<(), AllocError>
        ensures { OnOk result (self.new ≡ append_specifier_if_absent self.old specifier.now) }
    {
        if specifier != self.first {
            self.added.insert(specifier)?;
        }
        Ok(())
    }

    /// Returns the first specifier and the others.
    pub(crate) fn into_parts(self) -> (&'q str, IndexSet<&'a str, RandomState>)
        ensures { result.0.now ∷ specifiers_of_keys result.1.keys ≡ self.entry }
    {
        (self.first, self.added)
    }
}
