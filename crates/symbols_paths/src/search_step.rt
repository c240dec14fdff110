//! The steps of a search, and the frames that wait for an answer.

ghost use Rattle.std.specs.Prelude.{◌≡◌};

use crate::alias_decl::AliasDecl;
use crate::definition::{DeclRef, Definition};
use crate::path_builder::PathBuilder;
use crate::shared_parts::SharedParts;
use crate::visited_symbols::VisitedSymbols;
use indexmap::IndexSet;
use std::collections::VecDeque;
use symbols_graph::ids::{ModuleId, UniqueSymbolId};

/// A symbol whose declarations before the index were followed, with their paths.
#[derive(Drop)]
pub(crate) struct Expansion<'a> {
    pub(crate) symbol: UniqueSymbolId,
    pub(crate) index: u32,
    pub(crate) paths: Vec<PathBuilder<'a>>,
}

impl Expansion<'_> {
    /// Returns the declaration at the index.
    pub(crate) fn decl(&self) -> DeclRef
        ensures { result ≡ record { symbol = self.now.symbol.symbol_id; index = self.now.index } }
    {
        DeclRef {
            symbol: self.symbol.symbol_id,
            index: self.index,
        }
    }
}

/// A named import that is looked up along the `export *` statements of the imported module. The
/// position is that of the next statement to try.
#[derive(Drop)]
pub(crate) struct StarSearch<'a> {
    pub(crate) here: Expansion<'a>,
    pub(crate) module_id: ModuleId,
    pub(crate) name: &'a str,
    pub(crate) position: usize,
}

/// An alias that is being resolved: its qualifiers, and the symbols visited in the search that came
/// to it.
#[derive(Drop)]
pub(crate) struct AliasSearch<'a> {
    pub(crate) here: Expansion<'a>,
    pub(crate) parts: SharedParts,
    pub(crate) visited: VisitedSymbols,
}

/// Paths under parts: the definitions at their ends, and the replacements of the first of these.
#[derive(Drop)]
pub(crate) struct PartsSearch<'a> {
    pub(crate) parts: SharedParts,
    pub(crate) paths: Vec<PathBuilder<'a>>,
    pub(crate) definitions: Vec<Definition<'a>>,
    pub(crate) replacements: VecDeque<Option<PathBuilder<'a>>>,
}

/// A wait for the paths of a symbol. `Link`: a declaration, for the paths of its target; the
/// second symbol is that of the link in front of them. `Star`: a named import, for the paths of a
/// candidate. `Alias`: an alias, for the paths of its symbol under its qualifiers. `Parts`: parts,
/// for the paths in whose definitions they are resolved. `Replacement`: a definition, for the paths
/// of its part.
#[derive(Drop)]
pub(crate) enum Frame<'a> {
    Link(Expansion<'a>, UniqueSymbolId),
    Star(Box<StarSearch<'a>>),
    Alias(Box<AliasSearch<'a>>),
    Parts(SharedParts),
    Replacement(Box<PartsSearch<'a>>),
}

/// The next step of a search. `Search`: a symbol is searched. `Expand`: a declaration is followed.
/// `TryStar`: an `export *` statement is tried. `Replace`: a definition is replaced. `Found`: the
/// frame on top gets its paths.
#[derive(Drop)]
pub(crate) enum Step<'a> {
    Search(UniqueSymbolId),
    Expand(Expansion<'a>),
    TryStar(Box<StarSearch<'a>>),
    Replace(Box<PartsSearch<'a>>),
    Found(Vec<PathBuilder<'a>>),
}

/// The aliases being resolved, the symbols visited in the search of the innermost of these, and the
/// frames, the last one first.
#[derive(Drop)]
pub(crate) struct SearchState<'a> {
    pub(crate) resolving: IndexSet<AliasDecl>,
    pub(crate) visited: VisitedSymbols,
    pub(crate) frames: VecDeque<Frame<'a>>,
}
