//! The chain by which a module exports a name: a local export, after any number of `export *`
//! statements.

ghost use Rattle.std.specs.Prelude.{◌≡◌, IfSome};
ghost use Rattle.std.specs.Option.{option_map};
ghost use Rattle.symbols_table.specs.Symbols.{symbol_module_id};
ghost use Rattle.symbols_table.specs.SymbolViews.{symbol_view};
ghost use Rattle.symbols_exports.specs.ExportSymbols.{symbol_of_export};
ghost use Rattle.symbols_exports.specs.ExportChains.{resolved_export, chain_first_module};
ghost use Rattle.symbols_exports.specs.ExportChains.{chain_suffixes, remaining_chain_suffixes};

use std::boxed::Box;
use symbols_graph::ids::{ModuleId, SymbolId};
use symbols_root::RootSymbol;
use symbols_table::decl::Symbol;

/// A local export of a module (as deno_graph).
#[derive(Clone, Copy)]
pub struct ResolvedExport {
    /// The exporting module.
    pub module: ModuleId,
    /// The exported symbol of that module.
    pub symbol_id: SymbolId,
}

impl ResolvedExport {
    /// Returns the symbol, or `None` if the root hasn't stored the module or the module has no such
    /// symbol (as deno_graph, which panics then).
    pub fn symbol<'r, 'a>(&self, root: &'r RootSymbol<'a>) -> Option<&'r Symbol<'a>>
        ensures symbol { option_map (λ symbol. symbol_view symbol.now) result
            ≡ symbol_of_export root.now self.now }
        ensures of_module { IfSome result
            (λ symbol. symbol_module_id symbol.now ≡ self.now.«module») }
    {
        match root.module_from_id(self.module) {
            Some(info) => info.symbol(self.symbol_id),
            None => None,
        }
    }
}

/// An `export *` statement, and the remaining chain from the module that it resolves to (as
/// deno_graph).
#[cycle(path)]
#[derive(Drop)]
pub struct ResolvedReExportAllPath<'a> {
    /// The module that has the statement.
    pub referrer_module: ModuleId,
    /// The statement's specifier.
    pub specifier: &'a str,
    /// The chain from the module that the statement resolves to.
    pub next: Box<ResolvedExportOrReExportAllPath<'a>>,
}

/// The chain by which a module exports a name (as deno_graph). `Export` is a local export.
/// `ReExportAllPath` is an `export *` statement with the remaining chain.
#[cycle(path)]
pub enum ResolvedExportOrReExportAllPath<'a> {
    Export(ResolvedExport),
    ReExportAllPath(ResolvedReExportAllPath<'a>),
}

/// Frees one statement after the other in a loop: a long chain takes no more of the stack than a
/// short one.
impl Drop for ResolvedExportOrReExportAllPath<'_> {
    fn drop(mut self) {
        loop {
            match self {
                ResolvedExportOrReExportAllPath::Export(_) => return,
                ResolvedExportOrReExportAllPath::ReExportAllPath(re_export) => {
                    self = Box::into_inner(re_export.next);
                }
            }
        }
    }
}

impl<'a> ResolvedReExportAllPath<'a> {
    /// Returns the module that the statement resolves to (as deno_graph).
    pub fn resolved_module(&self) -> ModuleId
        ensures { result ≡ chain_first_module self.now.next.value }
    {
        match &*self.next {
            ResolvedExportOrReExportAllPath::Export(export) => export.module,
            ResolvedExportOrReExportAllPath::ReExportAllPath(chain) => chain.referrer_module,
        }
    }
}

impl<'a> ResolvedExportOrReExportAllPath<'a> {
    /// Returns the export at the end of the chain (as deno_graph).
    pub fn as_resolved_export(&self) -> &ResolvedExport
        ensures { result.now ≡ resolved_export self.now }
    {
        let mut chain = self;
        loop {
            match chain {
                ResolvedExportOrReExportAllPath::Export(export) => return export,
                ResolvedExportOrReExportAllPath::ReExportAllPath(re_export) => {
                    chain = &re_export.next;
                }
            }
        }
    }

    /// Returns an iterator over the chain itself, then what remains after each statement, up to the
    /// export (as deno_graph).
    pub fn iter(&self) -> ChainIter<'_, 'a>
        ensures { remaining_chain_suffixes result ≡ chain_suffixes self.now }
    {
        ChainIter { rest: Some(self) }
    }
}

/// An iterator over a chain, then what remains of it after each statement (as deno_graph).
#[derive(Clone, Copy)]
pub struct ChainIter<'r, 'a> {
    rest: Option<&'r ResolvedExportOrReExportAllPath<'a>>,
}

impl<'r, 'a> Iterator for ChainIter<'r, 'a> {
    ghost use Rattle.std.specs.Iterator.{YieldsFirstRef, item_count};
    ghost use Rattle.symbols_exports.specs.ExportChains.{remaining_chain_suffixes};

    type Item = &'r ResolvedExportOrReExportAllPath<'a>;

    ghost next_gives = { YieldsFirstRef remaining_chain_suffixes };

    ghost remaining = { item_count remaining_chain_suffixes };

    fn next(&mut self) -> Option<&'r ResolvedExportOrReExportAllPath<'a>> {
        let chain = self.rest?;
        self.rest = match chain {
            ResolvedExportOrReExportAllPath::Export(_) => None,
            ResolvedExportOrReExportAllPath::ReExportAllPath(re_export) => Some(&re_export.next),
        };
        Some(chain)
    }
}
