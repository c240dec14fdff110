//! An ECMAScript or TypeScript module with its symbol table.

ghost use Rattle.std.specs.Prelude.{◌≡◌, ◌<◌, length, map, All, Some, slice_get};
ghost use Rattle.std.specs.Option.{option_copied, option_and_then};
ghost use Rattle.std.specs.Slice.Iter.{iter_rest};
ghost use Rattle.std.proofs.Props.{props};
ghost use Rattle.symbols_ast.specs.Ids.{id_view};
ghost use Rattle.symbols_ast.specs.TreeFaults.{IsFaultlessTree};
ghost use Rattle.symbols_ast.specs.WellFormed.{IsWellFormedTree};
ghost use Rattle.symbols_table.specs.ModuleViews.{identifier_bindings_view, export_star_view};
ghost use Rattle.symbols_table.specs.Laws.{AreLawfulSymbols, AreBoundedByNodes, AreIdentsBoundToSymbols};
ghost use Rattle.symbols_table.specs.Laws.{AreDeclaredInTree, IsExportStarInTree};

use crate::decl::Symbol;
use crate::info::module_info::{ModuleInfoRef, Symbols};
use crate::info::re_exports::StarStatement;
use indexmap::IndexMap;
use std::hash::RandomState;
use symbols_ast::ids::{ModuleId, SymbolId};
use symbols_ast::tree::{Id, Tree};

/// An ECMAScript or TypeScript module with its symbol table (as deno_graph). Symbol 0 is the module
/// itself. Invariants: a parent has a lower number than its child; symbols and names refer to
/// symbols of this module; declarations and `export *` statements are nodes of its syntax tree.
#[derive(Drop)]
pub struct EsModuleInfo<'a> {
    pub(crate) module_id: ModuleId,
    pub(crate) specifier: &'a str,
    pub(crate) text: &'a str,
    pub(crate) source: &'a Tree,
    pub(crate) symbols: Vec<Symbol<'a>>,
    pub(crate) ids: IndexMap<&'a Id, SymbolId, RandomState>,
    pub(crate) stars: Vec<StarStatement<'a>>,
    pub ghost well_formed: { IsWellFormedTree source.now.nodes.items },
    pub ghost faultless: { IsFaultlessTree text.now source.now.nodes.items },
    pub ghost has_module: { 0 < length symbols.items },
    pub ghost lawful: { AreLawfulSymbols module_id symbols.items } by { Prim.hlevel props },
    pub ghost few: { AreBoundedByNodes source.now symbols.items },
    pub ghost named: { AreIdentsBoundToSymbols (length symbols.items) (identifier_bindings_view ids.entries) },
    pub ghost declared: { AreDeclaredInTree source.now symbols.items },
    pub ghost starred: { All (IsExportStarInTree source.now) (map export_star_view stars.items) },
}

impl<'a> EsModuleInfo<'a> {
    ghost use Rattle.symbols_table.specs.Modules.{esm_symbol_table, symbol_table_of_ref};
    ghost use Rattle.symbols_table.specs.Modules.{symbol_of_ident_in_table, source_tree};

    /// Returns the module's number.
    pub fn module_id(&self) -> ModuleId
        ensures { result ≡ (esm_symbol_table self.now).module_id }
    {
        self.module_id
    }

    /// Returns the module's specifier.
    pub fn specifier(&self) -> &'a str
        ensures { result.now ≡ (esm_symbol_table self.now).specifier }
    {
        self.specifier
    }

    /// Returns the module's syntax tree. The name is upstream's; the source text is returned by
    /// `ModuleInfoRef::text`.
    pub fn source(&self) -> &'a Tree
        ensures { source_tree (esm_symbol_table self.now).source ≡ Some result.now }
    {
        self.source
    }

    /// Returns the symbol of a number. It is `None` if the module has no symbol of this number.
    pub fn symbol(&self, symbol_id: SymbolId) -> Option<&Symbol<'a>>
        ensures { option_copied result ≡ slice_get (esm_symbol_table self.now).symbols symbol_id.0 }
    {
        self.symbols.get(symbol_id.0 as usize)
    }

    /// Returns an iterator over the module's symbols, in order of their numbers.
    pub fn symbols(&self) -> Symbols<'_, 'a>
        ensures { iter_rest result ≡ (esm_symbol_table self.now).symbols }
    {
        self.symbols.iter()
    }

    /// Returns the number of the symbol that an identifier resolves to in this module (as
    /// deno_graph). It is `None` if no declaration binds the identifier.
    pub fn symbol_id_from_swc(&self, id: &Id) -> Option<SymbolId>
        ensures { result ≡ symbol_of_ident_in_table (esm_symbol_table self.now) (id_view id.now) }
    {
        self.ids.get(&id).copied()
    }

    /// Returns the symbol that an identifier resolves to in this module (as deno_graph). It is
    /// `None` if no declaration binds the identifier.
    pub fn symbol_from_swc(&self, id: &Id) -> Option<&Symbol<'a>>
        ensures { option_copied result
            ≡ option_and_then (λ s. slice_get (esm_symbol_table self.now).symbols s.0)
            (symbol_of_ident_in_table (esm_symbol_table self.now) (id_view id.now)) }
    {
        let symbol_id = self.symbol_id_from_swc(id)?;
        self.symbol(symbol_id)
    }

    /// Returns the symbol of the module itself, which is symbol 0.
    pub fn module_symbol(&self) -> &Symbol<'a>
        ensures { slice_get (esm_symbol_table self.now).symbols 0 ≡ Some result.now }
    {
        &self.symbols[0]
    }

    /// Returns the module borrowed as a `ModuleInfoRef`.
    pub fn as_ref(&self) -> ModuleInfoRef<'_, 'a>
        ensures { symbol_table_of_ref result ≡ esm_symbol_table self.now }
    {
        ModuleInfoRef::Esm(self)
    }
}
