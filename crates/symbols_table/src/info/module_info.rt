//! A module of either kind with its symbol table, owned or borrowed.

ghost use Rattle.std.specs.Prelude.{◌≡◌, ◌<◌, ◌^◌, length, Some, slice_get};
ghost use Rattle.std.specs.Option.{option_copied, option_map};
ghost use Rattle.std.specs.Slice.Iter.{iter_rest};
ghost use Rattle.symbols_table.specs.Laws.{AreLawfulSymbols};
ghost use Rattle.symbols_table.specs.Modules.{maybe_json_info, maybe_esm_info, maybe_json_of_ref};
ghost use Rattle.symbols_table.specs.Modules.{maybe_esm_of_ref};
ghost use Rattle.symbols_table.specs.Modules.{symbol_table_of, symbol_table_of_ref, source_text};
ghost use Rattle.symbols_table.specs.ReExports.{remaining_export_star_nodes};
ghost use Rattle.symbols_table.specs.ReExports.{export_star_nodes_of_table};

use crate::decl::Symbol;
use crate::info::es_module::EsModuleInfo;
use crate::info::json_module::JsonModuleInfo;
use crate::info::re_exports::ReExportNodes;
use std::slice;
use symbols_ast::ids::{ModuleId, SymbolId};

/// An iterator over the symbols of a module, in order of their numbers.
pub type Symbols<'r, 'a> = slice::Iter<'r, Symbol<'a>>;

/// A module with its symbol table (as deno_graph).
#[derive(Drop)]
pub enum ModuleInfo<'a> {
    Json(JsonModuleInfo<'a>),
    Esm(EsModuleInfo<'a>),
}

impl<'a> ModuleInfo<'a> {
    /// Returns the module if it is JSON, else `None`.
    pub fn json(&self) -> Option<&JsonModuleInfo<'a>>
        ensures { option_copied result ≡ maybe_json_info self.now }
    {
        match self {
            ModuleInfo::Json(json) => Some(json),
            ModuleInfo::Esm(_) => None,
        }
    }

    /// Returns the module if it is ECMAScript or TypeScript, else `None`.
    pub fn esm(&self) -> Option<&EsModuleInfo<'a>>
        ensures { option_copied result ≡ maybe_esm_info self.now }
    {
        match self {
            ModuleInfo::Json(_) => None,
            ModuleInfo::Esm(esm) => Some(esm),
        }
    }

    /// Returns the module borrowed as a `ModuleInfoRef`.
    pub fn as_ref(&self) -> ModuleInfoRef<'_, 'a>
        ensures json { maybe_json_of_ref result ≡ maybe_json_info self.now }
        ensures esm { maybe_esm_of_ref result ≡ maybe_esm_info self.now }
        ensures table { symbol_table_of_ref result ≡ symbol_table_of self.now }
    {
        match self {
            ModuleInfo::Json(json) => ModuleInfoRef::Json(json),
            ModuleInfo::Esm(esm) => ModuleInfoRef::Esm(esm),
        }
    }

    /// Returns the module's number.
    pub fn module_id(&self) -> ModuleId
        ensures { result ≡ (symbol_table_of self.now).module_id }
    {
        self.as_ref().module_id()
    }

    /// Returns the module's specifier.
    pub fn specifier(&self) -> &'a str
        ensures { result.now ≡ (symbol_table_of self.now).specifier }
    {
        self.as_ref().specifier()
    }

    /// Returns the symbol of a number. It is `None` if the module has no symbol of this number.
    pub fn symbol(&self, symbol_id: SymbolId) -> Option<&Symbol<'a>>
        ensures { option_copied result ≡ slice_get (symbol_table_of self.now).symbols symbol_id.0 }
    {
        self.as_ref().symbol(symbol_id)
    }

    /// Returns an iterator over the module's symbols, in order of their numbers.
    pub fn symbols(&self) -> Symbols<'_, 'a>
        ensures { iter_rest result ≡ (symbol_table_of self.now).symbols }
    {
        self.as_ref().symbols()
    }
}

/// A borrowed module with its symbol table (as deno_graph).
#[derive(Clone, Copy)]
pub enum ModuleInfoRef<'r, 'a> {
    Json(&'r JsonModuleInfo<'a>),
    Esm(&'r EsModuleInfo<'a>),
}

impl<'r, 'a> ModuleInfoRef<'r, 'a> {
    /// Returns the module if it is JSON, else `None`.
    pub fn json(self) -> Option<&'r JsonModuleInfo<'a>>
        ensures { option_copied result ≡ maybe_json_of_ref self.entry }
    {
        match self {
            ModuleInfoRef::Json(json) => Some(json),
            ModuleInfoRef::Esm(_) => None,
        }
    }

    /// Returns the module if it is ECMAScript or TypeScript, else `None`.
    pub fn esm(self) -> Option<&'r EsModuleInfo<'a>>
        ensures { option_copied result ≡ maybe_esm_of_ref self.entry }
    {
        match self {
            ModuleInfoRef::Json(_) => None,
            ModuleInfoRef::Esm(esm) => Some(esm),
        }
    }

    /// Returns the module's number.
    pub fn module_id(self) -> ModuleId
        ensures { result ≡ (symbol_table_of_ref self.entry).module_id }
    {
        match self {
            ModuleInfoRef::Json(json) => json.module_id,
            ModuleInfoRef::Esm(esm) => esm.module_id,
        }
    }

    /// Returns the module's specifier.
    pub fn specifier(self) -> &'a str
        ensures { result.now ≡ (symbol_table_of_ref self.entry).specifier }
    {
        match self {
            ModuleInfoRef::Json(json) => json.specifier,
            ModuleInfoRef::Esm(esm) => esm.specifier,
        }
    }

    /// Returns the module's source text.
    pub fn text(self) -> &'a str
        ensures { result.now ≡ source_text (symbol_table_of_ref self.entry).source }
    {
        match self {
            ModuleInfoRef::Json(json) => json.text,
            ModuleInfoRef::Esm(esm) => esm.text,
        }
    }

    /// Returns the module's symbols as a slice, in order of their numbers.
    pub(crate) fn all_symbols(self) -> &'r [Symbol<'a>]
        ensures symbols { result.now ≡ (symbol_table_of_ref self.entry).symbols }
        ensures has_module { 0 < length result.now }
        ensures lawful { AreLawfulSymbols (symbol_table_of_ref self.entry).module_id result.now }
    {
        match self {
            ModuleInfoRef::Json(json) => &json.symbols,
            ModuleInfoRef::Esm(esm) => &esm.symbols,
        }
    }

    /// Returns the symbol of a number. It is `None` if the module has no symbol of this number.
    pub fn symbol(self, symbol_id: SymbolId) -> Option<&'r Symbol<'a>>
        ensures { option_copied result
            ≡ slice_get (symbol_table_of_ref self.entry).symbols symbol_id.0 }
    {
        self.all_symbols().get(symbol_id.0 as usize)
    }

    /// Returns an iterator over the module's symbols, in order of their numbers.
    pub fn symbols(self) -> Symbols<'r, 'a>
        ensures { iter_rest result ≡ (symbol_table_of_ref self.entry).symbols }
    {
        self.all_symbols().iter()
    }

    /// Returns the symbol of the module itself, which is symbol 0.
    pub fn module_symbol(self) -> &'r Symbol<'a>
        ensures { slice_get (symbol_table_of_ref self.entry).symbols 0 ≡ Some result.now }
    {
        &self.all_symbols()[0]
    }

    /// Returns the specifier of the `export *` statement of an index (extension). It is `None` past
    /// the last statement, and always for a JSON module.
    pub fn re_export_all_specifier(self, index: usize) -> Option<&'a str>
        ensures specifier_text { option_map (λ specifier_text. specifier_text.now) result
            ≡ option_map (λ star.
            star.specifier_text) (slice_get (symbol_table_of_ref self.entry).stars index) }
        ensures few { length (symbol_table_of_ref self.entry).stars < 2 ^ 63 }
    {
        match self {
            ModuleInfoRef::Json(_) => None,
            ModuleInfoRef::Esm(esm) => match esm.stars.get(index) {
                Some(star) => Some(star.src),
                None => None,
            },
        }
    }

    /// Returns an iterator over the nodes of the module's `export *` statements, in order. It is
    /// `None` for a JSON module.
    pub fn re_export_all_nodes(self) -> Option<ReExportNodes<'r, 'a>>
        ensures { option_map remaining_export_star_nodes result ≡ export_star_nodes_of_table
            (symbol_table_of_ref self.entry) }
    {
        match self {
            ModuleInfoRef::Json(_) => None,
            ModuleInfoRef::Esm(esm) => Some(ReExportNodes {
                source: esm.source,
                stars: esm.stars.iter(),
            }),
        }
    }
}
