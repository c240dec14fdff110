//! A JSON module with its symbol table.

ghost use Rattle.std.specs.Prelude.{◌≡◌, ◌<◌, length, slice_get};
ghost use Rattle.std.specs.Option.{option_copied};
ghost use Rattle.std.specs.Slice.Iter.{iter_rest};
ghost use Rattle.std.proofs.Props.{props};
ghost use Rattle.symbols_table.specs.Laws.{AreLawfulSymbols};

use crate::decl::Symbol;
use crate::info::module_info::{ModuleInfoRef, Symbols};
use symbols_ast::ids::{ModuleId, SymbolId};

/// A JSON module with its symbol table (as deno_graph). Symbol 0 is the module. Symbol 1, its
/// child, is the `default` export. Both are definitions without a node. Their range is the text
/// without the white space at its ends.
#[derive(Drop)]
pub struct JsonModuleInfo<'a> {
    pub(crate) module_id: ModuleId,
    pub(crate) specifier: &'a str,
    pub(crate) text: &'a str,
    pub(crate) symbols: Vec<Symbol<'a>>,
    pub ghost has_module: { 0 < length symbols.items },
    pub ghost lawful: { AreLawfulSymbols module_id symbols.items } by { Prim.hlevel props },
}

impl<'a> JsonModuleInfo<'a> {
    ghost use Rattle.symbols_table.specs.Modules.{json_symbol_table, symbol_table_of_ref};

    /// Returns the module's number.
    pub fn module_id(&self) -> ModuleId
        ensures { result ≡ (json_symbol_table self.now).module_id }
    {
        self.module_id
    }

    /// Returns the module's specifier.
    pub fn specifier(&self) -> &'a str
        ensures { result.now ≡ (json_symbol_table self.now).specifier }
    {
        self.specifier
    }

    /// Returns the symbol of a number. It is `None` for numbers other than 0 and 1.
    pub fn symbol(&self, symbol_id: SymbolId) -> Option<&Symbol<'a>>
        ensures { option_copied result
            ≡ slice_get (json_symbol_table self.now).symbols symbol_id.0 }
    {
        self.symbols.get(symbol_id.0 as usize)
    }

    /// Returns an iterator over the module's symbols, in order of their numbers.
    pub fn symbols(&self) -> Symbols<'_, 'a>
        ensures { iter_rest result ≡ (json_symbol_table self.now).symbols }
    {
        self.symbols.iter()
    }

    /// Returns the module borrowed as a `ModuleInfoRef`.
    pub fn as_ref(&self) -> ModuleInfoRef<'_, 'a>
        ensures { symbol_table_of_ref result ≡ json_symbol_table self.now }
    {
        ModuleInfoRef::Json(self)
    }
}
