//! The ids of modules and symbols.

ghost use Rattle.std.specs.Prelude.{◌≡◌, decimal, true, Some};
ghost use Rattle.std.specs.Bool.{Decides};

use std::fmt;

/// The number of a module. Modules are numbered from 0 in the order in which they are stored.
#[derive(Clone, Copy, Debug, PartialEq, Eq, PartialOrd, Ord, Hash)]
pub struct ModuleId(pub u32);

impl ModuleId {
    /// Returns the module id of a number (extension). A module of that number need not exist.
    pub fn from_number(number: u32) -> ModuleId
        ensures { result.0 ≡ number }
    {
        ModuleId(number)
    }

    /// Returns the module's number.
    pub fn number(self) -> u32
        ensures { result ≡ self.0 }
    {
        self.0
    }

    /// Returns whether both ids are equal (extension). It agrees with `==`, and is true of a clone.
    pub fn is_same(self, other: ModuleId) -> bool
        ensures same { Decides result (self.0 ≡ other.0) }
        ensures equal { result ≡ ⟦<ModuleId as PartialEq>⟧.eq self other }
        ensures cloned { ⟦<ModuleId as Clone>⟧.is_clone self other → result ≡ true }
    {
        self == other
    }
}

impl fmt::Display for ModuleId {
    ghost output = { λ id. Some (decimal id.0) };

    fn fmt<W: fmt::Write>(&self, f: &mut fmt::Formatter<W>) -> fmt::Result {
        let number = self.0;
        write!(f, "{number}")
    }
}

/// The number of a symbol within its module. Symbol 0 is the module itself. The others are numbered
/// in the order in which they are created. The default is symbol 0.
#[derive(Clone, Copy, Default, PartialEq, Eq, PartialOrd, Ord, Hash)]
pub struct SymbolId(pub u32);

impl SymbolId {
    /// Returns the symbol id of a number (extension). A symbol of that number need not exist.
    pub fn from_number(number: u32) -> SymbolId
        ensures { result.0 ≡ number }
    {
        SymbolId(number)
    }

    /// Returns the symbol's number.
    pub fn number(self) -> u32
        ensures { result ≡ self.0 }
    {
        self.0
    }

    /// Returns whether both ids are equal (extension). It agrees with `==`, and is true of a clone.
    /// The default id is 0.
    pub fn is_same(self, other: SymbolId) -> bool
        ensures same { Decides result (self.0 ≡ other.0) }
        ensures equal { result ≡ ⟦<SymbolId as PartialEq>⟧.eq self other }
        ensures cloned { ⟦<SymbolId as Clone>⟧.is_clone self other → result ≡ true }
        ensures default { ⟦<SymbolId as Default>⟧.is_default self → self.0 ≡ 0 }
    {
        self == other
    }
}

impl fmt::Debug for SymbolId {
    ghost debug_output = { λ id. Some (decimal id.0) };

    fn fmt<W: fmt::Write>(&self, f: &mut fmt::Formatter<W>) -> fmt::Result {
        let number = self.0;
        write!(f, "{number}")
    }
}

/// The id of a symbol across all modules: its module's number and its own.
#[derive(Clone, Copy, Debug, PartialEq, Eq, PartialOrd, Ord, Hash)]
pub struct UniqueSymbolId {
    pub module_id: ModuleId,
    pub symbol_id: SymbolId,
}

impl UniqueSymbolId {
    /// Returns the id of a symbol of a module.
    pub fn new(module_id: ModuleId, symbol_id: SymbolId) -> UniqueSymbolId
        ensures module { result.module_id ≡ module_id }
        ensures symbol { result.symbol_id ≡ symbol_id }
    {
        UniqueSymbolId {
            module_id,
            symbol_id,
        }
    }

    /// Returns whether both ids are of the same symbol: both parts are equal (extension). It agrees
    /// with `==`, and is true of a clone.
    pub fn is_same(self, other: UniqueSymbolId) -> bool
        ensures same { Decides result ((self.module_id ≡ other.module_id)
            × (self.symbol_id ≡ other.symbol_id)) }
        ensures equal { result ≡ ⟦<UniqueSymbolId as PartialEq>⟧.eq self other }
        ensures cloned { ⟦<UniqueSymbolId as Clone>⟧.is_clone self other → result ≡ true }
    {
        self == other
    }
}
