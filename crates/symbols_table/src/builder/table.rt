//! The module builder, which holds the symbol table while it is filled, and its elementary updates.

ghost use Rattle.std.specs.Prelude.{◌≡◌, ◌+◌, ◌<◌, ◌≤◌, ◌++◌, [], ◌∷◌, List};
ghost use Rattle.std.specs.Prelude.{length, IfOk, OnOk, IfErr, IfSome, Some, None};
ghost use Rattle.symbols_ast.specs.Ids.{id_view};
ghost use Rattle.std.specs.Option.{option_map, option_or};
ghost use Rattle.std.specs.Cow.{cow_str_bytes};
ghost use Rattle.symbols_table.specs.DeclViews.{decl_view};
ghost use Rattle.symbols_table.specs.Laws.{IsLawfulParent};
ghost use Rattle.symbols_table.specs.Changes.{Change, some_if, adds_symbol, adds_decl, exports};
ghost use Rattle.symbols_table.specs.Changes.{adds_child};
ghost use Rattle.symbols_table.specs.Changes.{adds_member, maps, re_exports_all};
ghost use Rattle.symbols_table.specs.Changes.{symbol_of_ident_after_changes};
ghost use Rattle.symbols_table.specs.inner.Tables.{local_name_in_symbols, symbol_by_local_name};
ghost use Rattle.symbols_table.specs.inner.LocalNames.{is_local_name_of_symbol};
ghost use Rattle.symbols_table.specs.declared.builder.names.LocalName.{LocalName};
ghost use Rattle.symbols_table.specs.declared.builder.table.BuildFault.TheVariants.{OutOfMemory};
ghost use Rattle.symbols_table.specs.declared.builder.table.BuildFault.TheVariants.{TooManySymbols};

use crate::builder::names::LocalName;
use crate::decl::{Symbol, SymbolDecl, Tables};
use crate::info::re_exports::StarStatement;
use indexmap::IndexMap;
use smallvec::SmallVec;
use std::alloc::{AllocError, AllocFailed, Global};
use std::borrow::CowStr;
use std::collections::HashMap;
use std::hash::RandomState;
use symbols_ast::ids::{ModuleId, SymbolId};
use symbols_ast::tree::{Id, NodeId};

/// The reason why a table could not be built.
#[derive(Clone, Copy, Debug, PartialEq, Eq)]
pub(crate) enum BuildFault {
    OutOfMemory,
    TooManySymbols,
}

impl From<AllocError> for BuildFault {
    ghost from_gives = { λ _ e. e ≡ OutOfMemory };

    fn from(_error: AllocError) -> BuildFault {
        BuildFault::OutOfMemory
    }
}

impl<T: Drop> From<AllocFailed<T>> for BuildFault {
    ghost from_gives = { λ _ e. e ≡ OutOfMemory };

    fn from(_error: AllocFailed<T>) -> BuildFault {
        BuildFault::OutOfMemory
    }
}

/// The settings of a builder: its allocator, the keys of its maps, the module's number and the limit
/// of symbols.
#[derive(Clone, Copy)]
pub(crate) struct Setting {
    pub(crate) alloc: Global,
    pub(crate) keys: RandomState,
    pub(crate) module_id: ModuleId,
    pub(crate) limit: u32,
}

/// The symbol table of a module while it is filled. The holder of a symbol is the symbol that it is
/// a child or a member of. A child or a member is found by its holder and its local name.
#[derive(Drop)]
pub(crate) struct ModuleBuilder<'a> {
    pub(crate) setting: Setting,
    pub(crate) symbols: Vec<Symbol<'a>>,
    pub(crate) ids: IndexMap<&'a Id, SymbolId, RandomState>,
    pub(crate) child_names: HashMap<LocalName<'a>, SymbolId, RandomState>,
    pub(crate) member_names: HashMap<LocalName<'a>, SymbolId, RandomState>,
    pub(crate) stars: Vec<StarStatement<'a>>,
}

/// Adds an entry for a symbol's name, if it has one and its holder has no entry of that name.
fn add_name<'a>(
    names: &mut HashMap<LocalName<'a>, SymbolId, RandomState>,
    holder: SymbolId,
    name: Option<CowStr<'a>>,
    symbol: SymbolId,
) -> Result<(), BuildFault>
    ensures named { OnOk result ((q : LocalName) → symbol_by_local_name names.new q
        ≡ option_or (symbol_by_local_name names.old q) (some_if
        (is_local_name_of_symbol holder (option_map cow_str_bytes name.entry) q) symbol)) }
    ensures full { IfErr result (λ fault. fault ≡ OutOfMemory) }
{
    let Some(name) = name else {
        return Ok(());
    };
    let key = LocalName { holder, name };
    if names.contains_key(&key) {
        return Ok(());
    }
    match names.insert(key, symbol) {
        Ok(_) => Ok(()),
        Err(_) => Err(BuildFault::OutOfMemory),
    }
}

impl<'a> ModuleBuilder<'a> {
    ghost use Rattle.symbols_table.specs.inner.Tables.{HasAppliedChanges, HasValidTable};
    ghost use Rattle.symbols_table.specs.inner.ModuleBuilderSteps.{LeavesSymbolCountUnchanged};

    /// Adds a symbol with the next number and its first declaration. It fails if the limit is
    /// reached.
    pub(crate) fn add_symbol(
        &mut self,
        parent: Option<SymbolId>,
        decl: SymbolDecl<'a>,
    ) -> Result<SymbolId, BuildFault>
        requires { IsLawfulParent (length self.old.symbols.items) parent }
        ensures numbered { IfOk result (λ s. s.0 ≡ length self.old.symbols.items) }
        ensures setting { self.new.setting ≡ self.old.setting }
        ensures longer { OnOk result
            (length self.new.symbols.items ≡ length self.old.symbols.items + 1) }
        ensures table { IfOk result (λ s. (changes : List Change)
            → HasAppliedChanges self.old changes → HasAppliedChanges self.new
            ((changes ++ adds_symbol parent ∷ []) ++ adds_decl s (decl_view decl.entry) ∷ [])) }
        ensures full { IfErr result (λ fault. fault ≡ TooManySymbols
            → self.old.setting.limit ≤ length self.old.symbols.items) }
    {
        if self.symbols.len() >= self.setting.limit as usize {
            return Err(BuildFault::TooManySymbols);
        }
        let symbol_id = SymbolId(self.symbols.len() as u32);
        let has_function_decl = decl.is_function();
        self.symbols.reserve(1)?;
        let decls = SmallVec::from_buf(self.setting.alloc, [decl.with_overloads(false)]);
        self.symbols.push_reserved(Symbol {
            alloc: self.setting.alloc,
            module_id: self.setting.module_id,
            symbol_id,
            parent_id: parent,
            decls,
            tables: Tables::new(),
            has_function_decl,
        });
        Ok(symbol_id)
    }

    /// Sets an export. A name that is exported already keeps its position and gets the new symbol.
    pub(crate) fn add_export(
        &mut self,
        holder: SymbolId,
        name: &str,
        symbol: SymbolId,
    ) -> Result<(), BuildFault>
        requires holder { holder.0 < length self.old.symbols.items }
        requires symbol { symbol.0 < length self.old.symbols.items }
        requires inner { 0 < symbol.0 }
        ensures keeps { LeavesSymbolCountUnchanged result self.old self.new }
        ensures table { OnOk result ((changes : List Change) → HasAppliedChanges self.old changes
            → HasAppliedChanges self.new (changes ++ exports holder name.now symbol ∷ [])) }
        ensures full { IfErr result (λ fault. fault ≡ OutOfMemory) }
    {
        let name = String::from_str(self.setting.alloc, name)?;
        let borrowed_symbol = &mut self.symbols[holder.0 as usize];
        borrowed_symbol
            .tables
            .add_export(self.setting.alloc, self.setting.keys, name, symbol)?;
        Ok(())
    }

    /// Adds a declaration to a symbol and sets its overload flag.
    pub(crate) fn add_decl(
        &mut self,
        symbol: SymbolId,
        decl: SymbolDecl<'a>,
    ) -> Result<(), BuildFault>
        requires { symbol.0 < length self.old.symbols.items }
        ensures keeps { LeavesSymbolCountUnchanged result self.old self.new }
        ensures table { OnOk result ((changes : List Change)
            → HasAppliedChanges self.old changes → HasAppliedChanges self.new
            (changes ++ adds_decl symbol (decl_view decl.entry) ∷ [])) }
        ensures full { IfErr result (λ fault. fault ≡ OutOfMemory) }
    {
        let borrowed_symbol = &mut self.symbols[symbol.0 as usize];
        let has_overloads = decl.is_overload_after_decl(borrowed_symbol.decls.as_slice());
        let is_function = decl.is_function();
        borrowed_symbol
            .decls
            .push(decl.with_overloads(has_overloads))?;
        borrowed_symbol.has_function_decl = borrowed_symbol.has_function_decl | is_function;
        Ok(())
    }

    /// Returns the local name of a symbol, which is the name of its first declaration.
    fn local_name(&self, symbol: SymbolId) -> Result<Option<CowStr<'a>>, AllocError>
        requires { symbol.0 < length self.now.symbols.items }
        ensures { IfOk result (λ name. option_map cow_str_bytes name
            ≡ local_name_in_symbols self.now.symbols.items symbol) }
    {
        match self.symbols[symbol.0 as usize].decls.first() {
            Some(decl) => decl.maybe_name(self.setting.alloc),
            None => Ok(None),
        }
    }

    /// Returns the name by which a child is looked up in its holder: its local name. It is `None`
    /// if the holder is the module's own symbol, whose children are not looked up by name.
    fn child_name(
        &self,
        holder: SymbolId,
        symbol: SymbolId,
    ) -> Result<Option<CowStr<'a>>, AllocError>
        requires { symbol.0 < length self.now.symbols.items }
        ensures module { holder.0 ≡ 0 → IfOk result (λ name. name ≡ None) }
        ensures inner { 0 < holder.0 → IfOk result (λ name. option_map cow_str_bytes name
            ≡ local_name_in_symbols self.now.symbols.items symbol) }
    {
        if holder == SymbolId(0) {
            return Ok(None);
        }
        self.local_name(symbol)
    }

    /// Adds a child to a holder, unless it is one already.
    pub(crate) fn add_child(&mut self, holder: SymbolId, symbol: SymbolId) -> Result<(), BuildFault>
        requires holder { holder.0 < length self.old.symbols.items }
        requires symbol { symbol.0 < length self.old.symbols.items }
        ensures keeps { LeavesSymbolCountUnchanged result self.old self.new }
        ensures table { OnOk result ((changes : List Change) → HasAppliedChanges self.old changes
            → HasAppliedChanges self.new (changes ++ adds_child holder symbol ∷ [])) }
        ensures full { IfErr result (λ fault. fault ≡ OutOfMemory) }
    {
        let name = self.child_name(holder, symbol)?;
        let borrowed_symbol = &mut self.symbols[holder.0 as usize];
        borrowed_symbol
            .tables
            .add_child(self.setting.alloc, self.setting.keys, symbol)?;
        add_name(&mut self.child_names, holder, name, symbol)
    }

    /// Adds a member to a holder, unless it is one already.
    pub(crate) fn add_member(
        &mut self,
        holder: SymbolId,
        symbol: SymbolId,
    ) -> Result<(), BuildFault>
        requires holder { holder.0 < length self.old.symbols.items }
        requires symbol { symbol.0 < length self.old.symbols.items }
        ensures keeps { LeavesSymbolCountUnchanged result self.old self.new }
        ensures table { OnOk result ((changes : List Change) → HasAppliedChanges self.old changes
            → HasAppliedChanges self.new (changes ++ adds_member holder symbol ∷ [])) }
        ensures full { IfErr result (λ fault. fault ≡ OutOfMemory) }
    {
        let name = self.local_name(symbol)?;
        let borrowed_symbol = &mut self.symbols[holder.0 as usize];
        borrowed_symbol
            .tables
            .add_member(self.setting.alloc, self.setting.keys, symbol)?;
        add_name(&mut self.member_names, holder, name, symbol)
    }

    /// Adds an `export *` statement.
    pub(crate) fn add_star(&mut self, node_id: NodeId, src: &'a str) -> Result<(), BuildFault>
        ensures keeps { LeavesSymbolCountUnchanged result self.old self.new }
        ensures table { OnOk result ((changes : List Change) → HasAppliedChanges self.old changes
            → HasAppliedChanges self.new
            (changes ++ re_exports_all (record { number = node_id; specifier_text = src.now })
            ∷ [])) }
        ensures full { IfErr result (λ fault. fault ≡ OutOfMemory) }
    {
        match self.stars.push(StarStatement { node_id, src }) {
            Ok(()) => Ok(()),
            Err(_) => Err(BuildFault::OutOfMemory),
        }
    }

    /// Binds an identifier to a symbol, also one that is bound already.
    pub(crate) fn map_id(&mut self, id: &'a Id, symbol: SymbolId) -> Result<(), BuildFault>
        requires symbol { symbol.0 < length self.old.symbols.items }
        requires inner { 0 < symbol.0 }
        ensures keeps { LeavesSymbolCountUnchanged result self.old self.new }
        ensures table { OnOk result ((changes : List Change) → HasAppliedChanges self.old changes
            → HasAppliedChanges self.new (changes ++ maps (id_view id.now) symbol ∷ [])) }
        ensures full { IfErr result (λ fault. fault ≡ OutOfMemory) }
    {
        match self.ids.insert(id, symbol) {
            Ok(_) => Ok(()),
            Err(_) => Err(BuildFault::OutOfMemory),
        }
    }

    /// Returns the symbol that an identifier is bound to, if any.
    pub(crate) fn mapped_symbol(&self, id: &Id) -> Option<SymbolId>
        requires { HasValidTable self.now }
        ensures table { (changes : List Change) → HasAppliedChanges self.now changes
            → result ≡ symbol_of_ident_after_changes changes (id_view id.now) }
        ensures inside { IfSome result (λ s. s.0 < length self.now.symbols.items) }
        ensures inner { IfSome result (λ s. 0 < s.0) }
    {
        self.ids.get(&id).copied()
    }
}
