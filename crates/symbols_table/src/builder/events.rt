//! Updates of a table for the events that the builder finds in a tree.

ghost use Rattle.std.specs.Prelude.{◌≡◌, ◌+◌, ◌<◌, ◌++◌, [], ◌∷◌, List, length, IfOk};
ghost use Rattle.std.specs.Prelude.{OnOk, IfErr, IfSome, Some, None, if◌then◌else◌};
ghost use Rattle.std.specs.Cow.{cow_str_bytes};
ghost use Rattle.symbols_ast.specs.Ids.{id_view};
ghost use Rattle.symbols_table.specs.DeclViews.{decl_view, is_definition};
ghost use Rattle.symbols_table.specs.Changes.{Change, exports, adds_child, maps, exported_symbol_after_changes};
ghost use Rattle.symbols_table.specs.Changes.{symbol_of_ident_after_changes};
ghost use Rattle.symbols_table.specs.declared.builder.table.BuildFault.TheVariants.{OutOfMemory};
ghost use Rattle.symbols_table.specs.Events.{default_export_name, declare_effect, new_symbol_effect};
ghost use Rattle.symbols_table.specs.Events.{declare_alias_unless_bound_effect, default_export_effect};
ghost use Rattle.symbols_table.specs.Events.{find_member_symbol, new_member_changes, named_member_effect};
ghost use Rattle.symbols_table.specs.Events.{member_effect, expando_effect};

use crate::builder::names::LocalName;
use crate::builder::table::{BuildFault, ModuleBuilder};
use crate::decl::SymbolDecl;
use symbols_ast::ids::SymbolId;
use symbols_ast::tree::Id;

/// The exported name of a default export.
pub(crate) const DEFAULT: &str = "default";

impl<'a> ModuleBuilder<'a> {
    ghost use Rattle.symbols_table.specs.inner.Tables.{HasAppliedChanges, HasValidTable};
    ghost use Rattle.symbols_table.specs.inner.Tables.{AppliesEffectAndReturnsSymbol};
    ghost use Rattle.symbols_table.specs.inner.Tables.{AppliesEffectChanges};
    ghost use Rattle.symbols_table.specs.inner.ModuleBuilderSteps.{LeavesValidTableWithNoFewerSymbols};
    ghost use Rattle.symbols_table.specs.inner.ModuleBuilderSteps.{LeavesSymbolCountUnchanged};

    /// Adds a new symbol and binds the identifier to it.
    fn declare_new(
        &mut self,
        holder: SymbolId,
        id: &'a Id,
        decl: SymbolDecl<'a>,
    ) -> Result<SymbolId, BuildFault>
        requires filled { HasValidTable self.old }
        requires holder { holder.0 < length self.old.symbols.items }
        ensures inside { IfOk result (λ s. s.0 < length self.new.symbols.items) }
        ensures inner { IfOk result (λ s. 0 < s.0) }
        ensures keeps { LeavesValidTableWithNoFewerSymbols result self.old self.new }
        ensures table { (changes : List Change)
            → HasAppliedChanges self.old changes → AppliesEffectAndReturnsSymbol result
            (λ s. Some s) self.old.setting.limit self.new changes (new_symbol_effect changes
            (Some holder) (decl_view decl.entry) (λ s. maps (id_view id.now) s ∷ [])) }
    {
        let symbol = self.add_symbol(Some(holder), decl)?;
        self.map_id(id, symbol)?;
        Ok(symbol)
    }

    /// Declares an identifier. Its symbol gets another declaration; an unbound identifier gets a
    /// new symbol.
    pub(crate) fn declare(
        &mut self,
        holder: SymbolId,
        id: &'a Id,
        decl: SymbolDecl<'a>,
    ) -> Result<SymbolId, BuildFault>
        requires filled { HasValidTable self.old }
        requires holder { holder.0 < length self.old.symbols.items }
        ensures inside { IfOk result (λ s. s.0 < length self.new.symbols.items) }
        ensures inner { IfOk result (λ s. 0 < s.0) }
        ensures keeps { LeavesValidTableWithNoFewerSymbols result self.old self.new }
        ensures table { (changes : List Change) → HasAppliedChanges self.old changes
            → AppliesEffectAndReturnsSymbol result (λ s. Some s) self.old.setting.limit self.new
            changes (declare_effect changes holder (id_view id.now) (decl_view decl.entry)) }
    {
        if let Some(symbol) = self.mapped_symbol(id) {
            self.add_decl(symbol, decl)?;
            return Ok(symbol);
        }
        self.declare_new(holder, id, decl)
    }

    /// Declares the identifier of `import id = ..`. A bound identifier keeps its symbol, which gets
    /// no declaration; an unbound one gets a new symbol.
    pub(crate) fn declare_alias(
        &mut self,
        holder: SymbolId,
        id: &'a Id,
        decl: SymbolDecl<'a>,
    ) -> Result<SymbolId, BuildFault>
        requires filled { HasValidTable self.old }
        requires holder { holder.0 < length self.old.symbols.items }
        ensures inside { IfOk result (λ s. s.0 < length self.new.symbols.items) }
        ensures inner { IfOk result (λ s. 0 < s.0) }
        ensures keeps { LeavesValidTableWithNoFewerSymbols result self.old self.new }
        ensures table { (changes : List Change) → HasAppliedChanges self.old changes
            → AppliesEffectAndReturnsSymbol result (λ s. Some s) self.old.setting.limit self.new
            changes (declare_alias_unless_bound_effect changes
            holder (id_view id.now) (decl_view decl.entry)) }
    {
        match self.mapped_symbol(id) {
            Some(symbol) => Ok(symbol),
            None => self.declare_new(holder, id, decl),
        }
    }

    /// Returns the symbol that a holder exports under a name, if any.
    fn exported_symbol(&self, holder: SymbolId, name: &str) -> Option<SymbolId>
        requires filled { HasValidTable self.now }
        requires holder { holder.0 < length self.now.symbols.items }
        ensures table { (changes : List Change) → HasAppliedChanges self.now changes
            → result ≡ exported_symbol_after_changes changes holder name.now }
        ensures inside { IfSome result (λ s. s.0 < length self.now.symbols.items) }
        ensures inner { IfSome result (λ s. 0 < s.0) }
    {
        self.symbols[holder.0 as usize].export(name)
    }

    /// Adds a new symbol as the `default` export of a holder. It is also a child if it is a
    /// definition.
    fn declare_new_default(
        &mut self,
        holder: SymbolId,
        decl: SymbolDecl<'a>,
    ) -> Result<SymbolId, BuildFault>
        requires filled { HasValidTable self.old }
        requires holder { holder.0 < length self.old.symbols.items }
        ensures inside { IfOk result (λ s. s.0 < length self.new.symbols.items) }
        ensures inner { IfOk result (λ s. 0 < s.0) }
        ensures keeps { LeavesValidTableWithNoFewerSymbols result self.old self.new }
        ensures table { (changes : List Change)
            → HasAppliedChanges self.old changes → AppliesEffectAndReturnsSymbol result (λ s.
            Some s) self.old.setting.limit self.new changes (new_symbol_effect changes (Some holder)
            (decl_view decl.entry) (λ s. exports holder default_export_name s ∷ (if is_definition
            (decl_view decl.entry).kind then adds_child holder s ∷ [] else []))) }
    {
        let is_definition = decl.kind.is_definition();
        let symbol = self.add_symbol(Some(holder), decl)?;
        self.add_export(holder, DEFAULT, symbol)?;
        if is_definition {
            self.add_child(holder, symbol)?;
        }
        Ok(symbol)
    }

    /// Declares a default export. The symbol exported as `default` gets another declaration;
    /// without one, a new symbol is exported.
    pub(crate) fn declare_default(
        &mut self,
        holder: SymbolId,
        decl: SymbolDecl<'a>,
    ) -> Result<SymbolId, BuildFault>
        requires filled { HasValidTable self.old }
        requires holder { holder.0 < length self.old.symbols.items }
        ensures inside { IfOk result (λ s. s.0 < length self.new.symbols.items) }
        ensures inner { IfOk result (λ s. 0 < s.0) }
        ensures keeps { LeavesValidTableWithNoFewerSymbols result self.old self.new }
        ensures table { (changes : List Change) → HasAppliedChanges self.old changes
            → AppliesEffectAndReturnsSymbol result (λ s. Some s) self.old.setting.limit self.new
            changes (default_export_effect
            changes holder (decl_view decl.entry)) }
    {
        if let Some(symbol) = self.exported_symbol(holder, DEFAULT) {
            self.add_decl(symbol, decl)?;
            return Ok(symbol);
        }
        self.declare_new_default(holder, decl)
    }

    /// Returns the symbol that gets the declaration of a named member, if one exists. For a static
    /// member it is the holder's export of that name, else its first child of that local name. For
    /// an instance member it is the holder's first member of that local name.
    fn member_symbol(&self, key: &LocalName<'a>, is_static: bool) -> Option<SymbolId>
        requires filled { HasValidTable self.now }
        requires holder { key.now.holder.0 < length self.now.symbols.items }
        requires inner { 0 < key.now.holder.0 }
        ensures table { (changes : List Change) → HasAppliedChanges self.now changes
            → result ≡ find_member_symbol changes key.now.holder is_static
            (Some (cow_str_bytes key.now.name)) }
        ensures inside { IfSome result (λ s. s.0 < length self.now.symbols.items) }
    {
        if !is_static {
            return self.member_names.get(key).copied();
        }
        match self.exported_symbol(key.holder, key.name.as_str()) {
            Some(symbol) => Some(symbol),
            None => self.child_names.get(key).copied(),
        }
    }

    /// Adds a named member's symbol to its holder: a static one as an export and a child, an
    /// instance one as a member.
    fn add_named_member(
        &mut self,
        key: &LocalName<'a>,
        symbol: SymbolId,
        is_static: bool,
    ) -> Result<(), BuildFault>
        requires holder { key.now.holder.0 < length self.old.symbols.items }
        requires symbol { symbol.0 < length self.old.symbols.items }
        requires inner { 0 < symbol.0 }
        ensures keeps { LeavesSymbolCountUnchanged result self.old self.new }
        ensures table { OnOk result ((changes : List Change) → HasAppliedChanges self.old changes
            → HasAppliedChanges self.new (changes ++ new_member_changes key.now.holder is_static
            (Some (cow_str_bytes key.now.name)) symbol)) }
        ensures full { IfErr result (λ fault. fault ≡ OutOfMemory) }
    {
        if !is_static {
            return self.add_member(key.holder, symbol);
        }
        self.add_export(key.holder, key.name.as_str(), symbol)?;
        self.add_child(key.holder, symbol)
    }

    /// Adds a new symbol for a named member.
    fn declare_new_member(
        &mut self,
        key: &LocalName<'a>,
        decl: SymbolDecl<'a>,
        is_static: bool,
    ) -> Result<SymbolId, BuildFault>
        requires filled { HasValidTable self.old }
        requires holder { key.now.holder.0 < length self.old.symbols.items }
        ensures inside { IfOk result (λ s. s.0 < length self.new.symbols.items) }
        ensures keeps { LeavesValidTableWithNoFewerSymbols result self.old self.new }
        ensures table { (changes : List Change) → HasAppliedChanges self.old changes
            → AppliesEffectAndReturnsSymbol result (λ s. Some s) self.old.setting.limit
            self.new changes (new_symbol_effect changes (Some key.now.holder) (decl_view decl.entry)
            (new_member_changes key.now.holder is_static (Some (cow_str_bytes key.now.name)))) }
    {
        let symbol = self.add_symbol(Some(key.holder), decl)?;
        self.add_named_member(key, symbol, is_static)?;
        Ok(symbol)
    }

    /// Declares a named member. An existing symbol of that name gets the declaration, else a new
    /// one.
    fn declare_named_member(
        &mut self,
        key: &LocalName<'a>,
        decl: SymbolDecl<'a>,
        is_static: bool,
    ) -> Result<SymbolId, BuildFault>
        requires filled { HasValidTable self.old }
        requires holder { key.now.holder.0 < length self.old.symbols.items }
        requires inner { 0 < key.now.holder.0 }
        ensures inside { IfOk result (λ s. s.0 < length self.new.symbols.items) }
        ensures keeps { LeavesValidTableWithNoFewerSymbols result self.old self.new }
        ensures table { (changes : List Change)
            → HasAppliedChanges self.old changes → AppliesEffectAndReturnsSymbol result
            (λ s. Some s) self.old.setting.limit self.new changes (named_member_effect changes
            key.now.holder (decl_view decl.entry) is_static (Some (cow_str_bytes key.now.name))) }
    {
        if let Some(symbol) = self.member_symbol(key, is_static) {
            self.add_decl(symbol, decl)?;
            return Ok(symbol);
        }
        self.declare_new_member(key, decl, is_static)
    }

    /// Declares a member without a name, which always gets a new symbol: a child if static, else a
    /// member.
    fn declare_unnamed_member(
        &mut self,
        holder: SymbolId,
        decl: SymbolDecl<'a>,
        is_static: bool,
    ) -> Result<SymbolId, BuildFault>
        requires filled { HasValidTable self.old }
        requires holder { holder.0 < length self.old.symbols.items }
        ensures inside { IfOk result (λ s. s.0 < length self.new.symbols.items) }
        ensures keeps { LeavesValidTableWithNoFewerSymbols result self.old self.new }
        ensures table { (changes : List Change) → HasAppliedChanges self.old changes
            → AppliesEffectAndReturnsSymbol result (λ s. Some s) self.old.setting.limit self.new
            changes (named_member_effect
            changes holder (decl_view decl.entry) is_static None) }
    {
        let symbol = self.add_symbol(Some(holder), decl)?;
        if is_static {
            self.add_child(holder, symbol)?;
        } else {
            self.add_member(holder, symbol)?;
        }
        Ok(symbol)
    }

    /// Declares a member of a class or interface. An existing symbol of its name gets the
    /// declaration, else a new one.
    pub(crate) fn declare_member(
        &mut self,
        holder: SymbolId,
        decl: SymbolDecl<'a>,
        is_static: bool,
    ) -> Result<SymbolId, BuildFault>
        requires filled { HasValidTable self.old }
        requires holder { holder.0 < length self.old.symbols.items }
        requires inner { 0 < holder.0 }
        ensures inside { IfOk result (λ s. s.0 < length self.new.symbols.items) }
        ensures keeps { LeavesValidTableWithNoFewerSymbols result self.old self.new }
        ensures table { (changes : List Change) → HasAppliedChanges self.old changes
            → AppliesEffectAndReturnsSymbol result (λ s. Some s) self.old.setting.limit self.new
            changes (member_effect changes
            holder (decl_view decl.entry) is_static) }
    {
        match decl.maybe_name(self.setting.alloc)? {
            Some(name) => self.declare_named_member(&LocalName { holder, name }, decl, is_static),
            None => self.declare_unnamed_member(holder, decl, is_static),
        }
    }

    /// Declares an assigned property, as `p` in `f.p = ..`, as a static member of the symbol that
    /// the identifier is bound to. It does nothing if that symbol has no function among its
    /// declarations.
    pub(crate) fn declare_expando(
        &mut self,
        id: &Id,
        decl: SymbolDecl<'a>,
    ) -> Result<(), BuildFault>
        requires filled { HasValidTable self.old }
        ensures keeps { LeavesValidTableWithNoFewerSymbols result self.old self.new }
        ensures table { (changes : List Change) → HasAppliedChanges self.old changes
            → AppliesEffectChanges result self.old.setting.limit self.new changes
            (expando_effect changes
            (symbol_of_ident_after_changes changes (id_view id.now)) (decl_view decl.entry)) }
    {
        let Some(symbol) = self.mapped_symbol(id) else {
            return Ok(());
        };
        if self.symbols[symbol.0 as usize].has_function_decl {
            self.declare_member(symbol, decl, true)?;
        }
        Ok(())
    }
}
