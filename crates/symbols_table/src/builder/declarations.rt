//! Visits declarations: variables, functions, classes, interfaces, enums and type aliases.

ghost use Rattle.std.specs.Prelude.{◌≡◌, ℕ, ◌<◌, List, length, Some};
ghost use Rattle.std.specs.Option.{option_map, option_copied};
ghost use Rattle.symbols_ast.specs.Ids.{id_view};
ghost use Rattle.symbols_ast.specs.NodeRefs.{node_view, kind_of};
ghost use Rattle.symbols_ast.specs.WellFormed.{IsWellFormedTree};
ghost use Rattle.symbols_nodes.specs.NodeViews.{export_decl_view, symbol_node_view};
ghost use Rattle.symbols_table.specs.DeclViews.{decl_view};
ghost use Rattle.symbols_table.specs.Events.{EventEffect, effects_after_events, symbol_of_event_at};
ghost use Rattle.symbols_table.specs.Events.{changes_of_effects};
ghost use Rattle.symbols_table.specs.EventsByHolderAndStart.{no_events_by_holder_and_start, events_if_some};
ghost use Rattle.symbols_table.specs.EventsByHolderAndStart.{events_of_each};
ghost use Rattle.symbols_table.specs.MemberEvents.{member_events_at, class_or_interface_member_numbers};
ghost use Rattle.symbols_table.specs.DeclarationEvents.{unexported_node_view, maybe_exported_node};
ghost use Rattle.symbols_table.specs.DeclarationEvents.{export_or_decl_range, is_exported};
ghost use Rattle.symbols_table.specs.DeclarationEvents.{export_event_if, child_and_export_events};
ghost use Rattle.symbols_table.specs.DeclarationEvents.{declare_and_add_events, variable_node};
ghost use Rattle.symbols_table.specs.DeclarationEvents.{binding_events_at, declarator_events_at};
ghost use Rattle.symbols_table.specs.DeclarationEvents.{variable_statement_events};
ghost use Rattle.symbols_table.specs.DeclarationEvents.{export_decl_view_of_kind};
ghost use Rattle.symbols_table.specs.DeclarationEvents.{declared_name, named_decl_events};
ghost use Rattle.symbols_table.specs.DeclarationEvents.{declaration_events};
ghost use Rattle.symbols_table.specs.inner.VariablesViews.{variable_statement_view};

use crate::builder::members::member_nodes;
use crate::builder::patterns::{leaves, single_leaf};
use crate::builder::scope::Scope;
use crate::builder::table::{BuildFault, ModuleBuilder};
use crate::decl::SymbolDecl;
use std::slice;
use symbols_ast::ids::SymbolId;
use symbols_ast::tree::{Decl, Id, Kind, NodeId, NodeRef, SourceRange};
use symbols_nodes::nodes::{ExportDeclRef, SymbolNodeRef};

/// Returns the form of a declaration without `export`.
fn unexported_node<'a>(decl: ExportDeclRef<'a>) -> SymbolNodeRef<'a>
    ensures { symbol_node_view result ≡ unexported_node_view (export_decl_view decl.entry) }
{
    match decl {
        ExportDeclRef::Class(node) => SymbolNodeRef::ClassDecl(node),
        ExportDeclRef::Fn(node) => SymbolNodeRef::FnDecl(node),
        ExportDeclRef::Var(decl, declarator, ident) => SymbolNodeRef::Var(decl, declarator, ident),
        ExportDeclRef::TsEnum(node) => SymbolNodeRef::TsEnum(node),
        ExportDeclRef::TsInterface(node) => SymbolNodeRef::TsInterface(node),
        ExportDeclRef::TsModule(node) => SymbolNodeRef::TsNamespace(node),
        ExportDeclRef::TsTypeAlias(node) => SymbolNodeRef::TsTypeAlias(node),
    }
}

/// Returns the form of a declaration, with the `export` before it, if any.
pub(crate) fn declared_as<'a>(
    exported: Option<NodeRef<'a>>,
    decl: ExportDeclRef<'a>,
) -> SymbolNodeRef<'a>
    ensures { symbol_node_view result
        ≡ maybe_exported_node (option_map node_view exported.entry) (export_decl_view decl.entry) }
{
    match exported {
        Some(node) => SymbolNodeRef::ExportDecl(node, decl),
        None => unexported_node(decl),
    }
}

/// Returns the range of the `export`, or of the declaration if it has no `export`.
pub(crate) fn export_or_decl_range(exported: Option<NodeRef<'_>>, node: NodeRef<'_>) -> SourceRange
    ensures { result ≡ export_or_decl_range
        (option_map node_view exported.entry) (node_view node.entry) }
{
    match exported {
        Some(exported) => exported.range(),
        None => node.range(),
    }
}

/// Returns whether a declaration is exported: it has `export`, or it is ambient in a namespace.
pub(crate) fn is_exported(scope: Scope, exported: Option<NodeRef<'_>>) -> bool
    ensures { result ≡ is_exported scope (option_map node_view exported.entry) }
{
    exported.is_some() || (scope.ambient && !scope.is_module)
}

/// Returns the identifier of a declaration, if it has one.
pub(crate) fn declared_name<'a>(node: NodeRef<'a>) -> Option<&'a Id>
    ensures { option_copied result ≡ declared_name (node_view node.entry) }
{
    let ident = match node.ident() {
        Some(ident) => ident.sym(),
        None => None,
    };
    match ident {
        Some(name) => Some(name),
        None => node.id()?.sym(),
    }
}

/// Returns the declaration if it is a class, a function, an interface, a type alias or an enum.
fn export_decl_view_of_kind<'a>(node: NodeRef<'a>) -> Option<ExportDeclRef<'a>>
    ensures { Some (option_map export_decl_view result) ≡ option_map
        (export_decl_view_of_kind (node_view node.entry)) (kind_of (node_view node.entry)) }
{
    match node.kind() {
        Kind::Decl(Decl::ClassDecl { .. }) => Some(ExportDeclRef::Class(node)),
        Kind::Decl(Decl::FnDecl { .. }) => Some(ExportDeclRef::Fn(node)),
        Kind::Decl(Decl::TsInterfaceDecl { .. }) => Some(ExportDeclRef::TsInterface(node)),
        Kind::Decl(Decl::TsTypeAliasDecl { .. }) => Some(ExportDeclRef::TsTypeAlias(node)),
        Kind::Decl(Decl::TsEnumDecl { .. }) => Some(ExportDeclRef::TsEnum(node)),
        _ => None,
    }
}

/// A variable statement with its scope and the `export` before it, if any.
#[derive(Clone, Copy)]
pub(crate) struct VariableStatement<'a> {
    scope: Scope,
    exported: Option<NodeRef<'a>>,
    is_using: bool,
    decl: NodeRef<'a>,
}

/// Returns the form of a variable: with or without `export`, or of `using`.
fn variable_node<'a>(
    variables: VariableStatement<'a>,
    declarator: NodeRef<'a>,
    ident: NodeRef<'a>,
) -> SymbolNodeRef<'a>
    ensures { symbol_node_view result ≡ variable_node (option_map node_view
        variables.entry.exported) variables.entry.is_using (node_view variables.entry.decl)
        (node_view declarator.entry) (node_view ident.entry) }
{
    let decl = variables.decl;
    if variables.is_using {
        SymbolNodeRef::UsingVar(decl, declarator, ident)
    } else {
        declared_as(
            variables.exported,
            ExportDeclRef::Var(decl, declarator, ident),
        )
    }
}

impl<'a> ModuleBuilder<'a> {
    ghost use Rattle.symbols_table.specs.inner.Tables.{HasAppliedChanges, HasValidTable};
    ghost use Rattle.symbols_table.specs.inner.Tables.{AppliesEffects, AppliesEventsUnderHolder};
    ghost use Rattle.symbols_table.specs.inner.ModuleBuilderSteps.{LeavesValidTableWithNoFewerSymbols};

    /// Exports the symbol under the name, if it is exported.
    pub(crate) fn export_event_if(
        &mut self,
        holder: SymbolId,
        symbol: SymbolId,
        name: &str,
        is_exported: bool,
    ) -> Result<(), BuildFault>
        requires filled { HasValidTable self.old }
        requires holder { holder.0 < length self.old.symbols.items }
        requires symbol { symbol.0 < length self.old.symbols.items }
        requires inner { 0 < symbol.0 }
        ensures keeps { LeavesValidTableWithNoFewerSymbols result self.old self.new }
        ensures table { (rows : List EventEffect) (h s : ℕ)
            → HasAppliedChanges self.old (changes_of_effects rows)
            → symbol_of_event_at rows h ≡ Some holder → symbol_of_event_at rows s ≡ Some symbol
            → AppliesEffects result self.old.setting.limit self.new
            (effects_after_events rows (export_event_if is_exported h name.now s)) }
    {
        if is_exported {
            self.add_export(holder, name, symbol)?;
        }
        Ok(())
    }

    /// Makes the symbol a child of its holder and exports it, if it is exported.
    pub(crate) fn add_to_holder(
        &mut self,
        holder: SymbolId,
        symbol: SymbolId,
        name: &str,
        is_exported: bool,
    ) -> Result<(), BuildFault>
        requires filled { HasValidTable self.old }
        requires holder { holder.0 < length self.old.symbols.items }
        requires symbol { symbol.0 < length self.old.symbols.items }
        requires inner { 0 < symbol.0 }
        ensures keeps { LeavesValidTableWithNoFewerSymbols result self.old self.new }
        ensures table { (rows : List EventEffect) (h s : ℕ)
            → HasAppliedChanges self.old (changes_of_effects rows)
            → symbol_of_event_at rows h ≡ Some holder → symbol_of_event_at rows s ≡ Some symbol
            → AppliesEffects result self.old.setting.limit self.new
            (effects_after_events rows (child_and_export_events is_exported h name.now s)) }
    {
        self.add_child(holder, symbol)?;
        self.export_event_if(holder, symbol, name, is_exported)
    }

    /// Declares an identifier and adds its symbol to the holder.
    fn declare_in_holder(
        &mut self,
        holder: SymbolId,
        id: &'a Id,
        decl: SymbolDecl<'a>,
        is_exported: bool,
    ) -> Result<(), BuildFault>
        requires filled { HasValidTable self.old }
        requires holder { holder.0 < length self.old.symbols.items }
        ensures keeps { LeavesValidTableWithNoFewerSymbols result self.old self.new }
        ensures table { AppliesEventsUnderHolder result self.old self.new
            (declare_and_add_events is_exported
            (id_view id.now) (decl_view decl.entry) no_events_by_holder_and_start) holder }
    {
        let symbol = self.declare(holder, id, decl)?;
        self.add_to_holder(holder, symbol, id.name.as_str(), is_exported)
    }

    /// Declares an identifier that the pattern of a declarator binds.
    fn walk_binding(
        &mut self,
        holder: SymbolId,
        variables: VariableStatement<'a>,
        declarator: NodeRef<'a>,
        n: NodeId,
    ) -> Result<(), BuildFault>
        requires filled { HasValidTable self.old }
        requires holder { holder.0 < length self.old.symbols.items }
        ensures keeps { LeavesValidTableWithNoFewerSymbols result self.old self.new }
        ensures table { AppliesEventsUnderHolder result self.old self.new (binding_events_at
            (variable_statement_view variables.entry) (node_view declarator.entry) n) holder }
    {
        let Some(ident) = variables.decl.node(n) else {
            return Ok(());
        };
        let Some(sym) = ident.sym() else {
            return Ok(());
        };
        let form = variable_node(variables, declarator, ident);
        let decl = SymbolDecl::definition(form, declarator.range());
        self.declare_in_holder(
            holder,
            sym,
            decl,
            is_exported(variables.scope, variables.exported),
        )
    }

    /// Declares the identifiers that the pattern of a declarator binds.
    fn walk_bindings(
        &mut self,
        holder: SymbolId,
        variables: VariableStatement<'a>,
        declarator: NodeRef<'a>,
        names: &[NodeId],
    ) -> Result<(), BuildFault>
        requires filled { HasValidTable self.old }
        requires holder { holder.0 < length self.old.symbols.items }
        ensures keeps { LeavesValidTableWithNoFewerSymbols result self.old self.new }
        ensures table { AppliesEventsUnderHolder result self.old self.new
            (events_of_each (binding_events_at (variable_statement_view variables.entry)
            (node_view declarator.entry)) names.now) holder }
    {
        for n in names {
            self.walk_binding(holder, variables, declarator, *n)?;
        }
        Ok(())
    }

    /// Visits a variable declarator.
    fn walk_declarator(
        &mut self,
        holder: SymbolId,
        variables: VariableStatement<'a>,
        n: NodeId,
    ) -> Result<(), BuildFault>
        requires well_formed { IsWellFormedTree variables.decl.tree.now.nodes.items }
        requires filled { HasValidTable self.old }
        requires holder { holder.0 < length self.old.symbols.items }
        ensures keeps { LeavesValidTableWithNoFewerSymbols result self.old self.new }
        ensures table { AppliesEventsUnderHolder result self.old self.new
            (declarator_events_at (variable_statement_view variables.entry) n) holder }
    {
        let Some(declarator) = variables.decl.node(n) else {
            return Ok(());
        };
        let Some(pattern) = declarator.name() else {
            return Ok(());
        };
        if let Some(name) = single_leaf(pattern) {
            return self.walk_bindings(holder, variables, declarator, slice::from_ref(&name));
        }
        let names = leaves(self.setting.alloc, pattern)?;
        self.walk_bindings(holder, variables, declarator, &names)
    }

    /// Visits a variable statement.
    fn walk_variables(
        &mut self,
        holder: SymbolId,
        variables: VariableStatement<'a>,
    ) -> Result<(), BuildFault>
        requires well_formed { IsWellFormedTree variables.decl.tree.now.nodes.items }
        requires filled { HasValidTable self.old }
        requires holder { holder.0 < length self.old.symbols.items }
        ensures keeps { LeavesValidTableWithNoFewerSymbols result self.old self.new }
        ensures table { AppliesEventsUnderHolder result self.old self.new
            (variable_statement_events (variable_statement_view variables.entry)) holder }
    {
        for n in variables.decl.decls() {
            self.walk_declarator(holder, variables, *n)?;
        }
        Ok(())
    }

    /// Declares an identifier, visits the members of its node, and adds its symbol to the holder.
    fn declare_with_members(
        &mut self,
        holder: SymbolId,
        id: &'a Id,
        decl: SymbolDecl<'a>,
        node: NodeRef<'a>,
        is_exported: bool,
    ) -> Result<(), BuildFault>
        requires filled { HasValidTable self.old }
        requires holder { holder.0 < length self.old.symbols.items }
        ensures keeps { LeavesValidTableWithNoFewerSymbols result self.old self.new }
        ensures table { AppliesEventsUnderHolder result self.old self.new
            (declare_and_add_events is_exported (id_view id.now) (decl_view decl.entry)
            (events_of_each (member_events_at node.entry.tree.now)
            (class_or_interface_member_numbers (node_view node.entry))))
            holder }
    {
        let symbol = self.declare(holder, id, decl)?;
        self.walk_members(symbol, node, member_nodes(node))?;
        self.add_to_holder(holder, symbol, id.name.as_str(), is_exported)
    }

    /// Visits a class, a function, an interface, an enum or a type alias, with its members.
    fn walk_named(
        &mut self,
        holder: SymbolId,
        scope: Scope,
        exported: Option<NodeRef<'a>>,
        node: NodeRef<'a>,
        form: ExportDeclRef<'a>,
    ) -> Result<(), BuildFault>
        requires filled { HasValidTable self.old }
        requires holder { holder.0 < length self.old.symbols.items }
        ensures keeps { LeavesValidTableWithNoFewerSymbols result self.old self.new }
        ensures table { AppliesEventsUnderHolder result self.old self.new
            (named_decl_events scope (option_map node_view exported.entry) (node_view node.entry)
            (export_decl_view form.entry)) holder }
    {
        let Some(id) = declared_name(node) else {
            return Ok(());
        };
        let decl = SymbolDecl::definition(
            declared_as(exported, form),
            export_or_decl_range(exported, node),
        );
        self.declare_with_members(holder, id, decl, node, is_exported(scope, exported))
    }

    /// Visits a declaration that is no namespace, with the `export` before it, if any.
    pub(crate) fn walk_declaration(
        &mut self,
        holder: SymbolId,
        scope: Scope,
        exported: Option<NodeRef<'a>>,
        node: NodeRef<'a>,
    ) -> Result<(), BuildFault>
        requires well_formed { IsWellFormedTree node.tree.now.nodes.items }
        requires filled { HasValidTable self.old }
        requires holder { holder.0 < length self.old.symbols.items }
        ensures keeps { LeavesValidTableWithNoFewerSymbols result self.old self.new }
        ensures table { AppliesEventsUnderHolder result self.old self.new
            (events_if_some (kind_of (node_view node.entry))
            (declaration_events scope (option_map node_view exported.entry) (node_view node.entry)))
            holder }
    {
        let is_using = match node.kind() {
            Kind::Decl(Decl::VarDecl { .. }) => false,
            Kind::Decl(Decl::UsingDecl { .. }) => true,
            _ => {
                return match export_decl_view_of_kind(node) {
                    Some(form) => self.walk_named(holder, scope, exported, node, form),
                    None => Ok(()),
                };
            }
        };
        let variables = VariableStatement {
            scope,
            exported,
            is_using,
            decl: node,
        };
        self.walk_variables(holder, variables)
    }
}
