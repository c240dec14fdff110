//! Visits imports, exports and expression statements.

ghost use Rattle.std.specs.Prelude.{◌≡◌, ℕ, ◌<◌, List, length, OnOk, IfOk, IfErr, Some};
ghost use Rattle.std.specs.Prelude.{string_bytes};
ghost use Rattle.std.specs.Option.{option_map, option_copied, option_and_then};
ghost use Rattle.symbols_ast.specs.NodeRefs.{node_view, kind_of};
ghost use Rattle.symbols_ast.specs.WellFormed.{IsWellFormedTree};
ghost use Rattle.symbols_table.specs.DeclViews.{decl_view, decl_kind_view, file_dep_name_view};
ghost use Rattle.symbols_table.specs.DeclViews.{file_ref};
ghost use Rattle.symbols_table.specs.EventsByHolderAndStart.{events_if_some, events_of_each};
ghost use Rattle.symbols_table.specs.Events.{EventEffect, changes_of_effects, symbol_of_event_at};
ghost use Rattle.symbols_table.specs.Events.{effects_after_events};
ghost use Rattle.symbols_table.specs.DeclarationEvents.{declared_name};
ghost use Rattle.symbols_table.specs.declared.builder.table.BuildFault.TheVariants.{OutOfMemory};
ghost use Rattle.symbols_table.specs.ModuleEvents.{import_dep_name, import_specifier_events_at};
ghost use Rattle.symbols_table.specs.ModuleEvents.{new_exported_symbol_events, orig_specifier_name};
ghost use Rattle.symbols_table.specs.ModuleEvents.{orig_specifier_decl_kind, export_named_specifier_events_at};
ghost use Rattle.symbols_table.specs.ModuleEvents.{export_specifier_events_at, bind_events_if, default_decl_events};
ghost use Rattle.symbols_table.specs.ModuleEvents.{default_export_events, default_expr_decl};
ghost use Rattle.symbols_table.specs.ModuleEvents.{export_assignment_of_ident_events, import_equals_decl_kind};
ghost use Rattle.symbols_table.specs.ModuleEvents.{import_equals_events, expando_events};
ghost use Rattle.symbols_table.specs.ModuleEvents.{import_export_or_expando_events};

use crate::builder::declarations::declared_name;
use crate::builder::events::DEFAULT;
use crate::builder::members::member_nodes;
use crate::builder::table::{BuildFault, ModuleBuilder};
use crate::decl::{FileDep, FileDepName, SymbolDecl, SymbolDeclKind};
use std::alloc::{AllocError, Global};
use symbols_ast::ids::SymbolId;
use symbols_ast::tree::{Expr, Id, Item, Kind, NodeId, NodeRef};
use symbols_nodes::deps::entity_name;
use symbols_nodes::nodes::{ExpandoPropertyRef, SymbolNodeRef};

/// Returns the part of the other module that an import specifier imports under a local name.
fn import_dep_name<'a>(node: NodeRef<'a>, local: &'a Id) -> Option<FileDepName<'a>>
    ensures { option_map file_dep_name_view result
        ≡ option_and_then (import_dep_name local.now) (kind_of (node_view node.entry)) }
{
    match node.kind() {
        Kind::Item(Item::ImportNamed { imported, .. }) => match imported {
            Some(name) => Some(FileDepName::Name(name.as_str())),
            None => Some(FileDepName::Name(local.name.as_str())),
        },
        Kind::Item(Item::ImportDefault { .. }) => Some(FileDepName::Name(DEFAULT)),
        Kind::Item(Item::ImportNamespace { .. }) => Some(FileDepName::Star),
        _ => None,
    }
}

/// Returns the name before `as`, an identifier or a string.
fn orig_specifier_name(kind: &Kind) -> Option<&str>
    ensures { option_copied result ≡ orig_specifier_name kind.now }
{
    match kind {
        Kind::Expr(Expr::Ident { sym }) => Some(sym.name.as_str()),
        Kind::Expr(Expr::Str { value }) => Some(value.as_str()),
        _ => None,
    }
}

/// Returns the declaration kind of a name of another module, by the specifier.
fn file_ref<'a>(name: FileDepName<'a>, specifier: &'a str) -> SymbolDeclKind<'a>
    ensures { decl_kind_view result ≡ file_ref (file_dep_name_view name.entry) specifier.now }
{
    SymbolDeclKind::FileRef(FileDep { name, specifier })
}

/// Returns the declaration kind of an export's name before `as`: with a specifier a name of the
/// other module, else an alias of a name of this one.
fn orig_specifier_decl_kind<'a>(
    src: Option<&'a str>,
    orig: NodeRef<'a>,
    name: &'a str,
) -> Option<SymbolDeclKind<'a>>
    ensures { Some (option_map decl_kind_view result)
        ≡ option_map (λ kind. orig_specifier_decl_kind (option_copied src.entry) kind name.now)
        (kind_of (node_view orig.entry)) }
{
    match src {
        Some(src) => Some(file_ref(FileDepName::Name(name), src)),
        None => Some(SymbolDeclKind::Target(orig.sym()?)),
    }
}

/// Returns the declaration of `export default expr`: an alias if the expression is an identifier,
/// else a definition.
fn default_expr_decl<'a>(node: NodeRef<'a>, expr: NodeRef<'a>) -> SymbolDecl<'a>
    ensures { Some (decl_view result) ≡ option_map (default_expr_decl (node_view node.entry)
        (node_view expr.entry)) (kind_of (node_view expr.entry)) }
{
    match expr.kind() {
        Kind::Expr(Expr::Ident { sym }) => SymbolDecl::new(
            SymbolDeclKind::Target(sym),
            expr.range(),
        ),
        _ => SymbolDecl::definition(SymbolNodeRef::ExportDefaultExpr(node), node.range()),
    }
}

/// Returns the declaration kind of `import id = ..`: a dotted name of this module, or the default
/// export of another one.
fn import_equals_decl_kind<'a>(
    alloc: Global,
    node: NodeRef<'a>,
    entity: Option<NodeId>,
    external: &'a Option<String>,
) -> Result<Option<SymbolDeclKind<'a>>, AllocError>
    ensures { IfOk result (λ kind. option_map decl_kind_view kind
        ≡ import_equals_decl_kind (node_view node.entry) entity external.now) }
{
    let Some(entity) = entity else {
        return match external {
            Some(text) => Ok(Some(file_ref(FileDepName::Name(DEFAULT), text.as_str()))),
            None => Ok(None),
        };
    };
    let Some(entity) = node.node(entity) else {
        return Ok(None);
    };
    match entity_name(alloc, entity)? {
        Some(name) => Ok(Some(SymbolDeclKind::QualifiedTarget(name.leftmost, name.parts))),
        None => Ok(None),
    }
}

impl<'a> ModuleBuilder<'a> {
    ghost use Rattle.symbols_table.specs.inner.Tables.{HasAppliedChanges, HasValidTable};
    ghost use Rattle.symbols_table.specs.inner.Tables.{AppliesEventsUnderHolder};
    ghost use Rattle.symbols_table.specs.inner.ModuleBuilderSteps.{LeavesValidTableWithNoFewerSymbols};

    /// Visits an import specifier.
    fn walk_import_specifier(
        &mut self,
        holder: SymbolId,
        src: &'a str,
        import: NodeRef<'a>,
        n: NodeId,
    ) -> Result<(), BuildFault>
        requires filled { HasValidTable self.old }
        requires holder { holder.0 < length self.old.symbols.items }
        ensures keeps { LeavesValidTableWithNoFewerSymbols result self.old self.new }
        ensures table { AppliesEventsUnderHolder result self.old self.new
            (import_specifier_events_at src.now import.entry.tree.now n) holder }
    {
        let Some(node) = import.node(n) else {
            return Ok(());
        };
        let Some(local) = node.local() else {
            return Ok(());
        };
        let Some(id) = local.sym() else {
            return Ok(());
        };
        let Some(name) = import_dep_name(node, id) else {
            return Ok(());
        };
        self.declare(
            holder,
            id,
            SymbolDecl::new(file_ref(name, src), node.range()),
        )?;
        Ok(())
    }

    /// Visits the specifiers of an import.
    fn walk_import(
        &mut self,
        holder: SymbolId,
        node: NodeRef<'a>,
        specifiers: &'a [NodeId],
        src: &'a str,
    ) -> Result<(), BuildFault>
        requires filled { HasValidTable self.old }
        requires holder { holder.0 < length self.old.symbols.items }
        ensures keeps { LeavesValidTableWithNoFewerSymbols result self.old self.new }
        ensures table { AppliesEventsUnderHolder result self.old self.new (events_of_each
            (import_specifier_events_at src.now node.entry.tree.now) specifiers.now) holder }
    {
        for n in specifiers {
            self.walk_import_specifier(holder, src, node, *n)?;
        }
        Ok(())
    }

    /// Adds a new symbol and exports it under a name. No identifier is bound to it.
    fn export_new(
        &mut self,
        holder: SymbolId,
        name: &str,
        decl: SymbolDecl<'a>,
    ) -> Result<(), BuildFault>
        requires filled { HasValidTable self.old }
        requires holder { holder.0 < length self.old.symbols.items }
        ensures keeps { LeavesValidTableWithNoFewerSymbols result self.old self.new }
        ensures table { AppliesEventsUnderHolder result self.old self.new
            (new_exported_symbol_events name.now (decl_view decl.entry)) holder }
    {
        let symbol = self.add_symbol(Some(holder), decl)?;
        self.add_export(holder, name, symbol)?;
        Ok(())
    }

    /// Visits an export specifier `orig as exported`.
    fn walk_export_specifier(
        &mut self,
        holder: SymbolId,
        src: Option<&'a str>,
        node: NodeRef<'a>,
        exported: &'a Option<String>,
    ) -> Result<(), BuildFault>
        requires filled { HasValidTable self.old }
        requires holder { holder.0 < length self.old.symbols.items }
        ensures keeps { LeavesValidTableWithNoFewerSymbols result self.old self.new }
        ensures table { AppliesEventsUnderHolder result self.old self.new
            (export_named_specifier_events_at (option_copied src.entry) (node_view node.entry)
            (option_map string_bytes exported.now)) holder }
    {
        let Some(orig) = node.orig() else {
            return Ok(());
        };
        let Some(name) = orig_specifier_name(orig.kind()) else {
            return Ok(());
        };
        let Some(kind) = orig_specifier_decl_kind(src, orig, name) else {
            return Ok(());
        };
        let exported = match exported {
            Some(exported) => exported.as_str(),
            None => name,
        };
        self.export_new(holder, exported, SymbolDecl::new(kind, node.range()))
    }

    /// Visits a specifier of an `export { .. }`.
    fn walk_export_name(
        &mut self,
        holder: SymbolId,
        src: Option<&'a str>,
        export: NodeRef<'a>,
        n: NodeId,
    ) -> Result<(), BuildFault>
        requires filled { HasValidTable self.old }
        requires holder { holder.0 < length self.old.symbols.items }
        ensures keeps { LeavesValidTableWithNoFewerSymbols result self.old self.new }
        ensures table { AppliesEventsUnderHolder result self.old self.new
            (export_specifier_events_at (option_copied src.entry) export.entry.tree.now n) holder }
    {
        let Some(node) = export.node(n) else {
            return Ok(());
        };
        match node.kind() {
            Kind::Item(Item::ExportSpecifier { exported, .. }) => {
                self.walk_export_specifier(holder, src, node, exported)
            }
            Kind::Item(Item::ExportNamespace { name }) => match src {
                Some(src) => {
                    let decl = SymbolDecl::new(file_ref(FileDepName::Star, src), node.range());
                    self.export_new(holder, name.as_str(), decl)
                }
                None => Ok(()),
            },
            _ => Ok(()),
        }
    }

    /// Visits the specifiers of an `export { .. }`.
    fn walk_export_named(
        &mut self,
        holder: SymbolId,
        node: NodeRef<'a>,
        specifiers: &'a [NodeId],
        src: Option<&'a str>,
    ) -> Result<(), BuildFault>
        requires filled { HasValidTable self.old }
        requires holder { holder.0 < length self.old.symbols.items }
        ensures keeps { LeavesValidTableWithNoFewerSymbols result self.old self.new }
        ensures table { AppliesEventsUnderHolder result self.old self.new
            (events_of_each (export_specifier_events_at
            (option_copied src.entry) node.entry.tree.now) specifiers.now) holder }
    {
        for n in specifiers {
            self.walk_export_name(holder, src, node, *n)?;
        }
        Ok(())
    }

    /// Binds the identifier of a declaration, if it has one, to the symbol.
    fn bind_name(&mut self, decl: NodeRef<'a>, symbol: SymbolId) -> Result<(), BuildFault>
        requires filled { HasValidTable self.old }
        requires symbol { symbol.0 < length self.old.symbols.items }
        requires inner { 0 < symbol.0 }
        ensures keeps { LeavesValidTableWithNoFewerSymbols result self.old self.new }
        ensures table { OnOk result ((rows : List EventEffect) (s : ℕ) → HasAppliedChanges self.old
            (changes_of_effects rows) → symbol_of_event_at rows s ≡ Some symbol
            → HasAppliedChanges self.new (changes_of_effects (effects_after_events rows
            (bind_events_if (declared_name (node_view decl.entry)) s)))) }
        ensures full { IfErr result (λ fault. fault ≡ OutOfMemory) }
    {
        match declared_name(decl) {
            Some(id) => self.map_id(id, symbol),
            None => Ok(()),
        }
    }

    /// Visits `export default` before a class, a function or an interface. The declaration's own
    /// identifier is bound to the default symbol, which gets the members.
    fn walk_export_default_decl(
        &mut self,
        holder: SymbolId,
        node: NodeRef<'a>,
        decl: NodeRef<'a>,
    ) -> Result<(), BuildFault>
        requires filled { HasValidTable self.old }
        requires holder { holder.0 < length self.old.symbols.items }
        ensures keeps { LeavesValidTableWithNoFewerSymbols result self.old self.new }
        ensures table { AppliesEventsUnderHolder result self.old self.new
            (default_decl_events (node_view node.entry) (node_view decl.entry)) holder }
    {
        let definition = SymbolDecl::definition(
            SymbolNodeRef::ExportDefaultDecl(node),
            node.range(),
        );
        let symbol = self.declare_default(holder, definition)?;
        self.bind_name(decl, symbol)?;
        self.walk_members(symbol, decl, member_nodes(decl))
    }

    /// Declares a default export that has no members.
    fn walk_default(&mut self, holder: SymbolId, decl: SymbolDecl<'a>) -> Result<(), BuildFault>
        requires filled { HasValidTable self.old }
        requires holder { holder.0 < length self.old.symbols.items }
        ensures keeps { LeavesValidTableWithNoFewerSymbols result self.old self.new }
        ensures table { AppliesEventsUnderHolder result self.old self.new
            (default_export_events (decl_view decl.entry)) holder }
    {
        self.declare_default(holder, decl)?;
        Ok(())
    }

    /// Visits `export = expr`. Only an identifier is exported; any other expression is skipped.
    fn walk_export_assignment(
        &mut self,
        holder: SymbolId,
        expr: NodeRef<'a>,
    ) -> Result<(), BuildFault>
        requires filled { HasValidTable self.old }
        requires holder { holder.0 < length self.old.symbols.items }
        ensures keeps { LeavesValidTableWithNoFewerSymbols result self.old self.new }
        ensures table { AppliesEventsUnderHolder result self.old self.new
            (events_if_some (kind_of (node_view expr.entry))
            (export_assignment_of_ident_events (node_view expr.entry))) holder }
    {
        match expr.kind() {
            Kind::Expr(Expr::Ident { sym }) => {
                let decl = SymbolDecl::new(SymbolDeclKind::Target(sym), expr.range());
                self.walk_default(holder, decl)
            }
            _ => Ok(()),
        }
    }

    /// Visits `import id = ..`.
    fn walk_import_equals(
        &mut self,
        holder: SymbolId,
        node: NodeRef<'a>,
        entity: Option<NodeId>,
        external: &'a Option<String>,
        is_export: bool,
    ) -> Result<(), BuildFault>
        requires well_formed { IsWellFormedTree node.tree.now.nodes.items }
        requires filled { HasValidTable self.old }
        requires holder { holder.0 < length self.old.symbols.items }
        ensures keeps { LeavesValidTableWithNoFewerSymbols result self.old self.new }
        ensures table { AppliesEventsUnderHolder result self.old self.new
            (import_equals_events (node_view node.entry) is_export entity external.now) holder }
    {
        let Some(ident) = node.id() else {
            return Ok(());
        };
        let Some(id) = ident.sym() else {
            return Ok(());
        };
        let Some(kind) = import_equals_decl_kind(self.setting.alloc, node, entity, external)? else {
            return Ok(());
        };
        let symbol = self.declare_alias(holder, id, SymbolDecl::new(kind, node.range()))?;
        self.export_event_if(holder, symbol, id.name.as_str(), is_export)
    }

    /// Visits an expression statement. An assignment like `f.p = ..` may add a property to a
    /// function.
    fn walk_expression(&mut self, holder: SymbolId, expr: NodeRef<'a>) -> Result<(), BuildFault>
        requires filled { HasValidTable self.old }
        requires holder { holder.0 < length self.old.symbols.items }
        ensures keeps { LeavesValidTableWithNoFewerSymbols result self.old self.new }
        ensures table { AppliesEventsUnderHolder result self.old self.new
            (expando_events (node_view expr.entry)) holder }
    {
        let Some(expando) = ExpandoPropertyRef::maybe_new(expr) else {
            return Ok(());
        };
        let Some(id) = expando.obj_ident().sym() else {
            return Ok(());
        };
        let form = SymbolNodeRef::ExpandoProperty(expando);
        self.declare_expando(id, SymbolDecl::definition(form, expr.range()))
    }

    /// Visits an import, an export or an expression statement. Other items are skipped.
    pub(crate) fn walk_module_item(
        &mut self,
        holder: SymbolId,
        node: NodeRef<'a>,
    ) -> Result<(), BuildFault>
        requires well_formed { IsWellFormedTree node.tree.now.nodes.items }
        requires filled { HasValidTable self.old }
        requires holder { holder.0 < length self.old.symbols.items }
        ensures keeps { LeavesValidTableWithNoFewerSymbols result self.old self.new }
        ensures table { AppliesEventsUnderHolder result self.old self.new
            (events_if_some (kind_of (node_view node.entry))
            (import_export_or_expando_events (node_view node.entry))) holder }
    {
        let Kind::Item(item) = node.kind() else {
            return Ok(());
        };
        match item {
            Item::Import { specifiers, src } => self.walk_import(
                holder,
                node,
                specifiers,
                src.as_str(),
            ),
            Item::ExportNamed { specifiers, src } => {
                self.walk_export_named(holder, node, specifiers, src.as_deref())
            }
            Item::ExportDefaultDecl { .. } => match node.decl() {
                Some(decl) => self.walk_export_default_decl(holder, node, decl),
                None => Ok(()),
            },
            Item::ExportDefaultExpr { .. } => match node.expr() {
                Some(expr) => self.walk_default(holder, default_expr_decl(node, expr)),
                None => Ok(()),
            },
            Item::TsExportAssignment { .. } => match node.expr() {
                Some(expr) => self.walk_export_assignment(holder, expr),
                None => Ok(()),
            },
            Item::ExportAll { src } => self.add_star(node.node_id(), src.as_str()),
            Item::TsImportEqualsDecl {
                is_export,
                entity,
                external,
                ..
            } => self.walk_import_equals(holder, node, *entity, external, *is_export),
            Item::ExprStmt { .. } => match node.expr() {
                Some(expr) => self.walk_expression(holder, expr),
                None => Ok(()),
            },
            _ => Ok(()),
        }
    }
}
