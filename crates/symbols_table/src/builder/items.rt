//! Visits the items of a module and of its namespaces.

ghost use Rattle.std.specs.Prelude.{◌≡◌, ℕ, suc, ◌+◌, ◌<◌, ◌≤◌, ◌||◌, List, length, IfOk, Some};
ghost use Rattle.std.specs.Option.{option_map, option_copied, option_and_then};
ghost use Rattle.symbols_ast.specs.NodeRefs.{node_view, kind_of, child_in_field};
ghost use Rattle.symbols_ast.specs.Fields.{id_child_of, body_child_of};
ghost use Rattle.symbols_ast.specs.WellFormed.{IsWellFormedTree};
ghost use Rattle.symbols_table.specs.inner.NamespaceViews.{namespace_view};
ghost use Rattle.symbols_table.specs.EventsByHolderAndStart.{events_if_some, id_of_ident_child};
ghost use Rattle.symbols_table.specs.inner.Levels.{AreGreaterNodeNumbers, AppliesEventsAndReturnsSymbolOfFirst};
ghost use Rattle.symbols_table.specs.Events.{EventEffect, symbol_of_event_at, changes_of_effects};
ghost use Rattle.symbols_table.specs.TreeEvents.{as_namespace, namespace_of, is_ambient_namespace};
ghost use Rattle.symbols_table.specs.TreeEvents.{namespace_part_decl_events, namespace_body_events_within_levels};
ghost use Rattle.symbols_table.specs.TreeEvents.{namespace_body_events, namespace_events, non_namespace_item_events};
ghost use Rattle.symbols_table.specs.TreeEvents.{item_events_within_levels, item_list_events_within_levels};

use crate::builder::declarations::{declared_as, export_or_decl_range, is_exported};
use crate::builder::scope::Scope;
use crate::builder::table::{BuildFault, ModuleBuilder};
use crate::decl::SymbolDecl;
use symbols_ast::ids::SymbolId;
use symbols_ast::tree::{Decl, Id, Item, Kind, NodeId, NodeRef};
use symbols_nodes::nodes::{ExportDeclRef, SymbolNodeRef};

/// A namespace declaration, and the `export` before it, if any.
#[derive(Clone, Copy)]
pub(crate) struct Namespace<'a> {
    exported: Option<NodeRef<'a>>,
    decl: NodeRef<'a>,
}

/// Returns the namespace declaration that a node is, if it is one.
fn as_namespace<'a>(exported: Option<NodeRef<'a>>, node: NodeRef<'a>) -> Option<Namespace<'a>>
    ensures { option_map namespace_view result ≡ option_and_then (as_namespace
        (option_map node_view exported.entry) (node_view node.entry))
        (kind_of (node_view node.entry)) }
{
    match node.kind() {
        Kind::Decl(Decl::TsModuleDecl { .. }) => Some(Namespace {
            exported,
            decl: node,
        }),
        _ => None,
    }
}

/// Returns the namespace declaration that an item is, with the `export` before it, if any.
fn namespace_of<'a>(node: NodeRef<'a>) -> Option<Namespace<'a>>
    ensures { option_map namespace_view result
        ≡ option_and_then (namespace_of (node_view node.entry)) (kind_of (node_view node.entry)) }
{
    match node.kind() {
        Kind::Item(Item::ExportDecl { .. }) => as_namespace(Some(node), node.decl()?),
        _ => as_namespace(None, node),
    }
}

/// Returns whether a namespace has `declare`, so that its items are ambient.
fn is_ambient_namespace(kind: &Kind) -> bool
    ensures { result ≡ is_ambient_namespace kind.now }
{
    match kind {
        Kind::Decl(Decl::TsModuleDecl { declare, .. }) => *declare,
        _ => false,
    }
}

/// Returns whether the items of a namespace are ambient.
fn inner_ambient(scope: Scope, kind: &Kind) -> bool
    ensures { result ≡ (scope.ambient || is_ambient_namespace kind.now) }
{
    scope.ambient || is_ambient_namespace(kind)
}

/// Returns the identifier of a namespace, or of a later part of a dotted one. It is `None` if the
/// name is a string, as in `declare module "m"`.
fn namespace_id<'a>(node: NodeRef<'a>) -> Option<&'a Id>
    ensures { option_copied result ≡ id_of_ident_child id_child_of (node_view node.entry) }
{
    node.id()?.sym()
}

impl<'a> ModuleBuilder<'a> {
    ghost use Rattle.symbols_table.specs.inner.Tables.{HasAppliedChanges, HasValidTable};
    ghost use Rattle.symbols_table.specs.inner.Tables.{AppliesEventsUnderHolder};
    ghost use Rattle.symbols_table.specs.inner.ModuleBuilderSteps.{LeavesValidTableWithNoFewerSymbols};

    /// Declares a later part of a namespace's dotted name.
    fn declare_part(
        &mut self,
        holder: SymbolId,
        whole: NodeRef<'a>,
        node: NodeRef<'a>,
        id: &'a Id,
    ) -> Result<SymbolId, BuildFault>
        requires filled { HasValidTable self.old }
        requires holder { holder.0 < length self.old.symbols.items }
        ensures inside { IfOk result (λ s. s.0 < length self.new.symbols.items) }
        ensures keeps { LeavesValidTableWithNoFewerSymbols result self.old self.new }
        ensures table { (rows : List EventEffect) (h : ℕ) → HasAppliedChanges self.old
            (changes_of_effects rows) → symbol_of_event_at rows h ≡ Some holder
            → AppliesEventsAndReturnsSymbolOfFirst result self.old.setting.limit self.new rows
            (namespace_part_decl_events
            (node_view whole.entry) (node_view node.entry) id.now h (length rows)) }
    {
        let decl = SymbolDecl::definition(SymbolNodeRef::TsNamespace(whole), node.range());
        let symbol = self.declare(holder, id, decl)?;
        self.add_export(holder, id.name.as_str(), symbol)?;
        self.add_child(holder, symbol)?;
        Ok(symbol)
    }

    /// Visits the body of a namespace: declares the later parts of its dotted name, and visits the
    /// items in the last part.
    #[cycle(walk)]
    fn walk_body(
        &mut self,
        holder: SymbolId,
        whole: NodeRef<'a>,
        ambient: bool,
        n: NodeId,
    ) -> Result<(), BuildFault>
        requires well_formed { IsWellFormedTree whole.tree.now.nodes.items }
        requires inside { n < length whole.tree.now.nodes.items }
        requires filled { HasValidTable self.old }
        requires holder { holder.0 < length self.old.symbols.items }
        ensures keeps { LeavesValidTableWithNoFewerSymbols result self.old self.new }
        ensures table { (levels parts : ℕ) → length whole.entry.tree.now.nodes.items
            ≤ n + suc levels → length whole.entry.tree.now.nodes.items ≤ n + parts
            → AppliesEventsUnderHolder result self.old self.new (namespace_body_events_within_levels
            (item_list_events_within_levels whole.entry.tree.now levels)
            (node_view whole.entry) ambient parts n) holder }
    {
        let Some(node) = whole.node(n) else {
            return Ok(());
        };
        match node.kind() {
            Kind::Decl(Decl::TsModuleBlock { body }) => {
                let scope = Scope {
                    ambient,
                    is_module: false,
                };
                self.walk_items(holder, scope, node, body)
            }
            Kind::Decl(Decl::TsNamespaceDecl { body, .. }) => {
                let Some(id) = namespace_id(node) else {
                    return Ok(());
                };
                let symbol = self.declare_part(holder, whole, node, id)?;
                self.walk_body(symbol, whole, ambient, *body)
            }
            _ => Ok(()),
        }
    }

    /// Visits the items of a namespace, if it has a body.
    #[cycle(walk)]
    fn walk_inside(
        &mut self,
        holder: SymbolId,
        whole: NodeRef<'a>,
        ambient: bool,
    ) -> Result<(), BuildFault>
        requires well_formed { IsWellFormedTree whole.tree.now.nodes.items }
        requires filled { HasValidTable self.old }
        requires holder { holder.0 < length self.old.symbols.items }
        ensures keeps { LeavesValidTableWithNoFewerSymbols result self.old self.new }
        ensures table { (levels : ℕ)
            → length whole.entry.tree.now.nodes.items ≤ whole.entry.number + suc levels
            → AppliesEventsUnderHolder result self.old self.new (events_if_some
            (child_in_field (node_view whole.entry) body_child_of)
            (namespace_body_events (item_list_events_within_levels whole.entry.tree.now levels)
            (node_view whole.entry) ambient))
            holder }
    {
        match whole.body_node() {
            Some(body) => self.walk_body(holder, whole, ambient, body.node_id()),
            None => Ok(()),
        }
    }

    /// Declares a namespace and visits its body. One without an identifier is skipped.
    #[cycle(walk)]
    fn walk_namespace(
        &mut self,
        holder: SymbolId,
        scope: Scope,
        namespace: Namespace<'a>,
    ) -> Result<(), BuildFault>
        requires well_formed { IsWellFormedTree namespace.decl.tree.now.nodes.items }
        requires filled { HasValidTable self.old }
        requires holder { holder.0 < length self.old.symbols.items }
        ensures keeps { LeavesValidTableWithNoFewerSymbols result self.old self.new }
        ensures table { (levels : ℕ) → length namespace.entry.decl.tree.now.nodes.items
            ≤ namespace.entry.decl.number + suc levels
            → AppliesEventsUnderHolder result self.old self.new
            (events_if_some (kind_of (node_view namespace.entry.decl)) (namespace_events
            (item_list_events_within_levels namespace.entry.decl.tree.now levels) scope
            (namespace_view namespace.entry))) holder }
    {
        let Namespace { exported, decl } = namespace;
        let kind = decl.kind();
        let Some(id) = namespace_id(decl) else {
            return Ok(());
        };
        let form = declared_as(exported, ExportDeclRef::TsModule(decl));
        let definition = SymbolDecl::definition(form, export_or_decl_range(exported, decl));
        let symbol = self.declare(holder, id, definition)?;
        self.walk_inside(symbol, decl, inner_ambient(scope, kind))?;
        self.add_to_holder(
            holder,
            symbol,
            id.name.as_str(),
            is_exported(scope, exported),
        )
    }

    /// Visits an item that is no namespace.
    fn walk_other_item(
        &mut self,
        holder: SymbolId,
        scope: Scope,
        node: NodeRef<'a>,
    ) -> Result<(), BuildFault>
        requires well_formed { IsWellFormedTree node.tree.now.nodes.items }
        requires filled { HasValidTable self.old }
        requires holder { holder.0 < length self.old.symbols.items }
        ensures keeps { LeavesValidTableWithNoFewerSymbols result self.old self.new }
        ensures table { AppliesEventsUnderHolder result self.old self.new
            (events_if_some (kind_of (node_view node.entry))
            (non_namespace_item_events scope (node_view node.entry))) holder }
    {
        match node.kind() {
            Kind::Item(Item::ExportDecl { .. }) => match node.decl() {
                Some(decl) => self.walk_declaration(holder, scope, Some(node), decl),
                None => Ok(()),
            },
            Kind::Item(_) => self.walk_module_item(holder, node),
            _ => self.walk_declaration(holder, scope, None, node),
        }
    }

    /// Visits an item.
    #[cycle(walk)]
    fn walk_item(
        &mut self,
        holder: SymbolId,
        scope: Scope,
        parent: NodeRef<'a>,
        n: NodeId,
    ) -> Result<(), BuildFault>
        requires well_formed { IsWellFormedTree parent.tree.now.nodes.items }
        requires inside { n < length parent.tree.now.nodes.items }
        requires filled { HasValidTable self.old }
        requires holder { holder.0 < length self.old.symbols.items }
        ensures keeps { LeavesValidTableWithNoFewerSymbols result self.old self.new }
        ensures table { (levels : ℕ) → length parent.entry.tree.now.nodes.items ≤ n + levels
            → AppliesEventsUnderHolder result self.old self.new
            (item_events_within_levels parent.entry.tree.now levels scope
            n) holder }
    {
        let Some(node) = parent.node(n) else {
            return Ok(());
        };
        match namespace_of(node) {
            Some(namespace) => self.walk_namespace(holder, scope, namespace),
            None => self.walk_other_item(holder, scope, node),
        }
    }

    /// Visits the items of a body.
    #[cycle(walk)]
    pub(crate) fn walk_items(
        &mut self,
        holder: SymbolId,
        scope: Scope,
        parent: NodeRef<'a>,
        items: &'a [NodeId],
    ) -> Result<(), BuildFault>
        requires well_formed { IsWellFormedTree parent.tree.now.nodes.items }
        requires greater { AreGreaterNodeNumbers
            parent.tree.now.nodes.items parent.number items.now }
        requires filled { HasValidTable self.old }
        requires holder { holder.0 < length self.old.symbols.items }
        ensures keeps { LeavesValidTableWithNoFewerSymbols result self.old self.new }
        ensures table { (levels : ℕ)
            → length parent.entry.tree.now.nodes.items ≤ parent.entry.number + suc levels
            → AppliesEventsUnderHolder result self.old self.new
            (item_list_events_within_levels parent.entry.tree.now levels scope
            items.now) holder }
    {
        for n in items {
            self.walk_item(holder, scope, parent, *n)?;
        }
        Ok(())
    }
}
