//! Events of the members of classes and interfaces.

ghost use Rattle.std.specs.Prelude.{◌≡◌, ◌<◌, length, Some};
ghost use Rattle.std.specs.Option.{option_map, option_and_then};
ghost use Rattle.symbols_ast.specs.NodeRefs.{node_view, kind_of};
ghost use Rattle.symbols_nodes.specs.NodeViews.{symbol_node_view};
ghost use Rattle.symbols_table.specs.inner.MemberViews.{member_view};
ghost use Rattle.symbols_table.specs.EventsByHolderAndStart.{events_of_each};
ghost use Rattle.symbols_table.specs.MemberEvents.{class_or_interface_member_numbers, member_event};
ghost use Rattle.symbols_table.specs.MemberEvents.{constructor_param_events_at, constructor_events};
ghost use Rattle.symbols_table.specs.MemberEvents.{node_of_non_constructor_member, member_events_at};

use crate::builder::table::{BuildFault, ModuleBuilder};
use crate::decl::SymbolDecl;
use symbols_ast::ids::SymbolId;
use symbols_ast::tree::{Decl, Kind, Member, NodeId, NodeRef};
use symbols_nodes::nodes::SymbolNodeRef;

/// Returns the member nodes of a class or interface; empty for any other node.
pub(crate) fn member_nodes<'a>(node: NodeRef<'a>) -> &'a [NodeId]
    ensures { result.now ≡ class_or_interface_member_numbers (node_view node.entry) }
{
    match node.kind() {
        Kind::Decl(Decl::TsInterfaceDecl { .. }) => node.body(),
        _ => match node.class() {
            Some(class) => class.body(),
            None => &[],
        },
    }
}

/// A class or interface member other than a constructor or a parameter property: the form of its
/// declaration, and whether it is static. A form is a `SymbolNodeRef`: a node with its syntactic
/// role.
#[derive(Clone, Copy)]
pub(crate) struct SimpleMember<'a> {
    form: SymbolNodeRef<'a>,
    is_static: bool,
}

/// Returns a member of this form.
fn simple<'a>(form: SymbolNodeRef<'a>, is_static: bool) -> Option<SimpleMember<'a>>
    ensures { option_map member_view result ≡ Some (symbol_node_view form.entry, is_static) }
{
    Some(SimpleMember { form, is_static })
}

/// Returns the node as a member other than a constructor or a parameter property, if it is one.
fn node_of_non_constructor_member<'a>(node: NodeRef<'a>) -> Option<SimpleMember<'a>>
    ensures { option_map member_view result ≡ option_and_then
        (node_of_non_constructor_member (node_view node.entry)) (kind_of (node_view node.entry)) }
{
    let Kind::Member(member) = node.kind() else {
        return None;
    };
    match member {
        Member::ClassMethod { is_static, .. } => simple(
            SymbolNodeRef::ClassMethod(node),
            *is_static,
        ),
        Member::ClassProp { is_static, .. } => simple(SymbolNodeRef::ClassProp(node), *is_static),
        Member::AutoAccessor { is_static, .. } => {
            simple(SymbolNodeRef::AutoAccessor(node), *is_static)
        }
        Member::TsIndexSignature { is_static, .. } => {
            simple(SymbolNodeRef::TsIndexSignature(node), *is_static)
        }
        Member::TsCallSignatureDecl { .. } => {
            simple(SymbolNodeRef::TsCallSignatureDecl(node), false)
        }
        Member::TsConstructSignatureDecl { .. } => {
            simple(SymbolNodeRef::TsConstructSignatureDecl(node), false)
        }
        Member::TsPropertySignature { .. } => {
            simple(SymbolNodeRef::TsPropertySignature(node), false)
        }
        Member::TsGetterSignature { .. } => simple(SymbolNodeRef::TsGetterSignature(node), false),
        Member::TsSetterSignature { .. } => simple(SymbolNodeRef::TsSetterSignature(node), false),
        Member::TsMethodSignature { .. } => simple(SymbolNodeRef::TsMethodSignature(node), false),
        Member::Constructor { .. } | Member::TsParamProp { .. } => None,
    }
}

impl<'a> ModuleBuilder<'a> {
    ghost use Rattle.symbols_table.specs.inner.Tables.{HasValidTable, AppliesEventsUnderHolder};
    ghost use Rattle.symbols_table.specs.inner.ModuleBuilderSteps.{LeavesValidTableWithNoFewerSymbols};

    /// Declares a member at the range of its node.
    fn define_member(
        &mut self,
        holder: SymbolId,
        form: SymbolNodeRef<'a>,
        node: NodeRef<'a>,
        is_static: bool,
    ) -> Result<(), BuildFault>
        requires filled { HasValidTable self.old }
        requires holder { holder.0 < length self.old.symbols.items }
        requires inner { 0 < holder.0 }
        ensures keeps { LeavesValidTableWithNoFewerSymbols result self.old self.new }
        ensures table { AppliesEventsUnderHolder result self.old self.new
            (member_event (symbol_node_view form.entry) (node_view node.entry) is_static) holder }
    {
        let decl = SymbolDecl::definition(form, node.range());
        self.declare_member(holder, decl, is_static)?;
        Ok(())
    }

    /// Visits a parameter of a constructor and declares it if it is a parameter property.
    fn walk_param(
        &mut self,
        holder: SymbolId,
        constructor: NodeRef<'a>,
        n: NodeId,
    ) -> Result<(), BuildFault>
        requires filled { HasValidTable self.old }
        requires holder { holder.0 < length self.old.symbols.items }
        requires inner { 0 < holder.0 }
        ensures keeps { LeavesValidTableWithNoFewerSymbols result self.old self.new }
        ensures table { AppliesEventsUnderHolder result self.old self.new
            (constructor_param_events_at constructor.entry.tree.now n)
            holder }
    {
        let Some(param) = constructor.node(n) else {
            return Ok(());
        };
        match param.kind() {
            Kind::Member(Member::TsParamProp { .. }) => {
                self.define_member(holder, SymbolNodeRef::ClassParamProp(param), param, false)
            }
            _ => Ok(()),
        }
    }

    /// Visits the parameters of a constructor.
    fn walk_params(
        &mut self,
        holder: SymbolId,
        node: NodeRef<'a>,
        params: &'a [NodeId],
    ) -> Result<(), BuildFault>
        requires filled { HasValidTable self.old }
        requires holder { holder.0 < length self.old.symbols.items }
        requires inner { 0 < holder.0 }
        ensures keeps { LeavesValidTableWithNoFewerSymbols result self.old self.new }
        ensures table { AppliesEventsUnderHolder result self.old self.new
            (events_of_each (constructor_param_events_at node.entry.tree.now) params.now) holder }
    {
        for n in params {
            self.walk_param(holder, node, *n)?;
        }
        Ok(())
    }

    /// Declares a constructor, then visits its parameters.
    fn walk_constructor(
        &mut self,
        holder: SymbolId,
        node: NodeRef<'a>,
        params: &'a [NodeId],
    ) -> Result<(), BuildFault>
        requires filled { HasValidTable self.old }
        requires holder { holder.0 < length self.old.symbols.items }
        requires inner { 0 < holder.0 }
        ensures keeps { LeavesValidTableWithNoFewerSymbols result self.old self.new }
        ensures table { AppliesEventsUnderHolder result self.old self.new
            (constructor_events (node_view node.entry) params.now) holder }
    {
        let decl = SymbolDecl::definition(SymbolNodeRef::Constructor(node), node.range());
        self.declare_member(holder, decl, true)?;
        self.walk_params(holder, node, params)
    }

    /// Visits a member of a class or interface.
    fn walk_member(
        &mut self,
        holder: SymbolId,
        parent: NodeRef<'a>,
        n: NodeId,
    ) -> Result<(), BuildFault>
        requires filled { HasValidTable self.old }
        requires holder { holder.0 < length self.old.symbols.items }
        requires inner { 0 < holder.0 }
        ensures keeps { LeavesValidTableWithNoFewerSymbols result self.old self.new }
        ensures table { AppliesEventsUnderHolder result self.old self.new
            (member_events_at parent.entry.tree.now n) holder }
    {
        let Some(node) = parent.node(n) else {
            return Ok(());
        };
        if let Kind::Member(Member::Constructor { params, .. }) = node.kind() {
            return self.walk_constructor(holder, node, params);
        }
        match node_of_non_constructor_member(node) {
            Some(member) => self.define_member(holder, member.form, node, member.is_static),
            None => Ok(()),
        }
    }

    /// Visits the members of a class or interface.
    pub(crate) fn walk_members(
        &mut self,
        holder: SymbolId,
        parent: NodeRef<'a>,
        members: &'a [NodeId],
    ) -> Result<(), BuildFault>
        requires filled { HasValidTable self.old }
        requires holder { holder.0 < length self.old.symbols.items }
        requires inner { 0 < holder.0 }
        ensures keeps { LeavesValidTableWithNoFewerSymbols result self.old self.new }
        ensures table { AppliesEventsUnderHolder result self.old self.new
            (events_of_each (member_events_at parent.entry.tree.now) members.now) holder }
    {
        for n in members {
            self.walk_member(holder, parent, *n)?;
        }
        Ok(())
    }
}
