//! The visitor: it follows the edges below a node and appends each reference that it finds.

ghost use Rattle.std.specs.Prelude.{◌≡◌, ◌<◌, ◌++◌, ◌∷◌, [], map, IfSome, OnOk, Some, None};
ghost use Rattle.std.specs.Prelude.{if◌then◌else◌};
ghost use Rattle.symbols_ast.specs.Ids.{id_view};
ghost use Rattle.symbols_ast.specs.NodeRefs.{TreeNode, node_view};
ghost use Rattle.symbols_nodes.specs.declared.deps.dep.ReferenceNamespace.TheVariants as In;
ghost use Rattle.symbols_deps.specs.Dependencies.{vertex_of_node};
ghost use Rattle.symbols_deps.specs.EdgeRules.{default_edge_rules, edge_rules_marking_namespace};
ghost use Rattle.symbols_deps.specs.EdgeRules.{edge_to_child, edges_to_children, edge_to_optional_child};
ghost use Rattle.symbols_deps.specs.inner.KnownFacts.{IsKnownFactTrueOf};
ghost use Rattle.symbols_nodes.specs.Readings.{node_of_greater_number};
ghost use Rattle.symbols_nodes.specs.References.{namespaced_reference_view, id};
ghost use Rattle.symbols_deps.specs.inner.References.{dependency_in_namespace};
ghost use Rattle.symbols_deps.specs.inner.TableParts.{type_part_edge_rules_by_child_kind};

use crate::edge_table::type_part_edge_rules;
use crate::known::KnownFact;
use crate::references::{Found, is_reference_type, push_name, push_reference};
use crate::rules::{EdgeRuleSet, PatternContext};
use std::alloc::{AllocError, Global};
use symbols_ast::tree::{Expr, Id, Kind, NodeId, NodeRef, Pat, Ty};
use symbols_nodes::deps::{ReferenceNamespace, ResolveDepsMode, node_of_greater_number};

/// A visited node, and the namespace of references at and below it that have no mark.
#[derive(Clone, Copy)]
pub(crate) struct Visit<'a> {
    pub(crate) alloc: Global,
    pub(crate) mode: ResolveDepsMode,
    pub(crate) node: NodeRef<'a>,
    pub(crate) namespace: ReferenceNamespace,
}

/// A child that is entered: its form, and the namespace of references at and below it without a
/// mark.
#[derive(Clone, Copy)]
pub(crate) struct Child<'a> {
    pub(crate) node: NodeRef<'a>,
    pub(crate) namespace: ReferenceNamespace,
    pub(crate) form: PatternContext,
}

/// Returns the child if the condition holds.
pub(crate) fn some_if(condition: bool, child: NodeId) -> Option<NodeId>
    ensures { result ≡ (if condition then Some child else None) }
{
    if condition { Some(child) } else { None }
}

/// Returns the child unless the condition holds.
pub(crate) fn unless(condition: bool, child: Option<NodeId>) -> Option<NodeId>
    ensures { result ≡ (if condition then None else child) }
{
    if condition { None } else { child }
}

impl<'a> Visit<'a> {
    ghost use Rattle.symbols_deps.specs.inner.Visits.{dependencies_of_visited_edge, dependencies_at_and_after_vertex};
    ghost use Rattle.symbols_deps.specs.inner.Visits.{dependencies_at_and_after_child};

    /// Appends the dependencies at and below a node of any kind, which is entered in a form.
    /// `known` is a fact about the node.
    #[cycle(walk)]
    #[inline(never)]
    pub(crate) fn visit_any(
        alloc: Global,
        mode: ResolveDepsMode,
        node: NodeRef<'a>,
        namespace: ReferenceNamespace,
        form: PatternContext,
        found: &mut Found<'a>,
        known: KnownFact,
    ) -> Result<(), AllocError>
        requires { IsKnownFactTrueOf known (node_view node) }
        ensures { OnOk result (map namespaced_reference_view found.new.items
            ≡ map namespaced_reference_view found.old.items ++ dependencies_at_and_after_vertex
            mode namespace (vertex_of_node (node_view node.entry) form)) }
    {
        let kind = node.kind();
        let refers = push_reference(alloc, node, kind, known, namespace, found)?;
        let visit = Visit {
            alloc,
            mode,
            node,
            namespace,
        };
        visit.visit_edges(kind, form, refers, known, found)
    }

    /// Appends the dependencies at and below a node, without a known fact. Most nodes have kinds
    /// with match arms here, which fit in registers.
    #[cycle(walk)]
    #[inline(never)]
    pub(crate) fn visit_node(
        alloc: Global,
        mode: ResolveDepsMode,
        node: NodeRef<'a>,
        namespace: ReferenceNamespace,
        form: PatternContext,
        found: &mut Found<'a>,
    ) -> Result<(), AllocError>
        ensures { OnOk result (map namespaced_reference_view found.new.items
            ≡ map namespaced_reference_view found.old.items ++ dependencies_at_and_after_vertex
            mode namespace (vertex_of_node (node_view node.entry) form)) }
    {
        let visit = Visit {
            alloc,
            mode,
            node,
            namespace,
        };
        match node.kind() {
            Kind::Pat(Pat::BindingIdent { type_ann, .. }) => {
                visit.visit_annotation(*type_ann, found)
            }
            Kind::Pat(Pat::Plain { children }) => match form {
                PatternContext::Property => Ok(()),
                PatternContext::Usual | PatternContext::Signature => {
                    visit.visit_each(type_part_edge_rules(), children, found)
                }
            },
            Kind::Member(member) => visit.visit_member(member, found),
            Kind::Ty(ty) if !is_reference_type(ty) => visit.visit_ty(ty, found),
            _ => Visit::visit_any(
                alloc,
                mode,
                node,
                namespace,
                form,
                found,
                KnownFact::Nothing,
            ),
        }
    }

    /// Returns the child of a number, if it exists and the edge to it is followed in the mode.
    #[inline(always)]
    fn open_child(self, rules: EdgeRuleSet, id: NodeId) -> Option<Child<'a>>
        ensures there { IfSome result (λ child. node_of_greater_number
            (node_view self.entry.node) id ≡ Some (node_view child.node)) }
        ensures below { IfSome result (λ child. self.entry.node.number < child.node.number) }
        ensures same_tree { IfSome result
            (λ child. child.node.tree.now ≡ self.entry.node.tree.now) }
        ensures closed { result ≡ None
            → dependencies_of_visited_edge self.entry (edge_to_child rules id) ≡ [] }
        ensures reaches { IfSome result
            (λ child. dependencies_of_visited_edge self.entry (edge_to_child rules id) ≡
            dependencies_at_and_after_child self.entry.mode child) }
    {
        let Some(node) = node_of_greater_number(self.node, id) else {
            return None;
        };
        let kind = node.kind();
        if !rules.is_step_followed_in_mode(self.mode, kind) {
            return None;
        }
        let namespace = rules.mark.edge_namespace(kind).unwrap_or(self.namespace);
        let form = rules.form.pattern_context_of(kind);
        Some(Child {
            node,
            namespace,
            form,
        })
    }

    /// Returns the identifier that is the only one of these parts of a type, with its namespace.
    #[inline(always)]
    fn only_name(self, parts: &[NodeId]) -> Option<(&'a Id, ReferenceNamespace)>
        ensures { IfSome result
            (λ name. dependencies_of_visited_edge self.entry
            (edges_to_children type_part_edge_rules_by_child_kind parts.now)
            ≡ dependency_in_namespace name.1 (id (id_view name.0.now)) ∷ []) }
    {
        if parts.len() != 1 {
            return None;
        }
        let child = self.open_child(type_part_edge_rules(), parts[0])?;
        match child.node.kind() {
            Kind::Expr(Expr::Ident { sym }) => Some((sym, child.namespace)),
            _ => None,
        }
    }

    /// Returns the identifier that is the only dependency at and below the node, with its
    /// namespace. It is the node itself, or the only part of the type that the node is. `None` if
    /// it is neither.
    #[inline(always)]
    fn only_name_at(self, form: PatternContext) -> Option<(&'a Id, ReferenceNamespace)>
        ensures { IfSome result (λ name. dependencies_at_and_after_vertex
            self.entry.mode self.entry.namespace (vertex_of_node (node_view self.entry.node) form)
            ≡ dependency_in_namespace name.1 (id (id_view name.0.now)) ∷ []) }
    {
        match self.node.kind() {
            Kind::Expr(Expr::Ident { sym }) => Some((sym, self.namespace)),
            Kind::Pat(Pat::Plain { children }) => match form {
                PatternContext::Property => None,
                PatternContext::Usual | PatternContext::Signature => self.only_name(children),
            },
            _ => None,
        }
    }

    /// Appends the dependencies at and below a child. A single identifier, or a type without
    /// children, needs no call.
    #[cycle(walk)]
    #[inline(always)]
    fn visit_at(self, child: Child<'a>, found: &mut Found<'a>) -> Result<(), AllocError>
        ensures { OnOk result (map namespaced_reference_view found.new.items
            ≡ map namespaced_reference_view found.old.items
            ++ dependencies_at_and_after_child self.entry.mode child.entry) }
    {
        let Child {
            node,
            namespace,
            form,
        } = child;
        let below = Visit {
            alloc: self.alloc,
            mode: self.mode,
            node,
            namespace,
        };
        if let Some((sym, namespace)) = below.only_name_at(form) {
            return push_name(sym, namespace, found);
        }
        match node.kind() {
            Kind::Pat(Pat::Plain { children }) if children.is_empty() => Ok(()),
            _ => Visit::visit_node(self.alloc, self.mode, node, namespace, form, found),
        }
    }

    /// Appends the dependencies at and below the child of a number. `known` is a fact about the
    /// child.
    #[cycle(walk)]
    #[inline(always)]
    pub(crate) fn visit_known(
        self,
        rules: EdgeRuleSet,
        id: NodeId,
        known: KnownFact,
        found: &mut Found<'a>,
    ) -> Result<(), AllocError>
        requires { (child : TreeNode) → node_of_greater_number (node_view self.node) id ≡ Some child
            → IsKnownFactTrueOf known child }
        ensures { OnOk result (map namespaced_reference_view found.new.items
            ≡ map namespaced_reference_view found.old.items
            ++ dependencies_of_visited_edge self.entry (edge_to_child rules id)) }
    {
        let Some(child) = self.open_child(rules, id) else {
            return Ok(());
        };
        let Child {
            node,
            namespace,
            form,
        } = child;
        Visit::visit_any(self.alloc, self.mode, node, namespace, form, found, known)
    }

    /// Appends the dependencies at and below the child of a number, without a known fact.
    #[cycle(walk)]
    #[inline(always)]
    pub(crate) fn visit_child(
        self,
        rules: EdgeRuleSet,
        id: NodeId,
        found: &mut Found<'a>,
    ) -> Result<(), AllocError>
        ensures { OnOk result (map namespaced_reference_view found.new.items
            ≡ map namespaced_reference_view found.old.items
            ++ dependencies_of_visited_edge self.entry (edge_to_child rules id)) }
    {
        match self.open_child(rules, id) {
            Some(child) => self.visit_at(child, found),
            None => Ok(()),
        }
    }

    /// Appends the dependencies at and below the type of an annotation.
    #[cycle(walk)]
    #[inline(always)]
    pub(crate) fn visit_type(self, ty: NodeId, found: &mut Found<'a>) -> Result<(), AllocError>
        ensures { OnOk result (map namespaced_reference_view found.new.items
            ≡ map namespaced_reference_view found.old.items ++ dependencies_of_visited_edge
            self.entry (edge_to_child (edge_rules_marking_namespace In.Type) ty)) }
    {
        self.visit_child(EdgeRuleSet::marking(ReferenceNamespace::Type), ty, found)
    }

    /// Appends the dependencies at and below a child in a list. A parameter or an annotation needs
    /// no call.
    #[cycle(walk)]
    #[inline(always)]
    pub(crate) fn visit_item(
        self,
        rules: EdgeRuleSet,
        id: NodeId,
        found: &mut Found<'a>,
    ) -> Result<(), AllocError>
        ensures { OnOk result (map namespaced_reference_view found.new.items
            ≡ map namespaced_reference_view found.old.items
            ++ dependencies_of_visited_edge self.entry (edge_to_child rules id)) }
    {
        let Some(child) = self.open_child(rules, id) else {
            return Ok(());
        };
        let below = Visit {
            alloc: self.alloc,
            mode: self.mode,
            node: child.node,
            namespace: child.namespace,
        };
        match child.node.kind() {
            Kind::Pat(Pat::BindingIdent { type_ann, .. }) => {
                below.visit_annotation(*type_ann, found)
            }
            Kind::Ty(Ty::TsTypeAnn { ty }) => below.visit_type(*ty, found),
            _ => self.visit_at(child, found),
        }
    }

    /// Appends the dependencies at and below an optional child.
    #[cycle(walk)]
    #[inline(always)]
    pub(crate) fn visit_optional(
        self,
        rules: EdgeRuleSet,
        id: Option<NodeId>,
        found: &mut Found<'a>,
    ) -> Result<(), AllocError>
        ensures { OnOk result (map namespaced_reference_view found.new.items
            ≡ map namespaced_reference_view found.old.items
            ++ dependencies_of_visited_edge self.entry (edge_to_optional_child rules id)) }
    {
        match id {
            Some(id) => self.visit_child(rules, id, found),
            None => Ok(()),
        }
    }

    /// Appends the dependencies of an optional type annotation, which are those of its type.
    #[cycle(walk)]
    #[inline(always)]
    pub(crate) fn visit_annotation(
        self,
        id: Option<NodeId>,
        found: &mut Found<'a>,
    ) -> Result<(), AllocError>
        ensures { OnOk result (map namespaced_reference_view found.new.items
            ≡ map namespaced_reference_view found.old.items ++ dependencies_of_visited_edge
            self.entry (edge_to_optional_child default_edge_rules id)) }
    {
        let Some(id) = id else {
            return Ok(());
        };
        let Some(node) = node_of_greater_number(self.node, id) else {
            return Ok(());
        };
        match node.kind() {
            Kind::Ty(Ty::TsTypeAnn { ty }) => {
                let below = Visit {
                    alloc: self.alloc,
                    mode: self.mode,
                    node,
                    namespace: self.namespace,
                };
                below.visit_type(*ty, found)
            }
            _ => self.visit_child(EdgeRuleSet::open(), id, found),
        }
    }

    /// Appends the dependencies at and below each child of a list, in order.
    #[cycle(walk)]
    #[inline(always)]
    pub(crate) fn visit_each(
        self,
        rules: EdgeRuleSet,
        ids: &[NodeId],
        found: &mut Found<'a>,
    ) -> Result<(), AllocError>
        ensures { OnOk result (map namespaced_reference_view found.new.items
            ≡ map namespaced_reference_view found.old.items
            ++ dependencies_of_visited_edge self.entry (edges_to_children rules ids.now)) }
    {
        for id in ids {
            self.visit_item(rules, *id, found)?;
        }
        Ok(())
    }
}
