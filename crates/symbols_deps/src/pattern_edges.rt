//! The edges of patterns: those of parameters, of parameter properties, and of all others.

ghost use Rattle.std.specs.Prelude.{◌≡◌, ◌++◌, map, OnOk};
ghost use Rattle.symbols_ast.specs.NodeRefs.{node_view};
ghost use Rattle.symbols_deps.specs.Annotations.{has_type_annotation};
ghost use Rattle.symbols_deps.specs.EdgeTable.{pat_edges, signature_pattern_edges};
ghost use Rattle.symbols_deps.specs.EdgeTable.{is_child_type_assertion, param_prop_edges};
ghost use Rattle.symbols_deps.specs.inner.KnownFacts.{IsKnownFactTrueOf, IsPatNode};
ghost use Rattle.symbols_nodes.specs.References.{namespaced_reference_view};

use crate::annotations::has_type_annotation;
use crate::edge_table::{initializer_edge_rules, property_key_edge_rules, type_part_edge_rules};
use crate::known::KnownFact;
use crate::references::Found;
use crate::rules::{EdgeGuard, EdgeRuleSet, NamespaceRule, PatternContextRule, is_type_assertion};
use crate::visit::{Visit, some_if, unless};
use std::alloc::AllocError;
use symbols_ast::tree::{NodeId, NodeRef, Pat};
use symbols_nodes::deps::node_of_greater_number;

/// Returns whether a later node asserts a type.
fn asserts(node: NodeRef<'_>, expr: NodeId) -> bool
    ensures { result ≡ is_child_type_assertion (node_view node.entry) expr }
{
    match node_of_greater_number(node, expr) {
        Some(expr) => is_type_assertion(expr.kind()),
        None => false,
    }
}

impl<'a> Visit<'a> {
    ghost use Rattle.symbols_deps.specs.inner.Visits.{dependencies_of_visited_edges};

    /// Follows the edges of patterns, and of types and other nodes without a kind of their own.
    #[cycle(walk)]
    #[inline(always)]
    pub(crate) fn visit_pat(
        self,
        known: KnownFact,
        pat: &Pat,
        found: &mut Found<'a>,
    ) -> Result<(), AllocError>
        requires kind { IsPatNode (node_view self.node) pat.now }
        requires known { IsKnownFactTrueOf known (node_view self.node) }
        ensures { OnOk result (map namespaced_reference_view found.new.items
            ≡ map namespaced_reference_view found.old.items ++ dependencies_of_visited_edges
            self.entry (pat_edges (has_type_annotation (node_view self.entry.node)) pat.now)) }
    {
        let open = EdgeRuleSet::open();
        let by_kind = open.with_namespace_rule(NamespaceRule::ByKind);
        match pat {
            Pat::BindingIdent { type_ann, .. }
            | Pat::ArrayPat { type_ann, .. }
            | Pat::ObjectPat { type_ann, .. }
            | Pat::RestPat { type_ann, .. } => self.visit_annotation(*type_ann, found),
            Pat::KeyValuePatProp { key, value } => {
                self.visit_child(property_key_edge_rules(), *key, found)?;
                self.visit_child(open, *value, found)
            }
            Pat::AssignPatProp { key, value } => {
                self.visit_child(open, *key, found)?;
                self.visit_optional(open, *value, found)
            }
            Pat::AssignPat { left, right } => {
                let annotated = has_type_annotation(self.node, known);
                self.visit_known(open, *left, KnownFact::Annotated(annotated), found)?;
                self.visit_optional(
                    initializer_edge_rules(),
                    unless(annotated, Some(*right)),
                    found,
                )
            }
            Pat::ExprPat { expr } => {
                self.visit_child(open.with_guard(EdgeGuard::Expressions), *expr, found)
            }
            Pat::Plain { children } => { self.visit_each(type_part_edge_rules(), children, found) }
            Pat::Other { children } => self.visit_each(by_kind, children, found),
        }
    }

    /// Follows the edges of a pattern that is a parameter of a signature.
    #[cycle(walk)]
    #[inline(never)]
    pub(crate) fn visit_signature(
        self,
        known: KnownFact,
        pat: &Pat,
        found: &mut Found<'a>,
    ) -> Result<(), AllocError>
        requires kind { IsPatNode (node_view self.node) pat.now }
        requires known { IsKnownFactTrueOf known (node_view self.node) }
        ensures { OnOk result (map namespaced_reference_view found.new.items
            ≡ map namespaced_reference_view found.old.items
            ++ dependencies_of_visited_edges self.entry
            (signature_pattern_edges (has_type_annotation (node_view self.entry.node)) pat.now)) }
    {
        let open = EdgeRuleSet::open();
        match pat {
            Pat::ArrayPat { elems, type_ann } => {
                self.visit_each(open, elems, found)?;
                self.visit_annotation(*type_ann, found)
            }
            Pat::ObjectPat { props, type_ann } => {
                self.visit_each(
                    open.with_pattern_context(PatternContextRule::SignatureRest),
                    props,
                    found,
                )?;
                self.visit_annotation(*type_ann, found)
            }
            Pat::RestPat { arg, type_ann } => {
                self.visit_child(open, *arg, found)?;
                self.visit_annotation(*type_ann, found)
            }
            _ => self.visit_pat(known, pat, found),
        }
    }

    /// Follows the edges of a parameter property. Its default value is visited only if it asserts a
    /// type and the parameter has no annotation.
    #[cycle(walk)]
    #[inline(never)]
    pub(crate) fn visit_property(
        self,
        known: KnownFact,
        pat: &Pat,
        found: &mut Found<'a>,
    ) -> Result<(), AllocError>
        requires kind { IsPatNode (node_view self.node) pat.now }
        requires known { IsKnownFactTrueOf known (node_view self.node) }
        ensures { OnOk result (map namespaced_reference_view found.new.items
            ≡ map namespaced_reference_view found.old.items ++ dependencies_of_visited_edges
            self.entry (param_prop_edges (node_view self.entry.node)
            (has_type_annotation (node_view self.entry.node)) pat.now)) }
    {
        let open = EdgeRuleSet::open();
        match pat {
            Pat::BindingIdent { type_ann, .. } => self.visit_annotation(*type_ann, found),
            Pat::AssignPat { left, right } => {
                let annotated = has_type_annotation(self.node, known);
                self.visit_known(open, *left, KnownFact::Annotated(annotated), found)?;
                let alone = !annotated && asserts(self.node, *right);
                self.visit_optional(open, some_if(alone, *right), found)
            }
            _ => Ok(()),
        }
    }
}
