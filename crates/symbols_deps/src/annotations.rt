//! The type annotations of patterns.

ghost use Rattle.std.specs.Prelude.{◌≡◌, is_some};
ghost use Rattle.symbols_ast.specs.NodeRefs.{node_view};
ghost use Rattle.symbols_deps.specs.Annotations.{pattern_annotation, has_type_annotation};
ghost use Rattle.symbols_deps.specs.Annotations.{is_child_pattern_annotated};
ghost use Rattle.symbols_deps.specs.inner.KnownFacts.{IsKnownFactTrueOf};
ghost use Rattle.symbols_nodes.specs.Readings.{evaluate_node_of_greater_number};

use crate::known::KnownFact;
use symbols_ast::tree::{Kind, NodeId, NodeRef, Pat};
use symbols_nodes::deps::node_of_greater_number;

/// Returns the type annotation of a pattern; for a pattern with a default, that of its left.
fn pattern_annotation(pattern: NodeRef<'_>) -> Option<NodeId>
    ensures { result ≡ pattern_annotation (node_view pattern.entry) }
{
    match pattern.kind() {
        Kind::Pat(
            Pat::BindingIdent { type_ann, .. }
            | Pat::ArrayPat { type_ann, .. }
            | Pat::ObjectPat { type_ann, .. }
            | Pat::RestPat { type_ann, .. },
        ) => *type_ann,
        Kind::Pat(Pat::AssignPat { left, .. }) => pattern_annotation(node_of_greater_number(
            pattern, *left,
        )?),
        _ => None,
    }
}

/// Returns whether the pattern of a number has a type annotation.
pub(crate) fn is_child_pattern_annotated(node: NodeRef<'_>, pattern: NodeId) -> bool
    ensures { result ≡ is_child_pattern_annotated (node_view node.entry) pattern }
{
    match node_of_greater_number(node, pattern) {
        Some(pattern) => pattern_annotation(pattern).is_some(),
        None => false,
    }
}

/// Returns whether a node is a pattern with a type annotation, by the fact that is known of it.
pub(crate) fn has_type_annotation(node: NodeRef<'_>, known: KnownFact) -> bool
    requires { IsKnownFactTrueOf known (node_view node) }
    ensures { result ≡ has_type_annotation (node_view node.entry) }
{
    match known {
        KnownFact::Annotated(annotated) => annotated,
        _ => pattern_annotation(node).is_some(),
    }
}
