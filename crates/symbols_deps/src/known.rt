//! Facts that a visit passes from a node to its child, so that no part of a tree is read again at
//! each level.

ghost use Rattle.std.specs.Prelude.{◌≡◌, Some, false, is_some};
ghost use Rattle.symbols_ast.specs.NodeRefs.{TreeNode, node_view};
ghost use Rattle.symbols_deps.specs.inner.KnownFacts.{IsKnownFactTrueOf, IsMemberExprNode};
ghost use Rattle.symbols_nodes.specs.Readings.{node_of_greater_number};
ghost use Rattle.symbols_nodes.specs.References.{reference_of_node};

use symbols_ast::tree::{NodeId, NodeRef};
use symbols_nodes::deps::prop_part_below;

/// A fact about a node that its parent has established.
#[derive(Clone, Copy)]
pub(crate) enum KnownFact {
    Nothing,
    /// The node is no dotted name in an expression.
    NoName,
    /// Whether the node is a pattern with a type annotation.
    Annotated(bool),
}

/// Returns the fact about the object of a member expression that is no dotted name. If the property
/// may be part of a dotted name, the object is none either.
pub(crate) fn known_of_object(member: NodeRef<'_>, obj: NodeId, prop: NodeId) -> KnownFact
    requires kind { IsMemberExprNode (node_view member) obj prop }
    requires unnamed { is_some (reference_of_node (node_view member)) ≡ false }
    ensures { (child : TreeNode) → node_of_greater_number (node_view member.entry) obj ≡ Some child
        → IsKnownFactTrueOf result child }
{
    match prop_part_below(member, prop) {
        Some(_) => KnownFact::NoName,
        None => KnownFact::Nothing,
    }
}
