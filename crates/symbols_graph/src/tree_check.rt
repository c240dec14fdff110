//! The check of a tree, in one pass over its nodes.

ghost use Rattle.std.specs.Prelude.{◌≡◌, ◌↔◌, ℕ, ◌+◌, ◌*◌, ◌<◌, ◌≤◌, ◌^◌, All, length, slice_index};
ghost use Rattle.std.specs.Prelude.{SomeIndex, IsTrue, IfOk, IfSome, IfNone, Some, false};
ghost use Rattle.symbols_ast.specs.Nodes.{children};
ghost use Rattle.symbols_graph.specs.inner.Depths.{AreDepthsAfterCheckedNodes};
ghost use Rattle.symbols_graph.specs.inner.Depths.{IsSharedChildByDepths, SetsDepth};
ghost use Rattle.symbols_ast.specs.TreeFaults.{begins_with_program, IsBadChild, IsRangeInText};
ghost use Rattle.symbols_ast.specs.TreeFaults.{HasNoTreeFaultBelowRank, IsFirstTreeFault};
ghost use Rattle.symbols_ast.specs.WellFormed.{IsWellFormedTree};

use crate::child_list::list_children;
use crate::node_shape::has_misplaced_child_or_breaks_rule;
use std::alloc::{AllocError, Global};
use symbols_ast::graph::TreeFault;
use symbols_ast::tree::{Item, Kind, Node, NodeId, SourceRange, Tree};

fn begins(nodes: &[Node]) -> bool
    ensures { result ≡ begins_with_program nodes.now }
{
    match nodes.first() {
        Some(node) => matches!(&node.kind, Kind::Item(Item::Program { .. })),
        None => false,
    }
}

fn any_bad_child(ids: &[NodeId], n: usize, count: usize) -> bool
    ensures { IsTrue result ↔ SomeIndex ids.now (λ i. IsBadChild count n (slice_index ids.now i)) }
{
    for id in ids {
        let child = id.index();
        if child <= n || count <= child {
            return true;
        }
    }
    false
}

fn lies_in(range: SourceRange, text: &str) -> bool
    ensures { IsTrue result ↔ IsRangeInText text.now range }
{
    range.start <= range.end
        && text.is_char_boundary(range.start)
        && text.is_char_boundary(range.end)
}

/// Sets the depth of the children, as long as it is 1 before. It returns true at the first child of
/// another depth, which is a child of a node already.
fn gives_twice(ids: &[NodeId], depths: &mut [u16], depth: u16) -> bool
    requires inside { All (λ id. id < length depths.old) ids.now }
    requires deep { 2 ≤ depth }
    ensures len { length depths.new ≡ length depths.old }
    ensures shared_already { IsTrue result
        ↔ SomeIndex ids.now (IsSharedChildByDepths depths.old ids.now) }
    ensures given { result ≡ false → SetsDepth depths.old depths.new ids.now depth }
{
    for id in ids {
        let child = id.index();
        if depths[child] != 1 {
            return true;
        }
        depths[child] = depth;
    }
    false
}

/// The greatest depth of a node that passes the check. The program has depth 1.
const DEEPEST: u16 = 4096;

/// Returns the first fault of the node, if the nodes before it have none.
fn first_fault_at(
    nodes: &[Node],
    text: &str,
    n: usize,
    ids: &[NodeId],
    depths: &mut [u16],
) -> Option<TreeFault>
    requires room { n < length nodes.now }
    requires few { length nodes.now < 2 ^ 32 }
    requires listed { ids.now ≡ children nodes.now n }
    requires deep { AreDepthsAfterCheckedNodes nodes.now n depths.old }
    requires clear { HasNoTreeFaultBelowRank text.now nodes.now (5 * n + 2) }
    ensures first { IfSome result (λ fault. IsFirstTreeFault text.now nodes.now (Some fault)) }
    ensures clear { IfNone result (HasNoTreeFaultBelowRank text.now nodes.now (5 * (n + 1) + 2)) }
    ensures deep { IfNone result (AreDepthsAfterCheckedNodes nodes.now (n + 1) depths.new) }
{
    let id = NodeId(n as u32);
    if any_bad_child(ids, n, nodes.len()) {
        return Some(TreeFault::BadChild(id));
    }
    let depth = depths[n];
    if gives_twice(ids, depths, depth + 1) {
        return Some(TreeFault::SharedChild(id));
    }
    if !lies_in(nodes[n].range, text) {
        return Some(TreeFault::BadRange(id));
    }
    if has_misplaced_child_or_breaks_rule(nodes, n) {
        return Some(TreeFault::BadShape(id));
    }
    if depth > DEEPEST {
        return Some(TreeFault::TooDeep(id));
    }
    None
}

/// Returns the first fault of a tree over its text, if it has one.
pub(crate) fn first_tree_fault(
    alloc: Global,
    tree: &Tree,
    text: &str,
) -> Result<Option<TreeFault>, AllocError>
    ensures first { IfOk result (IsFirstTreeFault text.now tree.now.nodes.items) }
    ensures whole { IfOk result (λ fault. IfNone fault (IsWellFormedTree tree.now.nodes.items)) }
{
    let nodes = tree.nodes.as_slice();
    if !begins(nodes) {
        return Ok(Some(TreeFault::NoProgram));
    }
    if nodes.len() > u32::MAX as usize {
        return Ok(Some(TreeFault::TooManyNodes));
    }
    let mut depths = vec![in alloc; 1u16; nodes.len()]?;
    let mut ids = Vec::new(alloc);
    for n in 0..nodes.len() {
        list_children(nodes, n, &mut ids)?;
        if let Some(fault) = first_fault_at(nodes, text, n, &ids, &mut depths) {
            return Ok(Some(fault));
        }
    }
    Ok(None)
}
