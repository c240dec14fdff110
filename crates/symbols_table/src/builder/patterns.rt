//! The identifiers that a destructuring pattern binds.

ghost use Rattle.std.specs.Prelude.{◌≡◌, ◌≤◌, ◌+◌, ◌++◌, ◌∷◌, [], ℕ, length, IfOk, IfSome, OnOk};
ghost use Rattle.symbols_ast.specs.WellFormed.{IsWellFormedTree};
ghost use Rattle.symbols_table.specs.Patterns.{pattern_parts, pattern_bindings_within_levels, pattern_bindings};
ghost use Rattle.symbols_table.specs.inner.Patterns.{is_identifier_pattern};

use std::alloc::{AllocError, Global};
use std::slice;
use symbols_ast::tree::{Kind, NodeId, NodeRef, Pat};

/// Returns whether a pattern is an identifier.
fn is_identifier_pattern(kind: &Kind) -> bool
    ensures { result ≡ is_identifier_pattern kind.now }
{
    matches!(kind, Kind::Pat(Pat::BindingIdent { .. }))
}

/// Returns the parts of a pattern that may bind identifiers.
fn pattern_parts(kind: &Kind) -> &[NodeId]
    ensures { result.now ≡ pattern_parts kind.now }
{
    match kind {
        Kind::Pat(Pat::ArrayPat { elems, .. }) => elems,
        Kind::Pat(Pat::ObjectPat { props, .. }) => props,
        Kind::Pat(Pat::RestPat { arg, .. }) => slice::from_ref(arg),
        Kind::Pat(Pat::KeyValuePatProp { value, .. }) => slice::from_ref(value),
        Kind::Pat(Pat::AssignPatProp { key, .. }) => slice::from_ref(key),
        Kind::Pat(Pat::AssignPat { left, .. }) => slice::from_ref(left),
        _ => &[],
    }
}

/// Appends the identifiers that a pattern binds.
fn add_leaves(node: NodeRef<'_>, leaves: &mut Vec<NodeId>) -> Result<(), AllocError>
    requires { IsWellFormedTree node.tree.now.nodes.items }
    ensures { OnOk result ((levels : ℕ) → length node.entry.tree.now.nodes.items
        ≤ node.entry.number + levels → leaves.new.items ≡ leaves.old.items
        ++ pattern_bindings_within_levels node.entry.tree.now levels node.entry.number) }
{
    let kind = node.kind();
    if is_identifier_pattern(kind) {
        leaves.push(node.node_id())?;
        return Ok(());
    }
    for part in pattern_parts(kind) {
        if let Some(part) = node.node(*part) {
            add_leaves(part, leaves)?;
        }
    }
    Ok(())
}

/// Returns the identifier if the pattern is one, as most are. It saves the list of `leaves`.
pub(crate) fn single_leaf(pattern: NodeRef<'_>) -> Option<NodeId>
    ensures { IfSome result
        (λ name. pattern_bindings pattern.entry.tree.now pattern.entry.number ≡ name ∷ []) }
{
    if is_identifier_pattern(pattern.kind()) {
        Some(pattern.node_id())
    } else {
        None
    }
}

/// Returns the identifiers that a pattern binds, in order.
pub(crate) fn leaves(alloc: Global, pattern: NodeRef<'_>) -> Result<Vec<NodeId>, AllocError>
    requires { IsWellFormedTree pattern.tree.now.nodes.items }
    ensures { IfOk result
        (λ leaves. leaves.items ≡ pattern_bindings pattern.entry.tree.now pattern.entry.number) }
{
    let mut leaves = Vec::new(alloc);
    add_leaves(pattern, &mut leaves)?;
    Ok(leaves)
}
