//! References that nodes of a tree are.

ghost use Rattle.std.specs.Prelude.{◌≡◌, ◌++◌, ◌∷◌, [], IfOk, OnOk, List, ℕ, Some, is_some, map};
ghost use Rattle.std.specs.Borrow.{Bor};
ghost use Rattle.std.specs.Cow.{cow_str_bytes};
ghost use Rattle.std.specs.Option.{option_map, option_to_list};
ghost use Rattle.symbols_ast.specs.declared.tree.kinds.Kind.TheVariants as Kind;
ghost use Rattle.symbols_ast.specs.Ids.{id_view};
ghost use Rattle.symbols_ast.specs.NodeRefs.{node_view, kind_of};
ghost use Rattle.symbols_nodes.specs.DottedNames.{entity_name, member_expr_name};
ghost use Rattle.symbols_deps.specs.inner.KnownFacts.{IsKnownFactTrueOf, may_be_reference};
ghost use Rattle.symbols_nodes.specs.Readings.{evaluate_node_of_greater_number};
ghost use Rattle.symbols_nodes.specs.References.{id, reference_view, namespaced_reference_view};
ghost use Rattle.symbols_nodes.specs.References.{qualified_id_reference, import_type_reference};
ghost use Rattle.symbols_nodes.specs.References.{reference_of_node};
ghost use Rattle.symbols_deps.specs.inner.References.{dependency_in_namespace};

use crate::known::KnownFact;
use std::alloc::{AllocError, Global};
use std::borrow::CowStr;
use symbols_ast::tree::{Expr, Id, Kind, NodeId, NodeRef, Ty};
use symbols_nodes::deps::{
    ReferenceNamespace, SymbolNodeDep, entity_name, member_expr_name, node_of_greater_number,
};

/// Appends borrowed parts.
fn push_parts<'a>(borrowed: &[&'a str], parts: &mut Vec<CowStr<'a>>) -> Result<(), AllocError>
    ensures { OnOk result (map cow_str_bytes parts.new.items ≡ map cow_str_bytes parts.old.items
        ++ map (λ (part : Bor (List ℕ)). part.now) borrowed.now) }
{
    for part in borrowed {
        parts.push(CowStr::Borrowed(*part))?;
    }
    Ok(())
}

/// Returns a dotted name in types as a reference, if the node is one.
fn qualified<'a>(alloc: Global, node: NodeRef<'a>) -> Result<Option<SymbolNodeDep<'a>>, AllocError>
    ensures { IfOk result (λ reference. option_map reference_view reference
        ≡ option_map qualified_id_reference (entity_name (node_view node.entry))) }
{
    let Some(name) = entity_name(alloc, node)? else {
        return Ok(None);
    };
    let mut parts = Vec::with_capacity(alloc, name.parts.len())?;
    push_parts(&name.parts, &mut parts)?;
    Ok(Some(SymbolNodeDep::QualifiedId(name.leftmost, parts)))
}

/// Returns a dotted name in expressions as a reference, if the node is one.
fn member_reference<'a>(
    alloc: Global,
    node: NodeRef<'a>,
) -> Result<Option<SymbolNodeDep<'a>>, AllocError>
    ensures { IfOk result (λ reference. option_map reference_view reference
        ≡ option_map qualified_id_reference (member_expr_name (node_view node.entry))) }
{
    let Some(name) = member_expr_name(alloc, node)? else {
        return Ok(None);
    };
    Ok(Some(SymbolNodeDep::QualifiedId(name.leftmost, name.parts)))
}

/// Returns an import type with a qualifier as a reference, the leftmost name first.
fn imported<'a>(
    alloc: Global,
    node: NodeRef<'a>,
    specifier_text: &'a str,
    qualifier: NodeId,
) -> Result<Option<SymbolNodeDep<'a>>, AllocError>
    ensures { IfOk result (λ reference. option_map reference_view reference
        ≡ option_map (import_type_reference specifier_text.now)
        (evaluate_node_of_greater_number entity_name (node_view node.entry)
        qualifier)) }
{
    let Some(qualifier) = node_of_greater_number(node, qualifier) else {
        return Ok(None);
    };
    let Some(name) = entity_name(alloc, qualifier)? else {
        return Ok(None);
    };
    let mut parts = Vec::with_capacity(alloc, name.parts.len().saturating_add(1))?;
    parts.push(CowStr::Borrowed(name.leftmost.name.as_str()))?;
    push_parts(&name.parts, &mut parts)?;
    Ok(Some(SymbolNodeDep::ImportType(specifier_text, parts)))
}

/// Returns the reference that the node is, if it is one.
#[tactic(auto, using(crate::proofs::unnamed_none), unfolding(symbols_nodes::specs::References::reference_of_node))]
pub(crate) fn reference_of_node<'a>(
    alloc: Global,
    node: NodeRef<'a>,
    known: KnownFact,
) -> Result<Option<SymbolNodeDep<'a>>, AllocError>
    requires { IsKnownFactTrueOf known (node_view node) }
    ensures { IfOk result (λ reference. option_map reference_view reference
        ≡ reference_of_node (node_view node.entry)) }
{
    match node.kind() {
        Kind::Expr(Expr::Ident { sym }) => Ok(Some(SymbolNodeDep::Id(sym))),
        Kind::Expr(Expr::Member { .. }) => match known {
            KnownFact::NoName => Ok(None),
            _ => member_reference(alloc, node),
        },
        Kind::Ty(Ty::TsQualifiedName { .. }) => qualified(alloc, node),
        Kind::Ty(Ty::TsImportType { arg, qualifier, .. }) => match qualifier {
            None => Ok(Some(SymbolNodeDep::ImportType(arg.as_str(), Vec::new(alloc)))),
            Some(qualifier) => imported(alloc, node, arg.as_str(), *qualifier),
        },
        _ => Ok(None),
    }
}

/// The dependencies that were found so far.
pub(crate) type Found<'a> = Vec<(SymbolNodeDep<'a>, ReferenceNamespace)>;

/// Returns whether a type may be a reference itself.
pub(crate) fn is_reference_type(ty: &Ty) -> bool
    ensures { result ≡ may_be_reference (Kind.Ty ty.now) }
{
    matches!(ty, Ty::TsQualifiedName { .. } | Ty::TsImportType { .. })
}

/// Returns whether nodes of the kind may be references.
pub(crate) fn may_be_reference(kind: &Kind) -> bool
    ensures { result ≡ may_be_reference kind.now }
{
    matches!(
        kind,
        Kind::Expr(Expr::Ident { .. } | Expr::Member { .. })
            | Kind::Ty(Ty::TsQualifiedName { .. } | Ty::TsImportType { .. })
    )
}

/// Appends a reference to an identifier.
#[inline(never)]
pub(crate) fn push_name<'a>(
    sym: &'a Id,
    namespace: ReferenceNamespace,
    found: &mut Found<'a>,
) -> Result<(), AllocError>
    ensures { OnOk result (map namespaced_reference_view found.new.items
        ≡ map namespaced_reference_view found.old.items
        ++ dependency_in_namespace namespace (id (id_view sym.now)) ∷ []) }
{
    found.push((SymbolNodeDep::Id(sym), namespace))?;
    Ok(())
}

/// Appends the reference that a node is, and returns whether it is one.
#[inline(never)]
fn push_any<'a>(
    alloc: Global,
    node: NodeRef<'a>,
    known: KnownFact,
    namespace: ReferenceNamespace,
    found: &mut Found<'a>,
) -> Result<bool, AllocError>
    requires { IsKnownFactTrueOf known (node_view node) }
    ensures refers { IfOk result
        (λ refers. refers ≡ is_some (reference_of_node (node_view node.entry))) }
    ensures added { IfOk result (λ _. map namespaced_reference_view found.new.items
        ≡ map namespaced_reference_view found.old.items ++ option_to_list
        (option_map (dependency_in_namespace namespace)
        (reference_of_node (node_view node.entry)))) }
{
    match reference_of_node(alloc, node, known)? {
        Some(reference) => {
            found.push((reference, namespace))?;
            Ok(true)
        }
        None => Ok(false),
    }
}

/// Appends the reference that a node is, and returns whether it is one. The caller passes the
/// node's kind. Most references are identifiers, which have a fast path.
pub(crate) fn push_reference<'a>(
    alloc: Global,
    node: NodeRef<'a>,
    kind: &'a Kind,
    known: KnownFact,
    namespace: ReferenceNamespace,
    found: &mut Found<'a>,
) -> Result<bool, AllocError>
    requires kind { kind_of (node_view node) ≡ Some kind.now }
    requires known { IsKnownFactTrueOf known (node_view node) }
    ensures refers { IfOk result
        (λ refers. refers ≡ is_some (reference_of_node (node_view node.entry))) }
    ensures added { IfOk result (λ _. map namespaced_reference_view found.new.items
        ≡ map namespaced_reference_view found.old.items ++ option_to_list
        (option_map (dependency_in_namespace namespace)
        (reference_of_node (node_view node.entry)))) }
{
    if !may_be_reference(kind) {
        return Ok(false);
    }
    if let Kind::Expr(Expr::Ident { sym }) = kind {
        push_name(sym, namespace, found)?;
        return Ok(true);
    }
    push_any(alloc, node, known, namespace, found)
}
