//! The nodes and edges at which the visit of each kind of declaration begins.

ghost use Rattle.std.specs.Prelude.{◌≡◌, ◌++◌, map, OnOk, [], Option};
ghost use Rattle.std.specs.Option.{option_map, option_map_or};
ghost use Rattle.symbols_ast.specs.NodeRefs.{TreeNode, node_view, kind_of, child_in_field};
ghost use Rattle.symbols_ast.specs.Fields.{decl_child_of};
ghost use Rattle.symbols_deps.specs.Dependencies.{dependencies_of_all_occurrences, steps_from_node};
ghost use Rattle.symbols_deps.specs.Dependencies.{steps_from_function_child, steps_of_exported_decl};
ghost use Rattle.symbols_deps.specs.Dependencies.{steps_of_default_export, start_steps_of_decl, start_edge_steps};
ghost use Rattle.symbols_nodes.specs.NodeViews.{export_decl_view, symbol_node_view};
ghost use Rattle.symbols_nodes.specs.References.{namespaced_reference_view};

use crate::known::KnownFact;
use crate::references::{Found, may_be_reference, reference_of_node};
use crate::rules::PatternContext;
use crate::visit::Visit;
use std::alloc::{AllocError, Global};
use symbols_ast::tree::{Decl, Kind, NodeRef};
use symbols_nodes::deps::{ReferenceNamespace, ResolveDepsMode};
use symbols_nodes::nodes::{ExportDeclRef, SymbolNodeRef};

/// Appends the dependencies along a node's first edges, for a declaration that doesn't begin at the
/// node's own edges.
fn push_first<'a>(
    alloc: Global,
    mode: ResolveDepsMode,
    node: NodeRef<'a>,
    found: &mut Found<'a>,
) -> Result<(), AllocError>
    ensures { OnOk result (map namespaced_reference_view found.new.items
        ≡ map namespaced_reference_view found.old.items
        ++ dependencies_of_all_occurrences mode (start_edge_steps (node_view node.entry))) }
{
    let namespace = ReferenceNamespace::Value;
    let visit = Visit {
        alloc,
        mode,
        node,
        namespace,
    };
    visit.visit_first_edges(node.kind(), found)?;
    Ok(())
}

/// Appends the dependencies along a node's own edges, whether the node is a reference or not.
#[inline(never)]
fn push_edges<'a>(
    alloc: Global,
    mode: ResolveDepsMode,
    node: NodeRef<'a>,
    found: &mut Found<'a>,
) -> Result<(), AllocError>
    ensures { OnOk result (map namespaced_reference_view found.new.items
        ≡ map namespaced_reference_view found.old.items
        ++ dependencies_of_all_occurrences mode (steps_from_node (node_view node.entry))) }
{
    let kind = node.kind();
    let refers = reference_of_node(alloc, node, KnownFact::Nothing)?.is_some();
    let namespace = ReferenceNamespace::Value;
    let visit = Visit {
        alloc,
        mode,
        node,
        namespace,
    };
    visit.visit_edges(
        kind,
        PatternContext::Usual,
        refers,
        KnownFact::Nothing,
        found,
    )?;
    Ok(())
}

/// Appends the same dependencies as `push_edges`, with a fast path. If the node is no reference,
/// they are those of a visit to it. Most declarations have kinds with match arms here, which saves
/// a call.
fn push_node<'a>(
    alloc: Global,
    mode: ResolveDepsMode,
    node: NodeRef<'a>,
    found: &mut Found<'a>,
) -> Result<(), AllocError>
    ensures { OnOk result (map namespaced_reference_view found.new.items
        ≡ map namespaced_reference_view found.old.items
        ++ dependencies_of_all_occurrences mode (steps_from_node (node_view node.entry))) }
{
    let namespace = ReferenceNamespace::Value;
    let visit = Visit {
        alloc,
        mode,
        node,
        namespace,
    };
    match node.kind() {
        Kind::Decl(decl) => visit.visit_decl(decl, found),
        Kind::Member(member) => visit.visit_member(member, found),
        kind if may_be_reference(kind) => push_edges(alloc, mode, node, found),
        _ => Visit::visit_node(alloc, mode, node, namespace, PatternContext::Usual, found),
    }
}

/// Appends the dependencies along a child's own edges, if there is a child.
#[tactic(auto, using(crate::proofs::VisitLists::adds_nothing))]
fn push_child<'a>(
    alloc: Global,
    mode: ResolveDepsMode,
    child: Option<NodeRef<'a>>,
    found: &mut Found<'a>,
) -> Result<(), AllocError>
    ensures { OnOk result (map namespaced_reference_view found.new.items
        ≡ map namespaced_reference_view found.old.items ++ dependencies_of_all_occurrences mode
        (option_map_or steps_from_node (option_map node_view child.entry) [])) }
{
    match child {
        Some(child) => push_node(alloc, mode, child, found),
        None => Ok(()),
    }
}

/// Appends the dependencies of a declaration after `export`.
#[tactic(auto, using(crate::proofs::VisitLists::adds_nothing))]
pub(crate) fn push_exported<'a>(
    alloc: Global,
    mode: ResolveDepsMode,
    decl: ExportDeclRef<'a>,
    found: &mut Found<'a>,
) -> Result<(), AllocError>
    ensures { OnOk result (map namespaced_reference_view found.new.items
        ≡ map namespaced_reference_view found.old.items ++ dependencies_of_all_occurrences mode
        (steps_of_exported_decl (export_decl_view decl.entry))) }
{
    match decl {
        ExportDeclRef::Class(node) => push_child(alloc, mode, node.class(), found),
        ExportDeclRef::Fn(node) => push_child(alloc, mode, node.function(), found),
        ExportDeclRef::Var(_, node, _)
        | ExportDeclRef::TsEnum(node)
        | ExportDeclRef::TsInterface(node)
        | ExportDeclRef::TsTypeAlias(node) => push_node(alloc, mode, node, found),
        ExportDeclRef::TsModule(_) => Ok(()),
    }
}

/// Appends the dependencies of a declaration after `export default`.
#[tactic(auto, using(crate::proofs::VisitLists::adds_nothing))]
fn push_default<'a>(
    alloc: Global,
    mode: ResolveDepsMode,
    decl: NodeRef<'a>,
    found: &mut Found<'a>,
) -> Result<(), AllocError>
    ensures { OnOk result (map namespaced_reference_view found.new.items
        ≡ map namespaced_reference_view found.old.items ++ dependencies_of_all_occurrences mode
        (steps_of_default_export (node_view decl.entry) (kind_of (node_view decl.entry)))) }
{
    match decl.kind() {
        Kind::Decl(Decl::ClassExpr { .. }) => push_child(alloc, mode, decl.class(), found),
        Kind::Decl(Decl::FnExpr { .. }) => push_child(alloc, mode, decl.function(), found),
        Kind::Decl(Decl::TsInterfaceDecl { .. }) => push_node(alloc, mode, decl, found),
        _ => Ok(()),
    }
}

/// Appends the dependencies of an `export default` declaration, from its node.
#[tactic(auto, using(crate::proofs::VisitLists::adds_nothing))]
fn push_default_of<'a>(
    alloc: Global,
    mode: ResolveDepsMode,
    node: NodeRef<'a>,
    found: &mut Found<'a>,
) -> Result<(), AllocError>
    ensures { OnOk result (map namespaced_reference_view found.new.items
        ≡ map namespaced_reference_view found.old.items ++ dependencies_of_all_occurrences mode
        (option_map_or (λ (decl : TreeNode). steps_of_default_export decl (kind_of decl))
        (child_in_field (node_view node.entry) decl_child_of) [])) }
{
    match node.decl() {
        Some(decl) => push_default(alloc, mode, decl, found),
        None => Ok(()),
    }
}

/// Appends the dependencies of a class method: those of its key, and those of its function.
#[tactic(auto, using(crate::proofs::VisitLists::adds_in_round))]
fn push_method<'a>(
    alloc: Global,
    mode: ResolveDepsMode,
    node: NodeRef<'a>,
    found: &mut Found<'a>,
) -> Result<(), AllocError>
    ensures { OnOk result (map namespaced_reference_view found.new.items
        ≡ map namespaced_reference_view found.old.items
        ++ dependencies_of_all_occurrences mode (start_edge_steps (node_view node.entry)
        ++ steps_from_function_child (node_view node.entry))) }
{
    push_first(alloc, mode, node, found)?;
    push_child(alloc, mode, node.function(), found)
}

/// Appends the dependencies of a declaration.
#[tactic(auto, using(crate::proofs::VisitLists::adds_nothing))]
pub(crate) fn push_dependencies<'a>(
    alloc: Global,
    mode: ResolveDepsMode,
    node: SymbolNodeRef<'a>,
    found: &mut Found<'a>,
) -> Result<(), AllocError>
    ensures { OnOk result (map namespaced_reference_view found.new.items
        ≡ map namespaced_reference_view found.old.items ++ dependencies_of_all_occurrences mode
        (start_steps_of_decl (symbol_node_view node.entry))) }
{
    match node {
        SymbolNodeRef::Module(_) | SymbolNodeRef::TsNamespace(_) => Ok(()),
        SymbolNodeRef::ExportDecl(_, decl) => push_exported(alloc, mode, decl, found),
        SymbolNodeRef::ExportDefaultDecl(node) => push_default_of(alloc, mode, node, found),
        SymbolNodeRef::ClassDecl(node) => push_child(alloc, mode, node.class(), found),
        SymbolNodeRef::FnDecl(node) => push_child(alloc, mode, node.function(), found),
        SymbolNodeRef::ClassMethod(node) => push_method(alloc, mode, node, found),
        SymbolNodeRef::ExpandoProperty(expando) => {
            push_first(alloc, mode, expando.inner(), found)
        }
        SymbolNodeRef::ExportDefaultExpr(node)
        | SymbolNodeRef::AutoAccessor(node)
        | SymbolNodeRef::ClassProp(node)
        | SymbolNodeRef::Constructor(node) => push_first(alloc, mode, node, found),
        SymbolNodeRef::TsEnum(node)
        | SymbolNodeRef::TsInterface(node)
        | SymbolNodeRef::TsTypeAlias(node)
        | SymbolNodeRef::Var(_, node, _)
        | SymbolNodeRef::UsingVar(_, node, _)
        | SymbolNodeRef::ClassParamProp(node)
        | SymbolNodeRef::TsIndexSignature(node)
        | SymbolNodeRef::TsCallSignatureDecl(node)
        | SymbolNodeRef::TsConstructSignatureDecl(node)
        | SymbolNodeRef::TsPropertySignature(node)
        | SymbolNodeRef::TsGetterSignature(node)
        | SymbolNodeRef::TsSetterSignature(node)
        | SymbolNodeRef::TsMethodSignature(node) => push_node(alloc, mode, node, found),
    }
}
