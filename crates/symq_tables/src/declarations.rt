//! Prints a declaration of a symbol on a line of its own.

use crate::nodes::{form_name, push_nodes};
use std::alloc::{AllocError, Global};
use std::borrow::CowStr;
use symbols_graph::tree::{Id, SourceRange};
use symbols_nodes::nodes::SymbolNodeRef;
use symbols_table::decl::{FileDep, FileDepName, SymbolDecl, SymbolDeclKind};

fn push_target(text: &mut String, id: &Id) -> Result<(), AllocError> {
    let name = id.name.as_str();
    let scope = id.scope;
    write!(text, "target {name:?} of scope {scope}")
}

fn push_qualified_target(text: &mut String, id: &Id, parts: &[&str]) -> Result<(), AllocError> {
    let name = id.name.as_str();
    let scope = id.scope;
    write!(text, "qualified target {name:?} of scope {scope}, then")?;
    for part in parts {
        write!(text, " {part:?}")?;
    }
    Ok(())
}

/// Prints the name that is imported from another module, and the module's specifier.
pub(crate) fn push_file_ref(text: &mut String, dep: FileDep<'_>) -> Result<(), AllocError> {
    let specifier = dep.specifier;
    match dep.name {
        FileDepName::Star => write!(text, "file * from {specifier:?}"),
        FileDepName::Name(name) => write!(text, "file {name:?} from {specifier:?}"),
    }
}

/// Prints a name, if there is one.
pub(crate) fn push_name(text: &mut String, name: Option<CowStr<'_>>) -> Result<(), AllocError> {
    match name {
        Some(name) => write!(text, " {name:?}"),
        None => Ok(()),
    }
}

/// Prints a definition: its form, and its name if it has one.
fn push_definition(
    alloc: Global,
    text: &mut String,
    decl: &SymbolDecl<'_>,
) -> Result<(), AllocError> {
    text.push_str("definition")?;
    if let Some(node) = decl.maybe_node() {
        let form = form_name(node);
        write!(text, " {form}")?;
    }
    push_name(text, decl.maybe_name(alloc)?)
}

fn push_kind(alloc: Global, text: &mut String, decl: &SymbolDecl<'_>) -> Result<(), AllocError> {
    match &decl.kind {
        SymbolDeclKind::Target(id) => push_target(text, id),
        SymbolDeclKind::QualifiedTarget(id, parts) => push_qualified_target(text, id, parts),
        SymbolDeclKind::FileRef(dep) => push_file_ref(text, *dep),
        SymbolDeclKind::Definition(_) => push_definition(alloc, text, decl),
    }
}

fn push_range(text: &mut String, range: SourceRange) -> Result<(), AllocError> {
    let start = range.start;
    let end = range.end;
    write!(text, " at {start}..{end}")
}

/// Prints this keyword if the test holds.
pub(crate) fn push_test(text: &mut String, keyword: &str, holds: bool) -> Result<(), AllocError> {
    if holds {
        write!(text, ", {keyword}")
    } else {
        Ok(())
    }
}

/// Prints the keywords for the kinds of declaration whose tests hold.
fn push_sorts(text: &mut String, decl: &SymbolDecl<'_>) -> Result<(), AllocError> {
    let node = decl.maybe_node();
    push_test(text, "class", decl.is_class())?;
    push_test(text, "function", decl.is_function())?;
    push_test(text, "interface", decl.is_interface())?;
    push_test(
        text,
        "namespace",
        node.is_some_and(|node| node.is_ts_namespace()),
    )?;
    push_test(text, "var", decl.is_var())?;
    push_test(text, "constructor", decl.is_ctor())?;
    push_test(text, "module", node.is_some_and(|node| node.is_module()))?;
    push_test(text, "method", node.is_some_and(|node| node.is_method()))
}

/// Prints the keywords for the tests of a node that hold.
fn push_indices(text: &mut String, node: SymbolNodeRef<'_>) -> Result<(), AllocError> {
    push_test(text, "export keyword", node.has_export_keyword())?;
    push_test(text, "declaration", node.is_decl())?;
    push_test(text, "member", node.is_member())?;
    push_test(text, "private member", node.is_private_member())
}

/// Prints the keywords for the tests of a declaration that hold, and its namespaces.
fn push_tests(text: &mut String, decl: &SymbolDecl<'_>) -> Result<(), AllocError> {
    push_sorts(text, decl)?;
    if let Some(node) = decl.maybe_node() {
        push_indices(text, node)?;
    }
    push_test(text, "body", decl.has_body())?;
    push_test(text, "overloads", decl.has_overloads())?;
    let (is_value, is_type) = decl.namespaces();
    push_test(text, "value", is_value)?;
    push_test(text, "type", is_type)
}

fn push_nodes_of(text: &mut String, node: Option<SymbolNodeRef<'_>>) -> Result<(), AllocError> {
    match node {
        Some(node) => push_nodes(text, node),
        None => Ok(()),
    }
}

/// Prints the kind of a declaration, its range, the tests that hold, and its nodes.
pub(crate) fn push_declaration(
    alloc: Global,
    text: &mut String,
    decl: &SymbolDecl<'_>,
) -> Result<(), AllocError> {
    text.push_str("    ")?;
    push_kind(alloc, text, decl)?;
    push_range(text, decl.range)?;
    push_tests(text, decl)?;
    push_nodes_of(text, decl.maybe_node())?;
    text.push('\n')
}
