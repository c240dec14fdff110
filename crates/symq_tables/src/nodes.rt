//! Prints the form of a definition, and its nodes.

use std::alloc::AllocError;
use symbols_graph::tree::NodeRef;
use symbols_nodes::nodes::{ExpandoPropertyRef, ExportDeclRef, SymbolNodeRef};

fn exported_form_name(decl: ExportDeclRef<'_>) -> &'static str {
    match decl {
        ExportDeclRef::Class(_) => "ExportDecl Class",
        ExportDeclRef::Fn(_) => "ExportDecl Fn",
        ExportDeclRef::Var(..) => "ExportDecl Var",
        ExportDeclRef::TsEnum(_) => "ExportDecl TsEnum",
        ExportDeclRef::TsInterface(_) => "ExportDecl TsInterface",
        ExportDeclRef::TsModule(_) => "ExportDecl TsModule",
        ExportDeclRef::TsTypeAlias(_) => "ExportDecl TsTypeAlias",
    }
}

/// Returns the name of the form of a definition's node.
pub(crate) fn form_name(node: SymbolNodeRef<'_>) -> &'static str {
    match node {
        SymbolNodeRef::Module(_) => "Module",
        SymbolNodeRef::ExportDecl(_, decl) => exported_form_name(decl),
        SymbolNodeRef::ExportDefaultDecl(_) => "ExportDefaultDecl",
        SymbolNodeRef::ExportDefaultExpr(_) => "ExportDefaultExpr",
        SymbolNodeRef::ClassDecl(_) => "ClassDecl",
        SymbolNodeRef::FnDecl(_) => "FnDecl",
        SymbolNodeRef::TsEnum(_) => "TsEnum",
        SymbolNodeRef::TsInterface(_) => "TsInterface",
        SymbolNodeRef::TsNamespace(_) => "TsNamespace",
        SymbolNodeRef::TsTypeAlias(_) => "TsTypeAlias",
        SymbolNodeRef::Var(..) => "Var",
        SymbolNodeRef::UsingVar(..) => "UsingVar",
        SymbolNodeRef::AutoAccessor(_) => "AutoAccessor",
        SymbolNodeRef::ClassMethod(_) => "ClassMethod",
        SymbolNodeRef::ClassProp(_) => "ClassProp",
        SymbolNodeRef::ClassParamProp(_) => "ClassParamProp",
        SymbolNodeRef::Constructor(_) => "Constructor",
        SymbolNodeRef::ExpandoProperty(_) => "ExpandoProperty",
        SymbolNodeRef::TsIndexSignature(_) => "TsIndexSignature",
        SymbolNodeRef::TsCallSignatureDecl(_) => "TsCallSignatureDecl",
        SymbolNodeRef::TsConstructSignatureDecl(_) => "TsConstructSignatureDecl",
        SymbolNodeRef::TsPropertySignature(_) => "TsPropertySignature",
        SymbolNodeRef::TsGetterSignature(_) => "TsGetterSignature",
        SymbolNodeRef::TsSetterSignature(_) => "TsSetterSignature",
        SymbolNodeRef::TsMethodSignature(_) => "TsMethodSignature",
    }
}

/// Prints a node: the name of its kind, and its number.
fn push_node(text: &mut String, node: NodeRef<'_>) -> Result<(), AllocError> {
    let kind = node.kind().name();
    let number = node.node_id();
    write!(text, " {kind:?}#{number}")
}

fn push_exported(text: &mut String, decl: ExportDeclRef<'_>) -> Result<(), AllocError> {
    match decl {
        ExportDeclRef::Var(list, variable, ident) => push_variable(text, list, variable, ident),
        ExportDeclRef::Class(node)
        | ExportDeclRef::Fn(node)
        | ExportDeclRef::TsEnum(node)
        | ExportDeclRef::TsInterface(node)
        | ExportDeclRef::TsModule(node)
        | ExportDeclRef::TsTypeAlias(node) => push_node(text, node),
    }
}

fn push_variable(
    text: &mut String,
    list: NodeRef<'_>,
    variable: NodeRef<'_>,
    ident: NodeRef<'_>,
) -> Result<(), AllocError> {
    push_node(text, list)?;
    push_node(text, variable)?;
    push_node(text, ident)
}

/// Prints the nodes of an expando property, and the range of its name.
fn push_expando(text: &mut String, expando: ExpandoPropertyRef<'_>) -> Result<(), AllocError> {
    push_node(text, expando.inner())?;
    push_node(text, expando.member_expr())?;
    push_node(text, expando.obj_ident())?;
    push_node(text, expando.assignment())?;
    let range = expando.prop_name_range();
    let start = range.start;
    let end = range.end;
    write!(text, " with its name at {start}..{end}")
}

/// Prints the nodes of a definition, from the outermost.
pub(crate) fn push_nodes(text: &mut String, node: SymbolNodeRef<'_>) -> Result<(), AllocError> {
    text.push_str(":")?;
    match node {
        SymbolNodeRef::ExportDecl(node, decl) => {
            push_node(text, node)?;
            push_exported(text, decl)
        }
        SymbolNodeRef::Var(list, variable, ident)
        | SymbolNodeRef::UsingVar(list, variable, ident) => {
            push_variable(text, list, variable, ident)
        }
        SymbolNodeRef::ExpandoProperty(expando) => push_expando(text, expando),
        SymbolNodeRef::Module(node)
        | SymbolNodeRef::ExportDefaultDecl(node)
        | SymbolNodeRef::ExportDefaultExpr(node)
        | SymbolNodeRef::ClassDecl(node)
        | SymbolNodeRef::FnDecl(node)
        | SymbolNodeRef::TsEnum(node)
        | SymbolNodeRef::TsInterface(node)
        | SymbolNodeRef::TsNamespace(node)
        | SymbolNodeRef::TsTypeAlias(node)
        | SymbolNodeRef::AutoAccessor(node)
        | SymbolNodeRef::ClassMethod(node)
        | SymbolNodeRef::ClassProp(node)
        | SymbolNodeRef::ClassParamProp(node)
        | SymbolNodeRef::Constructor(node)
        | SymbolNodeRef::TsIndexSignature(node)
        | SymbolNodeRef::TsCallSignatureDecl(node)
        | SymbolNodeRef::TsConstructSignatureDecl(node)
        | SymbolNodeRef::TsPropertySignature(node)
        | SymbolNodeRef::TsGetterSignature(node)
        | SymbolNodeRef::TsSetterSignature(node)
        | SymbolNodeRef::TsMethodSignature(node) => push_node(text, node),
    }
}
