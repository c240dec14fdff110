//! The names of declaration nodes.

ghost use Rattle.std.specs.Prelude.{◌≡◌, ◌++◌, Some, None, IfOk, IsOkAnd, string_bytes, codes};
ghost use Rattle.std.specs.Option.{option_map, option_copied, option_and_then};
ghost use Rattle.std.specs.Cow.{cow_str_bytes};
ghost use Rattle.symbols_ast.specs.NodeRefs.{node_view, kind_of};
ghost use Rattle.symbols_ast.specs.Fields.{ident_child_of, id_child_of, key_child_of, expr_child_of};
ghost use Rattle.symbols_nodes.specs.NodeViews.{export_decl_view, symbol_node_view};
ghost use Rattle.symbols_nodes.specs.NodeNames.{ident_or_literal_text, child_text, key_name_by_kind};
ghost use Rattle.symbols_nodes.specs.NodeNames.{key_name};
ghost use Rattle.symbols_nodes.specs.NodeNames.{binding_name, param_name_by_kind, param_name};
ghost use Rattle.symbols_nodes.specs.NodeNames.{default_decl_name_by_kind};
ghost use Rattle.symbols_nodes.specs.NodeNames.{default_decl_name, export_decl_name};
ghost use Rattle.symbols_nodes.specs.NodeNames.{name_of_node_not_class_member, node_name};

use crate::nodes::refs::{ExportDeclRef, SymbolNodeRef};
use std::alloc::{AllocError, Global};
use std::borrow::CowStr;
use symbols_ast::tree::{Decl, Expr, Kind, NodeRef, Pat};

fn ident_or_literal_text(kind: &Kind) -> Option<&str>
    ensures { option_copied result ≡ ident_or_literal_text kind.now }
{
    match kind {
        Kind::Expr(Expr::Ident { sym }) => Some(sym.name.as_str()),
        Kind::Expr(Expr::Str { value }) => Some(value.as_str()),
        Kind::Expr(Expr::Num { text } | Expr::BigInt { text }) => Some(text.as_str()),
        _ => None,
    }
}

/// Returns the text of a child that is an identifier or a literal.
fn child_text<'a>(child: Option<NodeRef<'a>>) -> Option<&'a str>
    ensures { option_copied result ≡ option_and_then ident_or_literal_text (option_and_then kind_of
        (option_map node_view child.entry)) }
{
    ident_or_literal_text(child?.kind())
}

/// Returns a private name with `#` before it.
fn private_text(alloc: Global, name: &str) -> Result<String, AllocError>
    ensures { IfOk result (λ text. string_bytes text ≡ codes "#" ++ name.now) }
{
    let mut text = String::new(alloc);
    text.push('#')?;
    text.push_str(name)?;
    Ok(text)
}

/// Returns a text as a borrowed `CowStr`.
fn borrowed_text<'a>(text: Option<&'a str>) -> Option<CowStr<'a>>
    ensures { option_map cow_str_bytes result ≡ option_copied text.entry }
{
    match text {
        Some(text) => Some(CowStr::Borrowed(text)),
        None => None,
    }
}

/// Returns the name of a key; `None` for a big integer, and for a computed key that is no name or
/// literal.
fn key_name_by_kind<'a>(alloc: Global, key: NodeRef<'a>) -> Result<Option<CowStr<'a>>, AllocError>
    ensures { IfOk result (λ name. option_map cow_str_bytes name ≡ option_and_then
        (key_name_by_kind (node_view key.entry)) (kind_of (node_view key.entry))) }
{
    match key.kind() {
        Kind::Expr(Expr::PrivateName { name }) => {
            let text = private_text(alloc, name)?;
            Ok(Some(CowStr::Owned(text)))
        }
        Kind::Expr(Expr::IdentName { name }) => Ok(Some(CowStr::Borrowed(name))),
        Kind::Expr(Expr::Str { value }) => Ok(Some(CowStr::Borrowed(value))),
        Kind::Expr(Expr::Num { text }) => Ok(Some(CowStr::Borrowed(text))),
        Kind::Expr(Expr::Computed { .. }) => Ok(borrowed_text(child_text(key.expr()))),
        _ => Ok(None),
    }
}

/// Returns the name of a member's key.
fn key_name<'a>(alloc: Global, node: NodeRef<'a>) -> Result<Option<CowStr<'a>>, AllocError>
    ensures { IfOk result
        (λ name. option_map cow_str_bytes name ≡ key_name (node_view node.entry)) }
{
    match node.key() {
        Some(key) => key_name_by_kind(alloc, key),
        None => Ok(None),
    }
}

/// Returns the name that a pattern binds, if it is an identifier.
fn binding_name<'a>(node: NodeRef<'a>) -> Option<&'a str>
    ensures { option_copied result ≡ binding_name (node_view node.entry) }
{
    match node.sym() {
        Some(sym) => Some(sym.name.as_str()),
        None => None,
    }
}

/// Returns the name of a parameter property.
fn param_name<'a>(node: NodeRef<'a>) -> Option<&'a str>
    ensures { option_copied result ≡ param_name (node_view node.entry) }
{
    let param = node.param()?;
    match param.kind() {
        Kind::Pat(Pat::AssignPat { .. }) => binding_name(param.left()?),
        _ => binding_name(param),
    }
}

/// Returns the name of the declaration after `export default`, if it has one.
fn default_name<'a>(node: NodeRef<'a>) -> Option<&'a str>
    ensures { option_copied result ≡ default_decl_name (node_view node.entry) }
{
    let decl = node.decl()?;
    match decl.kind() {
        Kind::Decl(Decl::TsInterfaceDecl { .. }) => child_text(decl.id()),
        _ => child_text(decl.ident()),
    }
}

/// Returns the name of the declaration after `export`.
fn export_decl_name<'a>(decl: ExportDeclRef<'a>) -> Option<&'a str>
    ensures { option_copied result ≡ export_decl_name (export_decl_view decl.entry) }
{
    match decl {
        ExportDeclRef::Class(node) | ExportDeclRef::Fn(node) => child_text(node.ident()),
        ExportDeclRef::Var(_, _, ident) => binding_name(ident),
        ExportDeclRef::TsEnum(node)
        | ExportDeclRef::TsInterface(node)
        | ExportDeclRef::TsModule(node)
        | ExportDeclRef::TsTypeAlias(node) => child_text(node.id()),
    }
}

/// Returns the name of a node whose name is in the tree as it is. It is `None` for class members
/// named by a key, which `maybe_name` handles.
fn name_of_node_not_class_member<'a>(node: SymbolNodeRef<'a>) -> Option<&'a str>
    ensures { option_copied result ≡ name_of_node_not_class_member (symbol_node_view node.entry) }
{
    match node {
        SymbolNodeRef::ExportDecl(_, decl) => export_decl_name(decl),
        SymbolNodeRef::ExportDefaultDecl(node) => default_name(node),
        SymbolNodeRef::ClassDecl(node) | SymbolNodeRef::FnDecl(node) => child_text(node.ident()),
        SymbolNodeRef::TsEnum(node)
        | SymbolNodeRef::TsInterface(node)
        | SymbolNodeRef::TsNamespace(node)
        | SymbolNodeRef::TsTypeAlias(node) => child_text(node.id()),
        SymbolNodeRef::Var(_, _, ident) | SymbolNodeRef::UsingVar(_, _, ident) => {
            binding_name(ident)
        }
        SymbolNodeRef::ClassParamProp(node) => param_name(node),
        SymbolNodeRef::Constructor(_) => Some("%%dg_ctor%%"),
        SymbolNodeRef::ExpandoProperty(expando) => Some(expando.prop_name()),
        SymbolNodeRef::TsIndexSignature(_) => Some("%%dg_index%%"),
        SymbolNodeRef::TsCallSignatureDecl(_) => Some("%%dg_call%%"),
        SymbolNodeRef::TsConstructSignatureDecl(_) => Some("%%dg_construct%%"),
        SymbolNodeRef::TsPropertySignature(node)
        | SymbolNodeRef::TsGetterSignature(node)
        | SymbolNodeRef::TsSetterSignature(node)
        | SymbolNodeRef::TsMethodSignature(node) => child_text(node.key()),
        SymbolNodeRef::Module(_)
        | SymbolNodeRef::ExportDefaultExpr(_)
        | SymbolNodeRef::AutoAccessor(_)
        | SymbolNodeRef::ClassMethod(_)
        | SymbolNodeRef::ClassProp(_) => None,
    }
}

impl<'a> ExportDeclRef<'a> {
    /// Returns the name of the declaration: its identifier, or the string that names a module (own
    /// name: deno_graph has it on the node, which also explains the result type). It never fails.
    pub fn maybe_name(self, _: Global) -> Result<Option<CowStr<'a>>, AllocError>
        ensures { IsOkAnd result (λ name. option_map cow_str_bytes name
            ≡ export_decl_name (export_decl_view self.entry)) }
    {
        Ok(borrowed_text(export_decl_name(self)))
    }
}

impl<'a> SymbolNodeRef<'a> {
    /// Returns the name of the declaration (as deno_graph): its identifier or its key, with `#`
    /// before a private one. A constructor, a call signature, a construct signature and an index
    /// signature have reserved names, such as `%%dg_ctor%%`. It is `None` for a module, for an
    /// expression, and for a default class or function without an identifier. It is also `None` for
    /// a class member's key that is a big integer, and for a key computed from more than a name or
    /// a literal.
    ///
    /// # Errors
    ///
    /// The allocation failed. The contract does not say which names need an allocation.
    pub fn maybe_name(self, alloc: Global) -> Result<Option<CowStr<'a>>, AllocError>
        ensures { IfOk result
            (λ name. option_map cow_str_bytes name ≡ node_name (symbol_node_view self.entry)) }
    {
        match self {
            SymbolNodeRef::AutoAccessor(node)
            | SymbolNodeRef::ClassMethod(node)
            | SymbolNodeRef::ClassProp(node) => key_name(alloc, node),
            _ => Ok(borrowed_text(name_of_node_not_class_member(self))),
        }
    }
}
