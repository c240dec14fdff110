//! Tests of declaration nodes by their kinds.

ghost use Rattle.std.specs.Prelude.{◌≡◌, true, false};
ghost use Rattle.std.specs.Option.{option_and_then, option_copied};
ghost use Rattle.symbols_ast.specs.NodeRefs.{node_view, kind_of, child_in_field};
ghost use Rattle.symbols_ast.specs.Fields.{decl_child_of};
ghost use Rattle.symbols_nodes.specs.NodeViews.{export_decl_view, symbol_node_view};
ghost use Rattle.symbols_nodes.specs.NodeTests.{is_exported_class, is_class_exported_or_not, is_exported_function};
ghost use Rattle.symbols_nodes.specs.NodeTests.{is_function_exported_or_not, is_exported_interface};
ghost use Rattle.symbols_nodes.specs.NodeTests.{is_interface_exported_or_not, is_exported_ts_namespace};
ghost use Rattle.symbols_nodes.specs.NodeTests.{is_ts_namespace_exported_or_not, is_exported_var};
ghost use Rattle.symbols_nodes.specs.NodeTests.{is_var_exported_or_not, is_ctor, is_module, has_export_keyword};
ghost use Rattle.symbols_nodes.specs.NodeTests.{has_direct_body, has_function_body, exported_decl_has_body};
ghost use Rattle.symbols_nodes.specs.NodeTests.{default_decl_has_body, has_body, is_method};

use crate::nodes::refs::{ExportDeclRef, SymbolNodeRef};
use symbols_ast::tree::{Decl, Kind, Member, MethodKind, NodeRef};

/// Returns the kind of the declaration after `export default`.
fn default_kind<'a>(node: NodeRef<'a>) -> Option<&'a Kind>
    ensures { option_copied result
        ≡ option_and_then kind_of (child_in_field (node_view node.entry) decl_child_of) }
{
    Some(node.decl()?.kind())
}

fn has_direct_body(node: NodeRef<'_>) -> bool
    ensures { result ≡ has_direct_body (node_view node.entry) }
{
    node.body_node().is_some()
}

fn has_function_body(node: NodeRef<'_>) -> bool
    ensures { result ≡ has_function_body (node_view node.entry) }
{
    match node.function() {
        Some(function) => has_direct_body(function),
        None => false,
    }
}

fn default_decl_has_body(decl: NodeRef<'_>) -> bool
    ensures { result ≡ default_decl_has_body
        (node_view decl.entry) (kind_of (node_view decl.entry)) }
{
    match decl.kind() {
        Kind::Decl(Decl::FnExpr { .. }) => has_function_body(decl),
        Kind::Decl(Decl::ClassExpr { .. } | Decl::TsInterfaceDecl { .. }) => true,
        _ => false,
    }
}

impl ExportDeclRef<'_> {
    /// Returns whether the declaration is a class (own name: deno_graph has it on the node).
    pub fn is_class(&self) -> bool
        ensures { result ≡ is_exported_class (export_decl_view self.now) }
    {
        matches!(self, ExportDeclRef::Class(_))
    }

    /// Returns whether the declaration is a function (own name: deno_graph has it on the node).
    pub fn is_function(&self) -> bool
        ensures { result ≡ is_exported_function (export_decl_view self.now) }
    {
        matches!(self, ExportDeclRef::Fn(_))
    }

    /// Returns whether the declaration is an interface (own name: deno_graph has it on the node).
    pub fn is_interface(&self) -> bool
        ensures { result ≡ is_exported_interface (export_decl_view self.now) }
    {
        matches!(self, ExportDeclRef::TsInterface(_))
    }

    /// Returns whether the declaration is a namespace (own name: deno_graph has it on the node).
    pub fn is_ts_namespace(&self) -> bool
        ensures { result ≡ is_exported_ts_namespace (export_decl_view self.now) }
    {
        matches!(self, ExportDeclRef::TsModule(_))
    }

    /// Returns whether the declaration is a variable (own name: deno_graph has it on the node).
    pub fn is_var(&self) -> bool
        ensures { result ≡ is_exported_var (export_decl_view self.now) }
    {
        matches!(self, ExportDeclRef::Var(..))
    }

    /// Returns whether the declaration has a body (as deno_graph). Classes, enums and interfaces
    /// always have one, variables and type aliases never; functions and namespaces have one if it
    /// is written.
    pub fn has_body(&self) -> bool
        ensures { result ≡ exported_decl_has_body (export_decl_view self.now) }
    {
        match self {
            ExportDeclRef::Class(_) | ExportDeclRef::TsEnum(_) | ExportDeclRef::TsInterface(_) => {
                true
            }
            ExportDeclRef::Fn(node) => has_function_body(*node),
            ExportDeclRef::TsModule(node) => has_direct_body(*node),
            ExportDeclRef::Var(..) | ExportDeclRef::TsTypeAlias(_) => false,
        }
    }

    /// Returns false: no exported declaration is a constructor (own name: deno_graph has it on the
    /// node).
    pub fn is_ctor(&self) -> bool
        ensures { result ≡ false }
    {
        false
    }

    /// Returns false: no exported declaration is the module (own name: deno_graph has it on the
    /// node).
    pub fn is_module(&self) -> bool
        ensures { result ≡ false }
    {
        false
    }

    /// Returns true: each has the keyword `export` (own name: deno_graph has it on the node).
    pub fn has_export_keyword(&self) -> bool
        ensures { result ≡ true }
    {
        true
    }
}

impl SymbolNodeRef<'_> {
    /// Returns whether the node is a class: without `export`, exported, or default (as deno_graph).
    pub fn is_class(&self) -> bool
        ensures { result ≡ is_class_exported_or_not (symbol_node_view self.now) }
    {
        match self {
            SymbolNodeRef::ClassDecl(_) => true,
            SymbolNodeRef::ExportDecl(_, decl) => decl.is_class(),
            SymbolNodeRef::ExportDefaultDecl(node) => {
                matches!(
                    default_kind(*node),
                    Some(Kind::Decl(Decl::ClassExpr { .. }))
                )
            }
            _ => false,
        }
    }

    /// Returns whether the node is a function: without `export`, exported, or default (as
    /// deno_graph).
    pub fn is_function(&self) -> bool
        ensures { result ≡ is_function_exported_or_not (symbol_node_view self.now) }
    {
        match self {
            SymbolNodeRef::FnDecl(_) => true,
            SymbolNodeRef::ExportDecl(_, decl) => decl.is_function(),
            SymbolNodeRef::ExportDefaultDecl(node) => {
                matches!(default_kind(*node), Some(Kind::Decl(Decl::FnExpr { .. })))
            }
            _ => false,
        }
    }

    /// Returns whether the node is an interface: without `export`, exported, or default (as
    /// deno_graph).
    pub fn is_interface(&self) -> bool
        ensures { result ≡ is_interface_exported_or_not (symbol_node_view self.now) }
    {
        match self {
            SymbolNodeRef::TsInterface(_) => true,
            SymbolNodeRef::ExportDecl(_, decl) => decl.is_interface(),
            SymbolNodeRef::ExportDefaultDecl(node) => {
                matches!(
                    default_kind(*node),
                    Some(Kind::Decl(Decl::TsInterfaceDecl { .. }))
                )
            }
            _ => false,
        }
    }

    /// Returns whether the node is a namespace, exported or not (as deno_graph).
    pub fn is_ts_namespace(&self) -> bool
        ensures { result ≡ is_ts_namespace_exported_or_not (symbol_node_view self.now) }
    {
        match self {
            SymbolNodeRef::TsNamespace(_) => true,
            SymbolNodeRef::ExportDecl(_, decl) => decl.is_ts_namespace(),
            _ => false,
        }
    }

    /// Returns whether the node is a variable of `var`, `let` or `const`, exported or not. A
    /// variable of `using` isn't (as deno_graph).
    pub fn is_var(&self) -> bool
        ensures { result ≡ is_var_exported_or_not (symbol_node_view self.now) }
    {
        match self {
            SymbolNodeRef::Var(..) => true,
            SymbolNodeRef::ExportDecl(_, decl) => decl.is_var(),
            _ => false,
        }
    }

    /// Returns whether the node is a constructor (as deno_graph).
    pub fn is_ctor(&self) -> bool
        ensures { result ≡ is_ctor (symbol_node_view self.now) }
    {
        matches!(self, SymbolNodeRef::Constructor(_))
    }

    /// Returns whether the node is the module (as deno_graph).
    pub fn is_module(&self) -> bool
        ensures { result ≡ is_module (symbol_node_view self.now) }
    {
        matches!(self, SymbolNodeRef::Module(_))
    }

    /// Returns whether the node has `export` or `export default` (as deno_graph).
    pub fn has_export_keyword(&self) -> bool
        ensures { result ≡ has_export_keyword (symbol_node_view self.now) }
    {
        matches!(
            self,
            SymbolNodeRef::ExportDecl(..)
                | SymbolNodeRef::ExportDefaultDecl(_)
                | SymbolNodeRef::ExportDefaultExpr(_)
        )
    }

    /// Returns whether the node has a body. Modules, classes, enums and interfaces always have one.
    /// Functions, namespaces, methods and constructors have one if it is written (as deno_graph,
    /// but for an `AutoAccessor`, which has none).
    pub fn has_body(&self) -> bool
        ensures { result ≡ has_body (symbol_node_view self.now) }
    {
        match self {
            SymbolNodeRef::Module(_)
            | SymbolNodeRef::ClassDecl(_)
            | SymbolNodeRef::TsEnum(_)
            | SymbolNodeRef::TsInterface(_) => true,
            SymbolNodeRef::ExportDecl(_, decl) => decl.has_body(),
            SymbolNodeRef::ExportDefaultDecl(node) => match node.decl() {
                Some(decl) => default_decl_has_body(decl),
                None => false,
            },
            SymbolNodeRef::FnDecl(node) | SymbolNodeRef::ClassMethod(node) => {
                has_function_body(*node)
            }
            SymbolNodeRef::TsNamespace(node) | SymbolNodeRef::Constructor(node) => {
                has_direct_body(*node)
            }
            _ => false,
        }
    }

    /// Returns whether the node is a constructor, or a method other than a getter or setter (own
    /// name for the test by which deno_graph sets the overload flag).
    pub fn is_method(&self) -> bool
        ensures { result ≡ is_method (symbol_node_view self.now) }
    {
        match self {
            SymbolNodeRef::ClassMethod(node) => matches!(
                node.kind(),
                Kind::Member(Member::ClassMethod {
                    kind: MethodKind::Method,
                    ..
                })
            ),
            SymbolNodeRef::Constructor(_) => true,
            _ => false,
        }
    }
}
