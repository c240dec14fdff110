//! The namespaces that a declaration is in: values, types, or both.

ghost use Rattle.std.specs.Prelude.{◌≡◌};
ghost use Rattle.symbols_nodes.specs.NodeViews.{export_decl_view, symbol_node_view};
ghost use Rattle.symbols_nodes.specs.NodeNamespaces.{value_type_namespaces_of_export_decl};
ghost use Rattle.symbols_nodes.specs.NodeNamespaces.{value_type_namespaces_of_node};

use crate::nodes::refs::{ExportDeclRef, SymbolNodeRef};

impl ExportDeclRef<'_> {
    /// Returns whether the declaration is in the value namespace, and whether in the type
    /// namespace. Variables and functions are values only. Interfaces and type aliases are types
    /// only. Classes, enums and namespaces are both (as deno_graph).
    pub fn namespaces(&self) -> (bool, bool)
        ensures { result ≡ value_type_namespaces_of_export_decl (export_decl_view self.now) }
    {
        match self {
            ExportDeclRef::Var(..) | ExportDeclRef::Fn(_) => (true, false),
            ExportDeclRef::TsInterface(_) | ExportDeclRef::TsTypeAlias(_) => (false, true),
            ExportDeclRef::Class(_) | ExportDeclRef::TsEnum(_) | ExportDeclRef::TsModule(_) => {
                (true, true)
            }
        }
    }
}

impl SymbolNodeRef<'_> {
    /// Returns whether the node is in the value namespace, and whether in the type namespace.
    /// Variables, functions, default expressions and expando properties are values only. Interfaces
    /// and type aliases are types only. All others are both, the module and members included (as
    /// deno_graph).
    pub fn namespaces(&self) -> (bool, bool)
        ensures { result ≡ value_type_namespaces_of_node (symbol_node_view self.now) }
    {
        match self {
            SymbolNodeRef::Var(..)
            | SymbolNodeRef::UsingVar(..)
            | SymbolNodeRef::FnDecl(_)
            | SymbolNodeRef::ExportDefaultExpr(_)
            | SymbolNodeRef::ExpandoProperty(_) => (true, false),
            SymbolNodeRef::TsInterface(_) | SymbolNodeRef::TsTypeAlias(_) => (false, true),
            SymbolNodeRef::ExportDecl(_, decl) => decl.namespaces(),
            SymbolNodeRef::ExportDefaultDecl(_) if self.is_function() => (true, false),
            SymbolNodeRef::ExportDefaultDecl(_) if self.is_interface() => (false, true),
            _ => (true, true),
        }
    }
}
