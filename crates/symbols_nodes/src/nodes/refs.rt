//! Typed references to the syntax nodes that declare symbols.

ghost use Rattle.std.specs.Prelude.{◌≡◌, is_some, true};
ghost use Rattle.symbols_ast.specs.NodeRefs.{node_view};
ghost use Rattle.symbols_nodes.specs.Expando.{expando_of_assignment};

use symbols_ast::tree::NodeRef;

/// The declaration after `export` (as deno_graph).
#[derive(Clone, Copy)]
pub enum ExportDeclRef<'a> {
    /// A class.
    Class(NodeRef<'a>),
    /// A function.
    Fn(NodeRef<'a>),
    /// A variable: the `VarDecl`, the `VarDeclarator` and the `BindingIdent`.
    Var(NodeRef<'a>, NodeRef<'a>, NodeRef<'a>),
    /// An enum.
    TsEnum(NodeRef<'a>),
    /// An interface.
    TsInterface(NodeRef<'a>),
    /// A namespace: the `TsModuleDecl`.
    TsModule(NodeRef<'a>),
    /// A type alias.
    TsTypeAlias(NodeRef<'a>),
}

/// An expando assignment, which adds a property to a function: `f.p = ..` or `f["p"] = ..`. The
/// object is an identifier, and `p` has the form of one (as deno_graph).
#[derive(Clone, Copy)]
pub struct ExpandoPropertyRef<'a> {
    pub(crate) inner: NodeRef<'a>,
    pub(crate) ghost is_expando: { is_some (expando_of_assignment (node_view inner)) ≡ true },
}

/// The syntax node of a declaration, in the role in which it declares a symbol (as deno_graph). The
/// crate `symbols_table` calls it the form of a declaration.
#[derive(Clone, Copy)]
pub enum SymbolNodeRef<'a> {
    /// The module: its `Program`.
    Module(NodeRef<'a>),
    /// `export` before a declaration: the `ExportDecl`, and the declaration.
    ExportDecl(NodeRef<'a>, ExportDeclRef<'a>),
    /// `export default` before a declaration: the `ExportDefaultDecl`.
    ExportDefaultDecl(NodeRef<'a>),
    /// `export default` before an expression: the `ExportDefaultExpr`.
    ExportDefaultExpr(NodeRef<'a>),
    /// A class.
    ClassDecl(NodeRef<'a>),
    /// A function.
    FnDecl(NodeRef<'a>),
    /// An enum.
    TsEnum(NodeRef<'a>),
    /// An interface.
    TsInterface(NodeRef<'a>),
    /// A namespace: the `TsModuleDecl`.
    TsNamespace(NodeRef<'a>),
    /// A type alias.
    TsTypeAlias(NodeRef<'a>),
    /// A variable: the `VarDecl`, the `VarDeclarator` and the `BindingIdent`.
    Var(NodeRef<'a>, NodeRef<'a>, NodeRef<'a>),
    /// A variable of `using`: the `UsingDecl`, the `VarDeclarator` and the `BindingIdent`.
    UsingVar(NodeRef<'a>, NodeRef<'a>, NodeRef<'a>),
    /// An auto-accessor of a class, declared with the keyword `accessor`.
    AutoAccessor(NodeRef<'a>),
    /// A method, a getter or a setter of a class.
    ClassMethod(NodeRef<'a>),
    /// A property of a class.
    ClassProp(NodeRef<'a>),
    /// A parameter property of a constructor: the `TsParamProp`.
    ClassParamProp(NodeRef<'a>),
    /// The constructor of a class.
    Constructor(NodeRef<'a>),
    /// An expando property: an assignment to a property of a function.
    ExpandoProperty(ExpandoPropertyRef<'a>),
    /// An index signature.
    TsIndexSignature(NodeRef<'a>),
    /// A call signature.
    TsCallSignatureDecl(NodeRef<'a>),
    /// A construct signature.
    TsConstructSignatureDecl(NodeRef<'a>),
    /// A property of an interface.
    TsPropertySignature(NodeRef<'a>),
    /// A getter of an interface.
    TsGetterSignature(NodeRef<'a>),
    /// A setter of an interface.
    TsSetterSignature(NodeRef<'a>),
    /// A method of an interface.
    TsMethodSignature(NodeRef<'a>),
}
