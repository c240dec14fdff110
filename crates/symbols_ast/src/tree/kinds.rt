// Generated from tools/kinds/kinds.txt by tools/kinds.py --write. Do not edit.
//! The kinds of nodes, each with its fields.

use crate::tree::arena::{Id, NodeId};
use crate::tree::member_kinds::{Accessibility, MethodKind};

/// Items of a module, their parts, and statements.
#[derive(Drop)]
pub enum Item {
    /// The whole module. It is node 0.
    Program {
        body: Vec<NodeId>,
    },
    /// `import a, { b as c }, * as d from "src"`.
    Import {
        specifiers: Vec<NodeId>,
        src: String,
    },
    /// `{ imported as local }` of an import.
    ImportNamed {
        local: NodeId,
        imported: Option<String>,
    },
    /// The default name of an import.
    ImportDefault {
        local: NodeId,
    },
    /// `* as local` of an import.
    ImportNamespace {
        local: NodeId,
    },
    /// `export` before a declaration.
    ExportDecl {
        decl: NodeId,
    },
    /// `export { a as b }`, with or without `from "src"`.
    ExportNamed {
        specifiers: Vec<NodeId>,
        src: Option<String>,
    },
    /// `orig as exported` of an export.
    ExportSpecifier {
        orig: NodeId,
        exported: Option<String>,
    },
    /// `* as name` of an export.
    ExportNamespace {
        name: String,
    },
    /// `export local from "src"`, which the checker refuses.
    ExportDefaultSpecifier {
        local: NodeId,
    },
    /// `export default` before a class, a function or an interface.
    ExportDefaultDecl {
        decl: NodeId,
    },
    /// `export default` before an expression.
    ExportDefaultExpr {
        expr: NodeId,
    },
    /// `export = expr`.
    TsExportAssignment {
        expr: NodeId,
    },
    /// `export * from "src"`.
    ExportAll {
        src: String,
    },
    /// `import id = entity` or `import id = require("external")`.
    TsImportEqualsDecl {
        is_export: bool,
        id: NodeId,
        entity: Option<NodeId>,
        external: Option<String>,
    },
    /// An expression as a statement.
    ExprStmt {
        expr: NodeId,
    },
}

/// Declarations and their parts.
#[derive(Drop)]
pub enum Decl {
    /// `class ident ..`.
    ClassDecl {
        ident: NodeId,
        class: NodeId,
    },
    /// A class as an expression or a default export.
    ClassExpr {
        ident: Option<NodeId>,
        class: NodeId,
    },
    /// A class without its name.
    Class {
        type_params: Option<NodeId>,
        super_class: Option<NodeId>,
        super_type_params: Option<NodeId>,
        implements: Vec<NodeId>,
        body: Vec<NodeId>,
    },
    /// `function ident ..`.
    FnDecl {
        ident: NodeId,
        function: NodeId,
    },
    /// A function as an expression or a default export.
    FnExpr {
        ident: Option<NodeId>,
        function: NodeId,
    },
    /// A function without its name.
    Function {
        type_params: Option<NodeId>,
        params: Vec<NodeId>,
        return_type: Option<NodeId>,
        body: Option<NodeId>,
    },
    /// `var`, `let` or `const`.
    VarDecl {
        decls: Vec<NodeId>,
    },
    /// `using` or `await using`.
    UsingDecl {
        decls: Vec<NodeId>,
    },
    /// One of the variables of a statement.
    VarDeclarator {
        name: NodeId,
        init: Option<NodeId>,
    },
    /// `interface id ..`.
    TsInterfaceDecl {
        id: NodeId,
        type_params: Option<NodeId>,
        extends: Vec<NodeId>,
        body: Vec<NodeId>,
    },
    /// `type id = type_ann`.
    TsTypeAliasDecl {
        id: NodeId,
        type_params: Option<NodeId>,
        type_ann: NodeId,
    },
    /// `enum id { .. }`.
    TsEnumDecl {
        id: NodeId,
        members: Vec<NodeId>,
    },
    /// A member of an enum.
    TsEnumMember {
        init: Option<NodeId>,
    },
    /// `namespace id { .. }` or `declare module "id" { .. }`.
    TsModuleDecl {
        id: NodeId,
        declare: bool,
        body: Option<NodeId>,
    },
    /// A later part of a dotted namespace name, as `B` of `namespace A.B`.
    TsNamespaceDecl {
        id: NodeId,
        body: NodeId,
    },
    /// The items of a namespace.
    TsModuleBlock {
        body: Vec<NodeId>,
    },
}

/// Members of classes and interfaces.
#[derive(Drop)]
pub enum Member {
    /// The constructor of a class.
    Constructor {
        params: Vec<NodeId>,
        body: Option<NodeId>,
        accessibility: Option<Accessibility>,
    },
    /// A parameter that is a property too.
    TsParamProp {
        param: NodeId,
        accessibility: Option<Accessibility>,
    },
    /// A method, a getter or a setter of a class.
    ClassMethod {
        key: NodeId,
        function: NodeId,
        kind: MethodKind,
        is_static: bool,
        accessibility: Option<Accessibility>,
    },
    /// A property of a class.
    ClassProp {
        key: NodeId,
        type_ann: Option<NodeId>,
        value: Option<NodeId>,
        is_static: bool,
        accessibility: Option<Accessibility>,
    },
    /// `accessor key` of a class.
    AutoAccessor {
        key: NodeId,
        type_ann: Option<NodeId>,
        value: Option<NodeId>,
        is_static: bool,
        accessibility: Option<Accessibility>,
    },
    /// `[key: type]: type` of a class or an interface.
    TsIndexSignature {
        params: Vec<NodeId>,
        type_ann: Option<NodeId>,
        is_static: bool,
    },
    /// A call signature of an interface.
    TsCallSignatureDecl {
        type_params: Option<NodeId>,
        params: Vec<NodeId>,
        type_ann: Option<NodeId>,
    },
    /// A `new` signature of an interface.
    TsConstructSignatureDecl {
        type_params: Option<NodeId>,
        params: Vec<NodeId>,
        type_ann: Option<NodeId>,
    },
    /// A property of an interface.
    TsPropertySignature {
        key: NodeId,
        computed: bool,
        type_ann: Option<NodeId>,
    },
    /// A getter of an interface.
    TsGetterSignature {
        key: NodeId,
        computed: bool,
        type_ann: Option<NodeId>,
    },
    /// A setter of an interface.
    TsSetterSignature {
        key: NodeId,
        computed: bool,
        param: NodeId,
    },
    /// A method of an interface.
    TsMethodSignature {
        key: NodeId,
        computed: bool,
        type_params: Option<NodeId>,
        params: Vec<NodeId>,
        type_ann: Option<NodeId>,
    },
}

/// Types and what holds them.
#[derive(Drop)]
pub enum Ty {
    /// The type parameters of a declaration.
    TsTypeParamDecl {
        params: Vec<NodeId>,
    },
    /// A type parameter.
    TsTypeParam {
        constraint: Option<NodeId>,
        default: Option<NodeId>,
    },
    /// Type arguments.
    TsTypeParamInstantiation {
        params: Vec<NodeId>,
    },
    /// A type annotation.
    TsTypeAnn {
        ty: NodeId,
    },
    /// A type that a class implements or an interface extends.
    TsExprWithTypeArgs {
        expr: NodeId,
        type_args: Option<NodeId>,
    },
    /// `expr as ty`.
    TsAsExpr {
        expr: NodeId,
        ty: NodeId,
    },
    /// `<ty>expr`.
    TsTypeAssertion {
        expr: NodeId,
        ty: NodeId,
    },
    /// `typeof expr_name`.
    TsTypeQuery {
        expr_name: NodeId,
        type_args: Option<NodeId>,
    },
    /// `import("arg").qualifier`.
    TsImportType {
        arg: String,
        qualifier: Option<NodeId>,
        type_args: Option<NodeId>,
    },
    /// An element of a tuple type.
    TsTupleElement {
        label: Option<NodeId>,
        ty: NodeId,
    },
    /// `left.right` as a type.
    TsQualifiedName {
        left: NodeId,
        right: String,
    },
}

/// Expressions and names.
#[derive(Drop)]
pub enum Expr {
    /// A name that refers or declares.
    Ident {
        sym: Id,
    },
    /// `obj.prop` or `obj[prop]`.
    Member {
        obj: NodeId,
        prop: NodeId,
    },
    /// A name after a dot or as a key.
    IdentName {
        name: String,
    },
    /// `#name`; the text has no `#`.
    PrivateName {
        name: String,
    },
    /// A string literal.
    Str {
        value: String,
    },
    /// A number literal, by its text.
    Num {
        text: String,
    },
    /// A big integer literal, by its text.
    BigInt {
        text: String,
    },
    /// `[expr]` as a key.
    Computed {
        expr: NodeId,
    },
    /// An assignment; `plain` is `=`.
    Assign {
        plain: bool,
        left: NodeId,
        right: NodeId,
    },
    /// An arrow function.
    Arrow {
        type_params: Option<NodeId>,
        params: Vec<NodeId>,
        return_type: Option<NodeId>,
        is_block: bool,
        body: NodeId,
    },
}

/// Patterns, other types, and all else.
#[derive(Drop)]
pub enum Pat {
    /// A name that a pattern binds.
    BindingIdent {
        sym: Id,
        type_ann: Option<NodeId>,
    },
    /// `[a, b]` as a pattern.
    ArrayPat {
        elems: Vec<NodeId>,
        type_ann: Option<NodeId>,
    },
    /// `{ a, b: c }` as a pattern.
    ObjectPat {
        props: Vec<NodeId>,
        type_ann: Option<NodeId>,
    },
    /// `...arg` as a pattern.
    RestPat {
        arg: NodeId,
        type_ann: Option<NodeId>,
    },
    /// `key: value` of an object pattern.
    KeyValuePatProp {
        key: NodeId,
        value: NodeId,
    },
    /// `key` or `key = value` of an object pattern.
    AssignPatProp {
        key: NodeId,
        value: Option<NodeId>,
    },
    /// `left = right` as a pattern.
    AssignPat {
        left: NodeId,
        right: NodeId,
    },
    /// An expression as a pattern.
    ExprPat {
        expr: NodeId,
    },
    /// A type of no kind above: the kind `Type` of the graph text.
    Plain {
        children: Vec<NodeId>,
    },
    /// Anything else that has children.
    Other {
        children: Vec<NodeId>,
    },
}

/// The kind of a node, with its fields.
#[derive(Drop)]
pub enum Kind {
    Item(Item),
    Decl(Decl),
    Member(Member),
    Ty(Ty),
    Expr(Expr),
    Pat(Pat),
}
