// Generated from tools/kinds/kinds.txt by tools/kinds.py --write. Do not edit.
//! The names of the kinds.

ghost use Rattle.std.specs.Prelude.{◌≡◌};
ghost use Rattle.symbols_ast.specs.Kinds.{kind_name, item_kind_name, decl_kind_name, member_kind_name, ty_kind_name};
ghost use Rattle.symbols_ast.specs.Kinds.{expr_kind_name, pat_kind_name};

use crate::tree::kinds::{Decl, Expr, Item, Kind, Member, Pat, Ty};

/// The name of a kind: the kind without its fields.
#[derive(Clone, Copy, Debug, PartialEq, Eq, Hash)]
pub enum KindName {
    Program,
    Import,
    ImportNamed,
    ImportDefault,
    ImportNamespace,
    ExportDecl,
    ExportNamed,
    ExportSpecifier,
    ExportNamespace,
    ExportDefaultSpecifier,
    ExportDefaultDecl,
    ExportDefaultExpr,
    TsExportAssignment,
    ExportAll,
    TsImportEqualsDecl,
    ExprStmt,
    ClassDecl,
    ClassExpr,
    Class,
    FnDecl,
    FnExpr,
    Function,
    VarDecl,
    UsingDecl,
    VarDeclarator,
    TsInterfaceDecl,
    TsTypeAliasDecl,
    TsEnumDecl,
    TsEnumMember,
    TsModuleDecl,
    TsNamespaceDecl,
    TsModuleBlock,
    Constructor,
    TsParamProp,
    ClassMethod,
    ClassProp,
    AutoAccessor,
    TsIndexSignature,
    TsCallSignatureDecl,
    TsConstructSignatureDecl,
    TsPropertySignature,
    TsGetterSignature,
    TsSetterSignature,
    TsMethodSignature,
    TsTypeParamDecl,
    TsTypeParam,
    TsTypeParamInstantiation,
    TsTypeAnn,
    TsExprWithTypeArgs,
    TsAsExpr,
    TsTypeAssertion,
    TsTypeQuery,
    TsImportType,
    TsTupleElement,
    TsQualifiedName,
    Ident,
    Member,
    IdentName,
    PrivateName,
    Str,
    Num,
    BigInt,
    Computed,
    Assign,
    Arrow,
    BindingIdent,
    ArrayPat,
    ObjectPat,
    RestPat,
    KeyValuePatProp,
    AssignPatProp,
    AssignPat,
    ExprPat,
    Plain,
    Other,
}

impl Item {
    fn name(&self) -> KindName
        ensures { result ≡ item_kind_name self.now }
    {
        match self {
            Item::Program { .. } => KindName::Program,
            Item::Import { .. } => KindName::Import,
            Item::ImportNamed { .. } => KindName::ImportNamed,
            Item::ImportDefault { .. } => KindName::ImportDefault,
            Item::ImportNamespace { .. } => KindName::ImportNamespace,
            Item::ExportDecl { .. } => KindName::ExportDecl,
            Item::ExportNamed { .. } => KindName::ExportNamed,
            Item::ExportSpecifier { .. } => KindName::ExportSpecifier,
            Item::ExportNamespace { .. } => KindName::ExportNamespace,
            Item::ExportDefaultSpecifier { .. } => KindName::ExportDefaultSpecifier,
            Item::ExportDefaultDecl { .. } => KindName::ExportDefaultDecl,
            Item::ExportDefaultExpr { .. } => KindName::ExportDefaultExpr,
            Item::TsExportAssignment { .. } => KindName::TsExportAssignment,
            Item::ExportAll { .. } => KindName::ExportAll,
            Item::TsImportEqualsDecl { .. } => KindName::TsImportEqualsDecl,
            Item::ExprStmt { .. } => KindName::ExprStmt,
        }
    }
}

impl Decl {
    fn name(&self) -> KindName
        ensures { result ≡ decl_kind_name self.now }
    {
        match self {
            Decl::ClassDecl { .. } => KindName::ClassDecl,
            Decl::ClassExpr { .. } => KindName::ClassExpr,
            Decl::Class { .. } => KindName::Class,
            Decl::FnDecl { .. } => KindName::FnDecl,
            Decl::FnExpr { .. } => KindName::FnExpr,
            Decl::Function { .. } => KindName::Function,
            Decl::VarDecl { .. } => KindName::VarDecl,
            Decl::UsingDecl { .. } => KindName::UsingDecl,
            Decl::VarDeclarator { .. } => KindName::VarDeclarator,
            Decl::TsInterfaceDecl { .. } => KindName::TsInterfaceDecl,
            Decl::TsTypeAliasDecl { .. } => KindName::TsTypeAliasDecl,
            Decl::TsEnumDecl { .. } => KindName::TsEnumDecl,
            Decl::TsEnumMember { .. } => KindName::TsEnumMember,
            Decl::TsModuleDecl { .. } => KindName::TsModuleDecl,
            Decl::TsNamespaceDecl { .. } => KindName::TsNamespaceDecl,
            Decl::TsModuleBlock { .. } => KindName::TsModuleBlock,
        }
    }
}

impl Member {
    fn name(&self) -> KindName
        ensures { result ≡ member_kind_name self.now }
    {
        match self {
            Member::Constructor { .. } => KindName::Constructor,
            Member::TsParamProp { .. } => KindName::TsParamProp,
            Member::ClassMethod { .. } => KindName::ClassMethod,
            Member::ClassProp { .. } => KindName::ClassProp,
            Member::AutoAccessor { .. } => KindName::AutoAccessor,
            Member::TsIndexSignature { .. } => KindName::TsIndexSignature,
            Member::TsCallSignatureDecl { .. } => KindName::TsCallSignatureDecl,
            Member::TsConstructSignatureDecl { .. } => KindName::TsConstructSignatureDecl,
            Member::TsPropertySignature { .. } => KindName::TsPropertySignature,
            Member::TsGetterSignature { .. } => KindName::TsGetterSignature,
            Member::TsSetterSignature { .. } => KindName::TsSetterSignature,
            Member::TsMethodSignature { .. } => KindName::TsMethodSignature,
        }
    }
}

impl Ty {
    fn name(&self) -> KindName
        ensures { result ≡ ty_kind_name self.now }
    {
        match self {
            Ty::TsTypeParamDecl { .. } => KindName::TsTypeParamDecl,
            Ty::TsTypeParam { .. } => KindName::TsTypeParam,
            Ty::TsTypeParamInstantiation { .. } => KindName::TsTypeParamInstantiation,
            Ty::TsTypeAnn { .. } => KindName::TsTypeAnn,
            Ty::TsExprWithTypeArgs { .. } => KindName::TsExprWithTypeArgs,
            Ty::TsAsExpr { .. } => KindName::TsAsExpr,
            Ty::TsTypeAssertion { .. } => KindName::TsTypeAssertion,
            Ty::TsTypeQuery { .. } => KindName::TsTypeQuery,
            Ty::TsImportType { .. } => KindName::TsImportType,
            Ty::TsTupleElement { .. } => KindName::TsTupleElement,
            Ty::TsQualifiedName { .. } => KindName::TsQualifiedName,
        }
    }
}

impl Expr {
    fn name(&self) -> KindName
        ensures { result ≡ expr_kind_name self.now }
    {
        match self {
            Expr::Ident { .. } => KindName::Ident,
            Expr::Member { .. } => KindName::Member,
            Expr::IdentName { .. } => KindName::IdentName,
            Expr::PrivateName { .. } => KindName::PrivateName,
            Expr::Str { .. } => KindName::Str,
            Expr::Num { .. } => KindName::Num,
            Expr::BigInt { .. } => KindName::BigInt,
            Expr::Computed { .. } => KindName::Computed,
            Expr::Assign { .. } => KindName::Assign,
            Expr::Arrow { .. } => KindName::Arrow,
        }
    }
}

impl Pat {
    fn name(&self) -> KindName
        ensures { result ≡ pat_kind_name self.now }
    {
        match self {
            Pat::BindingIdent { .. } => KindName::BindingIdent,
            Pat::ArrayPat { .. } => KindName::ArrayPat,
            Pat::ObjectPat { .. } => KindName::ObjectPat,
            Pat::RestPat { .. } => KindName::RestPat,
            Pat::KeyValuePatProp { .. } => KindName::KeyValuePatProp,
            Pat::AssignPatProp { .. } => KindName::AssignPatProp,
            Pat::AssignPat { .. } => KindName::AssignPat,
            Pat::ExprPat { .. } => KindName::ExprPat,
            Pat::Plain { .. } => KindName::Plain,
            Pat::Other { .. } => KindName::Other,
        }
    }
}

impl Kind {
    /// Returns the name of the kind.
    pub fn name(&self) -> KindName
        ensures { result ≡ kind_name self.now }
    {
        match self {
            Kind::Item(item) => item.name(),
            Kind::Decl(decl) => decl.name(),
            Kind::Member(member) => member.name(),
            Kind::Ty(ty) => ty.name(),
            Kind::Expr(expr) => expr.name(),
            Kind::Pat(pat) => pat.name(),
        }
    }
}
