// Generated from tools/kinds/kinds.txt by tools/kinds.py --write. Do not edit.
//! The fields of each kind that hold children, and which kinds may stand there.

ghost use Rattle.std.specs.Prelude.{◌≡◌, ◌∷◌, [], OnOk, ◌++◌};
ghost use Rattle.std.specs.List.{flat_map};
ghost use Rattle.symbols_ast.specs.Fields.{fields, item_fields, decl_fields, member_fields, ty_fields, expr_fields};
ghost use Rattle.symbols_ast.specs.Fields.{pat_fields};
ghost use Rattle.symbols_ast.specs.FieldViews.{field_view, field_views, field_of_one_child, field_of_optional_child};
ghost use Rattle.symbols_ast.specs.FieldViews.{field_of_children};

use crate::tree::categories::Category;
use crate::tree::field::{Fields, many, one, optional, slots};
use crate::tree::kinds::{Decl, Expr, Item, Kind, Member, Pat, Ty};

impl Item {
    fn fields(&self) -> Fields<'_>
        ensures { field_views result ≡ item_fields self.now }
    {
        match self {
            Item::Program { body } => slots![many(Category::Item, body)],
            Item::Import { specifiers, .. } => slots![many(Category::ImportSpecifier, specifiers)],
            Item::ImportNamed { local, .. } => slots![one(Category::Ident, local)],
            Item::ImportDefault { local } => slots![one(Category::Ident, local)],
            Item::ImportNamespace { local } => slots![one(Category::Ident, local)],
            Item::ExportDecl { decl } => slots![one(Category::ExportedDeclaration, decl)],
            Item::ExportNamed { specifiers, .. } => slots![many(
                Category::ExportSpecifier,
                specifiers
            )],
            Item::ExportSpecifier { orig, .. } => slots![one(Category::ExportOrig, orig)],
            Item::ExportNamespace { .. } => slots![],
            Item::ExportDefaultSpecifier { local } => slots![one(Category::Ident, local)],
            Item::ExportDefaultDecl { decl } => slots![one(Category::DefaultDeclaration, decl)],
            Item::ExportDefaultExpr { expr } => slots![one(Category::Expression, expr)],
            Item::TsExportAssignment { expr } => slots![one(Category::Expression, expr)],
            Item::ExportAll { .. } => slots![],
            Item::TsImportEqualsDecl { id, entity, .. } => slots![
                one(Category::Ident, id),
                optional(Category::Entity, entity)
            ],
            Item::ExprStmt { expr } => slots![one(Category::Expression, expr)],
        }
    }
}

impl Decl {
    fn fields(&self) -> Fields<'_>
        ensures { field_views result ≡ decl_fields self.now }
    {
        match self {
            Decl::ClassDecl { ident, class } => slots![
                one(Category::Ident, ident),
                one(Category::Class, class)
            ],
            Decl::ClassExpr { ident, class } => slots![
                optional(Category::Ident, ident),
                one(Category::Class, class)
            ],
            Decl::Class {
                type_params,
                super_class,
                super_type_params,
                implements,
                body,
            } => slots![
                optional(Category::TypeParams, type_params),
                optional(Category::Expression, super_class),
                optional(Category::TypeArgs, super_type_params),
                many(Category::ExprWithTypeArgs, implements),
                many(Category::Member, body)
            ],
            Decl::FnDecl { ident, function } => slots![
                one(Category::Ident, ident),
                one(Category::Function, function)
            ],
            Decl::FnExpr { ident, function } => slots![
                optional(Category::Ident, ident),
                one(Category::Function, function)
            ],
            Decl::Function {
                type_params,
                params,
                return_type,
                body,
            } => slots![
                optional(Category::TypeParams, type_params),
                many(Category::Pattern, params),
                optional(Category::Annotation, return_type),
                optional(Category::Any, body)
            ],
            Decl::VarDecl { decls } => slots![many(Category::VarDeclarator, decls)],
            Decl::UsingDecl { decls } => slots![many(Category::VarDeclarator, decls)],
            Decl::VarDeclarator { name, init } => slots![
                one(Category::Pattern, name),
                optional(Category::Expression, init)
            ],
            Decl::TsInterfaceDecl {
                id,
                type_params,
                extends,
                body,
            } => slots![
                one(Category::Ident, id),
                optional(Category::TypeParams, type_params),
                many(Category::ExprWithTypeArgs, extends),
                many(Category::Element, body)
            ],
            Decl::TsTypeAliasDecl {
                id,
                type_params,
                type_ann,
            } => slots![
                one(Category::Ident, id),
                optional(Category::TypeParams, type_params),
                one(Category::Type, type_ann)
            ],
            Decl::TsEnumDecl { id, members } => slots![
                one(Category::Ident, id),
                many(Category::EnumMember, members)
            ],
            Decl::TsEnumMember { init } => slots![optional(Category::Expression, init)],
            Decl::TsModuleDecl { id, body, .. } => slots![
                one(Category::ModuleName, id),
                optional(Category::ModuleBody, body)
            ],
            Decl::TsNamespaceDecl { id, body } => slots![
                one(Category::Ident, id),
                one(Category::ModuleBody, body)
            ],
            Decl::TsModuleBlock { body } => slots![many(Category::Item, body)],
        }
    }
}

impl Member {
    fn fields(&self) -> Fields<'_>
        ensures { field_views result ≡ member_fields self.now }
    {
        match self {
            Member::Constructor { params, body, .. } => slots![
                many(Category::ConstructorParam, params),
                optional(Category::Any, body)
            ],
            Member::TsParamProp { param, .. } => slots![one(Category::ParamPropPattern, param)],
            Member::ClassMethod { key, function, .. } => slots![
                one(Category::Key, key),
                one(Category::Function, function)
            ],
            Member::ClassProp {
                key,
                type_ann,
                value,
                ..
            } => slots![
                one(Category::Key, key),
                optional(Category::Annotation, type_ann),
                optional(Category::Expression, value)
            ],
            Member::AutoAccessor {
                key,
                type_ann,
                value,
                ..
            } => slots![
                one(Category::AccessorKey, key),
                optional(Category::Annotation, type_ann),
                optional(Category::Expression, value)
            ],
            Member::TsIndexSignature {
                params,
                type_ann,
                ..
            } => slots![
                many(Category::Signature, params),
                optional(Category::Annotation, type_ann)
            ],
            Member::TsCallSignatureDecl {
                type_params,
                params,
                type_ann,
            } => slots![
                optional(Category::TypeParams, type_params),
                many(Category::Signature, params),
                optional(Category::Annotation, type_ann)
            ],
            Member::TsConstructSignatureDecl {
                type_params,
                params,
                type_ann,
            } => slots![
                optional(Category::TypeParams, type_params),
                many(Category::Signature, params),
                optional(Category::Annotation, type_ann)
            ],
            Member::TsPropertySignature { key, type_ann, .. } => slots![
                one(Category::Expression, key),
                optional(Category::Annotation, type_ann)
            ],
            Member::TsGetterSignature { key, type_ann, .. } => slots![
                one(Category::Expression, key),
                optional(Category::Annotation, type_ann)
            ],
            Member::TsSetterSignature { key, param, .. } => slots![
                one(Category::Expression, key),
                one(Category::Signature, param)
            ],
            Member::TsMethodSignature {
                key,
                type_params,
                params,
                type_ann,
                ..
            } => slots![
                one(Category::Expression, key),
                optional(Category::TypeParams, type_params),
                many(Category::Signature, params),
                optional(Category::Annotation, type_ann)
            ],
        }
    }
}

impl Ty {
    fn fields(&self) -> Fields<'_>
        ensures { field_views result ≡ ty_fields self.now }
    {
        match self {
            Ty::TsTypeParamDecl { params } => slots![many(Category::TypeParam, params)],
            Ty::TsTypeParam {
                constraint,
                default,
            } => slots![
                optional(Category::Type, constraint),
                optional(Category::Type, default)
            ],
            Ty::TsTypeParamInstantiation { params } => slots![many(Category::Type, params)],
            Ty::TsTypeAnn { ty } => slots![one(Category::Type, ty)],
            Ty::TsExprWithTypeArgs { expr, type_args } => slots![
                one(Category::Expression, expr),
                optional(Category::TypeArgs, type_args)
            ],
            Ty::TsAsExpr { expr, ty } => slots![
                one(Category::Expression, expr),
                one(Category::Type, ty)
            ],
            Ty::TsTypeAssertion { expr, ty } => slots![
                one(Category::Expression, expr),
                one(Category::Type, ty)
            ],
            Ty::TsTypeQuery {
                expr_name,
                type_args,
            } => slots![
                one(Category::QueryName, expr_name),
                optional(Category::TypeArgs, type_args)
            ],
            Ty::TsImportType {
                qualifier,
                type_args,
                ..
            } => slots![
                optional(Category::Entity, qualifier),
                optional(Category::TypeArgs, type_args)
            ],
            Ty::TsTupleElement { label, ty } => slots![
                optional(Category::Pattern, label),
                one(Category::Type, ty)
            ],
            Ty::TsQualifiedName { left, .. } => slots![one(Category::Entity, left)],
        }
    }
}

impl Expr {
    fn fields(&self) -> Fields<'_>
        ensures { field_views result ≡ expr_fields self.now }
    {
        match self {
            Expr::Ident { .. } => slots![],
            Expr::Member { obj, prop } => slots![
                one(Category::Expression, obj),
                one(Category::MemberProp, prop)
            ],
            Expr::IdentName { .. } => slots![],
            Expr::PrivateName { .. } => slots![],
            Expr::Str { .. } => slots![],
            Expr::Num { .. } => slots![],
            Expr::BigInt { .. } => slots![],
            Expr::Computed { expr } => slots![one(Category::Expression, expr)],
            Expr::Assign { left, right, .. } => slots![
                one(Category::AssignLeft, left),
                one(Category::Expression, right)
            ],
            Expr::Arrow {
                type_params,
                params,
                return_type,
                body,
                ..
            } => slots![
                optional(Category::TypeParams, type_params),
                many(Category::Pattern, params),
                optional(Category::Annotation, return_type),
                one(Category::Any, body)
            ],
        }
    }
}

impl Pat {
    fn fields(&self) -> Fields<'_>
        ensures { field_views result ≡ pat_fields self.now }
    {
        match self {
            Pat::BindingIdent { type_ann, .. } => slots![optional(Category::Annotation, type_ann)],
            Pat::ArrayPat { elems, type_ann } => slots![
                many(Category::Pattern, elems),
                optional(Category::Annotation, type_ann)
            ],
            Pat::ObjectPat { props, type_ann } => slots![
                many(Category::ObjectPatProp, props),
                optional(Category::Annotation, type_ann)
            ],
            Pat::RestPat { arg, type_ann } => slots![
                one(Category::Pattern, arg),
                optional(Category::Annotation, type_ann)
            ],
            Pat::KeyValuePatProp { key, value } => slots![
                one(Category::Key, key),
                one(Category::Pattern, value)
            ],
            Pat::AssignPatProp { key, value } => slots![
                one(Category::BindingIdent, key),
                optional(Category::Expression, value)
            ],
            Pat::AssignPat { left, right } => slots![
                one(Category::Pattern, left),
                one(Category::Expression, right)
            ],
            Pat::ExprPat { expr } => slots![one(Category::Expression, expr)],
            Pat::Plain { children } => slots![many(Category::Any, children)],
            Pat::Other { children } => slots![many(Category::Any, children)],
        }
    }
}

impl Kind {
    /// Returns the fields that hold children, in their order.
    pub fn fields(&self) -> Fields<'_>
        ensures { field_views result ≡ fields self.now }
    {
        match self {
            Kind::Item(item) => item.fields(),
            Kind::Decl(decl) => decl.fields(),
            Kind::Member(member) => member.fields(),
            Kind::Ty(ty) => ty.fields(),
            Kind::Expr(expr) => expr.fields(),
            Kind::Pat(pat) => pat.fields(),
        }
    }
}
