// Generated from tools/kinds/kinds.txt by tools/kinds.py --write. Do not edit.
//! The fields of a kind that hold children, by their names: of a kind without the field none.

ghost use Rattle.std.specs.Prelude.{◌≡◌};
ghost use Rattle.symbols_ast.specs.Fields.{body_children_of, specifier_children_of, local_child_of, decl_child_of};
ghost use Rattle.symbols_ast.specs.Fields.{orig_child_of, expr_child_of, id_child_of, entity_child_of, ident_child_of};
ghost use Rattle.symbols_ast.specs.Fields.{class_child_of, type_params_child_of, super_class_child_of};
ghost use Rattle.symbols_ast.specs.Fields.{super_type_params_child_of, implements_children_of, function_child_of};
ghost use Rattle.symbols_ast.specs.Fields.{param_children_of, return_type_child_of, body_child_of, decl_children_of};
ghost use Rattle.symbols_ast.specs.Fields.{name_child_of, init_child_of, extends_children_of, type_ann_child_of};
ghost use Rattle.symbols_ast.specs.Fields.{member_children_of, param_child_of, key_child_of, value_child_of};
ghost use Rattle.symbols_ast.specs.Fields.{constraint_child_of, default_child_of, ty_child_of, type_args_child_of};
ghost use Rattle.symbols_ast.specs.Fields.{expr_name_child_of, qualifier_child_of, label_child_of, left_child_of};
ghost use Rattle.symbols_ast.specs.Fields.{obj_child_of, prop_child_of, right_child_of, elem_children_of};
ghost use Rattle.symbols_ast.specs.Fields.{prop_children_of, arg_child_of, children_field_of};

use crate::tree::{Decl, Expr, Item, Kind, Member, NodeId, Pat, Ty};

pub(crate) fn body_of_kind(kind: &Kind) -> &[NodeId]
    ensures { result.now ≡ body_children_of kind.now }
{
    match kind {
        Kind::Item(Item::Program { body }) => body,
        Kind::Decl(
            Decl::Class { body, .. }
            | Decl::TsInterfaceDecl { body, .. }
            | Decl::TsModuleBlock { body },
        ) => body,
        _ => &[],
    }
}

pub(crate) fn specifiers_of_kind(kind: &Kind) -> &[NodeId]
    ensures { result.now ≡ specifier_children_of kind.now }
{
    match kind {
        Kind::Item(Item::Import { specifiers, .. } | Item::ExportNamed { specifiers, .. }) =>
            specifiers,
        _ => &[],
    }
}

pub(crate) fn local_of_kind(kind: &Kind) -> Option<NodeId>
    ensures { result ≡ local_child_of kind.now }
{
    match kind {
        Kind::Item(
            Item::ImportNamed { local, .. }
            | Item::ImportDefault { local }
            | Item::ImportNamespace { local }
            | Item::ExportDefaultSpecifier { local },
        ) => Some(*local),
        _ => None,
    }
}

pub(crate) fn decl_of_kind(kind: &Kind) -> Option<NodeId>
    ensures { result ≡ decl_child_of kind.now }
{
    match kind {
        Kind::Item(Item::ExportDecl { decl } | Item::ExportDefaultDecl { decl }) => Some(*decl),
        _ => None,
    }
}

pub(crate) fn orig_of_kind(kind: &Kind) -> Option<NodeId>
    ensures { result ≡ orig_child_of kind.now }
{
    match kind {
        Kind::Item(Item::ExportSpecifier { orig, .. }) => Some(*orig),
        _ => None,
    }
}

pub(crate) fn expr_of_kind(kind: &Kind) -> Option<NodeId>
    ensures { result ≡ expr_child_of kind.now }
{
    match kind {
        Kind::Item(
            Item::ExportDefaultExpr { expr }
            | Item::TsExportAssignment { expr }
            | Item::ExprStmt { expr },
        ) => Some(*expr),
        Kind::Ty(
            Ty::TsExprWithTypeArgs { expr, .. }
            | Ty::TsAsExpr { expr, .. }
            | Ty::TsTypeAssertion { expr, .. },
        ) => Some(*expr),
        Kind::Expr(Expr::Computed { expr }) => Some(*expr),
        Kind::Pat(Pat::ExprPat { expr }) => Some(*expr),
        _ => None,
    }
}

pub(crate) fn id_of_kind(kind: &Kind) -> Option<NodeId>
    ensures { result ≡ id_child_of kind.now }
{
    match kind {
        Kind::Item(Item::TsImportEqualsDecl { id, .. }) => Some(*id),
        Kind::Decl(
            Decl::TsInterfaceDecl { id, .. }
            | Decl::TsTypeAliasDecl { id, .. }
            | Decl::TsEnumDecl { id, .. }
            | Decl::TsModuleDecl { id, .. }
            | Decl::TsNamespaceDecl { id, .. },
        ) => Some(*id),
        _ => None,
    }
}

pub(crate) fn entity_of_kind(kind: &Kind) -> Option<NodeId>
    ensures { result ≡ entity_child_of kind.now }
{
    match kind {
        Kind::Item(Item::TsImportEqualsDecl { entity, .. }) => *entity,
        _ => None,
    }
}

pub(crate) fn ident_of_kind(kind: &Kind) -> Option<NodeId>
    ensures { result ≡ ident_child_of kind.now }
{
    match kind {
        Kind::Decl(Decl::ClassDecl { ident, .. } | Decl::FnDecl { ident, .. }) => Some(*ident),
        Kind::Decl(Decl::ClassExpr { ident, .. } | Decl::FnExpr { ident, .. }) => *ident,
        _ => None,
    }
}

pub(crate) fn class_of_kind(kind: &Kind) -> Option<NodeId>
    ensures { result ≡ class_child_of kind.now }
{
    match kind {
        Kind::Decl(Decl::ClassDecl { class, .. } | Decl::ClassExpr { class, .. }) => Some(*class),
        _ => None,
    }
}

pub(crate) fn type_params_of_kind(kind: &Kind) -> Option<NodeId>
    ensures { result ≡ type_params_child_of kind.now }
{
    match kind {
        Kind::Decl(
            Decl::Class { type_params, .. }
            | Decl::Function { type_params, .. }
            | Decl::TsInterfaceDecl { type_params, .. }
            | Decl::TsTypeAliasDecl { type_params, .. },
        ) => *type_params,
        Kind::Member(
            Member::TsCallSignatureDecl { type_params, .. }
            | Member::TsConstructSignatureDecl { type_params, .. }
            | Member::TsMethodSignature { type_params, .. },
        ) => *type_params,
        Kind::Expr(Expr::Arrow { type_params, .. }) => *type_params,
        _ => None,
    }
}

pub(crate) fn super_class_of_kind(kind: &Kind) -> Option<NodeId>
    ensures { result ≡ super_class_child_of kind.now }
{
    match kind {
        Kind::Decl(Decl::Class { super_class, .. }) => *super_class,
        _ => None,
    }
}

pub(crate) fn super_type_params_of_kind(kind: &Kind) -> Option<NodeId>
    ensures { result ≡ super_type_params_child_of kind.now }
{
    match kind {
        Kind::Decl(
            Decl::Class {
                super_type_params,
                ..
            },
        ) => *super_type_params,
        _ => None,
    }
}

pub(crate) fn implements_of_kind(kind: &Kind) -> &[NodeId]
    ensures { result.now ≡ implements_children_of kind.now }
{
    match kind {
        Kind::Decl(Decl::Class { implements, .. }) => implements,
        _ => &[],
    }
}

pub(crate) fn function_of_kind(kind: &Kind) -> Option<NodeId>
    ensures { result ≡ function_child_of kind.now }
{
    match kind {
        Kind::Decl(Decl::FnDecl { function, .. } | Decl::FnExpr { function, .. }) => Some(
            *function,
        ),
        Kind::Member(Member::ClassMethod { function, .. }) => Some(*function),
        _ => None,
    }
}

pub(crate) fn params_of_kind(kind: &Kind) -> &[NodeId]
    ensures { result.now ≡ param_children_of kind.now }
{
    match kind {
        Kind::Decl(Decl::Function { params, .. }) => params,
        Kind::Member(
            Member::Constructor { params, .. }
            | Member::TsIndexSignature { params, .. }
            | Member::TsCallSignatureDecl { params, .. }
            | Member::TsConstructSignatureDecl { params, .. }
            | Member::TsMethodSignature { params, .. },
        ) => params,
        Kind::Ty(Ty::TsTypeParamDecl { params } | Ty::TsTypeParamInstantiation { params }) =>
            params,
        Kind::Expr(Expr::Arrow { params, .. }) => params,
        _ => &[],
    }
}

pub(crate) fn return_type_of_kind(kind: &Kind) -> Option<NodeId>
    ensures { result ≡ return_type_child_of kind.now }
{
    match kind {
        Kind::Decl(Decl::Function { return_type, .. }) => *return_type,
        Kind::Expr(Expr::Arrow { return_type, .. }) => *return_type,
        _ => None,
    }
}

pub(crate) fn body_node_of_kind(kind: &Kind) -> Option<NodeId>
    ensures { result ≡ body_child_of kind.now }
{
    match kind {
        Kind::Decl(Decl::TsNamespaceDecl { body, .. }) => Some(*body),
        Kind::Decl(Decl::Function { body, .. } | Decl::TsModuleDecl { body, .. }) => *body,
        Kind::Member(Member::Constructor { body, .. }) => *body,
        Kind::Expr(Expr::Arrow { body, .. }) => Some(*body),
        _ => None,
    }
}

pub(crate) fn decls_of_kind(kind: &Kind) -> &[NodeId]
    ensures { result.now ≡ decl_children_of kind.now }
{
    match kind {
        Kind::Decl(Decl::VarDecl { decls } | Decl::UsingDecl { decls }) => decls,
        _ => &[],
    }
}

pub(crate) fn name_of_kind(kind: &Kind) -> Option<NodeId>
    ensures { result ≡ name_child_of kind.now }
{
    match kind {
        Kind::Decl(Decl::VarDeclarator { name, .. }) => Some(*name),
        _ => None,
    }
}

pub(crate) fn init_of_kind(kind: &Kind) -> Option<NodeId>
    ensures { result ≡ init_child_of kind.now }
{
    match kind {
        Kind::Decl(Decl::VarDeclarator { init, .. } | Decl::TsEnumMember { init }) => *init,
        _ => None,
    }
}

pub(crate) fn extends_of_kind(kind: &Kind) -> &[NodeId]
    ensures { result.now ≡ extends_children_of kind.now }
{
    match kind {
        Kind::Decl(Decl::TsInterfaceDecl { extends, .. }) => extends,
        _ => &[],
    }
}

pub(crate) fn type_ann_of_kind(kind: &Kind) -> Option<NodeId>
    ensures { result ≡ type_ann_child_of kind.now }
{
    match kind {
        Kind::Decl(Decl::TsTypeAliasDecl { type_ann, .. }) => Some(*type_ann),
        Kind::Member(
            Member::ClassProp { type_ann, .. }
            | Member::AutoAccessor { type_ann, .. }
            | Member::TsIndexSignature { type_ann, .. }
            | Member::TsCallSignatureDecl { type_ann, .. }
            | Member::TsConstructSignatureDecl { type_ann, .. }
            | Member::TsPropertySignature { type_ann, .. }
            | Member::TsGetterSignature { type_ann, .. }
            | Member::TsMethodSignature { type_ann, .. },
        ) => *type_ann,
        Kind::Pat(
            Pat::BindingIdent { type_ann, .. }
            | Pat::ArrayPat { type_ann, .. }
            | Pat::ObjectPat { type_ann, .. }
            | Pat::RestPat { type_ann, .. },
        ) => *type_ann,
        _ => None,
    }
}

pub(crate) fn members_of_kind(kind: &Kind) -> &[NodeId]
    ensures { result.now ≡ member_children_of kind.now }
{
    match kind {
        Kind::Decl(Decl::TsEnumDecl { members, .. }) => members,
        _ => &[],
    }
}

pub(crate) fn param_of_kind(kind: &Kind) -> Option<NodeId>
    ensures { result ≡ param_child_of kind.now }
{
    match kind {
        Kind::Member(Member::TsParamProp { param, .. } | Member::TsSetterSignature { param, .. }) =>
            Some(*param),
        _ => None,
    }
}

pub(crate) fn key_of_kind(kind: &Kind) -> Option<NodeId>
    ensures { result ≡ key_child_of kind.now }
{
    match kind {
        Kind::Member(
            Member::ClassMethod { key, .. }
            | Member::ClassProp { key, .. }
            | Member::AutoAccessor { key, .. }
            | Member::TsPropertySignature { key, .. }
            | Member::TsGetterSignature { key, .. }
            | Member::TsSetterSignature { key, .. }
            | Member::TsMethodSignature { key, .. },
        ) => Some(*key),
        Kind::Pat(Pat::KeyValuePatProp { key, .. } | Pat::AssignPatProp { key, .. }) => Some(*key),
        _ => None,
    }
}

pub(crate) fn value_of_kind(kind: &Kind) -> Option<NodeId>
    ensures { result ≡ value_child_of kind.now }
{
    match kind {
        Kind::Member(Member::ClassProp { value, .. } | Member::AutoAccessor { value, .. }) =>
            *value,
        Kind::Pat(Pat::KeyValuePatProp { value, .. }) => Some(*value),
        Kind::Pat(Pat::AssignPatProp { value, .. }) => *value,
        _ => None,
    }
}

pub(crate) fn constraint_of_kind(kind: &Kind) -> Option<NodeId>
    ensures { result ≡ constraint_child_of kind.now }
{
    match kind {
        Kind::Ty(Ty::TsTypeParam { constraint, .. }) => *constraint,
        _ => None,
    }
}

pub(crate) fn default_of_kind(kind: &Kind) -> Option<NodeId>
    ensures { result ≡ default_child_of kind.now }
{
    match kind {
        Kind::Ty(Ty::TsTypeParam { default, .. }) => *default,
        _ => None,
    }
}

pub(crate) fn ty_of_kind(kind: &Kind) -> Option<NodeId>
    ensures { result ≡ ty_child_of kind.now }
{
    match kind {
        Kind::Ty(
            Ty::TsTypeAnn { ty }
            | Ty::TsAsExpr { ty, .. }
            | Ty::TsTypeAssertion { ty, .. }
            | Ty::TsTupleElement { ty, .. },
        ) => Some(*ty),
        _ => None,
    }
}

pub(crate) fn type_args_of_kind(kind: &Kind) -> Option<NodeId>
    ensures { result ≡ type_args_child_of kind.now }
{
    match kind {
        Kind::Ty(
            Ty::TsExprWithTypeArgs { type_args, .. }
            | Ty::TsTypeQuery { type_args, .. }
            | Ty::TsImportType { type_args, .. },
        ) => *type_args,
        _ => None,
    }
}

pub(crate) fn expr_name_of_kind(kind: &Kind) -> Option<NodeId>
    ensures { result ≡ expr_name_child_of kind.now }
{
    match kind {
        Kind::Ty(Ty::TsTypeQuery { expr_name, .. }) => Some(*expr_name),
        _ => None,
    }
}

pub(crate) fn qualifier_of_kind(kind: &Kind) -> Option<NodeId>
    ensures { result ≡ qualifier_child_of kind.now }
{
    match kind {
        Kind::Ty(Ty::TsImportType { qualifier, .. }) => *qualifier,
        _ => None,
    }
}

pub(crate) fn label_of_kind(kind: &Kind) -> Option<NodeId>
    ensures { result ≡ label_child_of kind.now }
{
    match kind {
        Kind::Ty(Ty::TsTupleElement { label, .. }) => *label,
        _ => None,
    }
}

pub(crate) fn left_of_kind(kind: &Kind) -> Option<NodeId>
    ensures { result ≡ left_child_of kind.now }
{
    match kind {
        Kind::Ty(Ty::TsQualifiedName { left, .. }) => Some(*left),
        Kind::Expr(Expr::Assign { left, .. }) => Some(*left),
        Kind::Pat(Pat::AssignPat { left, .. }) => Some(*left),
        _ => None,
    }
}

pub(crate) fn obj_of_kind(kind: &Kind) -> Option<NodeId>
    ensures { result ≡ obj_child_of kind.now }
{
    match kind {
        Kind::Expr(Expr::Member { obj, .. }) => Some(*obj),
        _ => None,
    }
}

pub(crate) fn prop_of_kind(kind: &Kind) -> Option<NodeId>
    ensures { result ≡ prop_child_of kind.now }
{
    match kind {
        Kind::Expr(Expr::Member { prop, .. }) => Some(*prop),
        _ => None,
    }
}

pub(crate) fn right_of_kind(kind: &Kind) -> Option<NodeId>
    ensures { result ≡ right_child_of kind.now }
{
    match kind {
        Kind::Expr(Expr::Assign { right, .. }) => Some(*right),
        Kind::Pat(Pat::AssignPat { right, .. }) => Some(*right),
        _ => None,
    }
}

pub(crate) fn elems_of_kind(kind: &Kind) -> &[NodeId]
    ensures { result.now ≡ elem_children_of kind.now }
{
    match kind {
        Kind::Pat(Pat::ArrayPat { elems, .. }) => elems,
        _ => &[],
    }
}

pub(crate) fn props_of_kind(kind: &Kind) -> &[NodeId]
    ensures { result.now ≡ prop_children_of kind.now }
{
    match kind {
        Kind::Pat(Pat::ObjectPat { props, .. }) => props,
        _ => &[],
    }
}

pub(crate) fn arg_of_kind(kind: &Kind) -> Option<NodeId>
    ensures { result ≡ arg_child_of kind.now }
{
    match kind {
        Kind::Pat(Pat::RestPat { arg, .. }) => Some(*arg),
        _ => None,
    }
}

pub(crate) fn children_field_of_kind(kind: &Kind) -> &[NodeId]
    ensures { result.now ≡ children_field_of kind.now }
{
    match kind {
        Kind::Pat(Pat::Plain { children } | Pat::Other { children }) => children,
        _ => &[],
    }
}
