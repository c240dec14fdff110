// Generated from tools/kinds/kinds.txt by tools/kinds.py --write. Do not edit.
//! The children of a node by the names of their fields.

ghost use Rattle.std.specs.Prelude.{◌≡◌};
ghost use Rattle.std.specs.Option.{option_map};
ghost use Rattle.symbols_ast.specs.NodeRefs.{node_view, child_in_field, child_list_in_field};
ghost use Rattle.symbols_ast.specs.Fields.{body_children_of, specifier_children_of, local_child_of, decl_child_of};
ghost use Rattle.symbols_ast.specs.Fields.{orig_child_of, expr_child_of, id_child_of, entity_child_of, ident_child_of};
ghost use Rattle.symbols_ast.specs.Fields.{class_child_of, type_params_child_of, super_class_child_of};
ghost use Rattle.symbols_ast.specs.Fields.{super_type_params_child_of, implements_children_of, function_child_of};
ghost use Rattle.symbols_ast.specs.Fields.{param_children_of, return_type_child_of, body_child_of, decl_children_of};
ghost use Rattle.symbols_ast.specs.Fields.{name_child_of, init_child_of, extends_children_of, type_ann_child_of};
ghost use Rattle.symbols_ast.specs.Fields.{member_children_of, param_child_of, key_child_of, value_child_of};
ghost use Rattle.symbols_ast.specs.Fields.{constraint_child_of, default_child_of, ty_child_of, type_args_child_of};
ghost use Rattle.symbols_ast.specs.Fields.{expr_name_child_of, qualifier_child_of, label_child_of, left_child_of};
ghost use Rattle.symbols_ast.specs.Fields.{obj_child_of, prop_child_of, right_child_of, elem_children_of};
ghost use Rattle.symbols_ast.specs.Fields.{prop_children_of, arg_child_of, children_field_of};

use crate::tree::arena::NodeId;
use crate::tree::kind_fields;
use crate::tree::node_ref::NodeRef;

/// Each gives the child of that field: none where the kind lacks the field, where the field is
/// empty, or where the tree has no node of that number, which no checked tree has. Of a field
/// that is a list the numbers are given: none where the kind lacks it.
impl<'a> NodeRef<'a> {
    /// Returns the `body` of `Program`, `Class`, `TsInterfaceDecl`, `TsModuleBlock`.
    pub fn body(self) -> &'a [NodeId]
        ensures { result.now ≡ child_list_in_field (node_view self.entry) body_children_of }
    {
        kind_fields::body_of_kind(self.kind())
    }

    /// Returns the `specifiers` of `Import`, `ExportNamed`.
    pub fn specifiers(self) -> &'a [NodeId]
        ensures { result.now ≡ child_list_in_field (node_view self.entry) specifier_children_of }
    {
        kind_fields::specifiers_of_kind(self.kind())
    }

    /// Returns the `local` of `ImportNamed`, `ImportDefault`, `ImportNamespace`,
    /// `ExportDefaultSpecifier`.
    pub fn local(self) -> Option<NodeRef<'a>>
        ensures { option_map node_view result
            ≡ child_in_field (node_view self.entry) local_child_of }
    {
        let child = kind_fields::local_of_kind(self.kind());
        NodeRef::node_in(self.tree, child)
    }

    /// Returns the `decl` of `ExportDecl`, `ExportDefaultDecl`.
    pub fn decl(self) -> Option<NodeRef<'a>>
        ensures { option_map node_view result
            ≡ child_in_field (node_view self.entry) decl_child_of }
    {
        let child = kind_fields::decl_of_kind(self.kind());
        NodeRef::node_in(self.tree, child)
    }

    /// Returns the `orig` of an `ExportSpecifier`.
    pub fn orig(self) -> Option<NodeRef<'a>>
        ensures { option_map node_view result
            ≡ child_in_field (node_view self.entry) orig_child_of }
    {
        let child = kind_fields::orig_of_kind(self.kind());
        NodeRef::node_in(self.tree, child)
    }

    /// Returns the `expr` of `ExportDefaultExpr`, `TsExportAssignment`, `ExprStmt`,
    /// `TsExprWithTypeArgs`, `TsAsExpr`, `TsTypeAssertion`, `Computed`, `ExprPat`.
    pub fn expr(self) -> Option<NodeRef<'a>>
        ensures { option_map node_view result
            ≡ child_in_field (node_view self.entry) expr_child_of }
    {
        let child = kind_fields::expr_of_kind(self.kind());
        NodeRef::node_in(self.tree, child)
    }

    /// Returns the `id` of `TsImportEqualsDecl`, `TsInterfaceDecl`, `TsTypeAliasDecl`,
    /// `TsEnumDecl`, `TsModuleDecl`, `TsNamespaceDecl`.
    pub fn id(self) -> Option<NodeRef<'a>>
        ensures { option_map node_view result ≡ child_in_field (node_view self.entry) id_child_of }
    {
        let child = kind_fields::id_of_kind(self.kind());
        NodeRef::node_in(self.tree, child)
    }

    /// Returns the `entity` of a `TsImportEqualsDecl`.
    pub fn entity(self) -> Option<NodeRef<'a>>
        ensures { option_map node_view result
            ≡ child_in_field (node_view self.entry) entity_child_of }
    {
        let child = kind_fields::entity_of_kind(self.kind());
        NodeRef::node_in(self.tree, child)
    }

    /// Returns the `ident` of `ClassDecl`, `ClassExpr`, `FnDecl`, `FnExpr`.
    pub fn ident(self) -> Option<NodeRef<'a>>
        ensures { option_map node_view result
            ≡ child_in_field (node_view self.entry) ident_child_of }
    {
        let child = kind_fields::ident_of_kind(self.kind());
        NodeRef::node_in(self.tree, child)
    }

    /// Returns the `class` of `ClassDecl`, `ClassExpr`.
    pub fn class(self) -> Option<NodeRef<'a>>
        ensures { option_map node_view result
            ≡ child_in_field (node_view self.entry) class_child_of }
    {
        let child = kind_fields::class_of_kind(self.kind());
        NodeRef::node_in(self.tree, child)
    }

    /// Returns the `type_params` of `Class`, `Function`, `TsInterfaceDecl`, `TsTypeAliasDecl`,
    /// `TsCallSignatureDecl`, `TsConstructSignatureDecl`, `TsMethodSignature`, `Arrow`.
    pub fn type_params(self) -> Option<NodeRef<'a>>
        ensures { option_map node_view result
            ≡ child_in_field (node_view self.entry) type_params_child_of }
    {
        let child = kind_fields::type_params_of_kind(self.kind());
        NodeRef::node_in(self.tree, child)
    }

    /// Returns the `super_class` of a `Class`.
    pub fn super_class(self) -> Option<NodeRef<'a>>
        ensures { option_map node_view result
            ≡ child_in_field (node_view self.entry) super_class_child_of }
    {
        let child = kind_fields::super_class_of_kind(self.kind());
        NodeRef::node_in(self.tree, child)
    }

    /// Returns the `super_type_params` of a `Class`.
    pub fn super_type_params(self) -> Option<NodeRef<'a>>
        ensures { option_map node_view result
            ≡ child_in_field (node_view self.entry) super_type_params_child_of }
    {
        let child = kind_fields::super_type_params_of_kind(self.kind());
        NodeRef::node_in(self.tree, child)
    }

    /// Returns the `implements` of a `Class`.
    pub fn implements(self) -> &'a [NodeId]
        ensures { result.now ≡ child_list_in_field (node_view self.entry) implements_children_of }
    {
        kind_fields::implements_of_kind(self.kind())
    }

    /// Returns the `function` of `FnDecl`, `FnExpr`, `ClassMethod`.
    pub fn function(self) -> Option<NodeRef<'a>>
        ensures { option_map node_view result
            ≡ child_in_field (node_view self.entry) function_child_of }
    {
        let child = kind_fields::function_of_kind(self.kind());
        NodeRef::node_in(self.tree, child)
    }

    /// Returns the `params` of `Function`, `Constructor`, `TsIndexSignature`,
    /// `TsCallSignatureDecl`, `TsConstructSignatureDecl`, `TsMethodSignature`, `TsTypeParamDecl`,
    /// `TsTypeParamInstantiation`, `Arrow`.
    pub fn params(self) -> &'a [NodeId]
        ensures { result.now ≡ child_list_in_field (node_view self.entry) param_children_of }
    {
        kind_fields::params_of_kind(self.kind())
    }

    /// Returns the `return_type` of `Function`, `Arrow`.
    pub fn return_type(self) -> Option<NodeRef<'a>>
        ensures { option_map node_view result
            ≡ child_in_field (node_view self.entry) return_type_child_of }
    {
        let child = kind_fields::return_type_of_kind(self.kind());
        NodeRef::node_in(self.tree, child)
    }

    /// Returns the `body` of `Function`, `TsModuleDecl`, `TsNamespaceDecl`, `Constructor`, `Arrow`.
    pub fn body_node(self) -> Option<NodeRef<'a>>
        ensures { option_map node_view result
            ≡ child_in_field (node_view self.entry) body_child_of }
    {
        let child = kind_fields::body_node_of_kind(self.kind());
        NodeRef::node_in(self.tree, child)
    }

    /// Returns the `decls` of `VarDecl`, `UsingDecl`.
    pub fn decls(self) -> &'a [NodeId]
        ensures { result.now ≡ child_list_in_field (node_view self.entry) decl_children_of }
    {
        kind_fields::decls_of_kind(self.kind())
    }

    /// Returns the `name` of a `VarDeclarator`.
    pub fn name(self) -> Option<NodeRef<'a>>
        ensures { option_map node_view result
            ≡ child_in_field (node_view self.entry) name_child_of }
    {
        let child = kind_fields::name_of_kind(self.kind());
        NodeRef::node_in(self.tree, child)
    }

    /// Returns the `init` of `VarDeclarator`, `TsEnumMember`.
    pub fn init(self) -> Option<NodeRef<'a>>
        ensures { option_map node_view result
            ≡ child_in_field (node_view self.entry) init_child_of }
    {
        let child = kind_fields::init_of_kind(self.kind());
        NodeRef::node_in(self.tree, child)
    }

    /// Returns the `extends` of a `TsInterfaceDecl`.
    pub fn extends(self) -> &'a [NodeId]
        ensures { result.now ≡ child_list_in_field (node_view self.entry) extends_children_of }
    {
        kind_fields::extends_of_kind(self.kind())
    }

    /// Returns the `type_ann` of `TsTypeAliasDecl`, `ClassProp`, `AutoAccessor`,
    /// `TsIndexSignature`, `TsCallSignatureDecl`, `TsConstructSignatureDecl`,
    /// `TsPropertySignature`, `TsGetterSignature`, `TsMethodSignature`, `BindingIdent`, `ArrayPat`,
    /// `ObjectPat`, `RestPat`.
    pub fn type_ann(self) -> Option<NodeRef<'a>>
        ensures { option_map node_view result
            ≡ child_in_field (node_view self.entry) type_ann_child_of }
    {
        let child = kind_fields::type_ann_of_kind(self.kind());
        NodeRef::node_in(self.tree, child)
    }

    /// Returns the `members` of a `TsEnumDecl`.
    pub fn members(self) -> &'a [NodeId]
        ensures { result.now ≡ child_list_in_field (node_view self.entry) member_children_of }
    {
        kind_fields::members_of_kind(self.kind())
    }

    /// Returns the `param` of `TsParamProp`, `TsSetterSignature`.
    pub fn param(self) -> Option<NodeRef<'a>>
        ensures { option_map node_view result
            ≡ child_in_field (node_view self.entry) param_child_of }
    {
        let child = kind_fields::param_of_kind(self.kind());
        NodeRef::node_in(self.tree, child)
    }

    /// Returns the `key` of `ClassMethod`, `ClassProp`, `AutoAccessor`, `TsPropertySignature`,
    /// `TsGetterSignature`, `TsSetterSignature`, `TsMethodSignature`, `KeyValuePatProp`,
    /// `AssignPatProp`.
    pub fn key(self) -> Option<NodeRef<'a>>
        ensures { option_map node_view result ≡ child_in_field (node_view self.entry) key_child_of }
    {
        let child = kind_fields::key_of_kind(self.kind());
        NodeRef::node_in(self.tree, child)
    }

    /// Returns the `value` of `ClassProp`, `AutoAccessor`, `KeyValuePatProp`, `AssignPatProp`.
    pub fn value(self) -> Option<NodeRef<'a>>
        ensures { option_map node_view result
            ≡ child_in_field (node_view self.entry) value_child_of }
    {
        let child = kind_fields::value_of_kind(self.kind());
        NodeRef::node_in(self.tree, child)
    }

    /// Returns the `constraint` of a `TsTypeParam`.
    pub fn constraint(self) -> Option<NodeRef<'a>>
        ensures { option_map node_view result
            ≡ child_in_field (node_view self.entry) constraint_child_of }
    {
        let child = kind_fields::constraint_of_kind(self.kind());
        NodeRef::node_in(self.tree, child)
    }

    /// Returns the `default` of a `TsTypeParam`.
    pub fn default(self) -> Option<NodeRef<'a>>
        ensures { option_map node_view result
            ≡ child_in_field (node_view self.entry) default_child_of }
    {
        let child = kind_fields::default_of_kind(self.kind());
        NodeRef::node_in(self.tree, child)
    }

    /// Returns the `ty` of `TsTypeAnn`, `TsAsExpr`, `TsTypeAssertion`, `TsTupleElement`.
    pub fn ty(self) -> Option<NodeRef<'a>>
        ensures { option_map node_view result ≡ child_in_field (node_view self.entry) ty_child_of }
    {
        let child = kind_fields::ty_of_kind(self.kind());
        NodeRef::node_in(self.tree, child)
    }

    /// Returns the `type_args` of `TsExprWithTypeArgs`, `TsTypeQuery`, `TsImportType`.
    pub fn type_args(self) -> Option<NodeRef<'a>>
        ensures { option_map node_view result
            ≡ child_in_field (node_view self.entry) type_args_child_of }
    {
        let child = kind_fields::type_args_of_kind(self.kind());
        NodeRef::node_in(self.tree, child)
    }

    /// Returns the `expr_name` of a `TsTypeQuery`.
    pub fn expr_name(self) -> Option<NodeRef<'a>>
        ensures { option_map node_view result
            ≡ child_in_field (node_view self.entry) expr_name_child_of }
    {
        let child = kind_fields::expr_name_of_kind(self.kind());
        NodeRef::node_in(self.tree, child)
    }

    /// Returns the `qualifier` of a `TsImportType`.
    pub fn qualifier(self) -> Option<NodeRef<'a>>
        ensures { option_map node_view result
            ≡ child_in_field (node_view self.entry) qualifier_child_of }
    {
        let child = kind_fields::qualifier_of_kind(self.kind());
        NodeRef::node_in(self.tree, child)
    }

    /// Returns the `label` of a `TsTupleElement`.
    pub fn label(self) -> Option<NodeRef<'a>>
        ensures { option_map node_view result
            ≡ child_in_field (node_view self.entry) label_child_of }
    {
        let child = kind_fields::label_of_kind(self.kind());
        NodeRef::node_in(self.tree, child)
    }

    /// Returns the `left` of `TsQualifiedName`, `Assign`, `AssignPat`.
    pub fn left(self) -> Option<NodeRef<'a>>
        ensures { option_map node_view result
            ≡ child_in_field (node_view self.entry) left_child_of }
    {
        let child = kind_fields::left_of_kind(self.kind());
        NodeRef::node_in(self.tree, child)
    }

    /// Returns the `obj` of a `Member`.
    pub fn obj(self) -> Option<NodeRef<'a>>
        ensures { option_map node_view result ≡ child_in_field (node_view self.entry) obj_child_of }
    {
        let child = kind_fields::obj_of_kind(self.kind());
        NodeRef::node_in(self.tree, child)
    }

    /// Returns the `prop` of a `Member`.
    pub fn prop(self) -> Option<NodeRef<'a>>
        ensures { option_map node_view result
            ≡ child_in_field (node_view self.entry) prop_child_of }
    {
        let child = kind_fields::prop_of_kind(self.kind());
        NodeRef::node_in(self.tree, child)
    }

    /// Returns the `right` of `Assign`, `AssignPat`.
    pub fn right(self) -> Option<NodeRef<'a>>
        ensures { option_map node_view result
            ≡ child_in_field (node_view self.entry) right_child_of }
    {
        let child = kind_fields::right_of_kind(self.kind());
        NodeRef::node_in(self.tree, child)
    }

    /// Returns the `elems` of an `ArrayPat`.
    pub fn elems(self) -> &'a [NodeId]
        ensures { result.now ≡ child_list_in_field (node_view self.entry) elem_children_of }
    {
        kind_fields::elems_of_kind(self.kind())
    }

    /// Returns the `props` of an `ObjectPat`.
    pub fn props(self) -> &'a [NodeId]
        ensures { result.now ≡ child_list_in_field (node_view self.entry) prop_children_of }
    {
        kind_fields::props_of_kind(self.kind())
    }

    /// Returns the `arg` of a `RestPat`.
    pub fn arg(self) -> Option<NodeRef<'a>>
        ensures { option_map node_view result ≡ child_in_field (node_view self.entry) arg_child_of }
    {
        let child = kind_fields::arg_of_kind(self.kind());
        NodeRef::node_in(self.tree, child)
    }

    /// Returns the `children` of `Plain`, `Other`.
    pub fn children(self) -> &'a [NodeId]
        ensures { result.now ≡ child_list_in_field (node_view self.entry) children_field_of }
    {
        kind_fields::children_field_of_kind(self.kind())
    }
}
