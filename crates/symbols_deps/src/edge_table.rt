//! The table of edges: the children of each kind of node in which references are searched.

ghost use Rattle.std.specs.Prelude.{◌≡◌, ◌++◌, map, OnOk, Some, is_some};
ghost use Rattle.symbols_ast.specs.NodeRefs.{node_view, kind_of};
ghost use Rattle.symbols_deps.specs.Annotations.{has_type_annotation};
ghost use Rattle.symbols_deps.specs.EdgeTable.{signature_edge_rules, value_if_computed_key_edge_rules, decl_edges};
ghost use Rattle.symbols_deps.specs.EdgeTable.{member_edges, ty_edges, expr_edges, edges_of_node_in_context};
ghost use Rattle.symbols_deps.specs.EdgeTable.{start_edges_of_kind};
ghost use Rattle.symbols_deps.specs.inner.KnownFacts.{IsKnownFactTrueOf, IsExprNode};
ghost use Rattle.symbols_nodes.specs.References.{namespaced_reference_view, reference_of_node};
ghost use Rattle.symbols_deps.specs.inner.TableParts.{other_decl_edges, function_edges};
ghost use Rattle.symbols_deps.specs.inner.TableParts.{class_edges, keyed_type_element_edges};
ghost use Rattle.symbols_deps.specs.inner.TableParts.{other_member_edges, edge_rules_with_initializer_guard};
ghost use Rattle.symbols_deps.specs.inner.TableParts.{type_part_edge_rules_by_child_kind};

use crate::annotations::is_child_pattern_annotated;
use crate::known::{KnownFact, known_of_object};
use crate::references::Found;
use crate::rules::{EdgeGuard, EdgeRuleSet, NamespaceRule, PatternContext, PatternContextRule};
use crate::visit::{Visit, some_if, unless};
use std::alloc::AllocError;
use symbols_ast::tree::{Decl, Expr, Item, Kind, Member, Pat, Ty};
use symbols_nodes::deps::ReferenceNamespace;

/// Returns the rules for the patterns of a signature.
fn signature_edge_rules() -> EdgeRuleSet
    ensures { result ≡ signature_edge_rules }
{
    EdgeRuleSet::open().with_pattern_context(PatternContextRule::Signature)
}

/// Returns the rules for a key, which is a value if it is computed.
pub(crate) fn property_key_edge_rules() -> EdgeRuleSet
    ensures { result ≡ value_if_computed_key_edge_rules }
{
    EdgeRuleSet::open().with_namespace_rule(NamespaceRule::ValueIfComputed)
}

/// Returns the rules for the initializer of a variable, a property or a pattern.
pub(crate) fn initializer_edge_rules() -> EdgeRuleSet
    ensures { result ≡ edge_rules_with_initializer_guard }
{
    EdgeRuleSet::open().with_guard(EdgeGuard::Initializer)
}

/// Returns the rules for the parts of a type.
pub(crate) fn type_part_edge_rules() -> EdgeRuleSet
    ensures { result ≡ type_part_edge_rules_by_child_kind }
{
    EdgeRuleSet::open()
        .with_namespace_rule(NamespaceRule::ByKind)
        .with_pattern_context(PatternContextRule::SignatureKinds)
}

impl<'a> Visit<'a> {
    ghost use Rattle.symbols_deps.specs.inner.Visits.{dependencies_of_visited_edges};

    /// Follows the edges of variable, interface, alias and enum declarations, and of their parts.
    #[cycle(walk)]
    #[inline(never)]
    fn visit_statement(self, decl: &Decl, found: &mut Found<'a>) -> Result<(), AllocError>
        ensures { OnOk result (map namespaced_reference_view found.new.items
            ≡ map namespaced_reference_view found.old.items ++ dependencies_of_visited_edges
            self.entry (other_decl_edges (node_view self.entry.node) decl.now)) }
    {
        let open = EdgeRuleSet::open();
        match decl {
            Decl::VarDecl { decls } | Decl::UsingDecl { decls } => {
                self.visit_each(open, decls, found)
            }
            Decl::VarDeclarator { name, init } => {
                self.visit_child(open, *name, found)?;
                let init = unless(is_child_pattern_annotated(self.node, *name), *init);
                self.visit_optional(initializer_edge_rules(), init, found)
            }
            Decl::TsInterfaceDecl {
                type_params,
                extends,
                ..
            } => {
                self.visit_optional(open, *type_params, found)?;
                self.visit_each(open, extends, found)
            }
            Decl::TsTypeAliasDecl {
                type_params,
                type_ann,
                ..
            } => {
                self.visit_optional(open, *type_params, found)?;
                self.visit_child(
                    EdgeRuleSet::marking(ReferenceNamespace::Type),
                    *type_ann,
                    found,
                )
            }
            Decl::TsEnumDecl { members, .. } => self.visit_each(open, members, found),
            Decl::TsEnumMember { init } => self.visit_optional(open, *init, found),
            _ => Ok(()),
        }
    }

    /// Follows the edges of functions and of the nodes that have one.
    #[cycle(walk)]
    #[inline(never)]
    fn visit_function(self, decl: &Decl, found: &mut Found<'a>) -> Result<(), AllocError>
        ensures { OnOk result (map namespaced_reference_view found.new.items
            ≡ map namespaced_reference_view found.old.items ++ dependencies_of_visited_edges
            self.entry (function_edges (node_view self.entry.node) decl.now)) }
    {
        let open = EdgeRuleSet::open();
        match decl {
            Decl::FnDecl { ident, function } => {
                self.visit_child(open, *ident, found)?;
                self.visit_child(open, *function, found)
            }
            Decl::FnExpr { ident, function } => {
                self.visit_optional(open, *ident, found)?;
                self.visit_child(open, *function, found)
            }
            Decl::Function {
                type_params,
                params,
                return_type,
                ..
            } => {
                self.visit_optional(open, *type_params, found)?;
                self.visit_each(open, params, found)?;
                self.visit_annotation(*return_type, found)
            }
            _ => Ok(()),
        }
    }

    /// Follows the edges of classes and of the nodes that have one.
    #[cycle(walk)]
    #[inline(never)]
    fn visit_class(self, decl: &Decl, found: &mut Found<'a>) -> Result<(), AllocError>
        ensures { OnOk result (map namespaced_reference_view found.new.items
            ≡ map namespaced_reference_view found.old.items ++ dependencies_of_visited_edges
            self.entry (class_edges (node_view self.entry.node) decl.now)) }
    {
        let open = EdgeRuleSet::open();
        match decl {
            Decl::ClassDecl { ident, class } => {
                self.visit_child(open, *ident, found)?;
                self.visit_child(open, *class, found)
            }
            Decl::ClassExpr { ident, class } => {
                self.visit_optional(open, *ident, found)?;
                self.visit_child(open, *class, found)
            }
            Decl::Class {
                type_params,
                super_class,
                super_type_params,
                implements,
                ..
            } => {
                self.visit_optional(open, *type_params, found)?;
                self.visit_optional(open, *super_class, found)?;
                self.visit_optional(open, *super_type_params, found)?;
                self.visit_each(open, implements, found)
            }
            _ => Ok(()),
        }
    }

    /// Follows the edges of a declaration.
    #[cycle(walk)]
    #[inline(always)]
    pub(crate) fn visit_decl(self, decl: &Decl, found: &mut Found<'a>) -> Result<(), AllocError>
        ensures { OnOk result (map namespaced_reference_view found.new.items
            ≡ map namespaced_reference_view found.old.items ++ dependencies_of_visited_edges
            self.entry (decl_edges (node_view self.entry.node) decl.now)) }
    {
        match decl {
            Decl::ClassDecl { .. } | Decl::ClassExpr { .. } | Decl::Class { .. } => {
                self.visit_class(decl, found)
            }
            Decl::FnDecl { .. } | Decl::FnExpr { .. } | Decl::Function { .. } => {
                self.visit_function(decl, found)
            }
            _ => self.visit_statement(decl, found),
        }
    }

    /// Follows the edges of interface members that have a key.
    #[cycle(walk)]
    #[inline(never)]
    fn visit_keyed(self, member: &Member, found: &mut Found<'a>) -> Result<(), AllocError>
        ensures { OnOk result (map namespaced_reference_view found.new.items
            ≡ map namespaced_reference_view found.old.items
            ++ dependencies_of_visited_edges self.entry (keyed_type_element_edges member.now)) }
    {
        let open = EdgeRuleSet::open();
        let value = EdgeRuleSet::marking(ReferenceNamespace::Value);
        match member {
            Member::TsPropertySignature {
                key,
                computed,
                type_ann,
            }
            | Member::TsGetterSignature {
                key,
                computed,
                type_ann,
            } => {
                self.visit_optional(value, some_if(*computed, *key), found)?;
                self.visit_annotation(*type_ann, found)
            }
            Member::TsSetterSignature {
                key,
                computed,
                param,
            } => {
                self.visit_optional(value, some_if(*computed, *key), found)?;
                self.visit_child(signature_edge_rules(), *param, found)
            }
            Member::TsMethodSignature {
                key,
                computed,
                type_params,
                params,
                type_ann,
            } => {
                self.visit_optional(value, some_if(*computed, *key), found)?;
                self.visit_optional(open, *type_params, found)?;
                self.visit_each(signature_edge_rules(), params, found)?;
                self.visit_annotation(*type_ann, found)
            }
            _ => Ok(()),
        }
    }

    /// Follows the edges of parameter properties and of interface members without a key.
    #[cycle(walk)]
    #[inline(never)]
    fn visit_unkeyed(self, member: &Member, found: &mut Found<'a>) -> Result<(), AllocError>
        ensures { OnOk result (map namespaced_reference_view found.new.items
            ≡ map namespaced_reference_view found.old.items
            ++ dependencies_of_visited_edges self.entry (other_member_edges member.now)) }
    {
        let open = EdgeRuleSet::open();
        match member {
            Member::TsParamProp { param, .. } => {
                self.visit_child(
                    open.with_pattern_context(PatternContextRule::Property),
                    *param,
                    found,
                )
            }
            Member::TsIndexSignature {
                params,
                type_ann,
                ..
            } => {
                self.visit_each(signature_edge_rules(), params, found)?;
                self.visit_annotation(*type_ann, found)
            }
            Member::TsCallSignatureDecl {
                type_params,
                params,
                type_ann,
            }
            | Member::TsConstructSignatureDecl {
                type_params,
                params,
                type_ann,
            } => {
                self.visit_optional(open, *type_params, found)?;
                self.visit_each(signature_edge_rules(), params, found)?;
                self.visit_annotation(*type_ann, found)
            }
            _ => Ok(()),
        }
    }

    /// Follows the edges of a class or interface member.
    #[cycle(walk)]
    #[inline(always)]
    pub(crate) fn visit_member(
        self,
        member: &Member,
        found: &mut Found<'a>,
    ) -> Result<(), AllocError>
        ensures { OnOk result (map namespaced_reference_view found.new.items
            ≡ map namespaced_reference_view found.old.items
            ++ dependencies_of_visited_edges self.entry (member_edges member.now)) }
    {
        match member {
            Member::TsPropertySignature { .. }
            | Member::TsGetterSignature { .. }
            | Member::TsSetterSignature { .. }
            | Member::TsMethodSignature { .. } => self.visit_keyed(member, found),
            _ => self.visit_unkeyed(member, found),
        }
    }

    /// Follows the edges of types and of the nodes that have one.
    #[cycle(walk)]
    #[inline(always)]
    pub(crate) fn visit_ty(self, ty: &Ty, found: &mut Found<'a>) -> Result<(), AllocError>
        ensures { OnOk result (map namespaced_reference_view found.new.items
            ≡ map namespaced_reference_view found.old.items
            ++ dependencies_of_visited_edges self.entry (ty_edges ty.now)) }
    {
        let open = EdgeRuleSet::open();
        let of_types = EdgeRuleSet::marking(ReferenceNamespace::Type);
        match ty {
            Ty::TsTypeParamDecl { params } => self.visit_each(open, params, found),
            Ty::TsTypeParam {
                constraint,
                default,
            } => {
                self.visit_optional(of_types, *constraint, found)?;
                self.visit_optional(of_types, *default, found)
            }
            Ty::TsTypeParamInstantiation { params } => self.visit_each(of_types, params, found),
            Ty::TsTypeAnn { ty }
            | Ty::TsAsExpr { ty, .. }
            | Ty::TsTypeAssertion { ty, .. }
            | Ty::TsTupleElement { ty, .. } => self.visit_child(of_types, *ty, found),
            Ty::TsExprWithTypeArgs { expr, type_args } => {
                self.visit_optional(open, *type_args, found)?;
                self.visit_child(EdgeRuleSet::marking(ReferenceNamespace::Both), *expr, found)
            }
            Ty::TsTypeQuery {
                expr_name,
                type_args,
            } => {
                self.visit_child(
                    EdgeRuleSet::marking(ReferenceNamespace::Value),
                    *expr_name,
                    found,
                )?;
                self.visit_optional(open, *type_args, found)
            }
            Ty::TsImportType { type_args, .. } => self.visit_optional(open, *type_args, found),
            Ty::TsQualifiedName { .. } => Ok(()),
        }
    }

    /// Follows the edges of expressions and names. `refers` says that the node is a reference
    /// itself.
    #[cycle(walk)]
    #[inline(never)]
    fn visit_expr(self, refers: bool, expr: &Expr, found: &mut Found<'a>) -> Result<(), AllocError>
        requires kind { IsExprNode (node_view self.node) expr.now }
        requires refers { refers ≡ is_some (reference_of_node (node_view self.node)) }
        ensures { OnOk result (map namespaced_reference_view found.new.items
            ≡ map namespaced_reference_view found.old.items
            ++ dependencies_of_visited_edges self.entry (expr_edges refers expr.now)) }
    {
        let open = EdgeRuleSet::open();
        match expr {
            Expr::Member { .. } if refers => Ok(()),
            Expr::Member { obj, prop } => {
                let known = known_of_object(self.node, *obj, *prop);
                self.visit_known(open, *obj, known, found)?;
                self.visit_child(open, *prop, found)
            }
            Expr::Computed { expr } => self.visit_child(open, *expr, found),
            Expr::Assign { left, right, .. } => {
                self.visit_child(open, *left, found)?;
                self.visit_child(open, *right, found)
            }
            Expr::Arrow {
                type_params,
                params,
                return_type,
                is_block,
                body,
            } => {
                self.visit_optional(open, *type_params, found)?;
                self.visit_each(open, params, found)?;
                self.visit_annotation(*return_type, found)?;
                let alone = !(*is_block || return_type.is_some());
                self.visit_optional(open, some_if(alone, *body), found)
            }
            _ => Ok(()),
        }
    }

    /// Appends the dependencies along the edges of the node, which is entered in a form. `refers`
    /// says that the node is a reference itself.
    #[cycle(walk)]
    #[inline(always)]
    pub(crate) fn visit_edges(
        self,
        kind: &Kind,
        form: PatternContext,
        refers: bool,
        known: KnownFact,
        found: &mut Found<'a>,
    ) -> Result<(), AllocError>
        requires kind { kind_of (node_view self.node) ≡ Some kind.now }
        requires refers { refers ≡ is_some (reference_of_node (node_view self.node)) }
        requires known { IsKnownFactTrueOf known (node_view self.node) }
        ensures { OnOk result (map namespaced_reference_view found.new.items
            ≡ map namespaced_reference_view found.old.items ++ dependencies_of_visited_edges
            self.entry (edges_of_node_in_context (node_view self.entry.node) form refers
            (has_type_annotation (node_view self.entry.node)) kind.now)) }
    {
        match kind {
            Kind::Item(item) => match item {
                Item::ExprStmt { expr } => self.visit_child(EdgeRuleSet::open(), *expr, found),
                _ => Ok(()),
            },
            Kind::Decl(decl) => self.visit_decl(decl, found),
            Kind::Member(member) => self.visit_member(member, found),
            Kind::Ty(ty) => self.visit_ty(ty, found),
            Kind::Expr(expr) => self.visit_expr(refers, expr, found),
            Kind::Pat(Pat::BindingIdent { type_ann, .. }) => {
                self.visit_annotation(*type_ann, found)
            }
            Kind::Pat(pat) => match form {
                PatternContext::Usual => self.visit_pat(known, pat, found),
                PatternContext::Signature => self.visit_signature(known, pat, found),
                PatternContext::Property => self.visit_property(known, pat, found),
            },
        }
    }

    /// Appends the dependencies along a node's first edges, for a declaration that doesn't begin at
    /// the node's own edges.
    pub(crate) fn visit_first_edges(
        self,
        kind: &Kind,
        found: &mut Found<'a>,
    ) -> Result<(), AllocError>
        ensures { OnOk result (map namespaced_reference_view found.new.items
            ≡ map namespaced_reference_view found.old.items
            ++ dependencies_of_visited_edges self.entry (start_edges_of_kind kind.now)) }
    {
        let open = EdgeRuleSet::open();
        let in_expressions = property_key_edge_rules().with_guard(EdgeGuard::Expressions);
        match kind {
            Kind::Item(Item::ExportDefaultExpr { expr }) => self.visit_child(open, *expr, found),
            Kind::Member(Member::Constructor { params, .. }) => {
                self.visit_each(open, params, found)
            }
            Kind::Member(Member::ClassMethod { key, .. }) => {
                self.visit_child(in_expressions, *key, found)
            }
            Kind::Member(
                Member::ClassProp {
                    key,
                    type_ann,
                    value,
                    ..
                },
            ) => {
                self.visit_child(in_expressions, *key, found)?;
                self.visit_annotation(*type_ann, found)?;
                let value = unless(type_ann.is_some(), *value);
                self.visit_optional(initializer_edge_rules(), value, found)
            }
            Kind::Member(Member::AutoAccessor { type_ann, .. }) => {
                self.visit_annotation(*type_ann, found)
            }
            Kind::Expr(Expr::Assign { right, .. }) => {
                self.visit_child(open.with_guard(EdgeGuard::Expressions), *right, found)
            }
            _ => Ok(()),
        }
    }
}
