//! The shape of a node: its children have kinds that their fields allow, and it follows the rules
//! of its own kind.

ghost use Rattle.std.specs.Prelude.{◌≡◌, false};
ghost use Rattle.std.specs.Option.{option_map, option_map_or};
ghost use Rattle.std.specs.List.{list_any};
ghost use Rattle.symbols_ast.specs.FieldViews.{field_view};
ghost use Rattle.symbols_ast.specs.Nodes.{kind_at};
ghost use Rattle.symbols_ast.specs.Shapes.{is_misplaced_child, field_has_misplaced_child, has_misplaced_child};
ghost use Rattle.symbols_ast.specs.Shapes.{is_string_literal, is_binding_ident, export_specifier_needs_from_clause};
ghost use Rattle.symbols_ast.specs.Shapes.{is_destructuring_with_default, breaks_rule_of_its_kind};
ghost use Rattle.symbols_ast.specs.Shapes.{has_misplaced_child_or_breaks_rule};

use symbols_ast::tree::{Category, Children, Expr, Field, Item, Kind, Member, Node, NodeId, Pat};

fn is_misplaced_child(nodes: &[Node], category: Category, id: NodeId) -> bool
    ensures { result ≡ is_misplaced_child nodes.now category id }
{
    match nodes.get(id.index()) {
        Some(node) => !category.allows(node.kind.name()),
        None => false,
    }
}

/// Returns whether a child in the field has a kind that the field doesn't allow.
fn field_has_misplaced_child(nodes: &[Node], field: &Field) -> bool
    ensures { result ≡ field_has_misplaced_child nodes.now (field_view field.now) }
{
    let category = field.category;
    match field.children {
        Children::One(id) => is_misplaced_child(nodes, category, id),
        Children::Optional(None) => false,
        Children::Optional(Some(id)) => is_misplaced_child(nodes, category, id),
        Children::Many(ids) => ids
            .iter()
            .any(|id| is_misplaced_child(nodes, category, *id)),
    }
}

fn any_holds_misplaced(nodes: &[Node], fields: &[Option<Field>]) -> bool
    ensures { result ≡ list_any (λ field. option_map_or
        (field_has_misplaced_child nodes.now) (option_map field_view field) false) fields.now }
{
    fields.iter().any(|slot| match slot {
        Some(field) => field_has_misplaced_child(nodes, field),
        None => false,
    })
}

#[tactic(auto, using(crate::proofs::FieldLists::list_any_present))]
fn has_misplaced_child(nodes: &[Node], kind: &Kind) -> bool
    ensures { result ≡ has_misplaced_child nodes.now kind.now }
{
    any_holds_misplaced(nodes, &kind.fields())
}

fn is_string_literal(nodes: &[Node], id: NodeId) -> bool
    ensures { result ≡ option_map_or is_string_literal (kind_at nodes.now id) false }
{
    match nodes.get(id.index()) {
        Some(node) => matches!(&node.kind, Kind::Expr(Expr::Str { .. })),
        None => false,
    }
}

fn is_binding_ident(nodes: &[Node], id: NodeId) -> bool
    ensures { result ≡ option_map_or is_binding_ident (kind_at nodes.now id) false }
{
    match nodes.get(id.index()) {
        Some(node) => matches!(&node.kind, Kind::Pat(Pat::BindingIdent { .. })),
        None => false,
    }
}

fn needs_from_clause(nodes: &[Node], kind: &Kind) -> bool
    ensures { result ≡ export_specifier_needs_from_clause nodes.now kind.now }
{
    match kind {
        Kind::Item(Item::ExportNamespace { .. }) => true,
        Kind::Item(Item::ExportSpecifier { orig, .. }) => is_string_literal(nodes, *orig),
        _ => false,
    }
}

fn node_needs_source(nodes: &[Node], id: NodeId) -> bool
    ensures { result ≡ option_map_or
        (export_specifier_needs_from_clause nodes.now) (kind_at nodes.now id) false }
{
    match nodes.get(id.index()) {
        Some(node) => needs_from_clause(nodes, &node.kind),
        None => false,
    }
}

fn any_needs_source(nodes: &[Node], ids: &[NodeId]) -> bool
    ensures { result ≡ list_any (λ n. option_map_or
        (export_specifier_needs_from_clause nodes.now) (kind_at nodes.now n) false) ids.now }
{
    ids.iter().any(|id| node_needs_source(nodes, *id))
}

fn is_destructuring_with_default(nodes: &[Node], kind: &Kind) -> bool
    ensures { result ≡ is_destructuring_with_default nodes.now kind.now }
{
    match kind {
        Kind::Pat(Pat::AssignPat { left, .. }) => !is_binding_ident(nodes, *left),
        _ => false,
    }
}

fn node_is_bad_param(nodes: &[Node], id: NodeId) -> bool
    ensures { result ≡ option_map_or
        (is_destructuring_with_default nodes.now) (kind_at nodes.now id) false }
{
    match nodes.get(id.index()) {
        Some(node) => is_destructuring_with_default(nodes, &node.kind),
        None => false,
    }
}

fn breaks_rule_of_its_kind(nodes: &[Node], kind: &Kind) -> bool
    ensures { result ≡ breaks_rule_of_its_kind nodes.now kind.now }
{
    match kind {
        Kind::Item(Item::ExportDefaultSpecifier { .. }) => true,
        Kind::Item(
            Item::ExportNamed {
                specifiers,
                src: None,
            },
        ) => { any_needs_source(nodes, specifiers) }
        Kind::Item(
            Item::TsImportEqualsDecl {
                entity,
                external,
                ..
            },
        ) => { entity.is_some() == external.is_some() }
        Kind::Member(Member::TsParamProp { param, .. }) => node_is_bad_param(nodes, *param),
        _ => false,
    }
}

/// Returns whether the node of a number has a bad shape (extension); false if there is no such
/// node.
#[tactic(auto, unfolding(symbols_ast::specs::Shapes::has_misplaced_child_or_breaks_rule))]
pub(crate) fn has_misplaced_child_or_breaks_rule(nodes: &[Node], n: usize) -> bool
    ensures { result ≡ has_misplaced_child_or_breaks_rule nodes.now n }
{
    match nodes.get(n) {
        Some(node) => has_misplaced_child(nodes, &node.kind)
            || breaks_rule_of_its_kind(nodes, &node.kind),
        None => false,
    }
}
