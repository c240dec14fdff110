//! Dotted names like `a.b.c`, in types and in expressions.

ghost use Rattle.std.specs.Prelude.{◌≡◌, ◌∷◌, ◌<◌, Contains, IfOk, IfSome, Some};
ghost use Rattle.std.specs.Cow.{cow_str_bytes};
ghost use Rattle.std.specs.Option.{option_map, option_copied, option_and_then};
ghost use Rattle.symbols_ast.specs.NodeRefs.{node_view, node_in, kind_of};
ghost use Rattle.symbols_ast.specs.Nodes.{children};
ghost use Rattle.symbols_ast.specs.WellFormed.{IsWellFormedTree};
ghost use Rattle.symbols_nodes.specs.NameViews.{dotted_name_part_view, member_expr_name_view};
ghost use Rattle.symbols_nodes.specs.DottedNames.{entity_name_view, dotted_name_part_of_member_prop};
ghost use Rattle.symbols_nodes.specs.DottedNames.{entity_name, member_expr_name};
ghost use Rattle.symbols_nodes.specs.Expando.{str_literal_value};
ghost use Rattle.symbols_nodes.specs.Readings.{node_of_greater_number, evaluate_node_of_greater_number};

use std::alloc::{AllocError, Global};
use std::borrow::CowStr;
use symbols_ast::tree::{Expr, Id, Kind, NodeId, NodeRef, Ty};

/// Returns the node with this id if its number is greater than this node's. In a checked tree every
/// child has such a number. A recursion over such nodes ends in every tree.
pub fn node_of_greater_number<'a>(node: NodeRef<'a>, id: NodeId) -> Option<NodeRef<'a>>
    ensures found { option_map node_view result ≡ node_of_greater_number (node_view node.entry) id }
    ensures below { IfSome result (λ child. node.entry.number < child.number) }
    ensures same_tree { IfSome result (λ child. child.tree.now ≡ node.entry.tree.now) }
    ensures checked { IsWellFormedTree node.entry.tree.now.nodes.items
        → Contains (children node.entry.tree.now.nodes.items node.entry.number) id
        → option_map node_view result ≡ node_in node.entry.tree.now (Some id) }
{
    if node.number < id.0 {
        node.node(id)
    } else {
        None
    }
}

/// An entity name, as TypeScript calls it: an identifier and the parts that follow it after dots.
#[derive(Drop)]
pub struct EntityName<'a> {
    pub leftmost: &'a Id,
    pub parts: Vec<&'a str>,
}

/// Returns the entity name that an `Ident` or a `TsQualifiedName` is. It is `None` for any other
/// kind, also on the left, where a checked tree has none.
///
/// # Errors
///
/// An allocation failed.
pub fn entity_name<'a>(
    alloc: Global,
    node: NodeRef<'a>,
) -> Result<Option<EntityName<'a>>, AllocError>
    ensures { IfOk result
        (λ name. option_map entity_name_view name ≡ entity_name (node_view node.entry)) }
{
    match node.kind() {
        Kind::Expr(Expr::Ident { sym }) => Ok(Some(EntityName {
            leftmost: sym,
            parts: Vec::new(alloc),
        })),
        Kind::Ty(Ty::TsQualifiedName { left, right }) => {
            let Some(left) = node_of_greater_number(node, *left) else {
                return Ok(None);
            };
            let Some(mut name) = entity_name(alloc, left)? else {
                return Ok(None);
            };
            name.parts.push(right.as_str())?;
            Ok(Some(name))
        }
        _ => Ok(None),
    }
}

/// A part of a dotted name in expressions, as it is in the tree.
#[derive(Clone, Copy)]
pub enum Part<'a> {
    /// A property name, or a string in brackets.
    Text(&'a str),
    /// A private name, without its `#`.
    Private(&'a str),
}

impl<'a> Part<'a> {
    /// Returns the part as text. Only the text of a private name is copied.
    fn to_text(self, alloc: Global) -> Result<CowStr<'a>, AllocError>
        ensures { IfOk result (λ text. cow_str_bytes text ≡ dotted_name_part_view self.entry) }
    {
        match self {
            Part::Text(text) => Ok(CowStr::Borrowed(text)),
            Part::Private(name) => {
                let mut copy = String::with_capacity(alloc, name.len().saturating_add(1))?;
                copy.push('#')?;
                copy.push_str(name)?;
                Ok(CowStr::Owned(copy))
            }
        }
    }
}

fn str_literal_value(kind: &Kind) -> Option<&str>
    ensures { option_copied result ≡ str_literal_value kind.now }
{
    match kind {
        Kind::Expr(Expr::Str { value }) => Some(value.as_str()),
        _ => None,
    }
}

fn bracket_text<'a>(prop: NodeRef<'a>, expr: NodeId) -> Option<&'a str>
    ensures { option_copied result ≡ option_and_then str_literal_value
        (evaluate_node_of_greater_number kind_of (node_view prop.entry) expr) }
{
    str_literal_value(node_of_greater_number(prop, expr)?.kind())
}

/// Returns the property as a part of a dotted name. It is `None` for a computed key other than a
/// string.
fn dotted_name_part_of_member_prop<'a>(prop: NodeRef<'a>) -> Option<Part<'a>>
    ensures { option_map dotted_name_part_view result
        ≡ dotted_name_part_of_member_prop (node_view prop.entry) }
{
    match prop.kind() {
        Kind::Expr(Expr::IdentName { name }) => Some(Part::Text(name.as_str())),
        Kind::Expr(Expr::PrivateName { name }) => Some(Part::Private(name.as_str())),
        Kind::Expr(Expr::Computed { expr }) => Some(Part::Text(bracket_text(prop, *expr)?)),
        _ => None,
    }
}

/// Returns the property of this number as a part of a dotted name. It is `None` if the number is
/// not greater than the node's, or the property is a computed key other than a string.
pub fn prop_part_below<'a>(node: NodeRef<'a>, prop: NodeId) -> Option<Part<'a>>
    ensures { option_map dotted_name_part_view result ≡ evaluate_node_of_greater_number
        dotted_name_part_of_member_prop (node_view node.entry) prop }
{
    dotted_name_part_of_member_prop(node_of_greater_number(node, prop)?)
}

/// A dotted name in expressions: its first identifier and the parts after it.
#[derive(Drop)]
pub struct MemberExprName<'a> {
    pub leftmost: &'a Id,
    pub parts: Vec<CowStr<'a>>,
}

/// Returns the dotted name that an `Ident` or a `Member` is, if it is one. No part is copied unless
/// the whole expression is such a name.
pub fn member_expr_name<'a>(
    alloc: Global,
    node: NodeRef<'a>,
) -> Result<Option<MemberExprName<'a>>, AllocError>
    ensures { IfOk result
        (λ name. option_map member_expr_name_view name ≡ member_expr_name (node_view node.entry)) }
{
    match node.kind() {
        Kind::Expr(Expr::Ident { sym }) => Ok(Some(MemberExprName {
            leftmost: sym,
            parts: Vec::new(alloc),
        })),
        Kind::Expr(Expr::Member { obj, prop }) => {
            let Some(part) = prop_part_below(node, *prop) else {
                return Ok(None);
            };
            let Some(obj) = node_of_greater_number(node, *obj) else {
                return Ok(None);
            };
            let Some(mut name) = member_expr_name(alloc, obj)? else {
                return Ok(None);
            };
            name.parts.push(part.to_text(alloc)?)?;
            Ok(Some(name))
        }
        _ => Ok(None),
    }
}
