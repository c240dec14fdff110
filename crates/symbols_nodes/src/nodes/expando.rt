//! Expando properties: properties that an assignment adds to a function.

ghost use Rattle.std.specs.Prelude.{◌≡◌, Some, None, is_some, true, IsTrue};
ghost use Rattle.std.specs.Option.{option_map, option_copied, option_map_or, option_and_then};
ghost use Rattle.std.specs.Str.{chars};
ghost use Rattle.symbols_ast.specs.NodeRefs.{node_view, kind_of, range_of};
ghost use Rattle.symbols_nodes.specs.Expando.{Expando, is_identifier_start, is_identifier_part};
ghost use Rattle.symbols_nodes.specs.Expando.{is_identifier, is_simple_assignment};
ghost use Rattle.symbols_nodes.specs.Expando.{is_ident, str_literal_value, prop_name_by_kind, prop_name};
ghost use Rattle.symbols_nodes.specs.Expando.{expando_of_assignment};
ghost use Rattle.symbols_nodes.specs.ExpandoViews.{expando_property_view};
ghost use Rattle.symbols_nodes.specs.inner.ExpandoViews.{expando_view};

use crate::nodes::refs::ExpandoPropertyRef;
use symbols_ast::tree::{Expr, Kind, NodeRef, SourceRange};
use unicode_ident::{is_xid_continue, is_xid_start};

fn is_identifier_start(c: char) -> bool
    ensures { result ≡ is_identifier_start c }
{
    matches!(c, '$' | '_') || is_xid_start(c)
}

fn is_identifier_part(c: char) -> bool
    ensures { result ≡ is_identifier_part c }
{
    matches!(c, '$' | '_' | '\u{200c}' | '\u{200d}') || is_xid_continue(c)
}

fn is_identifier(text: &str) -> bool
    ensures { result ≡ is_identifier (chars text.now) }
{
    let mut rest = text.chars();
    match rest.next() {
        Some(first) => is_identifier_start(first) && rest.all(is_identifier_part),
        None => false,
    }
}

fn is_simple_assignment(kind: &Kind) -> bool
    ensures { result ≡ is_simple_assignment kind.now }
{
    match kind {
        Kind::Expr(Expr::Assign { plain, .. }) => *plain,
        _ => false,
    }
}

fn is_ident(kind: &Kind) -> bool
    ensures { result ≡ is_ident kind.now }
{
    matches!(kind, Kind::Expr(Expr::Ident { .. }))
}

fn str_literal_value(kind: &Kind) -> Option<&str>
    ensures { option_copied result ≡ str_literal_value kind.now }
{
    match kind {
        Kind::Expr(Expr::Str { value }) => Some(value.as_str()),
        _ => None,
    }
}

/// Returns the name after the dot, or the string in brackets.
fn prop_name<'a>(prop: NodeRef<'a>) -> Option<&'a str>
    ensures { option_copied result ≡ prop_name (node_view prop.entry) }
{
    match prop.kind() {
        Kind::Expr(Expr::IdentName { name }) => Some(name.as_str()),
        Kind::Expr(Expr::Computed { .. }) => str_literal_value(prop.expr()?.kind()),
        _ => None,
    }
}

/// The parts of an expando assignment.
#[derive(Clone, Copy)]
struct Parts<'a> {
    member: NodeRef<'a>,
    object: NodeRef<'a>,
    prop: NodeRef<'a>,
    name: &'a str,
    right: NodeRef<'a>,
}

fn find_parts<'a>(node: NodeRef<'a>) -> Option<Parts<'a>>
    ensures { option_map expando_view result ≡ expando_of_assignment (node_view node.entry) }
{
    if !is_simple_assignment(node.kind()) {
        return None;
    }
    let right = node.right()?;
    let member = node.left()?;
    let object = member.obj()?;
    let prop = member.prop()?;
    let name = prop_name(prop)?;
    if is_ident(object.kind()) && is_identifier(name) {
        Some(Parts {
            member,
            object,
            prop,
            name,
            right,
        })
    } else {
        None
    }
}

impl<'a> ExpandoPropertyRef<'a> {
    /// Returns the assignment as an expando property. It is `None` if the node is not of that form.
    pub fn maybe_new(node: NodeRef<'a>) -> Option<ExpandoPropertyRef<'a>>
        ensures { option_map expando_property_view result ≡ option_map
            (λ _. node_view node.entry) (expando_of_assignment (node_view node.entry)) }
    {
        match find_parts(node) {
            Some(_) => Some(ExpandoPropertyRef { inner: node }),
            None => None,
        }
    }

    fn all_parts(self) -> Parts<'a>
        ensures { Some (expando_view result)
            ≡ expando_of_assignment (expando_property_view self.entry) }
    {
        match find_parts(self.inner) {
            Some(parts) => parts,
            None => unreachable!(),
        }
    }

    /// Returns the whole assignment.
    pub fn inner(self) -> NodeRef<'a>
        ensures { node_view result ≡ expando_property_view self.entry }
    {
        self.inner
    }

    /// Returns the member expression on the left.
    pub fn member_expr(self) -> NodeRef<'a>
        ensures { Some (node_view result) ≡ option_map
            (λ (e : Expando). e.member) (expando_of_assignment (expando_property_view self.entry)) }
    {
        self.all_parts().member
    }

    /// Returns the identifier of the object that the property is added to.
    pub fn obj_ident(self) -> NodeRef<'a>
        ensures { Some (node_view result) ≡ option_map
            (λ (e : Expando). e.object) (expando_of_assignment (expando_property_view self.entry)) }
    {
        self.all_parts().object
    }

    /// Returns the name of the property.
    pub fn prop_name(self) -> &'a str
        ensures { Some result.now ≡ option_map
            (λ (e : Expando). e.name) (expando_of_assignment (expando_property_view self.entry)) }
    {
        self.all_parts().name
    }

    /// Returns the range of the property, including its brackets.
    pub fn prop_name_range(self) -> SourceRange
        ensures { Some result ≡ option_and_then (λ (e : Expando).
            range_of e.prop) (expando_of_assignment (expando_property_view self.entry)) }
    {
        self.all_parts().prop.range()
    }

    /// Returns the assigned expression.
    pub fn assignment(self) -> NodeRef<'a>
        ensures { Some (node_view result) ≡ option_map
            (λ (e : Expando). e.right) (expando_of_assignment (expando_property_view self.entry)) }
    {
        self.all_parts().right
    }
}
