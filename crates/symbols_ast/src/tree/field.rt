//! Fields of a node that hold child nodes.

ghost use Rattle.std.specs.Prelude.{◌≡◌};
ghost use Rattle.symbols_ast.specs.FieldViews.{field_view, field_of_one_child, field_of_optional_child};
ghost use Rattle.symbols_ast.specs.FieldViews.{field_of_children};

use crate::tree::arena::NodeId;
use crate::tree::categories::Category;

/// The children in a field.
#[derive(Clone, Copy)]
pub enum Children<'a> {
    One(NodeId),
    Optional(Option<NodeId>),
    Many(&'a [NodeId]),
}

/// A field that holds children, with the category of kinds that it allows.
#[derive(Clone, Copy)]
pub struct Field<'a> {
    pub category: Category,
    pub children: Children<'a>,
}

/// The fields of a node that hold children, in order. No kind has more than five.
pub type Fields<'a> = [Option<Field<'a>>; 5];

pub(crate) fn one<'a>(category: Category, child: &NodeId) -> Field<'a>
    ensures { field_view result ≡ field_of_one_child category child.now }
{
    let children = Children::One(*child);
    Field { category, children }
}

pub(crate) fn optional<'a>(category: Category, child: &Option<NodeId>) -> Field<'a>
    ensures { field_view result ≡ field_of_optional_child category child.now }
{
    let children = Children::Optional(*child);
    Field { category, children }
}

pub(crate) fn many<'a>(category: Category, children: &'a Vec<NodeId>) -> Field<'a>
    ensures { field_view result ≡ field_of_children category children.now.items }
{
    let children = Children::Many(children.as_slice());
    Field { category, children }
}

/// Pads a list of fields with `None` to five entries.
macro_rules! slots {
    () => {
        [None, None, None, None, None]
    };
    ($a:expr) => {
        [Some($a), None, None, None, None]
    };
    ($a:expr, $b:expr) => {
        [Some($a), Some($b), None, None, None]
    };
    ($a:expr, $b:expr, $c:expr) => {
        [Some($a), Some($b), Some($c), None, None]
    };
    ($a:expr, $b:expr, $c:expr, $d:expr) => {
        [Some($a), Some($b), Some($c), Some($d), None]
    };
    ($a:expr, $b:expr, $c:expr, $d:expr, $e:expr) => {
        [Some($a), Some($b), Some($c), Some($d), Some($e)]
    };
}

pub(crate) use slots;
