//! A reference to a node of a tree.

ghost use Rattle.std.specs.Prelude.{◌≡◌, ◌<◌, length, Some};
ghost use Rattle.std.specs.Option.{option_map, option_copied, option_and_then};
ghost use Rattle.symbols_ast.specs.Ids.{ident_id};

use crate::tree::arena::{Id, NodeId, SourceRange, Tree};
use crate::tree::kinds::{Expr, Kind, Pat};

/// A reference to a node: the tree and the node's number.
#[derive(Clone, Copy)]
pub struct NodeRef<'a> {
    pub tree: &'a Tree,
    pub number: u32,
    pub ghost inside: { number < length tree.now.nodes.items },
}

impl<'a> NodeRef<'a> {
    ghost use Rattle.symbols_ast.specs.NodeRefs.{node_view, node_in, kind_of, range_of};

    /// Returns the node of a tree by its number. It is `None` if the tree has no such node.
    pub fn new(tree: &'a Tree, id: NodeId) -> Option<NodeRef<'a>>
        ensures { option_map node_view result ≡ node_in tree.now (Some id) }
    {
        if id.index() < tree.nodes.len() {
            Some(NodeRef { tree, number: id.0 })
        } else {
            None
        }
    }

    /// Returns the node of an optional number; `None` without a number or if the tree has no such
    /// node.
    pub(crate) fn node_in(tree: &'a Tree, id: Option<NodeId>) -> Option<NodeRef<'a>>
        ensures { option_map node_view result ≡ node_in tree.now id }
    {
        match id {
            Some(id) => NodeRef::new(tree, id),
            None => None,
        }
    }

    /// Returns the node's number.
    pub fn node_id(self) -> NodeId
        ensures { result ≡ self.entry.number }
    {
        NodeId(self.number)
    }

    /// Returns the node's kind, with its fields.
    pub fn kind(self) -> &'a Kind
        ensures { kind_of (node_view self.entry) ≡ Some result.now }
    {
        &self.tree.nodes[self.number as usize].kind
    }

    /// Returns the node's range in the source text.
    pub fn range(self) -> SourceRange
        ensures { range_of (node_view self.entry) ≡ Some result }
    {
        self.tree.nodes[self.number as usize].range
    }

    /// Returns another node of the same tree by its number. It is `None` if the tree has no such
    /// node.
    pub fn node(self, id: NodeId) -> Option<NodeRef<'a>>
        ensures { option_map node_view result ≡ node_in self.entry.tree.now (Some id) }
    {
        NodeRef::new(self.tree, id)
    }

    /// Returns the identifier that an `Ident` or a `BindingIdent` is; `None` for any other kind.
    pub fn sym(self) -> Option<&'a Id>
        ensures { option_copied result ≡ option_and_then ident_id (kind_of (node_view self.entry)) }
    {
        let NodeRef { tree, number } = self;
        match &tree.nodes[number as usize].kind {
            Kind::Expr(Expr::Ident { sym }) | Kind::Pat(Pat::BindingIdent { sym, .. }) => Some(sym),
            _ => None,
        }
    }
}
