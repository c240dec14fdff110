//! Builds the parts of trees.

use std::alloc::{AllocError, Global};
use symbols_graph::tree::{Decl, Id, Kind, Node, NodeId, Pat, SourceRange, Tree};
use symbols_graph::{RawModule, RawModuleKind};

/// Adds a node with the empty range.
pub fn push(nodes: &mut Vec<Node>, kind: Kind) -> Result<(), AllocError> {
    let range = SourceRange { start: 0, end: 0 };
    nodes.push(Node { kind, range })?;
    Ok(())
}

/// Returns a list of nodes with these numbers.
pub fn list(alloc: Global, numbers: &[u32]) -> Result<Vec<NodeId>, AllocError> {
    let mut list = Vec::new(alloc);
    for number in numbers {
        list.push(NodeId(*number))?;
    }
    Ok(list)
}

/// Returns a name with its scope.
pub fn id(alloc: Global, name: &str, scope: u32) -> Result<Id, AllocError> {
    let name = String::from_str(alloc, name)?;
    Ok(Id { name, scope })
}

/// Adds a declarator, and after it the name that it declares. The node of the name has this number.
pub fn push_declarator(nodes: &mut Vec<Node>, name: NodeId, sym: Id) -> Result<(), AllocError> {
    push(nodes, Kind::Decl(Decl::VarDeclarator { name, init: None }))?;
    let ident = Pat::BindingIdent {
        sym,
        type_ann: None,
    };
    push(nodes, Kind::Pat(ident))
}

/// Returns a module with the tree and no text.
pub fn module_with_tree(alloc: Global, specifier: String, tree: Tree) -> RawModule {
    RawModule {
        specifier,
        kind: RawModuleKind::Esm {
            text: String::new(alloc),
            tree: Some(tree),
            types: None,
        },
    }
}
