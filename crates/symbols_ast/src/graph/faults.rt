//! The faults for which a tree or a graph is refused.

ghost use Rattle.std.specs.Prelude.{◌≡◌};
ghost use Rattle.symbols_ast.specs.declared.graph.faults.GraphFault.TheVariants.{OutOfMemory};

use crate::tree::NodeId;
use std::alloc::{AllocError, AllocFailed};
use thiserror::Error;

/// The reason why a tree is refused (extension). The first two variants concern the whole tree. The
/// others are tried in their order at each node, from node 0 on. The first fault is returned.
#[derive(Clone, Copy, Debug, PartialEq, Eq, Error)]
pub enum TreeFault {
    /// The tree has no node, or node 0 is no `Program`.
    #[error("no program")]
    NoProgram,
    /// The tree has more than 4,294,967,295 nodes.
    #[error("too many nodes")]
    TooManyNodes,
    /// A child of the node does not exist, or its number isn't greater than the node's.
    #[error("bad child of node {0}")]
    BadChild(NodeId),
    /// A child of the node is also a child of a node before it, or occurs twice in the node.
    #[error("shared child of node {0}")]
    SharedChild(NodeId),
    /// The node's range starts after its end, ends after the text, or splits a character.
    #[error("bad range of node {0}")]
    BadRange(NodeId),
    /// A child has a kind that its field doesn't allow, or the node breaks a rule of its kind.
    #[error("bad shape of node {0}")]
    BadShape(NodeId),
    /// The node has more than 4,095 ancestors.
    #[error("node {0} is too deep")]
    TooDeep(NodeId),
}

/// The reason why a graph is refused (extension). The variants are tried in their order, each over
/// the whole graph, and the first entry at fault is returned. Trees are checked last, in module
/// order.
#[derive(Debug, Drop, PartialEq, Eq, Error)]
pub enum GraphFault {
    /// An allocation failed.
    #[error("out of memory")]
    OutOfMemory,
    /// The graph has more than 4,294,967,295 modules.
    #[error("too many modules")]
    TooManyModules,
    /// An earlier module has the same specifier.
    #[error("duplicate specifier {0}")]
    DuplicateSpecifier(String),
    /// An earlier redirect has the same source.
    #[error("duplicate redirect {0}")]
    DuplicateRedirect(String),
    /// The target of the redirect from this source is itself redirected, perhaps to itself.
    #[error("redirect to redirect {0}")]
    RedirectToRedirect(String),
    /// An earlier resolution has the same referrer and the same specifier text.
    #[error("duplicate resolution {0} {1}")]
    DuplicateResolution(String, String),
    /// The tree of the module with this specifier is refused.
    #[error("tree of {0}: {1}")]
    Tree(String, TreeFault),
}

impl From<AllocError> for GraphFault {
    ghost from_gives = { λ _ e. e ≡ OutOfMemory };

    fn from(_error: AllocError) -> GraphFault {
        GraphFault::OutOfMemory
    }
}

impl<T: Drop> From<AllocFailed<T>> for GraphFault {
    ghost from_gives = { λ _ e. e ≡ OutOfMemory };

    fn from(_error: AllocFailed<T>) -> GraphFault {
        GraphFault::OutOfMemory
    }
}
