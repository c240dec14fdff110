//! The node arena of a tree, with identifiers and source ranges.

ghost use Rattle.std.specs.Prelude.{◌≡◌, decimal, true, Some};
ghost use Rattle.std.specs.Bool.{Decides};
ghost use Rattle.symbols_ast.specs.Ids.{id_view};

use crate::tree::kinds::Kind;
use std::fmt;
use std::marker::Model;

/// The number of a node, which is its index in the tree's list of nodes.
#[derive(Clone, Copy, Debug, PartialEq, Eq, Hash)]
pub struct NodeId(pub u32);

impl Model for NodeId {
    ghost use Rattle.std.specs.Prelude.{ℕ};

    ghost Value = { ℕ };

    ghost view = { λ n. n.0 };

    ghost inverse = { λ n. record { 0 = n } };
}

impl NodeId {
    /// Returns the index in the tree's list of nodes.
    pub fn index(self) -> usize
        ensures { result ≡ self }
    {
        self.0 as usize
    }
}

impl fmt::Display for NodeId {
    ghost output = { λ id. Some (decimal id) };

    fn fmt<W: fmt::Write>(&self, f: &mut fmt::Formatter<W>) -> fmt::Result {
        let number = self.0;
        write!(f, "{number}")
    }
}

/// An identifier: a name with the number of its scope. Two identifiers are the same variable if and
/// only if both parts are equal.
#[derive(Clone, Debug, Drop, PartialEq, Eq, Hash)]
pub struct Id {
    pub name: String,
    pub scope: u32,
}

impl Id {
    /// Returns whether both are the same variable: name and scope are equal (extension). It agrees
    /// with `==`, and is true of a clone.
    pub fn is_same(&self, other: &Id) -> bool
        ensures same { Decides result (id_view self.now ≡ id_view other.now) }
        ensures equal { result ≡ ⟦<Id as PartialEq>⟧.eq self.now other.now }
        ensures cloned { ⟦<Id as Clone>⟧.is_clone self.now other.now → result ≡ true }
    {
        self == other
    }
}

/// A range of bytes of the module's text, from `start` up to but not including `end`.
#[derive(Clone, Copy, Debug, PartialEq, Eq, Hash)]
pub struct SourceRange {
    pub start: usize,
    pub end: usize,
}

/// A node: its kind with its fields, and its range in the source text.
#[derive(Drop)]
pub struct Node {
    pub kind: Kind,
    pub range: SourceRange,
}

/// A syntax tree. Node 0 is the program. A child has a greater number than its parent.
#[derive(Drop)]
pub struct Tree {
    /// Whether the tree is of a declaration file, where everything is ambient.
    pub declaration: bool,
    pub nodes: Vec<Node>,
}
