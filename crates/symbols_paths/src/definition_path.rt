//! Definition paths, as trees.

ghost use Rattle.std.specs.Prelude.{◌≡◌, IfSome};
ghost use Rattle.symbols_paths.specs.declared.definition_path.DefinitionPathNode.TheVariants as node;
ghost use Rattle.symbols_paths.specs.declared.definition_path.DefinitionPathNodeResolved.TheVariants as resolved;
ghost use Rattle.symbols_paths.specs.Views.{module_of_node, symbol_of_node, module_of_resolved};
ghost use Rattle.symbols_paths.specs.Views.{symbol_of_resolved, node_of_opened};

use crate::definition::{DeclRef, Definition};
use crate::definition_unresolved::DefinitionUnresolved;
use std::mem;
use symbols_graph::ids::{ModuleId, SymbolId};

/// A link of a definition path: a declaration, and the paths from what it refers to (as
/// deno_graph). An `export *` is not a link. A path goes from an import straight to the exported
/// symbol, whatever `export *` statements are between them.
#[cycle(nodes)]
#[derive(Drop)]
pub struct DefinitionPathLink<'a> {
    /// The module of the declaration.
    pub module: ModuleId,
    /// The symbol that the declaration is another name of, if that is one of the same module; else
    /// the declaration's own symbol.
    pub symbol: SymbolId,
    /// The declaration that refers to what is next.
    pub symbol_decl: DeclRef,
    /// The parts that remain to be resolved here, as `b` and `c` of `a.b.c`.
    pub parts: Vec<String>,
    /// The paths after this link, never empty.
    pub next: Vec<DefinitionPathNode<'a>>,
}

/// A resolved node of a path: a link, or the definition at its end (as deno_graph).
#[cycle(nodes)]
#[derive(Drop)]
pub enum DefinitionPathNodeResolved<'a> {
    Link(DefinitionPathLink<'a>),
    Definition(Definition<'a>),
}

/// A definition path: a tree whose leaves are definitions and unresolved ends (as deno_graph). A
/// link with several next nodes has a branch for each.
#[cycle(nodes)]
pub enum DefinitionPathNode<'a> {
    Resolved(DefinitionPathNodeResolved<'a>),
    Unresolved(DefinitionUnresolved),
}

/// A node of a path, taken apart (extension). A node itself can't be matched by value, since it has
/// its own `Drop`.
#[derive(Drop)]
pub enum OpenedPathNode<'a> {
    Link(DefinitionPathLink<'a>),
    Definition(Definition<'a>),
    Unresolved(DefinitionUnresolved),
}

/// Drops the nodes one after another, so that the stack doesn't bound the depth, and allocates
/// nothing. The nodes that are still to be dropped are in `work`. Where the node at hand has next
/// nodes, these become `work`, and a link above the others takes the place of the first of them.
impl Drop for DefinitionPathNode<'_> {
    fn drop(mut self) {
        let Some(link) = self.into_link() else {
            return;
        };
        let mut work = link.next;
        let Some(first) = work.pop() else {
            work.destroy_empty();
            return;
        };
        self = first;
        loop {
            if let Some(link) = self.into_link() {
                let DefinitionPathLink {
                    module,
                    symbol,
                    symbol_decl,
                    parts,
                    mut next,
                } = link;
                if next.is_empty() {
                    next.destroy_empty();
                } else if work.is_empty() {
                    work.destroy_empty();
                    work = next;
                } else {
                    let link = DefinitionPathLink {
                        module,
                        symbol,
                        symbol_decl,
                        parts,
                        next: work,
                    };
                    self = mem::replace(
                        &mut next[0],
                        DefinitionPathNode::Resolved(DefinitionPathNodeResolved::Link(link)),
                    );
                    work = next;
                    continue;
                }
            }
            let Some(node) = work.pop() else {
                work.destroy_empty();
                return;
            };
            self = node;
        }
    }
}

impl<'a> DefinitionPathNodeResolved<'a> {
    /// Returns the module of this node (as deno_graph).
    pub fn module(&self) -> ModuleId
        ensures { result ≡ module_of_resolved self.now }
    {
        match self {
            DefinitionPathNodeResolved::Link(link) => link.module,
            DefinitionPathNodeResolved::Definition(definition) => definition.module,
        }
    }

    /// Returns the symbol of this node (as deno_graph). It is never `None`.
    pub fn symbol(&self) -> Option<SymbolId>
        ensures { result ≡ symbol_of_resolved self.now }
    {
        match self {
            DefinitionPathNodeResolved::Link(link) => Some(link.symbol),
            DefinitionPathNodeResolved::Definition(definition) => Some(definition.symbol),
        }
    }
}

impl<'a> DefinitionPathNode<'a> {
    /// Returns the link that this node is; any other node is dropped.
    fn into_link(self) -> Option<DefinitionPathLink<'a>>
        ensures { IfSome result (λ link. self.entry ≡ node.Resolved (resolved.Link link)) }
    {
        match self {
            DefinitionPathNode::Resolved(DefinitionPathNodeResolved::Link(link)) => Some(link),
            DefinitionPathNode::Resolved(DefinitionPathNodeResolved::Definition(_)) => None,
            DefinitionPathNode::Unresolved(_) => None,
        }
    }

    /// Takes this node apart (extension).
    pub fn into_opened(self) -> OpenedPathNode<'a>
        ensures { self.entry ≡ node_of_opened result }
    {
        match self {
            DefinitionPathNode::Resolved(DefinitionPathNodeResolved::Link(link)) => {
                OpenedPathNode::Link(link)
            }
            DefinitionPathNode::Resolved(DefinitionPathNodeResolved::Definition(definition)) => {
                OpenedPathNode::Definition(definition)
            }
            DefinitionPathNode::Unresolved(unresolved) => OpenedPathNode::Unresolved(unresolved),
        }
    }

    /// Returns the module of this node (as deno_graph).
    pub fn module(&self) -> ModuleId
        ensures { result ≡ module_of_node self.now }
    {
        match self {
            DefinitionPathNode::Resolved(resolved) => resolved.module(),
            DefinitionPathNode::Unresolved(unresolved) => unresolved.module,
        }
    }

    /// Returns the symbol of this node, or `None` if the node is unresolved (extension).
    pub fn symbol(&self) -> Option<SymbolId>
        ensures { result ≡ symbol_of_node self.now }
    {
        match self {
            DefinitionPathNode::Resolved(resolved) => resolved.symbol(),
            DefinitionPathNode::Unresolved(_) => None,
        }
    }
}
