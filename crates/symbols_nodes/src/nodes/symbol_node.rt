//! The syntax node of a definition, if it has one.

ghost use Rattle.std.specs.Prelude.{◌≡◌, IfOk, Some, slice_get};
ghost use Rattle.std.specs.Cow.{cow_str_bytes};
ghost use Rattle.std.specs.Option.{option_map, option_and_then};
ghost use Rattle.symbols_ast.specs.NodeRefs.{node_view};
ghost use Rattle.symbols_nodes.specs.NodeNames.{node_name};
ghost use Rattle.symbols_nodes.specs.NodeViews.{symbol_node_view, decl_nodes, tree_of_node};

use crate::nodes::refs::SymbolNodeRef;
use std::alloc::{AllocError, Global};
use std::borrow::CowStr;
use symbols_ast::tree::{NodeRef, Tree};

/// Returns the first of the nodes that a declaration consists of.
fn first_node<'a>(node: SymbolNodeRef<'a>) -> NodeRef<'a>
    ensures { Some (node_view result) ≡ slice_get (decl_nodes (symbol_node_view node.entry)) 0 }
{
    match node {
        SymbolNodeRef::Module(node)
        | SymbolNodeRef::ExportDecl(node, _)
        | SymbolNodeRef::ExportDefaultDecl(node)
        | SymbolNodeRef::ExportDefaultExpr(node)
        | SymbolNodeRef::ClassDecl(node)
        | SymbolNodeRef::FnDecl(node)
        | SymbolNodeRef::TsEnum(node)
        | SymbolNodeRef::TsInterface(node)
        | SymbolNodeRef::TsNamespace(node)
        | SymbolNodeRef::TsTypeAlias(node)
        | SymbolNodeRef::Var(node, _, _)
        | SymbolNodeRef::UsingVar(node, _, _)
        | SymbolNodeRef::AutoAccessor(node)
        | SymbolNodeRef::ClassMethod(node)
        | SymbolNodeRef::ClassProp(node)
        | SymbolNodeRef::ClassParamProp(node)
        | SymbolNodeRef::Constructor(node)
        | SymbolNodeRef::TsIndexSignature(node)
        | SymbolNodeRef::TsCallSignatureDecl(node)
        | SymbolNodeRef::TsConstructSignatureDecl(node)
        | SymbolNodeRef::TsPropertySignature(node)
        | SymbolNodeRef::TsGetterSignature(node)
        | SymbolNodeRef::TsSetterSignature(node)
        | SymbolNodeRef::TsMethodSignature(node) => node,
        SymbolNodeRef::ExpandoProperty(expando) => expando.inner(),
    }
}

impl<'a> SymbolNodeRef<'a> {
    /// Returns the syntax tree of the node. The name is upstream's. If the declaration consists of
    /// several nodes, it is the tree of the first.
    pub fn source(self) -> &'a Tree
        ensures { Some result.now ≡ tree_of_node (symbol_node_view self.entry) }
    {
        first_node(self).tree
    }
}

/// The syntax node of a definition, if it has one. The definitions of a JSON module have none.
#[derive(Clone, Copy)]
pub struct SymbolNode<'a> {
    pub node: Option<SymbolNodeRef<'a>>,
}

impl<'a> SymbolNode<'a> {
    /// Returns the name of the definition's node (as deno_graph). It is `None` without a node, or
    /// if the node has no name.
    ///
    /// # Errors
    ///
    /// The allocation failed. The contract does not say which names need an allocation.
    pub fn maybe_name(&self, alloc: Global) -> Result<Option<CowStr<'a>>, AllocError>
        ensures { IfOk result (λ name. option_map cow_str_bytes name
            ≡ option_and_then node_name (option_map symbol_node_view self.now.node)) }
    {
        match self.node {
            Some(node) => node.maybe_name(alloc),
            None => Ok(None),
        }
    }

    /// Returns the node, if the definition has one.
    pub fn maybe_ref(&self) -> Option<SymbolNodeRef<'a>>
        ensures { result ≡ self.now.node }
    {
        self.node
    }

    /// Returns the node and its syntax tree, if the definition has a node (as deno_graph).
    pub fn maybe_ref_and_source(&self) -> Option<(SymbolNodeRef<'a>, &'a Tree)>
        ensures node { option_map (λ both. both.0) result ≡ self.now.node }
        ensures source { option_map (λ both. both.1.now) result
            ≡ option_and_then tree_of_node (option_map symbol_node_view self.now.node) }
    {
        match self.node {
            Some(node) => Some((node, node.source())),
            None => None,
        }
    }
}
