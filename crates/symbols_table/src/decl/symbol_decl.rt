//! A declaration of a symbol.

ghost use Rattle.std.specs.Prelude.{◌≡◌, map, IfOk, None};
ghost use Rattle.std.specs.Cow.{cow_str_bytes};
ghost use Rattle.std.specs.Option.{option_copied, option_map};
ghost use Rattle.symbols_nodes.specs.NodeViews.{symbol_node_view};
ghost use Rattle.symbols_nodes.specs.NodeTests.{is_class_exported_or_not, is_function_exported_or_not};
ghost use Rattle.symbols_nodes.specs.NodeTests.{is_interface_exported_or_not, is_var_exported_or_not, is_ctor};
ghost use Rattle.symbols_nodes.specs.NodeTests.{has_body, is_method};
ghost use Rattle.symbols_table.specs.DeclViews.{decl_view, decl_kind_view, decl_name, declaration_of_kind};
ghost use Rattle.symbols_table.specs.DeclViews.{definition_of_node, definition, value_type_namespaces_of_decl};
ghost use Rattle.symbols_table.specs.DeclViews.{file_dep_view, is_definition, decl_kind_node, decl_kind_tree};
ghost use Rattle.symbols_table.specs.DeclViews.{decl_kind_dep, decl_node_satisfies, last_decl};
ghost use Rattle.symbols_table.specs.DeclViews.{gets_overload_flag_after_decl};

use crate::decl::dep::FileDep;
use std::alloc::{AllocError, Global};
use std::borrow::CowStr;
use std::default::MadeWith;
use symbols_ast::tree::{Id, SourceRange, Tree};
use symbols_nodes::nodes::{SymbolNode, SymbolNodeRef};

/// The kind of a declaration (as deno_graph).
#[derive(Drop)]
pub enum SymbolDeclKind<'a> {
    /// An alias of another name in the same module.
    Target(&'a Id),
    /// A dotted name in the same module: its first name and the parts after it, as in `import A =
    /// B.C`.
    QualifiedTarget(&'a Id, Vec<&'a str>),
    /// A name imported or re-exported from another module.
    FileRef(FileDep<'a>),
    /// A definition with its syntax node.
    Definition(SymbolNode<'a>),
}

impl<'a> SymbolDeclKind<'a> {
    /// Returns whether the kind is `Definition` (as deno_graph).
    pub fn is_definition(&self) -> bool
        ensures { result ≡ is_definition (decl_kind_view self.now) }
    {
        matches!(self, SymbolDeclKind::Definition(_))
    }

    /// Returns the node of a definition and the node's syntax tree (as deno_graph). It is `None`
    /// for other kinds and for a definition without a node.
    pub fn maybe_node_and_source(&self) -> Option<(SymbolNodeRef<'a>, &'a Tree)>
        ensures node { option_map (λ both. symbol_node_view both.0) result
            ≡ decl_kind_node (decl_kind_view self.now) }
        ensures source { option_map (λ both. both.1.now) result
            ≡ decl_kind_tree (decl_kind_view self.now) }
    {
        match self {
            SymbolDeclKind::Definition(node) => node.maybe_ref_and_source(),
            _ => None,
        }
    }
}

/// The flags of a declaration (as deno_graph).
#[derive(Clone, Copy, Debug, Default, PartialEq, Eq)]
pub struct SymbolDeclFlags {
    has_overloads: bool,
}

impl SymbolDeclFlags {
    /// Returns the overload flag. `SymbolDecl::has_overloads` says when it is set.
    pub fn has_overloads(&self) -> bool
        ensures { result ≡ self.now.has_overloads }
    {
        self.has_overloads
    }
}

/// A declaration: its kind, and its range in the source text.
#[derive(Drop)]
pub struct SymbolDecl<'a> {
    pub kind: SymbolDeclKind<'a>,
    pub range: SourceRange,
    pub(crate) flags: SymbolDeclFlags,
}

impl<'a> MadeWith<Global> for SymbolDecl<'a> {
    fn made_with(_alloc: Global) -> SymbolDecl<'a> {
        SymbolDecl::without_node(SourceRange { start: 0, end: 0 })
    }
}

impl<'a> SymbolDecl<'a> {
    /// Returns a declaration of this kind and range, with the overload flag cleared.
    pub(crate) fn new(kind: SymbolDeclKind<'a>, range: SourceRange) -> SymbolDecl<'a>
        ensures { decl_view result ≡ declaration_of_kind (decl_kind_view kind.entry) range }
    {
        SymbolDecl {
            kind,
            range,
            flags: SymbolDeclFlags {
                has_overloads: false,
            },
        }
    }

    /// Returns a definition by its node, with the overload flag cleared.
    pub(crate) fn definition(node: SymbolNodeRef<'a>, range: SourceRange) -> SymbolDecl<'a>
        ensures { decl_view result ≡ definition_of_node (symbol_node_view node.entry) range }
    {
        let node = SymbolNode { node: Some(node) };
        SymbolDecl::new(SymbolDeclKind::Definition(node), range)
    }

    /// Returns a definition without a node, as in a JSON module.
    pub(crate) fn without_node(range: SourceRange) -> SymbolDecl<'a>
        ensures { decl_view result ≡ declaration_of_kind (definition None) range }
    {
        SymbolDecl::new(SymbolDeclKind::Definition(SymbolNode { node: None }), range)
    }

    /// Returns the name of the declaration's node (as deno_graph). It is `None` without a node, or
    /// if the node has no name.
    ///
    /// # Errors
    ///
    /// The allocation failed. The contract does not say which names need an allocation.
    pub fn maybe_name(&self, alloc: Global) -> Result<Option<CowStr<'a>>, AllocError>
        ensures { IfOk result
            (λ name. option_map cow_str_bytes name ≡ decl_name (decl_view self.now)) }
    {
        match self.maybe_node() {
            Some(node) => node.maybe_name(alloc),
            None => Ok(None),
        }
    }

    /// Returns the node of a definition (as deno_graph). It is `None` for other kinds and for a
    /// definition without a node.
    pub fn maybe_node(&self) -> Option<SymbolNodeRef<'a>>
        ensures { option_map symbol_node_view result ≡ decl_kind_node (decl_view self.now).kind }
    {
        match &self.kind {
            SymbolDeclKind::Definition(node) => node.maybe_ref(),
            _ => None,
        }
    }

    /// Returns the syntax tree of the declaration's node (as deno_graph); `None` without a node.
    pub fn maybe_source(&self) -> Option<&'a Tree>
        ensures { option_copied result ≡ decl_kind_tree (decl_view self.now).kind }
    {
        match self.maybe_node() {
            Some(node) => Some(node.source()),
            None => None,
        }
    }

    /// Returns the node of a definition and the node's syntax tree (as deno_graph). It is `None`
    /// for other kinds and for a definition without a node.
    pub fn maybe_node_and_source(&self) -> Option<(SymbolNodeRef<'a>, &'a Tree)>
        ensures node { option_map (λ both. symbol_node_view both.0) result
            ≡ decl_kind_node (decl_view self.now).kind }
        ensures source { option_map (λ both. both.1.now) result
            ≡ decl_kind_tree (decl_view self.now).kind }
    {
        self.kind.maybe_node_and_source()
    }

    /// Returns the name of another module that the declaration refers to; `None` if it is no
    /// `FileRef`.
    pub(crate) fn file_dep(&self) -> Option<FileDep<'a>>
        ensures { option_map file_dep_view result ≡ decl_kind_dep (decl_view self.now).kind }
    {
        match &self.kind {
            SymbolDeclKind::FileRef(dep) => Some(*dep),
            _ => None,
        }
    }

    /// Returns whether the declaration is in the value namespace, and whether in the type
    /// namespace. A declaration without a node is in both (as deno_graph).
    pub fn namespaces(&self) -> (bool, bool)
        ensures { result ≡ value_type_namespaces_of_decl (decl_view self.now) }
    {
        match self.maybe_node() {
            Some(node) => node.namespaces(),
            None => (true, true),
        }
    }

    /// Returns whether the declaration is a class (as deno_graph); false without a node.
    pub fn is_class(&self) -> bool
        ensures { result ≡ decl_node_satisfies is_class_exported_or_not (decl_view self.now) }
    {
        match self.maybe_node() {
            Some(node) => node.is_class(),
            None => false,
        }
    }

    /// Returns whether the declaration is a variable (as deno_graph). It is false for a variable of
    /// `using`, and without a node.
    pub fn is_var(&self) -> bool
        ensures { result ≡ decl_node_satisfies is_var_exported_or_not (decl_view self.now) }
    {
        match self.maybe_node() {
            Some(node) => node.is_var(),
            None => false,
        }
    }

    /// Returns whether the declaration is a constructor (as deno_graph); false without a node.
    pub fn is_ctor(&self) -> bool
        ensures { result ≡ decl_node_satisfies is_ctor (decl_view self.now) }
    {
        match self.maybe_node() {
            Some(node) => node.is_ctor(),
            None => false,
        }
    }

    /// Returns whether the declaration is an interface (as deno_graph); false without a node.
    pub fn is_interface(&self) -> bool
        ensures { result ≡ decl_node_satisfies is_interface_exported_or_not (decl_view self.now) }
    {
        match self.maybe_node() {
            Some(node) => node.is_interface(),
            None => false,
        }
    }

    /// Returns whether the declaration is a function (as deno_graph); false without a node.
    pub fn is_function(&self) -> bool
        ensures { result ≡ decl_node_satisfies is_function_exported_or_not (decl_view self.now) }
    {
        match self.maybe_node() {
            Some(node) => node.is_function(),
            None => false,
        }
    }

    /// Returns whether the declaration has a body (as deno_graph); false without a node.
    pub fn has_body(&self) -> bool
        ensures { result ≡ decl_node_satisfies has_body (decl_view self.now) }
    {
        match self.maybe_node() {
            Some(node) => node.has_body(),
            None => false,
        }
    }

    /// Returns whether the declaration is a constructor, or a method other than a getter or setter;
    /// false without a node.
    pub(crate) fn is_method(&self) -> bool
        ensures { result ≡ decl_node_satisfies is_method (decl_view self.now) }
    {
        match self.maybe_node() {
            Some(node) => node.is_method(),
            None => false,
        }
    }

    /// Returns whether the declaration has the overload flag (as deno_graph). It has the flag if it
    /// has a body, its symbol had a declaration before it, and it is one of these: a function right
    /// after a function; a method that is no getter or setter; a constructor.
    pub fn has_overloads(&self) -> bool
        ensures { result ≡ (decl_view self.now).has_overloads }
    {
        self.flags.has_overloads()
    }

    /// Returns whether the declaration gets the overload flag after these declarations of its
    /// symbol.
    pub(crate) fn is_overload_after_decl(&self, before: &[SymbolDecl<'a>]) -> bool
        ensures { result ≡ gets_overload_flag_after_decl
            (last_decl (map decl_view before.now)) (decl_view self.now) }
    {
        match before.last() {
            None => false,
            Some(last) => {
                self.has_body()
                    && if self.is_function() {
                        last.is_function()
                    } else {
                        self.is_method()
                    }
            }
        }
    }

    /// Returns this declaration with the overload flag set or cleared.
    pub(crate) fn with_overloads(self, has_overloads: bool) -> SymbolDecl<'a>
        ensures { decl_view result
            ≡ record (decl_view self.entry) { has_overloads = has_overloads } }
    {
        SymbolDecl {
            kind: self.kind,
            range: self.range,
            flags: SymbolDeclFlags { has_overloads },
        }
    }
}
