//! A symbol of a module.

ghost use Rattle.std.specs.Prelude.{◌≡◌, [], None, IfOk, string_bytes, map};
ghost use Rattle.std.specs.Cow.{cow_str_bytes};
ghost use Rattle.std.specs.Option.{option_copied, option_map};
ghost use Rattle.std.specs.Map.{lookup};
ghost use Rattle.std.specs.List.{list_any};
ghost use Rattle.std.specs.Str.{bytes_eq};
ghost use Rattle.symbols_nodes.specs.NodeTests.{is_function_exported_or_not, is_module};
ghost use Rattle.symbols_nodes.specs.NodeMembers.{is_decl, is_member_or_expando_node, is_private_member};
ghost use Rattle.symbols_nodes.specs.NodeViews.{symbol_node_view};
ghost use Rattle.symbols_table.specs.DeclViews.{decl_view, file_dep_view, first_file_dep};
ghost use Rattle.symbols_table.specs.DeclViews.{decl_node_satisfies};

use crate::decl::child_ids::ChildIds;
use crate::decl::dep::FileDep;
use crate::decl::exports::Exports;
use crate::decl::symbol_decl::SymbolDecl;
use crate::decl::tables::Tables;
use smallvec::SmallVec;
use std::alloc::{AllocError, Global};
use std::borrow::CowStr;
use symbols_ast::ids::{ModuleId, SymbolId, UniqueSymbolId};
use symbols_nodes::nodes::SymbolNodeRef;

/// A symbol of a module: its declarations, exports, children and members.
#[derive(Drop)]
pub struct Symbol<'a> {
    pub(crate) alloc: Global,
    pub(crate) module_id: ModuleId,
    pub(crate) symbol_id: SymbolId,
    pub(crate) parent_id: Option<SymbolId>,
    pub(crate) decls: SmallVec<SymbolDecl<'a>, 1>,
    pub(crate) tables: Tables,
    pub(crate) has_function_decl: bool,
    ghost functions: { has_function_decl
        ≡ list_any (decl_node_satisfies is_function_exported_or_not) (map decl_view decls.items) },
}

/// Returns the other module's name of the first declaration that refers to one, if any.
fn first_file_dep<'a>(decls: &[SymbolDecl<'a>]) -> Option<FileDep<'a>>
    ensures { option_map file_dep_view result ≡ first_file_dep (map decl_view decls.now) }
{
    for decl in decls {
        if let Some(dep) = decl.file_dep() {
            return Some(dep);
        }
    }
    None
}

impl<'a> Symbol<'a> {
    ghost use Rattle.symbols_table.specs.SymbolViews.{symbol_view, node_of_first_decl, symbol_name};
    ghost use Rattle.symbols_table.specs.SymbolViews.{first_decl_node_satisfies};
    ghost use Rattle.symbols_table.specs.Symbols.{symbol_local_id, symbol_module_id};
    ghost use Rattle.symbols_table.specs.Symbols.{symbol_unique_id, symbol_parent};
    ghost use Rattle.symbols_table.specs.Symbols.{symbol_parent_unique_id, symbol_decls};
    ghost use Rattle.symbols_table.specs.Symbols.{symbol_export_entries, symbol_children};
    ghost use Rattle.symbols_table.specs.Symbols.{symbol_members};

    /// Returns a symbol without declarations, exports, children and members.
    pub fn new(
        alloc: Global,
        module_id: ModuleId,
        symbol_id: SymbolId,
        parent_id: Option<SymbolId>,
    ) -> Symbol<'a>
        ensures number { symbol_local_id result ≡ symbol_id }
        ensures of_module { symbol_module_id result ≡ module_id }
        ensures parent { symbol_parent result ≡ parent_id }
        ensures decls { symbol_decls result ≡ [] }
        ensures exports { symbol_export_entries result ≡ [] }
        ensures children { symbol_children result ≡ [] }
        ensures members { symbol_members result ≡ [] }
    {
        Symbol {
            alloc,
            module_id,
            symbol_id,
            parent_id,
            decls: SmallVec::new(alloc),
            tables: Tables::new(),
            has_function_decl: false,
        }
    }

    /// Returns the symbol's id across all modules: its module's number and its own.
    pub fn unique_id(&self) -> UniqueSymbolId
        ensures { result ≡ symbol_unique_id self.now }
    {
        UniqueSymbolId::new(self.module_id, self.symbol_id)
    }

    /// Returns the number of the module that has the symbol.
    pub fn module_id(&self) -> ModuleId
        ensures { result ≡ symbol_module_id self.now }
    {
        self.module_id
    }

    /// Returns the symbol's number within its module.
    pub fn symbol_id(&self) -> SymbolId
        ensures { result ≡ symbol_local_id self.now }
    {
        self.symbol_id
    }

    /// Returns the number of the symbol in which this one is declared. Only symbol 0 has none.
    pub fn parent_id(&self) -> Option<SymbolId>
        ensures { result ≡ symbol_parent self.now }
    {
        self.parent_id
    }

    /// Returns the id across all modules of the symbol in which this one is declared. Both are in
    /// the same module.
    pub fn parent_unique_id(&self) -> Option<UniqueSymbolId>
        ensures { result ≡ symbol_parent_unique_id self.now }
    {
        match self.parent_id {
            Some(parent_id) => Some(UniqueSymbolId::new(self.module_id, parent_id)),
            None => None,
        }
    }

    /// Returns the name of the symbol's first declaration (as deno_graph). It is `None` if the
    /// symbol has no declaration or that declaration has no name.
    ///
    /// # Errors
    ///
    /// The allocation failed. The contract does not say which names need an allocation.
    pub fn maybe_name(&self) -> Result<Option<CowStr<'a>>, AllocError>
        ensures { IfOk result
            (λ name. option_map cow_str_bytes name ≡ symbol_name (symbol_view self.now)) }
    {
        match self.decls.first() {
            Some(decl) => decl.maybe_name(self.alloc),
            None => Ok(None),
        }
    }

    /// Returns the symbol's declarations, in order.
    pub fn decls(&self) -> &[SymbolDecl<'a>]
        ensures { map decl_view result.now ≡ symbol_decls self.now }
    {
        self.decls.as_slice()
    }

    /// Returns the exported names with their symbols. A name exported twice has the position of its
    /// first export and the symbol of its last.
    pub fn exports(&self) -> Exports<'_>
        ensures { result ≡ symbol_export_entries self.now }
    {
        self.tables.exports()
    }

    /// Returns the symbol that this one exports under a name, if any.
    pub fn export(&self, name: &str) -> Option<SymbolId>
        ensures { result ≡ lookup (λ key. bytes_eq name.now key) (symbol_export_entries self.now) }
    {
        self.tables.export(name)
    }

    /// Returns the symbols that are declared in this symbol's body, each once, in order of first
    /// insertion.
    pub fn child_ids(&self) -> ChildIds<'_>
        ensures { result ≡ symbol_children self.now }
    {
        self.tables.child_ids()
    }

    /// Returns the instance members of a class, or the members of an interface, each once.
    pub fn members(&self) -> &[SymbolId]
        ensures { result.now ≡ symbol_members self.now }
    {
        self.tables.members()
    }

    /// Returns the other module's name that the symbol refers to (as deno_graph). It is that of the
    /// first declaration of kind `FileRef`; `None` if there is no such declaration.
    pub fn file_dep(&self) -> Option<FileDep<'a>>
        ensures { option_map file_dep_view result ≡ first_file_dep (symbol_decls self.now) }
    {
        first_file_dep(self.decls.as_slice())
    }

    /// Returns the node of the first declaration, if that declaration has a node.
    pub(crate) fn node_of_first_decl(&self) -> Option<SymbolNodeRef<'a>>
        ensures { option_map symbol_node_view result ≡ node_of_first_decl (symbol_view self.now) }
    {
        self.decls.first()?.maybe_node()
    }

    /// Returns whether the symbol's first declaration is the module (as deno_graph); false without
    /// a node.
    pub fn is_module(&self) -> bool
        ensures { result ≡ first_decl_node_satisfies is_module (symbol_view self.now) }
    {
        match self.node_of_first_decl() {
            Some(node) => node.is_module(),
            None => false,
        }
    }

    /// Returns whether the symbol's first declaration is neither the module nor a member (as
    /// deno_graph); false without a node.
    pub fn is_decl(&self) -> bool
        ensures { result ≡ first_decl_node_satisfies is_decl (symbol_view self.now) }
    {
        match self.node_of_first_decl() {
            Some(node) => node.is_decl(),
            None => false,
        }
    }

    /// Returns whether the symbol's first declaration is a member (as deno_graph); false without a
    /// node.
    pub fn is_member(&self) -> bool
        ensures { result ≡ first_decl_node_satisfies is_member_or_expando_node
            (symbol_view self.now) }
    {
        match self.node_of_first_decl() {
            Some(node) => node.is_member(),
            None => false,
        }
    }

    /// Returns whether the symbol's first declaration is a private member (as deno_graph); false
    /// without a node.
    pub fn is_private_member(&self) -> bool
        ensures { result ≡ first_decl_node_satisfies is_private_member (symbol_view self.now) }
    {
        match self.node_of_first_decl() {
            Some(node) => node.is_private_member(),
            None => false,
        }
    }
}
