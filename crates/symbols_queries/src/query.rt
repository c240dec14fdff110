//! The queries on a module, and their answers.

ghost use Rattle.std.specs.Prelude.{◌≡◌};
ghost use Rattle.symbols_queries.specs.Queries.{query_view};

use crate::decl_deps::DeclDeps;
use crate::exports_by_specifier::ExportsBySpecifier;
use crate::paths_by_specifier::{
    DefinitionBySpecifier, DepEntryBySpecifier, PathBySpecifier, PathEndBySpecifier,
};
use symbols_exports::PublicName;
use symbols_graph::ids::SymbolId;
use symbols_graph::tree::Id;
use symbols_nodes::deps::{ResolveDepsMode, SymbolNodeDep};

/// A query on the module that a specifier resolves to. The specifier comes first and is borrowed
/// (extension).
#[derive(Drop)]
pub enum Query<'r> {
    /// The module itself.
    Module(&'r str),
    /// Its exports, and the `export *` statements of it and of reachable modules that resolve to no
    /// module.
    Exports(&'r str),
    /// Its public names.
    Names(&'r str),
    /// The symbol of a name in it.
    Symbol(&'r str, Id),
    /// The fully qualified name of a symbol of it.
    Name(&'r str, SymbolId),
    /// The dependencies of each declaration of a symbol of it.
    Deps(&'r str, SymbolId, ResolveDepsMode),
    /// The definition paths of a symbol of it.
    Paths(&'r str, SymbolId),
    /// The definitions at the ends of these paths.
    Definitions(&'r str, SymbolId),
    /// All ends of these paths.
    Leaves(&'r str, SymbolId),
    /// The entries that a reference in it resolves to. The query borrows the names of the
    /// reference.
    Resolve(&'r str, SymbolNodeDep<'r>),
}

impl Query<'_> {
    /// Returns the specifier of the queried module.
    pub fn specifier(&self) -> &str
        ensures { result.now ≡ (query_view self.now).specifier }
    {
        match self {
            Query::Module(specifier)
            | Query::Exports(specifier)
            | Query::Names(specifier)
            | Query::Symbol(specifier, _)
            | Query::Name(specifier, _)
            | Query::Deps(specifier, _, _)
            | Query::Paths(specifier, _)
            | Query::Definitions(specifier, _)
            | Query::Leaves(specifier, _)
            | Query::Resolve(specifier, _) => specifier,
        }
    }
}

/// The answer to a query: one variant for each, and one for a specifier that resolves to no module
/// (extension). Modules are named by their own specifiers.
#[derive(Drop)]
pub enum Answer<'a> {
    /// The specifier resolves to no module.
    NoModule,
    /// The module that it resolves to.
    Module(&'a str),
    /// The exports of the module.
    Exports(ExportsBySpecifier<'a>),
    /// The public names of the module.
    Names(Vec<PublicName>),
    /// The symbol of the name in the module, or `None` if it has none.
    Symbol(Option<SymbolId>),
    /// The fully qualified name of the symbol, or `None` if it has none.
    Name(Option<String>),
    /// The dependencies of each declaration of the symbol, in order.
    Deps(Vec<DeclDeps<'a>>),
    /// The definition paths of the symbol.
    Paths(Vec<PathBySpecifier<'a>>),
    /// The definitions at the ends of these paths, from left to right.
    Definitions(Vec<DefinitionBySpecifier<'a>>),
    /// All ends of these paths, from left to right.
    Leaves(Vec<PathEndBySpecifier<'a>>),
    /// The entries that the reference resolves to.
    Resolve(Vec<DepEntryBySpecifier<'a>>),
}
