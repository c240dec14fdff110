//! The queries over the graph, and their answers, which are printed on a line or more each.

use deno_symbols::deps::{ResolveDepsMode, SymbolNodeDep};
use deno_symbols::exports::PublicName;
use deno_symbols::ids::SymbolId;
use deno_symbols::paths::{DeclRef, DefinitionUnresolvedKind};
use deno_symbols::queries::{
    Answer, DeclDeps, DefinitionBySpecifier, DepEntryBySpecifier, ExportBySpecifier,
    ExportsBySpecifier, PathBySpecifier, PathEndBySpecifier, PathLinkBySpecifier, Query,
    QueryInput, UnresolvedBySpecifier,
};
use deno_symbols::tree::Id;
use std::alloc::{AllocError, Global};
use std::borrow::CowStr;
use std::io;

/// Returns the reference `import("./a").z`.
fn reference(alloc: Global) -> Result<SymbolNodeDep<'static>, AllocError> {
    let mut parts = Vec::new(alloc);
    parts.push(CowStr::Borrowed("z"))?;
    Ok(SymbolNodeDep::ImportType("./a", parts))
}

/// The modules of the queries, in their order. The first specifier resolves to no module.
const QUERIED: [&str; 11] = ["absent", "a", "a", "b", "a", "b", "q", "q", "q", "q", "q"];

/// Returns the name `x` of scope 1.
fn name_x(alloc: Global) -> Result<Id, AllocError> {
    Ok(Id {
        name: String::from_str(alloc, "x")?,
        scope: 1,
    })
}

/// Returns the query with this index, on its module. Symbol 1 of `q` is `y`, 2 is `w` and 3 is `v`;
/// symbol 2 of `b` is `y`.
fn query(alloc: Global, index: usize, module: &'static str) -> Result<Query<'static>, AllocError> {
    let first = SymbolId::from_number(1);
    let second = SymbolId::from_number(2);
    let third = SymbolId::from_number(3);
    Ok(match index {
        2 => Query::Symbol(module, name_x(alloc)?),
        3 => Query::Name(module, second),
        4 => Query::Exports(module),
        5 => Query::Names(module),
        6 => Query::Deps(module, third, ResolveDepsMode::TypesAndExpressions),
        7 => Query::Paths(module, first),
        8 => Query::Definitions(module, first),
        9 => Query::Leaves(module, second),
        10 => Query::Resolve(module, reference(alloc)?),
        _ => Query::Module(module),
    })
}

/// Returns a query of each form, and one on a module that doesn't exist.
pub(crate) fn queries(alloc: Global) -> Result<Vec<Query<'static>>, AllocError> {
    let mut queries = Vec::new(alloc);
    for (index, module) in QUERIED.iter().enumerate() {
        queries.push(query(alloc, index, *module)?)?;
    }
    Ok(queries)
}

/// A value that is printed on lines of its own.
pub(crate) trait Lines {
    fn print_lines<R: Print>(&self, rt: &R) -> io::Result<()>;
}

/// Prints a line, and after it the lines of each item.
pub(crate) fn print_each<R: Print, T: Lines>(rt: &R, line: &str, items: &[T]) -> io::Result<()> {
    println!(rt; "{line}")?;
    for item in items {
        item.print_lines(rt)?;
    }
    Ok(())
}

impl Lines for ExportBySpecifier<'_> {
    fn print_lines<R: Print>(&self, rt: &R) -> io::Result<()> {
        let symbol = self.symbol;
        println!(rt;
            "      {} of {}, its symbol {symbol:?}",
            self.name, self.module
        )?;
        for statement in &self.chain {
            println!(rt;
                "        by {} of {}",
                statement.specifier, statement.referrer
            )?;
        }
        Ok(())
    }
}

fn print_exports<R: Print>(rt: &R, named: &ExportsBySpecifier<'_>) -> io::Result<()> {
    print_each(rt, "    exports", &named.exports)?;
    for statement in &named.unresolved {
        println!(rt;
            "      {} of {} leads nowhere",
            statement.specifier, statement.referrer
        )?;
    }
    Ok(())
}

impl Lines for PublicName {
    fn print_lines<R: Print>(&self, rt: &R) -> io::Result<()> {
        println!(rt; "      {} {:?}", self.name, self.member)
    }
}

impl Lines for DeclDeps<'_> {
    fn print_lines<R: Print>(&self, rt: &R) -> io::Result<()> {
        println!(rt; "      one that refers to")?;
        for (reference, namespace) in self {
            println!(rt; "        {reference:?} as {namespace:?}")?;
        }
        Ok(())
    }
}

/// Prints a declaration of a module.
fn print_decl<R: Print>(rt: &R, module: &str, decl: DeclRef) -> io::Result<()> {
    let symbol = decl.symbol;
    let index = decl.index;
    println!(rt; "        declaration {index} of symbol {symbol:?} of {module}")
}

impl Lines for DefinitionBySpecifier<'_> {
    fn print_lines<R: Print>(&self, rt: &R) -> io::Result<()> {
        let start = self.range.start;
        let end = self.range.end;
        println!(rt; "      {:?} at {start}..{end}", self.kind)?;
        print_decl(rt, self.module, self.decl)
    }
}

fn print_unresolved<R: Print>(rt: &R, unresolved: &UnresolvedBySpecifier<'_>) -> io::Result<()> {
    let (keyword, text) = match &unresolved.kind {
        DefinitionUnresolvedKind::Id(id) => ("name", &id.name),
        DefinitionUnresolvedKind::Specifier(text) => ("text", text),
        DefinitionUnresolvedKind::Part(name) => ("part", name),
    };
    println!(rt;
        "      no {keyword} {text} of {}, then {:?}",
        unresolved.module, unresolved.parts
    )
}

impl Lines for PathEndBySpecifier<'_> {
    fn print_lines<R: Print>(&self, rt: &R) -> io::Result<()> {
        match self {
            PathEndBySpecifier::Definition(definition) => definition.print_lines(rt),
            PathEndBySpecifier::Unresolved(unresolved) => print_unresolved(rt, unresolved),
        }
    }
}

fn print_link<R: Print>(rt: &R, link: &PathLinkBySpecifier<'_>) -> io::Result<()> {
    let symbol = link.symbol;
    println!(rt; "      link to symbol {symbol:?}, then {:?}", link.parts)?;
    print_decl(rt, link.module, link.decl)
}

/// Prints the first step of a path.
fn print_step<R: Print>(rt: &R, path: &PathBySpecifier<'_>) -> io::Result<()> {
    match path {
        PathBySpecifier::Link(link) => print_link(rt, link),
        PathBySpecifier::Definition(definition) => definition.print_lines(rt),
        PathBySpecifier::Unresolved(unresolved) => print_unresolved(rt, unresolved),
    }
}

impl Lines for PathBySpecifier<'_> {
    /// Prints the first two steps of a path. No path of these queries has more.
    fn print_lines<R: Print>(&self, rt: &R) -> io::Result<()> {
        print_step(rt, self)?;
        if let PathBySpecifier::Link(link) = self {
            for next in &link.next {
                print_step(rt, next)?;
            }
        }
        Ok(())
    }
}

impl Lines for DepEntryBySpecifier<'_> {
    fn print_lines<R: Print>(&self, rt: &R) -> io::Result<()> {
        match self {
            DepEntryBySpecifier::Path(path) => path.print_lines(rt),
            DepEntryBySpecifier::ImportType(specifier) => println!(rt; "      all of {specifier}"),
        }
    }
}

impl Lines for QueryInput<'_> {
    fn print_lines<R: Print>(&self, rt: &R) -> io::Result<()> {
        let specifier = self.specifier.as_str();
        println!(rt; "      {specifier}: {:?}", self.found)
    }
}

impl Lines for Answer<'_> {
    fn print_lines<R: Print>(&self, rt: &R) -> io::Result<()> {
        match self {
            Answer::NoModule => println!(rt; "    no module"),
            Answer::Module(specifier) => println!(rt; "    module {specifier}"),
            Answer::Exports(named) => print_exports(rt, named),
            Answer::Names(names) => print_each(rt, "    names", names),
            Answer::Symbol(symbol) => println!(rt; "    symbol {symbol:?}"),
            Answer::Name(name) => println!(rt; "    name {name:?}"),
            Answer::Deps(deps) => print_each(rt, "    declarations", deps),
            Answer::Paths(paths) => print_each(rt, "    paths", paths),
            Answer::Definitions(definitions) => print_each(rt, "    definitions", definitions),
            Answer::Leaves(ends) => print_each(rt, "    leaves", ends),
            Answer::Resolve(entries) => print_each(rt, "    entries", entries),
        }
    }
}
