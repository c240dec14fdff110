//! Calls that allocate nothing: views of a graph, of a root and its modules, of chains and of
//! definitions.

use crate::graph::SPECIFIERS;
use crate::tables::print_stored;
use anyhow::Result;
use deno_symbols::check::{GraphModule, ModuleGraph};
use deno_symbols::exports::{
    LookupCounter, ModuleExports, ResolvedExportOrReExportAllPath, exports,
};
use deno_symbols::ids::{ModuleId, SymbolId};
use deno_symbols::paths::{Definition, DefinitionsIter, FindDefinitions};
use deno_symbols::root::RootSymbol;
use std::io;

fn print_graph_module<R: Print>(rt: &R, module: &GraphModule) -> io::Result<()> {
    let types = module.types_dependency();
    let is_json = module.is_json();
    let has_tree = module.tree().is_some();
    println!(rt;
        "  {:?} of {}: {types:?}, JSON {is_json}, tree {has_tree}",
        module.text(),
        module.specifier()
    )
}

fn print_graph<R: Print>(rt: &R, graph: &ModuleGraph) -> io::Result<()> {
    let mut lookups = LookupCounter::new();
    for specifier in SPECIFIERS {
        if let Some(module) = graph.get(specifier) {
            print_graph_module(rt, module)?;
        }
        println!(rt;
            "  ./a of {specifier} is {:?}",
            graph.resolve_dependency("./a", specifier, &mut lookups)
        )?;
    }
    Ok(())
}

fn print_root<R: Print>(rt: &R, root: &RootSymbol<'_>) -> io::Result<()> {
    for specifier in SPECIFIERS {
        println!(rt; "  {specifier} is stored: {}", root.has_analyzed(specifier))?;
    }
    println!(rt; "  ./a is stored: {}", root.has_analyzed("./a"))?;
    print_stored(rt, root)
}

fn print_chain<R: Print>(
    rt: &R,
    root: &RootSymbol<'_>,
    re_exports: &ResolvedExportOrReExportAllPath<'_>,
) -> io::Result<()> {
    for rest in re_exports.iter() {
        if let ResolvedExportOrReExportAllPath::ReExportAllPath(link) = rest {
            println!(rt; "    by {} to {}", link.specifier, link.resolved_module())?;
        }
    }
    let export = re_exports.as_resolved_export();
    let is_there = export.symbol(root).is_some();
    let symbol = export.symbol_id;
    println!(rt; "    to symbol {symbol:?} of {}: {is_there}", export.module)
}

fn print_chains<R: Print>(
    rt: &R,
    root: &RootSymbol<'_>,
    found: &ModuleExports<'_>,
) -> io::Result<()> {
    for (name, re_exports) in &found.resolved {
        println!(rt; "  {name}")?;
        print_chain(rt, root, re_exports)?;
    }
    Ok(())
}

fn print_definition<R: Print>(
    rt: &R,
    root: &RootSymbol<'_>,
    definition: &Definition<'_>,
) -> io::Result<()> {
    let text = match root.module_from_id(definition.module) {
        Some(info) => definition.text(info.text()),
        None => None,
    };
    println!(rt;
        "  {text:?} defines symbol {:?} of {}",
        definition.symbol, definition.module
    )
}

fn print_definitions<R: Print>(
    rt: &R,
    root: &RootSymbol<'_>,
    definitions: DefinitionsIter<'_>,
) -> io::Result<()> {
    for definition in definitions {
        print_definition(rt, root, &definition)?;
    }
    Ok(())
}

/// Prints what is borrowed from a graph, a root and the exports of a module.
fn print_borrowed<'a, R: Print>(
    rt: &R,
    graph: &ModuleGraph,
    root: &RootSymbol<'a>,
    found: &ModuleExports<'a>,
) -> io::Result<()> {
    println!(rt; "views")?;
    print_graph(rt, graph)?;
    print_root(rt, root)?;
    print_chains(rt, root, found)
}

fn print_found<'a, R: Print>(
    rt: &R,
    graph: &'a ModuleGraph,
    root: &mut RootSymbol<'a>,
    found: &ModuleExports<'a>,
) -> Result<()> {
    let q = ModuleId::from_number(3);
    let definitions = root.go_to_definitions(q, SymbolId::from_number(1))?;
    print_borrowed(rt, graph, root, found)?;
    Ok(print_definitions(rt, root, definitions)?)
}

/// Prints the results of calls that allocate nothing, after the calls that they need.
pub(crate) fn print_views<'a, R: Print>(
    rt: &R,
    graph: &'a ModuleGraph,
    root: &mut RootSymbol<'a>,
) -> Result<()> {
    let a = ModuleId::from_number(0);
    let found = exports(root, a)?;
    print_found(rt, graph, root, &found)
}
