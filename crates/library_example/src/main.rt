//! An example of the library: reads and checks a graph, and prints the exports of its module
//! `file:///a.ts`.
#![tactic(auto)]

use anyhow::{Context, Result};
use deno_symbols::check::ModuleGraph;
use deno_symbols::exports::{ModuleExports, exports};
use deno_symbols::root::RootSymbol;
use std::fs;
use std::rt::Files;
use symq_reader::read_graph;

/// Returns the checked graph of a file. It fails if reading or checking it fails.
fn graph_of<R: Files + AllocGlobal>(rt: &R, path: &str) -> Result<ModuleGraph> {
    let bytes = fs::read(rt, path)?;
    let raw = read_graph(rt.alloc(), bytes.as_slice())?;
    Ok(ModuleGraph::new(rt.alloc(), raw)?)
}

/// Prints each exported name, with its exporting module and its symbol there.
fn print_names<R: Print>(rt: &R, root: &RootSymbol<'_>, found: &ModuleExports<'_>) -> Result<()> {
    for (name, path) in &found.resolved {
        let export = path.as_resolved_export();
        let exporter = root
            .module_from_id(export.module)
            .context("no such module")?;
        let symbol = export.symbol_id;
        println!(rt; "{name} of {}, its symbol {symbol:?}", exporter.specifier())?;
    }
    Ok(())
}

/// Prints the exports of the module that a specifier resolves to.
fn print_exports<R: Print>(rt: &R, root: &mut RootSymbol<'_>, specifier: &str) -> Result<()> {
    let id = root
        .module_from_specifier(specifier)?
        .context("no such module")?;
    let found = exports(root, id)?;
    print_names(rt, root, &found)
}

fn main(rt: HostRuntime) -> Result<()> {
    let graph = graph_of(&rt, "graph.json")?;
    let mut root = RootSymbol::new(rt.alloc(), &graph);
    print_exports(&rt, &mut root, "file:///a.ts")
}
