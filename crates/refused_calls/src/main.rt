//! Calls of the library on one graph, so that an allocation can be made to fail in one of them
//! alone. A line names each call before it begins, and the lines after it print its result. A call
//! that fails is repeated once.
#![tactic(auto)]

mod graph;
mod queries;
mod tables;
mod views;

use crate::graph::GRAPH;
use crate::queries::{Lines, print_each, queries};
use crate::tables::print_stored;
use crate::views::print_views;
use anyhow::Result;
use deno_symbols::check::{GraphFault, ModuleGraph, RawGraph};
use deno_symbols::info::SymbolsFault;
use deno_symbols::queries::{Answer, AnswerQueries, Query};
use deno_symbols::root::RootSymbol;
use std::io;
use symq_reader::{FormatFault, read_graph};

/// Prints a line and returns the value. The value is dropped if printing fails.
fn printed<R: Print, T: Drop>(rt: &R, line: &str, value: T) -> io::Result<T> {
    println!(rt; "{line}")?;
    Ok(value)
}

fn read<R: AllocGlobal + Print>(rt: &R) -> Result<RawGraph> {
    println!(rt; "read_graph")?;
    match read_graph(rt.alloc(), GRAPH.as_bytes()) {
        Err(FormatFault::OutOfMemory) => {
            println!(rt; "  out of memory")?;
            Ok(read_graph(rt.alloc(), GRAPH.as_bytes())?)
        }
        raw => Ok(printed(rt, "  a graph", raw)??),
    }
}

fn checked<R: AllocGlobal + Print>(rt: &R) -> Result<ModuleGraph> {
    let raw = printed(rt, "ModuleGraph::new", read(rt)?)?;
    match ModuleGraph::new(rt.alloc(), raw) {
        Err(GraphFault::OutOfMemory) => {
            println!(rt; "  out of memory")?;
            let raw = read_graph(rt.alloc(), GRAPH.as_bytes())?;
            Ok(ModuleGraph::new(rt.alloc(), raw)?)
        }
        graph => Ok(printed(rt, "  accepted", graph)??),
    }
}

fn print_answers<R: Print>(rt: &R, answers: &[Answer<'_>]) -> io::Result<()> {
    for answer in answers {
        answer.print_lines(rt)?;
    }
    Ok(())
}

/// Prints the answers to the queries, and the modules that are stored then.
fn run_query<R: Print>(rt: &R, root: &mut RootSymbol<'_>, queries: &[Query<'_>]) -> Result<()> {
    match root.run(queries) {
        Err(SymbolsFault::OutOfMemory) => println!(rt; "  out of memory")?,
        answers => {
            let answers = printed(rt, "  answers", answers)??;
            print_answers(rt, &answers)?;
        }
    }
    Ok(print_stored(rt, root)?)
}

/// Prints the inputs of a query, and the modules that are stored then.
fn print_inputs<R: Print>(rt: &R, root: &mut RootSymbol<'_>, query: &Query<'_>) -> Result<()> {
    match root.inputs(query) {
        Err(SymbolsFault::OutOfMemory) => println!(rt; "  out of memory")?,
        inputs => {
            let inputs = printed(rt, "  answers", inputs)??;
            print_each(rt, "    inputs", &inputs)?;
        }
    }
    Ok(print_stored(rt, root)?)
}

/// Prints the answers to the queries, twice, the inputs of the last, and then what is borrowed.
fn print_queried<'a, R: Print>(
    rt: &R,
    graph: &'a ModuleGraph,
    root: &mut RootSymbol<'a>,
    queries: &[Query<'_>],
) -> Result<()> {
    println!(rt; "run")?;
    run_query(rt, root, queries)?;
    println!(rt; "run once more")?;
    run_query(rt, root, queries)?;
    if let Some(last) = queries.last() {
        println!(rt; "inputs")?;
        print_inputs(rt, root, last)?;
    }
    print_views(rt, graph, root)
}

fn print_calls<R: AllocGlobal + Print>(rt: &R, graph: &ModuleGraph) -> Result<()> {
    let queries = queries(rt.alloc())?;
    let mut root = RootSymbol::new(rt.alloc(), graph);
    print_queried(rt, graph, &mut root, &queries)
}

fn main(rt: HostRuntime) -> Result<()> {
    let graph = checked(&rt)?;
    print_calls(&rt, &graph)
}
