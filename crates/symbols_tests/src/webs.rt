//! Tests exports of many modules: each statement is looked up once, and chains are as long as
//! needed.

use crate::lifetimes::{module_id_of, of_root_of};
use crate::many::{EXPORTS_A_NAME, EXPORTS_AND_RE_EXPORTS, PASSES_ON, of_row};
use deno_symbols::check::{GraphFault, ModuleGraph, RawGraph, RawResolution};
use deno_symbols::exports::{LookupCounter, ResolvedExportOrReExportAllPath, exports_counted};
use deno_symbols::root::RootSymbol;
use deno_symbols::tree::{Item, Kind, Node, NodeId, Tree};
use std::alloc::{AllocError, Global};
use symbols_test_support::graphs::resolution;
use symbols_test_support::lifetimes::Checked;
use symbols_test_support::trees::{module_with_tree, push};
use symbols_test_support::{holds, there};

/// The count of looked up resolutions after the exports of module 0, and the length of the chain of
/// the name `n`, if it is exported.
pub(crate) type LookedUp = (u128, Option<usize>);

fn queried(root: &mut RootSymbol<'_>, steps: &mut LookupCounter) -> Result<LookedUp, &'static str> {
    let module_id = there!(module_id_of(root, "0"), "module 0");
    if !steps.has_room() {
        return Err("too many steps");
    }
    let Ok(answer) = exports_counted(root, module_id, steps) else {
        return Err("no answer");
    };
    let statements = match answer.resolved.get("n") {
        Some(path) => Some(statement_count(path)),
        None => None,
    };
    Ok((steps.count(), statements))
}

/// Returns how many statements a chain has.
pub(crate) fn statement_count(path: &ResolvedExportOrReExportAllPath<'_>) -> usize {
    let mut count: usize = 0;
    for rest in path.iter() {
        if let ResolvedExportOrReExportAllPath::ReExportAllPath(_) = rest {
            count = count.saturating_add(1);
        }
    }
    count
}

/// Returns the results of the same query twice, with one counter.
pub(crate) fn looked_up_twice(
    root: &mut RootSymbol<'_>,
) -> Result<(LookedUp, LookedUp), &'static str> {
    let mut steps = LookupCounter::new();
    let once = queried(root, &mut steps)?;
    let twice = queried(root, &mut steps)?;
    Ok((once, twice))
}

/// Checks the first result, and that the second query takes as many steps again.
pub(crate) fn takes(
    found: Result<(LookedUp, LookedUp), &'static str>,
    expected: LookedUp,
) -> Checked {
    let (once, twice) = found?;
    holds!(once == expected, "the steps and statements of one answer");
    let (count, statements) = expected;
    let again = (count.saturating_add(count), statements);
    holds!(twice == again, "the steps and statements of two answers");
    Ok(())
}

#[test]
fn goes_round_a_ring_once(rt: HostRuntime) -> Checked {
    let nodes = (PASSES_ON, EXPORTS_AND_RE_EXPORTS);
    takes(
        of_row(rt.alloc(), 10_000, nodes, looked_up_twice),
        (10_000, Some(9_999)),
    )
}

#[test]
fn comes_by_a_long_chain(rt: HostRuntime) -> Checked {
    takes(
        of_row(
            rt.alloc(),
            4_000,
            (PASSES_ON, EXPORTS_A_NAME),
            looked_up_twice,
        ),
        (3_999, Some(3_999)),
    )
}

/// Adds `export * from "NUMBER";`.
fn push_star(alloc: Global, nodes: &mut Vec<Node>, number: u32) -> Result<(), AllocError> {
    let src = format!(in alloc; "{number}")?;
    push(nodes, Kind::Item(Item::ExportAll { src }))
}

/// Returns the tree of a module with `export *` from each of `count` modules but itself.
fn tree_of_web(alloc: Global, count: u32, local_names: u32) -> Result<Tree, AllocError> {
    let mut body = Vec::new(alloc);
    for index in 1..count {
        body.push(NodeId(index))?;
    }
    let mut nodes = Vec::new(alloc);
    push(&mut nodes, Kind::Item(Item::Program { body }))?;
    for number in 0..count {
        if number != local_names {
            push_star(alloc, &mut nodes, number)?;
        }
    }
    Ok(Tree {
        declaration: false,
        nodes,
    })
}

/// Resolves the specifier of each number in a module to the module of that number.
fn push_each(
    alloc: Global,
    resolutions: &mut Vec<RawResolution>,
    referrer: &str,
    count: u32,
) -> Result<(), AllocError> {
    for number in 0..count {
        let specifier = format!(in alloc; "{number}")?;
        resolutions.push(resolution(alloc, referrer, specifier.as_str(), specifier.as_str())?)?;
    }
    Ok(())
}

/// Returns a graph of `count` modules, each with `export *` from all others. It is built by calls:
/// reading its text would take most of the test's time.
fn web(alloc: Global, count: u32) -> Result<ModuleGraph, GraphFault> {
    let mut modules = Vec::new(alloc);
    let mut resolutions = Vec::new(alloc);
    for number in 0..count {
        let specifier = format!(in alloc; "{number}")?;
        push_each(alloc, &mut resolutions, specifier.as_str(), count)?;
        modules.push(module_with_tree(alloc, specifier, tree_of_web(alloc, count, number)?))?;
    }
    let raw = RawGraph {
        modules,
        redirects: Vec::new(alloc),
        resolutions,
    };
    ModuleGraph::new(alloc, raw)
}

#[test]
fn looks_up_each_statement_of_a_web_once(rt: HostRuntime) -> Checked {
    let alloc = rt.alloc();
    takes(
        of_root_of(alloc, web(alloc, 300).ok(), looked_up_twice),
        (89_700, None),
    )
}
