//! Tests modules that are put into a graph.

use std::alloc::Global;
use symbols_graph::{
    GraphFault, GraphModule, LookupCounter, ModuleGraph, RawModule, RawModuleKind,
};
use symbols_test_support::graphs::text;
use symbols_test_support::holds;
use symbols_test_support::lifetimes::{Checked, graph_from_text};

/// Two modules; `b` is absent. `a` resolves `t` and `u`, and `c` resolves `t`.
const GRAPH: &str = r#"{"modules": [
{"specifier": "a", "kind": "json", "text": "1"}, {"specifier": "c", "kind": "json", "text": "3"}],
"resolutions": [["a", "t", "b"], ["a", "u", "c"], ["c", "t", "a"]]}"#;

/// The graph with another module `a`, which resolves `t` alone.
const CHANGED: &str = r#"{"modules": [
{"specifier": "a", "kind": "json", "text": "2"}, {"specifier": "c", "kind": "json", "text": "3"}],
"resolutions": [["a", "t", "c"], ["c", "t", "a"]]}"#;

/// The graph with `b`, which resolves `t`.
const ADDED: &str = r#"{"modules": [
{"specifier": "a", "kind": "json", "text": "1"}, {"specifier": "c", "kind": "json", "text": "3"},
{"specifier": "b", "kind": "json", "text": "2"}],
"resolutions": [["a", "t", "b"], ["a", "u", "c"], ["c", "t", "a"], ["b", "t", "c"]]}"#;

/// The specifiers that are looked up, and the specifier texts that are resolved in each.
const SPECIFIERS: [&str; 4] = ["a", "b", "c", "d"];

const TEXTS: [&str; 2] = ["t", "u"];

/// Puts the JSON module `2`, with a resolution of each of these specifier texts to `c`.
fn put(
    alloc: Global,
    graph: &mut ModuleGraph,
    specifier: &str,
    texts: &[&str],
) -> Result<(), GraphFault> {
    let mut resolutions = Vec::new(alloc);
    for queried in texts {
        let queried = text(alloc, *queried)?;
        resolutions.push((queried, text(alloc, "c")?))?;
    }
    let specifier = text(alloc, specifier)?;
    let kind = RawModuleKind::Json {
        text: text(alloc, "2")?,
    };
    graph.put_module(alloc, RawModule { specifier, kind }, resolutions)
}

/// Returns the graph of a text after a module is put, and how that ended.
fn graph_with(
    alloc: Global,
    specifier: &str,
    texts: &[&str],
) -> Option<(ModuleGraph, Result<(), GraphFault>)> {
    let mut graph = graph_from_text(alloc, GRAPH)?;
    let end = put(alloc, &mut graph, specifier, texts);
    Some((graph, end))
}

/// Checks that two graphs have the same texts of modules, and the same resolutions.
fn is_same(graph: &ModuleGraph, other: &ModuleGraph) -> Checked {
    let mut lookups = LookupCounter::new();
    for specifier in SPECIFIERS {
        let found = graph.get(specifier).map(GraphModule::text);
        if found != other.get(specifier).map(GraphModule::text) {
            return Err(specifier);
        }
        for queried in TEXTS {
            let found = graph.resolve_dependency(queried, specifier, &mut lookups);
            if found != other.resolve_dependency(queried, specifier, &mut lookups) {
                return Err(queried);
            }
        }
    }
    Ok(())
}

/// Checks that a graph is the one of a text.
fn is_graph_of(alloc: Global, graph: &ModuleGraph, expected: &str) -> Checked {
    match graph_from_text(alloc, expected) {
        Some(expected) => is_same(graph, &expected),
        None => Err("the graph of a text"),
    }
}

#[test]
fn puts_a_module_in_place_of_another(rt: HostRuntime) -> Checked {
    let alloc = rt.alloc();
    match graph_with(alloc, "a", &["t"]) {
        Some((graph, Ok(()))) => is_graph_of(alloc, &graph, CHANGED),
        _ => Err("a put module"),
    }
}

#[test]
fn adds_an_absent_module(rt: HostRuntime) -> Checked {
    let alloc = rt.alloc();
    match graph_with(alloc, "b", &["t"]) {
        Some((graph, Ok(()))) => is_graph_of(alloc, &graph, ADDED),
        _ => Err("a put module"),
    }
}

#[test]
fn leaves_the_graph_if_refused(rt: HostRuntime) -> Checked {
    let alloc = rt.alloc();
    let Some((graph, end)) = graph_with(alloc, "a", &["t", "u", "t"]) else {
        return Err("a graph");
    };
    match end {
        Err(GraphFault::DuplicateResolution(_, repeated)) => {
            holds!(repeated.as_str() == "t", "the repeated text");
        }
        _ => return Err("a repeated specifier text"),
    }
    is_graph_of(alloc, &graph, GRAPH)
}
