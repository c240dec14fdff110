//! Tests a root while allocations fail. It returns the same answers or reports the failure, and
//! goes on with all that was stored. The test passes whichever allocation fails, as one does under
//! `--fail-alloc N`.

use deno_symbols::check::{GraphFault, ModuleGraph};
use deno_symbols::ids::ModuleId;
use deno_symbols::info::SymbolsFault;
use deno_symbols::root::RootSymbol;
use std::alloc::Global;
use symbols_test_support::holds;
use symbols_test_support::lifetimes::Checked;
use symq_reader::{FormatFault, read_graph};

/// A ring of types dependencies, chains that end before and after a module without a tree, a module
/// that names itself, and redirects.
const GRAPH: &str = r#"{
"modules": [
    {"specifier": "a", "kind": "esm", "text": "", "types": "b", "tree": {"nodes": [{"kind": "Program", "range": [0,
        0]}]}},
    {"specifier": "b", "kind": "esm", "text": "", "types": "c", "tree": {"nodes": [{"kind": "Program", "range": [0,
        0]}]}},
    {"specifier": "c", "kind": "esm", "text": "", "types": "a", "tree": {"nodes": [{"kind": "Program", "range": [0,
        0]}]}},
    {"specifier": "w", "kind": "esm", "text": "", "types": "v", "tree": {"nodes": [{"kind": "Program", "range": [0,
        0]}]}},
    {"specifier": "v", "kind": "esm", "text": "", "tree": null},
    {"specifier": "x", "kind": "esm", "text": "", "types": "y", "tree": {"nodes": [{"kind": "Program", "range": [0,
        0]}]}},
    {"specifier": "y", "kind": "esm", "text": "", "types": "z", "tree": null},
    {"specifier": "z", "kind": "json", "text": "{}"},
    {"specifier": "t", "kind": "esm", "text": "", "types": "t", "tree": {"nodes": [{"kind": "Program", "range": [0,
        0]}]}},
    {"specifier": "r", "kind": "external"}
],
"redirects": [["r", "a"], ["q", "absent"]]
}"#;

/// A specifier, the module that it resolves to, and the number of that module.
const ROWS: [(&str, Option<(&str, u32)>); 8] = [
    ("a", Some(("c", 0))),
    ("b", Some(("a", 1))),
    ("c", Some(("b", 2))),
    ("w", Some(("w", 3))),
    ("x", Some(("z", 4))),
    ("t", Some(("t", 5))),
    ("q", None),
    ("r", Some(("c", 0))),
];

/// Returns the number of the module that a specifier resolves to. It tries once more if an
/// allocation failed.
fn number(root: &mut RootSymbol<'_>, specifier: &str) -> Result<Option<u32>, &'static str> {
    let answer = match root.module_from_specifier(specifier) {
        Err(SymbolsFault::OutOfMemory) => root.module_from_specifier(specifier),
        answer => answer,
    };
    match answer {
        Ok(Some(id)) => Ok(Some(id.number())),
        Ok(None) => Ok(None),
        Err(_) => Err("refused twice, or another fault"),
    }
}

/// Returns whether exactly these modules are stored, each completely.
fn stores(root: &RootSymbol<'_>, specifiers: &[&str]) -> bool {
    for (index, specifier) in specifiers.iter().enumerate() {
        let Ok(number) = u32::try_from(index) else {
            return false;
        };
        let Some(info) = root.module_from_id(ModuleId::from_number(number)) else {
            return false;
        };
        if info.specifier() != *specifier || info.symbols().next().is_none() {
            return false;
        }
    }
    let Ok(later) = u32::try_from(specifiers.len()) else {
        return false;
    };
    root.module_from_id(ModuleId::from_number(later)).is_none()
}

/// Checks the number of each row; the result names the row that is wrong.
fn answers_rows(root: &mut RootSymbol<'_>) -> Checked {
    for (queried, expected) in ROWS {
        let expected = expected.map(|(_, number)| number);
        if number(root, queried) != Ok(expected) {
            return Err(queried);
        }
    }
    Ok(())
}

fn answers_and_stores(alloc: Global, graph: &ModuleGraph) -> Checked {
    let mut root = RootSymbol::new(alloc, graph);
    answers_rows(&mut root)?;
    answers_rows(&mut root)?;
    holds!(
        stores(&root, &["c", "a", "b", "w", "z", "t"]),
        "what is stored, in order"
    );
    Ok(())
}

/// Returns the graph; otherwise whether an allocation failed.
fn graph(alloc: Global) -> Result<ModuleGraph, bool> {
    let raw = match read_graph(alloc, GRAPH.as_bytes()) {
        Ok(raw) => raw,
        Err(fault) => return Err(fault == FormatFault::OutOfMemory),
    };
    match ModuleGraph::new(alloc, raw) {
        Ok(graph) => Ok(graph),
        Err(fault) => Err(matches!(fault, GraphFault::OutOfMemory)),
    }
}

#[test]
fn keeps_its_modules_where_memory_is_refused(rt: HostRuntime) -> Checked {
    match graph(rt.alloc()) {
        Ok(graph) => answers_and_stores(rt.alloc(), &graph),
        Err(is_memory) => {
            holds!(is_memory, "the graph is read and accepted");
            Ok(())
        }
    }
}
