//! Analyses a small module, read from a text and built by calls.

use std::alloc::{AllocError, Global};
use std::hash::RandomState;
use symbols_graph::ids::{ModuleId, SymbolId};
use symbols_graph::tree::{Decl, Item, Kind, NodeId, Tree};
use symbols_graph::{GraphFault, GraphModule, ModuleGraph, RawGraph};
use symbols_table::analyze;
use symbols_table::info::{ModuleInfoRef, SymbolsFault};
use symbols_test_support::lifetimes::{Checked, with_graph, with_module_info};
use symbols_test_support::trees::{id, list, module_with_tree, push, push_declarator};
use symbols_test_support::{holds, there};

/// The module `m` of the text `export var a, a, a;`, where each `a` has a scope of its own.
const GRAPH: &str =
    r#"{"modules": [{"specifier": "m", "kind": "esm", "text": "", "tree": {"nodes": [
    {"kind": "Program", "range": [0, 0], "body": [1]},
    {"kind": "ExportDecl", "range": [0, 0], "decl": 2},
    {"kind": "VarDecl", "range": [0, 0], "decls": [3, 5, 7]},
    {"kind": "VarDeclarator", "range": [0, 0], "name": 4},
    {"kind": "BindingIdent", "range": [0, 0], "sym": ["a", 4]},
    {"kind": "VarDeclarator", "range": [0, 0], "name": 6},
    {"kind": "BindingIdent", "range": [0, 0], "sym": ["a", 6]},
    {"kind": "VarDeclarator", "range": [0, 0], "name": 8},
    {"kind": "BindingIdent", "range": [0, 0], "sym": ["a", 8]}
]}}]}"#;

/// Returns the same tree, built by calls.
fn tree(alloc: Global) -> Result<Tree, AllocError> {
    let mut nodes = Vec::new(alloc);
    let body = list(alloc, &[1])?;
    push(&mut nodes, Kind::Item(Item::Program { body }))?;
    push(&mut nodes, Kind::Item(Item::ExportDecl { decl: NodeId(2) }))?;
    let decls = list(alloc, &[3, 5, 7])?;
    push(&mut nodes, Kind::Decl(Decl::VarDecl { decls }))?;
    for number in [4, 6, 8] {
        push_declarator(&mut nodes, NodeId(number), id(alloc, "a", number)?)?;
    }
    Ok(Tree {
        declaration: false,
        nodes,
    })
}

/// Returns the same graph, built by calls.
fn made(alloc: Global) -> Result<ModuleGraph, GraphFault> {
    let specifier = String::from_str(alloc, "m")?;
    let mut modules = Vec::new(alloc);
    modules.push(module_with_tree(alloc, specifier, tree(alloc)?))?;
    let raw = RawGraph {
        modules,
        redirects: Vec::new(alloc),
        resolutions: Vec::new(alloc),
    };
    ModuleGraph::new(alloc, raw)
}

/// Returns whether the module `m` is refused for too many symbols, under its specifier; `None` if
/// it is refused for another reason.
fn is_refused(alloc: Global, keys: RandomState, module: &GraphModule, limit: u32) -> Option<bool> {
    match analyze(alloc, keys, ModuleId::from_number(0), module, limit) {
        Ok(_) => Some(false),
        Err(SymbolsFault::TooManySymbols(specifier)) => Some(specifier.as_str() == "m"),
        Err(_) => None,
    }
}

/// Checks that the module is refused exactly when it has more symbols than the limit.
fn limits(alloc: Global, graph: &ModuleGraph) -> Checked {
    let module = there!(graph.get("m"), "the module");
    for (limit, is_beyond, name) in [
        (0, true, "no symbol is allowed"),
        (1, true, "one symbol is allowed"),
        (2, true, "two symbols are allowed"),
        (3, true, "three symbols are allowed"),
        (4, false, "four symbols are allowed"),
        (u32::MAX, false, "any number of symbols is allowed"),
    ] {
        if is_refused(alloc, graph.keys(), module, limit) != Some(is_beyond) {
            return Err(name);
        }
    }
    Ok(())
}

#[test]
fn refuses_more_symbols_than_the_limit(rt: HostRuntime) -> Checked {
    let alloc = rt.alloc();
    with_graph(made(alloc).ok(), |graph| limits(alloc, graph))
}

/// Checks the views that are borrowed from the analysed module.
fn borrows(info: ModuleInfoRef<'_, '_>) -> Checked {
    let esm = there!(info.esm(), "a tree");
    holds!(esm.module_id().number() == 7, "the number of the module");
    holds!(esm.source().nodes.len() == 9, "how many nodes the tree has");
    holds!(
        esm.symbol(SymbolId::from_number(4)).is_none(),
        "there is no symbol 4"
    );
    let last = there!(esm.symbol(SymbolId::from_number(3)), "symbol 3");
    holds!(
        last.module_id().number() == 7,
        "the number of the module of symbol 3"
    );
    let symbol = info.module_symbol();
    holds!(
        symbol.export("a") == Some(SymbolId::from_number(3)),
        "the export a"
    );
    holds!(symbol.export("b") == None, "there is no export b");
    Ok(())
}

#[test]
fn analyses_within_a_limit(rt: HostRuntime) -> Checked {
    with_module_info(rt.alloc(), GRAPH, "m", (7, 4), borrows)
}
