//! Tests one exported name at a time: where it is found, how many resolutions are looked up for it,
//! and which modules are stored for it.

use crate::lifetimes::{module_id_of, of_root};
use crate::webs::statement_count;
use deno_symbols::check::ModuleGraph;
use deno_symbols::exports::{LookupCounter, export_of_counted};
use deno_symbols::root::RootSymbol;
use std::alloc::Global;
use symbols_test_support::lifetimes::{Checked, graph_from_text, with_graph};
use symbols_test_support::{holds, there};

/// `a` exports x locally and has `export *` from b and c. `b` exports x, y and `default` locally
/// and has `export *` from a. `c` exports y and z locally.
pub(crate) const DIAMOND: &str = r#"{"modules": [
{"specifier": "a", "kind": "esm", "text": "", "tree": {"nodes": [
    {"kind": "Program", "range": [0, 0], "body": [1, 5, 6]},
    {"kind": "ExportDecl", "range": [0, 0], "decl": 2},
    {"kind": "VarDecl", "range": [0, 0], "decls": [3]},
    {"kind": "VarDeclarator", "range": [0, 0], "name": 4},
    {"kind": "BindingIdent", "range": [0, 0], "sym": ["x", 1]},
    {"kind": "ExportAll", "range": [0, 0], "src": "b"},
    {"kind": "ExportAll", "range": [0, 0], "src": "c"}
]}},
{"specifier": "b", "kind": "esm", "text": "", "tree": {"nodes": [
    {"kind": "Program", "range": [0, 0], "body": [1, 5, 9, 11]},
    {"kind": "ExportDecl", "range": [0, 0], "decl": 2},
    {"kind": "VarDecl", "range": [0, 0], "decls": [3]},
    {"kind": "VarDeclarator", "range": [0, 0], "name": 4},
    {"kind": "BindingIdent", "range": [0, 0], "sym": ["x", 1]},
    {"kind": "ExportDecl", "range": [0, 0], "decl": 6},
    {"kind": "VarDecl", "range": [0, 0], "decls": [7]},
    {"kind": "VarDeclarator", "range": [0, 0], "name": 8},
    {"kind": "BindingIdent", "range": [0, 0], "sym": ["y", 1]},
    {"kind": "ExportDefaultExpr", "range": [0, 0], "expr": 10},
    {"kind": "Num", "range": [0, 0], "text": "1"},
    {"kind": "ExportAll", "range": [0, 0], "src": "a"}
]}},
{"specifier": "c", "kind": "esm", "text": "", "tree": {"nodes": [
    {"kind": "Program", "range": [0, 0], "body": [1, 5]},
    {"kind": "ExportDecl", "range": [0, 0], "decl": 2},
    {"kind": "VarDecl", "range": [0, 0], "decls": [3]},
    {"kind": "VarDeclarator", "range": [0, 0], "name": 4},
    {"kind": "BindingIdent", "range": [0, 0], "sym": ["y", 1]},
    {"kind": "ExportDecl", "range": [0, 0], "decl": 6},
    {"kind": "VarDecl", "range": [0, 0], "decls": [7]},
    {"kind": "VarDeclarator", "range": [0, 0], "name": 8},
    {"kind": "BindingIdent", "range": [0, 0], "sym": ["z", 1]}
]}}
],
"resolutions": [["a", "b", "b"], ["a", "c", "c"], ["b", "a", "a"]]}"#;

/// The number of the exporting module, the number of the symbol there, and the length of the chain.
type Found = Option<(u32, u32, usize)>;

/// A name, where `a` resolves it to, and the number of steps for that.
const ROWS: [(&str, Found, u128); 5] = [
    ("x", Some((0, 1, 0)), 0),
    ("y", Some((1, 2, 1)), 1),
    ("z", Some((2, 2, 1)), 3),
    ("default", None, 0),
    ("w", None, 3),
];

/// Returns where `a` resolves a name to, and the number of steps for that.
fn queried(root: &mut RootSymbol<'_>, name: &str) -> Result<(Found, u128), &'static str> {
    let module_id = there!(module_id_of(root, "a"), "the module a");
    let mut steps = LookupCounter::new();
    match export_of_counted(root, module_id, name, &mut steps) {
        Ok(Some(path)) => {
            let export = path.as_resolved_export();
            let exporter = export.module.number();
            let found = (exporter, export.symbol_id.number(), statement_count(&path));
            Ok((Some(found), steps.count()))
        }
        Ok(None) => Ok((None, steps.count())),
        Err(_) => Err("an answer"),
    }
}

/// Returns the result for a root without stored modules.
fn found_first(
    alloc: Global,
    graph: &ModuleGraph,
    name: &str,
) -> Result<(Found, u128), &'static str> {
    let mut root = RootSymbol::new(alloc, graph);
    queried(&mut root, name)
}

/// Checks each row; the result names the row that is wrong.
fn finds_each(alloc: Global, graph: &ModuleGraph) -> Checked {
    for (name, found, steps) in ROWS {
        if found_first(alloc, graph, name) != Ok((found, steps)) {
            return Err(name);
        }
    }
    Ok(())
}

#[test]
fn finds_names_of_a_diamond(rt: HostRuntime) -> Checked {
    let alloc = rt.alloc();
    with_graph(
        graph_from_text(alloc, DIAMOND),
        |graph| finds_each(alloc, graph),
    )
}

/// Checks what is stored for the name `y`.
fn stores_no_more(root: &mut RootSymbol<'_>) -> Checked {
    holds!(queried(root, "y").is_ok(), "y is asked for");
    holds!(root.has_analyzed("b"), "b is stored");
    holds!(!root.has_analyzed("c"), "c isn't stored");
    Ok(())
}

#[test]
fn stores_no_module_past_a_name(rt: HostRuntime) -> Checked {
    of_root(rt.alloc(), DIAMOND, stores_no_more)
}
