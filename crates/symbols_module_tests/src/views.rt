//! Tests what is borrowed from an analysed module, of both kinds.

use std::alloc::Global;
use symbols_graph::ids::SymbolId;
use symbols_graph::tree::SourceRange;
use symbols_table::info::{EsModuleInfo, ModuleInfoRef, ReExportNodes};
use symbols_test_support::lifetimes::{Checked, with_module_info};
use symbols_test_support::trees::id;
use symbols_test_support::{holds, there};

/// The module `m` of the text `export * from "a"; export var x; export * from "b";`, and the module
/// `j` of the JSON text ` {} `.
const GRAPH: &str = r#"{"modules": [
{"specifier": "m", "kind": "esm", "text": "", "tree": {"nodes": [
    {"kind": "Program", "range": [0, 0], "body": [1, 2, 6]},
    {"kind": "ExportAll", "range": [0, 0], "src": "a"},
    {"kind": "ExportDecl", "range": [0, 0], "decl": 3},
    {"kind": "VarDecl", "range": [0, 0], "decls": [4]},
    {"kind": "VarDeclarator", "range": [0, 0], "name": 5},
    {"kind": "BindingIdent", "range": [0, 0], "sym": ["x", 1]},
    {"kind": "ExportAll", "range": [0, 0], "src": "b"}
]}},
{"specifier": "j", "kind": "json", "text": " {} "}
]}"#;

/// Returns the number of the next statement.
fn next_number(nodes: &mut ReExportNodes<'_, '_>) -> Option<usize> {
    Some(nodes.next()?.node_id().index())
}

/// Returns the symbol that the name `x` of a scope resolves to.
fn symbol_of_x(
    alloc: Global,
    esm: &EsModuleInfo<'_>,
    scope: u32,
) -> Result<Option<SymbolId>, &'static str> {
    let Ok(x) = id(alloc, "x", scope) else {
        return Err("no memory");
    };
    match esm.symbol_from_swc(&x) {
        Some(symbol) => Ok(Some(symbol.symbol_id())),
        None => Ok(None),
    }
}

/// Checks a module with a tree: its statements `export *`, and its names.
fn borrows_a_tree(alloc: Global, info: ModuleInfoRef<'_, '_>) -> Checked {
    let esm = there!(info.esm(), "a tree");
    holds!(info.json().is_none(), "it is no JSON");
    holds!(info.text() == "", "the text");
    let mut nodes = there!(info.re_export_all_nodes(), "statements");
    holds!(next_number(&mut nodes) == Some(1), "the first statement");
    holds!(next_number(&mut nodes) == Some(6), "the second statement");
    holds!(
        next_number(&mut nodes) == None,
        "there is no third statement"
    );
    holds!(
        symbol_of_x(alloc, esm, 1) == Ok(Some(SymbolId::from_number(1))),
        "the symbol of x"
    );
    holds!(
        symbol_of_x(alloc, esm, 2) == Ok(None),
        "an x of another scope"
    );
    Ok(())
}

#[test]
fn borrows_trees(rt: HostRuntime) -> Checked {
    let alloc = rt.alloc();
    with_module_info(
        alloc,
        GRAPH,
        "m",
        (0, u32::MAX),
        |info| borrows_a_tree(alloc, info),
    )
}

/// Checks a JSON module: its text without surrounding white space is the declaration of both
/// symbols.
fn borrows_a_text(info: ModuleInfoRef<'_, '_>) -> Checked {
    let json = there!(info.json(), "JSON");
    holds!(info.esm().is_none(), "it has no tree");
    holds!(info.re_export_all_nodes().is_none(), "it has no statements");
    holds!(info.text() == " {} ", "the text");
    holds!(json.specifier() == "j", "the specifier");
    holds!(info.symbols().count() == 2, "how many symbols it has");
    let default = info.module_symbol().export("default");
    holds!(
        default == Some(SymbolId::from_number(1)),
        "the export default"
    );
    for symbol in json.symbols() {
        let decl = there!(symbol.decls().first(), "a declaration");
        holds!(
            decl.range == SourceRange { start: 1, end: 3 },
            "the range of a declaration"
        );
    }
    Ok(())
}

#[test]
fn borrows_texts(rt: HostRuntime) -> Checked {
    with_module_info(rt.alloc(), GRAPH, "j", (0, u32::MAX), borrows_a_text)
}
