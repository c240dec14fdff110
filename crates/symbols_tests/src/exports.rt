//! Tests exports along `export *`: how many resolutions are looked up, and what the parts of a
//! chain return.

use crate::lifetimes::{module_id_of, of_root};
use crate::many::{EXPORTS_A_NAME, PASSES_ON, of_row};
use crate::webs::{looked_up_twice, statement_count, takes};
use deno_symbols::exports::{ResolvedExportOrReExportAllPath, ResolvedReExportAllPath, exports};
use deno_symbols::ids::{ModuleId, SymbolId};
use deno_symbols::info::SymbolsFault;
use deno_symbols::root::RootSymbol;
use symbols_test_support::lifetimes::Checked;
use symbols_test_support::{holds, there};

/// Module 0 has `export *` from 1 and 2, and 1 from 0.
const CYCLE: &str = r#"{"modules": [
{"specifier": "0", "kind": "esm", "text": "", "tree": {"nodes": [
    {"kind": "Program", "range": [0, 0], "body": [1, 2]},
    {"kind": "ExportAll", "range": [0, 0], "src": "1"},
    {"kind": "ExportAll", "range": [0, 0], "src": "2"}
]}},
{"specifier": "1", "kind": "esm", "text": "", "tree": {"nodes": [
    {"kind": "Program", "range": [0, 0], "body": [1]},
    {"kind": "ExportAll", "range": [0, 0], "src": "0"}
]}},
{"specifier": "2", "kind": "esm", "text": "", "tree": {"nodes": [{"kind": "Program", "range": [0, 0]}]}}
],
"resolutions": [["0", "1", "1"], ["0", "2", "2"], ["1", "0", "0"]]}"#;

/// Module 0 has `export *` from 1 and 2, and 1 from 2.
const DIAMOND: &str = r#"{"modules": [
{"specifier": "0", "kind": "esm", "text": "", "tree": {"nodes": [
    {"kind": "Program", "range": [0, 0], "body": [1, 2]},
    {"kind": "ExportAll", "range": [0, 0], "src": "1"},
    {"kind": "ExportAll", "range": [0, 0], "src": "2"}
]}},
{"specifier": "1", "kind": "esm", "text": "", "tree": {"nodes": [
    {"kind": "Program", "range": [0, 0], "body": [1]},
    {"kind": "ExportAll", "range": [0, 0], "src": "2"}
]}},
{"specifier": "2", "kind": "esm", "text": "", "tree": {"nodes": [{"kind": "Program", "range": [0, 0]}]}}
],
"resolutions": [["0", "1", "1"], ["0", "2", "2"], ["1", "2", "2"]]}"#;

/// Module 0 has `export *` from 1 twice, and from itself.
const TWICE: &str = r#"{"modules": [
{"specifier": "0", "kind": "esm", "text": "", "tree": {"nodes": [
    {"kind": "Program", "range": [0, 0], "body": [1, 2, 3]},
    {"kind": "ExportAll", "range": [0, 0], "src": "1"},
    {"kind": "ExportAll", "range": [0, 0], "src": "1"},
    {"kind": "ExportAll", "range": [0, 0], "src": "0"}
]}},
{"specifier": "1", "kind": "esm", "text": "", "tree": {"nodes": [{"kind": "Program", "range": [0, 0]}]}}
],
"resolutions": [["0", "0", "0"], ["0", "1", "1"]]}"#;

/// Module 0 has `export *` from 1 and 2, and 1 from 0 and 3.
const BRANCHES: &str = r#"{"modules": [
{"specifier": "0", "kind": "esm", "text": "", "tree": {"nodes": [
    {"kind": "Program", "range": [0, 0], "body": [1, 2]},
    {"kind": "ExportAll", "range": [0, 0], "src": "1"},
    {"kind": "ExportAll", "range": [0, 0], "src": "2"}
]}},
{"specifier": "1", "kind": "esm", "text": "", "tree": {"nodes": [
    {"kind": "Program", "range": [0, 0], "body": [1, 2]},
    {"kind": "ExportAll", "range": [0, 0], "src": "0"},
    {"kind": "ExportAll", "range": [0, 0], "src": "3"}
]}},
{"specifier": "2", "kind": "esm", "text": "", "tree": {"nodes": [{"kind": "Program", "range": [0, 0]}]}},
{"specifier": "3", "kind": "esm", "text": "", "tree": {"nodes": [{"kind": "Program", "range": [0, 0]}]}}
],
"resolutions": [["0", "1", "1"], ["0", "2", "2"], ["1", "0", "0"], ["1", "3", "3"]]}"#;

/// Module 0 has `export *` from 1, and from `2` twice; 1 has `export *` from 0, and from `3`. The
/// specifiers `2` and `3` are unresolved.
const UNRESOLVED: &str = r#"{"modules": [
{"specifier": "0", "kind": "esm", "text": "", "tree": {"nodes": [
    {"kind": "Program", "range": [0, 0], "body": [1, 2, 3]},
    {"kind": "ExportAll", "range": [0, 0], "src": "2"},
    {"kind": "ExportAll", "range": [0, 0], "src": "1"},
    {"kind": "ExportAll", "range": [0, 0], "src": "2"}
]}},
{"specifier": "1", "kind": "esm", "text": "", "tree": {"nodes": [
    {"kind": "Program", "range": [0, 0], "body": [1, 2]},
    {"kind": "ExportAll", "range": [0, 0], "src": "3"},
    {"kind": "ExportAll", "range": [0, 0], "src": "0"}
]}}
],
"resolutions": [["0", "1", "1"], ["1", "0", "0"]]}"#;

#[test]
fn looks_up_once_in_a_cycle(rt: HostRuntime) -> Checked {
    takes(of_root(rt.alloc(), CYCLE, looked_up_twice), (3, None))
}

#[test]
fn looks_up_once_in_a_diamond(rt: HostRuntime) -> Checked {
    takes(of_root(rt.alloc(), DIAMOND, looked_up_twice), (3, None))
}

#[test]
fn looks_up_each_of_two_statements_with_one_specifier(rt: HostRuntime) -> Checked {
    takes(of_root(rt.alloc(), TWICE, looked_up_twice), (3, None))
}

#[test]
fn looks_up_along_every_branch(rt: HostRuntime) -> Checked {
    takes(of_root(rt.alloc(), BRANCHES, looked_up_twice), (4, None))
}

#[test]
fn looks_up_unresolved_statements(rt: HostRuntime) -> Checked {
    takes(of_root(rt.alloc(), UNRESOLVED, looked_up_twice), (5, None))
}

/// Returns the statement that a chain begins with.
fn statement<'p, 'a>(
    path: &'p ResolvedExportOrReExportAllPath<'a>,
) -> Option<&'p ResolvedReExportAllPath<'a>> {
    match path {
        ResolvedExportOrReExportAllPath::ReExportAllPath(re_export) => Some(re_export),
        ResolvedExportOrReExportAllPath::Export(_) => None,
    }
}

/// Checks that one statement, of module 0, resolves to symbol 1 of module 1.
fn resolves_to(root: &RootSymbol<'_>, path: &ResolvedExportOrReExportAllPath<'_>) -> Checked {
    let first = there!(statement(path), "a statement");
    holds!(
        first.referrer_module.number() == 0,
        "the module of the statement"
    );
    holds!(first.specifier == "next", "the text of the statement");
    holds!(
        first.resolved_module().number() == 1,
        "the module that the statement leads to"
    );
    holds!(
        statement_count(path) == 1,
        "how many statements the way has"
    );
    let export = path.as_resolved_export();
    holds!(export.module.number() == 1, "the module of the export");
    holds!(
        export.symbol_id == SymbolId::from_number(1),
        "the symbol of the export"
    );
    holds!(export.symbol(root).is_some(), "the export has a symbol");
    Ok(())
}

/// Checks that the answer on module 1 stays valid while module 0 is stored.
fn keeps(root: &mut RootSymbol<'_>) -> Checked {
    let module_id = there!(module_id_of(root, "1"), "module 1");
    let Ok(answer) = exports(root, module_id) else {
        return Err("no answer");
    };
    let is_stored = module_id_of(root, "0").is_some();
    match answer.resolved.get("n") {
        Some(path) if is_stored => resolves_to(root, path),
        Some(_) => Err("not there: module 0"),
        None => Err("not there: the name n"),
    }
}

#[test]
fn holds_an_answer_while_more_is_stored(rt: HostRuntime) -> Checked {
    of_row(rt.alloc(), 3, (PASSES_ON, EXPORTS_A_NAME), keeps)
}

/// Checks that a module that isn't stored is refused.
fn unknown(root: &mut RootSymbol<'_>) -> Checked {
    match exports(root, ModuleId::from_number(0)) {
        Err(SymbolsFault::UnknownModule) => Ok(()),
        _ => Err("an unknown module is refused"),
    }
}

#[test]
fn exports_of_an_unknown_module(rt: HostRuntime) -> Checked {
    of_row(rt.alloc(), 1, (PASSES_ON, EXPORTS_A_NAME), unknown)
}

/// Two modules of JSON with the same text, and two modules with the same tree, which exports `n`.
const TWINS: &str = r#"{"modules": [
{"specifier": "0", "kind": "json", "text": "{}"},
{"specifier": "1", "kind": "json", "text": "{}"},
{"specifier": "2", "kind": "esm", "text": "", "tree": {"nodes": [
    {"kind": "Program", "range": [0, 0], "body": [1]},
    {"kind": "ExportDecl", "range": [0, 0], "decl": 2},
    {"kind": "VarDecl", "range": [0, 0], "decls": [3]},
    {"kind": "VarDeclarator", "range": [0, 0], "name": 4},
    {"kind": "BindingIdent", "range": [0, 0], "sym": ["n", 1]}
]}},
{"specifier": "3", "kind": "esm", "text": "", "tree": {"nodes": [
    {"kind": "Program", "range": [0, 0], "body": [1]},
    {"kind": "ExportDecl", "range": [0, 0], "decl": 2},
    {"kind": "VarDecl", "range": [0, 0], "decls": [3]},
    {"kind": "VarDeclarator", "range": [0, 0], "name": 4},
    {"kind": "BindingIdent", "range": [0, 0], "sym": ["n", 1]}
]}}
]}"#;

/// Checks that the symbol of an exported name belongs to the module itself.
fn is_of_its_module(root: &mut RootSymbol<'_>, specifier: &str, name: &str) -> Checked {
    let module_id = there!(module_id_of(root, specifier), "the module");
    let Ok(answer) = exports(root, module_id) else {
        return Err("no answer");
    };
    let path = there!(answer.resolved.get(name), "the export");
    let symbol = there!(path.as_resolved_export().symbol(root), "its symbol");
    holds!(symbol.module_id() == module_id, "the module of the symbol");
    Ok(())
}

fn are_of_their_modules(root: &mut RootSymbol<'_>) -> Checked {
    is_of_its_module(root, "0", "default")?;
    is_of_its_module(root, "1", "default")?;
    is_of_its_module(root, "2", "n")?;
    is_of_its_module(root, "3", "n")
}

#[test]
fn returns_equal_modules_apart(rt: HostRuntime) -> Checked {
    of_root(rt.alloc(), TWINS, are_of_their_modules)
}
