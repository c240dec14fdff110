//! Builds the texts of graphs with many modules in a row, whose specifiers are numbers, and roots
//! of such graphs.

use crate::lifetimes::of_root;
use deno_symbols::root::RootSymbol;
use std::alloc::{AllocError, Global};
use symbols_test_support::lifetimes::CheckResult;

/// The nodes of a module with `export *` from the specifier `next`.
pub(crate) const PASSES_ON: &str = r#"
    {"kind": "Program", "range": [0, 0], "body": [1]},
    {"kind": "ExportAll", "range": [0, 0], "src": "next"}"#;

/// The nodes of a module that exports the name `n` locally.
pub(crate) const EXPORTS_A_NAME: &str = r#"
    {"kind": "Program", "range": [0, 0], "body": [1]},
    {"kind": "ExportDecl", "range": [0, 0], "decl": 2},
    {"kind": "VarDecl", "range": [0, 0], "decls": [3]},
    {"kind": "VarDeclarator", "range": [0, 0], "name": 4},
    {"kind": "BindingIdent", "range": [0, 0], "sym": ["n", 1]}"#;

/// The nodes of a module with both.
pub(crate) const EXPORTS_AND_RE_EXPORTS: &str = r#"
    {"kind": "Program", "range": [0, 0], "body": [1, 5]},
    {"kind": "ExportDecl", "range": [0, 0], "decl": 2},
    {"kind": "VarDecl", "range": [0, 0], "decls": [3]},
    {"kind": "VarDeclarator", "range": [0, 0], "name": 4},
    {"kind": "BindingIdent", "range": [0, 0], "sym": ["n", 1]},
    {"kind": "ExportAll", "range": [0, 0], "src": "next"}"#;

/// Adds the module of a number, with these nodes.
fn push_module(text: &mut String, number: u32, nodes: &str) -> Result<(), AllocError> {
    write!(
        text,
        r#"{{"specifier":"{number}","kind":"esm","text":"","tree":{{"nodes":[{nodes}]}}}}"#
    )
}

/// Adds a graph of `count` modules, all but the last with the same nodes. The specifier `next`
/// resolves to the following module, and in the last module to the first.
fn push_row(text: &mut String, count: u32, each: &str, last: &str) -> Result<(), AllocError> {
    let end = count.saturating_sub(1);
    text.push_str(r#"{"modules":["#)?;
    for number in 0..end {
        push_module(text, number, each)?;
        text.push_str(",")?;
    }
    push_module(text, end, last)?;
    text.push_str(r#"],"resolutions":["#)?;
    for number in 0..end {
        let next = number + 1;
        write!(text, r#"["{number}","next","{next}"],"#)?;
    }
    write!(text, r#"["{end}","next","0"]]}}"#)
}

/// Runs a check on a root of these modules.
pub(crate) fn of_row<R: CheckResult, F: FnOnce(&mut RootSymbol<'_>) -> R + Drop>(
    alloc: Global,
    count: u32,
    nodes: (&str, &str),
    returned: F,
) -> R
    requires { F.IsAlwaysCallable returned }
{
    let (each, last) = nodes;
    let mut text = String::new(alloc);
    if push_row(&mut text, count, each, last).is_err() {
        return R::nothing();
    }
    of_root(alloc, text.as_str(), returned)
}
