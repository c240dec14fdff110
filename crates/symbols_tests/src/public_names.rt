//! Tests the public names of modules.

use crate::lifetimes::{module_id_of, of_root};
use crate::many::{EXPORTS_A_NAME, PASSES_ON, of_row};
use deno_symbols::exports::{PublicName, public_names};
use deno_symbols::ids::ModuleId;
use deno_symbols::info::SymbolsFault;
use deno_symbols::root::RootSymbol;
use std::alloc::{AllocError, Global};
use symbols_test_support::lifetimes::Checked;
use symbols_test_support::{holds, there};

/// A class, a function with a property, a namespace, and another name of the class.
const MEMBERS: &str = concat!(
    r#"{"modules": [{"specifier": "m", "kind": "esm", "text": "#,
    r#""export class A { static s() {} m() {} constructor() {} } export function g() {} g.p = 1; "#,
    r#"export namespace N { export const c = 1 } export { A as B };","#,
    r#"
    "tree": {"nodes": [
    {"kind": "Program", "range": [0, 149], "body": [1, 15, 20, 26, 35]},
    {"kind": "ExportDecl", "range": [0, 56], "decl": 2},
    {"kind": "ClassDecl", "range": [7, 56], "ident": 3, "class": 4},
    {"kind": "Ident", "range": [13, 14], "sym": ["A", 1]},
    {"kind": "Class", "range": [7, 56], "body": [5, 9, 13]},
    {"kind": "ClassMethod", "range": [17, 30], "key": 6, "function": 7, "method_kind": "method", "is_static": true},
    {"kind": "IdentName", "range": [24, 25], "name": "s"},
    {"kind": "Function", "range": [17, 30], "body": 8},
    {"kind": "Other", "range": [28, 30]},
    {"kind": "ClassMethod", "range": [31, 37], "key": 10, "function": 11, "method_kind": "method"},
    {"kind": "IdentName", "range": [31, 32], "name": "m"},
    {"kind": "Function", "range": [31, 37], "body": 12},
    {"kind": "Other", "range": [35, 37]},
    {"kind": "Constructor", "range": [38, 54], "body": 14},
    {"kind": "Other", "range": [52, 54]},
    {"kind": "ExportDecl", "range": [57, 79], "decl": 16},
    {"kind": "FnDecl", "range": [64, 79], "ident": 17, "function": 18},
    {"kind": "Ident", "range": [73, 74], "sym": ["g", 1]},
    {"kind": "Function", "range": [64, 79], "body": 19},
    {"kind": "Other", "range": [77, 79]},
    {"kind": "ExprStmt", "range": [80, 88], "expr": 21},
    {"kind": "Assign", "range": [80, 87], "plain": true, "left": 22, "right": 25},
    {"kind": "Member", "range": [80, 83], "obj": 23, "prop": 24},
    {"kind": "Ident", "range": [80, 81], "sym": ["g", 1]},
    {"kind": "IdentName", "range": [82, 83], "name": "p"},
    {"kind": "Num", "range": [86, 87], "text": "1"},
    {"kind": "ExportDecl", "range": [89, 130], "decl": 27},
    {"kind": "TsModuleDecl", "range": [96, 130], "id": 28, "body": 29},
    {"kind": "Ident", "range": [106, 107], "sym": ["N", 1]},
    {"kind": "TsModuleBlock", "range": [108, 130], "body": [30]},
    {"kind": "ExportDecl", "range": [110, 128], "decl": 31},
    {"kind": "VarDecl", "range": [117, 128], "decls": [32]},
    {"kind": "VarDeclarator", "range": [123, 128], "name": 33, "init": 34},
    {"kind": "BindingIdent", "range": [123, 124], "sym": ["c", 1]},
    {"kind": "Num", "range": [127, 128], "text": "1"},
    {"kind": "ExportNamed", "range": [131, 149], "specifiers": [36]},
    {"kind": "ExportSpecifier", "range": [140, 146], "orig": 37, "exported": "B"},
    {"kind": "Ident", "range": [140, 141], "sym": ["A", 1]}
]}}
],
"resolutions": [["m", "./m", "m"]]}"#
);

/// Module a has `export *` from b and c, and b from a. Each has names of its own.
const DIAMOND: &str = r#"{"modules": [
{"specifier": "a", "kind": "esm", "text": "export const x = 1; export * from \"./b\"; export * from \"./c\";",
    "tree": {"nodes": [
    {"kind": "Program", "range": [0, 61], "body": [1, 6, 7]},
    {"kind": "ExportDecl", "range": [0, 19], "decl": 2},
    {"kind": "VarDecl", "range": [7, 19], "decls": [3]},
    {"kind": "VarDeclarator", "range": [13, 18], "name": 4, "init": 5},
    {"kind": "BindingIdent", "range": [13, 14], "sym": ["x", 1]},
    {"kind": "Num", "range": [17, 18], "text": "1"},
    {"kind": "ExportAll", "range": [20, 40], "src": "./b"},
    {"kind": "ExportAll", "range": [41, 61], "src": "./c"}
]}},
{"specifier": "b", "kind": "esm", "text": "export const x = 1, y = 2; export default 1; export * from \"./a\";",
    "tree": {"nodes": [
    {"kind": "Program", "range": [0, 65], "body": [1, 9, 11]},
    {"kind": "ExportDecl", "range": [0, 26], "decl": 2},
    {"kind": "VarDecl", "range": [7, 26], "decls": [3, 6]},
    {"kind": "VarDeclarator", "range": [13, 18], "name": 4, "init": 5},
    {"kind": "BindingIdent", "range": [13, 14], "sym": ["x", 1]},
    {"kind": "Num", "range": [17, 18], "text": "1"},
    {"kind": "VarDeclarator", "range": [20, 25], "name": 7, "init": 8},
    {"kind": "BindingIdent", "range": [20, 21], "sym": ["y", 1]},
    {"kind": "Num", "range": [24, 25], "text": "2"},
    {"kind": "ExportDefaultExpr", "range": [27, 44], "expr": 10},
    {"kind": "Num", "range": [42, 43], "text": "1"},
    {"kind": "ExportAll", "range": [45, 65], "src": "./a"}
]}},
{"specifier": "c", "kind": "esm", "text": "export const y = 1, z = 1;", "tree": {"nodes": [
    {"kind": "Program", "range": [0, 26], "body": [1]},
    {"kind": "ExportDecl", "range": [0, 26], "decl": 2},
    {"kind": "VarDecl", "range": [7, 26], "decls": [3, 6]},
    {"kind": "VarDeclarator", "range": [13, 18], "name": 4, "init": 5},
    {"kind": "BindingIdent", "range": [13, 14], "sym": ["y", 1]},
    {"kind": "Num", "range": [17, 18], "text": "1"},
    {"kind": "VarDeclarator", "range": [20, 25], "name": 7, "init": 8},
    {"kind": "BindingIdent", "range": [20, 21], "sym": ["z", 1]},
    {"kind": "Num", "range": [24, 25], "text": "1"}
]}}
],
"resolutions": [["a", "./a", "a"], ["a", "./b", "b"], ["a", "./c", "c"],
    ["b", "./a", "a"], ["b", "./b", "b"], ["b", "./c", "c"],
    ["c", "./a", "a"], ["c", "./b", "b"], ["c", "./c", "c"]]}"#;

/// Module o has `export *` from n. Its class has an index signature, a constructor and one more
/// static member.
const PASSED_ON: &str = r#"{"modules": [
{"specifier": "n", "kind": "esm", "text": "export class C { static [k: string]: any; static t: any; constructor() {} }",
    "tree": {"nodes": [
    {"kind": "Program", "range": [0, 75], "body": [1]},
    {"kind": "ExportDecl", "range": [0, 75], "decl": 2},
    {"kind": "ClassDecl", "range": [7, 75], "ident": 3, "class": 4},
    {"kind": "Ident", "range": [13, 14], "sym": ["C", 1]},
    {"kind": "Class", "range": [7, 75], "body": [5, 11, 15]},
    {"kind": "TsIndexSignature", "range": [17, 41], "params": [6], "type_ann": 9, "is_static": true},
    {"kind": "BindingIdent", "range": [25, 26], "sym": ["k", 1], "type_ann": 7},
    {"kind": "TsTypeAnn", "range": [26, 34], "ty": 8},
    {"kind": "Type", "range": [28, 34]},
    {"kind": "TsTypeAnn", "range": [35, 40], "ty": 10},
    {"kind": "Type", "range": [37, 40]},
    {"kind": "ClassProp", "range": [42, 56], "key": 12, "type_ann": 13, "is_static": true},
    {"kind": "IdentName", "range": [49, 50], "name": "t"},
    {"kind": "TsTypeAnn", "range": [50, 55], "ty": 14},
    {"kind": "Type", "range": [52, 55]},
    {"kind": "Constructor", "range": [57, 73], "body": 16},
    {"kind": "Other", "range": [71, 73]}
]}},
{"specifier": "o", "kind": "esm", "text": "export * from \"./n\";", "tree": {"nodes": [
    {"kind": "Program", "range": [0, 20], "body": [1]},
    {"kind": "ExportAll", "range": [0, 20], "src": "./n"}
]}}
],
"resolutions": [["o", "./n", "n"]]}"#;

/// A module without text.
const EMPTY: &str = r#"{"modules": [
{"specifier": "m", "kind": "esm", "text": "", "tree": {"nodes": [{"kind": "Program", "range": [0, 0]}]}}
]}"#;

/// Returns the names in order, with a space after each, and a point before a member.
fn text_of(alloc: Global, names: &[PublicName]) -> Result<String, AllocError> {
    let mut text = String::new(alloc);
    for item in names {
        text.push_str(item.name.as_str())?;
        if let Some(member) = &item.member {
            text.push_str(".")?;
            text.push_str(member.as_str())?;
        }
        text.push_str(" ")?;
    }
    Ok(text)
}

/// Checks the public names of a module.
fn names_are(root: &mut RootSymbol<'_>, specifier: &str, expected: &str) -> Checked {
    let module_id = there!(module_id_of(root, specifier), "the module");
    let Ok(names) = public_names(root, module_id) else {
        return Err("no answer");
    };
    let Ok(text) = text_of(root.alloc(), &names) else {
        return Err("no memory");
    };
    holds!(text.as_str() == expected, "the names");
    Ok(())
}

fn members(root: &mut RootSymbol<'_>) -> Checked {
    names_are(root, "m", "A A.s g g.p N N.c B ")
}

#[test]
fn lists_members(rt: HostRuntime) -> Checked {
    of_root(rt.alloc(), MEMBERS, members)
}

fn along_a_diamond(root: &mut RootSymbol<'_>) -> Checked {
    names_are(root, "a", "x y z ")
}

#[test]
fn lists_names_along_a_diamond(rt: HostRuntime) -> Checked {
    of_root(rt.alloc(), DIAMOND, along_a_diamond)
}

fn passed_on(root: &mut RootSymbol<'_>) -> Checked {
    names_are(root, "o", "C C.t ")
}

#[test]
fn lists_members_of_what_is_passed_on(rt: HostRuntime) -> Checked {
    of_root(rt.alloc(), PASSED_ON, passed_on)
}

fn nothing(root: &mut RootSymbol<'_>) -> Checked {
    names_are(root, "m", "")
}

#[test]
fn lists_nothing_of_the_empty_module(rt: HostRuntime) -> Checked {
    of_root(rt.alloc(), EMPTY, nothing)
}

/// Checks that a module that isn't stored is refused.
fn unknown(root: &mut RootSymbol<'_>) -> Checked {
    match public_names(root, ModuleId::from_number(0)) {
        Err(SymbolsFault::UnknownModule) => Ok(()),
        _ => Err("an unknown module is refused"),
    }
}

#[test]
fn names_of_an_unknown_module(rt: HostRuntime) -> Checked {
    of_row(rt.alloc(), 1, (PASSES_ON, EXPORTS_A_NAME), unknown)
}
