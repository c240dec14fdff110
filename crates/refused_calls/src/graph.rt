//! The graph of the calls.

/// `a` exports `x` locally and has `export *` from `b` and `c`. These export `y` locally, and `b`
/// has `export *` from `a`. `q` imports `y` from `a`, and a name that is unresolved.
pub(crate) const GRAPH: &str = r#"{"modules": [
{"specifier": "a", "kind": "esm", "text": "export const x = 1; export * from \"./b\"; export * from \"./c\";",
    "tree": {"nodes": [
    {"kind": "Program", "range": [0, 61], "body": [1, 6, 7]},
    {"kind": "ExportDecl", "range": [0, 19], "decl": 2},
    {"kind": "VarDecl", "range": [7, 19], "decls": [3]},
    {"kind": "VarDeclarator", "range": [13, 18], "name": 4, "init": 5},
    {"kind": "BindingIdent", "range": [13, 14], "sym": ["x", 1]},
    {"kind": "Num", "range": [17, 18], "text": "1"},
    {"kind": "ExportAll", "range": [20, 40], "src": "./b"},
    {"kind": "ExportAll", "range": [41, 61], "src": "./c"}
]}},
{"specifier": "b", "kind": "esm", "text": "export const x = 1, y = 2; export default 1; export * from \"./a\";",
    "tree": {"nodes": [
    {"kind": "Program", "range": [0, 65], "body": [1, 9, 11]},
    {"kind": "ExportDecl", "range": [0, 26], "decl": 2},
    {"kind": "VarDecl", "range": [7, 26], "decls": [3, 6]},
    {"kind": "VarDeclarator", "range": [13, 18], "name": 4, "init": 5},
    {"kind": "BindingIdent", "range": [13, 14], "sym": ["x", 1]},
    {"kind": "Num", "range": [17, 18], "text": "1"},
    {"kind": "VarDeclarator", "range": [20, 25], "name": 7, "init": 8},
    {"kind": "BindingIdent", "range": [20, 21], "sym": ["y", 1]},
    {"kind": "Num", "range": [24, 25], "text": "2"},
    {"kind": "ExportDefaultExpr", "range": [27, 44], "expr": 10},
    {"kind": "Num", "range": [42, 43], "text": "1"},
    {"kind": "ExportAll", "range": [45, 65], "src": "./a"}
]}},
{"specifier": "c", "kind": "esm", "text": "export const y = 1, z = 1;", "tree": {"nodes": [
    {"kind": "Program", "range": [0, 26], "body": [1]},
    {"kind": "ExportDecl", "range": [0, 26], "decl": 2},
    {"kind": "VarDecl", "range": [7, 26], "decls": [3, 6]},
    {"kind": "VarDeclarator", "range": [13, 18], "name": 4, "init": 5},
    {"kind": "BindingIdent", "range": [13, 14], "sym": ["y", 1]},
    {"kind": "Num", "range": [17, 18], "text": "1"},
    {"kind": "VarDeclarator", "range": [20, 25], "name": 7, "init": 8},
    {"kind": "BindingIdent", "range": [20, 21], "sym": ["z", 1]},
    {"kind": "Num", "range": [24, 25], "text": "1"}
]}},
{"specifier": "q", "kind": "esm", "text": "import { y, w } from \"./a\"; const v = y;", "tree": {"nodes": [
    {"kind": "Program", "range": [0, 40], "body": [1, 6]},
    {"kind": "Import", "range": [0, 27], "specifiers": [2, 4], "src": "./a"},
    {"kind": "ImportNamed", "range": [9, 10], "local": 3},
    {"kind": "Ident", "range": [9, 10], "sym": ["y", 1]},
    {"kind": "ImportNamed", "range": [12, 13], "local": 5},
    {"kind": "Ident", "range": [12, 13], "sym": ["w", 1]},
    {"kind": "VarDecl", "range": [28, 40], "decls": [7]},
    {"kind": "VarDeclarator", "range": [34, 39], "name": 8, "init": 9},
    {"kind": "BindingIdent", "range": [34, 35], "sym": ["v", 1]},
    {"kind": "Ident", "range": [38, 39], "sym": ["y", 1]}
]}}
],
"resolutions": [["a", "./b", "b"], ["a", "./c", "c"], ["b", "./a", "a"], ["q", "./a", "a"]]}"#;

/// The specifiers of its modules, in the order in which the queries need them.
pub(crate) const SPECIFIERS: [&str; 4] = ["a", "b", "c", "q"];
