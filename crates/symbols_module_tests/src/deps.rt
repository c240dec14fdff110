//! Tests dependencies by calls where no run shows them. Runs show those of a declaration and of its
//! node, without the namespaces.

use std::alloc::{AllocError, Global};
use symbols_deps::{ReferenceNamespace, ResolveDeps, ResolveDepsMode, SymbolNodeDep};
use symbols_table::decl::SymbolDecl;
use symbols_table::info::ModuleInfoRef;
use symbols_test_support::lifetimes::{Checked, with_module_info};
use symbols_test_support::{holds, there};

/// The module `m` of the text `const v = y as Foo; enum E { A = x.y } type N = import("./m").A<C>;`
/// and `class P { constructor(private a = b as B, c = d) }`.
const NODES: &str =
    r#"{"modules": [{"specifier": "m", "kind": "esm", "text": "", "tree": {"nodes": [
    {"kind": "Program", "range": [0, 0], "body": [1, 8, 14, 22]},
    {"kind": "VarDecl", "range": [0, 0], "decls": [2]},
    {"kind": "VarDeclarator", "range": [0, 0], "name": 3, "init": 4},
    {"kind": "BindingIdent", "range": [0, 0], "sym": ["v", 1]},
    {"kind": "TsAsExpr", "range": [0, 0], "expr": 5, "ty": 6},
    {"kind": "Ident", "range": [0, 0], "sym": ["y", 1]},
    {"kind": "Type", "range": [0, 0], "children": [7]},
    {"kind": "Ident", "range": [0, 0], "sym": ["Foo", 1]},
    {"kind": "TsEnumDecl", "range": [0, 0], "id": 9, "members": [10]},
    {"kind": "Ident", "range": [0, 0], "sym": ["E", 1]},
    {"kind": "TsEnumMember", "range": [0, 0], "init": 11},
    {"kind": "Member", "range": [0, 0], "obj": 12, "prop": 13},
    {"kind": "Ident", "range": [0, 0], "sym": ["x", 1]},
    {"kind": "IdentName", "range": [0, 0], "name": "y"},
    {"kind": "TsTypeAliasDecl", "range": [0, 0], "id": 15, "type_ann": 16},
    {"kind": "Ident", "range": [0, 0], "sym": ["N", 1]},
    {"kind": "TsImportType", "range": [0, 0], "arg": "./m", "qualifier": 17, "type_args": 18},
    {"kind": "Ident", "range": [0, 0], "sym": ["A", 1]},
    {"kind": "TsTypeParamInstantiation", "range": [0, 0], "params": [19]},
    {"kind": "Type", "range": [0, 0], "children": [20]},
    {"kind": "Ident", "range": [0, 0], "sym": ["C", 1]},
    {"kind": "Other", "range": [0, 0]},
    {"kind": "ClassDecl", "range": [0, 0], "ident": 23, "class": 24},
    {"kind": "Ident", "range": [0, 0], "sym": ["P", 1]},
    {"kind": "Class", "range": [0, 0], "body": [25]},
    {"kind": "Constructor", "range": [0, 0], "params": [26, 33]},
    {"kind": "TsParamProp", "range": [0, 0], "param": 27},
    {"kind": "AssignPat", "range": [0, 0], "left": 28, "right": 29},
    {"kind": "BindingIdent", "range": [0, 0], "sym": ["a", 1]},
    {"kind": "TsAsExpr", "range": [0, 0], "expr": 30, "ty": 31},
    {"kind": "Ident", "range": [0, 0], "sym": ["b", 1]},
    {"kind": "Type", "range": [0, 0], "children": [32]},
    {"kind": "Ident", "range": [0, 0], "sym": ["B", 1]},
    {"kind": "AssignPat", "range": [0, 0], "left": 34, "right": 35},
    {"kind": "BindingIdent", "range": [0, 0], "sym": ["c", 1]},
    {"kind": "Ident", "range": [0, 0], "sym": ["d", 1]}
]}}]}"#;

/// The module `m` of the text `const f = (a: A = b) => c; const g = (): R => c;` and `type T = {
/// [s]: never }; import { q } from "./m";`.
const ARROWS: &str =
    r#"{"modules": [{"specifier": "m", "kind": "esm", "text": "", "tree": {"nodes": [
    {"kind": "Program", "range": [0, 0], "body": [1, 12, 20, 27]},
    {"kind": "VarDecl", "range": [0, 0], "decls": [2]},
    {"kind": "VarDeclarator", "range": [0, 0], "name": 3, "init": 4},
    {"kind": "BindingIdent", "range": [0, 0], "sym": ["f", 1]},
    {"kind": "Arrow", "range": [0, 0], "params": [5], "body": 11},
    {"kind": "AssignPat", "range": [0, 0], "left": 6, "right": 10},
    {"kind": "BindingIdent", "range": [0, 0], "sym": ["a", 1], "type_ann": 7},
    {"kind": "TsTypeAnn", "range": [0, 0], "ty": 8},
    {"kind": "Type", "range": [0, 0], "children": [9]},
    {"kind": "Ident", "range": [0, 0], "sym": ["A", 1]},
    {"kind": "Ident", "range": [0, 0], "sym": ["b", 1]},
    {"kind": "Ident", "range": [0, 0], "sym": ["c", 1]},
    {"kind": "VarDecl", "range": [0, 0], "decls": [13]},
    {"kind": "VarDeclarator", "range": [0, 0], "name": 14, "init": 15},
    {"kind": "BindingIdent", "range": [0, 0], "sym": ["g", 1]},
    {"kind": "Arrow", "range": [0, 0], "return_type": 16, "body": 19},
    {"kind": "TsTypeAnn", "range": [0, 0], "ty": 17},
    {"kind": "Type", "range": [0, 0], "children": [18]},
    {"kind": "Ident", "range": [0, 0], "sym": ["R", 1]},
    {"kind": "Ident", "range": [0, 0], "sym": ["c", 1]},
    {"kind": "TsTypeAliasDecl", "range": [0, 0], "id": 21, "type_ann": 22},
    {"kind": "Ident", "range": [0, 0], "sym": ["T", 1]},
    {"kind": "Type", "range": [0, 0], "children": [23]},
    {"kind": "TsPropertySignature", "range": [0, 0], "key": 24, "computed": true, "type_ann": 25},
    {"kind": "Ident", "range": [0, 0], "sym": ["s", 1]},
    {"kind": "TsTypeAnn", "range": [0, 0], "ty": 26},
    {"kind": "Type", "range": [0, 0]},
    {"kind": "Import", "range": [0, 0], "specifiers": [28], "src": "./m"},
    {"kind": "ImportNamed", "range": [0, 0], "local": 29},
    {"kind": "Ident", "range": [0, 0], "sym": ["q", 1]}
]}}]}"#;

/// Returns whether the list consists of the first components of the pairs.
fn are_first_parts(
    list: &[SymbolNodeDep<'_>],
    all: &[(SymbolNodeDep<'_>, ReferenceNamespace)],
) -> bool {
    let mut firsts = all.iter();
    for dep in list {
        match firsts.next() {
            Some(found) if found.0 == *dep => {}
            _ => return false,
        }
    }
    firsts.next().is_none()
}

/// Returns whether the list of a declaration, or of its node, consists of the first components of
/// the pairs.
fn gives_first_parts(
    list: Result<Vec<SymbolNodeDep<'_>>, AllocError>,
    all: &[(SymbolNodeDep<'_>, ReferenceNamespace)],
) -> bool {
    match list {
        Ok(list) => are_first_parts(&list, all),
        Err(_) => false,
    }
}

/// Returns the number of dependencies of a declaration, if the declaration and its node have the
/// same; `None` if it has no node.
fn count_of(
    alloc: Global,
    decl: &SymbolDecl<'_>,
    mode: ResolveDepsMode,
) -> Result<usize, &'static str> {
    let Some(node) = decl.maybe_node() else {
        holds!(
            gives_first_parts(decl.deps(alloc, mode), &[]),
            "a declaration without a node"
        );
        return Ok(0);
    };
    let Ok(all) = node.deps_with_namespace(alloc, mode) else {
        return Err("no memory");
    };
    holds!(
        gives_first_parts(node.deps(alloc, mode), &all),
        "what a node depends on"
    );
    holds!(
        gives_first_parts(decl.deps(alloc, mode), &all),
        "what a declaration depends on"
    );
    Ok(all.len())
}

/// Checks the numbers of dependencies of a module's declarations, in the order of the symbols.
fn counts(
    alloc: Global,
    info: ModuleInfoRef<'_, '_>,
    mode: ResolveDepsMode,
    expected: &[usize],
) -> Checked {
    let mut left = expected.iter();
    for symbol in info.symbols() {
        for decl in symbol.decls() {
            let expected = there!(left.next(), "as many declarations as are wanted");
            let count = count_of(alloc, decl, mode)?;
            holds!(count == *expected, "how much a declaration depends on");
        }
    }
    holds!(
        left.next().is_none(),
        "no fewer declarations than are wanted"
    );
    Ok(())
}

/// Checks the module, `v`, `E`, `N`, `P`, the constructor and the property `a`.
fn counts_of_nodes(alloc: Global, info: ModuleInfoRef<'_, '_>) -> Checked {
    counts(
        alloc,
        info,
        ResolveDepsMode::TypesOnly,
        &[0, 1, 1, 2, 0, 1, 1],
    )?;
    counts(
        alloc,
        info,
        ResolveDepsMode::TypesAndExpressions,
        &[0, 1, 1, 2, 0, 2, 1],
    )
}

#[test]
fn gives_what_is_referred_to(rt: HostRuntime) -> Checked {
    let alloc = rt.alloc();
    with_module_info(
        alloc,
        NODES,
        "m",
        (0, u32::MAX),
        |info| counts_of_nodes(alloc, info),
    )
}

/// Checks the module, `f`, `g`, `T` and `q`, which has no node.
fn counts_of_arrows(alloc: Global, info: ModuleInfoRef<'_, '_>) -> Checked {
    counts(alloc, info, ResolveDepsMode::TypesOnly, &[0, 0, 0, 1, 0])?;
    counts(
        alloc,
        info,
        ResolveDepsMode::TypesAndExpressions,
        &[0, 2, 1, 1, 0],
    )
}

#[test]
fn gives_what_arrows_types_and_imports_refer_to(rt: HostRuntime) -> Checked {
    let alloc = rt.alloc();
    with_module_info(
        alloc,
        ARROWS,
        "m",
        (0, u32::MAX),
        |info| counts_of_arrows(alloc, info),
    )
}

#[test]
fn makes_a_reference_of_a_name(rt: HostRuntime) -> Checked {
    let Ok(id) = symbols_test_support::trees::id(rt.alloc(), "a", 1) else {
        return Err("no memory");
    };
    let dep = SymbolNodeDep::from(&id);
    holds!(
        matches!(&dep, SymbolNodeDep::Id(id) if id.name.as_str() == "a"),
        "the name a"
    );
    Ok(())
}

#[test]
fn returns_modes_apart() -> Checked {
    holds!(
        ResolveDepsMode::TypesAndExpressions.visit_exprs(),
        "expressions are visited"
    );
    holds!(
        !ResolveDepsMode::TypesOnly.visit_exprs(),
        "expressions aren't visited"
    );
    Ok(())
}
