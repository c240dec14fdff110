//! Tests where symbols are defined: which modules are stored, how long paths are, and what the
//! parts of a path return.

use crate::lifetimes::{module_id_of, of_root};
use crate::many::{EXPORTS_A_NAME, of_row};
use deno_symbols::ids::{ModuleId, SymbolId};
use deno_symbols::paths::{
    Definition, DefinitionOrUnresolved, DefinitionPathNode, DefinitionPathNodeResolved,
    DefinitionUnresolvedKind, FindDefinitions,
};
use deno_symbols::root::RootSymbol;
use std::alloc::Global;
use symbols_test_support::lifetimes::Checked;
use symbols_test_support::{holds, there};

/// Returns the symbol that a module declares first.
fn first() -> SymbolId {
    SymbolId::from_number(1)
}

/// Returns the symbol that a module declares second.
fn second() -> SymbolId {
    SymbolId::from_number(2)
}

/// `q` imports n from a. a has `export *` from b and c, which both export n locally. In b, n is
/// declared after m.
const TWO_EXPORTERS: &str = r#"{"modules": [
{"specifier": "q", "kind": "esm", "text": "", "tree": {"nodes": [
    {"kind": "Program", "range": [0, 0], "body": [1]},
    {"kind": "Import", "range": [0, 0], "specifiers": [2], "src": "a"},
    {"kind": "ImportNamed", "range": [0, 0], "local": 3},
    {"kind": "Ident", "range": [0, 0], "sym": ["n", 1]}
]}},
{"specifier": "a", "kind": "esm", "text": "", "tree": {"nodes": [
    {"kind": "Program", "range": [0, 0], "body": [1, 2]},
    {"kind": "ExportAll", "range": [0, 0], "src": "b"},
    {"kind": "ExportAll", "range": [0, 0], "src": "c"}
]}},
{"specifier": "b", "kind": "esm", "text": "", "tree": {"nodes": [
    {"kind": "Program", "range": [0, 0], "body": [1]},
    {"kind": "ExportDecl", "range": [0, 0], "decl": 2},
    {"kind": "VarDecl", "range": [0, 0], "decls": [3, 5]},
    {"kind": "VarDeclarator", "range": [0, 0], "name": 4},
    {"kind": "BindingIdent", "range": [0, 0], "sym": ["m", 1]},
    {"kind": "VarDeclarator", "range": [0, 0], "name": 6},
    {"kind": "BindingIdent", "range": [0, 0], "sym": ["n", 1]}
]}},
{"specifier": "c", "kind": "esm", "text": "", "tree": {"nodes": [
    {"kind": "Program", "range": [0, 0], "body": [1]},
    {"kind": "ExportDecl", "range": [0, 0], "decl": 2},
    {"kind": "VarDecl", "range": [0, 0], "decls": [3]},
    {"kind": "VarDeclarator", "range": [0, 0], "name": 4},
    {"kind": "BindingIdent", "range": [0, 0], "sym": ["n", 1]}
]}}
],
"resolutions": [["q", "a", "a"], ["a", "b", "b"], ["a", "c", "c"]]}"#;

/// Returns how many definition paths the first symbol of a module has.
fn path_count(root: &mut RootSymbol<'_>, module_id: ModuleId) -> Option<usize> {
    match root.find_definition_paths(module_id, first()) {
        Ok(paths) => Some(paths.len()),
        Err(_) => None,
    }
}

fn stores_no_candidate(root: &mut RootSymbol<'_>) -> Checked {
    let q = there!(module_id_of(root, "q"), "the module q");
    holds!(path_count(root, q) == Some(1), "how many paths there are");
    holds!(root.has_analyzed("b"), "b is stored");
    holds!(!root.has_analyzed("c"), "c isn't stored");
    Ok(())
}

#[test]
fn stores_no_candidate_after_the_one_that_is_chosen(rt: HostRuntime) -> Checked {
    of_root(rt.alloc(), TWO_EXPORTERS, stores_no_candidate)
}

/// `q` imports all names of a as n.
const STAR_IMPORT: &str = r#"{"modules": [
{"specifier": "q", "kind": "esm", "text": "", "tree": {"nodes": [
    {"kind": "Program", "range": [0, 0], "body": [1]},
    {"kind": "Import", "range": [0, 0], "specifiers": [2], "src": "a"},
    {"kind": "ImportNamespace", "range": [0, 0], "local": 3},
    {"kind": "Ident", "range": [0, 0], "sym": ["n", 1]}
]}},
{"specifier": "a", "kind": "esm", "text": "", "tree": {"nodes": [
    {"kind": "Program", "range": [0, 0], "body": []}
]}}
],
"resolutions": [["q", "a", "a"]]}"#;

/// Checks that a star import is a definition, for which its module isn't stored.
fn stores_no_imported_module(root: &mut RootSymbol<'_>) -> Checked {
    let q = there!(module_id_of(root, "q"), "the module q");
    let Ok(definitions) = root.go_to_definitions(q, first()) else {
        return Err("the definitions");
    };
    holds!(definitions.count() == 1, "one definition");
    holds!(!root.has_analyzed("a"), "a isn't stored");
    Ok(())
}

#[test]
fn stores_no_module_of_a_star_import(rt: HostRuntime) -> Checked {
    of_root(rt.alloc(), STAR_IMPORT, stores_no_imported_module)
}

/// Returns the definition if a path is one.
fn definition_of<'p, 'a>(path: &'p DefinitionPathNode<'a>) -> Option<&'p Definition<'a>> {
    match path {
        DefinitionPathNode::Resolved(DefinitionPathNodeResolved::Definition(definition)) => {
            Some(definition)
        }
        _ => None,
    }
}

/// Returns the first path after a link.
fn next_of<'p, 'a>(path: &'p DefinitionPathNode<'a>) -> Option<&'p DefinitionPathNode<'a>> {
    match path {
        DefinitionPathNode::Resolved(DefinitionPathNodeResolved::Link(link)) => link.next.first(),
        _ => None,
    }
}

/// Checks that the path goes from module 0 to a definition in an empty text.
fn resolves_to(path: &DefinitionPathNode<'_>) -> Checked {
    holds!(path.module().number() == 0, "the module of the path");
    holds!(path.symbol() == Some(first()), "the symbol of the path");
    let next = there!(next_of(path), "a link");
    holds!(
        next.symbol() == Some(second()),
        "the symbol of the next path"
    );
    let definition = there!(definition_of(next), "a definition");
    holds!(
        definition.module == next.module(),
        "the module of the definition"
    );
    holds!(definition.range().end == 0, "the end of the definition");
    holds!(
        definition.byte_range().start == 0,
        "the start of the definition"
    );
    holds!(
        definition.text("") == Some(""),
        "the text of the definition"
    );
    Ok(())
}

/// Checks that the path ends in one definition.
fn ends(alloc: Global, path: DefinitionPathNode<'_>) -> Checked {
    let Ok(definitions) = path.into_definitions(alloc) else {
        return Err("no memory");
    };
    let mut count: usize = 0;
    for definition in definitions {
        holds!(definition.symbol == second(), "the symbol of an end");
        count = count.saturating_add(1);
    }
    holds!(count == 1, "how many ends there are");
    Ok(())
}

/// Returns the last definition path of the first symbol of a module.
fn last_path<'a>(root: &mut RootSymbol<'a>, module_id: ModuleId) -> Option<DefinitionPathNode<'a>> {
    match root.find_definition_paths(module_id, first()) {
        Ok(mut paths) => paths.pop(),
        Err(_) => None,
    }
}

fn resolves_and_ends(root: &mut RootSymbol<'_>) -> Checked {
    let q = there!(module_id_of(root, "q"), "the module q");
    let path = there!(last_path(root, q), "a path");
    match resolves_to(&path) {
        Ok(()) => ends(root.alloc(), path),
        wrong => wrong,
    }
}

#[test]
fn returns_a_path_by_its_parts(rt: HostRuntime) -> Checked {
    of_root(rt.alloc(), TWO_EXPORTERS, resolves_and_ends)
}

/// `q` imports n from a. a declares n at byte 0, and again at byte 1.
const DECLARED_TWICE: &str = r#"{"modules": [
{"specifier": "q", "kind": "esm", "text": "", "tree": {"nodes": [
    {"kind": "Program", "range": [0, 0], "body": [1]},
    {"kind": "Import", "range": [0, 0], "specifiers": [2], "src": "a"},
    {"kind": "ImportNamed", "range": [0, 0], "local": 3},
    {"kind": "Ident", "range": [0, 0], "sym": ["n", 1]}
]}},
{"specifier": "a", "kind": "esm", "text": "  ", "tree": {"nodes": [
    {"kind": "Program", "range": [0, 2], "body": [1]},
    {"kind": "ExportDecl", "range": [0, 2], "decl": 2},
    {"kind": "VarDecl", "range": [0, 2], "decls": [3, 5]},
    {"kind": "VarDeclarator", "range": [0, 1], "name": 4},
    {"kind": "BindingIdent", "range": [0, 1], "sym": ["n", 1]},
    {"kind": "VarDeclarator", "range": [1, 2], "name": 6},
    {"kind": "BindingIdent", "range": [1, 2], "sym": ["n", 1]}
]}}
],
"resolutions": [["q", "a", "a"]]}"#;

/// Checks that a path of the first symbol of q ends in two definitions, at byte 0 and at byte 1.
fn ends_at_each_byte(root: &mut RootSymbol<'_>) -> Checked {
    let q = there!(module_id_of(root, "q"), "the module q");
    let path = there!(last_path(root, q), "a path");
    let Ok(mut definitions) = path.into_definitions(root.alloc()) else {
        return Err("no memory");
    };
    let left = there!(definitions.next(), "an end on the left");
    let right = there!(definitions.next(), "an end on the right");
    holds!(left.range().start == 0, "where the left end starts");
    holds!(right.range().start == 1, "where the right end starts");
    Ok(())
}

#[test]
fn returns_ends_from_left_to_right(rt: HostRuntime) -> Checked {
    of_root(rt.alloc(), DECLARED_TWICE, ends_at_each_byte)
}

/// The nodes of a module that re-exports `n` from the specifier `next`.
const PASSES_ON_N: &str = r#"
    {"kind": "Program", "range": [0, 0], "body": [1]},
    {"kind": "ExportNamed", "range": [0, 0], "specifiers": [2], "src": "next"},
    {"kind": "ExportSpecifier", "range": [0, 0], "orig": 3},
    {"kind": "Ident", "range": [0, 0], "sym": ["n", 1]}"#;

/// Returns how many definitions the first symbol of module 0 has, and the number of the module of
/// the last.
fn defining(root: &mut RootSymbol<'_>) -> Result<(usize, Option<u32>), &'static str> {
    let start = there!(module_id_of(root, "0"), "module 0");
    let Ok(definitions) = root.go_to_definitions(start, first()) else {
        return Err("no answer");
    };
    let mut count: usize = 0;
    let mut last = None;
    for definition in definitions {
        count = count.saturating_add(1);
        last = Some(definition.module.number());
    }
    Ok((count, last))
}

#[test]
fn goes_along_a_row(rt: HostRuntime) -> Checked {
    let found = of_row(rt.alloc(), 500, (PASSES_ON_N, EXPORTS_A_NAME), defining);
    holds!(found == Ok((1, Some(499))), "one definition, in module 499");
    Ok(())
}

#[test]
fn goes_round_a_ring(rt: HostRuntime) -> Checked {
    let found = of_row(rt.alloc(), 500, (PASSES_ON_N, PASSES_ON_N), defining);
    holds!(found == Ok((0, None)), "no definition");
    Ok(())
}

/// The module 0, which imports n from the specifier `next`, which is unresolved.
const UNRESOLVED: &str = r#"{"modules": [
{"specifier": "0", "kind": "esm", "text": "", "tree": {"nodes": [
    {"kind": "Program", "range": [0, 0], "body": [1]},
    {"kind": "Import", "range": [0, 0], "specifiers": [2], "src": "next"},
    {"kind": "ImportNamed", "range": [0, 0], "local": 3},
    {"kind": "Ident", "range": [0, 0], "sym": ["n", 1]}
]}}
]}"#;

/// Returns whether a path ends because this specifier is unresolved.
fn is_lost(end: &DefinitionOrUnresolved<'_>, expected: &str) -> bool {
    match end {
        DefinitionOrUnresolved::Unresolved(unresolved) => match &unresolved.kind {
            DefinitionUnresolvedKind::Specifier(text) => text.as_str() == expected,
            _ => false,
        },
        DefinitionOrUnresolved::Definition(_) => false,
    }
}

/// Checks that the last path of the first symbol of module 0 ends in module 0, because a specifier
/// is unresolved.
fn ends_open(root: &mut RootSymbol<'_>) -> Checked {
    let start = there!(module_id_of(root, "0"), "module 0");
    let Ok(ends) = root.go_to_definitions_or_unresolveds(start, first()) else {
        return Err("no answer");
    };
    let mut is_open = false;
    for end in ends {
        is_open = end.module() == start && end.symbol().is_none() && is_lost(&end, "next");
    }
    holds!(is_open, "the last end is open");
    Ok(())
}

#[test]
fn ends_at_an_unresolved_specifier(rt: HostRuntime) -> Checked {
    of_root(rt.alloc(), UNRESOLVED, ends_open)
}
