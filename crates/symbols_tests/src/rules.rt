//! Tests the rules of a root. Strict rules report shared names and filter `default`; Deno's rules
//! do neither.

use crate::lifetimes::{module_id_of, of_root, of_root_by};
use crate::one_name::DIAMOND;
use crate::webs::statement_count;
use deno_symbols::exports::{SharedName, exports};
use deno_symbols::ids::{ModuleId, SymbolId};
use deno_symbols::paths::FindDefinitions;
use deno_symbols::root::{RootSymbol, Rules};
use symbols_test_support::lifetimes::Checked;
use symbols_test_support::{holds, there};

/// `q` imports `default` of `b`, which has `export *` from `c`, which exports it locally.
const DEFAULT: &str = r#"{"modules": [
{"specifier": "q", "kind": "esm", "text": "", "tree": {"nodes": [
    {"kind": "Program", "range": [0, 0], "body": [1]},
    {"kind": "Import", "range": [0, 0], "specifiers": [2], "src": "b"},
    {"kind": "ImportDefault", "range": [0, 0], "local": 3},
    {"kind": "Ident", "range": [0, 0], "sym": ["d", 1]}
]}},
{"specifier": "b", "kind": "esm", "text": "", "tree": {"nodes": [
    {"kind": "Program", "range": [0, 0], "body": [1]},
    {"kind": "ExportAll", "range": [0, 0], "src": "c"}
]}},
{"specifier": "c", "kind": "esm", "text": "", "tree": {"nodes": [
    {"kind": "Program", "range": [0, 0], "body": [1]},
    {"kind": "ExportDefaultExpr", "range": [0, 0], "expr": 2},
    {"kind": "Num", "range": [0, 0], "text": "1"}
]}}
],
"resolutions": [["q", "b", "b"], ["b", "c", "c"]]}"#;

/// Checks that a shared name is `y` with these exporters. Each is the number of its module, the
/// number of its symbol, and the length of the chain.
fn is_y_of_two(shared: &SharedName<'_>, exporters: [(u32, u32, usize); 2]) -> Checked {
    holds!(shared.name.as_str() == "y", "the name is y");
    holds!(shared.exporters.len() == 2, "two modules own it");
    for (path, exporter) in shared.exporters.iter().zip(exporters) {
        let export = path.as_resolved_export();
        let found = (
            export.module.number(),
            export.symbol_id.number(),
            statement_count(path),
        );
        holds!(found == exporter, "each owner in its place");
    }
    Ok(())
}

/// Checks that by strict rules `y` is the only shared name of `a`, with the exporters b and c.
fn shares_y(root: &mut RootSymbol<'_>) -> Checked {
    holds!(root.rules() == Rules::Strict, "strict rules");
    let a = there!(module_id_of(root, "a"), "the module a");
    let Ok(found) = exports(root, a) else {
        return Err("the exports of a");
    };
    holds!(found.resolved.contains_key("y"), "y is among the exports");
    holds!(found.shared.len() == 1, "one name is shared");
    match found.shared.first() {
        Some(shared) => is_y_of_two(shared, [(1, 2, 1), (2, 1, 1)]),
        None => Err("a shared name"),
    }
}

#[test]
fn returns_shared_names_by_strict_rules(rt: HostRuntime) -> Checked {
    of_root_by(rt.alloc(), DIAMOND, Rules::Strict, shares_y)
}

/// Checks that by Deno's rules no shared names are reported.
fn shares_nothing(root: &mut RootSymbol<'_>) -> Checked {
    holds!(root.rules() == Rules::Deno, "Deno's rules");
    let a = there!(module_id_of(root, "a"), "the module a");
    let Ok(found) = exports(root, a) else {
        return Err("the exports of a");
    };
    holds!(found.shared.is_empty(), "no name is told as shared");
    Ok(())
}

#[test]
fn returns_no_shared_names_by_the_rules_of_deno(rt: HostRuntime) -> Checked {
    of_root(rt.alloc(), DIAMOND, shares_nothing)
}

/// Returns how many definitions the import of `q` has.
fn default_is_looked_up(root: &mut RootSymbol<'_>) -> Result<usize, &'static str> {
    let q: ModuleId = there!(module_id_of(root, "q"), "the module q");
    match root.go_to_definitions(q, SymbolId::from_number(1)) {
        Ok(definitions) => Ok(definitions.count()),
        Err(_) => Err("an answer"),
    }
}

/// Checks that by strict rules `default` isn't found through `export *`; the module after it isn't
/// stored.
fn leaves_default(root: &mut RootSymbol<'_>) -> Checked {
    holds!(default_is_looked_up(root)? == 0, "no definition");
    holds!(root.has_analyzed("b"), "b is stored");
    holds!(!root.has_analyzed("c"), "c isn't stored");
    Ok(())
}

#[test]
fn filters_default_at_export_all_by_strict_rules(rt: HostRuntime) -> Checked {
    of_root_by(rt.alloc(), DEFAULT, Rules::Strict, leaves_default)
}

/// Checks that by Deno's rules `default` is found through `export *`.
fn finds_default(root: &mut RootSymbol<'_>) -> Checked {
    holds!(default_is_looked_up(root)? == 1, "one definition");
    holds!(root.has_analyzed("c"), "c is stored");
    Ok(())
}

#[test]
fn finds_default_through_export_all_by_the_rules_of_deno(rt: HostRuntime) -> Checked {
    of_root(rt.alloc(), DEFAULT, finds_default)
}
