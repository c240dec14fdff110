//! Tests a root by calls, which no run shows: its limits, which modules are stored, and their
//! numbers.

use crate::lifetimes::{of_limited, of_root};
use deno_symbols::ids::ModuleId;
use deno_symbols::info::SymbolsFault;
use deno_symbols::root::{Limits, RootSymbol};
use symbols_test_support::holds;
use symbols_test_support::lifetimes::Checked;

/// The modules `a` and `b`, with a symbol each, and the JSON module `j`, which has two. `r` is
/// redirected to `b`.
const GRAPH: &str = r#"{"modules": [
{"specifier": "a", "kind": "esm", "text": "", "tree": {"nodes": [{"kind": "Program", "range": [0, 0]}]}},
{"specifier": "b", "kind": "esm", "text": "", "tree": {"nodes": [{"kind": "Program", "range": [0, 0]}]}},
{"specifier": "j", "kind": "json", "text": ""}
],
"redirects": [["r", "b"]]}"#;

/// Returns the number of the module that a specifier resolves to, or the reason why there is none.
fn number(root: &mut RootSymbol<'_>, specifier: &str) -> Result<Option<u32>, &'static str> {
    match root.module_from_specifier(specifier) {
        Ok(Some(id)) => Ok(Some(id.number())),
        Ok(None) => Ok(None),
        Err(SymbolsFault::TooManyModules) => Err("too many modules"),
        Err(SymbolsFault::TooManySymbols(_)) => Err("too many symbols"),
        Err(_) => Err("another fault"),
    }
}

/// Returns whether this is the number of the module that a specifier resolves to.
fn has_number(
    root: &mut RootSymbol<'_>,
    specifier: &str,
    expected: Result<Option<u32>, &'static str>,
) -> bool {
    number(root, specifier) == expected
}

/// Checks that modules are stored once each, in the order in which they are queried.
fn stores_in_order(root: &mut RootSymbol<'_>) -> Checked {
    holds!(!root.has_analyzed("b"), "b isn't stored yet");
    holds!(has_number(root, "b", Ok(Some(0))), "the number of b");
    holds!(has_number(root, "j", Ok(Some(1))), "the number of j");
    holds!(
        has_number(root, "absent", Ok(None)),
        "an absent module has no number"
    );
    holds!(
        has_number(root, "b", Ok(Some(0))),
        "the number of b, asked for again"
    );
    holds!(root.has_analyzed("b"), "b is stored");
    holds!(has_number(root, "r", Ok(Some(0))), "the number of r");
    holds!(
        !root.has_analyzed("r"),
        "b isn't stored under the specifier r"
    );
    holds!(!root.has_analyzed("a"), "a isn't stored");
    holds!(
        root.module_from_id(ModuleId::from_number(1)).is_some(),
        "there is a module 1"
    );
    holds!(
        root.module_from_id(ModuleId::from_number(2)).is_none(),
        "there is no module 2"
    );
    Ok(())
}

#[test]
fn stores_what_is_queried(rt: HostRuntime) -> Checked {
    of_root(rt.alloc(), GRAPH, stores_in_order)
}

/// Checks that stored modules stay if a limit is reached.
fn refuses_a_second(root: &mut RootSymbol<'_>) -> Checked {
    holds!(has_number(root, "b", Ok(Some(0))), "the number of b");
    holds!(
        has_number(root, "a", Err("too many modules")),
        "a is one module too many"
    );
    holds!(
        has_number(root, "b", Ok(Some(0))),
        "the number of b, asked for again"
    );
    holds!(has_number(root, "r", Ok(Some(0))), "the number of r");
    Ok(())
}

#[test]
fn keeps_to_a_limit_of_modules(rt: HostRuntime) -> Checked {
    let limits = Limits {
        modules: 1,
        symbols: 9,
    };
    of_limited(rt.alloc(), GRAPH, limits, refuses_a_second)
}

/// Checks that a module with too many symbols takes no number.
fn refuses_two_symbols(root: &mut RootSymbol<'_>) -> Checked {
    holds!(
        has_number(root, "j", Err("too many symbols")),
        "j has one symbol too many"
    );
    holds!(!root.has_analyzed("j"), "j isn't stored");
    holds!(has_number(root, "a", Ok(Some(0))), "the number of a");
    Ok(())
}

#[test]
fn keeps_to_a_limit_of_symbols(rt: HostRuntime) -> Checked {
    let limits = Limits {
        modules: 9,
        symbols: 1,
    };
    of_limited(rt.alloc(), GRAPH, limits, refuses_two_symbols)
}
