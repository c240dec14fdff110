//! Owners of a root, which lend it to a check, for all tests.

use deno_symbols::check::ModuleGraph;
use deno_symbols::ids::ModuleId;
use deno_symbols::root::{Limits, RootSymbol, Rules};
use std::alloc::Global;
use symbols_test_support::lifetimes::{CheckResult, graph_from_text};

/// Returns the number of the module that a specifier resolves to.
pub(crate) fn module_id_of(root: &mut RootSymbol<'_>, specifier: &str) -> Option<ModuleId> {
    match root.module_from_specifier(specifier) {
        Ok(module_id) => module_id,
        Err(_) => None,
    }
}

/// Runs a check on a root of a graph.
pub(crate) fn of_root_of<R: CheckResult, F: FnOnce(&mut RootSymbol<'_>) -> R + Drop>(
    alloc: Global,
    graph: Option<ModuleGraph>,
    returned: F,
) -> R
    requires { F.IsAlwaysCallable returned }
{
    let Some(graph) = graph else {
        return R::nothing();
    };
    let mut root = RootSymbol::new(alloc, &graph);
    returned(&mut root)
}

/// Runs a check on a root of a text's graph.
pub(crate) fn of_root<R: CheckResult, F: FnOnce(&mut RootSymbol<'_>) -> R + Drop>(
    alloc: Global,
    text: &str,
    returned: F,
) -> R
    requires { F.IsAlwaysCallable returned }
{
    of_root_of(alloc, graph_from_text(alloc, text), returned)
}

/// Runs a check on a root with limits.
pub(crate) fn of_limited<R: CheckResult, F: FnOnce(&mut RootSymbol<'_>) -> R + Drop>(
    alloc: Global,
    text: &str,
    limits: Limits,
    returned: F,
) -> R
    requires { F.IsAlwaysCallable returned }
{
    let Some(graph) = graph_from_text(alloc, text) else {
        return R::nothing();
    };
    let mut root = RootSymbol::with_limits(alloc, &graph, limits);
    returned(&mut root)
}

/// Runs a check on a root by these rules, with the widest limits.
pub(crate) fn of_root_by<R: CheckResult, F: FnOnce(&mut RootSymbol<'_>) -> R + Drop>(
    alloc: Global,
    text: &str,
    rules: Rules,
    returned: F,
) -> R
    requires { F.IsAlwaysCallable returned }
{
    let Some(graph) = graph_from_text(alloc, text) else {
        return R::nothing();
    };
    let limits = Limits {
        modules: u32::MAX,
        symbols: u32::MAX,
    };
    let mut root = RootSymbol::with_rules(alloc, &graph, rules, limits);
    returned(&mut root)
}
