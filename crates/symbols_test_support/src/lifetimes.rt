//! Owners of a graph or a table, which lend it to a check. That a value is dropped is proved anew
//! for each exit of the function that owns it, so these own the values for all tests.

use std::alloc::Global;
use symbols_ast::ids::ModuleId;
use symbols_graph::ModuleGraph;
use symbols_table::analyze;
use symbols_table::info::ModuleInfoRef;
use symq_reader::read_graph;

/// Ok, or the name of the first check that doesn't hold.
pub type Checked = Result<(), &'static str>;

/// The result of a check.
pub trait CheckResult {
    /// Returns the result if there is nothing to check: a failed allocation, no graph, or no such
    /// module.
    fn nothing() -> Self;
}

impl<T> CheckResult for Result<T, &'static str> {
    fn nothing() -> Result<T, &'static str> {
        Err("nothing to tell of")
    }
}

/// Returns the checked graph of a text; `None` if it has faults or an allocation failed.
pub fn graph_from_text(alloc: Global, text: &str) -> Option<ModuleGraph> {
    let raw = read_graph(alloc, text.as_bytes()).ok()?;
    ModuleGraph::new(alloc, raw).ok()
}

/// Runs a check on a graph.
pub fn with_graph<R: CheckResult, F: FnOnce(&ModuleGraph) -> R + Drop>(
    graph: Option<ModuleGraph>,
    returned: F,
) -> R
    requires { F.IsAlwaysCallable returned }
{
    let Some(graph) = graph else {
        return R::nothing();
    };
    returned(&graph)
}

/// Runs a check on the symbols of a module of a graph. `numbers` has the number of the module, and
/// the limit of its symbols.
fn with_analyzed<R: CheckResult, F: FnOnce(ModuleInfoRef<'_, '_>) -> R + Drop>(
    alloc: Global,
    graph: &ModuleGraph,
    specifier: &str,
    numbers: (u32, u32),
    returned: F,
) -> R
    requires { F.IsAlwaysCallable returned }
{
    let (number, limit) = numbers;
    let Some(module) = graph.get(specifier) else {
        return R::nothing();
    };
    let module_id = ModuleId::from_number(number);
    let Ok(Some(info)) = analyze(alloc, graph.keys(), module_id, module, limit) else {
        return R::nothing();
    };
    returned(info.as_ref())
}

/// Runs a check on the symbols of a module of a text's graph.
pub fn with_module_info<R: CheckResult, F: FnOnce(ModuleInfoRef<'_, '_>) -> R + Drop>(
    alloc: Global,
    text: &str,
    specifier: &str,
    numbers: (u32, u32),
    returned: F,
) -> R
    requires { F.IsAlwaysCallable returned }
{
    let Some(graph) = graph_from_text(alloc, text) else {
        return R::nothing();
    };
    with_analyzed(alloc, &graph, specifier, numbers, returned)
}
