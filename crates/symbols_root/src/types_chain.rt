//! Resolution of a specifier to a module of the graph, along types dependencies.

ghost use Rattle.std.specs.Prelude.{◌≡◌, ◌<◌, ◌↔◌, ℕ, List, length, Some, if◌then◌else◌, IfOk};
ghost use Rattle.std.specs.Prelude.{IfSome, OnErr};
ghost use Rattle.std.specs.Borrow.{Bor};
ghost use Rattle.std.specs.List.{list_any};
ghost use Rattle.std.specs.Option.{option_copied};
ghost use Rattle.std.specs.Str.{bytes_eq};
ghost use Rattle.symbols_ast.specs.Graph.{ModuleView, IsCheckedContent};
ghost use Rattle.symbols_root.specs.Specifiers.{module_with_specifier};
ghost use Rattle.symbols_root.specs.TypesChains.{is_analyzable, types_chain, get_prefer_types};
ghost use Rattle.symbols_root.specs.TypesChains.{IsUniqueTypesChain, HasTypesDependency};

use indexmap::IndexSet;
use std::alloc::{AllocError, Global};
use std::hash::RandomState;
use symbols_graph::{GraphModule, ModuleGraph};

/// Returns whether a module has symbols: it has a tree, or is JSON.
fn is_analyzable(graph_module: &GraphModule) -> bool
    ensures value { result ≡ is_analyzable graph_module.now }
    ensures checked { IsCheckedContent graph_module.now.content }
{
    graph_module.tree().is_some() || graph_module.is_json()
}

/// Returns the module if it has symbols, else the one before it.
fn last_analyzable_module<'a>(
    before: Option<&'a GraphModule>,
    graph_module: &'a GraphModule,
) -> Option<&'a GraphModule>
    ensures value { option_copied result ≡ (if is_analyzable graph_module.now
        then Some graph_module.now else option_copied before.entry) }
    ensures checked { IsCheckedContent graph_module.now.content }
{
    if is_analyzable(graph_module) {
        Some(graph_module)
    } else {
        before
    }
}

/// Returns whether a specifier is among the visited ones. An empty set isn't searched.
fn is_visited(before: &IndexSet<&str, RandomState>, specifier: &str) -> bool
    ensures { result ≡ list_any (λ (key : Bor (List ℕ)).
        bytes_eq specifier.now key.now) before.now.keys }
{
    !before.is_empty() && before.contains(&specifier)
}

/// Returns the last module with symbols on the types chain of a specifier, or `None` if there is
/// none. Each module of the chain is looked up once in the graph, and once among those before it.
pub(crate) fn get_prefer_types<'a>(
    alloc: Global,
    graph: &'a ModuleGraph,
    specifier: &str,
) -> Result<Option<&'a GraphModule>, AllocError>
    ensures resolved { IfOk result
        (λ found. option_copied found ≡ get_prefer_types graph.now specifier.now) }
    ensures under { IfOk result
        (λ found. IfSome found
        (λ m. module_with_specifier graph.now m.now.specifier ≡ Some m.now)) }
    ensures checked { IfOk result (λ found. IfSome found (λ m. IsCheckedContent m.now.content)) }
    ensures chain { IsUniqueTypesChain graph.now specifier.now
        (types_chain graph.now specifier.now) }
    ensures few { length graph.now.modules < 4294967296 }
    ensures types { OnErr result (HasTypesDependency graph.now specifier.now) }
{
    let mut before: IndexSet<&'a str, RandomState> = IndexSet::with_hasher(alloc, graph.keys());
    let mut resolved_to = None;
    let mut found = graph.get(specifier);
    'types: while let Some(graph_module) = found {
        if is_visited(&before, graph_module.specifier()) {
            return Ok(resolved_to);
        }
        resolved_to = last_analyzable_module(resolved_to, graph_module);
        let Some(types) = graph_module.types_dependency() else {
            return Ok(resolved_to);
        };
        before.insert(graph_module.specifier())?;
        found = graph.get(types);
    }
    Ok(resolved_to)
}

/// Returns a specifier as the graph has it: if it is that of the module that it resolves to, or of
/// the first module of its types chain. Otherwise `None`.
pub(crate) fn specifier_in_graph<'a>(
    graph: &'a ModuleGraph,
    resolved_to: &'a GraphModule,
    specifier: &str,
) -> Option<&'a str>
    ensures { IfSome result (λ same. same.now ≡ specifier.now) }
{
    let last = resolved_to.specifier();
    if last == specifier {
        return Some(last);
    }
    match graph.get(specifier) {
        Some(first) if first.specifier() == specifier => Some(first.specifier()),
        _ => None,
    }
}
