//! The check of a graph with keys for its maps from a source of random bytes.

ghost use Rattle.std.specs.Prelude.{◌≡◌, ◌≢◌, ℕ, List, IfErr, IfOk, OnOk};
ghost use Rattle.symbols_ast.specs.declared.graph.faults.GraphFault.TheVariants.{OutOfMemory};
ghost use Rattle.symbols_ast.specs.Graph.{graph_view, resolved_dependency};
ghost use Rattle.symbols_graph.specs.GraphFaults.{IsFaultlessGraph, IsFirstGraphFault};

use std::alloc::Global;
use std::hash::RandomState;
use std::random::RandomSource;
use symbols_graph::{GraphFault, ModuleGraph, RawGraph};

/// Checks a raw graph as `ModuleGraph::with_keys` does, with keys that are made from the bytes of
/// a source. If the source fails, the keys are the fixed ones of `ModuleGraph::new` (extension).
///
/// # Errors
///
/// The first fault in the order of `GraphFault`, or `OutOfMemory` if an allocation failed.
pub fn keyed_graph<R: RandomSource>(
    alloc: Global,
    source: &R,
    raw: RawGraph,
) -> Result<ModuleGraph, GraphFault>
    ensures faultless { OnOk result (IsFaultlessGraph (graph_view raw)) }
    ensures refused { IfErr result (λ fault. fault ≢ OutOfMemory
        → IsFirstGraphFault (graph_view raw) fault) }
    ensures modules { IfOk result (λ graph. graph.modules ≡ (graph_view raw).modules) }
    ensures redirects { IfOk result (λ graph. graph.redirects ≡ (graph_view raw).redirects) }
    ensures resolutions { IfOk result (λ graph. (referrer specifier_text : List ℕ)
        → resolved_dependency graph referrer specifier_text
        ≡ resolved_dependency (graph_view raw) referrer specifier_text) }
{
    match RandomState::new(source) {
        Ok(keys) => ModuleGraph::with_keys(alloc, keys, raw),
        Err(_) => ModuleGraph::new(alloc, raw),
    }
}
