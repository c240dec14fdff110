//! Laws of the definitions, for the crates above. The functions here do nothing: a law is the
//! contract of a function.

ghost use Rattle.std.specs.Prelude.{ℕ, List};
ghost use Rattle.symbols_ast.specs.declared.graph.faults.GraphFault.{GraphFault};
ghost use Rattle.symbols_ast.specs.Graph.{GraphView, ModuleView};
ghost use Rattle.symbols_graph.specs.GraphFaults.{IsFaultlessGraph, IsFirstGraphFault};
ghost use Rattle.symbols_graph.specs.PutModules.{IsFaultlessPut, IsFirstPutFault, IsSameGraph};
ghost use Rattle.symbols_graph.specs.PutModules.{graph_with_put_module};

/// States that putting a module is opening a graph anew. `ModuleGraph::new` accepts the raw graph
/// with the module in place exactly if `put_module` accepts the module. Otherwise both have the
/// same first fault. The graphs are the same afterwards if they were before.
pub fn putting_is_opening_anew()
    ensures faultless { (raw graph : GraphView) (m : ModuleView) (resolved : List (List ℕ × List ℕ))
        → IsSameGraph raw graph → IsFaultlessGraph raw → IsFaultlessPut graph.modules m resolved
        → IsFaultlessGraph (graph_with_put_module raw m resolved) }
    ensures refused { (raw graph : GraphView) (m : ModuleView) (resolved : List (List ℕ × List ℕ))
        (fault : GraphFault) → IsSameGraph raw graph → IsFaultlessGraph raw
        → IsFirstPutFault graph.modules m resolved fault
        → IsFirstGraphFault (graph_with_put_module raw m resolved) fault }
    ensures same { (raw graph : GraphView) (m : ModuleView) (resolved : List (List ℕ × List ℕ))
        → IsSameGraph raw graph → IsSameGraph
        (graph_with_put_module raw m resolved) (graph_with_put_module graph m resolved) }
{}
