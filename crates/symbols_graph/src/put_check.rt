//! The check of a module that is put into a graph.

ghost use Rattle.std.specs.Prelude.{◌≡◌, ◌≢◌, ◌<◌, ◌≤◌, ◌^◌, IfErr, OnOk, length, map};
ghost use Rattle.indexmap.specs.IndexMap.{values};
ghost use Rattle.symbols_ast.specs.declared.graph.faults.GraphFault.TheVariants.{OutOfMemory};
ghost use Rattle.symbols_ast.specs.declared.graph.faults.GraphFault.TheVariants.{TooManyModules};
ghost use Rattle.symbols_ast.specs.Graph.{IsCheckedContent, content_view, module_view, redirect_view};
ghost use Rattle.symbols_graph.specs.GraphFaults.{redirect_sources};
ghost use Rattle.symbols_graph.specs.PutModules.{IsFaultlessPut, IsFirstPutFault, modules_with_put_module};
ghost use Rattle.symbols_graph.specs.inner.CheckSteps.{HasNoRepeat};
ghost use Rattle.symbols_graph.specs.inner.PutSteps.{IsFirstRepeatedText, IsFaultOfModuleTree};
ghost use Rattle.symbols_graph.specs.inner.Tables.{AreKeyedBySpecifier};

use crate::duplicates::repeated_source;
use crate::graph_check::tree_fault;
use crate::graph_maps::StringMap;
use std::alloc::Global;
use std::hash::RandomState;
use symbols_ast::graph::{GraphFault, GraphModule, RawModule};

/// Refuses a module of a new specifier if there are as many modules as module numbers.
fn check_room(modules: &StringMap<GraphModule>, raw: &RawModule) -> Result<(), GraphFault>
    requires keyed { AreKeyedBySpecifier modules.now.entries }
    requires few { length modules.now.entries < 2 ^ 32 }
    ensures accepted { OnOk result
        (length (modules_with_put_module (module_view raw.now) (values modules.now)) < 2 ^ 32) }
    ensures refused { IfErr result (λ fault. (fault ≡ TooManyModules)
        × (2 ^ 32 ≤ length (modules_with_put_module (module_view raw.now) (values modules.now)))) }
{
    if modules.len() < u32::MAX as usize {
        return Ok(());
    }
    if modules.contains_key(raw.specifier.as_str()) {
        return Ok(());
    }
    Err(GraphFault::TooManyModules)
}

/// Refuses a second resolution of the same specifier text in the module of this specifier.
fn check_texts(
    alloc: Global,
    keys: RandomState,
    specifier: &str,
    resolutions: &[(String, String)],
) -> Result<(), GraphFault>
    ensures distinct { OnOk result
        (HasNoRepeat (redirect_sources (map redirect_view resolutions.now))) }
    ensures refused { IfErr result
        (IsFirstRepeatedText specifier.now (map redirect_view resolutions.now)) }
{
    match repeated_source(alloc, keys, resolutions)? {
        Some(repeated) => {
            let referrer = String::from_str(alloc, specifier)?;
            let specifier_text = String::from_str(alloc, repeated)?;
            Err(GraphFault::DuplicateResolution(referrer, specifier_text))
        }
        None => Ok(()),
    }
}

/// Refuses a module whose tree has a fault.
fn check_tree(alloc: Global, raw: &RawModule) -> Result<(), GraphFault>
    ensures checked { OnOk result (IsCheckedContent (content_view raw.now.kind)) }
    ensures refused { IfErr result (IsFaultOfModuleTree (module_view raw.now)) }
{
    if let Some(fault) = tree_fault(alloc, &raw.kind)? {
        let specifier = raw.specifier.clone()?;
        return Err(GraphFault::Tree(specifier, fault));
    }
    Ok(())
}

/// Checks a module that is put among others and its resolutions, and fails with the first fault.
pub(crate) fn check_put(
    alloc: Global,
    keys: RandomState,
    modules: &StringMap<GraphModule>,
    raw: &RawModule,
    resolutions: &[(String, String)],
) -> Result<(), GraphFault>
    requires keyed { AreKeyedBySpecifier modules.now.entries }
    requires few { length modules.now.entries < 2 ^ 32 }
    ensures checked { OnOk result (IsCheckedContent (content_view raw.now.kind)) }
    ensures distinct { OnOk result
        (HasNoRepeat (redirect_sources (map redirect_view resolutions.now))) }
    ensures few { OnOk result
        (length (modules_with_put_module (module_view raw.now) (values modules.now)) < 2 ^ 32) }
    ensures accepted { OnOk result (IsFaultlessPut (values modules.now) (module_view raw.now)
        (map redirect_view resolutions.now)) }
    ensures refused { IfErr result (λ fault. fault ≢ OutOfMemory
        → IsFirstPutFault (values modules.now) (module_view raw.now)
        (map redirect_view resolutions.now) fault) }
{
    check_room(modules, raw)?;
    check_texts(alloc, keys, raw.specifier.as_str(), resolutions)?;
    check_tree(alloc, raw)
}
