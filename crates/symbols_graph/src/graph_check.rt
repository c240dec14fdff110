//! The check of a raw graph.

ghost use Rattle.std.specs.Prelude.{◌≢◌, All, IfErr, IfOk, IfNone, MatchOption, OnOk, map};
ghost use Rattle.symbols_ast.specs.declared.graph.faults.GraphFault.TheVariants.{OutOfMemory};
ghost use Rattle.symbols_ast.specs.Graph.{IsCheckedContent, content_view, graph_view, module_view};
ghost use Rattle.symbols_graph.specs.GraphFaults.{HasFirstTreeFault, IsFaultlessGraph};
ghost use Rattle.symbols_graph.specs.GraphFaults.{IsFirstGraphFault};
ghost use Rattle.symbols_graph.specs.inner.CheckSteps.{HasNoGraphFaultOfRank};
ghost use Rattle.symbols_graph.specs.inner.CheckSteps.{IsFirstGraphFaultOfRank};

use crate::duplicates::{repeated_resolution, repeated_source, repeated_specifier};
use crate::redirects::redirect_to_redirect;
use crate::tree_check::first_tree_fault;
use std::alloc::{AllocError, Global};
use std::hash::RandomState;
use symbols_ast::graph::{GraphFault, RawGraph, RawModuleKind, TreeFault};

/// Returns the first fault of a module's tree; `None` without a tree.
pub(crate) fn tree_fault(
    alloc: Global,
    kind: &RawModuleKind,
) -> Result<Option<TreeFault>, AllocError>
    ensures { IfOk result (λ found. MatchOption found
        (IsCheckedContent (content_view kind.now)) (HasFirstTreeFault (content_view kind.now))) }
{
    let RawModuleKind::Esm { text, tree, .. } = kind else {
        return Ok(None);
    };
    let Some(tree) = tree else {
        return Ok(None);
    };
    first_tree_fault(alloc, tree, text.as_str())
}

/// Refuses a graph with more modules than there are module numbers.
fn check_count(raw: &RawGraph) -> Result<(), GraphFault>
    ensures accepted { OnOk result (HasNoGraphFaultOfRank (graph_view raw.now) 0) }
    ensures refused { IfErr result (IsFirstGraphFaultOfRank (graph_view raw.now) 0) }
{
    if raw.modules.len() > u32::MAX as usize {
        return Err(GraphFault::TooManyModules);
    }
    Ok(())
}

/// Refuses a second module of the same specifier.
fn check_specifiers(alloc: Global, keys: RandomState, raw: &RawGraph) -> Result<(), GraphFault>
    ensures accepted { OnOk result (HasNoGraphFaultOfRank (graph_view raw.now) 1) }
    ensures refused { IfErr result (IsFirstGraphFaultOfRank (graph_view raw.now) 1) }
{
    match repeated_specifier(alloc, keys, &raw.modules)? {
        Some(name) => {
            let specifier = String::from_str(alloc, name)?;
            Err(GraphFault::DuplicateSpecifier(specifier))
        }
        None => Ok(()),
    }
}

/// Refuses a second redirect of the same source.
fn check_sources(alloc: Global, keys: RandomState, raw: &RawGraph) -> Result<(), GraphFault>
    ensures accepted { OnOk result (HasNoGraphFaultOfRank (graph_view raw.now) 2) }
    ensures refused { IfErr result (IsFirstGraphFaultOfRank (graph_view raw.now) 2) }
{
    match repeated_source(alloc, keys, &raw.redirects)? {
        Some(name) => {
            let source = String::from_str(alloc, name)?;
            Err(GraphFault::DuplicateRedirect(source))
        }
        None => Ok(()),
    }
}

/// Refuses a redirect whose target is itself redirected.
fn check_redirect_targets(
    alloc: Global,
    keys: RandomState,
    raw: &RawGraph,
) -> Result<(), GraphFault>
    ensures accepted { OnOk result (HasNoGraphFaultOfRank (graph_view raw.now) 3) }
    ensures refused { IfErr result (IsFirstGraphFaultOfRank (graph_view raw.now) 3) }
{
    match redirect_to_redirect(alloc, keys, &raw.redirects)? {
        Some(name) => {
            let source = String::from_str(alloc, name)?;
            Err(GraphFault::RedirectToRedirect(source))
        }
        None => Ok(()),
    }
}

/// Refuses a second resolution of the same specifier text in the same module.
fn check_resolutions(alloc: Global, keys: RandomState, raw: &RawGraph) -> Result<(), GraphFault>
    ensures accepted { OnOk result (HasNoGraphFaultOfRank (graph_view raw.now) 4) }
    ensures refused { IfErr result (IsFirstGraphFaultOfRank (graph_view raw.now) 4) }
{
    match repeated_resolution(alloc, keys, &raw.resolutions)? {
        Some((from, repeated)) => {
            let referrer = String::from_str(alloc, from)?;
            let specifier_text = String::from_str(alloc, repeated)?;
            Err(GraphFault::DuplicateResolution(referrer, specifier_text))
        }
        None => Ok(()),
    }
}

/// Refuses the first module whose tree has a fault.
fn check_trees(alloc: Global, raw: &RawGraph) -> Result<(), GraphFault>
    ensures checked { OnOk result
        (All (λ m. IsCheckedContent (content_view m.kind)) raw.now.modules.items) }
    ensures accepted { OnOk result (HasNoGraphFaultOfRank (graph_view raw.now) 5) }
    ensures refused { IfErr result (IsFirstGraphFaultOfRank (graph_view raw.now) 5) }
{
    for module in &raw.modules {
        if let Some(fault) = tree_fault(alloc, &module.kind)? {
            let specifier = module.specifier.clone()?;
            return Err(GraphFault::Tree(specifier, fault));
        }
    }
    Ok(())
}

/// Checks a raw graph, and fails with its first fault (extension).
pub(crate) fn check(alloc: Global, keys: RandomState, raw: &RawGraph) -> Result<(), GraphFault>
    ensures checked { OnOk result
        (All (λ m. IsCheckedContent (content_view m.kind)) raw.now.modules.items) }
    ensures accepted { OnOk result (IsFaultlessGraph (graph_view raw.now)) }
    ensures refused { IfErr result (λ fault. fault ≢ OutOfMemory
        → IsFirstGraphFault (graph_view raw.now) fault) }
{
    check_count(raw)?;
    check_specifiers(alloc, keys, raw)?;
    check_sources(alloc, keys, raw)?;
    check_redirect_targets(alloc, keys, raw)?;
    check_resolutions(alloc, keys, raw)?;
    check_trees(alloc, raw)
}
