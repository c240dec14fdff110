//! Puts the module of a text into a graph.

ghost use Rattle.std.specs.Prelude.{◌≡◌, IfErr, OnErr, OnOk};
ghost use Rattle.symq_c.specs.ModuleTexts.{IsGraphAfterPut};
ghost use Rattle.symq_c.specs.inner.ModuleTexts.{IsPutRefusal};

use crate::module_of_text::{ModuleToPut, module_of};
use std::alloc::Global;
use symbols_graph::ModuleGraph;
use symbols_graph::laws::putting_is_opening_anew;
use symq_core::ExitError;

/// Puts the module that a text describes into a graph, with its resolutions.
///
/// # Errors
///
/// The text has no module, the module is refused, or an allocation failed. The graph is then
/// unchanged.
pub(crate) fn put_text(alloc: Global, graph: &mut ModuleGraph, text: &[u8]) -> Result<(), ExitError>
    ensures put { OnOk result (IsGraphAfterPut text.now graph.old graph.new) }
    ensures refused { IfErr result (IsPutRefusal text.now graph.old) }
    ensures unchanged { OnErr result (graph.new ≡ graph.old) }
{
    let ModuleToPut { raw, resolutions } = match module_of(alloc, text) {
        Ok(found) => found,
        Err(fault) => return Err(ExitError::Format(fault)),
    };
    putting_is_opening_anew();
    match graph.put_module(alloc, raw, resolutions) {
        Ok(()) => Ok(()),
        Err(fault) => Err(ExitError::Graph(fault)),
    }
}
