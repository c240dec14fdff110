//! The state that a session retains between calls.

ghost use Rattle.std.specs.Prelude.{IfOk, IfErr};
ghost use Rattle.symq_c.specs.inner.GraphTexts.{IsGraphRefusal};
ghost use Rattle.symq_c.specs.Sessions.{IsSessionStateOfText};

use crate::graph_of_text::graph_of;
use std::alloc::Global;
use symbols_graph::{GraphFault, KeyBytes, ModuleGraph};
use symbols_root::Rules;
use symq_core::ExitError;

/// A graph, and the rules by which it is queried.
#[derive(Drop)]
pub struct SessionState {
    pub(crate) graph: ModuleGraph,
    pub(crate) rules: Rules,
}

/// Returns the state for the graph of a text and these rules. Maps hash with keys from these bytes.
///
/// # Errors
///
/// The errors are those of `graph_of`.
pub(crate) fn state_of(
    alloc: Global,
    key_bytes: KeyBytes,
    rules: Rules,
    text: &[u8],
) -> Result<Box<SessionState>, ExitError>
    ensures accepted { IfOk result (λ state. IsSessionStateOfText text.now rules state.value) }
    ensures refused { IfErr result (λ exit_error. IsGraphRefusal text.now exit_error) }
{
    let graph = graph_of(alloc, key_bytes, text)?;
    match Box::new(alloc, SessionState { graph, rules }) {
        Ok(state) => Ok(state),
        Err(_) => Err(ExitError::Graph(GraphFault::OutOfMemory)),
    }
}
