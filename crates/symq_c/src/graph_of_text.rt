//! Reads and checks a graph's text, and answers lines over it in memory.

ghost use Rattle.std.specs.Prelude.{◌≡◌, IfOk, IfErr};
ghost use Rattle.symq_core.specs.AnswerTexts.{answer_text};
ghost use Rattle.symq_core.specs.Lines.{output_text_of};
ghost use Rattle.symq_core.specs.declared.fault.EngineFault.TheVariants.{OutOfMemory};
ghost use Rattle.symq_c.specs.GraphTexts.{IsRawGraphOfText, IsCheckedGraphOfText};
ghost use Rattle.symq_c.specs.inner.GraphTexts.{IsGraphRefusal};

use std::alloc::Global;
use symbols_graph::{KeyBytes, ModuleGraph, RawGraph};
use symbols_root::Rules;
use symq_core::{
    EngineFault, ExitError, MemoryInput, MemoryOutput, keyed_graph, read_graph, serve_with,
};

/// Returns the raw graph of a text, which isn't checked yet. It fails if the text is no graph or an
/// allocation failed.
#[tactic(auto, using(crate::proofs::Refusals::refused_format))]
fn raw_graph_of(alloc: Global, text: &[u8]) -> Result<RawGraph, ExitError>
    ensures read { IfOk result (λ raw. IsRawGraphOfText text.now raw) }
    ensures refused { IfErr result (λ exit_error. IsGraphRefusal text.now exit_error) }
{
    read_graph(alloc, text).map_err(ExitError::Format)
}

/// Returns the checked graph of a text, whose maps hash with keys from these bytes (extension).
///
/// # Errors
///
/// The text is no graph, the graph is refused, or an allocation failed.
pub(crate) fn graph_of(
    alloc: Global,
    key_bytes: KeyBytes,
    text: &[u8],
) -> Result<ModuleGraph, ExitError>
    ensures accepted { IfOk result (λ graph. IsCheckedGraphOfText text.now graph) }
    ensures refused { IfErr result (λ exit_error. IsGraphRefusal text.now exit_error) }
{
    let raw = raw_graph_of(alloc, text)?;
    keyed_graph(alloc, &key_bytes, raw).map_err(ExitError::Graph)
}

/// Returns the answers to the lines by these rules, each with a line end. It fails only if an
/// allocation failed.
pub(crate) fn answers(
    alloc: Global,
    rules: Rules,
    graph: &ModuleGraph,
    lines: &[u8],
) -> Result<Vec<u8>, EngineFault>
    ensures answered { IfOk result
        (λ bytes. bytes.items ≡ output_text_of (answer_text rules graph.now) lines.now) }
    ensures memory { IfErr result (λ fault. fault ≡ OutOfMemory) }
{
    let mut input = MemoryInput { rest: lines };
    let mut output = MemoryOutput::new(alloc);
    match serve_with(alloc, graph, rules, &mut input, &mut output) {
        Ok(()) => Ok(output.bytes),
        Err(_) => Err(EngineFault::OutOfMemory),
    }
}
