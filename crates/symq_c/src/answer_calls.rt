//! The C functions that answer queries over a graph's text.

ghost use Rattle.std.specs.Prelude.{◌≡◌, ◌⊎◌};
ghost use Rattle.symbols_ast.specs.Graph.{GraphView};
ghost use Rattle.symbols_ast.specs.declared.graph.faults.GraphFault.{GraphFault};
ghost use Rattle.symbols_root.specs.declared.rules.Rules.TheVariants as rules;
ghost use Rattle.symq_reader.specs.declared.faults.FormatFault.{FormatFault};
ghost use Rattle.symq_core.specs.AnswerTexts.{answer_text};
ghost use Rattle.symq_core.specs.Lines.{output_text_of};
ghost use Rattle.symq_core.specs.ExitLines.{format_fault_line, graph_fault_line};
ghost use Rattle.symq_core.specs.ExitLines.{out_of_memory_line};
ghost use Rattle.symq_c.specs.GraphTexts.{IsCheckedGraphOfText, IsFormatFaultOfText, IsFirstGraphFaultOfText};
ghost use Rattle.symq_c.specs.OutBuffers.{IsTruncatedCopyToBuffer};

use crate::graph_of_text::{answers, graph_of};
use crate::out_buffer::{hand_out, hand_out_line};
use std::alloc::Global;
use symbols_graph::{KeyBytes, ModuleGraph};
use symbols_root::Rules;
use symq_core::ExitError;

/// Writes the answers to query lines over a graph to `out`. Returns 0, or 7 if an allocation
/// failed.
pub(crate) fn answer_over(
    alloc: Global,
    rules: Rules,
    graph: &ModuleGraph,
    lines: &[u8],
    out: &mut [u8],
    needed: &mut usize,
) -> u8
    ensures answered { result ≡ 0
        → IsTruncatedCopyToBuffer (output_text_of (answer_text rules graph.now) lines.now) out.old
        out.new needed.new }
    ensures memory { result ≡ 7
        → IsTruncatedCopyToBuffer out_of_memory_line out.old out.new needed.new }
    ensures no_other { (result ≡ 0) ⊎ (result ≡ 7) }
{
    match answers(alloc, rules, graph, lines) {
        Ok(bytes) => {
            hand_out(bytes.as_slice(), out, needed);
            0
        }
        Err(fault) => hand_out_line(alloc, &ExitError::Engine(fault), out, needed),
    }
}

/// Writes the answers to query lines over a graph's text to `out`. Returns the status, as
/// `symq_answer` does. Maps hash with keys from these bytes.
pub(crate) fn answer_by_rules(
    alloc: Global,
    key_bytes: KeyBytes,
    rules: Rules,
    text: &[u8],
    lines: &[u8],
    out: &mut [u8],
    needed: &mut usize,
) -> u8
    ensures answered { result ≡ 0 → (graph : GraphView) × IsCheckedGraphOfText text.now graph
        × IsTruncatedCopyToBuffer (output_text_of (answer_text rules graph) lines.now) out.old
        out.new needed.new }
    ensures no_graph { result ≡ 4 → (fault : FormatFault) × IsFormatFaultOfText text.now fault
        × IsTruncatedCopyToBuffer (format_fault_line fault) out.old out.new needed.new }
    ensures refused { result ≡ 5 → (fault : GraphFault) × IsFirstGraphFaultOfText text.now fault
        × IsTruncatedCopyToBuffer (graph_fault_line fault) out.old out.new needed.new }
    ensures memory { result ≡ 7
        → IsTruncatedCopyToBuffer out_of_memory_line out.old out.new needed.new }
    ensures no_other { (result ≡ 0) ⊎ (result ≡ 4) ⊎ (result ≡ 5) ⊎ (result ≡ 7) }
{
    let graph = match graph_of(alloc, key_bytes, text) {
        Ok(graph) => graph,
        Err(exit_error) => return hand_out_line(alloc, &exit_error, out, needed),
    };
    answer_over(alloc, rules, &graph, lines, out, needed)
}

/// Answers query lines by Deno's rules over the text of a graph (extension). It returns 0 and
/// writes the answers to the front of `out`. Otherwise it returns the program's exit status: 4 if
/// the text is no graph, 5 if the graph is refused, 7 if an allocation failed. Then it writes the
/// program's line for standard error, without a line feed. `needed` is the full length in bytes. If
/// `out` is shorter, only the beginning is written.
#[unsafe(no_mangle)]
pub extern "C" fn symq_answer(
    alloc: Global,
    text: &[u8],
    lines: &[u8],
    out: &mut [u8],
    needed: &mut usize,
) -> u8
    ensures answered { result ≡ 0 → (graph : GraphView) × IsCheckedGraphOfText text.now graph
        × IsTruncatedCopyToBuffer (output_text_of (answer_text rules.Deno graph) lines.now) out.old
        out.new needed.new }
    ensures no_graph { result ≡ 4 → (fault : FormatFault) × IsFormatFaultOfText text.now fault
        × IsTruncatedCopyToBuffer (format_fault_line fault) out.old out.new needed.new }
    ensures refused { result ≡ 5 → (fault : GraphFault) × IsFirstGraphFaultOfText text.now fault
        × IsTruncatedCopyToBuffer (graph_fault_line fault) out.old out.new needed.new }
    ensures memory { result ≡ 7
        → IsTruncatedCopyToBuffer out_of_memory_line out.old out.new needed.new }
    ensures no_other { (result ≡ 0) ⊎ (result ≡ 4) ⊎ (result ≡ 5) ⊎ (result ≡ 7) }
{
    let fixed = KeyBytes::new([0; 16]);
    answer_by_rules(alloc, fixed, Rules::Deno, text, lines, out, needed)
}

/// Answers query lines as `symq_answer` does, by strict rules (extension).
#[unsafe(no_mangle)]
pub extern "C" fn symq_strict_answer(
    alloc: Global,
    text: &[u8],
    lines: &[u8],
    out: &mut [u8],
    needed: &mut usize,
) -> u8
    ensures answered { result ≡ 0 → (graph : GraphView) × IsCheckedGraphOfText text.now graph
        × IsTruncatedCopyToBuffer (output_text_of (answer_text rules.Strict graph) lines.now)
        out.old out.new needed.new }
    ensures no_graph { result ≡ 4 → (fault : FormatFault) × IsFormatFaultOfText text.now fault
        × IsTruncatedCopyToBuffer (format_fault_line fault) out.old out.new needed.new }
    ensures refused { result ≡ 5 → (fault : GraphFault) × IsFirstGraphFaultOfText text.now fault
        × IsTruncatedCopyToBuffer (graph_fault_line fault) out.old out.new needed.new }
    ensures memory { result ≡ 7
        → IsTruncatedCopyToBuffer out_of_memory_line out.old out.new needed.new }
    ensures no_other { (result ≡ 0) ⊎ (result ≡ 4) ⊎ (result ≡ 5) ⊎ (result ≡ 7) }
{
    let fixed = KeyBytes::new([0; 16]);
    answer_by_rules(alloc, fixed, Rules::Strict, text, lines, out, needed)
}
