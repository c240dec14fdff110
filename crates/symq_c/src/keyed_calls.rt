//! The C functions that read a graph whose maps hash with keys of the host.

ghost use Rattle.std.specs.Prelude.{◌≡◌, ◌≢◌, ◌⊎◌, [], None, IsSomeAnd};
ghost use Rattle.symbols_ast.specs.Graph.{GraphView};
ghost use Rattle.symbols_ast.specs.declared.graph.faults.GraphFault.{GraphFault};
ghost use Rattle.symbols_root.specs.declared.rules.Rules.TheVariants as rules;
ghost use Rattle.symq_reader.specs.declared.faults.FormatFault.{FormatFault};
ghost use Rattle.symq_core.specs.AnswerTexts.{answer_text};
ghost use Rattle.symq_core.specs.Lines.{output_text_of};
ghost use Rattle.symq_core.specs.ExitLines.{format_fault_line, graph_fault_line};
ghost use Rattle.symq_core.specs.ExitLines.{out_of_memory_line};
ghost use Rattle.symq_c.specs.GraphTexts.{IsCheckedGraphOfText, IsFormatFaultOfText, IsFirstGraphFaultOfText};
ghost use Rattle.symq_c.specs.OutBuffers.{IsTruncatedCopyToBuffer};
ghost use Rattle.symq_c.specs.Sessions.{IsSessionStateOfText};

use crate::answer_calls::answer_by_rules;
use crate::session::Session;
use crate::session_calls::open_by_rules;
use std::alloc::Global;
use symbols_graph::KeyBytes;
use symbols_root::Rules;

/// Returns two numbers as the bytes of keys.
fn key_bytes(first_key: u64, second_key: u64) -> KeyBytes {
    let keys = ((second_key as u128) << 64) | (first_key as u128);
    KeyBytes::new(keys.to_le_bytes())
}

/// Answers query lines as `symq_answer` does, over a graph whose maps hash with these keys
/// (extension). The keys are 16 random bytes that whoever writes the graph must not know.
#[unsafe(no_mangle)]
pub extern "C" fn symq_keyed_answer(
    alloc: Global,
    first_key: u64,
    second_key: u64,
    text: &[u8],
    lines: &[u8],
    out: &mut [u8],
    needed: &mut usize,
) -> u8
    ensures answered { result ≡ 0 → (graph : GraphView) × IsCheckedGraphOfText text.now graph
        × IsTruncatedCopyToBuffer (output_text_of (answer_text rules.Deno graph) lines.now) out.old
        out.new needed.new }
    ensures no_graph { result ≡ 4 → (fault : FormatFault) × IsFormatFaultOfText text.now fault
        × IsTruncatedCopyToBuffer (format_fault_line fault) out.old out.new needed.new }
    ensures refused { result ≡ 5 → (fault : GraphFault) × IsFirstGraphFaultOfText text.now fault
        × IsTruncatedCopyToBuffer (graph_fault_line fault) out.old out.new needed.new }
    ensures memory { result ≡ 7
        → IsTruncatedCopyToBuffer out_of_memory_line out.old out.new needed.new }
    ensures no_other { (result ≡ 0) ⊎ (result ≡ 4) ⊎ (result ≡ 5) ⊎ (result ≡ 7) }
{
    let keys = key_bytes(first_key, second_key);
    answer_by_rules(alloc, keys, Rules::Deno, text, lines, out, needed)
}

/// Answers query lines as `symq_keyed_answer` does, by strict rules (extension).
#[unsafe(no_mangle)]
pub extern "C" fn symq_strict_keyed_answer(
    alloc: Global,
    first_key: u64,
    second_key: u64,
    text: &[u8],
    lines: &[u8],
    out: &mut [u8],
    needed: &mut usize,
) -> u8
    ensures answered { result ≡ 0 → (graph : GraphView) × IsCheckedGraphOfText text.now graph
        × IsTruncatedCopyToBuffer (output_text_of (answer_text rules.Strict graph) lines.now)
        out.old out.new needed.new }
    ensures no_graph { result ≡ 4 → (fault : FormatFault) × IsFormatFaultOfText text.now fault
        × IsTruncatedCopyToBuffer (format_fault_line fault) out.old out.new needed.new }
    ensures refused { result ≡ 5 → (fault : GraphFault) × IsFirstGraphFaultOfText text.now fault
        × IsTruncatedCopyToBuffer (graph_fault_line fault) out.old out.new needed.new }
    ensures memory { result ≡ 7
        → IsTruncatedCopyToBuffer out_of_memory_line out.old out.new needed.new }
    ensures no_other { (result ≡ 0) ⊎ (result ≡ 4) ⊎ (result ≡ 5) ⊎ (result ≡ 7) }
{
    let keys = key_bytes(first_key, second_key);
    answer_by_rules(alloc, keys, Rules::Strict, text, lines, out, needed)
}

/// Opens a session as `symq_open` does, over a graph whose maps hash with these keys (extension).
/// The keys are as for `symq_keyed_answer`.
#[unsafe(no_mangle)]
pub extern "C" fn symq_keyed_open(
    alloc: Global,
    first_key: u64,
    second_key: u64,
    text: &[u8],
    session: &mut Session,
    out: &mut [u8],
    needed: &mut usize,
) -> u8
    ensures opened { result ≡ 0
        → IsSomeAnd session.new.session_handle.state (IsSessionStateOfText text.now rules.Deno)
        × IsTruncatedCopyToBuffer [] out.old out.new needed.new }
    ensures no_graph { result ≡ 4 → (fault : FormatFault) × IsFormatFaultOfText text.now fault
        × IsTruncatedCopyToBuffer (format_fault_line fault) out.old out.new needed.new }
    ensures refused { result ≡ 5 → (fault : GraphFault) × IsFirstGraphFaultOfText text.now fault
        × IsTruncatedCopyToBuffer (graph_fault_line fault) out.old out.new needed.new }
    ensures memory { result ≡ 7
        → IsTruncatedCopyToBuffer out_of_memory_line out.old out.new needed.new }
    ensures no_other { (result ≡ 0) ⊎ (result ≡ 4) ⊎ (result ≡ 5) ⊎ (result ≡ 7) }
    ensures closed { result ≢ 0 → session.new.session_handle.state ≡ None }
{
    let keys = key_bytes(first_key, second_key);
    open_by_rules(alloc, keys, Rules::Deno, text, session, out, needed)
}

/// Opens a session as `symq_keyed_open` does, by strict rules (extension).
#[unsafe(no_mangle)]
pub extern "C" fn symq_strict_keyed_open(
    alloc: Global,
    first_key: u64,
    second_key: u64,
    text: &[u8],
    session: &mut Session,
    out: &mut [u8],
    needed: &mut usize,
) -> u8
    ensures opened { result ≡ 0
        → IsSomeAnd session.new.session_handle.state (IsSessionStateOfText text.now rules.Strict)
        × IsTruncatedCopyToBuffer [] out.old out.new needed.new }
    ensures no_graph { result ≡ 4 → (fault : FormatFault) × IsFormatFaultOfText text.now fault
        × IsTruncatedCopyToBuffer (format_fault_line fault) out.old out.new needed.new }
    ensures refused { result ≡ 5 → (fault : GraphFault) × IsFirstGraphFaultOfText text.now fault
        × IsTruncatedCopyToBuffer (graph_fault_line fault) out.old out.new needed.new }
    ensures memory { result ≡ 7
        → IsTruncatedCopyToBuffer out_of_memory_line out.old out.new needed.new }
    ensures no_other { (result ≡ 0) ⊎ (result ≡ 4) ⊎ (result ≡ 5) ⊎ (result ≡ 7) }
    ensures closed { result ≢ 0 → session.new.session_handle.state ≡ None }
{
    let keys = key_bytes(first_key, second_key);
    open_by_rules(alloc, keys, Rules::Strict, text, session, out, needed)
}
