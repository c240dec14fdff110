//! The C functions of a session, which retains a graph between calls.

ghost use Rattle.std.specs.Prelude.{◌≡◌, ◌≢◌, ◌⊎◌, [], None, IsSomeAnd};
ghost use Rattle.symbols_ast.specs.declared.graph.faults.GraphFault.{GraphFault};
ghost use Rattle.symbols_root.specs.declared.rules.Rules.TheVariants as rules;
ghost use Rattle.symq_reader.specs.declared.faults.FormatFault.{FormatFault};
ghost use Rattle.symq_core.specs.AnswerTexts.{answer_text};
ghost use Rattle.symq_core.specs.Lines.{output_text_of};
ghost use Rattle.symq_core.specs.ExitLines.{format_fault_line, graph_fault_line};
ghost use Rattle.symq_core.specs.ExitLines.{out_of_memory_line};
ghost use Rattle.symq_c.specs.GraphTexts.{IsFormatFaultOfText, IsFirstGraphFaultOfText};
ghost use Rattle.symq_c.specs.OutBuffers.{IsTruncatedCopyToBuffer};
ghost use Rattle.symq_c.specs.Sessions.{IsSessionStateOfText, closed_session_line};

use crate::answer_calls::answer_over;
use crate::out_buffer::{hand_out, hand_out_line};
use crate::session::Session;
use crate::session_state::state_of;
use std::alloc::Global;
use symbols_graph::KeyBytes;
use symbols_root::Rules;

/// Opens a session by these rules over the graph of a text, whose maps hash with keys from these
/// bytes. The former state of the session is freed.
pub(crate) fn open_by_rules(
    alloc: Global,
    key_bytes: KeyBytes,
    rules: Rules,
    text: &[u8],
    session: &mut Session,
    out: &mut [u8],
    needed: &mut usize,
) -> u8
    ensures opened { result ≡ 0
        → IsSomeAnd session.new.session_handle.state (IsSessionStateOfText text.now rules)
        × IsTruncatedCopyToBuffer [] out.old out.new needed.new }
    ensures no_graph { result ≡ 4 → (fault : FormatFault) × IsFormatFaultOfText text.now fault
        × IsTruncatedCopyToBuffer (format_fault_line fault) out.old out.new needed.new }
    ensures refused { result ≡ 5 → (fault : GraphFault) × IsFirstGraphFaultOfText text.now fault
        × IsTruncatedCopyToBuffer (graph_fault_line fault) out.old out.new needed.new }
    ensures memory { result ≡ 7
        → IsTruncatedCopyToBuffer out_of_memory_line out.old out.new needed.new }
    ensures no_other { (result ≡ 0) ⊎ (result ≡ 4) ⊎ (result ≡ 5) ⊎ (result ≡ 7) }
    ensures closed { result ≢ 0 → session.new.session_handle.state ≡ None }
{
    *session = Session::closed(alloc);
    let state = match state_of(alloc, key_bytes, rules, text) {
        Ok(state) => state,
        Err(exit_error) => return hand_out_line(alloc, &exit_error, out, needed),
    };
    *session = Session::of(state);
    hand_out(b"", out, needed);
    0
}

/// Opens a session by Deno's rules over the graph of a text, which is read and checked once
/// (extension). It returns 0 and writes nothing. Otherwise it returns a status of `symq_answer` and
/// writes its line, and the session is closed. What the session held before is freed.
#[unsafe(no_mangle)]
pub extern "C" fn symq_open(
    alloc: Global,
    text: &[u8],
    session: &mut Session,
    out: &mut [u8],
    needed: &mut usize,
) -> u8
    ensures opened { result ≡ 0
        → IsSomeAnd session.new.session_handle.state (IsSessionStateOfText text.now rules.Deno)
        × IsTruncatedCopyToBuffer [] out.old out.new needed.new }
    ensures no_graph { result ≡ 4 → (fault : FormatFault) × IsFormatFaultOfText text.now fault
        × IsTruncatedCopyToBuffer (format_fault_line fault) out.old out.new needed.new }
    ensures refused { result ≡ 5 → (fault : GraphFault) × IsFirstGraphFaultOfText text.now fault
        × IsTruncatedCopyToBuffer (graph_fault_line fault) out.old out.new needed.new }
    ensures memory { result ≡ 7
        → IsTruncatedCopyToBuffer out_of_memory_line out.old out.new needed.new }
    ensures no_other { (result ≡ 0) ⊎ (result ≡ 4) ⊎ (result ≡ 5) ⊎ (result ≡ 7) }
    ensures closed { result ≢ 0 → session.new.session_handle.state ≡ None }
{
    let fixed = KeyBytes::new([0; 16]);
    open_by_rules(alloc, fixed, Rules::Deno, text, session, out, needed)
}

/// Opens a session as `symq_open` does, by strict rules (extension).
#[unsafe(no_mangle)]
pub extern "C" fn symq_strict_open(
    alloc: Global,
    text: &[u8],
    session: &mut Session,
    out: &mut [u8],
    needed: &mut usize,
) -> u8
    ensures opened { result ≡ 0
        → IsSomeAnd session.new.session_handle.state (IsSessionStateOfText text.now rules.Strict)
        × IsTruncatedCopyToBuffer [] out.old out.new needed.new }
    ensures no_graph { result ≡ 4 → (fault : FormatFault) × IsFormatFaultOfText text.now fault
        × IsTruncatedCopyToBuffer (format_fault_line fault) out.old out.new needed.new }
    ensures refused { result ≡ 5 → (fault : GraphFault) × IsFirstGraphFaultOfText text.now fault
        × IsTruncatedCopyToBuffer (graph_fault_line fault) out.old out.new needed.new }
    ensures memory { result ≡ 7
        → IsTruncatedCopyToBuffer out_of_memory_line out.old out.new needed.new }
    ensures no_other { (result ≡ 0) ⊎ (result ≡ 4) ⊎ (result ≡ 5) ⊎ (result ≡ 7) }
    ensures closed { result ≢ 0 → session.new.session_handle.state ≡ None }
{
    let fixed = KeyBytes::new([0; 16]);
    open_by_rules(alloc, fixed, Rules::Strict, text, session, out, needed)
}

/// Answers query lines over the graph of a session, which doesn't change (extension). It returns 0
/// and writes the answers to the front of `out`; 7 if an allocation failed; or 1 if the session is
/// closed. With 1 or 7 it writes a line that says so. `needed` is as for `symq_answer`.
#[unsafe(no_mangle)]
pub extern "C" fn symq_ask(
    alloc: Global,
    session: &mut Session,
    lines: &[u8],
    out: &mut [u8],
    needed: &mut usize,
) -> u8
    ensures answered { result ≡ 0 → IsSomeAnd session.old.session_handle.state
        (λ state. IsTruncatedCopyToBuffer
        (output_text_of (answer_text state.rules state.graph) lines.now) out.old out.new
        needed.new) }
    ensures closed { result ≡ 1
        → (session.old.session_handle.state ≡ None)
        × IsTruncatedCopyToBuffer closed_session_line out.old out.new needed.new }
    ensures memory { result ≡ 7 → IsSomeAnd session.old.session_handle.state (λ _.
        IsTruncatedCopyToBuffer out_of_memory_line out.old out.new needed.new) }
    ensures no_other { (result ≡ 0) ⊎ (result ≡ 1) ⊎ (result ≡ 7) }
    ensures stays { session.new.session_handle.state ≡ session.old.session_handle.state }
{
    match session.take(alloc) {
        Some(state) => {
            let status = answer_over(alloc, state.rules, &state.graph, lines, out, needed);
            *session = Session::of(state);
            status
        }
        None => {
            hand_out(b"symq: the session is closed", out, needed);
            1
        }
    }
}

/// Frees what a session holds, and leaves it closed. It may be opened again.
#[unsafe(no_mangle)]
pub extern "C" fn symq_close(alloc: Global, session: &mut Session)
    ensures { session.new.session_handle.state ≡ None }
{
    drop(session.take(alloc));
}
