//! The C function that puts a module into the graph of a session.

ghost use Rattle.std.specs.Prelude.{◌≡◌, ◌≢◌, ◌⊎◌, [], None, IsSomeAnd};
ghost use Rattle.symbols_ast.specs.declared.graph.faults.GraphFault.{GraphFault};
ghost use Rattle.symq_reader.specs.declared.faults.FormatFault.{FormatFault};
ghost use Rattle.symq_core.specs.ExitLines.{format_fault_line, graph_fault_line};
ghost use Rattle.symq_core.specs.ExitLines.{out_of_memory_line};
ghost use Rattle.symq_c.specs.ModuleTexts.{IsFormatFaultOfModuleText, IsFirstFaultOfPut};
ghost use Rattle.symq_c.specs.OutBuffers.{IsTruncatedCopyToBuffer};
ghost use Rattle.symq_c.specs.Sessions.{IsSessionStateAfterPut, closed_session_line};

use crate::out_buffer::{hand_out, hand_out_line};
use crate::put_text::put_text;
use crate::session::Session;
use std::alloc::Global;

/// Puts the module of a text into the graph of a session (extension). The text is that of a graph
/// with this module alone, its resolutions, and no redirects. They replace the module of its
/// specifier and that module's resolutions, if there is one. It returns 0 and writes nothing; then
/// the session answers as one opened anew. Otherwise it returns 1 if the session is closed, 4 if
/// the text isn't of this form, 5 if the module is refused, or 7 if an allocation failed. Then it
/// writes a line that says so, and the session is as before. `needed` is as for `symq_answer`.
#[unsafe(no_mangle)]
pub extern "C" fn symq_put(
    alloc: Global,
    session: &mut Session,
    text: &[u8],
    out: &mut [u8],
    needed: &mut usize,
) -> u8
    ensures put { result ≡ 0 → IsSomeAnd session.old.session_handle.state (λ old.
        IsSomeAnd session.new.session_handle.state (IsSessionStateAfterPut text.now old))
        × IsTruncatedCopyToBuffer [] out.old out.new needed.new }
    ensures closed { result ≡ 1
        → (session.old.session_handle.state ≡ None)
        × IsTruncatedCopyToBuffer closed_session_line out.old out.new needed.new }
    ensures no_module { result ≡ 4 → IsSomeAnd session.old.session_handle.state (λ _.
        (fault : FormatFault) × IsFormatFaultOfModuleText text.now fault
        × IsTruncatedCopyToBuffer (format_fault_line fault) out.old out.new needed.new) }
    ensures refused { result ≡ 5 → IsSomeAnd session.old.session_handle.state (λ old.
        (fault : GraphFault) × IsFirstFaultOfPut text.now old.graph fault
        × IsTruncatedCopyToBuffer (graph_fault_line fault) out.old out.new needed.new) }
    ensures memory { result ≡ 7 → IsSomeAnd session.old.session_handle.state (λ _.
        IsTruncatedCopyToBuffer out_of_memory_line out.old out.new needed.new) }
    ensures no_other { (result ≡ 0) ⊎ (result ≡ 1) ⊎ (result ≡ 4) ⊎ (result ≡ 5) ⊎ (result ≡ 7) }
    ensures stays { result ≢ 0 → session.new.session_handle.state
        ≡ session.old.session_handle.state }
{
    let Some(mut state) = session.take(alloc) else {
        hand_out(b"symq: the session is closed", out, needed);
        return 1;
    };
    let put = put_text(alloc, &mut state.graph, text);
    *session = Session::of(state);
    match put {
        Ok(()) => {
            hand_out(b"", out, needed);
            0
        }
        Err(exit_error) => hand_out_line(alloc, &exit_error, out, needed),
    }
}
