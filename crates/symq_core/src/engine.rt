//! The engine: reads blocks of query lines and writes the answers.

ghost use Rattle.std.specs.Prelude.{◌≡◌, ◌<◌, vec_len, OnOk, IfOk, IfErr, IfSome};
ghost use Rattle.std.specs.Io.KnownBytes.{Appends};
ghost use Rattle.symbols_root.specs.declared.rules.Rules.TheVariants as rules;
ghost use Rattle.symq_core.specs.AnswerTexts.{answer_text};
ghost use Rattle.symq_core.specs.Devices.{COUNT_LIMIT};
ghost use Rattle.symq_core.specs.Lines.{output_text_of};
ghost use Rattle.symq_core.specs.Serving.{IsServeFault, CountsFailures};

use crate::device::{Input, Output};
use crate::fault::EngineFault;
use crate::session::{BLOCK, Session};
use std::alloc::{AllocError, Global};
use symbols_graph::ModuleGraph;
use symbols_root::Rules;

/// Returns a buffer of this length, filled with zeros.
fn zeros(alloc: Global, len: usize) -> Result<Vec<u8>, AllocError>
    ensures { IfOk result (λ buffer. vec_len buffer ≡ len) }
{
    Ok(vec![in alloc; 0; len]?)
}

/// Answers each line of the input by Deno's rules, in order, until its end. It does what
/// `serve_with` does.
pub fn serve<R: Input, W: Output>(
    alloc: Global,
    graph: &ModuleGraph,
    reader: &mut R,
    writer: &mut W,
) -> Result<(), EngineFault>
    requires reads_countable { R.failures reader.old < COUNT_LIMIT }
    requires writes_countable { W.failures writer.old < COUNT_LIMIT }
    ensures served { OnOk result (IfSome (R.remaining reader.old) (λ input.
        Appends (W.written writer.old) (W.written writer.new)
        (output_text_of (answer_text rules.Deno graph.now) input))) }
    ensures fails { IfErr result (λ fault. IsServeFault (answer_text rules.Deno graph.now) fault
        (R.remaining reader.old) (R.remaining reader.new) (W.written writer.old)
        (W.written writer.new)) }
    ensures counted { CountsFailures result (R.failures reader.old) (R.failures reader.new)
        (W.failures writer.old) (W.failures writer.new) }
{
    serve_with(alloc, graph, Rules::Deno, reader, writer)
}

/// Answers each line of the input by these rules, in order, until its end. A line ends with `\n`;
/// the last line may lack it. Nothing after the last `\n` is no further line. The answers to the
/// lines that one read completes are written before the next read. It fails if a read, a write or
/// an allocation fails, or if the input is too long.
pub fn serve_with<R: Input, W: Output>(
    alloc: Global,
    graph: &ModuleGraph,
    rules: Rules,
    reader: &mut R,
    writer: &mut W,
) -> Result<(), EngineFault>
    requires reads_countable { R.failures reader.old < COUNT_LIMIT }
    requires writes_countable { W.failures writer.old < COUNT_LIMIT }
    ensures served { OnOk result (IfSome (R.remaining reader.old) (λ input.
        Appends (W.written writer.old) (W.written writer.new)
        (output_text_of (answer_text rules graph.now) input))) }
    ensures fails { IfErr result (λ fault. IsServeFault (answer_text rules graph.now) fault
        (R.remaining reader.old) (R.remaining reader.new) (W.written writer.old)
        (W.written writer.new)) }
    ensures counted { CountsFailures result (R.failures reader.old) (R.failures reader.new)
        (W.failures writer.old) (W.failures writer.new) }
{
    let mut bytes = zeros(alloc, BLOCK)?;
    let buffer = bytes.as_mut_slice();
    let mut session = Session::new(alloc, graph, rules);
    for read_index in 0..u64::MAX {
        let Ok(read) = reader.read(buffer) else {
            return Err(EngineFault::InputFailed);
        };
        if read == 0 {
            return session.finish(writer);
        }
        session.take_block(writer, &buffer[..read])?;
    }
    Err(EngineFault::InputTooLong)
}
