//! A session: answers the lines of an input, block by block.

ghost use Rattle.std.specs.Prelude.{◌≡◌, ◌+◌, ◌<◌, ◌++◌, ◌∷◌, [], ℕ, List, Option};
ghost use Rattle.std.specs.Prelude.{OnOk, OnErr, IfErr};
ghost use Rattle.std.specs.Io.KnownBytes.{Appends};
ghost use Rattle.symbols_root.specs.Growing.{HasGrown};
ghost use Rattle.symbols_root.specs.Roots.{widest_limits};
ghost use Rattle.symq_core.specs.AnswerTexts.{answer_text};
ghost use Rattle.symq_core.specs.Devices.{COUNT_LIMIT};
ghost use Rattle.symq_core.specs.Lines.{line_end, all_but_last, last_or_empty, nonempty_line};
ghost use Rattle.symq_core.specs.Lines.{answer_lines};
ghost use Rattle.symq_core.specs.Serving.{IsPrefixAppendedToOutput};
ghost use Rattle.symq_core.specs.inner.Sessions.{SendsText, IsLinesFault, IsWrittenLinesFault};
ghost use Rattle.symq_core.specs.inner.Sessions.{line_answer, split_with_partial_line};

use crate::answer_line::answer;
use crate::device::Output;
use crate::fault::EngineFault;
use crate::lines::split_line;
use crate::write_all::write_all;
use json::Scratch;
use std::alloc::{AllocError, Global};
use std::mem;
use symbols_graph::ModuleGraph;
use symbols_root::{Limits, RootSymbol, Rules};

/// The size of a read in bytes. Pending answers of at least this size are written at once.
pub(crate) const BLOCK: usize = 65536;

/// The modules that queries need, which are loaded on demand, and the state between two blocks of
/// input.
#[derive(Drop)]
pub(crate) struct Session<'g> {
    alloc: Global,
    root: RootSymbol<'g>,
    /// The front of a line whose end isn't read yet.
    line: Vec<u8>,
    /// Answers that aren't written yet.
    answers: Vec<u8>,
    /// The text of the last answer, retained as a buffer.
    text: Vec<u8>,
    /// The buffers for reading a line.
    scratch: Scratch,
    ghost widest: { root.limits ≡ widest_limits },
}

/// Appends the answer to a line and a line end to the pending answers. If it fails, they are as they
/// were. The buffer `text` is cleared and reused.
fn add_answer(
    alloc: Global,
    scratch: &mut Scratch,
    root: &mut RootSymbol<'_>,
    line: &[u8],
    text: &mut Vec<u8>,
    answers: &mut Vec<u8>,
) -> Result<(), AllocError>
    requires { root.old.limits ≡ widest_limits }
    ensures grown { HasGrown root.old root.new }
    ensures added { OnOk result (answers.new.items
        ≡ answers.old.items ++ (line_answer root.old line.now ++ line_end ∷ [])) }
    ensures retained { OnErr result (answers.new.items ≡ answers.old.items) }
{
    text.clear();
    let begun = mem::replace(text, Vec::new(alloc));
    let mut answered = answer(alloc, scratch, root, line, begun)?;
    answered.push(b'\n')?;
    answers.extend_from_slice(answered.as_slice())?;
    *text = answered;
    Ok(())
}

impl<'g> Session<'g> {
    /// Returns a session by these rules with no pending line and no pending answers.
    pub(crate) fn new(alloc: Global, graph: &'g ModuleGraph, rules: Rules) -> Session<'g>
        ensures answers_by { line_answer result.root ≡ answer_text rules graph.now }
        ensures line { result.line.items ≡ [] }
        ensures answers { result.answers.items ≡ [] }
    {
        let limits = Limits {
            modules: u32::MAX,
            symbols: u32::MAX,
        };
        Session {
            alloc,
            root: RootSymbol::with_rules(alloc, graph, rules, limits),
            line: Vec::new(alloc),
            answers: Vec::new(alloc),
            text: Vec::new(alloc),
            scratch: Scratch::new(alloc),
        }
    }

    /// Writes the pending answers. It fails if the output fails.
    fn flush<W: Output>(&mut self, writer: &mut W) -> Result<(), EngineFault>
        requires { W.failures writer.old < COUNT_LIMIT }
        ensures unchanged { (line_answer self.new.root ≡ line_answer self.old.root)
            × (self.new.line ≡ self.old.line) }
        ensures ok { OnOk result
            (Appends (W.written writer.old) (W.written writer.new) self.old.answers.items
            × (self.new.answers.items ≡ []) × (W.failures writer.new ≡ W.failures writer.old)) }
        ensures err { IfErr result (λ fault. (fault ≡ EngineFault.OutputFailed)
            × IsPrefixAppendedToOutput (W.written writer.old) (W.written writer.new)
            self.old.answers.items × (W.failures writer.new ≡ W.failures writer.old + 1)) }
    {
        write_all(writer, self.answers.as_slice())?;
        self.answers.clear();
        Ok(())
    }

    /// Writes the pending answers after a failed allocation, and returns the fault that ends the
    /// session: the given one, or that of the output if it fails, too.
    fn write_before_fault<W: Output>(&mut self, writer: &mut W, fault: EngineFault) -> EngineFault
        requires { fault ≡ EngineFault.OutOfMemory → W.failures writer.old < COUNT_LIMIT }
        ensures { (answer : List ℕ → List ℕ) (lines : List (List ℕ)) (begun : Option (List ℕ))
            (waiting : List ℕ) (count : ℕ)
            → IsLinesFault answer lines begun (W.written writer.old) waiting
            self.old.answers.items count (W.failures writer.old) fault
            → IsWrittenLinesFault answer lines begun (W.written writer.new) waiting count
            (W.failures writer.new) result }
    {
        match fault {
            EngineFault::OutOfMemory => match self.flush(writer) {
                Ok(()) => fault,
                Err(of_output) => of_output,
            },
            _ => fault,
        }
    }

    /// Answers the line that ends with these bytes, and clears the pending line. If it fails, the
    /// pending answers are as they were.
    fn end_line(&mut self, tail: &[u8]) -> Result<(), AllocError>
        ensures same { line_answer self.new.root ≡ line_answer self.old.root }
        ensures ended { OnOk result ((self.new.line.items ≡ []) × (self.new.answers.items
            ≡ self.old.answers.items
            ++ (line_answer self.old.root (self.old.line.items ++ tail.now) ++ line_end ∷ []))) }
        ensures retained { OnErr result (self.new.answers.items ≡ self.old.answers.items) }
    {
        if self.line.is_empty() {
            return add_answer(
                self.alloc,
                &mut self.scratch,
                &mut self.root,
                tail,
                &mut self.text,
                &mut self.answers,
            );
        }
        self.line.extend_from_slice(tail)?;
        add_answer(
            self.alloc,
            &mut self.scratch,
            &mut self.root,
            self.line.as_slice(),
            &mut self.text,
            &mut self.answers,
        )?;
        self.line.clear();
        Ok(())
    }

    /// Answers the line that ends with these bytes. It writes the pending answers if they fill a
    /// block.
    fn take_line<W: Output>(&mut self, writer: &mut W, tail: &[u8]) -> Result<(), EngineFault>
        requires { W.failures writer.old < COUNT_LIMIT }
        ensures same { line_answer self.new.root ≡ line_answer self.old.root }
        ensures ok { OnOk result (SendsText (W.written writer.old) (W.written writer.new)
            self.old.answers.items self.new.answers.items
            (answer_lines (line_answer self.old.root) ((self.old.line.items ++ tail.now) ∷ []))
            × (self.new.line.items ≡ []) × (W.failures writer.new ≡ W.failures writer.old)) }
        ensures err { IfErr result (IsLinesFault (line_answer self.old.root)
            ((self.old.line.items ++ tail.now) ∷ []) (W.written writer.old) (W.written writer.new)
            self.old.answers.items self.new.answers.items (W.failures writer.old)
            (W.failures writer.new)) }
    {
        self.end_line(tail)?;
        if BLOCK <= self.answers.len() {
            self.flush(writer)?;
        }
        Ok(())
    }

    /// Answers the lines that end in the block and writes the answers. The last line is retained if
    /// it has no end yet. If an allocation fails, the answers before it are pending.
    fn answer_block<W: Output>(&mut self, writer: &mut W, block: &[u8]) -> Result<(), EngineFault>
        requires { W.failures writer.old < COUNT_LIMIT }
        ensures same { line_answer self.new.root ≡ line_answer self.old.root }
        ensures ok { OnOk result
            (Appends (W.written writer.old) (W.written writer.new) (self.old.answers.items
            ++ answer_lines (line_answer self.old.root) (all_but_last
            (split_with_partial_line self.old.line.items block.now)))
            × (self.new.answers.items ≡ [])
            × (self.new.line.items ≡ last_or_empty
            (split_with_partial_line self.old.line.items block.now))
            × (W.failures writer.new ≡ W.failures writer.old)) }
        ensures err { IfErr result (IsLinesFault (line_answer self.old.root)
            (all_but_last (split_with_partial_line self.old.line.items block.now))
            (W.written writer.old) (W.written writer.new) self.old.answers.items
            self.new.answers.items (W.failures writer.old) (W.failures writer.new)) }
    {
        let mut rest = block;
        'lines: while let Some((line, more)) = split_line(rest) {
            self.take_line(writer, line)?;
            rest = more;
        }
        self.line.extend_from_slice(rest)?;
        self.flush(writer)
    }

    /// Answers the lines that end in the block and writes the answers. The last line is retained if
    /// it has no end yet. If an allocation fails, the answers before it are written.
    pub(crate) fn take_block<W: Output>(
        &mut self,
        writer: &mut W,
        block: &[u8],
    ) -> Result<(), EngineFault>
        requires { W.failures writer.old < COUNT_LIMIT }
        ensures same { OnOk result (line_answer self.new.root ≡ line_answer self.old.root) }
        ensures ok { OnOk result
            (Appends (W.written writer.old) (W.written writer.new) (self.old.answers.items
            ++ answer_lines (line_answer self.old.root) (all_but_last
            (split_with_partial_line self.old.line.items block.now)))
            × (self.new.answers.items ≡ [])
            × (self.new.line.items ≡ last_or_empty
            (split_with_partial_line self.old.line.items block.now))
            × (W.failures writer.new ≡ W.failures writer.old)) }
        ensures err { IfErr result (IsWrittenLinesFault (line_answer self.old.root)
            (all_but_last (split_with_partial_line self.old.line.items block.now))
            (W.written writer.old) (W.written writer.new) self.old.answers.items
            (W.failures writer.old) (W.failures writer.new)) }
    {
        match self.answer_block(writer, block) {
            Ok(()) => Ok(()),
            Err(fault) => Err(self.write_before_fault(writer, fault)),
        }
    }

    /// Answers a last line without a line end, and writes the pending answers. If an allocation
    /// fails, the answers before it are pending.
    fn answer_last_line<W: Output>(&mut self, writer: &mut W) -> Result<(), EngineFault>
        requires { W.failures writer.old < COUNT_LIMIT }
        ensures ok { OnOk result
            (Appends (W.written writer.old) (W.written writer.new) (self.old.answers.items
            ++ answer_lines (line_answer self.old.root) (nonempty_line self.old.line.items))
            × (W.failures writer.new ≡ W.failures writer.old)) }
        ensures err { IfErr result (IsLinesFault (line_answer self.old.root)
            (nonempty_line self.old.line.items) (W.written writer.old) (W.written writer.new)
            self.old.answers.items self.new.answers.items (W.failures writer.old)
            (W.failures writer.new)) }
    {
        if self.line.is_empty() {
            return self.flush(writer);
        }
        self.take_line(writer, b"")?;
        self.flush(writer)
    }

    /// Answers a last line without a line end, and writes the pending answers. If an allocation
    /// fails, the answers before it are written.
    pub(crate) fn finish<W: Output>(&mut self, writer: &mut W) -> Result<(), EngineFault>
        requires { W.failures writer.old < COUNT_LIMIT }
        ensures ok { OnOk result
            (Appends (W.written writer.old) (W.written writer.new) (self.old.answers.items
            ++ answer_lines (line_answer self.old.root) (nonempty_line self.old.line.items))
            × (W.failures writer.new ≡ W.failures writer.old)) }
        ensures err { IfErr result (IsWrittenLinesFault (line_answer self.old.root)
            (nonempty_line self.old.line.items) (W.written writer.old) (W.written writer.new)
            self.old.answers.items (W.failures writer.old) (W.failures writer.new)) }
    {
        match self.answer_last_line(writer) {
            Ok(()) => Ok(()),
            Err(fault) => Err(self.write_before_fault(writer, fault)),
        }
    }
}
