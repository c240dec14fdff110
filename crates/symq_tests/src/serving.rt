//! Tests whole runs of the engine over memory, over streams and over devices that fail. The graph
//! is empty, and no line is a query. Runs of the program test the answers to queries.

ghost use Rattle.std.specs.Prelude.{◌<◌, Some};
ghost use Rattle.symq_core.specs.Devices.{COUNT_LIMIT};

use crate::Checked;
use deno_symbols::check::ModuleGraph;
use std::alloc::{AllocError, Global};
use symq_core::{
    DeviceFault, EngineFault, Input, MemoryInput, MemoryOutput, Output, ReaderInput, WriterOutput,
    read_graph, serve,
};

/// The answer to each line that is no query.
const BAD: &[u8] = b"{\"fault\":\"bad query\"}\n";

/// Returns the empty graph.
fn empty_graph(alloc: Global) -> Option<ModuleGraph> {
    let raw = read_graph(alloc, b"{}").ok()?;
    ModuleGraph::new(alloc, raw).ok()
}

/// Returns whether the bytes are exactly `count` answers to lines that are no queries.
fn are_bad_answers(bytes: &[u8], count: usize) -> bool {
    let mut left = bytes;
    for _ in 0..count {
        match left.strip_prefix(BAD) {
            Some(rest) => left = rest,
            None => return false,
        }
    }
    left.is_empty()
}

/// Serves over the empty graph. Only this function owns the graph, since a drop is proved anew for
/// each exit of its owner. It returns `None` if an allocation failed for the graph.
fn serve_over<R: Input, W: Output>(
    alloc: Global,
    reader: &mut R,
    writer: &mut W,
) -> Option<Result<(), EngineFault>>
    requires reads_countable { R.failures reader.old < COUNT_LIMIT }
    requires writes_countable { W.failures writer.old < COUNT_LIMIT }
{
    let graph = empty_graph(alloc)?;
    Some(serve(alloc, &graph, reader, writer))
}

/// Checks the answers to an input of `count` lines that are no queries.
fn answers_bad(alloc: Global, input: &[u8], count: usize) -> Checked {
    let mut reader = MemoryInput { rest: input };
    let mut writer = MemoryOutput::new(alloc);
    let served = serve_over(alloc, &mut reader, &mut writer);
    holds!(served == Some(Ok(())), "the input is served");
    holds!(are_bad_answers(&writer.bytes, count), "what is written");
    Ok(())
}

/// An input that returns its bytes, at most some at a time, and then ends or fails.
#[derive(Drop)]
struct Piecewise<'a> {
    rest: &'a [u8],
    most: usize,
    breaks: bool,
    failed: u64,
    ghost some: { 0 < most },
}

impl Input for Piecewise<'_> {
    ghost remaining = { λ s. Some s.rest.now };

    ghost failures = { λ s. s.failed };

    fn has_room(&self) -> bool {
        self.failed < u64::MAX
    }

    fn read(&mut self, buffer: &mut [u8]) -> Result<usize, DeviceFault> {
        if self.rest.is_empty() && self.breaks {
            self.failed += 1;
            return Err(DeviceFault);
        }
        let consumed = self.rest.len().min(buffer.len()).min(self.most);
        let (front, rest) = self.rest.split_at(consumed);
        buffer[..consumed].copy_from_slice(front);
        self.rest = rest;
        Ok(consumed)
    }
}

/// Checks that two lines are answered if a read fails after them and the front of a third.
fn answers_two(alloc: Global, most: usize) -> Checked
    requires { 0 < most }
{
    let mut reader = Piecewise {
        rest: b"no\nno\nno",
        most,
        breaks: true,
        failed: 0,
    };
    let mut writer = MemoryOutput::new(alloc);
    let served = serve_over(alloc, &mut reader, &mut writer);
    holds!(
        served == Some(Err(EngineFault::InputFailed)),
        "a failed read ends it"
    );
    holds!(reader.failed == 1, "nothing is read after a failed read");
    holds!(are_bad_answers(&writer.bytes, 2), "what is written");
    Ok(())
}

#[test]
fn answers_before_a_failed_read(rt: HostRuntime) -> Checked {
    answers_two(rt.alloc(), 1)?;
    answers_two(rt.alloc(), 5)?;
    answers_two(rt.alloc(), 100)
}

/// An output that accepts one byte at a time, up to a number of bytes, and then fails or accepts
/// nothing.
#[derive(Drop)]
struct Full {
    consumed: Vec<u8>,
    most: usize,
    fails: bool,
    failed: u64,
}

impl Output for Full {
    ghost failures = { λ s. s.failed };

    fn has_room(&self) -> bool {
        self.failed < u64::MAX
    }

    fn write(&mut self, bytes: &[u8]) -> Result<usize, DeviceFault> {
        if self.consumed.len() < self.most && self.consumed.push(bytes[0]).is_ok() {
            return Ok(1);
        }
        self.failed += 1;
        if self.fails { Err(DeviceFault) } else { Ok(0) }
    }
}

/// Checks that one answer and three bytes of the next are written if a write fails then.
fn writes_a_beginning(alloc: Global, fails: bool) -> Checked {
    let mut reader = MemoryInput { rest: b"no\nno\n" };
    let mut writer = Full {
        consumed: Vec::new(alloc),
        most: BAD.len() + 3,
        fails,
        failed: 0,
    };
    let served = serve_over(alloc, &mut reader, &mut writer);
    holds!(
        served == Some(Err(EngineFault::OutputFailed)),
        "a failed write ends it"
    );
    holds!(
        writer.failed == 1,
        "nothing is written after a failed write"
    );
    let expected = b"{\"fault\":\"bad query\"}\n{\"f".as_slice();
    holds!(writer.consumed.as_slice() == expected, "what is written");
    Ok(())
}

#[test]
fn fails_where_a_write_fails(rt: HostRuntime) -> Checked {
    writes_a_beginning(rt.alloc(), true)?;
    writes_a_beginning(rt.alloc(), false)
}

/// Returns lines of 70,000 bytes, of 140,000, of none, and of two without a line end.
fn long_lines(alloc: Global) -> Result<Vec<u8>, AllocError> {
    let mut text = vec![in alloc; b'n'; 70000]?;
    text.push(b'\n')?;
    let long = vec![in alloc; b'n'; 140000]?;
    text.extend_from_slice(long.as_slice())?;
    text.extend_from_slice(b"\n\nno")?;
    Ok(text)
}

fn answers_four(alloc: Global, text: &[u8], most: usize) -> Checked
    requires { 0 < most }
{
    let mut reader = Piecewise {
        rest: text,
        most,
        breaks: false,
        failed: 0,
    };
    let mut writer = MemoryOutput::new(alloc);
    let served = serve_over(alloc, &mut reader, &mut writer);
    holds!(served == Some(Ok(())), "the lines are served");
    holds!(are_bad_answers(&writer.bytes, 4), "what is written");
    Ok(())
}

/// Checks that blocks of each of four lengths give the same answers; there are two thousand blocks
/// of the shortest.
fn answers_in_blocks(alloc: Global, text: &[u8]) -> Checked {
    answers_four(alloc, text, 100)?;
    answers_four(alloc, text, 1000)?;
    answers_four(alloc, text, 65535)?;
    answers_four(alloc, text, 1000000)
}

#[test]
fn answers_lines_longer_than_a_block(rt: HostRuntime) -> Checked {
    match long_lines(rt.alloc()) {
        Ok(text) => answers_in_blocks(rt.alloc(), &text),
        Err(_) => Err("no memory"),
    }
}

#[test]
fn writes_more_answers_than_a_block(rt: HostRuntime) -> Checked {
    match vec![in rt.alloc(); b'\n'; 100000] {
        Ok(lines) => answers_bad(rt.alloc(), &lines, 100000),
        Err(_) => Err("no memory"),
    }
}

#[test]
fn answers_over_streams(rt: HostRuntime) -> Checked {
    let mut bytes: Vec<u8> = Vec::new(rt.alloc());
    let mut reader = ReaderInput::new(b"no\nno".as_slice());
    let mut writer = WriterOutput::new(&mut bytes);
    let served = serve_over(rt.alloc(), &mut reader, &mut writer);
    drop(writer);
    holds!(served == Some(Ok(())), "the stream is served");
    holds!(are_bad_answers(&bytes, 2), "what is written");
    Ok(())
}
