//! `symq [--strict] GRAPH`: reads a module graph, then answers query lines from standard input.
#![tactic(auto)]

use std::io;
use std::mem::ManuallyDrop;
use std::process::ExitCode;
use std::random::RandomSource;
use std::rt::{Env, Files};
use symq_core::{ExitError, ReaderInput, WriterOutput, keyed_graph, read_args, serve_with};

/// The size in bytes of a block that is allocated and freed at start. This raises glibc's threshold
/// for mmap to nearly its maximum, so freed blocks up to this size are reused.
const FREED_AT_START: usize = 33_000_000;

fn run<R: Files + Env + AllocGlobal + Input + Print + RandomSource>(
    rt: &R,
) -> Result<(), ExitError> {
    // so the graph's tables reuse the memory of the reader, and not fresh pages that the system has
    // to clear
    drop(Vec::<u8>::with_capacity(rt.alloc(), FREED_AT_START));
    let (rules, raw) = read_args(rt)?;
    // never dropped: the process ends after it and frees all its memory
    let graph = ManuallyDrop::new(keyed_graph(rt.alloc(), rt, raw).map_err(ExitError::Graph)?);
    let mut input = ReaderInput::new(rt.reader());
    let mut output = WriterOutput::new(io::writer(rt));
    serve_with(rt.alloc(), &graph, rules, &mut input, &mut output).map_err(ExitError::Engine)
}

fn main(rt: HostRuntime) -> ExitCode {
    let Err(exit_error) = run(&rt) else {
        return ExitCode::SUCCESS;
    };
    match exit_error.line(rt.alloc()) {
        Ok(line) => {
            let _ = eprintln!(rt; "{line}");
            ExitCode::from(exit_error.status())
        }
        Err(_) => ExitCode::from(7),
    }
}
