//! Tests the status and the line of errors that no stored run shows.

use crate::Checked;
use deno_symbols::check::GraphFault;
use std::alloc::Global;
use symq_core::{EngineFault, ExitError, FormatFault};

/// Returns the error of each row.
fn exit_error(index: usize) -> ExitError {
    match index {
        0 => ExitError::Format(FormatFault::OutOfMemory),
        1 => ExitError::Graph(GraphFault::OutOfMemory),
        2 => ExitError::Engine(EngineFault::OutOfMemory),
        3 => ExitError::Engine(EngineFault::InputFailed),
        4 => ExitError::Engine(EngineFault::OutputFailed),
        _ => ExitError::Engine(EngineFault::InputTooLong),
    }
}

/// The status and the line of each error, and its name here.
const ROWS: [(u8, &str, &str); 6] = [
    (7, "symq: out of memory", "no memory for a text"),
    (7, "symq: out of memory", "no memory for a graph"),
    (7, "symq: out of memory", "no memory for the lines"),
    (6, "symq: input failed", "input failed"),
    (6, "symq: output failed", "output failed"),
    (6, "symq: input too long", "input too long"),
];

/// Returns whether an error has this line.
fn says(alloc: Global, exit_error: &ExitError, expected: &str) -> bool {
    match exit_error.line(alloc) {
        Ok(line) => line.as_str() == expected,
        Err(_) => false,
    }
}

#[test]
fn says_that_memory_or_a_stream_failed(rt: HostRuntime) -> Checked {
    for (index, (_, line, name)) in ROWS.iter().enumerate() {
        if !says(rt.alloc(), &exit_error(index), *line) {
            return Err(*name);
        }
    }
    Ok(())
}

#[test]
fn returns_memory_and_streams_by_status() -> Checked {
    for (index, (status, _, name)) in ROWS.iter().enumerate() {
        if exit_error(index).status() != *status {
            return Err(*name);
        }
    }
    Ok(())
}
