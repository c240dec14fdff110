//! The fast path for graphs: reads node by node, without a JSON value of the whole text.
//!
//! If it returns a graph, `serde_json`'s value of the bytes describes that graph. It gives up on
//! everything unsupported: a text that is no JSON or has the wrong form, and a number that isn't
//! whole, under any key. A list in a node has to be one of whole numbers, or a string with one
//! number. It also gives up if one object has the modules, a tree or the nodes twice.

ghost use Rattle.std.specs.Prelude.{◌≡◌, IfOk, Ok};
ghost use Rattle.symq_reader.specs.GraphText.{raw_graph_view, read_outcome_of_bytes, require_object};
ghost use Rattle.symq_reader.specs.GraphText.{graph_of_json_fields};
ghost use Rattle.symq_reader.specs.inner.Streams.{ReadsMembers, ReadsValue};
ghost use Rattle.symq_reader.specs.inner.Outcomes.{fast_path_fault_of_format_fault};
ghost use Rattle.symq_reader.specs.inner.Outcomes.{fast_path_fault_of_json_error};
ghost use Rattle.symq_reader.specs.declared.stream.FastPathFault.TheVariants.{OutOfMemory};
ghost use Rattle.symq_reader.specs.declared.stream.FastPathFault.TheVariants.{Unsupported};

mod entries;
mod members;
mod modules;
mod pieces;
mod trees;

use crate::faults::FormatFault;
use crate::graph;
use json::{Error, Invalid, Reader, Scratch, Token, Value};
use std::alloc::{AllocError, AllocFailed, Global};
use symbols_ast::graph::RawGraph;

/// The reason why the fast path returns no graph.
#[derive(Clone, Copy, Drop)]
pub(crate) enum FastPathFault {
    /// An allocation failed.
    OutOfMemory,
    /// The text is unsupported on the fast path.
    Unsupported,
}

impl From<AllocError> for FastPathFault {
    ghost from_gives = { λ _ why. why ≡ OutOfMemory };

    fn from(_error: AllocError) -> FastPathFault {
        FastPathFault::OutOfMemory
    }
}

impl<T: Drop> From<AllocFailed<T>> for FastPathFault {
    ghost from_gives = { λ _ why. why ≡ OutOfMemory };

    fn from(_error: AllocFailed<T>) -> FastPathFault {
        FastPathFault::OutOfMemory
    }
}

impl From<Invalid> for FastPathFault {
    ghost from_gives = { λ _ why. why ≡ Unsupported };

    fn from(_error: Invalid) -> FastPathFault {
        FastPathFault::Unsupported
    }
}

impl From<Error> for FastPathFault {
    ghost from_gives = { λ error why. why ≡ fast_path_fault_of_json_error error };

    fn from(error: Error) -> FastPathFault {
        match error {
            Error::OutOfMemory => FastPathFault::OutOfMemory,
            _ => FastPathFault::Unsupported,
        }
    }
}

impl From<FormatFault> for FastPathFault {
    ghost from_gives = { λ fault why. why ≡ fast_path_fault_of_format_fault fault };

    fn from(fault: FormatFault) -> FastPathFault {
        match fault {
            FormatFault::OutOfMemory => FastPathFault::OutOfMemory,
            _ => FastPathFault::Unsupported,
        }
    }
}

/// Reads a graph from the members of an object, after its brace.
fn graph_members(alloc: Global, reader: &mut Reader<'_>) -> Result<RawGraph, FastPathFault>
    ensures { IfOk result (λ graph. ReadsMembers 126 reader.old reader.new
        (require_object graph_of_json_fields) (raw_graph_view graph)) }
{
    let mut retained = Vec::new(alloc);
    let found = modules::modules_among(alloc, reader, &mut retained)?;
    let mut graph = graph::graph(alloc, &Value::Object(retained))?;
    graph.modules = found;
    Ok(graph)
}

/// Reads a graph from the next JSON value.
fn graph_value(alloc: Global, reader: &mut Reader<'_>) -> Result<RawGraph, FastPathFault>
    ensures { IfOk result (λ graph. ReadsValue 127 reader.old reader.new
        (require_object graph_of_json_fields) (raw_graph_view graph)) }
{
    let Some(Token::BeginObject) = reader.next() else {
        return Err(FastPathFault::Unsupported);
    };
    graph_members(alloc, reader)
}

/// Reads a graph from the bytes with one reader for the whole text.
fn graph_at_once(alloc: Global, bytes: &[u8]) -> Result<RawGraph, FastPathFault>
    ensures { IfOk result (λ graph. read_outcome_of_bytes bytes.now ≡ Ok (raw_graph_view graph)) }
{
    let Ok(text) = simdutf8::compat::from_utf8(bytes) else {
        return Err(FastPathFault::Unsupported);
    };
    let mut scratch = Scratch::new(alloc);
    let mut reader = Reader::new(text, &mut scratch)?;
    let graph = graph_value(alloc, &mut reader)?;
    match reader.next() {
        Some(_) => Err(FastPathFault::Unsupported),
        None => Ok(graph),
    }
}

/// Returns the graph of a text on the fast path. It gives up if the text is unsupported or an
/// allocation failed.
pub(crate) fn graph(alloc: Global, bytes: &[u8]) -> Result<RawGraph, FastPathFault>
    ensures { IfOk result (λ graph. read_outcome_of_bytes bytes.now ≡ Ok (raw_graph_view graph)) }
{
    match pieces::after_opening(bytes) {
        Some(list) => pieces::graph(alloc, list),
        None => graph_at_once(alloc, bytes),
    }
}
