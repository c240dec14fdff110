//! Reads graphs of any form by a JSON value of the whole text.

ghost use Rattle.std.specs.Prelude.{◌≡◌, [], IfOk, MatchOption, Some, None};
ghost use Rattle.json.specs.Json.{value};
ghost use Rattle.json.specs.Lex.{tokens};
ghost use Rattle.json.specs.Value.{value_view};
ghost use Rattle.serde_json.specs.Read.{max_depth, read};
ghost use Rattle.std.specs.Str.{IsUtf8};
ghost use Rattle.symq_reader.specs.GraphText.{IsReadOutcome, read_outcome_of_bytes};

use crate::faults::FormatFault;
use crate::stream::FastPathFault;
use crate::{graph, numbers, stream};
use json::{Error, Reader, Scratch, Value};
use std::alloc::{AllocError, Global};
use symbols_ast::graph::RawGraph;

/// Returns the JSON value of a text; `None` if it is no JSON. It fails only if an allocation
/// failed.
pub(crate) fn whole_value<'a>(
    alloc: Global,
    text: &'a str,
    scratch: &'a mut Scratch,
) -> Result<Option<Value<'a>>, AllocError>
    ensures { IfOk result (λ o. MatchOption o (read text.now ≡ None)
        (λ found. value max_depth (tokens text.now) ≡ Some (value_view found, []))) }
{
    let mut reader = Reader::new(text, scratch)?;
    let value = match Value::read(alloc, &mut reader, 127) {
        Ok(value) => value,
        Err(Error::Invalid) => return Ok(None),
        Err(_) => return Err(AllocError),
    };
    match reader.next() {
        Some(_) => Ok(None),
        None => Ok(Some(value)),
    }
}

/// Returns the graph of bytes whose value is given, by the rules of `serde_json` for numbers.
fn graph_by_numbers(alloc: Global, bytes: &[u8], found: &Value<'_>) -> Result<RawGraph, FormatFault>
    requires utf8 { IsUtf8 bytes.now }
    requires read { value max_depth (tokens bytes.now) ≡ Some (value_view found.now, []) }
    ensures { IsReadOutcome result (read_outcome_of_bytes bytes.now) }
{
    match serde_json::Value::from_slice(alloc, bytes) {
        Ok(read) => {
            if !numbers::has_whole_numbers(&read) {
                return Err(FormatFault::BadForm);
            }
            drop(read);
            graph::graph(alloc, found)
        }
        Err(error) if error.is_memory() => Err(FormatFault::OutOfMemory),
        Err(_) => Err(FormatFault::NotJson),
    }
}

/// Returns the graph that the bytes describe. If a number in them isn't whole, `serde_json`
/// decides: a number out of range is no JSON, and a number that a later key replaces doesn't count.
fn graph_of_any_form(alloc: Global, bytes: &[u8]) -> Result<RawGraph, FormatFault>
    ensures { IsReadOutcome result (read_outcome_of_bytes bytes.now) }
{
    let Ok(text) = simdutf8::compat::from_utf8(bytes) else {
        return Err(FormatFault::NotJson);
    };
    let mut scratch = Scratch::new(alloc);
    let Some(found) = whole_value(alloc, text, &mut scratch)? else {
        return Err(FormatFault::NotJson);
    };
    if numbers::fits(&found) {
        graph::graph(alloc, &found)
    } else {
        graph_by_numbers(alloc, bytes, &found)
    }
}

/// Returns the graph that bytes describe, by the form of `specs/GraphText.antt` and
/// `specs/KindTable.antt` (extensions). Keys that an object's kind doesn't have are ignored, and of
/// a repeated key the last value counts. A number under a key that counts has to be whole and fit
/// 64 bits; otherwise it is a `BadForm`. The graph itself isn't checked. It is read node by node.
/// If that is unsupported, it is read by a JSON value of the whole text.
pub fn read_graph(alloc: Global, bytes: &[u8]) -> Result<RawGraph, FormatFault>
    ensures { IsReadOutcome result (read_outcome_of_bytes bytes.now) }
{
    match stream::graph(alloc, bytes) {
        Ok(graph) => Ok(graph),
        Err(FastPathFault::OutOfMemory) => Err(FormatFault::OutOfMemory),
        Err(FastPathFault::Unsupported) => graph_of_any_form(alloc, bytes),
    }
}
