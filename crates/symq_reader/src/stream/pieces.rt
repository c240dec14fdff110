//! Reads a graph whose text begins with its modules, piece by piece. So the token buffers are as
//! large as a piece, and not as the whole text.
//!
//! A piece is some modules, cut from those after it at a comma. The cut is a guess. Reading the
//! piece verifies that it is between two modules.

ghost use Rattle.std.specs.Prelude.{◌≡◌, ◌++◌, ◌∷◌, [], MatchBool, IfSome, IfOk, OnOk, Ok};
ghost use Rattle.symq_reader.specs.GraphText.{raw_graph_view, read_outcome_of_bytes};
ghost use Rattle.symq_reader.specs.inner.Pieces.{graph_text_opening, IsPieceCut, ConsumesModule};
ghost use Rattle.symq_reader.specs.inner.Pieces.{ReadsPiece, ReadsPieces};

use crate::ends::{after, before};
use crate::graph;
use crate::stream::{FastPathFault, members, modules};
use json::{Reader, Scratch, Token, Value};
use memchr::memmem::find;
use std::alloc::Global;
use symbols_ast::graph::{RawGraph, RawModule};

/// The minimal size of a piece in bytes.
const PIECE: usize = 4_096;

/// Returns the bytes after `{"modules":[`; `None` if the text doesn't begin so.
pub(crate) fn after_opening(bytes: &[u8]) -> Option<&[u8]>
    ensures { IfSome result (λ list. bytes.now ≡ graph_text_opening ++ list.now) }
{
    let mut list = bytes;
    'graph_text_opening: for byte in b"{\"modules\":[" {
        list = after(list, *byte)?;
    }
    Some(list)
}

/// Returns the first piece, and the bytes after its comma. It is `None` if no module begins past
/// the minimal size.
fn cut(bytes: &[u8]) -> Option<(&[u8], &[u8])>
    ensures { IfSome result (λ parts. IsPieceCut bytes.now parts.0.now parts.1.now) }
{
    if bytes.len() <= PIECE {
        return None;
    }
    let (_, far) = bytes.split_at(PIECE);
    let at = PIECE + find(far, b"{\"specifier\":")?;
    if at > bytes.len() {
        return None;
    }
    let (front, rest) = bytes.split_at(at);
    let front = match before(front, b'\n') {
        Some(front) => front,
        None => front,
    };
    let piece = before(front, b',')?;
    before(piece, b'}')?;
    after(rest, b'{')?;
    Some((piece, rest))
}

/// Reads one more module. Returns whether the piece had one.
fn next_module(
    alloc: Global,
    reader: &mut Reader<'_>,
    found: &mut Vec<RawModule>,
) -> Result<bool, FastPathFault>
    ensures { IfOk result (λ is_one. MatchBool is_one
        (ConsumesModule reader.old reader.new found.old.items found.new.items)
        ((reader.old ≡ []) × (found.new.items ≡ found.old.items))) }
{
    match reader.next() {
        Some(Token::BeginObject) => {
            found.push(modules::module_members(alloc, reader)?)?;
            Ok(true)
        }
        Some(_) => Err(FastPathFault::Unsupported),
        None => Ok(false),
    }
}

/// Reads the modules of a piece and appends them.
fn piece(
    alloc: Global,
    bytes: &[u8],
    scratch: &mut Scratch,
    found: &mut Vec<RawModule>,
) -> Result<(), FastPathFault>
    ensures { OnOk result (ReadsPiece bytes.now found.old.items found.new.items) }
{
    let Ok(text) = simdutf8::compat::from_utf8(bytes) else {
        return Err(FastPathFault::Unsupported);
    };
    let mut reader = Reader::new(text, scratch)?;
    'modules: while next_module(alloc, &mut reader, found)? {}
    Ok(())
}

/// Reads the modules of all pieces but the last, which is returned.
fn pieces<'t>(
    alloc: Global,
    list: &'t [u8],
    scratch: &mut Scratch,
    found: &mut Vec<RawModule>,
) -> Result<&'t [u8], FastPathFault>
    ensures { IfOk result (λ rest. ReadsPieces list.now rest.now found.old.items found.new.items) }
{
    let mut rest = list;
    'pieces: while let Some((front, tail)) = cut(rest) {
        piece(alloc, front, scratch, found)?;
        rest = tail;
    }
    Ok(rest)
}

/// Returns the graph of a text that begins with its modules. `list` is the text after their
/// bracket.
pub(crate) fn graph(alloc: Global, list: &[u8]) -> Result<RawGraph, FastPathFault>
    ensures { IfOk result (λ graph. read_outcome_of_bytes (graph_text_opening ++ list.now) ≡ Ok
        (raw_graph_view graph)) }
{
    let mut scratch = Scratch::new(alloc);
    let mut found = Vec::new(alloc);
    let rest = pieces(alloc, list, &mut scratch, &mut found)?;
    let Ok(text) = simdutf8::compat::from_utf8(rest) else {
        return Err(FastPathFault::Unsupported);
    };
    let mut reader = Reader::new(text, &mut scratch)?;
    modules::more_modules(alloc, &mut reader, &mut found)?;
    found.shrink_to_fit();
    let mut retained = Vec::new(alloc);
    if members::pass_until(alloc, &mut reader, 126, "modules", &mut retained)? {
        return Err(FastPathFault::Unsupported);
    }
    let mut graph = graph::graph(alloc, &Value::Object(retained))?;
    graph.modules = found;
    match reader.next() {
        Some(_) => Err(FastPathFault::Unsupported),
        None => Ok(graph),
    }
}
