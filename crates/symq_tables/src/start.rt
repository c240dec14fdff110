//! Reads the command-line arguments: the form of the output, and the graph's file.

use std::io::ErrorKind;
use std::rt::{Env, Files};
use std::{env, fs};
use symbols_graph::RawGraph;
use symq_core::{ExitError, FormatFault, read_graph};

/// The form of the output.
#[derive(Clone, Copy, Drop, PartialEq, Eq)]
pub(crate) enum Form {
    /// Lines for people, with all details.
    Lines,
    /// A JSON object for each module, on a line of its own.
    Json,
}

/// Returns the error for a file, or an argument, that can't be read: out of memory, or else an
/// unreadable file. An argument that isn't UTF-8 names no file that this program can open.
fn file_error(kind: ErrorKind) -> ExitError {
    match kind {
        ErrorKind::OutOfMemory => ExitError::Format(FormatFault::OutOfMemory),
        _ => ExitError::NotRead,
    }
}

/// Returns the form and the path: `GRAPH` or `--json GRAPH`. One argument alone is always a path.
fn args<R: Env + AllocGlobal>(rt: &R) -> Result<(Form, String), ExitError> {
    let mut args = env::args(rt).map_err(|error| file_error(error.kind()))?;
    let (Some(_), Some(first), second, None) = (args.next(), args.next(), args.next(), args.next())
    else {
        return Err(ExitError::Usage);
    };
    match second {
        None => Ok((Form::Lines, first)),
        Some(path) if first.as_str() == "--json" => Ok((Form::Json, path)),
        Some(_) => Err(ExitError::Usage),
    }
}

/// Returns the form and the raw graph of the file, which isn't checked yet. It fails on a usage
/// error, if the file can't be read, if its text is no graph, or if an allocation failed.
pub(crate) fn read_args<R: Files + Env + AllocGlobal>(
    rt: &R,
) -> Result<(Form, RawGraph), ExitError> {
    let (form, path) = args(rt)?;
    let bytes = fs::read(rt, path.as_str()).map_err(|error| file_error(error.kind()))?;
    let raw = read_graph(rt.alloc(), bytes.as_slice()).map_err(ExitError::Format)?;
    Ok((form, raw))
}
