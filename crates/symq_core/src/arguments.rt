//! Reads the command-line arguments, and the graph's file that they name.

ghost use Rattle.std.specs.Prelude.{◌≡◌, String, string_bytes, map, IfOk, IfErr};
ghost use Rattle.std.specs.Fn.{FnOnceReturnsAt};
ghost use Rattle.std.specs.Global.{Global};
ghost use Rattle.std.specs.Option.{option_map};
ghost use Rattle.std.specs.Vec.Iter.{into_iter_items};
ghost use Rattle.symbols_root.specs.declared.rules.Rules.{Rules};
ghost use Rattle.symq_core.specs.ExitStatus.{IsErrorBeforeGraphCheck};
ghost use Rattle.symq_core.specs.Arguments.{rules_and_path_of_first_two_args, rules_and_path_of_args};
ghost use Rattle.symq_core.specs.Arguments.{AreRulesAndGraphOfArgs, IsArgsFault, IsUnreadableFileOrOutOfMemory};

use crate::exit_error::ExitError;
use std::alloc::Global;
use std::env::Args;
use std::io::ErrorKind;
use std::rt::{Env, Files};
use std::{env, fs, io};
use symbols_graph::RawGraph;
use symbols_root::Rules;
use symq_reader::{FormatFault, read_graph};

/// Returns the error for a file, or an argument, that can't be read: out of memory, or else an
/// unreadable file. An argument that isn't UTF-8 names no file that this program can open.
fn file_error(kind: ErrorKind) -> ExitError
    ensures { IsUnreadableFileOrOutOfMemory result }
{
    match kind {
        ErrorKind::OutOfMemory => ExitError::Format(FormatFault::OutOfMemory),
        _ => ExitError::NotRead,
    }
}

/// Returns the rules and the path that the arguments name: `GRAPH` or `--strict GRAPH`. It is
/// `None` if there are two arguments and the first isn't `--strict`.
fn rules_and_path_of_first_two_args(
    first: String,
    second: Option<String>,
) -> Option<(Rules, String)>
    ensures { option_map (λ (started : Rules × String Global). (started.0, string_bytes started.1))
        result
        ≡ rules_and_path_of_first_two_args (string_bytes first) (option_map string_bytes second) }
{
    match second {
        None => Some((Rules::Deno, first)),
        Some(path) if first.as_str() == "--strict" => Some((Rules::Strict, path)),
        Some(_) => None,
    }
}

/// Returns the rules and the path that all arguments name, of which the first is the program's
/// name. It is `None` if the others are neither `GRAPH` nor `--strict GRAPH`.
fn rules_and_path_of_args(mut args: Args) -> Option<(Rules, String)>
    ensures { option_map (λ (started : Rules × String Global). (started.0, string_bytes started.1))
        result
        ≡ rules_and_path_of_args (map string_bytes (into_iter_items args)) }
{
    let Some(_) = args.next() else {
        return None;
    };
    let Some(first) = args.next() else {
        return None;
    };
    let second = args.next();
    if args.next().is_some() {
        return None;
    }
    rules_and_path_of_first_two_args(first, second)
}

/// Returns the rules and the raw graph of the file that the arguments name: `GRAPH` or `--strict
/// GRAPH` (extension). It calls `read` at most once, for the bytes of the file. The graph isn't
/// checked yet. It fails on a usage error, if the file can't be read, if its text is no graph, or if
/// an allocation failed.
pub fn read_args_with<F: FnOnce(&str) -> io::Result<Vec<u8>> + Drop>(
    alloc: Global,
    args: Args,
    read: F,
) -> Result<(Rules, RawGraph), ExitError>
    requires { F.IsAlwaysCallable read }
    ensures started { IfOk result
        (λ started. AreRulesAndGraphOfArgs (FnOnceReturnsAt F.FnOnce read)
        (map string_bytes (into_iter_items args)) started.0 started.1) }
    ensures fails { IfErr result (IsArgsFault (FnOnceReturnsAt F.FnOnce read)
        (map string_bytes (into_iter_items args))) }
    ensures startup { IfErr result IsErrorBeforeGraphCheck }
{
    let Some((rules, path)) = rules_and_path_of_args(args) else {
        return Err(ExitError::Usage);
    };
    let bytes = read(path.as_str()).map_err(|error| file_error(error.kind()))?;
    match read_graph(alloc, bytes.as_slice()) {
        Ok(raw) => Ok((rules, raw)),
        Err(fault) => Err(ExitError::Format(fault)),
    }
}

/// Returns the rules and the raw graph of the file that the program's arguments name, as
/// `read_args_with` does. No contract covers what the arguments and the file contain.
pub fn read_args<R: Files + Env + AllocGlobal>(rt: &R) -> Result<(Rules, RawGraph), ExitError>
    ensures { IfErr result IsErrorBeforeGraphCheck }
{
    let args = env::args(rt).map_err(|error| file_error(error.kind()))?;
    read_args_with(rt.alloc(), args, |path| fs::read(rt, path))
}
