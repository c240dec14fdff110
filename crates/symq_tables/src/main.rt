//! `symq_tables GRAPH` prints the symbol tables of each module of a graph. `symq_tables --json
//! GRAPH` prints a line of JSON for each module. Faults of a graph are reported with the lines and
//! exit statuses of `symq`.
#![tactic(auto)]

mod declarations;
mod names;
mod nodes;
mod objects;
mod printing;
mod start;
mod tables;

use crate::printing::print_tables;
use crate::start::read_args;
use std::alloc::{AllocError, Global};
use std::process::ExitCode;
use std::random::RandomSource;
use std::rt::{Env, Files};
use symbols_graph::RawGraph;
use symq_core::{EngineFault, ExitError, keyed_graph};

/// Returns the specifiers of the modules, in the graph's order.
fn specifiers(alloc: Global, raw: &RawGraph) -> Result<Vec<String>, AllocError> {
    let mut specifiers = Vec::with_capacity(alloc, raw.modules.len())?;
    for module in &raw.modules {
        specifiers.push(module.specifier.clone()?)?;
    }
    Ok(specifiers)
}

fn run<R: Files + Env + AllocGlobal + Print + RandomSource>(rt: &R) -> Result<(), ExitError> {
    let (form, raw) = read_args(rt)?;
    let specifiers = specifiers(rt.alloc(), &raw).map_err(|_| ExitError::Engine(
        EngineFault::OutOfMemory,
    ))?;
    let graph = keyed_graph(rt.alloc(), rt, raw).map_err(ExitError::Graph)?;
    print_tables(rt, &graph, specifiers.as_slice(), form).map_err(ExitError::Engine)
}

/// Returns the line for standard error: that of `symq`, but with the usage of this program.
fn line(alloc: Global, exit_error: &ExitError) -> Result<String, AllocError> {
    match exit_error {
        ExitError::Usage => String::from_str(alloc, "usage: symq_tables [--json] GRAPH"),
        _ => exit_error.line(alloc),
    }
}

fn main(rt: HostRuntime) -> ExitCode {
    let Err(exit_error) = run(&rt) else {
        return ExitCode::SUCCESS;
    };
    match line(rt.alloc(), &exit_error) {
        Ok(line) => {
            let _ = eprintln!(rt; "{line}");
            ExitCode::from(exit_error.status())
        }
        Err(_) => ExitCode::from(7),
    }
}
