//! Prints the tables of the modules to standard output, one after the other.

use crate::names::push_names;
use crate::objects::{fault_line, module_line};
use crate::start::Form;
use crate::tables::push_symbols;
use std::alloc::{AllocError, Global};
use std::hash::RandomState;
use std::io;
use std::io::Write;
use symbols_graph::ids::ModuleId;
use symbols_graph::{GraphModule, ModuleGraph};
use symbols_table::analyze;
use symbols_table::info::{ModuleInfoRef, SymbolsFault};
use symq_core::EngineFault;

/// Prints the specifier, the symbols and the names of a module. A JSON module has no names.
fn push_module(
    alloc: Global,
    keys: RandomState,
    text: &mut String,
    module: ModuleInfoRef<'_, '_>,
) -> Result<(), AllocError> {
    let specifier = module.specifier();
    write!(text, "module {specifier:?}\n")?;
    push_symbols(alloc, text, module)?;
    match module.esm() {
        Some(esm) => push_names(alloc, keys, text, esm),
        None => Ok(()),
    }
}

/// Prints the fault of a module whose symbols could not be determined.
fn push_fault(
    text: &mut String,
    module: &GraphModule,
    fault: &SymbolsFault,
) -> Result<(), AllocError> {
    let specifier = module.specifier();
    write!(text, "module {specifier:?}\n  {fault}\n")
}

/// Returns the text for a module; empty if it has no symbols. It fails only if an allocation
/// failed.
fn module_text(
    alloc: Global,
    keys: RandomState,
    module: &GraphModule,
) -> Result<String, AllocError> {
    let mut text = String::new(alloc);
    match analyze(alloc, keys, ModuleId::from_number(0), module, u32::MAX) {
        Ok(Some(info)) => push_module(alloc, keys, &mut text, info.as_ref())?,
        Ok(None) => {}
        Err(SymbolsFault::OutOfMemory) => return Err(AllocError),
        Err(fault) => push_fault(&mut text, module, &fault)?,
    }
    Ok(text)
}

/// Returns the line of JSON for a module; empty if it has no symbols. It fails only if an
/// allocation failed.
fn module_object(
    alloc: Global,
    keys: RandomState,
    module: &GraphModule,
) -> Result<Vec<u8>, AllocError> {
    match analyze(alloc, keys, ModuleId::from_number(0), module, u32::MAX) {
        Ok(Some(info)) => module_line(alloc, info.as_ref()),
        Ok(None) => Ok(Vec::new(alloc)),
        Err(SymbolsFault::OutOfMemory) => Err(AllocError),
        Err(fault) => {
            let text = format!(in alloc; "{fault}")?;
            fault_line(alloc, module.specifier(), text.as_str())
        }
    }
}

/// Returns the output for a module in this form.
fn module_bytes(
    alloc: Global,
    keys: RandomState,
    module: &GraphModule,
    form: Form,
) -> Result<Vec<u8>, AllocError> {
    match form {
        Form::Lines => Ok(module_text(alloc, keys, module)?.into_bytes()),
        Form::Json => module_object(alloc, keys, module),
    }
}

/// Returns the module with a specifier. It is `None` for a specifier that is redirected to another
/// module.
fn graph_module_of<'a>(graph: &'a ModuleGraph, specifier: &str) -> Option<&'a GraphModule> {
    let module = graph.get(specifier)?;
    if module.specifier() == specifier {
        Some(module)
    } else {
        None
    }
}

/// Prints the tables of the modules with these specifiers, in this order and form.
pub(crate) fn print_tables<R: AllocGlobal + Print>(
    rt: &R,
    graph: &ModuleGraph,
    specifiers: &[String],
    form: Form,
) -> Result<(), EngineFault> {
    let mut output = io::writer(rt);
    for specifier in specifiers {
        if let Some(module) = graph_module_of(graph, specifier.as_str()) {
            let text = module_bytes(rt.alloc(), graph.keys(), module, form)?;
            let written = output.write_all(text.as_slice());
            written.map_err(|_| EngineFault::OutputFailed)?;
        }
    }
    Ok(())
}
