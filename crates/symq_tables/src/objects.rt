//! Writes the symbols of a module as a JSON object, for tools.

use crate::nodes::form_name;
use json::Writer;
use std::alloc::{AllocError, Global};
use symbols_graph::ids::SymbolId;
use symbols_table::decl::{Exports, Symbol, SymbolDecl, SymbolDeclKind};
use symbols_table::info::ModuleInfoRef;

/// Returns the kind of a declaration. For a definition it is the form of its node; otherwise it
/// says what the declaration refers to.
fn kind_name(decl: &SymbolDecl<'_>) -> &'static str {
    match &decl.kind {
        SymbolDeclKind::Target(_) => "target",
        SymbolDeclKind::QualifiedTarget(..) => "qualified target",
        SymbolDeclKind::FileRef(_) => "file",
        SymbolDeclKind::Definition(_) => match decl.maybe_node() {
            Some(node) => form_name(node),
            None => "definition",
        },
    }
}

fn add_number(out: &mut Writer, key: &str, value: u32) -> Result<(), AllocError> {
    out.key(key)?;
    out.u64(u64::from(value))
}

fn add_declaration(out: &mut Writer, decl: &SymbolDecl<'_>) -> Result<(), AllocError> {
    out.begin_object()?;
    out.key("kind")?;
    out.string(kind_name(decl))?;
    out.key("start")?;
    out.u64(decl.range.start as u64)?;
    out.key("end")?;
    out.u64(decl.range.end as u64)?;
    out.end_object()
}

fn add_declarations(out: &mut Writer, decls: &[SymbolDecl<'_>]) -> Result<(), AllocError> {
    out.key("decls")?;
    out.begin_array()?;
    for decl in decls {
        add_declaration(out, decl)?;
    }
    out.end_array()
}

fn add_exports(out: &mut Writer, exports: Exports<'_>) -> Result<(), AllocError> {
    out.key("exports")?;
    out.begin_object()?;
    for (name, symbol) in exports {
        add_number(out, name, symbol.number())?;
    }
    out.end_object()
}

fn add_numbers(out: &mut Writer, key: &str, symbols: &[SymbolId]) -> Result<(), AllocError> {
    out.key(key)?;
    out.begin_array()?;
    for symbol in symbols {
        out.u64(u64::from(symbol.number()))?;
    }
    out.end_array()
}

/// Writes the name and the parent; null for what is absent.
fn add_index(out: &mut Writer, symbol: &Symbol<'_>) -> Result<(), AllocError> {
    out.key("name")?;
    match symbol.maybe_name()? {
        Some(name) => out.string(&name)?,
        None => out.null()?,
    }
    match symbol.parent_id() {
        Some(parent) => add_number(out, "parent", parent.number()),
        None => {
            out.key("parent")?;
            out.null()
        }
    }
}

fn add_symbol(out: &mut Writer, symbol: &Symbol<'_>) -> Result<(), AllocError> {
    out.begin_object()?;
    add_number(out, "symbol", symbol.symbol_id().number())?;
    add_index(out, symbol)?;
    add_declarations(out, symbol.decls())?;
    add_exports(out, symbol.exports())?;
    add_numbers(out, "children", symbol.child_ids().as_slice())?;
    add_numbers(out, "members", symbol.members())?;
    out.end_object()
}

/// Returns a line of JSON with the module's specifier and its symbols, by their numbers.
pub(crate) fn module_line(
    alloc: Global,
    module: ModuleInfoRef<'_, '_>,
) -> Result<Vec<u8>, AllocError> {
    let mut out = Writer::new(Vec::new(alloc));
    out.begin_object()?;
    out.key("module")?;
    out.string(module.specifier())?;
    out.key("symbols")?;
    out.begin_array()?;
    for symbol in module.symbols() {
        add_symbol(&mut out, symbol)?;
    }
    out.end_array()?;
    out.end_object()?;
    let mut line = out.into_inner();
    line.push(b'\n')?;
    Ok(line)
}

/// Returns a line of JSON for a module whose symbols could not be determined: its specifier and the
/// fault.
pub(crate) fn fault_line(
    alloc: Global,
    specifier: &str,
    fault: &str,
) -> Result<Vec<u8>, AllocError> {
    let mut out = Writer::new(Vec::new(alloc));
    out.begin_object()?;
    out.key("module")?;
    out.string(specifier)?;
    out.key("fault")?;
    out.string(fault)?;
    out.end_object()?;
    let mut line = out.into_inner();
    line.push(b'\n')?;
    Ok(line)
}
