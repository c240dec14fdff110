//! Prints the tables of the stored modules. They are borrowed, so nothing is allocated.

use deno_symbols::decl::{Symbol, SymbolDecl};
use deno_symbols::ids::ModuleId;
use deno_symbols::info::ModuleInfoRef;
use deno_symbols::root::RootSymbol;
use std::io;

fn print_decl<R: Print>(rt: &R, decl: &SymbolDecl<'_>) -> io::Result<()> {
    let start = decl.range.start;
    let end = decl.range.end;
    let keyword = if decl.kind.is_definition() {
        "defined"
    } else {
        "taken"
    };
    println!(rt; "      {keyword} at {start}..{end}")
}

fn print_symbol<R: Print>(rt: &R, symbol: &Symbol<'_>) -> io::Result<()> {
    let number = symbol.symbol_id();
    let parent = symbol.parent_id();
    println!(rt; "    symbol {number:?} in {parent:?}")?;
    for decl in symbol.decls() {
        print_decl(rt, decl)?;
    }
    for (name, export) in symbol.exports() {
        println!(rt; "      export {name} is {export:?}")?;
    }
    for child in symbol.child_ids() {
        println!(rt; "      child {child:?}")?;
    }
    for member in symbol.members() {
        println!(rt; "      member {member:?}")?;
    }
    Ok(())
}

fn print_module<R: Print>(rt: &R, info: ModuleInfoRef<'_, '_>) -> io::Result<()> {
    println!(rt; "  module {} of {}", info.module_id(), info.specifier())?;
    for symbol in info.symbols() {
        print_symbol(rt, symbol)?;
    }
    Ok(())
}

/// Prints the modules in the order of their numbers.
pub(crate) fn print_stored<R: Print>(rt: &R, root: &RootSymbol<'_>) -> io::Result<()> {
    for number in 0..=u32::MAX {
        match root.module_from_id(ModuleId::from_number(number)) {
            Some(info) => print_module(rt, info)?,
            None => return Ok(()),
        }
    }
    Ok(())
}
