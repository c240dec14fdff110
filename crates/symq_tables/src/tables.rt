//! Prints the symbols of a module, a line for each, with its declarations and tables below.

use crate::declarations::{push_declaration, push_file_ref, push_name, push_test};
use std::alloc::{AllocError, Global};
use symbols_graph::ids::SymbolId;
use symbols_table::decl::{Exports, Symbol};
use symbols_table::info::ModuleInfoRef;

/// Prints a keyword for each test of a symbol that holds, and what it imports from another module.
fn push_tests(text: &mut String, symbol: &Symbol<'_>) -> Result<(), AllocError> {
    push_test(text, "module", symbol.is_module())?;
    push_test(text, "declaration", symbol.is_decl())?;
    push_test(text, "member", symbol.is_member())?;
    push_test(text, "private member", symbol.is_private_member())?;
    match symbol.file_dep() {
        Some(dep) => {
            text.push_str(", ")?;
            push_file_ref(text, dep)
        }
        None => Ok(()),
    }
}

/// Prints the number of a symbol, and its name and its parent's number if it has them.
fn push_number(text: &mut String, symbol: &Symbol<'_>) -> Result<(), AllocError> {
    let number = symbol.symbol_id();
    write!(text, "  symbol {number:?}")?;
    push_name(text, symbol.maybe_name()?)?;
    match symbol.parent_id() {
        Some(parent) => write!(text, " in {parent:?}"),
        None => Ok(()),
    }
}

fn push_declarations(
    alloc: Global,
    text: &mut String,
    symbol: &Symbol<'_>,
) -> Result<(), AllocError> {
    for declaration in symbol.decls() {
        push_declaration(alloc, text, declaration)?;
    }
    Ok(())
}

fn push_exports(text: &mut String, exports: Exports<'_>) -> Result<(), AllocError> {
    for (name, symbol) in exports {
        write!(text, "    export {name:?} is {symbol:?}\n")?;
    }
    Ok(())
}

fn push_numbers(text: &mut String, keyword: &str, symbols: &[SymbolId]) -> Result<(), AllocError> {
    if symbols.is_empty() {
        return Ok(());
    }
    write!(text, "    {keyword}")?;
    for symbol in symbols {
        write!(text, " {symbol:?}")?;
    }
    text.push('\n')
}

/// Prints a symbol on a line, and below it its declarations, exports, children and members.
fn push_symbol(alloc: Global, text: &mut String, symbol: &Symbol<'_>) -> Result<(), AllocError> {
    push_number(text, symbol)?;
    push_tests(text, symbol)?;
    text.push('\n')?;
    push_declarations(alloc, text, symbol)?;
    push_exports(text, symbol.exports())?;
    push_numbers(text, "children", symbol.child_ids().as_slice())?;
    push_numbers(text, "members", symbol.members())
}

/// Prints the symbols of a module, by their numbers.
pub(crate) fn push_symbols(
    alloc: Global,
    text: &mut String,
    module: ModuleInfoRef<'_, '_>,
) -> Result<(), AllocError> {
    for symbol in module.symbols() {
        push_symbol(alloc, text, symbol)?;
    }
    Ok(())
}
