//! Tests symbols without a module.

use symbols_graph::ids::{ModuleId, SymbolId, UniqueSymbolId};
use symbols_table::decl::{FileDepName, Symbol};
use symbols_test_support::holds;
use symbols_test_support::lifetimes::Checked;

/// Checks the ids of a symbol 3 of the module 4, in the symbol 2.
fn returns_its_ids(symbol: &Symbol<'_>) -> Checked {
    let module = ModuleId::from_number(4);
    let number = SymbolId::from_number(3);
    let parent = SymbolId::from_number(2);
    holds!(
        symbol.unique_id() == UniqueSymbolId::new(module, number),
        "the unique number"
    );
    holds!(symbol.module_id() == module, "the number of the module");
    holds!(symbol.symbol_id() == number, "the number of the symbol");
    holds!(
        symbol.parent_id() == Some(parent),
        "the number of the parent"
    );
    let unique_parent = Some(UniqueSymbolId::new(module, parent));
    holds!(
        symbol.parent_unique_id() == unique_parent,
        "the unique number of the parent"
    );
    Ok(())
}

/// Checks a symbol without name, declarations or tables.
fn is_empty(symbol: &Symbol<'_>) -> Checked {
    holds!(symbol.decls().is_empty(), "no declarations");
    holds!(symbol.exports().len() == 0, "no exports");
    holds!(symbol.child_ids().len() == 0, "no children");
    holds!(symbol.members().is_empty(), "no members");
    holds!(matches!(symbol.maybe_name(), Ok(None)), "no name");
    holds!(symbol.file_dep().is_none(), "nothing of another file");
    holds!(!symbol.is_module(), "it is no module");
    holds!(!symbol.is_decl(), "it is no declaration");
    holds!(!symbol.is_member(), "it is no member");
    holds!(!symbol.is_private_member(), "it is no private member");
    Ok(())
}

fn starts_empty(symbol: &Symbol<'_>) -> Checked {
    returns_its_ids(symbol)?;
    is_empty(symbol)
}

#[test]
fn starts_a_symbol_empty(rt: HostRuntime) -> Checked {
    let parent = Some(SymbolId::from_number(2));
    let module = ModuleId::from_number(4);
    let symbol = Symbol::new(rt.alloc(), module, SymbolId::from_number(3), parent);
    starts_empty(&symbol)
}

#[test]
fn names_what_is_chosen() -> Checked {
    holds!(
        FileDepName::Name("a").maybe_name() == Some("a"),
        "the name a"
    );
    holds!(FileDepName::Star.maybe_name() == None, "a star is no name");
    Ok(())
}
