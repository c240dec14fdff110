//! Tests numbers and their texts.

use std::hash::{DefaultHasher, Hash, Hasher};
use symbols_graph::ids::{ModuleId, SymbolId, UniqueSymbolId};
use symbols_test_support::holds;
use symbols_test_support::lifetimes::Checked;

#[test]
fn keeps_the_number() -> Checked {
    for (number, module, symbol) in [
        (0, "module 0", "symbol 0"),
        (1, "module 1", "symbol 1"),
        (65536, "module 65536", "symbol 65536"),
        (u32::MAX, "the last module", "the last symbol"),
    ] {
        if ModuleId::from_number(number).number() != number {
            return Err(module);
        }
        if SymbolId::from_number(number).number() != number {
            return Err(symbol);
        }
    }
    holds!(
        SymbolId::default().number() == 0,
        "the number of the first symbol"
    );
    let id = UniqueSymbolId::new(ModuleId::from_number(3), SymbolId::from_number(5));
    holds!(id.module_id.number() == 3, "the module of a unique number");
    holds!(id.symbol_id.number() == 5, "the symbol of a unique number");
    Ok(())
}

fn unique(module: u32, symbol: u32) -> UniqueSymbolId {
    UniqueSymbolId::new(ModuleId::from_number(module), SymbolId::from_number(symbol))
}

fn hash_of(id: UniqueSymbolId) -> u64 {
    let mut state = DefaultHasher::new();
    id.hash(&mut state);
    state.finish()
}

#[test]
fn compares_both_parts() -> Checked {
    let id = unique(3, 5);
    holds!(id == unique(3, 5), "equal to the same");
    holds!(hash_of(id) == hash_of(unique(3, 5)), "the hash of the same");
    holds!(id != unique(3, 6), "another symbol");
    holds!(id != unique(2, 5), "another module");
    holds!(unique(2, 9) < id, "above those of an earlier module");
    holds!(unique(3, 4) < id, "above an earlier symbol");
    holds!(id < unique(3, 6), "below a later symbol");
    holds!(id < unique(4, 0), "below those of a later module");
    Ok(())
}

#[test]
fn shows_the_number(rt: HostRuntime) -> Checked {
    let module = ModuleId::from_number(4_294_967_295);
    let symbol = SymbolId::from_number(12);
    let Ok(text) = format!(in rt.alloc(); "{module} {symbol:?}") else {
        return Err("no memory");
    };
    holds!(text.as_str() == "4294967295 12", "the text of both");
    Ok(())
}
