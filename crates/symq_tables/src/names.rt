//! Prints the names that resolve to symbols.

use indexmap::IndexMap;
use std::alloc::{AllocError, Global};
use std::hash::RandomState;
use symbols_graph::ids::SymbolId;
use symbols_graph::tree::{Id, NodeId, NodeRef};
use symbols_table::info::EsModuleInfo;

/// Returns the names in the module's tree that resolve to symbols, in the order of their first
/// nodes.
fn mapped_names<'a>(
    alloc: Global,
    keys: RandomState,
    module: &EsModuleInfo<'a>,
) -> Result<IndexMap<&'a Id, SymbolId, RandomState>, AllocError> {
    let mut names = IndexMap::with_hasher(alloc, keys);
    for number in 0..=u32::MAX {
        let Some(node) = NodeRef::new(module.source(), NodeId(number)) else {
            return Ok(names);
        };
        if let Some(name) = node.sym() {
            if let Some(symbol) = module.symbol_id_from_swc(name) {
                names.insert(name, symbol)?;
            }
        }
    }
    Ok(names)
}

/// Prints a line for each name that resolves to a symbol.
pub(crate) fn push_names(
    alloc: Global,
    keys: RandomState,
    text: &mut String,
    module: &EsModuleInfo<'_>,
) -> Result<(), AllocError> {
    let names = mapped_names(alloc, keys, module)?;
    for (id, symbol) in &names {
        let name = id.name.as_str();
        let scope = id.scope;
        write!(text, "  name {name:?} of scope {scope} is {symbol:?}\n")?;
    }
    Ok(())
}
