//! The symbols that a search visited.

ghost use Rattle.std.specs.Prelude.{◌≡◌, ◌<◌, ◌^◌, ◌++◌, ◌∷◌, [], not, length, IsTrue, IfOk, OnOk};
ghost use Rattle.std.specs.List.{list_any};
ghost use Rattle.indexmap.specs.IndexSet.{insert_key};
ghost use Rattle.symbols_paths.specs.inner.VisitedSymbols.{is_same_unique_id};

use indexmap::IndexSet;
use std::alloc::{AllocError, Global};
use std::marker::Model;
use symbols_graph::ids::UniqueSymbolId;

/// The number of symbols that the list of a set holds, which is searched from the start.
const FEW: usize = 6;

/// The symbols that a search visited, in order: the first `FEW` in a list, and those after them
/// with a hash index. Most searches of an alias visit one or two.
#[derive(Drop)]
pub(crate) struct VisitedSymbols {
    few: Vec<UniqueSymbolId>,
    more: Option<Box<IndexSet<UniqueSymbolId>>>,
}

impl Model for VisitedSymbols {
    ghost use Rattle.std.specs.Prelude.{◌++◌, []};
    ghost use Rattle.std.specs.Option.{option_map_or};
    ghost use Rattle.symbols_paths.specs.inner.VisitedSymbols.{VisitedKeys};

    ghost Value = { VisitedKeys };

    ghost view = { λ visited. record {
      keys = visited.few.items ++ option_map_or (λ more. more.value.keys) visited.more [];
    } };
}

impl VisitedSymbols {
    /// Returns the set without symbols. It does not allocate.
    pub(crate) fn new(alloc: Global) -> VisitedSymbols
        ensures empty { result.keys ≡ [] }
    {
        VisitedSymbols {
            few: Vec::new(alloc),
            more: None,
        }
    }

    /// Adds a symbol, unless the set has it. Returns whether it is new.
    pub(crate) fn insert(
        &mut self,
        alloc: Global,
        symbol: UniqueSymbolId,
    ) -> Result<bool, AllocError>
        ensures added { IfOk result (λ is_new. is_new
            ≡ not (list_any (is_same_unique_id symbol) self.old.keys)) }
        ensures keys { IfOk result (λ is_new. self.new.keys
            ≡ insert_key is_same_unique_id self.old.keys symbol) }
        ensures few { IfOk result (λ is_new. IsTrue is_new → length self.old.keys < 2 ^ 64) }
    {
        if self.few.contains(&symbol) {
            return Ok(false);
        }
        if let Some(more) = &mut self.more {
            return add_to_more(more, symbol);
        }
        if self.few.len() < FEW {
            add_to_few(&mut self.few, symbol)?;
            return Ok(true);
        }
        let mut more = IndexSet::new(alloc);
        more.insert(symbol)?;
        self.more = Some(Box::new(alloc, more)?);
        Ok(true)
    }
}

/// Adds a symbol that is not in the list. The first three take as much memory as one.
fn add_to_few(few: &mut Vec<UniqueSymbolId>, symbol: UniqueSymbolId) -> Result<(), AllocError>
    ensures { OnOk result (few.new.items ≡ few.old.items ++ symbol ∷ []) }
{
    if few.is_empty() {
        few.reserve_exact(3)?;
    }
    few.push(symbol)?;
    Ok(())
}

/// Adds a symbol to those with a hash index, unless they have it. Returns whether it is new.
fn add_to_more(
    more: &mut IndexSet<UniqueSymbolId>,
    symbol: UniqueSymbolId,
) -> Result<bool, AllocError>
    ensures added { IfOk result (λ is_new. is_new
        ≡ not (list_any (is_same_unique_id symbol) more.old.keys)) }
    ensures keys { IfOk result (λ is_new. more.new.keys
        ≡ insert_key is_same_unique_id more.old.keys symbol) }
    ensures few { length more.old.keys < 2 ^ 63 }
{
    // `len` is called for its clause
    let _len = more.len();
    Ok(more.insert(symbol)?)
}
