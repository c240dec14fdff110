//! Ordered sets of symbols.

ghost use Rattle.std.specs.Prelude.{◌≡◌, [], IfOk, OnOk, OnErr};
ghost use Rattle.std.specs.List.{list_any};
ghost use Rattle.symbols_table.specs.Changes.{is_same_symbol_id, append_if_absent};
ghost use Rattle.symbols_table.specs.inner.SymbolSets.{HasDistinctSymbols};

use indexmap::IndexSet;
use std::alloc::{AllocError, Global};
use std::marker::Model;
use symbols_ast::ids::SymbolId;

/// The number of symbols up to which a set is a plain list that is searched from the start.
const FEW: usize = 8;

/// An ordered set of symbols, in order of first insertion. Up to `FEW` symbols are stored in a
/// list; a larger set has a hash index. Its view is the list of its symbols.
#[derive(Drop)]
pub(crate) struct SymbolSet {
    few: Vec<SymbolId>,
    many: Option<Box<IndexSet<SymbolId>>>,
}

impl Model for SymbolSet {
    ghost use Rattle.std.specs.Prelude.{List};
    ghost use Rattle.std.specs.Option.{option_map_or};
    ghost use Rattle.symbols_ast.specs.declared.ids.SymbolId.{SymbolId};
    ghost use Rattle.symbols_table.specs.inner.SymbolSets.{HasDistinctSymbols};

    ghost Value = { List SymbolId };

    ghost view = { λ set. option_map_or (λ many. many.value.keys) set.many set.few.items };

    ghost invariant = { λ set. HasDistinctSymbols set.few.items };
}

/// Returns the symbols of a small set as a set with an index.
fn indexed(alloc: Global, few: &[SymbolId]) -> Result<Box<IndexSet<SymbolId>>, AllocError>
    requires { HasDistinctSymbols few.now }
    ensures { IfOk result (λ set. set.value.keys ≡ few.now) }
{
    let mut set = IndexSet::new(alloc);
    for symbol in few {
        set.insert(*symbol)?;
    }
    Ok(Box::new(alloc, set)?)
}

/// Adds a symbol to a small set, unless the set has it.
fn add_to_few(few: &mut Vec<SymbolId>, symbol: SymbolId) -> Result<(), AllocError>
    ensures added { OnOk result (few.new.items ≡ append_if_absent few.old.items symbol) }
    ensures unchanged { OnErr result (few.new.items ≡ few.old.items) }
{
    if !few.contains(&symbol) {
        few.push(symbol)?;
    }
    Ok(())
}

impl SymbolSet {
    /// Returns the empty set. It does not allocate.
    pub(crate) fn new(alloc: Global) -> SymbolSet
        ensures { result ≡ [] }
    {
        SymbolSet {
            few: Vec::new(alloc),
            many: None,
        }
    }

    /// Returns the symbols in order of first insertion.
    pub(crate) fn as_slice(&self) -> &[SymbolId]
        ensures { result.now ≡ self.now }
    {
        match &self.many {
            Some(many) => many.as_slice(),
            None => &self.few,
        }
    }

    /// Returns whether the set has a symbol.
    pub(crate) fn contains(&self, symbol: SymbolId) -> bool
        ensures { result ≡ list_any (is_same_symbol_id symbol) self.now }
    {
        match &self.many {
            Some(many) => many.contains(&symbol),
            None => self.few.contains(&symbol),
        }
    }

    /// Adds a symbol, unless the set has it.
    #[tactic(auto, using(crate::proofs::SymbolSets::once_more))]
    pub(crate) fn insert(&mut self, alloc: Global, symbol: SymbolId) -> Result<(), AllocError>
        ensures { OnOk result (self.new ≡ append_if_absent self.old symbol) }
    {
        if let Some(many) = &mut self.many {
            many.insert(symbol)?;
            return Ok(());
        }
        if self.few.len() < FEW {
            return add_to_few(&mut self.few, symbol);
        }
        let mut many = indexed(alloc, &self.few)?;
        many.insert(symbol)?;
        self.many = Some(many);
        Ok(())
    }
}
