//! The exports, children and members of a symbol.

ghost use Rattle.std.specs.Prelude.{◌≡◌, OnOk, IsSome, string_bytes};
ghost use Rattle.std.specs.List.{list_any};
ghost use Rattle.std.specs.Map.{lookup};
ghost use Rattle.std.specs.Str.{bytes_eq};
ghost use Rattle.indexmap.specs.IndexMap.{insert_entry};
ghost use Rattle.symbols_table.specs.Changes.{is_same_symbol_id, append_if_absent};
ghost use Rattle.symbols_table.specs.TableViews.{empty_symbol_maps, symbol_maps_view};

use crate::decl::child_ids::ChildIds;
use crate::decl::exports::Exports;
use crate::decl::symbol_set::SymbolSet;
use indexmap::IndexMap;
use std::alloc::{AllocError, AllocFailed, Global};
use std::hash::RandomState;
use std::marker::Model;
use symbols_ast::ids::SymbolId;

/// The allocated tables of a symbol that exports or declares something.
#[derive(Drop)]
struct Maps {
    exports: IndexMap<String, SymbolId, RandomState>,
    child_ids: SymbolSet,
    members: SymbolSet,
}

/// The exports, children and members of a symbol. Most symbols have none of them, so the maps are
/// allocated when the first entry is added.
#[derive(Drop)]
pub(crate) struct Tables {
    maps: Option<Box<Maps>>,
}

impl Model for Tables {
    ghost use Rattle.symbols_table.specs.TableViews.{SymbolMapsView, symbol_maps_view};

    ghost Value = { SymbolMapsView };

    ghost view = { λ tables. symbol_maps_view tables.maps };
}

/// Allocates the maps, if there are none.
fn fill(
    maps: &mut Option<Box<Maps>>,
    alloc: Global,
    keys: RandomState,
) -> Result<(), AllocFailed<Maps>>
    ensures same { symbol_maps_view maps.new ≡ symbol_maps_view maps.old }
    ensures made { OnOk result (IsSome maps.new) }
{
    if maps.is_none() {
        *maps = Some(Box::new(
            alloc,
            Maps {
                exports: IndexMap::with_hasher(alloc, keys),
                child_ids: SymbolSet::new(alloc),
                members: SymbolSet::new(alloc),
            },
        )?);
    }
    Ok(())
}

impl Tables {
    /// Returns empty tables.
    pub(crate) fn new() -> Tables
        ensures { result ≡ empty_symbol_maps }
    {
        Tables { maps: None }
    }

    /// Returns the exported names with their symbols.
    pub(crate) fn exports(&self) -> Exports<'_>
        ensures { result ≡ self.now.exports }
    {
        match &self.maps {
            Some(maps) => Exports::new(&maps.exports),
            None => Exports::none(),
        }
    }

    /// Returns the symbol that is exported under a name, if any.
    pub(crate) fn export(&self, name: &str) -> Option<SymbolId>
        ensures { result ≡ lookup (λ key. bytes_eq name.now key) self.now.exports }
    {
        match &self.maps {
            Some(maps) => maps.exports.get(name).copied(),
            None => None,
        }
    }

    /// Returns the children, each once.
    pub(crate) fn child_ids(&self) -> ChildIds<'_>
        ensures { result ≡ self.now.children }
    {
        match &self.maps {
            Some(maps) => ChildIds::new(maps.child_ids.as_slice()),
            None => ChildIds::new(&[]),
        }
    }

    /// Returns the members, each once.
    pub(crate) fn members(&self) -> &[SymbolId]
        ensures { result.now ≡ self.now.members }
    {
        match &self.maps {
            Some(maps) => maps.members.as_slice(),
            None => &[],
        }
    }

    /// Returns whether a symbol is one of the members.
    pub(crate) fn has_member(&self, symbol: SymbolId) -> bool
        ensures { result ≡ list_any (is_same_symbol_id symbol) self.now.members }
    {
        match &self.maps {
            Some(maps) => maps.members.contains(symbol),
            None => false,
        }
    }

    /// Sets an export. A name that is exported already keeps its position and gets the new symbol.
    pub(crate) fn add_export(
        &mut self,
        alloc: Global,
        keys: RandomState,
        name: String,
        symbol: SymbolId,
    ) -> Result<(), AllocError>
        ensures { OnOk result (self.new ≡ record self.old {
          exports = insert_entry bytes_eq
              self.old.exports (string_bytes name) symbol;
        }) }
    {
        fill(&mut self.maps, alloc, keys)?;
        match &mut self.maps {
            Some(maps) => {
                maps.exports.insert(name, symbol)?;
            }
            None => unreachable!(),
        }
        Ok(())
    }

    /// Adds a child, unless it is one already.
    pub(crate) fn add_child(
        &mut self,
        alloc: Global,
        keys: RandomState,
        symbol: SymbolId,
    ) -> Result<(), AllocError>
        ensures { OnOk result
            (self.new ≡ record self.old { children = append_if_absent self.old.children symbol }) }
    {
        fill(&mut self.maps, alloc, keys)?;
        match &mut self.maps {
            Some(maps) => {
                maps.child_ids.insert(alloc, symbol)?;
            }
            None => unreachable!(),
        }
        Ok(())
    }

    /// Adds a member, unless it is one already.
    pub(crate) fn add_member(
        &mut self,
        alloc: Global,
        keys: RandomState,
        symbol: SymbolId,
    ) -> Result<(), AllocError>
        ensures { OnOk result
            (self.new ≡ record self.old { members = append_if_absent self.old.members symbol }) }
    {
        fill(&mut self.maps, alloc, keys)?;
        match &mut self.maps {
            Some(maps) => {
                maps.members.insert(alloc, symbol)?;
            }
            None => unreachable!(),
        }
        Ok(())
    }
}
