//! The exports that a walk has collected so far.

ghost use Rattle.std.specs.Prelude.{◌≡◌, ◌<◌, ◌∷◌, ◌++◌, IfOk, OnOk, [], length, map};
ghost use Rattle.std.specs.Prelude.{option_map};
ghost use Rattle.std.specs.Prelude.{string_bytes, String};
ghost use Rattle.std.specs.Global.{Global};
ghost use Rattle.std.specs.List.{position};
ghost use Rattle.std.specs.Map.{keys_of, lookup};
ghost use Rattle.std.specs.Str.{bytes_eq};
ghost use Rattle.symbols_root.specs.Roots.{specifier_in};
ghost use Rattle.symbols_exports.specs.SharedNameLists.{groups_of_several_first_along_star};
ghost use Rattle.symbols_exports.specs.inner.Collecting.{is_along_stars};
ghost use Rattle.symbols_exports.specs.CollectedNames.{resolved_export_views};
ghost use Rattle.symbols_exports.specs.CollectedNames.{resolved_shared_name_views};
ghost use Rattle.symbols_exports.specs.CollectedNames.{unresolved_star_view};
ghost use Rattle.symbols_exports.specs.inner.Collecting.{frame_view, nothing_collected, walk_with_unresolved_star};
ghost use Rattle.symbols_exports.specs.inner.Collecting.{walk_with_exports_of_module};
ghost use Rattle.symbols_exports.specs.inner.NameFilter.{is_name_search_done, accepted_exports_of};

use crate::export_chain::{ResolvedExport, ResolvedExportOrReExportAllPath};
use crate::frame::Frame;
use crate::frame_chain::{chain_of_frames, is_excluded_default};
use crate::module_exports::{ModuleExports, UnresolvedSpecifier};
use crate::name_filter::NameFilter;
use crate::shadowed::{LaterChains, is_re_exported, push_later_chain, shared_names};
use crate::star_statements::{explicit_export, explicit_exports};
use indexmap::IndexMap;
use std::alloc::{AllocError, Global};
use std::hash::RandomState;
use std::marker::Model;
use symbols_graph::ids::ModuleId;
use symbols_root::RootSymbol;
use symbols_table::decl::Exports;

/// Returns the index of a collected name and its first chain, or `None` if it wasn't collected. An
/// empty map isn't searched.
fn first_chain_of<'m, 'a>(
    resolved: &'m IndexMap<String, ResolvedExportOrReExportAllPath<'a>, RandomState>,
    name: &str,
) -> Option<(usize, &'m ResolvedExportOrReExportAllPath<'a>)>
    ensures index { option_map (λ found. found.0) result ≡ position (λ (key : String Global).
        bytes_eq name.now (string_bytes key)) (keys_of resolved.now.entries) }
    ensures chain { option_map (λ found. found.1.now) result ≡ lookup
        (λ (key : String Global). bytes_eq name.now (string_bytes key)) resolved.now.entries }
{
    if resolved.is_empty() {
        return None;
    }
    let (index, _, chain) = resolved.get_full(name)?;
    Some((index, chain))
}

/// The collected names with their first chains, and the unresolved statements. If shared names are
/// collected, also the later chains of each name.
#[derive(Drop)]
pub(crate) struct CollectedExports<'a> {
    resolved: IndexMap<String, ResolvedExportOrReExportAllPath<'a>, RandomState>,
    collects_shared: bool,
    shadowed: LaterChains<'a>,
    unresolved: Vec<UnresolvedSpecifier<'a>>,
}

impl<'a> Model for CollectedExports<'a> {
    ghost use Rattle.std.specs.Prelude.{◌≤◌, length, map, [], if◌then◌else◌};
    ghost use Rattle.symbols_exports.specs.CollectedNames.{resolved_export_views};
    ghost use Rattle.symbols_exports.specs.CollectedNames.{unresolved_star_view};
    ghost use Rattle.symbols_exports.specs.inner.Collecting.{CollectedExportsView, chain_lists_view};
    ghost use Rattle.symbols_exports.specs.inner.Collecting.{groups_of_first_and_later_chains};

    ghost Value = { CollectedExportsView };

    ghost view = { λ t. record {
      keeps = t.collects_shared;
      collected = record {
        names = resolved_export_views t.resolved.entries;
        candidates = if t.collects_shared
            then groups_of_first_and_later_chains t.resolved.entries (chain_lists_view t.shadowed.items) else [];
        unresolved = map unresolved_star_view t.unresolved.items;
      };
    } };

    ghost invariant = { λ t. length t.shadowed.items ≤ length t.resolved.entries };
}

impl<'a> CollectedExports<'a> {
    /// Returns an empty collection. It allocates nothing.
    pub(crate) fn new(
        alloc: Global,
        keys: RandomState,
        collects_shared: bool,
    ) -> CollectedExports<'a>
        ensures { result ≡ record { keeps = collects_shared; collected = nothing_collected } }
    {
        CollectedExports {
            resolved: IndexMap::with_hasher(alloc, keys),
            collects_shared,
            shadowed: Vec::new(alloc),
            unresolved: Vec::new(alloc),
        }
    }

    /// Adds the chain to an export under its name. `default` is skipped if an `export *` was
    /// followed. A later chain of a known name is stored only if shared names are collected and the
    /// queried module itself doesn't export the name.
    fn add_collected_name(
        &mut self,
        alloc: Global,
        name: &str,
        export: ResolvedExport,
        stack: &[Frame<'a>],
    ) -> Result<(), AllocError>
        ensures { OnOk result (self.new ≡ walk_with_exports_of_module (map frame_view
            stack.now) export.«module» ((name.now, export.symbol_id) ∷ []) self.old) }
    {
        if is_excluded_default(name, stack) {
            return Ok(());
        }
        let Some((index, first)) = first_chain_of(&self.resolved, name) else {
            let chain = chain_of_frames(alloc, stack, export)?;
            self.resolved.insert(String::from_str(alloc, name)?, chain)?;
            return Ok(());
        };
        if self.collects_shared && is_re_exported(first) {
            let chain = chain_of_frames(alloc, stack, export)?;
            push_later_chain(alloc, index, chain, &mut self.shadowed)?;
        }
        Ok(())
    }

    /// Reserves room for so many more names.
    fn reserve(&mut self, more: usize) -> Result<(), AllocError>
        ensures { self.new ≡ self.old }
    {
        self.resolved.reserve(more)
    }

    /// Adds the local exports of a module, in order.
    #[tactic(auto, using(crate::proofs::CandidatesOfWalk::explicit_in_order))]
    fn add_module_names(
        &mut self,
        alloc: Global,
        exported: Exports<'_>,
        exporter: ModuleId,
        stack: &[Frame<'a>],
    ) -> Result<(), AllocError>
        ensures { OnOk result (self.new
            ≡ walk_with_exports_of_module (map frame_view stack.now) exporter exported.entry
            self.old) }
    {
        self.reserve(exported.len())?;
        for (name, symbol_id) in exported {
            let export = ResolvedExport {
                module: exporter,
                symbol_id,
            };
            self.add_collected_name(alloc, name, export, stack)?;
        }
        Ok(())
    }

    /// Adds the local exports of a stored module that the filter accepts, in order. The frames are
    /// the statements by which the walk reached the module.
    pub(crate) fn collect_from_module(
        &mut self,
        root: &RootSymbol<'a>,
        exporter: ModuleId,
        stack: &[Frame<'a>],
        name_filter: NameFilter<'_>,
    ) -> Result<(), AllocError>
        requires { exporter.0 < length root.now.stored }
        ensures { OnOk result
            (self.new ≡ walk_with_exports_of_module (map frame_view stack.now) exporter
            (accepted_exports_of name_filter.entry root.now.graph (specifier_in root.now exporter))
            self.old) }
    {
        match name_filter {
            NameFilter::AllNames => self.add_module_names(
                root.alloc(),
                explicit_exports(root, exporter),
                exporter,
                stack,
            ),
            NameFilter::OneName(name) => match explicit_export(root, exporter, name) {
                Some(symbol_id) => {
                    let export = ResolvedExport {
                        module: exporter,
                        symbol_id,
                    };
                    self.add_collected_name(root.alloc(), name, export, stack)
                }
                None => Ok(()),
            },
        }
    }

    /// Adds a statement that resolves to no module.
    pub(crate) fn collect_unresolved(&mut self, frame: Frame<'a>) -> Result<(), AllocError>
        ensures { OnOk result (self.new
            ≡ walk_with_unresolved_star (frame_view frame.entry) self.old) }
    {
        self.unresolved.push(frame.unresolved())?;
        Ok(())
    }

    /// Returns whether the walk can stop before its end, because no more names are wanted.
    pub(crate) fn is_name_search_done(&self, name_filter: NameFilter<'_>) -> bool
        ensures { result ≡ is_name_search_done name_filter.entry self.now.collected.names }
    {
        name_filter.is_name_search_done(&self.resolved)
    }

    /// Returns all that was collected. The shared names are empty unless they were collected.
    pub(crate) fn into_exports(self, alloc: Global) -> Result<ModuleExports<'a>, AllocError>
        ensures resolved { IfOk result
            (λ answer. resolved_export_views answer.resolved.entries ≡ self.entry.collected.names) }
        ensures shared { IfOk result (λ answer. resolved_shared_name_views answer.shared.items
            ≡ groups_of_several_first_along_star is_along_stars self.entry.collected.candidates) }
        ensures unresolved { IfOk result (λ answer. map unresolved_star_view
            answer.unresolved_specifiers.items ≡ self.entry.collected.unresolved) }
    {
        let (resolved, shadowed) = (self.resolved, self.shadowed);
        let shared = if self.collects_shared {
            shared_names(alloc, &resolved, shadowed)?
        } else {
            Vec::new(alloc)
        };
        Ok(ModuleExports {
            resolved,
            shared,
            unresolved_specifiers: self.unresolved,
        })
    }
}
