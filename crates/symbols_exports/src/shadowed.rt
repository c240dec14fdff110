//! The chains of a name after the first, and the shared names.

ghost use Rattle.std.specs.Prelude.{◌≡◌, ◌<◌, ◌≤◌, ◌∷◌, IfOk, OnOk, List, ℕ, length, map};
ghost use Rattle.std.specs.Prelude.{string_bytes};
ghost use Rattle.symbols_exports.specs.ExportChains.{resolved_export, statements_of_chain};
ghost use Rattle.symbols_exports.specs.SharedNameLists.{has_several_exporters_first_along_star};
ghost use Rattle.symbols_exports.specs.SharedNameLists.{groups_of_several_first_along_star};
ghost use Rattle.symbols_exports.specs.inner.Collecting.{is_along_stars};
ghost use Rattle.symbols_exports.specs.CollectedNames.{resolved_export_view, resolved_chain_view};
ghost use Rattle.symbols_exports.specs.CollectedNames.{resolved_shared_name_view};
ghost use Rattle.symbols_exports.specs.CollectedNames.{resolved_shared_name_views};
ghost use Rattle.symbols_exports.specs.inner.Collecting.{chain_lists_view, chain_lists_with_later_chain};
ghost use Rattle.symbols_exports.specs.inner.Collecting.{group_of_first_and_later_chains};
ghost use Rattle.symbols_exports.specs.inner.Collecting.{groups_of_first_and_later_chains};

use crate::export_chain::ResolvedExportOrReExportAllPath;
use crate::frame::Frame;
use crate::frame_chain::chain_of_frames;
use crate::shared_name::SharedName;
use indexmap::IndexMap;
use std::alloc::{AllocError, Global};
use std::hash::RandomState;

/// The later chains of each collected name that a module re-exports, by the index of the name.
pub(crate) type LaterChains<'a> = Vec<Vec<ResolvedExportOrReExportAllPath<'a>>>;

/// Adds empty lists until there is one at an index.
fn reserve_chain_lists(
    alloc: Global,
    index: usize,
    shadowed: &mut LaterChains<'_>,
) -> Result<(), AllocError>
    ensures room { OnOk result (index < length shadowed.new.items) }
    ensures few { (count : ℕ) → length shadowed.old.items ≤ count → index < count
        → length shadowed.new.items ≤ count }
    ensures same { OnOk result ((chain : ResolvedExportOrReExportAllPath)
        → chain_lists_with_later_chain index chain (chain_lists_view shadowed.new.items)
        ≡ chain_lists_with_later_chain index chain (chain_lists_view shadowed.old.items)) }
{
    'room: while shadowed.len() <= index {
        shadowed.push(Vec::new(alloc))?;
    }
    Ok(())
}

/// Adds a later chain of the name at an index, after the chains that are there.
pub(crate) fn push_later_chain<'a>(
    alloc: Global,
    index: usize,
    chain: ResolvedExportOrReExportAllPath<'a>,
    shadowed: &mut LaterChains<'a>,
) -> Result<(), AllocError>
    ensures few { (count : ℕ) → length shadowed.old.items ≤ count → index < count
        → length shadowed.new.items ≤ count }
    ensures put { OnOk result (chain_lists_view shadowed.new.items
        ≡ chain_lists_with_later_chain index chain.entry (chain_lists_view shadowed.old.items)) }
{
    reserve_chain_lists(alloc, index, shadowed)?;
    shadowed[index].push(chain)?;
    Ok(())
}

/// Returns a copy of a chain.
fn copied_chain<'a>(
    alloc: Global,
    chain: &ResolvedExportOrReExportAllPath<'a>,
) -> Result<ResolvedExportOrReExportAllPath<'a>, AllocError>
    ensures statements { IfOk result
        (λ copy. statements_of_chain copy ≡ statements_of_chain chain.now) }
    ensures end { IfOk result (λ copy. resolved_export copy ≡ resolved_export chain.now) }
{
    let mut frames = Vec::new(alloc);
    let mut rest = chain;
    'rest: while let ResolvedExportOrReExportAllPath::ReExportAllPath(re_export) = rest {
        frames.push(Frame {
            referrer: re_export.referrer_module,
            position: 0,
            specifier_text: re_export.specifier,
        })?;
        rest = &re_export.next;
    }
    chain_of_frames(alloc, &frames, *chain.as_resolved_export())
}

/// Returns whether a chain has an `export *` statement.
pub(crate) fn is_re_exported(chain: &ResolvedExportOrReExportAllPath<'_>) -> bool
    ensures { (name : List ℕ) → result ≡ is_along_stars (resolved_chain_view name chain.now) }
{
    matches!(chain, ResolvedExportOrReExportAllPath::ReExportAllPath(_))
}

/// Returns whether a name is shared: it has a later chain, and its first chain has at least one
/// `export *` statement, so that the queried module itself doesn't export it.
fn is_shared_name(
    first: &ResolvedExportOrReExportAllPath<'_>,
    shadowed: &[ResolvedExportOrReExportAllPath<'_>],
) -> bool
    ensures { (name : List ℕ) → result ≡ has_several_exporters_first_along_star is_along_stars
        (resolved_chain_view name first.now ∷ map (resolved_chain_view name) shadowed.now) }
{
    match first {
        ResolvedExportOrReExportAllPath::ReExportAllPath(_) => !shadowed.is_empty(),
        ResolvedExportOrReExportAllPath::Export(_) => false,
    }
}

/// Returns a shared name with all its chains, in chain order.
fn shared_name<'a>(
    alloc: Global,
    name: &str,
    first: &ResolvedExportOrReExportAllPath<'a>,
    shadowed: Vec<ResolvedExportOrReExportAllPath<'a>>,
) -> Result<SharedName<'a>, AllocError>
    ensures name { IfOk result (λ shared. string_bytes shared.name ≡ name.now) }
    ensures exporters { IfOk result
        (λ shared. map (resolved_chain_view name.now) shared.exporters.items ≡ resolved_chain_view
        name.now first.now ∷ map (resolved_chain_view name.now) shadowed.entry.items) }
{
    let mut exporters = shadowed;
    exporters.insert(0, copied_chain(alloc, first)?)?;
    Ok(SharedName {
        name: String::from_str(alloc, name)?,
        exporters,
    })
}

/// Returns the shared names among the collected ones, in order.
#[tactic(auto, using(crate::proofs::ShadowedChains::next_shared_name))]
pub(crate) fn shared_names<'a>(
    alloc: Global,
    resolved: &IndexMap<String, ResolvedExportOrReExportAllPath<'a>, RandomState>,
    shadowed: LaterChains<'a>,
) -> Result<Vec<SharedName<'a>>, AllocError>
    requires few { length shadowed.items ≤ length resolved.now.entries }
    ensures { IfOk result (λ shared. resolved_shared_name_views shared.items
        ≡ groups_of_several_first_along_star is_along_stars (groups_of_first_and_later_chains
        resolved.now.entries (chain_lists_view shadowed.entry.items))) }
{
    let mut shared = Vec::new(alloc);
    let mut names = resolved.iter();
    for traces in shadowed {
        let Some((name, first)) = names.next() else {
            unreachable!()
        };
        if is_shared_name(first, &traces) {
            shared.push(shared_name(alloc, name.as_str(), first, traces)?)?;
        }
    }
    Ok(shared)
}
