//! The walk along `export *` statements, which collects the exports of a module.

ghost use Rattle.std.specs.Prelude.{◌≡◌, ◌<◌, ◌+◌, ◌^◌, ℕ, List, ◌++◌, ◌∷◌, [], length, map, true};
ghost use Rattle.std.specs.Prelude.{not};
ghost use Rattle.std.specs.Prelude.{if◌then◌else◌, option_map, option_to_list, slice_get, None};
ghost use Rattle.std.specs.Prelude.{IfOk, IfErr, OnOk};
ghost use Rattle.std.specs.List.{list_any};
ghost use Rattle.indexmap.specs.IndexSet.{insert_key};
ghost use Rattle.symbols_root.specs.Roots.{specifier_in};
ghost use Rattle.symbols_root.specs.Growing.{HasGrown};
ghost use Rattle.symbols_root.specs.Calls.{IsStored, IsOnlyOutOfMemoryByWidestLimits};
ghost use Rattle.symbols_exports.specs.ExportAnswers.{AreExportListsCorrectAndUnique};
ghost use Rattle.symbols_exports.specs.ExportAnswers.{IsExportsCallResult, IsExportsCallFault};
ghost use Rattle.symbols_exports.specs.StarStatements.{star_specifiers};
ghost use Rattle.symbols_exports.specs.OneName.{IsExportOfCallResult, IsExportOfCallFault};
ghost use Rattle.symbols_exports.specs.inner.OneName.{IsExportWalkAnswer, IsExportWalkFault};
ghost use Rattle.symbols_exports.specs.CollectedNames.{unresolved_star_view};
ghost use Rattle.symbols_exports.specs.CollectedNames.{resolved_export_views, resolved_chain_view};
ghost use Rattle.symbols_exports.specs.CollectedNames.{resolved_shared_name_views};
ghost use Rattle.symbols_exports.specs.inner.Collecting.{is_same_module, frame_view};
ghost use Rattle.symbols_exports.specs.inner.Collecting.{walk_with_exports_of_module};
ghost use Rattle.symbols_exports.specs.inner.NameFilter.{accepted_exports_of};

use crate::collected_exports::CollectedExports;
use crate::export_chain::ResolvedExportOrReExportAllPath;
use crate::frame::Frame;
use crate::module_exports::ModuleExports;
use crate::name_filter::NameFilter;
use crate::star_statements::{resolve_specifier, star_frame_at};
use indexmap::IndexSet;
use std::alloc::AllocError;
use symbols_graph::LookupCounter;
use symbols_graph::ids::ModuleId;
use symbols_root::RootSymbol;
use symbols_root::laws::stored_modules_distinct;
use symbols_table::info::SymbolsFault;

/// Enters a module that wasn't visited: pushes the frame of the statement, and collects the exports
/// of the module that the filter accepts. Returns `false` if the module was visited already.
fn visit_module<'a>(
    root: &RootSymbol<'a>,
    target: ModuleId,
    frame: Frame<'a>,
    name_filter: NameFilter<'_>,
    visited: &mut IndexSet<ModuleId>,
    stack: &mut Vec<Frame<'a>>,
    collected: &mut CollectedExports<'a>,
) -> Result<bool, AllocError>
    requires { IsStored root.now target }
    ensures new { IfOk result
        (λ is_new. is_new ≡ not (list_any (is_same_module target) visited.old.keys)) }
    ensures visited { OnOk result
        (visited.new.keys ≡ insert_key is_same_module visited.old.keys target) }
    ensures few { IfOk result (λ is_new. is_new ≡ true → length visited.old.keys < 2 ^ 64) }
    ensures stack { IfOk result (λ is_new. stack.new.items
        ≡ (if is_new then stack.old.items ++ frame.entry ∷ [] else stack.old.items)) }
    ensures collected { IfOk result (λ is_new. collected.new ≡ (if is_new
        then walk_with_exports_of_module (map frame_view (stack.old.items ++ frame.entry ∷ []))
        target
        (accepted_exports_of name_filter.entry root.now.graph (specifier_in root.now target))
        collected.old
        else collected.old)) }
{
    let (_, is_new) = visited.insert_full(target)?;
    if is_new {
        stack.push(frame)?;
        collected.collect_from_module(root, target, stack, name_filter)?;
    }
    Ok(is_new)
}

/// Returns the exports that the filter accepts of a stored module without `export *` statements.
fn collect_without_stars<'a>(
    root: &RootSymbol<'a>,
    module_id: ModuleId,
    name_filter: NameFilter<'_>,
) -> Result<ModuleExports<'a>, AllocError>
    requires known { IsStored root.now module_id }
    requires alone { slice_get (star_specifiers root.now.graph (specifier_in root.now module_id)) 0
        ≡ None }
    requires few { length (star_specifiers root.now.graph (specifier_in root.now module_id))
        < 2 ^ 63 }
    ensures { IfOk result
        (λ answer. IsExportWalkAnswer name_filter.entry root.now root.now module_id
        (resolved_export_views answer.resolved.entries)
        (resolved_shared_name_views answer.shared.items)
        (map unresolved_star_view answer.unresolved_specifiers.items) 0) }
{
    let empty_stack: Vec<Frame<'a>> = Vec::new(root.alloc());
    let mut collected = CollectedExports::new(
        root.alloc(),
        root.keys(),
        name_filter.collects_shared(root.rules()),
    );
    collected.collect_from_module(root, module_id, &empty_stack, name_filter)?;
    Ok(collected.into_exports(root.alloc())?)
}

/// Follows the `export *` statements of a stored module, depth first in chain order, until the
/// wanted name is found or no statement is left. Returns the exports that were collected.
fn walk_stars<'a>(
    root: &mut RootSymbol<'a>,
    module_id: ModuleId,
    name_filter: NameFilter<'_>,
    counter: &mut LookupCounter,
) -> Result<ModuleExports<'a>, SymbolsFault>
    requires known { IsStored root.old module_id }
    requires room { counter.old.count < 2 ^ 64 }
    ensures answers { IfOk result (λ answer. (lookups : ℕ)
        × (counter.new.count ≡ counter.old.count + lookups)
        × IsExportWalkAnswer name_filter.entry root.old root.new module_id (resolved_export_views
        answer.resolved.entries) (resolved_shared_name_views answer.shared.items)
        (map unresolved_star_view answer.unresolved_specifiers.items) lookups) }
    ensures faults { IfErr result (λ fault. (lookups : ℕ)
        × (counter.new.count ≡ counter.old.count + lookups)
        × IsExportWalkFault name_filter.entry root.old root.new module_id fault lookups) }
    ensures enough { IsOnlyOutOfMemoryByWidestLimits root.old result }
{
    let mut visited = IndexSet::new(root.alloc());
    visited.insert(module_id)?;
    let mut stack: Vec<Frame<'a>> = Vec::new(root.alloc());
    let mut collected = CollectedExports::new(
        root.alloc(),
        root.keys(),
        name_filter.collects_shared(root.rules()),
    );
    collected.collect_from_module(root, module_id, &stack, name_filter)?;
    let mut here = module_id;
    let mut next = 0;
    'walk: while !collected.is_name_search_done(name_filter) {
        stored_modules_distinct(root);
        if let Some(frame) = star_frame_at(root, here, next) {
            match resolve_specifier(root, here, frame.specifier_text, counter) {
                Err(fault) => return Err(fault),
                Ok(None) => {
                    collected.collect_unresolved(frame)?;
                    next += 1;
                }
                Ok(Some(target)) => {
                    if visit_module(
                        root,
                        target,
                        frame,
                        name_filter,
                        &mut visited,
                        &mut stack,
                        &mut collected,
                    )? {
                        here = target;
                        next = 0;
                    } else {
                        next += 1;
                    }
                }
            }
        } else if let Some(frame) = stack.pop() {
            here = frame.referrer;
            next = frame.position + 1;
        } else {
            return Ok(collected.into_exports(root.alloc())?);
        }
    }
    Ok(collected.into_exports(root.alloc())?)
}

/// Returns the exports of a stored module that the filter accepts. It fails with `UnknownModule` if
/// the id names no stored module. A module without `export *` statements needs no visited set.
fn walk_exports<'a>(
    root: &mut RootSymbol<'a>,
    module_id: ModuleId,
    name_filter: NameFilter<'_>,
    counter: &mut LookupCounter,
) -> Result<ModuleExports<'a>, SymbolsFault>
    requires room { counter.old.count < 2 ^ 64 }
    ensures answers { IfOk result (λ answer. (lookups : ℕ)
        × (counter.new.count ≡ counter.old.count + lookups)
        × IsExportWalkAnswer name_filter.entry root.old root.new module_id (resolved_export_views
        answer.resolved.entries) (resolved_shared_name_views answer.shared.items)
        (map unresolved_star_view answer.unresolved_specifiers.items) lookups) }
    ensures faults { IfErr result (λ fault. (lookups : ℕ)
        × (counter.new.count ≡ counter.old.count + lookups)
        × IsExportWalkFault name_filter.entry root.old root.new module_id fault lookups) }
    ensures enough { IsStored root.old module_id → IsOnlyOutOfMemoryByWidestLimits root.old result }
{
    if root.module_from_id(module_id).is_none() {
        return Err(SymbolsFault::UnknownModule);
    }
    match star_frame_at(root, module_id, 0) {
        Some(_) => walk_stars(root, module_id, name_filter, counter),
        None => Ok(collect_without_stars(root, module_id, name_filter)?),
    }
}

/// Returns the exports of a stored module: its local exports, and those other than `default` of the
/// modules that its `export *` statements reach (as deno_graph). Of several exports of a name it
/// takes the first in chain order. The count grows by one for each `export *` statement of each
/// reachable module: so many resolutions are looked up (extension).
///
/// # Errors
///
/// `UnknownModule` if the id names no stored module; else `OutOfMemory`, or the fault of storing a
/// reachable module. Modules that were stored stay stored.
pub fn exports_counted<'a>(
    root: &mut RootSymbol<'a>,
    module_id: ModuleId,
    counter: &mut LookupCounter,
) -> Result<ModuleExports<'a>, SymbolsFault>
    requires room { counter.old.count < 2 ^ 64 }
    ensures answers { IfOk result (λ answer. (lookups : ℕ)
        × (counter.new.count ≡ counter.old.count + lookups)
        × IsExportsCallResult root.old root.new module_id
        (resolved_export_views answer.resolved.entries) (resolved_shared_name_views
        answer.shared.items)
        (map unresolved_star_view answer.unresolved_specifiers.items) lookups) }
    ensures faults { IfErr result (λ fault. (lookups : ℕ) × (counter.new.count ≡ counter.old.count
        + lookups) × IsExportsCallFault root.old root.new module_id fault lookups) }
    ensures listed { (start : List ℕ) → AreExportListsCorrectAndUnique root.old.graph start }
    ensures grown { HasGrown root.old root.new }
    ensures enough { IsStored root.old module_id → IsOnlyOutOfMemoryByWidestLimits root.old result }
{
    walk_exports(root, module_id, NameFilter::AllNames, counter)
}

/// Returns the exports of a stored module: its local exports, and those other than `default` of the
/// modules that its `export *` statements reach (as deno_graph). Of several exports of a name it
/// takes the first in chain order.
///
/// # Errors
///
/// `UnknownModule` if the id names no stored module; else `OutOfMemory`, or the fault of storing a
/// reachable module. Modules that were stored stay stored.
pub fn exports<'a>(
    root: &mut RootSymbol<'a>,
    module_id: ModuleId,
) -> Result<ModuleExports<'a>, SymbolsFault>
    ensures answers { IfOk result (λ answer. (lookups : ℕ)
        × IsExportsCallResult root.old root.new module_id
        (resolved_export_views answer.resolved.entries)
        (resolved_shared_name_views answer.shared.items)
        (map unresolved_star_view answer.unresolved_specifiers.items)
        lookups) }
    ensures faults { IfErr result (λ fault. (lookups : ℕ)
        × IsExportsCallFault root.old root.new module_id fault lookups) }
    ensures listed { (start : List ℕ) → AreExportListsCorrectAndUnique root.old.graph start }
    ensures grown { HasGrown root.old root.new }
    ensures enough { IsStored root.old module_id → IsOnlyOutOfMemoryByWidestLimits root.old result }
{
    exports_counted(root, module_id, &mut LookupCounter::new())
}

/// Finds one export of a stored module by its name, without the others (extension). Returns `None`
/// if and only if the module has no such export.
///
/// The count grows by one for each `export *` statement up to the last one of the export's chain, in
/// chain order: so many resolutions are looked up. Without such an export it grows by one for each
/// statement of each reachable module. For `default` it doesn't grow, since no `export *`
/// re-exports it.
///
/// # Errors
///
/// `UnknownModule` if the id names no stored module; else `OutOfMemory`, or the fault of storing a
/// module up to and including the one that has the export. Modules that were stored stay stored.
pub fn export_of_counted<'a>(
    root: &mut RootSymbol<'a>,
    module_id: ModuleId,
    name: &str,
    counter: &mut LookupCounter,
) -> Result<Option<ResolvedExportOrReExportAllPath<'a>>, SymbolsFault>
    requires room { counter.old.count < 2 ^ 64 }
    ensures answers { IfOk result (λ chain. (lookups : ℕ)
        × (counter.new.count ≡ counter.old.count + lookups)
        × IsExportOfCallResult root.old root.new module_id name.now (option_to_list
        (option_map (resolved_chain_view name.now) chain)) lookups) }
    ensures faults { IfErr result (λ fault. (lookups : ℕ)
        × (counter.new.count ≡ counter.old.count + lookups)
        × IsExportOfCallFault root.old root.new module_id name.now fault lookups) }
    ensures listed { (start : List ℕ) → AreExportListsCorrectAndUnique root.old.graph start }
    ensures grown { HasGrown root.old root.new }
    ensures enough { IsStored root.old module_id → IsOnlyOutOfMemoryByWidestLimits root.old result }
{
    let mut answer = walk_exports(root, module_id, NameFilter::OneName(name), counter)?;
    match answer.resolved.pop() {
        Some((_, chain)) => Ok(Some(chain)),
        None => Ok(None),
    }
}

/// Finds one export of a stored module by its name, without the others (extension). Returns `None`
/// if and only if the module has no such export.
///
/// # Errors
///
/// `UnknownModule` if the id names no stored module; else `OutOfMemory`, or the fault of storing a
/// module up to and including the one that has the export. Modules that were stored stay stored.
pub fn export_of<'a>(
    root: &mut RootSymbol<'a>,
    module_id: ModuleId,
    name: &str,
) -> Result<Option<ResolvedExportOrReExportAllPath<'a>>, SymbolsFault>
    ensures answers { IfOk result (λ chain. (lookups : ℕ)
        × IsExportOfCallResult root.old root.new module_id name.now
        (option_to_list (option_map (resolved_chain_view name.now) chain)) lookups) }
    ensures faults { IfErr result (λ fault. (lookups : ℕ)
        × IsExportOfCallFault root.old root.new module_id name.now fault lookups) }
    ensures listed { (start : List ℕ) → AreExportListsCorrectAndUnique root.old.graph start }
    ensures grown { HasGrown root.old root.new }
    ensures enough { IsStored root.old module_id → IsOnlyOutOfMemoryByWidestLimits root.old result }
{
    export_of_counted(root, module_id, name, &mut LookupCounter::new())
}
