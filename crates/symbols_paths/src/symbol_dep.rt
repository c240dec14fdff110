//! Resolves references to symbols: names, qualified names and import types.

ghost use Rattle.std.specs.Prelude.{◌≡◌, ◌<◌, [], length, map, IfOk};
ghost use Rattle.std.specs.Cow.{cow_str_bytes};
ghost use Rattle.symbols_ast.specs.Ids.{id_view};
ghost use Rattle.symbols_nodes.specs.References.{qualified_id, import_type};
ghost use Rattle.symbols_root.specs.Roots.{RootView, specifier_in};
ghost use Rattle.symbols_root.specs.Calls.{IsStored};
ghost use Rattle.symbols_exports.specs.StarStatements.{resolve_specifier};
ghost use Rattle.symbols_paths.specs.PartTargets.{import_part_target};
ghost use Rattle.symbols_paths.specs.Computed.{paths_with_parts};
ghost use Rattle.symbols_paths.specs.Views.{paths_by_specifier, modules_of_paths, AreModulesStored};
ghost use Rattle.symbols_paths.specs.inner.Views.{symbol_of_unique_id, borrowed_strings_view};
ghost use Rattle.symbols_paths.specs.inner.Views.{first_part, later_parts};
ghost use Rattle.symbols_paths.specs.inner.PathBuilders.{remaining_parts, built_paths};
ghost use Rattle.symbols_paths.specs.inner.PathBuilders.{modules_of_builders};
ghost use Rattle.symbols_paths.specs.NeededModules.{IsNeededByReference, AreNewlyStoredAmong};
ghost use Rattle.symbols_paths.specs.inner.Needed.{IsNeededFrom, HasGrownAndFailsOnlyStoringOneOf};
ghost use Rattle.symbols_paths.specs.Answers.{AreDefinitionPathsWithAnyParts};
ghost use Rattle.symbols_paths.specs.DepAnswers.{resolved_dep_entry_view, modules_of_entries};
ghost use Rattle.symbols_paths.specs.DepAnswers.{path_entries};
ghost use Rattle.symbols_paths.specs.DepAnswers.{symbol_referenced_by_id, symbol_referenced_by_part};
ghost use Rattle.symbols_paths.specs.DepAnswers.{unresolved_id_path};
ghost use Rattle.symbols_paths.specs.DepAnswers.{unresolved_part_path, entries_of_reference_without_symbol};
ghost use Rattle.symbols_paths.specs.DepAnswers.{dep_entries_of, AreResolvedEntriesOfReference};
ghost use Rattle.symbols_paths.specs.inner.DepAnswers.{ArePathsOfReference};

use crate::build_paths::build_paths;
use crate::definition_path::DefinitionPathNode;
use crate::definition_search::resolve_qualified_name_internal;
use crate::definition_unresolved::DefinitionUnresolvedKind;
use crate::part_target::{PartTarget, import_part_target};
use crate::path_builder::PathBuilder;
use crate::path_links::{copied_id, copied_parts, unresolved_builder, unresolved_builder_of_kind};
use crate::re_exported_symbol::resolve_specifier;
use crate::shared_parts::SharedParts;
use std::alloc::{AllocError, Global};
use std::borrow::CowStr;
use symbols_graph::ids::{ModuleId, UniqueSymbolId};
use symbols_graph::tree::Id;
use symbols_root::RootSymbol;
use symbols_table::info::SymbolsFault;

/// An entry of a resolved reference: a path; or, of an import type without parts, as
/// `typeof import("./a.ts")`, the module (as deno_graph).
#[derive(Drop)]
pub enum ResolvedSymbolDepEntry<'a> {
    Path(DefinitionPathNode<'a>),
    ImportType(ModuleId),
}

/// Finds the paths of a symbol of a stored module under parts, by a search of its own.
fn resolve_qualified_name<'a>(
    root: &mut RootSymbol<'a>,
    symbol: UniqueSymbolId,
    parts: &SharedParts,
) -> Result<Vec<PathBuilder<'a>>, SymbolsFault>
    requires known { IsStored root.old symbol.module_id }
    ensures keeps { HasGrownAndFailsOnlyStoringOneOf root.old root.new
        (IsNeededFrom root.old symbol.module_id (remaining_parts parts.now)) result }
    ensures stores { AreNewlyStoredAmong root.old root.new
        (IsNeededFrom root.old symbol.module_id (remaining_parts parts.now)) }
    ensures found { IfOk result (λ paths. AreDefinitionPathsWithAnyParts
        root.old.rules root.old.graph (symbol_of_unique_id root.old symbol)
        (remaining_parts parts.now) (built_paths root.new paths.items)) }
    ensures listed { IfOk result (λ paths. built_paths root.new paths.items
        ≡ paths_with_parts root.old.rules root.old.graph (symbol_of_unique_id root.old symbol)
        (remaining_parts
        parts.now)) }
    ensures stored { IfOk result
        (λ paths. AreModulesStored root.new (modules_of_builders paths.items)) }
{
    resolve_qualified_name_internal(root, symbol, parts)
}

/// Finds the paths of a symbol of a stored module under the parts after the first.
#[tactic(auto, using(crate::specs::laws::Storing::newly_stored_none))]
fn resolve_after_first_part<'a>(
    root: &mut RootSymbol<'a>,
    symbol: UniqueSymbolId,
    parts: &SharedParts,
) -> Result<Vec<PathBuilder<'a>>, SymbolsFault>
    requires known { IsStored root.old symbol.module_id }
    requires some { 0 < length (remaining_parts parts.now) }
    ensures keeps { HasGrownAndFailsOnlyStoringOneOf root.old root.new
        (IsNeededFrom root.old symbol.module_id (later_parts (remaining_parts parts.now))) result }
    ensures stores { AreNewlyStoredAmong root.old root.new
        (IsNeededFrom root.old symbol.module_id (later_parts (remaining_parts parts.now))) }
    ensures found { IfOk result (λ paths. AreDefinitionPathsWithAnyParts
        root.old.rules root.old.graph (symbol_of_unique_id root.old symbol)
        (later_parts (remaining_parts parts.now)) (built_paths root.new paths.items)) }
    ensures listed { IfOk result (λ paths. built_paths root.new paths.items
        ≡ paths_with_parts root.old.rules root.old.graph (symbol_of_unique_id root.old symbol)
        (later_parts
        (remaining_parts parts.now))) }
    ensures stored { IfOk result
        (λ paths. AreModulesStored root.new (modules_of_builders paths.items)) }
{
    let remaining = parts.after_first_part()?;
    resolve_qualified_name(root, symbol, &remaining)
}

/// Returns the parts of a reference, borrowed.
fn borrowed_names<'p>(alloc: Global, parts: &'p [CowStr<'_>]) -> Result<Vec<&'p str>, AllocError>
    ensures { IfOk result
        (λ texts. borrowed_strings_view texts.items ≡ map cow_str_bytes parts.now) }
{
    let mut texts = Vec::new(alloc);
    for part in parts {
        texts.push(part.as_str())?;
    }
    Ok(texts)
}

/// Copies the parts of a reference into a shared list.
pub(crate) fn shared_parts_of(
    alloc: Global,
    parts: &[CowStr<'_>],
) -> Result<SharedParts, AllocError>
    ensures { IfOk result (λ shared. remaining_parts shared ≡ map cow_str_bytes parts.now) }
{
    let texts = borrowed_names(alloc, parts)?;
    SharedParts::new(alloc, &texts)
}

/// Finds the paths of a name of a stored module under parts. Returns one unresolved end if the name
/// has no symbol.
#[tactic(auto, using(crate::specs::laws::Storing::newly_stored_none))]
fn go_to_id_and_parts_definition_paths<'a>(
    root: &mut RootSymbol<'a>,
    module_id: ModuleId,
    id: &Id,
    parts: &SharedParts,
) -> Result<Vec<PathBuilder<'a>>, SymbolsFault>
    requires known { IsStored root.old module_id }
    ensures keeps { HasGrownAndFailsOnlyStoringOneOf root.old root.new
        (IsNeededFrom root.old module_id (remaining_parts parts.now)) result }
    ensures stores { AreNewlyStoredAmong root.old root.new
        (IsNeededFrom root.old module_id (remaining_parts parts.now)) }
    ensures found { IfOk result (λ paths. ArePathsOfReference root.old.rules root.old.graph
        (symbol_referenced_by_id root.old.graph (specifier_in root.old module_id) (id_view id.now)
        (remaining_parts parts.now))
        (unresolved_id_path (specifier_in root.old module_id) (id_view id.now)
        (remaining_parts parts.now)) (built_paths root.new paths.items)) }
    ensures stored { IfOk result
        (λ paths. AreModulesStored root.new (modules_of_builders paths.items)) }
{
    match root.symbol_id_from_swc(module_id, id) {
        Some(symbol_id) => resolve_qualified_name(
            root,
            UniqueSymbolId::new(module_id, symbol_id),
            parts,
        ),
        None => {
            let kind = DefinitionUnresolvedKind::Id(copied_id(root.alloc(), id)?);
            let parts = copied_parts(root.alloc(), parts.texts())?;
            Ok(unresolved_builder_of_kind(root.alloc(), module_id, kind, parts)?)
        }
    }
}

/// Finds the paths of the export that the first of some parts names in the imported module, under
/// the other parts. Returns one unresolved end if the specifier resolves to no module, or the
/// module doesn't export the part.
fn resolve_qualified_export_name<'a>(
    root: &mut RootSymbol<'a>,
    module_id: ModuleId,
    specifier_text: &str,
    parts: &SharedParts,
) -> Result<Vec<PathBuilder<'a>>, SymbolsFault>
    requires known { IsStored root.old module_id }
    requires some { 0 < length (remaining_parts parts.now) }
    ensures keeps { HasGrownAndFailsOnlyStoringOneOf root.old root.new
        (IsNeededByReference root.old.rules root.old.graph (specifier_in root.old module_id)
        (import_type specifier_text.now (remaining_parts parts.now))) result }
    ensures stores { AreNewlyStoredAmong root.old root.new
        (IsNeededByReference root.old.rules root.old.graph (specifier_in root.old module_id)
        (import_type specifier_text.now (remaining_parts parts.now))) }
    ensures found { IfOk result (λ paths. ArePathsOfReference root.old.rules root.old.graph
        (symbol_referenced_by_part (later_parts (remaining_parts parts.now))
        (import_part_target root.old.graph (specifier_in root.old module_id) specifier_text.now
        (first_part (remaining_parts parts.now)) (later_parts (remaining_parts parts.now))
        (resolve_specifier root.old.graph (specifier_in root.old module_id) specifier_text.now)))
        (unresolved_part_path (import_part_target root.old.graph (specifier_in root.old module_id)
        specifier_text.now (first_part (remaining_parts parts.now))
        (later_parts (remaining_parts parts.now)) (resolve_specifier root.old.graph
        (specifier_in root.old module_id) specifier_text.now))) (built_paths root.new
        paths.items)) }
    ensures stored { IfOk result
        (λ paths. AreModulesStored root.new (modules_of_builders paths.items)) }
{
    match import_part_target(root, module_id, specifier_text, parts.texts()) {
        Err(fault) => Err(fault),
        Ok(PartTarget::Symbol(target)) => resolve_after_first_part(root, target, parts),
        Ok(PartTarget::UnresolvedEntry(missing)) => Ok(unresolved_builder(root.alloc(), missing)?),
        Ok(PartTarget::Itself) => Ok(Vec::new(root.alloc())),
    }
}

/// Resolves an import type without parts to its module. Returns one unresolved entry if the
/// specifier resolves to no module.
fn resolve_import_type<'a>(
    root: &mut RootSymbol<'a>,
    module_id: ModuleId,
    specifier_text: &str,
) -> Result<Vec<ResolvedSymbolDepEntry<'a>>, SymbolsFault>
    requires known { IsStored root.old module_id }
    ensures keeps { HasGrownAndFailsOnlyStoringOneOf root.old root.new
        (IsNeededByReference root.old.rules root.old.graph (specifier_in root.old module_id)
        (import_type specifier_text.now [])) result }
    ensures stores { AreNewlyStoredAmong root.old root.new
        (IsNeededByReference root.old.rules root.old.graph (specifier_in root.old module_id)
        (import_type specifier_text.now [])) }
    ensures found { IfOk result (λ entries. map (resolved_dep_entry_view root.new) entries.items
        ≡ entries_of_reference_without_symbol root.old.graph
        (specifier_in root.old module_id) (import_type specifier_text.now [])) }
    ensures stored { IfOk result
        (λ entries. AreModulesStored root.new (modules_of_entries entries.items)) }
{
    match resolve_specifier(root, module_id, specifier_text) {
        Err(fault) => Err(fault),
        Ok(None) => {
            let specifier_text = String::from_str(root.alloc(), specifier_text)?;
            let kind = DefinitionUnresolvedKind::Specifier(specifier_text);
            let parts = Vec::new(root.alloc());
            let paths = unresolved_builder_of_kind(root.alloc(), module_id, kind, parts)?;
            Ok(entries_of_builders(root.alloc(), paths)?)
        }
        Ok(Some(target)) => {
            let mut entries = Vec::new(root.alloc());
            entries.push(ResolvedSymbolDepEntry::ImportType(target))?;
            Ok(entries)
        }
    }
}

/// Returns each path as an entry.
fn entries_of_paths<'a>(
    alloc: Global,
    paths: Vec<DefinitionPathNode<'a>>,
) -> Result<Vec<ResolvedSymbolDepEntry<'a>>, AllocError>
    ensures view { IfOk result (λ entries. (root : RootView)
        → map (resolved_dep_entry_view root) entries.items
        ≡ path_entries (paths_by_specifier root paths.entry.items)) }
    ensures modules { IfOk result
        (λ entries. modules_of_entries entries.items ≡ modules_of_paths paths.entry.items) }
{
    let mut entries = Vec::new(alloc);
    for path in paths {
        entries.push(ResolvedSymbolDepEntry::Path(path))?;
    }
    Ok(entries)
}

/// Returns each path of builders as an entry.
fn entries_of_builders<'a>(
    alloc: Global,
    builders: Vec<PathBuilder<'a>>,
) -> Result<Vec<ResolvedSymbolDepEntry<'a>>, AllocError>
    ensures view { IfOk result (λ entries. (root : RootView)
        → map (resolved_dep_entry_view root) entries.items
        ≡ path_entries (built_paths root builders.entry.items)) }
    ensures stored { IfOk result (λ entries. (root : RootView)
        → AreModulesStored root (modules_of_builders builders.entry.items)
        → AreModulesStored root (modules_of_entries entries.items)) }
{
    let paths = build_paths(alloc, builders)?;
    entries_of_paths(alloc, paths)
}

/// Resolves a name of a stored module, with the parts after it.
pub(crate) fn resolve_id_dep<'a>(
    root: &mut RootSymbol<'a>,
    module_id: ModuleId,
    id: &Id,
    parts: &SharedParts,
) -> Result<Vec<ResolvedSymbolDepEntry<'a>>, SymbolsFault>
    requires known { IsStored root.old module_id }
    ensures keeps { HasGrownAndFailsOnlyStoringOneOf root.old root.new
        (IsNeededFrom root.old module_id (remaining_parts parts.now)) result }
    ensures stores { AreNewlyStoredAmong root.old root.new
        (IsNeededFrom root.old module_id (remaining_parts parts.now)) }
    ensures answers { IfOk result (λ entries. AreResolvedEntriesOfReference root.old.rules
        root.old.graph (specifier_in root.old module_id) (qualified_id (id_view id.now)
        (remaining_parts parts.now)) (map (resolved_dep_entry_view root.new) entries.items)) }
    ensures listed { IfOk result (λ entries. map (resolved_dep_entry_view root.new) entries.items
        ≡ dep_entries_of root.old.rules root.old.graph (specifier_in root.old module_id)
        (qualified_id
        (id_view id.now) (remaining_parts parts.now))) }
    ensures stored { IfOk result
        (λ entries. AreModulesStored root.new (modules_of_entries entries.items)) }
{
    match go_to_id_and_parts_definition_paths(root, module_id, id, parts) {
        Err(fault) => Err(fault),
        Ok(paths) => Ok(entries_of_builders(root.alloc(), paths)?),
    }
}

/// Resolves an import type in a stored module, by its specifier and the parts after it.
pub(crate) fn resolve_import_type_dep<'a>(
    root: &mut RootSymbol<'a>,
    module_id: ModuleId,
    specifier_text: &str,
    parts: &SharedParts,
) -> Result<Vec<ResolvedSymbolDepEntry<'a>>, SymbolsFault>
    requires known { IsStored root.old module_id }
    ensures keeps { HasGrownAndFailsOnlyStoringOneOf root.old root.new
        (IsNeededByReference root.old.rules root.old.graph (specifier_in root.old module_id)
        (import_type specifier_text.now (remaining_parts parts.now))) result }
    ensures stores { AreNewlyStoredAmong root.old root.new
        (IsNeededByReference root.old.rules root.old.graph (specifier_in root.old module_id)
        (import_type specifier_text.now (remaining_parts parts.now))) }
    ensures answers { IfOk result (λ entries. AreResolvedEntriesOfReference root.old.rules
        root.old.graph (specifier_in root.old module_id) (import_type specifier_text.now
        (remaining_parts parts.now)) (map (resolved_dep_entry_view root.new) entries.items)) }
    ensures listed { IfOk result (λ entries. map (resolved_dep_entry_view root.new) entries.items
        ≡ dep_entries_of root.old.rules root.old.graph (specifier_in root.old module_id)
        (import_type
        specifier_text.now (remaining_parts parts.now))) }
    ensures stored { IfOk result
        (λ entries. AreModulesStored root.new (modules_of_entries entries.items)) }
{
    if parts.is_empty() {
        return resolve_import_type(root, module_id, specifier_text);
    }
    match resolve_qualified_export_name(root, module_id, specifier_text, parts) {
        Err(fault) => Err(fault),
        Ok(paths) => Ok(entries_of_builders(root.alloc(), paths)?),
    }
}
