//! Resolves the first of the remaining parts in a definition.

ghost use Rattle.std.specs.Prelude.{◌≡◌, ◌<◌, length, IfOk};
ghost use Rattle.symbols_root.specs.Roots.{RootView, specifier_in};
ghost use Rattle.symbols_root.specs.Calls.{IsStored};
ghost use Rattle.symbols_exports.specs.OneName.{find_export};
ghost use Rattle.symbols_exports.specs.StarStatements.{resolve_specifier};
ghost use Rattle.symbols_paths.specs.PartTargets.{part_is_unresolved, exported_part_target, export_of_symbol};
ghost use Rattle.symbols_paths.specs.PartTargets.{module_part_target, import_part_target};
ghost use Rattle.symbols_paths.specs.PartTargets.{part_target_of};
ghost use Rattle.symbols_paths.specs.Views.{symbol_by_specifier, decl_by_specifier};
ghost use Rattle.symbols_paths.specs.Views.{definition_by_specifier, reason_view, strings_view};
ghost use Rattle.symbols_paths.specs.inner.Views.{first_part, later_parts};
ghost use Rattle.symbols_paths.specs.NeededModules.{AreNewlyStoredAmong};
ghost use Rattle.symbols_paths.specs.inner.Needed.{IsNeededFrom, IsSearchedForExportOf, IsSearchedInImport};
ghost use Rattle.symbols_paths.specs.inner.Needed.{HasGrownAndFailsOnlyStoringOneOf, IsStarImportDeclared};
ghost use Rattle.symbols_paths.specs.inner.SearchSteps.{part_target_view, IsModuleOfPartTargetStored};

use crate::decl_target::{export_of_symbol, is_class_decl_at};
use crate::definition::{DeclRef, Definition, DefinitionKind};
use crate::definition_unresolved::{DefinitionUnresolved, DefinitionUnresolvedKind};
use crate::path_links::copied_parts;
use crate::re_exported_symbol::resolve_specifier;
use std::alloc::{AllocError, Global};
use symbols_exports::export_of;
use symbols_graph::ids::{ModuleId, UniqueSymbolId};
use symbols_root::RootSymbol;
use symbols_table::info::SymbolsFault;

/// The target of the first of some parts: a symbol, the definition itself for `prototype` of a
/// class, or an unresolved entry.
#[derive(Drop)]
pub(crate) enum PartTarget {
    Symbol(UniqueSymbolId),
    Itself,
    UnresolvedEntry(DefinitionUnresolved),
}

/// Returns the unresolved entry of a module with this kind and these parts.
fn missing_part(
    alloc: Global,
    module: ModuleId,
    kind: DefinitionUnresolvedKind,
    parts: &[String],
) -> Result<PartTarget, AllocError>
    ensures view { IfOk result (λ part_target. (root : RootView) → part_target_view root part_target
        ≡ part_is_unresolved (record {
          specifier = specifier_in root «module»;
          reason = reason_view kind;
          parts = strings_view parts.now;
        })) }
    ensures stored { IfOk result (λ part_target. (root : RootView) → IsStored root «module»
        → IsModuleOfPartTargetStored root part_target) }
{
    Ok(PartTarget::UnresolvedEntry(DefinitionUnresolved {
        module,
        kind,
        parts: copied_parts(alloc, parts)?,
    }))
}

/// Resolves the first of some parts in a definition of a stored module: an export of its symbol, or
/// the definition itself for `prototype` of a class.
fn exported_part_target(
    root: &RootSymbol<'_>,
    module_id: ModuleId,
    decl: DeclRef,
    parts: &[String],
) -> Result<PartTarget, AllocError>
    requires known { IsStored root.now module_id }
    requires some { 0 < length parts.now }
    ensures view { IfOk result (λ part_target. part_target_view root.now part_target
        ≡ exported_part_target root.now.graph (decl_by_specifier root.now module_id decl)
        (first_part
        (strings_view parts.now)) (later_parts (strings_view parts.now))
        (export_of_symbol root.now.graph (symbol_by_specifier root.now module_id decl.symbol)
        (first_part (strings_view parts.now)))) }
    ensures stored { IfOk result (IsModuleOfPartTargetStored root.now) }
{
    let symbol = UniqueSymbolId::new(module_id, decl.symbol);
    if let Some(symbol_id) = export_of_symbol(root, symbol, parts) {
        return Ok(PartTarget::Symbol(UniqueSymbolId::new(module_id, symbol_id)));
    }
    if parts[0].as_str() == "prototype" && is_class_decl_at(root, module_id, decl) {
        return Ok(PartTarget::Itself);
    }
    let name = String::from_str(root.alloc(), parts[0].as_str())?;
    missing_part(
        root.alloc(),
        module_id,
        DefinitionUnresolvedKind::Part(name),
        parts,
    )
}

/// Resolves the first of some parts in a stored module, as a name that the module exports.
fn module_part_target(
    root: &mut RootSymbol<'_>,
    module_id: ModuleId,
    parts: &[String],
) -> Result<PartTarget, SymbolsFault>
    requires known { IsStored root.old module_id }
    requires some { 0 < length parts.now }
    ensures keeps { HasGrownAndFailsOnlyStoringOneOf root.old root.new
        (IsSearchedForExportOf root.old module_id (first_part (strings_view parts.now))) result }
    ensures view { IfOk result (λ part_target. part_target_view root.new part_target
        ≡ module_part_target (specifier_in root.old module_id) (first_part
        (strings_view parts.now)) (later_parts (strings_view parts.now))
        (find_export root.old.graph (specifier_in root.old module_id)
        (first_part (strings_view parts.now)))) }
    ensures stored { IfOk result (IsModuleOfPartTargetStored root.new) }
    ensures stores { AreNewlyStoredAmong root.old root.new
        (IsSearchedForExportOf root.old module_id (first_part (strings_view parts.now))) }
{
    match export_of(root, module_id, parts[0].as_str()) {
        Err(fault) => Err(fault),
        Ok(None) => {
            let name = String::from_str(root.alloc(), parts[0].as_str())?;
            let kind = DefinitionUnresolvedKind::Part(name);
            Ok(missing_part(root.alloc(), module_id, kind, parts)?)
        }
        Ok(Some(path)) => {
            let export = path.as_resolved_export();
            Ok(PartTarget::Symbol(UniqueSymbolId::new(export.module, export.symbol_id)))
        }
    }
}

/// Resolves the first of some parts in the module that a specifier of a stored module resolves to.
pub(crate) fn import_part_target(
    root: &mut RootSymbol<'_>,
    module_id: ModuleId,
    specifier_text: &str,
    parts: &[String],
) -> Result<PartTarget, SymbolsFault>
    requires known { IsStored root.old module_id }
    requires some { 0 < length parts.now }
    ensures keeps { HasGrownAndFailsOnlyStoringOneOf root.old root.new (IsSearchedInImport
        root.old module_id specifier_text.now (first_part (strings_view parts.now))) result }
    ensures view { IfOk result (λ part_target. part_target_view root.new part_target
        ≡ import_part_target root.old.graph (specifier_in root.old module_id) specifier_text.now
        (first_part (strings_view parts.now)) (later_parts (strings_view parts.now))
        (resolve_specifier root.old.graph (specifier_in root.old module_id) specifier_text.now)) }
    ensures stored { IfOk result (IsModuleOfPartTargetStored root.new) }
    ensures stores { AreNewlyStoredAmong root.old root.new (IsSearchedInImport root.old module_id
        specifier_text.now (first_part (strings_view parts.now))) }
{
    match resolve_specifier(root, module_id, specifier_text) {
        Err(fault) => Err(fault),
        Ok(None) => {
            let specifier_text = String::from_str(root.alloc(), specifier_text)?;
            let kind = DefinitionUnresolvedKind::Specifier(specifier_text);
            Ok(missing_part(root.alloc(), module_id, kind, parts)?)
        }
        Ok(Some(target)) => module_part_target(root, target, parts),
    }
}

/// Resolves the first of some parts in a definition of a stored module. For a star import that is a
/// name that the imported module exports.
#[inline(never)]
#[tactic(auto, using(crate::specs::laws::Storing::newly_stored_none))]
pub(crate) fn part_target_of(
    root: &mut RootSymbol<'_>,
    definition: &Definition<'_>,
    parts: &[String],
) -> Result<PartTarget, SymbolsFault>
    requires known { IsStored root.old definition.now.«module» }
    requires some { 0 < length parts.now }
    requires declared { IsStarImportDeclared root.old.graph
        (definition_by_specifier root.old definition.now) }
    ensures keeps { HasGrownAndFailsOnlyStoringOneOf root.old root.new
        (IsNeededFrom root.old definition.now.«module» (strings_view parts.now)) result }
    ensures view { IfOk result (λ part_target. part_target_view root.new part_target
        ≡ part_target_of root.old.graph (definition_by_specifier root.old definition.now)
        (first_part
        (strings_view parts.now)) (later_parts (strings_view parts.now))) }
    ensures stored { IfOk result (IsModuleOfPartTargetStored root.new) }
    ensures stores { AreNewlyStoredAmong root.old root.new
        (IsNeededFrom root.old definition.now.«module» (strings_view parts.now)) }
{
    match definition.kind {
        DefinitionKind::Definition => {
            let module_id = definition.module;
            Ok(exported_part_target(root, module_id, definition.symbol_decl, parts)?)
        }
        DefinitionKind::ExportStar(dep) => {
            import_part_target(root, definition.module, dep.specifier, parts)
        }
    }
}
