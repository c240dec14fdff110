//! Builders of definitions, links and unresolved ends.

ghost use Rattle.std.specs.Prelude.{◌≡◌, ◌<◌, ◌++◌, ◌∷◌, [], length, Option, IfOk, IfSome, OnOk};
ghost use Rattle.std.specs.Option.{option_to_list};
ghost use Rattle.symbols_ast.specs.Ids.{id_view};
ghost use Rattle.symbols_root.specs.Roots.{RootView, specifier_in};
ghost use Rattle.symbols_paths.specs.declared.path_builder.PathBuilder.{PathBuilder};
ghost use Rattle.symbols_paths.specs.PathTrees.{leaf, link, forest_of_tree, forest_below_link_unless_empty, definition};
ghost use Rattle.symbols_paths.specs.PathTrees.{unresolved, no_symbol, no_part};
ghost use Rattle.symbols_paths.specs.Views.{decl_by_specifier, star_import_view, reason_view};
ghost use Rattle.symbols_paths.specs.Views.{strings_view, unresolved_entry_view, AreModulesStored};
ghost use Rattle.symbols_paths.specs.inner.Views.{symbol_of_unique_id};
ghost use Rattle.symbols_paths.specs.inner.PathBuilders.{remaining_parts, link_head_of_step};
ghost use Rattle.symbols_paths.specs.inner.PathBuilders.{built_path};
ghost use Rattle.symbols_paths.specs.inner.PathBuilders.{built_paths, built_paths_of_option};
ghost use Rattle.symbols_paths.specs.inner.PathBuilders.{modules_of_builder, modules_of_builders};

use crate::definition::{DeclRef, Definition, DefinitionKind};
use crate::definition_iter::DefinitionOrUnresolved;
use crate::definition_unresolved::{DefinitionUnresolved, DefinitionUnresolvedKind};
use crate::path_builder::{
    LinkStep, PathBuilder, Segment, add_builder, builder_of_end, join_builders, push_segment,
};
use crate::shared_parts::SharedParts;
use std::alloc::{AllocError, Global};
use symbols_graph::ids::{ModuleId, UniqueSymbolId};
use symbols_graph::tree::{Id, SourceRange};

/// Returns the builder of a definition alone.
pub(crate) fn definition_path<'a>(
    alloc: Global,
    module: ModuleId,
    symbol_decl: DeclRef,
    kind: DefinitionKind<'a>,
    range: SourceRange,
) -> PathBuilder<'a>
    ensures view { (root : RootView) → built_path root result
        ≡ forest_of_tree (leaf
        (definition (record {
          decl = decl_by_specifier root «module» symbol_decl;
          range = range;
          star = star_import_view kind.entry;
        }))) }
    ensures stored { (root : RootView) → «module».0 < length root.stored
        → AreModulesStored root (modules_of_builder result) }
{
    let definition = Definition {
        kind,
        module,
        symbol: symbol_decl.symbol,
        symbol_decl,
        range,
    };
    builder_of_end(alloc, DefinitionOrUnresolved::Definition(definition))
}

/// Returns a builder of this step in front of `next`, or `None` if `next` is empty.
fn link_builder_of_step<'a>(
    alloc: Global,
    step: LinkStep,
    next: Vec<PathBuilder<'a>>,
) -> Result<Option<PathBuilder<'a>>, AllocError>
    ensures view { IfOk result (λ builder. (root : RootView)
        → built_paths_of_option root builder ≡ forest_below_link_unless_empty
        (link_head_of_step root step) (built_paths root next.entry.items)) }
    ensures stored { IfOk result (λ builder. (root : RootView)
        → step.symbol.module_id.0 < length root.stored
        → AreModulesStored root (modules_of_builders next.entry.items)
        → IfSome builder (λ t. AreModulesStored root (modules_of_builder t))) }
{
    let whole = join_builders(alloc, next)?;
    match whole {
        None => Ok(None),
        Some(builder) => Ok(Some(push_segment(builder, Segment::LinkStep(step))?)),
    }
}

/// Returns a builder of a link with this symbol and declaration in front of `next`, or `None` if
/// `next` is empty.
fn link_builder<'a>(
    alloc: Global,
    symbol: UniqueSymbolId,
    symbol_decl: DeclRef,
    next: Vec<PathBuilder<'a>>,
) -> Result<Option<PathBuilder<'a>>, AllocError>
    ensures view { IfOk result (λ builder. (root : RootView) → built_paths_of_option root builder
        ≡ forest_below_link_unless_empty (record {
          symbol = symbol_of_unique_id root symbol;
          decl = decl_by_specifier root symbol.module_id symbol_decl;
          parts = [];
        })
        (built_paths root next.entry.items)) }
    ensures stored { IfOk result (λ builder. (root : RootView) → symbol.module_id.0
        < length root.stored → AreModulesStored root (modules_of_builders next.entry.items)
        → IfSome builder (λ t. AreModulesStored root (modules_of_builder t))) }
{
    let step = LinkStep {
        symbol,
        symbol_decl,
        parts: None,
    };
    link_builder_of_step(alloc, step, next)
}

/// Returns a builder of a link with this symbol, declaration and parts in front of `next`, or
/// `None` if `next` is empty.
pub(crate) fn link_builder_with_parts<'a>(
    alloc: Global,
    symbol: UniqueSymbolId,
    symbol_decl: DeclRef,
    parts: &SharedParts,
    next: Vec<PathBuilder<'a>>,
) -> Result<Option<PathBuilder<'a>>, AllocError>
    ensures view { IfOk result (λ builder. (root : RootView) → built_paths_of_option root builder
        ≡ forest_below_link_unless_empty (record {
          symbol = symbol_of_unique_id root symbol;
          decl = decl_by_specifier root symbol.module_id symbol_decl;
          parts = remaining_parts parts.now;
        })
        (built_paths root next.entry.items)) }
    ensures stored { IfOk result (λ builder. (root : RootView) → symbol.module_id.0
        < length root.stored → AreModulesStored root (modules_of_builders next.entry.items)
        → IfSome builder (λ t. AreModulesStored root (modules_of_builder t))) }
{
    if next.is_empty() {
        return Ok(None);
    }
    let step = LinkStep {
        symbol,
        symbol_decl,
        parts: Some(parts.same()?),
    };
    link_builder_of_step(alloc, step, next)
}

/// Adds a builder, if there is one.
pub(crate) fn push_builder<'a>(
    builders: &mut Vec<PathBuilder<'a>>,
    builder: Option<PathBuilder<'a>>,
) -> Result<(), AllocError>
    ensures { OnOk result
        (builders.new.items ≡ builders.old.items ++ option_to_list builder.entry) }
{
    if let Some(builder) = builder {
        add_builder(builders, builder)?;
    }
    Ok(())
}

/// Returns one builder, of this unresolved end alone.
pub(crate) fn unresolved_builder<'a>(
    alloc: Global,
    missing: DefinitionUnresolved,
) -> Result<Vec<PathBuilder<'a>>, AllocError>
    ensures view { IfOk result (λ builders. (root : RootView) → built_paths root builders.items
        ≡ forest_of_tree (leaf (unresolved (unresolved_entry_view root missing)))) }
    ensures stored { IfOk result (λ builders. (root : RootView) → missing.«module».0
        < length root.stored → AreModulesStored root (modules_of_builders builders.items)) }
{
    let mut builders = Vec::with_capacity(alloc, 1)?;
    builders.push(builder_of_end(alloc, DefinitionOrUnresolved::Unresolved(missing)))?;
    Ok(builders)
}

/// Returns one builder, of an unresolved end with this module, kind and parts.
pub(crate) fn unresolved_builder_of_kind<'a>(
    alloc: Global,
    module_id: ModuleId,
    kind: DefinitionUnresolvedKind,
    parts: Vec<String>,
) -> Result<Vec<PathBuilder<'a>>, AllocError>
    ensures view { IfOk result (λ builders. (root : RootView) → built_paths root builders.items
        ≡ forest_of_tree (leaf
        (unresolved (record {
          specifier = specifier_in root module_id;
          reason = reason_view kind;
          parts = strings_view parts.items;
        })))) }
    ensures stored { IfOk result (λ builders. (root : RootView) → module_id.0 < length root.stored
        → AreModulesStored root (modules_of_builders builders.items)) }
{
    let missing = DefinitionUnresolved {
        module: module_id,
        kind,
        parts,
    };
    unresolved_builder(alloc, missing)
}

/// Returns one builder, of the unresolved end for a name that a module doesn't export.
pub(crate) fn missing_export_builder<'a>(
    alloc: Global,
    module_id: ModuleId,
    name: &str,
) -> Result<Vec<PathBuilder<'a>>, AllocError>
    ensures view { IfOk result (λ builders. (root : RootView) → built_paths root builders.items
        ≡ forest_of_tree (leaf
        (unresolved (record {
          specifier = specifier_in root module_id;
          reason = no_part name.now;
          parts = [];
        })))) }
    ensures stored { IfOk result (λ builders. (root : RootView) → module_id.0 < length root.stored
        → AreModulesStored root (modules_of_builders builders.items)) }
{
    let kind = DefinitionUnresolvedKind::Part(String::from_str(alloc, name)?);
    let parts = Vec::new(alloc);
    unresolved_builder_of_kind(alloc, module_id, kind, parts)
}

/// Returns a copy of an id.
pub(crate) fn copied_id(alloc: Global, id: &Id) -> Result<Id, AllocError>
    ensures { IfOk result (λ copy. id_view copy ≡ id_view id.now) }
{
    Ok(Id {
        name: String::from_str(alloc, id.name.as_str())?,
        scope: id.scope,
    })
}

/// Returns copies of parts.
pub(crate) fn copied_parts(alloc: Global, parts: &[String]) -> Result<Vec<String>, AllocError>
    ensures { IfOk result (λ copies. strings_view copies.items ≡ strings_view parts.now) }
{
    let mut copies = Vec::with_capacity(alloc, parts.len())?;
    for part in parts {
        copies.push(String::from_str(alloc, part.as_str())?)?;
    }
    Ok(copies)
}

/// Returns a builder of a link by a qualified name whose first name has no symbol, in front of the
/// unresolved end.
fn unresolved_id_builder<'a>(
    alloc: Global,
    symbol: UniqueSymbolId,
    symbol_decl: DeclRef,
    id: &Id,
    parts: &SharedParts,
) -> Result<Option<PathBuilder<'a>>, AllocError>
    ensures view { IfOk result (λ builder. (root : RootView) → built_paths_of_option root builder
        ≡ forest_of_tree (link (record {
          symbol = symbol_of_unique_id root symbol;
          decl = decl_by_specifier root symbol.module_id symbol_decl;
          parts = remaining_parts parts.now;
        })
        (forest_of_tree (leaf (unresolved
        (record {
          specifier = specifier_in root symbol.module_id;
          reason = no_symbol (id_view id.now);
          parts = remaining_parts parts.now;
        })))))) }
    ensures stored { IfOk result (λ builder. (root : RootView)
        → symbol.module_id.0 < length root.stored
        → IfSome builder (λ t. AreModulesStored root (modules_of_builder t))) }
{
    let kind = DefinitionUnresolvedKind::Id(copied_id(alloc, id)?);
    let missing = copied_parts(alloc, parts.texts())?;
    let next = unresolved_builder_of_kind(alloc, symbol.module_id, kind, missing)?;
    link_builder_with_parts(alloc, symbol, symbol_decl, parts, next)
}

/// Adds the builder of a definition alone.
#[inline(never)]
pub(crate) fn push_definition<'a>(
    alloc: Global,
    module: ModuleId,
    symbol_decl: DeclRef,
    kind: DefinitionKind<'a>,
    range: SourceRange,
    builders: &mut Vec<PathBuilder<'a>>,
) -> Result<(), AllocError>
    ensures { OnOk result ((builder : PathBuilder)
        × (builders.new.items ≡ builders.old.items ++ builder ∷ [])
        × ((root : RootView) → built_path root builder ≡ forest_of_tree
        (leaf (definition (record {
          decl = decl_by_specifier root «module» symbol_decl;
          range = range;
          star = star_import_view kind.entry;
        }))))
        × ((root : RootView) → «module».0 < length root.stored
        → AreModulesStored root (modules_of_builder builder))) }
{
    let builder = definition_path(alloc, module, symbol_decl, kind, range);
    add_builder(builders, builder)?;
    Ok(())
}

/// Adds a link with this symbol and declaration in front of `next`. Adds nothing if `next` is
/// empty.
#[inline(never)]
pub(crate) fn push_link<'a>(
    alloc: Global,
    symbol: UniqueSymbolId,
    symbol_decl: DeclRef,
    next: Vec<PathBuilder<'a>>,
    builders: &mut Vec<PathBuilder<'a>>,
) -> Result<(), AllocError>
    ensures { OnOk result ((builder : Option PathBuilder)
        × (builders.new.items ≡ builders.old.items ++ option_to_list builder)
        × ((root : RootView) → built_paths_of_option root builder ≡ forest_below_link_unless_empty
        (record {
          symbol = symbol_of_unique_id root symbol;
          decl = decl_by_specifier root symbol.module_id
              symbol_decl;
          parts = [];
        }) (built_paths root next.entry.items))
        × ((root : RootView) → symbol.module_id.0 < length root.stored
        → AreModulesStored root (modules_of_builders next.entry.items)
        → IfSome builder (λ t. AreModulesStored root (modules_of_builder t)))) }
{
    let builder = link_builder(alloc, symbol, symbol_decl, next)?;
    push_builder(builders, builder)
}

/// Adds a link with this symbol, declaration and parts in front of `next`. Adds nothing if `next`
/// is empty.
#[inline(never)]
pub(crate) fn push_link_with_parts<'a>(
    alloc: Global,
    symbol: UniqueSymbolId,
    symbol_decl: DeclRef,
    parts: &SharedParts,
    next: Vec<PathBuilder<'a>>,
    builders: &mut Vec<PathBuilder<'a>>,
) -> Result<(), AllocError>
    ensures { OnOk result ((builder : Option PathBuilder)
        × (builders.new.items ≡ builders.old.items ++ option_to_list builder)
        × ((root : RootView) → built_paths_of_option root builder ≡ forest_below_link_unless_empty
        (record {
          symbol = symbol_of_unique_id root symbol;
          decl = decl_by_specifier root symbol.module_id symbol_decl;
          parts = remaining_parts parts.now;
        })
        (built_paths root next.entry.items)) × ((root : RootView)
        → symbol.module_id.0 < length root.stored
        → AreModulesStored root (modules_of_builders next.entry.items)
        → IfSome builder (λ t. AreModulesStored root (modules_of_builder t)))) }
{
    let builder = link_builder_with_parts(alloc, symbol, symbol_decl, parts, next)?;
    push_builder(builders, builder)
}

/// Adds a link by a qualified name whose first name has no symbol, in front of the unresolved end.
#[inline(never)]
pub(crate) fn push_unresolved_id<'a>(
    alloc: Global,
    symbol: UniqueSymbolId,
    symbol_decl: DeclRef,
    id: &Id,
    parts: &SharedParts,
    builders: &mut Vec<PathBuilder<'a>>,
) -> Result<(), AllocError>
    ensures { OnOk result ((builder : Option PathBuilder)
        × (builders.new.items ≡ builders.old.items ++ option_to_list builder)
        × ((root : RootView) → built_paths_of_option root builder ≡ forest_of_tree
        (link (record {
          symbol = symbol_of_unique_id root symbol;
          decl = decl_by_specifier root symbol.module_id symbol_decl;
          parts = remaining_parts parts.now;
        })
        (forest_of_tree (leaf (unresolved
        (record {
          specifier = specifier_in root symbol.module_id;
          reason = no_symbol (id_view id.now);
          parts = remaining_parts parts.now;
        }))))))
        × ((root : RootView) → symbol.module_id.0 < length root.stored
        → IfSome builder (λ t. AreModulesStored root (modules_of_builder t)))) }
{
    let builder = unresolved_id_builder(alloc, symbol, symbol_decl, id, parts)?;
    push_builder(builders, builder)
}
