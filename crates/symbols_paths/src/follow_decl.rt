//! Follows the declarations of symbols.

ghost use Rattle.std.specs.Prelude.{◌≡◌, ◌+◌, ◌<◌, ◌^◌, [], slice_get, Contains, IfOk, IfSome, None};
ghost use Rattle.symbols_ast.specs.Ids.{id_view};
ghost use Rattle.symbols_table.specs.DeclViews.{Declaration};
ghost use Rattle.symbols_root.specs.Roots.{RootView, specifier_in};
ghost use Rattle.symbols_root.specs.Calls.{IsStored};
ghost use Rattle.symbols_paths.specs.PathTrees.{no_symbol, definition, unresolved, leaf, link};
ghost use Rattle.symbols_paths.specs.PathTrees.{no_trees, forest_of_tree, forest_below_link_unless_empty};
ghost use Rattle.symbols_paths.specs.DeclTargets.{declarations_of};
ghost use Rattle.symbols_paths.specs.Derived.{alias_link_head};
ghost use Rattle.symbols_paths.specs.Choice.{forest_of_unresolved};
ghost use Rattle.symbols_paths.specs.Views.{decl_by_specifier, star_import_view, AreModulesStored};
ghost use Rattle.symbols_paths.specs.NeededModules.{AreNewlyStoredAmong};
ghost use Rattle.symbols_paths.specs.inner.Views.{symbol_of_unique_id};
ghost use Rattle.symbols_paths.specs.inner.PathBuilders.{remaining_parts, built_paths};
ghost use Rattle.symbols_paths.specs.inner.PathBuilders.{modules_of_builders};
ghost use Rattle.symbols_paths.specs.inner.Needed.{HasGrownAndFailsOnlyStoringOneOf};
ghost use Rattle.symbols_paths.specs.inner.SearchSteps.{IsTargetOfDeclAtIndex, ArePathsFoundByNewSearch};
ghost use Rattle.symbols_paths.specs.inner.StillToCome.{link_head_of_current_decl, unresolved_entry_of_missing_export};
ghost use Rattle.symbols_paths.specs.inner.SearchInvariants.{SearchStart, IsNeededBySearchFromStart};
ghost use Rattle.symbols_paths.specs.inner.SearchInvariants.{IsExpansionAtNextDecl, IsStateOfNeededModules};
ghost use Rattle.symbols_paths.specs.inner.SearchInvariants.{IsStateStepWithSameOutcomeAndLessWork};

use crate::alias_decl::AliasDecl;
use crate::decl_target::{
    DeclTarget, NamedImport, decl_target_at, decls_of_symbol, definition_kind, explicit_export,
    searches_stars_for, star_specifier,
};
use crate::definition::DefinitionKind;
use crate::definition_unresolved::DefinitionUnresolvedKind;
use crate::path_builder::PathBuilder;
use crate::path_links::{
    missing_export_builder, push_definition, push_link, push_link_with_parts, push_unresolved_id,
    unresolved_builder_of_kind,
};
use crate::re_exported_symbol::{re_exported_symbol, resolve_specifier};
use crate::search_step::{AliasSearch, Expansion, Frame, SearchState, StarSearch, Step};
use crate::shared_parts::SharedParts;
use crate::visited_symbols::VisitedSymbols;
use std::alloc::{AllocError, Global};
use symbols_graph::ids::{ModuleId, SymbolId, UniqueSymbolId};
use symbols_graph::tree::{Id, SourceRange};
use symbols_root::RootSymbol;
use symbols_root::laws::stored_modules_distinct;
use symbols_table::info::SymbolsFault;

/// Returns the expansion at the next declaration, with the paths so far.
fn at_next_decl(here: Expansion<'_>) -> Expansion<'_>
    requires { here.index + 1 < 2 ^ 32 }
    ensures next { IsExpansionAtNextDecl here.entry result (λ root. no_trees) }
    ensures same { result.paths.items ≡ here.entry.paths.items }
{
    Expansion {
        symbol: here.symbol,
        index: here.index + 1,
        paths: here.paths,
    }
}

/// Returns the expansion at the next declaration; this one is a definition.
fn with_definition<'a>(
    alloc: Global,
    here: Expansion<'a>,
    kind: DefinitionKind<'a>,
    range: SourceRange,
) -> Result<Expansion<'a>, AllocError>
    requires { here.index + 1 < 2 ^ 32 }
    ensures next { IfOk result (λ next. IsExpansionAtNextDecl here.entry next (λ root.
        forest_of_tree (leaf (definition (record {
          decl = decl_by_specifier root here.entry.symbol.module_id
              (record { symbol = here.entry.symbol.symbol_id; index = here.entry.index });
          range = range;
          star = star_import_view kind.entry;
        }))))) }
    ensures stored { IfOk result (λ next. (root : RootView)
        → IsStored root here.entry.symbol.module_id
        → AreModulesStored root (modules_of_builders here.entry.paths.items)
        → AreModulesStored root (modules_of_builders next.paths.items)) }
{
    let mut here = here;
    let decl = here.decl();
    push_definition(
        alloc,
        here.symbol.module_id,
        decl,
        kind,
        range,
        &mut here.paths,
    )?;
    Ok(at_next_decl(here))
}

/// Returns the expansion at the next declaration; this one has a link in front of `next`, if that
/// isn't empty.
pub(crate) fn with_link<'a>(
    alloc: Global,
    here: Expansion<'a>,
    symbol: UniqueSymbolId,
    next: Vec<PathBuilder<'a>>,
) -> Result<Expansion<'a>, AllocError>
    requires { here.index + 1 < 2 ^ 32 }
    ensures next { IfOk result (λ after. IsExpansionAtNextDecl here.entry after
        (λ root. forest_below_link_unless_empty
        (link_head_of_current_decl root here.entry symbol) (built_paths root next.entry.items))) }
    ensures stored { IfOk result (λ after. (root : RootView) → IsStored root symbol.module_id
        → AreModulesStored root (modules_of_builders here.entry.paths.items)
        → AreModulesStored root (modules_of_builders next.entry.items)
        → AreModulesStored root (modules_of_builders after.paths.items)) }
{
    let mut here = here;
    let decl = here.decl();
    push_link(alloc, symbol, decl, next, &mut here.paths)?;
    Ok(at_next_decl(here))
}

/// Returns the expansion at the next declaration; this one has a link with parts, of the symbol
/// itself, in front of `next`, if that isn't empty.
pub(crate) fn with_alias_link<'a>(
    alloc: Global,
    here: Expansion<'a>,
    parts: &SharedParts,
    next: Vec<PathBuilder<'a>>,
) -> Result<Expansion<'a>, AllocError>
    requires { here.index + 1 < 2 ^ 32 }
    ensures next { IfOk result (λ after. IsExpansionAtNextDecl here.entry after (λ root.
        forest_below_link_unless_empty (alias_link_head (symbol_of_unique_id root here.entry.symbol)
        here.entry.index (remaining_parts parts.now)) (built_paths root next.entry.items))) }
    ensures stored { IfOk result (λ after. (root : RootView)
        → IsStored root here.entry.symbol.module_id
        → AreModulesStored root (modules_of_builders here.entry.paths.items)
        → AreModulesStored root (modules_of_builders next.entry.items)
        → AreModulesStored root (modules_of_builders after.paths.items)) }
{
    let mut here = here;
    let decl = here.decl();
    push_link_with_parts(alloc, here.symbol, decl, parts, next, &mut here.paths)?;
    Ok(at_next_decl(here))
}

/// Returns the expansion at the next declaration; this one is a qualified name whose first name has
/// no symbol.
fn with_unresolved_id<'a>(
    alloc: Global,
    here: Expansion<'a>,
    id: &Id,
    parts: &SharedParts,
) -> Result<Expansion<'a>, AllocError>
    requires { here.index + 1 < 2 ^ 32 }
    ensures next { IfOk result (λ next. IsExpansionAtNextDecl here.entry next
        (λ root. forest_of_tree (link (alias_link_head (symbol_of_unique_id root here.entry.symbol)
        here.entry.index (remaining_parts parts.now)) (forest_of_tree (leaf (unresolved
        (record {
          specifier = specifier_in root here.entry.symbol.module_id;
          reason = no_symbol
              (id_view id.now);
          parts = remaining_parts parts.now;
        }))))))) }
    ensures stored { IfOk result (λ next. (root : RootView)
        → IsStored root here.entry.symbol.module_id
        → AreModulesStored root (modules_of_builders here.entry.paths.items)
        → AreModulesStored root (modules_of_builders next.paths.items)) }
{
    let mut here = here;
    let decl = here.decl();
    push_unresolved_id(alloc, here.symbol, decl, id, parts, &mut here.paths)?;
    Ok(at_next_decl(here))
}

/// Returns the paths of a symbol whose declarations are all definitions, or `None` if one is
/// another name. Such a symbol needs no frame, and no set of visited symbols.
pub(crate) fn definitions_alone<'a>(
    root: &RootSymbol<'a>,
    symbol: UniqueSymbolId,
) -> Result<Option<Vec<PathBuilder<'a>>>, AllocError>
    requires { IsStored root.now symbol.module_id }
    ensures { IfOk result (λ found. IfSome found
        (λ paths. ArePathsFoundByNewSearch root.now symbol [] paths.items)) }
{
    stored_modules_distinct(root);
    let Some(decls) = decls_of_symbol(root, symbol) else {
        return Ok(None);
    };
    let mut here = Expansion {
        symbol,
        index: 0,
        paths: Vec::new(root.alloc()),
    };
    'decls: while let Some(decl) = decls.get(here.index as usize) {
        let Some(kind) = definition_kind(decl) else {
            return Ok(None);
        };
        here = with_definition(root.alloc(), here, kind, decl.range)?;
    }
    Ok(Some(here.paths))
}

/// Begins the search of a symbol, which has no path if this search visited it before.
pub(crate) fn begin_search<'a>(
    root: &RootSymbol<'a>,
    state: &mut SearchState<'a>,
    symbol: UniqueSymbolId,
) -> Result<Step<'a>, AllocError>
    ghost start: { SearchStart }
    requires { IsStateOfNeededModules start root.now state.old (Step.Search symbol) }
    ensures { IfOk result (λ next. IsStateStepWithSameOutcomeAndLessWork start root.now state.old
        (Step.Search symbol) root.now state.new next) }
{
    stored_modules_distinct(root);
    let paths = Vec::new(root.alloc());
    let is_new = state.visited.insert(root.alloc(), symbol)?;
    if !is_new {
        return Ok(Step::Found(paths));
    }
    Ok(Step::Expand(Expansion {
        symbol,
        index: 0,
        paths,
    }))
}

/// Follows the next declaration of a symbol, if there is one.
#[tactic(auto, using(crate::specs::laws::Storing::newly_stored_none))]
pub(crate) fn follow_next_decl<'a>(
    root: &mut RootSymbol<'a>,
    state: &mut SearchState<'a>,
    here: Expansion<'a>,
) -> Result<Step<'a>, SymbolsFault>
    ghost start: { SearchStart }
    requires { IsStateOfNeededModules start root.old state.old (Step.Expand here) }
    ensures keeps { HasGrownAndFailsOnlyStoringOneOf root.old root.new
        (IsNeededBySearchFromStart start root.old) result }
    ensures stores { AreNewlyStoredAmong root.old root.new
        (IsNeededBySearchFromStart start root.old) }
    ensures steps { IfOk result (λ next. IsStateStepWithSameOutcomeAndLessWork
        start root.old state.old (Step.Expand here.entry) root.new state.new next) }
{
    let symbol = here.symbol;
    let index = here.index;
    let Some(decl_target) = decl_target_at(root, symbol, index)? else {
        return Ok(Step::Found(here.paths));
    };
    follow_decl(root, state, here, decl_target)
}

/// Follows a declaration of a symbol.
#[tactic(auto, using(crate::specs::laws::Storing::newly_stored_none))]
fn follow_decl<'a>(
    root: &mut RootSymbol<'a>,
    state: &mut SearchState<'a>,
    here: Expansion<'a>,
    decl_target: DeclTarget<'a>,
) -> Result<Step<'a>, SymbolsFault>
    ghost start: { SearchStart }
    requires valid { IsStateOfNeededModules start root.old state.old (Step.Expand here) }
    requires reads { IsTargetOfDeclAtIndex root.old.rules root.old.graph
        (symbol_of_unique_id root.old here.symbol) here.index decl_target }
    requires fits { here.index + 1 < 2 ^ 32 }
    ensures keeps { HasGrownAndFailsOnlyStoringOneOf root.old root.new
        (IsNeededBySearchFromStart start root.old) result }
    ensures stores { AreNewlyStoredAmong root.old root.new
        (IsNeededBySearchFromStart start root.old) }
    ensures steps { IfOk result (λ next. IsStateStepWithSameOutcomeAndLessWork
        start root.old state.old (Step.Expand here.entry) root.new state.new next) }
{
    match decl_target {
        DeclTarget::Definition(kind, range) => {
            Ok(Step::Expand(with_definition(root.alloc(), here, kind, range)?))
        }
        DeclTarget::Nothing => Ok(Step::Expand(at_next_decl(here))),
        DeclTarget::Symbol(symbol_id) => {
            let target = UniqueSymbolId::new(here.symbol.module_id, symbol_id);
            state.frames.push_front(Frame::Link(here, target))?;
            Ok(Step::Search(target))
        }
        DeclTarget::Alias(symbol_id, parts) => Ok(begin_alias(
            root, state, here, symbol_id, parts,
        )?),
        DeclTarget::UnresolvedId(id, parts) => {
            Ok(Step::Expand(with_unresolved_id(root.alloc(), here, id, &parts)?))
        }
        DeclTarget::Import(named_import) => follow_import(root, state, here, &named_import),
    }
}

/// Begins the search of an alias, with visited symbols of its own. An alias that is already being
/// resolved has no path.
fn begin_alias<'a>(
    root: &RootSymbol<'a>,
    state: &mut SearchState<'a>,
    here: Expansion<'a>,
    symbol_id: SymbolId,
    parts: SharedParts,
) -> Result<Step<'a>, AllocError>
    ghost start: { SearchStart }
    requires valid { IsStateOfNeededModules start root.now state.old (Step.Expand here) }
    requires reads { IsTargetOfDeclAtIndex root.now.rules root.now.graph
        (symbol_of_unique_id root.now here.symbol) here.index
        (DeclTarget.Alias symbol_id parts) }
    requires fits { here.index + 1 < 2 ^ 32 }
    ensures { IfOk result (λ next. IsStateStepWithSameOutcomeAndLessWork start root.now state.old
        (Step.Expand here.entry) root.now state.new next) }
{
    stored_modules_distinct(root);
    let alias = AliasDecl {
        module: here.symbol.module_id,
        decl: here.decl(),
    };
    let (_, is_new) = state.resolving.insert_full(alias)?;
    if !is_new {
        return Ok(Step::Expand(at_next_decl(here)));
    }
    let target = UniqueSymbolId::new(here.symbol.module_id, symbol_id);
    let waits = parts.same()?;
    let visited = std::mem::replace(&mut state.visited, VisitedSymbols::new(root.alloc()));
    let outer = AliasSearch {
        here,
        parts,
        visited,
    };
    let outer = Box::new(root.alloc(), outer)?;
    state.frames.push_front(Frame::Alias(outer))?;
    if waits.is_empty() {
        return Ok(Step::Search(target));
    }
    state.frames.push_front(Frame::Parts(waits))?;
    Ok(Step::Search(target))
}

/// Follows a named import into its module: to the module's local export of the name, else along its
/// `export *` statements. Under strict rules the search for `default` doesn't go along them.
fn follow_import<'a>(
    root: &mut RootSymbol<'a>,
    state: &mut SearchState<'a>,
    here: Expansion<'a>,
    named_import: &NamedImport<'a>,
) -> Result<Step<'a>, SymbolsFault>
    ghost start: { SearchStart }
    requires valid { IsStateOfNeededModules start root.old state.old (Step.Expand here) }
    requires reads { IsTargetOfDeclAtIndex root.old.rules root.old.graph
        (symbol_of_unique_id root.old here.symbol) here.index
        (DeclTarget.Import named_import.now) }
    requires fits { here.index + 1 < 2 ^ 32 }
    ensures keeps { HasGrownAndFailsOnlyStoringOneOf root.old root.new
        (IsNeededBySearchFromStart start root.old) result }
    ensures stores { AreNewlyStoredAmong root.old root.new
        (IsNeededBySearchFromStart start root.old) }
    ensures steps { IfOk result (λ next. IsStateStepWithSameOutcomeAndLessWork
        start root.old state.old (Step.Expand here.entry) root.new state.new next) }
{
    let symbol = here.symbol;
    let module_id = match resolve_specifier(root, symbol.module_id, named_import.specifier_text) {
        Err(fault) => return Err(fault),
        Ok(None) => {
            let specifier_text = String::from_str(root.alloc(), named_import.specifier_text)?;
            let kind = DefinitionUnresolvedKind::Specifier(specifier_text);
            let parts = Vec::new(root.alloc());
            let next = unresolved_builder_of_kind(root.alloc(), symbol.module_id, kind, parts)?;
            return Ok(Step::Expand(with_link(root.alloc(), here, symbol, next)?));
        }
        Ok(Some(module_id)) => module_id,
    };
    match explicit_export(root, module_id, named_import.name) {
        Some(explicit) => {
            state.frames.push_front(Frame::Link(here, symbol))?;
            Ok(Step::Search(UniqueSymbolId::new(module_id, explicit)))
        }
        None if searches_stars_for(root.rules(), named_import.name) => {
            let star = StarSearch {
                here,
                module_id,
                name: named_import.name,
                position: 0,
            };
            Ok(Step::TryStar(Box::new(root.alloc(), star)?))
        }
        None => Ok(Step::Expand(with_missing_export(
            root.alloc(),
            here,
            module_id,
            named_import.name,
        )?)),
    }
}

/// Returns the expansion at the next declaration; this one is an import of a name that the module
/// doesn't export.
fn with_missing_export<'a>(
    alloc: Global,
    here: Expansion<'a>,
    module_id: ModuleId,
    name: &str,
) -> Result<Expansion<'a>, AllocError>
    requires { here.index + 1 < 2 ^ 32 }
    ensures next { IfOk result (λ next. IsExpansionAtNextDecl here.entry next (λ root.
        forest_below_link_unless_empty (link_head_of_current_decl root here.entry here.entry.symbol)
        (forest_of_unresolved (unresolved_entry_of_missing_export root module_id name.now)))) }
    ensures stored { IfOk result (λ next. (root : RootView)
        → IsStored root here.entry.symbol.module_id
        → AreModulesStored root (modules_of_builders here.entry.paths.items)
        → IsStored root module_id
        → AreModulesStored root (modules_of_builders next.paths.items)) }
{
    let symbol = here.symbol;
    let next = missing_export_builder(alloc, module_id, name)?;
    with_link(alloc, here, symbol, next)
}

/// Looks the name up along the next `export *` statement, if there is one.
pub(crate) fn try_next_star<'a>(
    root: &mut RootSymbol<'a>,
    state: &mut SearchState<'a>,
    star: Box<StarSearch<'a>>,
) -> Result<Step<'a>, SymbolsFault>
    ghost start: { SearchStart }
    requires { IsStateOfNeededModules start root.old state.old (Step.TryStar star) }
    ensures keeps { HasGrownAndFailsOnlyStoringOneOf root.old root.new
        (IsNeededBySearchFromStart start root.old) result }
    ensures stores { AreNewlyStoredAmong root.old root.new
        (IsNeededBySearchFromStart start root.old) }
    ensures steps { IfOk result (λ next. IsStateStepWithSameOutcomeAndLessWork
        start root.old state.old (Step.TryStar star.entry) root.new state.new next) }
{
    let mut star = star;
    let module_id = star.module_id;
    let name = star.name;
    let Some(specifier_text) = star_specifier(root, module_id, star.position) else {
        let here = Box::into_inner(star).here;
        return Ok(Step::Expand(with_missing_export(root.alloc(), here, module_id, name)?));
    };
    match re_exported_symbol(root, module_id, specifier_text, name) {
        Err(fault) => Err(fault),
        Ok(None) => {
            star.position += 1;
            Ok(Step::TryStar(star))
        }
        Ok(Some(candidate)) => {
            star.position += 1;
            state.frames.push_front(Frame::Star(star))?;
            Ok(Step::Search(candidate))
        }
    }
}
