//! Resumes what waits for the paths of a symbol.

ghost use Rattle.std.specs.Prelude.{◌≡◌, ◌+◌, ◌<◌, ◌^◌, [], ◌∷◌, length, map, IfOk, IfSome};
ghost use Rattle.symbols_root.specs.Roots.{RootView};
ghost use Rattle.symbols_root.specs.Calls.{IsStored};
ghost use Rattle.symbols_paths.specs.PathTrees.{forest_below_link_unless_empty};
ghost use Rattle.symbols_paths.specs.Derived.{part_link_head};
ghost use Rattle.symbols_paths.specs.Views.{definition_by_specifier, AreModulesStored};
ghost use Rattle.symbols_paths.specs.NeededModules.{AreNewlyStoredAmong};
ghost use Rattle.symbols_paths.specs.inner.PathBuilders.{remaining_parts, built_paths};
ghost use Rattle.symbols_paths.specs.inner.PathBuilders.{built_paths_of_option};
ghost use Rattle.symbols_paths.specs.inner.PathBuilders.{modules_of_builder, modules_of_builders};
ghost use Rattle.symbols_paths.specs.inner.PathBuilders.{builders_among};
ghost use Rattle.symbols_paths.specs.inner.ReplacedDefinitions.{forest_with_definitions_replaced};
ghost use Rattle.symbols_paths.specs.inner.Needed.{HasGrownAndFailsOnlyStoringOneOf};
ghost use Rattle.symbols_paths.specs.inner.SearchInvariants.{SearchStart, IsNeededBySearchFromStart};
ghost use Rattle.symbols_paths.specs.inner.SearchInvariants.{IsSearchOfNeededModules, IsStepWithSameOutcomeAndLessWork};
ghost use Rattle.symbols_paths.specs.inner.SearchInvariants.{IsStateStepWithSameOutcomeAndLessWork};
ghost use Rattle.symbols_paths.specs.inner.SearchInvariants.{IsStateOfNeededModules, IsStarSearchOfNeededModules};
ghost use Rattle.symbols_paths.specs.inner.SearchInvariants.{IsPartsSearchOfNeededModules, IsNextStepOfResumedFrame};

use crate::definition::Definition;
use crate::follow_decl::{with_alias_link, with_link};
use crate::part_target::{PartTarget, part_target_of};
use crate::path_builder::PathBuilder;
use crate::path_links::{definition_path, link_builder_with_parts, unresolved_builder};
use crate::replace_definitions::{definitions_among, replace_definitions};
use crate::search_step::{
    AliasSearch, Expansion, Frame, PartsSearch, SearchState, StarSearch, Step,
};
use crate::shared_parts::SharedParts;
use std::alloc::{AllocError, Global};
use std::collections::VecDeque;
use symbols_graph::ids::UniqueSymbolId;
use symbols_root::RootSymbol;
use symbols_table::info::SymbolsFault;

/// Goes on after the paths of a frame were found.
pub(crate) fn resume_frame<'a>(
    root: &RootSymbol<'a>,
    state: &mut SearchState<'a>,
    frame: Frame<'a>,
    paths: Vec<PathBuilder<'a>>,
) -> Result<Step<'a>, AllocError>
    ghost start: { SearchStart }
    requires { IsSearchOfNeededModules start root.now state.old.resolving.keys
        state.old.visited.keys (frame ∷ state.old.frames.items) (Step.Found paths) }
    ensures { IfOk result (λ next. IsStepWithSameOutcomeAndLessWork start root.now
        state.old.visited.keys (frame.entry ∷ state.old.frames.items) (Step.Found paths.entry)
        root.now state.new.resolving.keys state.new.visited.keys state.new.frames.items next) }
{
    match frame {
        Frame::Link(here, symbol) => Ok(Step::Expand(with_link(
            root.alloc(),
            here,
            symbol,
            paths,
        )?)),
        Frame::Star(star) => resume_star(root, star, paths),
        Frame::Alias(alias) => resume_alias(root, state, alias, paths),
        Frame::Parts(parts) => resume_parts(root, parts, paths),
        Frame::Replacement(search) => resume_replacement(root, search, paths),
    }
}

/// Takes the paths of a candidate, or goes on to the next one if it has none.
fn resume_star<'a>(
    root: &RootSymbol<'a>,
    star: Box<StarSearch<'a>>,
    paths: Vec<PathBuilder<'a>>,
) -> Result<Step<'a>, AllocError>
    ghost start: { SearchStart }
    requires { IsStarSearchOfNeededModules start root.now star.value }
    ensures { IfOk result (IsNextStepOfResumedFrame start root.now (Frame.Star star.entry)
        (Step.Found paths.entry)) }
{
    if paths.is_empty() {
        return Ok(Step::TryStar(star));
    }
    let here = Box::into_inner(star).here;
    let symbol = here.symbol;
    Ok(Step::Expand(with_link(root.alloc(), here, symbol, paths)?))
}

/// Ends the search of an alias: it is no longer being resolved, and the symbols visited before it
/// are visited again.
fn resume_alias<'a>(
    root: &RootSymbol<'a>,
    state: &mut SearchState<'a>,
    alias: Box<AliasSearch<'a>>,
    paths: Vec<PathBuilder<'a>>,
) -> Result<Step<'a>, AllocError>
    ghost start: { SearchStart }
    requires { IsSearchOfNeededModules start root.now state.old.resolving.keys
        state.old.visited.keys (Frame.Alias alias ∷ state.old.frames.items) (Step.Found paths) }
    ensures { IfOk result
        (λ next. IsStepWithSameOutcomeAndLessWork start root.now state.old.visited.keys
        (Frame.Alias alias.entry ∷ state.old.frames.items) (Step.Found paths.entry)
        root.now state.new.resolving.keys state.new.visited.keys state.new.frames.items next) }
{
    let outer = Box::into_inner(alias);
    let _ = state.resolving.pop();
    state.visited = outer.visited;
    Ok(Step::Expand(with_alias_link(root.alloc(), outer.here, &outer.parts, paths)?))
}

/// Begins to resolve parts in the definitions at the ends of paths.
fn resume_parts<'a>(
    root: &RootSymbol<'a>,
    parts: SharedParts,
    paths: Vec<PathBuilder<'a>>,
) -> Result<Step<'a>, AllocError>
    ghost start: { SearchStart }
    ensures { IfOk result (IsNextStepOfResumedFrame start root.now (Frame.Parts parts)
        (Step.Found paths.entry)) }
{
    if parts.is_empty() {
        return Ok(Step::Found(paths));
    }
    let definitions = definitions_among(root.alloc(), &paths)?;
    let search = PartsSearch {
        parts,
        paths,
        definitions,
        replacements: VecDeque::new(root.alloc()),
    };
    Ok(Step::Replace(Box::new(root.alloc(), search)?))
}

/// Takes the paths of a definition's part: a link in front of them replaces the definition.
fn resume_replacement<'a>(
    root: &RootSymbol<'a>,
    search: Box<PartsSearch<'a>>,
    paths: Vec<PathBuilder<'a>>,
) -> Result<Step<'a>, AllocError>
    ghost start: { SearchStart }
    requires { length search.value.replacements.items < length search.value.definitions.items }
    ensures { IfOk result (IsNextStepOfResumedFrame start root.now (Frame.Replacement search.entry)
        (Step.Found paths.entry)) }
{
    let mut search = search;
    let definition = search.definitions[search.replacements.len()];
    let path = part_link(root.alloc(), &definition, &search.parts, paths)?;
    search.replacements.push_back(path)?;
    Ok(Step::Replace(search))
}

/// Returns a link of a definition and its parts, in front of paths; `None` if there are none.
fn part_link<'a>(
    alloc: Global,
    definition: &Definition<'a>,
    parts: &SharedParts,
    next: Vec<PathBuilder<'a>>,
) -> Result<Option<PathBuilder<'a>>, AllocError>
    ensures view { IfOk result (λ builder. (root : RootView)
        → built_paths_of_option root builder ≡ forest_below_link_unless_empty
        (part_link_head (definition_by_specifier root definition.now) (remaining_parts parts.now))
        (built_paths root next.entry.items)) }
    ensures stored { IfOk result (λ builder. (root : RootView)
        → IsStored root definition.now.«module»
        → AreModulesStored root (modules_of_builders next.entry.items)
        → IfSome builder (λ b. AreModulesStored root (modules_of_builder b))) }
{
    let symbol = UniqueSymbolId::new(definition.module, definition.symbol_decl.symbol);
    link_builder_with_parts(alloc, symbol, definition.symbol_decl, parts, next)
}

/// Replaces the next definition under its parts, or the definitions in the paths if there is none
/// left.
pub(crate) fn replace_next_definition<'a>(
    root: &mut RootSymbol<'a>,
    state: &mut SearchState<'a>,
    search: Box<PartsSearch<'a>>,
) -> Result<Step<'a>, SymbolsFault>
    ghost start: { SearchStart }
    requires { IsStateOfNeededModules start root.old state.old (Step.Replace search) }
    ensures keeps { HasGrownAndFailsOnlyStoringOneOf root.old root.new
        (IsNeededBySearchFromStart start root.old) result }
    ensures stores { AreNewlyStoredAmong root.old root.new
        (IsNeededBySearchFromStart start root.old) }
    ensures steps { IfOk result (λ next. IsStateStepWithSameOutcomeAndLessWork
        start root.old state.old (Step.Replace search.entry) root.new state.new next) }
{
    let mut search = search;
    let definition = match search.definitions.get(search.replacements.len()) {
        Some(definition) => *definition,
        None => return Ok(Step::Found(replaced_paths(root.alloc(), search)?)),
    };
    match part_target_of(root, &definition, search.parts.texts()) {
        Err(fault) => Err(fault),
        Ok(PartTarget::Itself) => {
            let itself = definition_path(
                root.alloc(),
                definition.module,
                definition.symbol_decl,
                definition.kind,
                definition.range,
            );
            search.replacements.push_back(Some(itself))?;
            Ok(Step::Replace(search))
        }
        Ok(PartTarget::UnresolvedEntry(missing)) => {
            let next = unresolved_builder(root.alloc(), missing)?;
            let path = part_link(root.alloc(), &definition, &search.parts, next)?;
            search.replacements.push_back(path)?;
            Ok(Step::Replace(search))
        }
        Ok(PartTarget::Symbol(target)) => {
            let remaining = search.parts.after_first_part()?;
            state.frames.push_front(Frame::Replacement(search))?;
            state.frames.push_front(Frame::Parts(remaining))?;
            Ok(Step::Search(target))
        }
    }
}

/// Returns the paths with their definitions replaced.
fn replaced_paths<'a>(
    alloc: Global,
    search: Box<PartsSearch<'a>>,
) -> Result<Vec<PathBuilder<'a>>, AllocError>
    ensures found { IfOk result (λ found. (root : RootView) → built_paths root found.items
        ≡ (forest_with_definitions_replaced (remaining_parts search.entry.value.parts)
        (built_paths root search.entry.value.paths.items)
        (map (built_paths_of_option root) search.entry.value.replacements.items)).0) }
    ensures stored { IfOk result (λ found. (root : RootView)
        → AreModulesStored root (modules_of_builders search.entry.value.paths.items)
        → AreModulesStored root (modules_of_builders
        (builders_among search.entry.value.replacements.items))
        → AreModulesStored root (modules_of_builders found.items)) }
{
    let search = Box::into_inner(search);
    let mut replacements = search.replacements;
    replace_definitions(alloc, search.paths, &search.parts, &mut replacements)
}
