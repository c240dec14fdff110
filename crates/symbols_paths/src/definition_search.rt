//! The search for definitions, from declaration to declaration, as a loop of steps. It expands each
//! symbol once.

ghost use Rattle.std.specs.Prelude.{◌≡◌, true, false, List, [], IfOk};
ghost use Rattle.symbols_ast.specs.declared.ids.UniqueSymbolId.{UniqueSymbolId};
ghost use Rattle.symbols_root.specs.Calls.{IsStored};
ghost use Rattle.symbols_paths.specs.NeededModules.{AreNewlyStoredAmong};
ghost use Rattle.symbols_paths.specs.inner.PathBuilders.{remaining_parts};
ghost use Rattle.symbols_paths.specs.inner.Needed.{IsNeededFrom, HasGrownAndFailsOnlyStoringOneOf};
ghost use Rattle.symbols_paths.specs.inner.SearchSteps.{ArePathsFoundByNewSearch};
ghost use Rattle.symbols_paths.specs.inner.SearchInvariants.{SearchStart, IsNeededBySearchFromStart};
ghost use Rattle.symbols_paths.specs.inner.SearchInvariants.{IsSearchOfNeededModules, IsStateOfNeededModules};
ghost use Rattle.symbols_paths.specs.inner.SearchInvariants.{IsStateStepWithSameOutcomeAndLessWork};
ghost use Rattle.symbols_paths.specs.inner.SearchInvariants.{IsFinalResultOfSearch, is_search_over};
ghost use Rattle.symbols_paths.specs.inner.SearchInvariants.{is_step_with_found_paths};

use crate::follow_decl::{begin_search, definitions_alone, follow_next_decl, try_next_star};
use crate::path_builder::PathBuilder;
use crate::resume_search::{replace_next_definition, resume_frame};
use crate::search_step::{Frame, SearchState, Step};
use crate::shared_parts::SharedParts;
use crate::visited_symbols::VisitedSymbols;
use indexmap::IndexSet;
use std::collections::VecDeque;
use symbols_graph::ids::UniqueSymbolId;
use symbols_root::RootSymbol;
use symbols_table::info::SymbolsFault;

/// Finds the paths of a symbol, at most one for each of its declarations, by a search of its own.
#[tactic(auto, using(crate::specs::laws::Storing::newly_stored_none))]
pub(crate) fn find_definition_paths_internal<'a>(
    root: &mut RootSymbol<'a>,
    symbol: UniqueSymbolId,
) -> Result<Vec<PathBuilder<'a>>, SymbolsFault>
    requires known { IsStored root.old symbol.module_id }
    ensures keeps { HasGrownAndFailsOnlyStoringOneOf root.old root.new
        (IsNeededFrom root.old symbol.module_id []) result }
    ensures stores { AreNewlyStoredAmong root.old root.new
        (IsNeededFrom root.old symbol.module_id []) }
    ensures found { IfOk result (λ paths. ArePathsFoundByNewSearch root.new symbol [] paths.items) }
{
    if let Some(paths) = definitions_alone(root, symbol)? {
        return Ok(paths);
    }
    let frames = VecDeque::new(root.alloc());
    search_from(root, frames, symbol)
}

/// Finds the paths of a symbol under parts: its paths, with the parts resolved in the definitions
/// at their ends. Without parts these are the symbol's paths.
pub(crate) fn resolve_qualified_name_internal<'a>(
    root: &mut RootSymbol<'a>,
    symbol: UniqueSymbolId,
    parts: &SharedParts,
) -> Result<Vec<PathBuilder<'a>>, SymbolsFault>
    requires known { IsStored root.old symbol.module_id }
    ensures keeps { HasGrownAndFailsOnlyStoringOneOf root.old root.new
        (IsNeededFrom root.old symbol.module_id (remaining_parts parts.now)) result }
    ensures stores { AreNewlyStoredAmong root.old root.new
        (IsNeededFrom root.old symbol.module_id (remaining_parts parts.now)) }
    ensures found { IfOk result (λ paths.
        ArePathsFoundByNewSearch root.new symbol (remaining_parts parts.now) paths.items) }
{
    if parts.is_empty() {
        return find_definition_paths_internal(root, symbol);
    }
    let mut frames = VecDeque::new(root.alloc());
    frames.push_front(Frame::Parts(parts.same()?))?;
    search_from(root, frames, symbol)
}

/// Searches a symbol, for these frames.
fn search_from<'a>(
    root: &mut RootSymbol<'a>,
    frames: VecDeque<Frame<'a>>,
    symbol: UniqueSymbolId,
) -> Result<Vec<PathBuilder<'a>>, SymbolsFault>
    ghost start: { SearchStart }
    requires { IsSearchOfNeededModules start root.old [] [] frames.items (Step.Search symbol) }
    ensures keeps { HasGrownAndFailsOnlyStoringOneOf root.old root.new
        (IsNeededBySearchFromStart start root.old) result }
    ensures stores { AreNewlyStoredAmong root.old root.new
        (IsNeededBySearchFromStart start root.old) }
    ensures found { IfOk result (λ paths. (after : List UniqueSymbolId)
        × IsFinalResultOfSearch start root.old [] frames.entry.items (Step.Search symbol)
        root.new after paths.items) }
{
    let resolving = IndexSet::new(root.alloc());
    let visited = VisitedSymbols::new(root.alloc());
    let mut state = SearchState {
        resolving,
        visited,
        frames,
    };
    take_steps(root, &mut state, Step::Search(symbol))
}

/// Takes steps until no frame waits for what is found.
fn take_steps<'a>(
    root: &mut RootSymbol<'a>,
    state: &mut SearchState<'a>,
    first: Step<'a>,
) -> Result<Vec<PathBuilder<'a>>, SymbolsFault>
    ghost start: { SearchStart }
    requires { IsStateOfNeededModules start root.old state.old first }
    ensures keeps { HasGrownAndFailsOnlyStoringOneOf root.old root.new
        (IsNeededBySearchFromStart start root.old) result }
    ensures stores { AreNewlyStoredAmong root.old root.new
        (IsNeededBySearchFromStart start root.old) }
    ensures found { IfOk result
        (λ paths. IsFinalResultOfSearch start root.old state.old.visited.keys
        state.old.frames.items first.entry root.new state.new.visited.keys paths.items) }
{
    let mut step = first;
    'steps: while !is_over(state, &step) {
        match take_step(root, state, step) {
            Err(fault) => return Err(fault),
            Ok(next) => step = next,
        }
    }
    Ok(found_paths(step))
}

/// Returns whether no frame waits for what is found.
fn is_over(state: &SearchState<'_>, step: &Step<'_>) -> bool
    ensures { result ≡ is_search_over state.now.frames.items step.now }
{
    match step {
        Step::Found(_) => state.frames.is_empty(),
        _ => false,
    }
}

/// Returns what was found.
fn found_paths(step: Step<'_>) -> Vec<PathBuilder<'_>>
    requires { is_step_with_found_paths step ≡ true }
    ensures { step.entry ≡ Step.Found result }
{
    match step {
        Step::Found(paths) => paths,
        _ => unreachable!(),
    }
}

/// Takes one step.
fn take_step<'a>(
    root: &mut RootSymbol<'a>,
    state: &mut SearchState<'a>,
    step: Step<'a>,
) -> Result<Step<'a>, SymbolsFault>
    ghost start: { SearchStart }
    requires valid { IsStateOfNeededModules start root.old state.old step }
    requires waits { is_search_over state.old.frames.items step ≡ false }
    ensures keeps { HasGrownAndFailsOnlyStoringOneOf root.old root.new
        (IsNeededBySearchFromStart start root.old) result }
    ensures stores { AreNewlyStoredAmong root.old root.new
        (IsNeededBySearchFromStart start root.old) }
    ensures steps { IfOk result (λ next. IsStateStepWithSameOutcomeAndLessWork
        start root.old state.old step.entry root.new state.new next) }
{
    match step {
        Step::Search(symbol) => Ok(begin_search(root, state, symbol)?),
        Step::Expand(here) => follow_next_decl(root, state, here),
        Step::TryStar(star) => try_next_star(root, state, star),
        Step::Replace(search) => replace_next_definition(root, state, search),
        Step::Found(paths) => match state.frames.pop_front() {
            Some(frame) => Ok(resume_frame(root, state, frame, paths)?),
            None => unreachable!(),
        },
    }
}
