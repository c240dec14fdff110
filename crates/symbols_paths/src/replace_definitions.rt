//! Replaces the definitions at the ends of path builders.

ghost use Rattle.std.specs.Prelude.{◌≡◌, ◌++◌, ◌∷◌, [], map, reverse, IfOk, OnOk};
ghost use Rattle.std.specs.Option.{option_to_list};
ghost use Rattle.symbols_root.specs.Roots.{RootView};
ghost use Rattle.symbols_paths.specs.Views.{definition_by_specifier, path_leaf_of_end};
ghost use Rattle.symbols_paths.specs.Views.{module_of_end};
ghost use Rattle.symbols_paths.specs.Views.{module_of_definition, AreModulesStored};
ghost use Rattle.symbols_paths.specs.PathTrees.{QualifiedNameParts, leaf};
ghost use Rattle.symbols_paths.specs.inner.ReplacedDefinitions.{definitions_of_tree, definitions_of_forest};
ghost use Rattle.symbols_paths.specs.inner.ReplacedDefinitions.{tree_with_definitions_replaced};
ghost use Rattle.symbols_paths.specs.inner.ReplacedDefinitions.{forest_with_definitions_replaced};
ghost use Rattle.symbols_paths.specs.inner.PathBuilders.{remaining_parts, reversed_link_heads_of_segments};
ghost use Rattle.symbols_paths.specs.inner.PathBuilders.{link_heads_with_parts_replaced, forest_below_reversed_links};
ghost use Rattle.symbols_paths.specs.inner.PathBuilders.{built_path, built_paths, built_paths_of_option};
ghost use Rattle.symbols_paths.specs.inner.PathBuilders.{modules_of_segments, modules_of_builder, modules_of_builders};
ghost use Rattle.symbols_paths.specs.inner.PathBuilders.{builders_among};

use crate::definition::Definition;
use crate::definition_iter::DefinitionOrUnresolved;
use crate::path_builder::{
    OpenedBuilder, PathBuilder, Segment, add_builder, builder_of_end, join_builders,
    push_with_parts,
};
use crate::path_links::push_builder;
use crate::shared_parts::SharedParts;
use std::alloc::{AllocError, Global};
use std::collections::VecDeque;

/// Adds an end if it is a definition.
fn list_end<'a>(
    end: &DefinitionOrUnresolved<'a>,
    found: &mut Vec<Definition<'a>>,
) -> Result<(), AllocError>
    ensures view { OnOk result ((root : RootView)
        → map (definition_by_specifier root) found.new.items ≡ map (definition_by_specifier root)
        found.old.items ++ definitions_of_tree (leaf (path_leaf_of_end root end.now))) }
    ensures stored { OnOk result ((root : RootView)
        → AreModulesStored root (map module_of_definition found.old.items)
        → AreModulesStored root (module_of_end end.now ∷ [])
        → AreModulesStored root (map module_of_definition found.new.items)) }
{
    if let DefinitionOrUnresolved::Definition(definition) = end {
        found.push(*definition)?;
    }
    Ok(())
}

/// Adds the branches of a fork to the builders still to be visited, the last branch first.
fn push_branches<'b, 'a>(
    branches: &'b [PathBuilder<'a>],
    last: &'b PathBuilder<'a>,
    stack: &mut Vec<&'b PathBuilder<'a>>,
) -> Result<(), AllocError>
    ensures { OnOk result (reverse (map (λ b. b.now) stack.new.items)
        ≡ branches.now ++ last.now ∷ reverse (map (λ b. b.now) stack.old.items)) }
{
    stack.push(last)?;
    let mut left = branches.len();
    while left > 0 {
        left -= 1;
        stack.push(&branches[left])?;
    }
    Ok(())
}

/// Adds the definitions at the ends of a builder, from left to right. The builders still to be
/// visited are in `stack`, the next one last.
fn list_definition<'a>(
    alloc: Global,
    builder: &PathBuilder<'a>,
    found: &mut Vec<Definition<'a>>,
) -> Result<(), AllocError>
    ensures view { OnOk result ((root : RootView)
        → map (definition_by_specifier root) found.new.items ≡ map (definition_by_specifier root)
        found.old.items ++ definitions_of_forest (built_path root builder.now)) }
    ensures stored { OnOk result ((root : RootView)
        → AreModulesStored root (map module_of_definition found.old.items)
        → AreModulesStored root (modules_of_builder builder.now)
        → AreModulesStored root (map module_of_definition found.new.items)) }
{
    if let PathBuilder::End(_, end) = builder {
        return list_end(end, found);
    }
    let mut stack = Vec::new(alloc);
    stack.push(builder)?;
    while let Some(builder) = stack.pop() {
        match builder {
            PathBuilder::End(_, end) => list_end(end, found)?,
            PathBuilder::Fork(_, branches, last) => {
                push_branches(branches, last, &mut stack)?;
                continue;
            }
        }
    }
    Ok(())
}

/// Returns the definitions at the ends of builders, from left to right.
pub(crate) fn definitions_among<'a>(
    alloc: Global,
    builders: &[PathBuilder<'a>],
) -> Result<Vec<Definition<'a>>, AllocError>
    ensures view { IfOk result (λ found. (root : RootView)
        → map (definition_by_specifier root) found.items
        ≡ definitions_of_forest (built_paths root builders.now)) }
    ensures stored { IfOk result (λ found. (root : RootView)
        → AreModulesStored root (modules_of_builders builders.now)
        → AreModulesStored root (map module_of_definition found.items)) }
{
    let mut found = Vec::with_capacity(alloc, builders.len())?;
    for builder in builders {
        list_definition(alloc, builder, &mut found)?;
    }
    Ok(found)
}

/// A fork whose branches are being replaced: its segments, the branches after the one that is being
/// replaced, the next one last, and what was found before the fork.
#[derive(Drop)]
struct OpenFork<'a> {
    segments: Vec<Segment>,
    rest: Vec<PathBuilder<'a>>,
    before: Vec<PathBuilder<'a>>,
}

/// Replaces the definitions of builders from left to right by those in `changed`, and gives these
/// parts to all links. A definition whose replacement is `None` is dropped, and so is a builder
/// that has no end left. The innermost of the open forks is the last of `forks`.
pub(crate) fn replace_definitions<'a>(
    alloc: Global,
    builders: Vec<PathBuilder<'a>>,
    parts: &SharedParts,
    changed: &mut VecDeque<Option<PathBuilder<'a>>>,
) -> Result<Vec<PathBuilder<'a>>, AllocError>
    ensures found { IfOk result (λ found. (root : RootView) → built_paths root found.items
        ≡ (forest_with_definitions_replaced (remaining_parts parts.now) (built_paths
        root builders.entry.items) (map (built_paths_of_option root) changed.old.items)).0) }
    ensures left { OnOk result ((root : RootView)
        → map (built_paths_of_option root) changed.new.items ≡ (forest_with_definitions_replaced
        (remaining_parts parts.now) (built_paths root builders.entry.items)
        (map (built_paths_of_option root) changed.old.items)).1) }
    ensures stored { IfOk result (λ found. (root : RootView)
        → AreModulesStored root (modules_of_builders builders.entry.items)
        → AreModulesStored root (modules_of_builders (builders_among changed.old.items))
        → AreModulesStored root (modules_of_builders found.items)
        × AreModulesStored root (modules_of_builders (builders_among changed.new.items))) }
{
    let mut found = Vec::new(alloc);
    let mut rest = builders;
    rest.reverse();
    let mut forks: Vec<OpenFork<'a>> = Vec::new(alloc);
    loop {
        if let Some(builder) = rest.pop() {
            match builder.into_opened() {
                OpenedBuilder::End(segments, end) => {
                    let end = replace_end(alloc, end, changed);
                    let builder = with_segments(segments, parts, end)?;
                    push_builder(&mut found, builder)?;
                }
                OpenedBuilder::Fork(segments, branches, last) => {
                    let mut branches = branches;
                    add_builder(&mut branches, Box::into_inner(last))?;
                    branches.reverse();
                    forks.push(OpenFork {
                        segments,
                        rest,
                        before: found,
                    })?;
                    rest = branches;
                    found = Vec::new(alloc);
                }
            }
        } else {
            let Some(fork) = forks.pop() else {
                return Ok(found);
            };
            let OpenFork {
                segments,
                rest: after,
                before,
            } = fork;
            let whole = join_builders(alloc, found)?;
            let builder = with_segments(segments, parts, whole)?;
            rest = after;
            found = before;
            push_builder(&mut found, builder)?;
        }
    }
}

/// Returns the replacement of an end: the first of `changed` for a definition, the end itself if it
/// is unresolved.
fn replace_end<'a>(
    alloc: Global,
    end: DefinitionOrUnresolved<'a>,
    changed: &mut VecDeque<Option<PathBuilder<'a>>>,
) -> Option<PathBuilder<'a>>
    ensures found { (root : RootView) (parts : QualifiedNameParts)
        → built_paths_of_option root result
        ≡ (tree_with_definitions_replaced parts (leaf (path_leaf_of_end root end.entry))
        (map (built_paths_of_option root) changed.old.items)).0 }
    ensures left { (root : RootView) (parts : QualifiedNameParts)
        → map (built_paths_of_option root) changed.new.items
        ≡ (tree_with_definitions_replaced parts (leaf (path_leaf_of_end root end.entry))
        (map (built_paths_of_option root) changed.old.items)).1 }
    ensures stored { (root : RootView) → AreModulesStored root (module_of_end end.entry ∷ [])
        → AreModulesStored root (modules_of_builders (builders_among changed.old.items))
        → AreModulesStored root (modules_of_builders (option_to_list result))
        × AreModulesStored root (modules_of_builders (builders_among changed.new.items)) }
{
    match end {
        DefinitionOrUnresolved::Definition(_) => changed.pop_front().flatten(),
        DefinitionOrUnresolved::Unresolved(unresolved) => {
            let end = DefinitionOrUnresolved::Unresolved(unresolved);
            Some(builder_of_end(alloc, end))
        }
    }
}

/// Adds segments with these parts in front of a builder, if there is one.
fn with_segments<'a>(
    segments: Vec<Segment>,
    parts: &SharedParts,
    builder: Option<PathBuilder<'a>>,
) -> Result<Option<PathBuilder<'a>>, AllocError>
    ensures view { IfOk result (λ found. (root : RootView) → built_paths_of_option root found
        ≡ forest_below_reversed_links (link_heads_with_parts_replaced
        (remaining_parts parts.now) (reversed_link_heads_of_segments root segments.items))
        (built_paths_of_option root builder.entry)) }
    ensures stored { IfOk result (λ found. (root : RootView)
        → AreModulesStored root (modules_of_segments segments.items)
        → AreModulesStored root (modules_of_builders (option_to_list builder.entry))
        → AreModulesStored root (modules_of_builders (option_to_list found))) }
{
    match builder {
        None => Ok(None),
        Some(builder) => Ok(Some(push_with_parts(segments, parts, builder)?)),
    }
}
