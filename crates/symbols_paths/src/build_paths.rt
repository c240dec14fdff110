//! Builds definition paths from their builders.

ghost use Rattle.std.specs.Prelude.{◌≡◌, ◌<◌, ◌∷◌, ◌++◌, [], length, IfOk};
ghost use Rattle.std.specs.Option.{option_map_or};
ghost use Rattle.symbols_root.specs.Roots.{RootView};
ghost use Rattle.symbols_paths.specs.declared.path_builder.PathBuilder.TheVariants as builder;
ghost use Rattle.symbols_paths.specs.PathTrees.{leaf, forest_of_tree, forest_below_link_unless_empty};
ghost use Rattle.symbols_paths.specs.Derived.{link_head_with_parts_replaced};
ghost use Rattle.symbols_paths.specs.Views.{path_leaf_of_end, module_of_end, strings_view};
ghost use Rattle.symbols_paths.specs.Views.{paths_by_specifier, modules_of_paths, AreModulesStored};
ghost use Rattle.symbols_paths.specs.inner.PathBuilders.{remaining_parts, link_head_of_step};
ghost use Rattle.symbols_paths.specs.inner.PathBuilders.{reversed_link_heads_of_segment};
ghost use Rattle.symbols_paths.specs.inner.PathBuilders.{reversed_link_heads_of_segments};
ghost use Rattle.symbols_paths.specs.inner.PathBuilders.{link_heads_with_parts_replaced, forest_below_reversed_links};
ghost use Rattle.symbols_paths.specs.inner.PathBuilders.{built_path, built_paths, modules_of_segment};
ghost use Rattle.symbols_paths.specs.inner.PathBuilders.{modules_of_segments, modules_of_builder, modules_of_builders};

use crate::definition_iter::DefinitionOrUnresolved;
use crate::definition_path::{DefinitionPathLink, DefinitionPathNode, DefinitionPathNodeResolved};
use crate::path_builder::{
    LinkStep, OpenedBuilder, OpenedSegment, PathBuilder, SHORT, Segment, add_builder,
};
use crate::path_links::copied_parts;
use crate::shared_parts::SharedParts;
use std::alloc::{AllocError, Global};

/// Returns an end as a path.
fn path_of_end<'a>(
    alloc: Global,
    end: DefinitionOrUnresolved<'a>,
) -> Result<Vec<DefinitionPathNode<'a>>, AllocError>
    ensures view { IfOk result (λ paths. (root : RootView)
        → paths_by_specifier root paths.items ≡ forest_of_tree
        (leaf (path_leaf_of_end root end.entry))) }
    ensures stored { IfOk result (λ paths. (root : RootView)
        → AreModulesStored root (module_of_end end.entry ∷ [])
        → AreModulesStored root (modules_of_paths paths.items)) }
{
    let path = match end {
        DefinitionOrUnresolved::Definition(definition) => {
            DefinitionPathNode::Resolved(DefinitionPathNodeResolved::Definition(definition))
        }
        DefinitionOrUnresolved::Unresolved(unresolved) => {
            DefinitionPathNode::Unresolved(unresolved)
        }
    };
    let mut paths = Vec::with_capacity(alloc, 1)?;
    paths.push(path)?;
    Ok(paths)
}

/// Returns copies of the parts of a step.
fn strings_of_parts(alloc: Global, parts: &Option<SharedParts>) -> Result<Vec<String>, AllocError>
    ensures { IfOk result
        (λ copies. strings_view copies.items ≡ option_map_or remaining_parts parts.now []) }
{
    match parts {
        Some(parts) => copied_parts(alloc, parts.texts()),
        None => Ok(Vec::new(alloc)),
    }
}

/// Returns the link of a step in front of `next`; no path if `next` is empty.
fn prepend_link<'a>(
    alloc: Global,
    step: LinkStep,
    next: Vec<DefinitionPathNode<'a>>,
) -> Result<Vec<DefinitionPathNode<'a>>, AllocError>
    ensures view { IfOk result (λ paths. (root : RootView) → paths_by_specifier root paths.items
        ≡ forest_below_link_unless_empty (link_head_of_step root step)
        (paths_by_specifier root next.entry.items)) }
    ensures stored { IfOk result (λ paths. (root : RootView) → step.symbol.module_id.0
        < length root.stored → AreModulesStored root (modules_of_paths next.entry.items)
        → AreModulesStored root (modules_of_paths paths.items)) }
{
    if next.is_empty() {
        return Ok(Vec::new(alloc));
    }
    let parts = strings_of_parts(alloc, &step.parts)?;
    let mut paths = Vec::with_capacity(alloc, 1)?;
    paths.push(DefinitionPathNode::Resolved(DefinitionPathNodeResolved::Link(
        DefinitionPathLink {
            module: step.symbol.module_id,
            symbol: step.symbol.symbol_id,
            symbol_decl: step.symbol_decl,
            parts,
            next,
        },
    )))?;
    Ok(paths)
}

/// Returns the links of segments in front of `next`.
fn prepend_segments<'a>(
    alloc: Global,
    segments: Vec<Segment>,
    next: Vec<DefinitionPathNode<'a>>,
) -> Result<Vec<DefinitionPathNode<'a>>, AllocError>
    ensures view { IfOk result (λ paths. (root : RootView) → paths_by_specifier root paths.items
        ≡ forest_below_reversed_links (reversed_link_heads_of_segments root segments.items)
        (paths_by_specifier root next.entry.items)) }
    ensures stored { IfOk result (λ paths. (root : RootView)
        → AreModulesStored root (modules_of_segments segments.items)
        → AreModulesStored root (modules_of_paths next.entry.items)
        → AreModulesStored root (modules_of_paths paths.items)) }
{
    let mut paths = next;
    for segment in segments {
        paths = prepend_segment(alloc, segment, paths)?;
    }
    Ok(paths)
}

/// Returns the links of a segment in front of `next`.
fn prepend_segment<'a>(
    alloc: Global,
    segment: Segment,
    next: Vec<DefinitionPathNode<'a>>,
) -> Result<Vec<DefinitionPathNode<'a>>, AllocError>
    ensures view { IfOk result (λ paths. (root : RootView) → paths_by_specifier root paths.items
        ≡ forest_below_reversed_links (reversed_link_heads_of_segment root segment)
        (paths_by_specifier root next.entry.items)) }
    ensures stored { IfOk result (λ paths. (root : RootView)
        → AreModulesStored root (modules_of_segment segment)
        → AreModulesStored root (modules_of_paths next.entry.items)
        → AreModulesStored root (modules_of_paths paths.items)) }
{
    match segment.into_opened() {
        OpenedSegment::LinkStep(step) => prepend_link(alloc, step, next),
        OpenedSegment::WithParts(parts, inner) => {
            prepend_segments_with_parts(alloc, inner, &parts, next)
        }
    }
}

/// Returns the link of a step in front of `next`. The link gets these parts.
fn prepend_link_with_parts<'a>(
    alloc: Global,
    step: LinkStep,
    parts: &SharedParts,
    next: Vec<DefinitionPathNode<'a>>,
) -> Result<Vec<DefinitionPathNode<'a>>, AllocError>
    ensures view { IfOk result (λ paths. (root : RootView)
        → paths_by_specifier root paths.items ≡ forest_below_link_unless_empty
        (link_head_with_parts_replaced (link_head_of_step root step) (remaining_parts parts.now))
        (paths_by_specifier root next.entry.items)) }
    ensures stored { IfOk result (λ paths. (root : RootView) → step.symbol.module_id.0
        < length root.stored → AreModulesStored root (modules_of_paths next.entry.items)
        → AreModulesStored root (modules_of_paths paths.items)) }
{
    let step = LinkStep {
        symbol: step.symbol,
        symbol_decl: step.symbol_decl,
        parts: Some(parts.same()?),
    };
    prepend_link(alloc, step, next)
}

/// Returns the links of segments in front of `next`. All links get these parts. The segments still
/// to be visited are in `stack`, the next one last.
fn prepend_segments_with_parts<'a>(
    alloc: Global,
    segments: Vec<Segment>,
    parts: &SharedParts,
    next: Vec<DefinitionPathNode<'a>>,
) -> Result<Vec<DefinitionPathNode<'a>>, AllocError>
    ensures view { IfOk result (λ paths. (root : RootView) → paths_by_specifier root paths.items
        ≡ forest_below_reversed_links (link_heads_with_parts_replaced (remaining_parts parts.now)
        (reversed_link_heads_of_segments root segments.items))
        (paths_by_specifier root next.entry.items)) }
    ensures stored { IfOk result (λ paths. (root : RootView)
        → AreModulesStored root (modules_of_segments segments.items)
        → AreModulesStored root (modules_of_paths next.entry.items)
        → AreModulesStored root (modules_of_paths paths.items)) }
{
    let mut paths = next;
    let mut stack = segments;
    stack.reverse();
    while let Some(segment) = stack.pop() {
        match segment.into_opened() {
            OpenedSegment::LinkStep(step) => {
                paths = prepend_link_with_parts(alloc, step, parts, paths)?;
            }
            OpenedSegment::WithParts(_parts, inner) => {
                let mut inner = inner;
                inner.reverse();
                stack.append(&mut inner)?;
            }
        }
    }
    Ok(paths)
}

/// Returns the path of an end below segments.
fn path_below_segments<'a>(
    alloc: Global,
    segments: Vec<Segment>,
    end: DefinitionOrUnresolved<'a>,
) -> Result<Vec<DefinitionPathNode<'a>>, AllocError>
    ensures view { IfOk result (λ paths. (root : RootView) → paths_by_specifier root paths.items
        ≡ built_path root (builder.End segments end.entry)) }
    ensures stored { IfOk result (λ paths. (root : RootView)
        → AreModulesStored root (modules_of_builder (builder.End segments end.entry))
        → AreModulesStored root (modules_of_paths paths.items)) }
{
    let next = path_of_end(alloc, end)?;
    prepend_segments(alloc, segments, next)
}

/// Returns these paths, and more after them.
fn with_paths<'a>(
    paths: Vec<DefinitionPathNode<'a>>,
    more: Vec<DefinitionPathNode<'a>>,
) -> Result<Vec<DefinitionPathNode<'a>>, AllocError>
    ensures { IfOk result (λ all. all.items ≡ paths.entry.items ++ more.entry.items) }
{
    if paths.is_empty() {
        return Ok(more);
    }
    let mut all = paths;
    let mut more = more;
    if all.len() < SHORT {
        all.reserve_exact(more.len())?;
    }
    all.append(&mut more)?;
    Ok(all)
}

/// A fork whose branches are being built: its segments, the branches after the one that is being
/// built, the next one last, and the paths before the fork.
#[derive(Drop)]
struct OpenFork<'a> {
    segments: Vec<Segment>,
    rest: Vec<PathBuilder<'a>>,
    before: Vec<DefinitionPathNode<'a>>,
}

/// Returns the paths of builders, in order. The innermost of the open forks is the last of `forks`.
pub(crate) fn build_paths<'a>(
    alloc: Global,
    builders: Vec<PathBuilder<'a>>,
) -> Result<Vec<DefinitionPathNode<'a>>, AllocError>
    ensures view { IfOk result (λ paths. (root : RootView)
        → paths_by_specifier root paths.items ≡ built_paths root builders.entry.items) }
    ensures stored { IfOk result (λ paths. (root : RootView)
        → AreModulesStored root (modules_of_builders builders.entry.items)
        → AreModulesStored root (modules_of_paths paths.items)) }
{
    let mut paths = Vec::new(alloc);
    let mut rest = builders;
    rest.reverse();
    let mut forks: Vec<OpenFork<'a>> = Vec::new(alloc);
    loop {
        if let Some(builder) = rest.pop() {
            match builder.into_opened() {
                OpenedBuilder::End(segments, end) => {
                    let more = path_below_segments(alloc, segments, end)?;
                    paths = with_paths(paths, more)?;
                }
                OpenedBuilder::Fork(segments, branches, last) => {
                    let mut branches = branches;
                    add_builder(&mut branches, Box::into_inner(last))?;
                    branches.reverse();
                    forks.push(OpenFork {
                        segments,
                        rest,
                        before: paths,
                    })?;
                    rest = branches;
                    paths = Vec::new(alloc);
                }
            }
        } else {
            let Some(fork) = forks.pop() else {
                return Ok(paths);
            };
            let OpenFork {
                segments,
                rest: after,
                before,
            } = fork;
            let more = prepend_segments(alloc, segments, paths)?;
            rest = after;
            paths = with_paths(before, more)?;
        }
    }
}
