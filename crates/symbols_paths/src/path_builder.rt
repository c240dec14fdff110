//! Definition paths while they are built.

ghost use Rattle.std.specs.Prelude.{IfOk, IfSome, OnOk, ◌≡◌, ◌++◌, ◌∷◌, []};
ghost use Rattle.std.specs.Option.{option_to_list};
ghost use Rattle.symbols_root.specs.Roots.{RootView};
ghost use Rattle.symbols_paths.specs.declared.path_builder.Segment.TheVariants as segment;
ghost use Rattle.symbols_paths.specs.declared.path_builder.PathBuilder.TheVariants as builder;
ghost use Rattle.symbols_paths.specs.PathTrees.{forest_of_tree, leaf};
ghost use Rattle.symbols_paths.specs.Views.{path_leaf_of_end, module_of_end, AreModulesStored};
ghost use Rattle.symbols_paths.specs.inner.PathBuilders.{remaining_parts, reversed_link_heads_of_segment};
ghost use Rattle.symbols_paths.specs.inner.PathBuilders.{reversed_link_heads_of_segments};
ghost use Rattle.symbols_paths.specs.inner.PathBuilders.{link_heads_with_parts_replaced, forest_below_reversed_links};
ghost use Rattle.symbols_paths.specs.inner.PathBuilders.{built_path, built_paths, built_paths_of_option};
ghost use Rattle.symbols_paths.specs.inner.PathBuilders.{modules_of_segment, modules_of_segments, modules_of_builder};
ghost use Rattle.symbols_paths.specs.inner.PathBuilders.{modules_of_builders};

use crate::definition::DeclRef;
use crate::definition_iter::DefinitionOrUnresolved;
use crate::shared_parts::SharedParts;
use std::alloc::{AllocError, Global};
use std::mem;
use symbols_graph::ids::UniqueSymbolId;

/// A link of a path: its symbol, the declaration that refers to what is next, and the remaining
/// parts if there are any.
#[derive(Drop)]
pub(crate) struct LinkStep {
    pub(crate) symbol: UniqueSymbolId,
    pub(crate) symbol_decl: DeclRef,
    pub(crate) parts: Option<SharedParts>,
}

/// A step, or segments whose steps get these parts instead of their own.
pub(crate) enum Segment {
    LinkStep(LinkStep),
    WithParts(SharedParts, Vec<Segment>),
}

/// A segment, taken apart. A segment itself can't be matched by value, since it has its own `Drop`.
#[derive(Drop)]
pub(crate) enum OpenedSegment {
    LinkStep(LinkStep),
    WithParts(SharedParts, Vec<Segment>),
}

/// A path while it is built: its segments, then one end or several branches. The segments are in
/// reverse order, so that a new first one is a push. The branches are from left to right; the last
/// is stored apart, so that there is always one.
pub(crate) enum PathBuilder<'a> {
    End(Vec<Segment>, DefinitionOrUnresolved<'a>),
    Fork(Vec<Segment>, Vec<PathBuilder<'a>>, Box<PathBuilder<'a>>),
}

/// A builder, taken apart. A builder itself can't be matched by value, since it has its own `Drop`.
#[derive(Drop)]
pub(crate) enum OpenedBuilder<'a> {
    End(Vec<Segment>, DefinitionOrUnresolved<'a>),
    Fork(Vec<Segment>, Vec<PathBuilder<'a>>, Box<PathBuilder<'a>>),
}

/// Drops segments one after another, as `DefinitionPathNode` drops its nodes.
impl Drop for Segment {
    fn drop(mut self) {
        let Some((_, inner)) = self.into_inner() else {
            return;
        };
        let mut work = inner;
        let Some(last) = work.pop() else {
            work.destroy_empty();
            return;
        };
        self = last;
        loop {
            if let Some((parts, mut inner)) = self.into_inner() {
                if inner.is_empty() {
                    inner.destroy_empty();
                } else if work.is_empty() {
                    work.destroy_empty();
                    work = inner;
                } else {
                    self = mem::replace(&mut inner[0], Segment::WithParts(parts, work));
                    work = inner;
                    continue;
                }
            }
            let Some(segment) = work.pop() else {
                work.destroy_empty();
                return;
            };
            self = segment;
        }
    }
}

impl Segment {
    ghost use Rattle.symbols_paths.specs.inner.PathBuilders.{segment_of_opened};

    /// Takes this segment apart.
    pub(crate) fn into_opened(self) -> OpenedSegment
        ensures { self ≡ segment_of_opened result }
    {
        match self {
            Segment::LinkStep(step) => OpenedSegment::LinkStep(step),
            Segment::WithParts(parts, inner) => OpenedSegment::WithParts(parts, inner),
        }
    }

    /// Returns the parts and the segments that get them; a step is dropped.
    fn into_inner(self) -> Option<(SharedParts, Vec<Segment>)>
        ensures { IfSome result (λ both. self ≡ segment.WithParts both.0 both.1) }
    {
        match self {
            Segment::LinkStep(_) => None,
            Segment::WithParts(parts, inner) => Some((parts, inner)),
        }
    }
}

/// Drops builders one after another, as `DefinitionPathNode` drops its nodes. The branches of a
/// fork are those in its list, then the last.
impl Drop for PathBuilder<'_> {
    fn drop(mut self) {
        let Some((_, branches, last)) = self.into_fork() else {
            return;
        };
        let mut work = branches;
        self = Box::into_inner(last);
        loop {
            if let Some((segments, mut branches, last)) = self.into_fork() {
                if work.is_empty() {
                    work.destroy_empty();
                    work = branches;
                    self = Box::into_inner(last);
                } else if branches.is_empty() {
                    branches.destroy_empty();
                    self = Box::into_inner(last);
                } else {
                    self = mem::replace(&mut branches[0], PathBuilder::Fork(segments, work, last));
                    work = branches;
                }
                continue;
            }
            let Some(builder) = work.pop() else {
                work.destroy_empty();
                return;
            };
            self = builder;
        }
    }
}

impl<'a> PathBuilder<'a> {
    ghost use Rattle.symbols_paths.specs.inner.PathBuilders.{builder_of_opened};

    /// Takes this builder apart.
    pub(crate) fn into_opened(self) -> OpenedBuilder<'a>
        ensures { self.entry ≡ builder_of_opened result }
    {
        match self {
            PathBuilder::End(segments, end) => OpenedBuilder::End(segments, end),
            PathBuilder::Fork(segments, branches, last) => {
                OpenedBuilder::Fork(segments, branches, last)
            }
        }
    }

    /// Returns the segments and the branches of a fork; an end is dropped.
    fn into_fork(self) -> Option<(Vec<Segment>, Vec<PathBuilder<'a>>, Box<PathBuilder<'a>>)>
        ensures { IfSome result (λ all. self.entry ≡ builder.Fork all.0 all.1 all.2) }
    {
        match self {
            PathBuilder::End(_, _) => None,
            PathBuilder::Fork(segments, branches, last) => Some((segments, branches, last)),
        }
    }
}

/// Returns the builder of an end alone.
pub(crate) fn builder_of_end<'a>(alloc: Global, end: DefinitionOrUnresolved<'a>) -> PathBuilder<'a>
    ensures view { (root : RootView)
        → built_path root result ≡ forest_of_tree (leaf (path_leaf_of_end root end.entry)) }
    ensures stored { (root : RootView) → AreModulesStored root (module_of_end end.entry ∷ [])
        → AreModulesStored root (modules_of_builder result) }
{
    PathBuilder::End(Vec::new(alloc), end)
}

/// The number of items up to which a list gets room for one more alone, since most lists are short.
pub(crate) const SHORT: usize = 4;

/// Adds a segment.
fn add_segment(segments: &mut Vec<Segment>, segment: Segment) -> Result<(), AllocError>
    ensures { OnOk result (segments.new.items ≡ segments.old.items ++ segment ∷ []) }
{
    if segments.len() < SHORT {
        segments.reserve_exact(1)?;
    }
    segments.push(segment)?;
    Ok(())
}

/// Adds a builder.
pub(crate) fn add_builder<'a>(
    builders: &mut Vec<PathBuilder<'a>>,
    builder: PathBuilder<'a>,
) -> Result<(), AllocError>
    ensures { OnOk result (builders.new.items ≡ builders.old.items ++ builder.entry ∷ []) }
{
    if builders.len() < SHORT {
        builders.reserve_exact(1)?;
    }
    builders.push(builder)?;
    Ok(())
}

/// Adds a segment in front of a builder.
pub(crate) fn push_segment<'a>(
    builder: PathBuilder<'a>,
    segment: Segment,
) -> Result<PathBuilder<'a>, AllocError>
    ensures view { IfOk result (λ longer. (root : RootView)
        → built_path root longer ≡ forest_below_reversed_links
        (reversed_link_heads_of_segment root segment) (built_path root builder.entry)) }
    ensures stored { IfOk result (λ longer. (root : RootView)
        → AreModulesStored root (modules_of_segment segment)
        → AreModulesStored root (modules_of_builder builder.entry)
        → AreModulesStored root (modules_of_builder longer)) }
{
    match builder.into_opened() {
        OpenedBuilder::End(segments, end) => {
            let mut segments = segments;
            add_segment(&mut segments, segment)?;
            Ok(PathBuilder::End(segments, end))
        }
        OpenedBuilder::Fork(segments, branches, last) => {
            let mut segments = segments;
            add_segment(&mut segments, segment)?;
            Ok(PathBuilder::Fork(segments, branches, last))
        }
    }
}

/// Joins builders into one. Returns `None` if there are none.
pub(crate) fn join_builders<'a>(
    alloc: Global,
    builders: Vec<PathBuilder<'a>>,
) -> Result<Option<PathBuilder<'a>>, AllocError>
    ensures view { IfOk result (λ builder. (root : RootView)
        → built_paths_of_option root builder ≡ built_paths root builders.entry.items) }
    ensures stored { IfOk result (λ builder. (root : RootView)
        → AreModulesStored root (modules_of_builders builders.entry.items)
        → AreModulesStored root (modules_of_builders (option_to_list builder))) }
{
    let mut builders = builders;
    let Some(last) = builders.pop() else {
        return Ok(None);
    };
    if builders.is_empty() {
        return Ok(Some(last));
    }
    builders.shrink_to_fit();
    let last = Box::new(alloc, last)?;
    Ok(Some(PathBuilder::Fork(Vec::new(alloc), builders, last)))
}

/// Adds segments in front of a builder. Their steps get these parts instead of their own.
pub(crate) fn push_with_parts<'a>(
    segments: Vec<Segment>,
    parts: &SharedParts,
    builder: PathBuilder<'a>,
) -> Result<PathBuilder<'a>, AllocError>
    ensures view { IfOk result (λ longer. (root : RootView) → built_path root longer
        ≡ forest_below_reversed_links (link_heads_with_parts_replaced (remaining_parts parts.now)
        (reversed_link_heads_of_segments root segments.items)) (built_path root builder.entry)) }
    ensures stored { IfOk result (λ longer. (root : RootView)
        → AreModulesStored root (modules_of_segments segments.items)
        → AreModulesStored root (modules_of_builder builder.entry)
        → AreModulesStored root (modules_of_builder longer)) }
{
    if segments.is_empty() {
        return Ok(builder);
    }
    push_segment(builder, Segment::WithParts(parts.same()?, segments))
}
