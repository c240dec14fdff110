//! Iterators over the ends of definition paths, from left to right.

ghost use Rattle.std.specs.Prelude.{◌≡◌, ◌++◌, ◌∷◌, [], map, IfOk, OnOk};
ghost use Rattle.symbols_root.specs.Roots.{RootView};
ghost use Rattle.symbols_paths.specs.PathTrees.{leaves_of_tree, leaves_of_forest};
ghost use Rattle.symbols_paths.specs.PathTrees.{definitions_among};
ghost use Rattle.symbols_paths.specs.Views.{path_by_specifier, paths_by_specifier};
ghost use Rattle.symbols_paths.specs.Views.{definition_by_specifier, path_leaf_of_end};
ghost use Rattle.symbols_paths.specs.Views.{module_of_definition, module_of_end, symbol_of_end};
ghost use Rattle.symbols_paths.specs.Views.{remaining_definitions, remaining_ends};
ghost use Rattle.symbols_paths.specs.Views.{AreModulesStored};
ghost use Rattle.symbols_paths.specs.inner.PathBuilders.{built_paths, modules_of_builders};

use crate::definition::Definition;
use crate::definition_path::{DefinitionPathNode, OpenedPathNode};
use crate::definition_unresolved::DefinitionUnresolved;
use crate::path_builder::{OpenedBuilder, PathBuilder};
use std::alloc::{AllocError, Global};
use std::collections::VecDeque;
use symbols_graph::ids::{ModuleId, SymbolId};

/// The end of a path: a definition, or a name, specifier or part that isn't resolved (as
/// deno_graph).
#[derive(Drop)]
pub enum DefinitionOrUnresolved<'a> {
    Definition(Definition<'a>),
    Unresolved(DefinitionUnresolved),
}

impl<'a> DefinitionOrUnresolved<'a> {
    /// Returns the module in which the path ends (as deno_graph).
    pub fn module(&self) -> ModuleId
        ensures { result ≡ module_of_end self.now }
    {
        match self {
            DefinitionOrUnresolved::Definition(definition) => definition.module,
            DefinitionOrUnresolved::Unresolved(unresolved) => unresolved.module,
        }
    }

    /// Returns the symbol that is defined, or `None` if the end is unresolved (as deno_graph).
    pub fn symbol(&self) -> Option<SymbolId>
        ensures { result ≡ symbol_of_end self.now }
    {
        match self {
            DefinitionOrUnresolved::Definition(definition) => Some(definition.symbol),
            DefinitionOrUnresolved::Unresolved(_) => None,
        }
    }
}

/// The ends of paths from left to right (as deno_graph). All memory is allocated when the iterator
/// is created.
#[derive(Drop)]
pub struct DefinitionsOrUnresolvedsIter<'a> {
    left: VecDeque<DefinitionOrUnresolved<'a>>,
}

impl<'a> Iterator for DefinitionsOrUnresolvedsIter<'a> {
    ghost use Rattle.std.specs.Iterator.{YieldsFirst, item_count};
    ghost use Rattle.symbols_paths.specs.Views.{remaining_ends};

    type Item = DefinitionOrUnresolved<'a>;

    ghost next_gives = { YieldsFirst remaining_ends };

    ghost remaining = { item_count remaining_ends };

    fn next(&mut self) -> Option<DefinitionOrUnresolved<'a>> {
        self.left.pop_front()
    }
}

/// The definitions among the ends of paths, from left to right (as deno_graph). All memory is
/// allocated when the iterator is created.
#[derive(Drop)]
pub struct DefinitionsIter<'a> {
    left: VecDeque<Definition<'a>>,
}

impl<'a> Iterator for DefinitionsIter<'a> {
    ghost use Rattle.std.specs.Iterator.{YieldsFirst, item_count};
    ghost use Rattle.symbols_paths.specs.Views.{remaining_definitions};

    type Item = Definition<'a>;

    ghost next_gives = { YieldsFirst remaining_definitions };

    ghost remaining = { item_count remaining_definitions };

    fn next(&mut self) -> Option<Definition<'a>> {
        self.left.pop_front()
    }
}

/// Appends the ends of paths, from left to right. The paths still to be visited are in `stack`, the
/// next one last.
fn add_ends<'a>(
    paths: Vec<DefinitionPathNode<'a>>,
    left: &mut VecDeque<DefinitionOrUnresolved<'a>>,
) -> Result<(), AllocError>
    ensures { OnOk result ((root : RootView) → map (path_leaf_of_end root) left.new.items
        ≡ map (path_leaf_of_end root) left.old.items
        ++ leaves_of_forest (paths_by_specifier root paths.entry.items)) }
{
    let mut stack = paths;
    stack.reverse();
    while let Some(path) = stack.pop() {
        match path.into_opened() {
            OpenedPathNode::Unresolved(unresolved) => {
                left.push_back(DefinitionOrUnresolved::Unresolved(unresolved))?;
            }
            OpenedPathNode::Definition(definition) => {
                left.push_back(DefinitionOrUnresolved::Definition(definition))?;
            }
            OpenedPathNode::Link(link) => {
                let mut next = link.next;
                next.reverse();
                stack.append(&mut next)?;
            }
        }
    }
    Ok(())
}

/// Appends the ends of builders, from left to right. The builders still to be visited are in
/// `stack`, the next one last.
fn add_builder_ends<'a>(
    builders: Vec<PathBuilder<'a>>,
    left: &mut VecDeque<DefinitionOrUnresolved<'a>>,
) -> Result<(), AllocError>
    ensures view { OnOk result ((root : RootView) → map (path_leaf_of_end root) left.new.items
        ≡ map (path_leaf_of_end root) left.old.items
        ++ leaves_of_forest (built_paths root builders.entry.items)) }
    ensures stored { OnOk result ((root : RootView)
        → AreModulesStored root (map module_of_end left.old.items)
        → AreModulesStored root (modules_of_builders builders.entry.items)
        → AreModulesStored root (map module_of_end left.new.items)) }
{
    let mut stack = builders;
    stack.reverse();
    while let Some(builder) = stack.pop() {
        match builder.into_opened() {
            OpenedBuilder::End(_segments, end) => left.push_back(end)?,
            OpenedBuilder::Fork(_segments, branches, last) => {
                let mut branches = branches;
                branches.reverse();
                stack.push(Box::into_inner(last))?;
                stack.append(&mut branches)?;
            }
        }
    }
    Ok(())
}

/// Returns the ends of builders, from left to right.
pub(crate) fn ends_of_builders<'a>(
    alloc: Global,
    builders: Vec<PathBuilder<'a>>,
) -> Result<DefinitionsOrUnresolvedsIter<'a>, AllocError>
    ensures view { IfOk result (λ ends. (root : RootView) → map (path_leaf_of_end root)
        (remaining_ends ends) ≡ leaves_of_forest (built_paths root builders.entry.items)) }
    ensures stored { IfOk result (λ ends. (root : RootView)
        → AreModulesStored root (modules_of_builders builders.entry.items)
        → AreModulesStored root (map module_of_end (remaining_ends ends))) }
{
    let mut left = VecDeque::new(alloc);
    add_builder_ends(builders, &mut left)?;
    Ok(DefinitionsOrUnresolvedsIter { left })
}

/// Appends an end if it is a definition, and drops it if it is unresolved.
fn add_definition<'a>(
    end: DefinitionOrUnresolved<'a>,
    left: &mut VecDeque<Definition<'a>>,
) -> Result<(), AllocError>
    ensures view { OnOk result ((root : RootView)
        → map (definition_by_specifier root) left.new.items ≡ map (definition_by_specifier root)
        left.old.items ++ definitions_among (path_leaf_of_end root end.entry ∷ [])) }
    ensures stored { OnOk result ((root : RootView)
        → AreModulesStored root (map module_of_definition left.old.items)
        → AreModulesStored root (module_of_end end.entry ∷ [])
        → AreModulesStored root (map module_of_definition left.new.items)) }
{
    let DefinitionOrUnresolved::Definition(definition) = end else {
        return Ok(());
    };
    left.push_back(definition)?;
    Ok(())
}

/// Returns the definitions among ends, from left to right.
pub(crate) fn definitions_of_ends<'a>(
    alloc: Global,
    ends: DefinitionsOrUnresolvedsIter<'a>,
) -> Result<DefinitionsIter<'a>, AllocError>
    ensures view { IfOk result (λ definitions. (root : RootView)
        → map (definition_by_specifier root) (remaining_definitions definitions)
        ≡ definitions_among (map (path_leaf_of_end root) (remaining_ends ends.entry))) }
    ensures stored { IfOk result (λ definitions. (root : RootView)
        → AreModulesStored root (map module_of_end (remaining_ends ends.entry))
        → AreModulesStored root (map module_of_definition (remaining_definitions definitions))) }
{
    let mut left = VecDeque::new(alloc);
    for end in ends.left {
        add_definition(end, &mut left)?;
    }
    Ok(DefinitionsIter { left })
}

impl<'a> DefinitionPathNode<'a> {
    /// Returns the ends of the path from left to right, each as often as it occurs (as deno_graph;
    /// all memory is allocated at once).
    ///
    /// # Errors
    ///
    /// The allocation failed, and the path is dropped.
    pub fn into_definitions_or_unresolveds(
        self,
        alloc: Global,
    ) -> Result<DefinitionsOrUnresolvedsIter<'a>, AllocError>
        ensures { IfOk result (λ ends. (root : RootView)
            → map (path_leaf_of_end root) (remaining_ends ends) ≡ leaves_of_tree
            (path_by_specifier root self.entry)) }
    {
        let mut paths = Vec::new(alloc);
        paths.push(self)?;
        let mut left = VecDeque::new(alloc);
        add_ends(paths, &mut left)?;
        Ok(DefinitionsOrUnresolvedsIter { left })
    }

    /// Returns the definitions among the ends of the path, from left to right (as deno_graph; all
    /// memory is allocated at once).
    ///
    /// # Errors
    ///
    /// The allocation failed, and the path is dropped.
    pub fn into_definitions(self, alloc: Global) -> Result<DefinitionsIter<'a>, AllocError>
        ensures { IfOk result (λ definitions. (root : RootView)
            → map (definition_by_specifier root) (remaining_definitions definitions)
            ≡ definitions_among (leaves_of_tree (path_by_specifier root self.entry))) }
    {
        let ends = self.into_definitions_or_unresolveds(alloc)?;
        definitions_of_ends(alloc, ends)
    }
}
