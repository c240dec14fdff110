//! The calls of a root that find definitions.

ghost use Rattle.std.specs.Prelude.{◌≡◌, ℕ, List, map, IfOk, IfErr};
ghost use Rattle.symbols_nodes.specs.References.{reference_view};
ghost use Rattle.symbols_root.specs.Roots.{specifier_in};
ghost use Rattle.symbols_root.specs.Growing.{HasGrown};
ghost use Rattle.symbols_root.specs.Calls.{IsStored, IsOnlyOutOfMemoryByWidestLimits};
ghost use Rattle.symbols_exports.specs.ExportAnswers.{AreExportListsCorrectAndUnique};
ghost use Rattle.symbols_paths.specs.PathTrees.{SymbolBySpecifier, QualifiedNameParts, PathForest};
ghost use Rattle.symbols_paths.specs.PathTrees.{leaves_of_forest, definitions_among};
ghost use Rattle.symbols_paths.specs.PartTargets.{search_targets_of_root};
ghost use Rattle.symbols_paths.specs.Choice.{IsForestFoundBySearch, IsForestFoundBySearchWithParts};
ghost use Rattle.symbols_paths.specs.Computed.{definition_paths_of};
ghost use Rattle.symbols_paths.specs.Views.{symbol_by_specifier, paths_by_specifier};
ghost use Rattle.symbols_paths.specs.Views.{definition_by_specifier};
ghost use Rattle.symbols_paths.specs.Views.{path_leaf_of_end, module_of_definition, module_of_end};
ghost use Rattle.symbols_paths.specs.Views.{remaining_definitions, remaining_ends};
ghost use Rattle.symbols_paths.specs.Views.{AreModulesStored};
ghost use Rattle.symbols_paths.specs.inner.PathBuilders.{built_paths, modules_of_builders};
ghost use Rattle.symbols_paths.specs.NeededModules.{IsNeededByReference, AreNewlyStoredAmong};
ghost use Rattle.symbols_paths.specs.NeededModules.{AreNewlyStoredNeededBySearch};
ghost use Rattle.symbols_paths.specs.Answers.{AreDefinitionPaths, HasSymbol, IsFindDefinitionPathsResult};
ghost use Rattle.symbols_paths.specs.Answers.{IsFindDefinitionPathsFault};
ghost use Rattle.symbols_paths.specs.DepAnswers.{resolved_dep_entry_view, modules_of_entries};
ghost use Rattle.symbols_paths.specs.DepAnswers.{dep_entries_of, AreResolvedEntriesOfReference};
ghost use Rattle.symbols_paths.specs.DepAnswers.{IsResolveSymbolDepFault};

use crate::build_paths::build_paths;
use crate::definition_iter::{
    DefinitionsIter, DefinitionsOrUnresolvedsIter, definitions_of_ends, ends_of_builders,
};
use crate::definition_path::DefinitionPathNode;
use crate::definition_search::find_definition_paths_internal;
use crate::path_builder::PathBuilder;
use crate::symbol_dep::{
    ResolvedSymbolDepEntry, resolve_id_dep, resolve_import_type_dep, shared_parts_of,
};
use symbols_exports::laws::exports_are_listed;
use symbols_graph::ids::{ModuleId, SymbolId, UniqueSymbolId};
use symbols_nodes::deps::SymbolNodeDep;
use symbols_root::RootSymbol;
use symbols_table::info::SymbolsFault;

/// The calls of a root that find definitions, as methods (as deno_graph, whose root has them). It
/// is a trait since `RootSymbol` is in a crate below, and a type has inherent methods only there.
/// The contracts are at the `impl` in this file.
pub trait FindDefinitions<'a> {
    /// Returns the definition paths of a symbol of a stored module (as deno_graph, which takes a
    /// module and a symbol of it). The search follows other names of the module, aliases with
    /// qualifiers as `import A = B.C`, named imports, and `export *`. It expands each symbol once.
    /// Each `export *` of the imported module gives one candidate: the first export of the name
    /// along it. The first candidate that has a path is taken. The `export *` statements are not in
    /// the path.
    ///
    /// Qualifiers that remain to be resolved are called parts: `b` and `c` of `a.b.c`.
    ///
    /// Under strict rules no `export *` re-exports `default`. If the imported module doesn't export
    /// `default` locally, the path ends in one unresolved part of that module. No module along its
    /// `export *` is stored for it (extension, as ECMAScript says).
    ///
    /// An alias is resolved by a search of its own. It has no path while it is being resolved
    /// (extension; the crate recurses forever there).
    ///
    /// # Errors
    ///
    /// `UnknownModule` if the id names no stored module, `UnknownSymbol` if the module has no such
    /// symbol; else the fault of storing a module that the search needs. Stored modules stay. No
    /// module is stored but those that the search needs.
    fn find_definition_paths(
        &mut self,
        module_id: ModuleId,
        symbol_id: SymbolId,
    ) -> Result<Vec<DefinitionPathNode<'a>>, SymbolsFault>;

    /// Returns the ends of the symbol's definition paths from left to right: definitions and
    /// unresolved ends (as deno_graph).
    ///
    /// # Errors
    ///
    /// As `find_definition_paths`.
    fn go_to_definitions_or_unresolveds(
        &mut self,
        module_id: ModuleId,
        symbol_id: SymbolId,
    ) -> Result<DefinitionsOrUnresolvedsIter<'a>, SymbolsFault>;

    /// Returns the definitions of a symbol: those among the ends of its definition paths, from left
    /// to right (as deno_graph).
    ///
    /// # Errors
    ///
    /// As `find_definition_paths`.
    fn go_to_definitions(
        &mut self,
        module_id: ModuleId,
        symbol_id: SymbolId,
    ) -> Result<DefinitionsIter<'a>, SymbolsFault>;

    /// Resolves a reference in a stored module (as deno_graph). For a name it returns the paths of
    /// its symbol, for a qualified name the paths under the parts. For an import type without parts
    /// it returns the module. For one with parts it returns the paths of the export that the first
    /// part names, under the other parts. It returns one unresolved entry if the name has no
    /// symbol, the specifier resolves to no module, or the module doesn't export the first part.
    ///
    /// # Errors
    ///
    /// `UnknownModule` if the id names no stored module; else the fault of storing a module that
    /// the search needs. Stored modules stay.
    fn resolve_symbol_dep(
        &mut self,
        module_id: ModuleId,
        dep: &SymbolNodeDep<'_>,
    ) -> Result<Vec<ResolvedSymbolDepEntry<'a>>, SymbolsFault>;
}

/// Finds the paths of a symbol of a stored module, as builders.
#[tactic(auto, using(crate::specs::laws::Storing::newly_stored_none))]
fn path_builders<'a>(
    root: &mut RootSymbol<'a>,
    module_id: ModuleId,
    symbol_id: SymbolId,
) -> Result<Vec<PathBuilder<'a>>, SymbolsFault>
    ensures answers { IfOk result (λ builders.
        AreDefinitionPaths root.old.rules root.old.graph
        (symbol_by_specifier root.old module_id symbol_id)
        (built_paths root.new builders.items)) }
    ensures listed { IfOk result (λ builders. built_paths root.new builders.items
        ≡ definition_paths_of root.old.rules root.old.graph
        (symbol_by_specifier root.old module_id symbol_id)) }
    ensures known { IfOk result (λ builders. HasSymbol root.old module_id symbol_id) }
    ensures stored { IfOk result
        (λ builders. AreModulesStored root.new (modules_of_builders builders.items)) }
    ensures faults { IfErr result
        (IsFindDefinitionPathsFault root.old root.new module_id symbol_id) }
    ensures grown { HasGrown root.old root.new }
    ensures stores { AreNewlyStoredNeededBySearch root.old root.new
        (specifier_in root.old module_id) }
    ensures exports_listed { (start : List ℕ)
        → AreExportListsCorrectAndUnique root.old.graph start }
    ensures enough { HasSymbol root.old module_id symbol_id
        → IsOnlyOutOfMemoryByWidestLimits root.old result }
{
    exports_are_listed(root);
    match root.module_from_id(module_id) {
        None => return Err(SymbolsFault::UnknownModule),
        Some(info) => {
            if info.symbol(symbol_id).is_none() {
                return Err(SymbolsFault::UnknownSymbol);
            }
        }
    }
    find_definition_paths_internal(root, UniqueSymbolId::new(module_id, symbol_id))
}

impl<'a> FindDefinitions<'a> for RootSymbol<'a> {
    fn find_definition_paths(
        &mut self,
        module_id: ModuleId,
        symbol_id: SymbolId,
    ) -> Result<Vec<DefinitionPathNode<'a>>, SymbolsFault>
        ensures answers { IfOk result (λ paths.
            IsFindDefinitionPathsResult self.old self.new module_id symbol_id paths.items) }
        ensures listed { IfOk result (λ paths. paths_by_specifier self.new paths.items
            ≡ definition_paths_of self.old.rules self.old.graph
            (symbol_by_specifier self.old module_id
            symbol_id)) }
        ensures faults { IfErr result
            (IsFindDefinitionPathsFault self.old self.new module_id symbol_id) }
        ensures grown { HasGrown self.old self.new }
        ensures stores { AreNewlyStoredNeededBySearch self.old self.new
            (specifier_in self.old module_id) }
        ensures only { (f g : PathForest)
            → IsForestFoundBySearch (search_targets_of_root self.old)
            (symbol_by_specifier self.old module_id symbol_id) f
            → IsForestFoundBySearch (search_targets_of_root self.old)
            (symbol_by_specifier self.old module_id symbol_id) g
            → f ≡ g }
        ensures exports_listed { (start : List ℕ)
            → AreExportListsCorrectAndUnique self.old.graph start }
        ensures enough { HasSymbol self.old module_id symbol_id
            → IsOnlyOutOfMemoryByWidestLimits self.old result }
    {
        match path_builders(self, module_id, symbol_id) {
            Err(fault) => Err(fault),
            Ok(builders) => Ok(build_paths(self.alloc(), builders)?),
        }
    }

    fn go_to_definitions_or_unresolveds(
        &mut self,
        module_id: ModuleId,
        symbol_id: SymbolId,
    ) -> Result<DefinitionsOrUnresolvedsIter<'a>, SymbolsFault>
        ensures answers { IfOk result (λ ends. (paths : PathForest)
            × AreDefinitionPaths self.old.rules self.old.graph
            (symbol_by_specifier self.old module_id
            symbol_id) paths
            × (map (path_leaf_of_end self.new) (remaining_ends ends) ≡ leaves_of_forest paths)) }
        ensures listed { IfOk result (λ ends. map (path_leaf_of_end self.new) (remaining_ends ends)
            ≡ leaves_of_forest (definition_paths_of self.old.rules self.old.graph
            (symbol_by_specifier self.old module_id symbol_id))) }
        ensures known { IfOk result (λ ends. HasSymbol self.old module_id symbol_id) }
        ensures stored { IfOk result
            (λ ends. AreModulesStored self.new (map module_of_end (remaining_ends ends))) }
        ensures faults { IfErr result
            (IsFindDefinitionPathsFault self.old self.new module_id symbol_id) }
        ensures grown { HasGrown self.old self.new }
        ensures stores { AreNewlyStoredNeededBySearch self.old self.new
            (specifier_in self.old module_id) }
        ensures exports_listed { (start : List ℕ)
            → AreExportListsCorrectAndUnique self.old.graph start }
        ensures enough { HasSymbol self.old module_id symbol_id
            → IsOnlyOutOfMemoryByWidestLimits self.old result }
    {
        match path_builders(self, module_id, symbol_id) {
            Err(fault) => Err(fault),
            Ok(builders) => Ok(ends_of_builders(self.alloc(), builders)?),
        }
    }

    fn go_to_definitions(
        &mut self,
        module_id: ModuleId,
        symbol_id: SymbolId,
    ) -> Result<DefinitionsIter<'a>, SymbolsFault>
        ensures answers { IfOk result (λ definitions. (paths : PathForest)
            × AreDefinitionPaths self.old.rules self.old.graph
            (symbol_by_specifier self.old module_id
            symbol_id) paths
            × (map (definition_by_specifier self.new) (remaining_definitions definitions)
            ≡ definitions_among (leaves_of_forest paths))) }
        ensures listed { IfOk result
            (λ definitions. map (definition_by_specifier self.new)
            (remaining_definitions definitions)
            ≡ definitions_among (leaves_of_forest (definition_paths_of self.old.rules self.old.graph
            (symbol_by_specifier self.old module_id symbol_id)))) }
        ensures known { IfOk result (λ definitions. HasSymbol self.old module_id symbol_id) }
        ensures stored { IfOk result (λ definitions.
            AreModulesStored self.new
            (map module_of_definition (remaining_definitions definitions))) }
        ensures faults { IfErr result
            (IsFindDefinitionPathsFault self.old self.new module_id symbol_id) }
        ensures grown { HasGrown self.old self.new }
        ensures stores { AreNewlyStoredNeededBySearch self.old self.new
            (specifier_in self.old module_id) }
        ensures exports_listed { (start : List ℕ)
            → AreExportListsCorrectAndUnique self.old.graph start }
        ensures enough { HasSymbol self.old module_id symbol_id
            → IsOnlyOutOfMemoryByWidestLimits self.old result }
    {
        let ends = match self.go_to_definitions_or_unresolveds(module_id, symbol_id) {
            Err(fault) => return Err(fault),
            Ok(ends) => ends,
        };
        Ok(definitions_of_ends(self.alloc(), ends)?)
    }

    #[tactic(auto, using(crate::specs::laws::Storing::newly_stored_none))]
    fn resolve_symbol_dep(
        &mut self,
        module_id: ModuleId,
        dep: &SymbolNodeDep<'_>,
    ) -> Result<Vec<ResolvedSymbolDepEntry<'a>>, SymbolsFault>
        ensures answers { IfOk result (λ entries. IsStored self.old module_id
            × AreResolvedEntriesOfReference self.old.rules self.old.graph (specifier_in self.old
            module_id) (reference_view dep.now)
            (map (resolved_dep_entry_view self.new) entries.items)) }
        ensures listed { IfOk result
            (λ entries. map (resolved_dep_entry_view self.new) entries.items
            ≡ dep_entries_of self.old.rules self.old.graph
            (specifier_in self.old module_id) (reference_view dep.now)) }
        ensures stored { IfOk result
            (λ entries. AreModulesStored self.new (modules_of_entries entries.items)) }
        ensures faults { IfErr result
            (IsResolveSymbolDepFault self.old self.new module_id (reference_view dep.now)) }
        ensures grown { HasGrown self.old self.new }
        ensures stores { AreNewlyStoredAmong self.old self.new (IsNeededByReference self.old.rules
            self.old.graph (specifier_in self.old module_id) (reference_view dep.now)) }
        ensures only { (s : SymbolBySpecifier) (parts : QualifiedNameParts) (f g : PathForest)
            → IsForestFoundBySearchWithParts (search_targets_of_root self.old) s parts f
            → IsForestFoundBySearchWithParts (search_targets_of_root self.old) s parts g → f ≡ g }
        ensures exports_listed { (start : List ℕ)
            → AreExportListsCorrectAndUnique self.old.graph start }
        ensures enough { IsStored self.old module_id
            → IsOnlyOutOfMemoryByWidestLimits self.old result }
    {
        exports_are_listed(self);
        if self.module_from_id(module_id).is_none() {
            return Err(SymbolsFault::UnknownModule);
        }
        match dep {
            SymbolNodeDep::Id(id) => {
                let parts = shared_parts_of(self.alloc(), &[])?;
                resolve_id_dep(self, module_id, id, &parts)
            }
            SymbolNodeDep::QualifiedId(id, parts) => {
                let parts = shared_parts_of(self.alloc(), parts)?;
                resolve_id_dep(self, module_id, id, &parts)
            }
            SymbolNodeDep::ImportType(specifier_text, parts) => {
                let parts = shared_parts_of(self.alloc(), parts)?;
                resolve_import_type_dep(self, module_id, specifier_text, &parts)
            }
        }
    }
}
