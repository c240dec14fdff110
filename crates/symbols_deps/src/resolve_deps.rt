//! The trait that returns the dependencies of a declaration.

ghost use Rattle.std.specs.Prelude.{◌≡◌, map, IfOk};
ghost use Rattle.symbols_deps.specs.DeclDependencies.{decl_dependencies};
ghost use Rattle.symbols_deps.specs.DepPaths.{IsSubsequence};
ghost use Rattle.symbols_deps.specs.Dependencies.{AreDependenciesOfAllOccurrences, start_steps_of_decl};
ghost use Rattle.symbols_deps.specs.Dependencies.{steps_of_exported_decl, dependencies, dependencies_of_exported_decl};
ghost use Rattle.symbols_nodes.specs.NodeViews.{export_decl_view, symbol_node_view};
ghost use Rattle.symbols_nodes.specs.References.{NamespacedReference, namespaced_reference_view, reference_view};
ghost use Rattle.symbols_nodes.specs.declared.deps.dep.ResolveDepsMode.TheVariants.{TypesAndExpressions};
ghost use Rattle.symbols_table.specs.DeclViews.{decl_view};

use crate::starts::{push_dependencies, push_exported};
use std::alloc::{AllocError, Global};
use symbols_nodes::deps::{ReferenceNamespace, ResolveDepsMode, SymbolNodeDep};
use symbols_nodes::nodes::{ExportDeclRef, SymbolNodeRef};
use symbols_table::decl::SymbolDecl;

/// Declarations whose dependencies can be collected.
pub trait ResolveDeps<'a> {
    /// Returns the references of the declaration (as deno_graph), each with its namespace, in
    /// source order. A reference is in the value namespace unless an edge above it marks it as a
    /// type, or as both. A module, a namespace and a declaration without a node have none. The call
    /// returns on every tree. It follows only children of greater numbers; in a checked tree every
    /// child has one.
    ///
    /// # Errors
    ///
    /// An allocation failed.
    fn deps_with_namespace(
        &self,
        alloc: Global,
        mode: ResolveDepsMode,
    ) -> Result<Vec<(SymbolNodeDep<'a>, ReferenceNamespace)>, AllocError>;

    /// Returns the references of the declaration (as deno_graph), without their namespaces.
    ///
    /// # Errors
    ///
    /// An allocation failed.
    fn deps(
        &self,
        alloc: Global,
        mode: ResolveDepsMode,
    ) -> Result<Vec<SymbolNodeDep<'a>>, AllocError>;
}

/// Returns the reference without its namespace.
fn first_part<'a>(found: (SymbolNodeDep<'a>, ReferenceNamespace)) -> SymbolNodeDep<'a>
    ensures { result ≡ found.entry.0 }
{
    found.0
}

/// Returns the references without their namespaces.
fn first_parts<'a>(
    alloc: Global,
    all: Vec<(SymbolNodeDep<'a>, ReferenceNamespace)>,
) -> Result<Vec<SymbolNodeDep<'a>>, AllocError>
    ensures { IfOk result (λ list. list.items ≡ map (λ d. d.0) all.entry.items) }
{
    all.into_iter().map(first_part).collect(alloc)
}

impl<'a> ResolveDeps<'a> for ExportDeclRef<'a> {
    #[tactic(auto, using(crate::proofs::DependencyLists::dependency_lists))]
    fn deps_with_namespace(
        &self,
        alloc: Global,
        mode: ResolveDepsMode,
    ) -> Result<Vec<(SymbolNodeDep<'a>, ReferenceNamespace)>, AllocError>
        ensures list { IfOk result (λ list. AreDependenciesOfAllOccurrences mode
            (steps_of_exported_decl (export_decl_view self.now))
            (map namespaced_reference_view list.items)) }
        ensures value { IfOk result (λ list. map namespaced_reference_view list.items
            ≡ dependencies_of_exported_decl mode (export_decl_view self.now)) }
        ensures subsequence { IsSubsequence
            (dependencies_of_exported_decl mode (export_decl_view self.now))
            (dependencies_of_exported_decl TypesAndExpressions (export_decl_view self.now)) }
    {
        let mut found = Vec::new(alloc);
        push_exported(alloc, mode, *self, &mut found)?;
        Ok(found)
    }

    fn deps(
        &self,
        alloc: Global,
        mode: ResolveDepsMode,
    ) -> Result<Vec<SymbolNodeDep<'a>>, AllocError>
        ensures { IfOk result (λ list. map reference_view list.items
            ≡ map (λ (d : NamespacedReference).
            d.reference) (dependencies_of_exported_decl mode (export_decl_view self.now))) }
    {
        let all = self.deps_with_namespace(alloc, mode)?;
        let list = first_parts(alloc, all)?;
        Ok(list)
    }
}

impl<'a> ResolveDeps<'a> for SymbolNodeRef<'a> {
    #[tactic(auto, using(crate::proofs::DependencyLists::dependency_lists))]
    fn deps_with_namespace(
        &self,
        alloc: Global,
        mode: ResolveDepsMode,
    ) -> Result<Vec<(SymbolNodeDep<'a>, ReferenceNamespace)>, AllocError>
        ensures list { IfOk result (λ list. AreDependenciesOfAllOccurrences mode
            (start_steps_of_decl (symbol_node_view self.now))
            (map namespaced_reference_view list.items)) }
        ensures value { IfOk result (λ list. map namespaced_reference_view list.items
            ≡ dependencies mode (symbol_node_view self.now)) }
        ensures subsequence { IsSubsequence (dependencies mode (symbol_node_view self.now))
            (dependencies TypesAndExpressions (symbol_node_view self.now)) }
    {
        let mut found = Vec::new(alloc);
        push_dependencies(alloc, mode, *self, &mut found)?;
        Ok(found)
    }

    fn deps(
        &self,
        alloc: Global,
        mode: ResolveDepsMode,
    ) -> Result<Vec<SymbolNodeDep<'a>>, AllocError>
        ensures { IfOk result (λ list. map reference_view list.items
            ≡ map (λ (d : NamespacedReference).
            d.reference) (dependencies mode (symbol_node_view self.now))) }
    {
        let all = self.deps_with_namespace(alloc, mode)?;
        let list = first_parts(alloc, all)?;
        Ok(list)
    }
}

impl<'a> ResolveDeps<'a> for SymbolDecl<'a> {
    fn deps_with_namespace(
        &self,
        alloc: Global,
        mode: ResolveDepsMode,
    ) -> Result<Vec<(SymbolNodeDep<'a>, ReferenceNamespace)>, AllocError>
        ensures { IfOk result (λ deps. map namespaced_reference_view deps.items
            ≡ decl_dependencies mode (decl_view self.now)) }
    {
        match self.maybe_node() {
            Some(node) => node.deps_with_namespace(alloc, mode),
            None => Ok(Vec::new(alloc)),
        }
    }

    fn deps(
        &self,
        alloc: Global,
        mode: ResolveDepsMode,
    ) -> Result<Vec<SymbolNodeDep<'a>>, AllocError>
        ensures { IfOk result (λ deps. map reference_view deps.items
            ≡ map (λ (d : NamespacedReference). d.reference)
            (decl_dependencies mode (decl_view self.now))) }
    {
        match self.maybe_node() {
            Some(node) => node.deps(alloc, mode),
            None => Ok(Vec::new(alloc)),
        }
    }
}
