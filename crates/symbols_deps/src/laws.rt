//! Laws of the definitions, for the crates above. The functions here do nothing: a law is the
//! contract of a function.

ghost use Rattle.symbols_nodes.specs.declared.deps.dep.ResolveDepsMode.{ResolveDepsMode};
ghost use Rattle.symbols_table.specs.DeclViews.{Declaration};
ghost use Rattle.symbols_deps.specs.DeclDependencies.{decl_dependencies, AreDeclDependencies};

/// States that the computed list of the dependencies of a declaration is that of the definitions.
pub fn dependencies_are_listed()
    ensures { (mode : ResolveDepsMode) (decl : Declaration)
        → AreDeclDependencies mode decl (decl_dependencies mode decl) }
{}
