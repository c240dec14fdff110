//! The dependencies of the declarations of a symbol.

ghost use Rattle.std.specs.Prelude.{◌≡◌, map, IfOk};
ghost use Rattle.symbols_nodes.specs.References.{namespaced_reference_view};
ghost use Rattle.symbols_table.specs.DeclViews.{decl_view};
ghost use Rattle.symbols_deps.specs.DeclDependencies.{decl_dependencies};
ghost use Rattle.symbols_table.specs.Symbols.{symbol_decls};
ghost use Rattle.symbols_queries.specs.Queries.{deps_view};

use std::alloc::{AllocError, Global};
use symbols_deps::{ReferenceNamespace, ResolveDeps, ResolveDepsMode, SymbolNodeDep};
use symbols_table::decl::Symbol;

/// The dependencies of one declaration: references with their namespaces.
pub type DeclDeps<'a> = Vec<(SymbolNodeDep<'a>, ReferenceNamespace)>;

/// Returns the dependencies of each declaration of a symbol, in order.
pub(crate) fn symbol_deps<'a>(
    alloc: Global,
    symbol: &Symbol<'a>,
    mode: ResolveDepsMode,
) -> Result<Vec<DeclDeps<'a>>, AllocError>
    ensures { IfOk result
        (λ deps. map deps_view deps.items ≡ map (decl_dependencies mode)
        (symbol_decls symbol.now)) }
{
    let mut deps = Vec::new(alloc);
    for decl in symbol.decls() {
        deps.push(decl.deps_with_namespace(alloc, mode)?)?;
    }
    Ok(deps)
}
