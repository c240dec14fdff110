//! The exports of a module.

ghost use Rattle.std.specs.Prelude.{◌≡◌, []};

use crate::export_chain::ResolvedExportOrReExportAllPath;
use crate::shared_name::SharedName;
use indexmap::IndexMap;
use std::alloc::Global;
use std::hash::RandomState;
use symbols_graph::ids::ModuleId;

/// An `export *` statement that resolves to no module (as deno_graph).
#[derive(Clone, Copy)]
pub struct UnresolvedSpecifier<'a> {
    /// The module that has the statement.
    pub referrer: ModuleId,
    /// The statement's specifier.
    pub specifier: &'a str,
}

/// The exports of a module (as deno_graph).
///
/// A chain is a list of `export *` statements that ends with a local export. Chain order compares
/// two chains at the first statement in which they differ: the chain whose statement is earlier in
/// that module comes first. A chain comes before its continuations.
#[derive(Drop)]
pub struct ModuleExports<'a> {
    /// The exported names with their chains, in chain order. Names with the same chain have the
    /// order of the exporting module.
    pub resolved: IndexMap<String, ResolvedExportOrReExportAllPath<'a>, RandomState>,
    /// The names other than `default` that two or more reachable modules export locally and this
    /// module doesn't. Their order is that of `resolved`, which has them, too. It is empty by
    /// Deno's rules (extension).
    pub shared: Vec<SharedName<'a>>,
    /// The `export *` statements of this module and of reachable ones that resolve to no module, in
    /// chain order.
    pub unresolved_specifiers: Vec<UnresolvedSpecifier<'a>>,
}

impl<'a> ModuleExports<'a> {
    /// Returns empty exports (as deno_graph's default). It allocates nothing.
    pub fn new(alloc: Global, keys: RandomState) -> ModuleExports<'a>
        ensures resolved { result.resolved.entries ≡ [] }
        ensures shared { result.shared.items ≡ [] }
        ensures unresolved { result.unresolved_specifiers.items ≡ [] }
    {
        ModuleExports {
            resolved: IndexMap::with_hasher(alloc, keys),
            shared: Vec::new(alloc),
            unresolved_specifiers: Vec::new(alloc),
        }
    }
}
