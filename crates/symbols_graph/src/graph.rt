//! The checked module graph.

ghost use Rattle.std.specs.Prelude.{◌≡◌, ◌≢◌, ◌<◌, ◌+◌, ◌^◌, ℕ, length, string_bytes, IfErr, IfOk, List};
ghost use Rattle.std.specs.Prelude.{OnErr, OnOk};
ghost use Rattle.std.specs.Map.{lookup};
ghost use Rattle.std.specs.Option.{option_copied};
ghost use Rattle.std.specs.Str.{bytes_eq};
ghost use Rattle.symbols_ast.specs.declared.graph.faults.GraphFault.TheVariants.{OutOfMemory};
ghost use Rattle.symbols_ast.specs.Graph.{graph_view, module_after_redirect, module_view};
ghost use Rattle.symbols_ast.specs.Graph.{resolved_dependency};
ghost use Rattle.symbols_graph.specs.GraphFaults.{IsFaultlessGraph, IsFirstGraphFault};
ghost use Rattle.symbols_graph.specs.PutModules.{IsFaultlessPut, IsFirstPutFault, modules_with_put_module};
ghost use Rattle.symbols_graph.specs.PutModules.{graph_with_put_module};
ghost use Rattle.symbols_graph.specs.Tables.{string_pairs_bytes};

use crate::graph_check::check;
use crate::graph_maps::{
    Resolutions, StringMap, keyed_modules, keyed_redirects, keyed_resolutions,
};
use crate::hash_keys::KeyBytes;
use crate::lookup_counter::LookupCounter;
use crate::put_check::check_put;
use std::alloc::Global;
use std::hash::RandomState;
use std::marker::Model;
use symbols_ast::graph::{GraphFault, GraphModule, RawGraph, RawModule};

/// A checked module graph: modules by specifier, redirects, and the table of resolved specifiers.
#[derive(Drop)]
pub struct ModuleGraph {
    modules: StringMap<GraphModule>,
    redirects: StringMap<String>,
    resolutions: Resolutions,
}

impl Model for ModuleGraph {
    ghost use Rattle.std.specs.Prelude.{◌<◌, length};
    ghost use Rattle.std.specs.String.{string_eq};
    ghost use Rattle.indexmap.specs.IndexMap.{values, IsUnique};
    ghost use Rattle.symbols_ast.specs.Graph.{GraphView};
    ghost use Rattle.symbols_graph.specs.Tables.{resolutions_of_map_entries, string_pairs_bytes};
    ghost use Rattle.symbols_graph.specs.inner.Tables.{AreKeyedBySpecifier};

    ghost Value = { GraphView };

    ghost view = { λ g.
        record {
          modules = values g.modules;
          redirects = string_pairs_bytes g.redirects.entries;
          resolutions = resolutions_of_map_entries g.resolutions.entries;
        } };

    ghost invariant = { λ g. AreKeyedBySpecifier g.modules.entries × IsUnique string_eq g.resolutions
        × (length g.modules.entries < 4294967296) };
}

/// Returns the target of the redirect from a specifier, if there is one. It skips the lookup if the
/// graph has no redirects.
fn target<'r>(redirects: &'r StringMap<String>, specifier: &str) -> Option<&'r String>
    ensures { option_copied result
        ≡ lookup (λ k. bytes_eq specifier.now (string_bytes k)) redirects.now.entries }
{
    if redirects.is_empty() {
        return None;
    }
    redirects.get(specifier)
}

impl ModuleGraph {
    /// Checks a raw graph and returns it as a module graph, or the first fault (extension).
    /// Accepted are a redirect to an absent module, and a resolution with an absent referrer or
    /// target.
    ///
    /// Its maps hash with keys that are always the same, so a graph can be written whose names all
    /// collide. Use `with_keys` for graphs that you don't trust.
    ///
    /// # Errors
    ///
    /// The first fault in the order of `GraphFault`, or `OutOfMemory` if an allocation failed.
    pub fn new(alloc: Global, raw: RawGraph) -> Result<ModuleGraph, GraphFault>
        ensures faultless { OnOk result (IsFaultlessGraph (graph_view raw)) }
        ensures refused { IfErr result (λ fault. fault ≢ OutOfMemory
            → IsFirstGraphFault (graph_view raw) fault) }

        ensures modules { IfOk result (λ graph. graph.modules ≡ (graph_view raw).modules) }
        ensures redirects { IfOk result (λ graph. graph.redirects ≡ (graph_view raw).redirects) }
        ensures resolutions { IfOk result (λ graph. (referrer specifier_text : List ℕ)
            → resolved_dependency graph referrer specifier_text
            ≡ resolved_dependency (graph_view raw) referrer specifier_text) }
    {
        match RandomState::new(&KeyBytes::new([0; 16])) {
            Ok(keys) => ModuleGraph::with_keys(alloc, keys, raw),
            Err(_) => Err(GraphFault::OutOfMemory),
        }
    }

    /// Checks a raw graph and returns it as a module graph, or the first fault (extension).
    /// Accepted are a redirect to an absent module, and a resolution with an absent referrer or
    /// target.
    ///
    /// Its maps hash with these keys, as do those of tables and answers over the graph. Whoever
    /// writes the graph must not know them: then no choice of names makes look-ups slow.
    ///
    /// # Errors
    ///
    /// The first fault in the order of `GraphFault`, or `OutOfMemory` if an allocation failed.
    pub fn with_keys(
        alloc: Global,
        keys: RandomState,
        raw: RawGraph,
    ) -> Result<ModuleGraph, GraphFault>
        ensures faultless { OnOk result (IsFaultlessGraph (graph_view raw)) }
        ensures refused { IfErr result (λ fault. fault ≢ OutOfMemory
            → IsFirstGraphFault (graph_view raw) fault) }

        ensures modules { IfOk result (λ graph. graph.modules ≡ (graph_view raw).modules) }
        ensures redirects { IfOk result (λ graph. graph.redirects ≡ (graph_view raw).redirects) }
        ensures resolutions { IfOk result (λ graph. (referrer specifier_text : List ℕ)
            → resolved_dependency graph referrer specifier_text
            ≡ resolved_dependency (graph_view raw) referrer specifier_text) }
    {
        check(alloc, keys, &raw)?;
        let RawGraph {
            modules,
            redirects,
            resolutions,
        } = raw;
        let modules = keyed_modules(alloc, keys, modules)?;
        let redirects = keyed_redirects(alloc, keys, redirects)?;
        let resolutions = keyed_resolutions(alloc, keys, resolutions)?;
        Ok(ModuleGraph {
            modules,
            redirects,
            resolutions,
        })
    }

    /// Returns the keys that the maps of the graph hash with (extension).
    pub fn keys(&self) -> RandomState {
        *self.modules.hasher()
    }

    /// Returns the module of a specifier, after at most one redirect; `None` if the graph has no
    /// such module. If the specifier is redirected, it is the target's module, even if a module has
    /// the specifier itself.
    pub fn get(&self, specifier: &str) -> Option<&GraphModule>
        ensures found { option_copied result ≡ module_after_redirect self.now specifier.now }
        ensures few { length self.now.modules < 4294967296 }
    {
        match target(&self.redirects, specifier) {
            Some(target) => self.modules.get(target.as_str()),
            None => self.modules.get(specifier),
        }
    }

    /// Resolves a specifier in a module to that of another module, by the raw graph's table. It is
    /// `None` if the table has no entry. No redirect is applied to the referrer. The look-up is
    /// counted.
    pub fn resolve_dependency(
        &self,
        specifier_text: &str,
        referrer: &str,
        lookups: &mut LookupCounter,
    ) -> Option<&str>
        ensures resolved { option_copied result
            ≡ resolved_dependency self.now referrer.now specifier_text.now }
        ensures counted { lookups.old.count + 1 < 2 ^ 128
            → lookups.new.count ≡ lookups.old.count + 1 }
    {
        lookups.add_one();
        let table = self.resolutions.get(referrer)?;
        table.get(specifier_text).map(String::as_str)
    }

    /// Puts a module in place of the one of its specifier, or after all if there is none (extension).
    /// The pairs are its specifier texts, each with the specifier that it resolves to. They replace
    /// all resolutions of that module. The graph is then as if opened with this module and them.
    ///
    /// # Errors
    ///
    /// The first fault of the module and its resolutions in the order of `GraphFault`, or
    /// `OutOfMemory` if an allocation failed. The graph is then unchanged.
    pub fn put_module(
        &mut self,
        alloc: Global,
        raw: RawModule,
        resolutions: Vec<(String, String)>,
    ) -> Result<(), GraphFault>
        ensures faultless { OnOk result (IsFaultlessPut self.old.modules (module_view raw)
            (string_pairs_bytes resolutions.items)) }
        ensures refused { IfErr result (λ fault. fault ≢ OutOfMemory
            → IsFirstPutFault self.old.modules (module_view raw)
            (string_pairs_bytes resolutions.items) fault) }
        ensures modules { OnOk result
            (self.new.modules ≡ modules_with_put_module (module_view raw) self.old.modules) }
        ensures redirects { OnOk result (self.new.redirects ≡ self.old.redirects) }
        ensures resolutions { OnOk result ((referrer specifier_text : List ℕ)
            → resolved_dependency self.new referrer specifier_text
            ≡ resolved_dependency (graph_with_put_module self.old (module_view raw)
            (string_pairs_bytes resolutions.items)) referrer specifier_text) }
        ensures unchanged { OnErr result (self.new ≡ self.old) }
    {
        let keys = self.keys();
        check_put(alloc, keys, &self.modules, &raw, &resolutions)?;
        let key = raw.specifier.clone()?;
        let referrer = raw.specifier.clone()?;
        let resolved = keyed_redirects(alloc, keys, resolutions)?;
        self.modules.reserve(1)?;
        self.resolutions.insert(referrer, resolved)?;
        let checked = GraphModule::from_raw(raw);
        self.modules.insert(key, checked).unwrap();
        Ok(())
    }
}
