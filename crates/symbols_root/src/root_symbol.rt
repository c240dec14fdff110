//! A graph with the modules of it that were analyzed so far.

ghost use Rattle.std.specs.Prelude.{◌≡◌, ◌<◌, ◌≤◌, ◌↔◌, ℕ, true, false, List, length};
ghost use Rattle.std.specs.Prelude.{Some, IsSome, IfSome, IfOk, IfErr, OnOk, OnErr};
ghost use Rattle.std.specs.List.{IsDistinct};
ghost use Rattle.std.specs.Option.{option_map};
ghost use Rattle.std.specs.Str.{bytes_eq};
ghost use Rattle.symbols_ast.specs.Graph.{ModuleView};
ghost use Rattle.symbols_ast.specs.Ids.{id_view};
ghost use Rattle.symbols_table.specs.Modules.{symbol_table_of_ref};
ghost use Rattle.symbols_table.specs.Changes.{symbol_of_ident_after_changes};
ghost use Rattle.symbols_root.specs.declared.rules.Rules.TheVariants as rules;
ghost use Rattle.symbols_root.specs.Specifiers.{module_with_specifier, contains_specifier};
ghost use Rattle.symbols_root.specs.TypesChains.{is_analyzable, types_chain, get_prefer_types};
ghost use Rattle.symbols_root.specs.TypesChains.{resolved_module_specifier, IsUniqueTypesChain};
ghost use Rattle.symbols_root.specs.Roots.{empty_root, root_with_stored_module, maybe_specifier};
ghost use Rattle.symbols_root.specs.Roots.{IsTableOfStoredModule, specifier_in};
ghost use Rattle.symbols_root.specs.GraphModules.{table_changes_of_module};
ghost use Rattle.symbols_root.specs.Roots.{IsNeededAndNotStored, IsStoringFault, IsModuleWithinLimits};
ghost use Rattle.symbols_root.specs.Roots.{widest_limits};
ghost use Rattle.symbols_root.specs.Growing.{HasGrown};
ghost use Rattle.symbols_root.specs.Calls.{IsStored, IsOnlyOutOfMemoryByWidestLimits, HasGrownAndFailsOnlyFor};
ghost use Rattle.symbols_root.specs.Calls.{IsUnstoredOrHasTypesDependency};
ghost use Rattle.symbols_root.specs.inner.StoredModules.{ResolvesToStored};

use crate::limits::Limits;
use crate::rules::Rules;
use crate::types_chain::{get_prefer_types, specifier_in_graph};
use indexmap::IndexMap;
use std::alloc::Global;
use std::hash::RandomState;
use std::marker::Model;
use symbols_graph::ids::{ModuleId, SymbolId};
use symbols_graph::tree::Id;
use symbols_graph::{GraphModule, ModuleGraph};
use symbols_table::analyze;
use symbols_table::info::{ModuleInfo, ModuleInfoRef, SymbolsFault};

/// A graph with its modules analyzed so far (as deno_graph). A module is analyzed and stored under
/// its own specifier when a call needs it. Its number is its index in the order of storing. A
/// module of the graph has at most one number, which never changes.
#[derive(Drop)]
pub struct RootSymbol<'a> {
    alloc: Global,
    graph: &'a ModuleGraph,
    rules: Rules,
    limits: Limits,
    modules: IndexMap<&'a str, ModuleInfo<'a>, RandomState>,
    /// The module that a specifier, as the graph has it, was last resolved to. A request for the
    /// same specifier needs no look-up.
    last: Option<(&'a str, ModuleId)>,
}

impl<'a> Model for RootSymbol<'a> {
    ghost use Rattle.std.specs.Prelude.{◌≤◌, length, IfSome};
    ghost use Rattle.std.specs.List.{IsDistinct};
    ghost use Rattle.std.specs.Str.{bytes_eq};
    ghost use Rattle.symbols_root.specs.Roots.{RootView};
    ghost use Rattle.symbols_root.specs.StoredModules.{stored_specifiers};
    ghost use Rattle.symbols_root.specs.inner.StoredModules.{AreTablesOfModules, ResolvesToStored};

    ghost Value = { RootView };

    ghost view = { λ r. record {
      graph = r.graph.now;
      rules = r.rules;
      limits = r.limits;
      stored = stored_specifiers r.modules.entries;
    } };

    ghost invariant = { λ r. AreTablesOfModules r.graph.now r.limits.symbols r.modules.entries
        × (length r.modules.entries ≤ r.limits.modules)
        × IsDistinct bytes_eq (stored_specifiers r.modules.entries)
        × IfSome r.last (λ last.
        ResolvesToStored r.graph.now (stored_specifiers r.modules.entries) last.1 last.0.now) };
}

impl<'a> RootSymbol<'a> {
    /// Returns a root over a graph by Deno's rules, with no module stored and the widest limits (as
    /// deno_graph, without a parser: the graph has the trees).
    pub fn new(alloc: Global, graph: &'a ModuleGraph) -> RootSymbol<'a>
        ensures { result ≡ empty_root graph.now rules.Deno widest_limits }
    {
        let limits = Limits {
            modules: u32::MAX,
            symbols: u32::MAX,
        };
        RootSymbol::with_limits(alloc, graph, limits)
    }

    /// Returns a root over a graph by Deno's rules, with no module stored, that stores within these
    /// limits (extension).
    pub fn with_limits(alloc: Global, graph: &'a ModuleGraph, limits: Limits) -> RootSymbol<'a>
        ensures { result ≡ empty_root graph.now rules.Deno limits }
    {
        RootSymbol::with_rules(alloc, graph, Rules::Deno, limits)
    }

    /// Returns a root over a graph by these rules, with no module stored, that stores within these
    /// limits (extension).
    pub fn with_rules(
        alloc: Global,
        graph: &'a ModuleGraph,
        rules: Rules,
        limits: Limits,
    ) -> RootSymbol<'a>
        ensures { result ≡ empty_root graph.now rules limits }
    {
        RootSymbol {
            alloc,
            graph,
            rules,
            limits,
            modules: IndexMap::with_hasher(alloc, graph.keys()),
            last: None,
        }
    }

    /// Returns the graph (extension; the crate's root doesn't return it).
    pub fn graph(&self) -> &'a ModuleGraph
        ensures { result.now ≡ self.now.graph }
    {
        self.graph
    }

    /// Returns the rules of the root (extension).
    pub fn rules(&self) -> Rules
        ensures { result ≡ self.now.rules }
    {
        self.rules
    }

    /// Returns the allocator (extension).
    pub fn alloc(&self) -> Global {
        self.alloc
    }

    /// Returns the keys that its maps hash with: those of the graph (extension).
    pub fn keys(&self) -> RandomState {
        *self.modules.hasher()
    }

    // States that no module is stored twice.
    pub(crate) fn stores_once(&self)
        ensures { IsDistinct bytes_eq self.now.stored }
    {
        let _ = &self.modules;
    }

    /// Returns whether a module with this very specifier is stored. Redirects and types
    /// dependencies are not followed (as deno_graph).
    pub fn has_analyzed(&self, specifier: &str) -> bool
        ensures { result ≡ contains_specifier self.now.stored specifier.now }
    {
        self.modules.contains_key(&specifier)
    }

    /// Returns the stored module of this id, or `None` if no module has it (as deno_graph).
    pub fn module_from_id(&self, module_id: ModuleId) -> Option<ModuleInfoRef<'_, 'a>>
        ensures found { IsSome result ↔ IsStored self.now module_id }
        ensures table { IfSome result
            (λ info. IsTableOfStoredModule self.now module_id (symbol_table_of_ref info)) }
        ensures once { IsDistinct bytes_eq self.now.stored }
        ensures within { length self.now.stored ≤ self.now.limits.modules }
    {
        match self.modules.get_index(module_id.0 as usize) {
            Some((_, info)) => Some(info.as_ref()),
            None => None,
        }
    }

    /// Returns the specifier of a stored module (extension).
    pub fn specifier_from_id(&self, module_id: ModuleId) -> &'a str
        requires { IsStored self.now module_id }
        ensures { result.now ≡ specifier_in self.now module_id }
    {
        match self.module_from_id(module_id) {
            Some(info) => info.specifier(),
            None => unreachable!(),
        }
    }

    /// Returns the symbol of a name of a stored module, or `None` if the name has none. No name of
    /// a JSON module has one (extension).
    pub fn symbol_id_from_swc(&self, module_id: ModuleId, id: &Id) -> Option<SymbolId>
        requires { IsStored self.now module_id }
        ensures { result ≡ symbol_of_ident_after_changes (table_changes_of_module self.now.graph
            (specifier_in self.now module_id)) (id_view id.now) }
    {
        match self.module_from_id(module_id) {
            Some(ModuleInfoRef::Esm(esm)) => esm.symbol_id_from_swc(id),
            Some(ModuleInfoRef::Json(_)) => None,
            None => unreachable!(),
        }
    }

    // Stores a module of the graph that has symbols, unless it is stored. Returns its number.
    fn store(&mut self, graph_module: &'a GraphModule) -> Result<ModuleId, SymbolsFault>
        requires under { module_with_specifier self.old.graph graph_module.now.specifier
            ≡ Some graph_module.now }
        requires analyzable { is_analyzable graph_module.now ≡ true }
        ensures grown { HasGrown self.old self.new }
        ensures gives { IfOk result
            (λ id. maybe_specifier self.new id ≡ Some graph_module.now.specifier) }
        ensures stored { OnOk result
            (self.new ≡ root_with_stored_module self.old (Some graph_module.now.specifier)) }
        ensures allowed { OnOk result ((specifier : List ℕ)
            → IsNeededAndNotStored self.old (Some graph_module.now.specifier) specifier
            → IsModuleWithinLimits self.old specifier) }
        ensures unchanged { OnErr result (self.new ≡ self.old) }
        ensures refused { IfErr result (IsStoringFault self.old (Some graph_module.now.specifier)) }
        ensures enough { length self.old.graph.modules < 4294967296
            → IsOnlyOutOfMemoryByWidestLimits self.old result }
        ensures unstored { OnErr result
            (contains_specifier self.old.stored graph_module.now.specifier ≡ false) }
    {
        let specifier = graph_module.specifier();
        let Limits { modules, symbols } = self.limits;
        // A caller that requests modules in the order of storing finds each right after the last
        // one.
        if let Some((_, last)) = self.last {
            let next = last.0 as usize + 1;
            if let Some((stored_specifier, _)) = self.modules.get_index(next) {
                if *stored_specifier == specifier {
                    return Ok(ModuleId(next as u32));
                }
            }
        }
        if let Some(index) = self.modules.get_index_of(&specifier) {
            return Ok(ModuleId(index as u32));
        }
        let count = self.modules.len();
        if count >= modules as usize {
            return Err(SymbolsFault::TooManyModules);
        }
        let module_id = ModuleId(count as u32);
        let info = match analyze(self.alloc, self.keys(), module_id, graph_module, symbols) {
            Ok(Some(info)) => info,
            Ok(None) => unreachable!(),
            Err(fault) => return Err(fault),
        };
        self.modules.insert(specifier, info)?;
        Ok(module_id)
    }

    // Returns the module that a specifier was last resolved to, if it is this specifier.
    fn last_requested(&self, specifier: &str) -> Option<ModuleId>
        ensures { IfSome result
            (λ id. ResolvesToStored self.now.graph self.now.stored id specifier.now) }
    {
        match self.last {
            Some((requested, module_id)) if requested == specifier => Some(module_id),
            _ => None,
        }
    }

    // Remembers which module a specifier was last resolved to.
    fn set_last_requested(&mut self, specifier: &'a str, module_id: ModuleId)
        requires { ResolvesToStored self.old.graph self.old.stored module_id specifier.now }
        ensures { self.new ≡ self.old }
    {
        self.last = Some((specifier, module_id));
    }

    /// Resolves a specifier to a module, which is stored if it wasn't. Returns `None` if the
    /// specifier resolves to no module with symbols (as deno_graph; extensions: a types chain ends
    /// before a module that is on it already, and a module is stored once, whatever redirects
    /// resolve to it).
    ///
    /// The types chain of a specifier has the module that it names, the module that this one's
    /// types dependency names, and so on. The specifier resolves to the last module with symbols on
    /// it.
    ///
    /// # Errors
    ///
    /// `TooManyModules` if the limit of stored modules is reached, `TooManySymbols` if the module
    /// has more symbols than the limit, `OutOfMemory` if an allocation failed. The root is
    /// unchanged then. If the module is stored, it fails only with `OutOfMemory`, and only if the
    /// module that the specifier names has a types dependency.
    pub fn module_from_specifier(
        &mut self,
        specifier: &str,
    ) -> Result<Option<ModuleId>, SymbolsFault>
        ensures keeps { HasGrownAndFailsOnlyFor self.old self.new
            (IsStoringFault self.old (resolved_module_specifier self.old.graph specifier.now))
            result }
        ensures gives { IfOk result (λ id. option_map (maybe_specifier self.new) id
            ≡ option_map (λ s. Some s) (resolved_module_specifier self.old.graph specifier.now)) }
        ensures stored { OnOk result (self.new
            ≡ root_with_stored_module self.old
            (resolved_module_specifier self.old.graph specifier.now)) }
        ensures allowed { OnOk result ((needed : List ℕ)
            → IsNeededAndNotStored self.old (resolved_module_specifier self.old.graph specifier.now)
            needed
            → IsModuleWithinLimits self.old needed) }
        ensures unchanged { OnErr result (self.new ≡ self.old) }
        ensures can_fail { OnErr result (IsUnstoredOrHasTypesDependency self.old specifier.now) }
        ensures under { IfOk result (λ _. IfSome (get_prefer_types self.old.graph specifier.now)
            (λ m. module_with_specifier self.old.graph m.specifier ≡ Some m)) }
        ensures chain { IsUniqueTypesChain self.old.graph specifier.now
            (types_chain self.old.graph specifier.now) }
    {
        if let Some(module_id) = self.last_requested(specifier) {
            return Ok(Some(module_id));
        }
        let Some(graph_module) = get_prefer_types(self.alloc, self.graph, specifier)? else {
            return Ok(None);
        };
        let module_id = self.store(graph_module)?;
        if let Some(requested) = specifier_in_graph(self.graph, graph_module, specifier) {
            self.set_last_requested(requested, module_id);
        }
        Ok(Some(module_id))
    }
}
