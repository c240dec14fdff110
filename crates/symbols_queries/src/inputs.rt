//! The specifiers that a query looks up.

ghost use Rattle.std.specs.Prelude.{◌≡◌, ◌≤◌, ◌^◌, ◌∷◌, [], ℕ, List, length, map, flat_map, Some, IfSome, IfOk, OnOk};
ghost use Rattle.std.specs.Option.{option_copied, option_map};
ghost use Rattle.symbols_table.specs.Modules.{symbol_table_of_ref};
ghost use Rattle.symbols_table.specs.Symbols.{symbol_decls};
ghost use Rattle.symbols_root.specs.Calls.{IsStored};
ghost use Rattle.symbols_root.specs.Roots.{maybe_specifier, specifier_in};
ghost use Rattle.symbols_root.specs.TypesChains.{resolved_module_specifier};
ghost use Rattle.symbols_answers.specs.Questions.{append_resolved_specifiers, list_grown_by_walk_from_index};
ghost use Rattle.symbols_answers.specs.Questions.{walk_limit, import_specifiers_among, followed_specifiers};
ghost use Rattle.symbols_answers.specs.Questions.{import_type_specifier_of_question, append_resolved_import_type};
ghost use Rattle.symbols_answers.specs.Questions.{append_requested_specifiers, requested_specifiers};
ghost use Rattle.symbols_answers.specs.Questions.{append_types_dependency, seen_specifiers, inputs_of_query};
ghost use Rattle.symbols_answers.specs.Inputs.{found_under_specifier, input_of_specifier};
ghost use Rattle.symbols_answers.specs.Answers.{AreRequestedModulesStored};
ghost use Rattle.symbols_ast.specs.Graph.{module_after_redirect};
ghost use Rattle.symbols_queries.specs.Queries.{query_view, found_view, input_view};
ghost use Rattle.symbols_queries.specs.inner.SpecifierLists.{HasGrownAndInputsFailOnlyStoring};

use crate::query::Query;
use crate::specifier_list::SpecifierList;
use std::alloc::{AllocError, Global};
use std::borrow::CowStr;
use symbols_graph::ids::ModuleId;
use symbols_graph::{LookupCounter, ModuleGraph};
use symbols_nodes::deps::SymbolNodeDep;
use symbols_root::RootSymbol;
use symbols_table::decl::{Symbol, SymbolDeclKind};
use symbols_table::info::{ModuleInfoRef, SymbolsFault};

/// The result of looking up a specifier in a graph (extension).
#[derive(Clone, Copy, Debug, PartialEq, Eq)]
pub enum Found<'a> {
    /// The module that has this specifier.
    Module,
    /// Another module, by its own specifier: the specifier redirects to it.
    Redirect(&'a str),
    /// No module, after one redirect.
    Absent,
}

/// A specifier that a query looks up, with what the graph has under it (extension).
#[derive(Drop)]
pub struct QueryInput<'a> {
    pub specifier: CowStr<'a>,
    pub found: Found<'a>,
}

/// Adds what a specifier in a module resolves to, if it resolves.
fn add_target<'a>(
    graph: &'a ModuleGraph,
    referrer: &str,
    specifier_text: &str,
    list: &mut SpecifierList<'_, 'a>,
) -> Result<(), AllocError>
    ensures { OnOk result (list.new
        ≡ append_resolved_specifiers graph.now referrer.now list.old (specifier_text.now ∷ [])) }
{
    let mut counter = LookupCounter::new();
    match graph.resolve_dependency(specifier_text, referrer, &mut counter) {
        Some(target) => list.add(target),
        None => Ok(()),
    }
}

/// Adds what the specifiers of the `export *` statements of a module resolve to.
fn add_star_targets<'a>(
    graph: &'a ModuleGraph,
    info: ModuleInfoRef<'_, 'a>,
    list: &mut SpecifierList<'_, 'a>,
) -> Result<(), AllocError>
    ensures { OnOk result (list.new
        ≡ append_resolved_specifiers graph.now (symbol_table_of_ref info.entry).specifier list.old
        (map (λ star. star.specifier_text) (symbol_table_of_ref info.entry).stars)) }
{
    let mut position = 0;
    while let Some(specifier_text) = info.re_export_all_specifier(position) {
        add_target(graph, info.specifier(), specifier_text, list)?;
        position += 1;
    }
    Ok(())
}

/// Adds what the specifiers of the imports and re-exports among the declarations of a symbol
/// resolve to.
fn add_symbol_targets<'a>(
    graph: &'a ModuleGraph,
    referrer: &str,
    symbol: &Symbol<'a>,
    list: &mut SpecifierList<'_, 'a>,
) -> Result<(), AllocError>
    ensures { OnOk result (list.new ≡ append_resolved_specifiers graph.now referrer.now list.old
        (import_specifiers_among (symbol_decls symbol.now))) }
{
    for decl in symbol.decls() {
        if let SymbolDeclKind::FileRef(dep) = &decl.kind {
            add_target(graph, referrer, dep.specifier, list)?;
        }
    }
    Ok(())
}

/// Adds what the specifiers of the imports and re-exports of a module resolve to.
fn add_import_targets<'a>(
    graph: &'a ModuleGraph,
    info: ModuleInfoRef<'_, 'a>,
    list: &mut SpecifierList<'_, 'a>,
) -> Result<(), AllocError>
    ensures { OnOk result (list.new
        ≡ append_resolved_specifiers graph.now (symbol_table_of_ref info.entry).specifier list.old
        (flat_map (λ symbol. import_specifiers_among (symbol_decls symbol))
        (symbol_table_of_ref info.entry).symbols)) }
{
    for symbol in info.symbols() {
        add_symbol_targets(graph, info.specifier(), symbol, list)?;
    }
    Ok(())
}

/// Adds what the specifiers resolve to that a query follows in a stored module.
fn add_followed_targets<'a>(
    root: &RootSymbol<'a>,
    module_id: ModuleId,
    query: &Query<'_>,
    list: &mut SpecifierList<'_, 'a>,
) -> Result<(), AllocError>
    requires { IsStored root.now module_id }
    ensures { OnOk result (list.new
        ≡ append_resolved_specifiers root.now.graph (specifier_in root.now module_id) list.old
        (followed_specifiers root.now.graph (query_view query.now).question
        (specifier_in root.now module_id))) }
{
    let graph = root.graph();
    let Some(info) = root.module_from_id(module_id) else {
        unreachable!()
    };
    match query {
        Query::Module(_) | Query::Symbol(_, _) | Query::Name(_, _) | Query::Deps(_, _, _) => Ok(()),
        Query::Exports(_) | Query::Names(_) => add_star_targets(graph, info, list),
        Query::Paths(_, _)
        | Query::Definitions(_, _)
        | Query::Leaves(_, _)
        | Query::Resolve(_, _) => {
            add_star_targets(graph, info, list)?;
            add_import_targets(graph, info, list)
        }
    }
}

/// Adds what a query requests from the module that a specifier resolves to, if it resolves to one.
fn add_requests<'a>(
    root: &RootSymbol<'a>,
    module_id: Option<ModuleId>,
    query: &Query<'_>,
    list: &mut SpecifierList<'_, 'a>,
) -> Result<(), AllocError>
    requires { IfSome module_id (IsStored root.now) }
    ensures { (key : List ℕ) → option_map (maybe_specifier root.now) module_id
        ≡ option_map (λ s. Some s) (resolved_module_specifier root.now.graph key)
        → OnOk result (list.new ≡ append_requested_specifiers root.now.graph
        (query_view query.now).question key list.old) }
{
    match module_id {
        Some(module_id) => add_followed_targets(root, module_id, query, list),
        None => Ok(()),
    }
}

/// Returns the specifier of the import type that a query resolves, if it is on one.
fn import_type_specifier<'r>(query: &'r Query<'_>) -> Option<&'r str>
    ensures { option_copied result
        ≡ import_type_specifier_of_question (query_view query.now).question }
{
    match query {
        Query::Resolve(_, SymbolNodeDep::ImportType(specifier_text, _)) => Some(specifier_text),
        _ => None,
    }
}

/// Adds what the import type of a query resolves to in the queried module, if the query is on one.
fn add_import_type_target<'a>(
    root: &RootSymbol<'a>,
    module_id: Option<ModuleId>,
    query: &Query<'_>,
    list: &mut SpecifierList<'_, 'a>,
) -> Result<(), AllocError>
    requires known { IfSome module_id (IsStored root.now) }
    requires queried { option_map (maybe_specifier root.now) module_id
        ≡ option_map (λ s. Some s)
        (resolved_module_specifier root.now.graph (query_view query.now).specifier) }
    ensures { OnOk result (list.new
        ≡ append_resolved_import_type root.now.graph (query_view query.now) list.old) }
{
    let Some(module_id) = module_id else {
        return Ok(());
    };
    match import_type_specifier(query) {
        Some(specifier_text) => add_target(
            root.graph(),
            root.specifier_from_id(module_id),
            specifier_text,
            list,
        ),
        None => Ok(()),
    }
}

/// Returns the specifiers that a query on a module requests. The modules that they resolve to are
/// stored.
fn requested_specifiers<'q, 'a>(
    root: &mut RootSymbol<'a>,
    module_id: Option<ModuleId>,
    query: &'q Query<'_>,
) -> Result<SpecifierList<'q, 'a>, SymbolsFault>
    requires { option_map (maybe_specifier root.old) module_id ≡ option_map
        (λ s. Some s) (resolved_module_specifier root.old.graph (query_view query.now).specifier) }
    ensures keeps { HasGrownAndInputsFailOnlyStoring root.old root.new (query_view query.now)
        result }
    ensures listed { IfOk result (λ list. list ≡ requested_specifiers root.old.graph
        (query_view query.now)) }
    ensures stored { OnOk result (AreRequestedModulesStored root.new
        (query_view query.now)) }
{
    let mut list = SpecifierList::new(root.alloc(), root.keys(), query.specifier());
    add_import_type_target(root, module_id, query, &mut list)?;
    let mut index = 0;
    while let Some(specifier) = list.get(index) {
        let requested = match root.module_from_specifier(specifier) {
            Err(fault) => return Err(fault),
            Ok(requested) => requested,
        };
        add_requests(root, requested, query, &mut list)?;
        index += 1;
    }
    Ok(list)
}

/// Adds the types dependencies of the modules that the graph has under the specifiers.
fn add_types_dependencies<'a>(
    graph: &'a ModuleGraph,
    list: &mut SpecifierList<'_, 'a>,
) -> Result<(), AllocError>
    ensures listed { OnOk result (list.new
        ≡ list_grown_by_walk_from_index (append_types_dependency graph.now) walk_limit 0 list.old) }
    ensures few { OnOk result (length list.new ≤ 2 ^ 63) }
{
    let mut index = 0;
    while let Some(specifier) = list.get(index) {
        if let Some(graph_module) = graph.get(specifier) {
            if let Some(types) = graph_module.types_dependency() {
                list.add(types)?;
            }
        }
        index += 1;
    }
    Ok(())
}

/// Returns what the graph has under a specifier.
fn found_under<'a>(graph: &'a ModuleGraph, specifier: &str) -> Found<'a>
    ensures { found_view result
        ≡ found_under_specifier specifier.now (module_after_redirect graph.now specifier.now) }
{
    match graph.get(specifier) {
        Some(graph_module) if graph_module.specifier() == specifier => Found::Module,
        Some(graph_module) => Found::Redirect(graph_module.specifier()),
        None => Found::Absent,
    }
}

/// Returns the specifiers with what the graph has under each.
fn inputs_from_list<'a>(
    alloc: Global,
    graph: &'a ModuleGraph,
    list: SpecifierList<'_, 'a>,
) -> Result<Vec<QueryInput<'a>>, AllocError>
    ensures { IfOk result
        (λ inputs. map input_view inputs.items ≡ map (input_of_specifier graph.now) list.entry) }
{
    let mut inputs = Vec::new(alloc);
    let (first, added) = list.into_parts();
    inputs.push(QueryInput {
        specifier: CowStr::Owned(String::from_str(alloc, first)?),
        found: found_under(graph, first),
    })?;
    for specifier in &added {
        inputs.push(QueryInput {
            specifier: CowStr::Borrowed(*specifier),
            found: found_under(graph, *specifier),
        })?;
    }
    Ok(inputs)
}

/// Returns the inputs of a query by the specifiers that it requests.
fn inputs_from_requested<'a>(
    alloc: Global,
    graph: &'a ModuleGraph,
    requested: SpecifierList<'_, 'a>,
) -> Result<Vec<QueryInput<'a>>, AllocError>
    ensures listed { IfOk result (λ inputs. map input_view inputs.items
        ≡ map (input_of_specifier graph.now) (list_grown_by_walk_from_index
        (append_types_dependency graph.now) walk_limit 0 requested.entry)) }
    ensures few { OnOk result (length (list_grown_by_walk_from_index
        (append_types_dependency graph.now) walk_limit 0 requested.entry) ≤ 2 ^ 63) }
{
    let mut list = requested;
    add_types_dependencies(graph, &mut list)?;
    inputs_from_list(alloc, graph, list)
}

/// Returns the inputs of a query on a module. The modules that the requested specifiers resolve to
/// are stored.
pub(crate) fn inputs<'a>(
    root: &mut RootSymbol<'a>,
    module_id: Option<ModuleId>,
    query: &Query<'_>,
) -> Result<Vec<QueryInput<'a>>, SymbolsFault>
    requires { option_map (maybe_specifier root.old) module_id ≡ option_map
        (λ s. Some s) (resolved_module_specifier root.old.graph (query_view query.now).specifier) }
    ensures keeps { HasGrownAndInputsFailOnlyStoring root.old root.new (query_view query.now)
        result }
    ensures listed { IfOk result (λ inputs. map input_view inputs.items ≡ inputs_of_query
        root.old.graph (query_view query.now)) }
    ensures few { OnOk result (length (seen_specifiers root.old.graph
        (query_view query.now)) ≤ 2 ^ 63) }
    ensures stored { OnOk result (AreRequestedModulesStored root.new
        (query_view query.now)) }
{
    match requested_specifiers(root, module_id, query) {
        Err(fault) => Err(fault),
        Ok(requested) => Ok(inputs_from_requested(root.alloc(), root.graph(), requested)?),
    }
}
