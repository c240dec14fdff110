//! The answers to queries.

ghost use Rattle.std.specs.Prelude.{◌≡◌, ◌⊎◌, ℕ, List, map, Some, IfOk, IfErr};
ghost use Rattle.std.specs.List.{AllZip};
ghost use Rattle.symbols_ast.specs.Ids.{id_view};
ghost use Rattle.symbols_nodes.specs.References.{reference_view};
ghost use Rattle.symbols_table.specs.declared.info.fault.SymbolsFault.TheVariants.{OutOfMemory};
ghost use Rattle.symbols_table.specs.declared.info.fault.SymbolsFault.TheVariants.{UnknownSymbol};
ghost use Rattle.symbols_root.specs.Roots.{widest_limits, specifier_in};
ghost use Rattle.symbols_root.specs.Growing.{HasGrown};
ghost use Rattle.symbols_root.specs.Calls.{IsStored, HasGrownAndFailsOnlyFor};
ghost use Rattle.symbols_exports.specs.ExportAnswers.{AreExportListsCorrectAndUnique};
ghost use Rattle.symbols_paths.specs.NeededModules.{AreNewlyStoredAmong};
ghost use Rattle.symbols_answers.specs.Questions.{query_exports, query_names, query_name, query_deps, query_paths};
ghost use Rattle.symbols_answers.specs.Questions.{query_definitions, query_leaves, query_resolve, inputs_query};
ghost use Rattle.symbols_answers.specs.Answers.{query_answer, IsAnswerToQuery, AreQueryModulesStored};
ghost use Rattle.symbols_queries.specs.Queries.{query_view, answer_view, inputs_view, IsQueryFault, IsQueryListFault};
ghost use Rattle.symbols_queries.specs.Queries.{IsOtherModuleNeededByQuestion, CanBeStoredByQuery};
ghost use Rattle.symbols_queries.specs.Queries.{CanBeStoredByQueries};
ghost use Rattle.symbols_queries.specs.inner.Given.{IsQuestionAnswerReturned};
ghost use Rattle.symbols_queries.specs.inner.QueryFaults.{IsQuestionFault, HasGrownAndQuestionFailsOnlyFor};

use crate::decl_deps::symbol_deps;
use crate::exports_by_specifier::exports_by_specifier;
use crate::inputs::{QueryInput, inputs};
use crate::paths_by_specifier::{
    definitions_by_specifier, entries_by_specifier, path_ends_by_specifier, paths_by_specifier,
};
use crate::query::{Answer, Query};
use symbols_deps::laws::dependencies_are_listed;
use symbols_exports::laws::exports_are_listed;
use symbols_exports::{exports, public_names};
use symbols_graph::ids::{ModuleId, SymbolId};
use symbols_nodes::deps::{ResolveDepsMode, SymbolNodeDep};
use symbols_paths::FindDefinitions;
use symbols_root::RootSymbol;
use symbols_table::info::SymbolsFault;

/// Answers with the exports of a stored module.
fn exports_answer<'a>(
    root: &mut RootSymbol<'a>,
    module_id: ModuleId,
) -> Result<Answer<'a>, SymbolsFault>
    requires { IsStored root.old module_id }
    ensures keeps { HasGrownAndFailsOnlyFor root.old root.new
        (IsQuestionFault root.old root.new (specifier_in root.old module_id) query_exports) result }
    ensures stores { AreNewlyStoredAmong root.old root.new (IsOtherModuleNeededByQuestion
        root.old.rules root.old.graph (specifier_in root.old module_id) query_exports) }
    ensures given { IfOk result (λ answer. IsQuestionAnswerReturned root.old root.new
        (specifier_in root.old module_id) query_exports (answer_view answer)) }
{
    match exports(root, module_id) {
        Err(fault) => Err(fault),
        Ok(found) => Ok(Answer::Exports(exports_by_specifier(root.alloc(), root, found)?)),
    }
}

/// Answers with the public names of a stored module.
fn names_answer<'a>(
    root: &mut RootSymbol<'a>,
    module_id: ModuleId,
) -> Result<Answer<'a>, SymbolsFault>
    requires { IsStored root.old module_id }
    ensures keeps { HasGrownAndFailsOnlyFor root.old root.new
        (IsQuestionFault root.old root.new (specifier_in root.old module_id) query_names) result }
    ensures stores { AreNewlyStoredAmong root.old root.new (IsOtherModuleNeededByQuestion
        root.old.rules root.old.graph (specifier_in root.old module_id) query_names) }
    ensures given { IfOk result (λ answer. IsQuestionAnswerReturned root.old root.new
        (specifier_in root.old module_id) query_names (answer_view answer)) }
{
    match public_names(root, module_id) {
        Err(fault) => Err(fault),
        Ok(names) => Ok(Answer::Names(names)),
    }
}

/// Answers with the fully qualified name of a symbol of a stored module. It fails with
/// `UnknownSymbol` if there is no such symbol.
fn name_answer<'a>(
    root: &RootSymbol<'a>,
    module_id: ModuleId,
    symbol: SymbolId,
) -> Result<Answer<'a>, SymbolsFault>
    requires { IsStored root.now module_id }
    ensures given { IfOk result (λ answer. IsQuestionAnswerReturned root.now root.now
        (specifier_in root.now module_id) (query_name symbol) (answer_view answer)) }
    ensures faults { IfErr result
        (IsQuestionFault root.now root.now (specifier_in root.now module_id) (query_name symbol)) }
{
    match root.module_from_id(module_id) {
        Some(info) => match info.fully_qualified_symbol_name(root.alloc(), symbol) {
            Ok(name) => Ok(Answer::Name(name)),
            Err(fault) => Err(fault),
        },
        None => unreachable!(),
    }
}

/// Answers with the dependencies of each declaration of a symbol of a stored module. It fails with
/// `UnknownSymbol` if there is no such symbol.
fn deps_answer<'a>(
    root: &RootSymbol<'a>,
    module_id: ModuleId,
    symbol_id: SymbolId,
    mode: ResolveDepsMode,
) -> Result<Answer<'a>, SymbolsFault>
    requires { IsStored root.now module_id }
    ensures given { IfOk result (λ answer. IsQuestionAnswerReturned root.now root.now
        (specifier_in root.now module_id) (query_deps symbol_id mode) (answer_view answer)) }
    ensures faults { IfErr result (IsQuestionFault root.now root.now
        (specifier_in root.now module_id) (query_deps symbol_id mode)) }
{
    dependencies_are_listed();
    match root.module_from_id(module_id) {
        Some(info) => match info.symbol(symbol_id) {
            Some(symbol) => Ok(Answer::Deps(symbol_deps(root.alloc(), symbol, mode)?)),
            None => Err(SymbolsFault::UnknownSymbol),
        },
        None => unreachable!(),
    }
}

/// Answers with the definition paths of a symbol of a stored module.
fn paths_answer<'a>(
    root: &mut RootSymbol<'a>,
    module_id: ModuleId,
    symbol: SymbolId,
) -> Result<Answer<'a>, SymbolsFault>
    requires { IsStored root.old module_id }
    ensures keeps { HasGrownAndQuestionFailsOnlyFor root.old root.new (IsQuestionFault
        root.old root.new (specifier_in root.old module_id) (query_paths symbol)) result }
    ensures stores { AreNewlyStoredAmong root.old root.new (IsOtherModuleNeededByQuestion
        root.old.rules root.old.graph (specifier_in root.old module_id) (query_paths symbol)) }
    ensures given { IfOk result (λ answer. IsQuestionAnswerReturned root.old root.new
        (specifier_in root.old module_id) (query_paths symbol) (answer_view answer)) }
{
    match root.find_definition_paths(module_id, symbol) {
        Err(fault) => Err(fault),
        Ok(paths) => Ok(Answer::Paths(paths_by_specifier(root.alloc(), root, paths)?)),
    }
}

/// Answers with the definitions at the ends of the definition paths, from left to right.
fn definitions_answer<'a>(
    root: &mut RootSymbol<'a>,
    module_id: ModuleId,
    symbol: SymbolId,
) -> Result<Answer<'a>, SymbolsFault>
    requires { IsStored root.old module_id }
    ensures keeps { HasGrownAndQuestionFailsOnlyFor root.old root.new (IsQuestionFault
        root.old root.new (specifier_in root.old module_id) (query_definitions symbol)) result }
    ensures stores { AreNewlyStoredAmong root.old root.new
        (IsOtherModuleNeededByQuestion root.old.rules root.old.graph
        (specifier_in root.old module_id) (query_definitions symbol)) }
    ensures given { IfOk result (λ answer. IsQuestionAnswerReturned root.old root.new
        (specifier_in root.old module_id) (query_definitions symbol) (answer_view answer)) }
{
    match root.go_to_definitions(module_id, symbol) {
        Err(fault) => Err(fault),
        Ok(definitions) => {
            let named = definitions_by_specifier(root.alloc(), root, definitions)?;
            Ok(Answer::Definitions(named))
        }
    }
}

/// Answers with all ends of the definition paths, from left to right.
fn leaves_answer<'a>(
    root: &mut RootSymbol<'a>,
    module_id: ModuleId,
    symbol: SymbolId,
) -> Result<Answer<'a>, SymbolsFault>
    requires { IsStored root.old module_id }
    ensures keeps { HasGrownAndQuestionFailsOnlyFor root.old root.new (IsQuestionFault
        root.old root.new (specifier_in root.old module_id) (query_leaves symbol)) result }
    ensures stores { AreNewlyStoredAmong root.old root.new (IsOtherModuleNeededByQuestion
        root.old.rules root.old.graph (specifier_in root.old module_id) (query_leaves symbol)) }
    ensures given { IfOk result (λ answer. IsQuestionAnswerReturned root.old root.new
        (specifier_in root.old module_id) (query_leaves symbol) (answer_view answer)) }
{
    match root.go_to_definitions_or_unresolveds(module_id, symbol) {
        Err(fault) => Err(fault),
        Ok(ends) => Ok(Answer::Leaves(path_ends_by_specifier(root.alloc(), root, ends)?)),
    }
}

/// Answers with the entries that a reference in a stored module resolves to.
fn entries_answer<'a>(
    root: &mut RootSymbol<'a>,
    module_id: ModuleId,
    dep: &SymbolNodeDep<'_>,
) -> Result<Answer<'a>, SymbolsFault>
    requires { IsStored root.old module_id }
    ensures keeps { HasGrownAndFailsOnlyFor root.old root.new
        (IsQuestionFault root.old root.new (specifier_in root.old module_id)
        (query_resolve (reference_view dep.now))) result }
    ensures stores { AreNewlyStoredAmong root.old root.new
        (IsOtherModuleNeededByQuestion root.old.rules root.old.graph
        (specifier_in root.old module_id) (query_resolve (reference_view dep.now))) }
    ensures given { IfOk result (λ answer. IsQuestionAnswerReturned root.old root.new
        (specifier_in root.old module_id) (query_resolve (reference_view dep.now))
        (answer_view answer)) }
{
    match root.resolve_symbol_dep(module_id, dep) {
        Err(fault) => Err(fault),
        Ok(entries) => Ok(Answer::Resolve(entries_by_specifier(root.alloc(), root, entries)?)),
    }
}

/// Returns the answer to the question of a query, on the stored module that its specifier resolves
/// to.
fn answer_on<'a>(
    root: &mut RootSymbol<'a>,
    module_id: ModuleId,
    query: &Query<'_>,
) -> Result<Answer<'a>, SymbolsFault>
    requires { IsStored root.old module_id }
    ensures keeps { HasGrownAndQuestionFailsOnlyFor root.old root.new
        (IsQuestionFault root.old root.new (specifier_in root.old module_id)
        (query_view query.now).question) result }
    ensures stores { AreNewlyStoredAmong root.old root.new
        (IsOtherModuleNeededByQuestion root.old.rules root.old.graph
        (specifier_in root.old module_id) (query_view query.now).question) }
    ensures given { IfOk result (λ answer. IsQuestionAnswerReturned root.old root.new
        (specifier_in root.old module_id) (query_view query.now).question (answer_view answer)) }
{
    match query {
        Query::Module(_) => Ok(Answer::Module(root.specifier_from_id(module_id))),
        Query::Exports(_) => exports_answer(root, module_id),
        Query::Names(_) => names_answer(root, module_id),
        Query::Symbol(_, id) => Ok(Answer::Symbol(root.symbol_id_from_swc(module_id, id))),
        Query::Name(_, symbol) => name_answer(root, module_id, *symbol),
        Query::Deps(_, symbol, mode) => deps_answer(root, module_id, *symbol, *mode),
        Query::Paths(_, symbol) => paths_answer(root, module_id, *symbol),
        Query::Definitions(_, symbol) => definitions_answer(root, module_id, *symbol),
        Query::Leaves(_, symbol) => leaves_answer(root, module_id, *symbol),
        Query::Resolve(_, dep) => entries_answer(root, module_id, dep),
    }
}

/// The calls of a root that answer queries on modules: one query, or several; and the inputs of one
/// (extension).
pub trait AnswerQueries<'a> {
    /// Returns the answer to a query (extension). It doesn't depend on earlier calls.
    ///
    /// # Errors
    ///
    /// `UnknownSymbol` if the queried module has no such symbol: only that module may have been
    /// stored then. Else `OutOfMemory`, or the limit that a module breaks: the queried module, or
    /// one that its answer may need. If the queried module is refused, nothing changes. Modules
    /// that were stored stay stored. No other module is stored than the queried one and those that
    /// the answer may need. If the queried module is stored, and the one that the specifier names
    /// has no types dependency, a symbol that doesn't exist is always told as `UnknownSymbol`.
    fn answer(&mut self, query: &Query<'_>) -> Result<Answer<'a>, SymbolsFault>;

    /// Returns the answers to queries, in order (extension). None depends on earlier calls or
    /// queries.
    ///
    /// # Errors
    ///
    /// The fault of the first query that fails, as `answer` returns it, or `OutOfMemory` if there is
    /// no room for an answer. The answers before it are dropped, and the modules that they are on
    /// or name stay stored. For exports and public names those that `export *` reaches stay stored,
    /// too. Modules that were stored before stay stored. Nothing is stored for a later query.
    fn run(&mut self, queries: &[Query<'_>]) -> Result<Vec<Answer<'a>>, SymbolsFault>;

    /// Returns the inputs of a query: the specifiers that its answer rests on, the queried one first
    /// (extension). They don't depend on earlier calls.
    ///
    /// # Errors
    ///
    /// `OutOfMemory`, or the limit that a module breaks: the queried module, or one that a specifier
    /// resolves to which the query requests. If the queried module is refused, nothing changes.
    /// Modules that were stored stay stored. No other module is stored than those that requested
    /// specifiers resolve to.
    fn inputs(&mut self, query: &Query<'_>) -> Result<Vec<QueryInput<'a>>, SymbolsFault>;
}

impl<'a> AnswerQueries<'a> for RootSymbol<'a> {
    fn answer(&mut self, query: &Query<'_>) -> Result<Answer<'a>, SymbolsFault>
        ensures grown { HasGrown self.old self.new }
        ensures answers { IfOk result (λ answer. query_answer self.old.rules self.old.graph
            (query_view query.now) ≡ Some (answer_view answer)) }
        ensures means { IfOk result (λ answer.
            IsAnswerToQuery self.old.rules self.old.graph (query_view query.now)
            (answer_view answer)) }
        ensures stored { IfOk result
            (λ answer. AreQueryModulesStored self.new (query_view query.now) (answer_view answer)) }
        ensures listed { (start : List ℕ) → AreExportListsCorrectAndUnique self.old.graph start }
        ensures faults { IfErr result (IsQueryFault self.old self.new (query_view query.now)) }
        ensures stores { AreNewlyStoredAmong self.old self.new
            (CanBeStoredByQuery self.old.rules self.old.graph (query_view query.now)) }
        ensures enough { self.old.limits ≡ widest_limits
            → IfErr result (λ fault. (fault ≡ OutOfMemory) ⊎ (fault ≡ UnknownSymbol)) }
    {
        exports_are_listed(self);
        match self.module_from_specifier(query.specifier()) {
            Err(fault) => Err(fault),
            Ok(None) => Ok(Answer::NoModule),
            Ok(Some(module_id)) => answer_on(self, module_id, query),
        }
    }

    fn run(&mut self, queries: &[Query<'_>]) -> Result<Vec<Answer<'a>>, SymbolsFault>
        ensures grown { HasGrown self.old self.new }
        ensures answers { IfOk result
            (λ answers. map (λ answer. Some (answer_view answer)) answers.items
            ≡ map (λ query.
            query_answer self.old.rules self.old.graph (query_view query)) queries.now) }
        ensures means { IfOk result (λ answers.
            AllZip (λ query answer. IsAnswerToQuery self.old.rules self.old.graph (query_view query)
            (answer_view answer)) queries.now answers.items) }
        ensures stored { IfOk result
            (λ answers. AllZip (λ query answer. AreQueryModulesStored self.new (query_view query)
            (answer_view answer)) queries.now answers.items) }
        ensures listed { (start : List ℕ) → AreExportListsCorrectAndUnique self.old.graph start }
        ensures faults { IfErr result
            (IsQueryListFault self.old self.new (map query_view queries.now)) }
        ensures stores { AreNewlyStoredAmong self.old self.new
            (CanBeStoredByQueries self.old.rules self.old.graph (map query_view queries.now)) }
        ensures enough { self.old.limits ≡ widest_limits
            → IfErr result (λ fault. (fault ≡ OutOfMemory) ⊎ (fault ≡ UnknownSymbol)) }
    {
        exports_are_listed(self);
        let mut answers = Vec::new(self.alloc());
        for query in queries {
            match self.answer(query) {
                Err(fault) => return Err(fault),
                Ok(given) => answers.push(given)?,
            }
        }
        Ok(answers)
    }

    fn inputs(&mut self, query: &Query<'_>) -> Result<Vec<QueryInput<'a>>, SymbolsFault>
        ensures grown { HasGrown self.old self.new }
        ensures answers { IfOk result (λ inputs. query_answer self.old.rules self.old.graph
            (inputs_query (query_view query.now)) ≡ Some (inputs_view inputs)) }
        ensures means { IfOk result (λ inputs. IsAnswerToQuery self.old.rules self.old.graph
            (inputs_query (query_view query.now)) (inputs_view inputs)) }
        ensures stored { IfOk result (λ inputs. AreQueryModulesStored self.new
            (inputs_query (query_view query.now)) (inputs_view inputs)) }
        ensures faults { IfErr result
            (IsQueryFault self.old self.new (inputs_query (query_view query.now))) }
        ensures stores { AreNewlyStoredAmong self.old self.new (CanBeStoredByQuery
            self.old.rules self.old.graph (inputs_query (query_view query.now))) }
        ensures enough { self.old.limits ≡ widest_limits
            → IfErr result (λ fault. fault ≡ OutOfMemory) }
    {
        let resolved = self.module_from_specifier(query.specifier());
        match resolved {
            Err(fault) => Err(fault),
            Ok(module_id) => inputs(self, module_id, query),
        }
    }
}
