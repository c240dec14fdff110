//! Laws on what an answer depends on: the modules, redirects and resolutions that its query looks
//! up, and nothing else in the graph. The functions here do nothing: a law is the contract of a
//! function.

#![tactic(auto)]

ghost use Rattle.std.specs.Prelude.{◌≡◌, ℕ, Bool, true, List};
ghost use Rattle.symbols_ast.specs.Graph.{GraphView, ModuleView, specifier_after_redirect};
ghost use Rattle.symbols_graph.specs.PutModules.{graph_with_put_module};
ghost use Rattle.symbols_root.specs.declared.rules.Rules.{Rules};
ghost use Rattle.symbols_answers.specs.Answers.{AnswerView, IsAnswerToQuery, query_answer};
ghost use Rattle.symbols_answers.specs.Questions.{QueryView, AreAlikeForQuery, IsModuleNotLookedUpByQuery};
ghost use Rattle.symbols_locality.specs.ChangedModule.{DiffersOnlyIn, IsUnreferenced};
ghost use Rattle.symbols_locality.specs.ClosedPart.{IsClosedPart};

use symbols_exports::laws::exports_are_listed;
use symbols_root::RootSymbol;

/// States that a query has the same answer in two graphs that agree on what it looks up in the
/// first, or has no answer in both. Nothing else is required of the second graph.
pub fn answers_are_local(root: &RootSymbol<'_>, other: &RootSymbol<'_>)
    ensures answers { (rules : Rules) (query : QueryView)
        → AreAlikeForQuery root.now.graph other.now.graph query
        → query_answer rules root.now.graph query ≡ query_answer rules other.now.graph query }
    ensures means { (rules : Rules) (query : QueryView) (one two : AnswerView)
        → AreAlikeForQuery root.now.graph other.now.graph query
        → IsAnswerToQuery rules root.now.graph query one
        → IsAnswerToQuery rules other.now.graph query two → one ≡ two }
{
    exports_are_listed(root);
    exports_are_listed(other);
}

/// States the same of two graphs that differ only in a module that the query doesn't look up.
pub fn unseen_module_changes_nothing(root: &RootSymbol<'_>, other: &RootSymbol<'_>)
    ensures answers { (rules : Rules) (query : QueryView) (changed : List ℕ)
        → DiffersOnlyIn root.now.graph other.now.graph changed
        → IsModuleNotLookedUpByQuery root.now.graph query changed
        → query_answer rules root.now.graph query ≡ query_answer rules other.now.graph query }
    ensures means { (rules : Rules) (query : QueryView) (changed : List ℕ) (one two : AnswerView)
        → DiffersOnlyIn root.now.graph other.now.graph changed
        → IsModuleNotLookedUpByQuery root.now.graph query changed
        → IsAnswerToQuery rules root.now.graph query one
        → IsAnswerToQuery rules other.now.graph query two → one ≡ two }
{
    answers_are_local(root, other);
}

/// States that two graphs differ only in a module if the second is the first with that module, and
/// the resolutions of that module, replaced or added.
pub fn replacing_changes_one_module()
    ensures { (graph : GraphView) (m : ModuleView) (resolved : List (List ℕ × List ℕ))
        → DiffersOnlyIn graph (graph_with_put_module graph m resolved) m.specifier }
{}

/// States that a query on another module doesn't look up a module that nothing in the graph refers
/// to.
pub fn unreferenced_module_is_unseen()
    ensures { (graph : GraphView) (query : QueryView) (specifier : List ℕ)
        → IsUnreferenced graph specifier
        → (specifier_after_redirect graph query.specifier ≡ specifier → ⊥)
        → IsModuleNotLookedUpByQuery graph query specifier }
{}

/// States that a graph and a closed part of it agree on what a query on a module of the part looks
/// up. So `answers_are_local` applies to them.
pub fn closed_part_is_alike()
    ensures { (graph part : GraphView) (is_inside : List ℕ → Bool) (query : QueryView)
        → IsClosedPart graph part is_inside → is_inside query.specifier ≡ true
        → AreAlikeForQuery graph part query }
{}
