//! Laws of the definitions. The functions here do nothing: a law is the contract of a function.

ghost use Rattle.std.specs.Prelude.{◌≡◌, ℕ, List};
ghost use Rattle.symbols_graph.specs.PutModules.{IsSameGraph};
ghost use Rattle.symbols_root.specs.declared.rules.Rules.{Rules};
ghost use Rattle.symq_core.specs.AnswerTexts.{answer_text};

use symbols_locality::answers_are_local;
use symbols_root::RootSymbol;

/// States that a line has the same answer over two graphs with the same modules, redirects and
/// resolved specifier texts. So a session after `symq_put` answers as one opened anew.
pub fn same_graphs_answer_alike(root: &RootSymbol<'_>, other: &RootSymbol<'_>)
    ensures { (rules : Rules) (line : List ℕ) → IsSameGraph root.now.graph other.now.graph
        → answer_text rules root.now.graph line ≡ answer_text rules other.now.graph line }
{
    answers_are_local(root, other);
}
