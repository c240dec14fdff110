//! The forms of queries: reads each from a JSON value or from what the fast path found, and writes
//! its answer.

ghost use Rattle.std.specs.Prelude.{◌≡◌, option_map, string_bytes, IfOk};
ghost use Rattle.std.specs.Option.{option_and_then};
ghost use Rattle.serde_json.specs.Data.{unsigned, number, string, no_items, item};
ghost use Rattle.symbols_answers.specs.Answers.{answer_symbol, answer_name};
ghost use Rattle.symbols_answers.specs.Questions.{inputs_query};
ghost use Rattle.symbols_queries.specs.Queries.{query_with_question, query_view, answer_view};
ghost use Rattle.symq_reader.specs.JsonData.{value_data, items_data};
ghost use Rattle.symq_reader.specs.QueryLists.{items_after_two_strings};
ghost use Rattle.symq_core.specs.Queries.{keyword_specifier_and_items, query_by_keyword, value_after_inputs};
ghost use Rattle.symq_core.specs.Queries.{inputs_query_of_data, read_resolve_question};
ghost use Rattle.symq_core.specs.Queries.{deps_mode_by_keyword, question_by_keyword, answer_json};
ghost use Rattle.symq_core.specs.inner.JsonWriting.{AppendsValueTokensIfOk};
ghost use Rattle.symq_core.specs.inner.TailItems.{tail_items};

use crate::references::read_reference;
use crate::write_exports::write_exports;
use crate::write_json::{write_list, write_null, write_number, write_text};
use crate::write_paths::write_paths;
use json::{Value, Writer};
use std::alloc::{AllocError, Global};
use symbols_graph::ids::SymbolId;
use symbols_graph::tree::Id;
use symbols_nodes::deps::ResolveDepsMode;
use symbols_queries::{Answer, Query};
use symq_reader::{ListTail, as_list, as_text, as_u32};

/// Returns the keyword, the specifier and the items after them; `None` if the value isn't such a
/// list.
#[tactic(auto, using(crate::proofs::Forms::two_short))]
pub(crate) fn keyword_specifier_and_items<'v, 'a>(
    value: &'v Value<'a>,
) -> Option<(&'a str, &'a str, &'v [Value<'a>])>
    ensures { option_map (λ parts. (parts.0.now, parts.1.now, items_data parts.2.now)) result
        ≡ keyword_specifier_and_items (value_data value.now) }
{
    match as_list(value)? {
        [keyword, specifier, rest @ ..] => Some((as_text(keyword)?, as_text(specifier)?, rest)),
        _ => None,
    }
}

/// Returns the query `resolve`; `None` if the items aren't one reference. The name of the reference
/// is stored in `retained`.
#[tactic(auto, using(crate::proofs::Forms::resolve_short, crate::proofs::Forms::resolve_long))]
fn resolve_query<'r>(
    alloc: Global,
    specifier: &'r str,
    items: &[Value<'r>],
    retained: &'r mut Option<Id>,
) -> Result<Option<Query<'r>>, AllocError>
    ensures { IfOk result (λ query. option_map query_view query
        ≡ option_map (query_with_question specifier.now)
        (read_resolve_question (items_data items.now))) }
{
    let [reference] = items else {
        return Ok(None);
    };
    match read_reference(alloc, reference, retained)? {
        Some(reference) => Ok(Some(Query::Resolve(specifier, reference))),
        None => Ok(None),
    }
}

/// Returns the mode of a keyword: `types` or `all`.
fn deps_mode_by_keyword(keyword: &str) -> Option<ResolveDepsMode>
    ensures { result ≡ deps_mode_by_keyword keyword.now }
{
    match keyword {
        "types" => Some(ResolveDepsMode::TypesOnly),
        "all" => Some(ResolveDepsMode::TypesAndExpressions),
        _ => None,
    }
}

/// Returns the query of a keyword with a specifier alone; `None` if no such query has this keyword.
fn query_of_module<'r>(keyword: &str, specifier: &'r str) -> Option<Query<'r>>
    ensures { option_map query_view result ≡ option_map
        (query_with_question specifier.now) (question_by_keyword keyword.now no_items) }
{
    match keyword {
        "module" => Some(Query::Module(specifier)),
        "exports" => Some(Query::Exports(specifier)),
        "names" => Some(Query::Names(specifier)),
        _ => None,
    }
}

/// Returns the query of a keyword with a specifier and a symbol; `None` if no such query has this
/// keyword.
fn query_of_symbol<'r>(keyword: &str, specifier: &'r str, symbol: SymbolId) -> Option<Query<'r>>
    ensures { option_map query_view result ≡ option_map (query_with_question specifier.now)
        (question_by_keyword
        keyword.now (item (number (unsigned symbol.0)) no_items)) }
{
    match keyword {
        "name" => Some(Query::Name(specifier, symbol)),
        "paths" => Some(Query::Paths(specifier, symbol)),
        "definitions" => Some(Query::Definitions(specifier, symbol)),
        "leaves" => Some(Query::Leaves(specifier, symbol)),
        _ => None,
    }
}

/// Returns the query of a keyword with a specifier, a symbol and a mode; `None` if no such query
/// has this keyword or the mode is unknown.
fn query_of_mode<'r>(
    keyword: &str,
    specifier: &'r str,
    symbol: SymbolId,
    mode: &str,
) -> Option<Query<'r>>
    ensures { option_map query_view result ≡ option_map (query_with_question specifier.now)
        (question_by_keyword keyword.now
        (item (number (unsigned symbol.0)) (item (string mode.now) no_items))) }
{
    match keyword {
        "deps" => Some(Query::Deps(specifier, symbol, deps_mode_by_keyword(mode)?)),
        _ => None,
    }
}

/// Returns the query of a keyword with a specifier and a name of a scope; `None` if no such query
/// has this keyword.
fn query_of_id<'r>(
    alloc: Global,
    keyword: &str,
    specifier: &'r str,
    name: &str,
    scope: u32,
) -> Result<Option<Query<'r>>, AllocError>
    ensures { IfOk result (λ query. option_map query_view query
        ≡ option_map (query_with_question specifier.now) (question_by_keyword keyword.now
        (item (string name.now) (item (number (unsigned scope)) no_items)))) }
{
    match keyword {
        "symbol" => {
            let name = String::from_str(alloc, name)?;
            Ok(Some(Query::Symbol(specifier, Id { name, scope })))
        }
        _ => Ok(None),
    }
}

/// Returns the query of a keyword, a specifier and the items after them in the form of the fast
/// path; `None` if there is no such query.
pub(crate) fn query_of_tail<'r>(
    alloc: Global,
    keyword: &str,
    specifier: &'r str,
    tail: ListTail<'_>,
) -> Result<Option<Query<'r>>, AllocError>
    ensures { IfOk result (λ query. option_map query_view query
        ≡ option_map (query_with_question specifier.now)
        (question_by_keyword keyword.now (items_after_two_strings tail.entry))) }
{
    match tail {
        ListTail::Nothing => Ok(query_of_module(keyword, specifier)),
        ListTail::Number(n) => Ok(query_of_symbol(keyword, specifier, SymbolId::from_number(n))),
        ListTail::NumberAndText(n, mode) => {
            Ok(query_of_mode(keyword, specifier, SymbolId::from_number(n), mode))
        }
        ListTail::TextAndNumber(name, scope) => query_of_id(alloc, keyword, specifier, name, scope),
    }
}

/// Returns the items after a keyword and a specifier in the form of the fast path; `None` if they
/// don't have it.
#[tactic(auto, using(crate::proofs::Forms::tail_long))]
fn list_tail<'a>(items: &[Value<'a>]) -> Option<ListTail<'a>>
    ensures { option_map items_after_two_strings result ≡ tail_items (items_data items.now) }
{
    match items {
        [] => Some(ListTail::Nothing),
        [number] => Some(ListTail::Number(as_u32(number)?)),
        [first, second] => match as_u32(first) {
            Some(n) => Some(ListTail::NumberAndText(n, as_text(second)?)),
            None => Some(ListTail::TextAndNumber(as_text(first)?, as_u32(second)?)),
        },
        _ => None,
    }
}

/// Returns the query of a keyword, a specifier and the items after them; `None` if these don't have
/// the form of the fast path or there is no such query.
fn query_of_items<'r>(
    alloc: Global,
    keyword: &str,
    specifier: &'r str,
    items: &[Value<'_>],
) -> Result<Option<Query<'r>>, AllocError>
    ensures { IfOk result (λ query. option_map query_view query
        ≡ option_map (query_with_question specifier.now)
        (option_and_then (question_by_keyword keyword.now) (tail_items (items_data items.now)))) }
{
    match list_tail(items) {
        Some(tail) => query_of_tail(alloc, keyword, specifier, tail),
        None => Ok(None),
    }
}

/// Returns the query of a keyword, a specifier and the items after them; `None` if there is no such
/// query. The name of a queried reference is stored in `retained`.
pub(crate) fn query_by_keyword<'r>(
    alloc: Global,
    keyword: &str,
    specifier: &'r str,
    items: &[Value<'r>],
    retained: &'r mut Option<Id>,
) -> Result<Option<Query<'r>>, AllocError>
    ensures { IfOk result (λ query. option_map query_view query
        ≡ query_by_keyword (keyword.now, specifier.now, items_data items.now)) }
{
    match keyword {
        "resolve" => resolve_query(alloc, specifier, items, retained),
        _ => query_of_items(alloc, keyword, specifier, items),
    }
}

/// Returns the value after the keyword `inputs`; `None` if the value isn't a list of these two.
#[tactic(auto, using(crate::proofs::Forms::inputs_short, crate::proofs::Forms::inputs_long))]
fn value_after_inputs<'v, 'a>(value: &'v Value<'a>) -> Option<&'v Value<'a>>
    ensures { option_map (λ queried. value_data queried.now) result
        ≡ value_after_inputs (value_data value.now) }
{
    let [keyword, queried] = as_list(value)? else {
        return None;
    };
    match as_text(keyword)? {
        "inputs" => Some(queried),
        _ => None,
    }
}

/// Returns the query whose inputs a JSON value asks for; `None` if it asks for none. The name of a
/// queried reference is stored in `retained`.
pub(crate) fn read_queried<'r>(
    alloc: Global,
    value: &Value<'r>,
    retained: &'r mut Option<Id>,
) -> Result<Option<Query<'r>>, AllocError>
    ensures { IfOk result (λ query. option_map (λ queried. inputs_query (query_view queried)) query
        ≡ inputs_query_of_data (value_data value.now)) }
{
    let Some(queried) = value_after_inputs(value) else {
        return Ok(None);
    };
    match keyword_specifier_and_items(queried) {
        Some((keyword, specifier, items)) => {
            query_by_keyword(alloc, keyword, specifier, items, retained)
        }
        None => Ok(None),
    }
}

/// Writes the symbol that a name refers to, or null.
fn write_symbol(out: &mut Writer, symbol: Option<SymbolId>) -> Result<(), AllocError>
    ensures { AppendsValueTokensIfOk result out.old out.new (answer_json (answer_symbol symbol)) }
{
    match symbol {
        Some(symbol) => write_number(out, "symbol", u64::from(symbol.number())),
        None => write_null(out, "symbol"),
    }
}

/// Writes the fully qualified name of a symbol, or null.
fn write_name(out: &mut Writer, name: &Option<String>) -> Result<(), AllocError>
    ensures { AppendsValueTokensIfOk result out.old out.new
        (answer_json (answer_name (option_map string_bytes name.now))) }
{
    match name {
        Some(name) => write_text(out, "name", name.as_str()),
        None => write_null(out, "name"),
    }
}

/// Writes an answer as JSON; null if the specifier resolves to no module.
pub(crate) fn write_answer(out: &mut Writer, answer: &Answer<'_>) -> Result<(), AllocError>
    ensures { AppendsValueTokensIfOk result out.old out.new (answer_json (answer_view answer.now)) }
{
    match answer {
        Answer::NoModule => out.null(),
        Answer::Module(specifier) => write_text(out, "module", specifier),
        Answer::Exports(named) => write_exports(out, named),
        Answer::Names(names) => write_list(out, "names", names),
        Answer::Symbol(symbol) => write_symbol(out, *symbol),
        Answer::Name(name) => write_name(out, name),
        Answer::Deps(deps) => write_list(out, "deps", deps),
        Answer::Paths(paths) => write_paths(out, paths),
        Answer::Definitions(definitions) => write_list(out, "definitions", definitions),
        Answer::Leaves(ends) => write_list(out, "leaves", ends),
        Answer::Resolve(entries) => write_list(out, "entries", entries),
    }
}
