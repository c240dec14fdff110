//! Answers a query line as JSON.

ghost use Rattle.std.specs.Prelude.{◌≡◌, ◌++◌, IfOk};
ghost use Rattle.std.specs.Option.{option_and_then};
ghost use Rattle.symbols_root.specs.Growing.{HasGrown};
ghost use Rattle.symbols_root.specs.Roots.{widest_limits};
ghost use Rattle.symbols_answers.specs.Answers.{query_answer};
ghost use Rattle.symbols_answers.specs.Questions.{inputs_query};
ghost use Rattle.symbols_queries.specs.Queries.{query_view};
ghost use Rattle.symq_reader.specs.GraphText.{json_of_bytes};
ghost use Rattle.symq_reader.specs.JsonData.{value_data};
ghost use Rattle.symq_core.specs.Queries.{query_of_json, inputs_query_of_data, answer_or_fault_json};
ghost use Rattle.symq_core.specs.Queries.{query_result_json};
ghost use Rattle.symq_core.specs.AnswerTexts.{answer_text};
ghost use Rattle.symq_core.specs.inner.JsonWriting.{AppendsValueTokensIfOk};

use crate::fast_path::fast_path_query;
use crate::query::{keyword_specifier_and_items, query_by_keyword, read_queried, write_answer};
use crate::write_json::{write_list, write_text};
use json::{Scratch, Value, Writer};
use std::alloc::{AllocError, Global};
use symbols_graph::tree::Id;
use symbols_queries::{AnswerQueries, Query};
use symbols_root::RootSymbol;
use symbols_table::info::SymbolsFault;
use symq_reader::read_value;

/// Writes the answer to a query. The limits of the root are so wide that no checked graph exceeds
/// them. It writes a fault if the module has no such symbol.
fn write_query_answer(
    out: &mut Writer,
    root: &mut RootSymbol<'_>,
    query: &Query<'_>,
) -> Result<(), AllocError>
    requires { root.old.limits ≡ widest_limits }
    ensures grown { HasGrown root.old root.new }
    ensures value { AppendsValueTokensIfOk result out.old out.new
        (answer_or_fault_json (query_answer root.old.rules root.old.graph (query_view query.now))) }
{
    match root.answer(query) {
        Ok(answer) => write_answer(out, &answer),
        Err(SymbolsFault::UnknownSymbol) => write_text(out, "fault", "unknown symbol"),
        Err(SymbolsFault::OutOfMemory) => Err(AllocError),
        Err(_) => unreachable!(),
    }
}

/// Writes the inputs of a query. The limits of the root are so wide that no checked graph exceeds
/// them.
fn write_query_inputs(
    out: &mut Writer,
    root: &mut RootSymbol<'_>,
    query: &Query<'_>,
) -> Result<(), AllocError>
    requires { root.old.limits ≡ widest_limits }
    ensures grown { HasGrown root.old root.new }
    ensures value { AppendsValueTokensIfOk result out.old out.new
        (answer_or_fault_json (query_answer root.old.rules root.old.graph
        (inputs_query (query_view query.now)))) }
{
    match root.inputs(query) {
        Ok(inputs) => write_list(out, "inputs", &inputs),
        // by these limits a query for inputs has no other fault
        Err(_) => Err(AllocError),
    }
}

/// Reads the query whose inputs a JSON value asks for and writes these. It writes the fault 'bad
/// query' if the value asks for none. The name of a queried reference is stored in `retained`.
fn write_value_inputs<'r>(
    alloc: Global,
    out: &mut Writer,
    root: &mut RootSymbol<'_>,
    value: &Value<'r>,
    retained: &'r mut Option<Id>,
) -> Result<(), AllocError>
    requires { root.old.limits ≡ widest_limits }
    ensures grown { HasGrown root.old root.new }
    ensures value { AppendsValueTokensIfOk result out.old out.new (query_result_json root.old.rules
        root.old.graph (inputs_query_of_data (value_data value.now))) }
{
    match read_queried(alloc, value, retained)? {
        Some(query) => write_query_inputs(out, root, &query),
        None => write_text(out, "fault", "bad query"),
    }
}

/// Reads a query from a JSON value and writes its answer, or the inputs that it asks for. It writes
/// the fault 'bad query' if the value is no query. The name of a queried reference is stored in
/// `retained`.
fn write_value_answer<'r>(
    alloc: Global,
    out: &mut Writer,
    root: &mut RootSymbol<'_>,
    value: &Value<'r>,
    retained: &'r mut Option<Id>,
) -> Result<(), AllocError>
    requires { root.old.limits ≡ widest_limits }
    ensures grown { HasGrown root.old root.new }
    ensures value { AppendsValueTokensIfOk result out.old out.new
        (query_result_json root.old.rules root.old.graph (query_of_json (value_data value.now))) }
{
    match keyword_specifier_and_items(value) {
        Some((keyword, specifier, items)) => {
            match query_by_keyword(alloc, keyword, specifier, items, retained)? {
                Some(query) => write_query_answer(out, root, &query),
                None => write_text(out, "fault", "bad query"),
            }
        }
        None => write_value_inputs(alloc, out, root, value, retained),
    }
}

/// Writes the answer to a line by parsing it into a JSON value. It writes the fault 'bad query' if
/// the line is no JSON or no query.
fn write_parsed_line_answer(
    alloc: Global,
    scratch: &mut Scratch,
    out: &mut Writer,
    root: &mut RootSymbol<'_>,
    line: &[u8],
) -> Result<(), AllocError>
    requires { root.old.limits ≡ widest_limits }
    ensures grown { HasGrown root.old root.new }
    ensures value { AppendsValueTokensIfOk result out.old out.new (query_result_json root.old.rules
        root.old.graph (option_and_then query_of_json (json_of_bytes line.now))) }
{
    let mut retained = None;
    let value = read_value(alloc, line, scratch)?;
    match &value {
        Some(value) => write_value_answer(alloc, out, root, value, &mut retained),
        None => write_text(out, "fault", "bad query"),
    }
}

/// Writes the answer to a line. It parses a JSON value only if the line isn't on the fast path.
fn write_line_answer(
    alloc: Global,
    scratch: &mut Scratch,
    out: &mut Writer,
    root: &mut RootSymbol<'_>,
    line: &[u8],
) -> Result<(), AllocError>
    requires { root.old.limits ≡ widest_limits }
    ensures grown { HasGrown root.old root.new }
    ensures value { AppendsValueTokensIfOk result out.old out.new (query_result_json root.old.rules
        root.old.graph (option_and_then query_of_json (json_of_bytes line.now))) }
{
    match fast_path_query(alloc, line)? {
        Some(fast) => write_query_answer(out, root, &fast),
        None => write_parsed_line_answer(alloc, scratch, out, root, line),
    }
}

/// Appends the answer to a line to the bytes, without a line end. It fails only if an allocation
/// failed.
pub(crate) fn answer(
    alloc: Global,
    scratch: &mut Scratch,
    root: &mut RootSymbol<'_>,
    line: &[u8],
    bytes: Vec<u8>,
) -> Result<Vec<u8>, AllocError>
    requires { root.old.limits ≡ widest_limits }
    ensures grown { HasGrown root.old root.new }
    ensures text { IfOk result
        (λ text. text.items ≡ bytes.items ++ answer_text root.old.rules root.old.graph line.now) }
{
    let mut out = Writer::new(bytes);
    write_line_answer(alloc, scratch, &mut out, root, line)?;
    Ok(out.into_inner())
}
