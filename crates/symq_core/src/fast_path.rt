//! The fast path: reads a query from a line without a JSON value.
//!
//! If it returns a query, the line's JSON value is that query. It returns `None` for any other
//! line, which is then parsed as JSON.

ghost use Rattle.std.specs.Prelude.{◌≡◌, Some, IfSome, IfOk};
ghost use Rattle.std.specs.Option.{option_and_then};
ghost use Rattle.symbols_queries.specs.Queries.{query_view};
ghost use Rattle.symq_reader.specs.GraphText.{json_of_bytes};
ghost use Rattle.symq_core.specs.Queries.{query_of_json};

use crate::query::query_of_tail;
use std::alloc::{AllocError, Global};
use symbols_queries::Query;
use symq_reader::read_query_list;

/// Returns the query of a line on the fast path. `None` doesn't mean that the line is no query.
pub(crate) fn fast_path_query<'r>(
    alloc: Global,
    line: &'r [u8],
) -> Result<Option<Query<'r>>, AllocError>
    ensures { IfOk result (λ found. IfSome found (λ query.
        option_and_then query_of_json (json_of_bytes line.now) ≡ Some (query_view query))) }
{
    match read_query_list(line) {
        Some(list) => query_of_tail(alloc, list.first, list.second, list.tail),
        None => Ok(None),
    }
}
