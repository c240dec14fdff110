//! Finds redirects whose targets are redirected.

ghost use Rattle.std.specs.Prelude.{IfOk, map};
ghost use Rattle.std.specs.Option.{option_copied};
ghost use Rattle.symbols_ast.specs.Graph.{redirect_view};
ghost use Rattle.symbols_graph.specs.GraphFaults.{IsRedirectToRedirect};
ghost use Rattle.symbols_graph.specs.inner.CheckSteps.{IsFirstWhere};

use std::alloc::{AllocError, Global};
use std::collections::HashSet;
use std::hash::RandomState;

/// Returns the source of the first redirect whose target is itself redirected, if any.
pub(crate) fn redirect_to_redirect(
    alloc: Global,
    keys: RandomState,
    redirects: &[(String, String)],
) -> Result<Option<&str>, AllocError>
    ensures { IfOk result (λ found. IsFirstWhere
        (IsRedirectToRedirect (map redirect_view redirects.now)) (option_copied found)) }
{
    let mut starts: HashSet<&str, RandomState> = HashSet::with_hasher(alloc, keys);
    for (source, _) in redirects {
        starts.insert(source.as_str())?;
    }
    for (source, target) in redirects {
        if starts.contains(target.as_str()) {
            return Ok(Some(source.as_str()));
        }
    }
    Ok(None)
}
