//! Writes the inputs of a query as JSON.

ghost use Rattle.symbols_answers.specs.Inputs.{InputView};
ghost use Rattle.symbols_queries.specs.Queries.{found_view, input_view};
ghost use Rattle.symq_core.specs.Queries.{input_json};
ghost use Rattle.symq_core.specs.inner.JsonWriting.{AppendsTokensIfOk, found_member_tokens};

use crate::write_json::{WriteJson, add_text};
use json::Writer;
use std::alloc::AllocError;
use symbols_queries::{Found, QueryInput};

/// Writes what the graph has under a specifier as the member `found`. After it follows the member
/// `module` for a specifier that redirects to that module.
fn add_found(out: &mut Writer, found: &Found<'_>) -> Result<(), AllocError>
    ensures { AppendsTokensIfOk result out.old out.new
        (found_member_tokens (found_view found.now)) }
{
    match found {
        Found::Module => add_text(out, "found", "module"),
        Found::Redirect(specifier) => {
            add_text(out, "found", "redirect")?;
            add_text(out, "module", specifier)
        }
        Found::Absent => add_text(out, "found", "absent"),
    }
}

/// Writes an input: what the graph has under the specifier, and the specifier.
impl WriteJson for QueryInput<'_> {
    ghost View = { InputView };

    ghost view = { input_view };

    ghost value = { input_json };

    fn write_json(&self, out: &mut Writer) -> Result<(), AllocError> {
        out.begin_object()?;
        add_found(out, &self.found)?;
        add_text(out, "specifier", self.specifier.as_str())?;
        out.end_object()
    }
}
