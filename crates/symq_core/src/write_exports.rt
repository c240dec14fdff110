//! Writes the exports of a module as JSON.

ghost use Rattle.std.specs.Prelude.{map, option_map, codes};
ghost use Rattle.serde_json.specs.Data.{member, no_members};
ghost use Rattle.symbols_exports.specs.ExportViews.{ExportView, StarStatementView};
ghost use Rattle.symbols_answers.specs.Answers.{answer_exports};
ghost use Rattle.symbols_queries.specs.Queries.{star_statement_by_specifier_view, export_view, shared_names_view};
ghost use Rattle.symq_core.specs.Queries.{star_statement_json, star_statements_json, export_json, members_with_shared};
ghost use Rattle.symq_core.specs.Queries.{answer_json};
ghost use Rattle.symq_core.specs.inner.JsonWriting.{AppendsValueTokensIfOk, AppendsTokensIfOk};
ghost use Rattle.symq_core.specs.inner.JsonWriting.{remaining_member_tokens};

use crate::write_json::{WriteJson, add_number, add_text, write_items};
use json::Writer;
use std::alloc::AllocError;
use symbols_queries::{ExportBySpecifier, ExportsBySpecifier, StarStatementBySpecifier};

/// Writes a statement `export *`: its referrer and its specifier.
impl WriteJson for StarStatementBySpecifier<'_> {
    ghost View = { StarStatementView };

    ghost view = { star_statement_by_specifier_view };

    ghost value = { star_statement_json };

    #[inline(always)]
    fn write_json(&self, out: &mut Writer) -> Result<(), AllocError> {
        out.begin_array()?;
        out.string(self.referrer)?;
        out.string(self.specifier)?;
        out.end_array()
    }
}

/// Writes an export: the chain of `export *` statements, the exporting module, the name, and its
/// symbol there.
impl WriteJson for ExportBySpecifier<'_> {
    ghost View = { ExportView };

    ghost view = { export_view };

    ghost value = { export_json };

    fn write_json(&self, out: &mut Writer) -> Result<(), AllocError> {
        out.begin_object()?;
        out.key("chain")?;
        write_items(out, &self.chain)?;
        add_text(out, "module", self.module)?;
        add_text(out, "name", self.name.as_str())?;
        add_number(out, "symbol", u64::from(self.symbol.number()))?;
        out.end_object()
    }
}

/// Writes the unresolved `export *` statements as the last member, and ends the object.
fn end_unresolved(
    out: &mut Writer,
    unresolved: &[StarStatementBySpecifier<'_>],
) -> Result<(), AllocError>
    ensures { AppendsTokensIfOk result out.old out.new
        (remaining_member_tokens (member (codes "unresolved")
        (star_statements_json (map star_statement_by_specifier_view unresolved.now)) no_members)) }
{
    out.key("unresolved")?;
    write_items(out, unresolved)?;
    out.end_object()
}

/// Writes what follows the exports and ends the object: by strict rules the shared names, then the
/// unresolved `export *` statements.
fn end_exports(out: &mut Writer, named: &ExportsBySpecifier<'_>) -> Result<(), AllocError>
    ensures { AppendsTokensIfOk result out.old out.new (remaining_member_tokens
        (members_with_shared (option_map shared_names_view named.now.shared)
        (member (codes "unresolved") (star_statements_json
        (map star_statement_by_specifier_view named.now.unresolved.items)) no_members))) }
{
    match &named.shared {
        None => end_unresolved(out, &named.unresolved),
        Some(shared) => {
            out.key("shared")?;
            write_items(out, shared)?;
            end_unresolved(out, &named.unresolved)
        }
    }
}

/// Writes the exports of a module as an object.
pub(crate) fn write_exports(
    out: &mut Writer,
    named: &ExportsBySpecifier<'_>,
) -> Result<(), AllocError>
    ensures { AppendsValueTokensIfOk result out.old out.new
        (answer_json (answer_exports (map export_view named.now.exports.items)
        (option_map shared_names_view named.now.shared)
        (map star_statement_by_specifier_view named.now.unresolved.items))) }
{
    out.begin_object()?;
    out.key("exports")?;
    write_items(out, &named.exports)?;
    end_exports(out, named)
}
