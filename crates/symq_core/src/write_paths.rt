//! Writes definition paths as JSON.

ghost use Rattle.std.specs.Prelude.{◌≡◌, ℕ, List, map, string_bytes};
ghost use Rattle.symbols_paths.specs.DepAnswers.{DepEntryView};
ghost use Rattle.symbols_paths.specs.PathTrees.{DefinitionView, PathLeaf};
ghost use Rattle.symbols_paths.specs.Views.{star_import_view, reason_view};
ghost use Rattle.symbols_answers.specs.Answers.{answer_paths};
ghost use Rattle.symbols_queries.specs.Queries.{decl_with_specifier, definition_by_specifier_view};
ghost use Rattle.symbols_queries.specs.Queries.{unresolved_by_specifier_view, path_tree_view, path_forest_view};
ghost use Rattle.symbols_queries.specs.Queries.{path_end_view, dep_entry_view};
ghost use Rattle.symbols_queries.specs.inner.AnswerViews.{path_link_view};
ghost use Rattle.symq_core.specs.Queries.{answer_json};
ghost use Rattle.symq_core.specs.PathData.{decl_symbol_and_index_json, definition_json, unresolved_reason_str};
ghost use Rattle.symq_core.specs.PathData.{unresolved_name_or_specifier, optional_scope_member};
ghost use Rattle.symq_core.specs.PathData.{unresolved_json, leaf_json, link_members_after_next};
ghost use Rattle.symq_core.specs.PathData.{path_tree_json, path_forest_json_items, dep_entry_json};
ghost use Rattle.symq_core.specs.inner.JsonWriting.{AppendsTokensIfOk, AppendsValueTokensIfOk};
ghost use Rattle.symq_core.specs.inner.JsonWriting.{remaining_member_tokens};
ghost use Rattle.symq_core.specs.inner.JsonWriting.{remaining_item_tokens, star_member_tokens};
ghost use Rattle.symq_core.specs.inner.JsonWriting.{link_tokens_up_to_next};

use crate::write_json::{WriteJson, add_number, add_text, write_items, write_text};
use json::Writer;
use std::alloc::AllocError;
use symbols_graph::ids::SymbolId;
use symbols_paths::{DeclRef, DefinitionKind, DefinitionUnresolvedKind};
use symbols_queries::{
    DefinitionBySpecifier, DepEntryBySpecifier, PathBySpecifier, PathEndBySpecifier,
    PathLinkBySpecifier, UnresolvedBySpecifier,
};

/// Writes a declaration: the number of its symbol, and its index among the declarations of the
/// symbol.
fn write_decl(out: &mut Writer, decl: DeclRef) -> Result<(), AllocError>
    ensures { (specifier : List ℕ)
        → AppendsValueTokensIfOk result out.old out.new
        (decl_symbol_and_index_json (decl_with_specifier specifier decl)) }
{
    out.begin_array()?;
    out.u64(u64::from(decl.symbol.number()))?;
    out.u64(u64::from(decl.index))?;
    out.end_array()
}

/// Writes the specifier of a star import as the member `star`. It writes nothing for a definition.
fn add_star(out: &mut Writer, kind: &DefinitionKind<'_>) -> Result<(), AllocError>
    ensures { AppendsTokensIfOk result out.old out.new
        (star_member_tokens (star_import_view kind.now)) }
{
    match kind {
        DefinitionKind::ExportStar(dep) => add_text(out, "star", dep.specifier),
        DefinitionKind::Definition => Ok(()),
    }
}

/// Writes a definition or a star import.
fn write_definition(
    out: &mut Writer,
    definition: &DefinitionBySpecifier<'_>,
) -> Result<(), AllocError>
    ensures { AppendsValueTokensIfOk result out.old out.new
        (definition_json (definition_by_specifier_view definition.now)) }
{
    out.begin_object()?;
    out.key("decl")?;
    write_decl(out, definition.decl)?;
    add_number(out, "end", definition.range.end as u64)?;
    add_text(out, "module", definition.module)?;
    add_star(out, &definition.kind)?;
    add_number(out, "start", definition.range.start as u64)?;
    add_number(out, "symbol", u64::from(definition.decl.symbol.number()))?;
    out.end_object()
}

/// Returns the keyword of the reason why a path is unresolved.
fn unresolved_reason_str(kind: &DefinitionUnresolvedKind) -> &'static str
    ensures { result.now ≡ unresolved_reason_str (reason_view kind.now) }
{
    match kind {
        DefinitionUnresolvedKind::Id(_) => "id",
        DefinitionUnresolvedKind::Specifier(_) => "specifier",
        DefinitionUnresolvedKind::Part(_) => "part",
    }
}

/// Returns the name or specifier that isn't found.
fn unresolved_name_or_specifier(kind: &DefinitionUnresolvedKind) -> &str
    ensures { result.now ≡ unresolved_name_or_specifier (reason_view kind.now) }
{
    match kind {
        DefinitionUnresolvedKind::Id(id) => id.name.as_str(),
        DefinitionUnresolvedKind::Specifier(text) => text.as_str(),
        DefinitionUnresolvedKind::Part(name) => name.as_str(),
    }
}

/// Writes the scope if a name isn't found, and ends the object.
fn end_unresolved(out: &mut Writer, kind: &DefinitionUnresolvedKind) -> Result<(), AllocError>
    ensures { AppendsTokensIfOk result out.old out.new
        (remaining_member_tokens (optional_scope_member (reason_view kind.now))) }
{
    if let DefinitionUnresolvedKind::Id(id) = kind {
        add_number(out, "scope", u64::from(id.scope))?;
        return out.end_object();
    }
    out.end_object()
}

/// Writes an unresolved end of a path.
fn write_unresolved(
    out: &mut Writer,
    unresolved: &UnresolvedBySpecifier<'_>,
) -> Result<(), AllocError>
    ensures { AppendsValueTokensIfOk result out.old out.new
        (unresolved_json (unresolved_by_specifier_view unresolved.now)) }
{
    out.begin_object()?;
    add_text(out, "kind", unresolved_reason_str(&unresolved.kind))?;
    add_text(out, "module", unresolved.module)?;
    add_text(out, "name", unresolved_name_or_specifier(&unresolved.kind))?;
    out.key("parts")?;
    write_items(out, unresolved.parts.as_slice())?;
    end_unresolved(out, &unresolved.kind)
}

/// Writes a path.
fn write_path(out: &mut Writer, path: &PathBySpecifier<'_>) -> Result<(), AllocError>
    ensures { AppendsValueTokensIfOk result out.old out.new
        (path_tree_json (path_tree_view path.now)) }
{
    match path {
        PathBySpecifier::Link(link) => write_link(out, link),
        PathBySpecifier::Definition(definition) => write_definition(out, definition),
        PathBySpecifier::Unresolved(unresolved) => write_unresolved(out, unresolved),
    }
}

/// A link whose next paths are being written, and those of them that are still to be written.
#[derive(Drop)]
struct OpenLink<'p, 'a> {
    link: &'p PathLinkBySpecifier<'a>,
    rest: &'p [PathBySpecifier<'a>],
}

/// Writes a link with the paths after it. The innermost of the open links is the last of `links`.
fn write_link<'p, 'a>(out: &mut Writer, link: &'p PathLinkBySpecifier<'a>) -> Result<(), AllocError>
    ensures { AppendsValueTokensIfOk result out.old out.new
        (path_tree_json (path_link_view link.now)) }
{
    let mut links: Vec<OpenLink<'p, 'a>> = Vec::new(*link.next.allocator());
    begin_link(out, link.module, link.decl)?;
    links.push(OpenLink {
        link,
        rest: link.next.as_slice(),
    })?;
    while let Some(innermost) = links.pop() {
        let Some((path, rest)) = innermost.rest.split_first() else {
            out.end_array()?;
            end_link(out, innermost.link.parts.as_slice(), innermost.link.symbol)?;
            continue;
        };
        links.push(OpenLink {
            link: innermost.link,
            rest,
        })?;
        match path {
            PathBySpecifier::Definition(definition) => write_definition(out, definition)?,
            PathBySpecifier::Unresolved(unresolved) => write_unresolved(out, unresolved)?,
            PathBySpecifier::Link(next) => {
                begin_link(out, next.module, next.decl)?;
                links.push(OpenLink {
                    link: next,
                    rest: next.next.as_slice(),
                })?;
            }
        }
    }
    Ok(())
}

/// Writes paths as the items of an open array, and ends the array.
fn end_paths(out: &mut Writer, paths: &Vec<PathBySpecifier<'_>>) -> Result<(), AllocError>
    ensures { AppendsTokensIfOk result out.old out.new
        (remaining_item_tokens (path_forest_json_items (path_forest_view paths.now.items))) }
{
    for path in paths {
        write_path(out, path)?;
    }
    out.end_array()
}

/// Writes the front of a link, up to its member `next`, whose array is left open.
fn begin_link(out: &mut Writer, specifier: &str, decl: DeclRef) -> Result<(), AllocError>
    ensures { AppendsTokensIfOk result out.old out.new
        (link_tokens_up_to_next specifier.now (decl_with_specifier specifier.now decl)) }
{
    out.begin_object()?;
    out.key("decl")?;
    write_decl(out, decl)?;
    add_text(out, "module", specifier)?;
    out.key("next")?;
    out.begin_array()
}

/// Writes the members of a link after its member `next`, and ends the object.
fn end_link(out: &mut Writer, parts: &[String], symbol: SymbolId) -> Result<(), AllocError>
    ensures { AppendsTokensIfOk result out.old out.new
        (remaining_member_tokens (link_members_after_next (map string_bytes parts.now) symbol)) }
{
    out.key("parts")?;
    write_items(out, parts)?;
    add_number(out, "symbol", u64::from(symbol.number()))?;
    out.end_object()
}

/// Writes the definition paths of a symbol.
pub(crate) fn write_paths(
    out: &mut Writer,
    paths: &Vec<PathBySpecifier<'_>>,
) -> Result<(), AllocError>
    ensures { AppendsValueTokensIfOk result out.old out.new
        (answer_json (answer_paths (path_forest_view paths.now.items))) }
{
    out.begin_object()?;
    out.key("paths")?;
    out.begin_array()?;
    end_paths(out, paths)?;
    out.end_object()
}

impl WriteJson for DefinitionBySpecifier<'_> {
    ghost View = { DefinitionView };

    ghost view = { definition_by_specifier_view };

    ghost value = { definition_json };

    fn write_json(&self, out: &mut Writer) -> Result<(), AllocError> {
        write_definition(out, self)
    }
}

/// Writes the end of a path: a definition, or what is unresolved.
impl WriteJson for PathEndBySpecifier<'_> {
    ghost View = { PathLeaf };

    ghost view = { path_end_view };

    ghost value = { leaf_json };

    fn write_json(&self, out: &mut Writer) -> Result<(), AllocError> {
        match self {
            PathEndBySpecifier::Definition(definition) => write_definition(out, definition),
            PathEndBySpecifier::Unresolved(unresolved) => write_unresolved(out, unresolved),
        }
    }
}

/// Writes an entry of a resolved reference: a path, or the module of an import type.
impl WriteJson for DepEntryBySpecifier<'_> {
    ghost View = { DepEntryView };

    ghost view = { dep_entry_view };

    ghost value = { dep_entry_json };

    fn write_json(&self, out: &mut Writer) -> Result<(), AllocError> {
        match self {
            DepEntryBySpecifier::Path(path) => write_path(out, path),
            DepEntryBySpecifier::ImportType(specifier) => write_text(out, "import_type", specifier),
        }
    }
}
