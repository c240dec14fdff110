//! Writes the dependencies of a symbol as JSON.

ghost use Rattle.std.specs.Prelude.{◌≡◌, ℕ, List, map};
ghost use Rattle.std.specs.Cow.{cow_str_bytes};
ghost use Rattle.serde_json.specs.Data.{string};
ghost use Rattle.symbols_ast.specs.Ids.{id_view};
ghost use Rattle.symbols_nodes.specs.References.{NamespacedReference, id as by_id, qualified_id};
ghost use Rattle.symbols_nodes.specs.References.{import_type, reference_view, namespaced_reference_view};
ghost use Rattle.symbols_queries.specs.Queries.{deps_view};
ghost use Rattle.symq_core.specs.Queries.{reference_json, reference_namespace_str, namespaced_reference_json};
ghost use Rattle.symq_core.specs.Queries.{references_of_decl_json};
ghost use Rattle.symq_core.specs.inner.JsonWriting.{AppendsValueTokensIfOk};

use crate::write_json::{WriteJson, write_items};
use json::Writer;
use std::alloc::AllocError;
use std::borrow::CowStr;
use symbols_graph::tree::Id;
use symbols_nodes::deps::{ReferenceNamespace, SymbolNodeDep};

/// Writes a reference to a name with its scope.
fn write_id(out: &mut Writer, id: &Id) -> Result<(), AllocError>
    ensures { AppendsValueTokensIfOk result out.old out.new
        (reference_json (by_id (id_view id.now))) }
{
    out.begin_array()?;
    out.string("id")?;
    out.string(id.name.as_str())?;
    out.u64(u64::from(id.scope))?;
    out.end_array()
}

/// Writes a part of a qualified name.
impl WriteJson for CowStr<'_> {
    ghost View = { List ℕ };

    ghost view = { cow_str_bytes };

    ghost value = { string };

    fn write_json(&self, out: &mut Writer) -> Result<(), AllocError> {
        out.string(self.as_str())
    }
}

/// Writes a reference to a name with its scope and the parts after it.
fn write_qualified_id(out: &mut Writer, id: &Id, parts: &[CowStr<'_>]) -> Result<(), AllocError>
    ensures { AppendsValueTokensIfOk result out.old out.new
        (reference_json (qualified_id (id_view id.now) (map cow_str_bytes parts.now))) }
{
    out.begin_array()?;
    out.string("qualified")?;
    out.string(id.name.as_str())?;
    out.u64(u64::from(id.scope))?;
    write_items(out, parts)?;
    out.end_array()
}

/// Writes an import type: its specifier and the parts after it.
fn write_import_type(
    out: &mut Writer,
    specifier_text: &str,
    parts: &[CowStr<'_>],
) -> Result<(), AllocError>
    ensures { AppendsValueTokensIfOk result out.old out.new
        (reference_json (import_type specifier_text.now (map cow_str_bytes parts.now))) }
{
    out.begin_array()?;
    out.string("import")?;
    out.string(specifier_text)?;
    write_items(out, parts)?;
    out.end_array()
}

/// Writes a reference.
fn write_reference(out: &mut Writer, reference: &SymbolNodeDep<'_>) -> Result<(), AllocError>
    ensures { AppendsValueTokensIfOk result out.old out.new
        (reference_json (reference_view reference.now)) }
{
    match reference {
        SymbolNodeDep::Id(id) => write_id(out, id),
        SymbolNodeDep::QualifiedId(id, parts) => write_qualified_id(out, id, parts.as_slice()),
        SymbolNodeDep::ImportType(text, parts) => write_import_type(out, text, parts.as_slice()),
    }
}

/// Returns the keyword of a namespace.
fn reference_namespace_str(namespace: ReferenceNamespace) -> &'static str
    ensures { result.now ≡ reference_namespace_str namespace }
{
    match namespace {
        ReferenceNamespace::Value => "value",
        ReferenceNamespace::Type => "type",
        ReferenceNamespace::Both => "both",
    }
}

/// Writes a dependency: a reference and its namespace.
impl WriteJson for (SymbolNodeDep<'_>, ReferenceNamespace) {
    ghost View = { NamespacedReference };

    ghost view = { namespaced_reference_view };

    ghost value = { namespaced_reference_json };

    fn write_json(&self, out: &mut Writer) -> Result<(), AllocError> {
        let (reference, namespace) = self;
        out.begin_array()?;
        write_reference(out, reference)?;
        out.string(reference_namespace_str(*namespace))?;
        out.end_array()
    }
}

/// Writes the dependencies of a declaration.
impl WriteJson for Vec<(SymbolNodeDep<'_>, ReferenceNamespace)> {
    ghost View = { List NamespacedReference };

    ghost view = { deps_view };

    ghost value = { references_of_decl_json };

    fn write_json(&self, out: &mut Writer) -> Result<(), AllocError> {
        write_items(out, self.as_slice())
    }
}
