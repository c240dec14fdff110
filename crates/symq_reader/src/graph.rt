//! Reads modules and graphs from JSON values.

ghost use Rattle.std.specs.Prelude.{codes, map, option_and_then};
ghost use Rattle.serde_json.specs.Find.{as_str};
ghost use Rattle.symq_reader.specs.JsonData.{value_data};
ghost use Rattle.symq_reader.specs.inner.Reading.{IsReadResult};
ghost use Rattle.symq_reader.specs.UnderKeys.{list_under_key};
ghost use Rattle.symq_reader.specs.GraphText.{as_esm, module_kind_by_tag, raw_module_kind_view};
ghost use Rattle.symq_reader.specs.GraphText.{as_module};
ghost use Rattle.symq_reader.specs.GraphText.{raw_module_view, as_redirect, raw_redirect_view};
ghost use Rattle.symq_reader.specs.GraphText.{as_resolution};
ghost use Rattle.symq_reader.specs.GraphText.{raw_resolution_view, require_object, graph_of_json_fields};
ghost use Rattle.symq_reader.specs.GraphText.{raw_graph_view};

use crate::faults::FormatFault;
use crate::fields::{self, Object};
use crate::{lookup, nodes};
use json::Value;
use std::alloc::Global;
use symbols_ast::graph::{RawGraph, RawModule, RawModuleKind, RawResolution};

/// Returns the fields of an ECMAScript module.
fn esm(alloc: Global, value: &Value<'_>) -> Result<RawModuleKind, FormatFault>
    ensures { IsReadResult raw_module_kind_view result (as_esm (value_data value.now)) }
{
    let text = fields::text(alloc, &Object::Value(value), "text")?;
    let tree = nodes::optional_tree(alloc, value)?;
    let types = fields::optional_text(alloc, &Object::Value(value), "types")?;
    Ok(RawModuleKind::Esm { text, tree, types })
}

/// Returns the fields of a module whose `kind` is this keyword. It fails if the keyword or a field
/// is wrong, or if an allocation failed.
fn kind_by_tag(alloc: Global, kind: &str, value: &Value<'_>) -> Result<RawModuleKind, FormatFault>
    ensures { IsReadResult raw_module_kind_view result
        (module_kind_by_tag kind.now (value_data value.now)) }
{
    match kind {
        "esm" => esm(alloc, value),
        "json" => Ok(RawModuleKind::Json {
            text: fields::text(alloc, &Object::Value(value), "text")?,
        }),
        "external" => Ok(RawModuleKind::External),
        _ => Err(FormatFault::BadForm),
    }
}

/// Returns a module: its specifier, and the fields of its kind. Missing or malformed fields are a
/// fault.
pub(crate) fn module(alloc: Global, value: &Value<'_>) -> Result<RawModule, FormatFault>
    ensures { IsReadResult raw_module_view result (as_module (value_data value.now)) }
{
    let specifier = fields::text(alloc, &Object::Value(value), "specifier")?;
    let Some(kind) = lookup::field(value, "kind").and_then(lookup::as_text) else {
        return Err(FormatFault::BadForm);
    };
    let kind = kind_by_tag(alloc, kind, value)?;
    Ok(RawModule { specifier, kind })
}

fn modules(alloc: Global, value: &Value<'_>) -> Result<Vec<RawModule>, FormatFault>
    ensures { IsReadResult (λ v. map raw_module_view v.items) result
        (list_under_key as_module (codes "modules") (value_data value.now)) }
{
    let Some(items) = lookup::list(value, "modules")? else {
        return Ok(Vec::new(alloc));
    };
    let mut modules = Vec::with_capacity(alloc, items.len())?;
    for item in items {
        modules.push(module(alloc, item)?)?;
    }
    Ok(modules)
}

/// Returns a redirect: its source and its target.
fn redirect(alloc: Global, value: &Value<'_>) -> Result<(String, String), FormatFault>
    ensures { IsReadResult raw_redirect_view result (as_redirect (value_data value.now)) }
{
    let Some((from, to)) = lookup::pair(value) else {
        return Err(FormatFault::BadForm);
    };
    let (Some(from), Some(to)) = (lookup::as_text(from), lookup::as_text(to)) else {
        return Err(FormatFault::BadForm);
    };
    let from = String::from_str(alloc, from)?;
    let to = String::from_str(alloc, to)?;
    Ok((from, to))
}

fn redirects(alloc: Global, value: &Value<'_>) -> Result<Vec<(String, String)>, FormatFault>
    ensures { IsReadResult (λ v. map raw_redirect_view v.items) result
        (list_under_key as_redirect (codes "redirects") (value_data value.now)) }
{
    let Some(items) = lookup::list(value, "redirects")? else {
        return Ok(Vec::new(alloc));
    };
    let mut redirects = Vec::with_capacity(alloc, items.len())?;
    for item in items {
        redirects.push(redirect(alloc, item)?)?;
    }
    Ok(redirects)
}

/// Returns a resolution: what a specifier in a module resolves to.
fn resolution(alloc: Global, value: &Value<'_>) -> Result<RawResolution, FormatFault>
    ensures { IsReadResult raw_resolution_view result (as_resolution (value_data value.now)) }
{
    let Some((referrer, specifier_text, to)) = lookup::triple(value) else {
        return Err(FormatFault::BadForm);
    };
    let (Some(referrer), Some(specifier_text), Some(to)) = (
        lookup::as_text(referrer),
        lookup::as_text(specifier_text),
        lookup::as_text(to),
    ) else {
        return Err(FormatFault::BadForm);
    };
    Ok(RawResolution {
        referrer: String::from_str(alloc, referrer)?,
        specifier_text: String::from_str(alloc, specifier_text)?,
        specifier: String::from_str(alloc, to)?,
    })
}

fn resolutions(alloc: Global, value: &Value<'_>) -> Result<Vec<RawResolution>, FormatFault>
    ensures { IsReadResult (λ v. map raw_resolution_view v.items) result
        (list_under_key as_resolution (codes "resolutions") (value_data value.now)) }
{
    let Some(items) = lookup::list(value, "resolutions")? else {
        return Ok(Vec::new(alloc));
    };
    let mut resolutions = Vec::with_capacity(alloc, items.len())?;
    for item in items {
        resolutions.push(resolution(alloc, item)?)?;
    }
    Ok(resolutions)
}

/// Returns the graph that a JSON value describes. Each number in the value has to be whole.
pub(crate) fn graph(alloc: Global, value: &Value<'_>) -> Result<RawGraph, FormatFault>
    ensures { IsReadResult raw_graph_view result
        (require_object graph_of_json_fields (value_data value.now)) }
{
    if !matches!(value, Value::Object(_)) {
        return Err(FormatFault::BadForm);
    }
    Ok(RawGraph {
        modules: modules(alloc, value)?,
        redirects: redirects(alloc, value)?,
        resolutions: resolutions(alloc, value)?,
    })
}
