//! Reads references from JSON values. Parts and specifiers are borrowed from the line. A name with
//! its scope is stored in `retained`, which the caller provides.

ghost use Rattle.std.specs.Prelude.{◌≡◌, map, option_map, IfOk};
ghost use Rattle.std.specs.Cow.{cow_str_bytes};
ghost use Rattle.std.specs.Option.{option_and_then};
ghost use Rattle.serde_json.specs.Find.{as_array, as_str};
ghost use Rattle.symbols_ast.specs.Ids.{id_view};
ghost use Rattle.symbols_nodes.specs.References.{reference_view};
ghost use Rattle.symq_reader.specs.JsonData.{value_data, items_data};
ghost use Rattle.symq_reader.specs.UnderKeys.{read_each_item};
ghost use Rattle.symq_core.specs.ReferenceForms.{read_id, read_string_list, read_id_reference};
ghost use Rattle.symq_core.specs.ReferenceForms.{read_qualified_reference};
ghost use Rattle.symq_core.specs.ReferenceForms.{read_import_reference, keyword_and_items};
ghost use Rattle.symq_core.specs.ReferenceForms.{reference_of_json};

use json::Value;
use std::alloc::{AllocError, Global};
use std::borrow::CowStr;
use symbols_graph::tree::Id;
use symbols_nodes::deps::SymbolNodeDep;
use symq_reader::{as_list, as_text, as_u32};

/// Returns a name with its scope; `None` if the values aren't a string and a number of 32 bits.
fn read_id(alloc: Global, name: &Value<'_>, scope: &Value<'_>) -> Result<Option<Id>, AllocError>
    ensures { IfOk result
        (λ id. option_map id_view id ≡ read_id (value_data name.now) (value_data scope.now)) }
{
    let (Some(name), Some(scope)) = (as_text(name), as_u32(scope)) else {
        return Ok(None);
    };
    let name = String::from_str(alloc, name)?;
    Ok(Some(Id { name, scope }))
}

/// Returns the strings of a list; `None` if an item isn't a string.
fn read_texts<'r>(alloc: Global, items: &[Value<'r>]) -> Result<Option<Vec<CowStr<'r>>>, AllocError>
    ensures { IfOk result (λ texts. option_map (λ it. map cow_str_bytes it.items) texts
        ≡ read_each_item as_str (items_data items.now)) }
{
    let mut texts = Vec::new(alloc);
    for item in items {
        match as_text(item) {
            Some(text) => texts.push(CowStr::Borrowed(text))?,
            None => return Ok(None),
        }
    }
    Ok(Some(texts))
}

/// Returns the strings of a JSON list; `None` if the value isn't a list of strings.
fn read_string_list<'r>(
    alloc: Global,
    value: &Value<'r>,
) -> Result<Option<Vec<CowStr<'r>>>, AllocError>
    ensures { IfOk result (λ texts. option_map (λ it. map cow_str_bytes it.items) texts
        ≡ read_string_list (value_data value.now)) }
{
    match as_list(value) {
        Some(items) => read_texts(alloc, items),
        None => Ok(None),
    }
}

/// Returns the reference of the items after the keyword `id`: a name and its scope.
#[tactic(auto, using(crate::proofs::Forms::id_short, crate::proofs::Forms::id_long))]
fn read_id_reference<'r>(
    alloc: Global,
    items: &[Value<'r>],
    retained: &'r mut Option<Id>,
) -> Result<Option<SymbolNodeDep<'r>>, AllocError>
    ensures { IfOk result
        (λ found. option_map reference_view found ≡ read_id_reference (items_data items.now)) }
{
    let [name, scope] = items else {
        return Ok(None);
    };
    match read_id(alloc, name, scope)? {
        Some(id) => Ok(Some(SymbolNodeDep::Id(retained.insert(id)))),
        None => Ok(None),
    }
}

/// Returns the reference of the items after the keyword `qualified`: a name, its scope and its
/// parts.
#[tactic(auto, using(crate::proofs::Forms::qualified_short, crate::proofs::Forms::qualified_long))]
fn read_qualified_reference<'r>(
    alloc: Global,
    items: &[Value<'r>],
    retained: &'r mut Option<Id>,
) -> Result<Option<SymbolNodeDep<'r>>, AllocError>
    ensures { IfOk result
        (λ found. option_map reference_view found ≡ read_qualified_reference
        (items_data items.now)) }
{
    let [name, scope, parts] = items else {
        return Ok(None);
    };
    let Some(id) = read_id(alloc, name, scope)? else {
        return Ok(None);
    };
    match read_string_list(alloc, parts)? {
        Some(parts) => Ok(Some(SymbolNodeDep::QualifiedId(retained.insert(id), parts))),
        None => Ok(None),
    }
}

/// Returns the reference of the items after the keyword `import`: a specifier and its parts.
#[tactic(auto, using(crate::proofs::Forms::import_short, crate::proofs::Forms::import_long))]
fn read_import_reference<'r>(
    alloc: Global,
    items: &[Value<'r>],
) -> Result<Option<SymbolNodeDep<'r>>, AllocError>
    ensures { IfOk result
        (λ found. option_map reference_view found ≡ read_import_reference (items_data items.now)) }
{
    let [specifier_text, parts] = items else {
        return Ok(None);
    };
    let Some(specifier_text) = as_text(specifier_text) else {
        return Ok(None);
    };
    match read_string_list(alloc, parts)? {
        Some(parts) => Ok(Some(SymbolNodeDep::ImportType(specifier_text, parts))),
        None => Ok(None),
    }
}

/// Returns the keyword at the front of a list, and the items after it; `None` if there is none.
#[tactic(auto, using(crate::proofs::Forms::keyword_short))]
fn keyword_and_items<'v, 'a>(value: &'v Value<'a>) -> Option<(&'a str, &'v [Value<'a>])>
    ensures { option_map (λ parts. (parts.0.now, items_data parts.1.now)) result
        ≡ option_and_then keyword_and_items (as_array (value_data value.now)) }
{
    match as_list(value)? {
        [keyword, rest @ ..] => Some((as_text(keyword)?, rest)),
        _ => None,
    }
}

/// Returns the reference that a JSON value describes; `None` if it is no reference. A name with its
/// scope is stored in `retained`.
pub(crate) fn read_reference<'r>(
    alloc: Global,
    value: &Value<'r>,
    retained: &'r mut Option<Id>,
) -> Result<Option<SymbolNodeDep<'r>>, AllocError>
    ensures { IfOk result
        (λ found. option_map reference_view found ≡ reference_of_json (value_data value.now)) }
{
    let Some((keyword, items)) = keyword_and_items(value) else {
        return Ok(None);
    };
    match keyword {
        "id" => read_id_reference(alloc, items, retained),
        "qualified" => read_qualified_reference(alloc, items, retained),
        "import" => read_import_reference(alloc, items),
        _ => Ok(None),
    }
}
