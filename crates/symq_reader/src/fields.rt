//! Reads the fields of an object by key. A null field counts as absent. An absent field reads as
//! `None`, an empty list or false; a required one is a fault.

ghost use Rattle.std.specs.Prelude.{◌≡◌, option_map, string_bytes};
ghost use Rattle.json.specs.Value.{items_view};
ghost use Rattle.serde_json.specs.Find.{as_str};
ghost use Rattle.symq_reader.specs.inner.Objects.{whole_number, whole_numbers, object_data};
ghost use Rattle.symq_reader.specs.inner.Objects.{object_field_data};
ghost use Rattle.symq_reader.specs.JsonData.{value_data, json_items_data};
ghost use Rattle.symq_reader.specs.inner.Reading.{IsReadResult};
ghost use Rattle.symq_reader.specs.UnderKeys.{value_at_key, required_value_under_key};
ghost use Rattle.symq_reader.specs.UnderKeys.{optional_value_under_key, list_under_key};
ghost use Rattle.symq_reader.specs.UnderKeys.{read_each_item, bool_under_key, some_if_u32};
ghost use Rattle.symq_reader.specs.UnderKeys.{as_u32, as_identifier};
ghost use Rattle.symq_reader.specs.KindShapes.{identifier_view};

use crate::entries::{self, Entry};
use crate::faults::FormatFault;
use crate::{lookup, numbers};
use json::Value;
use std::alloc::Global;
use symbols_ast::tree::{Id, NodeId};

/// An object whose fields are read.
#[derive(Clone, Copy)]
pub(crate) enum Object<'v, 'a> {
    /// A JSON value, which may be no object.
    Value(&'v Value<'a>),
    /// The members of an object, as the fast path reads them.
    Entries(&'v [(&'a str, Entry<'a>)]),
}

/// The value of a field.
#[derive(Clone, Copy)]
pub(crate) enum ObjectField<'v, 'a> {
    Value(&'v Value<'a>),
    Entry(&'v Entry<'a>),
}

/// Returns the value under a key; `None` if it is absent or null. Of a repeated key the last value
/// counts.
pub(crate) fn field<'v, 'a>(object: &Object<'v, 'a>, key: &str) -> Option<ObjectField<'v, 'a>>
    ensures { option_map object_field_data result ≡ value_at_key key.now (object_data object.now) }
{
    match *object {
        Object::Value(value) => match lookup::field(value, key) {
            Some(found) => Some(ObjectField::Value(found)),
            None => None,
        },
        Object::Entries(entries) => match entries::field(entries, key) {
            Some(found) => Some(ObjectField::Entry(found)),
            None => None,
        },
    }
}

/// Returns the string that a value is, if it is one.
pub(crate) fn as_text<'a>(found: ObjectField<'_, 'a>) -> Option<&'a str>
    ensures { option_map (λ s. s.now) result ≡ as_str (object_field_data found.entry) }
{
    match found {
        ObjectField::Value(value) => lookup::as_text(value),
        ObjectField::Entry(Entry::Text(text)) => Some(text),
        ObjectField::Entry(_) => None,
    }
}

/// Returns a required string. It fails if the field is absent or no string, or if an allocation
/// failed.
pub(crate) fn text(alloc: Global, object: &Object<'_, '_>, key: &str) -> Result<String, FormatFault>
    ensures { IsReadResult string_bytes result
        (required_value_under_key as_str key.now (object_data object.now)) }
{
    let Some(found) = field(object, key).and_then(as_text) else {
        return Err(FormatFault::BadForm);
    };
    Ok(String::from_str(alloc, found)?)
}

/// Returns an optional string. It fails if the field is there but no string, or if an allocation
/// failed.
pub(crate) fn optional_text(
    alloc: Global,
    object: &Object<'_, '_>,
    key: &str,
) -> Result<Option<String>, FormatFault>
    ensures { IsReadResult (option_map string_bytes) result
        (optional_value_under_key as_str key.now (object_data object.now)) }
{
    match field(object, key) {
        None => Ok(None),
        Some(_) => Ok(Some(text(alloc, object, key)?)),
    }
}

/// Returns a flag; false if the field is absent. It fails if the field is no boolean.
pub(crate) fn flag(object: &Object<'_, '_>, key: &str) -> Result<bool, FormatFault>
    ensures { IsReadResult (λ b. b) result (bool_under_key key.now (object_data object.now)) }
{
    match field(object, key) {
        None => Ok(false),
        Some(ObjectField::Value(Value::Bool(b))) => Ok(*b),
        Some(ObjectField::Entry(Entry::Flag(b))) => Ok(*b),
        Some(_) => Err(FormatFault::BadForm),
    }
}

/// Returns the node with this number. It fails if the number doesn't fit 32 bits.
fn numbered(number: u64) -> Result<NodeId, FormatFault>
    ensures { IsReadResult (λ n. n) result (some_if_u32 number) }
{
    match u32::try_from(number) {
        Ok(number) => Ok(NodeId(number)),
        Err(_) => Err(FormatFault::BadForm),
    }
}

/// Returns the node whose number is this JSON value. It fails if the value is no number of 32 bits.
fn of_value(value: &Value<'_>) -> Result<NodeId, FormatFault>
    ensures { IsReadResult (λ n. n) result (as_u32 (value_data value.now)) }
{
    match numbers::as_u32(value) {
        Some(number) => Ok(NodeId(number)),
        None => Err(FormatFault::BadForm),
    }
}

/// Returns the node whose number is this field. It fails if the field is no number of 32 bits.
fn node_id(found: ObjectField<'_, '_>) -> Result<NodeId, FormatFault>
    ensures { IsReadResult (λ n. n) result (as_u32 (object_field_data found.entry)) }
{
    match found {
        ObjectField::Value(value) => of_value(value),
        ObjectField::Entry(Entry::Whole(number)) => numbered(*number),
        ObjectField::Entry(_) => Err(FormatFault::BadForm),
    }
}

/// Returns a required child. It fails if the field is absent or no number of 32 bits.
pub(crate) fn child(object: &Object<'_, '_>, key: &str) -> Result<NodeId, FormatFault>
    ensures { IsReadResult (λ n. n) result
        (required_value_under_key as_u32 key.now (object_data object.now)) }
{
    match field(object, key) {
        Some(found) => node_id(found),
        None => Err(FormatFault::BadForm),
    }
}

/// Returns an optional child. It fails if the field is there but no number of 32 bits.
pub(crate) fn optional_child(
    object: &Object<'_, '_>,
    key: &str,
) -> Result<Option<NodeId>, FormatFault>
    ensures { IsReadResult (λ n. n) result
        (optional_value_under_key as_u32 key.now (object_data object.now)) }
{
    match field(object, key) {
        Some(found) => Ok(Some(node_id(found)?)),
        None => Ok(None),
    }
}

/// Returns the nodes whose numbers these JSON values are. It fails if a value is no number of 32
/// bits, or if an allocation failed.
fn children_of_values(alloc: Global, items: &[Value<'_>]) -> Result<Vec<NodeId>, FormatFault>
    ensures { IsReadResult (λ v. v.items) result
        (read_each_item as_u32 (json_items_data (items_view items.now))) }
{
    let mut children = Vec::with_capacity(alloc, items.len())?;
    for item in items {
        children.push(of_value(item)?)?;
    }
    Ok(children)
}

/// Returns the nodes with these numbers. It fails if a number doesn't fit 32 bits, or if an
/// allocation failed.
fn children_numbered(alloc: Global, numbers: &[u64]) -> Result<Vec<NodeId>, FormatFault>
    ensures { IsReadResult (λ v. v.items) result
        (read_each_item as_u32 (whole_numbers numbers.now)) }
{
    let mut children = Vec::with_capacity(alloc, numbers.len())?;
    for number in numbers {
        children.push(numbered(*number)?)?;
    }
    Ok(children)
}

/// Returns the children that a field lists; none if the field is absent. It fails if the field is
/// no list of numbers of 32 bits, or if an allocation failed.
pub(crate) fn children(
    alloc: Global,
    object: &Object<'_, '_>,
    key: &str,
) -> Result<Vec<NodeId>, FormatFault>
    ensures { IsReadResult (λ v. v.items) result
        (list_under_key as_u32 key.now (object_data object.now)) }
{
    match field(object, key) {
        None => Ok(Vec::new(alloc)),
        Some(ObjectField::Value(Value::Array(items))) => children_of_values(
            alloc,
            items.as_slice(),
        ),
        Some(ObjectField::Entry(Entry::List(numbers))) => children_numbered(
            alloc,
            numbers.as_slice(),
        ),
        Some(ObjectField::Entry(Entry::One(number))) => children_numbered(alloc, &[*number]),
        Some(ObjectField::Entry(Entry::Pair(first, second))) => {
            children_numbered(alloc, &[*first, *second])
        }
        Some(_) => Err(FormatFault::BadForm),
    }
}

/// Returns the name and the scope if a JSON value is a list of the two.
fn identifier_of_value<'a>(value: &Value<'a>) -> Option<(&'a str, u32)>
    ensures { option_map (λ p. (p.0.now, p.1)) result ≡ as_identifier (value_data value.now) }
{
    let (name, scope) = lookup::pair(value)?;
    Some((lookup::as_text(name)?, numbers::as_u32(scope)?))
}

/// Returns the name and the scope if a field is a list of the two.
#[tactic(auto, using(crate::proofs::Entered::no_identifier))]
fn named<'a>(found: ObjectField<'_, 'a>) -> Option<(&'a str, u32)>
    ensures { option_map (λ p. (p.0.now, p.1)) result
        ≡ as_identifier (object_field_data found.entry) }
{
    match found {
        ObjectField::Value(value) => identifier_of_value(value),
        ObjectField::Entry(Entry::NameAndScope(name, scope)) => match u32::try_from(*scope) {
            Ok(scope) => Some((name, scope)),
            Err(_) => None,
        },
        ObjectField::Entry(_) => None,
    }
}

/// Returns a required name with its scope. It fails if the field is absent or no such pair, or if
/// an allocation failed.
pub(crate) fn identifier(
    alloc: Global,
    object: &Object<'_, '_>,
    key: &str,
) -> Result<Id, FormatFault>
    ensures { IsReadResult identifier_view result
        (required_value_under_key as_identifier key.now (object_data object.now)) }
{
    let Some((name, scope)) = field(object, key).and_then(named) else {
        return Err(FormatFault::BadForm);
    };
    let name = String::from_str(alloc, name)?;
    Ok(Id { name, scope })
}
