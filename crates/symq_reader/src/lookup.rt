//! Look-up in JSON values: by key, and in lists. A null member counts as absent.

ghost use Rattle.std.specs.Prelude.{◌≡◌, option_map};
ghost use Rattle.json.specs.Value.{items_view};
ghost use Rattle.serde_json.specs.Find.{as_array, as_str};
ghost use Rattle.symq_reader.specs.JsonData.{value_data, items_data, json_items_data};
ghost use Rattle.symq_reader.specs.inner.JsonData.{optional_items_data};
ghost use Rattle.symq_reader.specs.inner.Reading.{IsReadResult};
ghost use Rattle.symq_reader.specs.UnderKeys.{none_if_null, value_at_key, array_items_under_key};
ghost use Rattle.symq_reader.specs.UnderKeys.{two_items, three_items, as_pair, as_triple};

use crate::faults::FormatFault;
use json::Value;

fn if_some<'v, 'a>(value: &'v Value<'a>) -> Option<&'v Value<'a>>
    ensures { option_map (λ found. value_data found.now) result
        ≡ none_if_null (value_data value.now) }
{
    match value {
        Value::Null => None,
        Value::Bool(_) | Value::Number(_) | Value::String(_) | Value::Array(_) | Value::Object(_) =>
            Some(value),
    }
}

/// Returns the value under a key; `None` if it is absent or null. Of a repeated key the last value
/// counts.
#[tactic(auto, using(crate::proofs::Gets::get_of_unescaped))]
pub(crate) fn field<'v, 'a>(value: &'v Value<'a>, key: &str) -> Option<&'v Value<'a>>
    ensures { option_map (λ found. value_data found.now) result
        ≡ value_at_key key.now (value_data value.now) }
{
    match value.get(key) {
        Some(found) => if_some(found),
        None => None,
    }
}

/// Returns the items of a list; `None` if the value is no list.
pub fn as_list<'v, 'a>(value: &'v Value<'a>) -> Option<&'v [Value<'a>]>
    ensures { option_map (λ items. items_data items.now) result ≡ as_array (value_data value.now) }
{
    match value {
        Value::Array(items) => Some(items.as_slice()),
        _ => None,
    }
}

/// Returns the string that a value is; `None` if it is no string.
pub fn as_text<'a>(value: &Value<'a>) -> Option<&'a str>
    ensures { option_map (λ s. s.now) result ≡ as_str (value_data value.now) }
{
    match value {
        Value::String(text) => Some(text),
        _ => None,
    }
}

/// Returns the items of the list under a key; `None` if it is absent. It fails if the value is no
/// list.
pub(crate) fn list<'v, 'a>(
    value: &'v Value<'a>,
    key: &str,
) -> Result<Option<&'v [Value<'a>]>, FormatFault>
    ensures { IsReadResult optional_items_data result
        (array_items_under_key key.now (value_data value.now)) }
{
    match field(value, key) {
        None => Ok(None),
        Some(Value::Array(items)) => Ok(Some(items.as_slice())),
        Some(_) => Err(FormatFault::BadForm),
    }
}

#[tactic(auto, using(crate::proofs::Tuples::fewer_than_two, crate::proofs::Tuples::more_than_two))]
fn two<'v, 'a>(items: &'v [Value<'a>]) -> Option<(&'v Value<'a>, &'v Value<'a>)>
    ensures { option_map (λ p. (value_data p.0.now, value_data p.1.now)) result
        ≡ two_items (json_items_data (items_view items.now)) }
{
    match items {
        [first, second] => Some((first, second)),
        _ => None,
    }
}

/// Returns the items of a list of two; `None` for any other value.
pub(crate) fn pair<'v, 'a>(value: &'v Value<'a>) -> Option<(&'v Value<'a>, &'v Value<'a>)>
    ensures { option_map (λ p. (value_data p.0.now, value_data p.1.now)) result
        ≡ as_pair (value_data value.now) }
{
    match value {
        Value::Array(items) => two(items.as_slice()),
        _ => None,
    }
}

#[tactic(auto, using(crate::proofs::Tuples::fewer_than_three, crate::proofs::Tuples::more_than_three))]
fn three<'v, 'a>(items: &'v [Value<'a>]) -> Option<(&'v Value<'a>, &'v Value<'a>, &'v Value<'a>)>
    ensures { option_map (λ p. (value_data p.0.now, value_data p.1.now, value_data p.2.now)) result
        ≡ three_items (json_items_data (items_view items.now)) }
{
    match items {
        [first, second, third] => Some((first, second, third)),
        _ => None,
    }
}

/// Returns the items of a list of three; `None` for any other value.
pub(crate) fn triple<'v, 'a>(
    value: &'v Value<'a>,
) -> Option<(&'v Value<'a>, &'v Value<'a>, &'v Value<'a>)>
    ensures { option_map (λ p. (value_data p.0.now, value_data p.1.now, value_data p.2.now)) result
        ≡ as_triple (value_data value.now) }
{
    match value {
        Value::Array(items) => three(items.as_slice()),
        _ => None,
    }
}
