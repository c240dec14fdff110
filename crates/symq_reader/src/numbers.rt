//! Whole numbers in JSON values, and checks that a value has no other numbers.

ghost use Rattle.std.specs.Prelude.{◌≡◌, ◌<◌, ◌==◌, IsTrue, length, slice_index, false};
ghost use Rattle.json.specs.Value.{value_view, items_view, members_view};
ghost use Rattle.serde_json.specs.Find.{as_u64};
ghost use Rattle.serde_json.specs.Read.{number_of, number_from};
ghost use Rattle.serde_json.specs.View.{view, items_view as data_items};
ghost use Rattle.serde_json.specs.View.{members_view as data_members};
ghost use Rattle.symq_reader.specs.Numbers.{has_whole_numbers, items_have_whole_numbers};
ghost use Rattle.symq_reader.specs.Numbers.{members_have_whole_numbers};
ghost use Rattle.symq_reader.specs.JsonData.{number_or_minus_one, value_data};
ghost use Rattle.symq_reader.specs.inner.JsonData.{json_has_whole_numbers, json_items_have_whole_numbers};
ghost use Rattle.symq_reader.specs.inner.JsonData.{json_members_have_whole_numbers};
ghost use Rattle.symq_reader.specs.UnderKeys.{as_u64_number, as_u32};

use crate::short_numbers::short_number;
use fast_float::Numeral;
use json::Value;
use serde_json::Map;

/// Checks whether each number of a value, at any depth, is whole and fits 64 bits.
#[cycle(whole)]
pub(crate) fn has_whole_numbers(value: &serde_json::Value) -> bool
    ensures { result ≡ has_whole_numbers (view value.now) }
{
    match value {
        serde_json::Value::Number(number) => number.is_u64(),
        serde_json::Value::Array(items) => items_have_whole_numbers(items),
        serde_json::Value::Object(members) => members_have_whole_numbers(members),
        _ => true,
    }
}

#[cycle(whole)]
fn items_have_whole_numbers(items: &Vec<serde_json::Value>) -> bool
    ensures { result ≡ items_have_whole_numbers (data_items items.now.items) }
{
    for item in items {
        if !has_whole_numbers(item) {
            return false;
        }
    }
    true
}

#[cycle(whole)]
fn members_have_whole_numbers(members: &Map<String, serde_json::Value>) -> bool
    ensures { result ≡ members_have_whole_numbers (data_members members.now.entries) }
{
    for (_, value) in members.iter() {
        if !has_whole_numbers(value) {
            return false;
        }
    }
    true
}

#[inline(always)]
fn has_minus(bytes: &[u8]) -> bool
    ensures value { result ≡ (slice_index bytes.now 0 == 45) }
    ensures len { IsTrue result → 0 < length bytes.now }
{
    !bytes.is_empty() && bytes[0] == b'-'
}

#[tactic(auto, using(crate::proofs::Numerals::no_float))]
#[inline(always)]
fn unsigned(numeral: &Numeral<'_>) -> Option<u64>
    ensures { result ≡ as_u64 (number_or_minus_one (number_from false numeral.now)) }
{
    match numeral.to_u64() {
        Some(n) => Some(n),
        None => None,
    }
}

/// Returns the whole number of a numeral of any length; `None` if it isn't whole or doesn't fit 64
/// bits.
#[tactic(auto, using(crate::proofs::Numerals::of_minus, crate::proofs::Numerals::of_digits))]
fn long_whole(bytes: &[u8]) -> Option<u64>
    ensures { result ≡ as_u64 (number_or_minus_one (number_of bytes.now)) }
{
    if has_minus(bytes) {
        None
    } else {
        unsigned(&Numeral::scan(bytes))
    }
}

/// Returns the whole number of a numeral; `None` if it isn't whole or doesn't fit 64 bits. Short
/// numerals take a faster path.
#[inline(always)]
pub(crate) fn whole(digits: &str) -> Option<u64>
    ensures { result ≡ as_u64 (number_or_minus_one (number_of digits.now)) }
{
    let bytes = digits.as_bytes();
    match short_number(bytes) {
        Some((number, rest)) if rest.is_empty() => Some(u64::from(number)),
        _ => long_whole(bytes),
    }
}

/// Returns the number that a value is, if it is whole and fits 64 bits.
pub(crate) fn offset(value: &Value<'_>) -> Option<u64>
    ensures { result ≡ as_u64_number (value_data value.now) }
{
    match value {
        Value::Number(digits) => whole(digits),
        _ => None,
    }
}

/// Returns the number that a value is; `None` if it isn't whole or doesn't fit 32 bits. The numbers
/// of nodes and scopes have this form.
pub fn as_u32(value: &Value<'_>) -> Option<u32>
    ensures { result ≡ as_u32 (value_data value.now) }
{
    u32::try_from(offset(value)?).ok()
}

/// Checks whether each number of a value, at any depth, is whole and fits 64 bits. Numbers that a
/// later key replaces count too.
#[cycle(fits)]
pub(crate) fn fits(value: &Value<'_>) -> bool
    ensures { result ≡ json_has_whole_numbers (value_view value.now) }
{
    match value {
        Value::Number(digits) => whole(digits).is_some(),
        Value::Array(items) => items_fit(items),
        Value::Object(members) => members_fit(members),
        _ => true,
    }
}

#[cycle(fits)]
fn items_fit(items: &Vec<Value<'_>>) -> bool
    ensures { result ≡ json_items_have_whole_numbers (items_view items.now.items) }
{
    for item in items {
        if !fits(item) {
            return false;
        }
    }
    true
}

#[cycle(fits)]
fn members_fit(members: &Vec<(&str, Value<'_>)>) -> bool
    ensures { result ≡ json_members_have_whole_numbers (members_view members.now.items) }
{
    for member in members {
        if !fits(&member.1) {
            return false;
        }
    }
    true
}
