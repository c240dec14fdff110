//! Reads the members of a node, token by token.

ghost use Rattle.std.specs.Prelude.{◌≡◌, ◌∷◌, ◌++◌, ℕ, List, map, IfOk, Some};
ghost use Rattle.json.specs.Json as spec;
ghost use Rattle.json.specs.Token.{Token as SpecToken};
ghost use Rattle.json.specs.Reads.{token_of};
ghost use Rattle.json.specs.Value.{members_view};
ghost use Rattle.serde_json.specs.Find.{as_u64};
ghost use Rattle.serde_json.specs.Read.{number_of};
ghost use Rattle.symq_reader.specs.inner.Objects.{whole_number, fast_path_value_data, entries_data};
ghost use Rattle.symq_reader.specs.JsonData.{number_or_minus_one, json_data};
ghost use Rattle.symq_reader.specs.inner.Streams.{ReadsValue, ReadsItems, ReadsMembers};

use crate::entries::Entry;
use crate::numbers;
use crate::stream::FastPathFault;
use json::{Reader, Token, Value};
use std::alloc::Global;

/// Returns the whole number of a numeral. It gives up if the number isn't whole or doesn't fit 64
/// bits.
#[inline(always)]
fn whole(digits: &str) -> Result<u64, FastPathFault>
    ensures { IfOk result (λ n. as_u64 (number_or_minus_one (number_of digits.now)) ≡ Some n) }
{
    match numbers::whole(digits) {
        Some(number) => Ok(number),
        None => Err(FastPathFault::Unsupported),
    }
}

/// Reads the next token as a whole number. It gives up if it is none.
#[inline(always)]
fn next_whole(reader: &mut Reader<'_>) -> Result<u64, FastPathFault>
    ensures { IfOk result
        (λ n. ReadsValue 120 reader.old reader.new (λ d. Some d) (whole_number n)) }
{
    match reader.next() {
        Some(Token::Number(digits)) => whole(digits),
        _ => Err(FastPathFault::Unsupported),
    }
}

/// Reads the remaining whole numbers of a list up to its end, and appends them.
fn other_items(reader: &mut Reader<'_>, found: &mut Vec<u64>) -> Result<(), FastPathFault>
    ensures { IfOk result (λ _. (rest : List ℕ)
        × ReadsItems 120 reader.old reader.new (λ d. Some d) (map whole_number rest)
        × (found.new.items ≡ found.old.items ++ rest)) }
{
    'items: while !reader.take_end_array() {
        found.push(next_whole(reader)?)?;
    }
    Ok(())
}

/// Reads a list of whole numbers, after its first numeral.
fn list_of_wholes<'a>(
    alloc: Global,
    reader: &mut Reader<'a>,
    digits: &str,
) -> Result<Entry<'a>, FastPathFault>
    ensures { IfOk result (λ entry.
        ReadsValue 121 (SpecToken.begin_array ∷ SpecToken.number digits.now ∷ reader.old) reader.new
        (λ d. Some d) (fast_path_value_data entry)) }
{
    let first = whole(digits)?;
    if reader.take_end_array() {
        return Ok(Entry::One(first));
    }
    let second = next_whole(reader)?;
    if reader.take_end_array() {
        return Ok(Entry::Pair(first, second));
    }
    let mut found = Vec::new(alloc);
    found.push(first)?;
    found.push(second)?;
    other_items(reader, &mut found)?;
    Ok(Entry::List(found))
}

/// Reads a list of a string and a whole number, after the string.
fn list_of_name<'a>(reader: &mut Reader<'a>, name: &'a str) -> Result<Entry<'a>, FastPathFault>
    ensures { IfOk result (λ entry.
        ReadsValue 121 (SpecToken.begin_array ∷ SpecToken.string name.now ∷ reader.old) reader.new
        (λ d. Some d) (fast_path_value_data entry)) }
{
    let number = next_whole(reader)?;
    if reader.take_end_array() {
        Ok(Entry::NameAndScope(name, number))
    } else {
        Err(FastPathFault::Unsupported)
    }
}

/// Reads a list, after its bracket.
fn list<'a>(alloc: Global, reader: &mut Reader<'a>) -> Result<Entry<'a>, FastPathFault>
    ensures { IfOk result (λ entry.
        ReadsValue 121 (SpecToken.begin_array ∷ reader.old) reader.new
        (λ d. Some d) (fast_path_value_data entry)) }
{
    match reader.next() {
        Some(Token::Number(digits)) => list_of_wholes(alloc, reader, digits),
        Some(Token::String(name)) => list_of_name(reader, name),
        Some(Token::EndArray) => Ok(Entry::List(Vec::new(alloc))),
        _ => Err(FastPathFault::Unsupported),
    }
}

/// Reads the members of an object as JSON values, after its brace.
fn object<'a>(
    alloc: Global,
    reader: &mut Reader<'a>,
) -> Result<Vec<(&'a str, Value<'a>)>, FastPathFault>
    ensures { IfOk result (λ found.
        ReadsValue 121 (SpecToken.begin_object ∷ reader.old) reader.new
        (λ d. Some d) (json_data (spec.object (members_view found.items)))) }
{
    let mut found = Vec::new(alloc);
    'members: loop {
        let Some(name) = reader.next_key()? else {
            return Ok(found);
        };
        let value = Value::read(alloc, reader, 120)?;
        if !numbers::fits(&value) {
            return Err(FastPathFault::Unsupported);
        }
        found.push((name, value))?;
    }
}

/// Returns the value that begins with this token: null, a boolean or an object. These are rare in
/// nodes.
#[inline(never)]
fn rare_entry<'a>(
    alloc: Global,
    reader: &mut Reader<'a>,
    token: Token<'a>,
) -> Result<Entry<'a>, FastPathFault>
    ensures { IfOk result (λ entry. ReadsValue 121 (token_of token.entry ∷ reader.old) reader.new
        (λ d. Some d) (fast_path_value_data entry)) }
{
    match token {
        Token::BeginObject => Ok(Entry::Object(object(alloc, reader)?)),
        Token::Null => Ok(Entry::Null),
        Token::Bool(b) => Ok(Entry::Flag(b)),
        _ => Err(FastPathFault::Unsupported),
    }
}

/// Reads the next value: one of the forms that fields have, or an object.
#[inline(always)]
fn next_entry<'a>(alloc: Global, reader: &mut Reader<'a>) -> Result<Entry<'a>, FastPathFault>
    ensures { IfOk result (λ entry. ReadsValue 121 reader.old reader.new
        (λ d. Some d) (fast_path_value_data entry)) }
{
    match reader.next() {
        Some(Token::Number(digits)) => Ok(Entry::Whole(whole(digits)?)),
        Some(Token::String(text)) => Ok(Entry::Text(text)),
        Some(Token::BeginArray) => list(alloc, reader),
        Some(token) => rare_entry(alloc, reader, token),
        None => Err(FastPathFault::Unsupported),
    }
}

/// Reads the members of an object, after its brace. They replace the members in `retained`.
pub(crate) fn take_all<'a>(
    alloc: Global,
    reader: &mut Reader<'a>,
    retained: &mut Vec<(&'a str, Entry<'a>)>,
) -> Result<(), FastPathFault>
    ensures { IfOk result (λ _. ReadsMembers 121 reader.old reader.new
        (λ d. Some d) (entries_data retained.new.items)) }
{
    retained.clear();
    'members: loop {
        let Some(name) = reader.next_key()? else {
            return Ok(());
        };
        let entry = next_entry(alloc, reader)?;
        retained.push((name, entry))?;
    }
}
