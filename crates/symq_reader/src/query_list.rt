//! The fast path for query lines: reads most queries from their bytes, without a JSON value.
//!
//! If it returns a list, `serde_json`'s value of the bytes is that list. It returns `None` for
//! everything unsupported: more than one space after a comma, space elsewhere, escapes in strings,
//! numbers of more than nine digits, and other items.

ghost use Rattle.std.specs.Prelude.{◌≡◌, ◌+◌, ◌^◌, ◌<◌, ◌≤◌, ◌++◌, ◌∷◌, [], ℕ, decimal};
ghost use Rattle.std.specs.Prelude.{length, get_or, IfSome, Some, true, false};
ghost use Rattle.std.specs.Bool.{OnTrue};
ghost use Rattle.std.specs.Str.{IsUtf8};
ghost use Rattle.json.specs.Print.{quoted};
ghost use Rattle.json.specs.Run.{is_plain};
ghost use Rattle.json.specs.Written.{PlainBetween};
ghost use Rattle.symq_reader.specs.GraphText.{json_of_bytes};
ghost use Rattle.symq_reader.specs.QueryLists.{query_array_json};
ghost use Rattle.symq_reader.specs.inner.ListTexts.{IsAfterComma, IsTextAfterTwoStrings, IsQueryArrayText};
ghost use Rattle.symq_reader.specs.inner.ListTexts.{HasU64NumberAndUtf8Text};

use crate::ends::after;
use crate::needs_no_escape::needs_no_escape;
use crate::short_numbers::short_number;
use memchr::memchr;

/// The maximal length of a keyword in bytes. No keyword of a query or a mode is longer.
const MAX_KEYWORD: usize = 12;

/// The items of a list after its two strings.
#[derive(Clone, Copy, Drop)]
pub enum ListTail<'a> {
    /// No items.
    Nothing,
    /// A number.
    Number(u32),
    /// A number and a string.
    NumberAndText(u32, &'a str),
    /// A string and a number.
    TextAndNumber(&'a str, u32),
}

/// A list that begins with two strings.
#[derive(Clone, Copy, Drop)]
pub struct QueryList<'a> {
    pub first: &'a str,
    pub second: &'a str,
    pub tail: ListTail<'a>,
}

/// Returns the bytes after a comma and an optional space; `None` if there is no comma.
fn after_comma(bytes: &[u8]) -> Option<&[u8]>
    ensures { IfSome result (λ rest. IsAfterComma bytes.now rest.now) }
{
    let rest = after(bytes, b',')?;
    match after(rest, b' ') {
        Some(rest) => Some(rest),
        None => Some(rest),
    }
}

/// Checks whether the bytes are just the bracket that ends a list.
fn is_end(bytes: &[u8]) -> bool
    ensures { OnTrue result (bytes.now ≡ 93 ∷ []) }
{
    bytes.len() == 1 && bytes[0] == b']'
}

/// Returns the string at the front of the bytes, and the bytes after it. It is `None` if there is
/// no string or if something in it is escaped.
fn quoted(bytes: &[u8]) -> Option<(&str, &[u8])>
    ensures text { IfSome result (λ parts. bytes.now ≡ quoted parts.0.now ++ parts.1.now) }
    ensures utf8 { IfSome result (λ parts. IsUtf8 parts.0.now) }
{
    let inner = after(bytes, b'"')?;
    let end = memchr(b'"', inner)?;
    let (text, rest) = inner.split_at(end);
    if !needs_no_escape(text) {
        return None;
    }
    let Ok(text) = std::str::from_utf8(text) else {
        return None;
    };
    Some((text, after(rest, b'"')?))
}

/// Checks whether a byte ends a keyword: it isn't ASCII, or it needs an escape in a string.
fn ends_word(byte: u8) -> bool
    ensures unescaped { result ≡ false → is_plain byte ≡ true }
    ensures ascii { result ≡ false → byte < 128 }
{
    byte == b'"' || byte == b'\\' || byte < 0x20 || byte >= 0x80
}

/// Returns the length of the keyword at the front of the bytes, at most `MAX_KEYWORD`.
fn keyword_len(bytes: &[u8]) -> usize
    ensures within { result ≤ length bytes.now }
    ensures unescaped { PlainBetween bytes.now 0 result }
    ensures ascii { (k : ℕ) → k < result → get_or bytes.now k 0 < 128 }
{
    let mut end = 0;
    while end < bytes.len() && end < MAX_KEYWORD && !ends_word(bytes[end]) {
        end += 1;
    }
    end
}

/// Returns the quoted keyword at the front of the bytes, and the bytes after it. A keyword is a
/// short ASCII string without escapes.
fn quoted_keyword(bytes: &[u8]) -> Option<(&str, &[u8])>
    ensures text { IfSome result (λ parts. bytes.now ≡ quoted parts.0.now ++ parts.1.now) }
    ensures utf8 { IfSome result (λ parts. IsUtf8 parts.0.now) }
{
    let inner = after(bytes, b'"')?;
    let (keyword, rest) = inner.split_at(keyword_len(inner));
    let rest = after(rest, b'"')?;
    // SAFETY: a keyword is ASCII
    let keyword = unsafe { std::str::from_utf8_unchecked(keyword) };
    Some((keyword, rest))
}

/// Returns the items after the two strings; `None` if the bytes up to the end are unsupported.
fn list_tail(bytes: &[u8]) -> Option<ListTail<'_>>
    ensures text { IfSome result (IsTextAfterTwoStrings bytes.now) }
    ensures sound { IfSome result HasU64NumberAndUtf8Text }
{
    if is_end(bytes) {
        return Some(ListTail::Nothing);
    }
    let items = after_comma(bytes)?;
    if let Some((text, rest)) = quoted(items) {
        let (n, rest) = short_number(after_comma(rest)?)?;
        return if is_end(rest) {
            Some(ListTail::TextAndNumber(text, n))
        } else {
            None
        };
    }
    let (n, rest) = short_number(items)?;
    if is_end(rest) {
        return Some(ListTail::Number(n));
    }
    let (text, rest) = quoted_keyword(after_comma(rest)?)?;
    if is_end(rest) {
        Some(ListTail::NumberAndText(n, text))
    } else {
        None
    }
}

/// Returns the list that the bytes are; `None` if they are unsupported.
fn list_in(bytes: &[u8]) -> Option<QueryList<'_>>
    ensures text { IfSome result (IsQueryArrayText bytes.now) }
    ensures sound { IfSome result (λ found. IsUtf8 found.first.now × IsUtf8 found.second.now
        × HasU64NumberAndUtf8Text found.tail) }
{
    let (first, rest) = quoted_keyword(after(bytes, b'[')?)?;
    let (second, rest) = quoted(after_comma(rest)?)?;
    let tail = list_tail(rest)?;
    Some(QueryList {
        first,
        second,
        tail,
    })
}

/// Returns the list of a query line on the fast path (extension). It is two strings, then nothing,
/// a number of at most nine digits, or such a number and a string in either order. One space may
/// follow each comma. `None` doesn't mean that the line is no query: strings with escapes and other
/// spacing are unsupported here.
pub fn read_query_list(bytes: &[u8]) -> Option<QueryList<'_>>
    ensures { IfSome result (λ found. json_of_bytes bytes.now ≡ Some (query_array_json found)) }
{
    list_in(bytes)
}
