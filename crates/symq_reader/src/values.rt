//! Reads JSON values of lists, strings and whole numbers, which queries consist of.

ghost use Rattle.std.specs.Prelude.{◌≡◌, false, Some, IfOk, IfSome, MatchOption};
ghost use Rattle.symq_reader.specs.GraphText.{json_of_bytes};
ghost use Rattle.symq_reader.specs.Lists.{has_no_object_and_whole_numbers};
ghost use Rattle.symq_reader.specs.JsonData.{value_data};

use crate::numbers;
use crate::whole::whole_value;
use json::{Scratch, Value};
use std::alloc::{AllocError, Global};

/// Returns the JSON value of bytes that consist of lists, strings and whole numbers (extension). It
/// is `None` if they are no JSON, or if a number isn't whole or doesn't fit 64 bits. Objects in it
/// aren't checked. The buffers stay in `scratch`, for the next call.
///
/// # Errors
///
/// An allocation failed.
pub fn read_value<'a>(
    alloc: Global,
    bytes: &'a [u8],
    scratch: &'a mut Scratch,
) -> Result<Option<Value<'a>>, AllocError>
    ensures { IfOk result (λ found. MatchOption found
        (IfSome (json_of_bytes bytes.now) (λ d. has_no_object_and_whole_numbers d ≡ false))
        (λ value. json_of_bytes bytes.now ≡ Some (value_data value))) }
{
    let Ok(text) = simdutf8::compat::from_utf8(bytes) else {
        return Ok(None);
    };
    let Some(found) = whole_value(alloc, text, scratch)? else {
        return Ok(None);
    };
    if numbers::fits(&found) {
        Ok(Some(found))
    } else {
        Ok(None)
    }
}
