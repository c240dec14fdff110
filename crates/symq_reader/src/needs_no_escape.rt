//! Checks whether bytes need no escape in a JSON string.

ghost use Rattle.std.specs.Prelude.{◌≡◌, ◌+◌, ◌≤◌, length};
ghost use Rattle.std.specs.Bool.{OnTrue};
ghost use Rattle.json.specs.Print.{escape};
ghost use Rattle.json.specs.Written.{PlainBetween};

use std::simd::prelude::*;

/// Checks whether none of the 16 bytes at this index needs an escape.
fn lanes_need_no_escape(text: &[u8], at: usize) -> bool
    requires { at + 16 ≤ length text.now }
    ensures { OnTrue result (PlainBetween text.now at (at + 16)) }
{
    let lanes = u8x16::from_slice(&text[at..]);
    (lanes.simd_eq(u8x16::splat(b'"'))
        | lanes.simd_eq(u8x16::splat(b'\\'))
        | lanes.simd_lt(u8x16::splat(0x20))).to_bitmask()
        == 0
}

/// Checks whether no byte needs an escape, one byte at a time.
fn bytes_need_no_escape(text: &[u8]) -> bool
    ensures { OnTrue result (PlainBetween text.now 0 (length text.now)) }
{
    for &byte in text {
        if byte == b'"' || byte == b'\\' || byte < 0x20 {
            return false;
        }
    }
    true
}

/// Checks whether no byte needs an escape, 16 bytes at a time. The last block may overlap the one
/// before.
fn blocks_need_no_escape(text: &[u8]) -> bool
    requires { 16 ≤ length text.now }
    ensures { OnTrue result (PlainBetween text.now 0 (length text.now)) }
{
    let mut at = 0;
    while text.len() - at > 16 {
        if !lanes_need_no_escape(text, at) {
            return false;
        }
        at += 16;
    }
    lanes_need_no_escape(text, text.len() - 16)
}

/// Checks whether no byte needs an escape.
pub(crate) fn needs_no_escape(text: &[u8]) -> bool
    ensures { OnTrue result (escape text.now ≡ text.now) }
{
    if text.len() < 16 {
        bytes_need_no_escape(text)
    } else {
        blocks_need_no_escape(text)
    }
}
