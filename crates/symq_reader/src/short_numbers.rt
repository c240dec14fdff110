//! Reads numbers of at most nine digits from the front of bytes.

ghost use Rattle.std.specs.Prelude.{◌≡◌, ◌+◌, ◌^◌, ◌<◌, ◌≤◌, ◌++◌, decimal, length, take, get_or};
ghost use Rattle.std.specs.Prelude.{IfSome};

/// Returns the digit at an index; `None` if there is none.
#[inline(always)]
fn digit(bytes: &[u8], index: usize) -> Option<u32>
    ensures found { IfSome result (λ d. get_or bytes.now index 0 ≡ 48 + d) }
    ensures small { IfSome result (λ d. d < 10) }
    ensures within { IfSome result (λ _. index < length bytes.now) }
{
    if index < bytes.len() && b'0' <= bytes[index] && bytes[index] <= b'9' {
        Some(u32::from(bytes[index] - b'0'))
    } else {
        None
    }
}

/// Returns the number of the five digits at the front of the bytes; `None` if there are fewer. The
/// first digit is passed in.
#[inline(always)]
fn five_digits(bytes: &[u8], first: u32) -> Option<u32>
    requires first { (0 < first) × (first < 10) × (take 1 bytes.now ≡ decimal first) }
    ensures text { IfSome result (λ n. take 5 bytes.now ≡ decimal n) }
    ensures within { IfSome result (λ n. (0 < n) × (5 ≤ length bytes.now)) }
{
    if bytes.len() < 5 {
        return None;
    }
    let second = digit(bytes, 1)?;
    let third = digit(bytes, 2)?;
    let fourth = digit(bytes, 3)?;
    let fifth = digit(bytes, 4)?;
    Some(first * 10_000 + second * 1_000 + third * 100 + fourth * 10 + fifth)
}

/// Returns the number of the first digits and their count: five digits, or else the first alone.
#[inline(always)]
fn first_digits(bytes: &[u8], first: u32) -> (u32, usize)
    requires first { (0 < first) × (first < 10) × (take 1 bytes.now ≡ decimal first) }
    requires within { 0 < length bytes.now }
    ensures text { take result.1 bytes.now ≡ decimal result.0 }
    ensures within { (0 < result.0) × (result.1 ≤ length bytes.now) }
{
    match five_digits(bytes, first) {
        Some(number) => (number, 5),
        None => (first, 1),
    }
}

/// Returns the number at the front of the bytes, and the bytes after it. It is `None` if there is
/// no digit, or if the number has more than nine digits. A leading zero is read as the number 0.
#[inline(always)]
pub(crate) fn short_number(bytes: &[u8]) -> Option<(u32, &[u8])>
    ensures text { IfSome result (λ parts. bytes.now ≡ decimal parts.0 ++ parts.1.now) }
    ensures fits { IfSome result (λ parts. parts.0 < 2 ^ 64) }
{
    let first = digit(bytes, 0)?;
    if first == 0 {
        let (_, rest) = bytes.split_at(1);
        return Some((0, rest));
    }
    let (mut found, mut index) = first_digits(bytes, first);
    'digits: while let Some(next) = digit(bytes, index) {
        if 100_000_000 <= found {
            return None;
        }
        found = found * 10 + next;
        index += 1;
    }
    let (_, rest) = bytes.split_at(index);
    Some((found, rest))
}
