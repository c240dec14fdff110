//! Removes the first or the last byte of a slice.

ghost use Rattle.std.specs.Prelude.{◌≡◌, ◌++◌, ◌∷◌, [], IfSome};

/// Returns the bytes after this byte; `None` if the slice doesn't begin with it.
pub(crate) fn after(bytes: &[u8], byte: u8) -> Option<&[u8]>
    ensures { IfSome result (λ rest. bytes.now ≡ byte ∷ rest.now) }
{
    if bytes.is_empty() || bytes[0] != byte {
        return None;
    }
    let (_, rest) = bytes.split_at(1);
    Some(rest)
}

/// Returns the bytes before this byte; `None` if the slice doesn't end with it.
pub(crate) fn before(bytes: &[u8], byte: u8) -> Option<&[u8]>
    ensures { IfSome result (λ front. bytes.now ≡ front.now ++ byte ∷ []) }
{
    match bytes.split_last() {
        Some((last, front)) if *last == byte => Some(front),
        _ => None,
    }
}
