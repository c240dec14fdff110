//! Splits input at line ends.

ghost use Rattle.std.specs.Prelude.{◌≡◌, ◌<◌, ◌∷◌, [], length, IfSome, MatchOption};
ghost use Rattle.symq_core.specs.Lines.{split_at_newlines};

use memchr::memchr;

/// Returns the bytes before the first `\n`, and the bytes after it. It is `None` if there is no
/// `\n`.
pub(crate) fn split_line(bytes: &[u8]) -> Option<(&[u8], &[u8])>
    ensures split { MatchOption result (split_at_newlines bytes.now ≡ bytes.now ∷ [])
        (λ split. split_at_newlines bytes.now ≡ split.0.now ∷ split_at_newlines split.1.now) }
    ensures shorter { IfSome result (λ split. length split.1.now < length bytes.now) }
{
    let end = memchr(b'\n', bytes)?;
    let (_, rest) = bytes.split_at(end + 1);
    Some((&bytes[..end], rest))
}
