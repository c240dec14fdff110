//! Writes bytes to a buffer of the caller.

ghost use Rattle.std.specs.Prelude.{◌≡◌, ◌⊎◌};
ghost use Rattle.symq_core.specs.ExitStatus.{exit_error_status};
ghost use Rattle.symq_core.specs.ExitLines.{exit_error_line, out_of_memory_line};
ghost use Rattle.symq_c.specs.OutBuffers.{IsTruncatedCopyToBuffer};

use std::alloc::Global;
use symq_core::ExitError;

/// Writes the bytes to the front of the buffer, cut off at its end. Sets `needed` to their full
/// length.
pub(crate) fn hand_out(bytes: &[u8], out: &mut [u8], needed: &mut usize)
    ensures { IsTruncatedCopyToBuffer bytes.now out.old out.new needed.new }
{
    *needed = bytes.len();
    let fits = bytes.len().min(out.len());
    let (front, _) = bytes.split_at(fits);
    out[..fits].copy_from_slice(front);
}

/// Writes the line of an error to the buffer, and returns its exit status. If an allocation fails,
/// it writes the line for out of memory and returns 7.
pub(crate) fn hand_out_line(
    alloc: Global,
    exit_error: &ExitError,
    out: &mut [u8],
    needed: &mut usize,
) -> u8
    ensures { ((result ≡ exit_error_status exit_error.now)
        × IsTruncatedCopyToBuffer (exit_error_line exit_error.now) out.old out.new needed.new)
        ⊎ ((result ≡ 7) × IsTruncatedCopyToBuffer out_of_memory_line out.old out.new needed.new) }
{
    match exit_error.line(alloc) {
        Ok(line) => {
            hand_out(line.as_bytes(), out, needed);
            exit_error.status()
        }
        Err(_) => {
            hand_out(b"symq: out of memory", out, needed);
            7
        }
    }
}
