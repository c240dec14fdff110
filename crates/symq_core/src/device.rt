//! Input and output of the engine, as traits.

ghost use Rattle.std.specs.Prelude.{◌≡◌, ◌+◌, ◌<◌, ◌≤◌, ◌↔◌, ℕ, List, Option, None, length, IfOk};
ghost use Rattle.std.specs.Prelude.{IsTrue};
ghost use Rattle.std.specs.Io.KnownBytes.{ReadConsumes, WriteAppends};
ghost use Rattle.symq_core.specs.Devices.{COUNT_LIMIT, failures_in_read, failures_in_write};

use thiserror::Error;

/// A read or a write failed.
#[derive(Debug, Clone, Copy, PartialEq, Eq, Error)]
#[error("a read or a write failed")]
pub struct DeviceFault;

/// A source of bytes.
pub trait Input {
    /// The bytes that are left to read; `None` if they are unknown.
    ghost remaining: { Self → Option (List ℕ) } = { λ _. None };

    /// How many reads have failed.
    ghost failures: { Self → ℕ };

    /// Returns whether one more failure can be counted.
    fn has_room(&self) -> bool
        ensures { IsTrue result ↔ (failures self.now < COUNT_LIMIT) };

    /// Reads bytes into the front of the buffer, and returns how many. It returns 0 only at the end
    /// of the input. It fails if the read fails.
    fn read(&mut self, buffer: &mut [u8]) -> Result<usize, DeviceFault>
        requires countable { failures self.old < COUNT_LIMIT }
        requires not_empty { 0 < length buffer.old }
        ensures bound { IfOk result (λ n. n ≤ length buffer.new) }
        ensures consumed { ReadConsumes (remaining self.old) (remaining self.new) result
            buffer.new }
        ensures counted { failures self.new ≡ failures self.old + failures_in_read result };
}

/// A sink of bytes.
pub trait Output {
    /// The bytes that were written so far; `None` if they are unknown.
    ghost written: { Self → Option (List ℕ) } = { λ _. None };

    /// How many writes have failed or accepted nothing.
    ghost failures: { Self → ℕ };

    /// Returns whether one more failure can be counted.
    fn has_room(&self) -> bool
        ensures { IsTrue result ↔ (failures self.now < COUNT_LIMIT) };

    /// Writes bytes from the front of the slice, and returns how many. It fails if the write fails.
    fn write(&mut self, bytes: &[u8]) -> Result<usize, DeviceFault>
        requires countable { failures self.old < COUNT_LIMIT }
        requires not_empty { 0 < length bytes.now }
        ensures bound { IfOk result (λ n. n ≤ length bytes.now) }
        ensures appended { WriteAppends (written self.old) (written self.new) result bytes.now }
        ensures counted { failures self.new ≡ failures self.old + failures_in_write result };
}
