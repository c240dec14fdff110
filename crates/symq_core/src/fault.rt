//! The errors that end the answering of lines.

ghost use Rattle.std.specs.Prelude.{◌≡◌};
ghost use Rattle.symq_core.specs.declared.fault.EngineFault.TheVariants.{OutOfMemory};

use std::alloc::{AllocError, AllocFailed};
use thiserror::Error;

/// The reason why serving stopped before the end of the input.
#[derive(Debug, Clone, Copy, PartialEq, Eq, Error)]
pub enum EngineFault {
    /// An allocation failed.
    #[error("out of memory")]
    OutOfMemory,
    /// A read failed.
    #[error("the input failed")]
    InputFailed,
    /// A write failed, or took nothing.
    #[error("the output failed")]
    OutputFailed,
    /// The input has at least 2^64 - 1 bytes.
    #[error("the input is too long")]
    InputTooLong,
}

impl From<AllocError> for EngineFault {
    ghost from_gives = { λ _ fault. fault ≡ OutOfMemory };

    fn from(_error: AllocError) -> EngineFault {
        EngineFault::OutOfMemory
    }
}

impl<T: Drop> From<AllocFailed<T>> for EngineFault {
    ghost from_gives = { λ _ fault. fault ≡ OutOfMemory };

    fn from(_error: AllocFailed<T>) -> EngineFault {
        EngineFault::OutOfMemory
    }
}
