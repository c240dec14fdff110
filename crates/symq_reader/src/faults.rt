//! The reasons why a text is no graph.

ghost use Rattle.std.specs.Prelude.{◌≡◌};
ghost use Rattle.symq_reader.specs.declared.faults.FormatFault.TheVariants.{OutOfMemory};

use std::alloc::{AllocError, AllocFailed};
use thiserror::Error;

/// The reason why a text is no graph (extension). A text that is no JSON is reported as such,
/// whatever else is wrong with it.
#[derive(Clone, Copy, Debug, PartialEq, Eq, Error)]
pub enum FormatFault {
    /// An allocation failed.
    #[error("out of memory")]
    OutOfMemory,
    /// The bytes are no UTF-8 or no JSON text, or nest deeper than 127.
    #[error("not JSON")]
    NotJson,
    /// The value isn't that of a graph.
    #[error("bad form")]
    BadForm,
}

impl From<AllocError> for FormatFault {
    ghost from_gives = { λ _ fault. fault ≡ OutOfMemory };

    fn from(_error: AllocError) -> FormatFault {
        FormatFault::OutOfMemory
    }
}

impl<T: Drop> From<AllocFailed<T>> for FormatFault {
    ghost from_gives = { λ _ fault. fault ≡ OutOfMemory };

    fn from(_error: AllocFailed<T>) -> FormatFault {
        FormatFault::OutOfMemory
    }
}
