//! The error type of calls on symbols.

ghost use Rattle.std.specs.Prelude.{◌≡◌};
ghost use Rattle.symbols_table.specs.declared.info.fault.SymbolsFault.TheVariants.{OutOfMemory};

use std::alloc::{AllocError, AllocFailed};
use thiserror::Error;

/// The reason why a call on symbols fails (extension). What was stored before the call is
/// unchanged.
#[derive(Debug, Drop, PartialEq, Eq, Error)]
pub enum SymbolsFault {
    /// An allocation failed.
    #[error("out of memory")]
    OutOfMemory,
    /// Another module would have to be stored, and the limit of stored modules is reached.
    #[error("too many modules")]
    TooManyModules,
    /// The module of this specifier has more symbols than the limit allows.
    #[error("too many symbols in {0}")]
    TooManySymbols(String),
    /// No stored module has the id.
    #[error("unknown module")]
    UnknownModule,
    /// The module has no symbol of the id.
    #[error("unknown symbol")]
    UnknownSymbol,
}

impl From<AllocError> for SymbolsFault {
    ghost from_gives = { λ _ e. e ≡ OutOfMemory };

    fn from(_error: AllocError) -> SymbolsFault {
        SymbolsFault::OutOfMemory
    }
}

impl<T: Drop> From<AllocFailed<T>> for SymbolsFault {
    ghost from_gives = { λ _ e. e ≡ OutOfMemory };

    fn from(_error: AllocFailed<T>) -> SymbolsFault {
        SymbolsFault::OutOfMemory
    }
}
