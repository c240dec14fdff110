//! Re-exports of `symbols_root`: the root, its rules and its limits.

pub use symbols_root::{Limits, RootSymbol, Rules};
