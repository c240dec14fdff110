//! Limits of what a root stores.

/// The highest number of stored modules, and of symbols in a stored module (extension).
#[derive(Clone, Copy, Debug, PartialEq, Eq)]
pub struct Limits {
    pub modules: u32,
    pub symbols: u32,
}
