//! Builds the parts of graphs.

use std::alloc::{AllocError, Global};
use symbols_graph::RawResolution;

/// Returns a string of this text.
pub fn text(alloc: Global, text: &str) -> Result<String, AllocError> {
    String::from_str(alloc, text)
}

/// Returns a resolution of a specifier in a referrer.
pub fn resolution(
    alloc: Global,
    referrer: &str,
    queried: &str,
    specifier: &str,
) -> Result<RawResolution, AllocError> {
    let referrer = text(alloc, referrer)?;
    let queried = text(alloc, queried)?;
    let specifier = text(alloc, specifier)?;
    Ok(RawResolution {
        referrer,
        specifier_text: queried,
        specifier,
    })
}
