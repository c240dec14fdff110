//! Shared code of the library's tests: owners of graphs that lend them to checks, builders of trees
//! and graphs, and macros that end a check.
#![tactic(auto)]

/// Ends a check that doesn't hold with its name.
#[macro_export]
macro_rules! holds {
    ($holds:expr, $name:literal) => {
        if !$holds {
            return Err(concat!("wrong: ", $name));
        }
    };
}

/// Returns a value that has to be there; otherwise it ends the check with the name of the value.
#[macro_export]
macro_rules! there {
    ($found:expr, $name:literal) => {
        match $found {
            Some(found) => found,
            None => return Err(concat!("not there: ", $name)),
        }
    };
}

pub mod graphs;
pub mod lifetimes;
pub mod trees;
