//! Tests of the library's public calls on one graph and one module, where no run of a program shows
//! the results. They need no stored modules, so they are proved beside the crates for stored
//! modules.
//!
//! Code of a test is proved and therefore costs time; a constant text costs next to nothing. So a
//! graph is read from its text, unless a test is about building one by calls, or the text would be
//! very long. `symbols_test_support::lifetimes` owns the values that have to be dropped, and lends
//! them to a check. A check returns the name of the first thing in it that is wrong, and the test
//! returns that, too.
#![tactic(auto)]

#[cfg(test)]
mod analysis;
#[cfg(test)]
mod deps;
#[cfg(test)]
mod graphs;
#[cfg(test)]
mod ids;
#[cfg(test)]
mod nodes;
#[cfg(test)]
mod puts;
#[cfg(test)]
mod symbols;
#[cfg(test)]
mod views;
