//! Tests of the library's public calls, where no run of a program shows the results. A crate with
//! tests is proved twice, with and without them, so the tests are in crates of their own.
//!
//! Code of a test is proved and therefore costs time; a constant text costs next to nothing. So a
//! graph is read from its text, unless a test is about building one by calls, or the text would be
//! very long. `lifetimes` owns the values that have to be dropped, and lends them to a check. A
//! check returns the name of the first thing in it that is wrong, and the test returns that, too.
#![tactic(auto)]

#[cfg(test)]
mod definitions;
#[cfg(test)]
mod exports;
#[cfg(test)]
mod lifetimes;
#[cfg(test)]
mod many;
#[cfg(test)]
mod one_name;
#[cfg(test)]
mod public_names;
#[cfg(test)]
mod queries;
#[cfg(test)]
mod refusals;
#[cfg(test)]
mod roots;
#[cfg(test)]
mod rules;
#[cfg(test)]
mod webs;
