//! A root over a module graph, which analyzes and stores modules when a call needs them.
//!
//! Marks say where a rule comes from: '(as deno_graph)' where it is that of Deno's crate of this
//! name, '(extension)' where this library adds it.
#![tactic(auto)]

pub mod laws;
mod limits;
mod root_symbol;
mod rules;
mod types_chain;

pub use limits::Limits;
pub use root_symbol::RootSymbol;
pub use rules::Rules;
