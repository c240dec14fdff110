//! Builds the symbol table of a module from its syntax tree.

mod analysis;
mod declarations;
mod events;
mod items;
mod members;
mod modules;
mod names;
mod patterns;
mod scope;
mod table;

pub use analysis::analyze;
