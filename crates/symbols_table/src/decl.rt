//! Symbols and their declarations.

mod child_ids;
mod dep;
mod exports;
mod symbol;
mod symbol_decl;
mod symbol_set;
mod tables;

pub use child_ids::ChildIds;
pub use dep::{FileDep, FileDepName};
pub use exports::Exports;
pub use symbol::Symbol;
pub use symbol_decl::{SymbolDecl, SymbolDeclFlags, SymbolDeclKind};
pub(crate) use tables::Tables;
