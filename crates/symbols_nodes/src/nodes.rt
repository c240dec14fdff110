//! The syntax nodes of declarations, in the roles in which they declare symbols.

mod expando;
mod member_tests;
mod names;
mod namespaces;
mod node_tests;
mod refs;
mod symbol_node;

pub use refs::{ExpandoPropertyRef, ExportDeclRef, SymbolNodeRef};
pub use symbol_node::SymbolNode;
