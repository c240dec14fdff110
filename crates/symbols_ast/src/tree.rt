//! Syntax trees: nodes in an arena, each with a kind, fields and a range of the source text.

mod arena;
mod categories;
mod child_fields;
mod field;
mod fields;
mod kind_fields;
mod kinds;
mod member_kinds;
mod names;
mod node_ref;

pub use arena::{Id, Node, NodeId, SourceRange, Tree};
pub use categories::Category;
pub use field::{Children, Field, Fields};
pub use kinds::{Decl, Expr, Item, Kind, Member, Pat, Ty};
pub use member_kinds::{Accessibility, MethodKind};
pub use names::KindName;
pub use node_ref::NodeRef;
