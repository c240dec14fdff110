//! References in the syntax tree of a declaration, and dotted names.

mod dep;
mod dotted_names;

pub use dep::{ReferenceNamespace, ResolveDepsMode, SymbolNodeDep};
pub use dotted_names::{
    EntityName, MemberExprName, Part, entity_name, member_expr_name, node_of_greater_number,
    prop_part_below,
};
