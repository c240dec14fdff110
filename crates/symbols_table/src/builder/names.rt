//! Keys by which a builder finds children and members.

use std::borrow::CowStr;
use symbols_ast::ids::SymbolId;

/// The local name of a child or a member, with its holder.
#[derive(Drop, PartialEq, Eq, Hash)]
pub(crate) struct LocalName<'a> {
    pub(crate) holder: SymbolId,
    pub(crate) name: CowStr<'a>,
}
