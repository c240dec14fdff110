//! The key of an alias that is being resolved.

use crate::definition::DeclRef;
use symbols_graph::ids::ModuleId;

/// The declaration of an alias, with its module. It identifies an alias that is being resolved.
#[derive(Clone, Copy, PartialEq, Eq, Hash)]
pub(crate) struct AliasDecl {
    pub(crate) module: ModuleId,
    pub(crate) decl: DeclRef,
}
