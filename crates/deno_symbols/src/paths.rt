//! Re-exports of `symbols_paths`: definition paths.

pub use symbols_paths::{
    DeclRef, Definition, DefinitionKind, DefinitionOrUnresolved, DefinitionPathLink,
    DefinitionPathNode, DefinitionPathNodeResolved, DefinitionUnresolved, DefinitionUnresolvedKind,
    DefinitionsIter, DefinitionsOrUnresolvedsIter, FindDefinitions, OpenedPathNode,
    ResolvedSymbolDepEntry,
};
