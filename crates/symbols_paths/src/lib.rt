//! Finds where a symbol is defined, across modules.
#![tactic(auto)]

mod alias_decl;
mod build_paths;
mod decl_target;
mod definition;
mod definition_iter;
mod definition_path;
mod definition_search;
mod definition_unresolved;
mod find_definitions;
mod follow_decl;
mod part_target;
mod path_builder;
mod path_links;
mod re_exported_symbol;
mod replace_definitions;
mod resume_search;
mod search_step;
mod shared_parts;
mod symbol_dep;
mod visited_symbols;

pub use definition::{DeclRef, Definition, DefinitionKind};
pub use definition_iter::{DefinitionOrUnresolved, DefinitionsIter, DefinitionsOrUnresolvedsIter};
pub use definition_path::{
    DefinitionPathLink, DefinitionPathNode, DefinitionPathNodeResolved, OpenedPathNode,
};
pub use definition_unresolved::{DefinitionUnresolved, DefinitionUnresolvedKind};
pub use find_definitions::FindDefinitions;
pub use symbol_dep::ResolvedSymbolDepEntry;
