//! Queries on the modules of a graph, and their answers.
#![tactic(auto)]

mod answer_queries;
mod decl_deps;
mod exports_by_specifier;
mod inputs;
mod paths_by_specifier;
mod query;
mod shared_name_by_specifier;
mod specifier_list;

pub use answer_queries::AnswerQueries;
pub use decl_deps::DeclDeps;
pub use exports_by_specifier::{ExportBySpecifier, ExportsBySpecifier, StarStatementBySpecifier};
pub use inputs::{Found, QueryInput};
pub use paths_by_specifier::{
    DefinitionBySpecifier, DepEntryBySpecifier, PathBySpecifier, PathEndBySpecifier,
    PathLinkBySpecifier, UnresolvedBySpecifier,
};
pub use query::{Answer, Query};
pub use shared_name_by_specifier::{ExporterBySpecifier, SharedNameBySpecifier};
