//! Re-exports of `symbols_queries`: queries and their answers.

pub use symbols_queries::{
    Answer, AnswerQueries, DeclDeps, DefinitionBySpecifier, DepEntryBySpecifier, ExportBySpecifier,
    ExporterBySpecifier, ExportsBySpecifier, Found, PathBySpecifier, PathEndBySpecifier,
    PathLinkBySpecifier, Query, QueryInput, SharedNameBySpecifier, StarStatementBySpecifier,
    UnresolvedBySpecifier,
};
