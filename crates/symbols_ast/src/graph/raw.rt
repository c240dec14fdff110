//! Raw module graphs, which are not checked: parsed trees, redirects and a table of resolved
//! specifiers.

use crate::tree::Tree;

/// The kind of a module, with its content.
#[derive(Drop)]
pub enum RawModuleKind {
    /// An ECMAScript or TypeScript module.
    Esm {
        /// The module's source text. The tree's ranges are byte offsets in it.
        text: String,
        /// The module's syntax tree; `None` if the text could not be parsed.
        tree: Option<Tree>,
        /// The specifier of the module that has this module's types, if any.
        types: Option<String>,
    },
    /// A JSON module.
    Json {
        /// The module's text.
        text: String,
    },
    /// A module of which only the specifier is known.
    External,
}

/// A module with its specifier. Specifiers are strings that are compared byte by byte.
#[derive(Drop)]
pub struct RawModule {
    pub specifier: String,
    pub kind: RawModuleKind,
}

/// An entry of the resolution table: a specifier written in a module, and the module it resolves
/// to.
#[derive(Drop)]
pub struct RawResolution {
    /// The specifier of the importing module.
    pub referrer: String,
    /// The specifier as it is written in the importing module.
    pub specifier_text: String,
    /// The specifier of the module that it resolves to.
    pub specifier: String,
}

/// An unchecked module graph.
#[derive(Drop)]
pub struct RawGraph {
    pub modules: Vec<RawModule>,
    /// The redirects: pairs of a specifier and the specifier that it is redirected to.
    pub redirects: Vec<(String, String)>,
    pub resolutions: Vec<RawResolution>,
}
