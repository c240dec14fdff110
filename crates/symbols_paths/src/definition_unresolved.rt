//! Unresolved ends of definition paths.

use symbols_graph::ids::ModuleId;
use symbols_graph::tree::Id;

/// The reason why a path ends without a definition (as deno_graph).
#[derive(Drop)]
pub enum DefinitionUnresolvedKind {
    /// The name has no symbol in the module.
    Id(Id),
    /// The specifier resolves to no module.
    Specifier(String),
    /// The module or the symbol doesn't export this part, or the module doesn't export this name of
    /// a named import.
    Part(String),
}

/// The end of a path without a definition (as deno_graph).
#[derive(Drop)]
pub struct DefinitionUnresolved {
    /// The module in which the name, the specifier or the part isn't found.
    pub module: ModuleId,
    /// The reason why it isn't found.
    pub kind: DefinitionUnresolvedKind,
    /// The remaining parts at this point, the missing part included. Empty where a named import
    /// fails.
    pub parts: Vec<String>,
}
