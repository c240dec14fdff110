//! The kind of body that items are in.

/// Whether items are ambient, and whether they are in the module's own body rather than a
/// namespace. In a namespace every ambient item is exported. In the module nothing is exported
/// without `export`.
#[derive(Clone, Copy)]
pub(crate) struct Scope {
    pub(crate) ambient: bool,
    pub(crate) is_module: bool,
}
