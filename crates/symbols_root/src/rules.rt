//! The rules by which a root looks names up along `export *`.

/// The rules for names along `export *` (extension; the crate has Deno's alone). By `Deno`, an
/// import of `default` is also looked up through the `export *` statements of the imported module
/// itself, but not through those of other modules. By `Strict`, `default` is never looked up there,
/// as ECMAScript says, and `exports` also returns the shared names.
#[derive(Clone, Copy, Debug, PartialEq, Eq)]
pub enum Rules {
    Deno,
    Strict,
}
