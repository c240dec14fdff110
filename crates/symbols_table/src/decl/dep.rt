//! Names that a declaration imports or re-exports from another module.

ghost use Rattle.std.specs.Prelude.{◌≡◌, true};
ghost use Rattle.std.specs.Bool.{Decides};
ghost use Rattle.std.specs.Option.{option_copied};

/// The part of another module that is imported: the whole module or one exported name (as
/// deno_graph).
#[derive(Clone, Copy, Debug, PartialEq, Eq, Hash)]
pub enum FileDepName<'a> {
    Star,
    Name(&'a str),
}

impl<'a> FileDepName<'a> {
    ghost use Rattle.symbols_table.specs.DeclViews.{file_dep_name_view, imported_name};

    /// Returns the imported name. It is `None` where the whole module is imported (as deno_graph).
    pub fn maybe_name(&self) -> Option<&'a str>
        ensures { option_copied result ≡ imported_name (file_dep_name_view self.now) }
    {
        match self {
            FileDepName::Star => None,
            FileDepName::Name(name) => Some(*name),
        }
    }

    /// Returns whether both import the same name, or both the whole module (extension). It agrees
    /// with `==`, and is true of a clone.
    pub fn is_same(&self, other: &FileDepName<'_>) -> bool
        ensures same { Decides result (file_dep_name_view self.now ≡ file_dep_name_view other.now) }
        ensures equal { result ≡ ⟦<FileDepName<'static> as PartialEq>⟧.eq self.now other.now }
        ensures cloned { ⟦<FileDepName<'static> as Clone>⟧.is_clone self.now other.now
            → result ≡ true }
    {
        self == other
    }
}

/// A name of another module with that module's specifier (as deno_graph).
#[derive(Clone, Copy, Debug, PartialEq, Eq, Hash)]
pub struct FileDep<'a> {
    pub name: FileDepName<'a>,
    pub specifier: &'a str,
}

impl FileDep<'_> {
    ghost use Rattle.symbols_table.specs.DeclViews.{file_dep_view};

    /// Returns whether both have the same name and the same specifier text (extension). It agrees
    /// with `==`, and is true of a clone. No specifier is resolved.
    pub fn is_same(&self, other: &FileDep<'_>) -> bool
        ensures same { Decides result (file_dep_view self.now ≡ file_dep_view other.now) }
        ensures equal { result ≡ ⟦<FileDep<'static> as PartialEq>⟧.eq self.now other.now }
        ensures cloned { ⟦<FileDep<'static> as Clone>⟧.is_clone self.now other.now → result ≡ true }
    {
        self == other
    }
}
