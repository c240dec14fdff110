//! Definitions at the ends of definition paths.

ghost use Rattle.std.specs.Prelude.{◌≡◌};
ghost use Rattle.std.specs.Bool.{Decides};
ghost use Rattle.std.specs.Str.Pattern.{GetsRange};

use std::ops::Range;
use symbols_graph::ids::{ModuleId, SymbolId};
use symbols_graph::tree::SourceRange;
use symbols_table::decl::FileDep;

/// A declaration of a module: its symbol, and its index among the symbol's declarations (extension;
/// the crate borrows the declaration).
#[derive(Clone, Copy, Debug, PartialEq, Eq, Hash)]
pub struct DeclRef {
    pub symbol: SymbolId,
    pub index: u32,
}

/// The kind of a definition (as deno_graph). `ExportStar` is a star import, as
/// `import * as a from "./a"` or `export * as a from "./a"`, with its file dependency. The name is
/// upstream's: it is not `export *`. `Definition` is any other definition.
#[derive(Clone, Copy, Debug, PartialEq, Eq, Hash)]
pub enum DefinitionKind<'a> {
    ExportStar(FileDep<'a>),
    Definition,
}

impl DefinitionKind<'_> {
    ghost use Rattle.symbols_paths.specs.Views.{star_import_view};

    /// Returns whether the kinds are equal, and for star imports whether their file dependencies
    /// are (extension). This is the result of `==`, and equal kinds have equal hashes.
    pub fn is_same(&self, other: &DefinitionKind<'_>) -> bool
        ensures { Decides result (star_import_view self.now ≡ star_import_view other.now) }
    {
        self == other
    }
}

/// A definition of a symbol (as deno_graph, which borrows the module, the symbol and the
/// declaration; here they are numbers, of the root that returned the definition).
#[derive(Clone, Copy)]
pub struct Definition<'a> {
    pub kind: DefinitionKind<'a>,
    /// The module of the declaration.
    pub module: ModuleId,
    /// The symbol that is defined: the declaration's.
    pub symbol: SymbolId,
    /// The declaration.
    pub symbol_decl: DeclRef,
    /// The declaration's range in the module's source text, in bytes.
    pub range: SourceRange,
    pub ghost declared: { symbol ≡ symbol_decl.symbol },
}

impl Definition<'_> {
    /// Returns the range in the module's source text, in bytes (as deno_graph).
    pub fn range(&self) -> &SourceRange
        ensures { result.now ≡ self.now.range }
    {
        &self.range
    }

    /// Returns the range as a `Range<usize>` (as deno_graph).
    pub fn byte_range(&self) -> Range<usize>
        ensures start { result.start ≡ self.now.range.start }
        ensures end { result.end ≡ self.now.range.end }
    {
        self.range.start..self.range.end
    }

    /// Returns the slice of a text at the definition's range. Returns `None` if the range ends
    /// after the text, or isn't on character boundaries (extension; the crate takes the module's
    /// text).
    pub fn text<'t>(&self, text: &'t str) -> Option<&'t str>
        ensures { GetsRange text.now self.now.range.start self.now.range.end result }
    {
        text.get(self.byte_range())
    }
}
