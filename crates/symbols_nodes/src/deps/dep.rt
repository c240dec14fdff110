//! References to symbols, their namespaces, and the modes in which they are collected.

ghost use Rattle.std.specs.Prelude.{◌≡◌, true};
ghost use Rattle.std.specs.Bool.{Decides};
ghost use Rattle.symbols_nodes.specs.References.{visits_expressions, reference_view};

use std::borrow::CowStr;
use symbols_ast::tree::Id;

/// The parts of a declaration in which dependencies are collected (as deno_graph).
#[derive(Clone, Copy, Debug, PartialEq, Eq, Hash)]
pub enum ResolveDepsMode {
    /// Types, and values that are visited in any mode, such as a superclass.
    TypesOnly,
    /// Types and expressions.
    TypesAndExpressions,
}

impl ResolveDepsMode {
    /// Returns whether expressions are visited (as deno_graph).
    pub fn visit_exprs(self) -> bool
        ensures { result ≡ visits_expressions self }
    {
        match self {
            ResolveDepsMode::TypesOnly => false,
            ResolveDepsMode::TypesAndExpressions => true,
        }
    }
}

/// The namespace in which a reference looks for its symbol (as deno_graph).
#[derive(Clone, Copy, Debug, PartialEq, Eq, Hash)]
pub enum ReferenceNamespace {
    Value,
    Type,
    Both,
}

impl ReferenceNamespace {
    /// Returns whether both are the same namespace (extension). It agrees with `==`, and is true of
    /// a clone.
    pub fn is_same(self, other: ReferenceNamespace) -> bool
        ensures same { Decides result (self ≡ other) }
        ensures equal { result ≡ ⟦<ReferenceNamespace as PartialEq>⟧.eq self other }
        ensures cloned { ⟦<ReferenceNamespace as Clone>⟧.is_clone self other → result ≡ true }
    {
        self == other
    }
}

/// A reference to a symbol (as deno_graph). Its names are borrowed from the tree. Only a private
/// name, which is written with its `#`, is owned.
#[derive(Clone, Debug, Drop, PartialEq, Eq, Hash)]
pub enum SymbolNodeDep<'a> {
    /// A reference to an identifier.
    Id(&'a Id),
    /// A dotted name like `a.b.c`: its first identifier and the parts after it.
    QualifiedId(&'a Id, Vec<CowStr<'a>>),
    /// An import type like `import("./m").a.b`: the specifier and the parts after it.
    ImportType(&'a str, Vec<CowStr<'a>>),
}

impl SymbolNodeDep<'_> {
    /// Returns whether both are the same reference: variant, identifier and parts are equal
    /// (extension). It agrees with `==`.
    pub fn is_same(&self, other: &SymbolNodeDep<'_>) -> bool
        ensures same { Decides result (reference_view self.now ≡ reference_view other.now) }
        ensures equal { result ≡ ⟦<SymbolNodeDep<'static> as PartialEq>⟧.eq self.now other.now }
    {
        self == other
    }
}

impl<'a> From<&'a Id> for SymbolNodeDep<'a> {
    ghost use Rattle.symbols_nodes.specs.declared.deps.dep.SymbolNodeDep.TheVariants as Dep;

    ghost from_gives = { λ name dep. dep ≡ Dep.Id name };

    fn from(name: &'a Id) -> SymbolNodeDep<'a> {
        SymbolNodeDep::Id(name)
    }
}
