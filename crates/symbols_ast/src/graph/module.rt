//! The modules of a checked graph.

ghost use Rattle.std.specs.Prelude.{◌≡◌, IfSome};
ghost use Rattle.std.specs.Option.{option_copied};
ghost use Rattle.symbols_ast.specs.Graph.{module_view, content_text, content_tree};
ghost use Rattle.symbols_ast.specs.Graph.{content_types_dependency, is_json, IsCheckedContent};
ghost use Rattle.symbols_ast.specs.Graph.{content_view};
ghost use Rattle.symbols_ast.specs.TreeFaults.{IsFaultlessTree};
ghost use Rattle.symbols_ast.specs.WellFormed.{IsWellFormedTree};

use crate::graph::raw::{RawModule, RawModuleKind};
use crate::tree::Tree;
use std::marker::Model;

/// A module of a graph. Its tree, if it has one, passed the check.
#[derive(Drop)]
pub struct GraphModule {
    specifier: String,
    kind: RawModuleKind,
}

impl Model for GraphModule {
    ghost use Rattle.std.specs.Prelude.{string_bytes};
    ghost use Rattle.symbols_ast.specs.Graph.{ModuleView, IsCheckedContent, content_view};

    ghost Value = { ModuleView };

    ghost view = { λ m.
        record { specifier = string_bytes m.specifier; content = content_view m.kind } };

    ghost invariant = { λ m. IsCheckedContent (content_view m.kind) };
}

impl GraphModule {
    /// Returns the module of a raw one whose tree was checked.
    pub fn from_raw(raw: RawModule) -> GraphModule
        requires { IsCheckedContent (content_view raw.kind) }
        ensures { result ≡ module_view raw }
    {
        GraphModule {
            specifier: raw.specifier,
            kind: raw.kind,
        }
    }

    /// Returns the module's specifier.
    pub fn specifier(&self) -> &str
        ensures { result.now ≡ self.now.specifier }
    {
        self.specifier.as_str()
    }

    /// Returns the module's source text; empty for an external module.
    pub fn text(&self) -> &str
        ensures { result.now ≡ content_text self.now.content }
    {
        match &self.kind {
            RawModuleKind::Esm { text, .. } | RawModuleKind::Json { text } => text.as_str(),
            RawModuleKind::External => "",
        }
    }

    /// Returns the module's syntax tree. It is `None` for JSON, for an external module, and if
    /// parsing failed.
    pub fn tree(&self) -> Option<&Tree>
        ensures value { option_copied result ≡ content_tree self.now.content }
        ensures checked { IfSome result (λ t. IsWellFormedTree t.now.nodes.items) }
        ensures faultless { IfSome result
            (λ t. IsFaultlessTree (content_text self.now.content) t.now.nodes.items) }
    {
        match &self.kind {
            RawModuleKind::Esm { tree, .. } => tree.as_ref(),
            _ => None,
        }
    }

    /// Returns the specifier of the module that has this module's types, if one was given.
    pub fn types_dependency(&self) -> Option<&str>
        ensures { option_copied result ≡ content_types_dependency self.now.content }
    {
        match &self.kind {
            RawModuleKind::Esm { types, .. } => types.as_ref().map(String::as_str),
            _ => None,
        }
    }

    /// Returns whether the module is a JSON module.
    pub fn is_json(&self) -> bool
        ensures { result ≡ is_json self.now.content }
    {
        matches!(&self.kind, RawModuleKind::Json { .. })
    }
}
