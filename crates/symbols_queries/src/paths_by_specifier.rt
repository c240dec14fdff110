//! Definition paths, with modules by specifier.

ghost use Rattle.std.specs.Prelude.{◌≡◌, ◌<◌, length, map, IfOk, IfSome};
ghost use Rattle.symbols_queries.specs.declared.paths_by_specifier.PathBySpecifier.TheVariants as path;
ghost use Rattle.symbols_paths.specs.Views.{definition_by_specifier, unresolved_entry_view};
ghost use Rattle.symbols_paths.specs.Views.{path_by_specifier, paths_by_specifier};
ghost use Rattle.symbols_paths.specs.Views.{path_leaf_of_end, remaining_definitions};
ghost use Rattle.symbols_paths.specs.Views.{remaining_ends, modules_of_path};
ghost use Rattle.symbols_paths.specs.Views.{modules_of_paths, module_of_definition, module_of_end};
ghost use Rattle.symbols_paths.specs.Views.{AreModulesStored};
ghost use Rattle.symbols_paths.specs.DepAnswers.{resolved_dep_entry_view, modules_of_entry};
ghost use Rattle.symbols_paths.specs.DepAnswers.{modules_of_entries};
ghost use Rattle.symbols_queries.specs.Queries.{definition_by_specifier_view, unresolved_by_specifier_view};
ghost use Rattle.symbols_queries.specs.Queries.{path_tree_view, path_forest_view, path_end_view, dep_entry_view};

use std::alloc::{AllocError, Global};
use std::mem;
use symbols_graph::ids::SymbolId;
use symbols_graph::tree::SourceRange;
use symbols_paths::{
    DeclRef, Definition, DefinitionKind, DefinitionOrUnresolved, DefinitionPathLink,
    DefinitionPathNode, DefinitionUnresolved, DefinitionUnresolvedKind, DefinitionsIter,
    DefinitionsOrUnresolvedsIter, OpenedPathNode, ResolvedSymbolDepEntry,
};
use symbols_root::RootSymbol;

/// A definition, or a star import (extension; its module by specifier).
#[derive(Clone, Copy)]
pub struct DefinitionBySpecifier<'a> {
    pub kind: DefinitionKind<'a>,
    /// The specifier of the declaration's module.
    pub module: &'a str,
    /// The declaration: its symbol, and its index among the declarations of that symbol.
    pub decl: DeclRef,
    /// The declaration's range in the module's source text, in bytes.
    pub range: SourceRange,
}

/// The end of a path without a definition (extension; its module by specifier).
#[derive(Drop)]
pub struct UnresolvedBySpecifier<'a> {
    /// The specifier of the module in which the name, the specifier or the part isn't found.
    pub module: &'a str,
    /// The reason why it isn't found.
    pub kind: DefinitionUnresolvedKind,
    /// The parts that remain to be resolved.
    pub parts: Vec<String>,
}

/// A link of a definition path: a declaration, and the paths from what it refers to (extension; its
/// module by specifier).
#[cycle(named)]
#[derive(Drop)]
pub struct PathLinkBySpecifier<'a> {
    /// The specifier of the module of the declaration.
    pub module: &'a str,
    /// The symbol that the declaration is another name of, if that is one of the same module; else
    /// the declaration's own symbol.
    pub symbol: SymbolId,
    /// The declaration that refers to what is next.
    pub decl: DeclRef,
    /// The parts that remain to be resolved here, as `b` and `c` of `a.b.c`.
    pub parts: Vec<String>,
    /// The paths after this link, never empty.
    pub next: Vec<PathBySpecifier<'a>>,
}

/// A definition path: a tree whose leaves are definitions and unresolved ends (extension; modules
/// by specifier).
#[cycle(named)]
pub enum PathBySpecifier<'a> {
    Link(PathLinkBySpecifier<'a>),
    Definition(DefinitionBySpecifier<'a>),
    Unresolved(UnresolvedBySpecifier<'a>),
}

/// Drops the paths one after another, as `DefinitionPathNode` drops its nodes.
impl Drop for PathBySpecifier<'_> {
    fn drop(mut self) {
        let Some(link) = self.into_link() else {
            return;
        };
        let mut work = link.next;
        let Some(first) = work.pop() else {
            work.destroy_empty();
            return;
        };
        self = first;
        loop {
            if let Some(link) = self.into_link() {
                let PathLinkBySpecifier {
                    module,
                    symbol,
                    decl,
                    parts,
                    mut next,
                } = link;
                if next.is_empty() {
                    next.destroy_empty();
                } else if work.is_empty() {
                    work.destroy_empty();
                    work = next;
                } else {
                    let link = PathLinkBySpecifier {
                        module,
                        symbol,
                        decl,
                        parts,
                        next: work,
                    };
                    self = mem::replace(&mut next[0], PathBySpecifier::Link(link));
                    work = next;
                    continue;
                }
            }
            let Some(path) = work.pop() else {
                work.destroy_empty();
                return;
            };
            self = path;
        }
    }
}

impl<'a> PathBySpecifier<'a> {
    /// Returns the link that this path begins with; any other path is dropped.
    fn into_link(self) -> Option<PathLinkBySpecifier<'a>>
        ensures { IfSome result (λ link. self.entry ≡ path.Link link) }
    {
        match self {
            PathBySpecifier::Link(link) => Some(link),
            PathBySpecifier::Definition(_) => None,
            PathBySpecifier::Unresolved(_) => None,
        }
    }
}

/// The end of a path (extension; its module by specifier).
#[derive(Drop)]
pub enum PathEndBySpecifier<'a> {
    Definition(DefinitionBySpecifier<'a>),
    Unresolved(UnresolvedBySpecifier<'a>),
}

/// An entry of a resolved reference: a path, or for an import type without parts the specifier of
/// the module (extension).
#[derive(Drop)]
pub enum DepEntryBySpecifier<'a> {
    Path(PathBySpecifier<'a>),
    ImportType(&'a str),
}

fn definition_by_specifier<'a>(
    root: &RootSymbol<'a>,
    definition: &Definition<'a>,
) -> DefinitionBySpecifier<'a>
    requires { definition.now.«module».0 < length root.now.stored }
    ensures { definition_by_specifier_view result ≡ definition_by_specifier root.now
        definition.now }
{
    DefinitionBySpecifier {
        kind: definition.kind,
        module: root.specifier_from_id(definition.module),
        decl: definition.symbol_decl,
        range: definition.range,
    }
}

fn unresolved_by_specifier<'a>(
    root: &RootSymbol<'a>,
    unresolved: DefinitionUnresolved,
) -> UnresolvedBySpecifier<'a>
    requires { unresolved.«module».0 < length root.now.stored }
    ensures { unresolved_by_specifier_view result ≡ unresolved_entry_view root.now unresolved }
{
    UnresolvedBySpecifier {
        module: root.specifier_from_id(unresolved.module),
        kind: unresolved.kind,
        parts: unresolved.parts,
    }
}

/// A link whose next paths are being converted: the link without them, the paths after it that are
/// still to be converted, the next one last, and the converted ones before it.
#[derive(Drop)]
struct OpenLink<'a> {
    module: &'a str,
    symbol: SymbolId,
    decl: DeclRef,
    parts: Vec<String>,
    rest: Vec<DefinitionPathNode<'a>>,
    before: Vec<PathBySpecifier<'a>>,
}

/// Returns the paths with specifiers in place of module numbers. The innermost of the open links is
/// the last of `links`.
pub(crate) fn paths_by_specifier<'a>(
    alloc: Global,
    root: &RootSymbol<'a>,
    paths: Vec<DefinitionPathNode<'a>>,
) -> Result<Vec<PathBySpecifier<'a>>, AllocError>
    requires { AreModulesStored root.now (modules_of_paths paths.items) }
    ensures { IfOk result
        (λ named. path_forest_view named.items ≡ paths_by_specifier root.now paths.entry.items) }
{
    let mut named = Vec::new(alloc);
    let mut rest = paths;
    rest.reverse();
    let mut links: Vec<OpenLink<'a>> = Vec::new(alloc);
    loop {
        if let Some(path) = rest.pop() {
            match path.into_opened() {
                OpenedPathNode::Unresolved(unresolved) => {
                    named.push(PathBySpecifier::Unresolved(unresolved_by_specifier(
                        root, unresolved,
                    )))?;
                }
                OpenedPathNode::Definition(definition) => {
                    named.push(PathBySpecifier::Definition(definition_by_specifier(
                        root,
                        &definition,
                    )))?;
                }
                OpenedPathNode::Link(link) => {
                    let DefinitionPathLink {
                        module,
                        symbol,
                        symbol_decl,
                        parts,
                        mut next,
                    } = link;
                    next.reverse();
                    links.push(OpenLink {
                        module: root.specifier_from_id(module),
                        symbol,
                        decl: symbol_decl,
                        parts,
                        rest,
                        before: named,
                    })?;
                    rest = next;
                    named = Vec::new(alloc);
                }
            }
        } else {
            let Some(link) = links.pop() else {
                return Ok(named);
            };
            let OpenLink {
                module,
                symbol,
                decl,
                parts,
                rest: after,
                before,
            } = link;
            let closed = PathLinkBySpecifier {
                module,
                symbol,
                decl,
                parts,
                next: named,
            };
            rest = after;
            named = before;
            named.push(PathBySpecifier::Link(closed))?;
        }
    }
}

/// Returns the path with specifiers in place of module numbers.
fn path_by_specifier<'a>(
    alloc: Global,
    root: &RootSymbol<'a>,
    path: DefinitionPathNode<'a>,
) -> Result<PathBySpecifier<'a>, AllocError>
    requires { AreModulesStored root.now (modules_of_path path) }
    ensures { IfOk result (λ named. path_tree_view named ≡ path_by_specifier root.now path.entry) }
{
    let mut paths = Vec::new(alloc);
    paths.push(path)?;
    let mut named = paths_by_specifier(alloc, root, paths)?;
    match named.pop() {
        Some(path) => Ok(path),
        None => unreachable!(),
    }
}

fn path_end_by_specifier<'a>(
    root: &RootSymbol<'a>,
    end: DefinitionOrUnresolved<'a>,
) -> PathEndBySpecifier<'a>
    requires { (module_of_end end).0 < length root.now.stored }
    ensures { path_end_view result ≡ path_leaf_of_end root.now end.entry }
{
    match end {
        DefinitionOrUnresolved::Definition(definition) => {
            PathEndBySpecifier::Definition(definition_by_specifier(root, &definition))
        }
        DefinitionOrUnresolved::Unresolved(unresolved) => {
            PathEndBySpecifier::Unresolved(unresolved_by_specifier(root, unresolved))
        }
    }
}

/// Returns the definitions with specifiers in place of module numbers.
pub(crate) fn definitions_by_specifier<'a>(
    alloc: Global,
    root: &RootSymbol<'a>,
    definitions: DefinitionsIter<'a>,
) -> Result<Vec<DefinitionBySpecifier<'a>>, AllocError>
    requires { AreModulesStored root.now
        (map module_of_definition (remaining_definitions definitions)) }
    ensures { IfOk result (λ named. map definition_by_specifier_view named.items
        ≡ map (definition_by_specifier root.now) (remaining_definitions definitions.entry)) }
{
    let mut named = Vec::new(alloc);
    for definition in definitions {
        named.push(definition_by_specifier(root, &definition))?;
    }
    Ok(named)
}

/// Returns the ends of paths with specifiers in place of module numbers.
pub(crate) fn path_ends_by_specifier<'a>(
    alloc: Global,
    root: &RootSymbol<'a>,
    ends: DefinitionsOrUnresolvedsIter<'a>,
) -> Result<Vec<PathEndBySpecifier<'a>>, AllocError>
    requires { AreModulesStored root.now (map module_of_end (remaining_ends ends)) }
    ensures { IfOk result
        (λ named. map path_end_view named.items ≡ map (path_leaf_of_end root.now)
        (remaining_ends ends.entry)) }
{
    let mut named = Vec::new(alloc);
    for end in ends {
        named.push(path_end_by_specifier(root, end))?;
    }
    Ok(named)
}

fn entry_by_specifier<'a>(
    alloc: Global,
    root: &RootSymbol<'a>,
    found: ResolvedSymbolDepEntry<'a>,
) -> Result<DepEntryBySpecifier<'a>, AllocError>
    requires { AreModulesStored root.now (modules_of_entry found) }
    ensures { IfOk result
        (λ named. dep_entry_view named ≡ resolved_dep_entry_view root.now found.entry) }
{
    match found {
        ResolvedSymbolDepEntry::Path(path) => {
            Ok(DepEntryBySpecifier::Path(path_by_specifier(alloc, root, path)?))
        }
        ResolvedSymbolDepEntry::ImportType(module_id) => {
            Ok(DepEntryBySpecifier::ImportType(root.specifier_from_id(module_id)))
        }
    }
}

/// Returns the entries with specifiers in place of module numbers.
pub(crate) fn entries_by_specifier<'a>(
    alloc: Global,
    root: &RootSymbol<'a>,
    entries: Vec<ResolvedSymbolDepEntry<'a>>,
) -> Result<Vec<DepEntryBySpecifier<'a>>, AllocError>
    requires { AreModulesStored root.now (modules_of_entries entries.items) }
    ensures { IfOk result
        (λ named. map dep_entry_view named.items ≡ map (resolved_dep_entry_view root.now)
        entries.entry.items) }
{
    let mut named = Vec::new(alloc);
    for entry in entries {
        named.push(entry_by_specifier(alloc, root, entry)?)?;
    }
    Ok(named)
}
