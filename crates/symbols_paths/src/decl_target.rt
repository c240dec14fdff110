//! Reads the targets of declarations in stored modules.

ghost use Rattle.std.specs.Prelude.{◌≡◌, ◌<◌, ◌^◌, [], length, map, slice_get, None, IfOk, IfSome};
ghost use Rattle.std.specs.Prelude.{MatchOption};
ghost use Rattle.std.specs.Option.{option_map, option_map_or};
ghost use Rattle.symbols_ast.specs.Graph.{GraphView};
ghost use Rattle.symbols_ast.specs.Ids.{IdView, id_view};
ghost use Rattle.symbols_table.specs.DeclViews.{decl_view};
ghost use Rattle.symbols_table.specs.Modules.{symbol_table_of_ref, symbol_of_ident_in_table};
ghost use Rattle.symbols_root.specs.declared.rules.Rules.{Rules};
ghost use Rattle.symbols_root.specs.Roots.{specifier_in};
ghost use Rattle.symbols_root.specs.Calls.{IsStored};
ghost use Rattle.symbols_exports.specs.StarStatements.{star_specifiers};
ghost use Rattle.symbols_paths.specs.PathTrees.{SymbolBySpecifier};
ghost use Rattle.symbols_paths.specs.DeclTargets.{explicit_export, searches_stars_for};
ghost use Rattle.symbols_paths.specs.DeclTargets.{declarations_of, target_of_decl, symbol_of_id};
ghost use Rattle.symbols_paths.specs.PartTargets.{export_of_symbol, is_class_decl_at};
ghost use Rattle.symbols_paths.specs.Views.{decl_by_specifier, strings_view};
ghost use Rattle.symbols_paths.specs.inner.Views.{symbol_of_unique_id, first_part};
ghost use Rattle.symbols_paths.specs.inner.SearchSteps.{decl_target_view, IsImportOrAliasTargetOfDecl};
ghost use Rattle.symbols_paths.specs.inner.SearchSteps.{IsTargetOfDeclAtIndex};

use crate::definition::{DeclRef, DefinitionKind};
use crate::shared_parts::SharedParts;
use std::alloc::{AllocError, Global};
use symbols_graph::ids::{ModuleId, SymbolId, UniqueSymbolId};
use symbols_graph::tree::{Id, SourceRange};
use symbols_root::{RootSymbol, Rules};
use symbols_table::decl::{FileDepName, SymbolDecl, SymbolDeclKind};
use symbols_table::info::ModuleInfoRef;

/// A named import: the name in the imported module, and the import's specifier.
#[derive(Clone, Copy)]
pub(crate) struct NamedImport<'a> {
    pub(crate) name: &'a str,
    pub(crate) specifier_text: &'a str,
}

/// The target of a declaration. `Definition`: the declaration defines, or is a star import.
/// `Nothing`: it is another name of a name without a symbol. `Symbol`: it is another name of this
/// symbol of its module. `UnresolvedId`: it is a qualified name whose first name has no symbol.
/// `Alias`: it is a qualified name, of this symbol and these parts. `Import`: it is a named import.
#[derive(Drop)]
pub(crate) enum DeclTarget<'a> {
    Definition(DefinitionKind<'a>, SourceRange),
    Nothing,
    Symbol(SymbolId),
    UnresolvedId(&'a Id, SharedParts),
    Alias(SymbolId, SharedParts),
    Import(NamedImport<'a>),
}

/// Returns the symbol of a name of a module, or `None` if the name has none.
fn symbol_id_of_id(info: ModuleInfoRef<'_, '_>, id: &Id) -> Option<SymbolId>
    ensures { result ≡ symbol_of_ident_in_table (symbol_table_of_ref info.entry) (id_view id.now) }
{
    match info.esm() {
        Some(esm) => esm.symbol_id_from_swc(id),
        None => None,
    }
}

/// Returns the target of a declaration of a module.
fn target_of_decl<'a>(
    alloc: Global,
    info: ModuleInfoRef<'_, 'a>,
    decl: &SymbolDecl<'a>,
) -> Result<DeclTarget<'a>, AllocError>
    ensures decl_targets { IfOk result
        (λ decl_target. (rules : Rules) (graph : GraphView) (s : SymbolBySpecifier)
        → ((id : IdView) → symbol_of_ident_in_table (symbol_table_of_ref info.entry) id
        ≡ symbol_of_id graph s.specifier id) → decl_target_view rules graph s decl_target
        ≡ target_of_decl rules graph s (decl_view decl.now).range (decl_view decl.now).kind) }
    ensures imports { IfOk result
        (λ decl_target. IsImportOrAliasTargetOfDecl decl_target (decl_view decl.now)) }
{
    match &decl.kind {
        SymbolDeclKind::Definition(_) => Ok(DeclTarget::Definition(
            DefinitionKind::Definition,
            decl.range,
        )),
        SymbolDeclKind::Target(id) => match symbol_id_of_id(info, id) {
            Some(symbol_id) => Ok(DeclTarget::Symbol(symbol_id)),
            None => Ok(DeclTarget::Nothing),
        },
        SymbolDeclKind::QualifiedTarget(id, parts) => match symbol_id_of_id(info, id) {
            Some(symbol_id) => Ok(DeclTarget::Alias(symbol_id, SharedParts::new(alloc, parts)?)),
            None => Ok(DeclTarget::UnresolvedId(*id, SharedParts::new(alloc, parts)?)),
        },
        SymbolDeclKind::FileRef(dep) => match dep.name {
            FileDepName::Star => Ok(DeclTarget::Definition(
                DefinitionKind::ExportStar(*dep),
                decl.range,
            )),
            FileDepName::Name(name) => {
                let specifier_text = dep.specifier;
                Ok(DeclTarget::Import(NamedImport {
                    name,
                    specifier_text,
                }))
            }
        },
    }
}

/// Returns what kind of definition a declaration is, or `None` if it is another name.
pub(crate) fn definition_kind<'a>(decl: &SymbolDecl<'a>) -> Option<DefinitionKind<'a>>
    ensures { IfSome result (λ kind. (rules : Rules) (graph : GraphView) (s : SymbolBySpecifier)
        → decl_target_view rules graph s (DeclTarget.Definition kind decl.now.range)
        ≡ target_of_decl rules graph s (decl_view decl.now).range (decl_view decl.now).kind) }
{
    match &decl.kind {
        SymbolDeclKind::Definition(_) => Some(DefinitionKind::Definition),
        SymbolDeclKind::FileRef(dep) => match dep.name {
            FileDepName::Star => Some(DefinitionKind::ExportStar(*dep)),
            FileDepName::Name(_) => None,
        },
        SymbolDeclKind::Target(_) => None,
        SymbolDeclKind::QualifiedTarget(_, _) => None,
    }
}

/// Returns the declarations of a symbol of a stored module, or `None` if the module has no such
/// symbol.
pub(crate) fn decls_of_symbol<'r, 'a>(
    root: &'r RootSymbol<'a>,
    symbol: UniqueSymbolId,
) -> Option<&'r [SymbolDecl<'a>]>
    requires { IsStored root.now symbol.module_id }
    ensures decls { option_map_or (λ decls. map decl_view decls.now) result []
        ≡ declarations_of root.now.graph (symbol_of_unique_id root.now symbol) }
    ensures few { IfSome result (λ decls. length decls.now < 2 ^ 32) }
{
    match root.module_from_id(symbol.module_id)? {
        ModuleInfoRef::Esm(esm) => Some(esm.symbol(symbol.symbol_id)?.decls()),
        ModuleInfoRef::Json(json) => Some(json.symbol(symbol.symbol_id)?.decls()),
    }
}

/// Returns the target of the declaration of a symbol at an index, or `None` if there is no such
/// declaration.
pub(crate) fn decl_target_at<'a>(
    root: &RootSymbol<'a>,
    symbol: UniqueSymbolId,
    index: u32,
) -> Result<Option<DeclTarget<'a>>, AllocError>
    requires { IsStored root.now symbol.module_id }
    ensures reads { IfOk result (λ decl_target. MatchOption decl_target
        (slice_get (declarations_of root.now.graph (symbol_of_unique_id root.now symbol)) index ≡
        None)
        (IsTargetOfDeclAtIndex root.now.rules root.now.graph (symbol_of_unique_id root.now symbol)
        index)) }
    ensures few { length (declarations_of root.now.graph
        (symbol_of_unique_id root.now symbol)) < 2 ^ 32 }
{
    let Some(info) = root.module_from_id(symbol.module_id) else {
        return Ok(None);
    };
    let Some(decls) = decls_of_symbol(root, symbol) else {
        return Ok(None);
    };
    match decls.get(index as usize) {
        Some(decl) => Ok(Some(target_of_decl(root.alloc(), info, decl)?)),
        None => Ok(None),
    }
}

/// Returns the symbol that a stored module exports locally under a name, or `None` if there is
/// none.
pub(crate) fn explicit_export(
    root: &RootSymbol<'_>,
    module_id: ModuleId,
    name: &str,
) -> Option<SymbolId>
    requires { IsStored root.now module_id }
    ensures { result ≡ explicit_export root.now.graph (specifier_in root.now module_id) name.now }
{
    match root.module_from_id(module_id) {
        Some(info) => info.module_symbol().export(name),
        None => unreachable!(),
    }
}

/// Returns whether the search for an imported name goes on to the imported module's `export *`
/// statements: under `Strict` not for `default`.
pub(crate) fn searches_stars_for(rules: Rules, name: &str) -> bool
    ensures { result ≡ searches_stars_for rules name.now }
{
    match rules {
        Rules::Deno => true,
        Rules::Strict => name != "default",
    }
}

/// Returns the specifier of an `export *` statement of a stored module, by its index among these
/// statements.
pub(crate) fn star_specifier<'a>(
    root: &RootSymbol<'a>,
    module_id: ModuleId,
    position: usize,
) -> Option<&'a str>
    requires { IsStored root.now module_id }
    ensures specifier_text { option_map (λ specifier_text. specifier_text.now) result
        ≡ slice_get (star_specifiers root.now.graph (specifier_in root.now module_id)) position }
    ensures few { length (star_specifiers root.now.graph (specifier_in root.now module_id))
        < 2 ^ 63 }
{
    match root.module_from_id(module_id) {
        Some(info) => info.re_export_all_specifier(position),
        None => unreachable!(),
    }
}

/// Returns the symbol that a symbol of a stored module exports under the first of these parts.
/// Returns `None` if there is no such export, or no such symbol.
pub(crate) fn export_of_symbol(
    root: &RootSymbol<'_>,
    symbol: UniqueSymbolId,
    parts: &[String],
) -> Option<SymbolId>
    requires known { IsStored root.now symbol.module_id }
    requires some { 0 < length parts.now }
    ensures { result ≡ export_of_symbol root.now.graph (symbol_of_unique_id root.now symbol)
        (first_part
        (strings_view parts.now)) }
{
    match root.module_from_id(symbol.module_id)? {
        ModuleInfoRef::Esm(esm) => esm.symbol(symbol.symbol_id)?.export(parts[0].as_str()),
        ModuleInfoRef::Json(json) => json.symbol(symbol.symbol_id)?.export(parts[0].as_str()),
    }
}

/// Returns whether a declaration of a stored module is a class; false if there is no such
/// declaration.
pub(crate) fn is_class_decl_at(root: &RootSymbol<'_>, module_id: ModuleId, decl: DeclRef) -> bool
    requires { IsStored root.now module_id }
    ensures { result ≡ is_class_decl_at root.now.graph (decl_by_specifier root.now module_id decl) }
{
    match decls_of_symbol(root, UniqueSymbolId::new(module_id, decl.symbol)) {
        Some(decls) => match decls.get(decl.index as usize) {
            Some(decl) => decl.is_class(),
            None => false,
        },
        None => false,
    }
}
