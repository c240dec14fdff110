//! The public names of a module: its exports, and the members of the exported symbols.

ghost use Rattle.std.specs.Prelude.{◌≡◌, ◌≢◌, ◌++◌, ◌∷◌, [], ℕ, List, map, flat_map, All};
ghost use Rattle.std.specs.Prelude.{AllPairs, Some, IfOk, IfErr, OnOk, if◌then◌else◌};
ghost use Rattle.symbols_root.specs.Roots.{specifier_in};
ghost use Rattle.symbols_root.specs.Growing.{HasGrown};
ghost use Rattle.symbols_root.specs.Calls.{IsStored, IsOnlyOutOfMemoryByWidestLimits};
ghost use Rattle.symbols_exports.specs.ExportAnswers.{AreExportListsCorrectAndUnique};
ghost use Rattle.symbols_exports.specs.ExportAnswers.{IsExportsCallFault};
ghost use Rattle.symbols_exports.specs.PublicNames.{public_name_view};
ghost use Rattle.symbols_exports.specs.PublicNames.{is_constructor_or_index_signature};
ghost use Rattle.symbols_exports.specs.PublicNames.{exports_of_symbol};
ghost use Rattle.symbols_exports.specs.PublicNames.{public_names_of_members, public_names_with_members};
ghost use Rattle.symbols_exports.specs.PublicNames.{IsPublicNamesCallResult};
ghost use Rattle.symbols_exports.specs.inner.PublicNames.{public_names_of_export, IsExplicitExport};
ghost use Rattle.symbols_exports.specs.CollectedNames.{ResolvedExportView, resolved_export_views};

use crate::export_chain::{ResolvedExport, ResolvedExportOrReExportAllPath};
use crate::export_walk::exports;
use indexmap::IndexMap;
use std::alloc::{AllocError, Global};
use std::hash::RandomState;
use symbols_graph::ids::ModuleId;
use symbols_root::RootSymbol;
use symbols_table::decl::Exports;
use symbols_table::info::SymbolsFault;

/// A public name of a module: an exported name, with a member or without (extension).
#[derive(Drop)]
pub struct PublicName {
    /// The name that the module exports.
    pub name: String,
    /// A name that the exported symbol itself exports, as a static member of a class or an export
    /// of a namespace. It is `None` for the exported name alone.
    pub member: Option<String>,
}

/// Returns whether a member is a constructor or an index signature. These have a name only in the
/// symbol table.
fn is_constructor_or_index_signature(member: &str) -> bool
    ensures { result ≡ is_constructor_or_index_signature member.now }
{
    member == "%%dg_ctor%%" || member == "%%dg_index%%"
}

/// Returns the names that the symbol of an export itself exports, with their symbols.
fn exports_of_symbol<'r>(root: &'r RootSymbol<'_>, export: &ResolvedExport) -> Exports<'r>
    requires { IsExplicitExport root.now export.now }
    ensures { result ≡ exports_of_symbol root.now.graph (specifier_in root.now
        export.now.«module») export.now.symbol_id }
{
    match root.module_from_id(export.module) {
        Some(info) => match info.symbol(export.symbol_id) {
            Some(symbol) => symbol.exports(),
            None => unreachable!(),
        },
        None => unreachable!(),
    }
}

/// Adds a name with a member, unless the member is a constructor or an index signature.
fn add_member(
    alloc: Global,
    name: &str,
    member: &str,
    names: &mut Vec<PublicName>,
) -> Result<(), AllocError>
    ensures { OnOk result
        (map public_name_view names.new.items ≡ (if is_constructor_or_index_signature member.now
        then map public_name_view names.old.items
        else map public_name_view names.old.items
        ++ record { name = name.now; member = Some member.now }
        ∷ [])) }
{
    if !is_constructor_or_index_signature(member) {
        names.push(PublicName {
            name: String::from_str(alloc, name)?,
            member: Some(String::from_str(alloc, member)?),
        })?;
    }
    Ok(())
}

/// Adds a name with each of its members, in order. Constructors and index signatures are left out.
fn add_members(
    alloc: Global,
    name: &str,
    members: Exports<'_>,
    names: &mut Vec<PublicName>,
) -> Result<(), AllocError>
    ensures { OnOk result (map public_name_view names.new.items
        ≡ map public_name_view names.old.items ++ public_names_of_members name.now members.entry) }
{
    for (member, _) in members {
        add_member(alloc, name, member, names)?;
    }
    Ok(())
}

/// Adds an exported name, then that name with each of its members.
fn add_name(
    root: &RootSymbol<'_>,
    name: &str,
    export: &ResolvedExport,
    names: &mut Vec<PublicName>,
) -> Result<(), AllocError>
    requires { IsExplicitExport root.now export.now }
    ensures { OnOk result
        (map public_name_view names.new.items ≡ map public_name_view names.old.items
        ++ public_names_with_members name.now (exports_of_symbol root.now.graph
        (specifier_in root.now export.now.«module») export.now.symbol_id)) }
{
    names.push(PublicName {
        name: String::from_str(root.alloc(), name)?,
        member: None,
    })?;
    add_members(root.alloc(), name, exports_of_symbol(root, export), names)
}

/// Returns the exported names, in order, each followed by its members.
fn list_names(
    root: &RootSymbol<'_>,
    resolved: &IndexMap<String, ResolvedExportOrReExportAllPath<'_>, RandomState>,
) -> Result<Vec<PublicName>, AllocError>
    requires { All (λ (name : ResolvedExportView). IsExplicitExport root.now name.export)
        (resolved_export_views resolved.now.entries) }
    ensures { IfOk result (λ names. map public_name_view names.items
        ≡ flat_map (public_names_of_export root.now) (resolved_export_views resolved.now.entries)) }
{
    let mut names = Vec::new(root.alloc());
    for (name, chain) in resolved.iter() {
        add_name(root, name.as_str(), chain.as_resolved_export(), &mut names)?;
    }
    Ok(names)
}

/// Returns the public names of a stored module (extension): each exported name in order, followed
/// by one item for each name that its symbol exports. Constructors and index signatures are left
/// out. Imports and aliases are not followed.
///
/// # Errors
///
/// As of `exports`: `UnknownModule` if the id names no stored module; else `OutOfMemory`, or the
/// fault of storing a reachable module. Modules that were stored stay stored.
pub fn public_names(
    root: &mut RootSymbol<'_>,
    module_id: ModuleId,
) -> Result<Vec<PublicName>, SymbolsFault>
    ensures answers { IfOk result
        (λ names. IsPublicNamesCallResult root.old root.new module_id
        (map public_name_view names.items)) }
    ensures once { IfOk result (λ names. AllPairs
        (λ x y. x ≢ y) (map public_name_view names.items)) }
    ensures faults { IfErr result (λ fault. (lookups : ℕ)
        × IsExportsCallFault root.old root.new module_id fault lookups) }
    ensures listed { (start : List ℕ) → AreExportListsCorrectAndUnique root.old.graph start }
    ensures grown { HasGrown root.old root.new }
    ensures enough { IsStored root.old module_id → IsOnlyOutOfMemoryByWidestLimits root.old result }
{
    let found = exports(root, module_id)?;
    Ok(list_names(root, &found.resolved)?)
}
