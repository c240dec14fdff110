//! The shared names of a module, with modules by specifier.

ghost use Rattle.std.specs.Prelude.{◌≡◌, ◌<◌, ℕ, List, length, map, string_bytes, IfOk};
ghost use Rattle.std.specs.Option.{option_map};
ghost use Rattle.symbols_exports.specs.ExportChains.{resolved_export, statements_of_chain};
ghost use Rattle.symbols_exports.specs.SharedNameLists.{shared_name_view_of_resolved};
ghost use Rattle.symbols_exports.specs.SharedNameLists.{AreExporterModulesStored};
ghost use Rattle.symbols_exports.specs.CollectedNames.{resolved_chain_view};
ghost use Rattle.symbols_exports.specs.CollectedNames.{resolved_shared_name_view};
ghost use Rattle.symbols_exports.specs.CollectedNames.{resolved_shared_name_views};
ghost use Rattle.symbols_exports.specs.ExportViews.{export_by_specifier, AreReferrersOfStarsStored};
ghost use Rattle.symbols_exports.specs.ExportViews.{AreModulesOfExportsStored};
ghost use Rattle.symbols_answers.specs.Answers.{some_if_strict};
ghost use Rattle.symbols_queries.specs.Queries.{exporter_view, shared_name_view as named_view, shared_names_view};

use crate::exports_by_specifier::{StarStatementBySpecifier, chain_by_specifier};
use std::alloc::{AllocError, Global};
use symbols_exports::{ResolvedExportOrReExportAllPath, SharedName};
use symbols_graph::ids::SymbolId;
use symbols_root::{RootSymbol, Rules};

/// A module that exports a shared name locally (extension; modules by specifier).
#[derive(Drop)]
pub struct ExporterBySpecifier<'a> {
    /// The `export *` statements of the chain to it, in order.
    pub chain: Vec<StarStatementBySpecifier<'a>>,
    /// The specifier of the module.
    pub module: &'a str,
    /// The symbol that it exports by the name.
    pub symbol: SymbolId,
}

/// A name other than `default` that two or more reachable modules export locally and the queried
/// module itself doesn't export (extension; modules by specifier).
#[derive(Drop)]
pub struct SharedNameBySpecifier<'a> {
    pub name: String,
    /// The modules that export it, in chain order.
    pub exporters: Vec<ExporterBySpecifier<'a>>,
}

fn exporter_by_specifier<'a>(
    alloc: Global,
    root: &RootSymbol<'a>,
    chain: &ResolvedExportOrReExportAllPath<'a>,
) -> Result<ExporterBySpecifier<'a>, AllocError>
    requires statements { AreReferrersOfStarsStored root.now (statements_of_chain chain.now) }
    requires exporter { (resolved_export chain.now).«module».0 < length root.now.stored }
    ensures { IfOk result (λ exporter. (name : List ℕ)
        → exporter_view name exporter ≡ export_by_specifier root.now
        (resolved_chain_view name chain.now)) }
{
    let export = chain.as_resolved_export();
    Ok(ExporterBySpecifier {
        chain: chain_by_specifier(alloc, root, chain)?,
        module: root.specifier_from_id(export.module),
        symbol: export.symbol_id,
    })
}

/// Returns the modules that export a shared name, in order.
fn exporters_by_specifier<'a>(
    alloc: Global,
    root: &RootSymbol<'a>,
    shared: &SharedName<'a>,
) -> Result<Vec<ExporterBySpecifier<'a>>, AllocError>
    requires { AreModulesOfExportsStored root.now (resolved_shared_name_view shared.now).exporters }
    ensures { IfOk result (λ exporters. map (exporter_view (string_bytes shared.now.name))
        exporters.items ≡ map (export_by_specifier root.now)
        (resolved_shared_name_view shared.now).exporters) }
{
    let mut exporters = Vec::new(alloc);
    for chain in &shared.exporters {
        exporters.push(exporter_by_specifier(alloc, root, chain)?)?;
    }
    Ok(exporters)
}

/// Returns the shared names, in order.
fn shared_names_by_specifier<'a>(
    alloc: Global,
    root: &RootSymbol<'a>,
    sharing: Vec<SharedName<'a>>,
) -> Result<Vec<SharedNameBySpecifier<'a>>, AllocError>
    requires { AreExporterModulesStored root.now (resolved_shared_name_views sharing.items) }
    ensures { IfOk result (λ named. shared_names_view named
        ≡ map (shared_name_view_of_resolved root.now)
        (resolved_shared_name_views sharing.entry.items)) }
{
    let mut named = Vec::new(alloc);
    for shared in sharing {
        let exporters = exporters_by_specifier(alloc, root, &shared)?;
        named.push(SharedNameBySpecifier {
            name: shared.name,
            exporters,
        })?;
    }
    Ok(named)
}

/// Returns the shared names by strict rules, and `None` by Deno's rules.
pub(crate) fn shared_names_by_rules<'a>(
    alloc: Global,
    root: &RootSymbol<'a>,
    sharing: Vec<SharedName<'a>>,
) -> Result<Option<Vec<SharedNameBySpecifier<'a>>>, AllocError>
    requires { AreExporterModulesStored root.now (resolved_shared_name_views sharing.items) }
    ensures { IfOk result (λ named. option_map shared_names_view named
        ≡ some_if_strict root.now.rules (map (shared_name_view_of_resolved root.now)
        (resolved_shared_name_views sharing.entry.items))) }
{
    match root.rules() {
        Rules::Deno => Ok(None),
        Rules::Strict => Ok(Some(shared_names_by_specifier(alloc, root, sharing)?)),
    }
}
