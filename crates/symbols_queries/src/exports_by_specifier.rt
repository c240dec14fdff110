//! The exports of a module, with modules by specifier.

ghost use Rattle.std.specs.Prelude.{◌≡◌, ◌<◌, length, map, string_bytes, IfOk};
ghost use Rattle.std.specs.Option.{option_map};
ghost use Rattle.symbols_exports.specs.ExportChains.{resolved_export, statements_of_chain};
ghost use Rattle.symbols_exports.specs.SharedNameLists.{shared_name_view_of_resolved};
ghost use Rattle.symbols_exports.specs.SharedNameLists.{AreExporterModulesStored};
ghost use Rattle.symbols_exports.specs.CollectedNames.{resolved_export_views};
ghost use Rattle.symbols_exports.specs.CollectedNames.{resolved_shared_name_views};
ghost use Rattle.symbols_exports.specs.CollectedNames.{unresolved_star_view};
ghost use Rattle.symbols_exports.specs.ExportViews.{star_statement_by_specifier};
ghost use Rattle.symbols_exports.specs.ExportViews.{export_by_specifier};
ghost use Rattle.symbols_exports.specs.ExportViews.{AreReferrersOfStarsStored, AreModulesOfExportStored};
ghost use Rattle.symbols_exports.specs.ExportViews.{AreModulesOfExportsStored};
ghost use Rattle.symbols_answers.specs.Answers.{some_if_strict};
ghost use Rattle.symbols_queries.specs.Queries.{star_statement_by_specifier_view, export_view, shared_names_view};

use crate::shared_name_by_specifier::{SharedNameBySpecifier, shared_names_by_rules};
use indexmap::IndexMap;
use std::alloc::{AllocError, Global};
use std::hash::RandomState;
use symbols_exports::{ModuleExports, ResolvedExportOrReExportAllPath, UnresolvedSpecifier};
use symbols_graph::ids::{ModuleId, SymbolId};
use symbols_root::RootSymbol;

/// An `export *` statement (extension; its module by specifier).
#[derive(Clone, Copy)]
pub struct StarStatementBySpecifier<'a> {
    /// The specifier of the module that has the statement.
    pub referrer: &'a str,
    /// The statement's own specifier.
    pub specifier: &'a str,
}

/// An exported name (extension; modules by specifier).
#[derive(Drop)]
pub struct ExportBySpecifier<'a> {
    pub name: String,
    /// The `export *` statements of the chain, in order. It is empty for a local export.
    pub chain: Vec<StarStatementBySpecifier<'a>>,
    /// The specifier of the exporting module.
    pub module: &'a str,
    /// The exported symbol of that module.
    pub symbol: SymbolId,
}

/// The exports of a module (extension; modules by specifier).
#[derive(Drop)]
pub struct ExportsBySpecifier<'a> {
    /// The exported names, in chain order. Names with the same chain have the order of the
    /// exporting module.
    pub exports: Vec<ExportBySpecifier<'a>>,
    /// The shared names, in the order of the exports, by strict rules. It is `None` by Deno's
    /// rules.
    pub shared: Option<Vec<SharedNameBySpecifier<'a>>>,
    /// The `export *` statements of this module and of reachable ones that resolve to no module, in
    /// chain order.
    pub unresolved: Vec<StarStatementBySpecifier<'a>>,
}

fn star_statement_by_specifier<'a>(
    root: &RootSymbol<'a>,
    referrer: ModuleId,
    specifier: &'a str,
) -> StarStatementBySpecifier<'a>
    requires { referrer.0 < length root.now.stored }
    ensures { star_statement_by_specifier_view result ≡ star_statement_by_specifier root.now
        (referrer, specifier.now) }
{
    StarStatementBySpecifier {
        referrer: root.specifier_from_id(referrer),
        specifier,
    }
}

/// Returns the number of statements on a chain. It is only used to reserve room for them.
fn chain_room(chain: &ResolvedExportOrReExportAllPath<'_>) -> usize {
    let mut room: usize = 0;
    for rest in chain.iter() {
        if let ResolvedExportOrReExportAllPath::ReExportAllPath(_) = rest {
            room = room.saturating_add(1);
        }
    }
    room
}

/// Returns the statements on a chain, in order.
#[tactic(auto, using(crate::proofs::Naming::statements_of_suffixes))]
pub(crate) fn chain_by_specifier<'a>(
    alloc: Global,
    root: &RootSymbol<'a>,
    chain: &ResolvedExportOrReExportAllPath<'a>,
) -> Result<Vec<StarStatementBySpecifier<'a>>, AllocError>
    requires { AreReferrersOfStarsStored root.now (statements_of_chain chain.now) }
    ensures { IfOk result (λ statements. map star_statement_by_specifier_view statements.items
        ≡ map (star_statement_by_specifier root.now) (statements_of_chain chain.now)) }
{
    let mut statements = Vec::with_capacity(alloc, chain_room(chain))?;
    for rest in chain.iter() {
        if let ResolvedExportOrReExportAllPath::ReExportAllPath(re_export) = rest {
            statements.push(star_statement_by_specifier(
                root,
                re_export.referrer_module,
                re_export.specifier,
            ))?;
        }
    }
    Ok(statements)
}

fn export_by_specifier<'a>(
    alloc: Global,
    root: &RootSymbol<'a>,
    name: String,
    chain: &ResolvedExportOrReExportAllPath<'a>,
) -> Result<ExportBySpecifier<'a>, AllocError>
    requires { AreModulesOfExportStored root.now (record {
      name = string_bytes name;
      statements = statements_of_chain chain.now;
      export = resolved_export chain.now;
    }) }
    ensures { IfOk result (λ named. export_view named ≡ export_by_specifier root.now
        (record {
          name = string_bytes name;
          statements = statements_of_chain chain.now;
          export = resolved_export chain.now;
        })) }
{
    let export = chain.as_resolved_export();
    Ok(ExportBySpecifier {
        name,
        chain: chain_by_specifier(alloc, root, chain)?,
        module: root.specifier_from_id(export.module),
        symbol: export.symbol_id,
    })
}

/// Returns the exported names with their chains, in order.
fn export_list_by_specifier<'a>(
    alloc: Global,
    root: &RootSymbol<'a>,
    resolved: IndexMap<String, ResolvedExportOrReExportAllPath<'a>, RandomState>,
) -> Result<Vec<ExportBySpecifier<'a>>, AllocError>
    requires { AreModulesOfExportsStored root.now (resolved_export_views resolved.entries) }
    ensures { IfOk result (λ exports. map export_view exports.items
        ≡ map (export_by_specifier root.now) (resolved_export_views resolved.entry.entries)) }
{
    let mut exports = Vec::with_capacity(alloc, resolved.len())?;
    for (name, chain) in resolved {
        exports.push(export_by_specifier(alloc, root, name, &chain)?)?;
    }
    Ok(exports)
}

/// Returns the statements that resolve to no module, in order.
fn unresolved_by_specifier<'a>(
    alloc: Global,
    root: &RootSymbol<'a>,
    unresolved: &[UnresolvedSpecifier<'a>],
) -> Result<Vec<StarStatementBySpecifier<'a>>, AllocError>
    requires { AreReferrersOfStarsStored root.now (map unresolved_star_view unresolved.now) }
    ensures { IfOk result (λ statements. map star_statement_by_specifier_view statements.items
        ≡ map (star_statement_by_specifier root.now)
        (map unresolved_star_view unresolved.now)) }
{
    let mut statements = Vec::new(alloc);
    for statement in unresolved {
        statements.push(star_statement_by_specifier(
            root,
            statement.referrer,
            statement.specifier,
        ))?;
    }
    Ok(statements)
}

/// Returns the exports of a module with specifiers in place of module numbers.
pub(crate) fn exports_by_specifier<'a>(
    alloc: Global,
    root: &RootSymbol<'a>,
    exports: ModuleExports<'a>,
) -> Result<ExportsBySpecifier<'a>, AllocError>
    requires names { AreModulesOfExportsStored root.now
        (resolved_export_views exports.resolved.entries) }
    requires shared { AreExporterModulesStored root.now
        (resolved_shared_name_views exports.shared.items) }
    requires statements { AreReferrersOfStarsStored root.now
        (map unresolved_star_view exports.unresolved_specifiers.items) }
    ensures names { IfOk result (λ named. map export_view named.exports.items
        ≡ map (export_by_specifier root.now)
        (resolved_export_views exports.entry.resolved.entries)) }
    ensures shared { IfOk result (λ named. option_map shared_names_view named.shared
        ≡ some_if_strict root.now.rules (map (shared_name_view_of_resolved root.now)
        (resolved_shared_name_views exports.entry.shared.items))) }
    ensures statements { IfOk result
        (λ named. map star_statement_by_specifier_view named.unresolved.items
        ≡ map (star_statement_by_specifier root.now)
        (map unresolved_star_view exports.entry.unresolved_specifiers.items)) }
{
    let unresolved = unresolved_by_specifier(alloc, root, &exports.unresolved_specifiers)?;
    let shared = shared_names_by_rules(alloc, root, exports.shared)?;
    let exports = export_list_by_specifier(alloc, root, exports.resolved)?;
    Ok(ExportsBySpecifier {
        exports,
        shared,
        unresolved,
    })
}
