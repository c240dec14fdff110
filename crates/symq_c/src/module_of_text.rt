//! Reads a module with its resolutions from the text of a graph of this module alone.

ghost use Rattle.std.specs.Prelude.{◌≡◌, ◌≢◌, ◌∷◌, [], IfOk, IfErr, List, MatchOption, map, string_bytes, ℕ};
ghost use Rattle.symbols_ast.specs.Graph.{ModuleView, graph_view, module_view, resolution_view};
ghost use Rattle.symbols_graph.specs.PutModules.{resolution_with_referrer};
ghost use Rattle.symbols_graph.specs.Tables.{string_pairs_bytes};
ghost use Rattle.symq_reader.specs.declared.faults.FormatFault.TheVariants.{OutOfMemory, BadForm};
ghost use Rattle.symq_c.specs.ModuleTexts.{IsGraphOfModule, IsModuleOfText};
ghost use Rattle.symq_c.specs.inner.ModuleTexts.{IsModuleTextRefusal, IsRefusalOfGraph};

use std::alloc::Global;
use symbols_graph::{RawGraph, RawModule, RawResolution};
use symq_core::{FormatFault, read_graph};

/// A module, and its specifier texts, each with the specifier that it resolves to.
#[derive(Drop)]
pub(crate) struct ModuleToPut {
    pub(crate) raw: RawModule,
    pub(crate) resolutions: Vec<(String, String)>,
}

/// Returns the module of a list that has no other; `None` if the list has none or several.
fn only_module(mut modules: Vec<RawModule>) -> Option<RawModule>
    ensures { MatchOption result
        ((m : ModuleView) → map module_view modules.items ≡ m ∷ [] → ⊥)
        (λ found. modules.items ≡ found ∷ []) }
{
    let last = modules.pop()?;
    if modules.is_empty() { Some(last) } else { None }
}

/// Returns the specifier text of a resolution, and the specifier that it resolves to; `None` if it
/// is one of another referrer.
fn pair_of(referrer: &str, row: RawResolution) -> Option<(String, String)>
    ensures { MatchOption result (string_bytes row.referrer ≢ referrer.now)
        (λ pair. resolution_view row ≡ resolution_with_referrer referrer.now
        (string_bytes pair.0, string_bytes pair.1)) }
{
    if row.referrer.as_str() == referrer {
        Some((row.specifier_text, row.specifier))
    } else {
        None
    }
}

/// Returns the specifier texts of resolutions, each with the specifier that it resolves to.
///
/// # Errors
///
/// A resolution has another referrer, or an allocation failed.
fn resolutions_of(
    alloc: Global,
    referrer: &str,
    rows: Vec<RawResolution>,
) -> Result<Vec<(String, String)>, FormatFault>
    ensures resolutions { IfOk result (λ resolved. map resolution_view rows.items
        ≡ map (resolution_with_referrer referrer.now) (string_pairs_bytes resolved.items)) }
    ensures refused { IfErr result (λ fault. fault ≢ OutOfMemory → (fault ≡ BadForm)
        × ((resolved : List (List ℕ × List ℕ)) → map resolution_view rows.items
        ≡ map (resolution_with_referrer referrer.now) resolved → ⊥)) }
{
    let mut resolved = Vec::with_capacity(alloc, rows.len())?;
    for row in rows {
        let Some(pair) = pair_of(referrer, row) else {
            return Err(FormatFault::BadForm);
        };
        resolved.push(pair)?;
    }
    Ok(resolved)
}

/// Returns the module of a graph that has no other, no redirects, and only resolutions of it.
///
/// # Errors
///
/// The graph isn't of this form, or an allocation failed.
fn module_of_graph(alloc: Global, raw: RawGraph) -> Result<ModuleToPut, FormatFault>
    ensures read { IfOk result (λ found. IsGraphOfModule (graph_view raw)
        (module_view found.raw) (string_pairs_bytes found.resolutions.items)) }
    ensures refused { IfErr result (IsRefusalOfGraph (graph_view raw)) }
{
    let RawGraph {
        modules,
        redirects,
        resolutions,
    } = raw;
    if !redirects.is_empty() {
        return Err(FormatFault::BadForm);
    }
    let Some(only) = only_module(modules) else {
        return Err(FormatFault::BadForm);
    };
    let resolutions = resolutions_of(alloc, only.specifier.as_str(), resolutions)?;
    Ok(ModuleToPut {
        raw: only,
        resolutions,
    })
}

/// Returns the module that a text describes, with its resolutions.
///
/// # Errors
///
/// The text is no graph or not that of a module, or an allocation failed.
pub(crate) fn module_of(alloc: Global, text: &[u8]) -> Result<ModuleToPut, FormatFault>
    ensures read { IfOk result (λ found. IsModuleOfText text.now (module_view found.raw)
        (string_pairs_bytes found.resolutions.items)) }
    ensures refused { IfErr result (IsModuleTextRefusal text.now) }
{
    let raw = read_graph(alloc, text)?;
    module_of_graph(alloc, raw)
}
