//! Repeated entries in a raw graph.

ghost use Rattle.std.specs.Prelude.{IfOk, map, string_bytes};
ghost use Rattle.std.specs.Option.{option_copied, option_map};
ghost use Rattle.symbols_ast.specs.Graph.{module_view, redirect_view, resolution_view};
ghost use Rattle.symbols_graph.specs.GraphFaults.{resolution_keys, redirect_sources};
ghost use Rattle.symbols_graph.specs.GraphFaults.{module_specifiers};
ghost use Rattle.symbols_graph.specs.Repeats.{IsRepeatedEntryAt};
ghost use Rattle.symbols_graph.specs.inner.CheckSteps.{IsFirstWhere, IsRepeatBy};

use std::alloc::{AllocError, Global};
use std::collections::HashSet;
use std::hash::{Hash, RandomState};
use symbols_ast::graph::{RawModule, RawResolution};

/// Returns the first key that is also earlier in the list, if any.
fn first_repeat<K: Copy + Eq + Hash + Drop>(
    alloc: Global,
    hash_keys: RandomState,
    keys: &[K],
) -> Result<Option<K>, AllocError>
    ensures { IfOk result (IsFirstWhere (IsRepeatBy K.eq keys.now)) }
{
    let mut seen = HashSet::with_hasher(alloc, hash_keys);
    for key in keys {
        if !seen.insert(*key)? {
            return Ok(Some(*key));
        }
    }
    Ok(None)
}

/// Returns the first specifier that an earlier module has too, if any.
pub(crate) fn repeated_specifier(
    alloc: Global,
    hash_keys: RandomState,
    modules: &[RawModule],
) -> Result<Option<&str>, AllocError>
    ensures { IfOk result (λ found. IsFirstWhere (IsRepeatedEntryAt
        (module_specifiers (map module_view modules.now))) (option_copied found)) }
{
    let names: Vec<&str> = modules
        .iter()
        .map(|module| module.specifier.as_str())
        .collect(alloc)?;
    first_repeat(alloc, hash_keys, &names)
}

/// Returns the first source that an earlier redirect has too, if any.
pub(crate) fn repeated_source(
    alloc: Global,
    hash_keys: RandomState,
    redirects: &[(String, String)],
) -> Result<Option<&str>, AllocError>
    ensures { IfOk result (λ found. IsFirstWhere (IsRepeatedEntryAt
        (redirect_sources (map redirect_view redirects.now))) (option_copied found)) }
{
    let names: Vec<&str> = redirects
        .iter()
        .map(|redirect| redirect.0.as_str())
        .collect(alloc)?;
    first_repeat(alloc, hash_keys, &names)
}

/// Returns the first referrer and specifier text that an earlier resolution has too, if any.
pub(crate) fn repeated_resolution(
    alloc: Global,
    hash_keys: RandomState,
    resolutions: &[RawResolution],
) -> Result<Option<(&str, &str)>, AllocError>
    ensures { IfOk result (λ found. IsFirstWhere (IsRepeatedEntryAt (resolution_keys
        (map resolution_view resolutions.now))) (option_map (λ p. (p.0.now, p.1.now)) found)) }
{
    let pairs: Vec<(&str, &str)> = resolutions
        .iter()
        .map(|row| (row.referrer.as_str(), row.specifier_text.as_str()))
        .collect(alloc)?;
    first_repeat(alloc, hash_keys, &pairs)
}
