//! Fills the maps of a graph from a raw graph.

ghost use Rattle.std.specs.Prelude.{◌≡◌, ◌&&◌, All, IfOk, OnOk, if◌then◌else◌, map, string_bytes};
ghost use Rattle.std.specs.Prelude.{Some, true, List, ℕ};
ghost use Rattle.std.specs.Str.{bytes_eq};
ghost use Rattle.std.specs.String.{string_eq};
ghost use Rattle.indexmap.specs.IndexMap.{insert_entry, values, IsUnique, Updates};
ghost use Rattle.symbols_ast.specs.Graph.{IsCheckedContent, content_view, module_view};
ghost use Rattle.symbols_ast.specs.Graph.{redirect_view, resolution_view, find_resolved_specifier};
ghost use Rattle.symbols_graph.specs.GraphFaults.{resolution_keys, redirect_sources};
ghost use Rattle.symbols_graph.specs.GraphFaults.{module_specifiers};
ghost use Rattle.symbols_graph.specs.Tables.{string_pairs_bytes};
ghost use Rattle.symbols_graph.specs.inner.Tables.{AreKeyedBySpecifier};
ghost use Rattle.symbols_graph.specs.inner.CheckSteps.{HasNoRepeat, resolved_specifier_in_maps};

use indexmap::IndexMap;
use std::alloc::{AllocError, Global};
use std::hash::RandomState;
use symbols_ast::graph::{GraphModule, RawModule, RawResolution};

/// A map from strings.
pub(crate) type StringMap<V> = IndexMap<String, V, RandomState>;

/// Resolutions by referrer, and then by specifier text.
pub(crate) type Resolutions = StringMap<StringMap<String>>;

/// Inserts a value under a name, in place of an earlier value of that name.
fn put<V: Drop>(named: &mut StringMap<V>, name: String, value: V) -> Result<(), AllocError>
    ensures entries { OnOk result
        (named.new.entries ≡ insert_entry string_eq named.old.entries name value) }
    ensures updates { OnOk result (Updates string_eq named.old named.new name (Some value)) }
    ensures unique { OnOk result (IsUnique string_eq named.new) }
{
    named.insert(name, value)?;
    Ok(())
}

/// Returns the modules in order, each under a copy of its specifier.
pub(crate) fn keyed_modules(
    alloc: Global,
    keys: RandomState,
    modules: Vec<RawModule>,
) -> Result<StringMap<GraphModule>, AllocError>
    requires checked { All (λ m. IsCheckedContent (content_view m.kind)) modules.items }
    requires distinct { HasNoRepeat (module_specifiers (map module_view modules.items)) }
    ensures modules { IfOk result (λ keyed. values keyed ≡ map module_view modules.items) }
    ensures keyed { IfOk result (λ keyed. AreKeyedBySpecifier keyed.entries) }
{
    let mut keyed = IndexMap::with_capacity_and_hasher(alloc, modules.len(), keys)?;
    for raw in modules {
        let key = raw.specifier.clone()?;
        put(&mut keyed, key, GraphModule::from_raw(raw))?;
    }
    Ok(keyed)
}

/// Returns the targets of the redirects by their sources, in order.
pub(crate) fn keyed_redirects(
    alloc: Global,
    keys: RandomState,
    redirects: Vec<(String, String)>,
) -> Result<StringMap<String>, AllocError>
    requires distinct { HasNoRepeat (redirect_sources (map redirect_view redirects.items)) }
    ensures { IfOk result (λ keyed. string_pairs_bytes keyed.entries
        ≡ map redirect_view redirects.items) }
{
    let mut keyed = IndexMap::with_capacity_and_hasher(alloc, redirects.len(), keys)?;
    for (source, target) in redirects {
        put(&mut keyed, source, target)?;
    }
    Ok(keyed)
}

/// Adds a resolution whose referrer and specifier text have none so far.
fn add_resolution(
    alloc: Global,
    keys: RandomState,
    tables: &mut Resolutions,
    row: RawResolution,
) -> Result<(), AllocError>
    ensures found { OnOk result ((referrer specifier_text : List ℕ)
        → resolved_specifier_in_maps tables.new referrer specifier_text
        ≡ (if bytes_eq referrer (string_bytes row.referrer)
        && bytes_eq specifier_text (string_bytes row.specifier_text)
        then Some (string_bytes row.specifier)
        else resolved_specifier_in_maps tables.old referrer specifier_text)) }
    ensures unique { OnOk result (IsUnique string_eq tables.new) }
{
    let RawResolution {
        referrer,
        specifier_text,
        specifier,
    } = row;
    if let Some(table) = tables.get_mut(referrer.as_str()) {
        return put(table, specifier_text, specifier);
    }
    let mut table = IndexMap::with_hasher(alloc, keys);
    put(&mut table, specifier_text, specifier)?;
    put(tables, referrer, table)
}

/// Returns the resolutions by referrer and specifier text.
pub(crate) fn keyed_resolutions(
    alloc: Global,
    keys: RandomState,
    resolutions: Vec<RawResolution>,
) -> Result<Resolutions, AllocError>
    requires { HasNoRepeat (resolution_keys (map resolution_view resolutions.items)) }
    ensures found { IfOk result (λ tables. (referrer specifier_text : List ℕ)
        → resolved_specifier_in_maps tables referrer specifier_text
        ≡ find_resolved_specifier (map resolution_view resolutions.items) referrer specifier_text) }
    ensures unique { IfOk result (IsUnique string_eq) }
{
    let mut tables = IndexMap::with_hasher(alloc, keys);
    for row in resolutions {
        add_resolution(alloc, keys, &mut tables, row)?;
    }
    Ok(tables)
}
