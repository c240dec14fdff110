//! Resolves specifiers, and names along `export *`, and stores the modules that this needs.

ghost use Rattle.std.specs.Prelude.{◌≡◌, ℕ, Some, slice_get, IfOk, IfSome, OnErr};
ghost use Rattle.std.specs.Option.{option_map};
ghost use Rattle.symbols_root.specs.Roots.{maybe_specifier, IsStoringFault, specifier_in};
ghost use Rattle.symbols_root.specs.Calls.{IsStored, HasGrownAndFailsOnlyFor};
ghost use Rattle.symbols_exports.specs.StarStatements.{star_specifiers, resolve_specifier};
ghost use Rattle.symbols_paths.specs.DeclTargets.{re_exported_symbol};
ghost use Rattle.symbols_paths.specs.inner.Views.{symbol_of_unique_id};
ghost use Rattle.symbols_paths.specs.NeededModules.{AreNewlyStoredAmong};
ghost use Rattle.symbols_paths.specs.inner.Needed.{IsSearchedAlongStarsOf, HasGrownAndFailsOnlyStoringOneOf};
ghost use Rattle.symbols_paths.specs.inner.Needed.{StoresOnlyResolvedModule};

use symbols_exports::export_of;
use symbols_graph::LookupCounter;
use symbols_graph::ids::{ModuleId, UniqueSymbolId};
use symbols_root::RootSymbol;
use symbols_table::info::SymbolsFault;

/// Resolves a specifier of a stored module to a module, and stores that module if it isn't stored.
/// Returns `None` if the specifier resolves to no module.
pub(crate) fn resolve_specifier(
    root: &mut RootSymbol<'_>,
    referrer: ModuleId,
    specifier_text: &str,
) -> Result<Option<ModuleId>, SymbolsFault>
    requires { IsStored root.old referrer }
    ensures keeps { HasGrownAndFailsOnlyFor root.old root.new
        (IsStoringFault root.old (resolve_specifier root.old.graph
        (specifier_in root.old referrer) specifier_text.now)) result }
    ensures gives { IfOk result (λ id. option_map (maybe_specifier root.new) id
        ≡ option_map (λ s. Some s) (resolve_specifier root.old.graph
        (specifier_in root.old referrer) specifier_text.now)) }
    ensures unchanged { OnErr result (root.new ≡ root.old) }
    ensures stores { StoresOnlyResolvedModule root.old root.new referrer specifier_text.now }
{
    let specifier = root.specifier_from_id(referrer);
    let mut lookups = LookupCounter::new();
    match root
        .graph()
        .resolve_dependency(specifier_text, specifier, &mut lookups)
    {
        Some(target) => root.module_from_specifier(target),
        None => Ok(None),
    }
}

/// Looks a name up in the module that an `export *` of a stored module resolves to. Returns the
/// exported symbol, which is of that module or of one along its own `export *`. Returns `None` if
/// the specifier resolves to no module, or the module doesn't export the name. A definition path
/// goes straight to this symbol: it has no link for an `export *`. The modules that the lookup
/// needs are stored.
pub(crate) fn re_exported_symbol(
    root: &mut RootSymbol<'_>,
    module_id: ModuleId,
    specifier_text: &str,
    name: &str,
) -> Result<Option<UniqueSymbolId>, SymbolsFault>
    requires known { IsStored root.old module_id }
    requires occurs { (position : ℕ)
        × (slice_get (star_specifiers root.old.graph (specifier_in root.old module_id)) position
        ≡ Some specifier_text.now) }
    ensures keeps { HasGrownAndFailsOnlyStoringOneOf root.old root.new
        (IsSearchedAlongStarsOf root.old module_id name.now) result }
    ensures gives { IfOk result (λ symbol. option_map (symbol_of_unique_id root.new) symbol
        ≡ re_exported_symbol root.old.graph name.now (resolve_specifier root.old.graph
        (specifier_in root.old module_id) specifier_text.now)) }
    ensures stored { IfOk result (λ symbol. IfSome symbol (λ s. IsStored root.new s.module_id)) }
    ensures stores { AreNewlyStoredAmong root.old root.new
        (IsSearchedAlongStarsOf root.old module_id name.now) }
{
    let target = match resolve_specifier(root, module_id, specifier_text) {
        Err(fault) => return Err(fault),
        Ok(None) => return Ok(None),
        Ok(Some(target)) => target,
    };
    match export_of(root, target, name) {
        Err(fault) => Err(fault),
        Ok(None) => Ok(None),
        Ok(Some(path)) => {
            let export = path.as_resolved_export();
            Ok(Some(UniqueSymbolId::new(export.module, export.symbol_id)))
        }
    }
}
