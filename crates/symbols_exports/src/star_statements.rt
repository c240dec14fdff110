//! The local exports of a stored module, and its `export *` statements.

ghost use Rattle.std.specs.Prelude.{◌≡◌, ◌<◌, ◌+◌, ◌^◌, ℕ, List, length, slice_get, Some, IfSome};
ghost use Rattle.std.specs.Prelude.{IfOk, OnOk, OnErr};
ghost use Rattle.std.specs.Map.{lookup};
ghost use Rattle.std.specs.Option.{option_map};
ghost use Rattle.std.specs.Str.{bytes_eq};
ghost use Rattle.symbols_ast.specs.Graph.{ModuleView};
ghost use Rattle.symbols_root.specs.Specifiers.{module_with_specifier};
ghost use Rattle.symbols_root.specs.Roots.{root_with_stored_module, maybe_specifier, IsStoringFault, specifier_in};
ghost use Rattle.symbols_root.specs.Calls.{IsStored, HasGrownAndFailsOnlyFor};
ghost use Rattle.symbols_exports.specs.StarStatements.{star_specifiers, resolve_specifier};
ghost use Rattle.symbols_exports.specs.StarStatements.{explicit_exports_of};

use crate::frame::Frame;
use symbols_graph::LookupCounter;
use symbols_graph::ids::{ModuleId, SymbolId};
use symbols_root::RootSymbol;
use symbols_table::decl::Exports;
use symbols_table::info::SymbolsFault;

/// Returns the `export *` statement at an index of a stored module, or `None` if there is none.
pub(crate) fn star_frame_at<'a>(
    root: &RootSymbol<'a>,
    referrer: ModuleId,
    position: usize,
) -> Option<Frame<'a>>
    requires { IsStored root.now referrer }
    ensures specifier_text { option_map (λ frame. frame.specifier_text.now) result
        ≡ slice_get (star_specifiers root.now.graph (specifier_in root.now referrer)) position }
    ensures index { IfSome result (λ frame. (frame.referrer ≡ referrer)
        × (frame.position ≡ position)) }
    ensures few { length (star_specifiers root.now.graph (specifier_in root.now referrer))
        < 2 ^ 63 }
{
    let specifier_text = root
        .module_from_id(referrer)?
        .re_export_all_specifier(position)?;
    Some(Frame {
        referrer,
        position,
        specifier_text,
    })
}

/// Returns the local exports of a stored module: names with their symbols.
pub(crate) fn explicit_exports<'r>(root: &'r RootSymbol<'_>, module_id: ModuleId) -> Exports<'r>
    requires { IsStored root.now module_id }
    ensures { result ≡ explicit_exports_of root.now.graph (specifier_in root.now module_id) }
{
    match root.module_from_id(module_id) {
        Some(info) => info.module_symbol().exports(),
        None => unreachable!(),
    }
}

/// Returns the symbol that a stored module exports locally under a name, or `None` if it doesn't
/// export the name.
pub(crate) fn explicit_export(
    root: &RootSymbol<'_>,
    module_id: ModuleId,
    name: &str,
) -> Option<SymbolId>
    requires { IsStored root.now module_id }
    ensures { result ≡ lookup (λ key. bytes_eq name.now key) (explicit_exports_of root.now.graph
        (specifier_in root.now module_id)) }
{
    match root.module_from_id(module_id) {
        Some(info) => info.module_symbol().export(name),
        None => unreachable!(),
    }
}

/// Resolves a specifier in a stored module to a module, and stores that if it wasn't stored.
/// Returns `None` if the specifier resolves to no module. The table of resolutions is looked up once,
/// which the counter adds. It fails if the module can't be stored. The root is unchanged then.
pub(crate) fn resolve_specifier(
    root: &mut RootSymbol<'_>,
    referrer: ModuleId,
    specifier_text: &str,
    counter: &mut LookupCounter,
) -> Result<Option<ModuleId>, SymbolsFault>
    requires known { IsStored root.old referrer }
    requires room { counter.old.count + 1 < 2 ^ 128 }
    ensures keeps { HasGrownAndFailsOnlyFor root.old root.new
        (IsStoringFault root.old (resolve_specifier root.old.graph
        (specifier_in root.old referrer) specifier_text.now)) result }
    ensures gives { IfOk result (λ id. option_map (maybe_specifier root.new) id
        ≡ option_map (λ s. Some s) (resolve_specifier root.old.graph
        (specifier_in root.old referrer) specifier_text.now)) }
    ensures stored { OnOk result (root.new ≡ root_with_stored_module root.old
        (resolve_specifier root.old.graph (specifier_in root.old referrer) specifier_text.now)) }
    ensures unchanged { OnErr result (root.new ≡ root.old) }
    ensures there { OnOk result ((v : List ℕ) → resolve_specifier root.old.graph (specifier_in
        root.old referrer) specifier_text.now ≡ Some v
        → (m : ModuleView) × (module_with_specifier root.old.graph v ≡ Some m)) }
    ensures counted { counter.new.count ≡ counter.old.count + 1 }
{
    let specifier = root.specifier_from_id(referrer);
    match root
        .graph()
        .resolve_dependency(specifier_text, specifier, counter)
    {
        Some(target) => root.module_from_specifier(target),
        None => Ok(None),
    }
}
