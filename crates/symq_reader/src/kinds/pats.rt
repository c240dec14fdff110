// Generated from tools/kinds/kinds.txt by tools/kinds.py --write. Do not edit.
//! Patterns, other types, and all else.

ghost use Rattle.std.specs.Prelude.{option_map};
ghost use Rattle.symbols_ast.specs.declared.tree.names.KindName.TheVariants as Name;
ghost use Rattle.symq_reader.specs.inner.Objects.{object_data};
ghost use Rattle.symq_reader.specs.inner.Reading.{IsReadResult};
ghost use Rattle.symq_reader.specs.KindShapes.{read_as_kind};
ghost use Rattle.symq_reader.specs.KindShapesTable.{read_pat, pat_name_and_field_values};

use crate::faults::FormatFault;
use crate::fields::{self, Object};
use crate::kinds::some_kind;
use std::alloc::Global;
use symbols_ast::tree::Pat;

fn binding_ident(alloc: Global, object: &Object<'_, '_>) -> Result<Pat, FormatFault>
    ensures { IsReadResult pat_name_and_field_values result
        (read_as_kind Name.BindingIdent (object_data object.now)) }
{
    let sym = fields::identifier(alloc, object, "sym")?;
    let type_ann = fields::optional_child(object, "type_ann")?;
    Ok(Pat::BindingIdent { sym, type_ann })
}

fn array_pat(alloc: Global, object: &Object<'_, '_>) -> Result<Pat, FormatFault>
    ensures { IsReadResult pat_name_and_field_values result
        (read_as_kind Name.ArrayPat (object_data object.now)) }
{
    let elems = fields::children(alloc, object, "elems")?;
    let type_ann = fields::optional_child(object, "type_ann")?;
    Ok(Pat::ArrayPat { elems, type_ann })
}

fn object_pat(alloc: Global, object: &Object<'_, '_>) -> Result<Pat, FormatFault>
    ensures { IsReadResult pat_name_and_field_values result
        (read_as_kind Name.ObjectPat (object_data object.now)) }
{
    let props = fields::children(alloc, object, "props")?;
    let type_ann = fields::optional_child(object, "type_ann")?;
    Ok(Pat::ObjectPat { props, type_ann })
}

fn rest_pat(object: &Object<'_, '_>) -> Result<Pat, FormatFault>
    ensures { IsReadResult pat_name_and_field_values result
        (read_as_kind Name.RestPat (object_data object.now)) }
{
    let arg = fields::child(object, "arg")?;
    let type_ann = fields::optional_child(object, "type_ann")?;
    Ok(Pat::RestPat { arg, type_ann })
}

fn key_value_pat_prop(object: &Object<'_, '_>) -> Result<Pat, FormatFault>
    ensures { IsReadResult pat_name_and_field_values result
        (read_as_kind Name.KeyValuePatProp (object_data object.now)) }
{
    let key = fields::child(object, "key")?;
    let value = fields::child(object, "value")?;
    Ok(Pat::KeyValuePatProp { key, value })
}

fn assign_pat_prop(object: &Object<'_, '_>) -> Result<Pat, FormatFault>
    ensures { IsReadResult pat_name_and_field_values result
        (read_as_kind Name.AssignPatProp (object_data object.now)) }
{
    let key = fields::child(object, "key")?;
    let value = fields::optional_child(object, "value")?;
    Ok(Pat::AssignPatProp { key, value })
}

fn assign_pat(object: &Object<'_, '_>) -> Result<Pat, FormatFault>
    ensures { IsReadResult pat_name_and_field_values result
        (read_as_kind Name.AssignPat (object_data object.now)) }
{
    let left = fields::child(object, "left")?;
    let right = fields::child(object, "right")?;
    Ok(Pat::AssignPat { left, right })
}

fn expr_pat(object: &Object<'_, '_>) -> Result<Pat, FormatFault>
    ensures { IsReadResult pat_name_and_field_values result
        (read_as_kind Name.ExprPat (object_data object.now)) }
{
    let expr = fields::child(object, "expr")?;
    Ok(Pat::ExprPat { expr })
}

/// The kind that the text calls `Type`.
fn plain(alloc: Global, object: &Object<'_, '_>) -> Result<Pat, FormatFault>
    ensures { IsReadResult pat_name_and_field_values result
        (read_as_kind Name.Plain (object_data object.now)) }
{
    let children = fields::children(alloc, object, "children")?;
    Ok(Pat::Plain { children })
}

fn other(alloc: Global, object: &Object<'_, '_>) -> Result<Pat, FormatFault>
    ensures { IsReadResult pat_name_and_field_values result
        (read_as_kind Name.Other (object_data object.now)) }
{
    let children = fields::children(alloc, object, "children")?;
    Ok(Pat::Other { children })
}

/// The pattern, or whatever else, of a kind's text; none where nothing here has it.
#[tactic(auto, unfolding(crate::specs::KindShapesTable::read_pat))]
pub(crate) fn pat(
    alloc: Global,
    kind: &str,
    object: &Object<'_, '_>,
) -> Result<Option<Pat>, FormatFault>
    ensures { IsReadResult (option_map pat_name_and_field_values) result
        (read_pat kind.now (object_data object.now)) }
{
    match kind {
        "BindingIdent" => some_kind(binding_ident(alloc, object)),
        "ArrayPat" => some_kind(array_pat(alloc, object)),
        "ObjectPat" => some_kind(object_pat(alloc, object)),
        "RestPat" => some_kind(rest_pat(object)),
        "KeyValuePatProp" => some_kind(key_value_pat_prop(object)),
        "AssignPatProp" => some_kind(assign_pat_prop(object)),
        "AssignPat" => some_kind(assign_pat(object)),
        "ExprPat" => some_kind(expr_pat(object)),
        "Type" => some_kind(plain(alloc, object)),
        "Other" => some_kind(other(alloc, object)),
        _ => Ok(None),
    }
}
