// Generated from tools/kinds/kinds.txt by tools/kinds.py --write. Do not edit.
//! Types and what holds them.

ghost use Rattle.std.specs.Prelude.{option_map};
ghost use Rattle.symbols_ast.specs.declared.tree.names.KindName.TheVariants as Name;
ghost use Rattle.symq_reader.specs.inner.Objects.{object_data};
ghost use Rattle.symq_reader.specs.inner.Reading.{IsReadResult};
ghost use Rattle.symq_reader.specs.KindShapes.{read_as_kind};
ghost use Rattle.symq_reader.specs.KindShapesTable.{read_ty, ty_name_and_field_values};

use crate::faults::FormatFault;
use crate::fields::{self, Object};
use crate::kinds::some_kind;
use std::alloc::Global;
use symbols_ast::tree::Ty;

fn ts_type_param_decl(alloc: Global, object: &Object<'_, '_>) -> Result<Ty, FormatFault>
    ensures { IsReadResult ty_name_and_field_values result
        (read_as_kind Name.TsTypeParamDecl (object_data object.now)) }
{
    let params = fields::children(alloc, object, "params")?;
    Ok(Ty::TsTypeParamDecl { params })
}

fn ts_type_param(object: &Object<'_, '_>) -> Result<Ty, FormatFault>
    ensures { IsReadResult ty_name_and_field_values result
        (read_as_kind Name.TsTypeParam (object_data object.now)) }
{
    Ok(Ty::TsTypeParam {
        constraint: fields::optional_child(object, "constraint")?,
        default: fields::optional_child(object, "default")?,
    })
}

fn ts_type_param_instantiation(alloc: Global, object: &Object<'_, '_>) -> Result<Ty, FormatFault>
    ensures { IsReadResult ty_name_and_field_values result
        (read_as_kind Name.TsTypeParamInstantiation (object_data object.now)) }
{
    let params = fields::children(alloc, object, "params")?;
    Ok(Ty::TsTypeParamInstantiation { params })
}

/// Tried before all other kinds, by `kinds`.
pub(crate) fn ts_type_ann(object: &Object<'_, '_>) -> Result<Ty, FormatFault>
    ensures { IsReadResult ty_name_and_field_values result
        (read_as_kind Name.TsTypeAnn (object_data object.now)) }
{
    let ty = fields::child(object, "ty")?;
    Ok(Ty::TsTypeAnn { ty })
}

fn ts_expr_with_type_args(object: &Object<'_, '_>) -> Result<Ty, FormatFault>
    ensures { IsReadResult ty_name_and_field_values result
        (read_as_kind Name.TsExprWithTypeArgs (object_data object.now)) }
{
    let expr = fields::child(object, "expr")?;
    let type_args = fields::optional_child(object, "type_args")?;
    Ok(Ty::TsExprWithTypeArgs { expr, type_args })
}

fn ts_as_expr(object: &Object<'_, '_>) -> Result<Ty, FormatFault>
    ensures { IsReadResult ty_name_and_field_values result
        (read_as_kind Name.TsAsExpr (object_data object.now)) }
{
    let expr = fields::child(object, "expr")?;
    let ty = fields::child(object, "ty")?;
    Ok(Ty::TsAsExpr { expr, ty })
}

fn ts_type_assertion(object: &Object<'_, '_>) -> Result<Ty, FormatFault>
    ensures { IsReadResult ty_name_and_field_values result
        (read_as_kind Name.TsTypeAssertion (object_data object.now)) }
{
    let expr = fields::child(object, "expr")?;
    let ty = fields::child(object, "ty")?;
    Ok(Ty::TsTypeAssertion { expr, ty })
}

fn ts_type_query(object: &Object<'_, '_>) -> Result<Ty, FormatFault>
    ensures { IsReadResult ty_name_and_field_values result
        (read_as_kind Name.TsTypeQuery (object_data object.now)) }
{
    Ok(Ty::TsTypeQuery {
        expr_name: fields::child(object, "expr_name")?,
        type_args: fields::optional_child(object, "type_args")?,
    })
}

fn ts_import_type(alloc: Global, object: &Object<'_, '_>) -> Result<Ty, FormatFault>
    ensures { IsReadResult ty_name_and_field_values result
        (read_as_kind Name.TsImportType (object_data object.now)) }
{
    Ok(Ty::TsImportType {
        arg: fields::text(alloc, object, "arg")?,
        qualifier: fields::optional_child(object, "qualifier")?,
        type_args: fields::optional_child(object, "type_args")?,
    })
}

fn ts_tuple_element(object: &Object<'_, '_>) -> Result<Ty, FormatFault>
    ensures { IsReadResult ty_name_and_field_values result
        (read_as_kind Name.TsTupleElement (object_data object.now)) }
{
    let label = fields::optional_child(object, "label")?;
    let ty = fields::child(object, "ty")?;
    Ok(Ty::TsTupleElement { label, ty })
}

fn ts_qualified_name(alloc: Global, object: &Object<'_, '_>) -> Result<Ty, FormatFault>
    ensures { IsReadResult ty_name_and_field_values result
        (read_as_kind Name.TsQualifiedName (object_data object.now)) }
{
    let left = fields::child(object, "left")?;
    let right = fields::text(alloc, object, "right")?;
    Ok(Ty::TsQualifiedName { left, right })
}

/// The type, or what holds one, of a kind's text; none where nothing here has it.
#[tactic(auto, unfolding(crate::specs::KindShapesTable::read_ty))]
pub(crate) fn ty(
    alloc: Global,
    kind: &str,
    object: &Object<'_, '_>,
) -> Result<Option<Ty>, FormatFault>
    ensures { IsReadResult (option_map ty_name_and_field_values) result
        (read_ty kind.now (object_data object.now)) }
{
    match kind {
        "TsTypeParamDecl" => some_kind(ts_type_param_decl(alloc, object)),
        "TsTypeParam" => some_kind(ts_type_param(object)),
        "TsTypeParamInstantiation" => some_kind(ts_type_param_instantiation(alloc, object)),
        "TsTypeAnn" => some_kind(ts_type_ann(object)),
        "TsExprWithTypeArgs" => some_kind(ts_expr_with_type_args(object)),
        "TsAsExpr" => some_kind(ts_as_expr(object)),
        "TsTypeAssertion" => some_kind(ts_type_assertion(object)),
        "TsTypeQuery" => some_kind(ts_type_query(object)),
        "TsImportType" => some_kind(ts_import_type(alloc, object)),
        "TsTupleElement" => some_kind(ts_tuple_element(object)),
        "TsQualifiedName" => some_kind(ts_qualified_name(alloc, object)),
        _ => Ok(None),
    }
}
