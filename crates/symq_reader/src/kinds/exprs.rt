// Generated from tools/kinds/kinds.txt by tools/kinds.py --write. Do not edit.
//! Expressions and names.

ghost use Rattle.std.specs.Prelude.{option_map};
ghost use Rattle.symbols_ast.specs.declared.tree.names.KindName.TheVariants as Name;
ghost use Rattle.symq_reader.specs.inner.Objects.{object_data};
ghost use Rattle.symq_reader.specs.inner.Reading.{IsReadResult};
ghost use Rattle.symq_reader.specs.KindShapes.{read_as_kind};
ghost use Rattle.symq_reader.specs.KindShapesTable.{read_expr, expr_name_and_field_values};

use crate::faults::FormatFault;
use crate::fields::{self, Object};
use crate::kinds::some_kind;
use std::alloc::Global;
use symbols_ast::tree::Expr;

fn ident(alloc: Global, object: &Object<'_, '_>) -> Result<Expr, FormatFault>
    ensures { IsReadResult expr_name_and_field_values result
        (read_as_kind Name.Ident (object_data object.now)) }
{
    let sym = fields::identifier(alloc, object, "sym")?;
    Ok(Expr::Ident { sym })
}

fn member(object: &Object<'_, '_>) -> Result<Expr, FormatFault>
    ensures { IsReadResult expr_name_and_field_values result
        (read_as_kind Name.Member (object_data object.now)) }
{
    let obj = fields::child(object, "obj")?;
    let prop = fields::child(object, "prop")?;
    Ok(Expr::Member { obj, prop })
}

fn ident_name(alloc: Global, object: &Object<'_, '_>) -> Result<Expr, FormatFault>
    ensures { IsReadResult expr_name_and_field_values result
        (read_as_kind Name.IdentName (object_data object.now)) }
{
    let name = fields::text(alloc, object, "name")?;
    Ok(Expr::IdentName { name })
}

fn private_name(alloc: Global, object: &Object<'_, '_>) -> Result<Expr, FormatFault>
    ensures { IsReadResult expr_name_and_field_values result
        (read_as_kind Name.PrivateName (object_data object.now)) }
{
    let name = fields::text(alloc, object, "name")?;
    Ok(Expr::PrivateName { name })
}

fn string(alloc: Global, object: &Object<'_, '_>) -> Result<Expr, FormatFault>
    ensures { IsReadResult expr_name_and_field_values result
        (read_as_kind Name.Str (object_data object.now)) }
{
    let value = fields::text(alloc, object, "value")?;
    Ok(Expr::Str { value })
}

fn number(alloc: Global, object: &Object<'_, '_>) -> Result<Expr, FormatFault>
    ensures { IsReadResult expr_name_and_field_values result
        (read_as_kind Name.Num (object_data object.now)) }
{
    let text = fields::text(alloc, object, "text")?;
    Ok(Expr::Num { text })
}

fn big_int(alloc: Global, object: &Object<'_, '_>) -> Result<Expr, FormatFault>
    ensures { IsReadResult expr_name_and_field_values result
        (read_as_kind Name.BigInt (object_data object.now)) }
{
    let text = fields::text(alloc, object, "text")?;
    Ok(Expr::BigInt { text })
}

fn computed(object: &Object<'_, '_>) -> Result<Expr, FormatFault>
    ensures { IsReadResult expr_name_and_field_values result
        (read_as_kind Name.Computed (object_data object.now)) }
{
    let expr = fields::child(object, "expr")?;
    Ok(Expr::Computed { expr })
}

fn assign(object: &Object<'_, '_>) -> Result<Expr, FormatFault>
    ensures { IsReadResult expr_name_and_field_values result
        (read_as_kind Name.Assign (object_data object.now)) }
{
    Ok(Expr::Assign {
        plain: fields::flag(object, "plain")?,
        left: fields::child(object, "left")?,
        right: fields::child(object, "right")?,
    })
}

fn arrow(alloc: Global, object: &Object<'_, '_>) -> Result<Expr, FormatFault>
    ensures { IsReadResult expr_name_and_field_values result
        (read_as_kind Name.Arrow (object_data object.now)) }
{
    Ok(Expr::Arrow {
        type_params: fields::optional_child(object, "type_params")?,
        params: fields::children(alloc, object, "params")?,
        return_type: fields::optional_child(object, "return_type")?,
        is_block: fields::flag(object, "is_block")?,
        body: fields::child(object, "body")?,
    })
}

/// The expression of a kind's text; none where no expression has it.
#[tactic(auto, unfolding(crate::specs::KindShapesTable::read_expr))]
pub(crate) fn expr(
    alloc: Global,
    kind: &str,
    object: &Object<'_, '_>,
) -> Result<Option<Expr>, FormatFault>
    ensures { IsReadResult (option_map expr_name_and_field_values) result
        (read_expr kind.now (object_data object.now)) }
{
    match kind {
        "Ident" => some_kind(ident(alloc, object)),
        "Member" => some_kind(member(object)),
        "IdentName" => some_kind(ident_name(alloc, object)),
        "PrivateName" => some_kind(private_name(alloc, object)),
        "Str" => some_kind(string(alloc, object)),
        "Num" => some_kind(number(alloc, object)),
        "BigInt" => some_kind(big_int(alloc, object)),
        "Computed" => some_kind(computed(object)),
        "Assign" => some_kind(assign(object)),
        "Arrow" => some_kind(arrow(alloc, object)),
        _ => Ok(None),
    }
}
