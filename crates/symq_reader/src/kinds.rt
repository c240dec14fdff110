//! Reads the kind of a node: its field `kind` names the kind, whose fields are then read.

ghost use Rattle.std.specs.Prelude.{◌≡◌, Option, Some, option_map};
ghost use Rattle.symq_reader.specs.inner.Objects.{object_data};
ghost use Rattle.symq_reader.specs.inner.Reading.{IsReadResult};
ghost use Rattle.symq_reader.specs.KindShapes.{KindNameAndFieldValues};
ghost use Rattle.symq_reader.specs.KindShapesTable.{kind_name_and_field_values};
ghost use Rattle.symq_reader.specs.ReadKinds.{read_kind, node_kind_by_tag};

mod decls;
mod exprs;
mod items;
mod members;
mod pats;
mod tys;

use crate::faults::FormatFault;
use crate::fields::{self, Object};
use std::alloc::Global;
use symbols_ast::tree::Kind;

/// Returns a kind that was read, as one that its enum has.
fn some_kind<T: Drop>(read: Result<T, FormatFault>) -> Result<Option<T>, FormatFault>
    ensures { (view : T → KindNameAndFieldValues) (there : Option KindNameAndFieldValues)
        → IsReadResult view read there
        → IsReadResult (option_map view) result (option_map Some there) }
{
    match read {
        Ok(kind) => Ok(Some(kind)),
        Err(fault) => Err(fault),
    }
}

/// Returns the kind of this name with its fields. `TsTypeAnn` is tried first and frequent groups of
/// kinds next, for speed alone. It fails if the name or a field is wrong, or if an allocation
/// failed.
fn kind_by_tag(alloc: Global, kind: &str, object: &Object<'_, '_>) -> Result<Kind, FormatFault>
    ensures { IsReadResult kind_name_and_field_values result
        (node_kind_by_tag kind.now (object_data object.now)) }
{
    if kind == "TsTypeAnn" {
        return Ok(Kind::Ty(tys::ts_type_ann(object)?));
    }
    if let Some(expr) = exprs::expr(alloc, kind, object)? {
        return Ok(Kind::Expr(expr));
    }
    if let Some(pat) = pats::pat(alloc, kind, object)? {
        return Ok(Kind::Pat(pat));
    }
    if let Some(member) = members::member(alloc, kind, object)? {
        return Ok(Kind::Member(member));
    }
    if let Some(decl) = decls::decl(alloc, kind, object)? {
        return Ok(Kind::Decl(decl));
    }
    if let Some(ty) = tys::ty(alloc, kind, object)? {
        return Ok(Kind::Ty(ty));
    }
    if let Some(item) = items::item(alloc, kind, object)? {
        return Ok(Kind::Item(item));
    }
    Err(FormatFault::BadForm)
}

/// Returns the kind of a node with its fields. It fails if the field `kind` is missing or unknown,
/// if another field is wrong, or if an allocation failed.
#[tactic(auto, unfolding(crate::specs::ReadKinds::read_kind))]
pub(crate) fn kind(alloc: Global, object: &Object<'_, '_>) -> Result<Kind, FormatFault>
    ensures { IsReadResult kind_name_and_field_values result (read_kind (object_data object.now)) }
{
    match fields::field(object, "kind").and_then(fields::as_text) {
        Some(kind) => kind_by_tag(alloc, kind, object),
        None => Err(FormatFault::BadForm),
    }
}
