// Generated from tools/kinds/kinds.txt by tools/kinds.py --write. Do not edit.
//! Members of classes and interfaces.

ghost use Rattle.std.specs.Prelude.{option_map};
ghost use Rattle.symbols_ast.specs.declared.tree.names.KindName.TheVariants as Name;
ghost use Rattle.symq_reader.specs.inner.Objects.{object_data};
ghost use Rattle.symq_reader.specs.inner.Reading.{IsReadResult};
ghost use Rattle.symq_reader.specs.KindShapes.{read_as_kind};
ghost use Rattle.symq_reader.specs.KindShapesTable.{read_member, member_name_and_field_values};

use crate::faults::FormatFault;
use crate::fields::{self, Object};
use crate::kinds::some_kind;
use crate::member_keywords;
use std::alloc::Global;
use symbols_ast::tree::Member;

fn constructor(alloc: Global, object: &Object<'_, '_>) -> Result<Member, FormatFault>
    ensures { IsReadResult member_name_and_field_values result
        (read_as_kind Name.Constructor (object_data object.now)) }
{
    Ok(Member::Constructor {
        params: fields::children(alloc, object, "params")?,
        body: fields::optional_child(object, "body")?,
        accessibility: member_keywords::accessibility(object, "accessibility")?,
    })
}

fn ts_param_prop(object: &Object<'_, '_>) -> Result<Member, FormatFault>
    ensures { IsReadResult member_name_and_field_values result
        (read_as_kind Name.TsParamProp (object_data object.now)) }
{
    Ok(Member::TsParamProp {
        param: fields::child(object, "param")?,
        accessibility: member_keywords::accessibility(object, "accessibility")?,
    })
}

fn class_method(object: &Object<'_, '_>) -> Result<Member, FormatFault>
    ensures { IsReadResult member_name_and_field_values result
        (read_as_kind Name.ClassMethod (object_data object.now)) }
{
    Ok(Member::ClassMethod {
        key: fields::child(object, "key")?,
        function: fields::child(object, "function")?,
        kind: member_keywords::method_kind(object, "method_kind")?,
        is_static: fields::flag(object, "is_static")?,
        accessibility: member_keywords::accessibility(object, "accessibility")?,
    })
}

fn class_prop(object: &Object<'_, '_>) -> Result<Member, FormatFault>
    ensures { IsReadResult member_name_and_field_values result
        (read_as_kind Name.ClassProp (object_data object.now)) }
{
    Ok(Member::ClassProp {
        key: fields::child(object, "key")?,
        type_ann: fields::optional_child(object, "type_ann")?,
        value: fields::optional_child(object, "value")?,
        is_static: fields::flag(object, "is_static")?,
        accessibility: member_keywords::accessibility(object, "accessibility")?,
    })
}

fn auto_accessor(object: &Object<'_, '_>) -> Result<Member, FormatFault>
    ensures { IsReadResult member_name_and_field_values result
        (read_as_kind Name.AutoAccessor (object_data object.now)) }
{
    Ok(Member::AutoAccessor {
        key: fields::child(object, "key")?,
        type_ann: fields::optional_child(object, "type_ann")?,
        value: fields::optional_child(object, "value")?,
        is_static: fields::flag(object, "is_static")?,
        accessibility: member_keywords::accessibility(object, "accessibility")?,
    })
}

fn ts_index_signature(alloc: Global, object: &Object<'_, '_>) -> Result<Member, FormatFault>
    ensures { IsReadResult member_name_and_field_values result
        (read_as_kind Name.TsIndexSignature (object_data object.now)) }
{
    Ok(Member::TsIndexSignature {
        params: fields::children(alloc, object, "params")?,
        type_ann: fields::optional_child(object, "type_ann")?,
        is_static: fields::flag(object, "is_static")?,
    })
}

fn ts_call_signature_decl(alloc: Global, object: &Object<'_, '_>) -> Result<Member, FormatFault>
    ensures { IsReadResult member_name_and_field_values result
        (read_as_kind Name.TsCallSignatureDecl (object_data object.now)) }
{
    Ok(Member::TsCallSignatureDecl {
        type_params: fields::optional_child(object, "type_params")?,
        params: fields::children(alloc, object, "params")?,
        type_ann: fields::optional_child(object, "type_ann")?,
    })
}

fn ts_construct_signature_decl(
    alloc: Global,
    object: &Object<'_, '_>,
) -> Result<Member, FormatFault>
    ensures { IsReadResult member_name_and_field_values result
        (read_as_kind Name.TsConstructSignatureDecl (object_data object.now)) }
{
    Ok(Member::TsConstructSignatureDecl {
        type_params: fields::optional_child(object, "type_params")?,
        params: fields::children(alloc, object, "params")?,
        type_ann: fields::optional_child(object, "type_ann")?,
    })
}

fn ts_property_signature(object: &Object<'_, '_>) -> Result<Member, FormatFault>
    ensures { IsReadResult member_name_and_field_values result
        (read_as_kind Name.TsPropertySignature (object_data object.now)) }
{
    Ok(Member::TsPropertySignature {
        key: fields::child(object, "key")?,
        computed: fields::flag(object, "computed")?,
        type_ann: fields::optional_child(object, "type_ann")?,
    })
}

fn ts_getter_signature(object: &Object<'_, '_>) -> Result<Member, FormatFault>
    ensures { IsReadResult member_name_and_field_values result
        (read_as_kind Name.TsGetterSignature (object_data object.now)) }
{
    Ok(Member::TsGetterSignature {
        key: fields::child(object, "key")?,
        computed: fields::flag(object, "computed")?,
        type_ann: fields::optional_child(object, "type_ann")?,
    })
}

fn ts_setter_signature(object: &Object<'_, '_>) -> Result<Member, FormatFault>
    ensures { IsReadResult member_name_and_field_values result
        (read_as_kind Name.TsSetterSignature (object_data object.now)) }
{
    Ok(Member::TsSetterSignature {
        key: fields::child(object, "key")?,
        computed: fields::flag(object, "computed")?,
        param: fields::child(object, "param")?,
    })
}

fn ts_method_signature(alloc: Global, object: &Object<'_, '_>) -> Result<Member, FormatFault>
    ensures { IsReadResult member_name_and_field_values result
        (read_as_kind Name.TsMethodSignature (object_data object.now)) }
{
    Ok(Member::TsMethodSignature {
        key: fields::child(object, "key")?,
        computed: fields::flag(object, "computed")?,
        type_params: fields::optional_child(object, "type_params")?,
        params: fields::children(alloc, object, "params")?,
        type_ann: fields::optional_child(object, "type_ann")?,
    })
}

/// The member of a kind's text; none where no member has it.
#[tactic(auto, unfolding(crate::specs::KindShapesTable::read_member))]
pub(crate) fn member(
    alloc: Global,
    kind: &str,
    object: &Object<'_, '_>,
) -> Result<Option<Member>, FormatFault>
    ensures { IsReadResult (option_map member_name_and_field_values) result
        (read_member kind.now (object_data object.now)) }
{
    match kind {
        "Constructor" => some_kind(constructor(alloc, object)),
        "TsParamProp" => some_kind(ts_param_prop(object)),
        "ClassMethod" => some_kind(class_method(object)),
        "ClassProp" => some_kind(class_prop(object)),
        "AutoAccessor" => some_kind(auto_accessor(object)),
        "TsIndexSignature" => some_kind(ts_index_signature(alloc, object)),
        "TsCallSignatureDecl" => some_kind(ts_call_signature_decl(alloc, object)),
        "TsConstructSignatureDecl" => some_kind(ts_construct_signature_decl(alloc, object)),
        "TsPropertySignature" => some_kind(ts_property_signature(object)),
        "TsGetterSignature" => some_kind(ts_getter_signature(object)),
        "TsSetterSignature" => some_kind(ts_setter_signature(object)),
        "TsMethodSignature" => some_kind(ts_method_signature(alloc, object)),
        _ => Ok(None),
    }
}
