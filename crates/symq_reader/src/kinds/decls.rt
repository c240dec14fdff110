// Generated from tools/kinds/kinds.txt by tools/kinds.py --write. Do not edit.
//! Declarations and their parts.

ghost use Rattle.std.specs.Prelude.{option_map};
ghost use Rattle.symbols_ast.specs.declared.tree.names.KindName.TheVariants as Name;
ghost use Rattle.symq_reader.specs.inner.Objects.{object_data};
ghost use Rattle.symq_reader.specs.inner.Reading.{IsReadResult};
ghost use Rattle.symq_reader.specs.KindShapes.{read_as_kind};
ghost use Rattle.symq_reader.specs.KindShapesTable.{read_decl, decl_name_and_field_values};

use crate::faults::FormatFault;
use crate::fields::{self, Object};
use crate::kinds::some_kind;
use std::alloc::Global;
use symbols_ast::tree::Decl;

fn class_decl(object: &Object<'_, '_>) -> Result<Decl, FormatFault>
    ensures { IsReadResult decl_name_and_field_values result
        (read_as_kind Name.ClassDecl (object_data object.now)) }
{
    let ident = fields::child(object, "ident")?;
    let class = fields::child(object, "class")?;
    Ok(Decl::ClassDecl { ident, class })
}

fn class_expr(object: &Object<'_, '_>) -> Result<Decl, FormatFault>
    ensures { IsReadResult decl_name_and_field_values result
        (read_as_kind Name.ClassExpr (object_data object.now)) }
{
    let ident = fields::optional_child(object, "ident")?;
    let class = fields::child(object, "class")?;
    Ok(Decl::ClassExpr { ident, class })
}

fn class(alloc: Global, object: &Object<'_, '_>) -> Result<Decl, FormatFault>
    ensures { IsReadResult decl_name_and_field_values result
        (read_as_kind Name.Class (object_data object.now)) }
{
    Ok(Decl::Class {
        type_params: fields::optional_child(object, "type_params")?,
        super_class: fields::optional_child(object, "super_class")?,
        super_type_params: fields::optional_child(object, "super_type_params")?,
        implements: fields::children(alloc, object, "implements")?,
        body: fields::children(alloc, object, "body")?,
    })
}

fn fn_decl(object: &Object<'_, '_>) -> Result<Decl, FormatFault>
    ensures { IsReadResult decl_name_and_field_values result
        (read_as_kind Name.FnDecl (object_data object.now)) }
{
    let ident = fields::child(object, "ident")?;
    let function = fields::child(object, "function")?;
    Ok(Decl::FnDecl { ident, function })
}

fn fn_expr(object: &Object<'_, '_>) -> Result<Decl, FormatFault>
    ensures { IsReadResult decl_name_and_field_values result
        (read_as_kind Name.FnExpr (object_data object.now)) }
{
    let ident = fields::optional_child(object, "ident")?;
    let function = fields::child(object, "function")?;
    Ok(Decl::FnExpr { ident, function })
}

fn function(alloc: Global, object: &Object<'_, '_>) -> Result<Decl, FormatFault>
    ensures { IsReadResult decl_name_and_field_values result
        (read_as_kind Name.Function (object_data object.now)) }
{
    Ok(Decl::Function {
        type_params: fields::optional_child(object, "type_params")?,
        params: fields::children(alloc, object, "params")?,
        return_type: fields::optional_child(object, "return_type")?,
        body: fields::optional_child(object, "body")?,
    })
}

fn var_decl(alloc: Global, object: &Object<'_, '_>) -> Result<Decl, FormatFault>
    ensures { IsReadResult decl_name_and_field_values result
        (read_as_kind Name.VarDecl (object_data object.now)) }
{
    let decls = fields::children(alloc, object, "decls")?;
    Ok(Decl::VarDecl { decls })
}

fn using_decl(alloc: Global, object: &Object<'_, '_>) -> Result<Decl, FormatFault>
    ensures { IsReadResult decl_name_and_field_values result
        (read_as_kind Name.UsingDecl (object_data object.now)) }
{
    let decls = fields::children(alloc, object, "decls")?;
    Ok(Decl::UsingDecl { decls })
}

fn var_declarator(object: &Object<'_, '_>) -> Result<Decl, FormatFault>
    ensures { IsReadResult decl_name_and_field_values result
        (read_as_kind Name.VarDeclarator (object_data object.now)) }
{
    let name = fields::child(object, "name")?;
    let init = fields::optional_child(object, "init")?;
    Ok(Decl::VarDeclarator { name, init })
}

fn ts_interface_decl(alloc: Global, object: &Object<'_, '_>) -> Result<Decl, FormatFault>
    ensures { IsReadResult decl_name_and_field_values result
        (read_as_kind Name.TsInterfaceDecl (object_data object.now)) }
{
    Ok(Decl::TsInterfaceDecl {
        id: fields::child(object, "id")?,
        type_params: fields::optional_child(object, "type_params")?,
        extends: fields::children(alloc, object, "extends")?,
        body: fields::children(alloc, object, "body")?,
    })
}

fn ts_type_alias_decl(object: &Object<'_, '_>) -> Result<Decl, FormatFault>
    ensures { IsReadResult decl_name_and_field_values result
        (read_as_kind Name.TsTypeAliasDecl (object_data object.now)) }
{
    Ok(Decl::TsTypeAliasDecl {
        id: fields::child(object, "id")?,
        type_params: fields::optional_child(object, "type_params")?,
        type_ann: fields::child(object, "type_ann")?,
    })
}

fn ts_enum_decl(alloc: Global, object: &Object<'_, '_>) -> Result<Decl, FormatFault>
    ensures { IsReadResult decl_name_and_field_values result
        (read_as_kind Name.TsEnumDecl (object_data object.now)) }
{
    let id = fields::child(object, "id")?;
    let members = fields::children(alloc, object, "members")?;
    Ok(Decl::TsEnumDecl { id, members })
}

fn ts_enum_member(object: &Object<'_, '_>) -> Result<Decl, FormatFault>
    ensures { IsReadResult decl_name_and_field_values result
        (read_as_kind Name.TsEnumMember (object_data object.now)) }
{
    let init = fields::optional_child(object, "init")?;
    Ok(Decl::TsEnumMember { init })
}

fn ts_module_decl(object: &Object<'_, '_>) -> Result<Decl, FormatFault>
    ensures { IsReadResult decl_name_and_field_values result
        (read_as_kind Name.TsModuleDecl (object_data object.now)) }
{
    Ok(Decl::TsModuleDecl {
        id: fields::child(object, "id")?,
        declare: fields::flag(object, "declare")?,
        body: fields::optional_child(object, "body")?,
    })
}

fn ts_namespace_decl(object: &Object<'_, '_>) -> Result<Decl, FormatFault>
    ensures { IsReadResult decl_name_and_field_values result
        (read_as_kind Name.TsNamespaceDecl (object_data object.now)) }
{
    let id = fields::child(object, "id")?;
    let body = fields::child(object, "body")?;
    Ok(Decl::TsNamespaceDecl { id, body })
}

fn ts_module_block(alloc: Global, object: &Object<'_, '_>) -> Result<Decl, FormatFault>
    ensures { IsReadResult decl_name_and_field_values result
        (read_as_kind Name.TsModuleBlock (object_data object.now)) }
{
    let body = fields::children(alloc, object, "body")?;
    Ok(Decl::TsModuleBlock { body })
}

/// The declaration of a kind's text; none where no declaration has it.
#[tactic(auto, unfolding(crate::specs::KindShapesTable::read_decl))]
pub(crate) fn decl(
    alloc: Global,
    kind: &str,
    object: &Object<'_, '_>,
) -> Result<Option<Decl>, FormatFault>
    ensures { IsReadResult (option_map decl_name_and_field_values) result
        (read_decl kind.now (object_data object.now)) }
{
    match kind {
        "ClassDecl" => some_kind(class_decl(object)),
        "ClassExpr" => some_kind(class_expr(object)),
        "Class" => some_kind(class(alloc, object)),
        "FnDecl" => some_kind(fn_decl(object)),
        "FnExpr" => some_kind(fn_expr(object)),
        "Function" => some_kind(function(alloc, object)),
        "VarDecl" => some_kind(var_decl(alloc, object)),
        "UsingDecl" => some_kind(using_decl(alloc, object)),
        "VarDeclarator" => some_kind(var_declarator(object)),
        "TsInterfaceDecl" => some_kind(ts_interface_decl(alloc, object)),
        "TsTypeAliasDecl" => some_kind(ts_type_alias_decl(object)),
        "TsEnumDecl" => some_kind(ts_enum_decl(alloc, object)),
        "TsEnumMember" => some_kind(ts_enum_member(object)),
        "TsModuleDecl" => some_kind(ts_module_decl(object)),
        "TsNamespaceDecl" => some_kind(ts_namespace_decl(object)),
        "TsModuleBlock" => some_kind(ts_module_block(alloc, object)),
        _ => Ok(None),
    }
}
