// Generated from tools/kinds/kinds.txt by tools/kinds.py --write. Do not edit.
//! Items of a module, their parts, and statements.

ghost use Rattle.std.specs.Prelude.{option_map};
ghost use Rattle.symbols_ast.specs.declared.tree.names.KindName.TheVariants as Name;
ghost use Rattle.symq_reader.specs.inner.Objects.{object_data};
ghost use Rattle.symq_reader.specs.inner.Reading.{IsReadResult};
ghost use Rattle.symq_reader.specs.KindShapes.{read_as_kind};
ghost use Rattle.symq_reader.specs.KindShapesTable.{read_item, item_name_and_field_values};

use crate::faults::FormatFault;
use crate::fields::{self, Object};
use crate::kinds::some_kind;
use std::alloc::Global;
use symbols_ast::tree::Item;

fn program(alloc: Global, object: &Object<'_, '_>) -> Result<Item, FormatFault>
    ensures { IsReadResult item_name_and_field_values result
        (read_as_kind Name.Program (object_data object.now)) }
{
    let body = fields::children(alloc, object, "body")?;
    Ok(Item::Program { body })
}

fn import(alloc: Global, object: &Object<'_, '_>) -> Result<Item, FormatFault>
    ensures { IsReadResult item_name_and_field_values result
        (read_as_kind Name.Import (object_data object.now)) }
{
    let specifiers = fields::children(alloc, object, "specifiers")?;
    let src = fields::text(alloc, object, "src")?;
    Ok(Item::Import { specifiers, src })
}

fn import_named(alloc: Global, object: &Object<'_, '_>) -> Result<Item, FormatFault>
    ensures { IsReadResult item_name_and_field_values result
        (read_as_kind Name.ImportNamed (object_data object.now)) }
{
    let local = fields::child(object, "local")?;
    let imported = fields::optional_text(alloc, object, "imported")?;
    Ok(Item::ImportNamed { local, imported })
}

fn import_default(object: &Object<'_, '_>) -> Result<Item, FormatFault>
    ensures { IsReadResult item_name_and_field_values result
        (read_as_kind Name.ImportDefault (object_data object.now)) }
{
    let local = fields::child(object, "local")?;
    Ok(Item::ImportDefault { local })
}

fn import_namespace(object: &Object<'_, '_>) -> Result<Item, FormatFault>
    ensures { IsReadResult item_name_and_field_values result
        (read_as_kind Name.ImportNamespace (object_data object.now)) }
{
    let local = fields::child(object, "local")?;
    Ok(Item::ImportNamespace { local })
}

fn export_decl(object: &Object<'_, '_>) -> Result<Item, FormatFault>
    ensures { IsReadResult item_name_and_field_values result
        (read_as_kind Name.ExportDecl (object_data object.now)) }
{
    let decl = fields::child(object, "decl")?;
    Ok(Item::ExportDecl { decl })
}

fn export_named(alloc: Global, object: &Object<'_, '_>) -> Result<Item, FormatFault>
    ensures { IsReadResult item_name_and_field_values result
        (read_as_kind Name.ExportNamed (object_data object.now)) }
{
    let specifiers = fields::children(alloc, object, "specifiers")?;
    let src = fields::optional_text(alloc, object, "src")?;
    Ok(Item::ExportNamed { specifiers, src })
}

fn export_specifier(alloc: Global, object: &Object<'_, '_>) -> Result<Item, FormatFault>
    ensures { IsReadResult item_name_and_field_values result
        (read_as_kind Name.ExportSpecifier (object_data object.now)) }
{
    let orig = fields::child(object, "orig")?;
    let exported = fields::optional_text(alloc, object, "exported")?;
    Ok(Item::ExportSpecifier { orig, exported })
}

fn export_namespace(alloc: Global, object: &Object<'_, '_>) -> Result<Item, FormatFault>
    ensures { IsReadResult item_name_and_field_values result
        (read_as_kind Name.ExportNamespace (object_data object.now)) }
{
    let name = fields::text(alloc, object, "name")?;
    Ok(Item::ExportNamespace { name })
}

fn export_default_specifier(object: &Object<'_, '_>) -> Result<Item, FormatFault>
    ensures { IsReadResult item_name_and_field_values result
        (read_as_kind Name.ExportDefaultSpecifier (object_data object.now)) }
{
    let local = fields::child(object, "local")?;
    Ok(Item::ExportDefaultSpecifier { local })
}

fn export_default_decl(object: &Object<'_, '_>) -> Result<Item, FormatFault>
    ensures { IsReadResult item_name_and_field_values result
        (read_as_kind Name.ExportDefaultDecl (object_data object.now)) }
{
    let decl = fields::child(object, "decl")?;
    Ok(Item::ExportDefaultDecl { decl })
}

fn export_default_expr(object: &Object<'_, '_>) -> Result<Item, FormatFault>
    ensures { IsReadResult item_name_and_field_values result
        (read_as_kind Name.ExportDefaultExpr (object_data object.now)) }
{
    let expr = fields::child(object, "expr")?;
    Ok(Item::ExportDefaultExpr { expr })
}

fn ts_export_assignment(object: &Object<'_, '_>) -> Result<Item, FormatFault>
    ensures { IsReadResult item_name_and_field_values result
        (read_as_kind Name.TsExportAssignment (object_data object.now)) }
{
    let expr = fields::child(object, "expr")?;
    Ok(Item::TsExportAssignment { expr })
}

fn export_all(alloc: Global, object: &Object<'_, '_>) -> Result<Item, FormatFault>
    ensures { IsReadResult item_name_and_field_values result
        (read_as_kind Name.ExportAll (object_data object.now)) }
{
    let src = fields::text(alloc, object, "src")?;
    Ok(Item::ExportAll { src })
}

fn ts_import_equals_decl(alloc: Global, object: &Object<'_, '_>) -> Result<Item, FormatFault>
    ensures { IsReadResult item_name_and_field_values result
        (read_as_kind Name.TsImportEqualsDecl (object_data object.now)) }
{
    Ok(Item::TsImportEqualsDecl {
        is_export: fields::flag(object, "is_export")?,
        id: fields::child(object, "id")?,
        entity: fields::optional_child(object, "entity")?,
        external: fields::optional_text(alloc, object, "external")?,
    })
}

fn expr_stmt(object: &Object<'_, '_>) -> Result<Item, FormatFault>
    ensures { IsReadResult item_name_and_field_values result
        (read_as_kind Name.ExprStmt (object_data object.now)) }
{
    let expr = fields::child(object, "expr")?;
    Ok(Item::ExprStmt { expr })
}

/// The item of a kind's text; none where no item has it.
#[tactic(auto, unfolding(crate::specs::KindShapesTable::read_item))]
pub(crate) fn item(
    alloc: Global,
    kind: &str,
    object: &Object<'_, '_>,
) -> Result<Option<Item>, FormatFault>
    ensures { IsReadResult (option_map item_name_and_field_values) result
        (read_item kind.now (object_data object.now)) }
{
    match kind {
        "Program" => some_kind(program(alloc, object)),
        "Import" => some_kind(import(alloc, object)),
        "ImportNamed" => some_kind(import_named(alloc, object)),
        "ImportDefault" => some_kind(import_default(object)),
        "ImportNamespace" => some_kind(import_namespace(object)),
        "ExportDecl" => some_kind(export_decl(object)),
        "ExportNamed" => some_kind(export_named(alloc, object)),
        "ExportSpecifier" => some_kind(export_specifier(alloc, object)),
        "ExportNamespace" => some_kind(export_namespace(alloc, object)),
        "ExportDefaultSpecifier" => some_kind(export_default_specifier(object)),
        "ExportDefaultDecl" => some_kind(export_default_decl(object)),
        "ExportDefaultExpr" => some_kind(export_default_expr(object)),
        "TsExportAssignment" => some_kind(ts_export_assignment(object)),
        "ExportAll" => some_kind(export_all(alloc, object)),
        "TsImportEqualsDecl" => some_kind(ts_import_equals_decl(alloc, object)),
        "ExprStmt" => some_kind(expr_stmt(object)),
        _ => Ok(None),
    }
}
