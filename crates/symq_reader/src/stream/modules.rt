//! Reads modules, one by one.

ghost use Rattle.std.specs.Prelude.{◌≡◌, [], IfOk, OnOk, Option, codes, map, option_map, Some};
ghost use Rattle.json.specs.Json as spec;
ghost use Rattle.json.specs.Value.{members_view};
ghost use Rattle.symq_reader.specs.GraphText.{as_module, as_tree, raw_module_view, raw_tree_view};
ghost use Rattle.symq_reader.specs.inner.Pieces.{ReadsModulesToEnd};
ghost use Rattle.symq_reader.specs.JsonData.{json_data};
ghost use Rattle.symq_reader.specs.inner.Streams.{ReadsMemberApart, ReadsValue, ReadsItems};
ghost use Rattle.symq_reader.specs.inner.Streams.{ReadsMembers};
ghost use Rattle.symq_reader.specs.inner.Streams.{list_in_optional_data, value_in_optional_data};
ghost use Rattle.symq_reader.specs.inner.Streams.{module_shape_with_tree};

use crate::graph;
use crate::stream::{FastPathFault, members, trees};
use json::{Reader, Token, Value};
use std::alloc::Global;
use symbols_ast::graph::{RawModule, RawModuleKind};
use symbols_ast::tree::Tree;

/// Reads the tree of a module. Its other members are stored in `retained`.
fn tree_among<'a>(
    alloc: Global,
    reader: &mut Reader<'a>,
    retained: &mut Vec<(&'a str, Value<'a>)>,
) -> Result<Option<Tree>, FastPathFault>
    requires { retained.old.items ≡ [] }
    ensures { IfOk result (λ found. (there : Option spec.Json)
        × ReadsMemberApart 124 reader.old reader.new
        (codes "tree") there (members_view retained.new.items) × (value_in_optional_data as_tree
        (option_map json_data there) ≡ Some (option_map raw_tree_view found))) }
{
    if !members::pass_until(alloc, reader, 124, "tree", retained)? {
        return Ok(None);
    }
    let found = trees::optional_tree(alloc, reader)?;
    if members::pass_until(alloc, reader, 124, "tree", retained)? {
        return Err(FastPathFault::Unsupported);
    }
    Ok(found)
}

/// Returns the module with this tree; a kind without a tree stays as it is.
fn module_shape_with_tree(read: RawModule, tree: Option<Tree>) -> RawModule
    ensures { raw_module_view result
        ≡ module_shape_with_tree (option_map raw_tree_view tree) (raw_module_view read) }
{
    let RawModule { specifier, kind } = read;
    let kind = match kind {
        RawModuleKind::Esm { text, types, .. } => RawModuleKind::Esm { text, tree, types },
        other => other,
    };
    RawModule { specifier, kind }
}

/// Reads a module from the members of an object, after its brace.
pub(crate) fn module_members(
    alloc: Global,
    reader: &mut Reader<'_>,
) -> Result<RawModule, FastPathFault>
    ensures { IfOk result (λ found. ReadsMembers 124 reader.old reader.new
        as_module (raw_module_view found)) }
{
    let mut retained = Vec::new(alloc);
    let tree = tree_among(alloc, reader, &mut retained)?;
    let found = graph::module(alloc, &Value::Object(retained))?;
    Ok(module_shape_with_tree(found, tree))
}

/// Reads a module. Its nodes are read one by one, without a JSON value of the tree.
fn module(alloc: Global, reader: &mut Reader<'_>) -> Result<RawModule, FastPathFault>
    ensures { IfOk result
        (λ found. ReadsValue 125 reader.old reader.new as_module (raw_module_view found)) }
{
    let Some(Token::BeginObject) = reader.next() else {
        return Err(FastPathFault::Unsupported);
    };
    module_members(alloc, reader)
}

/// Reads the remaining modules of a list up to its end, and appends them.
pub(crate) fn more_modules(
    alloc: Global,
    reader: &mut Reader<'_>,
    found: &mut Vec<RawModule>,
) -> Result<(), FastPathFault>
    ensures { OnOk result
        (ReadsModulesToEnd reader.old reader.new found.old.items found.new.items) }
{
    'items: while !reader.take_end_array() {
        found.push(module(alloc, reader)?)?;
    }
    Ok(())
}

/// Reads the modules of a list, after its bracket.
fn module_items(alloc: Global, reader: &mut Reader<'_>) -> Result<Vec<RawModule>, FastPathFault>
    ensures { IfOk result (λ found. ReadsItems 125 reader.old reader.new
        as_module (map raw_module_view found.items)) }
{
    let mut found = Vec::new(alloc);
    more_modules(alloc, reader, &mut found)?;
    found.shrink_to_fit();
    Ok(found)
}

/// Reads a list of modules; none if it is null.
fn module_list(alloc: Global, reader: &mut Reader<'_>) -> Result<Vec<RawModule>, FastPathFault>
    ensures { IfOk result (λ found. ReadsValue 126 reader.old reader.new
        (λ d. list_in_optional_data as_module (Some d)) (map raw_module_view found.items)) }
{
    match reader.next() {
        Some(Token::BeginArray) => module_items(alloc, reader),
        Some(Token::Null) => Ok(Vec::new(alloc)),
        _ => Err(FastPathFault::Unsupported),
    }
}

/// Reads the modules of a graph. Its other members are stored in `retained`.
pub(crate) fn modules_among<'a>(
    alloc: Global,
    reader: &mut Reader<'a>,
    retained: &mut Vec<(&'a str, Value<'a>)>,
) -> Result<Vec<RawModule>, FastPathFault>
    requires { retained.old.items ≡ [] }
    ensures { IfOk result (λ found. (there : Option spec.Json)
        × ReadsMemberApart 126 reader.old reader.new
        (codes "modules") there (members_view retained.new.items) × (list_in_optional_data as_module
        (option_map json_data there) ≡ Some (map raw_module_view found.items))) }
{
    if !members::pass_until(alloc, reader, 126, "modules", retained)? {
        return Ok(Vec::new(alloc));
    }
    let found = module_list(alloc, reader)?;
    if members::pass_until(alloc, reader, 126, "modules", retained)? {
        return Err(FastPathFault::Unsupported);
    }
    Ok(found)
}
