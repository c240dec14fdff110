//! Reads nodes and trees from JSON values.

ghost use Rattle.std.specs.Prelude.{◌≡◌, ◌++◌, ◌∷◌, [], IfErr, IfOk, Some, codes, map, option_map};
ghost use Rattle.serde_json.specs.Data.{array};
ghost use Rattle.symq_reader.specs.inner.Objects.{whole_numbers, object_data, object_field_data};
ghost use Rattle.symq_reader.specs.JsonData.{value_data};
ghost use Rattle.symq_reader.specs.inner.Reading.{IsReadResult, IsReadFault};
ghost use Rattle.symq_reader.specs.UnderKeys.{required_value_under_key, optional_value_under_key};
ghost use Rattle.symq_reader.specs.UnderKeys.{list_under_key};
ghost use Rattle.symq_reader.specs.GraphText.{as_range, as_node, as_tree, raw_node_view, raw_tree_view};
ghost use Rattle.symbols_ast.specs.declared.tree.arena.Node.{Node as SpecNode};

use crate::entries::Entry;
use crate::faults::FormatFault;
use crate::fields::{self, Object, ObjectField};
use crate::{kinds, lookup, numbers};
use json::Value;
use std::alloc::Global;
use symbols_ast::tree::{Node, SourceRange, Tree};

/// Returns the range between two offsets.
fn between(start: u64, end: u64) -> SourceRange
    ensures start { result.start ≡ start }
    ensures end { result.end ≡ end }
{
    SourceRange {
        start: start as usize,
        end: end as usize,
    }
}

/// Returns the range if a JSON value is a list of two offsets.
fn range_by_value(value: &Value<'_>) -> Option<SourceRange>
    ensures { result ≡ as_range (value_data value.now) }
{
    let (start, end) = lookup::pair(value)?;
    Some(between(numbers::offset(start)?, numbers::offset(end)?))
}

/// Returns the range if these are two offsets.
#[tactic(auto, using(crate::proofs::Entered::fewer_than_two, crate::proofs::Entered::more_than_two))]
fn range_of(numbers: &[u64]) -> Option<SourceRange>
    ensures { result ≡ as_range (array (whole_numbers numbers.now)) }
{
    match numbers {
        [start, end] => Some(between(*start, *end)),
        _ => None,
    }
}

/// Returns the range if a field is a list of two offsets.
fn as_range(found: ObjectField<'_, '_>) -> Option<SourceRange>
    ensures { result ≡ as_range (object_field_data found.entry) }
{
    match found {
        ObjectField::Value(value) => range_by_value(value),
        ObjectField::Entry(Entry::Pair(start, end)) => Some(between(*start, *end)),
        ObjectField::Entry(Entry::List(numbers)) => range_of(numbers.as_slice()),
        ObjectField::Entry(_) => None,
    }
}

/// Returns the source range of a node. It fails if the field is absent or no range.
fn range(object: &Object<'_, '_>) -> Result<SourceRange, FormatFault>
    ensures { IsReadResult (λ r. r) result
        (required_value_under_key as_range (codes "range") (object_data object.now)) }
{
    match fields::field(object, "range").and_then(as_range) {
        Some(range) => Ok(range),
        None => Err(FormatFault::BadForm),
    }
}

/// Reads a node with its kind and range, and appends it to the nodes.
#[tactic(auto, unfolding(crate::specs::GraphText::as_node))]
pub(crate) fn add_node(
    alloc: Global,
    object: &Object<'_, '_>,
    found: &mut Vec<Node>,
) -> Result<(), FormatFault>
    ensures added { IfOk result (λ _. (node : SpecNode)
        × (as_node (object_data object.now) ≡ Some (raw_node_view node))
        × (found.new.items ≡ found.old.items ++ node ∷ [])) }
    ensures refused { IfErr result (λ fault. IsReadFault (as_node (object_data object.now)) fault) }
{
    let kind = kinds::kind(alloc, object)?;
    let range = range(object)?;
    found.push(Node { kind, range })?;
    Ok(())
}

/// Returns the nodes of a tree, in order.
fn nodes(alloc: Global, value: &Value<'_>) -> Result<Vec<Node>, FormatFault>
    ensures { IsReadResult (λ v. map raw_node_view v.items) result
        (list_under_key as_node (codes "nodes") (value_data value.now)) }
{
    let Some(items) = lookup::list(value, "nodes")? else {
        return Ok(Vec::new(alloc));
    };
    let mut nodes = Vec::with_capacity(alloc, items.len())?;
    for item in items {
        add_node(alloc, &Object::Value(item), &mut nodes)?;
    }
    Ok(nodes)
}

/// Returns the tree that a JSON value describes. References between its nodes aren't checked.
pub(crate) fn tree(alloc: Global, value: &Value<'_>) -> Result<Tree, FormatFault>
    ensures { IsReadResult raw_tree_view result (as_tree (value_data value.now)) }
{
    if !matches!(value, Value::Object(_)) {
        return Err(FormatFault::BadForm);
    }
    let declaration = fields::flag(&Object::Value(value), "declaration")?;
    let nodes = nodes(alloc, value)?;
    Ok(Tree { declaration, nodes })
}

/// Returns the optional tree of a module.
pub(crate) fn optional_tree(alloc: Global, value: &Value<'_>) -> Result<Option<Tree>, FormatFault>
    ensures { IsReadResult (option_map raw_tree_view) result
        (optional_value_under_key as_tree (codes "tree") (value_data value.now)) }
{
    match lookup::field(value, "tree") {
        None => Ok(None),
        Some(found) => Ok(Some(tree(alloc, found)?)),
    }
}
