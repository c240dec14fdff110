//! Reads trees, node by node.

ghost use Rattle.std.specs.Prelude.{◌≡◌, ◌++◌, ◌∷◌, [], IfOk, Option, codes, map, option_map, Some};
ghost use Rattle.json.specs.Json as spec;
ghost use Rattle.json.specs.Value.{members_view};
ghost use Rattle.symq_reader.specs.GraphText.{as_node, as_tree, raw_node_view, raw_tree_view};
ghost use Rattle.symq_reader.specs.JsonData.{json_data};
ghost use Rattle.symq_reader.specs.inner.Streams.{ReadsMemberApart, ReadsValue, ReadsItems};
ghost use Rattle.symq_reader.specs.inner.Streams.{ReadsMembers, list_in_optional_data};
ghost use Rattle.symq_reader.specs.inner.Streams.{value_in_optional_data};
ghost use Rattle.symbols_ast.specs.declared.tree.arena.Node.{Node as SpecNode};

use crate::entries::Entry;
use crate::fields::Object;
use crate::nodes;
use crate::stream::{FastPathFault, entries, members};
use json::{Reader, Token, Value};
use std::alloc::Global;
use symbols_ast::tree::{Node, Tree};

/// Reserves room for many more nodes once a list is long. The C library's allocator maps so large a
/// block separately: its pages count only when they are written to, and it grows without a copy. A
/// vector that doubles would leave its former blocks unused.
fn widen(found: &mut Vec<Node>)
    ensures { found.new.items ≡ found.old.items }
{
    const LONG: usize = 16_384;
    // 34 MB: a node takes 104 bytes
    const MANY: usize = 327_680;
    if found.len() == LONG {
        // if the allocation fails, the vector grows as usual
        let _ = found.try_reserve_exact(MANY);
    }
}

/// Reads a node and appends it. Its members replace those in `retained`.
fn add_node<'a>(
    alloc: Global,
    reader: &mut Reader<'a>,
    retained: &mut Vec<(&'a str, Entry<'a>)>,
    found: &mut Vec<Node>,
) -> Result<(), FastPathFault>
    ensures { IfOk result (λ _. (node : SpecNode)
        × ReadsValue 122 reader.old reader.new as_node (raw_node_view node)
        × (found.new.items ≡ found.old.items ++ node ∷ [])) }
{
    let Some(Token::BeginObject) = reader.next() else {
        return Err(FastPathFault::Unsupported);
    };
    entries::take_all(alloc, reader, retained)?;
    nodes::add_node(alloc, &Object::Entries(retained.as_slice()), found)?;
    Ok(())
}

/// Reads the nodes of a list, after its bracket.
fn node_items<'a>(alloc: Global, reader: &mut Reader<'a>) -> Result<Vec<Node>, FastPathFault>
    ensures { IfOk result (λ found. ReadsItems 122 reader.old reader.new
        as_node (map raw_node_view found.items)) }
{
    let mut found = Vec::new(alloc);
    let mut retained = Vec::new(alloc);
    'items: while !reader.take_end_array() {
        widen(&mut found);
        add_node(alloc, reader, &mut retained, &mut found)?;
    }
    found.shrink_to_fit();
    Ok(found)
}

/// Reads a list of nodes; none if it is null.
fn node_list(alloc: Global, reader: &mut Reader<'_>) -> Result<Vec<Node>, FastPathFault>
    ensures { IfOk result (λ found. ReadsValue 123 reader.old reader.new
        (λ d. list_in_optional_data as_node (Some d)) (map raw_node_view found.items)) }
{
    match reader.next() {
        Some(Token::BeginArray) => node_items(alloc, reader),
        Some(Token::Null) => Ok(Vec::new(alloc)),
        _ => Err(FastPathFault::Unsupported),
    }
}

/// Reads the nodes of a tree. Its other members are stored in `retained`.
fn nodes_among<'a>(
    alloc: Global,
    reader: &mut Reader<'a>,
    retained: &mut Vec<(&'a str, Value<'a>)>,
) -> Result<Vec<Node>, FastPathFault>
    requires { retained.old.items ≡ [] }
    ensures { IfOk result (λ found. (there : Option spec.Json)
        × ReadsMemberApart 123 reader.old reader.new
        (codes "nodes") there (members_view retained.new.items) × (list_in_optional_data as_node
        (option_map json_data there) ≡ Some (map raw_node_view found.items))) }
{
    if !members::pass_until(alloc, reader, 123, "nodes", retained)? {
        return Ok(Vec::new(alloc));
    }
    let found = node_list(alloc, reader)?;
    if members::pass_until(alloc, reader, 123, "nodes", retained)? {
        return Err(FastPathFault::Unsupported);
    }
    Ok(found)
}

/// Reads a tree from the members of an object, after its brace.
fn tree_members(alloc: Global, reader: &mut Reader<'_>) -> Result<Tree, FastPathFault>
    ensures { IfOk result
        (λ tree. ReadsMembers 123 reader.old reader.new as_tree (raw_tree_view tree)) }
{
    let mut retained = Vec::new(alloc);
    let found = nodes_among(alloc, reader, &mut retained)?;
    let mut tree = nodes::tree(alloc, &Value::Object(retained))?;
    tree.nodes = found;
    Ok(tree)
}

/// Reads a tree; `None` if it is null.
pub(crate) fn optional_tree(
    alloc: Global,
    reader: &mut Reader<'_>,
) -> Result<Option<Tree>, FastPathFault>
    ensures { IfOk result (λ found. ReadsValue 124 reader.old reader.new
        (λ d. value_in_optional_data as_tree (Some d)) (option_map raw_tree_view found)) }
{
    match reader.next() {
        Some(Token::BeginObject) => Ok(Some(tree_members(alloc, reader)?)),
        Some(Token::Null) => Ok(None),
        _ => Err(FastPathFault::Unsupported),
    }
}
