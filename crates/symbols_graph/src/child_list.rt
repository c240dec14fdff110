//! Lists the children of a node.

ghost use Rattle.std.specs.Prelude.{◌≡◌, ◌++◌, [], OnOk};
ghost use Rattle.std.specs.Option.{option_map, option_map_or};
ghost use Rattle.std.specs.List.{flat_map};
ghost use Rattle.symbols_ast.specs.FieldViews.{field_view};
ghost use Rattle.symbols_ast.specs.Nodes.{children};

use std::alloc::AllocError;
use symbols_ast::tree::{Children, Field, Node, NodeId};

fn push_children(field: &Field, ids: &mut Vec<NodeId>) -> Result<(), AllocError>
    ensures { OnOk result (ids.new.items ≡ ids.old.items ++ (field_view field.now).children) }
{
    match field.children {
        Children::One(id) => ids.push(id)?,
        Children::Optional(None) => {}
        Children::Optional(Some(id)) => ids.push(id)?,
        Children::Many(ids_of_field) => ids.extend_from_slice(ids_of_field)?,
    }
    Ok(())
}

fn push_all_children(fields: &[Option<Field>], ids: &mut Vec<NodeId>) -> Result<(), AllocError>
    ensures { OnOk result (ids.new.items ≡ ids.old.items ++ flat_map
        (λ slot. option_map_or (λ field. field.children) (option_map field_view slot) [])
        fields.now) }
{
    for slot in fields {
        if let Some(field) = slot {
            push_children(field, ids)?;
        }
    }
    Ok(())
}

/// Replaces the contents of the list by the children of node n, which are none if there is no such
/// node. After an `Err` the list may have some of them.
#[tactic(auto, using(crate::proofs::NodeLemmas::children_in_fields, crate::proofs::NodeLemmas::no_children_past_end))]
pub(crate) fn list_children(
    nodes: &[Node],
    n: usize,
    ids: &mut Vec<NodeId>,
) -> Result<(), AllocError>
    ensures { OnOk result (ids.new.items ≡ children nodes.now n) }
{
    ids.clear();
    match nodes.get(n) {
        Some(node) => push_all_children(&node.kind.fields(), ids),
        None => Ok(()),
    }
}
