//! The `export *` statements of a module.

ghost use Rattle.std.specs.Prelude.{◌≡◌, All, map};
ghost use Rattle.std.specs.Slice.Iter.{iter_rest};
ghost use Rattle.symbols_table.specs.ModuleViews.{export_star_view};
ghost use Rattle.symbols_table.specs.Laws.{IsExportStarInTree};

use std::slice;
use symbols_ast::tree::{NodeId, NodeRef, Tree};

/// A statement `export * from "src"`: its node and its specifier.
#[derive(Clone, Copy)]
pub(crate) struct StarStatement<'a> {
    pub(crate) node_id: NodeId,
    pub(crate) src: &'a str,
}

/// An iterator over the nodes of a module's `export *` statements, in order.
#[derive(Drop)]
pub struct ReExportNodes<'r, 'a> {
    pub(crate) source: &'a Tree,
    pub(crate) stars: slice::Iter<'r, StarStatement<'a>>,
    pub(crate) ghost starred: { All (IsExportStarInTree source.now) (map export_star_view (iter_rest stars)) },
}

impl<'r, 'a> Iterator for ReExportNodes<'r, 'a> {
    ghost use Rattle.std.specs.Iterator.{YieldsFirstBy, item_count};
    ghost use Rattle.symbols_ast.specs.NodeRefs.{node_view};
    ghost use Rattle.symbols_table.specs.ReExports.{remaining_export_star_nodes};

    type Item = NodeRef<'a>;

    ghost next_gives = { YieldsFirstBy node_view remaining_export_star_nodes };

    ghost remaining = { item_count remaining_export_star_nodes };

    fn next(&mut self) -> Option<NodeRef<'a>> {
        let star = self.stars.next()?;
        Some(NodeRef {
            tree: self.source,
            number: star.node_id.0,
        })
    }
}
