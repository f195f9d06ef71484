//! Nodes for rounds.
ghost use Rattle.std.specs.Prelude.{◌≡◌, [], IfSome};
ghost use Rattle.thp_cell.specs.Prelude.{HasAll};

use std::alloc::Global;
use thp_cell::{NodeCell, Pass};
use thp_history::Shape;
use thp_node::Node;

/// A node with room for every worker's page.
pub(crate) fn new_node(alloc: Global) -> Option<Node>
    ensures { IfSome result (λ n. n.journal ≡ []) }
{
    let shape = Shape {
        blocks: 16,
        order: 9,
        underused: None,
    };
    match Node::new(alloc, shape) {
        Ok(node) => Some(node),
        Err(_) => None,
    }
}

/// A cell with a page for each of its callers, and the pass that has them all.
pub(crate) fn new_cell(alloc: Global, callers: u32) -> Option<(NodeCell, Pass)>
    ensures cell { IfSome result (λ r. r.1.cell ≡ r.0) }
    ensures all { IfSome result (λ r. HasAll r.1) }
    ensures callers { IfSome result (λ r. r.1.callers ≡ callers) }
{
    let node = new_node(alloc)?;
    let Ok((cell, mut pass)) = NodeCell::new(alloc, node, callers) else {
        return None;
    };
    for _page in 0..callers {
        if let Err(_) = cell.alloc_page(&mut pass, 0) {
            return None;
        }
    }
    Some((cell, pass))
}
