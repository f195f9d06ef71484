//! The limits of a node and of its callers (this project's profile). `Shape` has the limits of a node's size.
ghost use Rattle.std.specs.Prelude.{◌≡◌, ◌^◌};
ghost use Rattle.thp_history.specs.Limits.{max_batch, max_blocks, max_callers, max_node_blocks, max_node_callers, max_order, max_subpages, min_order};

use crate::shape::Shape;

/// The number of subpages of a page of the greatest order.
pub const MAX_SUBPAGES: usize = 512;

/// The greatest number of callers of a node in scripts and in journals of version 1 to 3. Callers are numbered from 0.
pub const MAX_CALLERS: u32 = 64;

/// The greatest number of callers of any node.
pub const MAX_NODE_CALLERS: u32 = 4096;

/// The greatest number of pages in a batch.
pub const MAX_BATCH: usize = 128;

/// States that the specs and the code have the same limits.
pub fn limits_are_defined()
    ensures blocks { Shape.MAX_BLOCKS ≡ max_blocks }
    ensures node_blocks { Shape.MAX_NODE_BLOCKS ≡ max_node_blocks }
    ensures least_order { Shape.MIN_ORDER ≡ min_order }
    ensures most_order { Shape.MAX_ORDER ≡ max_order }
    ensures subpages { MAX_SUBPAGES ≡ max_subpages }
    ensures whole_page { 2 ^ max_order ≡ max_subpages }
    ensures callers { MAX_CALLERS ≡ max_callers }
    ensures node_callers { MAX_NODE_CALLERS ≡ max_node_callers }
    ensures batch { MAX_BATCH ≡ max_batch }
{}
