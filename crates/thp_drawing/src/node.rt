//! The data of a node that is drawn.
ghost use Rattle.std.specs.Prelude.{◌≡◌, IfOk};
ghost use Rattle.thp_drawing.specs.Drawn.{AreColumnsOf, IsDrawn};

use std::alloc::{AllocError, Global};
use thp_history::{Event, Shape};
use thp_metrics::{Column, Columns, NodeSeries, Numbers, StuckPage};

/// The first event of a node that does not fit those before it.
#[derive(Clone, Copy, Debug, PartialEq, Eq)]
pub struct IllegalEvent {
    /// The line of the event in the journal's text, counted from 1.
    pub line: u64,
    /// The event, as in its line.
    pub event: Event,
}

/// The data of a node that is drawn: its numbers over its events, or over those before its first illegal event.
#[derive(Drop)]
pub struct DrawnNode {
    /// The shape of the node.
    pub shape: Shape,
    /// The number of prefixes of its events, including the empty one.
    pub prefixes: u128,
    /// The number of prefixes in a column; the last column can have fewer.
    pub width: u64,
    /// The columns, in the order of their prefixes.
    pub columns: Vec<Column>,
    /// The numbers after the last event.
    pub last: Numbers,
    /// The first event that does not fit those before it, if there is one.
    pub illegal: Option<IllegalEvent>,
    /// The pages that wait after the last event and were found pinned, those that have waited longest first.
    pub stuck: Vec<StuckPage>,
}

impl DrawnNode {
    /// Creates the data of a node whose events are legal. The shape must be the node's. Fails if memory for its stuck pages can't
    /// be allocated.
    pub fn of(alloc: Global, shape: Shape, node: NodeSeries) -> Result<DrawnNode, AllocError>
        requires { node.shape ≡ shape }
        ensures { IfOk result (IsDrawn shape node.history) }
    {
        let last = node.numbers();
        let stuck = node.stuck(alloc)?;
        Ok(DrawnNode::from_columns(shape, node.into_columns(), last, None, stuck))
    }

    /// Creates the data of a node of this shape from its columns, the numbers after the last event, the first event that does not
    /// fit, and the stuck pages.
    pub fn from_columns(
        shape: Shape,
        columns: Columns,
        last: Numbers,
        illegal: Option<IllegalEvent>,
        stuck: Vec<StuckPage>,
    ) -> DrawnNode
        ensures shape { result.shape ≡ shape }
        ensures last { result.last ≡ last }
        ensures illegal { result.illegal ≡ illegal }
        ensures stuck { result.stuck.items ≡ stuck.items }
        ensures columns { AreColumnsOf columns result }
    {
        DrawnNode {
            shape,
            prefixes: columns.prefixes(),
            width: columns.width(),
            columns: columns.into_columns(),
            last,
            illegal,
            stuck,
        }
    }
}
