//! Rounds of one thread: pins and unpins of its own page.
ghost use Rattle.std.specs.Prelude.{◌≡◌};
ghost use Rattle.thp_cell.specs.Prelude.{HasCaller, continuing};

use crate::nodes::{new_cell, new_node};
use std::alloc::Global;
use thp_cell::{CellFault, NodeCell, Pass};
use thp_history::PageId;
use thp_node::Node;

/// The numbers of successful calls, and of calls that found the node busy.
#[derive(Clone, Copy)]
pub(crate) struct Tally {
    pub done: u64,
    pub busy: u64,
}

impl Tally {
    pub(crate) fn none() -> Tally {
        Tally { done: 0, busy: 0 }
    }

    pub(crate) fn with(self, other: Tally) -> Tally {
        Tally {
            done: self.done.saturating_add(other.done),
            busy: self.busy.saturating_add(other.busy),
        }
    }

    fn note<T: Drop>(&mut self, answer: Result<T, CellFault>) {
        match answer {
            Ok(_) => self.done = self.done.saturating_add(1),
            Err(CellFault::Busy) => self.busy = self.busy.saturating_add(1),
            Err(CellFault::Refused(_)) => {}
        }
    }
}

/// Rounds on a bare node.
pub(crate) fn bare_rounds(alloc: Global, rounds: u32) -> Option<Tally> {
    let mut node = new_node(alloc)?;
    let tally = rounds_on(&mut node, rounds);
    drop(node);
    tally
}

// Allocates a page of a bare node and makes the rounds on it; none if it can't be allocated.
fn rounds_on(node: &mut Node, rounds: u32) -> Option<Tally> {
    let mut done = 0u64;
    if let Err(_) = node.alloc_page(0) {
        return None;
    }
    for _round in 0..rounds {
        done = done.saturating_add(u64::from(node.pin(0, PageId(0)).is_ok()));
        done = done.saturating_add(u64::from(node.unpin(0, PageId(0)).is_ok()));
    }
    Some(Tally { done, busy: 0 })
}

/// Rounds of one caller of a cell.
pub(crate) fn cell_rounds(cell: &NodeCell, pass: Pass, caller: u32, rounds: u32) -> (Pass, Tally)
    requires cell { pass.cell ≡ cell.now }
    requires caller { HasCaller pass caller }
    ensures same { result.0 ≡ continuing pass result.0 }
{
    let mut pass = pass;
    let mut tally = Tally::none();
    let page = PageId(u64::from(caller));
    for _round in 0..rounds {
        tally.note(cell.pin(&mut pass, caller, page));
        tally.note(cell.unpin(&mut pass, caller, page));
    }
    (pass, tally)
}

/// Rounds on a cell of the thread's own; none if memory can't be allocated.
pub(crate) fn own_rounds(alloc: Global, rounds: u32) -> Tally {
    match new_cell(alloc, 1) {
        Some((cell, pass)) => {
            let (_pass, tally) = cell_rounds(&cell, pass, 0, rounds);
            tally
        }
        None => Tally::none(),
    }
}
