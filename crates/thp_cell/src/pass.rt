//! The passes with which threads call a node.
ghost use Rattle.std.specs.Prelude.{◌≡◌, ◌<◌, ◌≤◌, false};
ghost use Rattle.thp_history.specs.Prelude.{max_order, IsLegal};
ghost use Rattle.thp_cell.specs.Views.{PassState};
ghost use Rattle.thp_cell.specs.Seats.{known_state, IsNumbered, IsIn, pass_state, HoldsNode};

use crate::rule::SeatKnowledge;
use atomic_table::Seat;
use std::marker::Model;
use thp_node::{FullLog, Node, Recorder};

/// The right to call a cell's node as some of the cell's callers.
///
/// Contracts see which cell the pass belongs to, its callers, whether it keeps the node between its calls, and its front: the
/// history of the node that the pass knows.
#[derive(Drop)]
pub struct Pass<R: Recorder = FullLog> {
    // the callers: the numbers from `first` to `end - 1`
    pub(crate) first: u32,
    pub(crate) end: u32,
    // whether the pass keeps the node between its calls
    pub(crate) keeps: bool,
    pub(crate) seat: Seat<Node<R>, SeatKnowledge>,
}

impl<R: Recorder> Model for Pass<R> {
    ghost Value = { PassState };

    ghost view = { λ p. known_state p.keeps p.seat };

    ghost invariant = { λ p. IsNumbered p.first p.end (known_state p.keeps p.seat) × IsIn p.keeps p.seat };
}

impl<R: Recorder> Pass<R> {
    /// Returns the callers of the pass: from the first number on, and below the second.
    pub fn callers(&self) -> (u32, u32)
        ensures first { result.0 ≡ self.now.first }
        ensures end { result.1 ≡ self.now.end }
        // properties of every pass
        ensures some { self.now.first < self.now.end }
        ensures inside { self.now.end ≤ self.now.callers }
        ensures legal { IsLegal self.now.shape self.now.front }
        ensures low { self.now.shape.order ≤ max_order }
    {
        (self.first, self.end)
    }
}

/// A pass that has locked the node: no other pass can call it. Only `NodeCell::release` consumes it, and returns a pass that does
/// not keep the node.
pub struct Hold<R: Recorder = FullLog> {
    // the callers: the numbers from `first` to `end - 1`
    pub(crate) first: u32,
    pub(crate) end: u32,
    pub(crate) seat: Seat<Node<R>, SeatKnowledge>,
}

impl<R: Recorder> Model for Hold<R> {
    ghost Value = { PassState };

    ghost view = { λ h. pass_state false h.seat };

    ghost invariant = { λ h. IsNumbered h.first h.end (pass_state false h.seat) × HoldsNode h.seat };
}
