//! The slow check: whether a history is legal, by a literal reading of the definitions.
//!
//! It recomputes everything about a page, the queue, flights and frames for each event, by passes over the events before it. It
//! keeps nothing between events: it has none of the descriptors, links or tables of a node.
ghost use Rattle.std.specs.Prelude.{◌≤◌, OnOk, IfErr};
ghost use Rattle.thp_history.specs.Prelude.{IsCheckResult, IsLegal, max_order, min_order};

mod frames;
mod kinds;
mod pages;
mod passing;
mod places;
mod underused;

use kinds::fits;
use std::alloc::{AllocError, Global};
use thp_history::{CheckFault, Event, Shape};

/// Checks that a history is legal on a node of this shape, that is, that each of its events fits those before it (`IsLegal`).
///
/// The node may have any number of blocks, pages of order 2 to 9, and any threshold. Fails with `Illegal` at the first event that
/// does not fit, and with `OutOfMemory` if memory for a queue or a flight can't be allocated.
///
/// This reads the definitions literally, and is slow. Each event takes passes over all events before it, and most kinds take some
/// for each subpage. An event that depends on which pages were partly unmapped takes some for each subpage and each unmap of its
/// page. The time therefore grows with the square of the history's length and, if pages are split, with its cube.
/// `thp_check::check` computes the same result in one pass.
pub fn check(alloc: Global, shape: Shape, events: &[Event]) -> Result<(), CheckFault>
    requires least { min_order ≤ shape.order }
    requires most { shape.order ≤ max_order }
    ensures legal { OnOk result (IsLegal shape events.now) }
    ensures illegal { IfErr result (IsCheckResult shape events.now) }
{
    for (place, event) in events.iter().enumerate() {
        let (before, after) = (&events[..place], &events[..place + 1]);
        match fits(alloc, shape, before, after, event) {
            Ok(true) => {}
            Ok(false) => return Err(CheckFault::Illegal(place)),
            Err(AllocError) => return Err(CheckFault::OutOfMemory),
        }
    }
    Ok(())
}
