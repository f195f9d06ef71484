//! The check of a whole history.
ghost use Rattle.std.specs.Prelude.{◌≤◌, OnOk, IfErr};
ghost use Rattle.thp_history.specs.Prelude.{max_order, min_order, IsLegal, IsCheckResult};

use crate::node_state::NodeState;
use std::alloc::Global;
use thp_history::{CheckFault, Event, Shape};

/// Checks that a history is legal on a node of this shape, that is, that each of its events fits those before it, by the rules of
/// this project's profile (`thp_history`, `IsLegal`).
///
/// The node may have any number of blocks, pages of order 2 to 9, and any threshold. Fails with `Illegal` at the first event that
/// does not fit, and with `OutOfMemory` if memory for the pages and flights of the replay can't be allocated.
///
/// The check takes one pass. Its memory depends on the pages alive at once, not on the
/// number of blocks or the length of the history. The work for
/// an event does not depend on the number of pages queued or in flight, with one exception: the search for a caller's first page
/// passes the pages of callers whose numbers have the same low twelve bits.
pub fn check(alloc: Global, shape: Shape, events: &[Event]) -> Result<(), CheckFault>
    requires least { min_order ≤ shape.order }
    requires most { shape.order ≤ max_order }
    ensures legal { OnOk result (IsLegal shape events.now) }
    ensures illegal { IfErr result (IsCheckResult shape events.now) }
{
    let mut state = match NodeState::new(alloc, shape) {
        Ok(state) => state,
        Err(_) => return Err(CheckFault::OutOfMemory),
    };
    for (place, event) in events.iter().enumerate() {
        if let Err(_) = state.admit(event) {
            drop(state);
            return Err(CheckFault::Illegal(place));
        }
    }
    drop(state);
    Ok(())
}
