//! Conclusions that callers can draw from the contracts of a cell without proofs of their own.
ghost use Rattle.std.specs.Prelude.{◌≡◌, ◌≤◌, ◌++◌, true, false, [], ◌∷◌, Err, IfOk, OnOk};
ghost use Rattle.thp_history.specs.Prelude.{by, shrinks_underused};
ghost use Rattle.thp_cell.specs.Prelude.{HasCaller, HasAll};

use thp_cell::{CellFault, NodeCell, Pass};
use thp_history::{PageId, What};
use thp_node::BackReply;

/// Allocates the first page of a new cell by the pass that has all callers, and returns the number of queued pages then: the page
/// is queued if the shrinker looks for underused pages. No call is busy.
#[tactic(auto, unfolding(thp_history::specs::History::count_of, thp_history::specs::Places::queue))]
pub fn first_page(cell: &NodeCell, pass: &mut Pass, caller: u32) -> Result<(PageId, u32), CellFault>
    requires cell { pass.old.cell ≡ cell.now }
    requires caller { HasCaller pass.old caller }
    requires all { HasAll pass.old }
    requires new { pass.old.front ≡ [] }
    ensures page { IfOk result (λ r. r.0 ≡ 0) }
    ensures off { shrinks_underused pass.old.shape ≡ false → IfOk result (λ r. r.1 ≡ 0) }
    ensures on { shrinks_underused pass.old.shape ≡ true → IfOk result (λ r. r.1 ≡ 1) }
    ensures never_busy { result ≡ Err CellFault.Busy → ⊥ }
{
    let page = cell.alloc_page(pass, caller)?;
    let queued = cell.count(pass);
    Ok((page, queued))
}

/// Adds a pin by the pass that has all callers: its front is the old one and that event.
pub fn pin_alone(
    cell: &NodeCell,
    pass: &mut Pass,
    caller: u32,
    page: PageId,
) -> Result<(), CellFault>
    requires cell { pass.old.cell ≡ cell.now }
    requires caller { HasCaller pass.old caller }
    requires all { HasAll pass.old }
    ensures { OnOk result (pass.new.front ≡ pass.old.front ++ by caller (What.Pin page) ∷ []) }
{
    cell.pin(pass, caller, page)
}

/// Puts a batch that one of two adjacent passes took back through the pass that joins them.
pub fn return_after_join(
    cell: &NodeCell,
    left: Pass,
    right: Pass,
    caller: u32,
    n: u32,
) -> (Pass, Result<BackReply, CellFault>)
    requires left_cell { left.cell ≡ cell.now }
    requires right_cell { right.cell ≡ cell.now }
    requires adjacent { left.end ≡ right.first }
    requires caller { HasCaller right caller }
    requires count { n ≤ 128 }
{
    let mut right = right;
    let taken = cell.take(&mut right, caller, n);
    let mut pass = cell.join(left, right);
    let reply = match taken {
        Ok(batch) => match cell.put_back(&mut pass, batch) {
            Ok(reply) => Ok(reply),
            Err((_, fault)) => Err(fault),
        },
        Err(fault) => Err(fault),
    };
    (pass, reply)
}
