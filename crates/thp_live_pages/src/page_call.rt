//! What follows for a page from a loss: its outcome, and the frames that it gives back.
ghost use Rattle.std.specs.Prelude.{◌≡◌};
ghost use Rattle.thp_live_pages.specs.Outcomes.{outcome_by, released_after};
ghost use Rattle.thp_live_pages.specs.PageStoreState.{is_nowhere};

use thp_history::{Outcome, SubSet};
use thp_page::{Change, Page, Standing};

// The outcome of a change, computed from the page after it.
pub(crate) fn outcome_of(page: &Page, change: &Change, standing: Standing, closed: bool) -> Outcome
    ensures { result ≡ outcome_by page.now change.now closed (is_nowhere standing) }
{
    if !change.used_left && page.pins() == 0 {
        return Outcome::Freed;
    }
    let leaves_unused = !page.is_split() && change.unused && change.used_left;
    if leaves_unused && !closed && standing == Standing::Nowhere {
        Outcome::Queued
    } else {
        Outcome::Stays
    }
}

// The frames that a change gives back: all frames if it frees a page that is not split.
pub(crate) fn give_back(page: &Page, change: &Change, outcome: Outcome, released: &mut SubSet)
    ensures { released.new ≡ released_after page.now change.now outcome }
{
    if outcome == Outcome::Freed && !page.is_split() {
        *released = SubSet::full(page.order());
    } else {
        *released = change.released;
    }
}
