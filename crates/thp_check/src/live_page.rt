//! The state of a live page, as it is shown.
ghost use Rattle.std.specs.Prelude.{◌≡◌, true, is_some};
ghost use Rattle.thp_history.specs.Prelude.{holds, is_split_candidate, used_set, zero_set, set_of};

use thp_history::SubSet;
use thp_page::{Page, Standing};

/// A live page after the events so far.
#[derive(Clone, Copy, Debug, PartialEq, Eq)]
pub struct LivePage {
    /// The page's block.
    pub block: u32,
    /// The list that the page is on: the queue, a caller's batch, or none.
    pub standing: Standing,
    /// Whether the page was split into base pages.
    pub split: bool,
    /// Whether the page is partly mapped: an unmap removed a subpage's last mapping and left another subpage in use.
    pub partly_mapped: bool,
    /// Whether the page is worth a split: partly mapped, or underused.
    pub worth_split: bool,
    /// The number of extra pins.
    pub pins: u32,
    /// The whole map count: the number of PMD entries that map the page.
    pub whole: u32,
    /// The subpages in use.
    pub used: SubSet,
    /// The zero-filled subpages.
    pub zero_filled: SubSet,
    /// The subpages whose frames the page holds.
    pub held: SubSet,
}

/// The position of a live page in its life after the events so far: those fields of [`LivePage`] that are not sets.
#[derive(Clone, Copy, Debug, PartialEq, Eq)]
pub struct PageLocation {
    /// The page's block.
    pub block: u32,
    /// The list that the page is on: the queue, a caller's batch, or none.
    pub standing: Standing,
    /// Whether the page was split into base pages.
    pub split: bool,
    /// Whether the page is partly mapped: an unmap removed a subpage's last mapping and left another subpage in use.
    pub partly_mapped: bool,
}

impl LivePage {
    // The state of a page in a block and on this list. The shrinker splits underused pages if there is a threshold.
    pub(crate) fn of(
        page: &Page,
        block: u32,
        standing: Standing,
        threshold: Option<u32>,
    ) -> LivePage
        requires { page.now.split ≡ true → page.now.freed_zero_frames ≡ is_some threshold }
        ensures block { result.block ≡ block }
        ensures standing { result.standing ≡ standing }
        ensures split { result.split ≡ page.now.split }
        ensures partly { result.partly_mapped ≡ page.now.partly }
        ensures worth { result.worth_split ≡ is_split_candidate threshold page.now }
        ensures pins { result.pins ≡ page.now.pins }
        ensures whole { result.whole ≡ page.now.whole }
        ensures used { result.used ≡ used_set page.now }
        ensures zero { result.zero_filled ≡ zero_set page.now }
        ensures held { result.held ≡ set_of (holds page.now) }
    {
        LivePage {
            block,
            standing,
            split: page.is_split(),
            partly_mapped: page.is_partly(),
            worth_split: page.is_split_candidate(threshold),
            pins: page.pins(),
            whole: page.whole(),
            used: page.in_use_set(),
            zero_filled: page.zero_set(),
            held: held_set(page, threshold.is_some()),
        }
    }
}

// The subpages whose frames a page holds. If `gives_zero` is true, a split gave back those of the zero-filled ones.
fn held_set(page: &Page, gives_zero: bool) -> SubSet
    requires { page.now.split ≡ true → page.now.freed_zero_frames ≡ gives_zero }
    ensures { result ≡ set_of (holds page.now) }
{
    if !page.is_split() {
        return SubSet::full(page.order());
    }
    let used = page.in_use_set();
    if gives_zero {
        used.difference(page.zero_set())
    } else {
        used
    }
}
