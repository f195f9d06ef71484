//! The pages in flight, each with the number of its flight, and the flights that wait.
ghost use Rattle.std.specs.Prelude.{◌≡◌, [], false, true, nat_eq};
ghost use Rattle.std.specs.List.{list_any};
ghost use Rattle.thp_journal_scripts.specs.Prelude.{leave, ExtendsLast, FlyingPage, LosesPage};

use crate::script_batch::MAX_TAKEN;
use std::collections::VecDeque;
use thp_history::PageId;

/// A page in flight.
#[derive(Clone, Copy)]
pub(crate) struct FlyingPage {
    pub(crate) page: PageId,
    // the number of flights that began before this one
    pub(crate) flight: u64,
}

/// Returns whether a page of this flight is left.
pub(crate) fn has_flight(pages: &Vec<FlyingPage>, flight: u64) -> bool
    ensures { result ≡ list_any (λ (flying : FlyingPage). nat_eq flying.flight flight) pages.now.items }
{
    pages.iter().any(|flying| flying.flight == flight)
}

/// Removes a page, and returns its flight; `None` if the page is in no flight.
pub(crate) fn leave(pages: &mut Vec<FlyingPage>, page: PageId) -> Option<u64>
    ensures { pages.new.items ≡ leave page pages.old.items }
{
    for place in 0..pages.len() {
        if pages[place].page == page {
            return Some(pages.remove(place).flight);
        }
    }
    None
}

/// A flight that waits for the batch before it.
#[derive(Clone, Copy)]
pub(crate) struct WaitingFlight {
    pub(crate) caller: u32,
    pub(crate) taken: u32,
    // the number of flights that began before this one
    pub(crate) flight: u64,
}

/// Adds a page to the last of the flights that wait, if that is this caller's and has room. Returns whether it did.
pub(crate) fn extend_last(waiting: &mut VecDeque<WaitingFlight>, by: u32) -> bool
    ensures extends { result ≡ true → ExtendsLast by waiting.old.items waiting.new.items }
    ensures unchanged { result ≡ false → waiting.new.items ≡ waiting.old.items }
{
    let Some(last) = waiting.back_mut() else {
        return false;
    };
    if last.caller != by || last.taken >= MAX_TAKEN {
        return false;
    }
    last.taken += 1;
    true
}

/// Removes a page from a flight, if that waits: the page was freed.
pub(crate) fn lose_page(waiting: &mut VecDeque<WaitingFlight>, flight: u64)
    ensures none { waiting.old.items ≡ [] → waiting.new.items ≡ [] }
    ensures loses { LosesPage 1 waiting.old.items waiting.new.items }
{
    let Some(first) = waiting.front() else {
        return;
    };
    if flight < first.flight {
        return;
    }
    let behind = (flight - first.flight) as usize;
    if let Some(waiting) = waiting.get_mut(behind) {
        waiting.taken = waiting.taken.saturating_sub(1);
    }
}
