//! The state of a replay for display: its queue, its flights and its pages, and the sums of its events.
ghost use Rattle.std.specs.Prelude.{◌≡◌, ℕ, length, map, slice_get, is_some, IfOk, IfSome, IsSome, Some, ◌&&◌, nat_lt};
ghost use Rattle.std.specs.List.{filter, range_with_len};
ghost use Rattle.thp_history.specs.Prelude.{counters_of, is_live, is_split, is_used, own, pins, whole, block_in_use, frames_given, frames_held, is_held, flight, queue, set_of, subpages, is_partly_mapped, is_worth_split, is_zero_filled};
ghost use Rattle.thp_page.specs.Prelude.{slot_at};
ghost use Rattle.thp_live_pages.specs.Prelude.{block_of, standing_of};
ghost use Rattle.thp_check.specs.Showing.{is_taken, page_at};

use crate::live_page::{LivePage, PageLocation};
use crate::replay::Replay;
use std::alloc::{AllocError, Global};
use thp_history::{Counters, PageId};
use thp_live_pages::PageStore;

impl Replay {
    /// Returns the pages in the deferred split queue, oldest first. It takes `&mut self` because each read of a link is counted;
    /// the replay does not change.
    pub fn queue(&mut self, alloc: Global) -> Result<Vec<PageId>, AllocError>
        ensures pages { IfOk result (λ pages. pages.items ≡ queue self.old.shape self.old.history) }
        ensures same { self.new ≡ self.old }
    {
        let blocks = self.state.places.queued(alloc)?;
        pages_of(&self.state.places, alloc, &blocks)
    }

    /// Returns the pages that a caller took and that are still in its batch, in the order of the takes.
    pub fn flight(&self, alloc: Global, caller: u32) -> Result<Vec<PageId>, AllocError>
        ensures { IfOk result (λ pages. pages.items ≡ flight self.now.history caller) }
    {
        let blocks = self.state.flights.blocks_of(alloc, caller)?;
        pages_of(&self.state.places, alloc, &blocks)
    }

    /// Returns the live pages, in the order of their blocks.
    pub fn live_pages(&self, alloc: Global) -> Result<Vec<PageId>, AllocError>
        ensures { IfOk result (λ pages. map (block_of self.now.history) pages.items ≡ map (λ b. Some b) (filter (block_in_use self.now.history) (range_with_len 0 self.now.shape.blocks))) }
    {
        let places = &self.state.places;
        let blocks = taken_blocks(places, alloc, self.state.shape.blocks)?;
        pages_of(places, alloc, &blocks)
    }

    /// Returns the state of a page after the events so far, or `None` if it is not live.
    pub fn page(&self, page: PageId) -> Option<LivePage>
        ensures live { is_some result ≡ is_live self.now.history page }
        ensures block { IfSome result (λ x. block_of self.now.history page ≡ Some x.block) }
        ensures standing { IfSome result (λ x. x.standing ≡ standing_of self.now.shape self.now.history page) }
        ensures split { IfSome result (λ x. x.split ≡ is_split self.now.history page) }
        ensures partly { IfSome result (λ x. x.partly_mapped ≡ is_partly_mapped self.now.shape self.now.history page) }
        ensures worth { IfSome result (λ x. x.worth_split ≡ is_worth_split self.now.shape self.now.history page) }
        ensures pins { IfSome result (λ x. x.pins ≡ pins self.now.history page) }
        ensures whole { IfSome result (λ x. x.whole ≡ whole self.now.history page) }
        ensures used { IfSome result (λ x. x.used ≡ set_of (λ i. nat_lt i (subpages self.now.shape) && is_used self.now.history page i)) }
        ensures zero { IfSome result (λ x. x.zero_filled ≡ set_of (λ i. nat_lt i (subpages self.now.shape) && is_zero_filled self.now.history page i)) }
        ensures held { IfSome result (λ x. x.held ≡ set_of (is_held self.now.shape self.now.history page)) }
    {
        let table = self.state.places.table();
        let block = table.block_of(page)?;
        let standing = table.standing(block);
        let threshold = self.state.shape.underused;
        match table.page(block) {
            Some((_, state)) => Some(LivePage::of(state, block, standing, threshold)),
            None => unreachable!(),
        }
    }

    /// Returns the position of a page in its life, or `None` if it is not live. Builds no set of subpages.
    pub fn whereabouts(&self, page: PageId) -> Option<PageLocation>
        ensures live { is_some result ≡ is_live self.now.history page }
        ensures block { IfSome result (λ x. block_of self.now.history page ≡ Some x.block) }
        ensures standing { IfSome result (λ x. x.standing ≡ standing_of self.now.shape self.now.history page) }
        ensures split { IfSome result (λ x. x.split ≡ is_split self.now.history page) }
        ensures partly { IfSome result (λ x. x.partly_mapped ≡ is_partly_mapped self.now.shape self.now.history page) }
    {
        let table = self.state.places.table();
        let block = table.block_of(page)?;
        let standing = table.standing(block);
        match table.page(block) {
            Some((_, state)) => Some(PageLocation {
                block,
                standing,
                split: state.is_split(),
                partly_mapped: state.is_partly(),
            }),
            None => unreachable!(),
        }
    }

    /// Returns the own map count of subpage `i` of a page: the number of PTE entries that map it. `None` if the page is not live
    /// or has no such subpage.
    pub fn own(&self, page: PageId, i: u32) -> Option<u32>
        ensures there { is_some result ≡ (nat_lt i (subpages self.now.shape) && is_live self.now.history page) }
        ensures own { IfSome result (λ count. count ≡ own self.now.history page i) }
    {
        if i >= self.state.shape.subpages() {
            return None;
        }
        let table = self.state.places.table();
        let block = table.block_of(page)?;
        match table.page(block) {
            Some((_, state)) => Some(state.own(i)),
            None => unreachable!(),
        }
    }

    /// Returns the number of frames that the live pages hold.
    pub fn frames_held(&self) -> u128
        ensures { result ≡ frames_held self.now.shape self.now.history }
    {
        u128::from(self.state.shape.subpages()) * u128::from(self.state.next)
            - self.tally.frames_given
    }

    /// Returns the number of frames given back.
    pub fn frames_given(&self) -> u128
        ensures { result ≡ frames_given self.now.history }
    {
        self.tally.frames_given
    }

    /// Returns the node's statistics.
    pub fn counters(&self) -> Counters
        ensures { result ≡ counters_of self.now.shape self.now.history }
    {
        self.tally.counters
    }
}

// The blocks below `count` that have a page, in ascending order.
fn taken_blocks(places: &PageStore, alloc: Global, count: u32) -> Result<Vec<u32>, AllocError>
    requires { length places.now.table.slots ≡ count }
    ensures { IfOk result (λ blocks. blocks.items ≡ filter (is_taken places.now.table) (range_with_len 0 count)) }
{
    let mut blocks = Vec::new(alloc);
    for block in 0..count {
        if !places.is_free(block) {
            blocks.push(block)?;
        }
    }
    Ok(blocks)
}

// The numbers of the pages in these blocks, in the same order.
fn pages_of(places: &PageStore, alloc: Global, blocks: &[u32]) -> Result<Vec<PageId>, AllocError>
    requires { (k b : ℕ) → slice_get blocks.now k ≡ Some b → IsSome (slot_at places.now.table b) }
    ensures { IfOk result (λ pages. pages.items ≡ map (page_at places.now.table) blocks.now) }
{
    let mut pages = Vec::with_capacity(alloc, blocks.len())?;
    for block in blocks {
        pages.push_reserved(places.number(*block));
    }
    Ok(pages)
}
