//! Open batches, reconstructed from a caller's own events.
use crate::stress::parts::Part;
use crate::stress::tallies::Tally;
use std::alloc::Global;
use thp_history::{PageId, What};
use thp_node::{BackReply, Tried};

// The pages of a take, oldest first, without those that were split or found in use, and how many places were passed.
#[derive(Drop)]
pub(crate) struct Batch {
    pages: Vec<Option<PageId>>,
    passed: usize,
}

impl Batch {
    // The batch that the caller's next `count` events take.
    pub(crate) fn take(alloc: Global, part: &mut Part<'_>, count: u32) -> Option<Batch> {
        let mut pages = Vec::new(alloc);
        for _ in 0..count {
            match part.next()? {
                What::Taken { page } => pages.push(Some(page)).ok()?,
                _ => return None,
            }
        }
        Some(Batch { pages, passed: 0 })
    }

    // Moves to a page after those that were passed, passing only freed pages; returns its index.
    fn go_to(&mut self, tally: &Tally, page: PageId) -> Option<usize> {
        for place in self.passed..self.pages.len() {
            if let Some(other) = self.pages[place] {
                if other == page {
                    self.passed = place.wrapping_add(1);
                    return Some(place);
                }
                if !tally.is_freed(other) {
                    return None;
                }
            }
        }
        None
    }

    // Only freed pages follow those that were passed.
    pub(crate) fn is_passed(&self, tally: &Tally) -> bool {
        for place in self.passed..self.pages.len() {
            if let Some(page) = self.pages[place] {
                if !tally.is_freed(page) {
                    return false;
                }
            }
        }
        true
    }

    // A page that left the batch.
    fn let_go(&mut self, tally: &Tally, page: PageId) -> Option<()> {
        let place = self.go_to(tally, page)?;
        let page = self.pages.get_mut(place)?;
        *page = None;
        Some(())
    }

    // The try that is the caller's next event.
    pub(crate) fn try_next(&mut self, tally: &Tally, part: &mut Part<'_>) -> Option<Tried> {
        match part.next()? {
            What::Split { page, released: _ } => {
                self.let_go(tally, page)?;
                Some(Tried::Split(page))
            }
            What::Pinned { page } => {
                let _place = self.go_to(tally, page)?;
                Some(Tried::Pinned(page))
            }
            What::Used { page } => {
                self.let_go(tally, page)?;
                Some(Tried::Used(page))
            }
            _ => None,
        }
    }

    // The put back in the caller's next events: each remaining page is put back or dropped, in order.
    pub(crate) fn put_back(
        &mut self,
        tally: &Tally,
        part: &mut Part<'_>,
        count: usize,
    ) -> Option<BackReply> {
        self.passed = 0;
        let mut reply = BackReply {
            back: 0,
            dropped: 0,
        };
        for _ in 0..count {
            match part.next()? {
                What::Back { page } => {
                    let _place = self.go_to(tally, page)?;
                    reply.back = reply.back.checked_add(1)?;
                }
                What::Dropped { page } => {
                    let _place = self.go_to(tally, page)?;
                    reply.dropped = reply.dropped.checked_add(1)?;
                }
                _ => return None,
            }
        }
        if self.is_passed(tally) {
            Some(reply)
        } else {
            None
        }
    }
}
