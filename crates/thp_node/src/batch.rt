//! Pages that a caller took from the queue together.
ghost use Rattle.thp_history.specs.Prelude.{max_batch, max_node_callers};
ghost use Rattle.std.specs.Prelude.{◌≡◌, ◌+◌, ◌<◌, ◌≤◌, [], ◌∷◌, ◌++◌, drop, length, slice_get, Option};
ghost use Rattle.thp_node.specs.Batches.{no_batch, rest, IsBatch};

use arrayvec::ArrayVec;
use std::marker::Model;
use thp_history::{MAX_BATCH, PageId};

/// The pages of one take, oldest first, and how many of them were tried.
///
/// A page of the batch leaves the caller's flight when another caller's call frees it. The batch still contains its number, and
/// `Node::split_next` and `Node::put_back` skip it. Dropping a batch leaves its pages in the flight.
#[derive(Drop)]
pub struct Batch {
    caller: u32,
    pages: ArrayVec<PageId, MAX_BATCH>,
    // the number of pages before the one with which the next try begins
    place: usize,
}

impl Model for Batch {
    ghost use Rattle.thp_node.specs.Batches.{BatchState, IsBatch};

    ghost Value = { BatchState };

    ghost view = { λ b. record { caller = b.caller; pages = b.pages.items; place = b.place } };

    ghost invariant = { λ b. IsBatch (record { caller = b.caller; pages = b.pages.items; place = b.place }) };
}

impl Batch {
    /// Returns the caller that took the pages.
    pub fn caller(&self) -> u32
        ensures value { result ≡ self.now.caller }
        ensures small { result < max_node_callers }
    {
        self.caller
    }

    /// Returns the pages taken, oldest first.
    pub fn pages(&self) -> &[PageId]
        ensures value { result.now ≡ self.now.pages }
        ensures few { length result.now ≤ max_batch }
    {
        &self.pages
    }

    /// Returns an empty batch, for `take_into`.
    pub fn none() -> Batch
        ensures { result ≡ no_batch }
    {
        Batch {
            caller: 0,
            pages: ArrayVec::new(),
            place: 0,
        }
    }

    /// Discards the batch; this can't fail. No node is involved, so nothing is recorded. The pages stay in the caller's flight,
    /// out of the queue, and the caller can no longer put them back.
    pub fn abandon(self)
        ensures { result ≡ tt }
    {}

    // Makes it an empty batch of a caller.
    pub(crate) fn clear(&mut self, caller: u32)
        requires { caller < max_node_callers }
        ensures { self.new ≡ record { caller = caller; pages = []; place = 0 } }
    {
        self.caller = caller;
        self.pages.clear();
        self.place = 0;
    }

    // Appends a page.
    pub(crate) fn push(&mut self, page: PageId)
        requires { length self.old.pages < max_batch }
        ensures { self.new ≡ record self.old { pages = self.old.pages ++ page ∷ [] } }
    {
        self.pages.push(page);
    }

    // The pages still to be tried.
    pub(crate) fn rest(&self) -> &[PageId]
        ensures { result.now ≡ rest self.now }
    {
        &self.pages[self.place..]
    }

    // Skips `count` of them.
    pub(crate) fn advance(&mut self, count: usize)
        requires { count ≤ length (rest self.old) }
        ensures rest { rest self.new ≡ drop count (rest self.old) }
        ensures caller { self.new.caller ≡ self.old.caller }
        ensures pages { self.new.pages ≡ self.old.pages }
    {
        self.place += count;
    }
}
