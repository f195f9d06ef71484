//! The pages that wait for a split, in the queue or in a batch, event by event, and how often they were found pinned.
ghost use Rattle.std.specs.Prelude.{◌≡◌, ◌<◌, ◌+◌, ◌^◌, ℕ, [], ◌∷◌, ◌++◌, length, IfOk, Contains};
ghost use Rattle.std.specs.Option.{option_and_then};
ghost use Rattle.thp_history.specs.Prelude.{Fits};
ghost use Rattle.thp_journal_writer.specs.Prelude.{event_page};
ghost use Rattle.thp_check.specs.Prelude.{replayed_with};
ghost use Rattle.thp_metrics.specs.Prelude.{AreStuck, home, longest_wait, noted, stuck_among, MayNote};

use crate::arrivals::Arrivals;
use std::alloc::{AllocError, Global};
use std::marker::Model;
use thp_history::{Event, PageId, Shape, Trace, What};

/// A page that waits, in the queue or in a batch, and was found pinned when it was tried.
#[derive(Clone, Copy, Debug, PartialEq, Eq)]
pub struct StuckPage {
    /// The page's number.
    pub page: PageId,
    /// The number of times that the page was found pinned.
    pub finds: u64,
    /// The number of the event with which the page began to wait, counted from 1; it has waited without interruption since.
    pub since: u64,
}

/// The pages of a node that wait, in the queue or in a batch, with the events since which they wait.
///
/// Contracts see the node's shape and the events so far.
#[derive(Drop)]
pub struct Waiting {
    shape: Shape,
    // the number of events
    events: u64,
    arrivals: Arrivals,
    // by block
    finds: Vec<PinCount>,
    // has no bytes
    past: Trace<Event>,
}

impl Model for Waiting {
    ghost use Rattle.thp_check.specs.Prelude.{Replayed};
    ghost use Rattle.thp_metrics.specs.Prelude.{KeepsFinds, KeepsWaits};

    ghost Value = { Replayed };

    ghost view = { λ w. record { shape = w.shape; history = w.past } };

    ghost invariant = { λ w. KeepsWaits w.shape w.past w.events w.arrivals × KeepsFinds w.shape w.past w.finds.items };
}

impl Waiting {
    // A node without events, of this shape. Allocates all memory that its pages will need.
    pub(crate) fn new(alloc: Global, shape: Shape) -> Result<Waiting, AllocError>
        ensures shape { IfOk result (λ w. w.shape ≡ shape) }
        ensures none { IfOk result (λ w. w.history ≡ []) }
    {
        Ok(Waiting {
            shape,
            events: 0,
            arrivals: Arrivals::new(alloc, shape.blocks)?,
            finds: vec![in alloc; NO_PINS; shape.blocks as usize]?,
            past: Trace::new(),
        })
    }

    // Adds an event. Its page waited in block `before`, and waits in block `after` afterwards, if these are given.
    pub(crate) fn follow(&mut self, event: &Event, before: Option<u32>, after: Option<u32>)
        requires room { length self.old.history + 1 < 2 ^ 64 }
        requires fits { Fits self.old.shape self.old.history event.now }
        requires before { before ≡ option_and_then (home self.old.shape self.old.history) (event_page event.now.what) }
        requires after { after ≡ option_and_then (home self.old.shape (self.old.history ++ event.now ∷ [])) (event_page event.now.what) }
        ensures { self.new ≡ replayed_with self.old event.now }
    {
        self.events += 1;
        count_find(&mut self.finds, &event.what, after);
        match (before, after) {
            (None, Some(block)) => self.arrivals.come(block, self.events),
            (Some(block), None) => self.arrivals.go(block),
            (None, None) => {}
            (Some(_), Some(_)) => {}
        }
        self.past.push(event);
    }

    // The number of events for which the longest waiting page has waited; 0 if none waits.
    pub(crate) fn longest(&self) -> u64
        ensures { result ≡ longest_wait self.now.shape self.now.history }
    {
        match self.arrivals.first() {
            Some(event) => self.events - event + 1,
            None => 0,
        }
    }

    /// Returns the pages that wait and were found pinned, those that have waited longest first.
    pub fn stuck(&self, alloc: Global) -> Result<Vec<StuckPage>, AllocError>
        ensures { IfOk result (λ pages. AreStuck self.now.shape self.now.history pages.items) }
    {
        let blocks = self.arrivals.blocks(alloc)?;
        stuck_among(&self.finds, &self.arrivals, alloc, &blocks)
    }
}

// The pages of these blocks that were found pinned, in the same order.
fn stuck_among(
    finds: &[PinCount],
    arrivals: &Arrivals,
    alloc: Global,
    blocks: &[u32],
) -> Result<Vec<StuckPage>, AllocError>
    requires { (b : ℕ) → Contains blocks.now b → (b < length finds.now) × (b < length arrivals.now.since) }
    ensures { IfOk result (λ pages. pages.items ≡ stuck_among finds.now arrivals.now blocks.now) }
{
    let mut pages = Vec::new(alloc);
    for block in blocks {
        let found = finds[*block as usize];
        if found.finds > 0 {
            pages.push(StuckPage {
                page: found.page,
                finds: found.finds,
                since: arrivals.since(*block),
            })?;
        }
    }
    Ok(pages)
}

// The last page of a block, and the number of times it was found pinned.
#[derive(Clone, Copy)]
pub(crate) struct PinCount {
    pub(crate) page: PageId,
    pub(crate) finds: u64,
}

// No page, which was never found pinned.
pub(crate) const NO_PINS: PinCount = PinCount {
    page: PageId(0),
    finds: 0,
};

// Records an event that finds a page pinned, which waits in this block if it waits, or an event that places a page.
pub(crate) fn count_find(counts: &mut Vec<PinCount>, what: &What, home: Option<u32>)
    requires { MayNote counts.old.items what.now home }
    ensures { counts.new.items ≡ noted counts.old.items what.now home }
{
    match (*what, home) {
        (What::Alloc { page, block }, _) => counts[block as usize] = PinCount { page, finds: 0 },
        (What::Pinned { .. }, Some(block)) => counts[block as usize].finds += 1,
        _ => {}
    }
}
