//! The numbers of a node.
use crate::stage::{STAGES, Stage};

/// The number of pages, from 0 on, whose individual stages are recorded.
pub const SHOWN_PAGES: usize = 60;

/// The numbers of a node after a prefix of its events.
#[derive(Clone, Copy, Debug, PartialEq, Eq)]
pub struct Numbers {
    /// The number of pages in the deferred split queue.
    pub queue: u64,
    /// The number of pages that callers took and still have in their batches.
    pub in_batches: u64,
    /// The number of frames that the live pages hold.
    pub held: u128,
    /// The number of frames given back.
    pub given: u128,
    /// The number of pages split so far.
    pub splits: u64,
    /// The number of these that were underused and not partly mapped.
    pub underused_splits: u64,
    /// The number of tries so far that found a page pinned.
    pub pinned_tries: u64,
    /// The number of events for which the longest waiting page has waited without interruption, in the queue or in a batch; 0 if
    /// none waits.
    pub wait: u64,
    /// The callers 0 to 63 that have pages in their batches: caller c as bit c.
    pub callers: u64,
    /// The number of live pages in each stage, in the order of `Stage`.
    pub pages: [u64; STAGES],
    /// The stages of the first pages allocated, by number; `None` if a page is not live.
    pub stages: [Option<Stage>; SHOWN_PAGES],
}
