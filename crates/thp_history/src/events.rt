//! The events of a node, each with the caller that made it.
use crate::sub_set::SubSet;
use std::marker::Model;

/// A page's number on its node: the number of pages allocated before it. Numbers are never reused.
#[derive(Clone, Copy, PartialEq, Eq, Debug, Default)]
pub struct PageId(pub u64);

impl Model for PageId {
    ghost use Rattle.std.specs.Prelude.{ℕ};

    ghost Value = { ℕ };

    ghost view = { λ p. p.0 };

    ghost inverse = { λ n. record { 0 = n } };
}

/// The effect of an unmap or an unpin on its page.
#[derive(Clone, Copy, PartialEq, Eq, Debug)]
pub enum Outcome {
    /// The page stays live, on the list that it was on.
    Stays,
    /// The page joined the deferred split queue.
    Queued,
    /// The page was freed: its last mapping or pin was removed.
    Freed,
}

/// The kind of an event: what happened to a page or to the node.
///
/// `first` and `count` are a range of subpages. `released` is the set of subpages whose frames the event gave back. The outcome
/// is the first field, next to the tag, which makes an event one word smaller.
#[derive(Clone, Copy, PartialEq, Eq, Debug)]
pub enum What {
    /// A page was allocated, mapped whole once, in a block of frames.
    Alloc {
        page: PageId,
        block: u32,
    },
    /// The whole page was mapped once more, by a PMD entry.
    MapWhole {
        page: PageId,
    },
    /// One mapping of the whole page was removed.
    UnmapWhole {
        outcome: Outcome,
        page: PageId,
        released: SubSet,
    },
    /// Each subpage of a range was mapped once more, by PTE entries.
    MapSub {
        page: PageId,
        first: u32,
        count: u32,
    },
    /// One mapping of each subpage of a range was removed.
    UnmapSub {
        outcome: Outcome,
        page: PageId,
        first: u32,
        count: u32,
        released: SubSet,
    },
    /// A mapping of the whole page was replaced by one of each subpage.
    SplitPmd {
        page: PageId,
    },
    /// A pin was added.
    Pin {
        page: PageId,
    },
    /// A pin was removed.
    Unpin {
        outcome: Outcome,
        page: PageId,
        released: SubSet,
    },
    /// Data was written to each subpage of a range.
    Write {
        page: PageId,
        first: u32,
        count: u32,
    },
    /// Zeros were written to each subpage of a range.
    Zero {
        page: PageId,
        first: u32,
        count: u32,
    },
    /// The shrinker moved the page from the queue to the caller's batch.
    Taken {
        page: PageId,
    },
    /// The page was split into base pages and left its batch.
    Split {
        page: PageId,
        released: SubSet,
    },
    /// The page could not be split, because it has pins.
    Pinned {
        page: PageId,
    },
    /// The page was not worth a split, being neither partly mapped nor underused, and left its batch.
    Used {
        page: PageId,
    },
    /// The page moved from its batch to the tail of the queue.
    Back {
        page: PageId,
    },
    /// The page left its batch and is on no list, because the node is closed or the page is not partly mapped.
    Dropped {
        page: PageId,
    },
    /// The node was closed: no page is queued or allocated afterwards.
    Close,
}

/// An event and the caller that made it.
#[derive(Clone, Copy, PartialEq, Eq, Debug)]
pub struct Event {
    /// The caller, below the number of callers.
    pub caller: u32,
    /// What the caller did.
    pub what: What,
}
