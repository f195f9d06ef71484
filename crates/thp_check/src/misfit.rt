//! Why an event does not fit the events before it.
use thp_history::{Outcome, PageId, Refusal, SubSet};

/// Why an event does not fit the events before it: the first reason that holds, in the order in which `thp_history`'s `Fits` lists
/// them.
#[derive(Clone, Copy, Debug, PartialEq, Eq)]
pub enum Misfit {
    /// The call of the event is refused here. For an allocation the only such refusal is `Closed`: the page of a full node has no
    /// block, which is reported as `BlockTaken`.
    Refused(Refusal),
    /// An allocation of a page other than the next one, which is this.
    Number(PageId),
    /// An allocation in a block that does not exist or is in use.
    BlockTaken,
    /// An unmap or an unpin whose outcome or frames are not these, with which it would fit.
    Outcome { outcome: Outcome, released: SubSet },
    /// A take of a page other than the oldest in the queue, which is this; `None` if the queue is empty.
    Oldest(Option<PageId>),
    /// A take by a caller that has pages in flight and does not continue its take.
    HasBatch,
    /// A try of a page that is not in the caller's flight.
    NotInFlight,
    /// A page split or found pinned that is not worth a split.
    InUse,
    /// A page found in use that is worth a split.
    WorthSplit,
    /// A split of a page that has pins.
    HasPins,
    /// A page found pinned that has no pins.
    NoPins,
    /// A split whose frames are not these, with which it would fit.
    Released(SubSet),
    /// A page put back or dropped that is not the first of the caller's flight, which is this; `None` if the flight is empty.
    First(Option<PageId>),
    /// A page put back that must be dropped, since the node is closed or the page is not partly mapped.
    MustDrop,
    /// A page dropped that must go back to the queue.
    MustRequeue,
}
