//! Why a call is refused.

/// Why a call is refused, in the order in which the reasons are tested. A refused call changes nothing and records no event.
#[derive(Clone, Copy, PartialEq, Eq, Debug)]
pub enum Refusal {
    /// The page was never allocated, or was freed.
    NoPage,
    /// The range is empty, or is not within the page.
    BadRange,
    /// The page is split into base pages.
    IsSplit,
    /// There is no such mapping to remove.
    NotMapped,
    /// A frame of the range was given back.
    Gone,
    /// The page has no pin.
    NotPinned,
    /// The count is at 65,535.
    TooMany,
    /// The node is closed.
    Closed,
    /// Every block holds a live page.
    NoBlock,
    /// The caller already has pages in flight.
    HasBatch,
    /// Memory for the journal could not be allocated.
    OutOfMemory,
}
