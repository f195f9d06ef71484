//! The results of a node's calls.
use thp_history::PageId;

/// Why a node could not be created.
#[derive(Clone, Copy, PartialEq, Eq, Debug)]
pub enum NewFault {
    /// The shape or the number of callers is outside the limits of the constructor. A node has pages of order 2 to 9 and a threshold
    /// below the number of subpages.
    BadSize,
    /// Memory for the table of pages could not be allocated.
    OutOfMemory,
}

/// The effect of a try of a batch's next page.
#[derive(Clone, Copy, PartialEq, Eq, Debug)]
pub enum Tried {
    /// The page was split into base pages.
    Split(PageId),
    /// The page is worth a split, but has pins, and stays in the batch.
    Pinned(PageId),
    /// The page is not worth a split, being neither partly mapped nor underused, and left the batch.
    Used(PageId),
    /// No page of the batch is left to try.
    Done,
}

/// The result of a put back: the numbers of pages returned to the queue's tail, and of pages dropped because the node is closed
/// or they are not partly mapped.
#[repr(C)]
#[derive(Clone, Copy, PartialEq, Eq, Debug)]
pub struct BackReply {
    /// The number of pages returned to the tail of the queue.
    pub back: u32,
    /// The number of pages dropped.
    pub dropped: u32,
}

/// The result of a scan: the numbers of pages taken, split, found pinned, put back, dropped, and found in use.
#[repr(C)]
#[derive(Clone, Copy, PartialEq, Eq, Debug)]
pub struct ScanReply {
    /// The number of pages taken from the queue.
    pub taken: u32,
    /// The number of pages split.
    pub split: u32,
    /// The number of pages found pinned.
    pub pinned: u32,
    /// The number of pinned pages returned to the tail of the queue.
    pub back: u32,
    /// The number of pinned pages dropped.
    pub dropped: u32,
    /// The number of pages found in use, that is, not worth a split.
    pub used: u32,
}
