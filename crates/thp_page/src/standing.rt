//! The list that a page is on.

/// The list that a page is on: none, the deferred split queue, or the batch of the caller that isolated it.
#[derive(Clone, Copy, PartialEq, Eq, Debug)]
pub enum Standing {
    /// On no list.
    Nowhere,
    /// In the deferred split queue.
    Queued,
    /// In the batch of this caller.
    Batch(u32),
}
