//! Why the check of a history fails.

/// Why a history was not found legal.
#[derive(Clone, Copy, PartialEq, Eq, Debug)]
pub enum CheckFault {
    /// The event at this index, counted from 0, is the first that does not fit the events before it.
    Illegal(usize),
    /// Memory for the check could not be allocated.
    OutOfMemory,
}
