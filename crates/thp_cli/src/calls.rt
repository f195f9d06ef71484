//! The calls of a device, which are visible to contracts only.
/// A call of a device, and its result. A write that takes no byte counts as failed.
#[derive(Clone, Copy, Debug, PartialEq, Eq)]
pub enum DeviceCall {
    /// A read with room for so many bytes, and how many it gave; `None` if it failed.
    Read {
        room: usize,
        given: Option<usize>,
    },
    /// A write that offered so many bytes, and how many the device took; `None` if it failed.
    Write {
        offered: usize,
        taken: Option<usize>,
    },
    /// A flush, and whether it succeeded.
    Flush(bool),
}
