//! The link pair of an index: its neighbours in its list.

/// No index: the value of a link that has no neighbour. Every index of a table is below it.
pub const NIL: u32 = 4_294_967_295;

/// The neighbours of an index. A table stores one pair for each of its indices.
#[derive(Clone, Copy, PartialEq, Eq, Debug)]
pub struct Link {
    /// The preceding index, or [`NIL`].
    pub prev: u32,
    /// The following index, or [`NIL`].
    pub next: u32,
}
