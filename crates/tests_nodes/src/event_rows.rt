//! Events as constants, so that a history is a table. Pages are plain numbers, since a constant can lend no `PageId`.
use thp_history::{Event, Outcome, PageId, SubSet, What};

pub(crate) const ZERO: u64 = 0;

pub(crate) const ONE: u64 = 1;

pub(crate) const TWO: u64 = 2;

// A run of frames that an event gave back: the first of them, and their number.
pub(crate) type Frames = (u32, u32);

pub(crate) const NONE: Frames = (0, 0);

pub(crate) const FIRST: Frames = (0, 1);

// All frames of a page of 512.
pub(crate) const WHOLE: Frames = (0, 512);

// What happened, with the fields of the event in this order: page, block, first subpage and their number, outcome, frames.
#[derive(Clone, Copy)]
pub(crate) enum Kind {
    Alloc(u64, u32),
    MapWhole(u64),
    UnmapWhole(u64, Outcome, Frames),
    MapSub(u64, u32, u32),
    UnmapSub(u64, u32, u32, Outcome, Frames),
    SplitPmd(u64),
    Pin(u64),
    Unpin(u64, Outcome, Frames),
    Write(u64, u32, u32),
    Zero(u64, u32, u32),
    Taken(u64),
    Split(u64, Frames),
    // a split that gave two runs back
    SplitApart(u64, Frames, Frames),
    Pinned(u64),
    Used(u64),
    Back(u64),
    Dropped(u64),
    Close,
}

// A caller, and what it did.
pub(crate) type Row = (u32, Kind);

// The frames of a run that is within a page.
pub(crate) fn set_of(frames: Frames) -> SubSet {
    let (first, count) = frames;
    if first <= 512 && count <= 512 - first {
        SubSet::range(first, count)
    } else {
        SubSet::empty()
    }
}

// An unmap of the whole page, an unmap of a part of it, an unpin, or a split.
fn loss_of(kind: Kind) -> What {
    match kind {
        Kind::UnmapWhole(page, outcome, frames) => What::UnmapWhole {
            outcome,
            page: PageId(page),
            released: set_of(frames),
        },
        Kind::UnmapSub(page, first, count, outcome, frames) => What::UnmapSub {
            outcome,
            page: PageId(page),
            first,
            count,
            released: set_of(frames),
        },
        Kind::Unpin(page, outcome, frames) => What::Unpin {
            outcome,
            page: PageId(page),
            released: set_of(frames),
        },
        Kind::Split(page, frames) => What::Split {
            page: PageId(page),
            released: set_of(frames),
        },
        Kind::SplitApart(page, low, high) => What::Split {
            page: PageId(page),
            released: set_of(low).union(set_of(high)),
        },
        _ => What::Close,
    }
}

// Any other event.
fn other_of(kind: Kind) -> What {
    match kind {
        Kind::Alloc(page, block) => What::Alloc {
            page: PageId(page),
            block,
        },
        Kind::MapWhole(page) => What::MapWhole { page: PageId(page) },
        Kind::MapSub(page, first, count) => What::MapSub {
            page: PageId(page),
            first,
            count,
        },
        Kind::SplitPmd(page) => What::SplitPmd { page: PageId(page) },
        Kind::Pin(page) => What::Pin { page: PageId(page) },
        Kind::Write(page, first, count) => What::Write {
            page: PageId(page),
            first,
            count,
        },
        Kind::Zero(page, first, count) => What::Zero {
            page: PageId(page),
            first,
            count,
        },
        Kind::Taken(page) => What::Taken { page: PageId(page) },
        Kind::Pinned(page) => What::Pinned { page: PageId(page) },
        Kind::Used(page) => What::Used { page: PageId(page) },
        Kind::Back(page) => What::Back { page: PageId(page) },
        Kind::Dropped(page) => What::Dropped { page: PageId(page) },
        _ => What::Close,
    }
}

pub(crate) fn what_of(kind: Kind) -> What {
    match kind {
        Kind::UnmapWhole(..)
        | Kind::UnmapSub(..)
        | Kind::Unpin(..)
        | Kind::Split(..)
        | Kind::SplitApart(..) => loss_of(kind),
        _ => other_of(kind),
    }
}

pub(crate) fn event_of(row: Row) -> Event {
    let (caller, kind) = row;
    Event {
        caller,
        what: what_of(kind),
    }
}
