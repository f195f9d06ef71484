//! For each kind of event histories whose last event doesn't fit.
use crate::checks::histories::{expect_misfits, last_misfits};
use crate::event_rows::{FIRST, Kind, NONE, ONE, Row, TWO, ZERO};
use thp_history::Outcome;

const MISFITS_OF_PAGES: &[(&str, [Row; 1])] = &[
    ("a block in use", [(0, Kind::Alloc(ONE, 0))]),
    ("no such block", [(0, Kind::Alloc(ONE, 16))]),
    ("a number again", [(0, Kind::Alloc(ZERO, 1))]),
    ("a number too high", [(0, Kind::Alloc(TWO, 1))]),
    ("no such page", [(0, Kind::MapWhole(ONE))]),
    ("a range past the end", [(0, Kind::MapSub(ZERO, 511, 2))]),
    (
        "a range of a large number",
        [(0, Kind::MapSub(ZERO, 65_536, 1))],
    ),
    ("no PMD mapping", [(0, Kind::SplitPmd(ZERO))]),
    ("no such page to pin", [(0, Kind::Pin(ONE))]),
    (
        "no whole mapping",
        [(0, Kind::UnmapWhole(ZERO, Outcome::Stays, NONE))],
    ),
    (
        "no mapping",
        [(0, Kind::UnmapSub(ZERO, 0, 2, Outcome::Stays, NONE))],
    ),
    ("no pin", [(0, Kind::Unpin(ZERO, Outcome::Stays, NONE))]),
    (
        "queued twice",
        [(0, Kind::UnmapSub(ZERO, 1, 1, Outcome::Queued, NONE))],
    ),
    (
        "a page gone",
        [(0, Kind::UnmapSub(ZERO, 1, 511, Outcome::Stays, NONE))],
    ),
    (
        "a frame too many",
        [(0, Kind::UnmapSub(ZERO, 1, 1, Outcome::Stays, (1, 1)))],
    ),
    (
        "a frame too few",
        [(0, Kind::UnmapSub(ZERO, 1, 511, Outcome::Freed, (0, 511)))],
    ),
];

#[test]
fn misfits_of_pages(rt: HostRuntime) {
    expect_misfits(&rt, rt.alloc(), 1, MISFITS_OF_PAGES);
}

const MISFITS_AFTER_OTHER_EVENTS: &[(&str, [Row; 2])] = &[
    (
        "an unpin that frees",
        [
            (0, Kind::Pin(ZERO)),
            (0, Kind::Unpin(ZERO, Outcome::Freed, NONE)),
        ],
    ),
    (
        "an unmap that frees",
        [
            (0, Kind::Alloc(ONE, 1)),
            (0, Kind::UnmapWhole(ONE, Outcome::Stays, NONE)),
        ],
    ),
    (
        "half the frames",
        [
            (0, Kind::Alloc(ONE, 1)),
            (0, Kind::UnmapWhole(ONE, Outcome::Freed, (0, 256))),
        ],
    ),
    (
        "an empty queue",
        [(0, Kind::Taken(ZERO)), (0, Kind::Taken(ZERO))],
    ),
    (
        "frames in use",
        [(0, Kind::Taken(ZERO)), (0, Kind::Split(ZERO, (0, 2)))],
    ),
    (
        "a page without pins",
        [(0, Kind::Taken(ZERO)), (0, Kind::Pinned(ZERO))],
    ),
    (
        "a pinned page in the queue",
        [(0, Kind::Pin(ZERO)), (0, Kind::Pinned(ZERO))],
    ),
    (
        "another's page",
        [(1, Kind::Taken(ZERO)), (0, Kind::Split(ZERO, FIRST))],
    ),
    (
        "another's page put back",
        [(1, Kind::Taken(ZERO)), (0, Kind::Back(ZERO))],
    ),
    (
        "dropped before the close",
        [(0, Kind::Taken(ZERO)), (0, Kind::Dropped(ZERO))],
    ),
    ("closed twice", [(0, Kind::Close), (0, Kind::Close)]),
    (
        "a page after the close",
        [(0, Kind::Close), (0, Kind::Alloc(ONE, 1))],
    ),
];

#[test]
fn misfits_after_other_events(rt: HostRuntime) {
    expect_misfits(&rt, rt.alloc(), 1, MISFITS_AFTER_OTHER_EVENTS);
}

const MISFITS_OF_BATCHES: &[(&str, [Row; 3])] = &[
    (
        "not the oldest",
        [
            (0, Kind::Alloc(TWO, 2)),
            (0, Kind::Pin(ZERO)),
            (0, Kind::Taken(ONE)),
        ],
    ),
    (
        "a second take",
        [
            (0, Kind::Taken(ZERO)),
            (0, Kind::Pin(ZERO)),
            (0, Kind::Taken(ONE)),
        ],
    ),
    (
        "a pinned page split",
        [
            (0, Kind::Pin(ZERO)),
            (0, Kind::Taken(ZERO)),
            (0, Kind::Split(ZERO, FIRST)),
        ],
    ),
    (
        "a page outside the batch",
        [
            (0, Kind::Taken(ZERO)),
            (0, Kind::Pin(ONE)),
            (0, Kind::Split(ONE, FIRST)),
        ],
    ),
    (
        "put back out of order",
        [
            (0, Kind::Taken(ZERO)),
            (0, Kind::Taken(ONE)),
            (0, Kind::Back(ONE)),
        ],
    ),
    (
        "put back after the close",
        [
            (0, Kind::Taken(ZERO)),
            (0, Kind::Close),
            (0, Kind::Back(ZERO)),
        ],
    ),
    (
        "a split page mapped whole",
        [
            (0, Kind::Taken(ZERO)),
            (0, Kind::Split(ZERO, FIRST)),
            (0, Kind::MapWhole(ZERO)),
        ],
    ),
    (
        "a split page pinned",
        [
            (0, Kind::Taken(ZERO)),
            (0, Kind::Split(ZERO, FIRST)),
            (0, Kind::Pin(ZERO)),
        ],
    ),
];

const OUT_OF_ORDER: &[Row] = &[
    (0, Kind::Taken(ZERO)),
    (0, Kind::Taken(ONE)),
    (0, Kind::Close),
    (0, Kind::Dropped(ONE)),
];

#[test]
fn misfits_of_batches(rt: HostRuntime) {
    expect_misfits(&rt, rt.alloc(), 2, MISFITS_OF_BATCHES);
    last_misfits(&rt, rt.alloc(), "dropped out of order", 2, OUT_OF_ORDER);
}
