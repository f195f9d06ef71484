//! Histories of a small node that splits underused pages too: pages of 4 subpages, of which more than one is zero-filled.
ghost use Rattle.std.specs.Prelude.{◌≡◌};

use crate::checks::histories::{events_of, expect_legal, expect_misfit, last_misfits, legal};
use crate::event_rows::{FIRST, Frames, Kind, NONE, ONE, Row, TWO, WHOLE, ZERO};
use std::alloc::Global;
use std::process::Abort;
use thp_history::{Outcome, Shape};

pub(crate) fn small(blocks: u32) -> Shape
    ensures { result.order ≡ 2 }
{
    Shape {
        blocks,
        order: 2,
        underused: Some(1),
    }
}

// All frames of a small page.
const ALL: Frames = (0, 4);

// Data in all subpages but the last, so that a page isn't underused.
const FULL: Row = (0, Kind::Write(ZERO, 0, 3));

// The history is legal on a small node of so many blocks.
fn small_legal(rt: &impl Abort, alloc: Global, blocks: u32, rows: &[Row]) {
    let events = events_of(rt, alloc, rows);
    expect_legal(rt, alloc, small(blocks), &events);
}

// The last event does not fit on a small node of so many blocks.
fn small_misfit(rt: &impl Abort, alloc: Global, blocks: u32, name: &str, rows: &[Row]) {
    let events = events_of(rt, alloc, rows);
    expect_misfit(rt, alloc, small(blocks), name, &events);
}

const UNDERUSED_SCAN: &[Row] = &[
    (0, Kind::Alloc(ZERO, 0)),
    (0, Kind::Write(ZERO, 0, 3)),
    (0, Kind::Taken(ZERO)),
    (0, Kind::Used(ZERO)),
    (0, Kind::SplitPmd(ZERO)),
    (0, Kind::UnmapSub(ZERO, 0, 1, Outcome::Queued, NONE)),
    (0, Kind::Taken(ZERO)),
    (0, Kind::SplitApart(ZERO, FIRST, (3, 1))),
    (0, Kind::UnmapSub(ZERO, 3, 1, Outcome::Stays, NONE)),
    (0, Kind::UnmapSub(ZERO, 1, 2, Outcome::Freed, (1, 2))),
];

#[test]
fn underused_scan(rt: HostRuntime) {
    small_legal(&rt, rt.alloc(), 4, UNDERUSED_SCAN);
}

const UNDERUSED_PINNED: &[Row] = &[
    (0, Kind::Alloc(ZERO, 0)),
    (0, Kind::Alloc(ONE, 1)),
    (0, Kind::Write(ZERO, 0, 2)),
    (0, Kind::Pin(ONE)),
    (0, Kind::Taken(ZERO)),
    (0, Kind::Taken(ONE)),
    (0, Kind::Split(ZERO, (2, 2))),
    (0, Kind::Pinned(ONE)),
    (0, Kind::Dropped(ONE)),
];

#[test]
fn underused_pinned(rt: HostRuntime) {
    small_legal(&rt, rt.alloc(), 4, UNDERUSED_PINNED);
}

const FREED: &[Row] = &[
    (0, Kind::Alloc(ZERO, 0)),
    (0, Kind::Taken(ZERO)),
    (0, Kind::Split(ZERO, ALL)),
    (0, Kind::UnmapSub(ZERO, 0, 4, Outcome::Freed, NONE)),
    (0, Kind::Alloc(ONE, 0)),
];

const IN_USE: &[Row] = &[
    (0, Kind::Alloc(ZERO, 0)),
    (0, Kind::Taken(ZERO)),
    (0, Kind::Split(ZERO, ALL)),
    (0, Kind::Alloc(ONE, 0)),
];

// A page whose frames were all given back keeps its block until it is freed.
#[test]
fn block_of_a_live_page(rt: HostRuntime) {
    small_legal(&rt, rt.alloc(), 1, FREED);
    small_misfit(&rt, rt.alloc(), 1, "a live page's block", IN_USE);
}

const WRITE_AND_ZERO: &[Row] = &[
    (0, Kind::Alloc(ZERO, 0)),
    (0, Kind::Pin(ZERO)),
    (0, Kind::SplitPmd(ZERO)),
    (0, Kind::Taken(ZERO)),
    (0, Kind::Pinned(ZERO)),
    (0, Kind::UnmapSub(ZERO, 0, 1, Outcome::Stays, NONE)),
    (0, Kind::Zero(ZERO, 1, 1)),
    (0, Kind::Back(ZERO)),
];

#[test]
fn write_and_zero_refusals(rt: HostRuntime) {
    small_legal(&rt, rt.alloc(), 4, WRITE_AND_ZERO);
}

// Three new pages until each was tried: one is in use, one is split, one is pinned. Then until all of them are freed.
const EVERY_KIND: &[Row] = &[
    (0, Kind::Alloc(ZERO, 0)),
    (0, Kind::Alloc(ONE, 1)),
    (0, Kind::Alloc(TWO, 2)),
    (0, Kind::Write(ZERO, 0, 3)),
    (0, Kind::Write(ONE, 0, 2)),
    (0, Kind::Zero(TWO, 0, 1)),
    (0, Kind::Pin(TWO)),
    (0, Kind::Taken(ZERO)),
    (0, Kind::Taken(ONE)),
    (0, Kind::Taken(TWO)),
    (0, Kind::Used(ZERO)),
    (0, Kind::Split(ONE, (2, 2))),
    (0, Kind::Pinned(TWO)),
    (0, Kind::Dropped(TWO)),
    (0, Kind::Unpin(TWO, Outcome::Stays, NONE)),
    (1, Kind::MapWhole(ZERO)),
    (0, Kind::UnmapWhole(ZERO, Outcome::Stays, NONE)),
    (0, Kind::SplitPmd(ZERO)),
    (0, Kind::UnmapSub(ZERO, 0, 1, Outcome::Queued, NONE)),
    (1, Kind::MapSub(ZERO, 0, 1)),
    (0, Kind::Pin(ZERO)),
    (0, Kind::Taken(ZERO)),
    (0, Kind::Pinned(ZERO)),
    (0, Kind::Back(ZERO)),
    (0, Kind::Unpin(ZERO, Outcome::Stays, NONE)),
    (0, Kind::Close),
    (1, Kind::Taken(ZERO)),
    (1, Kind::Dropped(ZERO)),
    (0, Kind::UnmapSub(ONE, 2, 2, Outcome::Stays, NONE)),
    (0, Kind::UnmapSub(ONE, 0, 2, Outcome::Freed, (0, 2))),
    (0, Kind::UnmapWhole(TWO, Outcome::Freed, ALL)),
    (0, Kind::UnmapSub(ZERO, 0, 4, Outcome::Freed, ALL)),
];

// Three pages go through every kind of event, by two callers.
#[test]
fn every_kind_is_legal(rt: HostRuntime) {
    small_legal(&rt, rt.alloc(), 3, EVERY_KIND);
}

// After a new page, the last event of each row does not fit on a small node.
fn small_misfits<const N: usize>(rt: &impl Abort, alloc: Global, rows: &[(&str, [Row; N])]) {
    for (name, rows) in rows {
        small_misfit(rt, alloc, 4, name, rows);
    }
}

// A new page.
const PAGE: Row = (0, Kind::Alloc(ZERO, 0));

// The first subpage is unmapped, and the page stays where it is.
const UNMAPPED: Row = (0, Kind::UnmapSub(ZERO, 0, 1, Outcome::Stays, NONE));

const MISFITS_OF_WRITES: &[(&str, [Row; 2])] = &[
    ("a write of no page", [PAGE, (0, Kind::Write(ONE, 0, 1))]),
    ("a write past the end", [PAGE, (0, Kind::Write(ZERO, 3, 2))]),
    ("a write of nothing", [PAGE, (0, Kind::Write(ZERO, 1, 0))]),
];

const MISFITS_OF_LATE_WRITES: &[(&str, [Row; 4])] = &[
    (
        "a write of an unused subpage",
        [
            PAGE,
            (0, Kind::SplitPmd(ZERO)),
            UNMAPPED,
            (0, Kind::Write(ZERO, 0, 1)),
        ],
    ),
    (
        "a write of a split page",
        [
            PAGE,
            (0, Kind::Taken(ZERO)),
            (0, Kind::Split(ZERO, ALL)),
            (0, Kind::Write(ZERO, 0, 1)),
        ],
    ),
];

#[test]
fn misfits_of_writes(rt: HostRuntime) {
    small_misfits(&rt, rt.alloc(), MISFITS_OF_WRITES);
    small_misfits(&rt, rt.alloc(), MISFITS_OF_LATE_WRITES);
}

const MISFITS_OF_ZEROS: &[(&str, [Row; 2])] = &[
    ("zeros of no page", [PAGE, (0, Kind::Zero(ONE, 0, 1))]),
    ("zeros past the end", [PAGE, (0, Kind::Zero(ZERO, 4, 1))]),
];

const MISFITS_OF_LATE_ZEROS: &[(&str, [Row; 4])] = &[
    (
        "zeros of an unused subpage",
        [
            PAGE,
            (0, Kind::SplitPmd(ZERO)),
            UNMAPPED,
            (0, Kind::Zero(ZERO, 0, 2)),
        ],
    ),
    (
        "zeros of a split page",
        [
            PAGE,
            (0, Kind::Taken(ZERO)),
            (0, Kind::Split(ZERO, ALL)),
            (0, Kind::Zero(ZERO, 0, 1)),
        ],
    ),
];

#[test]
fn misfits_of_zeros(rt: HostRuntime) {
    small_misfits(&rt, rt.alloc(), MISFITS_OF_ZEROS);
    small_misfits(&rt, rt.alloc(), MISFITS_OF_LATE_ZEROS);
}

const FOUND_IN_USE: &[(&str, [Row; 3])] = &[
    (
        "an underused page",
        [PAGE, (0, Kind::Taken(ZERO)), (0, Kind::Used(ZERO))],
    ),
    ("a page in the queue", [PAGE, FULL, (0, Kind::Used(ZERO))]),
];

const OF_ANOTHER: &[Row] = &[PAGE, FULL, (1, Kind::Taken(ZERO)), (0, Kind::Used(ZERO))];

const PARTLY_MAPPED: &[Row] = &[
    PAGE,
    FULL,
    (0, Kind::SplitPmd(ZERO)),
    UNMAPPED,
    (0, Kind::Taken(ZERO)),
    (0, Kind::Used(ZERO)),
];

const ZEROED: &[Row] = &[
    PAGE,
    FULL,
    (0, Kind::Zero(ZERO, 0, 1)),
    (0, Kind::Taken(ZERO)),
    (0, Kind::Used(ZERO)),
];

#[test]
fn misfits_of_pages_in_use(rt: HostRuntime) {
    let alloc = rt.alloc();
    small_misfits(&rt, alloc, FOUND_IN_USE);
    small_misfit(&rt, alloc, 4, "another's page", OF_ANOTHER);
    small_misfit(&rt, alloc, 4, "a partly mapped page", PARTLY_MAPPED);
    small_misfit(&rt, alloc, 4, "an underused page after zeros", ZEROED);
}

const USED_PAGE_PINNED: &[Row] = &[
    PAGE,
    FULL,
    (0, Kind::Pin(ZERO)),
    (0, Kind::Taken(ZERO)),
    (0, Kind::Pinned(ZERO)),
];

const TRIES: &[(&str, [Row; 4])] = &[
    (
        "a page in use split",
        [
            PAGE,
            FULL,
            (0, Kind::Taken(ZERO)),
            (0, Kind::Split(ZERO, (3, 1))),
        ],
    ),
    (
        "a frame with data given back",
        [
            PAGE,
            (0, Kind::Write(ZERO, 0, 1)),
            (0, Kind::Taken(ZERO)),
            (0, Kind::Split(ZERO, ALL)),
        ],
    ),
];

const TAKES: &[(&str, [Row; 3])] = &[
    (
        "zero-filled frames kept",
        [PAGE, (0, Kind::Taken(ZERO)), (0, Kind::Split(ZERO, NONE))],
    ),
    (
        "not the oldest",
        [PAGE, (0, Kind::Alloc(ONE, 1)), (0, Kind::Taken(ONE))],
    ),
];

// A page that is neither partly mapped nor underused is neither split nor found pinned.
#[test]
fn misfits_of_tries(rt: HostRuntime) {
    small_misfit(&rt, rt.alloc(), 4, "a page in use pinned", USED_PAGE_PINNED);
    small_misfits(&rt, rt.alloc(), TRIES);
    small_misfits(&rt, rt.alloc(), TAKES);
}

const QUEUED_AGAIN: &[Row] = &[
    PAGE,
    (0, Kind::SplitPmd(ZERO)),
    (0, Kind::UnmapSub(ZERO, 0, 1, Outcome::Queued, NONE)),
];

const AFTER_TRIES: &[(&str, [Row; 4])] = &[
    (
        "an underused page put back",
        [
            PAGE,
            (0, Kind::Pin(ZERO)),
            (0, Kind::Taken(ZERO)),
            (0, Kind::Back(ZERO)),
        ],
    ),
    (
        "a zero-filled page gone",
        [
            PAGE,
            (0, Kind::Taken(ZERO)),
            (0, Kind::Split(ZERO, ALL)),
            (1, Kind::MapSub(ZERO, 3, 1)),
        ],
    ),
    (
        "frames given back twice",
        [
            PAGE,
            (0, Kind::Taken(ZERO)),
            (0, Kind::Split(ZERO, ALL)),
            (0, Kind::UnmapSub(ZERO, 0, 4, Outcome::Freed, ALL)),
        ],
    ),
];

const PARTLY_MAPPED_DROPPED: &[Row] = &[
    PAGE,
    (0, Kind::SplitPmd(ZERO)),
    UNMAPPED,
    (0, Kind::Taken(ZERO)),
    (0, Kind::Dropped(ZERO)),
];

#[test]
fn misfits_behind_tries(rt: HostRuntime) {
    let alloc = rt.alloc();
    small_misfit(&rt, alloc, 4, "a new page queued again", QUEUED_AGAIN);
    small_misfits(&rt, alloc, AFTER_TRIES);
    small_misfit(
        &rt,
        alloc,
        4,
        "a partly mapped page dropped",
        PARTLY_MAPPED_DROPPED,
    );
}

const WRITES_WHILE_OFF: &[Row] = &[
    (0, Kind::Write(ZERO, 1, 511)),
    (0, Kind::Zero(ZERO, 7, 1)),
    (0, Kind::Taken(ZERO)),
    (0, Kind::Split(ZERO, FIRST)),
];

const USED_WHILE_OFF: &[Row] = &[
    (0, Kind::Write(ZERO, 1, 511)),
    (0, Kind::Taken(ZERO)),
    (0, Kind::Used(ZERO)),
];

const ZEROS_WHILE_OFF: &[Row] = &[(0, Kind::Taken(ZERO)), (0, Kind::Split(ZERO, WHOLE))];

const NEW_WHILE_OFF: &[Row] = &[
    (0, Kind::Alloc(ONE, 1)),
    (0, Kind::Taken(ZERO)),
    (0, Kind::Taken(ONE)),
];

// With the switch off, writes and zeros are recorded, and don't change what is split.
#[test]
fn switch_is_off(rt: HostRuntime) {
    let alloc = rt.alloc();
    legal(&rt, alloc, 1, WRITES_WHILE_OFF);
    last_misfits(&rt, alloc, "found in use", 1, USED_WHILE_OFF);
    last_misfits(&rt, alloc, "zero-filled frames", 1, ZEROS_WHILE_OFF);
    last_misfits(&rt, alloc, "a new page taken", 1, NEW_WHILE_OFF);
}
