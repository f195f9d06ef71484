//! Worked histories that are legal, one of them with every kind of event.
use crate::checks::histories::{events_of, expect_legal, large, legal};
use crate::event_rows::{FIRST, Kind, NONE, ONE, Row, TWO, WHOLE, ZERO, event_of};
use thp_check::{CheckFault, check};
use thp_history::{Outcome, Shape};

const FIRST_RUN: &[Row] = &[
    (0, Kind::Alloc(ZERO, 0)),
    (0, Kind::SplitPmd(ZERO)),
    (0, Kind::UnmapSub(ZERO, 0, 256, Outcome::Queued, NONE)),
    (0, Kind::Taken(ZERO)),
    (0, Kind::Split(ZERO, (0, 256))),
];

const TWO_OF_THREE_OLDEST: &[Row] = &[
    (0, Kind::Taken(ZERO)),
    (0, Kind::Taken(ONE)),
    (0, Kind::Split(ZERO, FIRST)),
    (0, Kind::Split(ONE, FIRST)),
];

const PINNED_GOES_TO_THE_TAIL: &[Row] = &[
    (0, Kind::Pin(ONE)),
    (0, Kind::Taken(ZERO)),
    (0, Kind::Taken(ONE)),
    (0, Kind::Taken(TWO)),
    (0, Kind::Split(ZERO, FIRST)),
    (0, Kind::Pinned(ONE)),
    (0, Kind::Split(TWO, FIRST)),
    (0, Kind::Back(ONE)),
    (0, Kind::Unpin(ONE, Outcome::Stays, NONE)),
    (0, Kind::Taken(ONE)),
    (0, Kind::Split(ONE, FIRST)),
];

#[test]
fn rows_are_legal(rt: HostRuntime) {
    let alloc = rt.alloc();
    legal(&rt, alloc, 0, &[]);
    legal(&rt, alloc, 0, FIRST_RUN);
    legal(&rt, alloc, 3, TWO_OF_THREE_OLDEST);
    legal(&rt, alloc, 3, PINNED_GOES_TO_THE_TAIL);
}

// Two queued pages go through every other kind of event, by two callers.
const EVERY_KIND: &[Row] = &[
    (1, Kind::MapWhole(ZERO)),
    (0, Kind::UnmapWhole(ZERO, Outcome::Stays, NONE)),
    (1, Kind::MapSub(ZERO, 0, 2)),
    (0, Kind::UnmapSub(ZERO, 0, 1, Outcome::Stays, NONE)),
    (1, Kind::Pin(ZERO)),
    (1, Kind::Taken(ZERO)),
    (0, Kind::Taken(ONE)),
    (1, Kind::Pinned(ZERO)),
    (1, Kind::Back(ZERO)),
    (0, Kind::Unpin(ZERO, Outcome::Stays, NONE)),
    (1, Kind::Taken(ZERO)),
    (1, Kind::Split(ZERO, FIRST)),
    (1, Kind::Close),
    (0, Kind::Dropped(ONE)),
    (0, Kind::UnmapSub(ZERO, 1, 1, Outcome::Stays, NONE)),
    (0, Kind::UnmapSub(ZERO, 1, 511, Outcome::Freed, (1, 511))),
    (0, Kind::UnmapSub(ONE, 1, 511, Outcome::Freed, WHOLE)),
];

#[test]
fn every_kind_is_legal(rt: HostRuntime) {
    legal(&rt, rt.alloc(), 2, EVERY_KIND);
}

const SMALL_PAGE_SPLIT: &[Row] = &[
    (0, Kind::Alloc(ZERO, 3)),
    (0, Kind::SplitPmd(ZERO)),
    (0, Kind::UnmapSub(ZERO, 0, 3, Outcome::Queued, NONE)),
    (0, Kind::Taken(ZERO)),
    (0, Kind::Split(ZERO, (0, 3))),
    (0, Kind::UnmapSub(ZERO, 3, 1, Outcome::Freed, (3, 1))),
    (0, Kind::Alloc(ONE, 3)),
];

#[test]
fn small_page_split_is_legal(rt: HostRuntime) {
    let shape = Shape {
        blocks: 16,
        order: 2,
        underused: None,
    };
    let events = events_of(&rt, rt.alloc(), SMALL_PAGE_SPLIT);
    expect_legal(&rt, rt.alloc(), shape, &events);
}

const ONE_TAKEN: [Row; 4] = [
    (0, Kind::Alloc(ZERO, 0)),
    (0, Kind::SplitPmd(ZERO)),
    (0, Kind::UnmapSub(ZERO, 0, 1, Outcome::Queued, NONE)),
    (0, Kind::Taken(ZERO)),
];

// Lack of memory is reported as such.
#[test]
fn each_growth_refused(rt: HostRuntime) {
    let events = ONE_TAKEN.map(|row| event_of(row));
    match check(rt.alloc(), large(), &events) {
        Ok(()) => {}
        Err(fault) => assert!(rt; fault == CheckFault::OutOfMemory),
    }
}
