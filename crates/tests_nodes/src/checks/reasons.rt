//! For each kind of event, and for each reason, histories whose last event doesn't fit for that reason.
ghost use Rattle.std.specs.Prelude.{◌≤◌};

use crate::checks::histories::{events_of, first_misfit, large, queued_then};
use crate::checks::underused::small;
use crate::event_rows::{FIRST, Frames, Kind, NONE, ONE, Row, TWO, WHOLE, ZERO, set_of};
use std::alloc::Global;
use std::process::Abort;
use thp_check::Misfit;
use thp_history::{Event, Outcome, PageId, Refusal, Shape};

// A reason as a constant.
#[derive(Clone, Copy)]
enum Reason {
    Refused(Refusal),
    Number(u64),
    BlockTaken,
    // another outcome, or other frames
    Outcome(Outcome, Frames),
    Oldest(Option<u64>),
    HasBatch,
    NotInFlight,
    InUse,
    WorthSplit,
    HasPins,
    NoPins,
    Released(Frames),
    First(Option<u64>),
    MustDrop,
    MustRequeue,
}

fn page_of(number: Option<u64>) -> Option<PageId> {
    match number {
        Some(number) => Some(PageId(number)),
        None => None,
    }
}

fn misfit_of(reason: Reason) -> Misfit {
    match reason {
        Reason::Refused(refusal) => Misfit::Refused(refusal),
        Reason::Number(number) => Misfit::Number(PageId(number)),
        Reason::BlockTaken => Misfit::BlockTaken,
        Reason::Outcome(outcome, frames) => Misfit::Outcome {
            outcome,
            released: set_of(frames),
        },
        Reason::Oldest(number) => Misfit::Oldest(page_of(number)),
        Reason::HasBatch => Misfit::HasBatch,
        Reason::NotInFlight => Misfit::NotInFlight,
        Reason::InUse => Misfit::InUse,
        Reason::WorthSplit => Misfit::WorthSplit,
        Reason::HasPins => Misfit::HasPins,
        Reason::NoPins => Misfit::NoPins,
        Reason::Released(frames) => Misfit::Released(set_of(frames)),
        Reason::First(number) => Misfit::First(page_of(number)),
        Reason::MustDrop => Misfit::MustDrop,
        Reason::MustRequeue => Misfit::MustRequeue,
    }
}

// The last of the events is the first that doesn't fit on a node of this shape, and for this reason.
fn expect_reason(
    rt: &impl Abort,
    alloc: Global,
    shape: Shape,
    name: &str,
    events: &[Event],
    reason: Reason,
)
    requires least { 2 ≤ shape.order }
    requires most { shape.order ≤ 9 }
{
    let last = events.len().saturating_sub(1);
    let misfit = misfit_of(reason);
    assert!(rt;
        first_misfit(rt, alloc, shape, events) == Some((last, misfit)),
        "{name}"
    );
}

// After this many queued pages, the last event of each row does not fit on a large node, for this reason.
fn expect_reasons<const N: usize>(
    rt: &impl Abort,
    alloc: Global,
    queued: u32,
    rows: &[(&str, [Row; N], Reason)],
) {
    for (name, then, reason) in rows {
        let events = queued_then(rt, alloc, queued, then);
        expect_reason(rt, alloc, large(), name, &events, *reason);
        drop(events);
    }
}

const REASONS_OF_REFUSED_CALLS: &[(&str, [Row; 1], Reason)] = &[
    (
        "no page to map",
        [(0, Kind::MapWhole(ONE))],
        Reason::Refused(Refusal::NoPage),
    ),
    (
        "no page to pin",
        [(0, Kind::Pin(ONE))],
        Reason::Refused(Refusal::NoPage),
    ),
    (
        "no page to unmap",
        [(0, Kind::UnmapWhole(ONE, Outcome::Stays, NONE))],
        Reason::Refused(Refusal::NoPage),
    ),
    (
        "past the end",
        [(0, Kind::MapSub(ZERO, 511, 2))],
        Reason::Refused(Refusal::BadRange),
    ),
    (
        "a large first",
        [(0, Kind::MapSub(ZERO, 65_536, 1))],
        Reason::Refused(Refusal::BadRange),
    ),
    (
        "a large first of none",
        [(0, Kind::MapSub(ONE, 65_536, 1))],
        Reason::Refused(Refusal::NoPage),
    ),
    (
        "a large count",
        [(0, Kind::UnmapSub(ZERO, 0, 65_536, Outcome::Stays, NONE))],
        Reason::Refused(Refusal::BadRange),
    ),
    (
        "a large write",
        [(0, Kind::Write(ZERO, 65_536, 1))],
        Reason::Refused(Refusal::BadRange),
    ),
    (
        "large zeros of none",
        [(0, Kind::Zero(ONE, 0, 65_536))],
        Reason::Refused(Refusal::NoPage),
    ),
    (
        "no PMD mapping",
        [(0, Kind::SplitPmd(ZERO))],
        Reason::Refused(Refusal::NotMapped),
    ),
    (
        "no whole mapping",
        [(0, Kind::UnmapWhole(ZERO, Outcome::Stays, NONE))],
        Reason::Refused(Refusal::NotMapped),
    ),
    (
        "no mapping",
        [(0, Kind::UnmapSub(ZERO, 0, 2, Outcome::Stays, NONE))],
        Reason::Refused(Refusal::NotMapped),
    ),
    (
        "an unused subpage",
        [(0, Kind::Write(ZERO, 0, 1))],
        Reason::Refused(Refusal::NotMapped),
    ),
    (
        "zeros unused",
        [(0, Kind::Zero(ZERO, 0, 1))],
        Reason::Refused(Refusal::NotMapped),
    ),
    (
        "no pin",
        [(0, Kind::Unpin(ZERO, Outcome::Stays, NONE))],
        Reason::Refused(Refusal::NotPinned),
    ),
];

#[test]
fn reasons_of_refused_calls(rt: HostRuntime) {
    expect_reasons(&rt, rt.alloc(), 1, REASONS_OF_REFUSED_CALLS);
}

const REASONS_OF_PAGES: &[(&str, [Row; 1], Reason)] = &[
    (
        "a number again",
        [(0, Kind::Alloc(ZERO, 1))],
        Reason::Number(ONE),
    ),
    ("too high", [(0, Kind::Alloc(TWO, 1))], Reason::Number(ONE)),
    (
        "a block in use",
        [(0, Kind::Alloc(ONE, 0))],
        Reason::BlockTaken,
    ),
    (
        "no such block",
        [(0, Kind::Alloc(ONE, 16))],
        Reason::BlockTaken,
    ),
    (
        "queued twice",
        [(0, Kind::UnmapSub(ZERO, 1, 1, Outcome::Queued, NONE))],
        Reason::Outcome(Outcome::Stays, NONE),
    ),
    (
        "gone",
        [(0, Kind::UnmapSub(ZERO, 1, 511, Outcome::Stays, NONE))],
        Reason::Outcome(Outcome::Freed, WHOLE),
    ),
    (
        "a frame too many",
        [(0, Kind::UnmapSub(ZERO, 1, 1, Outcome::Stays, (1, 1)))],
        Reason::Outcome(Outcome::Stays, NONE),
    ),
    (
        "a frame too few",
        [(0, Kind::UnmapSub(ZERO, 1, 511, Outcome::Freed, (0, 511)))],
        Reason::Outcome(Outcome::Freed, WHOLE),
    ),
    (
        "not taken",
        [(0, Kind::Split(ZERO, NONE))],
        Reason::NotInFlight,
    ),
    (
        "pinned in the queue",
        [(0, Kind::Pinned(ZERO))],
        Reason::NotInFlight,
    ),
    (
        "used in the queue",
        [(0, Kind::Used(ZERO))],
        Reason::NotInFlight,
    ),
    (
        "no oldest",
        [(0, Kind::Taken(ONE))],
        Reason::Oldest(Some(ZERO)),
    ),
    (
        "back from no flight",
        [(0, Kind::Back(ZERO))],
        Reason::First(None),
    ),
    (
        "no flight to drop",
        [(0, Kind::Dropped(ZERO))],
        Reason::First(None),
    ),
];

#[test]
fn reasons_of_pages(rt: HostRuntime) {
    expect_reasons(&rt, rt.alloc(), 1, REASONS_OF_PAGES);
}

const REASONS_AFTER_ANOTHER_EVENT: &[(&str, [Row; 2], Reason)] = &[
    (
        "freed",
        [
            (0, Kind::Pin(ZERO)),
            (0, Kind::Unpin(ZERO, Outcome::Freed, NONE)),
        ],
        Reason::Outcome(Outcome::Stays, NONE),
    ),
    (
        "stays",
        [
            (0, Kind::Alloc(ONE, 1)),
            (0, Kind::UnmapWhole(ONE, Outcome::Stays, NONE)),
        ],
        Reason::Outcome(Outcome::Freed, WHOLE),
    ),
    (
        "empty",
        [(0, Kind::Taken(ZERO)), (0, Kind::Taken(ZERO))],
        Reason::Oldest(None),
    ),
    (
        "a frame in use",
        [(0, Kind::Taken(ZERO)), (0, Kind::Split(ZERO, (0, 2)))],
        Reason::Released(FIRST),
    ),
    (
        "no pins",
        [(0, Kind::Taken(ZERO)), (0, Kind::Pinned(ZERO))],
        Reason::NoPins,
    ),
    (
        "worth a split",
        [(0, Kind::Taken(ZERO)), (0, Kind::Used(ZERO))],
        Reason::WorthSplit,
    ),
    (
        "of another",
        [(1, Kind::Taken(ZERO)), (0, Kind::Split(ZERO, FIRST))],
        Reason::NotInFlight,
    ),
    (
        "back of another",
        [(1, Kind::Taken(ZERO)), (0, Kind::Back(ZERO))],
        Reason::First(None),
    ),
    (
        "back",
        [(0, Kind::Taken(ZERO)), (0, Kind::Back(ONE))],
        Reason::First(Some(ZERO)),
    ),
    (
        "dropped",
        [(0, Kind::Taken(ZERO)), (0, Kind::Dropped(ONE))],
        Reason::First(Some(ZERO)),
    ),
    (
        "goes back",
        [(0, Kind::Taken(ZERO)), (0, Kind::Dropped(ZERO))],
        Reason::MustRequeue,
    ),
    (
        "closed twice",
        [(0, Kind::Close), (0, Kind::Close)],
        Reason::Refused(Refusal::Closed),
    ),
    (
        "after the close",
        [(0, Kind::Close), (0, Kind::Alloc(ONE, 1))],
        Reason::Refused(Refusal::Closed),
    ),
];

#[test]
fn reasons_after_another_event(rt: HostRuntime) {
    expect_reasons(&rt, rt.alloc(), 1, REASONS_AFTER_ANOTHER_EVENT);
}

const REASONS_OF_BATCHES: &[(&str, [Row; 3], Reason)] = &[
    (
        "oldest",
        [
            (0, Kind::Pin(ONE)),
            (0, Kind::Pin(ONE)),
            (0, Kind::Taken(ONE)),
        ],
        Reason::Oldest(Some(ZERO)),
    ),
    (
        "a batch",
        [
            (0, Kind::Taken(ZERO)),
            (0, Kind::Pin(ONE)),
            (0, Kind::Taken(ONE)),
        ],
        Reason::HasBatch,
    ),
    (
        "oldest before batch",
        [
            (0, Kind::Taken(ZERO)),
            (0, Kind::Pin(ONE)),
            (0, Kind::Taken(ZERO)),
        ],
        Reason::Oldest(Some(ONE)),
    ),
    (
        "pins",
        [
            (0, Kind::Pin(ZERO)),
            (0, Kind::Taken(ZERO)),
            (0, Kind::Split(ZERO, FIRST)),
        ],
        Reason::HasPins,
    ),
    (
        "order",
        [
            (0, Kind::Taken(ZERO)),
            (0, Kind::Taken(ONE)),
            (0, Kind::Back(ONE)),
        ],
        Reason::First(Some(ZERO)),
    ),
    (
        "drops",
        [
            (0, Kind::Taken(ZERO)),
            (0, Kind::Close),
            (0, Kind::Back(ZERO)),
        ],
        Reason::MustDrop,
    ),
    (
        "split and mapped",
        [
            (0, Kind::Taken(ZERO)),
            (0, Kind::Split(ZERO, FIRST)),
            (0, Kind::MapWhole(ZERO)),
        ],
        Reason::Refused(Refusal::IsSplit),
    ),
    (
        "split and gone",
        [
            (0, Kind::Taken(ZERO)),
            (0, Kind::Split(ZERO, FIRST)),
            (0, Kind::MapSub(ZERO, 0, 1)),
        ],
        Reason::Refused(Refusal::Gone),
    ),
];

#[test]
fn reasons_of_batches(rt: HostRuntime) {
    expect_reasons(&rt, rt.alloc(), 2, REASONS_OF_BATCHES);
}

// Data in all subpages of a small page but the last, so that it isn't underused.
const FULL: Row = (0, Kind::Write(ZERO, 0, 3));

const REASONS_OF_PAGES_IN_USE: &[(&str, [Row; 4], Reason)] = &[
    (
        "split",
        [
            (0, Kind::Alloc(ZERO, 0)),
            FULL,
            (0, Kind::Taken(ZERO)),
            (0, Kind::Split(ZERO, (3, 1))),
        ],
        Reason::InUse,
    ),
    (
        "underused",
        [
            (0, Kind::Alloc(ZERO, 0)),
            (0, Kind::Pin(ZERO)),
            (0, Kind::Taken(ZERO)),
            (0, Kind::Back(ZERO)),
        ],
        Reason::MustDrop,
    ),
    (
        "a new page",
        [
            (0, Kind::Alloc(ZERO, 0)),
            (0, Kind::Pin(ZERO)),
            (0, Kind::Taken(ZERO)),
            (0, Kind::Used(ZERO)),
        ],
        Reason::WorthSplit,
    ),
    (
        "no pins first",
        [
            (0, Kind::Alloc(ZERO, 0)),
            FULL,
            (0, Kind::Taken(ZERO)),
            (0, Kind::Pinned(ZERO)),
        ],
        Reason::NoPins,
    ),
];

const FOUND_PINNED: &[Row] = &[
    (0, Kind::Alloc(ZERO, 0)),
    FULL,
    (0, Kind::Pin(ZERO)),
    (0, Kind::Taken(ZERO)),
    (0, Kind::Pinned(ZERO)),
];

// A new page with data in all subpages but the last is in use.
// The last of these events does not fit on a small node, for this reason.
fn expect_small_reason(rt: &impl Abort, alloc: Global, name: &str, rows: &[Row], reason: Reason) {
    let events = events_of(rt, alloc, rows);
    expect_reason(rt, alloc, small(4), name, &events, reason);
    drop(events);
}

#[test]
fn reasons_of_pages_in_use(rt: HostRuntime) {
    for (name, rows, reason) in REASONS_OF_PAGES_IN_USE {
        expect_small_reason(&rt, rt.alloc(), name, rows, *reason);
    }
    expect_small_reason(&rt, rt.alloc(), "pinned", FOUND_PINNED, Reason::InUse);
}
