//! The explanation of an event that does not fit, for each kind of event and each reason.
ghost use Rattle.std.specs.Prelude.{◌≤◌};

use crate::checks::histories::{events_of, first_misfit, large, queued_then};
use crate::checks::underused::small;
use crate::event_rows::{FIRST, Kind, NONE, ONE, Row, TWO, ZERO, event_of};
use std::alloc::Global;
use std::process::Abort;
use thp_check::{Misfit, put_explanation};
use thp_history::{Event, Outcome, Refusal, Shape};

// An event on line 7 that doesn't fit for this reason is explained so.
fn is_explained(alloc: Global, event: &Event, misfit: &Misfit, want: &str) -> bool {
    let mut text = Vec::new(alloc);
    match put_explanation(&mut text, 7, event, misfit) {
        Ok(()) => text.as_slice() == want.as_bytes(),
        Err(_) => false,
    }
}

fn is_last_explained(alloc: Global, events: &[Event], misfit: &Misfit, want: &str) -> bool {
    match events.last() {
        Some(event) => is_explained(alloc, event, misfit, want),
        None => false,
    }
}

// The last of the events is the first that doesn't fit on a node of this shape, and is explained so.
fn expect_text(rt: &impl Abort, alloc: Global, shape: Shape, events: &[Event], want: &str)
    requires least { 2 ≤ shape.order }
    requires most { shape.order ≤ 9 }
{
    let (_, misfit) = first_misfit(rt, alloc, shape, events).expect(rt, "a misfit");
    assert!(rt; is_last_explained(alloc, events, &misfit, want), "{want}");
}

// After this many queued pages, the last event of each row does not fit on a large node, and has this explanation.
fn expect_texts<const N: usize>(
    rt: &impl Abort,
    alloc: Global,
    queued: u32,
    rows: &[([Row; N], &str)],
) {
    for (then, want) in rows {
        let events = queued_then(rt, alloc, queued, then);
        expect_text(rt, alloc, large(), &events, want);
        drop(events);
    }
}

const ONE_EVENT_IS_EXPLAINED: &[([Row; 1], &str)] = &[
    (
        [(0, Kind::Pin(ONE))],
        "line 7: 0 pin 1\nexpected: nothing\nwhy: refused no-page: the page was never allocated, or was freed\n",
    ),
    (
        [(0, Kind::MapSub(ZERO, 511, 2))],
        "line 7: 0 mapsub 0 511 2\nexpected: nothing\nwhy: refused bad-range: the range is empty or exceeds the page\n",
    ),
    (
        [(0, Kind::SplitPmd(ZERO))],
        "line 7: 0 splitpmd 0\nexpected: nothing\nwhy: refused not-mapped: the mapping does not exist\n",
    ),
    (
        [(0, Kind::UnmapWhole(ZERO, Outcome::Stays, NONE))],
        "line 7: 0 unmapwhole 0 stays -\nexpected: nothing\nwhy: refused not-mapped: the mapping does not exist\n",
    ),
    (
        [(0, Kind::Write(ZERO, 0, 1))],
        "line 7: 0 write 0 0 1\nexpected: nothing\nwhy: refused not-mapped: the mapping does not exist\n",
    ),
    (
        [(0, Kind::Zero(ZERO, 0, 1))],
        "line 7: 0 zero 0 0 1\nexpected: nothing\nwhy: refused not-mapped: the mapping does not exist\n",
    ),
    (
        [(0, Kind::Unpin(ZERO, Outcome::Stays, NONE))],
        "line 7: 0 unpin 0 stays -\nexpected: nothing\nwhy: refused not-pinned: the page has no pin\n",
    ),
    (
        [(0, Kind::Alloc(ZERO, 1))],
        "line 7: 0 alloc 0\nexpected: 0 alloc 1\nwhy: the next page number is 1\n",
    ),
    (
        [(0, Kind::Alloc(ONE, 0))],
        "line 7: 0 alloc 1\nexpected: nothing\nwhy: page 1 has no free block\n",
    ),
    (
        [(0, Kind::UnmapSub(ZERO, 1, 1, Outcome::Queued, NONE))],
        "line 7: 0 unmapsub 0 1 1 queued -\nexpected: 0 unmapsub 0 1 1 stays -\nwhy: page 0 is still mapped or pinned and does not join the queue; only a split page gives back frames\n",
    ),
    (
        [(0, Kind::UnmapSub(ZERO, 1, 511, Outcome::Stays, NONE))],
        "line 7: 0 unmapsub 0 1 511 stays -\nexpected: 0 unmapsub 0 1 511 freed 0-511\nwhy: page 0 has no mapping and no pin left: it is freed with all frames that it held\n",
    ),
    (
        [(0, Kind::Taken(ONE))],
        "line 7: 0 taken 1\nexpected: 0 taken 0\nwhy: page 0 is the oldest in the queue\n",
    ),
    (
        [(0, Kind::Split(ZERO, FIRST))],
        "line 7: 0 split 0 0\nexpected: nothing\nwhy: page 0 is not in the flight of caller 0\n",
    ),
    (
        [(0, Kind::Back(ZERO))],
        "line 7: 0 back 0\nexpected: nothing\nwhy: caller 0 has no page in flight\n",
    ),
];

#[test]
fn one_event_is_explained(rt: HostRuntime) {
    expect_texts(&rt, rt.alloc(), 1, ONE_EVENT_IS_EXPLAINED);
}

const EVENT_BEHIND_ANOTHER_IS_EXPLAINED: &[([Row; 2], &str)] = &[
    (
        [(0, Kind::Close), (0, Kind::Close)],
        "line 7: 0 close\nexpected: nothing\nwhy: refused closed: the node is closed\n",
    ),
    (
        [(0, Kind::Taken(ZERO)), (63, Kind::Taken(ZERO))],
        "line 7: 63 taken 0\nexpected: nothing\nwhy: the queue is empty\n",
    ),
    (
        [(0, Kind::Taken(ZERO)), (0, Kind::Used(ZERO))],
        "line 7: 0 used 0\nexpected: 0 pinned 0\nor: a split of page 0\nwhy: page 0 is a split candidate: it is partly mapped or underused\n",
    ),
    (
        [(0, Kind::Taken(ZERO)), (0, Kind::Pinned(ZERO))],
        "line 7: 0 pinned 0\nexpected: 0 used 0\nor: a split of page 0\nwhy: page 0 has no pin\n",
    ),
    (
        [(0, Kind::Taken(ZERO)), (0, Kind::Split(ZERO, NONE))],
        "line 7: 0 split 0 -\nexpected: 0 split 0 0\nwhy: page 0 releases these frames when it is split\n",
    ),
    (
        [(0, Kind::Taken(ZERO)), (0, Kind::Back(ONE))],
        "line 7: 0 back 1\nexpected: 0 back 0\nor: 0 dropped 0\nwhy: page 0 is the first of the flight of caller 0\n",
    ),
    (
        [(0, Kind::Taken(ZERO)), (0, Kind::Dropped(ZERO))],
        "line 7: 0 dropped 0\nexpected: 0 back 0\nwhy: page 0 is partly mapped, and the node is open\n",
    ),
];

#[test]
fn event_behind_another_is_explained(rt: HostRuntime) {
    expect_texts(&rt, rt.alloc(), 1, EVENT_BEHIND_ANOTHER_IS_EXPLAINED);
}

const EVENT_BEHIND_OTHERS_IS_EXPLAINED: &[([Row; 3], &str)] = &[
    (
        [
            (0, Kind::Taken(ZERO)),
            (0, Kind::Pin(ONE)),
            (0, Kind::Taken(ONE)),
        ],
        "line 7: 0 taken 1\nexpected: nothing\nwhy: caller 0 has pages in flight, and the previous event is not one of its takes\n",
    ),
    (
        [
            (0, Kind::Pin(ZERO)),
            (0, Kind::Taken(ZERO)),
            (0, Kind::Split(ZERO, FIRST)),
        ],
        "line 7: 0 split 0 0\nexpected: 0 pinned 0\nwhy: page 0 has pins\n",
    ),
    (
        [
            (0, Kind::Taken(ZERO)),
            (0, Kind::Close),
            (0, Kind::Back(ZERO)),
        ],
        "line 7: 0 back 0\nexpected: 0 dropped 0\nwhy: page 0 is not partly mapped, or the node is closed\n",
    ),
    (
        [
            (0, Kind::Taken(ZERO)),
            (0, Kind::Split(ZERO, FIRST)),
            (0, Kind::MapWhole(ZERO)),
        ],
        "line 7: 0 mapwhole 0\nexpected: nothing\nwhy: refused is-split: the page is split into base pages\n",
    ),
    (
        [
            (0, Kind::Taken(ZERO)),
            (0, Kind::Split(ZERO, FIRST)),
            (0, Kind::MapSub(ZERO, 0, 1)),
        ],
        "line 7: 0 mapsub 0 0 1\nexpected: nothing\nwhy: refused gone: a frame of the range was given back\n",
    ),
    (
        [
            (0, Kind::Alloc(TWO, 2)),
            (0, Kind::SplitPmd(TWO)),
            (0, Kind::UnmapSub(TWO, 0, 1, Outcome::Stays, NONE)),
        ],
        "line 7: 0 unmapsub 2 0 1 stays -\nexpected: 0 unmapsub 2 0 1 queued -\nwhy: page 2 lost the last mapping of a subpage, has another mapped one, and is on no list: it joins the queue\n",
    ),
];

const IN_USE: &[Row] = &[
    (0, Kind::Alloc(ZERO, 0)),
    (0, Kind::Write(ZERO, 0, 3)),
    (0, Kind::Taken(ZERO)),
    (0, Kind::Split(ZERO, FIRST)),
];

const IN_USE_TEXT: &str =
    "line 7: 0 split 0 0\nexpected: 0 used 0\nwhy: page 0 is no split candidate: it is neither partly mapped nor underused\n";

const TOO_MANY_TEXT: &str =
    "line 7: 0 pin 0\nexpected: nothing\nwhy: refused too-many: the count is already 65535\n";

// The last of these events does not fit on a small node, and has this explanation.
fn expect_small_text(rt: &impl Abort, alloc: Global, rows: &[Row], want: &str) {
    let events = events_of(rt, alloc, rows);
    expect_text(rt, alloc, small(4), &events, want);
    drop(events);
}

#[test]
fn event_behind_others_is_explained(rt: HostRuntime) {
    expect_texts(&rt, rt.alloc(), 2, EVENT_BEHIND_OTHERS_IS_EXPLAINED);
    expect_small_text(&rt, rt.alloc(), IN_USE, IN_USE_TEXT);
    let pin = event_of((0, Kind::Pin(ZERO)));
    let too_many = Misfit::Refused(Refusal::TooMany);
    assert!(rt; is_explained(rt.alloc(), &pin, &too_many, TOO_MANY_TEXT));
}
