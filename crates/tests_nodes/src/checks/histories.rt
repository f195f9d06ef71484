//! Short histories, and whether the check and the slow check answer as they should.
ghost use Rattle.std.specs.Prelude.{◌≡◌, ◌≤◌};

use crate::event_rows::{Kind, NONE, Row, event_of};
use std::alloc::Global;
use std::process::Abort;
use thp_check::{CheckFault, Misfit, Replay, check};
use thp_history::{Event, Outcome, Shape};
use thp_model::check as slow_check;

// The events of these rows, after those that are there.
pub(crate) fn add_rows(rt: &impl Abort, events: &mut Vec<Event>, rows: &[Row]) {
    for row in rows {
        events.push(event_of(*row)).expect(rt, "memory");
    }
}

// The events of these rows.
pub(crate) fn events_of(rt: &impl Abort, alloc: Global, rows: &[Row]) -> Vec<Event> {
    let mut events = Vec::new(alloc);
    add_rows(rt, &mut events, rows);
    events
}

// The pages 0 to `queued - 1`, each in the block of its number, with the PMD mapping split and the first subpage unmapped,
// which queues the page; then these events.
pub(crate) fn queued_then(rt: &impl Abort, alloc: Global, queued: u32, then: &[Row]) -> Vec<Event> {
    let mut events = Vec::new(alloc);
    for block in 0..queued {
        let page = u64::from(block);
        let rows = [
            (0, Kind::Alloc(page, block)),
            (0, Kind::SplitPmd(page)),
            (0, Kind::UnmapSub(page, 0, 1, Outcome::Queued, NONE)),
        ];
        add_rows(rt, &mut events, &rows);
    }
    add_rows(rt, &mut events, then);
    events
}

// A node of 16 blocks, whose pages have 512 subpages.
pub(crate) fn large() -> Shape
    ensures { result.order ≡ 9 }
{
    Shape {
        blocks: 16,
        order: 9,
        underused: None,
    }
}

// The index of the first event that does not fit on a node of this shape, and the reason, if there is one.
pub(crate) fn first_misfit(
    rt: &impl Abort,
    alloc: Global,
    shape: Shape,
    events: &[Event],
) -> Option<(usize, Misfit)>
    requires least { 2 ≤ shape.order }
    requires most { shape.order ≤ 9 }
{
    let mut replay = Replay::new(alloc, shape).expect(rt, "memory");
    for (place, event) in events.iter().enumerate() {
        match replay.admit(event) {
            Ok(next) => replay = next,
            Err(misfit) => return Some((place, misfit)),
        }
    }
    None
}

// The index of the first event that a replay does not admit, if there is one.
fn admitted(rt: &impl Abort, alloc: Global, shape: Shape, events: &[Event]) -> Option<usize>
    requires least { 2 ≤ shape.order }
    requires most { shape.order ≤ 9 }
{
    first_misfit(rt, alloc, shape, events).map(|(place, _)| place)
}

// The check finds the first event that does not fit at this index, or none.
fn is_checked(alloc: Global, shape: Shape, events: &[Event], misfit: Option<usize>) -> bool
    requires least { 2 ≤ shape.order }
    requires most { shape.order ≤ 9 }
{
    match check(alloc, shape, events) {
        Ok(()) => misfit == None,
        Err(CheckFault::Illegal(place)) => misfit == Some(place),
        Err(_) => false,
    }
}

// The same of the slow check.
fn is_checked_slowly(alloc: Global, shape: Shape, events: &[Event], misfit: Option<usize>) -> bool
    requires least { 2 ≤ shape.order }
    requires most { shape.order ≤ 9 }
{
    match slow_check(alloc, shape, events) {
        Ok(()) => misfit == None,
        Err(CheckFault::Illegal(place)) => misfit == Some(place),
        Err(_) => false,
    }
}

// Both checks and a replay find the first event that does not fit at this index, or none.
fn is_found(
    rt: &impl Abort,
    alloc: Global,
    shape: Shape,
    events: &[Event],
    misfit: Option<usize>,
) -> bool
    requires least { 2 ≤ shape.order }
    requires most { shape.order ≤ 9 }
{
    is_checked(alloc, shape, events, misfit)
        && is_checked_slowly(alloc, shape, events, misfit)
        && admitted(rt, alloc, shape, events) == misfit
}

// The history is legal on a node of this shape.
pub(crate) fn expect_legal(rt: &impl Abort, alloc: Global, shape: Shape, events: &[Event])
    requires least { 2 ≤ shape.order }
    requires most { shape.order ≤ 9 }
{
    assert!(rt; is_found(rt, alloc, shape, events, None));
}

// The last of the events doesn't fit on a node of this shape, and all before it do.
pub(crate) fn expect_misfit(
    rt: &impl Abort,
    alloc: Global,
    shape: Shape,
    name: &str,
    events: &[Event],
)
    requires least { 2 ≤ shape.order }
    requires most { shape.order ≤ 9 }
{
    let last = events.len().saturating_sub(1);
    assert!(rt; is_found(rt, alloc, shape, events, Some(last)), "{name}");
    assert!(rt;
        is_checked(alloc, shape, &events[..last], None),
        "before {name}"
    );
}

// This many queued pages and then these events are legal on a large node.
pub(crate) fn legal(rt: &impl Abort, alloc: Global, queued: u32, then: &[Row]) {
    let events = queued_then(rt, alloc, queued, then);
    expect_legal(rt, alloc, large(), &events);
}

// After this many queued pages, the last of these events does not fit on a large node.
pub(crate) fn last_misfits(rt: &impl Abort, alloc: Global, name: &str, queued: u32, then: &[Row]) {
    let events = queued_then(rt, alloc, queued, then);
    expect_misfit(rt, alloc, large(), name, &events);
}

// The same for each row.
pub(crate) fn expect_misfits<const N: usize>(
    rt: &impl Abort,
    alloc: Global,
    queued: u32,
    rows: &[(&str, [Row; N])],
) {
    for (name, then) in rows {
        last_misfits(rt, alloc, name, queued, then);
    }
}
