//! Rows as tables of steps: calls, scans, and looks at the node.
use crate::event_rows::{Kind, what_of};
use crate::nodes::{Start, has_frames, is_scanned, node_at};
use std::alloc::Global;
use std::process::Abort;
use tests_steps::{Answer, Call, first_wrong};
use thp_history::Event;
use thp_node::{Counters, Node};

// A step of caller 0 on a node, or a query of the node, with the expected result.
#[derive(Clone, Copy)]
pub(crate) enum Step {
    Call(Call, Answer),
    // the same call this many times
    Times(u32, Call, Answer),
    // a scan of up to this many pages: how many are taken, split, pinned, put back, dropped and used
    Scan(u32, [u32; 6]),
    // how many pages the queue has
    Queued(u32),
    // the number of frames that the pages hold, and of frames given back
    Frames(u128, u128),
    Counters(Counters),
}

// Each of this many calls has this result.
fn is_answered(node: &mut Node, times: u32, steps: &[(Call, Answer)]) -> bool {
    for _time in 0..times {
        if first_wrong(node, 0, steps).is_some() {
            return false;
        }
    }
    true
}

fn has_counters(node: &Node, counters: Counters) -> bool {
    node.counters() == counters
}

// The step has the expected result.
fn is_made(node: &mut Node, step: Step) -> bool {
    match step {
        Step::Call(call, want) => is_answered(node, 1, &[(call, want)]),
        Step::Times(times, call, want) => is_answered(node, times, &[(call, want)]),
        Step::Scan(n, counts) => is_scanned(node, 0, n, counts),
        Step::Queued(pages) => node.queue_len() == pages,
        Step::Frames(held, given) => has_frames(node, held, given),
        Step::Counters(counters) => has_counters(node, counters),
    }
}

// Makes the steps of a row on a node, one after the other.
fn expect_steps(rt: &impl Abort, node: &mut Node, steps: &[Step]) {
    for (place, step) in steps.iter().enumerate() {
        assert!(rt; is_made(node, *step), "step {place}");
    }
}

// The same on a new node.
pub(crate) fn expect_row(rt: &impl Abort, alloc: Global, start: Start, steps: &[Step]) {
    let mut node = node_at(rt, alloc, start);
    expect_steps(rt, &mut node, steps);
    drop(node);
}

// The same, and then the events since the journal had `from` events are these of caller 0.
pub(crate) fn expect_events(
    rt: &impl Abort,
    alloc: Global,
    start: Start,
    steps: &[Step],
    from: usize,
    kinds: &[Kind],
) {
    let mut node = node_at(rt, alloc, start);
    expect_recorded(rt, &mut node, steps, from, kinds);
    drop(node);
}

fn expect_recorded(rt: &impl Abort, node: &mut Node, steps: &[Step], from: usize, kinds: &[Kind]) {
    expect_steps(rt, node, steps);
    assert!(rt; are_since(node.journal(), from, kinds));
}

// The events begin with these of caller 0.
fn begin_with(events: &[Event], kinds: &[Kind]) -> bool {
    for (place, kind) in kinds.iter().enumerate() {
        let what = what_of(*kind);
        if events.get(place) != Some(&Event { caller: 0, what }) {
            return false;
        }
    }
    true
}

// The events since the journal had `from` events are these of caller 0.
fn are_since(events: &[Event], from: usize, kinds: &[Kind]) -> bool {
    match events.get(from..) {
        Some(events) => events.len() == kinds.len() && begin_with(events, kinds),
        None => false,
    }
}
