//! A batch of the most pages, all of them pinned.

use crate::batches::steps::{BatchStep, expect_batches};
use crate::nodes::{event_count, expect, expect_queued, is_scanned, node_of, queue_page};
use std::alloc::Global;
use std::process::Abort;
use tests_steps::{Answer, Call};
use thp_history::{Event, PageId, What};
use thp_node::Node;

// The most pages of a batch.
const MOST: u64 = 128;

// A node whose queue has the pages 0 to 127, each with a pin.
fn node_of_pinned(rt: &impl Abort, alloc: Global) -> Node {
    let mut node = node_of(rt, alloc, 4096);
    queue_pinned(rt, &mut node);
    node
}

fn queue_pinned(rt: &impl Abort, node: &mut Node) {
    for number in 0..MOST {
        queue_page(rt, node, number);
        expect(rt, node, 0, &[(Call::Pin(number), Answer::Done)]);
    }
}

// The event at this index of a take of all pages, a try of each and a put back.
fn event_at(place: u64) -> What {
    let page = PageId(place % MOST);
    match place / MOST {
        0 => What::Taken { page },
        1 => What::Pinned { page },
        _ => What::Back { page },
    }
}

// The events from `from` on are these 384.
fn is_round(events: &[Event], from: usize) -> bool {
    let Some(events) = events.get(from..) else {
        return false;
    };
    for (place, event) in events.iter().enumerate() {
        if event.what != event_at(place as u64) {
            return false;
        }
    }
    events.len() == 384
}

// From `from` on every page was taken, tried and put back, in the order of the queue, and nothing else happened.
fn expect_round(rt: &impl Abort, node: &Node, from: usize) {
    assert!(rt; is_round(node.journal(), from));
}

// The node has room for the events of a take of all pages, a try of each and a put back.
fn has_room(node: &mut Node) -> bool {
    node.reserve(384) == Ok(())
}

fn expect_scan(rt: &impl Abort, node: &mut Node) {
    expect_queued(rt, node, 128);
    let from = event_count(node);
    assert!(rt; has_room(node));
    assert!(rt; is_scanned(node, 0, 128, [128, 0, 128, 128, 0, 0]));
    expect_queued(rt, node, 128);
    expect_round(rt, node, from);
}

// A scan of 128 pages has room for its 384 events, and leaves the queue in its order.
#[test]
fn scan_of_a_full_batch(rt: HostRuntime) {
    let mut node = node_of_pinned(&rt, rt.alloc());
    expect_scan(&rt, &mut node);
    drop(node);
}

fn add(rt: &impl Abort, steps: &mut Vec<BatchStep>, step: BatchStep) {
    steps.push(step).expect(rt, "memory");
}

// Adds a take of the pages 0 to 127, a try of each, one more that finds none left, and the put back.
fn add_full_steps(rt: &impl Abort, steps: &mut Vec<BatchStep>) {
    add(rt, steps, BatchStep::Take(5, 128, 128));
    add(rt, steps, BatchStep::Queued(0));
    for number in 0..MOST {
        add(rt, steps, BatchStep::Pinned(number));
    }
    add(rt, steps, BatchStep::NoMore);
    add(rt, steps, BatchStep::PutBack(128, 0));
    add(rt, steps, BatchStep::Queued(128));
}

fn expect_tries(rt: &impl Abort, node: &mut Node, steps: &[BatchStep]) {
    let from = event_count(node);
    assert!(rt; has_room(node));
    expect_batches(rt, node, steps);
    expect_round(rt, node, from);
}

#[test]
fn tries_of_a_full_batch(rt: HostRuntime) {
    let mut steps = Vec::new(rt.alloc());
    add_full_steps(&rt, &mut steps);
    let mut node = node_of_pinned(&rt, rt.alloc());
    expect_tries(&rt, &mut node, &steps);
    drop(node);
}
