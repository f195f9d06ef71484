//! A node that stores its events, compared with one that counts them: the same calls have the same results, and leave the same
//! state.
use crate::equal::expect_equal;
use crate::nodes::{event_count, node_of};
use std::alloc::Global;
use std::process::Abort;
use tests_steps::{Answer, Call, QUEUED, first_wrong, shape_of};
use thp_history::Refusal;
use thp_node::{CountOnly, Counters, Node, Recorder};

const PAGE: u64 = 0;

const PINNED: u64 = 1;

// Two pages are queued, of which one is pinned; then a call that is refused.
const CALLS: &[(Call, Answer)] = &[
    (Call::Alloc, Answer::Page(PAGE)),
    (Call::Alloc, Answer::Page(PINNED)),
    (Call::SplitPmd(PAGE), Answer::Done),
    (Call::UnmapSub(PAGE, 0, 256), QUEUED),
    (Call::SplitPmd(PINNED), Answer::Done),
    (Call::UnmapSub(PINNED, 511, 1), QUEUED),
    (Call::Pin(PINNED), Answer::Done),
    (Call::Unpin(PAGE), Answer::Refused(Refusal::NotPinned)),
];

// A node of 16 blocks that counts its events.
fn unkept_node(rt: &impl Abort, alloc: Global) -> Node<CountOnly> {
    Node::with_recorder(alloc, shape_of(16)).expect(rt, "a node")
}

// Each of the calls has its result.
fn are_called<R: Recorder>(node: &mut Node<R>) -> bool {
    first_wrong(node, 1, CALLS).is_none()
}

fn is_scanned<R: Recorder>(node: &mut Node<R>) -> bool {
    node.scan(1, 8).is_ok()
}

// The queue has one page, 256 frames were given back, and there were 12 events.
fn is_left<R: Recorder>(node: &Node<R>) -> bool {
    node.queue_len() == 1 && node.frames_given() == 256 && node.event_count() == 12
}

// What a node has counted after the calls and a scan.
fn counted<R: Recorder>(rt: &impl Abort, node: &mut Node<R>) -> Counters {
    expect_equal(rt, are_called(node), true);
    expect_equal(rt, is_scanned(node), true);
    expect_equal(rt, is_left(node), true);
    node.counters()
}

fn kept_counters(rt: &impl Abort, alloc: Global) -> Counters {
    let mut node = node_of(rt, alloc, 16);
    let counters = counted(rt, &mut node);
    assert!(rt; event_count(&node) == 12);
    drop(node);
    counters
}

fn unkept_counters(rt: &impl Abort, alloc: Global) -> Counters {
    let mut node = unkept_node(rt, alloc);
    let counters = counted(rt, &mut node);
    drop(node);
    counters
}

#[test]
fn kept_and_unkept(rt: HostRuntime) {
    let kept = kept_counters(&rt, rt.alloc());
    assert!(rt; kept == unkept_counters(&rt, rt.alloc()));
}
