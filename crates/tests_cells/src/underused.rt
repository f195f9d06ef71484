//! Worked rows of a node whose shrinker splits underused pages, through a cell: order 2, threshold 1.
use crate::steps::{Step, event_count, has_frames, node_of_one};
use std::alloc::Global;
use std::process::Abort;
use tests_steps::{Answer, Call, QUEUED, STAYS};
use thp_history::{Event, Outcome, PageId, Refusal, Shape, What};
use thp_node::Node;

// The node after these steps of its only caller. Its shrinker splits pages of which more than one subpage is zero-filled.
fn small_node(rt: &impl Abort, alloc: Global, blocks: u32, steps: &[Step]) -> Node {
    let shape = Shape {
        blocks,
        order: 2,
        underused: Some(1),
    };
    node_of_one(rt, alloc, shape, steps)
}

const UNDERUSED_SCAN: &[Step] = &[
    Step::Call(Call::Alloc, Answer::Page(0)),
    // A page with one zero-filled subpage is found in use; partly unmapped it is split, and its first and last subpage lose their
    // frames, the last as zero-filled.
    Step::Call(Call::Write(0, 0, 3), Answer::Done),
    Step::Scan(8, [1, 0, 0, 0, 0, 1]),
    Step::Call(Call::SplitPmd(0), Answer::Done),
    Step::Call(Call::UnmapSub(0, 0, 1), QUEUED),
    Step::Scan(8, [1, 1, 0, 0, 0, 0]),
    // The unmap of its zero-filled subpage gives nothing back, and the subpage can't be mapped or written again.
    Step::Call(Call::UnmapSub(0, 3, 1), STAYS),
    Step::Call(Call::MapSub(0, 3, 1), Answer::Refused(Refusal::Gone)),
    Step::Call(Call::Write(0, 1, 1), Answer::Refused(Refusal::IsSplit)),
    Step::Call(
        Call::UnmapSub(0, 1, 2),
        Answer::Changed(Outcome::Freed, 1, 2),
    ),
];

// The event found page 0 in use.
fn is_used(event: &Event) -> bool {
    event.what == What::Used { page: PageId(0) }
}

fn has_used_at(node: &Node, place: usize) -> bool {
    node.journal().get(place).is_some_and(is_used)
}

fn expect_used(rt: &impl Abort, node: Node) {
    assert!(rt; has_used_at(&node, 3));
    assert!(rt; event_count(node) == 10);
}

#[test]
fn underused_scan(rt: HostRuntime) {
    expect_used(&rt, small_node(&rt, rt.alloc(), 4, UNDERUSED_SCAN));
}

// An underused page is split by a scan, and a pinned one is dropped by it.
const UNDERUSED_PINNED: &[Step] = &[
    Step::Call(Call::Alloc, Answer::Page(0)),
    Step::Call(Call::Alloc, Answer::Page(1)),
    Step::Call(Call::Write(0, 0, 2), Answer::Done),
    Step::Call(Call::Pin(1), Answer::Done),
    Step::Scan(8, [2, 1, 1, 0, 1, 0]),
    Step::Count(0),
];

// After these steps the pages hold so many frames, and so many were given back.
fn expect_frames(
    rt: &impl Abort,
    alloc: Global,
    blocks: u32,
    steps: &[Step],
    held: u128,
    given: u128,
) {
    assert!(rt; has_frames(small_node(rt, alloc, blocks, steps), held, given));
}

#[test]
fn underused_pinned(rt: HostRuntime) {
    expect_frames(&rt, rt.alloc(), 4, UNDERUSED_PINNED, 6, 2);
}

// A page whose frames were all given back keeps its block until its last unmap.
const BLOCK_OF_A_LIVE_PAGE: &[Step] = &[
    Step::Call(Call::Alloc, Answer::Page(0)),
    Step::Scan(1, [1, 1, 0, 0, 0, 0]),
    Step::Call(Call::Alloc, Answer::Refused(Refusal::NoBlock)),
    Step::Call(
        Call::UnmapSub(0, 0, 4),
        Answer::Changed(Outcome::Freed, 0, 0),
    ),
    Step::Call(Call::Alloc, Answer::Page(1)),
];

#[test]
fn block_of_a_live_page(rt: HostRuntime) {
    expect_frames(&rt, rt.alloc(), 1, BLOCK_OF_A_LIVE_PAGE, 4, 4);
}

const WRITE_AND_ZERO_REFUSALS: &[Step] = &[
    Step::Call(Call::Alloc, Answer::Page(0)),
    Step::Call(Call::Pin(0), Answer::Done),
    Step::Call(Call::SplitPmd(0), Answer::Done),
    Step::Take(1, 0, 0),
    Step::Pinned(0),
    Step::Call(Call::UnmapSub(0, 0, 1), STAYS),
    // data to a subpage that no entry maps, and zeros beyond the page, are refused; zeros to a mapped subpage are written
    Step::Call(Call::Write(0, 0, 1), Answer::Refused(Refusal::NotMapped)),
    Step::Call(Call::Zero(0, 4, 1), Answer::Refused(Refusal::BadRange)),
    Step::Call(Call::Zero(0, 1, 1), Answer::Done),
    Step::PutBack(1),
];

fn expect_refusals(rt: &impl Abort, alloc: Global) {
    drop(small_node(rt, alloc, 4, WRITE_AND_ZERO_REFUSALS));
}

#[test]
fn write_and_zero_refusals(rt: HostRuntime) {
    expect_refusals(&rt, rt.alloc());
}
