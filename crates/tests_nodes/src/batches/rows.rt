//! Rows on batches: takes, tries and put backs as separate calls.
use crate::batches::steps::{
    BatchStep, expect_batch_row, expect_has_batch, expect_put_back, take_these,
};
use crate::equal::expect_equal;
use crate::event_rows::{ONE, TWO, ZERO};
use crate::nodes::{Start, expect, expect_queued, node_with_queued};
use std::process::Abort;
use tests_steps::{Answer, Call, FREED, QUEUED, STAYS};
use thp_history::{Outcome, PageId, Refusal};
use thp_node::Node;

const CLOSED: Answer = Answer::Refused(Refusal::Closed);

const FREED_AND_REUSED: &[BatchStep] = &[
    BatchStep::Call(0, Call::Alloc, Answer::Page(ZERO)),
    BatchStep::Call(0, Call::SplitPmd(ZERO), Answer::Done),
    BatchStep::Call(0, Call::UnmapSub(ZERO, 0, 1), QUEUED),
    BatchStep::Take(0, 8, 1),
    BatchStep::Call(0, Call::UnmapSub(ZERO, 1, 511), FREED),
    BatchStep::Call(0, Call::Alloc, Answer::Page(ONE)),
    BatchStep::NoMore,
    BatchStep::PutBack(0, 0),
    BatchStep::Queued(0),
    BatchStep::Frames(512, 512),
    BatchStep::Splits(0),
];

#[test]
fn freed_from_a_batch_and_block_reused(rt: HostRuntime) {
    expect_batch_row(&rt, rt.alloc(), Start::Empty(1), FREED_AND_REUSED);
}

const DROPPED_WHEN_CLOSED: &[BatchStep] = &[
    BatchStep::Call(0, Call::Pin(ZERO), Answer::Done),
    BatchStep::Call(0, Call::Pin(ONE), Answer::Done),
    BatchStep::Take(0, 1, 1),
    BatchStep::Call(0, Call::Close, Answer::Done),
    BatchStep::Pinned(ZERO),
    BatchStep::PutBack(0, 1),
    BatchStep::Scan(0, 8, [1, 0, 1, 0, 1, 0]),
    BatchStep::Call(0, Call::Alloc, CLOSED),
    BatchStep::Call(0, Call::Close, CLOSED),
    BatchStep::Call(0, Call::Unpin(ZERO), STAYS),
    BatchStep::Call(0, Call::UnmapSub(ZERO, 1, 1), STAYS),
    BatchStep::Queued(0),
];

#[test]
fn closed_node_drops(rt: HostRuntime) {
    expect_batch_row(&rt, rt.alloc(), Start::Queued(2), DROPPED_WHEN_CLOSED);
}

const ONE_AT_A_TIME: &[BatchStep] = &[
    BatchStep::Take(0, 8, 1),
    BatchStep::Caller(0),
    BatchStep::HasBatch(0, 8),
    BatchStep::HasBatch(0, 1),
    BatchStep::Split(ZERO),
    BatchStep::NoMore,
    BatchStep::PutBack(0, 0),
];

#[test]
fn one_batch_at_a_time(rt: HostRuntime) {
    expect_batch_row(&rt, rt.alloc(), Start::Queued(1), ONE_AT_A_TIME);
}

const ABANDONED: &[BatchStep] = &[
    BatchStep::Take(0, 8, 1),
    BatchStep::Split(ZERO),
    BatchStep::NoMore,
    BatchStep::Abandon,
    BatchStep::Call(0, Call::Close, Answer::Done),
    BatchStep::Call(0, Call::Close, CLOSED),
    BatchStep::Call(0, Call::Alloc, CLOSED),
];

// A batch without remaining pages may be discarded.
#[test]
fn abandoned_after_its_split(rt: HostRuntime) {
    expect_batch_row(&rt, rt.alloc(), Start::Queued(1), ABANDONED);
}

// Each of two callers takes a page and puts it back, the second one first.
fn expect_batches_of_two(rt: &impl Abort, node: &mut Node) {
    let first = take_these(rt, node, 1, 1, &[PageId(0)]);
    let second = take_these(rt, node, 2, 1, &[PageId(1)]);
    expect_put_back(rt, node, second, 1, 0);
    expect_has_batch(rt, node, 1, 1);
    expect_put_back(rt, node, first, 1, 0);
}

// A caller discards a batch of three pages, and has it still.
fn expect_abandoned(rt: &impl Abort, node: &mut Node) {
    take_these(rt, node, 1, 3, &[PageId(2), PageId(1), PageId(0)]).abandon();
    expect_queued(rt, node, 0);
    expect_has_batch(rt, node, 1, 1);
}

#[test]
fn batches_of_two_callers(rt: HostRuntime) {
    let mut node = node_with_queued(&rt, rt.alloc(), 3);
    expect_batches_of_two(&rt, &mut node);
    expect_abandoned(&rt, &mut node);
    drop(node);
}

const FREED_AROUND: &[BatchStep] = &[
    BatchStep::Take(1, 3, 3),
    BatchStep::Call(2, Call::Pin(ONE), Answer::Done),
    BatchStep::Call(2, Call::UnmapSub(ZERO, 1, 511), FREED),
    BatchStep::Pinned(ONE),
    BatchStep::Call(1, Call::UnmapSub(TWO, 1, 511), FREED),
    BatchStep::NoMore,
    BatchStep::PutBack(1, 0),
    BatchStep::Call(2, Call::Unpin(ONE), STAYS),
    BatchStep::Scan(2, 3, [1, 1, 0, 0, 0, 0]),
    BatchStep::Call(
        1,
        Call::UnmapSub(ONE, 1, 511),
        Answer::Changed(Outcome::Freed, 1, 511),
    ),
    BatchStep::Frames(0, 1536),
];

// A batch is still a prefix of its flight after calls of others and of its own caller, whatever they free.
#[test]
fn freed_around_a_batch(rt: HostRuntime) {
    expect_batch_row(&rt, rt.alloc(), Start::Queued(3), FREED_AROUND);
}

fn block_of(node: &Node, page: PageId) -> Option<u32> {
    node.table().block_of(page)
}

// The oldest block of a queue of one page.
fn only_block(rt: &impl Abort, node: &Node) -> Option<u32> {
    assert!(rt; node.queue().len() == 1);
    node.queue().front()
}

// Once the older of two pages is freed, the queue has the other one's block.
fn expect_block_of_the_other(rt: &impl Abort, node: &mut Node) {
    let block = block_of(node, PageId(1));
    expect_equal(rt, block.is_some(), true);
    expect(rt, node, 0, &[(Call::UnmapSub(ZERO, 1, 511), FREED)]);
    expect_equal(rt, only_block(rt, node), block);
    expect_equal(rt, block_of(node, PageId(0)), None);
}

// The queue is in the table's links, by the blocks of its pages.
#[test]
fn queue_stands_in_the_table(rt: HostRuntime) {
    let mut node = node_with_queued(&rt, rt.alloc(), 2);
    expect_block_of_the_other(&rt, &mut node);
    drop(node);
}
