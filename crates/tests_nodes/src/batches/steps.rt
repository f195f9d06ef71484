//! Takes, tries, put backs and scans with the results that a row expects, and rows as tables of such steps.
ghost use Rattle.std.specs.Prelude.{◌≡◌, ◌<◌, ◌≤◌, IfSome};
ghost use Rattle.thp_node.specs.Prelude.{IsInFront, FrontsStay, OtherFrontsStay};

use crate::equal::expect_equal;
use crate::nodes::{Start, has_frames, is_scanned, node_at};
use std::alloc::Global;
use std::process::Abort;
use tests_steps::{Answer, Call, answer_of};
use thp_history::{PageId, Refusal};
use thp_node::{BackReply, Batch, Node, Tried};

// A batch of up to `n` pages.
pub(crate) fn take(rt: &impl Abort, node: &mut Node, caller: u32, n: u32) -> Batch
    requires caller { caller < 64 }
    requires count { n ≤ 128 }
    ensures caller { result.caller ≡ caller }
    ensures front { IsInFront node.new.journal result }
    ensures fronts { OtherFrontsStay caller node.old.journal node.new.journal }
{
    match node.take(caller, n) {
        Ok(batch) => batch,
        Err(_) => panic!(rt; "a take was refused"),
    }
}

// A batch of up to `n` pages, which are these.
pub(crate) fn take_these(
    rt: &impl Abort,
    node: &mut Node,
    caller: u32,
    n: u32,
    pages: &[PageId],
) -> Batch
    requires caller { caller < 64 }
    requires count { n ≤ 128 }
    ensures caller { result.caller ≡ caller }
    ensures front { IsInFront node.new.journal result }
    ensures fronts { OtherFrontsStay caller node.old.journal node.new.journal }
{
    let batch = take(rt, node, caller, n);
    assert!(rt; batch.pages() == pages);
    batch
}

// Puts the rest of a batch back, with the numbers of pages returned and dropped.
pub(crate) fn expect_put_back(
    rt: &impl Abort,
    node: &mut Node,
    batch: Batch,
    back: u32,
    dropped: u32,
)
    requires { IsInFront node.old.journal batch }
    ensures { FrontsStay node.old.journal node.new.journal }
{
    match node.put_back(batch) {
        Ok(reply) => expect_equal(rt, reply, BackReply { back, dropped }),
        Err(_) => panic!(rt; "a put-back was refused"),
    }
}

// A caller that has a batch may neither take nor scan; an attempt changes nothing.
pub(crate) fn expect_has_batch(rt: &impl Abort, node: &mut Node, caller: u32, n: u32)
    requires caller { caller < 64 }
    requires count { n ≤ 128 }
    ensures { FrontsStay node.old.journal node.new.journal }
{
    let Err(refusal) = node.take(caller, n) else {
        panic!(rt; "a take was not refused");
    };
    expect_equal(rt, refusal, Refusal::HasBatch);
    let Err(refusal) = node.scan(caller, n) else {
        panic!(rt; "a scan was not refused");
    };
    expect_equal(rt, refusal, Refusal::HasBatch);
}

// A step of a row with one batch at a time, with the result that the row expects.
#[derive(Clone, Copy)]
pub(crate) enum BatchStep {
    // a caller's call
    Call(u32, Call, Answer),
    // a caller's take of up to so many pages, which returns so many, numbered from 0
    Take(u32, u32, u64),
    // a try that splits the next page, finds it pinned or finds it used
    Split(u64),
    Pinned(u64),
    Used(u64),
    // a try that finds no page left
    NoMore,
    // the rest of the batch goes back: how many return to the queue, and how many are dropped
    PutBack(u32, u32),
    // the batch is discarded
    Abandon,
    // without a batch, a caller's scan of up to so many pages: how many are taken, split, pinned, put back, dropped and used
    Scan(u32, u32, [u32; 6]),
    // a caller that has a batch may neither take nor scan so many pages
    HasBatch(u32, u32),
    // the caller of the batch
    Caller(u32),
    // how many pages the queue has
    Queued(u32),
    // the number of frames that the pages hold, and of frames given back
    Frames(u128, u128),
    // how many pages were split
    Splits(u64),
}

fn is_called(node: &mut Node, caller: u32, call: Call, want: Answer) -> bool
    ensures { FrontsStay node.old.journal node.new.journal }
{
    if caller >= 64 {
        return false;
    }
    answer_of(node, caller, call) == want
}

// The pages are so many, numbered from 0.
fn are_first(pages: &[PageId], count: u64) -> bool {
    let mut next = 0u64;
    for page in pages {
        if *page != PageId(next) {
            return false;
        }
        next = next.wrapping_add(1);
    }
    next == count
}

fn taken(node: &mut Node, caller: u32, n: u32, pages: u64) -> (bool, Option<Batch>)
    ensures { IfSome result.1 (IsInFront node.new.journal) }
{
    if caller >= 64 || n > 128 {
        return (false, None);
    }
    match node.take(caller, n) {
        Ok(batch) => (are_first(batch.pages(), pages), Some(batch)),
        Err(_) => (false, None),
    }
}

fn tried(node: &mut Node, batch: Batch, want: Tried) -> (bool, Option<Batch>)
    requires { IsInFront node.old.journal batch }
    ensures { IfSome result.1 (IsInFront node.new.journal) }
{
    let mut batch = batch;
    let tried = node.split_next(&mut batch);
    (tried == Ok(want), Some(batch))
}

fn is_returned(node: &mut Node, batch: Batch, back: u32, dropped: u32) -> bool
    requires { IsInFront node.old.journal batch }
{
    match node.put_back(batch) {
        Ok(reply) => reply == BackReply { back, dropped },
        Err(_) => false,
    }
}

// What a node shows.
fn is_shown(node: &Node, step: BatchStep) -> bool {
    match step {
        BatchStep::Queued(pages) => node.queue_len() == pages,
        BatchStep::Frames(held, given) => has_frames(node, held, given),
        BatchStep::Splits(pages) => node.counters().split_page == pages,
        _ => false,
    }
}

// A step without a batch has this result; the batch that there is then.
fn made_without(node: &mut Node, step: BatchStep) -> (bool, Option<Batch>)
    ensures { IfSome result.1 (IsInFront node.new.journal) }
{
    match step {
        BatchStep::Call(caller, call, want) => (is_called(node, caller, call, want), None),
        BatchStep::Take(caller, n, pages) => taken(node, caller, n, pages),
        BatchStep::Scan(caller, n, counts) => (is_scanned(node, caller, n, counts), None),
        other => (is_shown(node, other), None),
    }
}

// A step with a batch has this result; the batch that there is then.
fn made_with(
    rt: &impl Abort,
    node: &mut Node,
    batch: Batch,
    step: BatchStep,
) -> (bool, Option<Batch>)
    requires { IsInFront node.old.journal batch }
    ensures { IfSome result.1 (IsInFront node.new.journal) }
{
    match step {
        BatchStep::Call(caller, call, want) => {
            (is_called(node, caller, call, want), Some(batch))
        }
        BatchStep::Split(page) => tried(node, batch, Tried::Split(PageId(page))),
        BatchStep::Pinned(page) => tried(node, batch, Tried::Pinned(PageId(page))),
        BatchStep::Used(page) => tried(node, batch, Tried::Used(PageId(page))),
        BatchStep::NoMore => tried(node, batch, Tried::Done),
        BatchStep::PutBack(back, dropped) => (is_returned(node, batch, back, dropped), None),
        BatchStep::Abandon => {
            batch.abandon();
            (true, None)
        }
        BatchStep::HasBatch(caller, n) => {
            assert!(rt; caller < 64 && n <= 128);
            expect_has_batch(rt, node, caller, n);
            (true, Some(batch))
        }
        BatchStep::Caller(caller) => (batch.caller() == caller, Some(batch)),
        other => (is_shown(node, other), Some(batch)),
    }
}

fn made(
    rt: &impl Abort,
    node: &mut Node,
    batch: Option<Batch>,
    step: BatchStep,
) -> (bool, Option<Batch>)
    requires { IfSome batch (IsInFront node.old.journal) }
    ensures { IfSome result.1 (IsInFront node.new.journal) }
{
    match batch {
        Some(batch) => made_with(rt, node, batch, step),
        None => made_without(node, step),
    }
}

// Makes the steps of a row on a node, one after the other.
pub(crate) fn expect_batches(rt: &impl Abort, node: &mut Node, steps: &[BatchStep]) {
    let mut batch = None;
    for (place, step) in steps.iter().enumerate() {
        let (is_made, next) = made(rt, node, batch, *step);
        assert!(rt; is_made, "step {place}");
        batch = next;
    }
}

// The same on a new node.
pub(crate) fn expect_batch_row(rt: &impl Abort, alloc: Global, start: Start, steps: &[BatchStep]) {
    let mut node = node_at(rt, alloc, start);
    expect_batches(rt, &mut node, steps);
    drop(node);
}
