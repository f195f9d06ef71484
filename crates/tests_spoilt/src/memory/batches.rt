//! Takes, tries and put backs of a batch, when the journal has this many events.
ghost use Rattle.std.specs.Prelude.{◌<◌, ◌≤◌};
ghost use Rattle.thp_node.specs.Prelude.{IsInFront};

use crate::memory::nodes::{MOST, event_count, expect_unchanged, node_after, view_of};
use std::alloc::Global;
use std::process::Abort;
use thp_history::PageId;
use thp_node::{BackReply, Batch, Node, Tried};

/// Takes this many pages, at the second try at the latest.
pub(crate) fn take_at_last(rt: &(impl Abort + Print), node: &mut Node, caller: u32, n: u32) -> Batch
    requires caller { caller < 64 }
    requires few { n ≤ 128 }
    ensures { IsInFront node.new.journal result }
{
    let before = view_of(node);
    match node.take(caller, n) {
        Ok(batch) => return batch,
        Err(refusal) => expect_unchanged(rt, node, before, refusal, "Node::take"),
    }
    match node.take(caller, n) {
        Ok(batch) => batch,
        Err(_) => panic!(rt; "a take was refused twice"),
    }
}

/// Tries the next page, at the second try at the latest.
pub(crate) fn try_at_last(rt: &(impl Abort + Print), node: &mut Node, batch: &mut Batch) -> Tried
    requires { IsInFront node.old.journal batch.old }
    ensures { IsInFront node.new.journal batch.new }
{
    let before = view_of(node);
    match node.split_next(batch) {
        Ok(tried) => return tried,
        Err(refusal) => expect_unchanged(rt, node, before, refusal, "Node::split_next"),
    }
    match node.split_next(batch) {
        Ok(tried) => tried,
        Err(_) => panic!(rt; "a try was refused twice"),
    }
}

/// Puts the batch back, at the second try at the latest.
pub(crate) fn return_at_last(rt: &(impl Abort + Print), node: &mut Node, batch: Batch) -> BackReply
    requires { IsInFront node.old.journal batch }
{
    let before = view_of(node);
    let batch = match node.put_back(batch) {
        Ok(reply) => return reply,
        Err((batch, refusal)) => {
            expect_unchanged(rt, node, before, refusal, "Node::put_back");
            batch
        }
    };
    match node.put_back(batch) {
        Ok(reply) => reply,
        Err(_) => panic!(rt; "a put-back was refused twice"),
    }
}

/// Whether so many pages went back, and none was dropped.
pub(crate) fn is_back(reply: BackReply, pages: u32) -> bool {
    reply.back == pages && reply.dropped == 0
}

/// Whether the queue contains the page, and the journal has this many events.
fn is_as_before(node: &Node, events: usize) -> bool {
    node.queue_len() == 1 && event_count(node) == events
}

/// Takes the pinned page, tries it and puts it back, so that there are this many events.
fn pass_pinned(rt: &(impl Abort + Print), node: &mut Node, events: usize) {
    let mut batch = take_at_last(rt, node, 1, 8);
    assert!(rt; batch.pages().len() == 1);
    let tried = try_at_last(rt, node, &mut batch);
    assert!(rt; matches!(tried, Tried::Pinned(PageId(0))));
    let reply = return_at_last(rt, node, batch);
    assert!(rt; is_back(reply, 1));
    assert!(rt; is_as_before(node, events));
}

fn pass_batch(rt: &(impl Abort + Print), alloc: Global, writes: usize) {
    let mut node = node_after(rt, alloc, writes);
    pass_pinned(rt, &mut node, writes.saturating_add(8));
    drop(node);
}

#[test]
fn put_back_without_memory(rt: HostRuntime) {
    for writes in 0..MOST {
        pass_batch(&rt, rt.alloc(), writes);
    }
}
