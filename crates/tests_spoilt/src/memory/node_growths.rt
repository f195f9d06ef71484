//! Every allocation made to fail in turn: the tests pass with ample memory, and continue if a call reports lack of memory. Such a
//! call changes nothing, and works at the second try.
ghost use Rattle.std.specs.Prelude.{◌<◌};
ghost use Rattle.thp_node.specs.Prelude.{FrontsStay};

use crate::memory::batches::{is_back, return_at_last, take_at_last, try_at_last};
use crate::memory::nodes::{event_count, expect_unchanged, node_at_last, view_of};
use std::alloc::Global;
use std::process::Abort;
use tests_steps::{Answer, Call, STAYS, answer_of, first_wrong, queueing, shape_of};
use thp_history::{PageId, Refusal, Shape};
use thp_node::{Node, ScanReply, Tried};

// The answer to a call at the second try at the latest; none if the first one failed and changed something.
fn answer_at_last(node: &mut Node, caller: u32, call: Call) -> Option<Answer>
    requires { caller < 64 }
    ensures { FrontsStay node.old.journal node.new.journal }
{
    let before = view_of(node);
    let first = answer_of(node, caller, call);
    if first != Answer::Refused(Refusal::OutOfMemory) {
        return Some(first);
    }
    if view_of(node) != before {
        return None;
    }
    Some(answer_of(node, caller, call))
}

// Makes these calls one after the other, each with its result at the second try at the latest.
fn expect_at_last(rt: &impl Abort, node: &mut Node, caller: u32, steps: &[(Call, Answer)])
    requires { caller < 64 }
    ensures { FrontsStay node.old.journal node.new.journal }
{
    for (place, &(call, want)) in steps.iter().enumerate() {
        let answer = answer_at_last(node, caller, call);
        assert!(rt; answer == Some(want), "step {place}");
    }
}

fn scan_at_last(rt: &(impl Abort + Print), node: &mut Node) -> ScanReply {
    let before = view_of(node);
    match node.scan(3, 8) {
        Ok(reply) => return reply,
        Err(refusal) => expect_unchanged(rt, node, before, refusal, "Node::scan"),
    }
    match node.scan(3, 8) {
        Ok(reply) => reply,
        Err(_) => panic!(rt; "a scan was refused twice"),
    }
}

// A page is queued and gets this many pins; then it is taken, tried and put back.
fn put_back_pinned(rt: &(impl Abort + Print), node: &mut Node, pins: usize) {
    let page = 0;
    expect_at_last(rt, node, 0, &queueing(page));
    for _pin in 0..pins {
        expect_at_last(rt, node, 0, &[(Call::Pin(page), Answer::Done)]);
    }
    let mut batch = take_at_last(rt, node, 0, 1);
    let tried = try_at_last(rt, node, &mut batch);
    assert!(rt; tried == Tried::Pinned(PageId(page)));
    assert!(rt; event_count(node) == pins.saturating_add(5));
    let reply = return_at_last(rt, node, batch);
    assert!(rt; is_back(reply, 1));
    assert!(rt; node.queue_len() == 1);
}

fn put_back_after_pins(rt: &(impl Abort + Print), alloc: Global, pins: usize) {
    let mut node = node_at_last(rt, alloc, shape_of(16));
    put_back_pinned(rt, &mut node, pins);
    drop(node);
}

// For some of these numbers of pins, the failing allocation is in the put back.
#[test]
fn put_back_without_memory(rt: HostRuntime) {
    for pins in 1..65 {
        put_back_after_pins(&rt, rt.alloc(), pins);
    }
}

// A page is queued, and passes every other call that involves no batch.
fn calls_about_one_page(rt: &impl Abort, node: &mut Node, page: u64) {
    expect_at_last(rt, node, 0, &queueing(page));
    expect_at_last(rt, node, 0, &[(Call::Pin(page), Answer::Done)]);
    let steps = [
        (Call::MapWhole(page), Answer::Done),
        (Call::MapSub(page, 0, 2), Answer::Done),
        (Call::UnmapWhole(page), STAYS),
        (Call::Unpin(page), STAYS),
        (Call::Write(page, 1, 3), Answer::Done),
        (Call::Zero(page, 2, 1), Answer::Done),
    ];
    expect_at_last(rt, node, 1, &steps);
}

// Of twelve pages a scan takes eight, and splits all of them but page 1, which is pinned.
fn is_scanned(reply: ScanReply) -> bool {
    reply
        == ScanReply {
            taken: 8,
            split: 7,
            pinned: 1,
            back: 1,
            dropped: 0,
            used: 0,
        }
}

// Takes the five pages that are left, splits one of them, and puts the rest back.
fn pass_the_rest(rt: &(impl Abort + Print), node: &mut Node) {
    let mut batch = take_at_last(rt, node, 0, 128);
    assert!(rt; batch.pages().len() == 5);
    let tried = try_at_last(rt, node, &mut batch);
    assert!(rt; tried == Tried::Split(PageId(8)));
    let reply = return_at_last(rt, node, batch);
    assert!(rt; is_back(reply, 4));
}

// Twelve pages pass every call that involves no batch. A scan and a batch take them, and the node is closed.
fn calls_about_twelve_pages(rt: &(impl Abort + Print), node: &mut Node) {
    for number in 0..12 {
        calls_about_one_page(rt, node, number);
    }
    expect_at_last(rt, node, 0, &[(Call::Pin(1), Answer::Done)]);
    assert!(rt; is_scanned(scan_at_last(rt, node)));
    pass_the_rest(rt, node);
    expect_at_last(rt, node, 0, &[(Call::Close, Answer::Done)]);
    assert!(rt; node.queue_len() == 4);
}

#[test]
fn each_growth_refused(rt: HostRuntime) {
    let shape = Shape {
        blocks: 64,
        order: 2,
        underused: None,
    };
    let mut node = node_at_last(&rt, rt.alloc(), shape);
    calls_about_twelve_pages(&rt, &mut node);
    drop(node);
}

// Reserves room for three events, at the second try at the latest.
fn reserve_at_last(rt: &impl Abort, node: &mut Node) {
    if node.reserve(3).is_err() {
        assert!(rt; node.reserve(3) == Ok(()));
    }
}

fn expect_reserved(rt: &impl Abort, node: &mut Node) {
    reserve_at_last(rt, node);
    let page = 0;
    let steps = [
        (Call::Alloc, Answer::Page(page)),
        (Call::Pin(page), Answer::Done),
        (Call::Close, Answer::Done),
    ];
    assert!(rt; first_wrong(node, 0, &steps) == None);
}

// A `reserve` that succeeds leaves room for what was requested.
#[test]
fn reserved_calls_want_no_memory(rt: HostRuntime) {
    let mut node = node_at_last(&rt, rt.alloc(), shape_of(1));
    expect_reserved(&rt, &mut node);
    drop(node);
}
