//! Each call of a node that records events, made when the journal has this many events, so that some of them make it grow.
use crate::memory::devices::print_call;
use std::alloc::Global;
use std::process::Abort;
use thp_history::{PageId, Refusal, Shape};
use thp_node::{Counters, NewFault, Node};

/// The greatest number of events before a call.
pub(crate) const MOST: usize = 70;

const PAGE: PageId = PageId(0);

/// A call, on page 0 if it is about a page.
#[derive(Clone, Copy)]
pub(crate) enum Call {
    AllocPage,
    MapWhole,
    UnmapWhole,
    MapSub,
    // of the subpage of this number
    UnmapSub(u32),
    SplitPmd,
    Pin,
    Unpin,
    Write,
    Zero,
    Close,
    Scan,
    Reserve,
}

/// The calls that queue a page of a node, mapped as a whole and pinned, so that each call has something to do.
pub(crate) const BEFORE: [Call; 5] = [
    Call::AllocPage,
    Call::SplitPmd,
    Call::UnmapSub(0),
    Call::MapWhole,
    Call::Pin,
];

/// The calls by their numbers, the last of which is `LAST`.
fn call_of(number: u32) -> Call {
    match number {
        0 => Call::AllocPage,
        1 => Call::MapWhole,
        2 => Call::UnmapWhole,
        3 => Call::MapSub,
        4 => Call::UnmapSub(1),
        5 => Call::SplitPmd,
        6 => Call::Pin,
        7 => Call::Unpin,
        8 => Call::Write,
        9 => Call::Zero,
        10 => Call::Close,
        11 => Call::Scan,
        _ => Call::Reserve,
    }
}

/// The number of `Reserve`.
const LAST: u32 = 12;

/// The number of events that a call records there.
fn events_of(call: Call) -> usize {
    match call {
        // a take, a find that the page is pinned, and its return
        Call::Scan => 3,
        Call::Reserve => 0,
        _ => 1,
    }
}

fn make(node: &mut Node, call: Call) -> Result<(), Refusal> {
    match call {
        Call::MapWhole => node.map_whole(1, PAGE),
        Call::MapSub => node.map_sub(1, PAGE, 2, 1),
        Call::SplitPmd => node.split_pmd(1, PAGE),
        Call::Pin => node.pin(1, PAGE),
        Call::Write => node.write(1, PAGE, 1, 1),
        Call::Zero => node.zero(1, PAGE, 1, 1),
        other => make_other(node, other),
    }
}

/// Makes a call of the whole node, or one with a value.
fn make_other(node: &mut Node, call: Call) -> Result<(), Refusal> {
    match call {
        Call::AllocPage => {
            let _page = node.alloc_page(1)?;
        }
        Call::UnmapWhole => {
            let _done = node.unmap_whole(1, PAGE)?;
        }
        Call::UnmapSub(subpage) => {
            let _done = node.unmap_sub(1, PAGE, subpage, 1)?;
        }
        Call::Unpin => {
            let _done = node.unpin(1, PAGE)?;
        }
        Call::Scan => {
            let _reply = node.scan(1, 8)?;
        }
        Call::Close => return node.close(1),
        _ => return node.reserve(200),
    }
    Ok(())
}

/// What a node shows: its events, its queue, its frames and its statistics.
#[derive(Clone, Copy, PartialEq, Eq)]
pub(crate) struct View {
    events: usize,
    queued: u32,
    held: u128,
    given: u128,
    counters: Counters,
}

pub(crate) fn event_count(node: &Node) -> usize {
    node.journal().len()
}

pub(crate) fn view_of(node: &Node) -> View {
    View {
        events: event_count(node),
        queued: node.queue_len(),
        held: node.frames_held(),
        given: node.frames_given(),
        counters: node.counters(),
    }
}

/// A call failed for lack of memory only, and changed nothing.
pub(crate) fn expect_unchanged(
    rt: &(impl Abort + Print),
    node: &Node,
    before: View,
    refusal: Refusal,
    call: &str,
) {
    print_call(rt, call);
    assert!(rt; refusal == Refusal::OutOfMemory);
    assert!(rt; view_of(node) == before);
}

pub(crate) fn node_at_last(rt: &(impl Abort + Print), alloc: Global, shape: Shape) -> Node {
    match Node::new(alloc, shape) {
        Ok(node) => return node,
        Err(fault) => {
            assert!(rt; matches!(fault, NewFault::OutOfMemory));
            print_call(rt, "Node::new");
        }
    }
    Node::new(alloc, shape).expect(rt, "a node at the second try")
}

/// Makes a call, at the second try at the latest.
pub(crate) fn make_at_last(rt: &(impl Abort + Print), node: &mut Node, call: Call, name: &str) {
    let before = view_of(node);
    if let Err(refusal) = make(node, call) {
        expect_unchanged(rt, node, before, refusal, name);
        assert!(rt; make(node, call).is_ok());
    }
}

fn name_of(call: Call) -> &'static str {
    match call {
        Call::AllocPage => "Node::alloc_page",
        Call::MapWhole => "Node::map_whole",
        Call::UnmapWhole => "Node::unmap_whole",
        Call::MapSub => "Node::map_sub",
        Call::UnmapSub(_) => "Node::unmap_sub",
        Call::SplitPmd => "Node::split_pmd",
        Call::Pin => "Node::pin",
        Call::Unpin => "Node::unpin",
        Call::Write => "Node::write",
        Call::Zero => "Node::zero",
        Call::Close => "Node::close",
        Call::Scan => "Node::scan",
        Call::Reserve => "Node::reserve",
    }
}

/// A node of two blocks with a page that is queued and pinned, followed by this many writes.
pub(crate) fn node_after(rt: &(impl Abort + Print), alloc: Global, writes: usize) -> Node {
    let shape = Shape {
        blocks: 2,
        order: 2,
        underused: None,
    };
    let mut node = node_at_last(rt, alloc, shape);
    for call in BEFORE {
        make_at_last(rt, &mut node, call, name_of(call));
    }
    for _ in 0..writes {
        make_at_last(rt, &mut node, Call::Write, "Node::write");
    }
    node
}

/// Whether the node refuses an allocation because it is closed.
fn is_closed(node: &mut Node) -> bool {
    matches!(node.alloc_page(1), Err(Refusal::Closed))
}

/// Makes a call, and then closes the node.
fn make_and_close(rt: &(impl Abort + Print), node: &mut Node, call: Call) {
    let wanted = event_count(node).saturating_add(events_of(call));
    make_at_last(rt, node, call, name_of(call));
    assert!(rt; event_count(node) == wanted);
    // and the node continues
    if !matches!(call, Call::Close) {
        make_at_last(rt, node, Call::Close, "Node::close");
    }
    assert!(rt; is_closed(node));
}

/// Makes a call on a node after this many writes.
fn make_one(rt: &(impl Abort + Print), alloc: Global, writes: usize, call: Call) {
    let mut node = node_after(rt, alloc, writes);
    make_and_close(rt, &mut node, call);
    drop(node);
}

#[test]
fn each_call(rt: HostRuntime) {
    for writes in 0..MOST {
        for number in 0..=LAST {
            make_one(&rt, rt.alloc(), writes, call_of(number));
        }
    }
}
