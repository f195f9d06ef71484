//! Nodes for rows, calls with their results, and queries of a node.
ghost use Rattle.std.specs.Prelude.{◌<◌};
ghost use Rattle.thp_node.specs.Prelude.{FrontsStay};

use std::alloc::Global;
use std::process::Abort;
use tests_steps::{Answer, Call, first_wrong, queued_node, queueing, shape_of};
use thp_history::Shape;
use thp_node::{Node, ScanReply};

// A node of order 9 with these blocks.
pub(crate) fn node_of(rt: &impl Abort, alloc: Global, blocks: u32) -> Node {
    node_of_shape(rt, alloc, shape_of(blocks))
}

fn node_of_shape(rt: &impl Abort, alloc: Global, shape: Shape) -> Node {
    Node::new(alloc, shape).expect(rt, "a node of this shape")
}

// A node with these blocks, for pages of 4 subpages, whose shrinker splits pages with more than one zero-filled subpage too.
pub(crate) fn small_node(rt: &impl Abort, alloc: Global, blocks: u32) -> Node {
    let shape = Shape {
        blocks,
        order: 2,
        underused: Some(1),
    };
    node_of_shape(rt, alloc, shape)
}

// A node of 16 blocks with this many pages, numbered from 0 on and all queued.
pub(crate) fn node_with_queued(rt: &impl Abort, alloc: Global, pages: u64) -> Node {
    queued_node(alloc, pages).expect(rt, "a node with queued pages")
}

// The node that a row begins with.
#[derive(Clone, Copy)]
pub(crate) enum Start {
    // of order 9 with so many blocks
    Empty(u32),
    // of order 9 with so many pages, all of them queued
    Queued(u64),
    // of order 2 with so many blocks, whose shrinker splits pages with more than one zero-filled subpage too
    Small(u32),
}

pub(crate) fn node_at(rt: &impl Abort, alloc: Global, start: Start) -> Node {
    match start {
        Start::Empty(blocks) => node_of(rt, alloc, blocks),
        Start::Queued(pages) => node_with_queued(rt, alloc, pages),
        Start::Small(blocks) => small_node(rt, alloc, blocks),
    }
}

// A caller makes these calls one after the other, each with its result.
pub(crate) fn expect(rt: &impl Abort, node: &mut Node, caller: u32, steps: &[(Call, Answer)])
    requires { caller < 64 }
    ensures { FrontsStay node.old.journal node.new.journal }
{
    assert!(rt; first_wrong(node, caller, steps) == None);
}

// The page of this number is allocated and queued.
pub(crate) fn queue_page(rt: &impl Abort, node: &mut Node, page: u64)
    ensures { FrontsStay node.old.journal node.new.journal }
{
    expect(rt, node, 0, &queueing(page));
}

// How many pages the node's queue has.
pub(crate) fn expect_queued(rt: &impl Abort, node: &Node, pages: u32) {
    assert!(rt; node.queue_len() == pages);
}

// The node's pages hold so many frames, and so many were given back.
pub(crate) fn has_frames(node: &Node, held: u128, given: u128) -> bool {
    node.frames_held() == held && node.frames_given() == given
}

// A caller's scan of up to `n` pages has these numbers of pages taken, split, pinned, put back, dropped and used.
pub(crate) fn is_scanned(node: &mut Node, caller: u32, n: u32, counts: [u32; 6]) -> bool {
    let [taken, split, pinned, back, dropped, used] = counts;
    let want = ScanReply {
        taken,
        split,
        pinned,
        back,
        dropped,
        used,
    };
    caller < 64 && n <= 128 && node.scan(caller, n) == Ok(want)
}

// How many events the node's journal has.
pub(crate) fn event_count(node: &Node) -> usize {
    node.journal().len()
}
