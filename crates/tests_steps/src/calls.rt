//! Calls about one page or the node as values, so that a row is a table of calls and results. Pages are plain numbers, since a
//! constant can lend no `PageId`.
ghost use Rattle.std.specs.Prelude.{◌<◌};
ghost use Rattle.thp_node.specs.Prelude.{FrontsStay};

use std::alloc::Global;
use thp_history::{Outcome, PageId, Refusal, Shape, SubSet};
use thp_node::{Done, Node, Recorder, ScanReply};

/// A call about a page or about the node.
#[derive(Clone, Copy, Debug)]
pub enum Call {
    Alloc,
    MapWhole(u64),
    UnmapWhole(u64),
    /// From the first number on, as many subpages as the second number; the same for all calls of two numbers.
    MapSub(u64, u32, u32),
    UnmapSub(u64, u32, u32),
    SplitPmd(u64),
    Pin(u64),
    Unpin(u64),
    Write(u64, u32, u32),
    Zero(u64, u32, u32),
    Close,
}

/// The result of a call.
#[derive(Clone, Copy, PartialEq, Eq, Debug)]
pub enum Answer {
    Page(u64),
    Done,
    /// The outcome of an unmap or an unpin, and the run of frames that it gave back: the first, and their number.
    Changed(Outcome, u32, u32),
    /// The outcome of an unmap or an unpin, if the frames that it gave back are not one run.
    Scattered(Outcome),
    Refused(Refusal),
}

/// Queued, and no frame given back.
pub const QUEUED: Answer = Answer::Changed(Outcome::Queued, 0, 0);

/// Neither queued nor freed, and no frame given back.
pub const STAYS: Answer = Answer::Changed(Outcome::Stays, 0, 0);

/// Freed, with all frames of a page of order 9.
pub const FREED: Answer = Answer::Changed(Outcome::Freed, 0, 512);

/// The shape of a node of order 9 with these blocks, whose shrinker does not look for underused pages.
pub fn shape_of(blocks: u32) -> Shape {
    Shape {
        blocks,
        order: 9,
        underused: None,
    }
}

/// A caller makes these calls one after the other, up to the first with another result: its index and its result.
pub fn first_wrong<R: Recorder>(
    node: &mut Node<R>,
    caller: u32,
    steps: &[(Call, Answer)],
) -> Option<(usize, Answer)>
    requires { caller < 64 }
    ensures { FrontsStay node.old.journal node.new.journal }
{
    for (place, &(call, want)) in steps.iter().enumerate() {
        let answer = answer_of(node, caller, call);
        if answer != want {
            return Some((place, answer));
        }
    }
    None
}

/// Returns the result of a caller's call, whatever the node does with its events.
pub fn answer_of<R: Recorder>(node: &mut Node<R>, caller: u32, call: Call) -> Answer
    requires { caller < 64 }
    ensures { FrontsStay node.old.journal node.new.journal }
{
    match call {
        Call::Alloc => match node.alloc_page(caller) {
            Ok(PageId(page)) => Answer::Page(page),
            Err(refusal) => Answer::Refused(refusal),
        },
        Call::MapWhole(page) => done(node.map_whole(caller, PageId(page))),
        Call::UnmapWhole(page) => outcome(node.unmap_whole(caller, PageId(page))),
        Call::MapSub(page, first, count) => done(node.map_sub(caller, PageId(page), first, count)),
        Call::UnmapSub(page, first, count) => outcome(node.unmap_sub(
            caller,
            PageId(page),
            first,
            count,
        )),
        Call::SplitPmd(page) => done(node.split_pmd(caller, PageId(page))),
        Call::Pin(page) => done(node.pin(caller, PageId(page))),
        Call::Unpin(page) => outcome(node.unpin(caller, PageId(page))),
        Call::Write(page, first, count) => done(node.write(caller, PageId(page), first, count)),
        Call::Zero(page, first, count) => done(node.zero(caller, PageId(page), first, count)),
        Call::Close => done(node.close(caller)),
    }
}

/// The result of a call that returns nothing else.
pub fn done(reply: Result<(), Refusal>) -> Answer {
    match reply {
        Ok(()) => Answer::Done,
        Err(refusal) => Answer::Refused(refusal),
    }
}

/// The result of an unmap or an unpin.
pub fn outcome(reply: Result<Done, Refusal>) -> Answer {
    match reply {
        Ok(Done { outcome, released }) => match run_of(released) {
            Some((first, count)) => Answer::Changed(outcome, first, count),
            None => Answer::Scattered(outcome),
        },
        Err(refusal) => Answer::Refused(refusal),
    }
}

// The first number of a set and its size, if its numbers are consecutive.
fn run_of(set: SubSet) -> Option<(u32, u32)> {
    if set.is_empty() {
        return Some((0, 0));
    }
    let first = set.first_in(0);
    let end = set.first_out(first);
    if set.first_in(end) < 512 {
        None
    } else {
        Some((first, end - first))
    }
}

/// The calls that queue the page of this number: it is allocated, its PMD mapping is split, and its first subpage is unmapped.
pub fn queueing(page: u64) -> [(Call, Answer); 3] {
    [
        (Call::Alloc, Answer::Page(page)),
        (Call::SplitPmd(page), Answer::Done),
        (Call::UnmapSub(page, 0, 1), QUEUED),
    ]
}

/// A new node of 16 blocks whose queue has this many pages, numbered from 0; `None` if that failed.
pub fn queued_node(alloc: Global, pages: u64) -> Option<Node> {
    let Ok(mut node) = Node::new(alloc, shape_of(16)) else {
        return None;
    };
    for number in 0..pages {
        if first_wrong(&mut node, 0, &queueing(number)).is_some() {
            return None;
        }
    }
    Some(node)
}

/// The reply of a scan that found no page in use.
pub fn scanned(taken: u32, split: u32, pinned: u32, back: u32, dropped: u32) -> ScanReply {
    ScanReply {
        taken,
        split,
        pinned,
        back,
        dropped,
        used: 0,
    }
}
