//! Worked rows on a shared node, with results known beforehand.
ghost use Rattle.std.specs.Prelude.{◌≡◌};
ghost use Rattle.thp_cell.specs.Prelude.{HasCaller, continuing, missing, returning_node};
ghost use Rattle.tests_cells.specs.Passes.{Stays};

use crate::equal::expect_equal;
use crate::steps::{
    Step, cell_of, expect_steps, has_frames, is_allocation, node_of_one, node_of_two,
};
use std::alloc::Global;
use std::process::Abort;
use tests_steps::{Answer, Call, FREED, QUEUED, STAYS, shape_of};
use thp_cell::{Busy, Hold, NodeCell, Pass};
use thp_history::{Event, PageId, Refusal};
use thp_node::{NewFault, Node};

// Takes the node for a hold, which nobody has.
fn hold_node(rt: &impl Abort, cell: &NodeCell, pass: Pass) -> Hold
    requires { pass.cell ≡ cell.now }
    ensures { result ≡ continuing (returning_node pass) result }
{
    match cell.hold(pass) {
        Ok(hold) => hold,
        Err(_) => panic!(rt; "nobody has the node"),
    }
}

// A pass whose hold is refused, since another has the node.
fn refused_hold(rt: &impl Abort, cell: &NodeCell, pass: Pass) -> Pass
    requires { pass.cell ≡ cell.now }
    ensures { result ≡ missing (returning_node pass) }
{
    match cell.hold(pass) {
        Ok(_) => panic!(rt; "two holds"),
        Err((pass, Busy)) => pass,
    }
}

// The events are one, the allocation of this page by this caller.
fn is_one_allocation(events: &[Event], caller: u32, page: PageId) -> bool {
    match events {
        [event] => is_allocation(event, caller, page),
        _ => false,
    }
}

fn has_one_allocation(node: Node, caller: u32, page: PageId) -> bool {
    let is_alone = is_one_allocation(node.journal(), caller, page);
    drop(node);
    is_alone
}

fn has_callers(pass: &Pass, first: u32, end: u32) -> bool {
    pass.callers() == (first, end)
}

const BUSY: &[Step] = &[Step::Busy];

const ALLOCATED: &[Step] = &[Step::Call(Call::Alloc, Answer::Page(0))];

// Caller 1 finds the node busy, and its hold is refused.
fn refused_steps(rt: &impl Abort, cell: &NodeCell, pass: Pass) -> Pass
    requires cell { pass.cell ≡ cell.now }
    requires caller { HasCaller pass 1 }
    ensures { Stays pass result }
{
    let mut pass = pass;
    expect_steps(rt, cell, &mut pass, 1, BUSY);
    refused_hold(rt, cell, pass)
}

// While caller 0 has the node for a hold, it is busy for caller 1.
fn released_after_busy(rt: &impl Abort, cell: &NodeCell, a: Pass, b: Pass) -> (Pass, Pass)
    requires a_cell { a.cell ≡ cell.now }
    requires b_cell { b.cell ≡ cell.now }
    requires b_caller { HasCaller b 1 }
    ensures a { Stays a result.0 }
    ensures b { Stays b result.1 }
{
    let hold = hold_node(rt, cell, a);
    let b = refused_steps(rt, cell, b);
    (cell.release(hold), b)
}

// Caller 1 allocates a page, and the passes are joined.
fn joined_after_allocation(rt: &impl Abort, cell: &NodeCell, a: Pass, b: Pass) -> Pass
    requires a_cell { a.cell ≡ cell.now }
    requires b_cell { b.cell ≡ cell.now }
    requires b_caller { HasCaller b 1 }
    requires adjacent { a.end ≡ b.first }
    ensures cell { result.cell ≡ a.cell }
    ensures callers { result.callers ≡ a.callers }
    ensures first { result.first ≡ a.first }
    ensures end { result.end ≡ b.end }
{
    let mut b = b;
    expect_steps(rt, cell, &mut b, 1, ALLOCATED);
    let pass = cell.join(a, b);
    assert!(rt; has_callers(&pass, 0, 2));
    pass
}

// The node of two callers after a hold of the first one and an allocation of the second.
fn node_after_hold(rt: &impl Abort, alloc: Global) -> Node {
    let (cell, pass) = cell_of(rt, alloc, 16, 2);
    let (a, b) = cell.split(pass, 1);
    let (a, b) = released_after_busy(rt, &cell, a, b);
    let pass = joined_after_allocation(rt, &cell, a, b);
    cell.finish(pass)
}

#[test]
fn busy_while_held(rt: HostRuntime) {
    assert!(rt; has_one_allocation(node_after_hold(&rt, rt.alloc()), 1, PageId(0)));
}

const ONE_QUEUED: &[Step] = &[Step::Queue(0)];

const COUNT_OF_ONE: &[Step] = &[Step::Count(1)];

const SCAN_OF_ONE: &[Step] = &[Step::Scan(8, [1, 1, 0, 0, 0, 0])];

const COUNT_OF_NONE: &[Step] = &[Step::Count(0)];

// Caller 1 counts the queue while another has the node for a hold.
fn released_after_count(rt: &impl Abort, cell: &NodeCell, a: Pass, b: &mut Pass) -> Pass
    requires a_cell { a.cell ≡ cell.now }
    requires b_cell { b.old.cell ≡ cell.now }
    requires b_caller { HasCaller b.old 1 }
    ensures a { Stays a result }
    ensures b { Stays b.old b.new }
{
    let hold = hold_node(rt, cell, a);
    expect_steps(rt, cell, b, 1, COUNT_OF_ONE);
    cell.release(hold)
}

fn expect_counts(rt: &impl Abort, cell: &NodeCell, a: Pass, b: &mut Pass)
    requires a_cell { a.cell ≡ cell.now }
    requires b_cell { b.old.cell ≡ cell.now }
    requires a_caller { HasCaller a 0 }
    requires b_caller { HasCaller b.old 1 }
{
    expect_steps(rt, cell, b, 1, ONE_QUEUED);
    let mut a = released_after_count(rt, cell, a, b);
    expect_steps(rt, cell, b, 1, SCAN_OF_ONE);
    expect_steps(rt, cell, &mut a, 0, COUNT_OF_NONE);
}

#[test]
fn count_while_held(rt: HostRuntime) {
    let (cell, pass) = cell_of(&rt, rt.alloc(), 16, 2);
    let (a, mut b) = cell.split(pass, 1);
    expect_counts(&rt, &cell, a, &mut b);
}

// Why there is no cell of this many callers.
fn fault_of(rt: &impl Abort, alloc: Global, callers: u32) -> Option<NewFault> {
    let node = Node::new(alloc, shape_of(16)).expect(rt, "a node");
    match NodeCell::new(alloc, node, callers) {
        Ok(_) => None,
        Err(fault) => Some(fault),
    }
}

// The same over a node on which one of three callers has allocated a page.
fn fault_of_used(rt: &impl Abort, alloc: Global) -> Option<NewFault> {
    let (cell, pass) = cell_of(rt, alloc, 16, 3);
    let mut pass = pass;
    expect_steps(rt, &cell, &mut pass, 2, ALLOCATED);
    match NodeCell::new(alloc, cell.finish(pass), 3) {
        Ok(_) => None,
        Err(fault) => Some(fault),
    }
}

// The same for the constructor that allows more than scripts do.
fn fault_of_many(rt: &impl Abort, alloc: Global, callers: u32) -> Option<NewFault> {
    let node = Node::new(alloc, shape_of(16)).expect(rt, "a node");
    match NodeCell::with_callers(alloc, node, callers) {
        Ok(_) => None,
        Err(fault) => Some(fault),
    }
}

#[test]
fn callers_of_any_cell(rt: HostRuntime) {
    expect_equal(
        &rt,
        fault_of_many(&rt, rt.alloc(), 0),
        Some(NewFault::BadSize),
    );
    expect_equal(&rt, fault_of_many(&rt, rt.alloc(), 65), None);
    expect_equal(&rt, fault_of_many(&rt, rt.alloc(), 4096), None);
    expect_equal(
        &rt,
        fault_of_many(&rt, rt.alloc(), 4097),
        Some(NewFault::BadSize),
    );
}

#[test]
fn limits_and_constructors(rt: HostRuntime) {
    expect_equal(&rt, fault_of(&rt, rt.alloc(), 0), Some(NewFault::BadSize));
    expect_equal(&rt, fault_of(&rt, rt.alloc(), 1), None);
    expect_equal(&rt, fault_of(&rt, rt.alloc(), 64), None);
    expect_equal(&rt, fault_of(&rt, rt.alloc(), 65), Some(NewFault::BadSize));
    expect_equal(&rt, fault_of_used(&rt, rt.alloc()), None);
}

const BAD_RANGE: Answer = Answer::Refused(Refusal::BadRange);

const NOT_PINNED: Answer = Answer::Refused(Refusal::NotPinned);

const CLOSED: Answer = Answer::Refused(Refusal::Closed);

const EVERY_PAGE_CALL: &[Step] = &[
    Step::Call(Call::Alloc, Answer::Page(0)),
    // the calls on the whole page
    Step::Call(Call::MapWhole(0), Answer::Done),
    Step::Call(Call::UnmapWhole(0), STAYS),
    // the calls by ranges, which queue the page: its first subpage is mapped, its second isn't
    Step::Call(Call::SplitPmd(0), Answer::Done),
    Step::Call(Call::UnmapSub(0, 0, 2), QUEUED),
    Step::Call(Call::MapSub(0, 0, 1), Answer::Done),
    // in 16 bits 65,536 would be 0
    Step::Call(Call::MapSub(0, 65_536, 1), BAD_RANGE),
    Step::Call(Call::Write(0, 0, 65_537), BAD_RANGE),
    Step::Call(Call::Pin(0), Answer::Done),
    Step::Call(Call::Unpin(0), STAYS),
    Step::Call(Call::Unpin(0), NOT_PINNED),
    // the close, and the last unmaps of a page that is mapped at its first subpage and from its third on
    Step::Call(Call::Close, Answer::Done),
    Step::Call(Call::Alloc, CLOSED),
    Step::Call(Call::UnmapSub(0, 0, 1), STAYS),
    Step::Call(Call::UnmapSub(0, 2, 510), FREED),
    Step::Count(0),
];

fn expect_page_calls(rt: &impl Abort, alloc: Global) {
    drop(node_of_one(rt, alloc, shape_of(2), EVERY_PAGE_CALL));
}

#[test]
fn every_page_call(rt: HostRuntime) {
    expect_page_calls(&rt, rt.alloc());
}

// Two callers take the pages 0 and 1, and page 2; the second frees page 1 before the first tries it.
const FREES_ACROSS_BATCHES: &[(u32, Step)] = &[
    (0, Step::Queue(0)),
    (0, Step::Queue(1)),
    (0, Step::Queue(2)),
    (0, Step::Take(2, 0, 1)),
    (1, Step::Take(8, 2, 2)),
    (1, Step::Call(Call::UnmapSub(1, 1, 511), FREED)),
    (1, Step::Call(Call::Pin(2), Answer::Done)),
    (1, Step::Pinned(2)),
    (0, Step::Split(0)),
    (0, Step::NoMore),
    (0, Step::PutBack(0)),
    (1, Step::PutBack(1)),
    (0, Step::Count(1)),
];

// After these steps the pages hold so many frames, and so many were given back.
fn expect_frames(rt: &impl Abort, alloc: Global, steps: &[(u32, Step)], held: u128, given: u128) {
    assert!(rt; has_frames(node_of_two(rt, alloc, steps), held, given));
}

#[test]
fn frees_across_batches(rt: HostRuntime) {
    expect_frames(&rt, rt.alloc(), FREES_ACROSS_BATCHES, 1023, 513);
}
