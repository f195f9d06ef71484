//! Two concurrent threads on one cell.
ghost use Rattle.std.specs.Prelude.{◌≡◌};
ghost use Rattle.thp_cell.specs.Prelude.{HasAll, HasCaller, continuing};
ghost use Rattle.tests_cells.specs.Passes.{Stays};

use crate::steps::{cell_of, is_allocation};
use std::alloc::Global;
use std::process::Abort;
use std::thread;
use std::thread::Threads;
use thp_cell::{NodeCell, Pass};
use thp_history::{Event, PageId};
use thp_node::Node;

// Allocates 20 pages, or gives up after 50,000,000 calls.
fn allocate_20(cell: &NodeCell, pass: Pass, caller: u32) -> (Pass, u32)
    requires cell { pass.cell ≡ cell.now }
    requires caller { HasCaller pass caller }
    ensures same { result.0 ≡ continuing pass result.0 }
{
    let mut pass = pass;
    let mut pages = 0;
    for _ in 0..50_000_000 {
        if pages == 20 {
            break;
        }
        if let Ok(_) = cell.alloc_page(&mut pass, caller) {
            pages += 1;
        }
    }
    (pass, pages)
}

// The events are 40 allocations, in the order of the pages' numbers, and 20 of them by caller 1.
fn are_40_allocations(events: &[Event]) -> bool {
    let mut by_caller_1 = 0u32;
    for (number, event) in events.iter().enumerate() {
        if !is_allocation(event, event.caller, PageId(number as u64)) {
            return false;
        }
        if event.caller == 1 {
            by_caller_1 = by_caller_1.wrapping_add(1);
        }
    }
    events.len() == 40 && by_caller_1 == 20
}

// Each of both threads has allocated its pages.
fn are_done(of_a: u32, of_b: u32) -> bool {
    of_a == 20 && of_b == 20
}

// Two threads allocate concurrently, with the callers 0 and 1.
fn allocate_in_pairs<R: Threads + Sync>(
    rt: &R,
    cell: &NodeCell,
    a: Pass,
    b: Pass,
) -> ((Pass, u32), (Pass, u32))
    requires a_cell { a.cell ≡ cell.now }
    requires b_cell { b.cell ≡ cell.now }
    requires a_caller { HasCaller a 0 }
    requires b_caller { HasCaller b 1 }
    ensures a { result.0.0 ≡ continuing a result.0.0 }
    ensures b { result.1.0 ≡ continuing b result.1.0 }
{
    thread::join(
        rt,
        move || allocate_20(cell, a, 0),
        move || allocate_20(cell, b, 1),
    )
}

// The pass of two callers after both threads have allocated their pages.
fn allocated_by_two<R: Threads + Sync + Abort>(rt: &R, cell: &NodeCell, pass: Pass) -> Pass
    requires cell { pass.cell ≡ cell.now }
    requires all { HasAll pass }
    requires two { pass.callers ≡ 2 }
    ensures { Stays pass result }
{
    let (a, b) = cell.split(pass, 1);
    let ((a, pages_of_a), (b, pages_of_b)) = allocate_in_pairs(rt, cell, a, b);
    assert!(rt; are_done(pages_of_a, pages_of_b));
    cell.join(a, b)
}

// The node after both threads have allocated their pages.
fn node_of_two_threads<R: Threads + Sync + Abort>(rt: &R, alloc: Global) -> Node {
    let (cell, pass) = cell_of(rt, alloc, 64, 2);
    let pass = allocated_by_two(rt, &cell, pass);
    cell.finish(pass)
}

#[test]
fn two_threads_allocate(rt: HostRuntime) {
    let node = node_of_two_threads(&rt, rt.alloc());
    assert!(rt; are_40_allocations(node.journal()));
    drop(node);
}
