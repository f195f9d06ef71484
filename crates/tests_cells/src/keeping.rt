//! Rows of passes that keep the node between their calls.
ghost use Rattle.std.specs.Prelude.{◌≡◌};
ghost use Rattle.thp_cell.specs.Prelude.{HasAll, HasCaller};
ghost use Rattle.tests_cells.specs.Passes.{Stays};

use crate::steps::{Step, cell_of, event_count, expect_steps, node_of_two};
use std::alloc::Global;
use std::process::Abort;
use tests_steps::{Answer, Call};
use thp_cell::{NodeCell, Pass};
use thp_history::Refusal;
use thp_node::Node;

const CLOSED: Answer = Answer::Refused(Refusal::Closed);

// The calls of caller 0 while it keeps the node, and those of caller 1 in the meantime: it finds the node busy, and its count is
// that of the time when the node was taken.
const BUSY_WHILE_KEPT: &[(u32, Step)] = &[
    (0, Step::Keep),
    (0, Step::Queue(0)),
    (0, Step::Keep),
    (0, Step::Queue(1)),
    (0, Step::Count(2)),
    (1, Step::Count(0)),
    (1, Step::Busy),
    (1, Step::NoKeep),
    (0, Step::Return),
    (0, Step::Return),
    (1, Step::Count(2)),
    (1, Step::Scan(8, [2, 2, 0, 0, 0, 0])),
    (0, Step::Count(0)),
];

// Makes the steps of the callers 0 and 1 on a new cell.
fn expect_on_new_cell(rt: &impl Abort, alloc: Global, steps: &[(u32, Step)]) {
    drop(node_of_two(rt, alloc, steps));
}

#[test]
fn busy_while_kept(rt: HostRuntime) {
    expect_on_new_cell(&rt, rt.alloc(), BUSY_WHILE_KEPT);
}

const KEPT_AND_QUEUED: &[Step] = &[Step::Keep, Step::Queue(0)];

// Takes a page, finds it pinned and puts it back.
const BATCH_WHILE_KEPT: &[Step] = &[
    Step::Keep,
    Step::Take(8, 0, 0),
    Step::Call(Call::Pin(0), Answer::Done),
    Step::Pinned(0),
    Step::PutBack(1),
];

const NOT_KEPT: &[Step] = &[Step::NoKeep];

const KEPT: &[Step] = &[Step::Keep];

const KEPT_AND_ALLOCATED: &[Step] = &[Step::Keep, Step::Call(Call::Alloc, Answer::Page(1))];

// The second of two passes has the node and keeps it.
fn expect_kept(rt: &impl Abort, cell: &NodeCell, a: &mut Pass, b: &mut Pass)
    requires a_cell { a.old.cell ≡ cell.now }
    requires b_cell { b.old.cell ≡ cell.now }
    requires a_caller { HasCaller a.old 0 }
    requires b_caller { HasCaller b.old 1 }
    ensures a { Stays a.old a.new }
    ensures b { Stays b.old b.new }
{
    expect_steps(rt, cell, b, 1, BATCH_WHILE_KEPT);
    expect_steps(rt, cell, a, 0, NOT_KEPT);
}

// The pass of two callers, which keeps the node, is divided, and its parts are joined while one of them keeps the node.
fn divided_and_joined(rt: &impl Abort, cell: &NodeCell, pass: Pass) -> Pass
    requires cell { pass.cell ≡ cell.now }
    requires all { HasAll pass }
    requires two { pass.callers ≡ 2 }
    ensures { Stays pass result }
{
    let mut pass = pass;
    expect_steps(rt, cell, &mut pass, 0, KEPT_AND_QUEUED);
    let (mut a, mut b) = cell.split(pass, 1);
    expect_kept(rt, cell, &mut a, &mut b);
    cell.join(a, b)
}

// The pass, which keeps the node, takes it for a hold and releases it.
fn held_and_released(rt: &impl Abort, cell: &NodeCell, pass: Pass) -> Pass
    requires cell { pass.cell ≡ cell.now }
    requires caller { HasCaller pass 0 }
    ensures { Stays pass result }
{
    let mut pass = pass;
    expect_steps(rt, cell, &mut pass, 0, KEPT);
    let Ok(hold) = cell.hold(pass) else {
        panic!(rt; "no other pass has the node");
    };
    cell.release(hold)
}

// The node of a cell that ends while the pass keeps it.
fn node_let_go(rt: &impl Abort, alloc: Global) -> Node {
    let (cell, pass) = cell_of(rt, alloc, 16, 2);
    let pass = divided_and_joined(rt, &cell, pass);
    let mut pass = held_and_released(rt, &cell, pass);
    expect_steps(rt, &cell, &mut pass, 1, KEPT_AND_ALLOCATED);
    cell.finish(pass)
}

// A division, a join, a hold and the end of the cell release a node that is kept.
#[test]
fn let_go_by_division_join_and_end(rt: HostRuntime) {
    // two allocations, a split mapping, an unmap, a pin, and the batch's three
    assert!(rt; event_count(node_let_go(&rt, rt.alloc())) == 8);
}

const FREE_AFTER_A_CLOSE: &[(u32, Step)] = &[
    (0, Step::Call(Call::Close, Answer::Done)),
    (0, Step::Call(Call::Close, CLOSED)),
    (1, Step::Call(Call::Alloc, CLOSED)),
];

// A close that is refused leaves the node to others.
#[test]
fn free_after_a_refused_close(rt: HostRuntime) {
    expect_on_new_cell(&rt, rt.alloc(), FREE_AFTER_A_CLOSE);
}

const FREE_AFTER_SCAN_AND_TAKE: &[(u32, Step)] = &[
    (0, Step::Queue(0)),
    (0, Step::Take(8, 0, 0)),
    (0, Step::NoScan),
    (1, Step::Call(Call::Alloc, Answer::Page(1))),
    (0, Step::NoTake),
    (1, Step::Call(Call::Alloc, Answer::Page(2))),
];

// So do a scan and a take that are refused, since the caller has a batch.
#[test]
fn free_after_a_refused_scan_and_take(rt: HostRuntime) {
    expect_on_new_cell(&rt, rt.alloc(), FREE_AFTER_SCAN_AND_TAKE);
}

const BUSY_THROUGH_CLOSE: &[(u32, Step)] = &[
    (0, Step::Keep),
    (0, Step::Call(Call::Close, Answer::Done)),
    (1, Step::Busy),
    (0, Step::Scan(8, [0, 0, 0, 0, 0, 0])),
    (1, Step::Busy),
];

// A node that is kept stays so through calls that are done.
#[test]
fn busy_through_close_and_scan(rt: HostRuntime) {
    expect_on_new_cell(&rt, rt.alloc(), BUSY_THROUGH_CLOSE);
}

const KEPT_AND_RETURNED: &[Step] = &[Step::Keep, Step::Queue(0), Step::Return];

// A pass of two of three callers keeps the node and returns it; then that of the third keeps it.
#[test]
fn kept_by_two_of_three(rt: HostRuntime) {
    let (cell, pass) = cell_of(&rt, rt.alloc(), 16, 3);
    let (mut a, mut b) = cell.split(pass, 2);
    expect_steps(&rt, &cell, &mut a, 1, KEPT_AND_RETURNED);
    expect_steps(&rt, &cell, &mut b, 2, KEPT_AND_ALLOCATED);
    let pass = cell.join(a, b);
    // two allocations, a split mapping, an unmap
    assert!(rt; event_count(cell.finish(pass)) == 4);
}
