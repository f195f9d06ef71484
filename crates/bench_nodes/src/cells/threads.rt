//! Two and four threads, on one cell and on a cell each.
ghost use Rattle.std.specs.Prelude.{◌≡◌, ◌+◌, ◌<◌};
ghost use Rattle.std.specs.Thread.{IsSync};
ghost use Rattle.thp_cell.specs.Prelude.{HasCaller, HasAll, continuing};

use crate::cells::rounds::{Tally, cell_rounds, own_rounds};
use std::alloc::Global;
use std::thread::{self, Threads};
use thp_cell::{NodeCell, Pass};

/// A thread for each caller of a pass that has all callers of a cell: one, two or four.
pub(crate) fn all_on_one<R: Threads + Sync>(
    rt: &R,
    cell: &NodeCell,
    pass: Pass,
    rounds: u32,
) -> (Pass, Tally)
    requires cell { pass.cell ≡ cell.now }
    requires all { HasAll pass }
{
    let (_, threads) = pass.callers();
    match threads {
        2 => two_on_one(rt, cell, pass, rounds),
        4 => four_on_one(rt, cell, pass, rounds),
        _ => cell_rounds(cell, pass, 0, rounds),
    }
}

// Two threads on one cell.
fn two_on_one<R: Threads + Sync>(rt: &R, cell: &NodeCell, pass: Pass, rounds: u32) -> (Pass, Tally)
    requires cell { pass.cell ≡ cell.now }
    requires callers { pass.callers ≡ 2 }
    requires all { HasAll pass }
{
    let (left, right) = cell.split(pass, 1);
    let ((left, one), (right, two)) = pair(rt, cell, left, right, 0, rounds);
    (cell.join(left, right), one.with(two))
}

// Four threads on one cell.
fn four_on_one<R: Threads + Sync>(rt: &R, cell: &NodeCell, pass: Pass, rounds: u32) -> (Pass, Tally)
    requires cell { pass.cell ≡ cell.now }
    requires callers { pass.callers ≡ 4 }
    requires all { HasAll pass }
{
    let (low, high) = cell.split(pass, 2);
    let (a, b) = cell.split(low, 1);
    let (c, d) = cell.split(high, 3);
    let (((a, one), (b, two)), ((c, three), (d, four))) = thread::join(
        rt,
        move || -> ((Pass, Tally), (Pass, Tally))
            requires { IsSync R.row × (a.cell ≡ cell.now) × (b.cell ≡ cell.now) × HasCaller a 0 × HasCaller b 1 }
            ensures { (result.0.0 ≡ continuing a result.0.0) × (result.1.0 ≡ continuing b result.1.0) }
        { pair(rt, cell, a, b, 0, rounds) },
        move || -> ((Pass, Tally), (Pass, Tally))
            requires { IsSync R.row × (c.cell ≡ cell.now) × (d.cell ≡ cell.now) × HasCaller c 2 × HasCaller d 3 }
            ensures { (result.0.0 ≡ continuing c result.0.0) × (result.1.0 ≡ continuing d result.1.0) }
        { pair(rt, cell, c, d, 2, rounds) },
    );
    let low = cell.join(a, b);
    let high = cell.join(c, d);
    (cell.join(low, high), one.with(two).with(three.with(four)))
}

// Two threads, with two adjacent callers.
fn pair<R: Threads + Sync>(
    rt: &R,
    cell: &NodeCell,
    left: Pass,
    right: Pass,
    caller: u32,
    rounds: u32,
) -> ((Pass, Tally), (Pass, Tally))
    requires few { caller < 63 }
    requires left_cell { left.cell ≡ cell.now }
    requires right_cell { right.cell ≡ cell.now }
    requires left { HasCaller left caller }
    requires right { HasCaller right (caller + 1) }
    ensures left { result.0.0 ≡ continuing left result.0.0 }
    ensures right { result.1.0 ≡ continuing right result.1.0 }
{
    let next = caller + 1;
    thread::join(
        rt,
        move || cell_rounds(cell, left, caller, rounds),
        move || cell_rounds(cell, right, next, rounds),
    )
}

/// Two threads with a cell each.
pub(crate) fn two_apart<R: Threads + Sync>(rt: &R, alloc: Global, rounds: u32) -> Tally {
    let (one, two) = thread::join(
        rt,
        move || own_rounds(alloc, rounds),
        move || own_rounds(alloc, rounds),
    );
    one.with(two)
}

/// Four threads with a cell each.
pub(crate) fn four_apart<R: Threads + Sync>(rt: &R, alloc: Global, rounds: u32) -> Tally {
    let (one, two) = thread::join(
        rt,
        move || two_apart(rt, alloc, rounds),
        move || two_apart(rt, alloc, rounds),
    );
    one.with(two)
}
