//! Times of the calls of a shared node by one thread: the rounds that bench/calls makes from C.
ghost use Rattle.std.specs.Prelude.{◌≡◌};
ghost use Rattle.thp_cell.specs.Prelude.{continuing, HasCaller};
ghost use Rattle.thp_node.specs.Prelude.{IsInFront};

use crate::nodes::new_cell;
use crate::stopwatch::report_nanos;
use anyhow::{Context, Result};
use std::time::{CpuClock, Duration};
use thp_cell::{CellFault, NodeCell, Pass};
use thp_history::{Done, PageId};
use thp_node::Batch;

// Rounds on one cell, few enough that the growth of its journal affects none.
const EACH: u32 = 2500;

// Pages of a batch.
const BATCH: u32 = 8;

// What a round does to page 0, or to a batch of pinned pages.
#[derive(Clone, Copy)]
enum Round {
    Count,
    Refused,
    Pins,
    Maps,
    Batch,
}

// The name that bench/calls gives a round, and the round.
const KINDS: [(&str, Round); 5] = [
    ("a pass: count", Round::Count),
    ("a pass: pin, refused", Round::Refused),
    ("a pass: pin and unpin", Round::Pins),
    ("a pass: map_sub and unmap_sub, 1 subpage", Round::Maps),
    ("a pass: take, 8 split_next, put_back", Round::Batch),
];

/// Makes `rounds` rounds of each kind, or as many as one cell allows.
pub(crate) fn time_rounds<R: CpuClock + Eprint + AllocGlobal>(rt: &R, rounds: u32) -> Result<()> {
    for (what, round) in KINDS {
        time_one(rt, what, round, rounds)?;
    }
    Ok(())
}

// The time of rounds of one kind, on as many cells as they need.
fn time_one<R: CpuClock + Eprint + AllocGlobal>(
    rt: &R,
    what: &str,
    round: Round,
    rounds: u32,
) -> Result<()> {
    let (mut spent, mut sum) = (0u128, 0u64);
    let cells = (rounds / EACH).max(1);
    for _cell in 0..cells {
        let (lap, answers) = time_cell(rt, round)?;
        spent = spent.saturating_add(lap.as_nanos());
        sum = sum.wrapping_add(answers);
    }
    report_nanos(rt, what, cells.saturating_mul(EACH), spent, sum)
}

// The time of the rounds on a new cell, and the sum of their numbers.
fn time_cell<R: CpuClock + AllocGlobal>(rt: &R, round: Round) -> Result<(Duration, u64)> {
    let (cell, mut pass) = new_cell(rt.alloc(), 1).context("memory for a cell")?;
    time_rounds_on(rt, &cell, &mut pass, round)
}

// The same of this cell, with the pages of a batch queued first where the rounds try one.
fn time_rounds_on<R: CpuClock>(
    rt: &R,
    cell: &NodeCell,
    pass: &mut Pass,
    round: Round,
) -> Result<(Duration, u64)>
    requires cell { pass.old.cell ≡ cell.now }
    requires caller { HasCaller pass.old 0 }
{
    if let Round::Batch = round {
        queue_pinned(cell, pass);
    }
    let start = rt.thread_cpu_time()?;
    let mut sum = 0u64;
    for _round in 0..EACH {
        sum = sum.wrapping_add(once(cell, pass, round));
    }
    Ok((rt.thread_cpu_time()?.saturating_sub(start), sum))
}

// Queues and pins the pages of a batch.
fn queue_pinned(cell: &NodeCell, pass: &mut Pass)
    requires cell { pass.old.cell ≡ cell.now }
    requires caller { HasCaller pass.old 0 }
    ensures same { pass.new ≡ continuing pass.old pass.new }
{
    for page in 0..u64::from(BATCH) {
        let _new = cell.alloc_page(pass, 0);
        let _split = cell.split_pmd(pass, 0, PageId(page));
        let _queued = cell.unmap_sub(pass, 0, PageId(page), 0, 1);
        let _pinned = cell.pin(pass, 0, PageId(page));
    }
}

// One round, and a number computed from its result.
fn once(cell: &NodeCell, pass: &mut Pass, round: Round) -> u64
    requires cell { pass.old.cell ≡ cell.now }
    requires caller { HasCaller pass.old 0 }
    ensures same { pass.new ≡ continuing pass.old pass.new }
{
    match round {
        Round::Count => count(cell, pass),
        Round::Refused => refused(cell, pass),
        Round::Pins => pin_unpin(cell, pass),
        Round::Maps => map_unmap(cell, pass),
        Round::Batch => try_batch(cell, pass),
    }
}

#[inline(never)]
fn count(cell: &NodeCell, pass: &mut Pass) -> u64
    requires cell { pass.old.cell ≡ cell.now }
    requires caller { HasCaller pass.old 0 }
    ensures same { pass.new ≡ continuing pass.old pass.new }
{
    u64::from(cell.count(pass))
}

#[inline(never)]
fn refused(cell: &NodeCell, pass: &mut Pass) -> u64
    requires cell { pass.old.cell ≡ cell.now }
    requires caller { HasCaller pass.old 0 }
    ensures same { pass.new ≡ continuing pass.old pass.new }
{
    u64::from(cell.pin(pass, 0, PageId(7)).is_err())
}

#[inline(never)]
fn pin_unpin(cell: &NodeCell, pass: &mut Pass) -> u64
    requires cell { pass.old.cell ≡ cell.now }
    requires caller { HasCaller pass.old 0 }
    ensures same { pass.new ≡ continuing pass.old pass.new }
{
    let pinned = u64::from(cell.pin(pass, 0, PageId(0)).is_ok());
    pinned.wrapping_add(frames(cell.unpin(pass, 0, PageId(0))))
}

#[inline(never)]
fn map_unmap(cell: &NodeCell, pass: &mut Pass) -> u64
    requires cell { pass.old.cell ≡ cell.now }
    requires caller { HasCaller pass.old 0 }
    ensures same { pass.new ≡ continuing pass.old pass.new }
{
    let mapped = u64::from(cell.map_sub(pass, 0, PageId(0), 17, 1).is_ok());
    mapped.wrapping_add(frames(cell.unmap_sub(pass, 0, PageId(0), 17, 1)))
}

#[inline(never)]
fn try_batch(cell: &NodeCell, pass: &mut Pass) -> u64
    requires cell { pass.old.cell ≡ cell.now }
    requires caller { HasCaller pass.old 0 }
    ensures same { pass.new ≡ continuing pass.old pass.new }
{
    let Ok(mut batch) = cell.take(pass, 0, BATCH) else {
        return 0;
    };
    let tried = try_all(cell, pass, &mut batch);
    match cell.put_back(pass, batch) {
        Ok(reply) => tried.wrapping_add(u64::from(reply.back)),
        Err(_) => tried,
    }
}

// Tries each page of the batch.
fn try_all(cell: &NodeCell, pass: &mut Pass, batch: &mut Batch) -> u64
    requires cell { pass.old.cell ≡ cell.now }
    requires caller { HasCaller pass.old batch.old.caller }
    requires front { IsInFront pass.old.front batch.old }
    ensures same { pass.new ≡ continuing pass.old pass.new }
    ensures caller { batch.new.caller ≡ batch.old.caller }
    ensures front { IsInFront pass.new.front batch.new }
{
    let mut tried = 0u64;
    for _page in 0..BATCH {
        tried = tried.wrapping_add(u64::from(cell.split_next(pass, batch).is_ok()));
    }
    tried
}

// One word of the frames given back.
fn frames(answer: Result<Done, CellFault>) -> u64 {
    match answer {
        Ok(done) => done.released.word(0),
        Err(_) => 0,
    }
}
