//! Times of the calls of a shared node: next to those of a bare node, with 1, 2 and 4 threads, on one cell and on a cell each.
//!
//! A round is a pin and an unpin of the thread's own page. A call that finds the node busy is counted and not repeated. Times of
//! single calls by one thread follow.
ghost use Rattle.std.specs.Prelude.{◌≡◌};
ghost use Rattle.thp_cell.specs.Prelude.{HasAll};

mod pass_calls;
mod rounds;
mod threads;

use crate::cells::rounds::{Tally, bare_rounds};
use crate::nodes::new_cell;
use anyhow::{Context, Result};
use std::fmt::Display;
use std::thread::Threads;
use std::time::{Clock, CpuClock, Instant};
use thp_cell::{NodeCell, Pass};

/// Makes `rounds` rounds in each thread.
pub(crate) fn time_all<R: Clock + CpuClock + Eprint + AllocGlobal + Threads + Sync>(
    rt: &R,
    rounds: u32,
) -> Result<()> {
    time_bare(rt, rounds)?;
    time_on_one(rt, 1, "one thread, through a cell", rounds)?;
    time_on_one(rt, 2, "two threads, one cell", rounds)?;
    time_on_one(rt, 4, "four threads, one cell", rounds)?;
    time_cell_each(rt, rounds)?;
    pass_calls::time_rounds(rt, rounds)
}

// One thread on a bare node.
fn time_bare<R: Clock + Eprint + AllocGlobal>(rt: &R, rounds: u32) -> Result<()> {
    let start = Instant::now(rt)?;
    let tally = bare_rounds(rt.alloc(), rounds).context("memory for a node")?;
    report(rt, "a bare node", start, tally)
}

// So many threads on one cell.
fn time_on_one<R: Clock + Eprint + AllocGlobal + Threads + Sync>(
    rt: &R,
    threads: u32,
    what: &str,
    rounds: u32,
) -> Result<()> {
    let (cell, pass) = new_cell(rt.alloc(), threads).context("memory for a cell")?;
    time_threads(rt, &cell, pass, what, rounds)
}

// A thread for each caller of the pass, which has all callers of the cell.
fn time_threads<R: Clock + Eprint + Threads + Sync>(
    rt: &R,
    cell: &NodeCell,
    pass: Pass,
    what: &str,
    rounds: u32,
) -> Result<()>
    requires cell { pass.cell ≡ cell.now }
    requires all { HasAll pass }
{
    let start = Instant::now(rt)?;
    let (_pass, tally) = threads::all_on_one(rt, cell, pass, rounds);
    report(rt, what, start, tally)
}

// Two and four threads with a cell each.
fn time_cell_each<R: Clock + Eprint + AllocGlobal + Threads + Sync>(
    rt: &R,
    rounds: u32,
) -> Result<()> {
    let start = Instant::now(rt)?;
    let tally = threads::two_apart(rt, rt.alloc(), rounds);
    report(rt, "two threads, a cell each", start, tally)?;

    let start = Instant::now(rt)?;
    let tally = threads::four_apart(rt, rt.alloc(), rounds);
    report(rt, "four threads, a cell each", start, tally)
}

// Prints the number of successful calls per second, and the number of those that found the node busy, on standard error.
fn report<R: Clock + Eprint, D: Display + Drop>(
    rt: &R,
    what: D,
    start: Instant,
    tally: Tally,
) -> Result<()> {
    let spent = start.elapsed(rt)?.as_nanos().max(1);
    let rate = u128::from(tally.done).saturating_mul(1_000_000_000) / spent;
    let Tally { done, busy } = tally;
    eprintln!(rt; "{what}: {rate} calls a second ({done} answered, {busy} busy)")?;
    Ok(())
}
