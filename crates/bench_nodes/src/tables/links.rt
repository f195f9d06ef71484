//! Times of a queue that is linked through a table of pages.
ghost use Rattle.std.specs.Prelude.{◌≡◌, ℕ, ◌<◌, length, Contains, IfOk};
ghost use Rattle.thp_links.specs.Prelude.{Stands};

use crate::stopwatch::Stopwatch;
use anyhow::Result;
use std::alloc::{AllocError, Global};
use std::time::CpuClock;
use thp_links::{LinkTable, Queue};
use thp_page::PageTable;

// The distance from one block that is removed from the queue to the next.
const STEP: u32 = 5;

/// Removes the oldest block and appends it again, with a queue of this many blocks.
pub(crate) fn time_front<R: CpuClock + Eprint + AllocGlobal>(
    rt: &R,
    blocks: u32,
    rounds: u32,
) -> Result<()> {
    let (mut table, mut queue) = filled(rt.alloc(), blocks)?;
    let timed = time_rotations(rt, &mut table, &mut queue, blocks, rounds);
    drop(table);
    timed
}

// The time of removing and appending the oldest block of this queue.
fn time_rotations<R: CpuClock + Eprint>(
    rt: &R,
    table: &mut PageTable,
    queue: &mut Queue,
    blocks: u32,
    rounds: u32,
) -> Result<()>
    requires { Stands queue.old table.old.links }
{
    let watch = Stopwatch::start(rt)?;
    let mut sum = 0u64;
    for _round in 0..rounds {
        if let Some(i) = rotate(table, queue) {
            sum = sum.wrapping_add(u64::from(i));
        }
    }
    let what = format_args!("pop_front and push_back, {blocks} blocks");
    watch.report(rt, what, rounds, sum)
}

// Removes the oldest block and appends it to the queue.
fn rotate(table: &mut PageTable, queue: &mut Queue) -> Option<u32>
    requires { Stands queue.old table.old.links }
    ensures { Stands queue.new table.new.links }
{
    let i = queue.pop_front(table)?;
    queue.push_back(table, i);
    Some(i)
}

/// Removes a block from the middle and appends it again, with a queue of this many blocks.
pub(crate) fn time_middle<R: CpuClock + Eprint + AllocGlobal>(
    rt: &R,
    blocks: u32,
    rounds: u32,
) -> Result<()>
    requires { 0 < blocks }
{
    let (mut table, mut queue) = filled(rt.alloc(), blocks)?;
    let timed = time_returns(rt, &mut table, &mut queue, blocks, rounds);
    drop(table);
    timed
}

// The time of removing blocks from the middle of this queue, which has all blocks, and appending them.
fn time_returns<R: CpuClock + Eprint>(
    rt: &R,
    table: &mut PageTable,
    queue: &mut Queue,
    blocks: u32,
    rounds: u32,
) -> Result<()>
    requires some { 0 < blocks }
    requires size { length table.old.links ≡ blocks }
    requires stands { Stands queue.old table.old.links }
    requires all { (i : ℕ) → i < blocks → Contains queue.old i }
{
    let watch = Stopwatch::start(rt)?;
    let mut sum = 0u64;
    let mut i = 0;
    for _round in 0..rounds {
        queue.remove(table, i);
        queue.push_back(table, i);
        sum = sum.wrapping_add(u64::from(queue.len()));
        i = after(i, blocks);
    }
    let what = format_args!("remove and push_back, {blocks} blocks");
    watch.report(rt, what, rounds, sum)
}

// The block to be removed after this one.
pub(crate) fn after(i: u32, blocks: u32) -> u32
    requires { 0 < blocks }
    ensures { result < blocks }
{
    let next = i.saturating_add(STEP);
    if next < blocks { next } else { 0 }
}

// A table of this many blocks, all of them in the queue.
fn filled(alloc: Global, blocks: u32) -> Result<(PageTable, Queue), AllocError>
    ensures size { IfOk result (λ r. length r.0.links ≡ blocks) }
    ensures stands { IfOk result (λ r. Stands r.1 r.0.links) }
    ensures all { IfOk result (λ r. (i : ℕ) → i < blocks → Contains r.1 i) }
{
    let mut table = PageTable::new(alloc, blocks, 9)?;
    let mut queue = Queue::new();
    for i in 0..blocks {
        queue.push_back(&mut table, i);
    }
    Ok((table, queue))
}
