//! Times of the look-up of a page's block by its number.
ghost use Rattle.std.specs.Prelude.{◌≡◌, ◌<◌, length};

use crate::stopwatch::Stopwatch;
use crate::tables::links::after;
use anyhow::Result;
use std::alloc::{AllocError, Global};
use std::fmt::Display;
use std::time::CpuClock;
use thp_history::PageId;
use thp_page::PageTable;

// Numbers this far apart have the same low bits, so all their blocks are in one chain.
const ALIKE: u64 = 65_536;

// Numbers of pages by block: they increase by `apart` from each block to the next.
#[derive(Clone, Copy)]
struct Numbers {
    first: u64,
    apart: u64,
}

impl Numbers {
    fn at(self, block: u32) -> PageId {
        let above = u64::from(block).wrapping_mul(self.apart);
        PageId(self.first.wrapping_add(above))
    }
}

/// Looks up existing and missing numbers in a full table: in one with consecutive numbers, and in one whose numbers all have the
/// same low bits.
pub(crate) fn time_block_of<R: CpuClock + Eprint + AllocGlobal>(
    rt: &R,
    blocks: u32,
    rounds: u32,
) -> Result<()>
    requires { 0 < blocks }
{
    for (kind, apart) in [("in a row", 1), ("alike", ALIKE)] {
        time_kind(rt, blocks, rounds, kind, apart)?;
    }
    Ok(())
}

// The times of looking up the numbers of a full table, and as many numbers that it does not contain.
fn time_kind<R: CpuClock + Eprint + AllocGlobal>(
    rt: &R,
    blocks: u32,
    rounds: u32,
    kind: &str,
    apart: u64,
) -> Result<()>
    requires { 0 < blocks }
{
    let table = occupied(rt.alloc(), blocks, Numbers { first: 0, apart })?;
    let timed = time_both(rt, &table, blocks, rounds, kind, apart);
    drop(table);
    timed
}

// The same of this table.
fn time_both<R: CpuClock + Eprint>(
    rt: &R,
    table: &PageTable,
    blocks: u32,
    rounds: u32,
    kind: &str,
    apart: u64,
) -> Result<()>
    requires { 0 < blocks }
{
    let there = Numbers { first: 0, apart };
    let first = apart.wrapping_mul(u64::from(blocks));
    let others = Numbers { first, apart };
    let what = format_args!("block_of, {blocks} blocks, numbers {kind}, there");
    time_numbers(rt, table, blocks, there, rounds, what)?;
    let what = format_args!("block_of, {blocks} blocks, numbers {kind}, not there");
    time_numbers(rt, table, blocks, others, rounds, what)
}

// The time of looking up these numbers, printed with the text `what`.
fn time_numbers<R: CpuClock + Eprint, D: Display + Drop>(
    rt: &R,
    table: &PageTable,
    blocks: u32,
    numbers: Numbers,
    rounds: u32,
    what: D,
) -> Result<()>
    requires { 0 < blocks }
{
    let watch = Stopwatch::start(rt)?;
    let found = look_up(table, blocks, numbers, rounds);
    watch.report(rt, what, rounds, found)
}

// A table of this many blocks, each with a page.
fn occupied(alloc: Global, blocks: u32, numbers: Numbers) -> Result<PageTable, AllocError> {
    let mut table = PageTable::new(alloc, blocks, 9)?;
    for block in 0..blocks {
        let id = numbers.at(block);
        if table.block_of(id).is_none() && table.page(block).is_none() {
            table.place(block, id);
        }
    }
    Ok(table)
}

// How many look-ups find their page.
fn look_up(table: &PageTable, blocks: u32, numbers: Numbers, rounds: u32) -> u64
    requires { 0 < blocks }
{
    let mut found = 0u64;
    let mut block = 0;
    for _round in 0..rounds {
        let id = numbers.at(block);
        found = found.wrapping_add(u64::from(table.block_of(id).is_some()));
        block = after(block, blocks);
    }
    found
}
