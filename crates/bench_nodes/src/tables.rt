//! Times of the calls of links and pages, with few and with many entries, and of a node; and the sizes of their data.
mod blocks;
mod links;
mod node_calls;
mod one_page;

use anyhow::Result;
use std::mem::size_of;
use std::time::CpuClock;
use thp_history::{Event, What};
use thp_page::Page;

// The least number of blocks that is measured, and the greatest number of a node.
const SIZES: [u32; 2] = [16, 4096];

// The numbers of subpages that are unmapped, mapped or written at once.
const COUNTS: [u32; 3] = [1, 64, 512];

/// Prints the bytes of an event and of a page, and the times of `rounds` rounds, each with a sum of the calls' results, so that
/// no call can be optimised out.
pub(crate) fn time_all<R: CpuClock + Eprint + AllocGlobal>(rt: &R, rounds: u32) -> Result<()> {
    report_sizes(rt)?;
    time_tables(rt, rounds)?;
    time_pages(rt, rounds)?;
    node_calls::time_rounds(rt, rounds)
}

// The bytes that a journal stores per event, and a node per page.
fn report_sizes<R: Eprint>(rt: &R) -> Result<()> {
    let (event, what) = (size_of::<Event>(), size_of::<What>());
    eprintln!(rt; "Event: {event} bytes, of which What: {what} bytes")?;
    let page = size_of::<Page>();
    eprintln!(rt; "Page: {page} bytes")?;
    Ok(())
}

// Queues and look-ups.
fn time_tables<R: CpuClock + Eprint + AllocGlobal>(rt: &R, rounds: u32) -> Result<()> {
    for size in SIZES {
        links::time_front(rt, size, rounds)?;
        links::time_middle(rt, size, rounds)?;
    }
    for size in SIZES {
        blocks::time_block_of(rt, size, rounds)?;
    }
    Ok(())
}

// Unmaps, maps, writes and splits.
fn time_pages<R: CpuClock + Eprint>(rt: &R, rounds: u32) -> Result<()> {
    for count in COUNTS {
        one_page::time_range(rt, count, rounds)?;
        one_page::time_range_of_split_page(rt, count, rounds)?;
        one_page::time_writes(rt, count, rounds)?;
    }
    one_page::time_split_pmd(rt, rounds)?;
    one_page::time_split(rt, rounds)
}
