//! Times of the calls of a bare node: the rounds that bench/calls makes from C and in plain Rust.

use crate::nodes::new_node;
use crate::stopwatch::report_nanos;
use anyhow::{Context, Result};
use std::alloc::Global;
use std::time::{CpuClock, Duration};
use thp_history::PageId;
use thp_node::{Done, Node, Refusal};

// Rounds on one node, few enough that none waits for fresh memory; and the greatest number of events of a round.
const EACH: u32 = 250;

const EVENTS: u32 = 3 * BATCH;

// Pages of a batch.
const BATCH: u32 = 8;

// What a round does to page 0, to a page of its own, or to a batch of pinned pages.
#[derive(Clone, Copy)]
enum Round {
    Count,
    Refused,
    Pins,
    MapOne,
    MapSome,
    MapAll,
    Life,
    Batch,
}

// The name that bench/calls gives a round, and the round.
const KINDS: [(&str, Round); 8] = [
    ("queue_length", Round::Count),
    ("pin, refused: no such page", Round::Refused),
    ("pin and unpin", Round::Pins),
    ("map_sub and unmap_sub, 1 subpage", Round::MapOne),
    ("map_sub and unmap_sub, 64", Round::MapSome),
    ("map_sub and unmap_sub, 512", Round::MapAll),
    (
        "alloc, split_pmd, unmap_sub 256, scan, unmap_sub 256",
        Round::Life,
    ),
    ("take, 8 split_next, put_back", Round::Batch),
];

/// Makes `rounds` rounds of each kind.
pub(crate) fn time_rounds<R: CpuClock + Eprint + AllocGlobal>(rt: &R, rounds: u32) -> Result<()> {
    for (what, round) in KINDS {
        time_one(rt, what, round, rounds)?;
    }
    Ok(())
}

// The time of rounds of one kind, on as many nodes as they need.
fn time_one<R: CpuClock + Eprint + AllocGlobal>(
    rt: &R,
    what: &str,
    round: Round,
    rounds: u32,
) -> Result<()> {
    let (mut spent, mut sum) = (0u128, 0u64);
    for _node in 0..rounds / EACH {
        let (lap, answers) = time_node(rt, round)?;
        spent = spent.saturating_add(lap.as_nanos());
        sum = sum.wrapping_add(answers);
    }
    report_nanos(rt, what, rounds / EACH * EACH, spent, sum)
}

// The time of the rounds on a node, and the sum of their numbers.
fn time_rounds_on<R: CpuClock>(rt: &R, node: &mut Node, round: Round) -> Result<(Duration, u64)> {
    let start = rt.thread_cpu_time()?;
    let mut sum = 0u64;
    for _round in 0..EACH {
        sum = sum.wrapping_add(once(node, round));
    }
    Ok((rt.thread_cpu_time()?.saturating_sub(start), sum))
}

// The same of a new node.
fn time_node<R: CpuClock + AllocGlobal>(rt: &R, round: Round) -> Result<(Duration, u64)> {
    let mut node = made(rt.alloc(), round)?;
    let lap = time_rounds_on(rt, &mut node, round);
    drop(node);
    lap
}

// A node with room for the events of its rounds, with page 0 mapped whole once, or with pages that are queued and pinned.
fn made(alloc: Global, round: Round) -> Result<Node> {
    let mut node = new_node(alloc).context("memory for a node")?;
    fill(&mut node, round);
    Ok(node)
}

fn fill(node: &mut Node, round: Round) {
    let pages = match round {
        Round::Batch => u64::from(BATCH),
        _ => 1,
    };
    let _room = node.reserve(EACH * EVENTS + 5 * BATCH);
    for page in 0..pages {
        let _new = node.alloc_page(0);
        if let Round::Batch = round {
            let _split = node.split_pmd(0, PageId(page));
            let _queued = node.unmap_sub(0, PageId(page), 0, 1);
            let _pinned = node.pin(0, PageId(page));
        }
    }
}

// One round, and a number computed from its result.
fn once(node: &mut Node, round: Round) -> u64 {
    match round {
        Round::Count => count(node),
        Round::Refused => refused(node),
        Round::Pins => pin_unpin(node),
        Round::MapOne => one_subpage(node),
        Round::MapSome => some_subpages(node),
        Round::MapAll => all_subpages(node),
        Round::Life => live(node),
        Round::Batch => try_batch(node),
    }
}

#[inline(never)]
fn count(node: &mut Node) -> u64 {
    u64::from(node.queue_len())
}

#[inline(never)]
fn refused(node: &mut Node) -> u64 {
    u64::from(node.pin(0, PageId(7)).is_err())
}

#[inline(never)]
fn pin_unpin(node: &mut Node) -> u64 {
    let pinned = u64::from(node.pin(0, PageId(0)).is_ok());
    pinned.wrapping_add(frames(node.unpin(0, PageId(0))))
}

#[inline(never)]
fn one_subpage(node: &mut Node) -> u64 {
    map_unmap(node, 17, 1)
}

#[inline(never)]
fn some_subpages(node: &mut Node) -> u64 {
    map_unmap(node, 17, 64)
}

#[inline(never)]
fn all_subpages(node: &mut Node) -> u64 {
    map_unmap(node, 0, 512)
}

fn map_unmap(node: &mut Node, first: u32, count: u32) -> u64 {
    let mapped = u64::from(node.map_sub(0, PageId(0), first, count).is_ok());
    mapped.wrapping_add(frames(node.unmap_sub(0, PageId(0), first, count)))
}

#[inline(never)]
fn live(node: &mut Node) -> u64 {
    let Ok(page) = node.alloc_page(0) else {
        return 0;
    };
    let split = u64::from(node.split_pmd(0, page).is_ok());
    let first = frames(node.unmap_sub(0, page, 0, 256));
    let scanned = match node.scan(0, 1) {
        Ok(reply) => u64::from(reply.split),
        Err(_) => 0,
    };
    let last = frames(node.unmap_sub(0, page, 256, 256));
    split
        .wrapping_add(first)
        .wrapping_add(scanned)
        .wrapping_add(last)
}

#[inline(never)]
fn try_batch(node: &mut Node) -> u64 {
    let Ok(mut batch) = node.take(0, BATCH) else {
        return 0;
    };
    let mut tried = 0u64;
    for _page in 0..BATCH {
        tried = tried.wrapping_add(u64::from(node.split_next(&mut batch).is_ok()));
    }
    match node.put_back(batch) {
        Ok(reply) => tried.wrapping_add(u64::from(reply.back)),
        Err(_) => tried,
    }
}

// One word of the frames given back.
fn frames(answer: Result<Done, Refusal>) -> u64 {
    match answer {
        Ok(done) => done.released.word(0),
        Err(_) => 0,
    }
}
