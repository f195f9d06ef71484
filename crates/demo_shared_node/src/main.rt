//! An example of a node that two threads share.
//!
//! Both threads allocate pages and unmap half of each, concurrently. Afterwards the program takes the node out of its cell,
//! shrinks its deferred split queue, and prints the totals, which do not depend on the schedule. The contracts of the library
//! guarantee the effect of each call, and that the node's journal is one legal history of all calls of both threads. This
//! program's proof shows that it makes each call as required.
#![tactic(auto)]

ghost use Rattle.std.specs.Prelude.{◌≡◌, []};
ghost use Rattle.thp_cell.specs.Prelude.{continuing, HasCaller};

use anyhow::{Context, Result};
use std::thread::{self, Threads};
use thp_cell::{CellFault, Node, NodeCell, PageId, Pass, Shape};

// The number of pages that each thread allocates.
const PAGES: u32 = 20;

// The number of times that a call is made before a thread gives up, if the other thread has the node each time.
const TRIES: u32 = 50_000_000;

fn main(rt: HostRuntime) -> Result<()> {
    let mut node = used_node(&rt)?;
    let shrunk = shrink(&rt, &mut node);
    drop(node);
    shrunk
}

/// A node of 64 blocks after two threads have used it.
fn used_node<R: Threads + AllocGlobal>(rt: &R) -> Result<Node> {
    let shape = Shape {
        blocks: 64,
        order: 9,
        underused: None,
    };
    let node = Node::new(rt.alloc(), shape).ok().context("no node")?;
    used_by_two(rt, node).context("no cell")
}

/// Shrinks the node's deferred split queue, and prints the totals.
fn shrink<R: Print>(rt: &R, node: &mut Node) -> Result<()> {
    let queued = node.queue_len();
    let scan = node.scan(0, 2 * PAGES).ok().context("no scan")?;
    print_totals(
        rt,
        queued,
        scan.split,
        node.frames_given(),
        node.frames_held(),
    )
}

/// Prints what was queued and split, and the frames given back and held.
fn print_totals<R: Print>(rt: &R, queued: u32, split: u32, given: u128, held: u128) -> Result<()> {
    let totals = [
        ("pages queued", u128::from(queued)),
        ("pages split", u128::from(split)),
        ("frames given back", given),
        ("frames held", held),
    ];
    for (what, total) in totals {
        println!(rt; "{what}: {total}")?;
    }
    Ok(())
}

/// Lets two threads use a new node concurrently, and returns the node.
fn used_by_two<R: Threads + AllocGlobal>(rt: &R, node: Node) -> Option<Node>
    requires { node.journal ≡ [] }
{
    let (cell, pass) = NodeCell::new(rt.alloc(), node, 2).ok()?;
    let (first, second) = cell.split(pass, 1);
    let shared = &cell;
    let (first, second) = thread::join(
        rt,
        move || use_pages(shared, first, 0),
        move || use_pages(shared, second, 1),
    );
    let pass = cell.join(first, second);
    Some(cell.finish(pass))
}

/// Allocates pages and leaves half of each in use, so that they join the deferred split queue.
fn use_pages(cell: &NodeCell, pass: Pass, caller: u32) -> Pass
    requires cell { pass.cell ≡ cell.now }
    requires caller { HasCaller pass caller }
    ensures { result ≡ continuing pass result }
{
    let mut pass = pass;
    for _ in 0..PAGES {
        if let Some(page) = allocate(cell, &mut pass, caller) {
            unmap_half(cell, &mut pass, caller, page);
        }
    }
    pass
}

/// Allocates a page, once the node is not busy; `None` if the thread gives up.
fn allocate(cell: &NodeCell, pass: &mut Pass, caller: u32) -> Option<PageId>
    requires cell { pass.old.cell ≡ cell.now }
    requires caller { HasCaller pass.old caller }
    ensures { pass.new ≡ continuing pass.old pass.new }
{
    for _ in 0..TRIES {
        match cell.alloc_page(pass, caller) {
            Ok(page) => return Some(page),
            Err(CellFault::Busy) => {}
            Err(CellFault::Refused(_)) => return None,
        }
    }
    None
}

/// Splits the PMD mapping of a page and unmaps its first half, once the node is not busy.
fn unmap_half(cell: &NodeCell, pass: &mut Pass, caller: u32, page: PageId)
    requires cell { pass.old.cell ≡ cell.now }
    requires caller { HasCaller pass.old caller }
    ensures { pass.new ≡ continuing pass.old pass.new }
{
    for _ in 0..TRIES {
        if cell.split_pmd(pass, caller, page) != Err(CellFault::Busy) {
            break;
        }
    }
    for _ in 0..TRIES {
        if cell.unmap_sub(pass, caller, page, 0, 256) != Err(CellFault::Busy) {
            break;
        }
    }
}
