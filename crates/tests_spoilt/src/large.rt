//! Histories larger than any limit that a node or the check could have invented, beyond the size of an input.
use std::alloc::Global;
use std::process::Abort;
use thp_check::{CheckFault, Replay, check};
use thp_history::{Event, Outcome, PageId, Shape, SubSet, What};
use thp_journal_reader::LeastBlocks;
use thp_live_pages::PageStore;
use thp_node::Node;

const SHAPE: Shape = Shape {
    blocks: 4096,
    order: 9,
    underused: None,
};

/// Whether an allocation has a page of this number, which is freed again.
fn is_numbered(node: &mut Node, number: u64) -> bool {
    match node.alloc_page(0) {
        Ok(page) => page.0 == number && node.unmap_whole(0, page).is_ok(),
        Err(_) => false,
    }
}

fn node_of_one_block(alloc: Global) -> Option<Node> {
    Node::new(alloc, Shape { blocks: 1, ..SHAPE }).ok()
}

fn expect_two_million_pages(rt: &impl Abort, node: &mut Node) {
    for number in 0..2_100_000 {
        assert!(rt; is_numbered(node, number));
    }
    assert!(rt; node.allocations() == 2_100_000);
    assert!(rt; node.journal().len() == 4_200_000);
}

/// More than 2^21 pages, one after the other in one block, and more than 2^22 events.
#[test]
fn two_million_pages(rt: HostRuntime) {
    let mut node = node_of_one_block(rt.alloc()).expect(&rt, "a node");
    expect_two_million_pages(&rt, &mut node);
    drop(node);
}

/// A page in each of 4,096 blocks, by a caller of its own, far beyond those that a node has, and one page more.
fn is_full_history_reported(alloc: Global) -> Option<bool> {
    let mut events = Vec::new(alloc);
    for number in 0..4_097u32 {
        let what = What::Alloc {
            page: PageId(u64::from(number)),
            block: number % 4_096,
        };
        events
            .push(Event {
                caller: u32::MAX - number,
                what,
            })
            .ok()?;
    }
    let fault = check(alloc, SHAPE, events.as_slice());
    let _ = events.pop();
    let is_full = check(alloc, SHAPE, events.as_slice()).is_ok();
    Some(is_full && matches!(fault, Err(CheckFault::Illegal(4_096))))
}

#[test]
fn a_full_history_of_many_callers(rt: HostRuntime) {
    assert!(rt; is_full_history_reported(rt.alloc()) == Some(true));
}

/// More blocks than a node may have: the checks take a node of any number of blocks.
const MANY_BLOCKS: Shape = Shape {
    blocks: 70_000,
    order: 2,
    underused: None,
};

/// The allocation of a page in the block of its number.
fn allocation(number: u32) -> Event {
    Event {
        caller: 0,
        what: What::Alloc {
            page: PageId(u64::from(number)),
            block: number,
        },
    }
}

/// Whether the check refuses one page more than there are blocks.
fn is_full_history_of_many_blocks_reported(alloc: Global) -> Option<bool> {
    let mut events = Vec::new(alloc);
    for number in 0..70_001u32 {
        events.push(allocation(number)).ok()?;
    }
    let fault = check(alloc, MANY_BLOCKS, events.as_slice());
    Some(matches!(fault, Err(CheckFault::Illegal(70_000))))
}

#[test]
fn a_check_of_many_blocks(rt: HostRuntime) {
    assert!(rt; is_full_history_of_many_blocks_reported(rt.alloc()) == Some(true));
}

/// Whether a replay admits as many pages as there are blocks.
fn is_replayed(alloc: Global) -> Option<bool> {
    let mut replay = Replay::new(alloc, MANY_BLOCKS).ok()?;
    for number in 0..70_000u32 {
        replay = replay.admit(&allocation(number)).ok()?;
    }
    Some(replay.allocations() == 70_000)
}

#[test]
fn a_replay_of_many_blocks(rt: HostRuntime) {
    assert!(rt; is_replayed(rt.alloc()) == Some(true));
}

#[test]
fn a_store_of_many_blocks(rt: HostRuntime) {
    assert!(rt; PageStore::new(rt.alloc(), MANY_BLOCKS).is_ok());
}

/// Whether the page gets block 0, and gives it back.
fn is_first_block(blocks: &mut LeastBlocks, number: u64) -> bool {
    let page = PageId(number);
    let taken = Event {
        caller: 0,
        what: What::Alloc { page, block: 7 },
    };
    let freed = Event {
        caller: 0,
        what: What::UnmapWhole {
            page,
            outcome: Outcome::Freed,
            released: SubSet::empty(),
        },
    };
    let is_first = matches!(
        blocks.place(taken),
        Ok(Event {
            what: What::Alloc { block: 0, .. },
            ..
        })
    );
    is_first && blocks.place(freed).is_ok()
}

/// More than 2^22 allocations, each freed before the next one.
#[test]
fn least_blocks_of_four_million_pages(rt: HostRuntime) {
    let mut blocks = LeastBlocks::new(rt.alloc(), SHAPE).expect(&rt, "blocks");
    for number in 0..4_200_000 {
        assert!(rt; is_first_block(&mut blocks, number));
    }
}
