//! The blocks that a reader gives the pages of a journal.
use crate::equal::expect_equal;
use std::alloc::Global;
use std::process::Abort;
use thp_history::{Event, What};
use thp_journal_reader::{ReadNode, read_journal};

/// The block of the allocation at an index, `None` if that is no allocation.
fn block_at(node: &ReadNode, place: usize) -> Option<u32> {
    match node.events.as_slice().get(place) {
        Some(
            Event {
                what: What::Alloc { block, .. },
                ..
            },
        ) => Some(*block),
        _ => None,
    }
}

// The events of the first node have these blocks, `None` where an event is no allocation.
fn expect_first_node(rt: &impl Abort, nodes: &[ReadNode], blocks: &[Option<u32>]) {
    let Some(node) = nodes.first() else {
        assert!(rt; false, "a node");
        return;
    };
    assert!(rt; node.first_line == 3);
    assert!(rt; node.events.as_slice().len() == blocks.len());
    for place in 0..blocks.len() {
        expect_equal(rt, block_at(node, place), blocks[place]);
    }
}

fn expect_blocks(rt: &impl Abort, alloc: Global, text: &[u8], blocks: &[Option<u32>]) {
    let Ok(journals) = read_journal(alloc, text) else {
        assert!(rt; false, "a journal");
        return;
    };
    expect_first_node(rt, journals.nodes.as_slice(), blocks);
}

#[test]
fn least_blocks_are_given(rt: HostRuntime) {
    let text =
        b"thp-journal 1\nnode 0 blocks 2\n0 alloc 0\n0 alloc 1\n0 unmapwhole 0 freed 0-511\n0 alloc 2\n0 alloc 3\nend\n";
    // block 0 is free again for page 2; each block is held when page 3 comes
    let blocks = [Some(0), Some(1), None, Some(0), Some(0)];
    expect_blocks(&rt, rt.alloc(), text, &blocks);
}

#[test]
fn least_blocks_after_an_illegal_event(rt: HostRuntime) {
    let early =
        b"thp-journal 1\nnode 0 blocks 2\n0 unmapwhole 0 freed -\n0 alloc 0\n0 alloc 1\nend\n";
    expect_blocks(&rt, rt.alloc(), early, &[None, Some(0), Some(1)]);
    // page 0 is freed and allocated again, and holds a block again; page 3 finds each block held
    let again =
        b"thp-journal 1\nnode 0 blocks 3\n0 alloc 0\n0 alloc 1\n0 unmapwhole 0 freed -\n0 alloc 0\n0 alloc 2\n0 alloc 3\nend\n";
    let blocks = [Some(0), Some(1), None, Some(0), Some(2), Some(0)];
    expect_blocks(&rt, rt.alloc(), again, &blocks);
}
