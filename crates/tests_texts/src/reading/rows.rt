//! Journals of worked rows, and whether they are legal.
use crate::equal::expect_equal;
use std::alloc::Global;
use thp_journal_reader::check_text;

/// The answer of the check: no line where the text is legal. `None` where the text is at fault.
fn answer(alloc: Global, text: &[u8]) -> Option<Option<u32>> {
    match check_text(alloc, text) {
        Ok(line) => Some(line),
        Err(_) => None,
    }
}

#[test]
fn journal_check_and_cuts(rt: HostRuntime) {
    let wrong =
        b"thp-journal 1\nnode 0 blocks 4\n0 alloc 0\n0 splitpmd 0\n0 unmapsub 0 0 1 queued -\n0 alloc 1\n0 splitpmd 1\n0 unmapsub 1 0 1 queued -\n0 taken 1\nend\n";
    expect_equal(&rt, answer(rt.alloc(), wrong), Some(Some(9)));
    let right =
        b"thp-journal 1\nnode 0 blocks 4\n0 alloc 0\n0 splitpmd 0\n0 unmapsub 0 0 1 queued -\n0 alloc 1\n0 splitpmd 1\n0 unmapsub 1 0 1 queued -\n0 taken 0\nend\n";
    expect_equal(&rt, answer(rt.alloc(), right), Some(None));
    let with_order =
        b"thp-journal 2\nnode 0 blocks 4 order 9\n0 alloc 0\n0 splitpmd 0\n0 unmapsub 0 0 1 queued -\n0 alloc 1\n0 splitpmd 1\n0 unmapsub 1 0 1 queued -\n0 taken 1\nend\n";
    expect_equal(&rt, answer(rt.alloc(), with_order), Some(Some(9)));
    let closed_twice = b"thp-journal 1\nnode 0 blocks 4\n0 close\n0 close\nend\n";
    expect_equal(&rt, answer(rt.alloc(), closed_twice), Some(Some(4)));
}

#[test]
fn rows_are_legal(rt: HostRuntime) {
    let rows: [&[u8]; 5] = [
        b"thp-journal 1\nnode 0 blocks 16\n0 alloc 0\n0 splitpmd 0\n0 unmapsub 0 0 256 queued -\n0 taken 0\n0 split 0 0-255\nend\n",
        b"thp-journal 1\nnode 0 blocks 16\nend\n",
        b"thp-journal 1\nnode 0 blocks 16\n0 alloc 0\n0 splitpmd 0\n0 unmapsub 0 0 1 queued -\n0 alloc 1\n0 splitpmd 1\n0 unmapsub 1 0 1 queued -\n0 alloc 2\n0 splitpmd 2\n0 unmapsub 2 0 1 queued -\n0 pin 1\n0 taken 0\n0 taken 1\n0 taken 2\n0 split 0 0\n0 pinned 1\n0 split 2 0\n0 back 1\n0 unpin 1 stays -\n0 taken 1\n0 split 1 0\nend\n",
        b"thp-journal 2\nnode 0 blocks 16 order 2\n0 alloc 0\n0 splitpmd 0\n0 unmapsub 0 0 3 queued -\n0 taken 0\n0 split 0 0-2\nnode 1 blocks 16 order 9\n0 alloc 0\n0 splitpmd 0\n0 unmapsub 0 0 511 queued -\n0 taken 0\n0 split 0 0-510\nend\n",
        b"thp-journal 3\nnode 0 blocks 4 order 2 underused 1\n0 alloc 0\n0 write 0 0 3\n0 taken 0\n0 used 0\n0 splitpmd 0\n0 unmapsub 0 0 1 queued -\n0 taken 0\n0 split 0 0,3\n0 unmapsub 0 3 1 stays -\n0 unmapsub 0 1 2 freed 1-2\nend\n",
    ];
    for text in rows {
        assert!(rt; answer(rt.alloc(), text) == Some(None));
    }
}

#[test]
fn the_first_illegal_event_of_the_text_is_reported(rt: HostRuntime) {
    let second_node =
        b"thp-journal 1\nnode 0 blocks 4\n0 close\nnode 1 blocks 4\n0 pin 0\n0 pin 0\nend\n";
    expect_equal(&rt, answer(rt.alloc(), second_node), Some(Some(5)));
    let both_nodes =
        b"thp-journal 1\nnode 0 blocks 4\n0 close\n0 close\nnode 1 blocks 4\n0 pin 0\nend\n";
    expect_equal(&rt, answer(rt.alloc(), both_nodes), Some(Some(4)));
    let fault_behind_it = b"thp-journal 1\nnode 0 blocks 4\n0 pin 0\n0 pin\nend\n";
    expect_equal(&rt, answer(rt.alloc(), fault_behind_it), None);
}
