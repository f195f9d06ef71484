//! Journals that are checked with the numbers of their nodes.
use std::alloc::Global;
use std::process::Abort;
use thp_drawing::DrawnNode;
use thp_journal_tools::{KeepingCheck, SeriesNode};
use thp_script::ReadsParts;

// The first run on node 0; on node 1 a page that was never allocated is pinned.
const JOURNAL: &[u8] =
    b"thp-journal 1\nnode 0 blocks 16\n0 alloc 0\n0 splitpmd 0\n0 unmapsub 0 256 256 queued -\n\
0 taken 0\n0 split 0 256-511\nnode 1 blocks 16\n0 alloc 0\n0 pin 1\nend\n";

// What is drawn of the nodes of a journal that comes in two parts.
fn drawn_of_parts(rt: &impl Abort, alloc: Global, front: &[u8], behind: &[u8]) -> Vec<DrawnNode> {
    let check: KeepingCheck<DrawnNode, SeriesNode> = KeepingCheck::new(alloc);
    let check = check.read_part(front).expect(rt, "memory");
    let check = check.read_part(behind).expect(rt, "memory");
    match check.finish() {
        Ok((_, nodes)) => nodes,
        Err(_) => panic!(rt; "a fault of the text"),
    }
}

fn expect_legal(rt: &impl Abort, node: &DrawnNode) {
    assert!(rt; node.illegal.is_none());
    assert!(rt; (node.last.held, node.last.given) == (256, 256));
}

fn expect_illegal(rt: &impl Abort, node: &DrawnNode) {
    match &node.illegal {
        Some(illegal) => assert!(rt; illegal.line == 10),
        None => panic!(rt; "a legal node"),
    }
    assert!(rt; (node.last.held, node.last.given) == (512, 0));
}

fn expect_legal_then_illegal(rt: &impl Abort, nodes: &[DrawnNode]) {
    let [first, second] = nodes else {
        panic!(rt; "not two nodes");
    };
    expect_legal(rt, first);
    expect_illegal(rt, second);
}

#[test]
fn check_keeps_the_numbers_of_each_node(rt: HostRuntime) {
    let (front, behind) = JOURNAL.split_at(50);
    expect_legal_then_illegal(&rt, &drawn_of_parts(&rt, rt.alloc(), front, behind));
}
