//! Pictures of many nodes and of many pages.
use crate::drawing::nodes::{LARGE, drawn_first_run};
use std::alloc::Global;
use std::process::Abort;
use thp_drawing::{DrawnNode, put_picture};
use thp_metrics::{Columns, Numbers, SHOWN_PAGES, Stage};

// The end of the picture of nodes with the events of the first run: what is drawn of the last.
const LAST_AREAS: &[u8] = b"<text class=\"soft\" x=\"0\" y=\"150\">most queued 1</text>\n\
<g transform=\"translate(0 720)\">\n\
<path class=\"rule\" d=\"M0 -500h1575M0 300h1575M0 -500v800\"/>\n\
<path class=\"s2\" d=\"M0 0V-500h1050V-0h525V0z\"/>\n\
<path class=\"given\" d=\"M0 0V0h1050V300h525V0z\"/>\n\
<path class=\"zero\" d=\"M0 0h1575\"/>\n\
</g>\n\
</g>\n\
</svg>\n";

// The last of nine nodes begins in the third row, and that of 256 ends the 64th.
const NODE_8: &[u8] = b"<g transform=\"translate(150 3600)\">\n\
<text class=\"ink\" x=\"0\" y=\"0\">node 8</text>\n";

const NODE_255: &[u8] = b"<g transform=\"translate(5370 79850)\">\n\
<text class=\"ink\" x=\"0\" y=\"0\">node 255</text>\n";

// The words about which nodes are drawn.
const ALL_9: &[u8] = b"Nodes 0 to 8 of 9, ";

const FIRST_256: &[u8] = b"Nodes 0 to 255 of 1,000, ";

// So many nodes, each with the events of the first run.
fn equal_nodes(rt: &impl Abort, alloc: Global, count: u32) -> Vec<DrawnNode> {
    let mut nodes = Vec::new(alloc);
    for _number in 0..count {
        nodes.push(drawn_first_run(rt, alloc)).expect(rt, "memory");
    }
    nodes
}

fn picture_of(rt: &impl Abort, alloc: Global, nodes: &[DrawnNode]) -> Vec<u8> {
    let mut text = Vec::new(alloc);
    put_picture(&mut text, nodes).expect(rt, "memory");
    text
}

// Fails unless so many nodes are drawn with these words, and this is the last of them.
fn expect_last(rt: &impl Abort, alloc: Global, count: u32, words: &[u8], last: &[u8]) {
    let nodes = equal_nodes(rt, alloc, count);
    let text = picture_of(rt, alloc, nodes.as_slice());
    let text = text.as_slice();
    assert!(rt; text.ends_with(LAST_AREAS));
    let end = text.len().saturating_sub(LAST_AREAS.len());
    assert!(rt; text.split_at(end.min(text.len())).0.ends_with(last));
    assert!(rt; text.windows(words.len().max(1)).any(|part| part == words));
}

#[test]
fn nine_nodes_are_drawn_small(rt: HostRuntime) {
    expect_last(&rt, rt.alloc(), 9, ALL_9, NODE_8);
}

#[test]
fn the_first_256_nodes_are_drawn(rt: HostRuntime) {
    expect_last(&rt, rt.alloc(), 1000, FIRST_256, NODE_255);
}

// The greatest number of bytes of a picture.
const MAX_PICTURE: usize = 2_000_000;

// A prefix whose numbers differ from those before and after it as much as they can.
fn busy(number: u64) -> Numbers {
    let is_odd = number / 2 % 2 == 1;
    let most = u64::MAX / (1 + number % 2);
    let high = if is_odd { most } else { most / 1000 * 999 };
    let stage = if is_odd {
        Stage::Queued
    } else {
        Stage::InBatch
    };
    let mut stages = [None; SHOWN_PAGES];
    stages[57] = Some(stage);
    stages[58] = Some(stage);
    stages[59] = Some(stage);
    Numbers {
        queue: high,
        in_batches: high,
        held: u128::MAX / 2,
        given: u128::MAX / 2,
        splits: high,
        underused_splits: high,
        pinned_tries: high,
        wait: high,
        callers: if is_odd { 0x3f << 58 } else { 0 },
        pages: [high / 8; 5],
        stages,
    }
}

// A node of many pages with 600 columns of such prefixes, two in each.
fn busy_node(rt: &impl Abort, alloc: Global) -> DrawnNode {
    let mut columns = Columns::new(alloc, &busy(0)).expect(rt, "memory");
    for number in 1..1200 {
        columns.push(&busy(number));
    }
    DrawnNode::from_columns(LARGE, columns, busy(1199), None, Vec::new(alloc))
}

fn busy_nodes(rt: &impl Abort, alloc: Global, count: u32) -> Vec<DrawnNode> {
    let mut nodes = Vec::new(alloc);
    for _number in 0..count {
        nodes.push(busy_node(rt, alloc)).expect(rt, "memory");
    }
    nodes
}

// Fails unless the picture of so many nodes has between these numbers of bytes.
fn expect_length(rt: &impl Abort, alloc: Global, count: u32, least: usize) {
    let nodes = busy_nodes(rt, alloc, count);
    let length = picture_of(rt, alloc, nodes.as_slice()).len();
    assert!(rt; length <= MAX_PICTURE);
    assert!(rt; least <= length);
}

#[test]
fn eight_busy_nodes_have_at_most_2_megabytes(rt: HostRuntime) {
    expect_length(&rt, rt.alloc(), 8, 1_000_000);
}

#[test]
fn many_busy_nodes_have_at_most_2_megabytes(rt: HostRuntime) {
    expect_length(&rt, rt.alloc(), 300, 500_000);
}
