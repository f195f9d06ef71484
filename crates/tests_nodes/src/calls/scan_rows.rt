//! Rows on scans, with the events that they record.
use crate::calls::steps::{Step, expect_events, expect_row};
use crate::event_rows::{FIRST, Kind, NONE, ONE, TWO, ZERO};
use crate::nodes::{Start, node_of};
use std::alloc::Global;
use tests_steps::{Answer, Call, FREED, QUEUED, STAYS, shape_of};
use thp_history::{Outcome, Shape};
use thp_node::{CountOnly, Counters, NewFault, Node};

const TWO_OF_THREE_OLDEST: &[Step] = &[
    Step::Scan(2, [2, 2, 0, 0, 0, 0]),
    Step::Queued(1),
    Step::Frames(1534, 2),
    Step::Counters(Counters {
        split_page: 2,
        split_page_failed: 0,
        deferred_split_page: 3,
        underused_split_page: 0,
        split_pmd: 3,
    }),
];

const TWO_OF_THREE_OLDEST_EVENTS: &[Kind] = &[
    Kind::Taken(ZERO),
    Kind::Taken(ONE),
    Kind::Split(ZERO, FIRST),
    Kind::Split(ONE, FIRST),
];

#[test]
fn two_of_three_oldest(rt: HostRuntime) {
    expect_events(
        &rt,
        rt.alloc(),
        Start::Queued(3),
        TWO_OF_THREE_OLDEST,
        9,
        TWO_OF_THREE_OLDEST_EVENTS,
    );
}

const FREED_FROM_THE_MIDDLE: &[Step] = &[
    Step::Call(Call::UnmapSub(ONE, 1, 511), FREED),
    Step::Scan(3, [2, 2, 0, 0, 0, 0]),
];

const FREED_FROM_THE_MIDDLE_EVENTS: &[Kind] = &[
    Kind::Taken(ZERO),
    Kind::Taken(TWO),
    Kind::Split(ZERO, FIRST),
    Kind::Split(TWO, FIRST),
];

#[test]
fn freed_from_the_middle(rt: HostRuntime) {
    expect_events(
        &rt,
        rt.alloc(),
        Start::Queued(3),
        FREED_FROM_THE_MIDDLE,
        10,
        FREED_FROM_THE_MIDDLE_EVENTS,
    );
}

const FREED_WHILE_QUEUED: &[Step] = &[
    Step::Call(Call::UnmapSub(ZERO, 1, 511), FREED),
    Step::Call(Call::Alloc, Answer::Page(ONE)),
    Step::Call(Call::SplitPmd(ONE), Answer::Done),
    Step::Call(Call::UnmapSub(ONE, 0, 1), QUEUED),
    Step::Queued(1),
    Step::Scan(8, [1, 1, 0, 0, 0, 0]),
];

#[test]
fn freed_while_queued(rt: HostRuntime) {
    expect_row(&rt, rt.alloc(), Start::Queued(1), FREED_WHILE_QUEUED);
}

const PINNED_GOES_TO_THE_TAIL: &[Step] = &[
    Step::Call(Call::Pin(ONE), Answer::Done),
    Step::Scan(3, [3, 2, 1, 1, 0, 0]),
    Step::Queued(1),
    Step::Call(Call::Unpin(ONE), STAYS),
    Step::Scan(3, [1, 1, 0, 0, 0, 0]),
];

const PINNED_GOES_TO_THE_TAIL_EVENTS: &[Kind] = &[
    Kind::Taken(ZERO),
    Kind::Taken(ONE),
    Kind::Taken(TWO),
    Kind::Split(ZERO, FIRST),
    Kind::Pinned(ONE),
    Kind::Split(TWO, FIRST),
    Kind::Back(ONE),
    Kind::Unpin(ONE, Outcome::Stays, NONE),
    Kind::Taken(ONE),
    Kind::Split(ONE, FIRST),
];

#[test]
fn pinned_goes_to_the_tail(rt: HostRuntime) {
    expect_events(
        &rt,
        rt.alloc(),
        Start::Queued(3),
        PINNED_GOES_TO_THE_TAIL,
        10,
        PINNED_GOES_TO_THE_TAIL_EVENTS,
    );
}

const ALL_PINNED_ROTATE: &[Step] = &[
    Step::Call(Call::Pin(ZERO), Answer::Done),
    Step::Call(Call::Pin(ONE), Answer::Done),
    Step::Call(Call::Pin(TWO), Answer::Done),
    Step::Scan(2, [2, 0, 2, 2, 0, 0]),
    Step::Scan(3, [3, 0, 3, 3, 0, 0]),
    Step::Counters(Counters {
        split_page: 0,
        split_page_failed: 5,
        deferred_split_page: 3,
        underused_split_page: 0,
        split_pmd: 3,
    }),
];

const ALL_PINNED_ROTATE_EVENTS: &[Kind] = &[
    Kind::Taken(ZERO),
    Kind::Taken(ONE),
    Kind::Pinned(ZERO),
    Kind::Pinned(ONE),
    Kind::Back(ZERO),
    Kind::Back(ONE),
    Kind::Taken(TWO),
    Kind::Taken(ZERO),
    Kind::Taken(ONE),
    Kind::Pinned(TWO),
    Kind::Pinned(ZERO),
    Kind::Pinned(ONE),
    Kind::Back(TWO),
    Kind::Back(ZERO),
    Kind::Back(ONE),
];

#[test]
fn all_pinned_rotate(rt: HostRuntime) {
    expect_events(
        &rt,
        rt.alloc(),
        Start::Queued(3),
        ALL_PINNED_ROTATE,
        12,
        ALL_PINNED_ROTATE_EVENTS,
    );
}

const SPLIT_OF_A_MAPPED_PAGE: &[Step] = &[
    Step::Call(Call::MapWhole(ZERO), Answer::Done),
    Step::Scan(1, [1, 1, 0, 0, 0, 0]),
    Step::Frames(512, 0),
    Step::Counters(Counters {
        split_page: 1,
        split_page_failed: 0,
        deferred_split_page: 1,
        underused_split_page: 0,
        split_pmd: 2,
    }),
];

#[test]
fn split_of_a_mapped_page(rt: HostRuntime) {
    expect_row(&rt, rt.alloc(), Start::Queued(1), SPLIT_OF_A_MAPPED_PAGE);
}

// The blocks, the order and the threshold of shapes that are not valid.
const BAD_SHAPES: &[(u32, u32, Option<u32>)] = &[
    (0, 9, None),
    (4097, 9, None),
    (16, 1, None),
    (16, 10, None),
    (16, 2, Some(4)),
    (16, 9, Some(512)),
];

// Why there is no node of this shape; none if there is one.
fn fault_of(alloc: Global, shape: Shape) -> Option<NewFault> {
    match Node::new(alloc, shape) {
        Ok(node) => {
            drop(node);
            None
        }
        Err(fault) => Some(fault),
    }
}

// The index of the first row that is the shape of a node, if there is one.
fn first_good(alloc: Global, rows: &[(u32, u32, Option<u32>)]) -> Option<usize> {
    for (place, &(blocks, order, underused)) in rows.iter().enumerate() {
        let shape = Shape {
            blocks,
            order,
            underused,
        };
        if fault_of(alloc, shape) != Some(NewFault::BadSize) {
            return Some(place);
        }
    }
    None
}

// The largest node has its shape, and room for a few events.
fn is_largest(node: &mut Node) -> bool {
    node.shape() == shape_of(4096) && node.reserve(5) == Ok(())
}

#[test]
fn limits_and_constructors(rt: HostRuntime) {
    assert!(rt; first_good(rt.alloc(), BAD_SHAPES) == None);
    let mut node = node_of(&rt, rt.alloc(), 4096);
    assert!(rt; is_largest(&mut node));
    drop(node);
}

// Why there is no node of this many blocks, beyond those of scripts; none if its greatest caller can allocate a page there.
fn fault_of_large(alloc: Global, blocks: u32) -> Option<NewFault> {
    let shape = Shape {
        blocks,
        order: 9,
        underused: None,
    };
    match Node::<CountOnly>::with_recorder(alloc, shape) {
        Ok(mut node) => {
            let page = node.alloc_page(4095);
            drop(node);
            if page.is_ok() {
                None
            } else {
                Some(NewFault::OutOfMemory)
            }
        }
        Err(fault) => Some(fault),
    }
}

#[test]
fn blocks_of_any_node(rt: HostRuntime) {
    assert!(rt; fault_of_large(rt.alloc(), 4097) == None);
    assert!(rt; fault_of_large(rt.alloc(), 16_777_216) == None);
    assert!(rt; fault_of_large(rt.alloc(), 16_777_217) == Some(NewFault::BadSize));
}
