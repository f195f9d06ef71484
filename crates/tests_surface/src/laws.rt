//! The check of events, and the laws of legal histories.
use std::alloc::Global;
use thp_model::{
    CheckFault, Event, PageId, Shape, What, check, each_frame_once, flights_go_by_events,
    freed_pages_are_left_alone, least_blocks_are_legal, live_pages_are_apart, no_page_stands_twice,
    none_is_underused_while_off, nothing_enters_after_close, oldest_are_taken, others_only_free,
    requests_decide,
};

// Nodes of 16 blocks of order 9.
const SHAPE: Shape = Shape {
    blocks: 16,
    order: 9,
    underused: None,
};

// The allocation of the first page in this block.
fn allocated(block: u32) -> Event {
    Event {
        caller: 0,
        what: What::Alloc {
            page: PageId(0),
            block,
        },
    }
}

// Whether a legal list of events is distinguished from one that is not.
fn is_checked(alloc: Global) -> bool {
    let legal = check(alloc, SHAPE, &[allocated(0)]);
    let twice = check(alloc, SHAPE, &[allocated(0), allocated(1)]);
    matches!(legal, Ok(())) && matches!(twice, Err(CheckFault::Illegal(1)))
}

// Whether a check failed for lack of memory.
fn is_short(checked: Result<(), CheckFault>) -> bool {
    matches!(checked, Err(CheckFault::OutOfMemory))
}

// The laws have no code.
fn state_laws() {
    no_page_stands_twice();
    oldest_are_taken();
    freed_pages_are_left_alone();
    nothing_enters_after_close();
    each_frame_once();
    live_pages_are_apart();
    others_only_free();
    flights_go_by_events();
    least_blocks_are_legal();
    requests_decide();
    none_is_underused_while_off();
}

#[test]
fn a_check_and_laws(rt: HostRuntime) {
    state_laws();
    assert!(rt; is_checked(rt.alloc()) && !is_short(Ok(())));
}
