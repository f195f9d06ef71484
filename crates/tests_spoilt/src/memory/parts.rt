//! The calls that runs and checks consist of, each at the second try at the latest.
use crate::memory::devices::print_call;
use crate::memory::runs::{JOURNAL, SCRIPT};
use std::alloc::Global;
use std::process::Abort;
use thp_check::{CheckFault, check};
use thp_cli::read_line;
use thp_history::{Event, PageId, Shape, What};
use thp_journal_reader::{LeastBlocks, check_text, read_journal};
use thp_journal_writer::{NodeHistory, journal_text};
use thp_live_pages::PageStore;
use thp_page::PageTable;
use thp_script::{ReadFault, Report, Settings, read_script};

const SHAPE: Shape = Shape {
    blocks: 64,
    order: 2,
    underused: None,
};

fn is_table_refused(alloc: Global) -> bool {
    PageTable::new(alloc, 64, 2).is_err()
}

fn are_places_refused(alloc: Global) -> bool {
    PageStore::new(alloc, SHAPE).is_err()
}

#[test]
fn tables_and_places(rt: HostRuntime) {
    if is_table_refused(rt.alloc()) {
        print_call(&rt, "PageTable::new");
        assert!(rt; !is_table_refused(rt.alloc()));
    }
    if are_places_refused(rt.alloc()) {
        print_call(&rt, "PageStore::new");
        assert!(rt; !are_places_refused(rt.alloc()));
    }
}

/// The allocation of a page by caller 0, in block 0.
fn allocation(page: u64) -> Event {
    Event {
        caller: 0,
        what: What::Alloc {
            page: PageId(page),
            block: 0,
        },
    }
}

/// The block of a page that was allocated by this event.
fn block_of(placed: Option<Event>) -> Option<u64> {
    match placed?.what {
        What::Alloc { block, .. } => Some(u64::from(block)),
        _ => None,
    }
}

/// Assigns the next page its block, which has the same number, at the second try at the latest.
fn place_at_last(rt: &(impl Abort + Print), blocks: &mut LeastBlocks, page: u64) {
    let mut placed = blocks.place(allocation(page));
    if placed.is_err() {
        print_call(rt, "LeastBlocks::place");
        placed = blocks.place(allocation(page));
    }
    assert!(rt; block_of(placed.ok()) == Some(page));
}

#[test]
fn least_blocks(rt: HostRuntime) {
    let mut made = LeastBlocks::new(rt.alloc(), SHAPE);
    if made.is_err() {
        print_call(&rt, "LeastBlocks::new");
        made = LeastBlocks::new(rt.alloc(), SHAPE);
    }
    let mut blocks = made.expect(&rt, "blocks at the second try");
    for page in 0..64 {
        place_at_last(&rt, &mut blocks, page);
    }
}

fn settings_of(rt: &impl Abort) -> Settings {
    Settings::new(3, 16, 3, Report::Totals).expect(rt, "within the limits")
}

/// Whether memory for the script could not be allocated; otherwise it must be read.
fn is_script_refused(rt: &impl Abort, alloc: Global, settings: &Settings) -> bool {
    match read_script(alloc, settings, SCRIPT) {
        Ok(_) => false,
        Err(fault) => {
            assert!(rt; matches!(fault, ReadFault::OutOfMemory));
            true
        }
    }
}

/// The same of a journal.
fn is_journal_refused(rt: &impl Abort, alloc: Global) -> bool {
    match read_journal(alloc, JOURNAL) {
        Ok(_) => false,
        Err(fault) => {
            assert!(rt; matches!(fault, ReadFault::OutOfMemory));
            true
        }
    }
}

/// The same of its check, which must find it legal.
fn is_check_of_text_refused(rt: &impl Abort, alloc: Global) -> bool {
    match check_text(alloc, JOURNAL) {
        Ok(line) => {
            assert!(rt; line == None);
            false
        }
        Err(fault) => {
            assert!(rt; matches!(fault, ReadFault::OutOfMemory));
            true
        }
    }
}

#[test]
fn texts(rt: HostRuntime) {
    let settings = settings_of(&rt);
    if is_script_refused(&rt, rt.alloc(), &settings) {
        print_call(&rt, "read_script");
        assert!(rt; !is_script_refused(&rt, rt.alloc(), &settings));
    }
    if is_journal_refused(&rt, rt.alloc()) {
        print_call(&rt, "read_journal");
        assert!(rt; !is_journal_refused(&rt, rt.alloc()));
    }
    if is_check_of_text_refused(&rt, rt.alloc()) {
        print_call(&rt, "check_text");
        assert!(rt; !is_check_of_text_refused(&rt, rt.alloc()));
    }
}

/// Whether memory for a check of these events could not be allocated; otherwise they must be legal.
fn is_check_refused(rt: &impl Abort, alloc: Global, events: &[Event]) -> bool {
    match check(alloc, SHAPE, events) {
        Ok(()) => false,
        Err(fault) => {
            assert!(rt; matches!(fault, CheckFault::OutOfMemory));
            true
        }
    }
}

/// Whether memory for the journal of these events could not be allocated.
fn is_text_refused(alloc: Global, events: &[Event]) -> bool {
    let nodes = [NodeHistory {
        shape: SHAPE,
        events,
    }];
    journal_text(alloc, nodes.as_slice()).is_err()
}

#[test]
fn histories(rt: HostRuntime) {
    let events = [allocation(0)];
    if is_check_refused(&rt, rt.alloc(), events.as_slice()) {
        print_call(&rt, "check");
        assert!(rt; !is_check_refused(&rt, rt.alloc(), events.as_slice()));
    }
    if is_text_refused(rt.alloc(), events.as_slice()) {
        print_call(&rt, "journal_text");
        assert!(rt; !is_text_refused(rt.alloc(), events.as_slice()));
    }
}

#[test]
fn lines(rt: HostRuntime) {
    let words = [
        "thpsplit",
        "--nodes=2",
        "--orders",
        "2,9",
        "--report=journal",
    ];
    if read_line(rt.alloc(), words.as_slice()).is_err() {
        print_call(&rt, "read_line");
        assert!(rt; read_line(rt.alloc(), words.as_slice()).is_ok());
    }
}
