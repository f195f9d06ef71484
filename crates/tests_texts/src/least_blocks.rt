//! Rows of events, each with the block that its page gets.
ghost use Rattle.std.specs.Prelude.{◌≤◌};

use std::alloc::Global;
use std::process::Abort;
use thp_history::{Event, Outcome, PageId, Shape, SubSet, What};
use thp_journal_reader::LeastBlocks;

const LAST: u64 = u64::MAX;

// A row: an allocation with the block that it gets, or the last unpin of a page, which frees it.
#[derive(Clone, Copy)]
enum Row {
    Gets(u64, u32),
    Frees(u64),
}

fn shape_of(blocks: u32) -> Shape
    requires { 1 ≤ blocks }
    ensures { 1 ≤ result.blocks }
{
    Shape {
        blocks,
        order: 9,
        underused: None,
    }
}

// The event of a row, which asks for block 7 where it allocates.
fn event_of(row: Row) -> Event {
    let what = match row {
        Row::Gets(page, _) => What::Alloc {
            page: PageId(page),
            block: 7,
        },
        Row::Frees(page) => What::Unpin {
            outcome: Outcome::Freed,
            page: PageId(page),
            released: SubSet::full(9),
        },
    };
    Event { caller: 3, what }
}

// The expected event of a row.
fn placed_of(row: Row) -> Event {
    match row {
        Row::Gets(page, block) => Event {
            caller: 3,
            what: What::Alloc {
                page: PageId(page),
                block,
            },
        },
        Row::Frees(_) => event_of(row),
    }
}

fn expect_row(rt: &impl Abort, least: &mut LeastBlocks, name: &str, row: Row) {
    let event = least.place(event_of(row)).expect(rt, "memory");
    assert!(rt; event == placed_of(row), "{name}");
}

// Each row's event is returned with its block.
fn expect_rows(rt: &impl Abort, alloc: Global, blocks: u32, name: &str, rows: &[Row])
    requires { 1 ≤ blocks }
{
    let mut least = LeastBlocks::new(alloc, shape_of(blocks)).expect(rt, "memory");
    for row in rows {
        expect_row(rt, &mut least, name, *row);
    }
}

#[test]
fn least_free_blocks(rt: HostRuntime) {
    let alloc = rt.alloc();
    let given_back = [
        Row::Gets(0, 0),
        Row::Gets(1, 1),
        Row::Gets(2, 2),
        Row::Frees(1),
        Row::Frees(0),
        Row::Gets(3, 0),
        Row::Gets(4, 1),
        Row::Gets(5, 3),
    ];
    expect_rows(&rt, alloc, 8, "given back", &given_back);
    let all_held = [
        Row::Gets(0, 0),
        Row::Gets(1, 1),
        Row::Gets(2, 0),
        Row::Frees(0),
        Row::Gets(3, 0),
        Row::Frees(1),
        Row::Gets(4, 1),
        Row::Frees(2),
        Row::Frees(3),
        Row::Gets(5, 0),
    ];
    expect_rows(&rt, alloc, 2, "all held", &all_held);
    expect_rows(
        &rt,
        alloc,
        1,
        "one block",
        &[
            Row::Gets(9, 0),
            Row::Gets(9, 0),
            Row::Frees(9),
            Row::Gets(0, 0),
        ],
    );
}

#[test]
fn pages_of_no_legal_history(rt: HostRuntime) {
    let alloc = rt.alloc();
    let twice = [
        Row::Gets(5, 0),
        Row::Gets(6, 1),
        Row::Gets(5, 2),
        Row::Gets(5, 3),
        Row::Frees(5),
        Row::Gets(7, 0),
        Row::Gets(8, 2),
        Row::Gets(9, 3),
        Row::Gets(10, 4),
    ];
    expect_rows(&rt, alloc, 8, "allocated thrice", &twice);
    let again = [
        Row::Gets(0, 0),
        Row::Frees(0),
        Row::Gets(0, 0),
        Row::Gets(1, 1),
        Row::Frees(0),
        Row::Gets(2, 0),
    ];
    expect_rows(&rt, alloc, 8, "freed, then allocated", &again);
    let early = [
        Row::Frees(1),
        Row::Gets(0, 0),
        Row::Gets(1, 1),
        Row::Gets(2, 2),
        Row::Frees(1),
        Row::Gets(3, 1),
    ];
    expect_rows(&rt, alloc, 8, "freed before it is allocated", &early);
    let large = [
        Row::Gets(LAST, 0),
        Row::Gets(1 << 63, 1),
        Row::Gets(LAST - 1, 2),
        Row::Frees(1 << 63),
        Row::Gets(0, 1),
        Row::Gets(1, 3),
        Row::Frees(LAST),
        Row::Gets(2, 0),
        Row::Gets(LAST, 4),
    ];
    expect_rows(&rt, alloc, 8, "large numbers", &large);
}

fn add(rt: &impl Abort, rows: &mut Vec<Row>, row: Row) {
    rows.push(row).expect(rt, "memory");
}

// Adds rows that fill all blocks, and give them back from the last to the first.
fn add_all_blocks(rt: &impl Abort, rows: &mut Vec<Row>) {
    for block in 0..4096u32 {
        add(rt, rows, Row::Gets(u64::from(block), block));
    }
    add(rt, rows, Row::Gets(4096, 0));
    for back in 1..4096u32 {
        let block = 4096 - back;
        add(rt, rows, Row::Frees(u64::from(block)));
        add(rt, rows, Row::Gets(4096 + u64::from(back), block));
    }
    add(rt, rows, Row::Frees(0));
    add(rt, rows, Row::Gets(10_000, 0));
    add(rt, rows, Row::Frees(4096));
    add(rt, rows, Row::Gets(10_001, 0));
}

#[test]
fn largest_node(rt: HostRuntime) {
    let alloc = rt.alloc();
    let mut rows = Vec::new(alloc);
    add_all_blocks(&rt, &mut rows);
    expect_rows(&rt, alloc, 4096, "largest node", &rows);
}
