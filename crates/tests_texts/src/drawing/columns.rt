//! Columns of invented numbers.
use crate::equal::expect_equal;
use std::alloc::Global;
use std::process::Abort;
use thp_metrics::{Column, Columns, MAX_COLUMNS, Numbers, SHOWN_PAGES, Span, Stage, widened};

// A prefix with this number in each field, and all pages allocated.
fn all(number: u64) -> Numbers {
    Numbers {
        queue: number,
        in_batches: number,
        held: u128::from(number),
        given: u128::from(number),
        splits: number,
        underused_splits: number,
        pinned_tries: number,
        wait: number,
        callers: number,
        pages: [number, 0, 0, 0, 0],
        stages: [None; SHOWN_PAGES],
    }
}

// The column at this index, counted from 0.
pub(crate) fn at(rt: &impl Abort, reported: &[Column], place: usize) -> Column {
    *reported.get(place).expect(rt, "a column")
}

#[test]
fn a_column_of_one_prefix_has_its_numbers(rt: HostRuntime) {
    let column = Column::of(&all(7));
    let seven = Span {
        least: 7,
        greatest: 7,
    };
    expect_equal(&rt, column.queue, seven);
    expect_equal(&rt, column.held, seven);
    expect_equal(&rt, column.callers, 7);
    expect_equal(&rt, column.pages, widened(&[7, 0, 0, 0, 0]));
    expect_equal(&rt, column.pages[Stage::Allocated as usize], 7);
    expect_equal(&rt, column.pages[Stage::Queued as usize], 0);
}

// The columns of 2,401 prefixes, with the numbers from 0 on.
fn many_columns(rt: &impl Abort, alloc: Global) -> Columns {
    let mut columns = Columns::new(alloc, &all(0)).expect(rt, "memory");
    expect_equal(rt, columns.width(), 1);
    for number in 1..2401 {
        columns.push(&all(number));
    }
    expect_equal(rt, columns.width(), 8);
    expect_equal(rt, columns.prefixes(), 2401);
    columns
}

fn expect_folded(rt: &impl Abort, reported: &[Column]) {
    expect_equal(rt, reported.len(), 301);
    assert!(rt; reported.len() <= MAX_COLUMNS);
    let second = at(rt, reported, 1);
    let queue = Span {
        least: 8,
        greatest: 15,
    };
    expect_equal(rt, second.queue, queue);
    expect_equal(rt, second.pages[Stage::Allocated as usize], 92);
    let given = Span {
        least: 2400,
        greatest: 2400,
    };
    expect_equal(rt, at(rt, reported, 300).given, given);
}

#[test]
fn columns_fold_in_pairs(rt: HostRuntime) {
    expect_folded(&rt, &many_columns(&rt, rt.alloc()).into_columns());
}
