//! Rows on the calls about one page: refusals, limits and ranges.
use crate::calls::steps::{Step, expect_events, expect_row};
use crate::event_rows::{FIRST, Kind, ONE, ZERO};
use crate::nodes::Start;
use tests_steps::{Answer, Call, FREED, QUEUED, STAYS};
use thp_history::{Outcome, Refusal};

const BAD_RANGE: Answer = Answer::Refused(Refusal::BadRange);

const IS_SPLIT: Answer = Answer::Refused(Refusal::IsSplit);

const NO_BLOCK: Answer = Answer::Refused(Refusal::NoBlock);

const NO_PAGE: Answer = Answer::Refused(Refusal::NoPage);

const NOT_MAPPED: Answer = Answer::Refused(Refusal::NotMapped);

const NOT_PINNED: Answer = Answer::Refused(Refusal::NotPinned);

const TOO_MANY: Answer = Answer::Refused(Refusal::TooMany);

const REFUSALS_AFTER_A_SPLIT: &[Step] = &[
    Step::Call(Call::Alloc, Answer::Page(ZERO)),
    Step::Call(Call::SplitPmd(ZERO), Answer::Done),
    Step::Call(Call::UnmapSub(ZERO, 1, 511), QUEUED),
    Step::Scan(1, [1, 1, 0, 0, 0, 0]),
    Step::Call(Call::MapSub(ZERO, 1, 1), Answer::Refused(Refusal::Gone)),
    Step::Call(Call::UnmapSub(ZERO, 1, 1), NOT_MAPPED),
    Step::Call(Call::MapSub(ZERO, 0, 1), Answer::Done),
    Step::Call(Call::MapWhole(ZERO), IS_SPLIT),
    Step::Call(Call::UnmapWhole(ZERO), IS_SPLIT),
    Step::Call(Call::SplitPmd(ZERO), IS_SPLIT),
    Step::Call(Call::Pin(ZERO), IS_SPLIT),
    Step::Call(Call::Unpin(ZERO), IS_SPLIT),
    Step::Call(Call::UnmapSub(ZERO, 0, 1), STAYS),
    Step::Call(
        Call::UnmapSub(ZERO, 0, 1),
        Answer::Changed(Outcome::Freed, 0, 1),
    ),
    Step::Call(Call::UnmapSub(ZERO, 0, 1), NO_PAGE),
    Step::Frames(0, 512),
];

#[test]
fn refusals_after_a_split(rt: HostRuntime) {
    expect_row(&rt, rt.alloc(), Start::Empty(16), REFUSALS_AFTER_A_SPLIT);
}

const REFUSALS_BEFORE_A_SPLIT: &[Step] = &[
    Step::Call(Call::Alloc, Answer::Page(ZERO)),
    Step::Call(Call::UnmapSub(ZERO, 0, 1), NOT_MAPPED),
    Step::Call(Call::Unpin(ZERO), NOT_PINNED),
    Step::Call(Call::SplitPmd(ZERO), Answer::Done),
    Step::Call(Call::SplitPmd(ZERO), NOT_MAPPED),
    Step::Call(Call::UnmapWhole(ZERO), NOT_MAPPED),
    Step::Call(Call::UnmapSub(ZERO, 0, 1), QUEUED),
    Step::Call(Call::UnmapSub(ZERO, 3, 1), STAYS),
    Step::Scan(1, [1, 1, 0, 0, 0, 0]),
    Step::Call(
        Call::UnmapSub(ZERO, 5, 2),
        Answer::Changed(Outcome::Stays, 5, 2),
    ),
    Step::Frames(508, 4),
];

const REFUSALS_BEFORE_A_SPLIT_EVENTS: &[Kind] = &[
    Kind::Taken(ZERO),
    Kind::SplitApart(ZERO, FIRST, (3, 1)),
    Kind::UnmapSub(ZERO, 5, 2, Outcome::Stays, (5, 2)),
];

#[test]
fn refusals_before_a_split(rt: HostRuntime) {
    expect_events(
        &rt,
        rt.alloc(),
        Start::Empty(16),
        REFUSALS_BEFORE_A_SPLIT,
        4,
        REFUSALS_BEFORE_A_SPLIT_EVENTS,
    );
}

const BAD_RANGES: &[Step] = &[
    Step::Call(Call::Alloc, Answer::Page(ZERO)),
    Step::Call(Call::SplitPmd(ZERO), Answer::Done),
    Step::Call(Call::UnmapSub(ZERO, 511, 1), QUEUED),
    Step::Call(Call::MapSub(ZERO, 511, 2), BAD_RANGE),
    Step::Call(Call::UnmapSub(ZERO, 0, 0), BAD_RANGE),
    Step::Call(Call::UnmapSub(ZERO, 512, 1), BAD_RANGE),
    Step::Call(Call::UnmapSub(ZERO, 511, 1), NOT_MAPPED),
    Step::Call(Call::MapSub(ZERO, 511, 1), Answer::Done),
    Step::Call(Call::UnmapSub(ONE, 0, 0), NO_PAGE),
];

#[test]
fn bad_ranges(rt: HostRuntime) {
    expect_row(&rt, rt.alloc(), Start::Empty(16), BAD_RANGES);
}

const RANGES_OF_LARGE_NUMBERS: &[Step] = &[
    Step::Call(Call::Alloc, Answer::Page(ZERO)),
    Step::Call(Call::SplitPmd(ZERO), Answer::Done),
    Step::Call(Call::MapSub(ZERO, 0, 65_535), BAD_RANGE),
    Step::Call(Call::MapSub(ZERO, 0, 65_537), BAD_RANGE),
    Step::Call(Call::MapSub(ZERO, 65_535, 1), BAD_RANGE),
    Step::Call(Call::MapSub(ZERO, 65_536, 1), BAD_RANGE),
    Step::Call(Call::MapSub(ZERO, u32::MAX, u32::MAX), BAD_RANGE),
    Step::Call(Call::UnmapSub(ZERO, 65_536, 1), BAD_RANGE),
    Step::Call(Call::UnmapSub(ZERO, 0, 65_537), BAD_RANGE),
    Step::Call(Call::Write(ZERO, 65_536, 1), BAD_RANGE),
    Step::Call(Call::Write(ZERO, 0, u32::MAX), BAD_RANGE),
    Step::Call(Call::Zero(ZERO, 65_536, 1), BAD_RANGE),
    Step::Call(Call::Zero(ZERO, u32::MAX, 1), BAD_RANGE),
];

// Numbers on both sides of 65,535 are refused alike: in 16 bits 65,536 would be 0, and 65,537 would be 1.
#[test]
fn ranges_of_large_numbers(rt: HostRuntime) {
    expect_row(&rt, rt.alloc(), Start::Empty(16), RANGES_OF_LARGE_NUMBERS);
}

const COUNTS_AT_THEIR_LIMIT: &[Step] = &[
    Step::Call(Call::Alloc, Answer::Page(ZERO)),
    Step::Times(65_534, Call::MapWhole(ZERO), Answer::Done),
    Step::Call(Call::MapWhole(ZERO), TOO_MANY),
    Step::Call(Call::MapSub(ZERO, 0, 1), TOO_MANY),
    Step::Call(Call::SplitPmd(ZERO), Answer::Done),
    Step::Call(Call::MapSub(ZERO, 0, 1), TOO_MANY),
    Step::Call(Call::Alloc, Answer::Page(ONE)),
    Step::Times(65_535, Call::Pin(ONE), Answer::Done),
    Step::Call(Call::Pin(ONE), TOO_MANY),
];

#[test]
fn counts_at_their_limit(rt: HostRuntime) {
    expect_row(&rt, rt.alloc(), Start::Empty(16), COUNTS_AT_THEIR_LIMIT);
}

const NO_FREE_BLOCK: &[Step] = &[
    Step::Call(Call::Alloc, Answer::Page(ZERO)),
    Step::Call(Call::Alloc, NO_BLOCK),
    Step::Call(Call::SplitPmd(ZERO), Answer::Done),
    Step::Call(Call::UnmapSub(ZERO, 1, 511), QUEUED),
    Step::Scan(1, [1, 1, 0, 0, 0, 0]),
    Step::Call(Call::Alloc, NO_BLOCK),
    Step::Call(
        Call::UnmapSub(ZERO, 0, 1),
        Answer::Changed(Outcome::Freed, 0, 1),
    ),
    Step::Call(Call::Alloc, Answer::Page(ONE)),
    Step::Frames(512, 512),
];

#[test]
fn no_free_block(rt: HostRuntime) {
    expect_row(&rt, rt.alloc(), Start::Empty(1), NO_FREE_BLOCK);
}

const PINNED_PAGE_IS_FREED_BY_UNPIN: &[Step] = &[
    Step::Call(Call::Alloc, Answer::Page(ZERO)),
    Step::Call(Call::Alloc, NO_BLOCK),
    Step::Call(Call::MapSub(ZERO, 511, 2), BAD_RANGE),
    Step::Call(Call::Pin(ZERO), Answer::Done),
    Step::Call(Call::UnmapWhole(ZERO), STAYS),
    Step::Call(Call::Unpin(ZERO), FREED),
    Step::Call(Call::Pin(ZERO), NO_PAGE),
    Step::Call(Call::Alloc, Answer::Page(ONE)),
];

#[test]
fn pinned_page_is_freed_by_unpin(rt: HostRuntime) {
    expect_row(
        &rt,
        rt.alloc(),
        Start::Empty(1),
        PINNED_PAGE_IS_FREED_BY_UNPIN,
    );
}
