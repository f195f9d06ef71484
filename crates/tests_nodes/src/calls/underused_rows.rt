//! Rows on nodes whose shrinker looks for underused pages: order 2, more than one zero-filled subpage.
use crate::calls::steps::{Step, expect_events, expect_row};
use crate::event_rows::{FIRST, Kind, NONE, ONE, ZERO};
use crate::nodes::Start;
use tests_steps::{Answer, Call, QUEUED, STAYS};
use thp_history::{Outcome, Refusal};
use thp_node::Counters;

const UNDERUSED_SCAN: &[Step] = &[
    Step::Call(Call::Alloc, Answer::Page(ZERO)),
    Step::Call(Call::Write(ZERO, 0, 3), Answer::Done),
    Step::Scan(8, [1, 0, 0, 0, 0, 1]),
    Step::Call(Call::SplitPmd(ZERO), Answer::Done),
    Step::Call(Call::UnmapSub(ZERO, 0, 1), QUEUED),
    Step::Scan(8, [1, 1, 0, 0, 0, 0]),
    Step::Call(Call::UnmapSub(ZERO, 3, 1), STAYS),
    Step::Call(Call::MapSub(ZERO, 3, 1), Answer::Refused(Refusal::Gone)),
    Step::Call(Call::Write(ZERO, 1, 1), Answer::Refused(Refusal::IsSplit)),
    Step::Call(
        Call::UnmapSub(ZERO, 1, 2),
        Answer::Changed(Outcome::Freed, 1, 2),
    ),
    Step::Frames(0, 4),
];

const UNDERUSED_SCAN_EVENTS: &[Kind] = &[
    Kind::Write(ZERO, 0, 3),
    Kind::Taken(ZERO),
    Kind::Used(ZERO),
    Kind::SplitPmd(ZERO),
    Kind::UnmapSub(ZERO, 0, 1, Outcome::Queued, NONE),
    Kind::Taken(ZERO),
    Kind::SplitApart(ZERO, FIRST, (3, 1)),
    Kind::UnmapSub(ZERO, 3, 1, Outcome::Stays, NONE),
    Kind::UnmapSub(ZERO, 1, 2, Outcome::Freed, (1, 2)),
];

#[test]
fn underused_scan(rt: HostRuntime) {
    expect_events(
        &rt,
        rt.alloc(),
        Start::Small(4),
        UNDERUSED_SCAN,
        1,
        UNDERUSED_SCAN_EVENTS,
    );
}

const UNDERUSED_PINNED: &[Step] = &[
    Step::Call(Call::Alloc, Answer::Page(ZERO)),
    Step::Call(Call::Alloc, Answer::Page(ONE)),
    Step::Call(Call::Write(ZERO, 0, 2), Answer::Done),
    Step::Call(Call::Pin(ONE), Answer::Done),
    Step::Scan(8, [2, 1, 1, 0, 1, 0]),
    Step::Queued(0),
    Step::Frames(6, 2),
    Step::Counters(Counters {
        split_page: 1,
        split_page_failed: 1,
        deferred_split_page: 0,
        underused_split_page: 1,
        split_pmd: 1,
    }),
];

#[test]
fn underused_pinned(rt: HostRuntime) {
    expect_row(&rt, rt.alloc(), Start::Small(4), UNDERUSED_PINNED);
}

const BLOCK_OF_A_LIVE_PAGE: &[Step] = &[
    Step::Call(Call::Alloc, Answer::Page(ZERO)),
    Step::Scan(1, [1, 1, 0, 0, 0, 0]),
    Step::Call(Call::Alloc, Answer::Refused(Refusal::NoBlock)),
    Step::Call(
        Call::UnmapSub(ZERO, 0, 4),
        Answer::Changed(Outcome::Freed, 0, 0),
    ),
    Step::Call(Call::Alloc, Answer::Page(ONE)),
    Step::Frames(4, 4),
];

#[test]
fn block_of_a_live_page(rt: HostRuntime) {
    expect_row(&rt, rt.alloc(), Start::Small(1), BLOCK_OF_A_LIVE_PAGE);
}
