//! The state that a replay shows after its events.
ghost use Rattle.std.specs.Prelude.{◌≤◌};

use crate::checks::histories::{add_rows, events_of, large, queued_then};
use crate::checks::underused::small;
use crate::equal::expect_equal;
use crate::event_rows::{FIRST, Kind, ONE, Row, TWO, WHOLE, ZERO};
use std::alloc::Global;
use std::process::Abort;
use thp_check::{LivePage, Replay, Standing};
use thp_history::{Event, Outcome, PageId, Shape, SubSet};

// The replay of these events, which are legal on a node of this shape.
fn replay_of(rt: &impl Abort, alloc: Global, shape: Shape, events: &[Event]) -> Replay
    requires least { 2 ≤ shape.order }
    requires most { shape.order ≤ 9 }
{
    let mut replay = Replay::new(alloc, shape).expect(rt, "memory");
    for (_place, event) in events.iter().enumerate() {
        replay = replay.admit(event).expect(rt, "a legal event");
    }
    replay
}

// The replay of these rows on a small node.
fn small_replay(rt: &impl Abort, alloc: Global, rows: &[Row]) -> Replay {
    let events = events_of(rt, alloc, rows);
    let replay = replay_of(rt, alloc, small(4), &events);
    drop(events);
    replay
}

// The number of pages ever allocated, the length of the queue, and whether the node is closed.
fn has_counts(replay: &Replay, allocations: u64, queued: u32, is_closed: bool) -> bool {
    replay.allocations() == allocations
        && replay.queue_len() == queued
        && replay.is_closed() == is_closed
}

// The replay of these rows on a small node has these counts, and page 0 is the oldest where one is queued.
fn expect_counts(
    rt: &impl Abort,
    alloc: Global,
    rows: &[Row],
    allocations: u64,
    queued: u32,
    is_closed: bool,
) {
    let replay = small_replay(rt, alloc, rows);
    expect_equal(
        rt,
        has_counts(&replay, allocations, queued, is_closed),
        true,
    );
    let oldest = (queued > 0).then_some(PageId(ZERO));
    expect_equal(rt, replay.oldest(), oldest);
    drop(replay);
}

const TWO_PAGES: &[Row] = &[(0, Kind::Alloc(ZERO, 0)), (0, Kind::Alloc(ONE, 1))];

const TWO_PAGES_CLOSED: &[Row] = &[
    (0, Kind::Alloc(ZERO, 0)),
    (0, Kind::Alloc(ONE, 1)),
    (0, Kind::Close),
];

#[test]
fn replay_reports_of_its_node(rt: HostRuntime) {
    expect_counts(&rt, rt.alloc(), &[], 0, 0, false);
    expect_counts(&rt, rt.alloc(), TWO_PAGES, 2, 2, false);
    expect_counts(&rt, rt.alloc(), TWO_PAGES_CLOSED, 2, 2, true);
}

// The pages have these numbers.
fn are_numbers(pages: &[PageId], numbers: &[u64]) -> bool {
    for (place, number) in numbers.iter().enumerate() {
        if pages.get(place) != Some(&PageId(*number)) {
            return false;
        }
    }
    pages.len() == numbers.len()
}

// The pages of the queue are these.
fn is_queue(replay: &mut Replay, alloc: Global, pages: &[u64]) -> bool {
    match replay.queue(alloc) {
        Ok(queue) => are_numbers(&queue, pages),
        Err(_) => false,
    }
}

// The pages of a caller's flight are these.
fn is_flight(replay: &Replay, alloc: Global, caller: u32, pages: &[u64]) -> bool {
    match replay.flight(alloc, caller) {
        Ok(flight) => are_numbers(&flight, pages),
        Err(_) => false,
    }
}

// The live pages are these.
fn are_live(replay: &Replay, alloc: Global, pages: &[u64]) -> bool {
    match replay.live_pages(alloc) {
        Ok(live) => are_numbers(&live, pages),
        Err(_) => false,
    }
}

fn page_of(rt: &impl Abort, replay: &Replay, page: PageId) -> LivePage {
    replay.page(page).expect(rt, "a live page")
}

// The page is in block 2 and in the batch of caller 64, has a pin, is not mapped whole, and holds all frames.
fn is_pinned_in_batch(page: &LivePage) -> bool {
    let stands = page.block == 2 && page.standing == Standing::Batch(64);
    let holds = page.pins == 1 && page.whole == 0 && page.held == SubSet::full(9);
    stands && holds
}

// The page is not live.
fn is_gone(replay: &Replay, page: PageId) -> bool {
    replay.page(page) == None && replay.own(page, 0) == None
}

const THREE: u64 = 3;

const ALL_ZERO_AND_ONE: &[u64] = &[ZERO, ONE];

const ALL_LIVE: &[u64] = &[ZERO, ONE, TWO];

const ONLY_TWO: &[u64] = &[TWO];

const TAKEN_BY_ZERO: &[Row] = &[
    (0, Kind::Pin(TWO)),
    (0, Kind::UnmapSub(THREE, 1, 511, Outcome::Freed, WHOLE)),
    (0, Kind::Taken(ZERO)),
    (0, Kind::Taken(ONE)),
];

const TAKEN_BY_64: &[Row] = &[(64, Kind::Taken(TWO))];

fn expect_only_two_queued(rt: &impl Abort, alloc: Global, events: &[Event]) {
    let mut replay = replay_of(rt, alloc, large(), events);
    expect_equal(rt, is_queue(&mut replay, alloc, ONLY_TWO), true);
    drop(replay);
}

fn expect_standings(rt: &impl Abort, alloc: Global, replay: &Replay) {
    expect_equal(rt, is_flight(replay, alloc, 0, ALL_ZERO_AND_ONE), true);
    expect_equal(rt, is_flight(replay, alloc, 64, ONLY_TWO), true);
    expect_equal(rt, are_live(replay, alloc, ALL_LIVE), true);
    expect_equal(
        rt,
        is_pinned_in_batch(&page_of(rt, replay, PageId(TWO))),
        true,
    );
    expect_equal(rt, is_gone(replay, PageId(THREE)), true);
}

fn expect_standings_after(rt: &impl Abort, alloc: Global, events: &[Event]) {
    let replay = replay_of(rt, alloc, large(), events);
    expect_standings(rt, alloc, &replay);
    drop(replay);
}

// Pages 0 to 3 of a large node were queued, and page 3 freed. Caller 0 took two of them, and caller 64, whose flight is in the
// same list, took one.
#[test]
fn replay_reports_where_pages_stand(rt: HostRuntime) {
    let alloc = rt.alloc();
    let mut events = queued_then(&rt, alloc, 4, TAKEN_BY_ZERO);
    expect_only_two_queued(&rt, alloc, &events);
    add_rows(&rt, &mut events, TAKEN_BY_64);
    expect_standings_after(&rt, alloc, &events);
    drop(events);
}

// The frames held and given back.
fn has_frames(replay: &Replay, held: u128, given: u128) -> bool {
    replay.frames_held() == held && replay.frames_given() == given
}

// The pages split, and those of them that were underused.
fn has_splits(replay: &Replay, splits: u64, underused: u64) -> bool {
    let counters = replay.counters();
    counters.split_page == splits && counters.underused_split_page == underused
}

// The pages found pinned, the pages queued by an unmap or an unpin, and the PMD mappings split.
fn has_others(replay: &Replay, failed: u64, deferred: u64, pmds: u128) -> bool {
    let counters = replay.counters();
    counters.split_page_failed == failed
        && counters.deferred_split_page == deferred
        && counters.split_pmd == pmds
}

// The page was split, is worth that, and is partly mapped; its last three subpages are used and zero-filled; it holds no frame.
fn is_split_in_part(page: &LivePage) -> bool {
    let rest = SubSet::range(1, 3);
    let is_split = page.split && page.worth_split && page.partly_mapped;
    let has_rest = page.used == rest && page.zero_filled == rest;
    is_split && has_rest && page.held == SubSet::empty()
}

// The first subpage of page 1 is unmapped, the last is mapped, and there is no fifth.
fn has_own(replay: &Replay) -> bool {
    let one = PageId(ONE);
    replay.own(one, 0) == Some(0) && replay.own(one, 3) == Some(1) && replay.own(one, 4) == None
}

// A page that is partly mapped and one that is underused are split, and one that is pinned isn't.
const TWO_SPLITS: &[Row] = &[
    (0, Kind::Alloc(ZERO, 0)),
    (0, Kind::Alloc(ONE, 1)),
    (0, Kind::Alloc(TWO, 2)),
    (0, Kind::Pin(TWO)),
    (0, Kind::Write(ONE, 0, 1)),
    (0, Kind::Taken(ZERO)),
    (0, Kind::Taken(ONE)),
    (0, Kind::Taken(TWO)),
    (0, Kind::Split(ZERO, (0, 4))),
    (0, Kind::Split(ONE, (1, 3))),
    (0, Kind::Pinned(TWO)),
    (0, Kind::UnmapSub(ONE, 0, 1, Outcome::Stays, FIRST)),
];

fn expect_sums(rt: &impl Abort, replay: &Replay) {
    expect_equal(rt, has_frames(replay, 4, 8), true);
    expect_equal(rt, has_splits(replay, 2, 2), true);
    expect_equal(rt, has_others(replay, 1, 0, 2), true);
    expect_equal(
        rt,
        is_split_in_part(&page_of(rt, replay, PageId(ONE))),
        true,
    );
    expect_equal(rt, has_own(replay), true);
}

#[test]
fn replay_reports_what_events_add_up_to(rt: HostRuntime) {
    let replay = small_replay(&rt, rt.alloc(), TWO_SPLITS);
    expect_sums(&rt, &replay);
    drop(replay);
}
