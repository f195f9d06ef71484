//! Rows of open batches in sections.
use crate::scripts::runs::{ExpectedAnswer, events_on, expect_answers, ran, settings_of};
use std::alloc::Global;
use std::process::Abort;
use std::thread::Threads;
use thp_history::{Outcome, Refusal};
use thp_worker::NoGate;

// Runs a script of one worker at most on a node of this many blocks, checks the answers of sections, and returns how
// many events there are.
fn events_of<R: Threads + Abort + Sync>(
    rt: &R,
    alloc: Global,
    blocks: u32,
    script: &[u8],
    wanted: &[(usize, &[ExpectedAnswer])],
) -> usize {
    let settings = settings_of(rt, 1, blocks, 1);
    let run = ran(rt, alloc, &settings, script, &NoGate);
    expect_answers(rt, &run, wanted);
    let events = events_on(&run, 0);
    drop(run);
    events
}

const FREED: &[ExpectedAnswer] = &[
    ExpectedAnswer::Page(0),
    ExpectedAnswer::Done,
    ExpectedAnswer::Lost(Outcome::Queued),
    ExpectedAnswer::Taken(1),
    ExpectedAnswer::Lost(Outcome::Freed),
    ExpectedAnswer::Page(1),
    ExpectedAnswer::NoMore,
    ExpectedAnswer::Back(0, 0),
    ExpectedAnswer::Queued(0),
];

#[test]
fn freed_from_a_batch_and_block_reused(rt: HostRuntime) {
    let script =
        b"setup\nalloc 0\nsplitpmd 0 0\nunmap 0 0 0 1\ntake 0 8\nunmap 0 0 1 511\nalloc 0\nsplitnext 0\nputback 0\ncount 0\n";
    let _events = events_of(
        &rt,
        rt.alloc(),
        1,
        script.as_slice(),
        &[(0, FREED), (1, &[])],
    );
}

const CLOSED: &[ExpectedAnswer] = &[
    ExpectedAnswer::Page(0),
    ExpectedAnswer::Done,
    ExpectedAnswer::Lost(Outcome::Queued),
    ExpectedAnswer::Page(1),
    ExpectedAnswer::Done,
    ExpectedAnswer::Lost(Outcome::Queued),
    ExpectedAnswer::Done,
    ExpectedAnswer::Done,
    ExpectedAnswer::Taken(1),
    ExpectedAnswer::Done,
    ExpectedAnswer::Pinned(0),
    ExpectedAnswer::Back(0, 1),
    ExpectedAnswer::Scanned(1, 0, 1, 0, 1),
    ExpectedAnswer::Refused(Refusal::Closed),
    ExpectedAnswer::Refused(Refusal::Closed),
    ExpectedAnswer::Lost(Outcome::Stays),
    ExpectedAnswer::Lost(Outcome::Stays),
    ExpectedAnswer::Queued(0),
];

#[test]
fn closed_node_drops(rt: HostRuntime) {
    let script =
        b"setup\nalloc 0\nsplitpmd 0 0\nunmap 0 0 0 1\nalloc 0\nsplitpmd 0 1\nunmap 0 1 0 1\npin 0 0\npin 0 1\ntake 0 1\nclose 0\nsplitnext 0\nputback 0\nscan 0 8\nalloc 0\nclose 0\nunpin 0 0\nunmap 0 0 1 1\ncount 0\n";
    let _events = events_of(&rt, rt.alloc(), 16, script.as_slice(), &[(0, CLOSED)]);
}

const ONE_AT_A_TIME: &[ExpectedAnswer] = &[
    ExpectedAnswer::Page(0),
    ExpectedAnswer::Done,
    ExpectedAnswer::Lost(Outcome::Queued),
    ExpectedAnswer::Taken(1),
    ExpectedAnswer::Refused(Refusal::HasBatch),
    ExpectedAnswer::Refused(Refusal::HasBatch),
    ExpectedAnswer::Split(0),
    ExpectedAnswer::Back(0, 0),
    ExpectedAnswer::NoBatch,
    ExpectedAnswer::NoBatch,
];

#[test]
fn one_batch_at_a_time(rt: HostRuntime) {
    let script =
        b"worker 1\nalloc 0\nsplitpmd 0 0\nunmap 0 0 0 1\ntake 0 8\ntake 0 8\nscan 0 1\nsplitnext 0\nputback 0\nputback 0\nsplitnext 0\n";
    let wanted: &[(usize, &[ExpectedAnswer])] = &[(0, &[]), (1, ONE_AT_A_TIME)];
    let _events = events_of(&rt, rt.alloc(), 16, script.as_slice(), wanted);
}

const LEFT_OPEN: &[ExpectedAnswer] = &[
    ExpectedAnswer::Page(0),
    ExpectedAnswer::Done,
    ExpectedAnswer::Lost(Outcome::Queued),
    ExpectedAnswer::Taken(1),
];

const TAKEN_AGAIN: &[ExpectedAnswer] = &[ExpectedAnswer::Queued(1), ExpectedAnswer::Taken(1)];

// A batch that setup leaves open is put back before the workers start: the worker finds the page queued.
#[test]
fn open_batch_goes_back_at_a_sections_end(rt: HostRuntime) {
    let script =
        b"setup\nalloc 0\nsplitpmd 0 0\nunmap 0 0 0 1\ntake 0 8\nworker 1\ncount 0\ntake 0 8\n";
    let wanted: &[(usize, &[ExpectedAnswer])] = &[(0, LEFT_OPEN), (1, TAKEN_AGAIN)];
    let events = events_of(&rt, rt.alloc(), 16, script.as_slice(), wanted);
    // the page was taken and put back twice
    assert!(rt; events == 7);
}

const PINNED_LAST: &[ExpectedAnswer] = &[
    ExpectedAnswer::Scanned(2, 1, 1, 1, 0),
    ExpectedAnswer::Scanned(0, 0, 0, 0, 0),
    ExpectedAnswer::Lost(Outcome::Stays),
    ExpectedAnswer::Scanned(1, 1, 0, 0, 0),
];

#[test]
fn pinned_goes_to_the_tail(rt: HostRuntime) {
    let script =
        b"setup\nalloc 0\nsplitpmd 0 0\nunmap 0 0 0 1\nalloc 0\nsplitpmd 0 1\nunmap 0 1 0 1\npin 0 0\nworker 1\nscan 0 3\nscan 0 0\nunpin 0 0\nscan 0 3\n";
    let _events = events_of(&rt, rt.alloc(), 16, script.as_slice(), &[(1, PINNED_LAST)]);
}
