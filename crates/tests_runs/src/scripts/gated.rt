//! Two workers whose commands are done in a chosen order, by a gate that holds them up.
use crate::scripts::runs::{ExpectedAnswer, events_on, expect_answers, ran, settings_of};
use crate::turns::InTurns;
use std::alloc::{AllocError, Global};
use std::process::Abort;
use std::thread::Threads;
use thp_history::Refusal;

// Runs a script of two workers with two commands each, `first` before `other`, checks the answers of both, and returns how many
// events there are.
fn take_turns<R: Threads + Abort + Sync>(
    rt: &R,
    alloc: Global,
    first: u32,
    other: u32,
    script: &[u8],
    wanted: [&[ExpectedAnswer]; 2],
) -> usize {
    let settings = settings_of(rt, 1, 16, first.max(other));
    let gate = InTurns::new(first, other);
    let run = ran(rt, alloc, &settings, script, &gate);
    assert!(rt; gate.held());
    let wanted = [(first as usize, wanted[0]), (other as usize, wanted[1])];
    expect_answers(rt, &run, &wanted);
    let events = events_on(&run, 0);
    drop(run);
    events
}

const TWO_ALLOCATIONS: &[u8] = b"worker 1\nalloc 0\nalloc 0\nworker 2\nalloc 0\nalloc 0\n";

const BY_9_AND_63: &[u8] = b"worker 9\nalloc 0\nalloc 0\nworker 63\nalloc 0\nalloc 0\n";

// The answers of the worker that goes first, and of the other one.
const EARLIER: &[ExpectedAnswer] = &[ExpectedAnswer::Page(0), ExpectedAnswer::Page(2)];

const LATER: &[ExpectedAnswer] = &[ExpectedAnswer::Page(1), ExpectedAnswer::Page(3)];

#[test]
fn gated_workers(rt: HostRuntime) {
    let _events = take_turns(&rt, rt.alloc(), 1, 2, TWO_ALLOCATIONS, [EARLIER, LATER]);
}

#[test]
fn gated_workers_exchanged(rt: HostRuntime) {
    let _events = take_turns(&rt, rt.alloc(), 2, 1, TWO_ALLOCATIONS, [EARLIER, LATER]);
}

#[test]
fn gated_worker_9(rt: HostRuntime) {
    let _events = take_turns(&rt, rt.alloc(), 9, 63, BY_9_AND_63, [EARLIER, LATER]);
}

#[test]
fn gated_worker_63(rt: HostRuntime) {
    let _events = take_turns(&rt, rt.alloc(), 63, 9, BY_9_AND_63, [EARLIER, LATER]);
}

// Both workers have a batch open at the same time, and each puts its own page back.
#[test]
fn gated_batches(rt: HostRuntime) {
    let script =
        b"setup\nalloc 0\nsplitpmd 0 0\nunmap 0 0 0 1\nalloc 0\nsplitpmd 0 1\nunmap 0 1 0 1\nworker 1\ntake 0 1\nputback 0\nworker 2\ntake 0 1\nputback 0\n";
    let wanted: &[ExpectedAnswer] = &[ExpectedAnswer::Taken(1), ExpectedAnswer::Back(1, 0)];
    let events = take_turns(&rt, rt.alloc(), 2, 1, script.as_slice(), [wanted, wanted]);
    assert!(rt; events == 10);
}

// Writes a script of `setup` that allocates and frees 4,096 pages and then has two more, each of which a worker pins twice.
fn write_late_pages(text: &mut String) -> Result<(), AllocError> {
    text.push_str("setup\n")?;
    for page in 0..4_096u32 {
        write!(text, "alloc 0\nunmapwhole 0 {page}\n")?;
    }
    text.push_str("alloc 0\nalloc 0\n")?;
    text.push_str("worker 1\npin 0 4096\npin 0 4096\nworker 2\npin 0 4097\npin 0 4097\n")
}

// Pages of high numbers are reached while the other worker has its pass, too.
#[test]
fn gated_late_pages(rt: HostRuntime) {
    let mut script = String::new(rt.alloc());
    write_late_pages(&mut script).expect(&rt, "memory");
    let wanted: &[ExpectedAnswer] = &[ExpectedAnswer::Done, ExpectedAnswer::Done];
    let _events = take_turns(&rt, rt.alloc(), 1, 2, script.as_bytes(), [wanted, wanted]);
}

// Pages whose numbers take more than 32 bits are refused at once while the other worker has its pass, too.
#[test]
fn gated_absent_pages(rt: HostRuntime) {
    let script =
        b"worker 1\nunmap 0 4294967296 0 1\nunmap 0 18446744073709551615 0 1\nworker 2\nunmap 0 4294967297 0 1\nunmap 0 4294967298 0 1\n";
    let absent = ExpectedAnswer::Refused(Refusal::NoPage);
    let wanted: &[ExpectedAnswer] = &[absent, absent];
    let events = take_turns(&rt, rt.alloc(), 1, 2, script.as_slice(), [wanted, wanted]);
    assert!(rt; events == 0);
}

// Each worker tries the page of its own batch while the other one has a batch, too.
#[test]
fn gated_tries(rt: HostRuntime) {
    let script =
        b"setup\nalloc 0\nsplitpmd 0 0\nunmap 0 0 0 1\nalloc 0\nsplitpmd 0 1\nunmap 0 1 0 1\nworker 1\ntake 0 1\nsplitnext 0\nworker 2\ntake 0 1\nsplitnext 0\n";
    let first: &[ExpectedAnswer] = &[ExpectedAnswer::Taken(1), ExpectedAnswer::Split(0)];
    let other: &[ExpectedAnswer] = &[ExpectedAnswer::Taken(1), ExpectedAnswer::Split(1)];
    let events = take_turns(&rt, rt.alloc(), 1, 2, script.as_slice(), [first, other]);
    assert!(rt; events == 10);
}
