//! One read or one write that fails, at each place, and the number of cases.
use crate::devices::{LARGE, Manner, Mishap};
use crate::passages::{Passed, WORKS, Work, done, whole};
use std::alloc::Global;
use std::io::ErrorKind;
use std::thread::Threads;
use thp_run::RunFault;

/// Interrupted reads are reported as failed ones, too.
const FAILURES: [Mishap; 3] = [
    Mishap::Fails(ErrorKind::Other),
    Mishap::Fails(ErrorKind::Interrupted),
    Mishap::Fails(ErrorKind::UnexpectedEof),
];

const WRITE_MISHAPS: [Mishap; 3] = [
    Mishap::Fails(ErrorKind::Other),
    Mishap::Fails(ErrorKind::Interrupted),
    Mishap::TakesNone,
];

/// Whether the read of this number failed, nothing was read after it, and nothing was written.
fn has_failed_read(passed: &Passed, call: u32) -> bool {
    matches!(passed.ended, Err(RunFault::Read))
        && passed.failed == (true, false)
        && passed.reads == call.saturating_add(1)
        && passed.writes == 0
        && passed.held.is_empty()
}

/// Whether the write of this number failed, nothing was written after it, and the text before is a prefix of the whole.
fn has_failed_write(passed: &Passed, call: u32, front: &[u8]) -> bool {
    matches!(passed.ended, Err(RunFault::Write))
        && passed.failed == (false, true)
        && passed.writes == call.saturating_add(1)
        && passed.held.as_slice() == front
}

/// Makes each read fail in turn, with this many bytes per read; returns the number of cases, or `None` if one ends wrong.
fn fail_reads<T: Threads + Sync>(
    rt: &T,
    alloc: Global,
    work: &Work,
    step: usize,
    mishap: Mishap,
) -> Option<u32> {
    let all = done(rt, alloc, work, Manner::by(step), Manner::by(step)).reads;
    for call in 0..all {
        let passed = done(rt, alloc, work, Manner::with(step, call, mishap), LARGE);
        if !has_failed_read(&passed, call) {
            return None;
        }
    }
    Some(all)
}

/// Makes each write and the flush fail in turn, with this many bytes per write; returns the number of cases, or `None` if one
/// ends wrong.
fn fail_writes<T: Threads + Sync>(
    rt: &T,
    alloc: Global,
    work: &Work,
    step: usize,
    mishap: Mishap,
) -> Option<u32> {
    let text = whole(rt, alloc, work)?;
    let all = done(rt, alloc, work, LARGE, Manner::by(step)).writes;
    // the last call is the flush, which takes no byte anyway
    let places = match mishap {
        Mishap::Fails(_) => all,
        Mishap::TakesNone => all.saturating_sub(1),
    };
    for call in 0..places {
        let passed = done(rt, alloc, work, LARGE, Manner::with(step, call, mishap));
        let taken = (call as usize).saturating_mul(step).min(text.len());
        if !has_failed_write(&passed, call, &text.as_slice()[..taken]) {
            return None;
        }
    }
    Some(places)
}

/// What fails.
#[derive(Clone, Copy)]
enum Failing {
    Reads,
    Writes,
}

/// Makes each call fail in turn in each way, in all works, in steps of 1, 5 and 8,192 bytes; returns the number of cases, or
/// `None` if one ends wrong.
fn fail_each<T: Threads + Sync>(
    rt: &T,
    alloc: Global,
    failing: Failing,
    mishaps: [Mishap; 3],
) -> Option<u32> {
    let mut tried = 0u32;
    for work in &WORKS {
        for mishap in mishaps {
            for step in [1, 5, 8192] {
                let failed = match failing {
                    Failing::Reads => fail_reads(rt, alloc, work, step, mishap)?,
                    Failing::Writes => fail_writes(rt, alloc, work, step, mishap)?,
                };
                tried = tried.saturating_add(failed);
            }
        }
    }
    Some(tried)
}

#[test]
fn each_read_fails(rt: HostRuntime) {
    let tried = fail_each(&rt, rt.alloc(), Failing::Reads, FAILURES);
    assert!(rt; tried == Some(1_362));
}

#[test]
fn each_write_fails(rt: HostRuntime) {
    let tried = fail_each(&rt, rt.alloc(), Failing::Writes, WRITE_MISHAPS);
    assert!(rt; tried == Some(2_820));
}
