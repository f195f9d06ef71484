//! Inputs at their limit and beyond it.
use crate::devices::{LARGE, Manner, Source};
use crate::passages::pass;
use std::alloc::Global;
use std::thread::Threads;
use thp_run::{Report, RunFault, Settings, TextKind};
use thp_script::MAX_INPUT;

/// The number of bytes that a read has room for.
const ROOM: usize = 8192;

/// Whether an endless input, read in parts of this size, is reported as too long, nothing is written, and nothing is read after
/// the part with the first byte beyond the limit.
fn stops<T: Threads + Sync>(
    rt: &T,
    alloc: Global,
    settings: Option<Settings>,
    step: usize,
) -> bool {
    let source = Source::new(b"", usize::MAX, Manner::by(step));
    let passed = pass(rt, alloc, settings, source, LARGE);
    let is_reported = matches!(
        passed.ended,
        Err(RunFault::Text {
            line: 0,
            kind: TextKind::TooLong
        })
    );
    is_reported
        && passed.held.is_empty()
        && passed.given > MAX_INPUT
        && passed.given <= MAX_INPUT.saturating_add(ROOM.min(step))
}

#[test]
fn no_run_reads_past_the_limit(rt: HostRuntime) {
    let settings = Settings::new(1, 16, 1, Report::Totals);
    assert!(rt; settings.is_some());
    for step in [1, 4095, 8192] {
        assert!(rt; stops(&rt, rt.alloc(), settings, step));
    }
}

#[test]
fn no_check_reads_past_the_limit(rt: HostRuntime) {
    for step in [1, 4095, 8192] {
        assert!(rt; stops(&rt, rt.alloc(), None, step));
    }
}

/// Whether the longest script, which is read whole, runs and reports nothing.
fn is_run<T: Threads + Sync>(rt: &T, alloc: Global) -> bool {
    let settings = Settings::new(1, 16, 1, Report::Answers);
    let source = Source::new(b"", MAX_INPUT, LARGE);
    let passed = pass(rt, alloc, settings, source, LARGE);
    settings.is_some()
        && passed.ended.is_ok()
        && passed.given == MAX_INPUT
        && passed.held.is_empty()
}

#[test]
fn the_longest_script_runs(rt: HostRuntime) {
    assert!(rt; is_run(&rt, rt.alloc()));
}
