//! Reports of two workers on one node whose commands are done in a chosen order.
ghost use Rattle.std.specs.Prelude.{◌≡◌, false};

use crate::program::checks::check_reports;
use crate::turns::InTurns;
use std::alloc::Global;
use std::process::Abort;
use std::thread::Threads;
use thp_run::{Report, Settings, Watched, run};

const TWO_EACH: &[u8] = b"worker 1\nalloc 0\nalloc 0\nworker 2\nalloc 0\nalloc 0\n";

// The worker that goes first, the answers, and the journal.
const IN_TURNS: &[(u32, &[u8], &[u8])] = &[
    (
        1,
        b"1 1 page 0\n1 2 page 2\n2 1 page 1\n2 2 page 3\n",
        b"thp-journal 1\nnode 0 blocks 16\n1 alloc 0\n2 alloc 1\n1 alloc 2\n2 alloc 3\nend\n",
    ),
    (
        2,
        b"1 1 page 1\n1 2 page 3\n2 1 page 0\n2 2 page 2\n",
        b"thp-journal 1\nnode 0 blocks 16\n2 alloc 0\n1 alloc 1\n2 alloc 2\n1 alloc 3\nend\n",
    ),
];

// A gate holds each worker up until the other's command before it is done. A gate serves one run.
fn are_run_in_turns<R: Threads + Sync>(
    rt: &R,
    alloc: Global,
    first: u32,
    settings: &Settings,
    writer: &mut Watched<Vec<u8>>,
) -> bool
    requires { writer.old.failed ≡ false }
{
    let gate = InTurns::new(first, 3u32.saturating_sub(first));
    let mut reader = Watched::new(TWO_EACH);
    run(rt, alloc, settings, &mut reader, writer, &gate).is_ok() && gate.held()
}

fn in_turns<R: Threads + Sync>(
    rt: &R,
    alloc: Global,
    first: u32,
    report: Report,
) -> Option<Vec<u8>> {
    let settings = Settings::new(1, 16, 2, report)?;
    let mut writer: Watched<Vec<u8>> = Watched::new(Vec::new(alloc));
    if are_run_in_turns(rt, alloc, first, &settings, &mut writer) {
        Some(writer.into_inner())
    } else {
        None
    }
}

fn expect_report<R: Threads + Abort + Sync>(
    rt: &R,
    alloc: Global,
    first: u32,
    report: Report,
    text: &[u8],
) {
    let reported = in_turns(rt, alloc, first, report).expect(rt, "a report");
    assert!(rt; reported.as_slice() == text);
}

#[test]
fn gated_workers(rt: HostRuntime) {
    let alloc = rt.alloc();
    for row in IN_TURNS {
        let (first, answers, journal) = *row;
        expect_report(&rt, alloc, first, Report::Answers, answers);
        expect_report(&rt, alloc, first, Report::Journal, journal);
        assert!(rt; check_reports(alloc, journal, true, b"legal\n"));
    }
}
