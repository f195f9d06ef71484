//! Runs of scripts by workers, and checks of journals: without memory nothing is written, and the next run is complete.
use crate::memory::devices::{Compares, print_call};
use std::alloc::Global;
use std::process::Abort;
use std::thread::Threads;
use thp_run::{NoGate, Report, RunFault, Settings, Watched, check_run, run};

/// Three workers on a node each, one of whom leaves a batch open.
pub(crate) const SCRIPT: &[u8] =
    b"setup\nalloc 0\nalloc 1\nalloc 2\npin 1 0\nworker 1\nsplitpmd 0 0\nunmap 0 0 0 256\nscan 0 8\nalloc 0\nsplitpmd 0 1\nunmap 0 1 0 1\ntake 0 8\nworker 2\nsplitpmd 1 0\nunmap 1 0 0 1\ntake 1 8\nsplitnext 1\nputback 1\ncount 1\nworker 3\nunmapwhole 2 0\nalloc 2\nmap 2 1 0 3\nwrite 2 1 0 4\nzero 2 1 0 1\nclose 2\n";

/// The reports of its run, as computed by the model in `tests/`.
const TOTALS: &[u8] =
    b"node 0\npages 2\nqueue 1\nframes_held 768\nframes_given 256\nthp_split_page 1\nthp_split_page_failed 0\nthp_deferred_split_page 2\nthp_split_pmd 2\nnode 1\npages 1\nqueue 1\nframes_held 512\nframes_given 0\nthp_split_page 0\nthp_split_page_failed 1\nthp_deferred_split_page 1\nthp_split_pmd 1\nnode 2\npages 2\nqueue 0\nframes_held 512\nframes_given 512\nthp_split_page 0\nthp_split_page_failed 0\nthp_deferred_split_page 0\nthp_split_pmd 0\n";

const ANSWERS: &[u8] =
    b"0 1 page 0\n0 2 page 0\n0 3 page 0\n0 4 ok\n1 1 ok\n1 2 queued -\n1 3 taken 1 split 1 pinned 0 back 0 dropped 0\n1 4 page 1\n1 5 ok\n1 6 queued -\n1 7 taken 1\n2 1 ok\n2 2 queued -\n2 3 taken 1\n2 4 pinned 0\n2 5 back 1 dropped 0\n2 6 count 1\n3 1 freed 0-511\n3 2 page 1\n3 3 ok\n3 4 ok\n3 5 ok\n3 6 ok\n";

pub(crate) const JOURNAL: &[u8] =
    b"thp-journal 3\nnode 0 blocks 16 order 9 underused off\n0 alloc 0\n1 splitpmd 0\n1 unmapsub 0 0 256 queued -\n1 taken 0\n1 split 0 0-255\n1 alloc 1\n1 splitpmd 1\n1 unmapsub 1 0 1 queued -\n1 taken 1\n1 back 1\nnode 1 blocks 16 order 9 underused off\n0 alloc 0\n0 pin 0\n2 splitpmd 0\n2 unmapsub 0 0 1 queued -\n2 taken 0\n2 pinned 0\n2 back 0\nnode 2 blocks 16 order 9 underused off\n0 alloc 0\n3 unmapwhole 0 freed 0-511\n3 alloc 1\n3 mapsub 1 0 3\n3 write 1 0 4\n3 zero 1 0 1\n3 close\nend\n";

/// Whether memory could not be allocated: a run or a check ends with no other error.
fn is_refused<T: Drop>(rt: &impl Abort, done: Result<T, RunFault>) -> bool {
    match done {
        Ok(_) => false,
        Err(fault) => {
            assert!(rt; matches!(fault, RunFault::OutOfMemory));
            true
        }
    }
}

/// Nothing was written if memory could not be allocated, otherwise the whole text.
fn expect_written(rt: &impl Abort, writer: Watched<Compares>, is_refused: bool) {
    let writer = writer.into_inner();
    if is_refused {
        assert!(rt; writer.has_nothing());
    } else {
        assert!(rt; writer.has_all());
    }
}

/// Runs the script, and returns whether memory could not be allocated.
fn run_once<T: Threads + Sync + Abort>(
    rt: &T,
    alloc: Global,
    settings: &Settings,
    text: &'static [u8],
) -> bool {
    let mut reader = Watched::new(SCRIPT);
    let mut writer = Watched::new(Compares::new(text));
    let done = run(rt, alloc, settings, &mut reader, &mut writer, &NoGate);
    let is_refused = is_refused(rt, done);
    expect_written(rt, writer, is_refused);
    is_refused
}

/// Runs the script, at the second try at the latest.
fn run_at_last<T: Threads + Sync + Abort + Print>(
    rt: &T,
    alloc: Global,
    report: Report,
    text: &'static [u8],
) {
    let settings = Settings::new(3, 16, 3, report).expect(rt, "within the limits");
    if run_once(rt, alloc, &settings, text) {
        print_call(rt, "run");
        assert!(rt; !run_once(rt, alloc, &settings, text));
    }
}

#[test]
fn run_of_workers(rt: HostRuntime) {
    run_at_last(&rt, rt.alloc(), Report::Totals, TOTALS);
    run_at_last(&rt, rt.alloc(), Report::Journal, JOURNAL);
    run_at_last(&rt, rt.alloc(), Report::Answers, ANSWERS);
}

/// Checks a journal, and returns whether memory could not be allocated.
fn check_once(rt: &impl Abort, alloc: Global, journal: &[u8], text: &'static [u8]) -> bool {
    let mut reader = Watched::new(journal);
    let mut writer = Watched::new(Compares::new(text));
    let done = check_run(alloc, &mut reader, &mut writer);
    let is_refused = is_refused(rt, done);
    expect_written(rt, writer, is_refused);
    is_refused
}

/// Checks a journal, at the second try at the latest.
fn check_at_last(rt: &(impl Abort + Print), alloc: Global, journal: &[u8], text: &'static [u8]) {
    if check_once(rt, alloc, journal, text) {
        print_call(rt, "check_run");
        assert!(rt; !check_once(rt, alloc, journal, text));
    }
}

#[test]
fn checks_of_journals(rt: HostRuntime) {
    check_at_last(&rt, rt.alloc(), JOURNAL, b"legal\n");
    let illegal = b"thp-journal 1\nnode 0 blocks 4\n0 alloc 0\n0 pin 0\n0 pin 1\nend\n";
    check_at_last(&rt, rt.alloc(), illegal, b"illegal line 5\n");
}
