//! Journals that are checked: legal ones, illegal ones, and those that are cut.
use crate::equal::expect_equal;
use crate::program::running::run_with;
use crate::program::whole_runs::FIRST_SCRIPT;
use std::alloc::Global;
use std::process::Abort;
use thp_run::{Report, RunFault, Settings, TextKind, Watched, check_run};

/// The output for a journal, and whether it is legal.
fn checked(alloc: Global, journal: &[u8]) -> Result<(bool, Vec<u8>), RunFault> {
    let mut reader = Watched::new(journal);
    let mut writer: Watched<Vec<u8>> = Watched::new(Vec::new(alloc));
    let legal = check_run(alloc, &mut reader, &mut writer)?;
    Ok((legal, writer.into_inner()))
}

/// Whether a journal is reported as legal or not, by this text.
pub(crate) fn check_reports(alloc: Global, journal: &[u8], legal: bool, text: &[u8]) -> bool {
    match checked(alloc, journal) {
        Ok((reported, written)) => reported == legal && written.as_slice() == text,
        Err(_) => false,
    }
}

/// The first error of a journal by line and kind.
fn first_fault(alloc: Global, journal: &[u8]) -> Option<(u32, TextKind)> {
    match checked(alloc, journal) {
        Err(RunFault::Text { line, kind }) => Some((line, kind)),
        _ => None,
    }
}

#[test]
fn legal_and_illegal_journals(rt: HostRuntime) {
    let alloc = rt.alloc();
    let empty = b"thp-journal 1\nnode 0 blocks 1\nend\n";
    expect_equal(&rt, check_reports(alloc, empty, true, b"legal\n"), true);
    let illegal = b"thp-journal 1\nnode 0 blocks 1\n0 alloc 0\n0 pin 1\nend\n";
    expect_equal(
        &rt,
        check_reports(alloc, illegal, false, b"illegal line 4\n"),
        true,
    );
    let second =
        b"thp-journal 1\nnode 0 blocks 1\n0 alloc 0\nnode 1 blocks 1\n0 unpin 0 stays -\nend\n";
    expect_equal(
        &rt,
        check_reports(alloc, second, false, b"illegal line 5\n"),
        true,
    );
}

/// Journals with the line and the kind of their first error.
const FAULTS: &[(&[u8], u32, TextKind)] = &[
    (b"", 1, TextKind::Cut),
    (b"thp-journal 9\n", 1, TextKind::BadNumber),
    (b"node 0 blocks 1\nend\n", 1, TextKind::BadOrder),
    (b"thp-journal 1\nend\n", 2, TextKind::BadOrder),
    (
        b"thp-journal 1\nnode 0 blocks 0\nend\n",
        2,
        TextKind::BadNumber,
    ),
    (
        b"thp-journal 1\nnode 0 blocks 1\n0 unpin 0 stays 1,2\nend\n",
        3,
        TextKind::BadSet,
    ),
    (
        b"thp-journal 1\nnode 0 blocks 1\n\nend\n",
        3,
        TextKind::BadWord,
    ),
    (
        b"thp-journal 1\nnode 0 blocks 1\nend\nend\n",
        4,
        TextKind::BadOrder,
    ),
];

#[test]
fn faults_of_journals(rt: HostRuntime) {
    for row in FAULTS {
        let (journal, line, kind) = *row;
        assert!(rt;
            first_fault(rt.alloc(), journal) == Some((line, kind)),
            "{line} {kind}"
        );
    }
}

/// Two pages that are queued, and the second or the first of them taken.
const TAKES_THE_SECOND: &[u8] =
    b"thp-journal 1\nnode 0 blocks 4\n0 alloc 0\n0 splitpmd 0\n0 unmapsub 0 0 1 queued -\n0 alloc 1\n0 splitpmd 1\n0 unmapsub 1 0 1 queued -\n0 taken 1\nend\n";

const TAKES_THE_FIRST: &[u8] =
    b"thp-journal 1\nnode 0 blocks 4\n0 alloc 0\n0 splitpmd 0\n0 unmapsub 0 0 1 queued -\n0 alloc 1\n0 splitpmd 1\n0 unmapsub 1 0 1 queued -\n0 taken 0\nend\n";

#[test]
fn journal_check_and_cuts(rt: HostRuntime) {
    let alloc = rt.alloc();
    expect_equal(
        &rt,
        check_reports(alloc, TAKES_THE_SECOND, false, b"illegal line 9\n"),
        true,
    );
    expect_equal(
        &rt,
        check_reports(alloc, TAKES_THE_FIRST, true, b"legal\n"),
        true,
    );
    let length = TAKES_THE_FIRST.len();
    // cut within line 9, and after it
    expect_equal(
        &rt,
        first_fault(alloc, &TAKES_THE_FIRST[..length - 8]),
        Some((9, TextKind::Cut)),
    );
    expect_equal(
        &rt,
        first_fault(alloc, &TAKES_THE_FIRST[..length - 4]),
        Some((10, TextKind::Cut)),
    );
}

/// A prefix of a journal is cut, with the line reported.
fn expect_cut(rt: &impl Abort, alloc: Global, front: &[u8]) {
    let lines = front.iter().filter(|b| **b == b'\n').count();
    let kind = first_fault(alloc, front);
    assert!(rt;
        matches!(kind, Some((line, TextKind::Cut)) if line as usize == lines.saturating_add(1)),
        "{}",
        front.len()
    );
}

/// A journal is legal, and each prefix of it is cut.
fn expect_legal(rt: &impl Abort, alloc: Global, journal: &[u8]) {
    assert!(rt; check_reports(alloc, journal, true, b"legal\n"));
    for count in 0..journal.len() {
        expect_cut(rt, alloc, &journal[..count]);
    }
}

#[test]
fn journal_of_a_run(rt: HostRuntime) {
    let alloc = rt.alloc();
    let settings = Settings::new(1, 16, 1, Report::Journal).expect(&rt, "within the limits");
    match run_with(&rt, alloc, &settings, FIRST_SCRIPT) {
        Ok(journal) => expect_legal(&rt, alloc, journal.as_slice()),
        Err(_) => assert!(rt; false, "a journal"),
    }
}
