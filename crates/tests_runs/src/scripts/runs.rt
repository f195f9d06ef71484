//! Runs of scripts that are given as texts, and the answers to their commands.
use std::alloc::Global;
use std::process::Abort;
use std::thread::Threads;
use thp_history::{Outcome, PageId, Refusal};
use thp_node::{BackReply, ScanReply, Tried};
use thp_run::{RunResult, read_script, run_script};
use thp_script::{Report, Settings};
use thp_worker::{Answer, Gate, Reply};

// An answer, as far as rows show it.
#[derive(Clone, Copy, PartialEq, Eq)]
pub(crate) enum ExpectedAnswer {
    Page(u64),
    Done,
    Lost(Outcome),
    // taken, split, pinned, back, dropped
    Scanned(u32, u32, u32, u32, u32),
    Queued(u32),
    Taken(u32),
    Split(u64),
    Pinned(u64),
    NoMore,
    // back, dropped
    Back(u32, u32),
    NoBatch,
    Refused(Refusal),
}

fn expected_of(reply: Reply) -> ExpectedAnswer {
    match reply {
        Reply::Page(PageId(page)) => ExpectedAnswer::Page(page),
        Reply::Unit => ExpectedAnswer::Done,
        Reply::Done(done) => ExpectedAnswer::Lost(done.outcome),
        Reply::Scan(
            ScanReply {
                taken,
                split,
                pinned,
                back,
                dropped,
                used: _,
            },
        ) => ExpectedAnswer::Scanned(taken, split, pinned, back, dropped),
        Reply::Count(count) => ExpectedAnswer::Queued(count),
        Reply::Taken(taken) => ExpectedAnswer::Taken(taken),
        Reply::Tried(Tried::Split(PageId(page))) => ExpectedAnswer::Split(page),
        Reply::Tried(Tried::Pinned(PageId(page)) | Tried::Used(PageId(page))) =>
            ExpectedAnswer::Pinned(page),
        Reply::Tried(Tried::Done) => ExpectedAnswer::NoMore,
        Reply::Back(BackReply { back, dropped }) => ExpectedAnswer::Back(back, dropped),
        Reply::NoBatch => ExpectedAnswer::NoBatch,
    }
}

fn answered(answer: Answer) -> ExpectedAnswer {
    match answer.reply {
        Ok(reply) => expected_of(reply),
        Err(refusal) => ExpectedAnswer::Refused(refusal),
    }
}

// The answers of a section are these.
pub(crate) fn are_answers(ran: &RunResult, section: usize, wanted: &[ExpectedAnswer]) -> bool {
    match ran.sections.get(section) {
        Some(section) => {
            let answers = &section.answers;
            answers.len() == wanted.len()
                && wanted.iter().enumerate().all(|(place, want)| match answers.get(place) {
                    Some(answer) => answered(answer) == *want,
                    None => false,
                })
        }
        None => false,
    }
}

// The sections of a run have these answers.
pub(crate) fn expect_answers(
    rt: &impl Abort,
    ran: &RunResult,
    wanted: &[(usize, &[ExpectedAnswer])],
) {
    for row in wanted {
        let (section, answers) = *row;
        assert!(rt; are_answers(ran, section, answers), "section {section}");
    }
}

// How many events the journal of a node has.
pub(crate) fn events_on(ran: &RunResult, node: usize) -> usize {
    match ran.nodes.get(node) {
        Some(node) => node.journal().len(),
        None => 0,
    }
}

// The run of a script on new nodes.
pub(crate) fn ran<R: Threads + Abort + Sync, G: Gate + Sync>(
    rt: &R,
    alloc: Global,
    settings: &Settings,
    text: &[u8],
    gate: &G,
) -> RunResult {
    let script = read_script(alloc, settings, text).expect(rt, "a script");
    run_script(rt, alloc, settings, script, gate).expect(rt, "memory")
}

// Settings of this many nodes, blocks and workers.
pub(crate) fn settings_of(rt: &impl Abort, nodes: u32, blocks: u32, workers: u32) -> Settings {
    Settings::new(nodes, blocks, workers, Report::Answers).expect(rt, "settings")
}
