//! Answers of sections.
use crate::reports::nodes::{EMPTY, EMPTY_SMALL, expect};
use std::alloc::Global;
use std::process::Abort;
use thp_history::{Outcome, PageId, Refusal, SubSet};
use thp_node::{BackReply, Done, ScanReply, Tried};
use thp_script::Report;
use thp_worker::{AnswerLog, Answers, Reply, SectionLog};

// The worker of a section, the node of its commands, and the answers to them.
#[derive(Clone, Copy)]
pub(crate) struct Section<'a> {
    pub(crate) worker: u32,
    pub(crate) node: u32,
    pub(crate) replies: &'a [Result<Reply, Refusal>],
}

fn log_of(rt: &impl Abort, alloc: Global, section: Section<'_>) -> SectionLog {
    let Section {
        worker,
        node,
        replies,
    } = section;
    let mut answers = AnswerLog::new(alloc, replies.len(), Answers::Kept).expect(rt, "room");
    for (command, reply) in replies.iter().enumerate() {
        let command = u32::try_from(command).expect(rt, "a few commands");
        match reply {
            Ok(reply) => answers.push(command, node, Ok(()), reply),
            Err(refusal) => answers.push(command, node, Err(*refusal), &Reply::Unit),
        }
    }
    SectionLog { worker, answers }
}

// The logs of these sections.
pub(crate) fn sections_of(
    rt: &impl Abort,
    alloc: Global,
    sections: &[Section<'_>],
) -> Vec<SectionLog> {
    let mut logs = Vec::new(alloc);
    for section in sections {
        logs.push(log_of(rt, alloc, *section)).expect(rt, "memory");
    }
    logs
}

pub(crate) fn done(outcome: Outcome, released: SubSet) -> Result<Reply, Refusal> {
    Ok(Reply::Done(Done { outcome, released }))
}

fn scanned() -> Result<Reply, Refusal> {
    Ok(Reply::Scan(ScanReply {
        taken: 15,
        split: 5,
        pinned: 4,
        back: 3,
        dropped: 2,
        used: 1,
    }))
}

// The answers to the commands of these sections, all on a node without a call, are this text.
fn expect_answers(rt: &impl Abort, alloc: Global, sections: &[Section<'_>], want: &str) {
    expect(rt, alloc, Report::Answers, &[EMPTY], sections, want);
}

#[test]
fn no_command_has_no_answer(rt: HostRuntime) {
    let section = Section {
        worker: 0,
        node: 0,
        replies: &[],
    };
    expect_answers(&rt, rt.alloc(), &[section], "");
    expect_answers(&rt, rt.alloc(), &[], "");
}

#[test]
fn each_reply_has_its_words(rt: HostRuntime) {
    let replies = [
        Ok(Reply::Page(PageId(u64::MAX))),
        Ok(Reply::Unit),
        done(Outcome::Stays, SubSet::empty()),
        done(Outcome::Queued, SubSet::range(3, 1)),
        done(Outcome::Freed, SubSet::full(9)),
        Ok(Reply::Count(4096)),
        Ok(Reply::Taken(128)),
        Ok(Reply::Tried(Tried::Split(PageId(7)))),
        Ok(Reply::Tried(Tried::Pinned(PageId(80)))),
        Ok(Reply::Tried(Tried::Used(PageId(900)))),
        Ok(Reply::Tried(Tried::Done)),
        Ok(Reply::Back(BackReply {
            back: 12,
            dropped: 34,
        })),
        Ok(Reply::NoBatch),
    ];
    let section = Section {
        worker: 0,
        node: 0,
        replies: &replies,
    };
    let want =
        "0 1 page 18446744073709551615\n0 2 ok\n0 3 stays -\n0 4 queued 3\n0 5 freed 0-511\n0 6 count 4096\n0 7 taken 128\n0 8 split 7\n0 9 pinned 80\n0 10 used 900\n0 11 done\n0 12 back 12 dropped 34\n0 13 no-batch\n";
    expect_answers(&rt, rt.alloc(), &[section], want);
}

#[test]
fn each_refusal_has_its_word(rt: HostRuntime) {
    let replies = [
        Err(Refusal::NoPage),
        Err(Refusal::BadRange),
        Err(Refusal::IsSplit),
        Err(Refusal::NotMapped),
        Err(Refusal::Gone),
        Err(Refusal::NotPinned),
        Err(Refusal::TooMany),
        Err(Refusal::Closed),
        Err(Refusal::NoBlock),
        Err(Refusal::HasBatch),
    ];
    let section = Section {
        worker: 63,
        node: 0,
        replies: &replies,
    };
    let want =
        "63 1 refused no-page\n63 2 refused bad-range\n63 3 refused is-split\n63 4 refused not-mapped\n63 5 refused gone\n63 6 refused not-pinned\n63 7 refused too-many\n63 8 refused closed\n63 9 refused no-block\n63 10 refused has-batch\n";
    expect_answers(&rt, rt.alloc(), &[section], want);
}

// Only the scans of node 1, whose switch is on, contain the pages found in use.
#[test]
fn sections_stand_in_order(rt: HostRuntime) {
    let sections = [
        Section {
            worker: 0,
            node: 0,
            replies: &[Ok(Reply::Page(PageId(0))), scanned()],
        },
        Section {
            worker: 1,
            node: 1,
            replies: &[scanned()],
        },
        Section {
            worker: 2,
            node: 0,
            replies: &[scanned(), Ok(Reply::Unit)],
        },
    ];
    let want =
        "0 1 page 0\n0 2 taken 15 split 5 pinned 4 back 3 dropped 2\n1 1 taken 15 split 5 pinned 4 back 3 dropped 2 used 1\n2 1 taken 15 split 5 pinned 4 back 3 dropped 2\n2 2 ok\n";
    let nodes = [EMPTY, EMPTY_SMALL];
    expect(&rt, rt.alloc(), Report::Answers, &nodes, &sections, want);
}
