//! Rows of a section on a node that is busy at chosen calls.
ghost use Rattle.std.specs.Prelude.{◌<◌, ◌^◌, All, length};
ghost use Rattle.thp_worker.specs.Prelude.{IsWorkFor};

use crate::busy_nodes::sections::{BusyCalls, Queued, SectionResult, section};
use crate::equal::expect_equal;
use std::alloc::Global;
use std::process::Abort;
use thp_history::{Event, PageId, Refusal, What};
use thp_node::{ScanReply, Tried};
use thp_worker::{Answer, Command, Op, Reply};

const ALLOC_AND_CLOSE: [Command; 2] = [
    Command {
        node: 0,
        op: Op::Alloc,
    },
    Command {
        node: 0,
        op: Op::Close,
    },
];

const SCAN: [Command; 1] = [Command {
    node: 0,
    op: Op::Scan { count: 8 },
}];

// What becomes of a section.
#[derive(Clone, Copy)]
enum Wanted {
    // it is done at once
    DoneAtOnce,
    // it stops before its first command, and then allocates a page and closes the node
    AllocatedAndClosed,
    ScannedAtOnce,
    // it stops within its scan, which then goes on
    ScanContinued,
    // it stops within a batch, whose page is dropped after the close
    Dropped,
    // it stops before its batch is put back
    PutBack,
}

fn expect_wanted(rt: &impl Abort, section: &SectionResult, wanted: Wanted) {
    match wanted {
        Wanted::DoneAtOnce => expect_done_at_once(rt, section, 2),
        Wanted::AllocatedAndClosed => expect_allocated_and_closed(rt, section),
        Wanted::ScannedAtOnce => expect_scanned_at_once(rt, section),
        Wanted::ScanContinued => expect_scan_continued(rt, section),
        Wanted::Dropped => {
            expect_taken_and_closed(rt, section);
            expect_dropped(rt, section);
        }
        Wanted::PutBack => expect_put_back(rt, section),
    }
}

// This becomes of a section of caller 1.
fn expect_section(
    rt: &(impl Abort + Print),
    alloc: Global,
    queued: Queued,
    busy: BusyCalls,
    commands: &[Command],
    wanted: Wanted,
)
    requires few { length commands.now < 2 ^ 32 }
    requires commands { All (IsWorkFor 1) commands.now }
{
    let section = section(rt, alloc, queued, busy, commands);
    expect_wanted(rt, &section, wanted);
    drop(section);
}

// The reply to a command.
fn reply_at(answers: &Vec<Answer>, command: usize) -> Option<Result<Reply, Refusal>> {
    let answer = answers.get(command)?;
    Some(answer.reply)
}

// The section is done, and has so many answers.
fn is_done(section: &SectionResult, answers: usize) -> bool {
    section.worked.rest.is_none() && section.worked.answers.len() == answers
}

// These are the replies to its commands.
fn has_replies(section: &SectionResult, replies: &[Result<Reply, Refusal>]) -> bool {
    for (command, reply) in replies.iter().enumerate() {
        if reply_at(&section.worked.answers, command) != Some(*reply) {
            return false;
        }
    }
    true
}

// The section stopped at this command, when so many of its steps and so many commands were answered.
fn stopped_at(section: &SectionResult, command: u32, steps: u32, answers: usize) -> bool {
    let is_there =
        matches!(section.stopped, Some((at, so_many, _)) if at == command && so_many == steps);
    is_there && section.answered_then.len() == answers
}

fn expect_done_at_once(rt: &impl Abort, section: &SectionResult, answers: usize) {
    assert!(rt; section.stopped.is_none());
    assert!(rt; is_done(section, answers));
}

#[test]
fn busy_63_times(rt: HostRuntime) {
    let busy = BusyCalls {
        from: 0,
        to: 63,
        period: 64,
    };
    expect_section(
        &rt,
        rt.alloc(),
        Queued::Nothing,
        busy,
        &ALLOC_AND_CLOSE,
        Wanted::DoneAtOnce,
    );
}

// The section stopped before its first command, and then did both.
fn expect_allocated_and_closed(rt: &impl Abort, section: &SectionResult) {
    expect_equal(rt, stopped_at(section, 0, 0, 0), true);
    expect_equal(rt, is_done(section, 2), true);
    let replies = [Ok(Reply::Page(PageId(0))), Ok(Reply::Unit)];
    expect_equal(rt, has_replies(section, &replies), true);
}

#[test]
fn busy_64_times(rt: HostRuntime) {
    let busy = BusyCalls {
        from: 0,
        to: 64,
        period: 1000,
    };
    expect_section(
        &rt,
        rt.alloc(),
        Queued::Nothing,
        busy,
        &ALLOC_AND_CLOSE,
        Wanted::AllocatedAndClosed,
    );
}

// One page was split, and one was pinned and went back.
fn is_scanned(section: &SectionResult) -> bool {
    is_done(section, 1)
        && matches!(
            reply_at(&section.worked.answers, 0),
            Some(Ok(Reply::Scan(ScanReply {
                taken: 2,
                split: 1,
                pinned: 1,
                back: 1,
                dropped: 0,
                used: 0,
            })))
        )
}

fn expect_scanned_at_once(rt: &impl Abort, section: &SectionResult) {
    assert!(rt; section.stopped.is_none());
    assert!(rt; is_scanned(section));
}

#[test]
fn scan_often_busy(rt: HostRuntime) {
    let busy = BusyCalls {
        from: 0,
        to: 63,
        period: 64,
    };
    expect_section(
        &rt,
        rt.alloc(),
        Queued::TwoOnePinned,
        busy,
        &SCAN,
        Wanted::ScannedAtOnce,
    );
}

// A scan that has taken two pages and split one of them by then.
fn has_split_one_of_two(section: &SectionResult) -> bool {
    matches!(
        section.stopped,
        Some((
            _,
            _,
            ScanReply {
                taken: 2,
                split: 1,
                pinned: 0,
                back: 0,
                dropped: 0,
                used: 0,
            }
        ))
    )
}

fn expect_scan_continued(rt: &impl Abort, section: &SectionResult) {
    expect_equal(rt, stopped_at(section, 0, 2, 0), true);
    expect_equal(rt, has_split_one_of_two(section), true);
    expect_equal(rt, is_scanned(section), true);
}

#[test]
fn scan_interrupted(rt: HostRuntime) {
    let busy = BusyCalls {
        from: 2,
        to: 66,
        period: 1000,
    };
    expect_section(
        &rt,
        rt.alloc(),
        Queued::TwoOnePinned,
        busy,
        &SCAN,
        Wanted::ScanContinued,
    );
}

// The journal's last events: page 0 is taken, found pinned and, after the close, dropped, all by caller 1.
fn ends_with_a_drop(journal: &[Event]) -> bool {
    let page = PageId(0);
    let last = [
        What::Taken { page },
        What::Pinned { page },
        What::Close,
        What::Dropped { page },
    ];
    journal.ends_with(&last.map(|what| Event { caller: 1, what }))
}

const TAKE_TRY_AND_CLOSE: [Command; 3] = [
    Command {
        node: 0,
        op: Op::Take { count: 8 },
    },
    Command {
        node: 0,
        op: Op::SplitNext,
    },
    Command {
        node: 0,
        op: Op::Close,
    },
];

const TAKEN_PINNED_AND_CLOSED: [Result<Reply, Refusal>; 3] = [
    Ok(Reply::Taken(1)),
    Ok(Reply::Tried(Tried::Pinned(PageId(0)))),
    Ok(Reply::Unit),
];

fn expect_taken_and_closed(rt: &impl Abort, section: &SectionResult) {
    expect_equal(rt, stopped_at(section, 1, 0, 1), true);
    expect_equal(rt, is_done(section, 3), true);
    expect_equal(rt, has_replies(section, &TAKEN_PINNED_AND_CLOSED), true);
}

// So many pages are queued after the section.
fn is_queued(section: &SectionResult, pages: u32) -> bool {
    matches!(section.queued, Ok(Reply::Count(count)) if count == pages)
}

// The page was dropped, since the node was closed.
fn expect_dropped(rt: &impl Abort, section: &SectionResult) {
    expect_equal(rt, is_queued(section, 0), true);
    expect_equal(rt, ends_with_a_drop(section.node.journal()), true);
    expect_equal(rt, section.node.frames_held(), 512);
    expect_equal(rt, section.node.frames_given(), 0);
}

#[test]
fn open_batch_postponed(rt: HostRuntime) {
    let busy = BusyCalls {
        from: 1,
        to: 65,
        period: 1000,
    };
    expect_section(
        &rt,
        rt.alloc(),
        Queued::OnePinned,
        busy,
        &TAKE_TRY_AND_CLOSE,
        Wanted::Dropped,
    );
}

const TAKE_AND_SCAN: [Command; 2] = [
    Command {
        node: 0,
        op: Op::Take { count: 8 },
    },
    Command {
        node: 0,
        op: Op::Scan { count: 1 },
    },
];

// The section's second command was refused by then because of the batch.
fn is_second_refused(section: &SectionResult) -> bool {
    matches!(
        section.answered_then.get(1),
        Some(Answer {
            reply: Err(Refusal::HasBatch),
            ..
        })
    )
}

// The scan was refused because of the batch, which was put back in the end.
fn expect_put_back(rt: &impl Abort, section: &SectionResult) {
    expect_equal(rt, stopped_at(section, 2, 0, 2), true);
    expect_equal(rt, is_second_refused(section), true);
    expect_equal(rt, is_done(section, 2), true);
    expect_equal(rt, is_queued(section, 2), true);
}

#[test]
fn put_back_postponed(rt: HostRuntime) {
    let busy = BusyCalls {
        from: 2,
        to: 66,
        period: 1000,
    };
    expect_section(
        &rt,
        rt.alloc(),
        Queued::TwoOnePinned,
        busy,
        &TAKE_AND_SCAN,
        Wanted::PutBack,
    );
}
