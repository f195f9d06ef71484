//! The replies to steps and the answers to commands.
use crate::answer_log::AnswerLog;
use std::alloc::Global;
use thp_history::{PageId, Refusal};
use thp_node::{BackReply, Done, ScanReply, Tried};

/// The reply to a step or a command that was not refused.
#[derive(Clone, Copy, Debug, PartialEq, Eq)]
pub enum Reply {
    /// The number of a new page.
    Page(PageId),
    /// The call succeeded.
    Unit,
    /// The result of an unmap or an unpin.
    Done(Done),
    /// The result of a scan.
    Scan(ScanReply),
    /// The number of queued pages.
    Count(u32),
    /// The number of pages taken.
    Taken(u32),
    /// The result of a try.
    Tried(Tried),
    /// The result of a put back.
    Back(BackReply),
    /// There is no open batch.
    NoBatch,
}

/// The answer to a command of a section: the command's number in the section, its node, and its reply or refusal.
#[derive(Clone, Copy, Debug, PartialEq, Eq)]
pub struct Answer {
    /// The number of the command in its section, counted from 0.
    pub command: u32,
    /// The node of the command.
    pub node: u32,
    /// The reply, or why the command was refused.
    pub reply: Result<Reply, Refusal>,
}

/// The place where a section stopped: the command, the number of its steps that have been made, and the counts of a scan so far.
#[derive(Clone, Copy, Debug, PartialEq, Eq)]
pub struct Rest {
    /// The number of the command in its section, counted from 0.
    pub command: u32,
    /// The number of its steps that have been made.
    pub steps: u32,
    /// The counts of a scan so far.
    pub so_far: ScanReply,
}

/// The result of a section.
#[derive(Drop)]
pub struct SectionOutcome {
    /// The answers so far.
    pub answers: AnswerLog,
    /// Where the section stopped; `None` if it was finished.
    pub rest: Option<Rest>,
    /// For each node, whether a batch that the section's commands opened there is still open.
    pub opened: Vec<bool>,
}

/// The answers to the commands of a worker, in order, each with its number in the worker's section.
#[derive(Drop)]
pub struct SectionLog {
    /// The number of the worker; 0 is setup.
    pub worker: u32,
    /// The answers, in the order of the commands.
    pub answers: AnswerLog,
}
