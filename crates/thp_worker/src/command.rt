//! The steps of one command, and its progress.
ghost use Rattle.std.specs.Prelude.{◌≡◌, ◌+◌, ◌≤◌, Err, Ok, MatchOption, true, false};
ghost use Rattle.thp_history.specs.Prelude.{max_batch};
ghost use Rattle.thp_script.specs.declared.script.Op.TheVariants.{Scan};
ghost use Rattle.thp_worker.specs.Prelude.{Comes, Ended, Fronts, Goes, HoldsCaller, IsReady, IsWorkFor, MayPostpone, On, Proceeds, WantsMemory, WholeComes, answer_of, is_scan, next_step, no_progress, scan_goes_on, tries_so_far};

use crate::reply::Reply;
use crate::steps::{Step, Steps, try_step};
use thp_cell::CellFault;
use thp_history::Refusal;
use thp_node::{BackReply, ScanReply, Tried};
use thp_script::{Command, Op};

/// The number of a command's steps that have been made, and the counts of a scan so far.
#[derive(Clone, Copy, Debug)]
pub struct CommandProgress {
    /// The number of steps that have been made.
    pub steps: u32,
    /// The counts of a scan so far.
    pub so_far: ScanReply,
}

/// Returns the progress of a command without steps.
pub(crate) fn no_progress() -> CommandProgress
    ensures { result ≡ no_progress }
{
    CommandProgress {
        steps: 0,
        so_far: ScanReply {
            taken: 0,
            split: 0,
            pinned: 0,
            back: 0,
            dropped: 0,
            used: 0,
        },
    }
}

/// Returns the next step of a command.
#[inline(always)]
pub(crate) fn next_step(op: Op, begun: CommandProgress) -> Step
    requires { tries_so_far begun.so_far ≤ max_batch }
    ensures { result ≡ next_step op begun }
{
    match op {
        Op::Scan { count } => scan_step(count, begun),
        Op::Take { count } => Step::Take(count),
        Op::SplitNext => Step::SplitNext,
        Op::PutBack => Step::PutBack,
        _ => Step::One(op),
    }
}

/// Returns the next step of a scan of up to `count` pages.
#[inline(always)]
pub(crate) fn scan_step(count: u32, begun: CommandProgress) -> Step
    requires { tries_so_far begun.so_far ≤ max_batch }
    ensures { result ≡ next_step (Scan count) begun }
{
    let tries = begun.so_far.split + begun.so_far.pinned + begun.so_far.used;
    if begun.steps == 0 {
        Step::Take(count)
    } else if begun.steps == 1 + tries {
        Step::SplitNext
    } else {
        Step::PutBack
    }
}

/// Returns whether a command has several steps.
pub(crate) fn is_scan(op: Op) -> bool
    ensures { result ≡ is_scan op }
{
    matches!(op, Op::Scan { .. })
}

/// Counts the reply to a step of a scan. Returns the scan's reply after its last step.
pub(crate) fn count_reply(begun: &mut CommandProgress, reply: &Reply) -> Option<Reply>
    requires few { tries_so_far begun.old.so_far ≤ max_batch }
    requires short { begun.old.steps ≤ max_batch + 2 }
    ensures { MatchOption result (scan_goes_on begun.old (Ok reply.now) ≡ On begun.new) (λ answer. scan_goes_on begun.old (Ok reply.now) ≡ Ended (Ok answer)) }
{
    match *reply {
        Reply::Taken(taken) => begun.so_far.taken = taken,
        Reply::Tried(Tried::Split(_)) => begun.so_far.split += 1,
        Reply::Tried(Tried::Pinned(_)) => begun.so_far.pinned += 1,
        Reply::Tried(Tried::Used(_)) => begun.so_far.used += 1,
        Reply::Tried(Tried::Done) => {}
        Reply::Back(BackReply { back, dropped }) => {
            return Some(Reply::Scan(ScanReply {
                back,
                dropped,
                ..begun.so_far
            }));
        }
        other => return Some(other),
    }
    begun.steps += 1;
    None
}

/// Makes the remaining steps of a command, up to its answer, which is then in `reply`, or up to a step that stays busy, which
/// `begun` then precedes.
#[inline(always)]
pub(crate) fn do_command<S: Steps>(
    command: &Command,
    caller: u32,
    begun: &mut CommandProgress,
    steps: &mut S,
    reply: &mut Reply,
) -> Result<(), CellFault>
    requires caller { HoldsCaller (S.fronts steps.old) caller }
    requires command { IsWorkFor (S.fronts steps.old).nodes command.now }
    requires ready { IsReady ((S.fronts steps.old).batches caller command.now.node) begun.old }
    ensures goes { Goes caller (S.fronts steps.old) (S.fronts steps.new) }
    ensures proceeds { Comes begun.new (answer_of result reply.new) (Proceeds caller command.now begun.old (S.fronts steps.old) (S.fronts steps.new)) }
    ensures shared { Comes begun.new (answer_of result reply.new) (MayPostpone (S.fronts steps.old)) }
    ensures wants { result ≡ Err (CellFault.Refused Refusal.OutOfMemory) → WantsMemory caller command.now.node command.now.op (S.fronts steps.old) (S.fronts steps.new) }
{
    if is_scan(command.op) {
        do_scan(command, caller, begun, steps, reply)
    } else {
        let step = next_step(command.op, *begun);
        try_step(steps, caller, command.node, &step, reply)
    }
}

/// Makes the steps of a new command, up to its answer, as `do_command` does. If the command stays busy, its progress is lost: use
/// it with passes of all callers only, which are never busy.
#[inline(always)]
pub(crate) fn do_whole_command<S: Steps>(
    command: &Command,
    caller: u32,
    steps: &mut S,
    reply: &mut Reply,
) -> Result<(), CellFault>
    requires caller { HoldsCaller (S.fronts steps.old) caller }
    requires command { IsWorkFor (S.fronts steps.old).nodes command.now }
    ensures goes { Goes caller (S.fronts steps.old) (S.fronts steps.new) }
    ensures proceeds { WholeComes (answer_of result reply.new) (Proceeds caller command.now no_progress (S.fronts steps.old) (S.fronts steps.new)) }
    ensures shared { WholeComes (answer_of result reply.new) (MayPostpone (S.fronts steps.old)) }
    ensures wants { result ≡ Err (CellFault.Refused Refusal.OutOfMemory) → WantsMemory caller command.now.node command.now.op (S.fronts steps.old) (S.fronts steps.new) }
{
    if is_scan(command.op) {
        let mut begun = no_progress();
        do_scan(command, caller, &mut begun, steps, reply)
    } else {
        let step = next_step(command.op, no_progress());
        try_step(steps, caller, command.node, &step, reply)
    }
}

/// Makes the steps of a scan: a take, tries until no page is left, and a put back. A separate function, so that other commands
/// clear no memory for what a scan counts.
#[inline(never)]
fn do_scan<S: Steps>(
    command: &Command,
    caller: u32,
    begun: &mut CommandProgress,
    steps: &mut S,
    reply: &mut Reply,
) -> Result<(), CellFault>
    requires scan { is_scan command.now.op ≡ true }
    requires caller { HoldsCaller (S.fronts steps.old) caller }
    requires command { IsWorkFor (S.fronts steps.old).nodes command.now }
    requires ready { IsReady ((S.fronts steps.old).batches caller command.now.node) begun.old }
    ensures goes { Goes caller (S.fronts steps.old) (S.fronts steps.new) }
    ensures proceeds { Comes begun.new (answer_of result reply.new) (Proceeds caller command.now begun.old (S.fronts steps.old) (S.fronts steps.new)) }
    ensures shared { Comes begun.new (answer_of result reply.new) (MayPostpone (S.fronts steps.old)) }
    ensures wants { result ≡ Err (CellFault.Refused Refusal.OutOfMemory) → WantsMemory caller command.now.node command.now.op (S.fronts steps.old) (S.fronts steps.new) }
{
    let Op::Scan { count } = command.op else {
        unreachable!();
    };
    loop {
        let step = scan_step(count, *begun);
        try_step(steps, caller, command.node, &step, reply)?;
        if let Some(answer) = count_reply(begun, reply) {
            *reply = answer;
            return Ok(());
        }
    }
}
