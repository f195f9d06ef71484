//! The commands of a section, one after another, all at once or as they arrive in parts, and the put backs at its end.
ghost use Rattle.std.specs.Prelude.{◌≡◌, ◌^◌, ◌≤◌, ◌<◌, ◌++◌, [], All, IfErr, IfOk, List, length};
ghost use Rattle.thp_script.specs.declared.script.Command.{Command};
ghost use Rattle.thp_worker.specs.Prelude.{AnswersAre, Begins, Comes, DidFirst, Ends, Fronts, Goes, HasNoBatch, HoldsAllCallers, HoldsCaller, IsDoneFor, IsWorkFor, MayPostpone, MayWant, PutsBack, Works, answer_of, marked, no_progress};

use crate::answer_log::{AnswerLog, Answers};
use crate::command::{CommandProgress, do_command, do_whole_command, no_progress};
use crate::gate::{Gate, NoGate};
use crate::reply::{Reply, Rest, SectionOutcome};
use crate::steps::{Steps, result_unless_busy};
use std::alloc::{AllocError, Global};
use thp_history::Refusal;
use thp_script::{Command, Op};

/// Executes the commands of a section, in order, as steps of one caller, and puts back the batches left open.
///
/// Stops at the first step that stays busy, and returns its place. Fails if memory can't be allocated. The log of answers has
/// room for all answers before the first command, so that a step that was made never lacks room for its answer.
pub fn work<S: Steps, G: Gate>(
    alloc: Global,
    commands: &[Command],
    worker: u32,
    answers: Answers,
    steps: &mut S,
    gate: &G,
) -> Result<SectionOutcome, AllocError>
    requires caller { HoldsCaller (S.fronts steps.old) worker }
    requires few { length commands.now < 2 ^ 32 }
    requires commands { All (IsWorkFor (S.fronts steps.old).nodes) commands.now }
    requires shut { HasNoBatch worker (S.fronts steps.old) }
    ensures goes { Goes worker (S.fronts steps.old) (S.fronts steps.new) }
    ensures works { IfOk result (Works worker (S.fronts steps.old) (S.fronts steps.new) commands.now) }
    ensures answers { IfOk result (AnswersAre answers) }
    ensures done { HoldsAllCallers (S.fronts steps.old) → IfOk result IsDoneFor }
{
    let log = AnswerLog::new(alloc, commands.len(), answers)?;
    let opened = vec![in alloc; false; steps.nodes() as usize]?;
    go_on(commands, worker, log, opened, no_progress(), steps, gate)
}

/// Executes the rest of a section that stopped, with the passes of all callers, which are never busy: the rest of the command
/// that was begun, the following commands, and the put backs.
pub fn work_rest<S: Steps>(
    commands: &[Command],
    worker: u32,
    worked: SectionOutcome,
    steps: &mut S,
) -> Result<SectionOutcome, AllocError>
    requires caller { HoldsCaller (S.fronts steps.old) worker }
    requires few { length commands.now < 2 ^ 32 }
    requires commands { All (IsWorkFor (S.fronts steps.old).nodes) commands.now }
    requires worked { (old : Fronts) × Works worker old (S.fronts steps.old) commands.now worked }
    ensures goes { Goes worker (S.fronts steps.old) (S.fronts steps.new) }
    ensures works { (old : Fronts) → Works worker old (S.fronts steps.old) commands.now worked → IfOk result (Works worker old (S.fronts steps.new) commands.now) }
    ensures answers { IfOk result (AnswersAre worked.answers.are) }
    ensures done { HoldsAllCallers (S.fronts steps.old) → IfOk result IsDoneFor }
    ensures wants { IfErr result (λ _. MayWant worker commands.now (S.fronts steps.old) (S.fronts steps.new)) }
{
    let Some(rest) = worked.rest else {
        return Ok(worked);
    };
    let (answers, opened) = (worked.answers, worked.opened);
    if rest.command as usize == commands.len() {
        return close(rest.command, worker, answers, opened, rest.steps, steps);
    }
    let begun = CommandProgress {
        steps: rest.steps,
        so_far: rest.so_far,
    };
    go_on(commands, worker, answers, opened, begun, steps, &NoGate)
}

/// Executes the commands without an answer, the first of them from where it was begun, and the put backs.
fn go_on<S: Steps, G: Gate>(
    commands: &[Command],
    worker: u32,
    mut answers: AnswerLog,
    mut opened: Vec<bool>,
    mut begun: CommandProgress,
    steps: &mut S,
    gate: &G,
) -> Result<SectionOutcome, AllocError>
    requires caller { HoldsCaller (S.fronts steps.old) worker }
    requires few { length commands.now < 2 ^ 32 }
    requires commands { All (IsWorkFor (S.fronts steps.old).nodes) commands.now }
    requires room { length commands.now ≤ answers.room }
    requires begun { (old : Fronts) × Begins worker old (S.fronts steps.old) commands.now answers.items opened.items begun }
    ensures goes { Goes worker (S.fronts steps.old) (S.fronts steps.new) }
    ensures works { (old : Fronts) → Begins worker old (S.fronts steps.old) commands.now answers.items opened.items begun → IfOk result (Works worker old (S.fronts steps.new) commands.now) }
    ensures answers { IfOk result (AnswersAre answers.are) }
    ensures done { HoldsAllCallers (S.fronts steps.old) → IfOk result IsDoneFor }
    ensures wants { IfErr result (λ _. MayWant worker commands.now (S.fronts steps.old) (S.fronts steps.new)) }
{
    let mut reply = Reply::Unit;
    for index in answers.len()..commands.len() {
        let number = index as u32;
        gate.pass(worker, number);
        let command = &commands[index];
        let node = command.node;
        let called = do_command(command, worker, &mut begun, steps, &mut reply);
        let Some(said) = result_unless_busy(called)? else {
            let rest = Rest {
                command: number,
                steps: begun.steps,
                so_far: begun.so_far,
            };
            return Ok(SectionOutcome {
                answers,
                rest: Some(rest),
                opened,
            });
        };
        mark(&mut opened, *command, said);
        answers.push(number, node, said, &reply);
        begun = no_progress();
    }
    let count = commands.len() as u32;
    gate.pass(worker, count);
    close(count, worker, answers, opened, 0, steps)
}

/// Puts back the open batches of a caller, in ascending order of nodes, after all of its `count` commands have answers. `closed`
/// batches were put back already.
pub(crate) fn close<S: Steps>(
    count: u32,
    worker: u32,
    answers: AnswerLog,
    mut opened: Vec<bool>,
    mut closed: u32,
    steps: &mut S,
) -> Result<SectionOutcome, AllocError>
    requires caller { HoldsCaller (S.fronts steps.old) worker }
    requires room { count ≤ answers.room }
    requires ends { (old : Fronts) × (commands : List Command) × (length commands ≡ count) × Ends worker old (S.fronts steps.old) commands answers.items opened.items closed }
    ensures goes { Goes worker (S.fronts steps.old) (S.fronts steps.new) }
    ensures works { (old : Fronts) (commands : List Command) → length commands ≡ count → Ends worker old (S.fronts steps.old) commands answers.items opened.items closed → IfOk result (Works worker old (S.fronts steps.new) commands) }
    ensures answers { IfOk result (AnswersAre answers.are) }
    ensures done { HoldsAllCallers (S.fronts steps.old) → IfOk result IsDoneFor }
    ensures wants { IfErr result (λ _. MayWant worker [] (S.fronts steps.old) (S.fronts steps.new)) }
{
    let mut reply = Reply::Unit;
    let nodes = steps.nodes();
    for node in 0..nodes {
        if opened[node as usize] {
            let command = Command {
                node,
                op: Op::PutBack,
            };
            let mut begun = no_progress();
            let called = do_command(&command, worker, &mut begun, steps, &mut reply);
            let Some(_) = result_unless_busy(called)? else {
                let rest = Rest {
                    command: count,
                    steps: closed,
                    so_far: no_progress().so_far,
                };
                return Ok(SectionOutcome {
                    answers,
                    rest: Some(rest),
                    opened,
                });
            };
            opened[node as usize] = false;
            closed += 1;
        }
    }
    Ok(SectionOutcome {
        answers,
        rest: None,
        opened,
    })
}

/// Records whether a command with this result leaves a batch open on its node.
#[inline(always)]
pub(crate) fn mark(opened: &mut Vec<bool>, command: Command, called: Result<(), Refusal>)
    requires { command.node < length opened.old.items }
    ensures { opened.new.items ≡ marked opened.old.items command called }
{
    match command.op {
        Op::Take { .. } if called.is_ok() => opened[command.node as usize] = true,
        Op::PutBack => opened[command.node as usize] = false,
        _ => {}
    }
}

/// Begins a section, before its first command.
pub fn begin_section<S: Steps>(
    alloc: Global,
    worker: u32,
    answers: Answers,
    steps: &S,
) -> Result<SectionOutcome, AllocError>
    requires { HasNoBatch worker (S.fronts steps.now) }
    ensures did { IfOk result (DidFirst worker (S.fronts steps.now) (S.fronts steps.now) []) }
    ensures opened { IfOk result (λ section. length section.opened.items ≡ (S.fronts steps.now).nodes) }
    ensures answers { IfOk result (λ section. section.answers.are ≡ answers) }
{
    Ok(SectionOutcome {
        answers: AnswerLog::new(alloc, 0, answers)?,
        rest: None,
        opened: vec![in alloc; false; steps.nodes() as usize]?,
    })
}

/// Executes the next commands of a section, in order, as steps of one caller, with the passes of all callers, which are never
/// busy.
///
/// Fails if memory can't be allocated, or if the section would have 2^32 commands or more.
pub fn do_commands<S: Steps>(
    commands: &[Command],
    worker: u32,
    mut section: SectionOutcome,
    steps: &mut S,
) -> Result<SectionOutcome, AllocError>
    requires caller { HoldsCaller (S.fronts steps.old) worker }
    requires all { HoldsAllCallers (S.fronts steps.old) }
    requires commands { All (IsWorkFor (S.fronts steps.old).nodes) commands.now }
    requires opened { length section.opened.items ≡ (S.fronts steps.old).nodes }
    ensures goes { Goes worker (S.fronts steps.old) (S.fronts steps.new) }
    ensures did { (old : Fronts) (before : List Command) → DidFirst worker old (S.fronts steps.old) before section → IfOk result (DidFirst worker old (S.fronts steps.new) (before ++ commands.now)) }
    ensures opened { IfOk result (λ done. length done.opened.items ≡ (S.fronts steps.new).nodes) }
    ensures answers { IfOk result (λ done. done.answers.are ≡ section.answers.are) }
{
    let mut reply = Reply::Unit;
    let first = section.answers.len();
    if commands.len() > u32::MAX as usize || first > u32::MAX as usize - commands.len() {
        return Err(AllocError);
    }
    section.answers.reserve(commands.len())?;
    for index in 0..commands.len() {
        let command = &commands[index];
        let called = do_whole_command(command, worker, steps, &mut reply);
        let Some(said) = result_unless_busy(called)? else {
            unreachable!();
        };
        mark(&mut section.opened, *command, said);
        let number = (first + index) as u32;
        section.answers.push(number, command.node, said, &reply);
    }
    Ok(section)
}

/// Ends a section whose commands have all been executed: puts back the batches left open.
pub fn end_section<S: Steps>(
    worker: u32,
    section: SectionOutcome,
    steps: &mut S,
) -> Result<SectionOutcome, AllocError>
    requires caller { HoldsCaller (S.fronts steps.old) worker }
    requires section { (old : Fronts) × (commands : List Command) × DidFirst worker old (S.fronts steps.old) commands section }
    ensures goes { Goes worker (S.fronts steps.old) (S.fronts steps.new) }
    ensures works { (old : Fronts) (commands : List Command) → DidFirst worker old (S.fronts steps.old) commands section → IfOk result (Works worker old (S.fronts steps.new) commands) }
    ensures answers { IfOk result (AnswersAre section.answers.are) }
    ensures done { HoldsAllCallers (S.fronts steps.old) → IfOk result IsDoneFor }
    ensures wants { IfErr result (λ _. MayWant worker [] (S.fronts steps.old) (S.fronts steps.new)) }
{
    let count = section.answers.len() as u32;
    close(count, worker, section.answers, section.opened, 0, steps)
}
