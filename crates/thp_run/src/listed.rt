//! Sections whose answers are stored in vectors: the calls of `thp_worker` and of `report`, whose logs store answers in less memory
//! or only count them, for callers that need all answers as values.
ghost use Rattle.std.specs.Prelude.{◌≡◌, ◌+◌, ◌<◌, ◌≤◌, ◌^◌, ◌++◌, ◌∷◌, [], All, IfOk, OnOk, Some, false, length, map, replicate, slice_get};
ghost use Rattle.thp_run.specs.Listed.{left_open, open_at, stays_open, to_put_back, without_first};
ghost use Rattle.thp_run.specs.Prelude.{NothingIsLeft, WorksOn, report_of, reported_journal, reported_section, reported_sections};
ghost use Rattle.thp_worker.specs.Prelude.{Fronts, Goes, HoldsAllCallers, HoldsCaller, HasNoBatch, IsWorkFor, marked, stored};
ghost use Rattle.thp_worker.specs.declared.answer_log.Answers.TheVariants.{Kept};
ghost use Rattle.thp_worker.specs.declared.reply.Answer.{Answer as StoredAnswer};

use crate::report::report_of_logs;
use std::alloc::{AllocError, Global};
use std::marker::Model;
use thp_history::Refusal;
use thp_node::{Node, Tried};
use thp_script::{Command, Op, Settings};
use thp_worker::{
    Answer, AnswerLog, Answers, Gate, Reply, Rest, SectionLog, SectionOutcome, Steps,
};

/// The result of a section: the answers to its commands, in order, and the place where it stopped, if it did.
#[derive(Debug, Drop)]
pub struct Worked {
    /// The answers, in the order of the commands.
    pub answers: Vec<Answer>,
    /// Where the section stopped; `None` if it was finished.
    pub rest: Option<Rest>,
}

impl Model for Worked {
    ghost use Rattle.thp_run.specs.Listed.{WorkedList};

    ghost Value = { WorkedList };

    ghost view = { λ w. record { answers = w.answers.items; rest = w.rest } };
}

impl PartialEq for Worked {
    ghost use Rattle.thp_run.specs.Comparing.{same_worked, same_worked-partial_equiv};

    ghost eq = { same_worked };

    ghost laws = { same_worked-partial_equiv };

    fn eq(&self, other: &Worked) -> bool {
        self.answers == other.answers && self.rest == other.rest
    }
}

impl Eq for Worked {
    ghost use Rattle.thp_run.specs.Comparing.{same_worked-equiv};

    ghost laws = { same_worked-equiv };
}

/// The answers to the commands of one worker, in order. Worker 0 is setup.
#[derive(Debug, Drop)]
pub struct Section {
    /// The number of the worker; 0 is setup.
    pub worker: u32,
    /// The answers, in the order of the commands.
    pub answers: Vec<Answer>,
}

impl Model for Section {
    ghost use Rattle.thp_run.specs.Listed.{SectionList};

    ghost Value = { SectionList };

    ghost view = { λ s. record { worker = s.worker; answers = s.answers.items } };
}

impl PartialEq for Section {
    ghost use Rattle.thp_run.specs.Comparing.{same_section, same_section-partial_equiv};

    ghost eq = { same_section };

    ghost laws = { same_section-partial_equiv };

    fn eq(&self, other: &Section) -> bool {
        self.worker == other.worker && self.answers == other.answers
    }
}

impl Eq for Section {
    ghost use Rattle.thp_run.specs.Comparing.{same_section-equiv};

    ghost laws = { same_section-equiv };
}

/// Executes the commands of a section, in order, as steps of one caller, and puts back the batches left open.
///
/// Stops at the first step that stays busy and returns its place. Memory for all answers is allocated before the first step.
pub fn work<S: Steps, G: Gate>(
    alloc: Global,
    commands: &[Command],
    worker: u32,
    steps: &mut S,
    gate: &G,
) -> Result<Worked, AllocError>
    requires caller { HoldsCaller (S.fronts steps.old) worker }
    requires few { length commands.now < 2 ^ 32 }
    requires commands { All (IsWorkFor (S.fronts steps.old).nodes) commands.now }
    requires shut { HasNoBatch worker (S.fronts steps.old) }
    ensures goes { Goes worker (S.fronts steps.old) (S.fronts steps.new) }
    ensures works { IfOk result (WorksOn worker (S.fronts steps.old) (S.fronts steps.new) commands.now) }
    ensures done { HoldsAllCallers (S.fronts steps.old) → IfOk result NothingIsLeft }
{
    let room = Vec::with_capacity(alloc, commands.len())?;
    let worked = thp_worker::work(alloc, commands, worker, Answers::Kept, steps, gate)?;
    list_answers(room, worked)
}

/// Executes the rest of a section that stopped, with the passes of all callers, which are never busy. Memory for all answers is
/// allocated before the first step.
pub fn work_rest<S: Steps>(
    alloc: Global,
    commands: &[Command],
    worker: u32,
    worked: Worked,
    steps: &mut S,
) -> Result<Worked, AllocError>
    requires caller { HoldsCaller (S.fronts steps.old) worker }
    requires few { length commands.now < 2 ^ 32 }
    requires commands { All (IsWorkFor (S.fronts steps.old).nodes) commands.now }
    requires worked { (old : Fronts) × WorksOn worker old (S.fronts steps.old) commands.now worked }
    ensures goes { Goes worker (S.fronts steps.old) (S.fronts steps.new) }
    ensures works { (old : Fronts) → WorksOn worker old (S.fronts steps.old) commands.now worked → IfOk result (WorksOn worker old (S.fronts steps.new) commands.now) }
    ensures done { HoldsAllCallers (S.fronts steps.old) → IfOk result NothingIsLeft }
{
    let Some(rest) = worked.rest else {
        return Ok(worked);
    };
    let answers = worked.answers.as_slice();
    let opened = open_at(alloc, steps.nodes(), commands, answers, &rest)?;
    let room = commands.len().max(answers.len());
    let list = Vec::with_capacity(alloc, room)?;
    let log = to_log(alloc, room, answers)?;
    let begun = SectionOutcome {
        answers: log,
        rest: Some(rest),
        opened,
    };
    let worked = thp_worker::work_rest(commands, worker, begun, steps)?;
    list_answers(list, worked)
}

/// Returns the report that the settings select, for nodes numbered from 0 and the answers to the sections' commands.
#[tactic(auto, using(crate::proofs::ListedLaws::all_stored))]
pub fn report_text(
    alloc: Global,
    settings: &Settings,
    nodes: &[Node],
    sections: &[Section],
) -> Result<Vec<u8>, AllocError>
    ensures { IfOk result (λ text. text.items ≡ report_of settings.now.report (map reported_journal nodes.now) (reported_sections sections.now)) }
{
    let mut kept = Vec::with_capacity(alloc, sections.len())?;
    for section in sections {
        let answers = section.answers.as_slice();
        kept.push(SectionLog {
            worker: section.worker,
            answers: to_log(alloc, answers.len(), answers)?,
        })?;
    }
    report_of_logs(alloc, settings, nodes, kept.as_slice())
}

/// Copies the answers of a section's log to a vector that has none yet. Allocates nothing if that vector has room.
#[tactic(auto, using(crate::proofs::ListedLaws::one_more))]
fn list_answers(mut list: Vec<Answer>, worked: SectionOutcome) -> Result<Worked, AllocError>
    requires none { list.items ≡ [] }
    requires kept { worked.answers.are ≡ Kept }
    ensures answers { IfOk result (λ list. list.answers ≡ worked.answers.items) }
    ensures rest { IfOk result (λ list. list.rest ≡ worked.rest) }
{
    // the toolchain finds these types, which answers contain, only in functions that name them
    let _in_answers = (Reply::Tried(Tried::Done), Refusal::NoPage);
    for place in 0..worked.answers.stored_len() {
        let Some(answer) = worked.answers.get(place) else {
            unreachable!();
        };
        list.push(answer)?;
    }
    Ok(Worked {
        answers: list,
        rest: worked.rest,
    })
}

/// Returns, for each node, whether a batch is open there when a section stopped: by the answers to its commands, and by the number
/// of put backs made at its end.
fn open_at(
    alloc: Global,
    nodes: u32,
    commands: &[Command],
    answers: &[Answer],
    rest: &Rest,
) -> Result<Vec<bool>, AllocError>
    requires { All (IsWorkFor nodes) commands.now }
    ensures { IfOk result (λ opened. opened.items ≡ open_at nodes commands.now answers.now rest.now) }
{
    let opened = left_open(alloc, nodes, commands, answers)?;
    let back = if rest.command as usize == commands.len() {
        rest.steps
    } else {
        0
    };
    without_first(alloc, back, opened.as_slice())
}

/// Returns, for each node, whether a batch is open there after commands with these answers.
fn left_open(
    alloc: Global,
    nodes: u32,
    commands: &[Command],
    answers: &[Answer],
) -> Result<Vec<bool>, AllocError>
    requires { All (IsWorkFor nodes) commands.now }
    ensures { IfOk result (λ opened. opened.items ≡ left_open (replicate nodes false) commands.now answers.now) }
{
    let mut opened = vec![in alloc; false; nodes as usize]?;
    for place in 0..commands.len().min(answers.len()) {
        mark_open(&mut opened, &commands[place], &answers[place]);
    }
    Ok(opened)
}

/// Records whether a command with this answer leaves a batch open on its node.
fn mark_open(opened: &mut Vec<bool>, command: &Command, answer: &Answer)
    requires { command.now.node < length opened.old.items }
    ensures { opened.new.items ≡ marked opened.old.items command.now answer.now.reply }
{
    match command.op {
        Op::Take { .. } if answer.reply.is_ok() => opened[command.node as usize] = true,
        Op::PutBack => opened[command.node as usize] = false,
        _ => {}
    }
}

/// Returns, for each node, whether a batch is open there after the first `back` of them were put back.
fn without_first(alloc: Global, back: u32, opened: &[bool]) -> Result<Vec<bool>, AllocError>
    ensures { IfOk result (λ left. left.items ≡ without_first back opened.now) }
{
    let mut left = back;
    let mut still_open = Vec::new(alloc);
    for open_here in opened {
        still_open.push(stays_open(*open_here, left))?;
        left = to_put_back(*open_here, left);
    }
    Ok(still_open)
}

/// Returns whether a batch stays open, before which `back` open batches are still to be put back.
fn stays_open(open_here: bool, back: u32) -> bool
    ensures { result ≡ stays_open open_here back }
{
    open_here && back == 0
}

/// Returns how many open batches are still to be put back, after a node on which one is open, or none.
fn to_put_back(open_here: bool, back: u32) -> u32
    ensures { result ≡ to_put_back open_here back }
{
    if open_here {
        back.saturating_sub(1)
    } else {
        back
    }
}

/// Returns a log that stores these answers, with room for `room` in all.
fn to_log(alloc: Global, room: usize, answers: &[Answer]) -> Result<AnswerLog, AllocError>
    requires { length answers.now ≤ room }
    ensures items { IfOk result (λ log. log.items ≡ answers.now) }
    ensures are { IfOk result (λ log. log.are ≡ Kept) }
    ensures room { IfOk result (λ log. log.room ≡ room) }
{
    let mut log = AnswerLog::new(alloc, room, Answers::Kept)?;
    for answer in answers {
        match answer.reply {
            Ok(reply) => log.push(answer.command, answer.node, Ok(()), &reply),
            Err(refusal) => log.push(answer.command, answer.node, Err(refusal), &Reply::Unit),
        }
    }
    Ok(log)
}
