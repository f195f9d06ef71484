//! Runs workers concurrently, by dividing them into halves.
ghost use Rattle.std.specs.Prelude.{◌≡◌, ◌<◌, All, IfOk, IsOkAnd, List, ◌++◌};
ghost use Rattle.std.specs.Thread.{IsSync};
ghost use Rattle.thp_worker.specs.Prelude.{AnswersAre, AreFrontsJoined, AreFrontsSplit, CanJoin, CanRun, Fronts, HoldsAllCallers, RangeDone};
ghost use Rattle.thp_worker.specs.declared.reply.SectionOutcome.{SectionOutcome};

use crate::answer_log::Answers;
use crate::gate::Gate;
use crate::reply::SectionOutcome;
use crate::steps::Steps;
use crate::working::work;
use std::alloc::{AllocError, Global};
use std::thread::{Threads, join};
use thp_script::{Command, Sequence};

/// Nodes whose callers can be divided and joined.
pub trait Passes: Steps + Sized {
    /// Divides the callers into those below `at` and those from `at` on.
    fn split(self, alloc: Global, at: u32) -> Result<(Self, Self), AllocError>
        requires after { (Self.fronts self).first < at }
        requires before { at < (Self.fronts self).end }
        ensures { IfOk result (λ r. AreFrontsSplit at (Self.fronts self) (Self.fronts r.0) (Self.fronts r.1)) };

    /// Joins two passes of the same nodes whose callers are adjacent.
    fn join(self, alloc: Global, other: Self) -> Result<Self, AllocError>
        requires { CanJoin (Self.fronts self) (Self.fronts other) }
        ensures { IfOk result (λ r. AreFrontsJoined (Self.fronts self) (Self.fronts other) (Self.fronts r)) };

    /// Keeps the nodes for the following steps, until the callers are divided, if that saves each step taking and releasing its
    /// node. The holder's knowledge of the nodes does not change.
    fn keep_nodes(&mut self)
        requires { HoldsAllCallers (Self.fronts self.old) }
        ensures { Self.fronts self.new ≡ Self.fronts self.old }
    {}
}

/// Executes the sections of the workers from `first` on, each on its own thread. `answers` is what happens to their answers.
pub fn run_range<R: Threads + Sync, P: Passes + Send + Drop, G: Gate + Sync>(
    rt: &R,
    alloc: Global,
    passes: P,
    first: u32,
    workers: &[Sequence<Command>],
    answers: Answers,
    gate: &G,
) -> Result<(P, Vec<SectionOutcome>), AllocError>
    requires { CanRun (P.fronts passes) first workers.now }
    ensures ran { IfOk result (λ r. RangeDone first (P.fronts passes) (P.fronts r.0) workers.now r.1.items) }
    ensures answers { IfOk result (λ r. All (AnswersAre answers) r.1.items) }
{
    if workers.len() == 1 {
        let mut passes = passes;
        let commands = workers[0].as_slice();
        let mut all = Vec::new(alloc);
        all.push(work(alloc, commands, first, answers, &mut passes, gate)?)?;
        return Ok((passes, all));
    }
    let middle = workers.len() / 2;
    let (low, high) = workers.split_at(middle);
    let at = first + middle as u32;
    let (left, right) = passes.split(alloc, at)?;
    let (left, right) = join(
        rt,
        move || -> Result<(P, Vec<SectionOutcome>), AllocError>
            requires { IsSync R.row × IsSync G.row × CanRun (P.fronts left) first low.now }
            ensures ran { IfOk result (λ r. RangeDone first (P.fronts left) (P.fronts r.0) low.entry.now r.1.items) }
            ensures answers { IfOk result (λ r. All (AnswersAre answers) r.1.items) }
        { run_range(rt, alloc, left, first, low, answers, gate) },
        move || -> Result<(P, Vec<SectionOutcome>), AllocError>
            requires { IsSync R.row × IsSync G.row × CanRun (P.fronts right) at high.now }
            ensures ran { IfOk result (λ r. RangeDone at (P.fronts right) (P.fronts r.0) high.entry.now r.1.items) }
            ensures answers { IfOk result (λ r. All (AnswersAre answers) r.1.items) }
        { run_range(rt, alloc, right, at, high, answers, gate) },
    );
    let (left, mut all) = left?;
    let (right, mut more) = right?;
    let both = left.join(alloc, right)?;
    all.append(&mut more)?;
    Ok((both, all))
}
