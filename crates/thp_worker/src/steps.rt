//! Steps of callers on nodes, for any implementation of the nodes.
ghost use Rattle.std.specs.Prelude.{◌≡◌, ◌≢◌, ◌<◌, Err, IfErr, IfNone, IfOk, IfSome};
ghost use Rattle.thp_worker.specs.Does.{answer_of, node_call_of, IsStep};
ghost use Rattle.thp_worker.specs.Fronts.{Fronts, Goes, HoldsCaller, StepDone};
ghost use Rattle.thp_worker.specs.Turns.{by_cell};

use crate::limits::MAX_TRIES;
use crate::reply::Reply;
use std::alloc::AllocError;
use std::hint::spin_loop;
use thp_cell::CellFault;
use thp_history::{PageCall, Refusal};
use thp_script::Op;

/// A call of a node that involves no batch.
#[derive(Clone, Copy, Debug, PartialEq, Eq)]
pub(crate) enum NodeCall {
    /// Allocates a page.
    Alloc,
    /// A call about one page.
    Page(u64, PageCall),
    /// Closes the node.
    Close,
    /// Returns the number of queued pages.
    Count,
}

/// Returns the call that a command without a batch makes.
#[inline(always)]
pub(crate) fn node_call(op: Op) -> NodeCall
    ensures { result ≡ node_call_of op }
{
    match op {
        Op::Alloc => NodeCall::Alloc,
        Op::Close => NodeCall::Close,
        _ => match op.page_call() {
            Some((page, call)) => NodeCall::Page(page.0, call),
            None => NodeCall::Count,
        },
    }
}

/// One call of a node: one that involves no batch, or one of the three about a batch.
#[derive(Clone, Copy, Debug, PartialEq, Eq)]
pub enum Step {
    /// The only call of a command that involves no batch: any except a scan, a take, a try and a put back.
    One(Op),
    /// A take of up to this many pages.
    Take(u32),
    /// A try of the next page of the open batch.
    SplitNext,
    /// A put back of the open batch.
    PutBack,
}

/// Nodes on which the holder of some callers makes steps.
pub trait Steps {
    /// What the holder knows of the nodes.
    ghost fronts: { Self → Fronts };

    /// Returns the number of nodes.
    fn nodes(&self) -> u32
        ensures { result ≡ (fronts self.now).nodes };

    /// Makes one step of a caller: at most one call of a node.
    fn step(&mut self, caller: u32, node: u32, step: Step) -> Result<Reply, CellFault>
        requires caller { HoldsCaller (fronts self.old) caller }
        requires node { node < (fronts self.old).nodes }
        requires step { IsStep step }
        ensures goes { Goes caller (fronts self.old) (fronts self.new) }
        ensures done { StepDone caller node step (fronts self.old) (fronts self.new) result };

    /// Makes one step of a caller, as `step` does. On success the result is in `reply`; on error its content is unspecified. An
    /// implementation that can write a reply in place overrides it.
    fn step_into(
        &mut self,
        caller: u32,
        node: u32,
        step: Step,
        reply: &mut Reply,
    ) -> Result<(), CellFault>
        requires caller { HoldsCaller (fronts self.old) caller }
        requires node { node < (fronts self.old).nodes }
        requires step { IsStep step }
        ensures goes { Goes caller (fronts self.old) (fronts self.new) }
        ensures done { StepDone caller node step (fronts self.old) (fronts self.new) (answer_of result reply.new) }
    {
        *reply = self.step(caller, node, step)?;
        Ok(())
    }
}

/// Makes a step; while the node is busy, repeats it at once, `MAX_TRIES` times in all.
pub(crate) fn try_step<S: Steps>(
    steps: &mut S,
    caller: u32,
    node: u32,
    step: &Step,
    reply: &mut Reply,
) -> Result<(), CellFault>
    requires caller { HoldsCaller (S.fronts steps.old) caller }
    requires node { node < (S.fronts steps.old).nodes }
    requires step { IsStep step.now }
    ensures goes { Goes caller (S.fronts steps.old) (S.fronts steps.new) }
    ensures done { StepDone caller node step.now (S.fronts steps.old) (S.fronts steps.new) (answer_of result reply.new) }
{
    for _ in 0..MAX_TRIES - 1 {
        match steps.step_into(caller, node, *step, reply) {
            Err(CellFault::Busy) => spin_loop(),
            called => return called,
        }
    }
    steps.step_into(caller, node, *step, reply)
}

/// Returns the result of a call, or `None` if the node was busy. Fails if memory for the events could not be allocated.
#[inline(always)]
pub(crate) fn result_unless_busy(
    called: Result<(), CellFault>,
) -> Result<Option<Result<(), Refusal>>, AllocError>
    ensures some { IfOk result (λ reported. IfSome reported (λ said. called ≡ by_cell said)) }
    ensures memory { IfOk result (λ reported. IfSome reported (λ said. called ≢ Err (CellFault.Refused Refusal.OutOfMemory))) }
    ensures busy { IfOk result (λ reported. IfNone reported (called ≡ Err CellFault.Busy)) }
    ensures lacking { IfErr result (λ _. called ≡ Err (CellFault.Refused Refusal.OutOfMemory)) }
{
    match called {
        Ok(()) => Ok(Some(Ok(()))),
        Err(CellFault::Busy) => Ok(None),
        Err(CellFault::Refused(Refusal::OutOfMemory)) => Err(AllocError),
        Err(CellFault::Refused(refusal)) => Ok(Some(Err(refusal))),
    }
}
