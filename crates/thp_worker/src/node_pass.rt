//! A pass of one node, with the open batches of its callers there.
ghost use Rattle.std.specs.Prelude.{◌≡◌, ◌<◌, ◌≤◌, ℕ, length, slice_set, IfOk, MatchBool, None, Ok, Some};
ghost use Rattle.thp_history.specs.Prelude.{IsLegal};
ghost use Rattle.thp_node.specs.Prelude.{no_batch};
ghost use Rattle.thp_cell.specs.Prelude.{IsJoined, PartsStay, HasAll, HasCaller};
ghost use Rattle.thp_script.specs.declared.script.Op.{Op};
ghost use Rattle.thp_worker.specs.Prelude.{HeldDone, IsShut, IsStep, OpenStay, answer_of, batch_of, keeping_node, lower_part, node_call_of, page_reply, unit_reply, upper_part};

use crate::reply::Reply;
use crate::steps::{NodeCall, Step, node_call};
use std::alloc::{AllocError, Global};
use std::marker::Model;
use thp_cell::{CellFault, NodeCell, Pass};
use thp_history::{Loss, PageCall, PageId, Refusal};
use thp_node::{Batch, Done, FullLog, Recorder};
use thp_script::Op;

/// A pass of one node, and for each of its callers at most one open batch.
#[derive(Drop)]
pub struct NodePass<'a, R: Recorder = FullLog> {
    cell: &'a NodeCell<R>,
    pass: Pass<R>,
    // by caller, from the pass's first on
    batches: Vec<Option<Batch>>,
}

impl<'a, R: Recorder> Model for NodePass<'a, R> {
    ghost use Rattle.thp_worker.specs.Holdings.{Held, IsHolding};

    ghost Value = { Held };

    ghost view = { λ p. record { pass = p.pass; batches = p.batches.items } };

    ghost invariant = { λ p. IsHolding p.cell.now p.pass p.batches.items };
}

impl<'a, R: Recorder> NodePass<'a, R> {
    /// Creates a pass of a cell whose callers have no open batch.
    pub fn new(
        alloc: Global,
        cell: &'a NodeCell<R>,
        pass: Pass<R>,
    ) -> Result<NodePass<'a, R>, AllocError>
        requires cell { pass.cell ≡ cell.now }
        requires some { pass.first ≤ pass.end }
        ensures pass { IfOk result (λ p. p.pass ≡ pass) }
        ensures none { IfOk result IsShut }
    {
        let (first, end) = pass.callers();
        let mut batches = Vec::new(alloc);
        for _ in first..end {
            batches.push(None)?;
        }
        Ok(NodePass {
            cell,
            pass,
            batches,
        })
    }

    /// Returns the pass. Open batches are discarded: their pages stay in flight.
    pub fn into_pass(self) -> Pass<R>
        ensures { result ≡ self.entry.pass }
    {
        self.pass
    }

    /// Keeps the node for the following steps, which saves taking and releasing it for each, until the callers are divided or the
    /// pass is returned. The pass must have all callers.
    pub fn keep_node(&mut self)
        requires { HasAll self.old.pass }
        ensures { self.new ≡ keeping_node self.old }
    {
        // a pass of all callers never finds the node busy
        let _ = self.cell.keep_node(&mut self.pass);
    }

    /// Makes one step of a caller. On success the result is in `reply`; on error its content is unspecified.
    pub fn step(&mut self, caller: u32, step: Step, reply: &mut Reply) -> Result<(), CellFault>
        requires caller { HasCaller self.old.pass caller }
        requires step { IsStep step }
        ensures { HeldDone caller step self.old self.new (answer_of result reply.new) }
    {
        let called = match step {
            Step::One(op) => return self.call(caller, op, reply),
            Step::Take(count) => self.take(caller, count, reply),
            Step::SplitNext => self.split_next(caller, reply),
            Step::PutBack => self.put_back(caller, reply),
        };
        apart(called)
    }

    /// Divides the callers into those below `at` and those from `at` on, each with its open batch.
    pub fn split(self, at: u32) -> Result<(NodePass<'a, R>, NodePass<'a, R>), AllocError>
        requires after { self.pass.first < at }
        requires before { at < self.pass.end }
        ensures left { IfOk result (λ r. r.0 ≡ lower_part self.entry at) }
        ensures right { IfOk result (λ r. r.1 ≡ upper_part self.entry at) }
    {
        let (first, _) = self.pass.callers();
        let mut batches = self.batches;
        let rest = batches.split_off((at - first) as usize)?;
        let (left, right) = self.cell.split(self.pass, at);
        Ok((
            NodePass {
                cell: self.cell,
                pass: left,
                batches,
            },
            NodePass {
                cell: self.cell,
                pass: right,
                batches: rest,
            },
        ))
    }

    /// Joins two passes of one cell whose callers are adjacent, with their open batches.
    pub fn join(self, other: NodePass<'a, R>) -> Result<NodePass<'a, R>, AllocError>
        requires cell { other.pass.cell ≡ self.pass.cell }
        requires adjacent { self.pass.end ≡ other.pass.first }
        ensures passes { IfOk result (λ r. IsJoined self.entry.pass other.entry.pass r.pass) }
        ensures legal { IfOk result (λ r. IsLegal r.pass.shape r.pass.front) }
        ensures left_parts { IfOk result (λ r. PartsStay self.entry.pass r.pass) }
        ensures right_parts { IfOk result (λ r. PartsStay other.entry.pass r.pass) }
        ensures left_batches { IfOk result (λ r. OpenStay self.entry r) }
        ensures right_batches { IfOk result (λ r. OpenStay other.entry r) }
    {
        let mut batches = self.batches;
        let mut more = other.batches;
        batches.append(&mut more)?;
        Ok(NodePass {
            cell: self.cell,
            pass: self.cell.join(self.pass, other.pass),
            batches,
        })
    }

    fn call(&mut self, caller: u32, op: Op, reply: &mut Reply) -> Result<(), CellFault>
        requires caller { HasCaller self.old.pass caller }
        ensures { HeldDone caller (Step.One op) self.old self.new (answer_of result reply.new) }
    {
        match node_call(op) {
            NodeCall::Alloc => page(self.cell.alloc_page(&mut self.pass, caller), reply),
            NodeCall::Page(page, PageCall::Gain(gain)) => {
                let page = PageId(page);
                unit(self.cell.gain(&mut self.pass, caller, page, gain), reply)
            }
            NodeCall::Page(page, PageCall::Loss(kind)) => self.lose(caller, page, kind, reply),
            NodeCall::Close => unit(self.cell.close(&mut self.pass, caller), reply),
            NodeCall::Count => count(self.cell.count(&mut self.pass), reply),
        }
    }

    // A separate function, so that other calls clear no memory for what a loss gives.
    fn lose(
        &mut self,
        caller: u32,
        page: u64,
        kind: Loss,
        reply: &mut Reply,
    ) -> Result<(), CellFault>
        requires caller { HasCaller self.old.pass caller }
        ensures { (op : Op) → node_call_of op ≡ NodeCall.Page page (PageCall.Loss kind) → HeldDone caller (Step.One op) self.old self.new (answer_of result reply.new) }
    {
        // Field by field: a copy of the whole would include the padding, by loads that wait for its stores.
        let done = self.cell.lose(&mut self.pass, caller, PageId(page), kind)?;
        *reply = Reply::Done(Done {
            outcome: done.outcome,
            released: done.released,
        });
        Ok(())
    }

    #[inline(never)]
    fn take(&mut self, caller: u32, count: u32, reply: &mut Reply) -> Result<(), CellFault>
        requires caller { HasCaller self.old.pass caller }
        requires step { IsStep (Step.Take count) }
        ensures { HeldDone caller (Step.Take count) self.old self.new (answer_of result reply.new) }
    {
        let (first, _) = self.pass.callers();
        let place = (caller - first) as usize;
        if self.batches[place].is_some() {
            return Err(CellFault::Refused(Refusal::HasBatch));
        }
        self.batches[place] = Some(Batch::none());
        let Some(batch) = &mut self.batches[place] else {
            unreachable!();
        };
        match self.cell.take_into(&mut self.pass, caller, count, batch) {
            Ok(()) => {
                *reply = Reply::Taken(batch.pages().len() as u32);
                Ok(())
            }
            Err(fault) => {
                self.batches[place] = None;
                Err(fault)
            }
        }
    }

    #[inline(never)]
    fn split_next(&mut self, caller: u32, reply: &mut Reply) -> Result<(), CellFault>
        requires caller { HasCaller self.old.pass caller }
        ensures { HeldDone caller Step.SplitNext self.old self.new (answer_of result reply.new) }
    {
        let (first, _) = self.pass.callers();
        let place = (caller - first) as usize;
        let Some(batch) = &mut self.batches[place] else {
            *reply = Reply::NoBatch;
            return Ok(());
        };
        *reply = Reply::Tried(self.cell.split_next(&mut self.pass, batch)?);
        Ok(())
    }

    #[inline(never)]
    fn put_back(&mut self, caller: u32, reply: &mut Reply) -> Result<(), CellFault>
        requires caller { HasCaller self.old.pass caller }
        ensures { HeldDone caller Step.PutBack self.old self.new (answer_of result reply.new) }
    {
        let (first, _) = self.pass.callers();
        let place = (caller - first) as usize;
        let Some(batch) = &self.batches[place] else {
            *reply = Reply::NoBatch;
            return Ok(());
        };
        *reply = Reply::Back(self.cell.put_back_all(&mut self.pass, batch)?);
        self.batches[place] = None;
        Ok(())
    }
}

/// Returns the result of a step that has its own function, copied byte for byte. If the result were built in place, each step
/// would wait for the bytes that it stored there itself.
#[inline(always)]
fn apart(called: Result<(), CellFault>) -> Result<(), CellFault>
    ensures { result ≡ called }
{
    match called {
        Ok(()) => Ok(()),
        Err(CellFault::Busy) => Err(CellFault::Busy),
        Err(CellFault::Refused(refusal)) => Err(CellFault::Refused(refusal)),
    }
}

// The replies of calls, each kind in its own function, so that no step reserves stack space for another's.
fn page(called: Result<PageId, CellFault>, reply: &mut Reply) -> Result<(), CellFault>
    ensures { answer_of result reply.new ≡ page_reply called }
{
    *reply = Reply::Page(called?);
    Ok(())
}

fn count(queued: u32, reply: &mut Reply) -> Result<(), CellFault>
    ensures { answer_of result reply.new ≡ Ok (Reply.Count queued) }
{
    *reply = Reply::Count(queued);
    Ok(())
}

fn unit(called: Result<(), CellFault>, reply: &mut Reply) -> Result<(), CellFault>
    ensures { answer_of result reply.new ≡ unit_reply called }
{
    called?;
    *reply = Reply::Unit;
    Ok(())
}
