//! Sections on one node of two callers, from its making on. Want of memory is returned, so that each allocation can be made to fail.
ghost use Rattle.std.specs.Prelude.{◌≡◌, ◌<◌, ◌^◌, [], ◌∷◌, All, IfOk, length};
ghost use Rattle.thp_run.specs.Listed.{WorksOn};
ghost use Rattle.thp_worker.specs.Prelude.{IsStep, Goes, SameHolding, HasNoBatch, IsWorkFor};
ghost use Rattle.thp_run.specs.Passes.{fronts_in};
ghost use Rattle.thp_cell.specs.Prelude.{HasAll};
ghost use Rattle.tests_runs.specs.Sharing.{OfTwo, WasWorked};

use crate::busy_nodes::one_node::OneNode;
use crate::busy_nodes::stutter::Stutter;
use std::alloc::{AllocError, Global};
use std::process::Abort;
use thp_cell::{CellFault, NodeCell, Pass};
use thp_history::{PageId, Refusal, Shape};
use thp_node::{Node, ScanReply};
use thp_run::{Worked, work, work_rest};
use thp_worker::{Answer, Command, NoGate, NodePass, Op, Reply, Step, Steps};

// A node of 16 blocks of order 9, for two callers.
pub fn cell_of(alloc: Global) -> Result<(NodeCell, Pass), AllocError>
    ensures cell { IfOk result (λ r. r.1.cell ≡ r.0) }
    ensures callers { IfOk result (λ r. r.1.callers ≡ 2) }
    ensures first { IfOk result (λ r. r.1.first ≡ 0) }
    ensures end { IfOk result (λ r. r.1.end ≡ 2) }
{
    let shape = Shape {
        blocks: 16,
        order: 9,
        underused: None,
    };
    let Ok(node) = Node::new(alloc, shape) else {
        return Err(AllocError);
    };
    match NodeCell::new(alloc, node, 2) {
        Ok(made) => Ok(made),
        Err(_) => Err(AllocError),
    }
}

pub fn passes_of<'a>(
    alloc: Global,
    cell: &'a NodeCell,
    pass: Pass,
) -> Result<OneNode<'a>, AllocError>
    requires cell { pass.cell ≡ cell.now }
    requires callers { pass.callers ≡ 2 }
    requires first { pass.first ≡ 0 }
    requires end { pass.end ≡ 2 }
    ensures two { IfOk result (λ r. OfTwo (fronts_in r)) }
    ensures shut { IfOk result (λ r. HasNoBatch 1 (fronts_in r)) }
    ensures cells { IfOk result (λ r. (fronts_in r).cells ≡ cell.now ∷ []) }
{
    Ok(OneNode::new(NodePass::new(alloc, cell, pass)?))
}

// One step of a caller on the node.
pub fn step(passes: &mut OneNode<'_>, caller: u32, step: Step) -> Result<Reply, CellFault>
    requires two { OfTwo (fronts_in passes.old) }
    requires caller { caller < 2 }
    requires step { IsStep step }
    ensures two { OfTwo (fronts_in passes.new) }
    ensures goes { Goes caller (fronts_in passes.old) (fronts_in passes.new) }
{
    passes.step(caller, 0, step)
}

// The calls from `from` on and before `to` find the node busy, of every `period` calls.
#[derive(Clone, Copy)]
pub struct BusyCalls {
    pub from: u32,
    pub to: u32,
    pub period: u32,
}

// A section of caller 1 on a node that is busy at chosen calls.
pub fn begin<'a>(
    alloc: Global,
    passes: OneNode<'a>,
    busy: BusyCalls,
    commands: &[Command],
) -> Result<(OneNode<'a>, Worked), AllocError>
    requires two { OfTwo (fronts_in passes) }
    requires shut { HasNoBatch 1 (fronts_in passes) }
    requires few { length commands.now < 2 ^ 32 }
    requires commands { All (IsWorkFor 1) commands.now }
    ensures two { IfOk result (λ r. OfTwo (fronts_in r.0)) }
    ensures same { IfOk result (λ r. SameHolding (fronts_in passes.entry) (fronts_in r.0)) }
    ensures worked { IfOk result (λ r. WasWorked 1 (fronts_in r.0) commands.now r.1) }
{
    let mut nodes = Stutter {
        inner: passes,
        calls: 0,
        from: busy.from,
        to: busy.to,
        period: busy.period,
    };
    let worked = work(alloc, commands, 1, &mut nodes, &NoGate)?;
    let Stutter {
        inner,
        calls: _,
        from: _,
        to: _,
        period: _,
    } = nodes;
    Ok((inner, worked))
}

// What is left of the section, on a node that is never busy.
pub fn go_on(
    alloc: Global,
    passes: &mut OneNode<'_>,
    commands: &[Command],
    worked: Worked,
) -> Result<Worked, AllocError>
    requires two { OfTwo (fronts_in passes.old) }
    requires few { length commands.now < 2 ^ 32 }
    requires commands { All (IsWorkFor 1) commands.now }
    requires worked { WasWorked 1 (fronts_in passes.old) commands.now worked }
    ensures two { OfTwo (fronts_in passes.new) }
    ensures same { SameHolding (fronts_in passes.old) (fronts_in passes.new) }
{
    work_rest(alloc, commands, 1, worked, passes)
}

// What a step was answered; the test fails at any other refusal than want of memory.
fn answered(rt: &impl Abort, called: Result<Reply, CellFault>) -> Result<Reply, AllocError> {
    match called {
        Ok(reply) => Ok(reply),
        Err(fault) => {
            assert!(rt; matches!(fault, CellFault::Refused(Refusal::OutOfMemory)));
            Err(AllocError)
        }
    }
}

// Allocates the next page and unmaps its first subpage, so that it is queued.
fn queue(rt: &impl Abort, passes: &mut OneNode<'_>, page: u64) -> Result<(), AllocError>
    requires two { OfTwo (fronts_in passes.old) }
    ensures two { OfTwo (fronts_in passes.new) }
    ensures goes { Goes 0 (fronts_in passes.old) (fronts_in passes.new) }
{
    let allocated = answered(rt, step(passes, 0, Step::One(Op::Alloc)))?;
    assert!(rt; matches!(allocated, Reply::Page(_)));
    let divided = answered(
        rt,
        step(passes, 0, Step::One(Op::SplitPmd { page: PageId(page) })),
    )?;
    assert!(rt; matches!(divided, Reply::Unit));
    let unmap = Step::One(Op::Unmap {
        first: 0,
        count: 1,
        page: PageId(page),
    });
    let queued = answered(rt, step(passes, 0, unmap))?;
    assert!(rt; matches!(queued, Reply::Done(_)));
    Ok(())
}

// Queues the next page, and pins it.
fn queue_pinned(rt: &impl Abort, passes: &mut OneNode<'_>, page: u64) -> Result<(), AllocError>
    requires two { OfTwo (fronts_in passes.old) }
    requires shut { HasNoBatch 1 (fronts_in passes.old) }
    ensures two { OfTwo (fronts_in passes.new) }
    ensures same { SameHolding (fronts_in passes.old) (fronts_in passes.new) }
    ensures shut { HasNoBatch 1 (fronts_in passes.new) }
{
    queue(rt, passes, page)?;
    let pinned = answered(
        rt,
        step(passes, 0, Step::One(Op::Pin { page: PageId(page) })),
    )?;
    assert!(rt; matches!(pinned, Reply::Unit));
    Ok(())
}

// Pages 0 and 1 are queued, and page 1 is pinned.
fn queue_two(rt: &impl Abort, passes: &mut OneNode<'_>) -> Result<(), AllocError>
    requires two { OfTwo (fronts_in passes.old) }
    requires shut { HasNoBatch 1 (fronts_in passes.old) }
    ensures two { OfTwo (fronts_in passes.new) }
    ensures same { SameHolding (fronts_in passes.old) (fronts_in passes.new) }
    ensures shut { HasNoBatch 1 (fronts_in passes.new) }
{
    queue(rt, passes, 0)?;
    queue_pinned(rt, passes, 1)
}

// The pages that are queued before a section begins.
#[derive(Clone, Copy)]
pub enum Queued {
    // None.
    Nothing,
    // Page 0, which is pinned.
    OnePinned,
    // Pages 0 and 1, of which page 1 is pinned.
    TwoOnePinned,
}

fn queue_before(rt: &impl Abort, passes: &mut OneNode<'_>, queued: Queued) -> Result<(), AllocError>
    requires two { OfTwo (fronts_in passes.old) }
    requires shut { HasNoBatch 1 (fronts_in passes.old) }
    ensures two { OfTwo (fronts_in passes.new) }
    ensures same { SameHolding (fronts_in passes.old) (fronts_in passes.new) }
    ensures shut { HasNoBatch 1 (fronts_in passes.new) }
{
    match queued {
        Queued::Nothing => Ok(()),
        Queued::OnePinned => queue_pinned(rt, passes, 0),
        Queued::TwoOnePinned => queue_two(rt, passes),
    }
}

// The pass of the only node.
fn pass_of(passes: OneNode<'_>) -> Pass
    requires two { OfTwo (fronts_in passes) }
    ensures cell { (fronts_in passes.entry).cells ≡ result.cell ∷ [] }
    ensures all { HasAll result }
{
    passes.into_node().into_pass()
}

// A copy of answers.
fn copied(alloc: Global, answers: &[Answer]) -> Result<Vec<Answer>, AllocError> {
    let mut copies = Vec::new(alloc);
    for answer in answers {
        copies.push(*answer)?;
    }
    Ok(copies)
}

// A section that stopped and was continued where it stopped.
#[derive(Drop)]
pub struct SectionResult {
    // the command where it stopped, how many of its steps were answered by then, and what these came to
    pub stopped: Option<(u32, u32, ScanReply)>,
    pub answered_then: Vec<Answer>,
    pub worked: Worked,
    // the length of the queue after the section
    pub queued: Result<Reply, CellFault>,
    // the node after the section
    pub node: Node,
}

// A section of caller 1 on a new node that is busy at chosen calls, and what is left of it once the node is busy no more.
fn try_section(
    rt: &impl Abort,
    alloc: Global,
    queued: Queued,
    busy: BusyCalls,
    commands: &[Command],
) -> Result<SectionResult, AllocError>
    requires few { length commands.now < 2 ^ 32 }
    requires commands { All (IsWorkFor 1) commands.now }
{
    let (cell, pass) = cell_of(alloc)?;
    let mut passes = passes_of(alloc, &cell, pass)?;
    queue_before(rt, &mut passes, queued)?;
    let (mut passes, worked) = begin(alloc, passes, busy, commands)?;
    let stopped = match &worked.rest {
        Some(rest) => Some((rest.command, rest.steps, rest.so_far)),
        None => None,
    };
    let answered_then = copied(alloc, worked.answers.as_slice())?;
    let worked = go_on(alloc, &mut passes, commands, worked)?;
    let queued = step(&mut passes, 0, Step::One(Op::Count));
    let pass = pass_of(passes);
    let node = cell.finish(pass);
    Ok(SectionResult {
        stopped,
        answered_then,
        worked,
        queued,
        node,
    })
}

// The same at the second try at the latest: only the first may lack memory.
pub fn section(
    rt: &(impl Abort + Print),
    alloc: Global,
    queued: Queued,
    busy: BusyCalls,
    commands: &[Command],
) -> SectionResult
    requires few { length commands.now < 2 ^ 32 }
    requires commands { All (IsWorkFor 1) commands.now }
{
    match try_section(rt, alloc, queued, busy, commands) {
        Ok(result) => result,
        Err(_) => {
            println!(rt; "refused: a section on a busy node").expect(rt, "standard output");
            try_section(rt, alloc, queued, busy, commands).expect(rt, "memory at the second try")
        }
    }
}
