//! Passes of all nodes, with the open batches of their callers.
ghost use Rattle.std.specs.Prelude.{◌≡◌, ◌<◌, All, IfOk, Some, map, slice_get};
ghost use Rattle.thp_worker.specs.Prelude.{Goes, Held, HeldDone, HoldsAllCallers, HoldsCaller, IsStep, StepDone, answer_of, keeping_node};
ghost use Rattle.thp_run.specs.Passes.{Agree, IsOfAll, fronts_in};

use std::alloc::{AllocError, Global};
use std::marker::Model;
use thp_cell::CellFault;
use thp_node::Recorder;
use thp_worker::{NodePass, Passes, Reply, Step, Steps};

/// A pass of each node, all with the same callers. Contracts see what the holder knows of the nodes.
#[derive(Drop)]
pub(crate) struct NodePasses<'a, R: Recorder> {
    callers: u32,
    first: u32,
    end: u32,
    nodes: Vec<NodePass<'a, R>>,
}

impl<'a, R: Recorder> Model for NodePasses<'a, R> {
    ghost use Rattle.thp_run.specs.Passes.{Passes, Agree};

    ghost Value = { Passes };

    ghost view = { λ s. record { callers = s.callers; first = s.first; end = s.end; held = s.nodes.items } };

    ghost invariant = { λ s. Agree s.callers s.first s.end s.nodes.items };
}

impl<'a, R: Recorder> Steps for NodePasses<'a, R> {
    ghost use Rattle.thp_run.specs.Passes.{fronts_in};

    ghost fronts = { fronts_in };

    fn nodes(&self) -> u32 {
        self.nodes.len() as u32
    }

    fn step(&mut self, caller: u32, node: u32, step: Step) -> Result<Reply, CellFault> {
        let mut reply = Reply::Unit;
        self.step_into(caller, node, step, &mut reply)?;
        Ok(reply)
    }

    fn step_into(
        &mut self,
        caller: u32,
        node: u32,
        step: Step,
        reply: &mut Reply,
    ) -> Result<(), CellFault>
        requires caller { HoldsCaller (fronts_in self.old) caller }
        requires node { node < (fronts_in self.old).nodes }
        requires step { IsStep step }
        ensures goes { Goes caller (fronts_in self.old) (fronts_in self.new) }
        ensures done { StepDone caller node step (fronts_in self.old) (fronts_in self.new) (answer_of result reply.new) }
        // it is `Busy` only if a lock step on the node missed
        ensures held { (old new : Held) → slice_get self.old.held node ≡ Some old → slice_get self.new.held node ≡ Some new → HeldDone caller step old new (answer_of result reply.new) }
    {
        self.nodes[node as usize].step(caller, step, reply)
    }
}

impl<'a, R: Recorder> NodePasses<'a, R> {
    /// Creates the passes of the nodes, each with the callers from `first` on and below `end`, of `callers` in all.
    pub(crate) fn new(
        nodes: Vec<NodePass<'a, R>>,
        callers: u32,
        first: u32,
        end: u32,
    ) -> NodePasses<'a, R>
        requires { Agree callers first end nodes.items }
        ensures { result ≡ record { callers = callers; first = first; end = end; held = nodes.entry.items } }
    {
        NodePasses {
            callers,
            first,
            end,
            nodes,
        }
    }

    /// Returns the passes of the nodes.
    pub(crate) fn into_nodes(self) -> Vec<NodePass<'a, R>>
        ensures items { result.items ≡ self.entry.held }
        ensures agree { Agree self.entry.callers self.entry.first self.entry.end result.items }
    {
        self.nodes
    }
}

impl<'a, R: Recorder> Passes for NodePasses<'a, R> {
    fn split(self, alloc: Global, at: u32) -> Result<(Self, Self), AllocError> {
        let (callers, first, end) = (self.callers, self.first, self.end);
        let mut low = Vec::new(alloc);
        let mut high = Vec::new(alloc);
        for node in self.nodes {
            let (left, right) = node.split(at)?;
            low.push(left)?;
            high.push(right)?;
        }
        Ok((
            NodePasses::new(low, callers, first, at),
            NodePasses::new(high, callers, at, end),
        ))
    }

    fn join(self, alloc: Global, other: Self) -> Result<Self, AllocError> {
        let mut nodes = Vec::new(alloc);
        let mut more = other.nodes.into_iter();
        for low in self.nodes {
            // both hold a pass of each node
            if let Some(high) = more.next() {
                nodes.push(low.join(high)?)?;
            }
        }
        Ok(NodePasses::new(nodes, self.callers, self.first, other.end))
    }

    fn keep_nodes(&mut self)
        requires { HoldsAllCallers (fronts_in self.old) }
        ensures fronts { fronts_in self.new ≡ fronts_in self.old }
        ensures kept { self.new ≡ record self.old { held = map keeping_node self.old.held } }
    {
        keep_each(&mut self.nodes);
    }
}

/// Keeps each node for the following steps.
fn keep_each<'a, R: Recorder>(nodes: &mut Vec<NodePass<'a, R>>)
    requires { All IsOfAll nodes.old.items }
    ensures { nodes.new.items ≡ map keeping_node nodes.old.items }
{
    for index in 0..nodes.len() {
        nodes[index].keep_node();
    }
}
