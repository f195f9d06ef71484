//! The pass of one node as a holder of all nodes.
ghost use Rattle.std.specs.Prelude.{◌≡◌, ◌∷◌, []};
ghost use Rattle.thp_run.specs.Passes.{fronts_in};
ghost use Rattle.tests_runs.specs.Sharing.{of_two};

use std::marker::Model;
use thp_cell::CellFault;
use thp_worker::{NodePass, Reply, Step, Steps};

/// The pass of one node with two callers, and their open batches. Contracts see what a holder of all nodes' passes sees.
#[derive(Drop)]
pub struct OneNode<'a> {
    node: NodePass<'a>,
}

impl<'a> Model for OneNode<'a> {
    ghost use Rattle.thp_run.specs.Passes.{IsOf, Passes};
    ghost use Rattle.tests_runs.specs.Sharing.{of_two};

    ghost Value = { Passes };

    ghost view = { λ s. of_two s.node };

    ghost invariant = { λ s. IsOf 2 0 2 s.node };
}

impl<'a> OneNode<'a> {
    /// Creates the holder of a node's pass.
    pub fn new(node: NodePass<'a>) -> OneNode<'a>
        requires callers { node.pass.callers ≡ 2 }
        requires first { node.pass.first ≡ 0 }
        requires end { node.pass.end ≡ 2 }
        ensures { result ≡ of_two node.entry }
    {
        OneNode { node }
    }

    /// Returns the pass of the node.
    pub fn into_node(self) -> NodePass<'a>
        ensures callers { result.pass.callers ≡ 2 }
        ensures first { result.pass.first ≡ 0 }
        ensures end { result.pass.end ≡ 2 }
        ensures cell { (fronts_in self.entry).cells ≡ result.pass.cell ∷ [] }
    {
        self.node
    }
}

impl<'a> Steps for OneNode<'a> {
    ghost use Rattle.thp_run.specs.Passes.{fronts_in};

    ghost fronts = { fronts_in };

    fn nodes(&self) -> u32 {
        let OneNode { node: _node } = self; // so that the proof sees what is held
        1
    }

    fn step(&mut self, caller: u32, node: u32, step: Step) -> Result<Reply, CellFault> {
        let mut reply = Reply::Unit;
        self.step_into(caller, node, step, &mut reply)?;
        Ok(reply)
    }

    fn step_into(
        &mut self,
        caller: u32,
        _node: u32,
        step: Step,
        reply: &mut Reply,
    ) -> Result<(), CellFault> {
        self.node.step(caller, step, reply)
    }
}
