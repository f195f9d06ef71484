//! Nodes defined here: steps on other nodes, which are counted.
ghost use Rattle.std.specs.Prelude.{◌≡◌};

use thp_cell::CellFault;
use thp_run::{Reply, Step, Steps};

/// Nodes that count the steps made on them.
#[derive(Drop)]
pub struct Counting<S: Drop> {
    /// The nodes.
    pub nodes: S,
    /// The number of steps.
    pub steps: u64,
}

impl<S: Steps + Drop> Steps for Counting<S> {
    ghost fronts = { λ c. S.fronts c.nodes };

    fn nodes(&self) -> u32 {
        self.nodes.nodes()
    }

    fn step(&mut self, caller: u32, node: u32, step: Step) -> Result<Reply, CellFault> {
        self.steps = self.steps.wrapping_add(1);
        self.nodes.step(caller, node, step)
    }
}
