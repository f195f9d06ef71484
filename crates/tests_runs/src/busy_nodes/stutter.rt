//! Nodes that are busy at chosen calls.
ghost use Rattle.std.specs.Prelude.{◌≡◌};
ghost use Rattle.thp_run.specs.Passes.{fronts_in};

use crate::busy_nodes::one_node::OneNode;
use thp_cell::CellFault;
use thp_worker::{Reply, Step, Steps};

/// Nodes that return `Busy` to the calls from `from` on and before `to`, counted from 0 and again after each `period`, and pass
/// all others on.
///
/// They count as shared with another holder, since a holder of all callers is never busy.
#[derive(Drop)]
pub struct Stutter<'a> {
    pub inner: OneNode<'a>,
    pub calls: u32,
    pub from: u32,
    pub to: u32,
    pub period: u32,
}

impl<'a> Steps for Stutter<'a> {
    ghost use Rattle.thp_run.specs.Passes.{fronts_in};
    ghost use Rattle.tests_runs.specs.Sharing.{shared};

    ghost fronts = { λ s. shared (fronts_in s.inner) };

    fn nodes(&self) -> u32 {
        self.inner.nodes()
    }

    fn step(&mut self, caller: u32, node: u32, step: Step) -> Result<Reply, CellFault> {
        let call = self.calls;
        self.calls = if call.wrapping_add(1) >= self.period {
            0
        } else {
            call.wrapping_add(1)
        };
        if self.from <= call && call < self.to {
            return Err(CellFault::Busy);
        }
        self.inner.step(caller, node, step)
    }
}
