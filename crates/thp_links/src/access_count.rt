//! The number of accesses to a table, which is visible to contracts only.
use std::marker::Model;
use std::snapshot::Snapshot;

// A number, represented by its steps from 0.
#[derive(Drop)]
enum AccessChain {
    Start,
    Next(Snapshot<AccessChain>),
}

/// A number that is visible to contracts only. It has no bytes, and a step does nothing at run time.
///
/// A table that implements [`LinkTable`](crate::LinkTable) and has no count of its own stores one of these and steps it at each
/// access.
#[derive(Drop)]
pub struct AccessCount {
    steps: Snapshot<AccessChain>,
}

impl Model for AccessCount {
    ghost use Rattle.std.specs.Prelude.{ℕ};

    ghost Value = { ℕ };

    ghost use Rattle.thp_links.specs.AccessChain.{step_count};

    ghost view = { λ c. step_count c.steps.value };
}

impl AccessCount {
    ghost use Rattle.std.specs.Prelude.{◌≡◌, ◌+◌};

    /// Returns a count of 0 accesses.
    pub fn new() -> AccessCount
        ensures { result ≡ 0 }
    {
        AccessCount {
            steps: Snapshot::of(&AccessChain::Start),
        }
    }

    /// Counts one more access.
    pub fn step(&mut self)
        ensures { self.new ≡ self.old + 1 }
    {
        let start = Snapshot::of(&AccessChain::Start);
        let steps = std::mem::replace(&mut self.steps, start);
        self.steps = Snapshot::of(&AccessChain::Next(steps));
    }
}
