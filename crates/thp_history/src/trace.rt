//! What happened so far, which is visible to contracts only.
ghost use Rattle.std.specs.Prelude.{◌≡◌, [], ◌∷◌, ◌++◌};

use std::marker::Model;
use std::snapshot::Snapshot;

// Items one after the other, the newest outside.
#[derive(Drop)]
enum Chain<T> {
    Start,
    Then(T, Snapshot<Chain<T>>),
}

/// A list that is visible to contracts only: it has no bytes and does nothing at run time.
#[derive(Drop)]
pub struct Trace<T> {
    steps: Snapshot<Chain<T>>,
}

impl<T> Model for Trace<T> {
    ghost use Rattle.std.specs.Prelude.{List};
    ghost use Rattle.thp_history.specs.Traces.{chain_items};

    ghost Value = { List T };

    ghost view = { λ t. chain_items t.steps.value };
}

impl<T: Copy> Trace<T> {
    /// Returns the empty list.
    pub fn new() -> Trace<T>
        ensures { result ≡ [] }
    {
        Trace {
            steps: Snapshot::of(&Chain::Start),
        }
    }

    /// Appends an item.
    #[inline(always)]
    pub fn push(&mut self, item: &T)
        ensures { self.new ≡ self.old ++ item.now ∷ [] }
    {
        let start = Snapshot::of(&Chain::Start);
        let steps = std::mem::replace(&mut self.steps, start);
        self.steps = Snapshot::of(&Chain::Then(*item, steps));
    }
}
