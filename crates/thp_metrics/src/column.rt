//! The data of a column's prefixes.
ghost use Rattle.std.specs.Prelude.{◌≡◌, ◌^◌, [], ◌∷◌};
ghost use Rattle.thp_metrics.specs.Prelude.{AreWithin, FitTogether, both, column_of, joined};

use crate::numbers::{Numbers, SHOWN_PAGES};
use crate::stage::{STAGES, Stage, widened};

/// The least and the greatest of some numbers.
#[derive(Clone, Copy, Debug, PartialEq, Eq)]
pub struct Span {
    /// The least of them.
    pub least: u128,
    /// The greatest of them.
    pub greatest: u128,
}

impl Span {
    // The span of one number.
    pub(crate) fn of(number: u128) -> Span
        ensures { result ≡ record { least = number; greatest = number } }
    {
        Span {
            least: number,
            greatest: number,
        }
    }

    // The span of the numbers of both.
    pub(crate) fn join(&self, other: &Span) -> Span
        ensures { result ≡ joined self.now other.now }
    {
        Span {
            least: self.least.min(other.least),
            greatest: self.greatest.max(other.greatest),
        }
    }
}

/// The least and the greatest of each number of a node over a column's prefixes; and for the number of pages in each stage, the
/// sums.
#[derive(Clone, Copy, Debug, PartialEq, Eq)]
pub struct Column {
    /// Pages in the deferred split queue.
    pub queue: Span,
    /// Pages in callers' batches.
    pub in_batches: Span,
    /// Frames held.
    pub held: Span,
    /// Frames given back so far.
    pub given: Span,
    /// Pages split so far.
    pub splits: Span,
    /// Pages split so far that were underused and not partly mapped.
    pub underused_splits: Span,
    /// Tries that found a page pinned, so far.
    pub pinned_tries: Span,
    /// The number of events for which the longest waiting page has waited.
    pub wait: Span,
    /// The callers 0 to 63 that have pages in their batches after one of the prefixes: caller c as bit c.
    pub callers: u64,
    /// Live pages in each stage, in the order of `Stage`, summed over the prefixes.
    pub pages: [u128; STAGES],
    /// The stages of the first pages allocated, after the column's last prefix.
    pub stages: [Option<Stage>; SHOWN_PAGES],
}

impl Column {
    /// Returns the column of one prefix.
    pub fn of(numbers: &Numbers) -> Column
        ensures column { result ≡ column_of (numbers.now ∷ []) }
        ensures few { AreWithin (2 ^ 64) result.pages }
    {
        Column {
            queue: Span::of(u128::from(numbers.queue)),
            in_batches: Span::of(u128::from(numbers.in_batches)),
            held: Span::of(numbers.held),
            given: Span::of(numbers.given),
            splits: Span::of(u128::from(numbers.splits)),
            underused_splits: Span::of(u128::from(numbers.underused_splits)),
            pinned_tries: Span::of(u128::from(numbers.pinned_tries)),
            wait: Span::of(u128::from(numbers.wait)),
            callers: numbers.callers,
            pages: widened(&numbers.pages),
            stages: numbers.stages,
        }
    }

    // The column of the prefixes of both.
    pub(crate) fn join(&self, other: &Column) -> Column
        requires { FitTogether self.now.pages other.now.pages }
        ensures { result ≡ both self.now other.now }
    {
        let (own, others) = (&self.pages, &other.pages);
        Column {
            queue: self.queue.join(&other.queue),
            in_batches: self.in_batches.join(&other.in_batches),
            held: self.held.join(&other.held),
            given: self.given.join(&other.given),
            splits: self.splits.join(&other.splits),
            underused_splits: self.underused_splits.join(&other.underused_splits),
            pinned_tries: self.pinned_tries.join(&other.pinned_tries),
            wait: self.wait.join(&other.wait),
            callers: self.callers | other.callers,
            pages: [
                own[0] + others[0],
                own[1] + others[1],
                own[2] + others[2],
                own[3] + others[3],
                own[4] + others[4],
            ],
            stages: other.stages,
        }
    }
}
