//! The quantities that are drawn over a node's events.
ghost use Rattle.std.specs.Prelude.{◌≡◌};
ghost use Rattle.thp_drawing.specs.Quantities.{most_of, quantity_class, quantity_name, quantity_step, quantity_unit, span_in};

use crate::scale::{doubled_step, round_step};
use thp_metrics::{Column, Span};

/// A quantity of a node that is drawn over its events.
#[derive(Clone, Copy, Debug, PartialEq, Eq)]
pub(crate) enum Quantity {
    /// Pages in the deferred split queue.
    Queue,
    /// Pages in batches.
    InBatches,
    /// Frames held by live pages.
    Held,
    /// Frames given back so far.
    Given,
    /// Pages split so far.
    Splits,
    /// Tries that found a page pinned, so far.
    PinnedTries,
    /// Pages split so far that were underused and not partly mapped.
    UnderusedSplits,
    /// The number of events for which the longest waiting page has waited.
    Wait,
    /// No quantity: the lower half of a panel with one quantity.
    Nothing,
}

impl Quantity {
    /// Returns the name, the class with the quantity's colour, and what the quantity's numbers count.
    pub(crate) fn words(self) -> (&'static [u8], &'static [u8], &'static [u8])
        ensures name { result.0.now ≡ quantity_name self }
        ensures class { result.1.now ≡ quantity_class self }
        ensures unit { result.2.now ≡ quantity_unit self }
    {
        match self {
            Quantity::Queue => (b"queue", b"s2", b"pages"),
            Quantity::InBatches => (b"in batches", b"s3", b"pages"),
            Quantity::Held => (b"held", b"held", b"frames"),
            Quantity::Given => (b"given back", b"given", b"frames"),
            Quantity::Splits => (b"split", b"s4", b"tries"),
            Quantity::PinnedTries => (b"found pinned", b"pin", b"tries"),
            Quantity::UnderusedSplits => (b"split as underused", b"s1", b"tries"),
            Quantity::Wait => (b"the oldest page has waited", b"wait", b"events"),
            Quantity::Nothing => (b"", b"", b"pages"),
        }
    }

    /// Returns the step of the quantity's numbers up to this one.
    pub(crate) fn step(self, number: u128) -> u128
        ensures { result ≡ quantity_step self number }
    {
        match self {
            Quantity::Held | Quantity::Given => doubled_step(number),
            _ => round_step(number),
        }
    }

    /// Returns the quantity's numbers in a column.
    pub(crate) fn span(self, column: &Column) -> Span
        ensures { result ≡ span_in self column.now }
    {
        match self {
            Quantity::Queue => column.queue,
            Quantity::InBatches => column.in_batches,
            Quantity::Held => column.held,
            Quantity::Given => column.given,
            Quantity::Splits => column.splits,
            Quantity::PinnedTries => column.pinned_tries,
            Quantity::UnderusedSplits => column.underused_splits,
            Quantity::Wait => column.wait,
            Quantity::Nothing => Span {
                least: 0,
                greatest: 0,
            },
        }
    }

    /// Returns the quantity's greatest number in any column.
    pub(crate) fn most(self, columns: &[Column]) -> u128
        ensures { result ≡ most_of self columns.now }
    {
        let mut most = 0;
        for column in columns {
            most = self.span(column).greatest.max(most);
        }
        most
    }
}
