//! The check of journals of any length that also keeps data of each node.
ghost use Rattle.std.specs.Prelude.{◌≡◌, Ok, [], IfOk, IfErr, true};
ghost use Rattle.thp_journal_reader.specs.Prelude.{journals_within, more_text_read, no_text_read, result_with, HasEnded, HasReadText, ReportsLongReadFault};
ghost use Rattle.thp_journal_reader.specs.declared.journals.ReadJournals.{ReadJournals};
ghost use Rattle.thp_script.specs.Prelude.{max_counted, Text};
ghost use Rattle.thp_journal_tools.specs.Keeping.{KeepsTotals, LeavesTotals, KeepsDrawing, LeavesNumbers};
ghost use Rattle.thp_journal_writer.specs.Prelude.{totals_of};

use std::alloc::{AllocError, Global};
use std::marker::Model;
use thp_check::Replay;
use thp_drawing::{DrawnNode, IllegalEvent};
use thp_history::{Event, Shape};
use thp_journal_reader::{Accepted, FollowedNodes, FollowsNode, Illegal, Stopped, TextReader};
use thp_journal_writer::Totals;
use thp_metrics::{NodeSeries, SeriesEnd};
use thp_script::{LongReadFault, ReadFault, ReadsParts, TextInParts};

/// A check of journals of any length that also keeps data of each node, which `F` makes from the node's legal events: its totals
/// ([`SummedNode`](crate::SummedNode)) or its numbers ([`SeriesNode`](crate::SeriesNode)).
#[derive(Drop)]
pub struct KeepingCheck<K: Drop, F: FollowsNode<Kept = K>> {
    text: TextReader<FollowedNodes<F, K>>,
}

impl<K: Drop, F: FollowsNode<Kept = K>> Model for KeepingCheck<K, F> {
    ghost use Rattle.std.specs.Prelude.{◌≤◌};
    ghost use Rattle.thp_journal_reader.specs.Prelude.{nodes_read, FollowsLines, so_far, JournalReadSoFar};
    ghost use Rattle.thp_script.specs.Prelude.{max_counted};

    ghost Value = { JournalReadSoFar };

    ghost view = { λ c. so_far (nodes_read c.text.nodes.lines) c.text.place c.text.text };

    ghost invariant = { λ c. FollowsLines F.replayed F.keeps F.FOLLOWS_ALL c.text.text.line c.text.nodes × (c.text.text.most ≤ max_counted) };
}

impl<K: Drop, F: FollowsNode<Kept = K>> KeepingCheck<K, F> {
    /// Creates a check that has read nothing. The journals can have any length and version.
    pub fn new(alloc: Global) -> KeepingCheck<K, F>
        ensures { (text : Text) → result_with result text ≡ journals_within max_counted text }
    {
        KeepingCheck {
            text: TextReader::new(
                alloc,
                Accepted::EveryVersion,
                TextInParts::unlimited(alloc),
                FollowedNodes::new(alloc),
            ),
        }
    }

    /// Returns the first illegal event of the whole text, and the data of each node. Fails with the first error of the text, even if
    /// that is after an illegal event, and if memory for the last node's data can't be allocated.
    pub fn finish(self) -> Result<(Option<Illegal>, Vec<K>), LongReadFault>
        ensures kept { IfOk result (λ found. (journals : ReadJournals) × (result_with self [] ≡ Ok journals) × HasEnded F.keeps F.FOLLOWS_ALL journals.nodes found.0 found.1.items) }
        ensures fault { IfErr result (ReportsLongReadFault (result_with self [])) }
    {
        match self.text.finish() {
            Ok(nodes) => Ok(nodes.finish()?),
            Err(fault) => Err(LongReadFault::Text(fault)),
        }
    }
}

impl<K: Drop, F: FollowsNode<Kept = K>> ReadsParts for KeepingCheck<K, F> {
    ghost has_read = { HasReadText };

    /// Reads the next part of the text. After the first error the part is ignored. Fails if memory for a node's replay or its data,
    /// or for a line that spans several parts, can't be allocated.
    fn read_part(self, part: &[u8]) -> Result<Self, ReadFault> {
        let text = self.text.read_part(part)?;
        Ok(KeepingCheck { text })
    }

    ghost nothing_read = { no_text_read };

    ghost more_read = { more_text_read };
}

/// A node whose events so far are legal, followed for its totals.
#[derive(Drop)]
pub struct SummedNode {
    shape: Shape,
    replay: Replay,
}

impl Model for SummedNode {
    ghost use Rattle.std.specs.Prelude.{◌≡◌};
    ghost use Rattle.thp_check.specs.Prelude.{Replayed};

    ghost Value = { Replayed };

    ghost view = { λ n. n.replay };

    ghost invariant = { λ n. n.shape ≡ n.replay.shape };
}

impl SummedNode {
    fn totals(&self) -> Totals
        ensures { result ≡ totals_of self.now.shape self.now.history }
    {
        let replay = &self.replay;
        let counters = replay.counters();
        Totals {
            pages: replay.allocations(),
            queue: replay.queue_len(),
            frames_held: replay.frames_held(),
            frames_given: replay.frames_given(),
            thp_split_page: counters.split_page,
            thp_split_page_failed: counters.split_page_failed,
            thp_deferred_split_page: counters.deferred_split_page,
            thp_split_pmd: counters.split_pmd,
            thp_underused_split_page: if self.shape.shrinks_underused() {
                Some(counters.underused_split_page)
            } else {
                None
            },
        }
    }
}

/// Keeps the totals.
impl FollowsNode for SummedNode {
    type Kept = Totals;

    type Rest = Totals;

    ghost replayed = { λ node. node };

    ghost keeps = { KeepsTotals };

    ghost leaves = { LeavesTotals };

    ghost FOLLOWS_ALL = { true };

    const FOLLOWS_ALL: bool = true;

    fn begin(alloc: Global, shape: Shape) -> Result<SummedNode, AllocError> {
        let replay = Replay::new(alloc, shape)?;
        Ok(SummedNode { shape, replay })
    }

    fn free_block(&self) -> u32 {
        self.replay.least_free_block()
    }

    fn follow(self, event: &Event) -> Result<SummedNode, Stopped<Totals>> {
        let rest = self.totals();
        let SummedNode { shape, replay } = self;
        match replay.admit(event) {
            Ok(replay) => Ok(SummedNode { shape, replay }),
            Err(misfit) => Err(Stopped { misfit, rest }),
        }
    }

    fn end(self, _alloc: Global) -> Result<Totals, AllocError> {
        Ok(self.totals())
    }

    fn stop(rest: Totals, _alloc: Global, _illegal: &Illegal) -> Result<Totals, AllocError> {
        Ok(rest)
    }
}

/// A node whose events so far are legal, followed for its numbers.
#[derive(Drop)]
pub struct SeriesNode {
    shape: Shape,
    series: NodeSeries,
}

impl Model for SeriesNode {
    ghost use Rattle.std.specs.Prelude.{◌≡◌};
    ghost use Rattle.thp_check.specs.Prelude.{Replayed};

    ghost Value = { Replayed };

    ghost view = { λ n. n.series };

    ghost invariant = { λ n. n.shape ≡ n.series.shape };
}

/// Keeps what is drawn of the node.
impl FollowsNode for SeriesNode {
    type Kept = DrawnNode;

    type Rest = (Shape, SeriesEnd);

    ghost replayed = { λ node. node };

    ghost keeps = { KeepsDrawing };

    ghost leaves = { LeavesNumbers };

    ghost FOLLOWS_ALL = { true };

    const FOLLOWS_ALL: bool = true;

    fn begin(alloc: Global, shape: Shape) -> Result<SeriesNode, AllocError> {
        let series = NodeSeries::new(alloc, shape)?;
        Ok(SeriesNode { shape, series })
    }

    fn free_block(&self) -> u32 {
        self.series.least_free_block()
    }

    fn follow(self, event: &Event) -> Result<SeriesNode, Stopped<(Shape, SeriesEnd)>> {
        let SeriesNode { shape, series } = self;
        match series.admit(event) {
            Ok(series) => Ok(SeriesNode { shape, series }),
            Err(end) => Err(Stopped {
                misfit: end.misfit,
                rest: (shape, end),
            }),
        }
    }

    fn end(self, alloc: Global) -> Result<DrawnNode, AllocError> {
        DrawnNode::of(alloc, self.shape, self.series)
    }

    fn stop(
        rest: (Shape, SeriesEnd),
        alloc: Global,
        illegal: &Illegal,
    ) -> Result<DrawnNode, AllocError> {
        let (shape, end) = rest;
        let stuck = end.waiting.stuck(alloc)?;
        let illegal = Some(IllegalEvent {
            line: illegal.line,
            event: illegal.event,
        });
        Ok(DrawnNode::from_columns(shape, end.columns, end.numbers, illegal, stuck))
    }
}
