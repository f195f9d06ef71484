//! The numbers of a node, event by event.
ghost use Rattle.std.specs.Prelude.{◌≡◌, ◌≤◌, ◌<◌, ◌+◌, ◌^◌, [], length, IfOk, IfErr, Some, replicate};
ghost use Rattle.thp_history.specs.Prelude.{least_free, Fits, IsLegal, max_order, min_order};
ghost use Rattle.thp_check.specs.Prelude.{Explains, replayed_with};
ghost use Rattle.thp_metrics.specs.Prelude.{AreStuck, CountsBatches, numbers_at, pages_at, series, staged, stages_at, flight_holder, home, stage_of};
ghost use Rattle.std.specs.Option.{option_and_then};
ghost use Rattle.thp_journal_writer.specs.Prelude.{event_page};

use crate::batch_counts::BatchCounts;
use crate::columns::Columns;
use crate::numbers::{Numbers, SHOWN_PAGES};
use crate::stage::{STAGES, Stage, enter, leave, stage_by};
use crate::waiting::{StuckPage, Waiting};
use std::alloc::{AllocError, Global};
use std::marker::Model;
use thp_check::{Misfit, Replay, Standing};
use thp_history::{Event, PageId, Shape, What};
use thp_journal_writer::event_page;

/// A node whose events arrive one by one, with its numbers after each prefix of them in columns.
///
/// Contracts see the node's shape and the events so far.
#[derive(Drop)]
pub struct NodeSeries {
    replay: Replay,
    waiting: Waiting,
    batches: BatchCounts,
    // after the events so far
    numbers: Numbers,
    columns: Columns,
}

/// The data of a node whose next event does not fit.
#[derive(Drop)]
pub struct SeriesEnd {
    /// Why the event does not fit.
    pub misfit: Misfit,
    /// The pages that wait after the events before it.
    pub waiting: Waiting,
    /// The numbers after the events before it.
    pub numbers: Numbers,
    /// The numbers after each prefix of these events, in columns.
    pub columns: Columns,
}

impl Model for NodeSeries {
    ghost use Rattle.thp_check.specs.Prelude.{Replayed};
    ghost use Rattle.std.specs.Prelude.{◌≡◌};
    ghost use Rattle.thp_metrics.specs.Following.{CountsBatches, GoesAlong};

    ghost Value = { Replayed };

    ghost view = { λ n. n.replay };

    ghost invariant = { λ n. GoesAlong n.replay n.numbers n.columns × (n.waiting ≡ n.replay) × CountsBatches n.replay n.batches };
}

impl NodeSeries {
    /// Creates a node of this shape without events. Fails if memory can't be allocated; events allocate none.
    pub fn new(alloc: Global, shape: Shape) -> Result<NodeSeries, AllocError>
        requires least { min_order ≤ shape.order }
        requires most { shape.order ≤ max_order }
        ensures shape { IfOk result (λ n. n.shape ≡ shape) }
        ensures none { IfOk result (λ n. n.history ≡ []) }
    {
        let replay = Replay::new(alloc, shape)?;
        let (waiting, batches) = begin_counts(alloc, shape)?;
        NodeSeries::begin(alloc, replay, waiting, batches)
    }

    // The node of a replay without events, with what waits and what is in batches after none.
    fn begin(
        alloc: Global,
        replay: Replay,
        waiting: Waiting,
        batches: BatchCounts,
    ) -> Result<NodeSeries, AllocError>
        requires none { replay.history ≡ [] }
        requires waiting { waiting ≡ replay }
        requires batches { CountsBatches replay batches }
        ensures { IfOk result (λ n. n ≡ replay) }
    {
        let numbers = numbers_of(
            &replay,
            &waiting,
            &batches,
            [0; STAGES],
            [None; SHOWN_PAGES],
        );
        let columns = Columns::new(alloc, &numbers)?;
        Ok(NodeSeries {
            replay,
            waiting,
            batches,
            numbers,
            columns,
        })
    }

    /// Adds an event, if it fits the events so far; otherwise returns why it does not, and the numbers of those before it.
    pub fn admit(self, event: &Event) -> Result<NodeSeries, SeriesEnd>
        requires room { length self.history + 1 < 2 ^ 64 }
        ensures admitted { IfOk result (λ n. n ≡ replayed_with self event.now) }
        ensures fits { IfOk result (λ n. Fits self.shape self.history event.now) }
        ensures misfit { IfErr result (λ x. Fits self.shape self.history event.now → ⊥) }
        ensures why { IfErr result (λ x. Explains self.shape self.history event.now x.misfit) }
        ensures numbers { IfErr result (λ x. x.numbers ≡ numbers_at self.shape self.history) }
        ensures columns { IfErr result (λ x. x.columns ≡ series self.shape self.history) }
        ensures waiting { IfErr result (λ x. x.waiting ≡ self) }
    {
        let NodeSeries {
            replay,
            mut waiting,
            mut batches,
            numbers,
            mut columns,
        } = self;
        let before = spot_in(&replay, &event.what);
        match replay.admit(event) {
            Ok(replay) => {
                let after = spot_in(&replay, &event.what);
                waiting.follow(event, before.home, after.home);
                batches.lose(before.batch);
                batches.gain(after.batch);
                let mut pages = numbers.pages;
                leave(&mut pages, before.stage);
                enter(&mut pages, after.stage);
                let mut stages = numbers.stages;
                set_stage(&mut stages, event_page(&event.what), after.stage);
                let numbers = numbers_of(&replay, &waiting, &batches, pages, stages);
                columns.push(&numbers);
                Ok(NodeSeries {
                    replay,
                    waiting,
                    batches,
                    numbers,
                    columns,
                })
            }
            Err(misfit) => Err(SeriesEnd {
                misfit,
                waiting,
                numbers,
                columns,
            }),
        }
    }

    /// Returns the numbers after the events so far.
    pub fn numbers(&self) -> Numbers
        ensures { result ≡ numbers_at self.now.shape self.now.history }
    {
        self.numbers
    }

    /// Returns the least block without a live page, or 0 if there is none.
    pub fn least_free_block(&self) -> u32
        ensures { result ≡ least_free self.now.shape self.now.history }
    {
        self.replay.least_free_block()
    }

    /// Returns the pages that wait after the events so far and were found pinned, those that have waited longest first.
    pub fn stuck(&self, alloc: Global) -> Result<Vec<StuckPage>, AllocError>
        ensures { IfOk result (λ pages. AreStuck self.now.shape self.now.history pages.items) }
    {
        self.waiting.stuck(alloc)
    }

    /// Returns the numbers of each prefix of the events so far, in columns.
    pub fn into_columns(self) -> Columns
        ensures { result ≡ series self.shape self.history }
    {
        self.columns
    }
}

// The pages that wait and the pages in batches, of a node without events.
fn begin_counts(alloc: Global, shape: Shape) -> Result<(Waiting, BatchCounts), AllocError>
    ensures shape { IfOk result (λ counts. counts.0.shape ≡ shape) }
    ensures none { IfOk result (λ counts. counts.0.history ≡ []) }
    ensures batches { IfOk result (λ counts. counts.1 ≡ replicate 64 0) }
{
    let waiting = Waiting::new(alloc, shape)?;
    let batches = BatchCounts::new(alloc)?;
    Ok((waiting, batches))
}

// Sets the stage of a page, if it is one of the first pages allocated.
fn set_stage(stages: &mut [Option<Stage>; SHOWN_PAGES], page: Option<PageId>, stage: Option<Stage>)
    ensures { stages.new ≡ staged stages.old page stage }
{
    let Some(page) = page else {
        return;
    };
    if page.0 < SHOWN_PAGES as u64 {
        stages[page.0 as usize] = stage;
    }
}

// The numbers of a replay, given the numbers of its pages in each stage and the stages of its first pages.
fn numbers_of(
    replay: &Replay,
    waiting: &Waiting,
    batches: &BatchCounts,
    pages: [u64; STAGES],
    stages: [Option<Stage>; SHOWN_PAGES],
) -> Numbers
    ensures { IsLegal replay.now.shape replay.now.history → waiting.now ≡ replay.now → CountsBatches replay.now batches.now → pages ≡ pages_at replay.now.shape replay.now.history → stages ≡ stages_at replay.now.shape replay.now.history → result ≡ numbers_at replay.now.shape replay.now.history }
{
    let counters = replay.counters();
    Numbers {
        queue: u64::from(replay.queue_len()),
        in_batches: pages[Stage::InBatch as usize],
        held: replay.frames_held(),
        given: replay.frames_given(),
        splits: counters.split_page,
        underused_splits: counters.underused_split_page,
        pinned_tries: counters.split_page_failed,
        wait: waiting.longest(),
        callers: batches.callers(),
        pages,
        stages,
    }
}

// The position of a page; all `None` if it is not live.
#[derive(Clone, Copy)]
pub(crate) struct PagePlace {
    pub(crate) stage: Option<Stage>,
    // its block, if it waits in the queue or in a batch
    pub(crate) home: Option<u32>,
    // the caller whose batch it is in
    pub(crate) batch: Option<u32>,
}

const NOWHERE: PagePlace = PagePlace {
    stage: None,
    home: None,
    batch: None,
};

// The position of an event's page, if it has one.
pub(crate) fn spot_in(replay: &Replay, what: &What) -> PagePlace
    ensures stage { result.stage ≡ option_and_then (stage_of replay.now.shape replay.now.history) (event_page what.now) }
    ensures home { result.home ≡ option_and_then (home replay.now.shape replay.now.history) (event_page what.now) }
    ensures batch { result.batch ≡ option_and_then (flight_holder replay.now.shape replay.now.history) (event_page what.now) }
{
    let Some(page) = event_page(what) else {
        return NOWHERE;
    };
    let Some(live) = replay.whereabouts(page) else {
        return NOWHERE;
    };
    let stage = stage_by(live.split, live.standing, live.partly_mapped);
    PagePlace {
        stage: Some(stage),
        home: matches!(stage, Stage::Queued | Stage::InBatch).then_some(live.block),
        batch: match live.standing {
            Standing::Batch(caller) => Some(caller),
            _ => None,
        },
    }
}
