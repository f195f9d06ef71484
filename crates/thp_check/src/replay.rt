//! A replay of a history, event by event.
ghost use Rattle.std.specs.Prelude.{◌≡◌, ◌≤◌, ◌<◌, ◌+◌, ◌^◌, ℕ, [], ◌∷◌, ◌++◌, length, slice_get, IfOk, IfErr, IfSome};
ghost use Rattle.thp_history.specs.Prelude.{least_free, allocations, is_closed, History, by, Fits, IsLegal, max_order, min_order, queue, IsContext};
ghost use Rattle.thp_history.specs.declared.shape.Shape.{Shape};
ghost use Rattle.thp_live_pages.specs.Prelude.{has_block};
ghost use Rattle.thp_check.specs.Prelude.{Explains, IsFreed, Means, free_after, replayed_with, taken_block};

mod reading;

use crate::misfit::Misfit;
use crate::node_state::NodeState;
use std::alloc::{AllocError, Global};
use std::marker::Model;
use thp_history::{Event, PageId, Shape, SplitContext, Tally, Trace, What};
use thp_live_pages::{FreeBlocks, freed_page};

/// The state of a node after the events of its history so far, which is legal: its pages, its queue, and its flights. It stores
/// what is live, not the events.
///
/// Contracts see the node's shape and the events so far.
#[derive(Drop)]
pub struct Replay {
    state: Box<NodeState>,
    // the blocks without a live page
    free: FreeBlocks,
    tally: Box<Tally>,
    // has no bytes
    past: Trace<Event>,
}

impl Model for Replay {
    ghost use Rattle.thp_check.specs.Prelude.{MarksFree, Means, Replayed};
    ghost use Rattle.thp_history.specs.Prelude.{AddsUp};

    ghost Value = { Replayed };

    ghost view = { λ r. record { shape = r.state.value.shape; history = r.past } };

    ghost invariant = { λ r. Means r.state.value.shape r.past r.state.value × MarksFree r.state.value.shape r.past r.free × AddsUp r.state.value.shape r.past r.tally.value };
}

impl Replay {
    /// Creates a replay with no event, on a node of this shape. The node may have any number of blocks, pages of order 2 to 9,
    /// and any threshold. Fails if memory for its pages and flights can't be reserved; it is taken as
    /// blocks are used, and events allocate none.
    pub fn new(alloc: Global, shape: Shape) -> Result<Replay, AllocError>
        requires least { min_order ≤ shape.order }
        requires most { shape.order ≤ max_order }
        ensures shape { IfOk result (λ r. r.shape ≡ shape) }
        ensures none { IfOk result (λ r. r.history ≡ []) }
    {
        let free = FreeBlocks::new(alloc, shape.blocks)?;
        let state = NodeState::new(alloc, shape)?;
        Ok(Replay {
            state: Box::new(alloc, state)?,
            free,
            tally: Box::new(alloc, Tally::new())?,
            past: Trace::new(),
        })
    }

    /// Adds an event, if it fits the events so far; otherwise returns why it does not, and discards the replay.
    pub fn admit(mut self, event: &Event) -> Result<Replay, Misfit>
        requires room { length self.history + 1 < 2 ^ 64 }
        ensures admitted { IfOk result (λ r. r ≡ replayed_with self event.now) }
        ensures fits { IfOk result (λ r. Fits self.shape self.history event.now) }
        ensures legal { IfOk result (λ r. IsLegal r.shape r.history) }
        ensures misfit { IfErr result (λ m. Fits self.shape self.history event.now → ⊥) }
        ensures why { IfErr result (λ m. Explains self.shape self.history event.now m) }
    {
        let freed = freed_block(&self.state, &event.what);
        let context = context_of(&self.state, &event.what);
        self.state.admit(event)?;
        mark(&mut self.free, &event.what, freed);
        self.tally.count(&event.what, context);
        self.past.push(event);
        Ok(self)
    }

    /// Returns the number of pages allocated, which is the number of the next page.
    pub fn allocations(&self) -> u64
        ensures { result ≡ allocations self.now.history }
    {
        self.state.next
    }

    /// Returns whether the node is closed.
    pub fn is_closed(&self) -> bool
        ensures { result ≡ is_closed self.now.history }
    {
        self.state.closed
    }

    /// Returns the number of pages in the deferred split queue.
    pub fn queue_len(&self) -> u32
        ensures { result ≡ length (queue self.now.shape self.now.history) }
    {
        self.state.places.queue().len()
    }

    /// Returns the oldest page in the queue, or `None` if the queue is empty.
    pub fn oldest(&self) -> Option<PageId>
        ensures { result ≡ slice_get (queue self.now.shape self.now.history) 0 }
    {
        let block = self.state.places.queue().front()?;
        Some(self.state.places.number(block))
    }

    /// Returns the least block without a live page, or 0 if there is none.
    pub fn least_free_block(&self) -> u32
        ensures { result ≡ least_free self.now.shape self.now.history }
    {
        match self.free.least() {
            Some(block) => block,
            None => 0,
        }
    }
}

// The block of the page that an event frees, if any.
fn freed_block(state: &NodeState, what: &What) -> Option<u32>
    ensures { (s : Shape) (h : History) → Means s h state.now → IsFreed h what.now result }
{
    let page = freed_page(what)?;
    state.places.find(page)
}

// The facts about a split that its event does not contain.
fn context_of(state: &NodeState, what: &What) -> SplitContext
    ensures { (s : Shape) (h : History) (c : ℕ) → Means s h state.now → Fits s h (by c what.now) → IsContext s h what.now result }
{
    let What::Split { page, .. } = what else {
        return SplitContext::none();
    };
    match state.places.find(*page) {
        Some(block) => SplitContext {
            mappings: state.places.whole(block),
            underused: !state.places.is_partly(block),
        },
        None => SplitContext::none(),
    }
}

// Records that an event took a block, or that one became free.
fn mark(free: &mut FreeBlocks, what: &What, freed: Option<u32>)
    requires taken { IfSome (taken_block what.now) (λ b. b < free.old.blocks) }
    requires freed { IfSome freed (λ b. b < free.old.blocks) }
    ensures marked { (b : ℕ) → has_block free.new b ≡ free_after (taken_block what.now) freed b (has_block free.old b) }
    ensures blocks { free.new.blocks ≡ free.old.blocks }
{
    if let What::Alloc { block, .. } = *what {
        free.remove(block);
    } else if let Some(block) = freed {
        free.insert(block);
    }
}
