//! A memory node: its parts, its constructors, and what can be read of it.
ghost use Rattle.std.specs.Prelude.{◌≡◌, ℕ, ◌<◌, ◌≤◌, true, [], length, map, Some, ◌↔◌, Err, IfOk, IfErr, OnOk, OnErr};
ghost use Rattle.thp_links.specs.Prelude.{Stands};
ghost use Rattle.thp_history.specs.Prelude.{allocations, is_live, IsNodeShape, IsShape, counters_of, frames_given, frames_held, IsLegal, queue};
ghost use Rattle.thp_page.specs.Prelude.{slot_at};
ghost use Rattle.thp_live_pages.specs.Prelude.{Fills, HasBlock, block_of, LiesWherePlaced};
ghost use Rattle.thp_node.specs.JournalLaws.{StandsOnce, StandsWhole, TakesOldest, LeavesFreedAlone, AllocatesOnce, NothingEnters, HasFramesOnce, KeepsFrames, HoldsWhileLive, LivesApart, OthersFree, FlightsGoOn, QueueGoesOn, NoneIsUnderused};

mod batch_calls;
mod list_calls;
mod page_calls;
mod return_calls;

use crate::answers::NewFault;
use crate::blocks::Blocks;
use crate::journal::Journal;
use crate::recorder::{FullLog, Recorder};
use std::alloc::Global;
use std::marker::Model;
use thp_history::{Counters, Event, Refusal, Shape};
use thp_links::Queue;
use thp_page::PageTable;

/// A memory node, used by one thread, that records its events in an `R`.
///
/// Callers are numbered from 0 to 4,095. Contracts see the node's shape, its journal, its room, its table of pages and the blocks of
/// its queue. The room is the number of events that can be recorded without an allocation: a call whose events fit the room never
/// fails with `OutOfMemory`. A call that fails changes nothing.
#[derive(Drop)]
pub struct Node<R: Recorder = FullLog> {
    journal: Journal<R>,
    blocks: Blocks,
}

impl<R: Recorder> Model for Node<R> {
    ghost use Rattle.thp_node.specs.NodeState.{NodeState};
    ghost use Rattle.thp_live_pages.specs.Prelude.{IsNode};

    ghost Value = { NodeState };

    ghost view = { λ n. record { shape = n.journal.shape; journal = n.journal.events; room = n.journal.room; table = n.blocks.table; queue = n.blocks.queue } };

    ghost invariant = { λ n. IsNode n.journal.shape n.journal.events n.blocks.table n.blocks.queue };
}

impl<R: Recorder> Node<R> {
    /// Creates a node of 1 to 16,777,216 blocks with no page and an empty journal, for any recorder. Fails with `BadSize` if a node
    /// can't have this shape, and with `OutOfMemory` if memory for its pages can't be reserved. A page takes memory when its block
    /// is first used; no call allocates for it.
    pub fn with_recorder(alloc: Global, shape: Shape) -> Result<Node<R>, NewFault>
        ensures bad_size { (result ≡ Err NewFault.BadSize) ↔ ¬ IsNodeShape shape }
        ensures shape { IfOk result (λ n. n.shape ≡ shape) }
        ensures journal { IfOk result (λ n. n.journal ≡ []) }
    {
        if !shape.is_of_node() {
            return Err(NewFault::BadSize);
        }
        let Ok(blocks) = Blocks::new(alloc, shape) else {
            return Err(NewFault::OutOfMemory);
        };
        let Ok(journal) = Journal::new(alloc, shape) else {
            drop(blocks);
            return Err(NewFault::OutOfMemory);
        };
        Ok(Node { journal, blocks })
    }

    /// Reserves room for `k` events. For this purpose a scan needs three events for each page that it takes. Fails with
    /// `OutOfMemory`, and then changes nothing.
    pub fn reserve(&mut self, k: u32) -> Result<(), Refusal>
        ensures same { self.new ≡ record self.old { room = self.new.room } }
        ensures more { self.old.room ≤ self.new.room }
        ensures room { OnOk result (k ≤ self.new.room) }
        ensures only_memory { IfErr result (λ r. r ≡ Refusal.OutOfMemory) }
        ensures full { OnErr result (self.old.room < k) }
        ensures refused { OnErr result (self.new ≡ self.old) }
    {
        self.journal.reserve(k as usize)
    }

    /// Returns the node's shape.
    pub fn shape(&self) -> Shape
        ensures value { result ≡ self.now.shape }
        ensures valid { IsNodeShape self.now.shape }
    {
        self.journal.shape()
    }

    /// Does nothing at run time. Its contract states that the journal is a legal history, and the laws of every legal history at
    /// this one.
    pub fn laws(&self)
        ensures legal { IsLegal self.now.shape self.now.journal }
        // the laws of every legal history, at this one
        ensures once { StandsOnce self.now.shape self.now.journal }
        ensures whole { StandsWhole self.now.shape self.now.journal }
        ensures oldest { TakesOldest self.now.shape self.now.journal }
        ensures freed { LeavesFreedAlone self.now.journal }
        ensures new { AllocatesOnce self.now.journal }
        ensures closed { NothingEnters self.now.journal }
        ensures frames { HasFramesOnce self.now.shape self.now.journal }
        ensures sum { KeepsFrames self.now.shape self.now.journal }
        ensures holds { HoldsWhileLive self.now.shape self.now.journal }
        ensures apart { LivesApart self.now.journal }
        ensures others { OthersFree self.now.journal }
        ensures flights { FlightsGoOn self.now.journal }
        ensures queue { QueueGoesOn self.now.shape self.now.journal }
        ensures off { NoneIsUnderused self.now.shape self.now.journal }
    {
        let _shape = self.journal.shape();
    }

    /// Returns the number of events so far.
    pub fn event_count(&self) -> u64
        ensures { result ≡ length self.now.journal }
    {
        self.journal.count()
    }

    /// Returns the table of pages, whose links hold the queue. Its slots are the live pages: each in the block of its allocation,
    /// in the state and on the list that the journal gives it.
    pub fn table(&self) -> &PageTable
        ensures value { result.now ≡ self.now.table }
        ensures size { length self.now.table.slots ≡ self.now.shape.blocks }
        ensures order { self.now.table.order ≡ self.now.shape.order }
        ensures slots { (b : ℕ) → Fills self.now.shape self.now.journal b (slot_at self.now.table b) }
        ensures live { (p : ℕ) → is_live self.now.journal p ≡ true → HasBlock self.now.table p }
        ensures homes { LiesWherePlaced self.now.journal }
    {
        self.blocks.store().table()
    }

    /// Returns the deferred split queue: the blocks of the queued pages, oldest first.
    pub fn queue(&self) -> &Queue
        ensures value { result.now ≡ self.now.queue }
        ensures stands { Stands self.now.queue self.now.table.links }
        ensures pages { map (block_of self.now.journal) (queue self.now.shape self.now.journal) ≡ map (λ b. Some b) self.now.queue }
    {
        self.blocks.store().queue()
    }

    /// Returns the number of pages ever allocated, including those that were freed.
    pub fn allocations(&self) -> u64
        ensures { result ≡ allocations self.now.journal }
    {
        self.journal.next()
    }

    /// Returns the number of queued pages, which is the shrinker's count.
    pub fn queue_len(&self) -> u32
        ensures { result ≡ length (queue self.now.shape self.now.journal) }
    {
        self.blocks.store().queue().len()
    }

    /// Returns the number of frames given back.
    pub fn frames_given(&self) -> u128
        ensures { result ≡ frames_given self.now.journal }
    {
        self.journal.frames_given()
    }

    /// Returns the number of frames that the live pages hold.
    pub fn frames_held(&self) -> u128
        ensures { result ≡ frames_held self.now.shape self.now.journal }
    {
        self.journal.frames_held()
    }

    /// Returns the node's statistics.
    pub fn counters(&self) -> Counters
        ensures { result ≡ counters_of self.now.shape self.now.journal }
    {
        self.journal.counters()
    }
}

impl Node<FullLog> {
    /// Creates a node of 1 to 4,096 blocks with no page and an empty journal, which keeps its events: a node of a script.
    /// `with_recorder` creates larger ones. Fails with `BadSize` if the shape is not valid, and with `OutOfMemory` if memory for its
    /// pages can't be reserved.
    pub fn new(alloc: Global, shape: Shape) -> Result<Node, NewFault>
        ensures bad_size { (result ≡ Err NewFault.BadSize) ↔ ¬ IsShape shape }
        ensures shape { IfOk result (λ n. n.shape ≡ shape) }
        ensures journal { IfOk result (λ n. n.journal ≡ []) }
    {
        if !shape.is_valid() {
            return Err(NewFault::BadSize);
        }
        Node::with_recorder(alloc, shape)
    }

    /// Returns the events so far, oldest first: a legal history.
    pub fn journal(&self) -> &[Event]
        ensures value { result.now ≡ self.now.journal }
        ensures legal { IsLegal self.now.shape self.now.journal }
        // the laws of every legal history, at this one
        ensures once { StandsOnce self.now.shape self.now.journal }
        ensures whole { StandsWhole self.now.shape self.now.journal }
        ensures oldest { TakesOldest self.now.shape self.now.journal }
        ensures freed { LeavesFreedAlone self.now.journal }
        ensures new { AllocatesOnce self.now.journal }
        ensures closed { NothingEnters self.now.journal }
        ensures frames { HasFramesOnce self.now.shape self.now.journal }
        ensures sum { KeepsFrames self.now.shape self.now.journal }
        ensures holds { HoldsWhileLive self.now.shape self.now.journal }
        ensures apart { LivesApart self.now.journal }
        ensures others { OthersFree self.now.journal }
        ensures flights { FlightsGoOn self.now.journal }
        ensures queue { QueueGoesOn self.now.shape self.now.journal }
        ensures off { NoneIsUnderused self.now.shape self.now.journal }
    {
        self.laws();
        self.journal.events()
    }
}
