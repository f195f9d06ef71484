//! The engine that a node's handle owns: a node, and the open batches of its callers.
ghost use Rattle.std.specs.Prelude.{◌≡◌, ◌<◌, ◌≤◌, None, IsSome, IfOk, IfErr, OnOk, length, true, false, [], ◌∷◌, ◌⊎◌, ◌↔◌, Err};
ghost use Rattle.thp_history.specs.Prelude.{gain_call, gain_what, is_live, loss_call, loss_what, max_callers, own, queue, subpages, IsNodeShape};
ghost use Rattle.thp_history.specs.Refusals as call;
ghost use Rattle.thp_capi.specs.Prelude.{AbandonCall, AllocCall, BackFails, BackRecords, BackReplies, EngineState, IsEngine, LoseCall, NextCall, NoneOpen, OneCall, OthersOpen, ReserveCall, ScanCall, TakeCall, engine_open_of, shape_with, stats_of};
ghost use Rattle.thp_capi.specs.Reading.{WhyUncounted, page_state_of};
ghost use Rattle.thp_journal_writer.specs.Prelude.{journal_text as text_of};

mod queue_reader;

use crate::codes::Fault;
use crate::open_batches::none_open;
use crate::replies::{ThpDone, ThpPageState, ThpStats, ThpTried, narrow};
use std::alloc::Global;
use std::marker::Model;
use thp_history::{Gain, Loss, MAX_BATCH, MAX_CALLERS, PageId, Refusal, Shape, What};
use thp_journal_writer::{NodeHistory, journal_text};
use thp_node::{BackReply, Batch, FullLog, Node, Recorder, ScanReply};

// The number that means no threshold, the header's `THP_UNDERUSED_OFF`.
const UNDERUSED_OFF: u32 = u32::MAX;

/// Assembles the shape of a node.
pub fn shape(blocks: u32, order: u32, underused: u32) -> Shape
    ensures { result ≡ shape_with blocks order underused }
{
    Shape {
        blocks,
        order,
        underused: (underused != UNDERUSED_OFF).then_some(underused),
    }
}

// Fails if the number is not a caller's.
#[inline(always)]
fn check_caller(caller: u32) -> Result<(), Fault>
    ensures ok { OnOk result (caller < max_callers) }
    ensures err { IfErr result (λ fault. (fault ≡ Fault.BadCaller) × (max_callers ≤ caller)) }
{
    (caller < MAX_CALLERS).then_some(()).ok_or(Fault::BadCaller)
}

/// A node and the open batches of its callers. The remaining pages of each batch are a prefix of its caller's flight.
#[derive(Drop)]
pub struct Engine<R: Recorder> {
    node: Node<R>,
    // the open batches by caller
    batches: Vec<Option<Batch>>,
}

impl<R: Recorder> Model for Engine<R> {
    ghost Value = { EngineState };

    ghost view = { λ e. record { node = e.node; batches = e.batches.items } };

    ghost invariant = { λ e. IsEngine (record { node = e.node; batches = e.batches.items }) };
}

impl<R: Recorder> Engine<R> {
    /// Creates an engine of a node with no page.
    pub fn new(alloc: Global, shape: Shape) -> Result<Engine<R>, Fault>
        ensures bad_size { (result ≡ Err Fault.BadSize) ↔ ¬ IsNodeShape shape }
        ensures size { IfOk result (λ e. IsNodeShape shape) }
        ensures why { IfErr result (λ f. ((f ≡ Fault.BadSize) × ¬ IsNodeShape shape) ⊎ (f ≡ Fault.Refused Refusal.OutOfMemory)) }
        ensures shape { IfOk result (λ e. e.node.shape ≡ shape) }
        ensures journal { IfOk result (λ e. e.node.journal ≡ []) }
        ensures none_open { IfOk result NoneOpen }
    {
        let node = Node::with_recorder(alloc, shape)?;
        let Ok(batches) = none_open(alloc, MAX_CALLERS) else {
            drop(node);
            return Err(Fault::Refused(Refusal::OutOfMemory));
        };
        Ok(Engine { node, batches })
    }

    /// Replaces its node by another one.
    pub fn replace(&mut self, node: Node<R>)
        requires none_open { NoneOpen self.old }
        ensures node { self.new.node ≡ node }
        ensures none_open { NoneOpen self.new }
    {
        self.node = node;
    }

    /// Allocates a page, mapped whole once, and returns its number.
    pub fn alloc_page(&mut self, caller: u32) -> Result<u64, Fault>
        ensures { AllocCall caller self.old self.new result }
    {
        check_caller(caller)?;
        Ok(self.node.alloc_page(caller)?.0)
    }

    /// Adds mappings or a pin, or fills subpages of the page.
    #[inline(always)]
    pub fn gain(&mut self, caller: u32, page: PageId, gain: Gain) -> Result<(), Fault>
        ensures { OneCall caller (gain_call gain page) (gain_what gain page) self.old self.new result }
    {
        check_caller(caller)?;
        Ok(self.node.gain(caller, page, gain)?)
    }

    /// Closes the node: no page is queued or allocated afterwards.
    pub fn close(&mut self, caller: u32) -> Result<(), Fault>
        ensures { OneCall caller call.close What.Close self.old self.new result }
    {
        check_caller(caller)?;
        Ok(self.node.close(caller)?)
    }

    /// Removes mappings or a pin of the page, which can queue or free it.
    #[inline(always)]
    pub fn lose(&mut self, caller: u32, page: PageId, loss: Loss) -> Result<ThpDone, Fault>
        ensures { LoseCall caller (loss_call loss page) page (loss_what loss page) self.old self.new result }
    {
        check_caller(caller)?;
        Ok(ThpDone::of(&self.node.lose(caller, page, loss)?))
    }

    /// Takes up to `n` of the oldest queued pages, in order, tries each, and returns the pinned ones.
    pub fn scan(&mut self, caller: u32, n: u32) -> Result<ScanReply, Fault>
        ensures { ScanCall caller n self.old self.new result }
    {
        check_caller(caller)?;
        if n as usize > MAX_BATCH {
            return Err(Fault::BadCount);
        }
        Ok(self.node.scan(caller, n)?)
    }

    /// Takes up to `n` of the oldest queued pages, in order, into the caller's batch, which is open afterwards. Returns the
    /// number of pages taken.
    pub fn take(&mut self, caller: u32, n: u32) -> Result<u32, Fault>
        ensures { TakeCall caller n self.old self.new result }
    {
        check_caller(caller)?;
        if n as usize > MAX_BATCH {
            return Err(Fault::BadCount);
        }
        let place = caller as usize;
        if self.batches[place].is_some() {
            return Err(Fault::BatchOpen);
        }
        let batch = self.node.take(caller, n)?;
        let count = batch.pages().len() as u32;
        self.batches[place] = Some(batch);
        Ok(count)
    }

    // The index of the caller's batch, if the number is a caller's.
    fn place(&self, caller: u32) -> Result<usize, Fault>
        ensures at { IfOk result (λ place. place ≡ caller) }
        ensures inside { IfOk result (λ place. place < length self.now.batches) }
        ensures none { IfErr result (λ fault. (fault ≡ Fault.NoBatch) × (engine_open_of self.now caller ≡ None)) }
    {
        let place = caller as usize;
        (place < self.batches.len())
            .then_some(place)
            .ok_or(Fault::NoBatch)
    }

    /// Tries the next page of the caller's open batch.
    pub fn split_next(&mut self, caller: u32) -> Result<ThpTried, Fault>
        ensures { NextCall caller self.old self.new result }
    {
        let place = self.place(caller)?;
        let Some(batch) = &mut self.batches[place] else {
            return Err(Fault::NoBatch);
        };
        Ok(ThpTried::of(&self.node.split_next(batch)?))
    }

    /// Returns the remaining pages of the caller's open batch, and closes the batch.
    pub fn put_back(&mut self, caller: u32) -> Result<BackReply, Fault>
        ensures open { OnOk result (IsSome (engine_open_of self.old caller)) }
        ensures shut { OnOk result (engine_open_of self.new caller ≡ None) }
        ensures others { OthersOpen caller self.old self.new }
        ensures reply { IfOk result (BackReplies caller self.old) }
        ensures recorded { OnOk result (BackRecords caller self.old self.new) }
        ensures failed { IfErr result (BackFails caller self.old self.new) }
    {
        let place = self.place(caller)?;
        let Some(batch) = &self.batches[place] else {
            return Err(Fault::NoBatch);
        };
        let reply = self.node.put_back_all(batch)?;
        self.batches[place] = None;
        Ok(reply)
    }

    /// Discards the caller's open batch: its pages stay in the caller's flight, out of the queue.
    pub fn abandon(&mut self, caller: u32) -> Result<(), Fault>
        ensures { AbandonCall caller self.old self.new result }
    {
        let place = self.place(caller)?;
        let batch = self.batches[place].take().ok_or(Fault::NoBatch)?;
        batch.abandon();
        Ok(())
    }

    /// Reserves room in the journal for `events` events.
    pub fn reserve(&mut self, events: u32) -> Result<(), Fault>
        ensures { ReserveCall events self.old self.new result }
    {
        Ok(self.node.reserve(events)?)
    }

    /// Returns the number of queued pages.
    pub fn queue_length(&self) -> u32
        ensures { result ≡ length (queue self.now.node.shape self.now.node.journal) }
    {
        self.node.queue_len()
    }

    /// Returns the node's statistics.
    pub fn stats(&self) -> ThpStats
        ensures { result ≡ stats_of self.now.node }
    {
        let counters = self.node.counters();
        ThpStats {
            events: self.node.event_count(),
            allocations: self.node.allocations(),
            queued: u64::from(self.node.queue_len()),
            frames_given: narrow(self.node.frames_given()),
            frames_held: narrow(self.node.frames_held()),
            split_page: counters.split_page,
            split_page_failed: counters.split_page_failed,
            deferred_split_page: counters.deferred_split_page,
            underused_split_page: counters.underused_split_page,
            split_pmd: narrow(counters.split_pmd),
        }
    }

    /// Returns the state of a live page.
    pub fn page(&self, page: PageId) -> Result<ThpPageState, Fault>
        ensures live { OnOk result (is_live self.now.node.journal page ≡ true) }
        ensures state { IfOk result (λ t. t ≡ page_state_of self.now.node page) }
        ensures fault { IfErr result (λ f. f ≡ Fault.Refused Refusal.NoPage) }
        ensures gone { IfErr result (λ f. is_live self.now.node.journal page ≡ false) }
    {
        let table = self.node.table();
        let Some(block) = table.block_of(page) else {
            return Err(Fault::Refused(Refusal::NoPage));
        };
        let standing = table.standing(block);
        match table.page(block) {
            Some((_, state)) => Ok(ThpPageState::of(state, standing)),
            None => unreachable!(),
        }
    }

    /// Returns the own map count of a subpage of a live page: the number of PTE entries that map it.
    pub fn mapcount(&self, page: PageId, subpage: u32) -> Result<u32, Fault>
        ensures live { OnOk result (is_live self.now.node.journal page ≡ true) }
        ensures inside { OnOk result (subpage < subpages self.now.node.shape) }
        ensures own { IfOk result (λ n. n ≡ own self.now.node.journal page subpage) }
        ensures failed { IfErr result (WhyUncounted page subpage self.now.node) }
    {
        let table = self.node.table();
        let Some(block) = table.block_of(page) else {
            return Err(Fault::Refused(Refusal::NoPage));
        };
        if subpage >= self.node.shape().subpages() {
            return Err(Fault::Refused(Refusal::BadRange));
        }
        match table.page(block) {
            Some((_, state)) => Ok(state.own(subpage)),
            None => unreachable!(),
        }
    }
}

impl Engine<FullLog> {
    /// Returns the node's journal as text.
    pub fn text(&self, alloc: Global) -> Result<Vec<u8>, Fault>
        ensures text { IfOk result (λ text. text.items ≡ text_of ((self.now.node.shape, self.now.node.journal) ∷ [])) }
        ensures fault { IfErr result (λ fault. fault ≡ Fault.Refused Refusal.OutOfMemory) }
    {
        let node = NodeHistory {
            shape: self.node.shape(),
            events: self.node.journal(),
        };
        Ok(journal_text(alloc, &[node])?)
    }
}
