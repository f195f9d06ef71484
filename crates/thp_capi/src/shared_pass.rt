//! A pass with a share of its cell.
ghost use Rattle.std.specs.Prelude.{◌≡◌, ◌+◌, ◌<◌, ◌≤◌, true, false, IfOk, IfErr, ◌⊎◌, length, vec_capacity};
ghost use Rattle.thp_history.specs.Prelude.{gain_call, gain_what, loss_call, loss_what};
ghost use Rattle.thp_history.specs.Refusals as call;
ghost use Rattle.thp_cell.specs.Prelude.{below, from, IsJoined, HasAll, HasCaller};
ghost use Rattle.thp_capi.specs.Prelude.{Adjoin, Divides, HasOpen, IsCellSize, IsNewPass, IsShared, IsSharedPart, NoneIsOpen, OnlyFront, PassAbandon, PassAlloc, PassBack, PassCount, PassLost, PassNext, PassOne, PassScan, PassTake, SharedOpenStay, SharedState};
ghost use Rattle.std.specs.Arc.{arc_value};

use crate::codes::Fault;
use crate::open_batches::{cut, joined, none_open, some_open};
use crate::replies::{ThpDone, ThpTried};
use std::alloc::Global;
use std::marker::Model;
use std::sync::Arc;
use thp_cell::{NodeCell, Pass};
use thp_history::{Gain, Loss, MAX_BATCH, PageId, Refusal, Shape, What};
use thp_node::{BackReply, Batch, Node, Recorder, ScanReply};

/// A pass, its share of the cell, and the mark that distinguishes it from passes of other cells.
#[derive(Drop)]
pub struct SharedPass<R: Recorder> {
    cell: Arc<NodeCell<R>, Global>,
    pass: Pass<R>,
    // the open batches by caller, from the pass's first on, in memory with room for those of all following callers
    batches: Vec<Option<Batch>>,
    // the number of the cell's callers
    callers: u32,
    mark: u64,
}

impl<R: Recorder> Model for SharedPass<R> {
    ghost Value = { SharedState };

    ghost view = { λ s. record { mark = s.mark; pass = s.pass; batches = s.batches.items } };

    ghost invariant = { λ s. IsShared (arc_value s.cell) s.callers (vec_capacity s.batches) s.pass s.batches.items };
}

impl<R: Recorder> SharedPass<R> {
    /// Creates a cell of a new node, and returns the pass of all its callers.
    pub fn new(alloc: Global, shape: Shape, callers: u32, mark: u64) -> Result<SharedPass<R>, Fault>
        ensures made { IfOk result (λ s. IsNewPass shape callers s.pass) }
        ensures mark { IfOk result (λ s. s.mark ≡ mark) }
        ensures shut { IfOk result NoneIsOpen }
        ensures size { IfOk result (λ s. IsCellSize shape callers) }
        ensures why { IfErr result (λ f. ((f ≡ Fault.BadSize) × (IsCellSize shape callers → ⊥)) ⊎ (f ≡ Fault.Refused Refusal.OutOfMemory)) }
    {
        let node = Node::with_recorder(alloc, shape)?;
        let (cell, pass) = NodeCell::with_callers(alloc, node, callers)?;
        let batches = none_open(alloc, callers)?;
        let cell = Arc::new(alloc, cell)?;
        Ok(SharedPass {
            cell,
            pass,
            batches,
            callers,
            mark,
        })
    }

    // The caller's index, if it is one of the pass's.
    fn place(&self, caller: u32) -> Result<usize, Fault>
        ensures own { IfOk result (λ place. HasCaller self.now.pass caller) }
        ensures at { IfOk result (λ place. place + self.now.pass.first ≡ caller) }
        ensures inside { IfOk result (λ place. place < length self.now.batches) }
        ensures none { IfErr result (λ fault. (fault ≡ Fault.BadCaller) × (HasCaller self.now.pass caller → ⊥)) }
    {
        let (first, end) = self.pass.callers();
        if caller < first || end <= caller {
            return Err(Fault::BadCaller);
        }
        Ok((caller - first) as usize)
    }

    /// Allocates a page, mapped whole once, and returns its number.
    pub fn alloc_page(&mut self, caller: u32) -> Result<u64, Fault>
        ensures { PassAlloc caller self.old self.new result }
    {
        self.place(caller)?;
        Ok(self.cell.alloc_page(&mut self.pass, caller)?.0)
    }

    /// Adds mappings or a pin, or fills subpages of the page.
    #[inline(always)]
    pub fn gain(&mut self, caller: u32, page: PageId, gain: Gain) -> Result<(), Fault>
        ensures { PassOne caller (gain_call gain page) (gain_what gain page) self.old self.new result }
    {
        self.place(caller)?;
        Ok(self.cell.gain(&mut self.pass, caller, page, gain)?)
    }

    /// Removes mappings or a pin of the page, which can queue or free it.
    #[inline(always)]
    pub fn lose(&mut self, caller: u32, page: PageId, loss: Loss) -> Result<ThpDone, Fault>
        ensures { PassLost caller (loss_call loss page) page (loss_what loss page) self.old self.new result }
    {
        self.place(caller)?;
        let done = self.cell.lose(&mut self.pass, caller, page, loss)?;
        Ok(ThpDone::of(&done))
    }

    /// Closes the node: no page is queued or allocated afterwards.
    pub fn close(&mut self, caller: u32) -> Result<(), Fault>
        ensures { PassOne caller call.close What.Close self.old self.new result }
    {
        self.place(caller)?;
        Ok(self.cell.close(&mut self.pass, caller)?)
    }

    /// Takes up to `n` of the oldest queued pages, in order, tries each, and returns the pinned ones.
    pub fn scan(&mut self, caller: u32, n: u32) -> Result<ScanReply, Fault>
        ensures { PassScan caller n self.old self.new result }
    {
        self.place(caller)?;
        if n as usize > MAX_BATCH {
            return Err(Fault::BadCount);
        }
        Ok(self.cell.scan(&mut self.pass, caller, n)?)
    }

    /// Takes up to `n` of the oldest queued pages, in order, into the caller's batch, which is open afterwards. Returns the
    /// number of pages taken.
    pub fn take(&mut self, caller: u32, n: u32) -> Result<u32, Fault>
        ensures { PassTake caller n self.old self.new result }
    {
        let place = self.place(caller)?;
        if n as usize > MAX_BATCH {
            return Err(Fault::BadCount);
        }
        if self.batches[place].is_some() {
            return Err(Fault::BatchOpen);
        }
        let batch = self.cell.take(&mut self.pass, caller, n)?;
        let count = batch.pages().len() as u32;
        self.batches[place] = Some(batch);
        Ok(count)
    }

    /// Tries the next page of the caller's open batch.
    pub fn split_next(&mut self, caller: u32) -> Result<ThpTried, Fault>
        ensures { PassNext caller self.old self.new result }
    {
        let place = self.place(caller)?;
        let Some(batch) = &mut self.batches[place] else {
            return Err(Fault::NoBatch);
        };
        let tried = self.cell.split_next(&mut self.pass, batch)?;
        Ok(ThpTried::of(&tried))
    }

    /// Returns the remaining pages of the caller's open batch, and closes the batch.
    pub fn put_back(&mut self, caller: u32) -> Result<BackReply, Fault>
        ensures { PassBack caller self.old self.new result }
    {
        let place = self.place(caller)?;
        let Some(batch) = &self.batches[place] else {
            return Err(Fault::NoBatch);
        };
        let reply = self.cell.put_back_all(&mut self.pass, batch)?;
        self.batches[place] = None;
        Ok(reply)
    }

    /// Discards the caller's open batch: its pages stay in the caller's flight, out of the queue.
    pub fn abandon(&mut self, caller: u32) -> Result<(), Fault>
        ensures { PassAbandon caller self.old self.new result }
    {
        let place = self.place(caller)?;
        let batch = self.batches[place].take().ok_or(Fault::NoBatch)?;
        batch.abandon();
        Ok(())
    }
    /// Returns the number of queued pages, even while another pass has the node.
    pub fn count(&mut self) -> u32
        ensures { PassCount result self.old self.new }
    {
        self.cell.count(&mut self.pass)
    }

    /// Returns the callers of the pass: the first of them, and the end before which the last is.
    pub fn callers(&self) -> (u32, u32)
        ensures first { result.0 ≡ self.now.pass.first }
        ensures end { result.1 ≡ self.now.pass.end }
    {
        self.pass.callers()
    }

    /// Divides the callers of the pass at this one. Open batches stay with their callers.
    pub fn split(
        self,
        alloc: Global,
        at: u32,
    ) -> Result<(SharedPass<R>, SharedPass<R>), (SharedPass<R>, Fault)>
        ensures divides { IfOk result (λ r. Divides at self.pass) }
        ensures left { IfOk result (λ r. IsSharedPart (below self.pass at) self r.0) }
        ensures right { IfOk result (λ r. IsSharedPart (from self.pass at) self r.1) }
        ensures same { IfErr result (λ e. e.0 ≡ self) }
        ensures why { IfErr result (λ e. ((e.1 ≡ Fault.BadCaller) × (Divides at self.pass → ⊥)) ⊎ (e.1 ≡ Fault.Refused Refusal.OutOfMemory)) }
    {
        let mut all = self;
        let (first, end) = all.pass.callers();
        if at <= first || end <= at {
            return Err((all, Fault::BadCaller));
        }
        let Ok(other) = Arc::try_clone(&all.cell) else {
            return Err((all, Fault::Refused(Refusal::OutOfMemory)));
        };
        let places = (at - first) as usize;
        let room = (all.callers - at) as usize;
        let Ok(rest) = cut(alloc, &mut all.batches, places, room) else {
            return Err((all, Fault::Refused(Refusal::OutOfMemory)));
        };
        let pass = all.pass;
        let (left, right) = all.cell.split(pass, at);
        let upper = SharedPass {
            cell: other,
            pass: right,
            batches: rest,
            callers: all.callers,
            mark: all.mark,
        };
        Ok((SharedPass { pass: left, ..all }, upper))
    }

    /// Returns whether the other pass can be joined to this one.
    pub fn adjoins(&self, other: &SharedPass<R>) -> bool
        ensures yes { result ≡ true → Adjoin self.now other.now }
        ensures no { result ≡ false → Adjoin self.now other.now → ⊥ }
    {
        let (_, end) = self.pass.callers();
        let (first, _) = other.pass.callers();
        self.mark == other.mark && end == first
    }

    /// Joins two adjacent passes, with the open batches of their callers.
    pub fn join(self, other: SharedPass<R>) -> SharedPass<R>
        requires cell { self.pass.cell ≡ other.pass.cell }
        requires adjacent { self.pass.end ≡ other.pass.first }
        ensures joined { IsJoined self.pass other.pass result.pass }
        ensures mark { result.mark ≡ self.mark }
        ensures left { SharedOpenStay self result }
        ensures right { SharedOpenStay other result }
    {
        let left = self.pass;
        let pass = self.cell.join(left, other.pass);
        let batches = joined(self.batches, other.batches);
        SharedPass {
            pass,
            batches,
            ..self
        }
    }

    /// Dismantles the cell and returns its node, if the pass has all callers, none of them has an open batch, and no other handle
    /// has a share of the cell. Otherwise returns the pass and the reason.
    pub fn finish(self) -> Result<Node<R>, (SharedPass<R>, Fault)>
        ensures all { IfOk result (λ node. HasAll self.pass) }
        ensures shut { IfOk result (λ node. NoneIsOpen self) }
        ensures shape { IfOk result (λ node. node.shape ≡ self.pass.shape) }
        ensures journal { IfOk result (λ node. node.journal ≡ self.pass.front) }
        ensures same { IfErr result (λ e. e.0 ≡ self) }
        ensures why { IfErr result (λ e. ((e.1 ≡ Fault.BatchOpen) × HasOpen self) ⊎ (e.1 ≡ Fault.BadPass)) }
    {
        let (first, end) = self.pass.callers();
        if first != 0 || end != self.callers {
            return Err((self, Fault::BadPass));
        }
        if some_open(&self.batches) {
            return Err((self, Fault::BatchOpen));
        }
        match Arc::try_unwrap(self.cell) {
            Ok(cell) => Ok(cell.finish(self.pass)),
            Err(cell) => Err((SharedPass { cell, ..self }, Fault::BadPass)),
        }
    }
}
