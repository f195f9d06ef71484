//! The calls by which pages leave a batch together: a put back, and the scan, which is a take, tries and a put back.
ghost use Rattle.std.specs.Prelude.{◌≡◌, not, ◌&&◌, ℕ, ◌*◌, ◌<◌, ◌≤◌, [], ◌∷◌, length, map, take, count_by, slice_get, None, Some, IfOk, IfErr, OnOk};
ghost use Rattle.thp_history.specs.Prelude.{max_batch, max_node_callers, IsLegal, flight, refusal, take_events, put_back_events, scan_events, still_flying, try_event, return_event, goes_back};
ghost use Rattle.thp_history.specs.Refusals as call;
ghost use Rattle.thp_node.specs.Batches.{back_reply, scan_reply, IsInFront, FrontsStay};
ghost use Rattle.thp_node.specs.Calls.{Did, Refused};
ghost use Rattle.thp_live_pages.specs.Prelude.{block_of, IsFlyingAt};
ghost use Rattle.thp_node.specs.Scanning.{used_count, events_after, is_tried_used};
ghost use Rattle.thp_node.specs.Returning.{BeginsIn, return_first, OneBack};

use crate::answers::{BackReply, ScanReply, Tried};
use crate::batch::Batch;
use crate::node::Node;
use crate::recorder::Recorder;
use arrayvec::ArrayVec;
use thp_history::{MAX_BATCH, PageId, Refusal, SplitContext, What};

impl<R: Recorder> Node<R> {
    /// Returns the pages of a batch that are still in the flight of the batch's caller to the node, in the batch's order.
    ///
    /// Partly mapped pages go to the tail of the queue; other pages are dropped, and on a closed node all are. Fails with
    /// `OutOfMemory`, and then returns the batch to the caller. The call skips pages of the batch that were freed or split since
    /// the take. The remaining pages must be a prefix of the caller's flight. `take` establishes this and every call preserves
    /// it.
    pub fn put_back(&mut self, batch: Batch) -> Result<BackReply, (Batch, Refusal)>
        requires front { IsInFront self.old.journal batch }
        ensures reply { IfOk result (λ r. r ≡ back_reply self.old.shape self.old.journal (still_flying self.old.journal batch.caller batch.pages)) }
        ensures recorded { OnOk result (Did self.old self.new batch.caller (put_back_events self.old.shape self.old.journal batch.caller batch.pages)) }
        ensures refused { IfErr result (λ e. Refused self.old self.new None (length (put_back_events self.old.shape self.old.journal batch.caller batch.pages)) e.1) }
        ensures handed_back { IfErr result (λ e. e.0 ≡ batch) }
        ensures fronts { FrontsStay self.old.journal self.new.journal }
    {
        self.put_back_all(&batch)
            .map_err(|refusal| (batch, refusal))
    }

    /// Puts back as `put_back` does, without consuming the batch. Afterwards none of the batch's pages is in the flight.
    pub fn put_back_all(&mut self, batch: &Batch) -> Result<BackReply, Refusal>
        requires front { IsInFront self.old.journal batch.now }
        ensures reply { IfOk result (λ r. r ≡ back_reply self.old.shape self.old.journal (still_flying self.old.journal batch.now.caller batch.now.pages)) }
        ensures recorded { OnOk result (Did self.old self.new batch.now.caller (put_back_events self.old.shape self.old.journal batch.now.caller batch.now.pages)) }
        ensures refused { IfErr result (Refused self.old self.new None (length (put_back_events self.old.shape self.old.journal batch.now.caller batch.now.pages))) }
        ensures fronts { FrontsStay self.old.journal self.new.journal }
    {
        let blocks = self.flying_blocks(batch.caller(), batch.pages());
        self.journal.reserve(blocks.len())?;
        let count = blocks.len() as u32;
        let back = self.return_all(batch.caller(), &blocks);
        Ok(BackReply {
            back,
            dropped: count - back,
        })
    }

    // The blocks of those pages of a batch that are in a caller's flight, in the batch's order.
    fn flying_blocks(&self, caller: u32, pages: &[PageId]) -> ArrayVec<u32, MAX_BATCH>
        requires { length pages.now ≤ max_batch }
        ensures blocks { map (block_of self.now.journal) (still_flying self.now.journal caller pages.now) ≡ map (λ b. Some b) result.items }
        ensures count { length result.items ≡ length (still_flying self.now.journal caller pages.now) }
        ensures few { length result.items ≤ max_batch }
    {
        let mut blocks = ArrayVec::new();
        for &page in pages {
            if let Some(block) = self.flying_block(caller, page) {
                blocks.push(block);
            }
        }
        blocks
    }

    // Returns the first pages of a caller's flight, which are in these blocks and for which there is room. The result is the
    // number of pages that went back to the queue.
    fn return_all(&mut self, caller: u32, blocks: &[u32]) -> u32
        requires caller { caller < max_node_callers }
        requires legal { IsLegal self.old.shape self.old.journal }
        requires front { BeginsIn self.old.journal caller blocks.now }
        requires room { length blocks.now ≤ self.old.room }
        requires few { length blocks.now ≤ max_batch }
        ensures back { result ≡ count_by (goes_back self.old.shape self.old.journal) (take (length blocks.now) (flight self.old.journal caller)) }
        ensures did { Did self.old self.new caller (return_first self.old.shape self.old.journal caller (length blocks.now)) }
    {
        let mut back = 0;
        for &block in blocks {
            back += u32::from(self.return_first(caller, block));
        }
        back
    }

    // Returns the first page of a caller's flight, which is in this block. The result is whether it went back to the queue.
    fn return_first(&mut self, caller: u32, block: u32) -> bool
        requires caller { caller < max_node_callers }
        requires room { 0 < self.old.room }
        requires front { BeginsIn self.old.journal caller (block ∷ []) }
        ensures back { OneBack self.old.shape self.old.journal caller result }
        ensures did { Did self.old self.new caller (return_first self.old.shape self.old.journal caller 1) }
    {
        let page = self.blocks.store().number(block);
        self.return_page(caller, block, page)
    }

    // Returns the page of a block, which is the first of the caller's flight. The result is whether it went back to the queue.
    fn return_page(&mut self, caller: u32, block: u32, page: PageId) -> bool
        requires caller { caller < max_node_callers }
        requires room { 0 < self.old.room }
        requires flies { IsFlyingAt self.old.table caller page block }
        requires first { slice_get (flight self.old.journal caller) 0 ≡ Some page }
        ensures back { result ≡ goes_back self.old.shape self.old.journal page }
        ensures did { Did self.old self.new caller (return_event self.old.shape self.old.journal caller page ∷ []) }
    {
        let closed = self.journal.is_closed();
        let partly = self.blocks.store().is_partly(block);
        let is_back = joins_queue(closed, partly);
        if is_back {
            self.blocks.enqueue(block);
            self.journal
                .record(caller, What::Back { page }, SplitContext::none());
        } else {
            self.blocks.drop_out(block);
            self.journal
                .record(caller, What::Dropped { page }, SplitContext::none());
        }
        is_back
    }

    /// Takes up to `n` of the oldest queued pages (at most 128), in order, tries each of them, and returns the pinned ones as
    /// `put_back` does. Fails with `HasBatch` if the caller has pages in flight.
    ///
    /// Reserves room for three events for each page first. Fails with `OutOfMemory` if that is not possible, and then changes
    /// nothing.
    pub fn scan(&mut self, caller: u32, n: u32) -> Result<ScanReply, Refusal>
        requires caller { caller < max_node_callers }
        requires count { n ≤ max_batch }
        ensures allowed { OnOk result (refusal self.old.shape self.old.journal (call.scan caller) ≡ None) }
        ensures recorded { OnOk result (Did self.old self.new caller (scan_events self.old.shape self.old.journal caller n)) }
        ensures reply { IfOk result (λ r. r ≡ scan_reply (scan_events self.old.shape self.old.journal caller n)) }
        ensures refused { IfErr result (Refused self.old self.new (refusal self.old.shape self.old.journal (call.scan caller)) (3 * length (take_events self.old.shape self.old.journal caller n))) }
        ensures fronts { FrontsStay self.old.journal self.new.journal }
    {
        let count = self.admit_take(caller, n, 3)?;
        let mut batch = Batch::none();
        self.take_oldest(caller, count, &mut batch);
        Ok(self.scan_batch(batch))
    }

    // Tries each page of a batch that was just taken, and returns those that are pinned, for which there is room.
    fn scan_batch(&mut self, batch: Batch) -> ScanReply
        requires legal { IsLegal self.old.shape self.old.journal }
        requires flies { flight self.old.journal batch.caller ≡ batch.pages }
        requires untried { batch.place ≡ 0 }
        requires room { 2 * length batch.pages ≤ self.old.room }
        ensures reply { result ≡ record (scan_reply (events_after self.old.shape self.old.journal batch.caller batch.pages)) { taken = length batch.pages } }
        ensures did { Did self.old self.new batch.caller (events_after self.old.shape self.old.journal batch.caller batch.pages) }
    {
        let mut batch = batch;
        let taken = batch.pages().len() as u32;
        let used = self.try_all(&mut batch);
        let Ok(BackReply { back, dropped }) = self.put_back_all(&batch) else {
            unreachable!()
        };
        // the remaining pages are the pinned ones
        let pinned = back + dropped;
        ScanReply {
            taken,
            split: taken - used - pinned,
            pinned,
            back,
            dropped,
            used,
        }
    }

    // Tries each page of a batch that was just taken, for which there is room. Returns the number of pages found in use.
    fn try_all(&mut self, batch: &mut Batch) -> u32
        requires legal { IsLegal self.old.shape self.old.journal }
        requires flies { flight self.old.journal batch.old.caller ≡ batch.old.pages }
        requires untried { batch.old.place ≡ 0 }
        requires room { length batch.old.pages ≤ self.old.room }
        ensures used { result ≡ count_by (is_tried_used self.old.shape self.old.journal) batch.old.pages }
        ensures did { Did self.old self.new batch.old.caller (map (try_event self.old.shape self.old.journal batch.old.caller) batch.old.pages) }
        ensures same_caller { batch.new.caller ≡ batch.old.caller }
        ensures same_pages { batch.new.pages ≡ batch.old.pages }
    {
        let mut used = 0;
        for _tried in 0..batch.pages().len() {
            match self.split_next(batch) {
                Ok(tried) => used += found_used(tried),
                Err(_) => unreachable!(),
            }
        }
        used
    }
}

// Whether a page joins the queue again when it leaves its batch: it is partly mapped, and the node is not closed.
fn joins_queue(closed: bool, partly: bool) -> bool
    ensures { result ≡ (not closed && partly) }
{
    !closed && partly
}

// 1 for a try that found its page in use, otherwise 0.
fn found_used(tried: Tried) -> u32
    ensures { result ≡ used_count tried }
{
    u32::from(matches!(tried, Tried::Used(_)))
}
