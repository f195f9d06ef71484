//! The shrinker's calls: a take, tries, a put back, and the scan that combines them.
ghost use Rattle.std.specs.Prelude.{◌≡◌, ℕ, ◌+◌, ◌*◌, ◌<◌, ◌≤◌, Bool, true, false, ◌||◌, [], ◌∷◌, length, drop, take, slice_get, min, Option, None, Some, IsSome, IfOk, IfErr, IfSome, IfNone, OnOk, OnErr};
ghost use Rattle.thp_history.specs.Prelude.{max_batch, max_node_callers, by, is_closed, IsLegal, queue, flight, no_pages, is_taking, has_page, refusal, take_events, split_next_events, put_back_events, scan_events, next_page, rest_after, still_flying, try_event, return_event, is_split_candidate, is_worth_split};
ghost use Rattle.thp_history.specs.Refusals as call;
ghost use Rattle.thp_node.specs.Batches.{rest, tried, IsInFront, FrontsStay, OtherFrontsStay, OlderAreInFront};
ghost use Rattle.thp_node.specs.Calls.{Did, Refused};
ghost use Rattle.thp_live_pages.specs.Prelude.{block_of, IsFlyingAt, IsUnpinnedAt, AtSlot};
ghost use Rattle.thp_page.specs.Prelude.{slot_at};

use crate::answers::{BackReply, ScanReply, Tried};
use crate::batch::Batch;
use crate::node::Node;
use crate::recorder::Recorder;
use thp_history::{PageId, Refusal, SplitContext, What};

impl<R: Recorder> Node<R> {
    /// Takes up to `n` of the oldest queued pages (at most 128), in order, into a batch of the caller. Fails with `HasBatch` if
    /// the caller has pages in flight, and with `OutOfMemory`.
    pub fn take(&mut self, caller: u32, n: u32) -> Result<Batch, Refusal>
        requires caller { caller < max_node_callers }
        requires count { n ≤ max_batch }
        ensures allowed { OnOk result (refusal self.old.shape self.old.journal (call.take caller) ≡ None) }
        ensures batch { IfOk result (λ b. b ≡ record { caller = caller; pages = take n (queue self.old.shape self.old.journal); place = 0 }) }
        ensures recorded { OnOk result (Did self.old self.new caller (take_events self.old.shape self.old.journal caller n)) }
        ensures refused { IfErr result (Refused self.old self.new (refusal self.old.shape self.old.journal (call.take caller)) (length (take_events self.old.shape self.old.journal caller n))) }
        ensures front { IfOk result (IsInFront self.new.journal) }
        ensures fronts { OtherFrontsStay caller self.old.journal self.new.journal }
        // a batch that the caller took before, provided that this take took none of its pages again
        ensures older { IfOk result (λ b. OlderAreInFront caller b.pages self.new.journal) }
    {
        let mut batch = Batch::none();
        self.take_into(caller, n, &mut batch)?;
        Ok(batch)
    }

    /// Takes as `take` does, into a batch that the caller provides. On success the batch's former content is discarded; on error
    /// it is unchanged.
    pub fn take_into(&mut self, caller: u32, n: u32, batch: &mut Batch) -> Result<(), Refusal>
        requires caller { caller < max_node_callers }
        requires count { n ≤ max_batch }
        ensures allowed { OnOk result (refusal self.old.shape self.old.journal (call.take caller) ≡ None) }
        ensures batch { OnOk result (batch.new ≡ record { caller = caller; pages = take n (queue self.old.shape self.old.journal); place = 0 }) }
        ensures recorded { OnOk result (Did self.old self.new caller (take_events self.old.shape self.old.journal caller n)) }
        ensures refused { IfErr result (Refused self.old self.new (refusal self.old.shape self.old.journal (call.take caller)) (length (take_events self.old.shape self.old.journal caller n))) }
        ensures kept { OnErr result (batch.new ≡ batch.old) }
        ensures front { OnOk result (IsInFront self.new.journal batch.new) }
        ensures fronts { OtherFrontsStay caller self.old.journal self.new.journal }
        ensures older { OnOk result (OlderAreInFront caller batch.new.pages self.new.journal) }
    {
        let count = self.admit_take(caller, n, 1)?;
        self.take_oldest(caller, count, batch);
        Ok(())
    }

    // The number of pages that a take of up to `n` gets, with room in the journal for `each` events of each of them; or why it is
    // refused.
    pub(super) fn admit_take(&mut self, caller: u32, n: u32, each: u32) -> Result<u32, Refusal>
        requires caller { caller < max_node_callers }
        requires count { n ≤ max_batch }
        requires each { each ≤ 3 }
        ensures count { IfOk result (λ k. k ≡ min n (length (queue self.old.shape self.old.journal))) }
        ensures room { IfOk result (λ k. each * k ≤ self.new.room) }
        ensures free { OnOk result (no_pages (flight self.old.journal caller) ≡ true) }
        ensures allowed { OnOk result (refusal self.old.shape self.old.journal (call.take caller) ≡ None) }
        ensures legal { IsLegal self.old.shape self.old.journal }
        ensures more { self.old.room ≤ self.new.room }
        ensures same { self.new ≡ record self.old { room = self.new.room } }
        ensures refused { IfErr result (Refused self.old self.new (refusal self.old.shape self.old.journal (call.take caller)) (each * length (take_events self.old.shape self.old.journal caller n))) }
    {
        if self.journal.flying(caller) != 0 {
            return Err(Refusal::HasBatch);
        }
        let count = n.min(self.blocks.store().queue().len());
        self.journal.reserve((each * count) as usize)?;
        Ok(count)
    }

    // Takes the `count` oldest pages, for which there is room.
    pub(super) fn take_oldest(&mut self, caller: u32, count: u32, batch: &mut Batch)
        requires caller { caller < max_node_callers }
        requires few { count ≤ max_batch }
        requires queued { count ≤ length (queue self.old.shape self.old.journal) }
        requires room { count ≤ self.old.room }
        requires may_take { no_pages (flight self.old.journal caller) ≡ true }
        requires legal { IsLegal self.old.shape self.old.journal }
        ensures batch { batch.new ≡ record { caller = caller; pages = take count (queue self.old.shape self.old.journal); place = 0 } }
        ensures did { Did self.old self.new caller (take_events self.old.shape self.old.journal caller count) }
    {
        batch.clear(caller);
        for _taken in 0..count {
            let page = self.take_one(caller);
            batch.push(page);
        }
    }

    // Takes the oldest page of the queue.
    fn take_one(&mut self, caller: u32) -> PageId
        requires caller { caller < max_node_callers }
        requires queued { 0 < length (queue self.old.shape self.old.journal) }
        requires room { 0 < self.old.room }
        requires may_take { (no_pages (flight self.old.journal caller) || is_taking self.old.journal caller) ≡ true }
        requires few { length (flight self.old.journal caller) < 255 }
        ensures oldest { slice_get (queue self.old.shape self.old.journal) 0 ≡ Some result }
        ensures did { Did self.old self.new caller (by caller (What.Taken result) ∷ []) }
    {
        let page = self.blocks.take_first(caller);
        self.journal
            .record(caller, What::Taken { page }, SplitContext::none());
        page
    }

    /// Tries the next page of a batch that is still in the flight of the batch's caller.
    ///
    /// The call skips a page of the batch that was freed since the take, whatever page its block holds. Fails with `OutOfMemory`.
    pub fn split_next(&mut self, batch: &mut Batch) -> Result<Tried, Refusal>
        ensures tried { IfOk result (λ t. t ≡ tried self.old.shape self.old.journal (next_page self.old.journal batch.old.caller (rest batch.old))) }
        ensures recorded { OnOk result (Did self.old self.new batch.old.caller (split_next_events self.old.shape self.old.journal batch.old.caller (rest batch.old))) }
        ensures rest { OnOk result (rest batch.new ≡ rest_after self.old.journal batch.old.caller (rest batch.old)) }
        ensures same_caller { batch.new.caller ≡ batch.old.caller }
        ensures same_pages { batch.new.pages ≡ batch.old.pages }
        ensures refused { IfErr result (Refused self.old self.new None (length (split_next_events self.old.shape self.old.journal batch.old.caller (rest batch.old)))) }
        ensures kept { OnErr result (batch.new ≡ batch.old) }
        ensures front { IsInFront self.old.journal batch.old → IsInFront self.new.journal batch.new }
        ensures fronts { FrontsStay self.old.journal self.new.journal }
    {
        let caller = batch.caller();
        match self.next_flying(caller, batch.rest()) {
            None => {
                batch.advance(batch.rest().len());
                Ok(Tried::Done)
            }
            Some((passed, block, page)) => {
                self.journal.reserve(1)?;
                batch.advance(passed + 1);
                Ok(self.try_page(caller, block, page))
            }
        }
    }

    // The first of some pages that is in a caller's flight: the number of pages before it, its block and its number.
    fn next_flying(&self, caller: u32, pages: &[PageId]) -> Option<(usize, u32, PageId)>
        requires { caller < max_node_callers }
        ensures none { IfNone result (next_page self.now.journal caller pages.now ≡ None) }
        ensures page { IfSome result (λ f. next_page self.now.journal caller pages.now ≡ Some f.2) }
        ensures rest { IfSome result (λ f. rest_after self.now.journal caller pages.now ≡ drop (f.0 + 1) pages.now) }
        ensures inside { IfSome result (λ f. f.0 < length pages.now) }
        ensures block { IfSome result (λ f. IsFlyingAt self.now.table caller f.2 f.1) }
    {
        for (passed, &page) in pages.iter().enumerate() {
            if let Some(block) = self.flying_block(caller, page) {
                return Some((passed, block, page));
            }
        }
        None
    }

    // The block of a page that is in a caller's flight.
    pub(super) fn flying_block(&self, caller: u32, page: PageId) -> Option<u32>
        ensures none { IfNone result (has_page page (flight self.now.journal caller) ≡ false) }
        ensures flies { IfSome result (λ b. has_page page (flight self.now.journal caller) ≡ true) }
        ensures block { IfSome result (IsFlyingAt self.now.table caller page) }
        ensures home { IfSome result (λ b. block_of self.now.journal page ≡ Some b) }
    {
        let block = self.blocks.store().find(page)?;
        if self.blocks.store().is_in_batch(block, caller) {
            Some(block)
        } else {
            None
        }
    }

    // Whether the page of a block is worth a split: partly mapped, or underused.
    fn is_split_candidate(&self, block: u32) -> bool
        requires { IsSome (slot_at self.now.table block) }
        ensures page { AtSlot self.now.table block (λ x. result ≡ is_split_candidate self.now.shape.underused x.page) }
        ensures worth { (c p : ℕ) → IsFlyingAt self.now.table c p block → result ≡ is_worth_split self.now.shape self.now.journal p }
    {
        self.blocks
            .store()
            .is_split_candidate(block, self.journal.shape().underused)
    }

    // Tries the page of a block, which is in the caller's flight: removes it from the batch, splits it, or finds it pinned.
    fn try_page(&mut self, caller: u32, block: u32, page: PageId) -> Tried
        requires caller { caller < max_node_callers }
        requires room { 0 < self.old.room }
        requires flies { IsFlyingAt self.old.table caller page block }
        ensures tried { result ≡ tried self.old.shape self.old.journal (Some page) }
        ensures did { Did self.old self.new caller (try_event self.old.shape self.old.journal caller page ∷ []) }
    {
        if !self.is_split_candidate(block) {
            self.blocks.drop_out(block);
            self.journal
                .record(caller, What::Used { page }, SplitContext::none());
            Tried::Used(page)
        } else if self.blocks.store().pins(block) == 0 {
            self.split_page(caller, block, page);
            Tried::Split(page)
        } else {
            self.journal
                .record(caller, What::Pinned { page }, SplitContext::none());
            Tried::Pinned(page)
        }
    }

    // Splits the page of a block, which is in the caller's flight, is worth a split and has no pins.
    fn split_page(&mut self, caller: u32, block: u32, page: PageId)
        requires caller { caller < max_node_callers }
        requires room { 0 < self.old.room }
        requires flies { IsFlyingAt self.old.table caller page block }
        requires worth { AtSlot self.old.table block (λ x. is_split_candidate self.old.shape.underused x.page ≡ true) }
        requires unpinned { IsUnpinnedAt self.old.table block }
        ensures did { Did self.old self.new caller (try_event self.old.shape self.old.journal caller page ∷ []) }
    {
        let split = SplitContext {
            mappings: self.blocks.store().whole(block),
            underused: !self.blocks.store().is_partly(block),
        };
        let give_zero = self.journal.shape().shrinks_underused();
        let released = self.blocks.split(block, give_zero);
        self.journal
            .record(caller, What::Split { page, released }, split);
    }
}
