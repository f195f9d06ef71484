//! The calls about one page: its mappings, its pins, and writes to it.
ghost use Rattle.std.specs.Prelude.{◌≡◌, ℕ, ◌<◌, ◌≤◌, [], ◌∷◌, None, Some, IfOk, IfErr, OnOk};
ghost use Rattle.thp_history.specs.Prelude.{max_node_callers, by, outcome, released, refusal, gain_call, loss_call, page_call, gain_what, loss_what};
ghost use Rattle.thp_history.specs.Refusals as call;
ghost use Rattle.thp_node.specs.Batches.{FrontsStay};
ghost use Rattle.thp_node.specs.Calls.{Did, Refused};
ghost use Rattle.thp_page.specs.Prelude.{slot_at, HoldsPage};
ghost use Rattle.thp_live_pages.specs.Prelude.{block_of};

use crate::node::Node;
use crate::recorder::Recorder;
use thp_history::{Done, Gain, Loss, PageCall, PageId, Refusal, SplitContext, What};

impl<R: Recorder> Node<R> {
    /// Maps the whole page once more, by a PMD entry. Fails with `NoPage`, `IsSplit`, `TooMany` or `OutOfMemory`.
    pub fn map_whole(&mut self, caller: u32, page: PageId) -> Result<(), Refusal>
        requires { caller < max_node_callers }
        ensures allowed { OnOk result (refusal self.old.shape self.old.journal (call.map_whole page) ≡ None) }
        ensures recorded { OnOk result (Did self.old self.new caller (by caller (What.MapWhole page) ∷ [])) }
        ensures refused { IfErr result (Refused self.old self.new (refusal self.old.shape self.old.journal (call.map_whole page)) 1) }
        ensures fronts { FrontsStay self.old.journal self.new.journal }
    {
        self.gain(caller, page, Gain::MapWhole)
    }

    /// Removes one mapping of the whole page. Fails with `NoPage`, `IsSplit`, `NotMapped` or `OutOfMemory`.
    pub fn unmap_whole(&mut self, caller: u32, page: PageId) -> Result<Done, Refusal>
        requires { caller < max_node_callers }
        ensures allowed { OnOk result (refusal self.old.shape self.old.journal (call.unmap_whole page) ≡ None) }
        ensures recorded { IfOk result (λ d. Did self.old self.new caller (by caller (What.UnmapWhole d.outcome page d.released) ∷ [])) }
        ensures outcome { IfOk result (λ d. d.outcome ≡ outcome self.old.shape self.old.journal self.new.journal page) }
        ensures released { IfOk result (λ d. d.released ≡ released self.old.shape self.old.journal self.new.journal page) }
        ensures refused { IfErr result (Refused self.old self.new (refusal self.old.shape self.old.journal (call.unmap_whole page)) 1) }
        ensures fronts { FrontsStay self.old.journal self.new.journal }
    {
        self.lose(caller, page, Loss::UnmapWhole)
    }

    /// Maps each of the `count` subpages from `first` on once more, by PTE entries. Fails with `NoPage`, `BadRange`, `Gone`,
    /// `TooMany` or `OutOfMemory`.
    pub fn map_sub(
        &mut self,
        caller: u32,
        page: PageId,
        first: u32,
        count: u32,
    ) -> Result<(), Refusal>
        requires { caller < max_node_callers }
        ensures allowed { OnOk result (refusal self.old.shape self.old.journal (call.map_sub page first count) ≡ None) }
        ensures recorded { OnOk result (Did self.old self.new caller (by caller (What.MapSub page first count) ∷ [])) }
        ensures refused { IfErr result (Refused self.old self.new (refusal self.old.shape self.old.journal (call.map_sub page first count)) 1) }
        ensures fronts { FrontsStay self.old.journal self.new.journal }
    {
        self.gain(caller, page, Gain::MapSub { first, count })
    }

    /// Removes one mapping of each of the `count` subpages from `first` on. Fails with `NoPage`, `BadRange`, `NotMapped` or
    /// `OutOfMemory`.
    ///
    /// If this leaves the page partly in use, the page is queued for splitting and no frame is given back at once
    /// (mm/transhuge.rst, "Partial unmap and deferred_split_huge_page()").
    pub fn unmap_sub(
        &mut self,
        caller: u32,
        page: PageId,
        first: u32,
        count: u32,
    ) -> Result<Done, Refusal>
        requires { caller < max_node_callers }
        ensures allowed { OnOk result (refusal self.old.shape self.old.journal (call.unmap_sub page first count) ≡ None) }
        ensures recorded { IfOk result (λ d. Did self.old self.new caller (by caller (What.UnmapSub d.outcome page first count d.released) ∷ [])) }
        ensures outcome { IfOk result (λ d. d.outcome ≡ outcome self.old.shape self.old.journal self.new.journal page) }
        ensures released { IfOk result (λ d. d.released ≡ released self.old.shape self.old.journal self.new.journal page) }
        ensures refused { IfErr result (Refused self.old self.new (refusal self.old.shape self.old.journal (call.unmap_sub page first count)) 1) }
        ensures fronts { FrontsStay self.old.journal self.new.journal }
    {
        self.lose(caller, page, Loss::UnmapSub { first, count })
    }

    /// Replaces one mapping of the whole page by one of each subpage, even if the page has pins. Fails with `NoPage`, `IsSplit`,
    /// `NotMapped` or `OutOfMemory`.
    pub fn split_pmd(&mut self, caller: u32, page: PageId) -> Result<(), Refusal>
        requires { caller < max_node_callers }
        ensures allowed { OnOk result (refusal self.old.shape self.old.journal (call.split_pmd page) ≡ None) }
        ensures recorded { OnOk result (Did self.old self.new caller (by caller (What.SplitPmd page) ∷ [])) }
        ensures refused { IfErr result (Refused self.old self.new (refusal self.old.shape self.old.journal (call.split_pmd page)) 1) }
        ensures fronts { FrontsStay self.old.journal self.new.journal }
    {
        self.gain(caller, page, Gain::SplitPmd)
    }

    /// Adds a pin, which prevents the page from being split. Fails with `NoPage`, `IsSplit`, `TooMany` or `OutOfMemory`.
    pub fn pin(&mut self, caller: u32, page: PageId) -> Result<(), Refusal>
        requires { caller < max_node_callers }
        ensures allowed { OnOk result (refusal self.old.shape self.old.journal (call.pin page) ≡ None) }
        ensures recorded { OnOk result (Did self.old self.new caller (by caller (What.Pin page) ∷ [])) }
        ensures refused { IfErr result (Refused self.old self.new (refusal self.old.shape self.old.journal (call.pin page)) 1) }
        ensures fronts { FrontsStay self.old.journal self.new.journal }
    {
        self.gain(caller, page, Gain::Pin)
    }

    /// Removes a pin, which can free the page. Fails with `NoPage`, `IsSplit`, `NotPinned` or `OutOfMemory`.
    pub fn unpin(&mut self, caller: u32, page: PageId) -> Result<Done, Refusal>
        requires { caller < max_node_callers }
        ensures allowed { OnOk result (refusal self.old.shape self.old.journal (call.unpin page) ≡ None) }
        ensures recorded { IfOk result (λ d. Did self.old self.new caller (by caller (What.Unpin d.outcome page d.released) ∷ [])) }
        ensures outcome { IfOk result (λ d. d.outcome ≡ outcome self.old.shape self.old.journal self.new.journal page) }
        ensures released { IfOk result (λ d. d.released ≡ released self.old.shape self.old.journal self.new.journal page) }
        ensures refused { IfErr result (Refused self.old self.new (refusal self.old.shape self.old.journal (call.unpin page)) 1) }
        ensures fronts { FrontsStay self.old.journal self.new.journal }
    {
        self.lose(caller, page, Loss::Unpin)
    }

    /// Records that data is written to each of the `count` subpages from `first` on, which are not zero-filled afterwards. Fails
    /// with `NoPage`, `BadRange`, `IsSplit`, with `NotMapped` if one of them is not mapped, or with `OutOfMemory`.
    pub fn write(
        &mut self,
        caller: u32,
        page: PageId,
        first: u32,
        count: u32,
    ) -> Result<(), Refusal>
        requires { caller < max_node_callers }
        ensures allowed { OnOk result (refusal self.old.shape self.old.journal (call.write page first count) ≡ None) }
        ensures recorded { OnOk result (Did self.old self.new caller (by caller (What.Write page first count) ∷ [])) }
        ensures refused { IfErr result (Refused self.old self.new (refusal self.old.shape self.old.journal (call.write page first count)) 1) }
        ensures fronts { FrontsStay self.old.journal self.new.journal }
    {
        self.gain(caller, page, Gain::Write { first, count })
    }

    /// Records that zeros are written to each of the `count` subpages from `first` on, which are zero-filled afterwards. Fails as
    /// `write` does.
    pub fn zero(&mut self, caller: u32, page: PageId, first: u32, count: u32) -> Result<(), Refusal>
        requires { caller < max_node_callers }
        ensures allowed { OnOk result (refusal self.old.shape self.old.journal (call.zero_fill page first count) ≡ None) }
        ensures recorded { OnOk result (Did self.old self.new caller (by caller (What.Zero page first count) ∷ [])) }
        ensures refused { IfErr result (Refused self.old self.new (refusal self.old.shape self.old.journal (call.zero_fill page first count)) 1) }
        ensures fronts { FrontsStay self.old.journal self.new.journal }
    {
        self.gain(caller, page, Gain::Zero { first, count })
    }

    /// Adds mappings or a pin, or fills subpages of the page. Fails as the corresponding method does: `map_whole`, `map_sub`,
    /// `split_pmd`, `pin`, `write` or `zero`. Inlined, as `lose` is, so that a call of a known kind executes that kind only.
    #[inline(always)]
    pub fn gain(&mut self, caller: u32, page: PageId, gain: Gain) -> Result<(), Refusal>
        requires { caller < max_node_callers }
        ensures allowed { OnOk result (refusal self.old.shape self.old.journal (gain_call gain page) ≡ None) }
        ensures recorded { OnOk result (Did self.old self.new caller (by caller (gain_what gain page) ∷ [])) }
        ensures refused { IfErr result (Refused self.old self.new (refusal self.old.shape self.old.journal (gain_call gain page)) 1) }
        ensures fronts { FrontsStay self.old.journal self.new.journal }
    {
        let block = self.admit(page, PageCall::Gain(gain))?;
        self.blocks.gain(block, gain)?;
        self.journal
            .record(caller, gain.what(page), SplitContext::none());
        Ok(())
    }

    /// Removes mappings or a pin of the page, which can queue or free it. Fails as the corresponding method does: `unmap_whole`,
    /// `unmap_sub` or `unpin`.
    #[inline(always)]
    pub fn lose(&mut self, caller: u32, page: PageId, loss: Loss) -> Result<Done, Refusal>
        requires { caller < max_node_callers }
        ensures allowed { OnOk result (refusal self.old.shape self.old.journal (loss_call loss page) ≡ None) }
        ensures recorded { IfOk result (λ d. Did self.old self.new caller (by caller (loss_what loss page d.outcome d.released) ∷ [])) }
        ensures outcome { IfOk result (λ d. d.outcome ≡ outcome self.old.shape self.old.journal self.new.journal page) }
        ensures released { IfOk result (λ d. d.released ≡ released self.old.shape self.old.journal self.new.journal page) }
        ensures refused { IfErr result (Refused self.old self.new (refusal self.old.shape self.old.journal (loss_call loss page)) 1) }
        ensures fronts { FrontsStay self.old.journal self.new.journal }
    {
        let block = self.admit(page, PageCall::Loss(loss))?;
        let closed = self.journal.is_closed();
        let mut done = Done::none();
        let left = self.blocks.lose(block, loss, closed, &mut done)?;
        self.journal.record_loss(caller, page, loss, &done, left);
        Ok(done)
    }

    // The block of a page, after reserving room in the journal for an event. If there is no room, a refusal by the page is
    // reported first, so that it leaves the journal unchanged.
    #[inline(always)]
    fn admit(&mut self, page: PageId, call: PageCall) -> Result<u32, Refusal>
        ensures block { IfOk result (λ b. block_of self.old.journal page ≡ Some b) }
        ensures allowed { OnOk result (self.old.room ≡ 0 → refusal self.old.shape self.old.journal (page_call call page) ≡ None) }
        ensures room { OnOk result (0 < self.new.room) }
        ensures kept { OnOk result (0 < self.old.room → self.new ≡ self.old) }
        ensures more { self.old.room ≤ self.new.room }
        ensures same { self.new ≡ record self.old { room = self.new.room } }
        ensures refused { IfErr result (Refused self.old self.new (refusal self.old.shape self.old.journal (page_call call page)) 1) }
    {
        let Some(block) = self.blocks.store().find(page) else {
            return Err(Refusal::NoPage);
        };
        if !self.journal.has_room() {
            self.make_room(page, block, call)?;
        }
        Ok(block)
    }

    // Reserves room in the journal for the event of a call of the page of a block, unless the page refuses the call.
    #[cold]
    #[inline(never)]
    fn make_room(&mut self, page: PageId, block: u32, call: PageCall) -> Result<(), Refusal>
        requires { HoldsPage (slot_at self.old.table block) page }
        ensures allowed { OnOk result (refusal self.old.shape self.old.journal (page_call call page) ≡ None) }
        ensures room { OnOk result (0 < self.new.room) }
        ensures more { self.old.room ≤ self.new.room }
        ensures same { self.new ≡ record self.old { room = self.new.room } }
        ensures refused { IfErr result (Refused self.old self.new (refusal self.old.shape self.old.journal (page_call call page)) 1) }
    {
        if let Some(refusal) = self.blocks.store().refusal(block, call) {
            return Err(refusal);
        }
        self.journal.reserve(1)?;
        Ok(())
    }
}
