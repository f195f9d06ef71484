//! The calls of a page, as a value and by name, with the tests that refuse them.
ghost use Rattle.std.specs.Prelude.{◌≡◌, ℕ, ◌+◌, ◌≤◌, OnOk, OnErr, IfOk, Some, None, cond};
ghost use Rattle.std.specs.Result.{result_err};
ghost use Rattle.thp_history.specs.Prelude.{max_subpages, page_refusal, WholeMapped, WholeUnmapped, RangeMapped, RangeUnmapped, PmdSplit, RangeWritten, RangeZeroed, gain_call, Gains, loss_call, Loses, page_call};
ghost use Rattle.thp_history.specs.Pages.{Pinned};
ghost use Rattle.thp_history.specs.Refusals as call;

use super::{Change, Page};
use thp_history::{Gain, Loss, PageCall, Refusal, SubSet};

impl Page {
    ghost use Rattle.thp_page.specs.Changes.{IsChange};

    /// Returns why the call would be refused, if it would.
    #[inline(always)]
    pub fn refusal(&self, call: PageCall) -> Option<Refusal>
        ensures { (p : ℕ) → result ≡ page_refusal self.now (page_call call p) }
    {
        self.check(call).err()
    }

    /// Adds mappings or a pin, or fills subpages. Fails with the reason that `refusal` returns for the call, and then changes
    /// nothing.
    #[inline(always)]
    pub fn gain(&mut self, gain: Gain) -> Result<(), Refusal>
        ensures refusal { (p : ℕ) → result_err result ≡ page_refusal self.old (gain_call gain p) }
        ensures counts { OnOk result (Gains gain self.old self.new) }
        ensures kept { OnErr result (self.new ≡ self.old) }
    {
        match gain {
            Gain::MapWhole => {
                self.check(PageCall::Gain(Gain::MapWhole))?;
                self.whole += 1;
                Ok(())
            }
            Gain::MapSub { first, count } => {
                self.check_map_sub(first, count)?;
                self.own.map(first as usize, count as usize);
                Ok(())
            }
            Gain::SplitPmd => {
                self.check(PageCall::Gain(Gain::SplitPmd))?;
                let subpages = self.subpages();
                self.whole -= 1;
                self.own.map(0, subpages);
                Ok(())
            }
            Gain::Pin => {
                self.check(PageCall::Gain(Gain::Pin))?;
                self.pins += 1;
                Ok(())
            }
            Gain::Write { first, count } => {
                self.check_write(first, count)?;
                self.zero = self.zero.difference(SubSet::range(first, count));
                Ok(())
            }
            Gain::Zero { first, count } => {
                self.check_write(first, count)?;
                self.zero = self.zero.union(SubSet::range(first, count));
                Ok(())
            }
        }
    }

    /// Removes mappings or a pin. On success `change` is the effect on the page's use. Fails with the reason that `refusal`
    /// returns for the call, and then changes nothing.
    #[inline(always)]
    pub fn lose(&mut self, loss: Loss, change: &mut Change) -> Result<(), Refusal>
        ensures refusal { (p : ℕ) → result_err result ≡ page_refusal self.old (loss_call loss p) }
        ensures counts { OnOk result (Loses loss self.old self.new) }
        ensures change { OnOk result (IsChange self.old self.new change.new) }
        ensures kept { OnErr result (self.new ≡ self.old) }
    {
        match loss {
            Loss::UnmapWhole => {
                self.check(PageCall::Loss(Loss::UnmapWhole))?;
                change.unused = self.whole == 1 && self.own.has_unmapped(0, self.subpages());
                change.released = SubSet::empty();
                self.whole -= 1;
            }
            Loss::UnmapSub { first, count } => {
                self.check_unmap_sub(first, count)?;
                let mapped = self.own.mapped();
                let unmapped = self.own.unmap(first as usize, count as usize);
                change.unused = self.whole == 0 && unmapped;
                change.released = if self.split {
                    self.gone_since(mapped)
                } else {
                    SubSet::empty()
                };
            }
            Loss::Unpin => {
                self.check(PageCall::Loss(Loss::Unpin))?;
                change.unused = false;
                change.released = SubSet::empty();
                self.pins -= 1;
            }
        }
        change.used_left = self.has_use();
        self.partly |= change.unused && change.used_left;
        Ok(())
    }

    /// Maps the whole page once more, by a PMD entry. Fails with `IsSplit` or `TooMany`.
    pub fn map_whole(&mut self) -> Result<(), Refusal>
        ensures refusal { (p : ℕ) → result_err result ≡ page_refusal self.old (call.map_whole p) }
        ensures counts { OnOk result (WholeMapped self.old self.new) }
        ensures kept { OnErr result (self.new ≡ self.old) }
    {
        self.gain(Gain::MapWhole)
    }

    /// Removes one mapping of the whole page. Fails with `IsSplit` or `NotMapped`.
    pub fn unmap_whole(&mut self) -> Result<Change, Refusal>
        ensures refusal { (p : ℕ) → result_err result ≡ page_refusal self.old (call.unmap_whole p) }
        ensures counts { OnOk result (WholeUnmapped self.old self.new) }
        ensures change { IfOk result (IsChange self.old self.new) }
        ensures kept { OnErr result (self.new ≡ self.old) }
    {
        let mut change = Change::none();
        self.lose(Loss::UnmapWhole, &mut change)?;
        Ok(change)
    }

    /// Maps each of the `count` subpages from `first` on once more, by PTE entries. Fails with `BadRange`, `Gone` or `TooMany`.
    pub fn map_sub(&mut self, first: u32, count: u32) -> Result<(), Refusal>
        ensures refusal { (p : ℕ) → result_err result ≡ page_refusal self.old (call.map_sub p first count) }
        ensures counts { OnOk result (RangeMapped first count self.old self.new) }
        ensures kept { OnErr result (self.new ≡ self.old) }
    {
        self.gain(Gain::MapSub { first, count })
    }

    /// Removes one mapping of each of the `count` subpages from `first` on. Fails with `BadRange` or `NotMapped`.
    pub fn unmap_sub(&mut self, first: u32, count: u32) -> Result<Change, Refusal>
        ensures refusal { (p : ℕ) → result_err result ≡ page_refusal self.old (call.unmap_sub p first count) }
        ensures counts { OnOk result (RangeUnmapped first count self.old self.new) }
        ensures change { IfOk result (IsChange self.old self.new) }
        ensures kept { OnErr result (self.new ≡ self.old) }
    {
        let mut change = Change::none();
        self.lose(Loss::UnmapSub { first, count }, &mut change)?;
        Ok(change)
    }

    /// Replaces a mapping of the whole page by one of each subpage. Fails with `IsSplit` or `NotMapped`.
    pub fn split_pmd(&mut self) -> Result<(), Refusal>
        ensures refusal { (p : ℕ) → result_err result ≡ page_refusal self.old (call.split_pmd p) }
        ensures counts { OnOk result (PmdSplit self.old self.new) }
        ensures kept { OnErr result (self.new ≡ self.old) }
    {
        self.gain(Gain::SplitPmd)
    }

    /// Adds a pin, which prevents the page from being split. Fails with `IsSplit` or `TooMany`.
    pub fn pin(&mut self) -> Result<(), Refusal>
        ensures refusal { (p : ℕ) → result_err result ≡ page_refusal self.old (call.pin p) }
        ensures counts { OnOk result (Pinned self.old self.new) }
        ensures kept { OnErr result (self.new ≡ self.old) }
    {
        self.gain(Gain::Pin)
    }

    /// Removes a pin. Fails with `IsSplit` or `NotPinned`.
    pub fn unpin(&mut self) -> Result<(), Refusal>
        ensures refusal { (p : ℕ) → result_err result ≡ page_refusal self.old (call.unpin p) }
        ensures counts { OnOk result (Pinned self.new self.old) }
        ensures kept { OnErr result (self.new ≡ self.old) }
    {
        let mut change = Change::none();
        self.lose(Loss::Unpin, &mut change)
    }

    /// Records that data is written to each of the `count` subpages from `first` on: none of them is zero-filled afterwards.
    /// Fails with `BadRange`, `IsSplit` or `NotMapped`.
    pub fn write(&mut self, first: u32, count: u32) -> Result<(), Refusal>
        ensures refusal { (p : ℕ) → result_err result ≡ page_refusal self.old (call.write p first count) }
        ensures written { OnOk result (RangeWritten first count self.old self.new) }
        ensures kept { OnErr result (self.new ≡ self.old) }
    {
        self.gain(Gain::Write { first, count })
    }

    /// Records that zeros are written to each of the `count` subpages from `first` on: all of them are zero-filled afterwards.
    /// Fails with `BadRange`, `IsSplit` or `NotMapped`.
    pub fn zero(&mut self, first: u32, count: u32) -> Result<(), Refusal>
        ensures refusal { (p : ℕ) → result_err result ≡ page_refusal self.old (call.zero_fill p first count) }
        ensures zeroed { OnOk result (RangeZeroed first count self.old self.new) }
        ensures kept { OnErr result (self.new ≡ self.old) }
    {
        self.gain(Gain::Zero { first, count })
    }

    // Fails with the reason why the call would be refused.
    #[tactic(auto, using(crate::proofs::PageSizes::whole_range), unfolding(thp_history::specs::Pages::page_refusal))]
    #[inline(always)]
    fn check(&self, call: PageCall) -> Result<(), Refusal>
        ensures { (p : ℕ) → result_err result ≡ page_refusal self.now (page_call call p) }
    {
        match call {
            PageCall::Gain(Gain::MapWhole) => {
                refuse_if(self.split, Refusal::IsSplit)?;
                let is_full = self.has_total_at_limit(0, self.subpages());
                refuse_if(is_full, Refusal::TooMany)
            }
            PageCall::Gain(Gain::MapSub { first, count }) => self.check_map_sub(first, count),
            PageCall::Gain(Gain::SplitPmd) | PageCall::Loss(Loss::UnmapWhole) => {
                refuse_if(self.split, Refusal::IsSplit)?;
                refuse_if(self.whole == 0, Refusal::NotMapped)
            }
            PageCall::Gain(Gain::Pin) => {
                refuse_if(self.split, Refusal::IsSplit)?;
                refuse_if(self.pins == u16::MAX, Refusal::TooMany)
            }
            PageCall::Gain(Gain::Write { first, count }) => self.check_write(first, count),
            PageCall::Gain(Gain::Zero { first, count }) => self.check_write(first, count),
            PageCall::Loss(Loss::UnmapSub { first, count }) => self.check_unmap_sub(first, count),
            PageCall::Loss(Loss::Unpin) => {
                refuse_if(self.split, Refusal::IsSplit)?;
                refuse_if(self.pins == 0, Refusal::NotPinned)
            }
        }
    }

    // Fails with the reason why `map_sub` would be refused.
    #[tactic(auto, unfolding(thp_history::specs::Pages::page_refusal))]
    #[inline(always)]
    fn check_map_sub(&self, first: u32, count: u32) -> Result<(), Refusal>
        ensures { (p : ℕ) → result_err result ≡ page_refusal self.now (call.map_sub p first count) }
    {
        refuse_if(self.is_bad_range(first, count), Refusal::BadRange)?;
        let (first, count) = (first as usize, count as usize);
        if self.split && self.has_gone_frame(first, count) {
            return Err(Refusal::Gone);
        }
        refuse_if(self.has_total_at_limit(first, count), Refusal::TooMany)
    }

    // Fails with the reason why `unmap_sub` would be refused.
    #[tactic(auto, unfolding(thp_history::specs::Pages::page_refusal))]
    #[inline(always)]
    fn check_unmap_sub(&self, first: u32, count: u32) -> Result<(), Refusal>
        ensures { (p : ℕ) → result_err result ≡ page_refusal self.now (call.unmap_sub p first count) }
    {
        refuse_if(self.is_bad_range(first, count), Refusal::BadRange)?;
        let is_unmapped = self.has_unmapped(first as usize, count as usize);
        refuse_if(is_unmapped, Refusal::NotMapped)
    }

    // Fails with the reason why `write` and `zero` would be refused.
    #[tactic(auto, unfolding(thp_history::specs::Pages::page_refusal))]
    fn check_write(&self, first: u32, count: u32) -> Result<(), Refusal>
        ensures data { (p : ℕ) → result_err result ≡ page_refusal self.now (call.write p first count) }
        ensures zeros { (p : ℕ) → result_err result ≡ page_refusal self.now (call.zero_fill p first count) }
    {
        refuse_if(self.is_bad_range(first, count), Refusal::BadRange)?;
        refuse_if(self.split, Refusal::IsSplit)?;
        let is_unused = self.has_unused(first as usize, count as usize);
        refuse_if(is_unused, Refusal::NotMapped)
    }
}

// Fails with this reason if it holds.
#[inline(always)]
fn refuse_if(holds: bool, reason: Refusal) -> Result<(), Refusal>
    ensures { result_err result ≡ cond holds (Some reason) None }
{
    if holds { Err(reason) } else { Ok(()) }
}
