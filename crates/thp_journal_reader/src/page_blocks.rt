//! The blocks of each page.
ghost use Rattle.std.specs.Prelude.{◌≡◌, ◌<◌, ◌≤◌, ◌+◌, ◌^◌, ℕ, List, [], ◌∷◌, ◌++◌, cond, nat_eq, count_by, length, slice_index, Some, OnOk, OnErr, ◌-◌, slice_set, replicate, IfOk};
ghost use Rattle.thp_journal_reader.specs.Prelude.{last_allocation, IsAllocationChain, IsCovered};
ghost use Rattle.thp_live_pages.specs.Prelude.{least_of};

use std::alloc::{AllocError, Global};
use std::collections::BTreeMap;
use std::marker::Model;
use thp_history::PageId;
use thp_live_pages::FreeBlocks;

// An allocation of a page, and the preceding one of the same page since the page was last freed.
#[derive(Clone, Copy)]
pub(crate) struct Allocation {
    block: u32,
    before: Option<u32>,
}

// The blocks of each page: its allocations are linked from the last to the first.
#[derive(Drop)]
pub(crate) struct PageBlocks {
    pub(crate) last: LastAllocations,
    allocations: Vec<Allocation>,
}

impl PageBlocks {
    // No page has a block.
    pub(crate) fn new(alloc: Global) -> PageBlocks
        ensures pages { (p : ℕ) → last_allocation result.last p ≡ None }
        ensures none { result.allocations.items ≡ [] }
    {
        PageBlocks {
            last: LastAllocations::new(alloc),
            allocations: Vec::new(alloc),
        }
    }

    // Adds a block of a page, whose last allocation is `before`. Fails if memory can't be allocated, and then changes nothing.
    pub(crate) fn add(
        &mut self,
        page: PageId,
        block: u32,
        before: Option<u32>,
    ) -> Result<(), AllocError>
        ensures small { OnOk result (length self.new.allocations.items < 2 ^ 32) }
        ensures added { OnOk result (self.new.allocations.items ≡ self.old.allocations.items ++ record { block = block; before = before } ∷ []) }
        ensures last { OnOk result ((p : ℕ) → last_allocation self.new.last p ≡ cond (nat_eq p page) (Some (length self.old.allocations.items)) (last_allocation self.old.last p)) }
        ensures failed { OnErr result (self.new.allocations.items ≡ self.old.allocations.items) }
        ensures same { OnErr result ((p : ℕ) → last_allocation self.new.last p ≡ last_allocation self.old.last p) }
    {
        let place = self.allocations.len();
        if place >= u32::MAX as usize {
            return Err(AllocError);
        }
        self.allocations.try_reserve(1)?;
        self.last.set(page, Some(place as u32))?;
        self.allocations.push_reserved(Allocation { block, before });
        Ok(())
    }

    // Frees the blocks of the allocations from `last` on.
    pub(crate) fn give_back(&self, last: Option<u32>, holders: &mut BlockHolders)
        requires { IsCovered self.now.allocations.items last holders.old }
        ensures given { (bs : List ℕ) → IsAllocationChain self.now.allocations.items (length self.now.allocations.items) last bs → (b : ℕ) → slice_index holders.new b + count_by (nat_eq b) bs ≡ slice_index holders.old b }
        ensures size { length holders.new ≡ length holders.old }
    {
        let mut next = last;
        while let Some(place) = next {
            let allocation = self.allocations[place as usize];
            holders.release(allocation.block);
            next = allocation.before;
        }
    }
}

// The index of each page's last allocation since it was last freed, by page number. A page without an entry has none.
#[derive(Drop)]
pub(crate) struct LastAllocations {
    // the pages from 0 on: these are all, if numbers are assigned consecutively
    dense: Vec<Option<u32>>,
    // other pages; an entry is out of date if `dense` has the page too
    others: BTreeMap<u64, Option<u32>>,
}

impl LastAllocations {
    // No page has an allocation.
    pub(crate) fn new(alloc: Global) -> LastAllocations
        ensures { (p : ℕ) → last_allocation result p ≡ None }
    {
        LastAllocations {
            dense: Vec::new(alloc),
            others: BTreeMap::new(alloc),
        }
    }

    // Returns the last allocation of a page.
    #[tactic(auto, using(crate::proofs::Lookups::last_dense, crate::proofs::Lookups::last_named, crate::proofs::Lookups::last_unnamed))]
    pub(crate) fn find(&self, page: PageId) -> Option<u32>
        ensures { result ≡ last_allocation self.now page }
    {
        if let Some(last) = self.dense.get(page.0 as usize) {
            return *last;
        }
        let last = self.others.get(&page.0).copied();
        last.unwrap_or(None)
    }

    // Sets the last allocation of the page. Fails if memory can't be allocated, and then changes nothing.
    #[tactic(auto, using(crate::proofs::Lookups::last_set, crate::proofs::Lookups::last_push, crate::proofs::Lookups::last_stays))]
    pub(crate) fn set(&mut self, page: PageId, last: Option<u32>) -> Result<(), AllocError>
        ensures done { OnOk result ((p : ℕ) → last_allocation self.new p ≡ cond (nat_eq p page) last (last_allocation self.old p)) }
        ensures failed { OnErr result ((p : ℕ) → last_allocation self.new p ≡ last_allocation self.old p) }
    {
        let place = page.0 as usize;
        if place < self.dense.len() {
            self.dense[place] = last;
            return Ok(());
        }
        if place == self.dense.len() {
            self.dense.push(last)?;
            return Ok(());
        }
        self.others.insert(page.0, last)?;
        Ok(())
    }
}

// The number of holders of each block: the allocations there whose page was not freed since. Contracts see the list of these numbers.
#[derive(Drop)]
pub(crate) struct BlockHolders {
    counts: Vec<u32>,
    // the blocks without a holder
    free: FreeBlocks,
}

impl Model for BlockHolders {
    ghost use Rattle.std.specs.Prelude.{List, ℕ};

    ghost Value = { List ℕ };

    ghost use Rattle.thp_live_pages.specs.Prelude.{AreFree};

    ghost view = { λ h. h.counts.items };

    ghost invariant = { λ h. AreFree h.counts.items h.free };
}

impl BlockHolders {
    // No block has a holder.
    pub(crate) fn new(alloc: Global, blocks: u32) -> Result<BlockHolders, AllocError>
        ensures { IfOk result (λ h. h ≡ replicate blocks 0) }
    {
        let free = FreeBlocks::new(alloc, blocks)?;
        let counts = vec![in alloc; 0; blocks as usize]?;
        Ok(BlockHolders { counts, free })
    }

    // The least block without a holder, or 0.
    #[tactic(auto, using(thp_live_pages::proofs::Least::least_some, thp_live_pages::proofs::Least::least_none))]
    pub(crate) fn least(&self) -> u32
        ensures least { result ≡ least_of self.now }
        ensures inside { 0 < length self.now → result < length self.now }
    {
        match self.free.least() {
            Some(block) => block,
            None => 0,
        }
    }

    // Adds a holder of the block.
    pub(crate) fn hold(&mut self, block: u32)
        requires inside { block < length self.old }
        requires room { slice_index self.old block + 1 < 2 ^ 32 }
        ensures { self.new ≡ slice_set self.old block (slice_index self.old block + 1) }
    {
        self.counts[block as usize] += 1;
        self.free.remove(block);
    }

    // Removes a holder of the block.
    pub(crate) fn release(&mut self, block: u32)
        requires { 0 < slice_index self.old block }
        ensures { self.new ≡ slice_set self.old block (slice_index self.old block - 1) }
    {
        let left = self.counts[block as usize] - 1;
        self.counts[block as usize] = left;
        if left == 0 {
            self.free.insert(block);
        }
    }
}
