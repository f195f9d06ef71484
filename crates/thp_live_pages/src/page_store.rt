//! The pages of a node with their lists: the table of their descriptors, and the queue that is linked through it.
ghost use Rattle.std.specs.Prelude.{◌≡◌, ◌≢◌, ℕ, ◌+◌, ◌<◌, ◌≤◌, [], ◌∷◌, ◌++◌, length, drop, slice_get, Option, Some, None, IsSome, IfSome, IfNone, IfOk, OnOk, OnErr, MatchOption, IsTrue, ◌↔◌, Contains, false};
ghost use Rattle.std.specs.Bool.{OnTrue, OnFalse};
ghost use Rattle.std.specs.Result.{result_err};
ghost use Rattle.thp_links.specs.Prelude.{without_index, Stands};
ghost use Rattle.thp_history.specs.Prelude.{max_order, min_order, gives_frames, is_split_candidate, page_refusal, PageSplit, PageState, gain_call, loss_call, page_call, Gains};
ghost use Rattle.thp_page.specs.Prelude.{slot_at, HoldsPage, SameSlots, Slot};
ghost use Rattle.thp_live_pages.specs.Flying.{IsFlyingAt};
ghost use Rattle.thp_live_pages.specs.FreeChains.{IsFreeChain, Relinks};
ghost use Rattle.thp_live_pages.specs.PageStoreState.{AtSlot, Edits, batch_left, IsElsewhere, LeavesQueue, Lost, IsPlaced, TakesFirst};

use crate::page_call::{give_back, outcome_of};
use std::alloc::{AllocError, Global};
use std::marker::Model;
use thp_history::{Done, Gain, Loss, Outcome, PageCall, PageId, Refusal, Shape, SubSet};
use thp_links::{FreeChain, LinkTable, Queue};
use thp_page::{Change, Page, PageTable, Standing};

/// The live pages of a node by block, and the queue of those that wait to be split.
///
/// A block is in the queue exactly if the standing of its page is `Queued`. Contracts see the table of pages and the blocks of
/// the queue, oldest first. A clause on accesses bounds the number of link pairs that a call reads and writes.
#[derive(Drop)]
pub struct PageStore {
    table: PageTable,
    queue: Queue,
}

impl Model for PageStore {
    ghost use Rattle.thp_live_pages.specs.PageStoreState.{PageStoreState};
    ghost use Rattle.thp_live_pages.specs.Linking.{QueueIsLinked};

    ghost Value = { PageStoreState };

    ghost view = { λ p. record { table = p.table; queue = p.queue } };

    ghost invariant = { λ p. QueueIsLinked p.table p.queue };
}

impl PageStore {
    /// Creates a store without pages, for the blocks of the shape. Allocates all memory that the pages will need, and fails if
    /// that is not possible.
    pub fn new(alloc: Global, shape: Shape) -> Result<PageStore, AllocError>
        requires least { min_order ≤ shape.order }
        requires most { shape.order ≤ max_order }
        ensures size { IfOk result (λ p. length p.table.slots ≡ shape.blocks) }
        ensures order { IfOk result (λ p. p.table.order ≡ shape.order) }
        ensures empty { IfOk result (λ p. (i : ℕ) → slot_at p.table i ≡ None) }
        ensures queue { IfOk result (λ p. p.queue ≡ []) }
    {
        let table = PageTable::new(alloc, shape.blocks, shape.order)?;
        Ok(PageStore {
            table,
            queue: Queue::new(),
        })
    }

    /// Returns the table of pages.
    pub fn table(&self) -> &PageTable
        ensures { result.now ≡ self.now.table }
    {
        &self.table
    }

    /// Returns the queue.
    pub fn queue(&self) -> &Queue
        ensures value { result.now ≡ self.now.queue }
        ensures stands { Stands self.now.queue self.now.table.links }
    {
        &self.queue
    }

    /// Returns the blocks of the queue, oldest first. It reads the link pair of each, and takes `&mut self` because every read of
    /// a link is counted.
    pub fn queued(&mut self, alloc: Global) -> Result<Vec<u32>, AllocError>
        ensures blocks { IfOk result (λ blocks. blocks.items ≡ self.old.queue) }
        ensures same { Relinks self.old self.new (length self.old.queue) }
    {
        blocks_of(&mut self.table, &self.queue, alloc)
    }

    /// Returns whether the block exists and holds no page.
    pub fn is_free(&self, block: u32) -> bool
        ensures inside { OnTrue result (block < length self.now.table.slots) }
        ensures empty { OnTrue result (slot_at self.now.table block ≡ None) }
        ensures taken { OnFalse result (block < length self.now.table.slots → IsSome (slot_at self.now.table block)) }
    {
        block < self.table.len() && self.table.page(block).is_none()
    }

    /// Places a new page in a free block, and appends it to the queue if `queued` is true.
    pub fn place(&mut self, block: u32, page: PageId, queued: bool)
        requires inside { block < length self.old.table.slots }
        requires free { slot_at self.old.table block ≡ None }
        requires new { (b : ℕ) → HoldsPage (slot_at self.old.table b) page → ⊥ }
        ensures { IsPlaced page queued self.old self.new block }
    {
        self.table.place(block, page);
        if queued {
            self.enqueue(block);
        }
    }

    /// Returns the block of a page, if it is live.
    #[inline(always)]
    pub fn find(&self, page: PageId) -> Option<u32>
        ensures { MatchOption result ((b : ℕ) → HoldsPage (slot_at self.now.table b) page → ⊥) (λ b. HoldsPage (slot_at self.now.table b) page) }
    {
        self.table.block_of(page)
    }

    /// Returns why the page of a block would refuse a call, if it would.
    #[inline(always)]
    pub fn refusal(&self, block: u32, call: PageCall) -> Option<Refusal>
        requires { IsSome (slot_at self.now.table block) }
        ensures { AtSlot self.now.table block (λ x. (p : ℕ) → result ≡ page_refusal x.page (page_call call p)) }
    {
        self.page(block).refusal(call)
    }

    /// Adds mappings or a pin, or fills subpages of the page of a block, unless the page refuses that.
    #[inline(always)]
    pub fn gain(&mut self, block: u32, gain: Gain) -> Result<(), Refusal>
        requires occupied { IsSome (slot_at self.old.table block) }
        ensures refusal { AtSlot self.old.table block (λ x. (p : ℕ) → result_err result ≡ page_refusal x.page (gain_call gain p)) }
        ensures gained { OnOk result (AtSlot self.old.table block (λ x. (p : PageState) × Gains gain x.page p × Edits self.old self.new block (Some (record x { page = p })) self.old.queue 0)) }
        ensures kept { OnErr result (self.new ≡ self.old) }
    {
        self.table.occupant_mut(block).gain(gain)
    }

    /// Removes mappings or a pin of the page of a block, unless the page refuses that, and then queues the page, frees it, or
    /// leaves it where it is. `done` is the outcome with the frames given back, and the result is the caller whose batch the page
    /// left. A freed page leaves its block.
    #[inline(always)]
    pub fn lose(
        &mut self,
        block: u32,
        loss: Loss,
        closed: bool,
        done: &mut Done,
    ) -> Result<Option<u32>, Refusal>
        requires occupied { IsSome (slot_at self.old.table block) }
        ensures refusal { AtSlot self.old.table block (λ x. (p : ℕ) → result_err result ≡ page_refusal x.page (loss_call loss p)) }
        ensures lost { IfOk result (λ left. AtSlot self.old.table block (λ x. Lost loss closed x self.old self.new block done.new left)) }
        ensures kept { OnErr result (self.new ≡ self.old) }
    {
        let standing = self.table.standing(block);
        let mut change = Change::none();
        let page = self.table.occupant_mut(block);
        page.lose(loss, &mut change)?;
        done.outcome = outcome_of(page, &change, standing, closed);
        give_back(page, &change, done.outcome, &mut done.released);
        let left = match done.outcome {
            Outcome::Stays => None,
            Outcome::Queued => {
                self.enqueue(block);
                None
            }
            Outcome::Freed => {
                self.leave_queue(block);
                self.vacate(block);
                batch_of(standing)
            }
        };
        Ok(left)
    }

    /// Moves the oldest page of the queue, which must not be empty, to a caller's batch.
    pub fn take_first(&mut self, caller: u32) -> PageId
        requires { 0 < length self.old.queue }
        ensures { TakesFirst self.old self.new caller result }
    {
        match self.queue.pop_front(&mut self.table) {
            Some(block) => {
                self.table.set_standing(block, Standing::Batch(caller));
                self.number(block)
            }
            None => unreachable!(),
        }
    }

    /// Returns whether the page of a block is in a caller's batch.
    pub fn is_in_batch(&self, block: u32, caller: u32) -> bool
        requires { IsSome (slot_at self.now.table block) }
        ensures { AtSlot self.now.table block (λ x. IsTrue result ↔ (x.standing ≡ Standing.Batch caller)) }
    {
        self.table.standing(block) == Standing::Batch(caller)
    }

    /// Returns the block of a page, if the page is in a caller's batch.
    pub fn find_in_batch(&self, page: PageId, caller: u32) -> Option<u32>
        ensures none { IfNone result (IsElsewhere self.now.table caller page) }
        ensures there { IfSome result (IsFlyingAt self.now.table caller page) }
    {
        let block = self.find(page)?;
        self.is_in_batch(block, caller).then_some(block)
    }

    /// Returns the number of the page of a block.
    pub fn number(&self, block: u32) -> PageId
        requires { IsSome (slot_at self.now.table block) }
        ensures { AtSlot self.now.table block (λ x. result ≡ x.id) }
    {
        self.table.number(block)
    }

    /// Returns the pins of the page of a block.
    pub fn pins(&self, block: u32) -> u32
        requires { IsSome (slot_at self.now.table block) }
        ensures { AtSlot self.now.table block (λ x. result ≡ x.page.pins) }
    {
        self.page(block).pins()
    }

    /// Returns the whole map count of the page of a block.
    pub fn whole(&self, block: u32) -> u32
        requires { IsSome (slot_at self.now.table block) }
        ensures { AtSlot self.now.table block (λ x. result ≡ x.page.whole) }
    {
        self.page(block).whole()
    }

    /// Returns whether the page of a block is partly mapped: an unmap removed a subpage's last mapping and left another subpage
    /// in use.
    pub fn is_partly(&self, block: u32) -> bool
        requires { IsSome (slot_at self.now.table block) }
        ensures { AtSlot self.now.table block (λ x. result ≡ x.page.partly) }
    {
        self.page(block).is_partly()
    }

    /// Returns whether the page of a block is worth a split: it is partly mapped, or a threshold is given and more of its
    /// subpages are zero-filled than that.
    pub fn is_split_candidate(&self, block: u32, threshold: Option<u32>) -> bool
        requires { IsSome (slot_at self.now.table block) }
        ensures { AtSlot self.now.table block (λ x. result ≡ is_split_candidate threshold x.page) }
    {
        self.page(block).is_split_candidate(threshold)
    }

    /// Splits the page of a block, which is in a batch, and removes it from the batch. Returns the frames given back: those of
    /// the subpages that are not in use, and also those of the zero-filled ones if `give_zero` is true.
    pub fn split(&mut self, block: u32, give_zero: bool) -> SubSet
        requires occupied { IsSome (slot_at self.old.table block) }
        requires allowed { AtSlot self.old.table block (λ x. (x.page.split ≡ false) × (x.page.pins ≡ 0) × (x.standing ≢ Standing.Queued)) }
        ensures { AtSlot self.old.table block (λ x. (p : PageState) × PageSplit give_zero x.page p × (result ≡ gives_frames x.page p) × Edits self.old self.new block (Some (record x { page = p; standing = Standing.Nowhere })) self.old.queue 0) }
    {
        self.table.set_standing(block, Standing::Nowhere);
        self.table.occupant_mut(block).split(give_zero)
    }

    /// Appends the page of a block, which is not in the queue, to the queue.
    pub fn enqueue(&mut self, block: u32)
        requires occupied { IsSome (slot_at self.old.table block) }
        requires outside { AtSlot self.old.table block (λ x. x.standing ≢ Standing.Queued) }
        ensures { AtSlot self.old.table block (λ x. Edits self.old self.new block (Some (record x { standing = Standing.Queued })) (self.old.queue ++ block ∷ []) 4) }
    {
        self.table.set_standing(block, Standing::Queued);
        self.queue.push_back(&mut self.table, block);
    }

    /// Removes the page of a block, which is not in the queue, from its batch.
    pub fn drop_out(&mut self, block: u32)
        requires occupied { IsSome (slot_at self.old.table block) }
        requires outside { AtSlot self.old.table block (λ x. x.standing ≢ Standing.Queued) }
        ensures { AtSlot self.old.table block (λ x. Edits self.old self.new block (Some (record x { standing = Standing.Nowhere })) self.old.queue 0) }
    {
        self.table.set_standing(block, Standing::Nowhere);
    }

    /// Pushes a block without a page onto a chain of such blocks, which shares the links with the queue.
    pub fn push_free(&mut self, chain: &mut FreeChain, block: u32)
        requires chain { IsFreeChain self.old.table chain.old }
        requires inside { block < length self.old.table.slots }
        requires empty { slot_at self.old.table block ≡ None }
        requires absent { ¬ Contains chain.old block }
        ensures list { chain.new ≡ block ∷ chain.old }
        ensures chain { IsFreeChain self.new.table chain.new }
        ensures same { Relinks self.old self.new 2 }
    {
        chain.push(&mut self.table, block);
    }

    /// Removes the first block from a chain of blocks without a page, and returns it, or `None` if the chain is empty.
    pub fn pop_free(&mut self, chain: &mut FreeChain) -> Option<u32>
        requires chain { IsFreeChain self.old.table chain.old }
        ensures value { result ≡ slice_get chain.old 0 }
        ensures list { chain.new ≡ drop 1 chain.old }
        ensures chain { IsFreeChain self.new.table chain.new }
        ensures same { Relinks self.old self.new 2 }
    {
        chain.pop(&mut self.table)
    }

    // The page of a block.
    #[inline(always)]
    fn page(&self, block: u32) -> &Page
        requires { IsSome (slot_at self.now.table block) }
        ensures { AtSlot self.now.table block (λ x. result.now ≡ x.page) }
    {
        self.table.occupant(block)
    }

    // Removes the page of a block from the queue, if it is there.
    fn leave_queue(&mut self, block: u32)
        requires { IsSome (slot_at self.old.table block) }
        ensures { LeavesQueue self.old self.new block }
    {
        let Standing::Queued = self.table.standing(block) else {
            return;
        };
        self.queue.remove(&mut self.table, block);
        self.table.set_standing(block, Standing::Nowhere);
    }

    // Removes a page that is not in the queue from the table.
    fn vacate(&mut self, block: u32)
        requires occupied { IsSome (slot_at self.old.table block) }
        requires outside { AtSlot self.old.table block (λ x. x.standing ≢ Standing.Queued) }
        ensures { Edits self.old self.new block None self.old.queue 0 }
    {
        self.table.clear(block);
    }
}

// The caller whose batch a page is in, if any.
fn batch_of(standing: Standing) -> Option<u32>
    ensures { result ≡ batch_left standing }
{
    match standing {
        Standing::Batch(caller) => Some(caller),
        _ => None,
    }
}

// The blocks of a queue in the table's links, oldest first. Each link pair is read once.
fn blocks_of(table: &mut PageTable, queue: &Queue, alloc: Global) -> Result<Vec<u32>, AllocError>
    requires { Stands queue.now table.old.links }
    ensures blocks { IfOk result (λ blocks. blocks.items ≡ queue.now) }
    ensures links { table.new.links ≡ table.old.links }
    ensures rest { SameSlots table.old table.new }
    ensures work { table.new.accesses ≤ table.old.accesses + length queue.now }
{
    let mut blocks = Vec::with_capacity(alloc, queue.len() as usize)?;
    let Some(mut block) = queue.front() else {
        return Ok(blocks);
    };
    for _place in 0..queue.len() {
        blocks.push_reserved(block);
        block = table.link(block).next;
    }
    Ok(blocks)
}
