//! The blocks of a node: the pages in them, and the free ones.
ghost use Rattle.std.specs.Prelude.{◌≡◌, ◌≢◌, ℕ, ◌<◌, [], ◌∷◌, ◌++◌, false, length, Option, Some, None, IsSome, IfOk, OnOk, OnErr};
ghost use Rattle.std.specs.Bool.{OnTrue, OnFalse};
ghost use Rattle.std.specs.Result.{result_err};
ghost use Rattle.thp_history.specs.Prelude.{IsNodeShape, page_refusal, gives_frames, PageState, PageSplit, gain_call, loss_call, Gains};
ghost use Rattle.thp_page.specs.Prelude.{slot_at, HoldsPage};
ghost use Rattle.thp_live_pages.specs.Prelude.{AtSlot, Edits, TakesFirst, HasFree};
ghost use Rattle.thp_node.specs.Chaining.{LostChained, StoresFresh};

use std::alloc::{AllocError, Global};
use std::marker::Model;
use thp_history::{Done, Gain, Loss, Outcome, PageId, Refusal, Shape, SubSet};
use thp_links::FreeChain;
use thp_live_pages::PageStore;
use thp_page::Standing;

// The pages of a node by block, with its queue, and the chain of its freed blocks, which shares the queue's links.
//
// Blocks are first used in ascending order, so that memory is taken for no block before. A block used before is in the chain
// exactly if it has no page.
#[derive(Drop)]
pub(crate) struct Blocks {
    places: PageStore,
    free: FreeChain,
    // the number of blocks that were used before: those below
    used: u32,
    // the number of all blocks
    count: u32,
}

impl Model for Blocks {
    ghost use Rattle.thp_live_pages.specs.Prelude.{PageStoreState};
    ghost use Rattle.thp_node.specs.Chaining.{HasChain};

    ghost Value = { PageStoreState };

    ghost view = { λ b. b.places };

    ghost invariant = { λ b. HasChain b.places.table b.used b.count b.free };
}

impl Blocks {
    // A table of blocks without pages, none used before.
    pub(crate) fn new(alloc: Global, shape: Shape) -> Result<Blocks, AllocError>
        requires { IsNodeShape shape }
        ensures size { IfOk result (λ b. length b.table.slots ≡ shape.blocks) }
        ensures order { IfOk result (λ b. b.table.order ≡ shape.order) }
        ensures empty { IfOk result (λ b. (i : ℕ) → slot_at b.table i ≡ None) }
        ensures queue { IfOk result (λ b. b.queue ≡ []) }
    {
        Ok(Blocks {
            places: PageStore::new(alloc, shape)?,
            free: FreeChain::new(),
            used: 0,
            count: shape.blocks,
        })
    }

    // The pages with their queue, to be read.
    #[inline(always)]
    pub(crate) fn store(&self) -> &PageStore
        ensures { result.now ≡ self.now }
    {
        &self.places
    }

    // Adds mappings or a pin, or fills subpages of the page of a block, unless the page refuses that.
    #[inline(always)]
    pub(crate) fn gain(&mut self, block: u32, gain: Gain) -> Result<(), Refusal>
        requires occupied { IsSome (slot_at self.old.table block) }
        ensures refusal { AtSlot self.old.table block (λ x. (p : ℕ) → result_err result ≡ page_refusal x.page (gain_call gain p)) }
        ensures gained { OnOk result (AtSlot self.old.table block (λ x. (p : PageState) × Gains gain x.page p × Edits self.old self.new block (Some (record x { page = p })) self.old.queue 0)) }
        ensures kept { OnErr result (self.new ≡ self.old) }
    {
        self.places.gain(block, gain)?;
        Ok(())
    }

    // Removes mappings or a pin of the page of a block, unless the page refuses that, and then queues the page, frees it, or
    // leaves it where it is. Returns that outcome, the frames given back, and the caller whose batch the page left.
    #[inline(always)]
    pub(crate) fn lose(
        &mut self,
        block: u32,
        loss: Loss,
        closed: bool,
        done: &mut Done,
    ) -> Result<Option<u32>, Refusal>
        requires occupied { IsSome (slot_at self.old.table block) }
        ensures refusal { AtSlot self.old.table block (λ x. (p : ℕ) → result_err result ≡ page_refusal x.page (loss_call loss p)) }
        ensures lost { IfOk result (λ left. AtSlot self.old.table block (λ x. LostChained loss closed x self.old self.new block done.new left)) }
        ensures kept { OnErr result (self.new ≡ self.old) }
    {
        let left = self.places.lose(block, loss, closed, done)?;
        if let Outcome::Freed = done.outcome {
            self.places.push_free(&mut self.free, block);
        }
        Ok(left)
    }

    // Takes the oldest page of the queue into a caller's batch.
    pub(crate) fn take_first(&mut self, caller: u32) -> PageId
        requires { 0 < length self.old.queue }
        ensures { TakesFirst self.old self.new caller result }
    {
        self.places.take_first(caller)
    }

    // Splits the page of a block, which is in a batch, and removes it from the batch. Returns the frames given back, which
    // include those of zero-filled subpages if `give_zero` is true.
    pub(crate) fn split(&mut self, block: u32, give_zero: bool) -> SubSet
        requires occupied { IsSome (slot_at self.old.table block) }
        requires allowed { AtSlot self.old.table block (λ x. (x.page.split ≡ false) × (x.page.pins ≡ 0) × (x.standing ≢ Standing.Queued)) }
        ensures { AtSlot self.old.table block (λ x. (p : PageState) × PageSplit give_zero x.page p × (result ≡ gives_frames x.page p) × Edits self.old self.new block (Some (record x { page = p; standing = Standing.Nowhere })) self.old.queue 0) }
    {
        self.places.split(block, give_zero)
    }

    // Appends the page of a block, which is not in the queue, to the queue.
    pub(crate) fn enqueue(&mut self, block: u32)
        requires occupied { IsSome (slot_at self.old.table block) }
        requires outside { AtSlot self.old.table block (λ x. x.standing ≢ Standing.Queued) }
        ensures { AtSlot self.old.table block (λ x. Edits self.old self.new block (Some (record x { standing = Standing.Queued })) (self.old.queue ++ block ∷ []) 4) }
    {
        self.places.enqueue(block);
    }

    // Removes the page of a block, which is not in the queue, from its batch.
    pub(crate) fn drop_out(&mut self, block: u32)
        requires occupied { IsSome (slot_at self.old.table block) }
        requires outside { AtSlot self.old.table block (λ x. x.standing ≢ Standing.Queued) }
        ensures { AtSlot self.old.table block (λ x. Edits self.old self.new block (Some (record x { standing = Standing.Nowhere })) self.old.queue 0) }
    {
        self.places.drop_out(block);
    }

    // Whether a block has no page.
    pub(crate) fn has_free(&self) -> bool
        ensures some { OnTrue result (HasFree self.now.table) }
        ensures none { OnFalse result ((b : ℕ) → b < length self.now.table.slots → IsSome (slot_at self.now.table b)) }
    {
        if self.used < self.count {
            return true;
        }
        match self.free.first() {
            Some(_) => true,
            None => false,
        }
    }

    // Places a new page in a free block, and appends it to the queue if `queued` is true. Returns the block.
    pub(crate) fn place(&mut self, page: PageId, queued: bool) -> u32
        requires free { HasFree self.old.table }
        requires new { (b : ℕ) → HoldsPage (slot_at self.old.table b) page → ⊥ }
        ensures inside { result < length self.old.table.slots }
        ensures free { slot_at self.old.table result ≡ None }
        ensures placed { StoresFresh self.old self.new result page queued }
    {
        if let Some(block) = self.places.pop_free(&mut self.free) {
            self.places.place(block, page, queued);
            return block;
        }
        let unused = self.used;
        self.places.place(unused, page, queued);
        self.used += 1;
        unused
    }
}
