//! The least free block for each allocation.
ghost use Rattle.std.specs.Prelude.{◌≡◌, ◌<◌, ◌≤◌, Some, [], ◌∷◌, ◌++◌, IfOk, OnOk, OnErr};
ghost use Rattle.thp_journal_reader.specs.Freeing.{freed_page, IsInside};
ghost use Rattle.thp_journal_reader.specs.BlocksState.{blocks_with};
ghost use Rattle.thp_history.specs.Prelude.{event_with, least_free};

use crate::page_blocks::{BlockHolders, PageBlocks};
use std::alloc::{AllocError, Global};
use std::marker::Model;
use thp_history::{Event, PageId, Shape, Trace, What};
use thp_live_pages::freed_page;

/// Follows a node's events and chooses the blocks of their allocations: each page gets the least block that no page holds, or
/// block 0 if every block is held.
///
/// Contracts see the node's shape and the events so far, with their blocks. The events need not be legal: a page holds its block
/// from the allocation to the next event that frees it. A page that is allocated twice holds both blocks until then.
#[derive(Drop)]
pub struct LeastBlocks {
    shape: Shape,
    past: Trace<Event>,
    holders: BlockHolders,
    pages: PageBlocks,
}

impl Model for LeastBlocks {
    ghost use Rattle.thp_journal_reader.specs.BlocksState.{BlocksState};

    ghost Value = { BlocksState };

    ghost use Rattle.thp_journal_reader.specs.Prelude.{last_allocation, KeepsBlocks};

    ghost view = { λ b. record { shape = b.shape; history = b.past } };

    ghost invariant = { λ b. KeepsBlocks b.shape b.past b.holders (last_allocation b.pages.last) b.pages.allocations.items };
}

impl LeastBlocks {
    /// Creates the state before the first event, on a node of this shape. Fails if memory for its blocks can't be allocated.
    pub fn new(alloc: Global, shape: Shape) -> Result<LeastBlocks, AllocError>
        requires { 1 ≤ shape.blocks }
        ensures shape { IfOk result (λ b. b.shape ≡ shape) }
        ensures none { IfOk result (λ b. b.history ≡ []) }
    {
        let holders = BlockHolders::new(alloc, shape.blocks)?;
        Ok(LeastBlocks {
            shape,
            past: Trace::new(),
            holders,
            pages: PageBlocks::new(alloc),
        })
    }

    /// Adds an event to the events so far, and returns it; an allocation gets the least free block. Fails if memory for its page
    /// can't be allocated, and then changes nothing.
    pub fn place(&mut self, event: Event) -> Result<Event, AllocError>
        ensures placed { IfOk result (λ e. e ≡ event_with (least_free self.old.shape self.old.history) event) }
        ensures shape { self.new.shape ≡ self.old.shape }
        ensures history { IfOk result (λ e. self.new.history ≡ self.old.history ++ e ∷ []) }
        ensures failed { OnErr result (self.new ≡ self.old) }
    {
        let placed = self.with_block(&event);
        self.note(&placed)?;
        Ok(placed)
    }

    // The event; an allocation gets the least free block.
    fn with_block(&self, event: &Event) -> Event
        ensures placed { result ≡ event_with (least_free self.now.shape self.now.history) event.now }
        ensures inside { IsInside self.now.shape.blocks result.what }
    {
        match event.what {
            What::Alloc { page, .. } => {
                let block = self.holders.least();
                Event {
                    caller: event.caller,
                    what: What::Alloc { page, block },
                }
            }
            _ => *event,
        }
    }

    // Adds the event; an allocation has a block of the node.
    fn note(&mut self, event: &Event) -> Result<(), AllocError>
        requires { IsInside self.old.shape.blocks event.now.what }
        ensures noted { OnOk result (self.new ≡ blocks_with self.old event.now) }
        ensures failed { OnErr result (self.new ≡ self.old) }
    {
        if let What::Alloc { page, block } = event.what {
            return self.note_alloc(event, page, block);
        }
        if let Some(page) = freed_page(&event.what) {
            return self.note_freed(event, page);
        }
        self.past.push(event);
        Ok(())
    }

    // Records that the event allocates the page in the block.
    fn note_alloc(&mut self, event: &Event, page: PageId, block: u32) -> Result<(), AllocError>
        requires is_so { event.now.what ≡ What.Alloc page block }
        requires inside { block < self.old.shape.blocks }
        ensures noted { OnOk result (self.new ≡ blocks_with self.old event.now) }
        ensures failed { OnErr result (self.new ≡ self.old) }
    {
        let before = self.pages.last.find(page);
        self.pages.add(page, block, before)?;
        self.holders.hold(block);
        self.past.push(event);
        Ok(())
    }

    // Records that the event frees the page.
    fn note_freed(&mut self, event: &Event, page: PageId) -> Result<(), AllocError>
        requires frees { freed_page event.now.what ≡ Some page }
        ensures noted { OnOk result (self.new ≡ blocks_with self.old event.now) }
        ensures failed { OnErr result (self.new ≡ self.old) }
    {
        let last = self.pages.last.find(page);
        if last.is_none() {
            self.past.push(event);
            return Ok(());
        }
        self.pages.last.set(page, None)?;
        self.pages.give_back(last, &mut self.holders);
        self.past.push(event);
        Ok(())
    }
}
