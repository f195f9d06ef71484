//! The number of the page in each block, and the block of a number.
ghost use Rattle.std.specs.Prelude.{◌≡◌, ◌≢◌, ◌<◌, ◌≤◌, ◌+◌, ◌-◌, ◌++◌, ℕ, length, replicate, slice_index_or, slice_set, IsSome, IfOk, IfSome, IfNone, Some, None};
ghost use Rattle.thp_page.specs.Searching.{HasTreeRoom, IsSearchable};

use crate::number_trees::NumberTrees;
use std::alloc::{AllocError, Global};
use std::marker::Model;
use thp_history::PageId;

// The numbers of the pages of a table, by block.
#[derive(Drop)]
pub(crate) struct PageNumbers {
    blocks: u32,
    // The numbers of the blocks up to the highest one used so far; the blocks above it have none.
    trees: NumberTrees,
}

impl Model for PageNumbers {
    ghost use Rattle.std.specs.Prelude.{ℕ, List, Option, None};
    ghost use Rattle.thp_page.specs.Padding.{padded};
    ghost use Rattle.thp_page.specs.Searching.{HasTreeRoom, IsSearchable};

    ghost Value = { List (Option ℕ) };

    ghost view = { λ p. padded p.blocks None p.trees.numbers.items };

    ghost invariant = { λ p. IsSearchable p.trees × HasTreeRoom p.blocks p.trees };
}

impl PageNumbers {
    // A table whose blocks have no numbers.
    pub(crate) fn new(alloc: Global, blocks: u32) -> Result<PageNumbers, AllocError>
        ensures { IfOk result (λ p. p ≡ replicate blocks None) }
    {
        Ok(PageNumbers {
            blocks,
            trees: NumberTrees::new(alloc, blocks)?,
        })
    }

    // The number in a block.
    #[inline(always)]
    pub(crate) fn at(&self, block: u32) -> Option<PageId>
        requires { block < length self.now }
        ensures { result ≡ slice_index_or self.now block None }
    {
        if block as usize >= self.trees.numbers.len() {
            return None;
        }
        self.trees.numbers[block as usize]
    }

    // The number in a block that has one.
    pub(crate) fn number(&self, block: u32) -> PageId
        requires { IsSome (slice_index_or self.now block None) }
        ensures { slice_index_or self.now block None ≡ Some result }
    {
        match self.trees.numbers[block as usize] {
            Some(id) => id,
            None => unreachable!(),
        }
    }

    // Sets the number of a block that has none.
    pub(crate) fn place(&mut self, block: u32, id: PageId)
        requires inside { block < length self.old }
        requires empty { slice_index_or self.old block None ≡ None }
        requires new { (b : ℕ) → slice_index_or self.old b None ≢ Some id }
        ensures { self.new ≡ slice_set self.old block (Some id) }
    {
        reach(&mut self.trees, self.blocks, block);
        self.trees.place(block, id);
    }

    // Clears the number of a block.
    pub(crate) fn clear(&mut self, block: u32)
        requires inside { block < length self.old }
        requires taken { IsSome (slice_index_or self.old block None) }
        ensures { self.new ≡ slice_set self.old block None }
    {
        let Some(id) = self.at(block) else {
            unreachable!()
        };
        self.trees.clear(block, id);
    }

    // The block with this number, if any.
    #[inline(always)]
    pub(crate) fn block_of(&self, id: PageId) -> Option<u32>
        ensures found { IfSome result (λ b. slice_index_or self.now b None ≡ Some id) }
        ensures inside { IfSome result (λ b. b < length self.now) }
        ensures absent { IfNone result ((b : ℕ) → slice_index_or self.now b None ≢ Some id) }
    {
        self.trees.block_of(id)
    }
}

// Adds blocks without numbers up to this one, of so many, if it isn't there.
#[inline(always)]
fn reach(trees: &mut NumberTrees, blocks: u32, block: u32)
    requires searchable { IsSearchable trees.old }
    requires room { HasTreeRoom blocks trees.old }
    requires inside { block < blocks }
    ensures searchable { IsSearchable trees.new }
    ensures grown { trees.new.numbers.items ≡ trees.old.numbers.items ++ replicate (block + 1 - length trees.old.numbers.items) None }
    ensures room { HasTreeRoom blocks trees.new }
{
    if block as usize >= trees.numbers.len() {
        extend(trees, blocks, block);
    }
}

// The same where it isn't there.
#[inline(never)]
fn extend(trees: &mut NumberTrees, blocks: u32, block: u32)
    requires searchable { IsSearchable trees.old }
    requires room { HasTreeRoom blocks trees.old }
    requires inside { block < blocks }
    requires absent { length trees.old.numbers.items ≤ block }
    ensures searchable { IsSearchable trees.new }
    ensures grown { trees.new.numbers.items ≡ trees.old.numbers.items ++ replicate (block + 1 - length trees.old.numbers.items) None }
    ensures room { HasTreeRoom blocks trees.new }
{
    while trees.numbers.len() <= block as usize {
        trees.push(blocks);
    }
}
