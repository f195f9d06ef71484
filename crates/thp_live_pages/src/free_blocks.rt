//! The free blocks of a node.
ghost use Rattle.std.specs.Prelude.{◌≡◌, ◌<◌, ◌≤◌, ◌&&◌, ℕ, cond, nat_eq, nat_lt, not, true, false, IfOk, IfSome, IfNone};
ghost use Rattle.thp_live_pages.specs.FreeSets.{has_block};

use crate::least_set::LeastSet;
use crate::summed_set::SummedSet;
use crate::word_set::WordSet;
use std::alloc::{AllocError, Global};
use std::marker::Model;

/// A set of a node's blocks. Its least block is found in constant time, and it takes memory up to the greatest block that was ever
/// removed. Contracts see the number of blocks, and whether a block is in the set.
#[derive(Drop)]
pub struct FreeBlocks {
    count: u32,
    // blocks from here on were never removed
    used: u32,
    // the blocks below that are in the set
    freed: SummedSet<SummedSet<WordSet>>,
}

impl Model for FreeBlocks {
    ghost use Rattle.std.specs.Prelude.{◌*◌, length};
    ghost use Rattle.thp_live_pages.specs.FreeSets.{FreeSet, IsFreedBelow};

    ghost Value = { FreeSet };

    ghost view = { λ f. record { blocks = f.count; used = f.used; freed = f.freed } };

    ghost invariant = { λ f. IsFreedBelow (record { blocks = f.count; used = f.used; freed = f.freed }) };
}

impl FreeBlocks {
    /// Creates the set of all blocks below `count`. Fails if its memory can't be reserved.
    pub fn new(alloc: Global, count: u32) -> Result<FreeBlocks, AllocError>
        ensures all { IfOk result (λ f. (b : ℕ) → has_block f b ≡ nat_lt b count) }
        ensures blocks { IfOk result (λ f. f.blocks ≡ count) }
    {
        Ok(FreeBlocks {
            count,
            used: 0,
            freed: SummedSet::new(alloc, count)?,
        })
    }

    /// Inserts a block into the set.
    pub fn insert(&mut self, block: u32)
        requires { block < self.old.blocks }
        ensures with_it { (b : ℕ) → has_block self.new b ≡ cond (nat_eq b block) true (has_block self.old b) }
        ensures blocks { self.new.blocks ≡ self.old.blocks }
    {
        if block < self.used {
            self.freed.insert(block);
        }
    }

    /// Removes a block from the set.
    pub fn remove(&mut self, block: u32)
        requires { block < self.old.blocks }
        ensures without_it { (b : ℕ) → has_block self.new b ≡ cond (nat_eq b block) false (has_block self.old b) }
        ensures blocks { self.new.blocks ≡ self.old.blocks }
    {
        if block < self.used {
            self.freed.remove(block);
        } else {
            insert_between(&mut self.freed, self.used, block);
            self.used = block + 1;
        }
    }

    /// Returns the least block of the set, if any.
    pub fn least(&self) -> Option<u32>
        ensures there { IfSome result (λ b. has_block self.now b ≡ true) }
        ensures least { IfSome result (λ b. (k : ℕ) → k < b → has_block self.now k ≡ false) }
        ensures none { IfNone result ((k : ℕ) → has_block self.now k ≡ false) }
    {
        if let Some(block) = self.freed.least() {
            return Some(block);
        }
        if self.used == self.count {
            return None;
        }
        Some(self.used)
    }
}

// Inserts the numbers from `first` to `end` - 1.
fn insert_between<S: LeastSet>(set: &mut S, first: u32, end: u32)
    requires room { end ≤ S.room set.old }
    requires order { first ≤ end }
    ensures with_them { (k : ℕ) → S.has set.new k ≡ cond (not (nat_lt k first) && nat_lt k end) true (S.has set.old k) }
    ensures room { S.room set.new ≡ S.room set.old }
{
    for i in first..end {
        set.insert(i);
    }
}
