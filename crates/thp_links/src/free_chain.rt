//! A chain of free indices: last in, first out.
ghost use Rattle.std.specs.Prelude.{◌≡◌, ℕ, ◌+◌, ◌<◌, ◌≤◌, List, [], ◌∷◌, length, drop, slice_get, Option, Some, None, IfSome, IfNone, Contains};
ghost use Rattle.thp_links.specs.Standing.{SameOutside, ChainStands};

use crate::index_list::{Edit, IndexList};
use crate::link::{Link, NIL};
use crate::table::LinkTable;
use std::marker::Model;

/// A chain of indices, linked through the `next` words of a table that is passed to each call.
///
/// It is the store of a node's free blocks. Its order is this project's profile: a node reuses the block that was freed last.
///
/// Contracts see the list of the indices, the last one pushed first. Every call that is given the table requires the links to
/// hold this list, and preserves that. No call allocates memory.
#[derive(Drop)]
pub struct FreeChain {
    // The first index, or `NIL`.
    head: u32,
    // The indices in order, for contracts.
    list: IndexList,
}

impl Model for FreeChain {
    ghost use Rattle.std.specs.Prelude.{ℕ, List};
    ghost use Rattle.thp_links.specs.Ends.{HasHead};

    ghost Value = { List ℕ };

    ghost view = { λ c. c.list };

    ghost invariant = { λ c. HasHead c.head c.list };
}

impl FreeChain {
    /// Returns an empty chain, which is valid for every table.
    pub fn new() -> FreeChain
        ensures { result ≡ [] }
    {
        FreeChain {
            head: NIL,
            list: IndexList::new(),
        }
    }

    /// Pushes index `i` at the head of the chain.
    pub fn push<T: LinkTable>(&mut self, table: &mut T, i: u32)
        requires stands { ChainStands self.old (T.links table.old) }
        requires inside { i < length (T.links table.old) }
        requires absent { ¬ Contains self.old i }
        ensures list { self.new ≡ i ∷ self.old }
        ensures stands { ChainStands self.new (T.links table.new) }

        // All other pairs and the rest of the table are unchanged.
        ensures outside { SameOutside self.new (T.links table.old) (T.links table.new) }
        ensures rest { T.same_rest table.old table.new }
        ensures accesses { T.accesses table.new ≤ T.accesses table.old + 2 }
    {
        // Shows the proof that every index is below `NIL`.
        let _count = table.len();
        let next = self.head;
        table.set_link(i, Link { prev: NIL, next });
        self.head = i;
        self.list.apply(Edit::Prepend(i));
    }

    /// Removes the first index and returns it, or `None` if the chain is empty.
    pub fn pop<T: LinkTable>(&mut self, table: &mut T) -> Option<u32>
        requires stands { ChainStands self.old (T.links table.old) }
        ensures value { result ≡ slice_get self.old 0 }
        ensures inside { IfSome result (λ i. i < length (T.links table.new)) }
        ensures list { self.new ≡ drop 1 self.old }
        ensures stands { ChainStands self.new (T.links table.new) }
        ensures none { IfNone result (table.new ≡ table.old) }

        // All other pairs and the rest of the table are unchanged.
        ensures outside { SameOutside self.old (T.links table.old) (T.links table.new) }
        ensures rest { T.same_rest table.old table.new }
        ensures accesses { T.accesses table.new ≤ T.accesses table.old + 2 }
    {
        let i = self.first()?;
        self.head = table.link(i).next;
        self.list.apply(Edit::RemoveFirst);
        Some(i)
    }

    /// Returns the first index, if any: the result that `pop` would have, without an access to the table.
    pub fn first(&self) -> Option<u32>
        ensures { result ≡ slice_get self.now 0 }
    {
        (self.head != NIL).then_some(self.head)
    }
}
