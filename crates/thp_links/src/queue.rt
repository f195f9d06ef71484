//! A queue of indices: first in, first out, with removal from any position.
ghost use Rattle.std.specs.Prelude.{◌≡◌, ℕ, ◌+◌, ◌<◌, ◌≤◌, List, [], ◌∷◌, ◌++◌, length, drop, slice_get, Option, Some, None, IfSome, IfNone, Contains};
ghost use Rattle.thp_links.specs.Prelude.{SameOutside, Stands, without_index};

use crate::index_list::{Edit, IndexList};
use crate::link::{Link, NIL};
use crate::table::{LinkTable, set_next, set_prev};
use std::marker::Model;

/// A first-in, first-out queue of indices, doubly linked through a table that is passed to each call.
///
/// It is the deferred split queue of a node (`mm/transhuge.rst`, "Partial unmap and deferred_split_huge_page()"): a page that is
/// freed must be removable at once from any position. The order of entry is this project's profile.
///
/// Contracts see the list of the indices, oldest first. Every call that is given the table requires the links to hold this list,
/// and preserves that. No call allocates memory, and each makes a constant number of accesses.
#[derive(Drop)]
pub struct Queue {
    // The oldest index, or `NIL`.
    head: u32,
    // The newest index, or `NIL`.
    tail: u32,
    // The number of indices in the queue.
    len: u32,
    // The indices in order, for contracts.
    list: IndexList,
}

impl Model for Queue {
    ghost use Rattle.std.specs.Prelude.{ℕ, List};
    ghost use Rattle.thp_links.specs.Ends.{HasEnds};

    ghost Value = { List ℕ };

    ghost view = { λ q. q.list };

    ghost invariant = { λ q. HasEnds q.head q.tail q.len q.list };
}

impl Queue {
    /// Returns an empty queue, which is valid for every table.
    pub fn new() -> Queue
        ensures { result ≡ [] }
    {
        Queue {
            head: NIL,
            tail: NIL,
            len: 0,
            list: IndexList::new(),
        }
    }

    /// Appends index `i` at the tail.
    pub fn push_back<T: LinkTable>(&mut self, table: &mut T, i: u32)
        requires stands { Stands self.old (T.links table.old) }
        requires inside { i < length (T.links table.old) }
        requires absent { ¬ Contains self.old i }
        ensures list { self.new ≡ self.old ++ i ∷ [] }
        ensures stands { Stands self.new (T.links table.new) }

        // All other pairs and the rest of the table are unchanged.
        ensures outside { SameOutside self.new (T.links table.old) (T.links table.new) }
        ensures rest { T.same_rest table.old table.new }
        ensures accesses { T.accesses table.new ≤ T.accesses table.old + 4 }
    {
        // Shows the proof that every index is below `NIL`, as in the calls below.
        let _count = table.len();
        let prev = self.tail;
        set_next(table, prev, i);
        table.set_link(i, Link { prev, next: NIL });
        let head = if self.len == 0 { i } else { self.head };
        self.head = head;
        self.tail = i;
        self.len += 1;
        self.list.apply(Edit::Append(i));
    }

    /// Removes index `i` from any position. The other indices keep their order.
    pub fn remove<T: LinkTable>(&mut self, table: &mut T, i: u32)
        requires stands { Stands self.old (T.links table.old) }
        requires present { Contains self.old i }
        ensures list { self.new ≡ without_index i self.old }
        ensures stands { Stands self.new (T.links table.new) }

        // All other pairs and the rest of the table are unchanged.
        ensures outside { SameOutside self.old (T.links table.old) (T.links table.new) }
        ensures rest { T.same_rest table.old table.new }
        ensures accesses { T.accesses table.new ≤ T.accesses table.old + 6 }
    {
        let _count = table.len();
        let Link { prev, next } = table.link(i);
        set_next(table, prev, next);
        set_prev(table, next, prev);
        let head = if prev == NIL { next } else { self.head };
        let tail = if next == NIL { prev } else { self.tail };
        self.head = head;
        self.tail = tail;
        self.len -= 1;
        self.list.apply(Edit::Remove(i));
    }

    /// Removes the oldest index and returns it, or `None` if the queue is empty.
    pub fn pop_front<T: LinkTable>(&mut self, table: &mut T) -> Option<u32>
        requires stands { Stands self.old (T.links table.old) }
        ensures value { result ≡ slice_get self.old 0 }
        ensures inside { IfSome result (λ i. i < length (T.links table.new)) }
        ensures list { self.new ≡ drop 1 self.old }
        ensures stands { Stands self.new (T.links table.new) }
        ensures none { IfNone result (table.new ≡ table.old) }

        // All other pairs and the rest of the table are unchanged.
        ensures outside { SameOutside self.old (T.links table.old) (T.links table.new) }
        ensures rest { T.same_rest table.old table.new }
        ensures accesses { T.accesses table.new ≤ T.accesses table.old + 4 }
    {
        let _count = table.len();
        let i = self.front()?;
        let next = table.link(i).next;
        set_prev(table, next, NIL);
        let tail = if next == NIL { NIL } else { self.tail };
        self.head = next;
        self.tail = tail;
        self.len -= 1;
        self.list.apply(Edit::RemoveFirst);
        Some(i)
    }

    /// Returns the oldest index, if any.
    pub fn front(&self) -> Option<u32>
        ensures { result ≡ slice_get self.now 0 }
    {
        if self.len == 0 { None } else { Some(self.head) }
    }

    /// Returns the number of indices in the queue.
    pub fn len(&self) -> u32
        ensures { result ≡ length self.now }
    {
        self.len
    }
}
