//! Tables that count their accesses when they run.
ghost use Rattle.std.specs.Prelude.{◌≡◌, ℕ, ◌<◌, length, Contains};
ghost use Rattle.thp_links.specs.Prelude.{Stands};

use crate::equal::expect_equal;
use std::process::Abort;
use thp_links::{Link, LinkTable, Queue};

// A table, and the accesses made to it.
#[derive(Drop)]
struct Counting<T: Drop> {
    table: T,
    made: u32,
}

impl<T: LinkTable + Drop> Counting<T> {
    // The accesses since this was called last.
    fn spent(&mut self) -> u32
        ensures { self.new ≡ record self.old { made = 0 } }
    {
        std::mem::take(&mut self.made)
    }
}

impl<T: LinkTable + Drop> LinkTable for Counting<T> {
    ghost links = { λ t. T.links t.table };

    ghost accesses = { λ t. T.accesses t.table };

    ghost same_rest = { λ s t. T.same_rest s.table t.table };

    fn len(&self) -> u32 {
        self.table.len()
    }

    fn link(&mut self, i: u32) -> Link {
        self.made = self.made.wrapping_add(1);
        self.table.link(i)
    }

    fn set_link(&mut self, i: u32, link: Link) {
        self.made = self.made.wrapping_add(1);
        self.table.set_link(i, link);
    }

    ghost same_rest_refl = { λ t. T.same_rest_refl t.table };

    ghost same_rest_trans = { λ a b c p q. T.same_rest_trans a.table b.table c.table p q };
}

// A call of this name, with this number of indices or at this one, made at most so many accesses.
fn expect_few(rt: &impl Abort, call: &str, number: u32, spent: u32, most: u32) {
    assert!(rt; spent <= most, "{call} of {number}");
}

// All indices of a table in a queue in rising order, each pushed by at most 4 accesses.
fn filled<T: LinkTable + Drop>(rt: &impl Abort, table: T) -> (Counting<T>, Queue)
    ensures size { length (T.links result.0.table) ≡ length (T.links table) }
    ensures stands { Stands result.1 (T.links result.0.table) }
    ensures all { (i : ℕ) → i < length (T.links table) → Contains result.1 i }
{
    let mut table = Counting { table, made: 0 };
    let mut queue = Queue::new();
    for i in 0..table.len() {
        queue.push_back(&mut table, i);
        expect_few(rt, "push", i, table.spent(), 4);
    }
    (table, queue)
}

// Each call on a queue of all indices of a table is within its bound, `remove` at the index `middle`.
pub(crate) fn calls_counted<T: LinkTable + Drop>(rt: &impl Abort, table: T, middle: u32)
    requires { middle < length (T.links table) }
{
    let len = table.len();
    let (mut table, mut queue) = filled(rt, table);
    queue.remove(&mut table, middle);
    expect_few(rt, "remove", len, table.spent(), 6);
    queue.push_back(&mut table, middle);
    expect_few(rt, "push_back", len, table.spent(), 4);
    expect_equal(rt, queue.pop_front(&mut table), Some(0));
    expect_few(rt, "pop_front", len, table.spent(), 4);
    expect_equal(rt, queue.len(), len - 1);
}
