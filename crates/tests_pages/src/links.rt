//! Lists in a table of pairs, with expected values written out, and two lists in one table.
ghost use Rattle.std.specs.Prelude.{◌≡◌, ◌+◌, ◌≤◌, ⊤, [], ◌∷◌, ◌++◌, length, slice_get, vec_len, Contains, IfOk, IfSome};
ghost use Rattle.thp_links.specs.Prelude.{Apart, without_index, Stands, ChainStands};

use crate::counting::calls_counted;
use crate::equal::expect_equal;
use std::alloc::{AllocError, Global};
use std::process::Abort;
use std::test::Fail;
use thp_links::{AccessCount, FreeChain, Link, LinkTable, NIL, Queue};

// A table of pairs alone.
#[derive(Drop)]
struct Pairs {
    pairs: Vec<Link>,
    accesses: AccessCount,
    ghost small: { vec_len pairs ≤ 4096 },
}

impl Pairs {
    fn new(alloc: Global, len: u32) -> Result<Pairs, AllocError>
        requires { len ≤ 4096 }
        ensures { IfOk result (λ t. length t.pairs.items ≡ len) }
    {
        let alone = Link {
            prev: NIL,
            next: NIL,
        };
        Ok(Pairs {
            pairs: vec![in alloc; alone; len as usize]?,
            accesses: AccessCount::new(),
        })
    }
}

impl LinkTable for Pairs {
    ghost links = { λ t. t.pairs.items };

    ghost accesses = { λ t. t.accesses };

    ghost same_rest = { λ _ _. ⊤ };

    fn len(&self) -> u32 {
        self.pairs.len() as u32
    }

    fn link(&mut self, i: u32) -> Link {
        self.accesses.step();
        self.pairs[i as usize]
    }

    fn set_link(&mut self, i: u32, link: Link) {
        self.accesses.step();
        self.pairs[i as usize] = link;
    }

    ghost same_rest_refl = { λ t. tt };

    ghost same_rest_trans = { λ a b c p q. tt };
}

// A queue of the indices 2, 0 and 3, in this order.
fn queue_of_three(table: &mut Pairs) -> Queue
    requires { length table.old.pairs.items ≡ 4 }
    ensures list { result ≡ 2 ∷ 0 ∷ 3 ∷ [] }
    ensures stands { Stands result table.new.pairs.items }
    ensures size { length table.new.pairs.items ≡ 4 }
{
    let mut queue = Queue::new();
    queue.push_back(table, 2);
    queue.push_back(table, 0);
    queue.push_back(table, 3);
    queue
}

// A queue of 3 passes its calls with the results written out here.
fn queue_by_hand(rt: &impl Abort, table: &mut Pairs)
    requires { length table.old.pairs.items ≡ 4 }
{
    let mut queue = queue_of_three(table);
    expect_equal(rt, queue.len(), 3);
    queue.remove(table, 0);
    expect_equal(rt, queue.pop_front(table), Some(2));
    expect_equal(rt, queue.pop_front(table), Some(3));
    expect_equal(rt, queue.pop_front(table), None);
    expect_equal(rt, queue.front(), None);
    queue.push_back(table, 0);
    expect_equal(rt, queue.front(), Some(0));
}

// The same for a chain.
fn chain_by_hand(rt: &impl Abort, table: &mut Pairs)
    requires { length table.old.pairs.items ≡ 4 }
{
    let mut chain = FreeChain::new();
    chain.push(table, 1);
    chain.push(table, 3);
    expect_equal(rt, chain.first(), Some(3));
    expect_equal(rt, chain.pop(table), Some(3));
    expect_equal(rt, chain.pop(table), Some(1));
    expect_equal(rt, chain.pop(table), None);
}

#[test]
fn links_by_hand(rt: HostRuntime) -> Result<(), Fail> {
    queue_by_hand(&rt, &mut Pairs::new(rt.alloc(), 4)?);
    chain_by_hand(&rt, &mut Pairs::new(rt.alloc(), 4)?);
    Ok(())
}

// No call walks the queue.
#[test]
fn accesses_counted(rt: HostRuntime) -> Result<(), Fail> {
    calls_counted(&rt, Pairs::new(rt.alloc(), 3)?, 1);
    calls_counted(&rt, Pairs::new(rt.alloc(), 4096)?, 2048);
    Ok(())
}

// Moves the first free index to the end of the queue, in one table.
fn enqueue_free<T: LinkTable>(table: &mut T, free: &mut FreeChain, queue: &mut Queue) -> Option<u32>
    requires queue_stands { Stands queue.old (T.links table.old) }
    requires free_stands { ChainStands free.old (T.links table.old) }
    requires apart { Apart queue.old free.old }
    ensures taken { result ≡ slice_get free.old 0 }
    ensures queue { IfSome result (λ i. queue.new ≡ queue.old ++ i ∷ []) }
    ensures queue_stands { Stands queue.new (T.links table.new) }
    ensures free_stands { ChainStands free.new (T.links table.new) }
    ensures apart { Apart queue.new free.new }
    ensures rest { T.same_rest table.old table.new }
    ensures accesses { T.accesses table.new ≤ T.accesses table.old + 6 }
{
    let i = free.pop(table)?;
    queue.push_back(table, i);
    Some(i)
}

// Removes an index from the queue, and makes it the first free one, in one table.
fn release<T: LinkTable>(table: &mut T, free: &mut FreeChain, queue: &mut Queue, i: u32)
    requires queue_stands { Stands queue.old (T.links table.old) }
    requires free_stands { ChainStands free.old (T.links table.old) }
    requires apart { Apart queue.old free.old }
    requires queued { Contains queue.old i }
    ensures queue { queue.new ≡ without_index i queue.old }
    ensures free { free.new ≡ i ∷ free.old }
    ensures queue_stands { Stands queue.new (T.links table.new) }
    ensures free_stands { ChainStands free.new (T.links table.new) }
    ensures apart { Apart queue.new free.new }
    ensures rest { T.same_rest table.old table.new }
    ensures accesses { T.accesses table.new ≤ T.accesses table.old + 8 }
{
    queue.remove(table, i);
    free.push(table, i);
}

// A block moves from the free chain to the queue and back.
fn there_and_back(rt: &impl Abort, table: &mut Pairs)
    requires { length table.old.pairs.items ≡ 4 }
{
    let mut free = FreeChain::new();
    let mut queue = Queue::new();
    free.push(table, 2);
    free.push(table, 3);
    assert!(rt; enqueue_free(table, &mut free, &mut queue) == Some(3));
    expect_equal(rt, (queue.front(), free.first()), (Some(3), Some(2)));
    release(table, &mut free, &mut queue, 3);
    expect_equal(rt, (queue.front(), free.first()), (None, Some(3)));
}

#[test]
fn one_table_serves_both(rt: HostRuntime) -> Result<(), Fail> {
    there_and_back(&rt, &mut Pairs::new(rt.alloc(), 4)?);
    Ok(())
}
