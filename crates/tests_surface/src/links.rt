//! Lists by index over the table of pages.
ghost use Rattle.std.specs.Prelude.{◌≡◌, length};

use std::test::Fail;
use thp_links::{FreeChain, Link, LinkTable, NIL, Queue};
use thp_page::PageTable;

// A queue passes its calls.
fn queued(table: &mut PageTable) -> bool
    requires { length table.old.links ≡ 4 }
{
    let mut queue = Queue::new();
    queue.push_back(table, 2);
    queue.push_back(table, 0);
    queue.push_back(table, 3);
    queue.remove(table, 0);
    let front = queue.front();
    let len = queue.len();
    front == Some(2) && len == 2 && queue.pop_front(table) == Some(2)
}

// A chain does, too.
fn chained(table: &mut PageTable) -> bool
    requires { length table.old.links ≡ 4 }
{
    let mut chain = FreeChain::new();
    chain.push(table, 1);
    chain.push(table, 3);
    chain.pop(table) == Some(3)
}

// A pair of a table is read as it was set.
fn paired<T: LinkTable>(table: &mut T) -> bool
    requires { length (T.links table.old) ≡ 4 }
{
    let link = Link { prev: 1, next: NIL };
    table.set_link(3, link);
    table.link(3) == link && table.len() == 4
}

// A table defined here, over another.
#[derive(Drop)]
struct Wrapped<T: Drop> {
    table: T,
}

impl<T: LinkTable + Drop> LinkTable for Wrapped<T> {
    ghost links = { λ t. T.links t.table };

    ghost accesses = { λ t. T.accesses t.table };

    ghost same_rest = { λ s t. T.same_rest s.table t.table };

    fn len(&self) -> u32 {
        self.table.len()
    }

    fn link(&mut self, i: u32) -> Link {
        self.table.link(i)
    }

    fn set_link(&mut self, i: u32, link: Link) {
        self.table.set_link(i, link);
    }

    ghost same_rest_refl = { λ t. T.same_rest_refl t.table };

    ghost same_rest_trans = { λ a b c p q. T.same_rest_trans a.table b.table c.table p q };
}

#[test]
fn lists_by_index(rt: HostRuntime) -> Result<(), Fail> {
    let queues = queued(&mut PageTable::new(rt.alloc(), 4, 9)?);
    let chains = chained(&mut PageTable::new(rt.alloc(), 4, 9)?);
    let pairs = paired(&mut PageTable::new(rt.alloc(), 4, 9)?);
    let mut wrapped = Wrapped {
        table: PageTable::new(rt.alloc(), 4, 9)?,
    };
    assert!(rt; queues && chains && pairs && paired(&mut wrapped));
    Ok(())
}
