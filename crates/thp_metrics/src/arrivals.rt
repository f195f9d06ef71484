//! The order in which pages began to wait, by block.
ghost use Rattle.std.specs.Prelude.{◌≡◌, ◌<◌, [], ◌∷◌, ◌++◌, length, slice_set, Contains, IfOk};
ghost use Rattle.thp_links.specs.Prelude.{without_index};
ghost use Rattle.thp_metrics.specs.Arrivals.{first_since, since_of};

use std::alloc::{AllocError, Global};
use std::marker::Model;
use thp_links::{LinkVec, Queue};

// The blocks of the pages that wait, in the order in which they began to, and the number of the event with which each began.
#[derive(Drop)]
pub(crate) struct Arrivals {
    order: Queue,
    links: LinkVec,
    // by block; arbitrary for a block whose page does not wait
    since: Vec<u64>,
}

impl Model for Arrivals {
    ghost use Rattle.thp_metrics.specs.Arrivals.{Arrived, OrderIsLinked};

    ghost Value = { Arrived };

    ghost view = { λ a. record { order = a.order; since = a.since.items } };

    ghost invariant = { λ a. OrderIsLinked a.order a.since.items a.links.pairs };
}

impl Arrivals {
    // No page waits, on a node of `blocks` blocks. Allocates all memory that the pages will need.
    pub(crate) fn new(alloc: Global, blocks: u32) -> Result<Arrivals, AllocError>
        ensures none { IfOk result (λ a. a.order ≡ []) }
        ensures size { IfOk result (λ a. length a.since ≡ blocks) }
    {
        Ok(Arrivals {
            order: Queue::new(),
            links: LinkVec::new(alloc, blocks)?,
            since: vec![in alloc; 0; blocks as usize]?,
        })
    }

    // The page of a block begins to wait, with the event of this number.
    pub(crate) fn come(&mut self, block: u32, event: u64)
        requires inside { block < length self.old.since }
        requires absent { Contains self.old.order block → ⊥ }
        ensures order { self.new.order ≡ self.old.order ++ block ∷ [] }
        ensures since { self.new.since ≡ slice_set self.old.since block event }
    {
        self.order.push_back(&mut self.links, block);
        self.since[block as usize] = event;
    }

    // The page of a block no longer waits.
    pub(crate) fn go(&mut self, block: u32)
        requires { Contains self.old.order block }
        ensures order { self.new.order ≡ without_index block self.old.order }
        ensures since { self.new.since ≡ self.old.since }
    {
        self.order.remove(&mut self.links, block);
    }

    // The blocks of the pages that wait, in the order in which they began to.
    pub(crate) fn blocks(&self, alloc: Global) -> Result<Vec<u32>, AllocError>
        ensures { IfOk result (λ blocks. blocks.items ≡ self.now.order) }
    {
        let mut blocks = Vec::new(alloc);
        let mut block = match self.order.front() {
            Some(block) => block,
            None => return Ok(blocks),
        };
        for _place in 0..self.order.len() {
            blocks.push(block)?;
            block = self.links.peek_next(block);
        }
        Ok(blocks)
    }

    // The number of the event with which the waiting page of a block began to wait.
    pub(crate) fn since(&self, block: u32) -> u64
        requires { block < length self.now.since }
        ensures { result ≡ since_of self.now block }
    {
        self.since[block as usize]
    }

    // The number of the event with which the longest waiting page began to wait.
    pub(crate) fn first(&self) -> Option<u64>
        ensures { result ≡ first_since self.now }
    {
        let block = self.order.front()?;
        Some(self.since[block as usize])
    }
}
