//! The pages that callers took from the queue and that are still in their batches, by block.
ghost use Rattle.std.specs.Prelude.{◌≡◌, ◌<◌, ◌%◌, ℕ, [], ◌∷◌, ◌++◌, cond, nat_eq, length, slice_get, IfOk, Some, Contains};
ghost use Rattle.std.specs.Option.{ForSome};
ghost use Rattle.thp_check.specs.Flights.{blocks_in, flight_left};

use std::alloc::{AllocError, Global};
use std::marker::Model;
use thp_links::{LinkVec, Queue, ReservedVec};

// The number of lists. A node has as many callers, so each of its callers has a list of its own; callers of other histories can
// share one.
const LISTS: u32 = 4096;

// The blocks of the pages in flight, in lists by the low bits of the caller, each in the order of the takes.
#[derive(Drop)]
pub(crate) struct Flights {
    // The caller of each block that is in a list; arbitrary for other blocks.
    callers: ReservedVec<u32>,
    lists: Vec<Queue>,
    links: LinkVec,
}

impl Model for Flights {
    ghost use Rattle.thp_check.specs.Flights.{FlightsState, AreLinked};

    ghost Value = { FlightsState };

    ghost view = { λ f. record { callers = f.callers; lists = f.lists.items } };

    ghost invariant = { λ f. AreLinked f.callers f.lists.items f.links.pairs };
}

impl Flights {
    // No page in flight, on a node of `blocks` blocks. Reserves all memory that the flights will need; it is taken up to the
    // greatest block in flight.
    pub(crate) fn new(alloc: Global, blocks: u32) -> Result<Flights, AllocError>
        ensures empty { IfOk result (λ f. (c : ℕ) → blocks_in f c ≡ []) }
        ensures size { IfOk result (λ f. length f.callers ≡ blocks) }
    {
        let mut lists = Vec::with_capacity(alloc, LISTS as usize)?;
        for _list in 0..LISTS {
            lists.push_reserved(Queue::new());
        }
        Ok(Flights {
            callers: ReservedVec::new(alloc, blocks, 0)?,
            lists,
            links: LinkVec::new(alloc, blocks)?,
        })
    }

    // The block of the first page of a caller's flight. The search passes only pages of other callers of the same list.
    pub(crate) fn first_of(&self, caller: u32) -> Option<u32>
        ensures { result ≡ slice_get (blocks_in self.now caller) 0 }
    {
        let list = &self.lists[list_of(caller)];
        let mut block = list.front()?;
        for _place in 0..list.len() {
            if self.callers.at(block) == caller {
                return Some(block);
            }
            block = self.links.peek_next(block);
        }
        None
    }

    // The blocks of a caller's flight, in order. The search passes pages of other callers of the same list.
    pub(crate) fn blocks_of(&self, alloc: Global, caller: u32) -> Result<Vec<u32>, AllocError>
        ensures { IfOk result (λ blocks. blocks.items ≡ blocks_in self.now caller) }
    {
        let list = &self.lists[list_of(caller)];
        let mut blocks = Vec::new(alloc);
        let mut block = match list.front() {
            Some(block) => block,
            None => return Ok(blocks),
        };
        for _place in 0..list.len() {
            if self.callers.at(block) == caller {
                blocks.push(block)?;
            }
            block = self.links.peek_next(block);
        }
        Ok(blocks)
    }

    // Appends the page of a block, which is in no flight, to a caller's flight.
    pub(crate) fn join(&mut self, caller: u32, block: u32)
        requires inside { block < length self.old.callers }
        requires absent { (c : ℕ) → Contains (blocks_in self.old c) block → ⊥ }
        ensures joined { (c : ℕ) → blocks_in self.new c ≡ cond (nat_eq caller c) (blocks_in self.old c ++ block ∷ []) (blocks_in self.old c) }
        ensures size { length self.new.callers ≡ length self.old.callers }
    {
        self.callers.set(block, caller);
        let list = &mut self.lists[list_of(caller)];
        list.push_back(&mut self.links, block);
    }

    // Removes the page of a block from the flight of this caller, if any.
    pub(crate) fn leave(&mut self, caller: Option<u32>, block: u32)
        requires { ForSome caller (λ c. Contains (blocks_in self.old c) block) }
        ensures left { (c : ℕ) → blocks_in self.new c ≡ flight_left caller block c (blocks_in self.old c) }
        ensures size { length self.new.callers ≡ length self.old.callers }
    {
        if let Some(caller) = caller {
            let list = &mut self.lists[list_of(caller)];
            list.remove(&mut self.links, block);
        }
    }
}

// The list in which the pages of a caller are.
fn list_of(caller: u32) -> usize
    ensures value { result ≡ caller % 4096 }
    ensures inside { result < 4096 }
{
    (caller % LISTS) as usize
}
