//! The state of a node after the events of a history so far.
ghost use Rattle.std.specs.Prelude.{◌≡◌, ◌<◌, ◌≤◌, ◌+◌, ◌^◌, ℕ, Bool, List, [], ◌||◌, not, slice_get, Option, Some, ◌≢◌, IfErr, IfOk, IsSome, Err, IsTrue, ◌↔◌};
ghost use Rattle.thp_history.specs.Prelude.{History, max_order, min_order, no_pages, takes_by, gain_what, loss_what, recorded_call};
ghost use Rattle.thp_page.specs.Prelude.{slot_at};
ghost use Rattle.thp_live_pages.specs.Prelude.{IsFlyingAt, AtSlot};
ghost use Rattle.thp_history.specs.declared.events.Outcome.{Outcome};
ghost use Rattle.thp_history.specs.declared.shape.Shape.{Shape};
ghost use Rattle.thp_check.specs.Prelude.{blocks_in, is_taker};

use crate::flights::Flights;
use crate::misfit::Misfit;
use std::alloc::{AllocError, Global};
use thp_history::{Done, Event, Gain, Loss, PageCall, PageId, Refusal, Shape, SubSet, What};
use thp_live_pages::PageStore;

// The state after the events so far; arbitrary after an event that did not fit.
#[derive(Drop)]
pub(crate) struct NodeState {
    pub(crate) shape: Shape,
    pub(crate) places: PageStore,
    pub(crate) flights: Flights,
    // the number of pages allocated: the next page's number
    pub(crate) next: u64,
    pub(crate) closed: bool,
    // the caller of the last event, if that was a take
    taker: Option<u32>,
}

impl NodeState {
    ghost use Rattle.thp_check.specs.Meanings.{Means, HasMeaning, IsFirstOf, ReplayFollows, Admits};

    // The state before any event.
    pub(crate) fn new(alloc: Global, shape: Shape) -> Result<NodeState, AllocError>
        requires least { min_order ≤ shape.order }
        requires most { shape.order ≤ max_order }
        ensures { IfOk result (Means shape []) }
    {
        let places = PageStore::new(alloc, shape)?;
        let flights = Flights::new(alloc, shape.blocks)?;
        Ok(NodeState {
            shape,
            places,
            flights,
            next: 0,
            closed: false,
            taker: None,
        })
    }

    // The state after an event, or why it does not fit.
    pub(crate) fn admit(&mut self, event: &Event) -> Result<(), Misfit>
        requires known { HasMeaning self.old }
        requires small { self.old.next + 1 < 2 ^ 64 }
        ensures { Admits self.old self.new event.now result }
    {
        let answer = self.apply(event.caller, &event.what);
        self.taker = taker_of(event);
        answer
    }

    // `admit`, without the record of whether the event is a take.
    fn apply(&mut self, caller: u32, what: &What) -> Result<(), Misfit>
        requires known { HasMeaning self.old }
        requires small { self.old.next + 1 < 2 ^ 64 }
        ensures { ReplayFollows self.old self.new caller what.now result }
    {
        if let Some((page, call)) = what.page_call() {
            return match call {
                PageCall::Gain(gain) => self.gain(page, gain),
                PageCall::Loss(loss) => self.lose(page, loss, what),
            };
        }
        match what {
            What::Alloc { page, block } => self.alloc(*page, *block),
            What::Taken { page } => self.take(caller, *page),
            What::Split { page, released } => self.split(caller, *page, released),
            What::Pinned { page } => self.find_pinned(caller, *page),
            What::Used { page } => self.leave_used(caller, *page),
            What::Back { page } => self.put_back(caller, *page),
            What::Dropped { page } => self.drop_page(caller, *page),
            _ => self.close(),
        }
    }

    // A new page.
    #[inline(never)]
    fn alloc(&mut self, page: PageId, block: u32) -> Result<(), Misfit>
        requires known { HasMeaning self.old }
        requires small { self.old.next + 1 < 2 ^ 64 }
        ensures { (c : ℕ) → ReplayFollows self.old self.new c (What.Alloc page block) result }
    {
        if self.closed {
            return Err(Misfit::Refused(Refusal::Closed));
        }
        if page.0 != self.next {
            return Err(Misfit::Number(PageId(self.next)));
        }
        if !self.places.is_free(block) {
            return Err(Misfit::BlockTaken);
        }
        let queued = self.shape.shrinks_underused();
        self.places.place(block, page, queued);
        self.next += 1;
        Ok(())
    }

    // A page that gets mappings, a pin, data or zeros.
    fn gain(&mut self, page: PageId, gain: Gain) -> Result<(), Misfit>
        ensures { (c : ℕ) → ReplayFollows self.old self.new c (gain_what gain page) result }
    {
        let block = match self.places.find(page) {
            Some(block) => block,
            None => return refused(Refusal::NoPage),
        };
        if let Err(refusal) = self.places.gain(block, gain) {
            return refused(refusal);
        }
        Ok(())
    }

    // A page that loses mappings or a pin, with the outcome and the frames in the event.
    fn lose(&mut self, page: PageId, loss: Loss, what: &What) -> Result<(), Misfit>
        requires known { HasMeaning self.old }
        requires call { recorded_call what.now ≡ Some (page, PageCall.Loss loss) }
        ensures { (c : ℕ) → ReplayFollows self.old self.new c what.now result }
    {
        let block = match self.places.find(page) {
            Some(block) => block,
            None => return refused(Refusal::NoPage),
        };
        let mut done = Done::none();
        let left = match self.places.lose(block, loss, self.closed, &mut done) {
            Ok(left) => left,
            Err(refusal) => return refused(refusal),
        };
        self.flights.leave(left, block);
        if !is_recorded(&done, what) {
            return other_outcome(&done);
        }
        Ok(())
    }

    // A take of the oldest page.
    #[inline(never)]
    fn take(&mut self, caller: u32, page: PageId) -> Result<(), Misfit>
        requires { HasMeaning self.old }
        ensures { ReplayFollows self.old self.new caller (What.Taken page) result }
    {
        let block = match self.places.queue().front() {
            Some(block) => block,
            None => return Err(Misfit::Oldest(None)),
        };
        let first = self.places.take_first(caller);
        if first != page {
            return Err(Misfit::Oldest(Some(first)));
        }
        if !self.may_take(caller) {
            return Err(Misfit::HasBatch);
        }
        self.flights.join(caller, block);
        Ok(())
    }

    // Whether a caller has no page in flight, or continues its take.
    fn may_take(&self, caller: u32) -> bool
        ensures { result ≡ (no_pages (blocks_in self.now.flights caller) || is_taker self.now.taker caller) }
    {
        self.flights.first_of(caller).is_none() || self.taker == Some(caller)
    }

    // A try that splits a page of the caller's flight, with the frames in the event.
    #[inline(never)]
    fn split(&mut self, caller: u32, page: PageId, released: &SubSet) -> Result<(), Misfit>
        requires { HasMeaning self.old }
        ensures { ReplayFollows self.old self.new caller (What.Split page released.now) result }
    {
        let block = match self.places.find_in_batch(page, caller) {
            Some(block) => block,
            None => return Err(Misfit::NotInFlight),
        };
        if !self.places.is_split_candidate(block, self.shape.underused) {
            return Err(Misfit::InUse);
        }
        if self.places.pins(block) != 0 {
            return Err(Misfit::HasPins);
        }
        let given = self.places.split(block, self.shape.shrinks_underused());
        self.flights.leave(Some(caller), block);
        if given != *released {
            return Err(Misfit::Released(given));
        }
        Ok(())
    }

    // A try that finds a page of the caller's flight pinned.
    #[inline(never)]
    fn find_pinned(&self, caller: u32, page: PageId) -> Result<(), Misfit>
        ensures { ReplayFollows self.now self.now caller (What.Pinned page) result }
    {
        let block = match self.places.find_in_batch(page, caller) {
            Some(block) => block,
            None => return Err(Misfit::NotInFlight),
        };
        if self.places.pins(block) == 0 {
            Err(Misfit::NoPins)
        } else if self.places.is_split_candidate(block, self.shape.underused) {
            Ok(())
        } else {
            Err(Misfit::InUse)
        }
    }

    // A try that finds a page of the caller's flight in use: the page leaves the flight and is on no list.
    #[inline(never)]
    fn leave_used(&mut self, caller: u32, page: PageId) -> Result<(), Misfit>
        requires { HasMeaning self.old }
        ensures { ReplayFollows self.old self.new caller (What.Used page) result }
    {
        let block = match self.places.find_in_batch(page, caller) {
            Some(block) => block,
            None => return Err(Misfit::NotInFlight),
        };
        if self.places.is_split_candidate(block, self.shape.underused) {
            return Err(Misfit::WorthSplit);
        }
        self.places.drop_out(block);
        self.flights.leave(Some(caller), block);
        Ok(())
    }

    // A put back of the first page of the caller's flight.
    #[inline(never)]
    fn put_back(&mut self, caller: u32, page: PageId) -> Result<(), Misfit>
        requires { HasMeaning self.old }
        ensures { ReplayFollows self.old self.new caller (What.Back page) result }
    {
        let block = self.find_first(caller, page)?;
        if self.is_dropped(block) {
            return Err(Misfit::MustDrop);
        }
        self.places.enqueue(block);
        self.flights.leave(Some(caller), block);
        Ok(())
    }

    // A drop of the first page of the caller's flight.
    #[inline(never)]
    fn drop_page(&mut self, caller: u32, page: PageId) -> Result<(), Misfit>
        requires { HasMeaning self.old }
        ensures { ReplayFollows self.old self.new caller (What.Dropped page) result }
    {
        let block = self.find_first(caller, page)?;
        if !self.is_dropped(block) {
            return Err(Misfit::MustRequeue);
        }
        self.places.drop_out(block);
        self.flights.leave(Some(caller), block);
        Ok(())
    }

    // Whether the page of a block, where it leaves a batch, is dropped rather than put back.
    fn is_dropped(&self, block: u32) -> bool
        requires { IsSome (slot_at self.now.places.table block) }
        ensures { AtSlot self.now.places.table block (λ x. result ≡ (self.now.closed || not x.page.partly)) }
    {
        self.closed || !self.places.is_partly(block)
    }

    // The block of a page that is the first of a caller's flight; otherwise the first page, if any.
    fn find_first(&self, caller: u32, page: PageId) -> Result<u32, Misfit>
        requires { HasMeaning self.now }
        ensures there { IfOk result (IsFlyingAt self.now.places.table caller page) }
        ensures first { IfOk result (λ b. slice_get (blocks_in self.now.flights caller) 0 ≡ Some b) }
        ensures other { IfErr result (λ m. (o : Option ℕ) × (m ≡ Misfit.First o) × IsFirstOf self.now caller o × (o ≢ Some page)) }
    {
        let block = match self.flights.first_of(caller) {
            Some(block) => block,
            None => return Err(Misfit::First(None)),
        };
        let first = self.places.number(block);
        if first != page {
            return Err(Misfit::First(Some(first)));
        }
        Ok(block)
    }

    // The close of the node.
    #[inline(never)]
    fn close(&mut self) -> Result<(), Misfit>
        ensures { (c : ℕ) → ReplayFollows self.old self.new c What.Close result }
    {
        if self.closed {
            return Err(Misfit::Refused(Refusal::Closed));
        }
        self.closed = true;
        Ok(())
    }
}

// A misfit takes 72 bytes, which a function that builds one clears at its start. Frequent calls therefore have separate functions
// for building misfits.

// A call that is refused.
#[inline(never)]
fn refused(refusal: Refusal) -> Result<(), Misfit>
    ensures { result ≡ Err (Misfit.Refused refusal) }
{
    Err(Misfit::Refused(refusal))
}

// An unmap or an unpin whose outcome or frames differ from those in the event.
#[inline(never)]
fn other_outcome(done: &Done) -> Result<(), Misfit>
    ensures { result ≡ Err (Misfit.Outcome done.now.outcome done.now.released) }
{
    Err(Misfit::Outcome {
        outcome: done.outcome,
        released: done.released,
    })
}

// The caller of an event that is a take.
fn taker_of(event: &Event) -> Option<u32>
    ensures { (c : ℕ) → takes_by c event.now.caller event.now.what ≡ is_taker result c }
{
    match event.what {
        What::Taken { .. } => Some(event.caller),
        _ => None,
    }
}

// Whether an unmap or an unpin contains the computed outcome and frames.
fn is_recorded(done: &Done, what: &What) -> bool
    ensures { (l : Loss) (p : ℕ) (o : Outcome) (set : List Bool) → what.now ≡ loss_what l p o set → (IsTrue result ↔ ((done.now.outcome ≡ o) × (done.now.released ≡ set))) }
{
    match what {
        What::UnmapWhole {
            outcome,
            released,
            ..
        }
        | What::UnmapSub {
            outcome,
            released,
            ..
        }
        | What::Unpin {
            outcome,
            released,
            ..
        } => done.outcome == *outcome && done.released == *released,
        _ => false,
    }
}
