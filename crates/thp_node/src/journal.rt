//! The journal of a node, and the numbers that are maintained with it.
ghost use Rattle.std.specs.Prelude.{◌≡◌, ℕ, ◌+◌, ◌<◌, ◌≤◌, [], ◌∷◌, ◌++◌, ◌^◌, length, IfOk, OnOk, OnErr, IfErr, IfSome, IsTrue, ◌↔◌, None, Some, not};
ghost use Rattle.thp_history.specs.Prelude.{max_node_callers, by, IsNodeShape, IsContext, allocations, is_closed, counters_of, frames_given, frames_held, flight, IsLegal, Fits, loss_what, with_loss};
ghost use Rattle.thp_node.specs.Journals.{HasFlightRoom, leaves_by, leaves_of, joins_of, HasCountRoom, FlightHasRoom, CanLeave, FlightsMove, Counts};

use crate::flight_counts::FlightCounts;
use crate::recorder::{FullLog, Recorder};
use std::alloc::{AllocError, Global};
use std::marker::Model;
use thp_history::{
    Counters, Done, Event, Loss, Outcome, PageId, Refusal, Shape, SplitContext, SubSet, Tally, What,
};

// The history of a node, and the numbers about it that calls need in constant time.
#[derive(Drop)]
pub(crate) struct Journal<R: Recorder> {
    shape: Shape,
    events: R,
    tally: NodeTally,
}

// The numbers of a journal's events.
#[derive(Drop)]
struct NodeTally {
    // the number of pages allocated: the next page's number
    next: u64,
    closed: bool,
    flying: FlightCounts,
    sums: Tally,
}

impl<R: Recorder> Model for Journal<R> {
    ghost use Rattle.thp_node.specs.Journals.{JournalState, IsJournal};

    ghost Value = { JournalState };

    ghost view = { λ j. record { shape = j.shape; events = R.history j.events; room = R.room j.events } };

    ghost invariant = { λ j. IsJournal j.shape (R.history j.events) j.tally };
}

impl<R: Recorder> Journal<R> {
    // A journal with no event.
    pub(crate) fn new(alloc: Global, shape: Shape) -> Result<Journal<R>, AllocError>
        requires { IsNodeShape shape }
        ensures shape { IfOk result (λ j. j.shape ≡ shape) }
        ensures events { IfOk result (λ j. j.events ≡ []) }
    {
        let flying = FlightCounts::new(alloc)?;
        Ok(Journal {
            shape,
            events: R::empty(alloc),
            tally: NodeTally {
                next: 0,
                closed: false,
                flying,
                sums: Tally::new(),
            },
        })
    }

    // Reserves room for `count` events.
    pub(crate) fn reserve(&mut self, count: usize) -> Result<(), Refusal>
        ensures shape { self.new.shape ≡ self.old.shape }
        ensures events { self.new.events ≡ self.old.events }
        ensures room { self.old.room ≤ self.new.room }
        ensures ok { OnOk result (count ≤ self.new.room) }
        ensures full { OnErr result (self.old.room < count) }
        ensures err { OnErr result (self.new ≡ self.old) }
        ensures memory { IfErr result (λ r. r ≡ Refusal.OutOfMemory) }
    {
        self.events.reserve(count).or(Err(Refusal::OutOfMemory))
    }

    // Whether an event can be recorded without an allocation.
    #[inline(always)]
    pub(crate) fn has_room(&self) -> bool
        ensures { IsTrue result ↔ (0 < self.now.room) }
    {
        self.events.has_room()
    }

    // Records an event of a caller, which must fit, except an unmap or an unpin, and what its page was before a split. Inlined, so
    // that a caller with a known kind of event writes and counts that kind only.
    #[inline(always)]
    pub(crate) fn record(&mut self, caller: u32, what: What, split: SplitContext)
        requires caller { caller < max_node_callers }
        requires room { 0 < self.old.room }
        requires fits { Fits self.old.shape self.old.events (by caller what) }
        requires flight { HasFlightRoom self.old.events caller what }
        requires leaves { leaves_by caller what ≡ leaves_of self.old.events caller what }
        requires split { IsContext self.old.shape self.old.events what split }
        ensures shape { self.new.shape ≡ self.old.shape }
        ensures events { self.new.events ≡ self.old.events ++ by caller what ∷ [] }
        ensures room { self.new.room + 1 ≡ self.old.room }
        ensures legal { IsLegal self.new.shape self.new.events }
    {
        self.events.record(caller, what);
        // Shows the proof that the number of events, and therefore each number of the tally, is bounded.
        let _events = self.events.count();
        self.tally.count(caller, &what, split);
    }

    // Records an unmap or an unpin, by which the page left the flight of `left`, if it is one, as `record` does. The numbers are
    // taken from `done`: a node that keeps no events builds none.
    #[inline(always)]
    pub(crate) fn record_loss(
        &mut self,
        caller: u32,
        page: PageId,
        loss: Loss,
        done: &Done,
        left: Option<u32>,
    )
        requires caller { caller < max_node_callers }
        requires room { 0 < self.old.room }
        requires fits { Fits self.old.shape self.old.events (by caller (loss_what loss page done.now.outcome done.now.released)) }
        requires leaves { left ≡ leaves_of self.old.events caller (loss_what loss page done.now.outcome done.now.released) }
        ensures shape { self.new.shape ≡ self.old.shape }
        ensures events { self.new.events ≡ self.old.events ++ by caller (loss_what loss page done.now.outcome done.now.released) ∷ [] }
        ensures room { self.new.room + 1 ≡ self.old.room }
        ensures legal { IsLegal self.new.shape self.new.events }
    {
        self.events.record(caller, loss.what(page, done));
        // Shows the proof that the number of events, and therefore each number of the tally, is bounded.
        let _events = self.events.count();
        self.tally.count_loss(done.outcome, &done.released, left);
    }

    // The shape of the node.
    pub(crate) fn shape(&self) -> Shape
        ensures value { result ≡ self.now.shape }
        ensures valid { IsNodeShape self.now.shape }
    {
        self.shape
    }

    // The number of events.
    pub(crate) fn count(&self) -> u64
        ensures { result ≡ length self.now.events }
    {
        self.events.count()
    }

    // The number of pages allocated: the number of the next page.
    pub(crate) fn next(&self) -> u64
        ensures { result ≡ allocations self.now.events }
    {
        self.tally.next
    }

    // Whether the node is closed.
    pub(crate) fn is_closed(&self) -> bool
        ensures { result ≡ is_closed self.now.events }
    {
        self.tally.closed
    }

    // The number of pages that a caller has in flight.
    pub(crate) fn flying(&self, caller: u32) -> u64
        requires { caller < max_node_callers }
        ensures { result ≡ length (flight self.now.events caller) }
    {
        self.tally.flying.of(caller)
    }

    // The number of frames given back.
    pub(crate) fn frames_given(&self) -> u128
        ensures { result ≡ frames_given self.now.events }
    {
        self.tally.sums.frames_given
    }

    // The number of frames that the live pages hold: those of all pages ever allocated, except those given back.
    pub(crate) fn frames_held(&self) -> u128
        ensures { result ≡ frames_held self.now.shape self.now.events }
    {
        u128::from(self.shape.subpages()) * u128::from(self.tally.next)
            - self.tally.sums.frames_given
    }

    // The statistics.
    pub(crate) fn counters(&self) -> Counters
        ensures { result ≡ counters_of self.now.shape self.now.events }
    {
        self.tally.sums.counters
    }
}

impl Journal<FullLog> {
    // The events so far, oldest first.
    pub(crate) fn events(&self) -> &[Event]
        ensures value { result.now ≡ self.now.events }
    {
        self.events.events()
    }
}

impl NodeTally {
    // Counts one more event of a caller: changes the numbers that its kind of event changes. Inlined with `record`.
    #[inline(always)]
    fn count(&mut self, caller: u32, what: &What, split: SplitContext)
        requires room { HasCountRoom self.old }
        requires joins { IfSome (joins_of caller what.now) (FlightHasRoom self.old.flying) }
        requires leaves { IfSome (leaves_by caller what.now) (CanLeave self.old.flying) }
        ensures { Counts self.old self.new caller what.now (leaves_by caller what.now) split }
    {
        self.sums.count(what, split);
        match what {
            What::Alloc { .. } => self.next += 1,
            What::Taken { .. } => self.flying.join(caller),
            What::Split { .. } | What::Used { .. } | What::Back { .. } | What::Dropped { .. } => {
                self.flying.leave(caller);
            }
            What::Close => self.closed = true,
            _ => {}
        }
    }

    // Counts an unmap or an unpin, after which the page left a caller's flight or none.
    #[inline(always)]
    fn count_loss(&mut self, outcome: Outcome, released: &SubSet, left: Option<u32>)
        requires room { HasCountRoom self.old }
        requires leaves { IfSome left (CanLeave self.old.flying) }
        ensures flying { FlightsMove self.old.flying self.new.flying None left }
        ensures sums { self.new.sums ≡ with_loss outcome released.now self.old.sums }
        ensures rest { self.new ≡ record self.old { flying = self.new.flying; sums = self.new.sums } }
    {
        self.sums.count_loss(outcome, released);
        if let Some(caller) = left {
            self.flying.leave(caller);
        }
    }
}
