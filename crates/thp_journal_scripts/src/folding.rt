//! The commands that repeat the events of a node.
ghost use Rattle.std.specs.Prelude.{◌≡◌, ◌++◌, ◌+◌, [], ◌∷◌, ℕ, IfOk, MatchOption, OnOk, false, true};
ghost use Rattle.thp_history.specs.Prelude.{event_with};
ghost use Rattle.thp_history.specs.declared.events.Event.{Event};
ghost use Rattle.thp_history.specs.declared.events.What.{What};
ghost use Rattle.thp_history.specs.declared.events.What.TheVariants.{Taken};
ghost use Rattle.thp_journal_scripts.specs.Prelude.{both_moved, capped_count, flying_after, kind_of, leave_if_freed, moved_so_far, once_ended, one_if_freed, pages_freed, pending_ops, place_of_call, place_of_put, place_of_take, place_of_try, scan_place_of, settled, AddsCommands, AddsEvent, AddsPlain, AddsTo, Call, CountsCall, ExtendsLast, FoldEnds, GoesOn, HasAdded, Idle, IsAtPlace, IsBy, IsFolded, IsNextScan, IsSettled, KeepsFlights, LosesPage, MovesEvent, Open, Put, ScanPlace, Take, TakesLate, Try};

use crate::open_flights::{FlyingPage, WaitingFlight, extend_last, has_flight, leave, lose_page};
use crate::script_batch::ScriptBatch;
use std::alloc::{AllocError, Global};
use std::collections::VecDeque;
use thp_history::{Event, Outcome, PageId, What};
use thp_script::Op;

/// The script of one caller that repeats a node's events, which are added one by one.
///
/// A call is the same call. A batch whose takes, tries and put-backs follow one another is a `scan`; another one is a `take`, a
/// `splitnext` for each try and a `putback`, each at its place among the calls. A script has one batch at a time: a flight that
/// begins while the batch has pages waits, and becomes a `scan` once it and the batches before it have ended.
///
/// Stores the pages in flight and the number of pages in each flight that waits, and no event.
#[derive(Drop)]
pub(crate) struct Folding {
    pub(crate) batch: ScriptBatch,
    // the number of flights before the batch's
    flight: u64,
    // the number of flights so far
    flights: u64,
    // the pages in flight, in the order of their takes
    pages: Vec<FlyingPage>,
    waiting: VecDeque<WaitingFlight>,
    pub(crate) moved: Moved,
}

impl Folding {
    /// Creates the script of no event.
    pub(crate) fn new(alloc: Global) -> Folding
        ensures { IsFolded [] [] result }
    {
        Folding {
            batch: ScriptBatch::Idle,
            flight: 0,
            flights: 0,
            pages: Vec::new(alloc),
            waiting: VecDeque::new(alloc),
            moved: Moved::default(),
        }
    }

    /// Adds an event, and appends the commands whose place is known by it. An allocation's block makes no difference. On error the
    /// script is unusable.
    pub(crate) fn add(&mut self, event: &Event, ops: &mut Vec<Op>) -> Result<(), AllocError>
        ensures { OnOk result ((block : ℕ) → HasAdded ops.old.items ops.new.items (AddsTo (event_with block event.now) self.old self.new)) }
    {
        self.add_kind(event, ops)?;
        self.follow(&event.what)?;
        self.end(ops)?;
        self.release(ops)?;
        Ok(())
    }

    /// Adds an event by its kind.
    fn add_kind(&mut self, event: &Event, ops: &mut Vec<Op>) -> Result<(), AllocError>
        ensures adds { OnOk result ((block : ℕ) → HasAdded ops.old.items ops.new.items (AddsEvent (event_with block event.now) self.old self.new)) }
        ensures goes_on { OnOk result (GoesOn (λ s. scan_place_of s (kind_of event.now.what) event.now.caller event.now.what) self.old self.new) }
        ensures plain { OnOk result (AddsPlain (λ s. scan_place_of s (kind_of event.now.what) event.now.caller event.now.what) self.old ops.old.items ops.new.items) }
    {
        match kind_of(&event.what) {
            EventKind::Call(op) => self.call(op, ops),
            EventKind::Take => self.take(event.caller, ops),
            EventKind::Try => self.try_page(event.caller, ops),
            EventKind::Put => self.put_page(event.caller, ops),
        }
    }

    /// Ends the script: appends the remaining commands, and returns what it does in another order than the history.
    pub(crate) fn finish(self, ops: &mut Vec<Op>) -> Result<Moved, AllocError>
        ensures { IfOk result (λ moved. HasAdded ops.old.items ops.new.items (FoldEnds self moved)) }
    {
        let mut folding = self;
        let left = folding.pages.len() as u64;
        folding.pages.clear();
        folding.settle(ops)?;
        folding.put_back_nothing(ops)?;
        folding.write_scans(ops)?;
        Ok(Moved {
            left,
            ..folding.moved
        })
    }

    /// Appends the commands of the batch that are not written yet.
    fn settle(&mut self, ops: &mut Vec<Op>) -> Result<(), AllocError>
        ensures batch { OnOk result (self.new.batch ≡ settled self.old.batch) }
        ensures rest { OnOk result (self.new ≡ record self.old { batch = settled self.old.batch }) }
        ensures ops { OnOk result (ops.new.items ≡ ops.old.items ++ pending_ops self.old.batch) }
        ensures adds { OnOk result (HasAdded ops.old.items ops.new.items (AddsCommands self.old self.new)) }
    {
        let batch = self.batch.settle(ops)?;
        self.batch = batch;
        Ok(())
    }

    /// Counts a call if a flight waits.
    fn count_call(&mut self)
        ensures batch { self.new.batch ≡ self.old.batch }
        ensures counts { CountsCall (moved_so_far 0 self.old) (moved_so_far 0 self.new) }
        ensures none_waits { self.old.waiting.items ≡ [] → self.new ≡ self.old }
    {
        if !self.waiting.is_empty() {
            self.moved.calls = self.moved.calls.saturating_add(1);
        }
    }

    /// Counts an event of a batch that is not at its place.
    fn count_event(&mut self)
        ensures batch { self.new.batch ≡ self.old.batch }
        ensures moved { moved_so_far 0 self.new ≡ record (moved_so_far 0 self.old) { events = capped_count (self.old.moved.events + 1) } }
    {
        self.moved.events = self.moved.events.saturating_add(1);
    }

    /// Appends a call.
    fn call(&mut self, op: Op, ops: &mut Vec<Op>) -> Result<(), AllocError>
        ensures adds { OnOk result ((e : Event) → kind_of e.what ≡ Call op → HasAdded ops.old.items ops.new.items (AddsEvent e self.old self.new)) }
        ensures goes_on { OnOk result (GoesOn place_of_call self.old self.new) }
        ensures plain { OnOk result ((e : Event) → kind_of e.what ≡ Call op → AddsPlain place_of_call self.old ops.old.items ops.new.items) }
    {
        self.settle(ops)?;
        self.count_call();
        ops.push(op)?;
        Ok(())
    }

    /// Adds a take to the batch, or to the flights that wait.
    fn take(&mut self, caller: u32, ops: &mut Vec<Op>) -> Result<(), AllocError>
        ensures adds { OnOk result ((e : Event) → IsBy caller Take e → HasAdded ops.old.items ops.new.items (AddsEvent e self.old self.new)) }
        ensures goes_on { OnOk result ((p : ℕ) → GoesOn (λ s. place_of_take s caller (Taken p)) self.old self.new) }
        ensures plain { OnOk result ((p : ℕ) → AddsPlain (λ s. place_of_take s caller (Taken p)) self.old ops.old.items ops.new.items) }
    {
        if let Some(batch) = self.batch.with_take(caller) {
            self.batch = batch;
            return Ok(());
        }
        self.put_back_nothing(ops)?;
        if self.is_free() {
            self.flights = self.flights.saturating_add(1);
            self.flight = self.flights;
            self.batch = ScriptBatch::Taking { caller, taken: 1 };
            return Ok(());
        }
        self.wait(caller)?;
        Ok(())
    }

    /// Returns whether a batch can begin.
    fn is_free(&self) -> bool
        ensures sound { result ≡ true → self.now.batch ≡ Idle }
        ensures complete { self.now.batch ≡ Idle → self.now.waiting.items ≡ [] → result ≡ true }
    {
        matches!(self.batch, ScriptBatch::Idle) && self.waiting.is_empty()
    }

    /// Adds a take to the flights that wait.
    fn wait(&mut self, caller: u32) -> Result<(), AllocError>
        ensures batch { self.new.batch ≡ self.old.batch }
        ensures moves { OnOk result (MovesEvent caller Take (moved_so_far 0 self.old) (moved_so_far 0 self.new)) }
    {
        self.count_event();
        if self.extend_waiting(caller) {
            return Ok(());
        }
        self.begin_waiting(caller)?;
        Ok(())
    }

    /// Adds a page to the last flight that waits, if it is this caller's, has room, and has a page left. Returns whether it did.
    fn extend_waiting(&mut self, caller: u32) -> bool
        ensures batch { self.new.batch ≡ self.old.batch }
        ensures moved { self.new.moved ≡ self.old.moved }
        ensures extends { result ≡ true → ExtendsLast caller self.old.waiting.items self.new.waiting.items }
        ensures unchanged { result ≡ false → self.new.waiting.items ≡ self.old.waiting.items }
    {
        if !has_flight(&self.pages, self.flights) {
            return false;
        }
        extend_last(&mut self.waiting, caller)
    }

    /// Adds a flight of one page to those that wait.
    fn begin_waiting(&mut self, caller: u32) -> Result<(), AllocError>
        ensures batch { self.new.batch ≡ self.old.batch }
        ensures events { self.new.moved.events ≡ self.old.moved.events }
        ensures calls { self.new.moved.calls ≡ self.old.moved.calls }
        ensures begins { OnOk result (TakesLate caller (moved_so_far 0 self.old) (moved_so_far 0 self.new)) }
    {
        self.moved.batches = self.moved.batches.saturating_add(1);
        self.flights = self.flights.saturating_add(1);
        self.waiting.push_back(WaitingFlight {
            caller,
            taken: 1,
            flight: self.flights,
        })?;
        Ok(())
    }

    /// Adds a try.
    fn try_page(&mut self, caller: u32, ops: &mut Vec<Op>) -> Result<(), AllocError>
        ensures adds { OnOk result ((e : Event) → IsBy caller Try e → HasAdded ops.old.items ops.new.items (AddsEvent e self.old self.new)) }
        ensures goes_on { OnOk result ((w : What) → GoesOn (λ s. place_of_try s caller w) self.old self.new) }
        ensures plain { OnOk result ((w : What) → AddsPlain (λ s. place_of_try s caller w) self.old ops.old.items ops.new.items) }
    {
        if let Some(batch) = self.batch.with_try(caller) {
            self.batch = batch;
            return Ok(());
        }
        self.settle(ops)?;
        if self.has_open(caller) {
            ops.push(Op::SplitNext)?;
            return Ok(());
        }
        self.count_event();
        Ok(())
    }

    /// Adds a page that is put back or dropped.
    fn put_page(&mut self, caller: u32, ops: &mut Vec<Op>) -> Result<(), AllocError>
        ensures adds { OnOk result ((e : Event) → IsBy caller Put e → HasAdded ops.old.items ops.new.items (AddsEvent e self.old self.new)) }
        ensures goes_on { OnOk result ((w : What) → GoesOn (λ s. place_of_put s caller w) self.old self.new) }
        ensures plain { OnOk result ((w : What) → AddsPlain (λ s. place_of_put s caller w) self.old ops.old.items ops.new.items) }
    {
        if let Some(batch) = self.batch.with_put(caller) {
            self.batch = batch;
            return Ok(());
        }
        self.settle(ops)?;
        if self.has_open(caller) {
            self.batch = ScriptBatch::Closing { caller };
            return Ok(());
        }
        self.count_event();
        Ok(())
    }

    /// Returns whether the open batch is this caller's.
    fn has_open(&self, by: u32) -> bool
        ensures { result ≡ true → self.now.batch ≡ Open by }
    {
        matches!(self.batch, ScriptBatch::Open { caller } if caller == by)
    }

    /// Follows the pages in flight.
    fn follow(&mut self, what: &What) -> Result<(), AllocError>
        ensures batch { self.new.batch ≡ self.old.batch }
        ensures moved { self.new.moved ≡ self.old.moved }
        ensures pages { OnOk result (self.new.pages.items ≡ flying_after what.now self.old.flights self.old.pages.items) }
        ensures flights { KeepsFlights self.old self.new }
        ensures frees { OnOk result (LosesPage (pages_freed what.now) self.old.waiting.items self.new.waiting.items) }
    {
        match *what {
            What::Taken { page } => {
                let flight = self.flights;
                self.pages.push(FlyingPage { page, flight })?;
            }
            What::Split { page, .. }
            | What::Used { page }
            | What::Back { page }
            | What::Dropped { page } => {
                leave(&mut self.pages, page);
            }
            What::UnmapWhole { outcome, page, .. }
            | What::UnmapSub { outcome, page, .. }
            | What::Unpin { outcome, page, .. } => self.lose(outcome, page),
            _ => {}
        }
        Ok(())
    }

    /// Removes a page from its flight if it was freed.
    fn lose(&mut self, outcome: Outcome, page: PageId)
        ensures batch { self.new.batch ≡ self.old.batch }
        ensures moved { self.new.moved ≡ self.old.moved }
        ensures pages { self.new.pages.items ≡ leave_if_freed outcome page self.old.pages.items }
        ensures flights { KeepsFlights self.old self.new }
        ensures frees { LosesPage (one_if_freed outcome) self.old.waiting.items self.new.waiting.items }
    {
        if outcome != Outcome::Freed {
            return;
        }
        if let Some(flight) = leave(&mut self.pages, page) {
            lose_page(&mut self.waiting, flight);
        }
    }

    /// Completes the batch if no page is left in it.
    fn end(&mut self, ops: &mut Vec<Op>) -> Result<(), AllocError>
        ensures goes_on { OnOk result ((s : ScanPlace) → IsAtPlace s self.old → IsAtPlace (once_ended s) self.new) }
        ensures plain { OnOk result (AddsPlain once_ended self.old ops.old.items ops.new.items) }
        ensures adds { OnOk result (HasAdded ops.old.items ops.new.items (AddsCommands self.old self.new)) }
    {
        let Some(op) = self.batch.completion() else {
            return Ok(());
        };
        if has_flight(&self.pages, self.flight) {
            return Ok(());
        }
        ops.push(op)?;
        self.batch = ScriptBatch::Idle;
        Ok(())
    }

    /// Puts back the open batch if no page is left in it.
    fn put_back_nothing(&mut self, ops: &mut Vec<Op>) -> Result<(), AllocError>
        ensures idle { OnOk result (self.old.batch ≡ Idle → self.new ≡ self.old) }
        ensures pages { OnOk result (self.new.pages.items ≡ self.old.pages.items) }
        ensures idle_ops { OnOk result (self.old.batch ≡ Idle → ops.new.items ≡ ops.old.items) }
        ensures closes { OnOk result (self.old.pages.items ≡ [] → IsSettled self.old.batch → self.new.batch ≡ Idle) }
        ensures adds { OnOk result (HasAdded ops.old.items ops.new.items (AddsCommands self.old self.new)) }
    {
        if has_flight(&self.pages, self.flight) {
            return Ok(());
        }
        let ScriptBatch::Open { caller: _caller } = self.batch else {
            return Ok(());
        };
        ops.push(Op::PutBack)?;
        self.batch = ScriptBatch::Idle;
        Ok(())
    }

    /// Appends a scan for each flight that has ended and waits for no other one.
    fn release(&mut self, ops: &mut Vec<Op>) -> Result<(), AllocError>
        ensures none_waits { OnOk result (self.old.waiting.items ≡ [] → self.new ≡ self.old) }
        ensures none_written { OnOk result (self.old.waiting.items ≡ [] → ops.new.items ≡ ops.old.items) }
        ensures adds { OnOk result (HasAdded ops.old.items ops.new.items (AddsCommands self.old self.new)) }
    {
        if self.waiting.is_empty() {
            return Ok(());
        }
        self.put_back_nothing(ops)?;
        if matches!(self.batch, ScriptBatch::Idle) {
            self.write_scans(ops)?;
            return Ok(());
        }
        Ok(())
    }

    /// Returns the number of pages of the first flight that waits; `None` if it has not ended.
    fn next_scan(&self) -> Option<u32>
        ensures { MatchOption result (self.now.pages.items ≡ [] → self.now.waiting.items ≡ []) (λ count. IsNextScan count self.now.waiting.items) }
    {
        let first = self.waiting.front()?;
        (!has_flight(&self.pages, first.flight)).then_some(first.taken)
    }

    /// Appends a scan for each flight that waits, up to the first that has not ended.
    fn write_scans(&mut self, ops: &mut Vec<Op>) -> Result<(), AllocError>
        ensures none { OnOk result (self.old.moved.events ≡ 0 → self.new ≡ self.old) }
        ensures none_written { OnOk result (self.old.moved.events ≡ 0 → ops.new.items ≡ ops.old.items) }
        ensures batch { OnOk result (self.new.batch ≡ self.old.batch) }
        ensures moved { OnOk result (self.new.moved ≡ self.old.moved) }
        ensures all { OnOk result (self.old.pages.items ≡ [] → (self.old.moved.events ≡ 0 → ⊥) → self.new.waiting.items ≡ []) }
        ensures adds { OnOk result (HasAdded ops.old.items ops.new.items (AddsCommands self.old self.new)) }
    {
        if self.moved.events == 0 {
            return Ok(());
        }
        for _flight in 0..self.waiting.len() {
            let Some(count) = self.next_scan() else {
                return Ok(());
            };
            ops.push(Op::Scan { count })?;
            self.waiting.pop_front();
        }
        Ok(())
    }
}

/// What a script does in another order than the history, or cannot repeat. All are 0 if each batch of the history is a whole scan.
/// Counts stop at 2^64 - 1.
#[derive(Clone, Copy, Debug, PartialEq, Eq, Default)]
pub struct Moved {
    /// Batches that began while another one was open: each is a scan after that one.
    pub batches: u64,
    /// Calls made while such a batch waited: they come before its scan.
    pub calls: u64,
    /// Takes, tries and put-backs that no command repeats at their place: those of such batches, and those that fit no batch of a
    /// script. If there are none, the script repeats the history.
    pub events: u64,
    /// Pages in a batch after the last event, which the script puts back.
    pub left: u64,
}

impl Moved {
    /// Returns the sums with those of another node.
    pub(crate) fn and(self, other: Moved) -> Moved
        ensures { result ≡ both_moved self other }
    {
        Moved {
            batches: self.batches.saturating_add(other.batches),
            calls: self.calls.saturating_add(other.calls),
            events: self.events.saturating_add(other.events),
            left: self.left.saturating_add(other.left),
        }
    }
}

/// The kind of an event, by the command that repeats it.
#[derive(Clone, Copy)]
pub enum EventKind {
    /// A call, which this command repeats.
    Call(Op),
    /// A page was taken into a batch.
    Take,
    /// A page of a batch was tried: it was split, or found pinned or in use.
    Try,
    /// A page of a batch was put back or dropped.
    Put,
}

/// Returns the kind of an event.
pub(crate) fn kind_of(what: &What) -> EventKind
    ensures { result ≡ kind_of what.now }
{
    EventKind::Call(match *what {
        What::Alloc { .. } => Op::Alloc,
        What::Close => Op::Close,
        What::Taken { .. } => return EventKind::Take,
        What::Split { .. } | What::Pinned { .. } | What::Used { .. } => return EventKind::Try,
        _ => match what.page_call() {
            Some((page, call)) => Op::of_page(page, call),
            None => return EventKind::Put,
        },
    })
}
