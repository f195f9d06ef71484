//! What a node does with its events: it stores them, or it only counts them.
ghost use Rattle.std.specs.Prelude.{◌≡◌, ℕ, ◌+◌, ◌<◌, ◌≤◌, ◌↔◌, [], ◌∷◌, ◌++◌, length, IsTrue, OnOk, OnErr, ◌-◌, vec_len, vec_capacity, ◌^◌};
ghost use Rattle.thp_history.specs.Prelude.{History, by};
ghost use Rattle.thp_node.specs.Recorders.{Recorded};

use std::alloc::{AllocError, Global};
use std::marker::Model;
use thp_history::{Event, Trace, What};

/// The store of a node's events. Contracts see the same history whether a recorder stores the events or only counts them.
pub trait Recorder: Drop {
    // The events recorded so far, oldest first.
    ghost history: { Self → History };

    // The number of events that it can record without an allocation.
    ghost room: { Self → ℕ };

    /// Returns a recorder with no events.
    fn empty(alloc: Global) -> Self
        ensures { history result ≡ [] };

    /// Reserves room for `count` more events. On error nothing is changed.
    fn reserve(&mut self, count: usize) -> Result<(), AllocError>
        ensures history { history self.new ≡ history self.old }
        ensures room { room self.old ≤ room self.new }
        ensures ok { OnOk result (count ≤ room self.new) }
        ensures full { OnErr result (room self.old < count) }
        ensures err { OnErr result (room self.new ≡ room self.old) };

    /// Returns whether there is room for an event.
    fn has_room(&self) -> bool
        ensures { IsTrue result ↔ (0 < room self.now) };

    /// Records an event of a caller. There must be room for it.
    fn record(&mut self, caller: u32, what: What)
        requires { 0 < room self.old }
        ensures history { history self.new ≡ history self.old ++ by caller what ∷ [] }
        ensures room { room self.new + 1 ≡ room self.old };

    /// Returns the number of events recorded.
    fn count(&self) -> u64
        ensures { result ≡ length (history self.now) };
}

/// A recorder that stores each event, so that a node's journal can be read.
#[derive(Drop)]
pub struct FullLog {
    events: Vec<Event>,
}

impl Model for FullLog {
    ghost Value = { Recorded };

    ghost view = { λ k. record { history = k.events.items; room = vec_capacity k.events - vec_len k.events } };
}

impl FullLog {
    /// Returns the events, oldest first.
    pub fn events(&self) -> &[Event]
        ensures { result.now ≡ self.now.history }
    {
        &self.events
    }
}

impl Recorder for FullLog {
    ghost history = { λ k. k.history };

    ghost room = { λ k. k.room };

    fn empty(alloc: Global) -> FullLog {
        FullLog {
            events: Vec::new(alloc),
        }
    }

    fn reserve(&mut self, count: usize) -> Result<(), AllocError> {
        self.events.try_reserve(count)
    }

    #[inline(always)]
    fn has_room(&self) -> bool {
        self.events.len() < self.events.capacity()
    }

    #[inline(always)]
    fn record(&mut self, caller: u32, what: What) {
        self.events.push_reserved(Event { caller, what });
    }

    fn count(&self) -> u64 {
        self.events.as_slice().len() as u64
    }
}

/// A recorder that only counts events and allocates no memory.
#[derive(Drop)]
pub struct CountOnly {
    count: u64,
    // has no bytes
    past: Trace<Event>,
}

impl Model for CountOnly {
    ghost Value = { Recorded };

    ghost view = { λ u. record { history = u.past; room = 2 ^ 64 - 1 - u.count } };

    ghost invariant = { λ u. u.count ≡ length u.past };
}

impl Recorder for CountOnly {
    ghost history = { λ u. u.history };

    ghost room = { λ u. u.room };

    fn empty(_alloc: Global) -> CountOnly {
        CountOnly {
            count: 0,
            past: Trace::new(),
        }
    }

    fn reserve(&mut self, count: usize) -> Result<(), AllocError> {
        (count as u64 <= u64::MAX - self.count)
            .then_some(())
            .ok_or(AllocError)
    }

    #[inline(always)]
    fn has_room(&self) -> bool {
        self.count < u64::MAX
    }

    #[inline(always)]
    fn record(&mut self, caller: u32, what: What) {
        self.count += 1;
        self.past.push(&Event { caller, what });
    }

    fn count(&self) -> u64 {
        self.count
    }
}
