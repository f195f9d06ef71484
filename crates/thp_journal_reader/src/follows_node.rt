//! What follows a node while its events are legal, and what is kept of the node.
ghost use Rattle.std.specs.Prelude.{◌≡◌, ◌<◌, ◌+◌, ◌^◌, [], Bool, true, false, Option, None, Some, length, IfOk, IfErr};
ghost use Rattle.thp_check.specs.Prelude.{Explains, replayed_with, Replayed};
ghost use Rattle.thp_journal_reader.specs.Keeping.{KeepsNothing, LeavesNothing};
ghost use Rattle.thp_journal_reader.specs.declared.long_check.Illegal.{Illegal};
ghost use Rattle.thp_history.specs.Prelude.{least_free, History, Fits, IsNodeShape};
ghost use Rattle.thp_history.specs.declared.shape.Shape.{Shape};

use crate::long_check::Illegal;
use std::alloc::{AllocError, Global};
use thp_check::{Misfit, Replay};
use thp_history::{Event, Shape};

/// The data of a node whose next event does not fit.
#[derive(Drop)]
pub struct Stopped<R> {
    /// Why the event does not fit.
    pub misfit: Misfit,
    /// What is left of the node.
    pub rest: R,
}

/// A replay of a node's events, with the data about them from which the kept data is made.
pub trait FollowsNode: Drop {
    /// The data that is kept of a node: of all its events, or of those before its first illegal event.
    type Kept: Drop;

    /// What is left of a node whose next event does not fit.
    type Rest: Drop;

    /// The node's shape, and the events so far.
    ghost replayed: { Self → Replayed };

    /// The kept data of a node of this shape with these legal events, of which this illegal one is the next, if there is one.
    ghost keeps: { Shape → History → Option Illegal → Self.Kept → Type 0 };

    /// What is left of a node after these events.
    ghost leaves: { Replayed → Self.Rest → Type 0 };

    /// Whether nodes after the first illegal event are followed, too.
    ghost FOLLOWS_ALL: { Bool };

    /// Whether nodes after the first illegal event are followed, too.
    const FOLLOWS_ALL: bool;

    /// Begins a node without events.
    fn begin(alloc: Global, shape: Shape) -> Result<Self, AllocError>
        requires { IsNodeShape shape }
        ensures shape { IfOk result (λ node. (replayed node).shape ≡ shape) }
        ensures none { IfOk result (λ node. (replayed node).history ≡ []) };

    /// Returns the least block without a live page, or 0 if there is none.
    fn free_block(&self) -> u32
        ensures { result ≡ least_free (replayed self.now).shape (replayed self.now).history };

    /// Adds an event, if it fits the events so far.
    fn follow(self, event: &Event) -> Result<Self, Stopped<Self::Rest>>
        requires room { length (replayed self).history + 1 < 2 ^ 64 }
        ensures followed { IfOk result (λ node. replayed node ≡ replayed_with (replayed self) event.now) }
        ensures fits { IfOk result (λ node. Fits (replayed self).shape (replayed self).history event.now) }
        ensures misfit { IfErr result (λ stopped. Fits (replayed self).shape (replayed self).history event.now → ⊥) }
        ensures why { IfErr result (λ stopped. Explains (replayed self).shape (replayed self).history event.now stopped.misfit) }
        ensures rest { IfErr result (λ stopped. leaves (replayed self) stopped.rest) };

    /// Returns the kept data of a node that has no further event.
    fn end(self, alloc: Global) -> Result<Self::Kept, AllocError>
        ensures { IfOk result (keeps (replayed self).shape (replayed self).history None) };

    /// Returns the kept data of a node whose next event is illegal.
    fn stop(rest: Self::Rest, alloc: Global, illegal: &Illegal) -> Result<Self::Kept, AllocError>
        ensures { IfOk result (λ kept. (before : Replayed) → leaves before rest → keeps before.shape before.history (Some illegal.now) kept) };
}

/// Keeps nothing.
impl FollowsNode for Replay {
    type Kept = ();

    type Rest = ();

    ghost replayed = { λ replay. replay };

    ghost keeps = { KeepsNothing };

    ghost leaves = { LeavesNothing };

    ghost FOLLOWS_ALL = { false };

    const FOLLOWS_ALL: bool = false;

    fn begin(alloc: Global, shape: Shape) -> Result<Replay, AllocError> {
        Replay::new(alloc, shape)
    }

    fn free_block(&self) -> u32 {
        self.least_free_block()
    }

    #[inline(always)]
    fn follow(self, event: &Event) -> Result<Replay, Stopped<()>> {
        match self.admit(event) {
            Ok(replay) => Ok(replay),
            Err(misfit) => Err(Stopped { misfit, rest: () }),
        }
    }

    fn end(self, _alloc: Global) -> Result<(), AllocError> {
        Ok(())
    }

    fn stop(_rest: (), _alloc: Global, _illegal: &Illegal) -> Result<(), AllocError> {
        Ok(())
    }
}
