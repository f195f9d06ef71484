//! Creating, dividing and joining what the handles of passes hold, and the end of a cell.
ghost use Rattle.std.specs.Prelude.{◌≡◌, ◌⊎◌, IfErr, IfOk, OnOk, Some};
ghost use Rattle.thp_capi.specs.Prelude.{AdjoinHeld, Dismantled, Divided, Divides, Finished, HasOpen, IsCellSize, IsNewPass, Joined, NoneIsOpen, NoneOpen, OneCell, held_value, is_counting};

use crate::codes::Fault;
use crate::engine::Engine;
use crate::held::{Held, HeldEngine, HeldPass};
use crate::shared_pass::SharedPass;
use std::alloc::Global;
use thp_history::{Refusal, Shape};
use thp_node::{CountOnly, FullLog, Recorder};

impl Held<SharedPass<FullLog>, SharedPass<CountOnly>> {
    /// Creates a cell of a new node, and returns the pass of all its callers.
    pub fn new(
        alloc: Global,
        shape: Shape,
        callers: u32,
        mark: u64,
        counting: bool,
    ) -> Result<HeldPass, Fault>
        ensures counting { IfOk result (λ held. is_counting held ≡ counting) }
        ensures made { IfOk result (λ held. IsNewPass shape callers (held_value held).pass) }
        ensures mark { IfOk result (λ held. (held_value held).mark ≡ mark) }
        ensures shut { IfOk result (λ held. NoneIsOpen (held_value held)) }
        ensures size { IfOk result (λ held. IsCellSize shape callers) }
        ensures why { IfErr result (λ f. ((f ≡ Fault.BadSize) × (IsCellSize shape callers → ⊥)) ⊎ (f ≡ Fault.Refused Refusal.OutOfMemory)) }
    {
        Ok(if counting {
            Held::Counted(SharedPass::new(alloc, shape, callers, mark)?)
        } else {
            Held::Kept(SharedPass::new(alloc, shape, callers, mark)?)
        })
    }

    /// Returns whether its cell's node only counts its events.
    pub fn is_counting(&self) -> bool
        ensures { result ≡ is_counting self.now }
    {
        matches!(self, Held::Counted(_))
    }

    /// Divides the callers of the pass at this one. Open batches stay with their callers.
    pub fn split(self, alloc: Global, at: u32) -> Result<(HeldPass, HeldPass), (HeldPass, Fault)>
        ensures parts { IfOk result (λ r. Divided at (Some self) (Some r.0) (Some r.1)) }
        ensures same { IfErr result (λ e. e.0 ≡ self) }
        ensures why { IfErr result (λ e. ((e.1 ≡ Fault.BadCaller) × (Divides at (held_value self).pass → ⊥)) ⊎ (e.1 ≡ Fault.Refused Refusal.OutOfMemory)) }
    {
        match self {
            Held::Kept(pass) => match pass.split(alloc, at) {
                Ok((left, right)) => Ok((Held::Kept(left), Held::Kept(right))),
                Err((pass, fault)) => Err((Held::Kept(pass), fault)),
            },
            Held::Counted(pass) => match pass.split(alloc, at) {
                Ok((left, right)) => Ok((Held::Counted(left), Held::Counted(right))),
                Err((pass, fault)) => Err((Held::Counted(pass), fault)),
            },
        }
    }

    /// Joins two passes, with the open batches of their callers, or returns both if they don't adjoin.
    pub fn join(self, other: HeldPass) -> Result<HeldPass, (HeldPass, HeldPass)>
        requires cell { OneCell self other }
        ensures joined { IfOk result (λ both. Joined (Some self) (Some other) (Some both)) }
        ensures same { IfErr result (λ e. e.0 ≡ self) }
        ensures same_other { IfErr result (λ e. e.1 ≡ other) }
        ensures apart { IfErr result (λ e. AdjoinHeld self other → ⊥) }
    {
        match (self, other) {
            (Held::Kept(left), Held::Kept(right)) => {
                if left.adjoins(&right) {
                    Ok(Held::Kept(left.join(right)))
                } else {
                    Err((Held::Kept(left), Held::Kept(right)))
                }
            }
            (Held::Counted(left), Held::Counted(right)) => {
                if left.adjoins(&right) {
                    Ok(Held::Counted(left.join(right)))
                } else {
                    Err((Held::Counted(left), Held::Counted(right)))
                }
            }
            (Held::Kept(left), Held::Counted(right)) => {
                Err((Held::Kept(left), Held::Counted(right)))
            }
            (Held::Counted(left), Held::Kept(right)) => {
                Err((Held::Counted(left), Held::Kept(right)))
            }
        }
    }

    /// Dismantles the cell, and puts its node in an engine of the same kind. Otherwise returns the pass and the reason.
    pub fn finish(self, engine: &mut HeldEngine) -> Result<(), (HeldPass, Fault)>
        requires alike { is_counting engine.old ≡ is_counting self }
        requires none_open { NoneOpen (held_value engine.old) }
        ensures done { OnOk result (Finished (Some self) (Some engine.new)) }
        ensures same { IfErr result (λ e. e.0 ≡ self) }
        ensures why { IfErr result (λ e. ((e.1 ≡ Fault.BatchOpen) × HasOpen (held_value self)) ⊎ (e.1 ≡ Fault.BadPass)) }
    {
        match (self, engine) {
            (Held::Kept(pass), Held::Kept(engine)) => match finish_in(pass, engine) {
                Ok(()) => Ok(()),
                Err((pass, fault)) => Err((Held::Kept(pass), fault)),
            },
            (Held::Counted(pass), Held::Counted(engine)) => match finish_in(pass, engine) {
                Ok(()) => Ok(()),
                Err((pass, fault)) => Err((Held::Counted(pass), fault)),
            },
            _ => unreachable!(),
        }
    }
}

// Dismantles the cell, and puts its node in the engine.
fn finish_in<R: Recorder>(
    pass: SharedPass<R>,
    engine: &mut Engine<R>,
) -> Result<(), (SharedPass<R>, Fault)>
    requires { NoneOpen engine.old }
    ensures done { OnOk result (Dismantled pass engine.new) }
    ensures same { IfErr result (λ e. e.0 ≡ pass) }
    ensures why { IfErr result (λ e. ((e.1 ≡ Fault.BatchOpen) × HasOpen pass) ⊎ (e.1 ≡ Fault.BadPass)) }
{
    engine.replace(pass.finish()?);
    Ok(())
}
