//! What the handles of nodes and of passes hold: a node's events are stored, or only counted.
ghost use Rattle.std.specs.Prelude.{◌≡◌, ◌⊎◌, ◌↔◌, [], Err, IfErr, IfOk};
ghost use Rattle.thp_history.specs.Prelude.{IsNodeShape};
ghost use Rattle.thp_capi.specs.Prelude.{NoneOpen, held_value, is_counting};

use crate::codes::Fault;
use crate::engine::Engine;
use crate::shared_pass::SharedPass;
use std::alloc::Global;
use thp_history::{Refusal, Shape};
use thp_node::{CountOnly, FullLog};

/// An engine or a pass, by what becomes of its node's events.
#[derive(Drop)]
pub enum Held<K, C> {
    /// The events are stored.
    Kept(K),
    /// The events are only counted.
    Counted(C),
}

/// What the handle of a node holds.
pub type HeldEngine = Held<Engine<FullLog>, Engine<CountOnly>>;

/// What the handle of a pass holds.
pub type HeldPass = Held<SharedPass<FullLog>, SharedPass<CountOnly>>;

impl Held<Engine<FullLog>, Engine<CountOnly>> {
    /// Creates the engine of a node with no page, on the heap.
    pub fn new(alloc: Global, shape: Shape, counting: bool) -> Result<Box<HeldEngine>, Fault>
        ensures bad_size { (result ≡ Err Fault.BadSize) ↔ ¬ IsNodeShape shape }
        ensures counting { IfOk result (λ held. is_counting held.value ≡ counting) }
        ensures shape { IfOk result (λ held. (held_value held.value).node.shape ≡ shape) }
        ensures journal { IfOk result (λ held. (held_value held.value).node.journal ≡ []) }
        ensures none_open { IfOk result (λ held. NoneOpen (held_value held.value)) }
        ensures size { IfOk result (λ held. IsNodeShape shape) }
        ensures why { IfErr result (λ f. ((f ≡ Fault.BadSize) × ¬ IsNodeShape shape) ⊎ (f ≡ Fault.Refused Refusal.OutOfMemory)) }
    {
        Ok(if counting {
            Box::new(alloc, Held::Counted(Engine::new(alloc, shape)?))?
        } else {
            Box::new(alloc, Held::Kept(Engine::new(alloc, shape)?))?
        })
    }
}

/// The value of a result; where it is an error, the function returns its code.
#[macro_export]
macro_rules! attempt {
    ($answer:expr) => {
        match $answer {
            Ok(value) => value,
            Err(fault) => return $crate::code(Err($crate::Fault::from(fault))),
        }
    };
}

/// Does a call on the engine of a node's handle, which is written once for both kinds. Returns what the call returns; where the
/// handle is empty, the function returns that. With a place, the value is stored there, and the code is what is returned.
#[macro_export]
macro_rules! on_node {
    ($handle:expr, $alloc:expr, $engine:ident => $call:expr, $place:expr) => {
        $crate::report($crate::on_node!($handle, $alloc, $engine => $call), $place)
    };
    ($handle:expr, $alloc:expr, $engine:ident => $call:expr) => {{
        let mut held = $crate::attempt!($handle.take($alloc));
        let answer = match &mut *held {
            $crate::Held::Kept($engine) => $call,
            $crate::Held::Counted($engine) => $call,
        };
        $handle.store(held);
        answer
    }};
}

/// Does a call on the pass of a handle, as `on_node` does one on an engine.
#[macro_export]
macro_rules! on_pass {
    ($handle:expr, $alloc:expr, $pass:ident => $call:expr, $place:expr) => {
        $crate::report($crate::on_pass!($handle, $alloc, $pass => $call), $place)
    };
    ($handle:expr, $alloc:expr, $pass:ident => $call:expr) => {{
        let mut room = $crate::attempt!($handle.lend($alloc));
        let answer = match &mut room.value {
            Some($crate::Held::Kept($pass)) => $call,
            Some($crate::Held::Counted($pass)) => $call,
            None => unreachable!(),
        };
        $handle.restore(room);
        answer
    }};
}
