//! The handle of a node, as a C program holds it.
ghost use Rattle.std.specs.Prelude.{◌≡◌, Option, None, Some, IfErr, IfOk};
ghost use Rattle.thp_capi.specs.Held.{HeldEngine};

use crate::codes::Fault;
use crate::handle::Handle;
use crate::held::HeldEngine;
use std::alloc::Global;
use std::marker::Model;

/// The handle of a node: it owns an engine in memory, or is empty. `{ NULL, 0 }` is empty.
#[repr(C)]
#[derive(Drop)]
pub struct ThpNode {
    at: *mut u8,
    live: u32,
    // The engine that the handle owns, for contracts.
    pub ghost held: { Option HeldEngine },
}

impl Model for ThpNode {
    ghost use Rattle.thp_capi.specs.Handles.{handle_owns};
    ghost use Rattle.thp_capi.specs.Rows.{engine_row};

    ghost also_owns = { λ h. handle_owns engine_row h.at h.live h.held };
}

impl ThpNode {
    // Replaces what the handle owns, and returns what it owned.
    fn exchange(&mut self, new: Handle<HeldEngine>) -> Handle<HeldEngine>
        ensures old { result.held ≡ self.old.held }
        ensures new { self.new.held ≡ new.held }
    {
        let Handle { at, live } = new;
        let old = Handle {
            at: self.at as *mut HeldEngine,
            live: self.live,
        };
        self.at = at as *mut u8;
        self.live = live;
        old
    }

    /// Stores the engine in the handle.
    pub fn store(&mut self, engine: Box<HeldEngine>)
        ensures { self.new.held ≡ Some engine.value }
    {
        let _old = self.exchange(Handle::store(engine));
    }

    /// Removes the engine from the handle, if it has one.
    pub fn take(&mut self, alloc: Global) -> Result<Box<HeldEngine>, Fault>
        ensures none { IfErr result (λ fault. (fault ≡ Fault.Empty) × (self.old.held ≡ None)) }
        ensures some { IfOk result (λ engine. self.old.held ≡ Some engine.value) }
        ensures empty { self.new.held ≡ None }
    {
        self.exchange(Handle::empty())
            .into_box(alloc)
            .ok_or(Fault::Empty)
    }
}
