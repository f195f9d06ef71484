//! The handle of a pass, as a C program holds it.
ghost use Rattle.std.specs.Prelude.{◌≡◌, Option, None, Some, IfErr, IfOk, IsSome};
ghost use Rattle.thp_capi.specs.Rooms.{value_of};
ghost use Rattle.thp_capi.specs.Held.{HeldPass};
ghost use Rattle.thp_capi.specs.declared.room.Room.{Room};

use crate::codes::Fault;
use crate::handle::Handle;
use crate::held::HeldPass;
use crate::room::Room;
use std::alloc::Global;
use std::marker::Model;

/// The handle of a pass: it owns a pass in memory, or is empty. `{ NULL, 0 }` is empty.
#[repr(C)]
#[derive(Drop)]
pub struct ThpPass {
    at: *mut u8,
    live: u32,
    // The room that the handle owns, for contracts.
    pub ghost held: { Option (Room HeldPass) },
}

impl Model for ThpPass {
    ghost use Rattle.thp_capi.specs.Handles.{handle_owns};
    ghost use Rattle.thp_capi.specs.Rows.{pass_row};

    ghost also_owns = { λ h. handle_owns pass_row h.at h.live h.held };
}

impl ThpPass {
    // Replaces what the handle owns, and returns what it owned.
    fn exchange(&mut self, new: Handle<Room<HeldPass>>) -> Handle<Room<HeldPass>>
        ensures old { result.held ≡ self.old.held }
        ensures new { self.new.held ≡ new.held }
    {
        let Handle { at, live } = new;
        let old = Handle {
            at: self.at as *mut Room<HeldPass>,
            live: self.live,
        };
        self.at = at as *mut u8;
        self.live = live;
        old
    }

    /// Removes the pass and its room from the handle, if it has one.
    pub fn take(&mut self, alloc: Global) -> Result<(Box<Room<HeldPass>>, HeldPass), Fault>
        ensures none { IfErr result (λ fault. (fault ≡ Fault.Empty) × (value_of self.old.held ≡ None)) }
        ensures some { IfOk result (λ taken. value_of self.old.held ≡ Some taken.1) }
        ensures empty { value_of self.new.held ≡ None }
    {
        Room::take(self.exchange(Handle::empty()), alloc)
    }

    /// Puts a pass in its room, and stores both in the handle.
    pub fn put(&mut self, room: Box<Room<HeldPass>>, pass: HeldPass)
        ensures { value_of self.new.held ≡ Some pass }
    {
        let _old = self.exchange(Room::put(room, pass));
    }

    /// Removes the room with the pass from the handle, if it has one.
    pub fn lend(&mut self, alloc: Global) -> Result<Box<Room<HeldPass>>, Fault>
        ensures none { IfErr result (λ fault. (fault ≡ Fault.Empty) × (value_of self.old.held ≡ None)) }
        ensures some { IfOk result (λ room. room.value.value ≡ value_of self.old.held) }
        ensures full { IfOk result (λ room. IsSome room.value.value) }
        ensures empty { value_of self.new.held ≡ None }
    {
        Room::lend(self.exchange(Handle::empty()), alloc)
    }

    /// Stores a room and the pass in it in the handle.
    pub fn restore(&mut self, room: Box<Room<HeldPass>>)
        ensures { value_of self.new.held ≡ room.value.value }
    {
        let _old = self.exchange(Handle::store(room));
    }
}
