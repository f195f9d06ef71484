//! The handle of a check, as a C program holds it.
ghost use Rattle.std.specs.Prelude.{◌≡◌, Option, None, Some, IfErr, IfOk};
ghost use Rattle.thp_capi.specs.Rooms.{value_of};
ghost use Rattle.thp_capi.specs.declared.checks.CheckStage.{CheckStage};
ghost use Rattle.thp_capi.specs.declared.room.Room.{Room};

use crate::checks::CheckStage;
use crate::codes::Fault;
use crate::handle::Handle;
use crate::room::Room;
use std::alloc::Global;
use std::marker::Model;

/// The handle of a check: it owns a check in memory, or is empty. `{ NULL, 0 }` is empty.
#[repr(C)]
#[derive(Drop)]
pub struct ThpCheck {
    at: *mut u8,
    live: u32,
    // The room that the handle owns, for contracts.
    pub ghost held: { Option (Room CheckStage) },
}

impl Model for ThpCheck {
    ghost use Rattle.thp_capi.specs.Handles.{handle_owns};
    ghost use Rattle.thp_capi.specs.Rows.{check_row};

    ghost also_owns = { λ h. handle_owns check_row h.at h.live h.held };
}

impl ThpCheck {
    // Replaces what the handle owns, and returns what it owned.
    fn exchange(&mut self, new: Handle<Room<CheckStage>>) -> Handle<Room<CheckStage>>
        ensures old { result.held ≡ self.old.held }
        ensures new { self.new.held ≡ new.held }
    {
        let Handle { at, live } = new;
        let old = Handle {
            at: self.at as *mut Room<CheckStage>,
            live: self.live,
        };
        self.at = at as *mut u8;
        self.live = live;
        old
    }

    /// Removes the check and its room from the handle, if it has one.
    pub fn take(&mut self, alloc: Global) -> Result<(Box<Room<CheckStage>>, CheckStage), Fault>
        ensures none { IfErr result (λ fault. (fault ≡ Fault.Empty) × (value_of self.old.held ≡ None)) }
        ensures some { IfOk result (λ taken. value_of self.old.held ≡ Some taken.1) }
        ensures empty { value_of self.new.held ≡ None }
    {
        Room::take(self.exchange(Handle::empty()), alloc)
    }

    /// Puts a check in its room, and stores both in the handle.
    pub fn put(&mut self, room: Box<Room<CheckStage>>, stage: CheckStage)
        ensures { value_of self.new.held ≡ Some stage }
    {
        let _old = self.exchange(Room::put(room, stage));
    }
}
