//! The heap room of the value of a handle, so that a call which moves the value allocates nothing.
ghost use Rattle.std.specs.Prelude.{◌≡◌, None, Some, IfErr, IfOk, IsSome};
ghost use Rattle.thp_capi.specs.Rooms.{value_of};

use crate::codes::Fault;
use crate::handle::Handle;
use std::alloc::Global;
use thp_history::Refusal;

/// A value on the heap. The room is empty only while a call uses the value.
#[derive(Drop)]
pub struct Room<T> {
    /// The value; `None` while a call uses it.
    pub value: Option<T>,
}

impl<T: Drop> Room<T> {
    /// Allocates an empty room.
    pub fn new(alloc: Global) -> Result<Box<Room<T>>, Fault>
        ensures empty { IfOk result (λ room. room.value.value ≡ None) }
        ensures fault { IfErr result (λ fault. fault ≡ Fault.Refused Refusal.OutOfMemory) }
    {
        Ok(Box::new(alloc, Room { value: None })?)
    }

    /// Puts a value in its room, and returns the handle of both.
    pub fn put(room: Box<Room<T>>, value: T) -> Handle<Room<T>>
        ensures { value_of result.held ≡ Some value }
    {
        let mut room = room;
        room.value = Some(value);
        Handle::store(room)
    }

    /// Returns the value of a handle and its room, if the handle has one.
    pub fn take(handle: Handle<Room<T>>, alloc: Global) -> Result<(Box<Room<T>>, T), Fault>
        ensures none { IfErr result (λ fault. (fault ≡ Fault.Empty) × (value_of handle.held ≡ None)) }
        ensures some { IfOk result (λ taken. value_of handle.held ≡ Some taken.1) }
    {
        let mut room = handle.into_box(alloc).ok_or(Fault::Empty)?;
        let value = room.value.take().ok_or(Fault::Empty)?;
        Ok((room, value))
    }

    /// Returns the room of a handle with the value in it, if the handle has one.
    pub fn lend(handle: Handle<Room<T>>, alloc: Global) -> Result<Box<Room<T>>, Fault>
        ensures none { IfErr result (λ fault. (fault ≡ Fault.Empty) × (value_of handle.held ≡ None)) }
        ensures some { IfOk result (λ room. room.value.value ≡ value_of handle.held) }
        ensures full { IfOk result (λ room. IsSome room.value.value) }
    {
        let room = handle.into_box(alloc).ok_or(Fault::Empty)?;
        room.value.is_some().then_some(room).ok_or(Fault::Empty)
    }
}
