//! A handle of any kind of value.
ghost use Rattle.std.specs.Prelude.{◌≡◌, Option, None, Some, IfSome, IfNone, IsSome, is_some};
ghost use Rattle.std_alloc.specs.Box.Ownership.{box_owns};

use std::alloc::{Allocator, Global};
use std::marker::Model;

/// A handle: it owns a value in memory, or is empty. C sees it as a `ThpNode`, a `ThpCheck` or a `ThpPass`, since a struct that
/// crosses to C has no type parameter.
#[derive(Drop)]
pub struct Handle<T> {
    pub(crate) at: *mut T,
    pub(crate) live: u32,
    // The value that the handle owns, for contracts.
    pub ghost held: { Option T },
}

impl<T> Model for Handle<T> {
    ghost use Rattle.thp_capi.specs.Handles.{handle_owns};

    ghost also_owns = { λ h. handle_owns T.row h.at h.live h.held };
}

impl<T> Handle<T> {
    /// Returns the empty handle.
    pub fn empty() -> Handle<T>
        ensures { result.held ≡ None }
    {
        Handle {
            at: std::ptr::null_mut(),
            live: 0,
        }
    }

    fn of(loose: RawBox<T, Global>) -> Handle<T>
        ensures { result.held ≡ Some loose.value }
    {
        let RawBox { at, alloc: _ } = loose;
        Handle { at, live: 1 }
    }

    fn is_full(&mut self) -> bool
        ensures same { self.new ≡ self.old }
        ensures full { result ≡ is_some self.old.held }
    {
        self.live == 1
    }

    fn into_loose(self, alloc: Global) -> RawBox<T, Global>
        requires { IsSome self.held }
        ensures { self.held ≡ Some result.value }
    {
        RawBox { at: self.at, alloc }
    }
}

impl<T: Drop> Handle<T> {
    /// Returns the handle of a value.
    pub fn store(value: Box<T>) -> Handle<T>
        ensures { result.held ≡ Some value.value }
    {
        Handle::of(RawBox::of(value))
    }

    /// Returns the value of the handle, if it has one.
    pub fn into_box(self, alloc: Global) -> Option<Box<T>>
        ensures none { IfNone result (self.held ≡ None) }
        ensures some { IfSome result (λ value. self.held ≡ Some value.value) }
    {
        let mut handle = self;
        if handle.is_full() {
            Some(handle.into_loose(alloc).into_box())
        } else {
            None
        }
    }
}

/// A box as a raw pointer and its allocator, which a C handle can store.
pub struct RawBox<T, A: Allocator> {
    pub(crate) at: *mut T,
    pub(crate) alloc: A,
    // The value in the box, for contracts.
    pub ghost value: { T },
}

impl<T, A: Allocator> Model for RawBox<T, A> {
    ghost also_owns = { λ l. box_owns (A.dealloc_token l.alloc) T.row l.at l.value };
}

impl<T: Drop, A: Allocator> RawBox<T, A> {
    /// Converts a box to its pointer.
    pub fn of(value: Box<T, A>) -> RawBox<T, A>
        ensures { result.value ≡ value.value }
    {
        let (at, alloc) = Box::into_raw_with_allocator(value);
        RawBox { at, alloc }
    }

    /// Converts the pointer back to its box.
    pub fn into_box(self) -> Box<T, A>
        ensures { result.value ≡ self.value }
    {
        let RawBox { at, alloc } = self;
        unsafe { Box::from_raw(alloc, at) }
    }
}
