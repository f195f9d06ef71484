//! A vector whose memory is reserved when it is created, and taken as its elements are set.
ghost use Rattle.std.specs.Prelude.{◌≡◌, ◌<◌, ◌≤◌, ◌+◌, ◌-◌, ◌++◌, length, replicate, slice_get, slice_set, vec_capacity, IfOk, Some};

use std::alloc::{AllocError, Global};
use std::marker::Model;

/// A vector of a fixed length. Memory for all elements is reserved when it is created, but taken only up to the greatest index
/// that was set; the elements beyond are blank. So a table by block takes memory as blocks are used, and no call but `new`
/// allocates.
#[derive(Drop)]
pub struct ReservedVec<T: Copy> {
    count: u32,
    blank: T,
    // the first elements; those beyond are blank
    items: Vec<T>,
}

impl<T: Copy> Model for ReservedVec<T> {
    ghost use Rattle.std.specs.Prelude.{List, ◌≤◌, length, vec_capacity};
    ghost use Rattle.thp_links.specs.Reserved.{with_blanks};

    ghost Value = { List T };

    ghost view = { λ v. with_blanks v.items.items v.count v.blank };

    ghost invariant = { λ v. (length v.items.items ≤ v.count) × (v.count ≤ vec_capacity v.items) };
}

impl<T: Copy> ReservedVec<T> {
    /// Creates a vector of `count` elements, all equal to `blank`. Fails if memory for them can't be reserved.
    pub fn new(alloc: Global, count: u32, blank: T) -> Result<ReservedVec<T>, AllocError>
        ensures { IfOk result (λ v. v ≡ replicate count blank) }
    {
        let items = Vec::with_capacity(alloc, count as usize)?;
        Ok(ReservedVec {
            count,
            blank,
            items,
        })
    }

    /// Returns the number of elements.
    pub fn len(&self) -> u32
        ensures { result ≡ length self.now }
    {
        self.count
    }

    /// Returns the element at an index.
    #[inline(always)]
    pub fn at(&self, index: u32) -> T
        requires { index < length self.now }
        ensures { slice_get self.now index ≡ Some result }
    {
        match self.items.get(index as usize) {
            Some(item) => *item,
            None => self.blank,
        }
    }

    /// Sets the element at an index.
    #[inline(always)]
    pub fn set(&mut self, index: u32, item: T)
        requires { index < length self.old }
        ensures { self.new ≡ slice_set self.old index item }
    {
        let place = index as usize;
        if place >= self.items.len() {
            reach(&mut self.items, place, self.blank);
        }
        self.items[place] = item;
    }
}

// Takes memory up to this place, for blanks.
#[inline(never)]
fn reach<T: Copy>(items: &mut Vec<T>, place: usize, blank: T)
    requires reserved { place < vec_capacity items.old }
    requires outside { length items.old.items ≤ place }
    ensures blanks { items.new.items ≡ items.old.items ++ replicate (place + 1 - length items.old.items) blank }
    ensures reserved { vec_capacity items.new ≡ vec_capacity items.old }
{
    while items.len() <= place {
        items.push_reserved(blank);
    }
}
