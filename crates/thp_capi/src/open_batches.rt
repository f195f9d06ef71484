//! The open batches of a pass's callers, each at its caller's index.
ghost use Rattle.std.specs.Prelude.{◌≡◌, ◌+◌, ◌<◌, ◌≤◌, ◌++◌, ℕ, IfOk, IsSome, None, OnErr, OnOk, drop, false, get_or, length, take, true, vec_capacity};

use std::alloc::{AllocError, Global};
use thp_node::Batch;

/// Allocates `callers` places with no batch.
pub fn none_open(alloc: Global, callers: u32) -> Result<Vec<Option<Batch>>, AllocError>
    ensures places { IfOk result (λ places. length places.items ≡ callers) }
    ensures none { IfOk result (λ places. (k : ℕ) → get_or places.items k None ≡ None) }
    ensures room { IfOk result (λ places. callers ≤ vec_capacity places) }
{
    let mut places = Vec::with_capacity(alloc, callers as usize)?;
    for _ in 0..callers {
        places.push_reserved(None);
    }
    Ok(places)
}

/// Moves the places from `at` on to a new vector that has capacity for `room` of them.
pub fn cut(
    alloc: Global,
    places: &mut Vec<Option<Batch>>,
    at: usize,
    room: usize,
) -> Result<Vec<Option<Batch>>, AllocError>
    requires inside { at ≤ length places.old.items }
    requires enough { length places.old.items ≤ at + room }
    ensures kept { OnOk result (places.new.items ≡ take at places.old.items) }
    ensures rest { IfOk result (λ rest. rest.items ≡ drop at places.old.items) }
    ensures room { IfOk result (λ rest. room ≤ vec_capacity rest) }
    ensures same { OnErr result (places.new.items ≡ places.old.items) }
    ensures room_kept { vec_capacity places.new ≡ vec_capacity places.old }
{
    let mut rest = Vec::with_capacity(alloc, room)?;
    let mut tail = places.split_off(at)?;
    // can't fail: there is room
    rest.append(&mut tail)?;
    Ok(rest)
}

/// Appends the places of `more` to `places`, in the memory of the latter.
pub fn joined(places: Vec<Option<Batch>>, more: Vec<Option<Batch>>) -> Vec<Option<Batch>>
    requires enough { length places.items + length more.items ≤ vec_capacity places }
    ensures items { result.items ≡ places.items ++ more.items }
    ensures room { vec_capacity places ≤ vec_capacity result }
{
    let mut all = places;
    let mut more = more;
    // can't fail: there is room
    let _ = all.append(&mut more);
    all
}

/// Returns whether a batch is open at any place.
pub fn some_open(places: &[Option<Batch>]) -> bool
    ensures some { result ≡ true → (k : ℕ) × (k < length places.now) × IsSome (get_or places.now k None) }
    ensures none { result ≡ false → (k : ℕ) → get_or places.now k None ≡ None }
{
    for batch in places {
        if batch.is_some() {
            return true;
        }
    }
    false
}
