//! Sets of numbers whose least member can be found.
ghost use Rattle.std.specs.Prelude.{◌≡◌, ℕ, Bool, ◌<◌, ◌≤◌, nat_eq, cond, true, false, IfOk, IfSome, IfNone};

use std::alloc::{AllocError, Global};

// A set of numbers. Contracts see whether a number is in it, and the room: numbers below can be inserted.
pub(crate) trait LeastSet: Drop {
    ghost has: { Self → ℕ → Bool };

    ghost room: { Self → ℕ };

    // An empty set for the numbers below `most`. Reserves all memory that it will need, and fails if that is not possible.
    fn new(alloc: Global, most: u32) -> Result<Self, AllocError>
        ensures none { IfOk result (λ s. (i : ℕ) → has s i ≡ false) }
        ensures room { IfOk result (λ s. most ≤ room s) };

    // Inserts a number.
    fn insert(&mut self, i: u32)
        requires { i < room self.old }
        ensures with_it { (k : ℕ) → has self.new k ≡ cond (nat_eq k i) true (has self.old k) }
        ensures room { room self.new ≡ room self.old };

    // Removes a number.
    fn remove(&mut self, i: u32)
        requires { i < room self.old }
        ensures without_it { (k : ℕ) → has self.new k ≡ cond (nat_eq k i) false (has self.old k) }
        ensures room { room self.new ≡ room self.old };

    // The least number of the set, if any.
    fn least(&self) -> Option<u32>
        ensures there { IfSome result (λ i. has self.now i ≡ true) }
        ensures least { IfSome result (λ i. (k : ℕ) → k < i → has self.now k ≡ false) }
        ensures none { IfNone result ((k : ℕ) → has self.now k ≡ false) };
}
