//! Bit planes, and the carries and borrows that ripple through them.
ghost use Rattle.std.specs.Prelude.{◌≡◌, ℕ, ◌+◌, ◌<◌, ◌≤◌, ◌^◌, ◌&&◌, true, cond, nat_eq};
ghost use Rattle.thp_history.specs.Prelude.{max_subpages, covers, has, some_below};
ghost use Rattle.thp_page.specs.Tallies.{tally};

use crate::subpages::Subpages;
use thp_history::SubSet;

// The number of planes: a count has 16 bits.
pub(crate) const PLANES: usize = 16;

// The bits of 512 counts.
#[derive(Drop)]
pub(crate) struct Planes {
    // The number of planes in use. The content of the others is unspecified.
    pub(crate) used: usize,
    // Plane k is the set of the subpages whose count has bit k.
    pub(crate) sets: [SubSet; PLANES],
}

impl Planes {
    // All counts are 0.
    #[tactic(auto, using(crate::proofs::Carries::no_planes))]
    pub(crate) fn none() -> Planes
        ensures used { result.used ≡ 0 }
        ensures counts { (i : ℕ) → tally result i ≡ 0 }
    {
        Planes {
            used: 0,
            sets: [SubSet::empty(); PLANES],
        }
    }

    // Adds `2 ^ from` to the count of each of these subpages: a carry that ripples up from plane `from`.
    #[inline(always)]
    pub(crate) fn add<S: Subpages>(&mut self, subpages: S, from: usize)
        requires most { self.old.used ≤ 16 }
        requires from { from ≤ self.old.used }
        requires small { (i : ℕ) → i < max_subpages → S.chosen subpages i ≡ true → tally self.old i + 2 ^ from ≤ 65535 }
        ensures counts { (i : ℕ) → i < max_subpages → tally self.new i ≡ tally self.old i + cond (S.chosen subpages i) (2 ^ from) 0 }
        ensures most { self.new.used ≤ 16 }
        ensures least { self.old.used ≤ self.new.used }
    {
        let mut carry = subpages;
        for k in from..PLANES {
            if carry.is_empty() {
                return;
            }
            if k == self.used {
                self.open(carry.to_set());
                return;
            }
            let next = carry.within(&self.sets[k]);
            carry.toggle(&mut self.sets[k]);
            carry = next;
        }
    }

    // Adds a plane to those in use. Its former content was unspecified.
    #[inline(never)]
    #[tactic(auto, using(crate::proofs::Carries::opened))]
    fn open(&mut self, set: SubSet)
        requires { self.old.used < 16 }
        ensures used { self.new.used ≡ self.old.used + 1 }
        ensures counts { (i : ℕ) → tally self.new i ≡ tally self.old i + cond (has set i) (2 ^ self.old.used) 0 }
    {
        self.sets[self.used] = set;
        self.used += 1;
    }

    // Makes at least `wanted` planes be in use. The counts don't change.
    pub(crate) fn widen(&mut self, wanted: usize)
        requires most { self.old.used ≤ 16 }
        requires wanted { wanted ≤ 16 }
        ensures counts { (i : ℕ) → tally self.new i ≡ tally self.old i }
        ensures most { self.new.used ≤ 16 }
        ensures least { wanted ≤ self.new.used }
    {
        while self.used < wanted {
            self.open(SubSet::empty());
        }
    }

    // Subtracts one from the count of each of these subpages: a borrow that ripples up from the lowest plane.
    #[inline(always)]
    pub(crate) fn take<S: Subpages>(&mut self, subpages: S)
        requires most { self.old.used ≤ 16 }
        requires positive { (i : ℕ) → i < max_subpages → S.chosen subpages i ≡ true → 1 ≤ tally self.old i }
        ensures counts { (i : ℕ) → i < max_subpages → tally self.new i + cond (S.chosen subpages i) 1 0 ≡ tally self.old i }
        ensures used { self.new.used ≡ self.old.used }
    {
        let mut borrow = subpages;
        for k in 0..self.used {
            if borrow.is_empty() {
                return;
            }
            borrow.toggle(&mut self.sets[k]);
            borrow = borrow.within(&self.sets[k]);
        }
    }

    // The count of a subpage, bit by bit.
    pub(crate) fn count(&self, i: u32) -> u32
        requires most { self.now.used ≤ 16 }
        requires inside { i < max_subpages }
        ensures { result ≡ tally self.now i }
    {
        let mut count = 0;
        for k in 0..self.used {
            if self.sets[k].contains(i) {
                count += 1 << k;
            }
        }
        count
    }

    // Those of these subpages whose count is `n`, a number with no more bits than there are planes in use.
    #[inline(always)]
    pub(crate) fn with_count<S: Subpages>(&self, subpages: S, n: u16) -> S
        requires most { self.now.used ≤ 16 }
        requires fits { n < 2 ^ self.now.used }
        ensures { (i : ℕ) → i < max_subpages → S.chosen result i ≡ (S.chosen subpages i && nat_eq (tally self.now i) n) }
    {
        let mut left = subpages;
        for k in 0..self.used {
            if left.is_empty() {
                return left;
            }
            left = if (n >> k) & 1 == 1 {
                left.within(&self.sets[k])
            } else {
                left.outside(&self.sets[k])
            };
        }
        left
    }

    // Whether the count of one of the subpages of a range is `n`.
    #[inline(always)]
    pub(crate) fn has_count(&self, first: usize, count: usize, n: u16) -> bool
        requires most { self.now.used ≤ 16 }
        requires inside { first + count ≤ max_subpages }
        ensures { result ≡ some_below max_subpages (λ i. covers first count i && nat_eq (tally self.now i) n) }
    {
        // A number with more bits than there are planes equals no count.
        u32::from(n) >> self.used == 0 && self.has_small_count(first, count, n)
    }

    // The same for a number with no more bits than there are planes in use.
    #[inline(never)]
    fn has_small_count(&self, first: usize, count: usize, n: u16) -> bool
        requires most { self.now.used ≤ 16 }
        requires inside { first + count ≤ max_subpages }
        requires fits { n < 2 ^ self.now.used }
        ensures { result ≡ some_below max_subpages (λ i. covers first count i && nat_eq (tally self.now i) n) }
    {
        let range = SubSet::range(first as u32, count as u32);
        !self.with_count(range, n).is_empty()
    }

    // Adds `n` to the count of each subpage of a set, bit by bit.
    pub(crate) fn add_number(&mut self, subpages: SubSet, n: u16)
        requires most { self.old.used ≤ 16 }
        requires small { (i : ℕ) → i < max_subpages → has subpages i ≡ true → tally self.old i + n ≤ 65535 }
        ensures counts { (i : ℕ) → i < max_subpages → tally self.new i ≡ tally self.old i + cond (has subpages i) n 0 }
        ensures most { self.new.used ≤ 16 }
    {
        for k in 0..PLANES {
            if (n >> k) & 1 == 1 {
                self.widen(k);
                self.add(subpages, k);
            }
        }
    }
}
