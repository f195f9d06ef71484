//! A page's own map counts, which contracts see as 512 numbers.
ghost use Rattle.std.specs.Prelude.{◌≡◌, ℕ, ◌+◌, ◌<◌, ◌≤◌, ◌&&◌, true, cond, nat_eq, nat_lt, replicate, slice_index};
ghost use Rattle.thp_history.specs.Prelude.{max_subpages, covers, has, set_of, some_below};
ghost use Rattle.thp_page.specs.Ranges.{some_count};

use crate::one_word::OneWord;
use crate::planes::Planes;
use crate::subpages::Subpages;
use std::marker::Model;
use thp_history::SubSet;

/// The own map count of each of a page's 512 subpages. Contracts see a list of 512 numbers, each below 65,536.
///
/// A change of a range reads and writes a few words for each bit that a count has needed since the last
/// [`clear`](MapCounts::clear). A change within 64 aligned subpages takes one word for each such bit. The set of the counts that
/// are not 0 is stored as well.
#[derive(Drop)]
pub struct MapCounts {
    // The subpages whose count is not 0.
    mapped: SubSet,
    // The counts, bit by bit.
    planes: Planes,
}

impl Model for MapCounts {
    ghost use Rattle.std.specs.Prelude.{ℕ, List};

    ghost Value = { List ℕ };

    ghost use Rattle.thp_page.specs.MapCounts.{counts_of, PlanesAgree};

    ghost view = { counts_of };

    ghost invariant = { PlanesAgree };
}

impl MapCounts {
    /// Returns counts of 0: no subpage is mapped.
    #[tactic(auto, using(crate::proofs::Seen::none_counted))]
    pub fn none() -> MapCounts
        ensures { result ≡ replicate max_subpages 0 }
    {
        MapCounts {
            mapped: SubSet::empty(),
            planes: Planes::none(),
        }
    }

    /// Sets all counts to 0. Writes no plane.
    #[inline(always)]
    pub fn clear(&mut self)
        ensures { self.new ≡ replicate max_subpages 0 }
    {
        self.mapped = SubSet::empty();
        self.planes.used = 0;
    }

    /// Returns whether subpage `i` is mapped.
    #[inline(always)]
    pub fn is_mapped(&self, i: usize) -> bool
        requires { i < max_subpages }
        ensures { result ≡ nat_lt 0 (slice_index self.now i) }
    {
        self.mapped.contains(i as u32)
    }

    /// Returns the count of subpage `i`. Reads one bit of each plane.
    #[tactic(auto, using(crate::proofs::Seen::seen_at))]
    pub fn count(&self, i: usize) -> u32
        requires { i < max_subpages }
        ensures { result ≡ slice_index self.now i }
    {
        self.planes.count(i as u32)
    }

    /// Returns the subpages that are mapped.
    #[inline(always)]
    pub fn mapped(&self) -> SubSet
        ensures { result ≡ set_of (λ i. nat_lt 0 (slice_index self.now i)) }
    {
        self.mapped
    }

    /// Returns whether some subpage is mapped.
    #[inline(always)]
    pub fn has_mapped(&self) -> bool
        ensures { result ≡ some_below max_subpages (λ i. nat_lt 0 (slice_index self.now i)) }
    {
        !self.mapped.is_empty()
    }

    /// Returns whether some subpage of the range is not mapped.
    #[inline(always)]
    pub fn has_unmapped(&self, first: usize, count: usize) -> bool
        requires { first + count ≤ max_subpages }
        ensures { result ≡ some_count self.now first count (λ n. nat_eq n 0) }
    {
        if let Some(word) = OneWord::range(first, count) {
            return !word.outside(&self.mapped).is_empty();
        }
        let range = SubSet::range(first as u32, count as u32);
        !range.outside(&self.mapped).is_empty()
    }

    /// Returns whether some count of the range is `n`.
    #[inline(always)]
    pub fn has_count(&self, first: usize, count: usize, n: u16) -> bool
        requires { first + count ≤ max_subpages }
        ensures { result ≡ some_count self.now first count (λ m. nat_eq m n) }
    {
        self.planes.has_count(first, count, n)
    }

    /// Adds `n` to the count of each subpage of the set.
    pub fn add(&mut self, subpages: SubSet, n: u16)
        requires { (i : ℕ) → i < max_subpages → has subpages i ≡ true → slice_index self.old i + n ≤ 65535 }
        ensures { (i : ℕ) → i < max_subpages → slice_index self.new i ≡ slice_index self.old i + cond (has subpages i) n 0 }
    {
        if n > 0 {
            self.planes.add_number(subpages, n);
            self.mapped = self.mapped.union(subpages);
        }
    }

    /// Adds a mapping of each subpage of the range.
    #[inline(always)]
    pub fn map(&mut self, first: usize, count: usize)
        requires inside { first + count ≤ max_subpages }
        requires small { (i : ℕ) → covers first count i ≡ true → slice_index self.old i < 65535 }
        ensures { (i : ℕ) → i < max_subpages → slice_index self.new i ≡ slice_index self.old i + cond (covers first count i) 1 0 }
    {
        match OneWord::range(first, count) {
            Some(word) => self.map_each(word),
            None => self.map_each(SubSet::range(first as u32, count as u32)),
        }
    }

    // The same for any subpages.
    #[inline(always)]
    fn map_each<S: Subpages>(&mut self, subpages: S)
        requires { (i : ℕ) → i < max_subpages → S.chosen subpages i ≡ true → slice_index self.old i < 65535 }
        ensures { (i : ℕ) → i < max_subpages → slice_index self.new i ≡ slice_index self.old i + cond (S.chosen subpages i) 1 0 }
    {
        self.planes.add(subpages, 0);
        subpages.outside(&self.mapped).toggle(&mut self.mapped);
    }

    /// Removes a mapping of each subpage of the range, and returns whether one of them is now unmapped.
    #[inline(always)]
    pub fn unmap(&mut self, first: usize, count: usize) -> bool
        requires inside { first + count ≤ max_subpages }
        requires positive { (i : ℕ) → covers first count i ≡ true → 1 ≤ slice_index self.old i }
        ensures taken { (i : ℕ) → i < max_subpages → slice_index self.old i ≡ slice_index self.new i + cond (covers first count i) 1 0 }
        ensures unmapped { result ≡ some_count self.old first count (λ n. nat_eq n 1) }
    {
        match OneWord::range(first, count) {
            Some(word) => self.unmap_each(word),
            None => self.unmap_each(SubSet::range(first as u32, count as u32)),
        }
    }

    // The same for any subpages.
    #[inline(always)]
    fn unmap_each<S: Subpages>(&mut self, subpages: S) -> bool
        requires { (i : ℕ) → i < max_subpages → S.chosen subpages i ≡ true → 1 ≤ slice_index self.old i }
        ensures taken { (i : ℕ) → i < max_subpages → slice_index self.old i ≡ slice_index self.new i + cond (S.chosen subpages i) 1 0 }
        ensures unmapped { result ≡ some_below max_subpages (λ i. S.chosen subpages i && nat_eq (slice_index self.old i) 1) }
    {
        self.planes.take(subpages);
        let unmapped = self.planes.with_count(subpages, 0);
        unmapped.toggle(&mut self.mapped);
        !unmapped.is_empty()
    }
}
