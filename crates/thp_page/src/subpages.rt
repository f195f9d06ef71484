//! The subpages that one call counts up or down.
ghost use Rattle.std.specs.Prelude.{◌≡◌, ℕ, ◌<◌, Bool, not, ◌&&◌};
ghost use Rattle.thp_history.specs.Prelude.{max_subpages, has, set_of, one_alone, some_below};

use thp_history::SubSet;

/// Subpages of a page whose counts change together: any set, or some that lie in one word of a set.
pub(crate) trait Subpages: Copy {
    // The subpages chosen.
    ghost chosen: { Self → ℕ → Bool };

    /// Returns those that are in the set.
    fn within(&self, set: &SubSet) -> Self
        ensures { (i : ℕ) → i < max_subpages → chosen result i ≡ (chosen self.now i && has set.now i) };

    /// Returns those that are not in the set.
    fn outside(&self, set: &SubSet) -> Self
        ensures { (i : ℕ) → i < max_subpages → chosen result i ≡ (chosen self.now i && not (has set.now i)) };

    /// Toggles the membership in the set of each of these subpages.
    fn toggle(&self, set: &mut SubSet)
        ensures { set.new ≡ set_of (λ i. one_alone (has set.old i) (chosen self.now i)) };

    /// Returns whether there is none.
    fn is_empty(&self) -> bool
        ensures { result ≡ not (some_below max_subpages (chosen self.now)) };

    /// Returns them as a set.
    fn to_set(&self) -> SubSet
        ensures { (i : ℕ) → i < max_subpages → has result i ≡ chosen self.now i };
}

impl Subpages for SubSet {
    ghost chosen = { has };

    #[inline(always)]
    fn within(&self, set: &SubSet) -> SubSet {
        self.intersection(*set)
    }

    #[inline(always)]
    fn outside(&self, set: &SubSet) -> SubSet {
        self.difference(*set)
    }

    #[inline(always)]
    fn toggle(&self, set: &mut SubSet) {
        *set = set.symmetric_difference(*self);
    }

    #[inline(always)]
    fn is_empty(&self) -> bool {
        SubSet::is_empty(self)
    }

    #[inline(always)]
    fn to_set(&self) -> SubSet {
        *self
    }
}
