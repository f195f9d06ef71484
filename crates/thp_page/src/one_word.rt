//! Subpages that lie in one word of a set.
ghost use Rattle.std.specs.Prelude.{◌≡◌, ℕ, ◌+◌, ◌-◌, ◌*◌, ◌/◌, ◌%◌, ◌^◌, ◌<◌, ◌≤◌, IfSome};
ghost use Rattle.thp_history.specs.Prelude.{max_subpages, covers};
ghost use Rattle.thp_page.specs.OneWords.{in_word};

use crate::subpages::Subpages;
use thp_history::SubSet;

// Some of the 64 subpages of a word: only that word of a set is read or written.
#[derive(Clone, Copy)]
pub(crate) struct OneWord {
    // The word's place in a set.
    at: usize,
    // Bit k is set where subpage `64 * at + k` is one of them.
    bits: u64,
    ghost inside: { at < 8 },
}

impl OneWord {
    // The subpages of a range that is not empty and lies in one word; `None` for another range.
    #[inline(always)]
    #[tactic(auto, using(crate::proofs::WordBits::word_range))]
    pub(crate) fn range(first: usize, count: usize) -> Option<OneWord>
        requires { first + count ≤ max_subpages }
        ensures { IfSome result (λ w. (i : ℕ) → in_word w.at w.bits i ≡ covers first count i) }
    {
        if count == 0 || first % 64 + count > 64 {
            return None;
        }
        Some(OneWord {
            at: first / 64,
            bits: (u64::MAX >> (64 - count)) << (first % 64),
        })
    }
}

impl Subpages for OneWord {
    ghost chosen = { λ w. in_word w.at w.bits };

    #[inline(always)]
    #[tactic(auto, using(crate::proofs::WordBits::word_within))]
    fn within(&self, set: &SubSet) -> OneWord {
        OneWord {
            at: self.at,
            bits: self.bits & set.word(self.at),
        }
    }

    #[inline(always)]
    #[tactic(auto, using(crate::proofs::WordBits::word_outside))]
    fn outside(&self, set: &SubSet) -> OneWord {
        OneWord {
            at: self.at,
            bits: self.bits & !set.word(self.at),
        }
    }

    #[inline(always)]
    fn toggle(&self, set: &mut SubSet) {
        set.set_word(self.at, set.word(self.at) ^ self.bits);
    }

    #[inline(always)]
    #[tactic(auto, using(crate::proofs::WordBits::word_none))]
    fn is_empty(&self) -> bool {
        self.bits == 0
    }

    #[inline(always)]
    #[tactic(auto, using(crate::proofs::WordBits::word_set))]
    fn to_set(&self) -> SubSet {
        let mut set = SubSet::empty();
        set.set_word(self.at, self.bits);
        set
    }
}
