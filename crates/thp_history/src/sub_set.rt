//! A set of subpages of one page.
ghost use Rattle.std.specs.Prelude.{◌≡◌, ℕ, ◌+◌, ◌-◌, ◌*◌, ◌/◌, ◌%◌, ◌^◌, ◌<◌, ◌≤◌, not, ◌&&◌, ◌||◌, IsTrue, ◌↔◌, min, nat_eq, nat_lt, slice_set, length, true, false, if◌then◌else◌};
ghost use Rattle.std.specs.Int.{bit_at};
ghost use Rattle.thp_history.specs.Limits.{max_order, max_subpages};
ghost use Rattle.thp_history.specs.Sets.{has, set_of, set_size, covers, one_alone, some_below, same_set, same_set-equiv, same_set-partial_equiv};

use crate::limits::MAX_SUBPAGES;
use std::marker::Model;

// The set whose words are those of two sets, combined by an operator.
macro_rules! word_by_word {
    ($a:expr, $b:expr, $($operator:tt)+) => {{
        let (a, b) = ($a.words, $b.words);
        SubSet {
            words: [
                a[0] $($operator)+ b[0],
                a[1] $($operator)+ b[1],
                a[2] $($operator)+ b[2],
                a[3] $($operator)+ b[3],
                a[4] $($operator)+ b[4],
                a[5] $($operator)+ b[5],
                a[6] $($operator)+ b[6],
                a[7] $($operator)+ b[7],
            ],
        }
    }};
}

/// A set of subpages: numbers below 512. Contracts see it as a list of 512 truth values.
#[derive(Clone, Copy, Debug)]
pub struct SubSet {
    // subpage i is bit i % 64 of word i / 64
    words: [u64; 8],
}

impl Model for SubSet {
    ghost use Rattle.std.specs.Prelude.{List, Bool};

    ghost Value = { List Bool };

    ghost use Rattle.thp_history.specs.Sets.{set_of};
    ghost use Rattle.thp_history.specs.Words.{in_words, words_of, AreWords, words_of-truths};

    ghost view = { λ s. set_of (in_words s.words) };

    ghost invariant = { λ s. AreWords s.words };

    ghost inverse = { λ t. record { words = words_of t } };

    ghost inverse_ok = { λ s h. words_of-truths s h };
}

impl PartialEq for SubSet {
    ghost eq = { same_set };

    ghost laws = { same_set-partial_equiv };

    fn eq(&self, other: &SubSet) -> bool {
        self.words == other.words
    }
}

impl Eq for SubSet {
    ghost laws = { same_set-equiv };
}

impl SubSet {
    /// Returns the empty set.
    pub fn empty() -> SubSet
        ensures { result ≡ set_of (λ i. false) }
    {
        SubSet { words: [0; 8] }
    }

    /// Returns the set of all subpages of a page of this order.
    // out of line: if only one branch needs it, LLVM would otherwise compute it before the branch
    #[inline(never)]
    pub fn full(order: u32) -> SubSet
        requires { order ≤ max_order }
        ensures { result ≡ set_of (λ i. nat_lt i (2 ^ order)) }
    {
        SubSet::range(0, 1 << order)
    }

    /// Returns the set of the `count` subpages from `first` on.
    pub fn range(first: u32, count: u32) -> SubSet
        requires { first + count ≤ max_subpages }
        ensures { result ≡ set_of (covers first count) }
    {
        if count == 0 {
            return SubSet::empty();
        }
        if count == MAX_SUBPAGES as u32 {
            // All subpages of a page of the greatest order, the most frequent long range: no word is cut.
            return SubSet {
                words: [u64::MAX; 8],
            };
        }
        let end = first + count;
        let (start, last) = (first / 64, (end - 1) / 64);
        // Most long ranges are whole pages, so words are removed.
        let mut words = [u64::MAX; 8];
        for k in 0..start {
            words[k as usize] = 0;
        }
        for k in last + 1..8 {
            words[k as usize] = 0;
        }
        // no word between the first and the last contains a subpage outside the range
        words[start as usize] &= !word_below(first, start);
        words[last as usize] &= word_below(end, last);
        SubSet { words }
    }

    /// Returns whether the set is empty.
    pub fn is_empty(&self) -> bool
        ensures empty { IsTrue result ↔ (self.now ≡ set_of (λ i. false)) }
        ensures none { result ≡ not (some_below max_subpages (has self.now)) }
    {
        self.words == [0; 8]
    }

    /// Returns whether subpage `i` is in the set.
    pub fn contains(&self, i: u32) -> bool
        requires { i < max_subpages }
        ensures { result ≡ has self.now i }
    {
        let word = self.words[i as usize / 64];
        (word >> (i % 64)) & 1 == 1
    }

    /// Inserts subpage `i` into the set.
    pub fn insert(&mut self, i: u32)
        requires { i < max_subpages }
        ensures { self.new ≡ slice_set self.old i true }
    {
        let at = i as usize / 64;
        self.words[at] |= 1u64 << (i % 64);
    }

    /// Returns the subpages that are in either set.
    pub fn union(self, other: SubSet) -> SubSet
        ensures { result ≡ set_of (λ i. has self i || has other i) }
    {
        word_by_word!(self, other, |)
    }

    /// Returns the subpages of this set that are not in the other.
    pub fn difference(self, other: SubSet) -> SubSet
        ensures { result ≡ set_of (λ i. has self i && not (has other i)) }
    {
        word_by_word!(self, other, & !)
    }

    /// Returns the subpages that are in both sets.
    pub fn intersection(self, other: SubSet) -> SubSet
        ensures { result ≡ set_of (λ i. has self i && has other i) }
    {
        word_by_word!(self, other, &)
    }

    /// Returns the subpages that are in exactly one of the sets.
    pub fn symmetric_difference(self, other: SubSet) -> SubSet
        ensures { result ≡ set_of (λ i. one_alone (has self i) (has other i)) }
    {
        word_by_word!(self, other, ^)
    }

    /// Returns which of the 64 subpages from `64 * at` on are in the set: bit k is set if subpage `64 * at + k` is.
    pub fn word(&self, at: usize) -> u64
        requires { at < 8 }
        ensures { (i : ℕ) → i / 64 ≡ at → nat_eq (bit_at result (i % 64)) 1 ≡ has self.now i }
    {
        self.words[at]
    }

    /// Replaces the 64 subpages from `64 * at` on: subpage `64 * at + k` is in the set afterwards if bit k is set.
    pub fn set_word(&mut self, at: usize, word: u64)
        requires { at < 8 }
        ensures { self.new ≡ set_of (λ i. if nat_eq (i / 64) at then nat_eq (bit_at word (i % 64)) 1 else has self.old i) }
    {
        self.words[at] = word;
    }

    /// Returns the number of subpages in the set.
    pub fn count(&self) -> u32
        ensures { result ≡ set_size self.now }
    {
        let mut count: u32 = 0;
        for word in &self.words {
            count += word.count_ones();
        }
        count
    }

    /// Returns the first subpage from `from` on that is in the set, or 512 if there is none.
    pub fn first_in(&self, from: u32) -> u32
        requires { from ≤ max_subpages }
        ensures size { length self.now ≡ max_subpages }
        ensures from { from ≤ result }
        ensures within { result ≤ max_subpages }
        ensures none_before { (i : ℕ) → from ≤ i → i < result → has self.now i ≡ false }
        ensures found { result < max_subpages → has self.now result ≡ true }
    {
        self.first_that(true, from)
    }

    /// Returns the first subpage from `from` on that is not in the set, or 512 if there is none.
    pub fn first_out(&self, from: u32) -> u32
        requires { from ≤ max_subpages }
        ensures from { from ≤ result }
        ensures within { result ≤ max_subpages }
        ensures all_before { (i : ℕ) → from ≤ i → i < result → has self.now i ≡ true }
        ensures found { result < max_subpages → has self.now result ≡ false }
    {
        self.first_that(false, from)
    }

    // the first number from `from` on whose membership is `is_in`, or 512
    fn first_that(&self, is_in: bool, from: u32) -> u32
        requires { from ≤ max_subpages }
        ensures size { length self.now ≡ max_subpages }
        ensures from { from ≤ result }
        ensures within { result ≤ max_subpages }
        ensures none_before { (i : ℕ) → from ≤ i → i < result → has self.now i ≡ not is_in }
        ensures found { result < max_subpages → has self.now result ≡ is_in }
    {
        let mut at = from;
        while at < MAX_SUBPAGES as u32 {
            let word = self.words[at as usize / 64];
            let ahead = marks(word, is_in) >> (at % 64);
            if ahead != 0 {
                return at + ahead.trailing_zeros();
            }
            at += 64 - at % 64;
        }
        at
    }
}

// the bits of a word whose value is `is_in`
fn marks(word: u64, is_in: bool) -> u64
    ensures { result ≡ (if is_in then word else 18446744073709551615 - word) }
{
    if is_in { word } else { !word }
}

// word k of the set of the numbers below n: that many ones
fn word_below(n: u32, k: u32) -> u64
    requires { k < 8 }
    ensures { result ≡ 2 ^ min 64 (n - 64 * k) - 1 }
{
    let ones = n.saturating_sub(64 * k);
    if ones < 64 { (1 << ones) - 1 } else { u64::MAX }
}
