//! A set of numbers in words of 64 bits, with the set of the words that have a bit.
ghost use Rattle.std.specs.Prelude.{◌≡◌, ◌*◌, length};
ghost use Rattle.thp_history.specs.Prelude.{in_words};

use crate::least_set::LeastSet;
use std::alloc::{AllocError, Global};
use std::marker::Model;
use thp_links::ReservedVec;

// A set of numbers: number i is bit i % 64 of word i / 64, and the summary is the set of the words that are not 0, so that the
// search for the least number reads one word. A word takes memory when a number is inserted there or beyond.
#[derive(Drop)]
pub(crate) struct SummedSet<S: LeastSet> {
    words: ReservedVec<u64>,
    summary: S,
}

impl<S: LeastSet> Model for SummedSet<S> {
    ghost use Rattle.std.specs.Prelude.{ℕ, List};
    ghost use Rattle.thp_live_pages.specs.FreeSets.{Sums};

    ghost Value = { List ℕ };

    ghost view = { λ s. s.words };

    ghost invariant = { λ s. Sums s.words (S.has s.summary) (S.room s.summary) };
}

impl<S: LeastSet> LeastSet for SummedSet<S> {
    ghost has = { in_words };

    ghost room = { λ s. 64 * length s };

    fn new(alloc: Global, most: u32) -> Result<SummedSet<S>, AllocError> {
        let count = most.div_ceil(64);
        Ok(SummedSet {
            words: ReservedVec::new(alloc, count, 0)?,
            summary: S::new(alloc, count)?,
        })
    }

    fn insert(&mut self, i: u32) {
        let at = i / 64;
        let word = self.words.at(at);
        self.words.set(at, word | 1u64 << (i % 64));
        if word == 0 {
            self.summary.insert(at);
        }
    }

    fn remove(&mut self, i: u32) {
        let at = i / 64;
        let word = self.words.at(at) & !(1u64 << (i % 64));
        self.words.set(at, word);
        if word == 0 {
            self.summary.remove(at);
        }
    }

    fn least(&self) -> Option<u32> {
        match self.summary.least() {
            Some(at) => Some(64 * at + self.words.at(at).trailing_zeros()),
            None => None,
        }
    }
}
