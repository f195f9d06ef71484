//! A set of numbers in words of 64 bits.
ghost use Rattle.std.specs.Prelude.{◌≡◌, ◌*◌, length};
ghost use Rattle.thp_history.specs.Prelude.{in_words};

use crate::least_set::LeastSet;
use std::alloc::{AllocError, Global};
use std::marker::Model;

// A set of numbers: number i is bit i % 64 of word i / 64. The search for the least reads each word up to it.
#[derive(Drop)]
pub(crate) struct WordSet {
    words: Vec<u64>,
}

impl Model for WordSet {
    ghost use Rattle.std.specs.Prelude.{ℕ, List, length, ◌≤◌, ◌^◌};

    ghost Value = { List ℕ };

    ghost view = { λ s. s.words.items };

    ghost invariant = { λ s. length s.words.items ≤ 2 ^ 26 };
}

impl LeastSet for WordSet {
    ghost has = { in_words };

    ghost room = { λ s. 64 * length s };

    fn new(alloc: Global, most: u32) -> Result<WordSet, AllocError> {
        let words = vec![in alloc; 0; most.div_ceil(64) as usize]?;
        Ok(WordSet { words })
    }

    fn insert(&mut self, i: u32) {
        let at = i as usize / 64;
        self.words[at] |= 1u64 << (i % 64);
    }

    fn remove(&mut self, i: u32) {
        let at = i as usize / 64;
        self.words[at] &= !(1u64 << (i % 64));
    }

    fn least(&self) -> Option<u32> {
        for (at, word) in self.words.iter().enumerate() {
            if *word != 0 {
                return Some(64 * at as u32 + word.trailing_zeros());
            }
        }
        None
    }
}
