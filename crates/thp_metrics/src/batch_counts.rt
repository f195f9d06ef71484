//! The numbers of pages that callers have in their batches.
ghost use Rattle.std.specs.Prelude.{◌≡◌, ◌<◌, ◌^◌, replicate, IfOk};
ghost use Rattle.thp_metrics.specs.Counting.{count_gone, count_more, callers_in, MayCount, MayGo};

use std::alloc::{AllocError, Global};
use std::marker::Model;

/// The number of callers, from 0 on, for which it is recorded whether they have pages in their batches.
pub const SHOWN_CALLERS: u32 = 64;

// The number of pages that each of these callers has in its batch.
#[derive(Drop)]
pub(crate) struct BatchCounts {
    counts: Vec<u64>,
    // the callers that have some, caller c as bit c
    callers: u64,
}

impl Model for BatchCounts {
    ghost use Rattle.std.specs.Prelude.{◌≡◌, ℕ, List, length};
    ghost use Rattle.thp_metrics.specs.Counting.{callers_in};

    ghost Value = { List ℕ };

    ghost view = { λ b. b.counts.items };

    ghost invariant = { λ b. (length b.counts.items ≡ 64) × (b.callers ≡ callers_in b.counts.items) };
}

impl BatchCounts {
    // No page in any batch.
    pub(crate) fn new(alloc: Global) -> Result<BatchCounts, AllocError>
        ensures { IfOk result (λ b. b ≡ replicate 64 0) }
    {
        Ok(BatchCounts {
            counts: vec![in alloc; 0; SHOWN_CALLERS as usize]?,
            callers: 0,
        })
    }

    // A page left the batch of this caller, if any.
    pub(crate) fn lose(&mut self, caller: Option<u32>)
        requires { MayGo self.old caller }
        ensures { self.new ≡ count_gone self.old caller }
    {
        let Some(caller) = caller else {
            return;
        };
        if caller < SHOWN_CALLERS {
            let count = self.counts[caller as usize] - 1;
            self.counts[caller as usize] = count;
            if count == 0 {
                self.callers -= 1 << caller;
            }
        }
    }

    // A page joined the batch of this caller, if any.
    pub(crate) fn gain(&mut self, caller: Option<u32>)
        requires { MayCount self.old caller }
        ensures { self.new ≡ count_more self.old caller }
    {
        let Some(caller) = caller else {
            return;
        };
        if caller < SHOWN_CALLERS {
            let count = self.counts[caller as usize];
            self.counts[caller as usize] = count + 1;
            if count == 0 {
                self.callers += 1 << caller;
            }
        }
    }

    // The callers that have pages in their batches, caller c as bit c.
    pub(crate) fn callers(&self) -> u64
        ensures { result ≡ callers_in self.now }
    {
        self.callers
    }
}
