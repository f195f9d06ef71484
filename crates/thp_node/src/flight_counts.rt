//! The number of pages that each caller has in flight.
ghost use Rattle.std.specs.Prelude.{◌≡◌, ℕ, ◌+◌, ◌<◌, ◌^◌, slice_index_or, IfOk, None, Some};
ghost use Rattle.thp_history.specs.Prelude.{max_node_callers};
ghost use Rattle.thp_node.specs.Journals.{FlightsMove};

use std::alloc::{AllocError, Global};
use std::marker::Model;
use thp_history::MAX_NODE_CALLERS;

// The number of pages that each caller has in flight.
#[derive(Drop)]
pub(crate) struct FlightCounts {
    counts: Vec<u8>,
}

impl Model for FlightCounts {
    ghost use Rattle.std.specs.Prelude.{◌≡◌, ℕ, List, length};
    ghost use Rattle.thp_history.specs.Prelude.{max_node_callers};

    ghost Value = { List ℕ };

    ghost view = { λ f. f.counts.items };

    ghost invariant = { λ f. length f.counts.items ≡ max_node_callers };
}

impl FlightCounts {
    // No page is in flight.
    pub(crate) fn new(alloc: Global) -> Result<FlightCounts, AllocError>
        ensures { IfOk result (λ f. (c : ℕ) → slice_index_or f c 0 ≡ 0) }
    {
        Ok(FlightCounts {
            counts: vec![in alloc; 0; MAX_NODE_CALLERS as usize]?,
        })
    }

    // The number of pages that a caller has in flight.
    pub(crate) fn of(&self, caller: u32) -> u64
        requires { caller < max_node_callers }
        ensures { result ≡ slice_index_or self.now caller 0 }
    {
        u64::from(self.counts[caller as usize])
    }

    // One more page is in a caller's flight.
    #[inline(always)]
    pub(crate) fn join(&mut self, caller: u32)
        requires caller { caller < max_node_callers }
        requires room { slice_index_or self.old caller 0 + 1 < 2 ^ 8 }
        ensures { FlightsMove self.old self.new (Some caller) None }
    {
        self.counts[caller as usize] += 1;
    }

    // One page less is in a caller's flight.
    #[inline(always)]
    pub(crate) fn leave(&mut self, caller: u32)
        requires { 0 < slice_index_or self.old caller 0 }
        ensures { FlightsMove self.old self.new None (Some caller) }
    {
        self.counts[caller as usize] -= 1;
    }
}
