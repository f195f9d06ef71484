//! A gate that alternates the commands of two workers, and lets those of others through at once.
use std::hint::spin_loop;
use std::sync::atomic::{AtomicU64, Ordering};
use thp_worker::Gate;

// How often a call looks for its turn before the run fails.
const MAX_TURNS: u32 = 50_000_000;

// A gate call is a bit: three of the worker that goes first, and then three of the other one.
#[derive(Drop)]
pub(crate) struct InTurns {
    first: u32,
    other: u32,
    made: AtomicU64,
    late: AtomicU64,
}

impl InTurns {
    pub(crate) fn new(first: u32, other: u32) -> InTurns {
        InTurns {
            first,
            other,
            made: AtomicU64::new(0),
            late: AtomicU64::new(0),
        }
    }

    // All calls were made, and none continued before its turn.
    pub(crate) fn held(&self) -> bool {
        self.made.load(Ordering::SeqCst) == 63 && self.late.load(Ordering::SeqCst) == 0
    }

    // The bit of a gate call, and the bits of those calls one of which must be made before it continues.
    fn bits(&self, worker: u32, index: u32) -> (u64, u64) {
        match (worker == self.first, index) {
            (true, 0) => (1, 1),
            (true, 1) => (2, 16),
            (true, _) => (4, 4),
            (false, 0) => (8, 2),
            (false, 1) => (16, 4),
            (false, _) => (32, 32),
        }
    }
}

impl Gate for InTurns {
    fn pass(&self, worker: u32, index: u32) {
        if worker != self.first && worker != self.other {
            return;
        }
        let (own, wanted) = self.bits(worker, index);
        let _before = self.made.fetch_or(own, Ordering::SeqCst);
        for _ in 0..MAX_TURNS {
            if self.made.load(Ordering::SeqCst) & wanted != 0 {
                return;
            }
            spin_loop();
        }
        self.late.store(1, Ordering::SeqCst);
    }
}
