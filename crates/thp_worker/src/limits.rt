//! The number of tries of a step.
ghost use Rattle.std.specs.Prelude.{◌≡◌};
ghost use Rattle.thp_worker.specs.Limits.{max_tries};

/// The greatest number of tries of a step whose node is busy.
pub const MAX_TRIES: u32 = 64;

/// States that the specs and the code have the same limit.
pub fn tries_are_limited()
    ensures { MAX_TRIES ≡ max_tries }
{}
