//! The limits of a run and of its texts (this project's profile).
ghost use Rattle.std.specs.Prelude.{◌≡◌};
ghost use Rattle.thp_script.specs.Limits.{max_counted, max_input, max_nodes, max_operand, max_workers};

use thp_history::MAX_CALLERS;

/// The greatest number of nodes of a run.
pub const MAX_NODES: usize = 8;

/// The greatest number of workers of a run: each is a caller, and `setup` is one too.
pub const MAX_WORKERS: u32 = MAX_CALLERS - 1;

/// The greatest number of bytes of an input, 16 MiB.
pub const MAX_INPUT: usize = 16_777_216;

/// The greatest number of bytes of a text whose bytes and lines are counted in 64 bits. No machine reads that many.
pub const MAX_COUNTED: usize = usize::MAX - 1;

/// The greatest number that a text may give for the first subpage of a range, and for its count.
pub const MAX_OPERAND: u64 = 65_535;

/// States that the specs and the code have the same limits.
pub fn run_limits_are_defined()
    ensures nodes { MAX_NODES ≡ max_nodes }
    ensures workers { MAX_WORKERS ≡ max_workers }
    ensures input { MAX_INPUT ≡ max_input }
    ensures operand { MAX_OPERAND ≡ max_operand }
    ensures counted { MAX_COUNTED ≡ max_counted }
{}
