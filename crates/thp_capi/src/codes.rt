//! The results of calls, as numbers.
ghost use Rattle.std.specs.Prelude.{◌≡◌, Err, OnErr};
ghost use Rattle.thp_history.specs.declared.refusal.Refusal.TheVariants.{OutOfMemory};
ghost use Rattle.thp_capi.specs.Codes.{answer_of_code, answer_with, fault_in, fault_made, IsCode};
ghost use Rattle.thp_capi.specs.declared.codes.Fault.TheVariants.{Refused};

use std::alloc::{AllocError, AllocFailed};
use thp_cell::CellFault;
use thp_history::Refusal;
use thp_node::NewFault;

/// Why a call has no effect.
#[derive(Clone, Copy, PartialEq, Eq, Debug)]
pub enum Fault {
    /// The node refused the call.
    Refused(Refusal),
    /// The handle is empty.
    Empty,
    /// The handle to be filled is not empty.
    InUse,
    /// The caller's number is 64 or more, or the caller is not one of the pass's.
    BadCaller,
    /// No node has this shape, or no cell has this number of callers.
    BadSize,
    /// More than 128 pages were requested.
    BadCount,
    /// The caller has no open batch.
    NoBatch,
    /// The caller already has an open batch.
    BatchOpen,
    /// The buffer is too small.
    TooSmall,
    /// Another pass has the node.
    Busy,
    /// The passes belong to different cells or are not adjacent; or the pass does not have all callers, or another pass has a
    /// share of its cell.
    BadPass,
    /// The check is finished and reads no more text.
    Finished,
    /// No illegal event was found, or the check is not finished.
    NoReason,
    /// The node only counts its events.
    NoJournal,
}

impl From<Refusal> for Fault {
    ghost from_gives = { λ refusal fault. fault ≡ Refused refusal };

    fn from(refusal: Refusal) -> Fault {
        Fault::Refused(refusal)
    }
}

impl From<CellFault> for Fault {
    ghost from_gives = { λ cell fault. fault ≡ fault_in cell };

    fn from(fault: CellFault) -> Fault {
        match fault {
            CellFault::Busy => Fault::Busy,
            CellFault::Refused(refusal) => Fault::Refused(refusal),
        }
    }
}

impl From<NewFault> for Fault {
    ghost from_gives = { λ new fault. fault ≡ fault_made new };

    fn from(fault: NewFault) -> Fault {
        match fault {
            NewFault::BadSize => Fault::BadSize,
            NewFault::OutOfMemory => Fault::Refused(Refusal::OutOfMemory),
        }
    }
}

impl From<AllocError> for Fault {
    ghost from_gives = { λ _ fault. fault ≡ Refused OutOfMemory };

    fn from(_error: AllocError) -> Fault {
        Fault::Refused(Refusal::OutOfMemory)
    }
}

impl<T: Drop> From<AllocFailed<T>> for Fault {
    ghost from_gives = { λ _ fault. fault ≡ Refused OutOfMemory };

    fn from(_error: AllocFailed<T>) -> Fault {
        Fault::Refused(Refusal::OutOfMemory)
    }
}

/// Converts a result to its number in `thp_code`.
pub fn code(answer: Result<(), Fault>) -> u32
    ensures value { answer_of_code result ≡ answer }
    ensures known { IsCode result }
{
    match answer {
        Ok(()) => 0,
        Err(Fault::Refused(Refusal::NoPage)) => 1,
        Err(Fault::Refused(Refusal::BadRange)) => 2,
        Err(Fault::Refused(Refusal::IsSplit)) => 3,
        Err(Fault::Refused(Refusal::NotMapped)) => 4,
        Err(Fault::Refused(Refusal::Gone)) => 5,
        Err(Fault::Refused(Refusal::NotPinned)) => 6,
        Err(Fault::Refused(Refusal::TooMany)) => 7,
        Err(Fault::Refused(Refusal::Closed)) => 8,
        Err(Fault::Refused(Refusal::NoBlock)) => 9,
        Err(Fault::Refused(Refusal::HasBatch)) => 10,
        Err(Fault::Refused(Refusal::OutOfMemory)) => 11,
        Err(Fault::Empty) => 12,
        Err(Fault::InUse) => 13,
        Err(Fault::BadCaller) => 14,
        Err(Fault::BadSize) => 15,
        Err(Fault::BadCount) => 16,
        Err(Fault::NoBatch) => 17,
        Err(Fault::BatchOpen) => 18,
        Err(Fault::TooSmall) => 19,
        Err(Fault::Busy) => 30,
        Err(Fault::BadPass) => 31,
        Err(Fault::Finished) => 32,
        Err(Fault::NoReason) => 33,
        Err(Fault::NoJournal) => 34,
    }
}

/// Stores the value of a result, if it has one, and returns the result's number.
#[inline(always)]
pub fn report<T: Copy>(answer: Result<T, Fault>, place: &mut T) -> u32
    ensures value { answer_with (answer_of_code result) place.new ≡ answer }
    ensures kept { OnErr (answer_of_code result) (place.new ≡ place.old) }
    ensures known { IsCode result }
{
    match answer {
        Ok(value) => {
            *place = value;
            code(Ok(()))
        }
        Err(fault) => code(Err(fault)),
    }
}
