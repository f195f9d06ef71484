//! The errors of a run or a check.
ghost use Rattle.std.specs.Prelude.{◌≡◌, Some};
ghost use Rattle.thp_cli.specs.declared.fault.RunFault.TheVariants.{OutOfMemory, Text};
ghost use Rattle.thp_cli.specs.RunFaults.{fault_of_long_read, fault_text, run_fault};

use std::alloc::AllocError;
use std::{error, fmt};
use thp_script::{LongReadFault, ReadFault, TextFault, TextKind};

/// Why a run or a check ended without its complete output. The text of each error is the program's message on standard error.
///
/// An input of `thpsplit` has fewer than 2^32 lines; the check of a journal of any length has a `RunFault<u64>`.
#[derive(Debug, Drop)]
pub enum RunFault<Line = u32> {
    /// The first error in the script or the journal. Nothing was written.
    Text { line: Line, kind: TextKind },
    /// Memory could not be allocated. Nothing was written.
    OutOfMemory,
    /// The reader failed. Nothing was written.
    Read,
    /// The writer failed, after part of the report or the verdict.
    Write,
}

// written out, since contracts see the text
impl fmt::Display for RunFault<u64> {
    ghost output = { λ fault. Some (fault_text fault) };

    fn fmt<W: fmt::Write>(&self, f: &mut fmt::Formatter<W>) -> fmt::Result {
        match self {
            RunFault::Text { line, kind } => write!(f, "line {line}: {kind}"),
            RunFault::OutOfMemory => f.write_str("out of memory"),
            RunFault::Read => f.write_str("read failed"),
            RunFault::Write => f.write_str("write failed"),
        }
    }
}

impl fmt::Display for RunFault {
    ghost output = { λ fault. Some (fault_text fault) };

    fn fmt<W: fmt::Write>(&self, f: &mut fmt::Formatter<W>) -> fmt::Result {
        match self {
            RunFault::Text { line, kind } => write!(f, "line {line}: {kind}"),
            RunFault::OutOfMemory => f.write_str("out of memory"),
            RunFault::Read => f.write_str("read failed"),
            RunFault::Write => f.write_str("write failed"),
        }
    }
}

impl error::Error for RunFault<u64> {}

impl error::Error for RunFault {}

impl<Line> From<AllocError> for RunFault<Line> {
    ghost from_gives = { λ _ fault. fault ≡ OutOfMemory };

    fn from(_error: AllocError) -> RunFault<Line> {
        RunFault::OutOfMemory
    }
}

impl From<ReadFault> for RunFault {
    ghost from_gives = { λ reading fault. fault ≡ run_fault reading };

    fn from(fault: ReadFault) -> RunFault {
        match fault {
            ReadFault::Text { line, kind } => RunFault::Text { line, kind },
            ReadFault::OutOfMemory => RunFault::OutOfMemory,
        }
    }
}

impl From<RunFault> for RunFault<u64> {
    ghost from_gives = { λ run fault. fault ≡ run };

    fn from(fault: RunFault) -> RunFault<u64> {
        match fault {
            RunFault::Text { line, kind } => RunFault::Text {
                line: u64::from(line),
                kind,
            },
            RunFault::OutOfMemory => RunFault::OutOfMemory,
            RunFault::Read => RunFault::Read,
            RunFault::Write => RunFault::Write,
        }
    }
}

impl From<TextFault> for RunFault<u64> {
    ghost from_gives = { λ text fault. fault ≡ Text text.line text.kind };

    fn from(fault: TextFault) -> RunFault<u64> {
        RunFault::Text {
            line: fault.line,
            kind: fault.kind,
        }
    }
}

impl From<LongReadFault> for RunFault<u64> {
    ghost from_gives = { λ summary fault. fault ≡ fault_of_long_read summary };

    fn from(fault: LongReadFault) -> RunFault<u64> {
        match fault {
            LongReadFault::Text(fault) => RunFault::from(fault),
            LongReadFault::OutOfMemory => RunFault::OutOfMemory,
        }
    }
}
