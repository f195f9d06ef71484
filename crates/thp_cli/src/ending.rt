//! The reasons for which the program ends without doing what was requested.
ghost use Rattle.std.specs.Prelude.{◌≡◌};
ghost use Rattle.thp_cli.specs.declared.ending.ProgramFault.TheVariants.{Run};
ghost use Rattle.thp_cli.specs.declared.fault.RunFault.TheVariants.{OutOfMemory};

use crate::fault::RunFault;
use std::alloc::AllocError;
use thiserror::Error;

/// The programs of this project, whose names begin their error messages.
#[derive(Clone, Copy, Debug, PartialEq, Eq)]
pub enum Program {
    /// Runs scripts, and checks journals of at most 16 MiB.
    Thpsplit,
    /// Checks journals of any length.
    Thpcheck,
    /// Draws journals of any length.
    Thpdraw,
}

/// Why the words of a command line are not available.
#[derive(Clone, Copy, Debug, Error, PartialEq, Eq)]
pub enum WordsFault {
    /// A word is not text.
    #[error("a word isn't text")]
    NotText,
    /// Memory could not be allocated.
    #[error("out of memory")]
    OutOfMemory,
}

/// How the program ends after doing what was requested.
#[derive(Clone, Copy, Debug, PartialEq, Eq)]
pub enum Ending {
    /// The requested output was written.
    Written,
    /// The requested output was written, and it reports that a journal is not legal.
    Illegal,
}

/// Why the program did not do what was requested.
#[derive(Debug, Drop, Error)]
pub enum ProgramFault {
    /// A run, or the output of a requested text, failed.
    #[error(transparent)]
    Run(RunFault<u64>),
    /// The words of the command line have an error; the text is `clap`'s.
    #[error("{0}")]
    Usage(String),
    /// The value of the option `--orders` is not a list of orders for the nodes.
    #[error("bad orders")]
    Orders,
    /// The value of the option `--underused` is not a list of thresholds for the nodes.
    #[error("bad underused")]
    Underused,
    /// The journal does not have the node of the option `--node`.
    #[error("no node {0}")]
    NoNode(u32),
    /// A word of the command line is not text.
    #[error("a word isn't text")]
    NoText,
}

impl From<RunFault<u64>> for ProgramFault {
    ghost from_gives = { λ fault ended. ended ≡ Run fault };

    fn from(fault: RunFault<u64>) -> ProgramFault {
        ProgramFault::Run(fault)
    }
}

impl From<RunFault> for ProgramFault {
    ghost from_gives = { λ fault ended. ended ≡ Run fault };

    fn from(fault: RunFault) -> ProgramFault {
        ProgramFault::Run(RunFault::from(fault))
    }
}

impl From<AllocError> for ProgramFault {
    ghost from_gives = { λ _ ended. ended ≡ Run OutOfMemory };

    fn from(_error: AllocError) -> ProgramFault {
        ProgramFault::Run(RunFault::OutOfMemory)
    }
}
