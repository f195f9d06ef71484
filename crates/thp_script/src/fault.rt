//! The errors of a text.
ghost use Rattle.std.specs.Prelude.{◌≡◌, Some};
ghost use Rattle.thp_script.specs.TextKinds.{kind_word};
ghost use Rattle.thp_script.specs.declared.fault.LongReadFault.TheVariants as long_fault;
ghost use Rattle.thp_script.specs.declared.fault.ReadFault.TheVariants.{OutOfMemory};

use std::alloc::{AllocError, AllocFailed};
use std::fmt;

/// The kinds of error of a text, in the order in which each line is tested: the first that applies is reported.
#[derive(Clone, Copy, Debug, PartialEq, Eq)]
pub enum TextKind {
    /// The input is longer than 16,777,216 bytes. Reported for line 0.
    TooLong,
    /// A byte of the line is outside 0x20 to 0x7E.
    BadByte,
    /// The line has no line feed.
    Cut,
    /// A word is empty, or not valid at its position.
    BadWord,
    /// There are too few words, or too many.
    BadCount,
    /// An operand is not a number, or is out of range.
    BadNumber,
    /// A set of subpages is not written as its maximal runs in ascending order.
    BadSet,
    /// The line is not allowed at this position.
    BadOrder,
}

impl TextKind {
    /// Returns the word for the kind in messages on standard error.
    pub fn word(self) -> &'static str
        ensures { result.now ≡ kind_word self }
    {
        match self {
            TextKind::TooLong => "too-long",
            TextKind::BadByte => "bad-byte",
            TextKind::Cut => "cut",
            TextKind::BadWord => "bad-word",
            TextKind::BadCount => "bad-count",
            TextKind::BadNumber => "bad-number",
            TextKind::BadSet => "bad-set",
            TextKind::BadOrder => "bad-order",
        }
    }
}

impl fmt::Display for TextKind {
    ghost output = { λ kind. Some (kind_word kind) };

    fn fmt<W: fmt::Write>(&self, f: &mut fmt::Formatter<W>) -> fmt::Result {
        f.write_str(self.word())
    }
}

/// Why a text could not be read.
#[derive(Debug, Drop)]
pub enum ReadFault {
    /// The first error of the text. Lines are counted from 1.
    Text { line: u32, kind: TextKind },
    /// Memory could not be allocated.
    OutOfMemory,
}

impl From<AllocError> for ReadFault {
    ghost from_gives = { λ _ fault. fault ≡ OutOfMemory };

    fn from(_error: AllocError) -> ReadFault {
        ReadFault::OutOfMemory
    }
}

impl<T: Drop> From<AllocFailed<T>> for ReadFault {
    ghost from_gives = { λ _ fault. fault ≡ OutOfMemory };

    fn from(_error: AllocFailed<T>) -> ReadFault {
        ReadFault::OutOfMemory
    }
}

/// The first error in a text of any length.
#[derive(Clone, Copy, Debug, PartialEq, Eq)]
pub struct TextFault {
    /// The line of the error, counted from 1.
    pub line: u64,
    /// The kind of the error.
    pub kind: TextKind,
}

/// Why a check that keeps data of nodes has no result.
#[derive(Clone, Copy, Debug, PartialEq, Eq)]
pub enum LongReadFault {
    /// The first error of the text.
    Text(TextFault),
    /// Memory could not be allocated.
    OutOfMemory,
}

impl From<TextFault> for LongReadFault {
    ghost from_gives = { λ fault long. long ≡ long_fault.Text fault };

    fn from(fault: TextFault) -> LongReadFault {
        LongReadFault::Text(fault)
    }
}

impl From<AllocError> for LongReadFault {
    ghost from_gives = { λ _ long. long ≡ long_fault.OutOfMemory };

    fn from(_error: AllocError) -> LongReadFault {
        LongReadFault::OutOfMemory
    }
}
