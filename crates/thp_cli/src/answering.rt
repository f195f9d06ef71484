//! The result of a command line that selects no run: a requested text, or an error in the words.
ghost use Rattle.std.specs.Prelude.{◌≡◌, false};
ghost use Rattle.clap.specs.Words.{kind_of};
ghost use Rattle.clap.specs.declared.error.kind.ErrorKind.{ErrorKind as Kind};
ghost use Rattle.thp_cli.specs.Outcomes.{device_of, Answers};

use crate::device::write_text;
use crate::ending::ProgramFault;
use crate::fault::RunFault;
use crate::watched::Watched;
use clap::Error;
use clap::error::ErrorKind;
use std::alloc::Global;
use std::fmt::Display;
use std::io::Write;

/// The result of a command line that selects no run. It has a kind, and its text is what it displays.
///
/// `clap` does not specify the text that its errors display. The code that shows it is therefore written for any implementation
/// of this trait, and has no text of its own that it could show instead.
pub trait WordsAnswer: Display {
    /// The kind of a result.
    ghost kind_in: { Self → Kind };

    /// Returns the kind of the result.
    fn kind(&self) -> ErrorKind
        ensures { result ≡ kind_in self.now };
}

impl WordsAnswer for Error {
    ghost kind_in = { kind_of };

    fn kind(&self) -> ErrorKind {
        Error::kind(self)
    }
}

/// Writes the requested text, or returns the error in the words.
pub fn answer<A: WordsAnswer, W: Write>(
    alloc: Global,
    answer: &A,
    output: &mut Watched<W>,
) -> Result<(), ProgramFault>
    requires { output.old.failed ≡ false }
    ensures { Answers (A.output answer.now) (A.kind_in answer.now) (device_of W.contents output.old output.new) result }
{
    let kind = answer.kind();
    if kind == ErrorKind::OutOfMemory {
        return Err(ProgramFault::Run(RunFault::OutOfMemory));
    }
    let text: String = format!(in alloc; "{answer}")?;
    if !matches!(kind, ErrorKind::DisplayHelp | ErrorKind::DisplayVersion) {
        return Err(ProgramFault::Usage(text));
    }
    write_text(output, text.as_bytes()).ok_or(ProgramFault::Run(RunFault::Write))?;
    Ok(())
}
