//! The frame of the programs: from the words of a command line to an exit status, for any kind of request.
ghost use Rattle.std.specs.Prelude.{◌≡◌, ℕ, Bool, List, Option, Result, false, map, option_map};
ghost use Rattle.clap.specs.declared.error.Error.{Error};
ghost use Rattle.thp_cli.specs.declared.ending.Ending.{Ending};
ghost use Rattle.thp_cli.specs.declared.ending.Program.{Program};
ghost use Rattle.thp_cli.specs.declared.ending.ProgramFault.{ProgramFault};
ghost use Rattle.thp_cli.specs.Prelude.{device_of, given_words, source_of, Device, Source};
ghost use Rattle.thp_journal_tools.specs.Progress.{ShowsProgress};
ghost use Rattle.thp_journal_tools.specs.Requests.{program_ending, ending_if, notes_by, ToolFinishes, RequestServed, ShowsAsAsked, TakesNotes};

use crate::progress::Screen;
use clap::Error;
use std::alloc::Global;
use std::io::{Read, Write};
use std::time::Clock;
use thp_cli::{
    Ending, Program, ProgramFault, RunFault, Watched, WordsFault, answer, report_fault,
    report_message, status_of_ending, texts_of,
};

/// How a program ended after doing what was requested.
#[derive(Drop)]
pub(crate) struct ProgramEnd {
    pub(crate) ending: Ending,
    // the text for standard error: an explanation, or what is reported about a script
    pub(crate) notes: Option<Vec<u8>>,
}

/// What the words of a command line can request of a program.
pub(crate) trait Request: Sized {
    /// The program.
    ghost program: { Program };

    /// The words make this request, or `clap` has this error.
    ghost answers: { List (List ℕ) → Result Self Error → Type 0 };

    /// The request was done like this, and this is the text for standard error.
    ghost does: { Self → Source → Device → Result Ending ProgramFault → Option (List ℕ) → Type 0 };

    /// Whether the progress of the request may be shown, given whether the screen is a terminal.
    ghost shows: { Self → Bool → Bool };

    /// Returns the program.
    fn program() -> Program
        ensures { result ≡ program };

    /// Reads the words of a command line. The first word names the program. The error is `clap`'s: help or the version if the
    /// words request it, otherwise what is wrong with them, or that memory could not be allocated.
    fn read<'a>(alloc: Global, words: &'a [&'a str]) -> Result<Self, Error>
        ensures { answers (map (λ word. word.now) words.entry.now) result };

    /// Does what is requested.
    fn perform<R: Read, W: Write, S: Write, C: Clock>(
        self,
        alloc: Global,
        reader: &mut Watched<R>,
        output: &mut Watched<W>,
        screen: &mut Screen<S, C>,
    ) -> Result<ProgramEnd, ProgramFault>
        requires reader { reader.old.failed ≡ false }
        requires output { output.old.failed ≡ false }
        requires screen { screen.old.writer.failed ≡ false }
        ensures does { does self (source_of R.remaining reader.old reader.new) (device_of W.contents output.old output.new) (program_ending result) (notes_by result) }
        ensures screen { ShowsProgress program (shows self screen.old.is_terminal) (R.remaining reader.old.device) (device_of S.contents screen.old.writer screen.new.writer) };
}

/// Executes what the words request.
fn serve<Q: Request, R: Read, W: Write, S: Write, C: Clock>(
    alloc: Global,
    words: &Result<Vec<String>, WordsFault>,
    reader: &mut Watched<R>,
    output: &mut Watched<W>,
    screen: &mut Screen<S, C>,
) -> Result<ProgramEnd, ProgramFault>
    requires reader { reader.old.failed ≡ false }
    requires output { output.old.failed ≡ false }
    requires screen { screen.old.writer.failed ≡ false }
    ensures served { RequestServed Q.answers Q.does (given_words words.now) (source_of R.remaining reader.old reader.new) (device_of W.contents output.old output.new) (program_ending result) (notes_by result) }
    ensures screen { ShowsAsAsked Q.program Q.answers Q.shows (given_words words.now) screen.old.is_terminal (source_of R.remaining reader.old reader.new) (device_of S.contents screen.old.writer screen.new.writer) }
{
    let words = match words {
        Ok(words) => words,
        Err(WordsFault::NotText) => return Err(ProgramFault::NoText),
        Err(WordsFault::OutOfMemory) => return Err(ProgramFault::Run(RunFault::OutOfMemory)),
    };
    let texts = texts_of(alloc, words.as_slice())?;
    match Q::read(alloc, texts.as_slice()) {
        Ok(request) => request.perform(alloc, reader, output, screen),
        Err(error) => {
            answer(alloc, &error, output)?;
            Ok(ProgramEnd {
                ending: Ending::Written,
                notes: None,
            })
        }
    }
}

/// Returns how the program ends after the output was written, given whether an event in it is illegal.
pub(crate) fn ending_if(illegal: bool) -> Ending
    ensures { result ≡ ending_if illegal }
{
    if illegal {
        Ending::Illegal
    } else {
        Ending::Written
    }
}

/// Writes the text, if any, to standard error.
fn note<E: Write>(notes: Option<Vec<u8>>, errors: &mut Watched<E>)
    requires { errors.old.failed ≡ false }
    ensures { TakesNotes (device_of E.contents errors.old errors.new) (option_map (λ t. t.items) notes) }
{
    if let Some(text) = notes {
        report_message(errors, text.as_slice());
    }
}

/// Runs the program for the words of its command line and returns the exit status. Messages about failures, and notes, go to
/// standard error.
pub(crate) fn run_request<Q: Request, R: Read, W: Write, E: Write, S: Write, C: Clock>(
    alloc: Global,
    words: Result<Vec<String>, WordsFault>,
    reader: &mut Watched<R>,
    output: &mut Watched<W>,
    errors: &mut Watched<E>,
    screen: &mut Screen<S, C>,
) -> u8
    requires reader { reader.old.failed ≡ false }
    requires output { output.old.failed ≡ false }
    requires errors { errors.old.failed ≡ false }
    requires screen { screen.old.writer.failed ≡ false }
    ensures finishes { ToolFinishes Q.program Q.answers Q.does (given_words words) (source_of R.remaining reader.old reader.new) (device_of W.contents output.old output.new) (device_of E.contents errors.old errors.new) result }
    ensures screen { ShowsAsAsked Q.program Q.answers Q.shows (given_words words) screen.old.is_terminal (source_of R.remaining reader.old reader.new) (device_of S.contents screen.old.writer screen.new.writer) }
{
    match serve::<Q, R, W, S, C>(alloc, &words, reader, output, screen) {
        Ok(done) => {
            note(done.notes, errors);
            status_of_ending(done.ending)
        }
        Err(fault) => report_fault(Q::program(), fault, errors),
    }
}
