//! The program `thpcheck`: from the words of its command line to its exit status.
ghost use Rattle.std.specs.Prelude.{◌≡◌, false, IfOk};
ghost use Rattle.thp_cli.specs.declared.ending.Program.TheVariants.{Thpcheck};
ghost use Rattle.thp_cli.specs.Prelude.{device_of, given_words, source_of};
ghost use Rattle.thp_journal_tools.specs.CommandLine.{AnswersWords, thpcheck};
ghost use Rattle.thp_journal_tools.specs.Outcomes.{ending_of, shows_progress, DoesRequest, DoesScript};
ghost use Rattle.thp_journal_tools.specs.Requests.{program_ending, notes_by, ToolFinishes, ShowsAsAsked};
ghost use Rattle.clap.specs.Words.{app_of};

use crate::checking::check_long;
use crate::help::AFTER_HELP;
use crate::progress::Screen;
use crate::request::{ProgramEnd, Request, run_request};
use crate::scripting::{notes_of, write_script};
use clap::{Command, Error};
use std::alloc::{AllocError, Global};
use std::io::{Read, Write};
use std::time::Clock;
use thp_cli::{Ending, Program, ProgramFault, RunFault, VERSION, Watched, WordsFault, flag};
use thp_journal_reader::Illegal;

/// Returns how the program ends after the check of a journal.
fn ending_of(illegal: &Option<Illegal>) -> Ending
    ensures { result ≡ ending_of illegal.now }
{
    match illegal {
        Some(_) => Ending::Illegal,
        None => Ending::Written,
    }
}

/// Writes the script of the journal.
fn script<R: Read, W: Write>(
    alloc: Global,
    options: CheckOptions,
    reader: &mut Watched<R>,
    output: &mut Watched<W>,
) -> Result<ProgramEnd, ProgramFault>
    requires reader { reader.old.failed ≡ false }
    requires output { output.old.failed ≡ false }
    ensures does { DoesScript options (source_of R.remaining reader.old reader.new) (device_of W.contents output.old output.new) (program_ending result) (notes_by result) }
{
    let found = write_script(alloc, reader, output)?;
    let notes = notes_of(alloc, options, &found)?;
    Ok(ProgramEnd {
        ending: ending_of(&found.illegal),
        notes,
    })
}

impl Request for CheckOptions {
    ghost program = { Thpcheck };

    ghost answers = { AnswersWords };

    ghost does = { DoesRequest };

    ghost shows = { shows_progress };

    fn program() -> Program {
        Program::Thpcheck
    }

    fn read<'a>(alloc: Global, words: &'a [&'a str]) -> Result<CheckOptions, Error> {
        let matches = command(alloc)?.try_get_matches_from(words)?;
        Ok(CheckOptions {
            explain: matches.get_flag("explain"),
            summary: matches.get_flag("summary"),
            progress: matches.get_flag("progress"),
            script: matches.get_flag("script"),
        })
    }

    fn perform<R: Read, W: Write, S: Write, C: Clock>(
        self,
        alloc: Global,
        reader: &mut Watched<R>,
        output: &mut Watched<W>,
        screen: &mut Screen<S, C>,
    ) -> Result<ProgramEnd, ProgramFault> {
        if self.script {
            return script(alloc, self, reader, output);
        }
        match check_long(alloc, self, reader, output, screen) {
            Ok(checked) => Ok(ProgramEnd {
                ending: ending_of(&checked.illegal),
                notes: checked.explanation,
            }),
            Err(fault) => Err(ProgramFault::Run(fault)),
        }
    }
}

/// Runs the program for the words of its command line and returns the exit status. Messages about failures, and explanations, go
/// to standard error.
///
/// | Status | Meaning |
/// | --- | --- |
/// | 0 | the journal is legal, or the help or the version was written |
/// | 1 | the journal is illegal |
/// | 2 | the journal or the command line has an error |
/// | 3 | memory could not be allocated, or a read or a write failed |
///
/// If a script is requested, it is written instead of the verdict, and the verdict about an illegal journal goes to standard
/// error, with what the script does in another order than the journal; no progress is shown.
///
/// If standard error does not take an explanation, the status is the same. The screen shows the progress of the check, if the
/// words request that or the screen is a terminal. The progress is removed before the verdict is written. A screen that fails or
/// a clock that can't be read has no other effect.
pub fn run_check_program<R: Read, W: Write, E: Write, S: Write, C: Clock>(
    alloc: Global,
    words: Result<Vec<String>, WordsFault>,
    reader: &mut Watched<R>,
    output: &mut Watched<W>,
    errors: &mut Watched<E>,
    screen: &mut Screen<S, C>,
) -> u8
    requires reader { reader.old.failed ≡ false }
    requires output { output.old.failed ≡ false }
    requires errors { errors.old.failed ≡ false }
    requires screen { screen.old.writer.failed ≡ false }
    ensures finishes { ToolFinishes Thpcheck AnswersWords DoesRequest (given_words words) (source_of R.remaining reader.old reader.new) (device_of W.contents output.old output.new) (device_of E.contents errors.old errors.new) result }
    ensures screen { ShowsAsAsked Thpcheck AnswersWords shows_progress (given_words words) screen.old.is_terminal (source_of R.remaining reader.old reader.new) (device_of S.contents screen.old.writer screen.new.writer) }
{
    run_request::<CheckOptions, R, W, E, S, C>(alloc, words, reader, output, errors, screen)
}

/// The request of a command line, in addition to the verdict.
#[derive(Clone, Copy, Debug, PartialEq, Eq)]
pub struct CheckOptions {
    /// Whether to explain the first illegal event on standard error.
    pub explain: bool,
    /// Whether to write the totals of each node after the verdict.
    pub summary: bool,
    /// Whether to show the progress of the check on standard error.
    pub progress: bool,
    /// Whether to write the script that repeats the journal instead of the verdict.
    pub script: bool,
}

/// Returns the command with its options.
pub(crate) fn command<'a>(alloc: Global) -> Result<Command<'a>, AllocError>
    ensures { IfOk result (λ command. app_of command ≡ thpcheck) }
{
    Command::new(alloc, "thpcheck")
        .about("Checks whether a journal of any length is legal")
        .version(VERSION)
        .after_help(AFTER_HELP)
        .arg(flag(
            alloc,
            "explain",
            "Explain on standard error why a journal is illegal",
        ))?
        .arg(flag(
            alloc,
            "summary",
            "Write the totals of each node after the verdict",
        ))?
        .arg(flag(
            alloc,
            "progress",
            "Show the progress of the check on standard error",
        ))?
        .arg(flag(
            alloc,
            "script",
            "Write the script that repeats the journal instead of the verdict",
        ))
}
