//! The program `thpdraw`: from the words of its command line to its exit status.
ghost use Rattle.std.specs.Prelude.{◌≡◌, false, IfOk};
ghost use Rattle.thp_cli.specs.declared.ending.Program.TheVariants.{Thpdraw};
ghost use Rattle.thp_cli.specs.Prelude.{device_of, given_words, source_of, IsOption};
ghost use Rattle.thp_journal_tools.specs.DrawCommandLine.{AnswersDrawWords, node_rule, thpdraw};
ghost use Rattle.thp_journal_tools.specs.DrawOutcomes.{shows_draw_progress, DoesDrawRequest};
ghost use Rattle.thp_journal_tools.specs.Requests.{ShowsAsAsked, ToolFinishes};
ghost use Rattle.clap.specs.Words.{app_of};

use crate::draw_help::AFTER_HELP;
use crate::progress::Screen;
use crate::request::{ProgramEnd, Request, run_request};
use crate::writing::draw;
use clap::{Arg, ArgAction, Command, Error, value_parser};
use std::alloc::{AllocError, Global};
use std::io::{Read, Write};
use std::time::Clock;
use thp_cli::{Program, ProgramFault, VERSION, Watched, WordsFault, flag};

impl Request for DrawOptions {
    ghost program = { Thpdraw };

    ghost answers = { AnswersDrawWords };

    ghost does = { DoesDrawRequest };

    ghost shows = { shows_draw_progress };

    fn program() -> Program {
        Program::Thpdraw
    }

    fn read<'a>(alloc: Global, words: &'a [&'a str]) -> Result<DrawOptions, Error> {
        let matches = command(alloc)?.try_get_matches_from(words)?;
        Ok(DrawOptions {
            table: matches.get_flag("table"),
            node: matches.get_one::<u32>("node"),
            progress: matches.get_flag("progress"),
        })
    }

    fn perform<R: Read, W: Write, S: Write, C: Clock>(
        self,
        alloc: Global,
        reader: &mut Watched<R>,
        output: &mut Watched<W>,
        screen: &mut Screen<S, C>,
    ) -> Result<ProgramEnd, ProgramFault> {
        Ok(ProgramEnd {
            ending: draw(alloc, self, reader, output, screen)?,
            notes: None,
        })
    }
}

/// Runs the program for the words of its command line and returns the exit status. Messages about failures go to standard error.
///
/// | Status | Meaning |
/// | --- | --- |
/// | 0 | the journal was drawn, or the help or the version was written |
/// | 1 | a node that was drawn has an illegal event, and was drawn up to it |
/// | 2 | the journal or the command line has an error, or the journal lacks the requested node |
/// | 3 | memory could not be allocated, or a read or a write failed |
///
/// The screen shows the progress of the reading, if the words request that or the screen is a terminal. The progress is removed
/// before anything is written. A screen that fails or a clock that can't be read has no other effect.
pub fn run_draw_program<R: Read, W: Write, E: Write, S: Write, C: Clock>(
    alloc: Global,
    words: Result<Vec<String>, WordsFault>,
    reader: &mut Watched<R>,
    output: &mut Watched<W>,
    errors: &mut Watched<E>,
    screen: &mut Screen<S, C>,
) -> u8
    requires reader { reader.old.failed ≡ false }
    requires output { output.old.failed ≡ false }
    requires errors { errors.old.failed ≡ false }
    requires screen { screen.old.writer.failed ≡ false }
    ensures finishes { ToolFinishes Thpdraw AnswersDrawWords DoesDrawRequest (given_words words) (source_of R.remaining reader.old reader.new) (device_of W.contents output.old output.new) (device_of E.contents errors.old errors.new) result }
    ensures screen { ShowsAsAsked Thpdraw AnswersDrawWords shows_draw_progress (given_words words) screen.old.is_terminal (source_of R.remaining reader.old reader.new) (device_of S.contents screen.old.writer screen.new.writer) }
{
    run_request::<DrawOptions, R, W, E, S, C>(alloc, words, reader, output, errors, screen)
}

/// The request of a command line.
#[derive(Clone, Copy, Debug, PartialEq, Eq)]
pub struct DrawOptions {
    /// Whether to write the numbers as a table instead of the picture.
    pub table: bool,
    /// The number of the only node to draw, if not all are drawn.
    pub node: Option<u32>,
    /// Whether to show the progress of the reading on standard error.
    pub progress: bool,
}

// The greatest number of a node in a journal.
const MAX_NODE_NUMBER: i64 = 65_535;

fn node_option<'a>(alloc: Global) -> Arg<'a>
    ensures { IsOption result node_rule }
{
    Arg::new(alloc, "node")
        .long("node")
        .value_name("NODE")
        .help("Draw this node only, 0 to 65535")
        .action(ArgAction::Set)
        .value_parser(value_parser!(u32).range(0..=MAX_NODE_NUMBER))
}

/// Returns the command with its options.
pub(crate) fn command<'a>(alloc: Global) -> Result<Command<'a>, AllocError>
    ensures { IfOk result (λ command. app_of command ≡ thpdraw) }
{
    Command::new(alloc, "thpdraw")
        .about("Draws the nodes of a journal of any length")
        .version(VERSION)
        .after_help(AFTER_HELP)
        .arg(flag(
            alloc,
            "table",
            "Write the numbers as a table instead of the picture",
        ))?
        .arg(node_option(alloc))?
        .arg(flag(
            alloc,
            "progress",
            "Show the progress of the reading on standard error",
        ))
}
