//! The program: from the words of its command line, which select the settings, to its exit status.
ghost use Rattle.std.specs.Prelude.{◌≡◌, IfSome, IfNone, None, false, replicate};
ghost use Rattle.thp_history.specs.Prelude.{max_order};
ghost use Rattle.thp_script.specs.Prelude.{max_nodes};
ghost use Rattle.thp_cli.specs.Prelude.{IsLineWithinLimits, device_of, given_words, source_of};
ghost use Rattle.thp_run.specs.Choices.{Chooses, HasBadOrders, HasOrders};
ghost use Rattle.thp_run.specs.Outcomes.{Finishes, LineIsDone, Served};

use crate::checking::check_run;
use crate::running::run;
use std::alloc::Global;
use std::io::{Read, Write};
use std::thread::Threads;
use thp_cli::{
    Ending, Line, Program, ProgramFault, RunFault, Watched, WordsFault, answer, read_line,
    report_fault, status_of_ending, texts_of,
};
use thp_script::{Settings, read_orders, read_underused};
use thp_worker::NoGate;

/// Returns the settings with the orders of the option `--orders`, if it is given; `None` if they are not valid.
fn with_orders(settings: Settings, option: Option<&str>) -> Option<Settings>
    requires orders { settings.orders ≡ replicate max_nodes max_order }
    requires underused { settings.underused ≡ replicate max_nodes None }
    ensures chosen { IfSome result (λ chosen. HasOrders option.entry settings.nodes chosen.orders) }
    ensures bad { IfNone result (HasBadOrders option.entry settings.nodes) }
    ensures underused { IfSome result (λ chosen. chosen.underused ≡ replicate max_nodes None) }
    ensures nodes { IfSome result (λ chosen. chosen.nodes ≡ settings.nodes) }
    ensures blocks { IfSome result (λ chosen. chosen.blocks ≡ settings.blocks) }
    ensures workers { IfSome result (λ chosen. chosen.workers ≡ settings.workers) }
    ensures report { IfSome result (λ chosen. chosen.report ≡ settings.report) }
{
    let Some(text) = option else {
        return Some(settings);
    };
    let orders = read_orders(text)?;
    settings.with_orders(&orders)
}

/// Returns the settings that a command line selects. Orders are checked before thresholds.
fn settings_of(line: &Line) -> Result<Settings, ProgramFault>
    requires { IsLineWithinLimits line.now }
    ensures { Chooses line.now result }
{
    let settings = Settings::new(line.nodes, line.blocks, line.workers, line.report).unwrap();
    let settings = with_orders(settings, line.orders).ok_or(ProgramFault::Orders)?;
    let Some(text) = line.underused else {
        return Ok(settings);
    };
    let thresholds = read_underused(text).ok_or(ProgramFault::Underused)?;
    settings
        .with_underused(&thresholds)
        .ok_or(ProgramFault::Underused)
}

/// Runs a script or checks a journal, as a command line requests.
fn do_line<T: Threads + Sync, R: Read, W: Write>(
    rt: &T,
    alloc: Global,
    line: &Line,
    reader: &mut Watched<R>,
    output: &mut Watched<W>,
) -> Result<Ending, ProgramFault>
    requires within { IsLineWithinLimits line.now }
    requires reader { reader.old.failed ≡ false }
    requires output { output.old.failed ≡ false }
    ensures { LineIsDone line.now (source_of R.remaining reader.old reader.new) (device_of W.contents output.old output.new) result }
{
    if line.check {
        if check_run(alloc, reader, output)? {
            return Ok(Ending::Written);
        }
        return Ok(Ending::Illegal);
    }
    let settings = settings_of(line)?;
    run(rt, alloc, &settings, reader, output, &NoGate)?;
    Ok(Ending::Written)
}

/// Executes what the words request.
fn serve<T: Threads + Sync, R: Read, W: Write>(
    rt: &T,
    alloc: Global,
    words: &Result<Vec<String>, WordsFault>,
    reader: &mut Watched<R>,
    output: &mut Watched<W>,
) -> Result<Ending, ProgramFault>
    requires reader { reader.old.failed ≡ false }
    requires output { output.old.failed ≡ false }
    ensures { Served (given_words words.now) (source_of R.remaining reader.old reader.new) (device_of W.contents output.old output.new) result }
{
    let words = match words {
        Ok(words) => words,
        Err(WordsFault::NotText) => return Err(ProgramFault::NoText),
        Err(WordsFault::OutOfMemory) => return Err(ProgramFault::Run(RunFault::OutOfMemory)),
    };
    let texts = texts_of(alloc, words.as_slice())?;
    match read_line(alloc, texts.as_slice()) {
        Ok(line) => do_line(rt, alloc, &line, reader, output),
        Err(error) => {
            answer(alloc, &error, output)?;
            Ok(Ending::Written)
        }
    }
}

/// Runs the program for the words of its command line and returns the exit status. Messages about failures go to standard error.
///
/// | Status | Meaning |
/// | --- | --- |
/// | 0 | the report, the help or the version was written, or the journal is legal |
/// | 1 | the journal is illegal |
/// | 2 | the script, the journal or the command line has an error |
/// | 3 | memory could not be allocated, or a read or a write failed |
pub fn run_program<T: Threads + Sync, R: Read, W: Write, E: Write>(
    rt: &T,
    alloc: Global,
    words: Result<Vec<String>, WordsFault>,
    reader: &mut Watched<R>,
    output: &mut Watched<W>,
    errors: &mut Watched<E>,
) -> u8
    requires reader { reader.old.failed ≡ false }
    requires output { output.old.failed ≡ false }
    requires errors { errors.old.failed ≡ false }
    ensures { Finishes (given_words words) (source_of R.remaining reader.old reader.new) (device_of W.contents output.old output.new) (device_of E.contents errors.old errors.new) result }
{
    match serve(rt, alloc, &words, reader, output) {
        Ok(ending) => status_of_ending(ending),
        Err(fault) => report_fault(Program::Thpsplit, fault, errors),
    }
}
