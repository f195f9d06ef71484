//! From the bytes of a journal of any length to its verdict.
ghost use Rattle.std.specs.Prelude.{◌≡◌, ◌++◌, IfOk, false, option_map, ℕ, List, IfErr, IfSome};
ghost use Rattle.thp_script.specs.Prelude.{max_counted, IsFrontOf};
ghost use Rattle.thp_journal_reader.specs.Prelude.{verdict_text};
ghost use Rattle.thp_cli.specs.Prelude.{ReadsOn, device_of, WritesAnswer};
ghost use Rattle.thp_cli.specs.declared.ending.Program.TheVariants.{Thpcheck};
ghost use Rattle.thp_journal_writer.specs.Totals.{totals_lines_from};
ghost use Rattle.thp_journal_tools.specs.Checks.{explanation_of, found_in, line_of_illegal, JournalCheckEnds, IsFindFault, IsFound};
ghost use Rattle.thp_journal_tools.specs.Progress.{may_show, ShowsProgress};

use crate::keeping_check::{KeepingCheck, SummedNode};
use crate::program::CheckOptions;
use crate::progress::{Screen, read_journal};
use std::alloc::{AllocError, Global};
use std::io::{Read, Write};
use std::time::Clock;
use thp_check::{Misfit, put_explanation};
use thp_cli::{Program, RunFault, Watched, write_text};
use thp_history::{Outcome, Refusal, What};
use thp_journal_reader::{Illegal, LongCheck, verdict};
use thp_journal_writer::{Totals, put, put_totals_of_each};

/// The result of the check of a journal.
#[derive(Drop)]
pub struct CheckFinding {
    /// The first illegal event; `None` if the journal is legal.
    pub illegal: Option<Illegal>,
    /// The explanation of that event, if it was requested.
    pub explanation: Option<Vec<u8>>,
}

/// Returns the line of an illegal event.
fn line_of(illegal: &Option<Illegal>) -> Option<u64>
    ensures { result ≡ line_of_illegal illegal.now }
{
    match illegal {
        Some(illegal) => Some(illegal.line),
        None => None,
    }
}

/// Returns the explanation of the first illegal event, if there is one and it is requested.
fn explanation_of(
    alloc: Global,
    options: CheckOptions,
    illegal: &Option<Illegal>,
) -> Result<Option<Vec<u8>>, AllocError>
    ensures { IfOk result (λ text. option_map (λ t. t.items) text ≡ explanation_of options illegal.now) }
{
    if !options.explain {
        return Ok(None);
    }
    let Some(illegal) = illegal else {
        return Ok(None);
    };
    let mut text = Vec::new(alloc);
    put_explanation(&mut text, illegal.line, &illegal.event, &illegal.misfit)?;
    Ok(Some(text))
}

/// Returns the verdict, followed by the totals.
fn text_of(alloc: Global, found: &Summed) -> Result<Vec<u8>, AllocError>
    ensures { IfOk result (λ text. text.items ≡ verdict_text (line_of_illegal found.now.illegal) ++ totals_lines_from 0 found.now.totals.items) }
{
    let verdict = verdict(line_of(&found.illegal));
    let mut text = Vec::new(alloc);
    put(&mut text, verdict.as_str().as_bytes())?;
    put_totals_of_each(&mut text, found.totals.as_slice())?;
    Ok(text)
}

/// Checks a journal of any length from the reader. Writes `legal`, or `illegal line L` with the line of the first illegal event.
///
/// If the options request them, the totals of each node up to its first illegal event follow. Nothing else is written; if the
/// writer fails, a prefix of this has been written. An explanation is returned, not written.
///
/// The screen shows the progress while the journal is read, if the options request that or the screen is a terminal. Only the
/// state of the current node, the line in progress and the totals are in memory.
pub fn check_long<R: Read, W: Write, S: Write, C: Clock>(
    alloc: Global,
    options: CheckOptions,
    reader: &mut Watched<R>,
    writer: &mut Watched<W>,
    screen: &mut Screen<S, C>,
) -> Result<CheckFinding, RunFault<u64>>
    requires reader { reader.old.failed ≡ false }
    requires writer { writer.old.failed ≡ false }
    requires screen { screen.old.writer.failed ≡ false }
    ensures ends { JournalCheckEnds options (R.remaining reader.old.device) (W.contents writer.old.device) (W.contents writer.new.device) reader.new.failed writer.new.failed (found_in result) }
    ensures reads { ReadsOn max_counted reader.new.failed reader.old.calls reader.new.calls }
    ensures writes { WritesAnswer (found_in result) writer.new.failed writer.old.calls writer.new.calls }
    ensures explanation { IfOk result (λ checked. option_map (λ t. t.items) checked.explanation ≡ explanation_of options checked.illegal) }
    ensures screen { ShowsProgress Thpcheck (may_show options.progress screen.old.is_terminal) (R.remaining reader.old.device) (device_of S.contents screen.old.writer screen.new.writer) }
{
    let found = find(alloc, options, reader, screen)?;
    let explanation = explanation_of(alloc, options, &found.illegal)?;
    let text = text_of(alloc, &found)?;
    write_text(writer, text.as_slice()).ok_or::<RunFault<u64>>(RunFault::Write)?;
    Ok(CheckFinding {
        illegal: found.illegal,
        explanation,
    })
}

/// Returns the first illegal event of the journal from the reader, which is read in parts, and the totals of its nodes if the
/// options request them.
pub(crate) fn find<R: Read, S: Write, C: Clock>(
    alloc: Global,
    options: CheckOptions,
    reader: &mut Watched<R>,
    screen: &mut Screen<S, C>,
) -> Result<Summed, RunFault<u64>>
    requires reader { reader.old.failed ≡ false }
    requires screen { screen.old.writer.failed ≡ false }
    ensures found { IfOk result (λ found. (bytes : List ℕ) × IfSome (R.remaining reader.old.device) (IsFrontOf max_counted bytes) × IsFound options.summary bytes found) }
    ensures flag { IfOk result (λ _. reader.new.failed ≡ false) }
    ensures fault { IfErr result (λ fault. IsFindFault (R.remaining reader.old.device) reader.new.failed fault) }
    ensures calls { ReadsOn max_counted reader.new.failed reader.old.calls reader.new.calls }
    ensures screen { ShowsProgress Thpcheck (may_show options.progress screen.old.is_terminal) (R.remaining reader.old.device) (device_of S.contents screen.old.writer screen.new.writer) }
{
    // the toolchain finds these types, which illegal events contain, only in functions that name them
    let _in_illegal = (
        What::Close,
        Outcome::Stays,
        Refusal::NoPage,
        Misfit::BlockTaken,
    );
    let asked = options.progress;
    if options.summary {
        let check: KeepingCheck<Totals, SummedNode> = KeepingCheck::new(alloc);
        let check = read_journal(alloc, Program::Thpcheck, asked, check, reader, screen)?;
        let (illegal, totals) = check.finish()?;
        return Ok(Summed { illegal, totals });
    }
    let check = LongCheck::new(alloc);
    let check = read_journal(alloc, Program::Thpcheck, asked, check, reader, screen)?;
    let illegal = check.finish()?;
    Ok(Summed {
        illegal,
        totals: Vec::new(alloc),
    })
}

/// The result of a check that also sums nodes up.
#[derive(Drop)]
pub struct Summed {
    /// The first illegal event, in the order of the text; `None` if each node's events are legal.
    pub illegal: Option<Illegal>,
    /// The totals of each node, over all its events or over those before its first illegal event.
    pub totals: Vec<Totals>,
}
