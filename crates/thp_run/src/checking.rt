//! From the bytes of a journal to its verdict.
ghost use Rattle.std.specs.Prelude.{◌≡◌, false};
ghost use Rattle.thp_script.specs.Prelude.{max_input};
ghost use Rattle.thp_cli.specs.Prelude.{ReadsOn, WritesAnswer};
ghost use Rattle.thp_run.specs.Checks.{CheckEnds};

use std::alloc::Global;
use std::io::{Read, Write};
use thp_cli::{RunFault, Watched, read_parts, write_text};
use thp_journal_reader::{LongCheck, verdict};
use thp_script::MAX_INPUT;

/// Converts a line number to 64 bits.
fn widened(line: Option<u32>) -> Option<u64>
    ensures { result ≡ line }
{
    Some(u64::from(line?))
}

/// Checks the journal from the reader. Writes `legal`, or `illegal line L` with the line of the first illegal event, and returns
/// whether the journal is legal.
///
/// Nothing else is written. If the writer fails, a prefix of the line has been written.
pub fn check_run<R: Read, W: Write>(
    alloc: Global,
    reader: &mut Watched<R>,
    writer: &mut Watched<W>,
) -> Result<bool, RunFault>
    requires reader { reader.old.failed ≡ false }
    requires writer { writer.old.failed ≡ false }
    ensures ends { CheckEnds (R.remaining reader.old.device) (W.contents writer.old.device) (W.contents writer.new.device) reader.new.failed writer.new.failed result }
    ensures reads { ReadsOn max_input reader.new.failed reader.old.calls reader.new.calls }
    ensures writes { WritesAnswer result writer.new.failed writer.old.calls writer.new.calls }
{
    let check = read_parts(LongCheck::of_input(alloc), MAX_INPUT, reader)?;
    let illegal = check.finish_input()?;
    let text = verdict(widened(illegal));
    write_text(writer, text.as_str().as_bytes()).ok_or(RunFault::Write)?;
    Ok(illegal.is_none())
}
