//! From the bytes of a journal of any length to the script that repeats it.
ghost use Rattle.std.specs.Prelude.{◌≡◌, ◌++◌, [], ℕ, List, IfErr, IfOk, IfSome, false, OnOk, option_map};
ghost use Rattle.thp_script.specs.Prelude.{max_counted, IsFrontOf};
ghost use Rattle.thp_cli.specs.Prelude.{ReadsOn};
ghost use Rattle.thp_journal_reader.specs.Prelude.{journals_for_scripts, result_with};
ghost use Rattle.thp_journal_tools.specs.Scripting.{IsDeviceFault, ScriptEnds, WriterGrows, illegal_text, moved_text, note, notes_of, some_text};
ghost use Rattle.std.specs.Io.KnownBytes.{Appends};

use crate::program::CheckOptions;
use crate::progress::PART;
use std::alloc::{AllocError, Global};
use std::io::{Read, Write};
use thp_check::{Misfit, put_explanation};
use thp_cli::{RunFault, Watched, write_all};
use thp_history::{Outcome, Refusal, What};
use thp_journal_reader::{Illegal, verdict};
use thp_journal_scripts::{Moved, ScriptCheck, Scripted};
use thp_journal_writer::{put, put_number};
use thp_script::MAX_COUNTED;

/// Writes the script that repeats the journal from the reader, up to the first illegal event. The journal can have any length: it
/// is read in parts, and the script of each is written after it. If the journal has an error, the script up to it was written.
pub fn write_script<R: Read, W: Write>(
    alloc: Global,
    reader: &mut Watched<R>,
    writer: &mut Watched<W>,
) -> Result<Scripted, RunFault<u64>>
    requires reader { reader.old.failed ≡ false }
    requires writer { writer.old.failed ≡ false }
    ensures ends { ScriptEnds (R.remaining reader.old.device) (W.contents writer.old.device) (W.contents writer.new.device) reader.new.failed writer.new.failed result }
    ensures reads { ReadsOn max_counted reader.new.failed reader.old.calls reader.new.calls }
{
    // the toolchain finds these types, which illegal events contain, only in functions that name them
    let _in_illegal = (
        What::Close,
        Outcome::Stays,
        Refusal::NoPage,
        Misfit::BlockTaken,
    );
    let check = write_parts(alloc, reader, writer)?;
    let scripted = check.finish()?;
    write_all(writer, scripted.text.as_slice()).ok_or::<RunFault<u64>>(RunFault::Write)?;
    writer.flush().ok_or::<RunFault<u64>>(RunFault::Write)?;
    Ok(scripted)
}

/// Reads all of a reader's bytes in parts, and writes the script of each.
fn write_parts<R: Read, W: Write>(
    alloc: Global,
    reader: &mut Watched<R>,
    writer: &mut Watched<W>,
) -> Result<ScriptCheck, RunFault<u64>>
    requires reader { reader.old.failed ≡ false }
    requires writer { writer.old.failed ≡ false }
    ensures parts { IfOk result (λ check. (bytes : List ℕ) × IfSome (R.remaining reader.old.device) (IsFrontOf max_counted bytes) × (result_with check.read [] ≡ journals_for_scripts bytes)) }
    ensures grows { WriterGrows (W.contents writer.old.device) (W.contents writer.new.device) }
    ensures text { IfOk result (λ check. Appends (W.contents writer.old.device) (W.contents writer.new.device) check.taken) }
    ensures flags { IfOk result (λ _. (reader.new.failed ≡ false) × (writer.new.failed ≡ false)) }
    ensures fault { IfErr result (λ fault. IsDeviceFault reader.new.failed writer.new.failed fault) }
    ensures reads { ReadsOn max_counted reader.new.failed reader.old.calls reader.new.calls }
{
    let mut check = ScriptCheck::new(alloc);
    let mut part = [0u8; PART];
    let mut left = MAX_COUNTED;
    loop {
        let Some(count) = reader.read(&mut part) else {
            drop(check);
            return Err(RunFault::Read);
        };
        if count == 0 {
            return Ok(check);
        }
        check = write_part(check, &part[..count], writer)?;
        if count > left {
            return Ok(check);
        }
        left -= count;
    }
}

/// Reads a part of a journal, and writes the script of what was read.
fn write_part<W: Write>(
    check: ScriptCheck,
    part: &[u8],
    writer: &mut Watched<W>,
) -> Result<ScriptCheck, RunFault<u64>>
    requires { writer.old.failed ≡ false }
    ensures read { IfOk result (λ new. (more : List ℕ) → result_with new.read more ≡ result_with check.read (part.now ++ more)) }
    ensures grows { WriterGrows (W.contents writer.old.device) (W.contents writer.new.device) }
    ensures text { IfOk result (λ new. (text : List ℕ) × (new.taken ≡ check.taken ++ text) × Appends (W.contents writer.old.device) (W.contents writer.new.device) text) }
    ensures flag { IfOk result (λ _. writer.new.failed ≡ false) }
    ensures fault { IfErr result (λ fault. IsDeviceFault false writer.new.failed fault) }
{
    let mut check = check.read_part(part)?;
    let Some(()) = write_all(writer, check.script()) else {
        drop(check);
        return Err(RunFault::Write);
    };
    check.clear_script();
    Ok(check)
}

/// Returns the text about a script: the line of the first illegal event, why it is illegal if that is requested, and what the
/// script does in another order than the journal. `None` if there is nothing to report.
pub(crate) fn notes_of(
    alloc: Global,
    options: CheckOptions,
    found: &Scripted,
) -> Result<Option<Vec<u8>>, AllocError>
    ensures { IfOk result (λ text. option_map (λ t. t.items) text ≡ notes_of options found.now) }
{
    let mut text = Vec::new(alloc);
    put_illegal(&mut text, options, &found.illegal)?;
    put_moved(&mut text, found.moved)?;
    put_note(
        &mut text,
        found.out_of_turn,
        b"try came in another order than the takes\n",
        b"tries came in another order than the takes\n",
    )?;
    Ok(some_text(text))
}

/// Returns a text, if there is one.
fn some_text(text: Vec<u8>) -> Option<Vec<u8>>
    ensures { option_map (λ t. t.items) result ≡ some_text text.items }
{
    if text.is_empty() { None } else { Some(text) }
}

/// Appends what the script does in another order than the journal.
fn put_moved(text: &mut Vec<u8>, moved: Moved) -> Result<(), AllocError>
    ensures { OnOk result (text.new.items ≡ text.old.items ++ moved_text moved) }
{
    put_note(
        text,
        moved.batches,
        b"batch moved after the one that was open\n",
        b"batches moved after the one that was open\n",
    )?;
    put_note(
        text,
        moved.calls,
        b"call moved before a scan that it interrupted\n",
        b"calls moved before a scan that they interrupted\n",
    )?;
    put_note(
        text,
        moved.events,
        b"take, try or put-back left to a scan\n",
        b"takes, tries and put-backs left to scans\n",
    )?;
    put_note(
        text,
        moved.left,
        b"page put back at the end\n",
        b"pages put back at the end\n",
    )?;
    Ok(())
}

/// Appends the verdict about an illegal journal, and the explanation if that is requested.
fn put_illegal(
    text: &mut Vec<u8>,
    options: CheckOptions,
    illegal: &Option<Illegal>,
) -> Result<(), AllocError>
    ensures { OnOk result (text.new.items ≡ text.old.items ++ illegal_text options illegal.now) }
{
    let Some(illegal) = illegal else {
        return Ok(());
    };
    put(text, b"thpcheck: ")?;
    put(text, verdict(Some(illegal.line)).as_str().as_bytes())?;
    if options.explain {
        put_explanation(text, illegal.line, &illegal.event, &illegal.misfit)?;
    }
    Ok(())
}

/// Appends a line with a count, unless that is 0.
fn put_note(text: &mut Vec<u8>, count: u64, one: &[u8], many: &[u8]) -> Result<(), AllocError>
    ensures { OnOk result (text.new.items ≡ text.old.items ++ note count one.now many.now) }
{
    if count == 0 {
        return Ok(());
    }
    put(text, b"thpcheck: ")?;
    put_number(text, count, b' ')?;
    put(text, if count == 1 { one } else { many })
}
