//! Reads all bytes of a reader in parts, and writes texts to a writer.
ghost use Rattle.std.specs.Prelude.{◌≡◌, ℕ, List, length, true, false, IfSome, IfNone, IfErr, IfOk};
ghost use Rattle.std.specs.Io.KnownBytes.{Appends};
ghost use Rattle.thp_cli.specs.Prelude.{IsReadingFault, ReadsOn, WritesAll, WritesFront, WritesOn};
ghost use Rattle.thp_script.specs.Prelude.{IsFrontOf};

use crate::fault::RunFault;
use crate::watched::Watched;
use std::io::{Read, Write};
use thp_script::ReadsParts;

/// The greatest number of bytes of one read.
const PART: usize = 65_536;

/// Reads all of a reader's bytes in parts, or more than `most` of them.
///
/// Each read except the last returns at least one byte, so there are at most `most + 1` reads.
pub fn read_parts<R: Read, P: ReadsParts + Drop>(
    first: P,
    most: usize,
    reader: &mut Watched<R>,
) -> Result<P, RunFault>
    requires { reader.old.failed ≡ false }
    ensures parts { IfOk result (λ last. (bytes : List ℕ) × IfSome (R.remaining reader.old.device) (IsFrontOf most bytes) × P.has_read first bytes last) }
    ensures flag { IfOk result (λ _. reader.new.failed ≡ false) }
    ensures fault { IfErr result (IsReadingFault reader.new.failed) }
    ensures calls { ReadsOn most reader.new.failed reader.old.calls reader.new.calls }
{
    let mut text = first;
    let mut part = [0u8; PART];
    let mut left = most;
    loop {
        let Some(count) = reader.read(&mut part) else {
            return Err(RunFault::Read);
        };
        if count == 0 {
            return Ok(text);
        }
        text = text.read_part(&part[..count])?;
        if count > left {
            return Ok(text);
        }
        left -= count;
    }
}

/// Writes all of a text without flushing. `None` if the writer failed, after a prefix of the text; no call follows the failed
/// one.
pub fn write_all<W: Write>(writer: &mut Watched<W>, text: &[u8]) -> Option<()>
    requires { writer.old.failed ≡ false }
    ensures written { IfSome result (λ _. Appends (W.contents writer.old.device) (W.contents writer.new.device) text.now) }
    ensures cut { IfNone result (WritesFront (W.contents writer.old.device) (W.contents writer.new.device) text.now) }
    ensures flag { IfSome result (λ _. writer.new.failed ≡ false) }
    ensures failed { IfNone result (writer.new.failed ≡ true) }
    ensures calls { WritesAll (length text.now) writer.new.failed writer.old.calls writer.new.calls }
{
    let mut rest = text;
    while !rest.is_empty() {
        let count = writer.write(rest)?;
        let (_, after) = rest.split_at(count);
        rest = after;
    }
    Some(())
}

/// Writes a text and flushes once. `None` if the writer failed, after a prefix of the text; no call follows the failed one.
pub fn write_text<W: Write>(writer: &mut Watched<W>, text: &[u8]) -> Option<()>
    requires { writer.old.failed ≡ false }
    ensures written { IfSome result (λ _. Appends (W.contents writer.old.device) (W.contents writer.new.device) text.now) }
    ensures cut { IfNone result (WritesFront (W.contents writer.old.device) (W.contents writer.new.device) text.now) }
    ensures flag { IfSome result (λ _. writer.new.failed ≡ false) }
    ensures failed { IfNone result (writer.new.failed ≡ true) }
    ensures calls { WritesOn writer.new.failed writer.old.calls writer.new.calls }
{
    write_all(writer, text)?;
    writer.flush()
}
