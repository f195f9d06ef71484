//! Writes journals line by line, as the events happen.
ghost use Rattle.std.specs.Prelude.{◌≡◌, ◌++◌, true, false, IfErr, OnOk, OnErr};
ghost use Rattle.thp_journal_writer.specs.Prelude.{ended, event_line, event_version, node_line, node_version, includes, EventFollows, IfTooLow, LeastVersionIsJournalText, NodeFollows, VersionComesFirst};
ghost use Rattle.thp_journal_writer.specs.declared.stream.PutFault.TheVariants.{VersionTooLow, OutOfMemory};

use crate::events::put_event_line;
use crate::version::Version;
use crate::writer::put_node_line;
use std::alloc::AllocError;
use thp_history::{Event, Shape};

/// Appends the line of node n, whose events follow, to a text of this version. Nodes are numbered from 0.
pub fn put_node(
    text: &mut Vec<u8>,
    version: Version,
    n: usize,
    shape: &Shape,
) -> Result<(), PutFault>
    ensures line { OnOk result (text.new.items ≡ text.old.items ++ ended (node_line version n shape.now)) }
    ensures reported { OnOk result (includes version (node_version n shape.now) ≡ true) }
    ensures too_low { IfErr result (λ fault. IfTooLow fault (λ _. includes version (node_version n shape.now) ≡ false)) }
    ensures least { IfErr result (λ fault. IfTooLow fault (λ least. least ≡ node_version n shape.now)) }
    ensures unchanged { IfErr result (λ fault. IfTooLow fault (λ _. text.new.items ≡ text.old.items)) }
{
    expect_version(version, Version::of_node(n, shape))?;
    put_node_line(text, version, n, shape)?;
    Ok(())
}

/// Appends the line of an event of the last node to a text of this version. The line does not contain the block of a new page.
///
/// Between any two lines the caller may take the bytes and clear the text.
pub fn put_event(text: &mut Vec<u8>, version: Version, event: &Event) -> Result<(), PutFault>
    ensures line { OnOk result (text.new.items ≡ text.old.items ++ ended (event_line event.now)) }
    ensures reported { OnOk result (includes version (event_version event.now) ≡ true) }
    ensures too_low { IfErr result (λ fault. IfTooLow fault (λ _. includes version (event_version event.now) ≡ false)) }
    ensures least { IfErr result (λ fault. IfTooLow fault (λ least. least ≡ event_version event.now)) }
    ensures unchanged { IfErr result (λ fault. IfTooLow fault (λ _. text.new.items ≡ text.old.items)) }
{
    expect_version(version, Version::of_event(event))?;
    put_event_line(text, event)?;
    Ok(())
}

// a version that includes the least one
#[inline(always)]
fn expect_version(version: Version, least: Version) -> Result<(), PutFault>
    ensures reported { OnOk result (includes version least ≡ true) }
    ensures too_low { OnErr result (includes version least ≡ false) }
    ensures fault { IfErr result (λ fault. fault ≡ VersionTooLow least) }
{
    if version.includes(least) {
        Ok(())
    } else {
        Err(PutFault::VersionTooLow(least))
    }
}

/// States that the lines form a journal: the version's line, then for each node its line and those of its events, then the end.
/// In the least version for the journals this is the output of `journal_text`.
///
/// The function does nothing: its contract is the law.
pub fn lines_make_a_journal()
    ensures version { VersionComesFirst }
    ensures node { NodeFollows }
    ensures event { EventFollows }
    ensures whole { LeastVersionIsJournalText }
{}

/// Why a line of a journal was not written.
#[derive(Clone, Copy, Debug, PartialEq, Eq)]
pub enum PutFault {
    /// Memory for the text could not be allocated. The text can contain a prefix of the line.
    OutOfMemory,
    /// The version of the text is below this one, the least that has such a line. Nothing was written.
    VersionTooLow(Version),
}

impl From<AllocError> for PutFault {
    ghost from_gives = { λ _ fault. fault ≡ OutOfMemory };

    fn from(_error: AllocError) -> PutFault {
        PutFault::OutOfMemory
    }
}
