//! The check of journals of any length.
ghost use Rattle.std.specs.Prelude.{◌≡◌, ◌≢◌, ◌≤◌, ◌+◌, ◌++◌, Ok, Err, [], IfOk, IfErr, IfSome, All, None};
ghost use Rattle.thp_journal_reader.specs.Prelude.{journals_of, journals_accepted, journals_within, more_text_read, no_text_read, result_with, verdict_text, CanBeLegal, HasReadText, ReadJournals, ReportsFirst, ReportsIllegal};
ghost use Rattle.thp_script.specs.Prelude.{max_counted, max_input, nothing_of, ReportsFault, Text};
ghost use Rattle.thp_script.specs.declared.fault.ReadFault.TheVariants.{OutOfMemory};

use crate::follower::FollowedNodes;
use crate::line::Accepted;
use crate::text_reader::TextReader;
use arrayvec::ArrayString;
use itoa::Buffer;
use std::alloc::{AllocError, Global};
use std::marker::Model;
use thp_check::{Misfit, Replay};
use thp_history::Event;
use thp_script::{ReadFault, ReadsParts, TextFault, TextInParts};

/// A check of journals of any length, whose text arrives in parts of any length. It stores the state of the current node and the
/// line in progress, and no event.
///
/// A line of a journal without errors has fewer than 3,000 bytes; memory grows only with the length of a line that does not end.
/// Journals contain no blocks: each allocation is replayed in the least block that holds no live page.
#[derive(Drop)]
pub struct LongCheck {
    text: TextReader<FollowedNodes<Replay, ()>>,
}

impl Model for LongCheck {
    ghost use Rattle.std.specs.Prelude.{◌≤◌, false};
    ghost use Rattle.thp_journal_reader.specs.Prelude.{nodes_read, so_far, FollowsLines, KeepsNothing, JournalReadSoFar};
    ghost use Rattle.thp_script.specs.Prelude.{max_counted};

    ghost Value = { JournalReadSoFar };

    ghost view = { λ c. so_far (nodes_read c.text.nodes.lines) c.text.place c.text.text };

    ghost invariant = { λ c. FollowsLines (λ replay. replay) KeepsNothing false c.text.text.line c.text.nodes × (c.text.text.most ≤ max_counted) };
}

impl LongCheck {
    /// Creates a check that has read nothing. The journals can have any length and version.
    pub fn new(alloc: Global) -> LongCheck
        ensures { (text : Text) → result_with result text ≡ journals_within max_counted text }
    {
        LongCheck::of(alloc, Accepted::EveryVersion, TextInParts::unlimited(alloc))
    }

    /// Creates a check of an input, which has at most 16 MiB and version 1 to 3.
    pub fn of_input(alloc: Global) -> LongCheck
        ensures reported { (text : Text) → result_with result text ≡ journals_of text }
        ensures most { result.text.most ≡ max_input }
    {
        LongCheck::of(alloc, Accepted::UpToVersion3, TextInParts::new(alloc))
    }

    // a check of this text, of which nothing has been read, and for a reader that accepts these journals
    fn of(alloc: Global, accepted: Accepted, text: TextInParts) -> LongCheck
        requires nothing { text ≡ nothing_of text.most }
        requires counted { text.most ≤ max_counted }
        ensures reported { (more : Text) → result_with result more ≡ journals_accepted accepted text.most more }
        ensures most { result.text.most ≡ text.most }
    {
        LongCheck {
            text: TextReader::new(alloc, accepted, text, FollowedNodes::new(alloc)),
        }
    }

    /// Reads the next part of the text. After the first error, or after more bytes than allowed, the part is ignored. Fails if
    /// memory for a node's replay, or for a line that spans several parts, can't be allocated.
    pub fn read_part(self, part: &[u8]) -> Result<LongCheck, AllocError>
        ensures text { IfOk result (λ check. (more : Text) → result_with check more ≡ result_with self (part.now ++ more)) }
        ensures most { IfOk result (λ check. check.text.most ≡ self.text.most) }
    {
        let text = self.text.read_part(part)?;
        Ok(LongCheck { text })
    }

    /// Returns the first illegal event of the whole text, in the order of the text, and why it is illegal, or `None` if each
    /// node's events are legal. Fails with the first error of the text, even if that is after an illegal event. Allocates no
    /// memory.
    pub fn finish(self) -> Result<Option<Illegal>, TextFault>
        ensures first { IfOk result (λ illegal. (journals : ReadJournals) × (result_with self [] ≡ Ok journals) × ReportsFirst journals.nodes illegal) }
        ensures fault { IfErr result (λ fault. result_with self [] ≡ Err (fault.line, fault.kind)) }
        ensures illegal_line { IfOk result (λ illegal. IfSome illegal (λ i. i.line ≤ self.text.most + 1)) }
        ensures fault_line { IfErr result (λ fault. fault.line ≤ self.text.most + 1) }
    {
        Ok(self.text.finish()?.illegal())
    }

    /// Returns the line of the first illegal event of an input, or `None` if each node's events are legal. Fails with the first
    /// error of the text, even if that is after an illegal event. Allocates no memory.
    pub fn finish_input(self) -> Result<Option<u32>, ReadFault>
        requires { self.text.most ≡ max_input }
        ensures line { IfOk result (λ line. (journals : ReadJournals) × (result_with self [] ≡ Ok journals) × ReportsIllegal journals.nodes line) }
        ensures fault { IfErr result (ReportsFault (result_with self [])) }
        ensures no_memory { IfErr result (λ fault. fault ≢ OutOfMemory) }
    {
        match self.finish() {
            Ok(None) => Ok(None),
            Ok(Some(illegal)) => Ok(Some(illegal.line as u32)),
            Err(fault) => Err(ReadFault::Text {
                line: fault.line as u32,
                kind: fault.kind,
            }),
        }
    }
}

impl ReadsParts for LongCheck {
    ghost has_read = { HasReadText };

    fn read_part(self, part: &[u8]) -> Result<Self, ReadFault> {
        Ok(LongCheck::read_part(self, part)?)
    }

    ghost nothing_read = { no_text_read };

    ghost more_read = { more_text_read };
}

/// The first illegal event in a text, and why it is illegal.
#[derive(Clone, Copy, Debug, PartialEq, Eq)]
pub struct Illegal {
    /// The line of the event, counted from 1.
    pub line: u64,
    /// The event. No line contains the block of a new page: an allocation has the least block that holds no live page.
    pub event: Event,
    /// Why the event does not fit the events before it on its node.
    pub misfit: Misfit,
}

/// The room for a verdict, in bytes.
pub const VERDICT: usize = 64;

/// Returns the line of the verdict, given the line of the first illegal event, if any.
#[tactic(auto, unfolding(crate::specs::Verdicts::verdict_text))]
pub fn verdict(illegal: Option<u64>) -> ArrayString<VERDICT>
    ensures { result.bytes ≡ verdict_text illegal }
{
    let mut text = ArrayString::new();
    match illegal {
        None => text.push_str("legal\n"),
        Some(line) => {
            text.push_str("illegal line ");
            text.push_str(Buffer::new().format(line));
            text.push_str("\n");
        }
    }
    text
}

/// Returns the line of the first illegal event in a journal text of version 1 to 3, in the order of the text, or `None` if each node's events are
/// legal.
///
/// The events are replayed as they are read, and not stored. The first error of the text takes precedence, even after an illegal
/// event. Journals contain no blocks: a text is legal exactly if some choice of blocks makes it so.
pub fn check_text(alloc: Global, text: &[u8]) -> Result<Option<u32>, ReadFault>
    ensures line { IfOk result (λ line. (journals : ReadJournals) × (journals_of text.now ≡ Ok journals) × ReportsIllegal journals.nodes line) }
    ensures free_choice { IfOk result (λ line. (journals : ReadJournals) → journals_of text.now ≡ Ok journals → All CanBeLegal journals.nodes → line ≡ None) }
    ensures fault { IfErr result (ReportsFault (journals_of text.now)) }
{
    LongCheck::of_input(alloc).read_part(text)?.finish_input()
}
