//! Fast parsing of events at the beginning of a text, in one pass over the bytes of their lines. Lines that it does not parse,
//! such as a node's line, a close and errors, are left to `line`.
ghost use Rattle.std.specs.Prelude.{◌≡◌, [], ◌∷◌, IfSome};
ghost use Rattle.thp_journal_reader.specs.Prelude.{event_by, loss_event, unmap_event, FastEvent, FastJournalLine, FastEventOperands, FastOutcome, FastSet};
ghost use Rattle.thp_journal_writer.specs.declared.version.Version.{Version};

use crate::event_line::{EventWord, parse_word_fast};
use crate::set_text::set_of_text;
use thp_history::{Done, Event, Loss, Outcome, PageId, SubSet, What};
use thp_journal_writer::Version;
use thp_script::{after_name, cut_at, parse_number_fast};

/// Parses an outcome at the beginning of a text, and returns it with the text after the following space.
#[inline(always)]
fn parse_outcome_fast(text: &[u8]) -> Option<(Outcome, &[u8])>
    ensures { IfSome result (λ read. FastOutcome text.now read.0 read.1.now) }
{
    if let Some(rest) = after_name(b"stays", text) {
        return Some((Outcome::Stays, rest));
    }
    if let Some(rest) = after_name(b"queued", text) {
        return Some((Outcome::Queued, rest));
    }
    let rest = after_name(b"freed", text)?;
    Some((Outcome::Freed, rest))
}

/// Returns the only word on the first line of a text, and the text after the line.
#[inline(always)]
fn last_word_fast(text: &[u8]) -> Option<(&[u8], &[u8])>
    ensures { IfSome result (λ read. FastJournalLine (read.0.now ∷ []) text.now read.1.now) }
{
    let (line, rest) = cut_at(b'\n', text);
    let rest = rest?;
    let (word, None) = cut_at(b' ', line) else {
        return None;
    };
    Some((word, rest))
}

/// Parses the set that is the only word on the first line of a text, and returns the text after the line.
#[inline(always)]
fn parse_set_fast<'t>(text: &'t [u8], set: &mut SubSet) -> Option<&'t [u8]>
    ensures { IfSome result (λ rest. FastSet set.new text.now rest.now) }
{
    // most events give no frame back
    if let Some(rest) = after_no_frame(text) {
        *set = SubSet::empty();
        return Some(rest);
    }
    let (word, rest) = last_word_fast(text)?;
    *set = set_of_text(word).ok()?;
    Some(rest)
}

/// Returns the text after the first line if a dash, the empty set, is the only word on that line.
#[inline(always)]
fn after_no_frame(text: &[u8]) -> Option<&[u8]>
    ensures { IfSome result (λ rest. text.now ≡ 45 ∷ 10 ∷ rest.now) }
{
    match text {
        [dash, end, rest @ ..] if *dash == b'-' && *end == b'\n' => Some(rest),
        _ => None,
    }
}

/// Parses the operands `PAGE OUTCOME SET`.
#[inline(always)]
fn parse_loss_event_fast(name: Loss, caller: u32, text: &[u8]) -> Option<(Event, &[u8])>
    ensures { (v : Version) → IfSome result (λ read. FastEventOperands v (loss_event v name) caller text.now read.0 read.1.now) }
{
    let (page, rest) = parse_number_fast(b' ', u64::MAX, text)?;
    let (outcome, rest) = parse_outcome_fast(rest)?;
    let mut released = SubSet::empty();
    let rest = parse_set_fast(rest, &mut released)?;
    let what = name.what(PageId(page), &Done { outcome, released });
    Some((Event { caller, what }, rest))
}

/// Parses the operands `PAGE FIRST COUNT OUTCOME SET`.
#[inline(always)]
fn parse_unmap_event_fast(caller: u32, text: &[u8]) -> Option<(Event, &[u8])>
    ensures { (v : Version) → IfSome result (λ read. FastEventOperands v (unmap_event v) caller text.now read.0 read.1.now) }
{
    let (page, rest) = parse_number_fast(b' ', u64::MAX, text)?;
    let (first, rest) = parse_number_fast(b' ', u64::from(u16::MAX), rest)?;
    let (count, rest) = parse_number_fast(b' ', u64::from(u16::MAX), rest)?;
    let (outcome, rest) = parse_outcome_fast(rest)?;
    let mut released = SubSet::empty();
    let rest = parse_set_fast(rest, &mut released)?;
    let what = What::UnmapSub {
        outcome,
        page: PageId(page),
        first: first as u32,
        count: count as u32,
        released,
    };
    Some((Event { caller, what }, rest))
}

/// Parses the operands of an event, by its word. A close has none: its line is left to `line`.
#[inline(always)]
fn parse_operands_fast(word: EventWord, caller: u32, text: &[u8]) -> Option<(Event, &[u8])>
    ensures { (v : Version) → IfSome result (λ read. FastEventOperands v (event_by v word) caller text.now read.0 read.1.now) }
{
    match word {
        EventWord::OfPage(name) => {
            let (page, rest) = parse_number_fast(b'\n', u64::MAX, text)?;
            let what = name.what(PageId(page));
            Some((Event { caller, what }, rest))
        }
        EventWord::OfRange(name) => {
            let (page, rest) = parse_number_fast(b' ', u64::MAX, text)?;
            let (first, rest) = parse_number_fast(b' ', u64::from(u16::MAX), rest)?;
            let (count, rest) = parse_number_fast(b'\n', u64::from(u16::MAX), rest)?;
            let what = name.what(PageId(page), first as u32, count as u32);
            Some((Event { caller, what }, rest))
        }
        EventWord::OfLoss(name) => parse_loss_event_fast(name, caller, text),
        EventWord::UnmapSub => parse_unmap_event_fast(caller, text),
        EventWord::Split => {
            let (number, rest) = parse_number_fast(b' ', u64::MAX, text)?;
            let mut released = SubSet::empty();
            let rest = parse_set_fast(rest, &mut released)?;
            let page = PageId(number);
            let what = What::Split { page, released };
            Some((Event { caller, what }, rest))
        }
        EventWord::Close => None,
    }
}

/// Parses the event of the line that a text begins with, and returns it with the text after the line. `None` implies nothing
/// about the line.
#[inline(always)]
pub(crate) fn parse_event_fast(version: Version, text: &[u8]) -> Option<(Event, &[u8])>
    ensures { IfSome result (λ read. FastEvent version text.now read.0 read.1.now) }
{
    let last = version.limits().last_caller;
    let (caller, rest) = parse_number_fast(b' ', u64::from(last), text)?;
    let (word, rest) = parse_word_fast(version, rest)?;
    parse_operands_fast(word, caller as u32, rest)
}
