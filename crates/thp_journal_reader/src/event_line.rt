//! Parses events from the words of a line.
ghost use Rattle.std.specs.Prelude.{◌≡◌, ◌≤◌, Ok, Err, IfOk, MatchResult, IfSome};
ghost use Rattle.thp_script.specs.Prelude.{number_up_to};
ghost use Rattle.thp_journal_reader.specs.Prelude.{caller_number, common_word, event_of, event_word, later_word, loss_event, outcome_and_word, outcome_of, page_number, page_what, range_event, range_number, range_what, split_event, unmap_event, FastWord};

use crate::set_text::set_of_text;
use thp_history::{Done, Event, Loss, Outcome, PageId, What};
use thp_journal_writer::Version;
use thp_script::{TextKind, Words, after_name, number, one_word};

/// Parses a number of at most `most`.
pub(crate) fn small_number(most: u32, word: &[u8]) -> Result<u32, TextKind>
    ensures value { result ≡ number_up_to most word.now }
    ensures bound { IfOk result (λ n. n ≤ most) }
{
    let value = number(u64::from(most), word).ok_or(TextKind::BadNumber)?;
    Ok(value as u32)
}

fn caller_number(version: Version, word: &[u8]) -> Result<u32, TextKind>
    ensures { result ≡ caller_number version word.now }
{
    small_number(version.limits().last_caller, word)
}

fn range_number(word: &[u8]) -> Result<u32, TextKind>
    ensures { result ≡ range_number word.now }
{
    small_number(u32::from(u16::MAX), word)
}

fn page_number(word: &[u8]) -> Result<PageId, TextKind>
    ensures { result ≡ page_number word.now }
{
    let value = number(u64::MAX, word).ok_or(TextKind::BadNumber)?;
    Ok(PageId(value))
}

/// Parses `CALLER WORD PAGE FIRST COUNT`.
#[tactic(auto, unfolding(crate::specs::EventLines::range_event))]
fn range_event(
    version: Version,
    name: RangeWord,
    caller: &[u8],
    mut words: Words,
) -> Result<Event, TextKind>
    ensures { result ≡ range_event version name caller.now words.entry }
{
    let (Some(page), Some(first), Some(count), None) = (
        words.next(),
        words.next(),
        words.next(),
        words.next(),
    ) else {
        return Err(TextKind::BadCount);
    };
    let caller = caller_number(version, caller)?;
    let page = page_number(page)?;
    let first = range_number(first)?;
    let count = range_number(count)?;
    Ok(Event {
        caller,
        what: name.what(page, first, count),
    })
}

/// Parses the word of an outcome, and returns the last word with it. An unknown outcome is reported before a wrong number of
/// words.
#[tactic(auto, unfolding(crate::specs::EventLines::outcome_and_word))]
fn outcome_and_word<'a>(mut words: Words<'a>) -> Result<(Outcome, &'a [u8]), TextKind>
    ensures { MatchResult result (λ ending. outcome_and_word words.entry ≡ Ok (ending.0, ending.1.now)) (λ kind. outcome_and_word words.entry ≡ Err kind) }
{
    let Some(name) = words.next() else {
        return Err(TextKind::BadCount);
    };
    let outcome = outcome_of(name)?;
    Ok((outcome, one_word(words)?))
}

/// Parses `CALLER WORD PAGE OUTCOME SET`.
#[tactic(auto, unfolding(crate::specs::EventLines::loss_event))]
fn loss_event(
    version: Version,
    name: Loss,
    caller: &[u8],
    mut words: Words,
) -> Result<Event, TextKind>
    ensures { result ≡ loss_event version name caller.now words.entry }
{
    let Some(page) = words.next() else {
        return Err(TextKind::BadCount);
    };
    let (outcome, set) = outcome_and_word(words)?;
    let caller = caller_number(version, caller)?;
    let page = page_number(page)?;
    let released = set_of_text(set)?;
    Ok(Event {
        caller,
        what: name.what(page, &Done { outcome, released }),
    })
}

/// Parses `CALLER unmapsub PAGE FIRST COUNT OUTCOME SET`.
#[tactic(auto, unfolding(crate::specs::EventLines::unmap_event))]
fn unmap_event(version: Version, caller: &[u8], mut words: Words) -> Result<Event, TextKind>
    ensures { result ≡ unmap_event version caller.now words.entry }
{
    let (Some(page), Some(first), Some(count)) = (words.next(), words.next(), words.next()) else {
        return Err(TextKind::BadCount);
    };
    let (outcome, set) = outcome_and_word(words)?;
    let caller = caller_number(version, caller)?;
    let page = page_number(page)?;
    let first = range_number(first)?;
    let count = range_number(count)?;
    let released = set_of_text(set)?;
    Ok(Event {
        caller,
        what: What::UnmapSub {
            outcome,
            page,
            first,
            count,
            released,
        },
    })
}

/// Parses `CALLER split PAGE SET`.
#[tactic(auto, unfolding(crate::specs::EventLines::split_event))]
fn split_event(version: Version, caller: &[u8], mut words: Words) -> Result<Event, TextKind>
    ensures { result ≡ split_event version caller.now words.entry }
{
    let (Some(page), Some(set), None) = (words.next(), words.next(), words.next()) else {
        return Err(TextKind::BadCount);
    };
    let caller = caller_number(version, caller)?;
    let page = page_number(page)?;
    let released = set_of_text(set)?;
    Ok(Event {
        caller,
        what: What::Split { page, released },
    })
}

/// Parses the event of a line: its caller, the word of the event, and its operands.
#[tactic(auto, unfolding(crate::specs::EventLines::page_event, crate::specs::EventLines::close_event))]
pub(crate) fn event_of(version: Version, caller: &[u8], mut words: Words) -> Result<Event, TextKind>
    ensures { result ≡ event_of version caller.now words.entry }
{
    let Some(name) = words.next() else {
        return Err(TextKind::BadWord);
    };
    match event_word(version, name)? {
        EventWord::OfPage(name) => {
            let page = one_word(words)?;
            let caller = caller_number(version, caller)?;
            let page = page_number(page)?;
            let what = name.what(page);
            Ok(Event { caller, what })
        }
        EventWord::OfRange(name) => range_event(version, name, caller, words),
        EventWord::OfLoss(name) => loss_event(version, name, caller, words),
        EventWord::UnmapSub => unmap_event(version, caller, words),
        EventWord::Split => split_event(version, caller, words),
        EventWord::Close => {
            if words.next().is_some() {
                return Err(TextKind::BadCount);
            }
            let caller = caller_number(version, caller)?;
            let what = What::Close;
            Ok(Event { caller, what })
        }
    }
}

/// Events with a page.
#[derive(Clone, Copy)]
pub enum PageWord {
    /// `alloc`
    Alloc,
    /// `mapwhole`
    MapWhole,
    /// `splitpmd`
    SplitPmd,
    /// `pin`
    Pin,
    /// `taken`
    Taken,
    /// `pinned`
    Pinned,
    /// `used`
    Used,
    /// `back`
    Back,
    /// `dropped`
    Dropped,
}

impl PageWord {
    pub(crate) fn what(self, page: PageId) -> What
        ensures { result ≡ page_what self page }
    {
        match self {
            PageWord::Alloc => What::Alloc { page, block: 0 },
            PageWord::MapWhole => What::MapWhole { page },
            PageWord::SplitPmd => What::SplitPmd { page },
            PageWord::Pin => What::Pin { page },
            PageWord::Taken => What::Taken { page },
            PageWord::Pinned => What::Pinned { page },
            PageWord::Used => What::Used { page },
            PageWord::Back => What::Back { page },
            PageWord::Dropped => What::Dropped { page },
        }
    }
}

/// Events with a page and a range of its subpages.
#[derive(Clone, Copy)]
pub enum RangeWord {
    /// `mapsub`
    MapSub,
    /// `write`
    Write,
    /// `zero`
    Zero,
}

impl RangeWord {
    pub(crate) fn what(self, page: PageId, first: u32, count: u32) -> What
        ensures { result ≡ range_what self page first count }
    {
        match self {
            RangeWord::MapSub => What::MapSub { page, first, count },
            RangeWord::Write => What::Write { page, first, count },
            RangeWord::Zero => What::Zero { page, first, count },
        }
    }
}

/// The words of events, by the operands that follow them.
#[derive(Clone, Copy)]
pub enum EventWord {
    /// `CALLER WORD PAGE`
    OfPage(PageWord),
    /// `CALLER WORD PAGE FIRST COUNT`
    OfRange(RangeWord),
    /// `CALLER WORD PAGE OUTCOME SET`
    OfLoss(Loss),
    /// `CALLER unmapsub PAGE FIRST COUNT OUTCOME SET`
    UnmapSub,
    /// `CALLER split PAGE SET`
    Split,
    /// `CALLER close`
    Close,
}

#[inline(always)]
#[tactic(auto, unfolding(crate::specs::EventWords::common_word))]
fn common_word(name: &[u8]) -> Result<EventWord, TextKind>
    ensures { result ≡ common_word name.now }
{
    match name {
        b"alloc" => Ok(EventWord::OfPage(PageWord::Alloc)),
        b"mapwhole" => Ok(EventWord::OfPage(PageWord::MapWhole)),
        b"unmapwhole" => Ok(EventWord::OfLoss(Loss::UnmapWhole)),
        b"mapsub" => Ok(EventWord::OfRange(RangeWord::MapSub)),
        b"unmapsub" => Ok(EventWord::UnmapSub),
        b"splitpmd" => Ok(EventWord::OfPage(PageWord::SplitPmd)),
        b"pin" => Ok(EventWord::OfPage(PageWord::Pin)),
        b"unpin" => Ok(EventWord::OfLoss(Loss::Unpin)),
        b"taken" => Ok(EventWord::OfPage(PageWord::Taken)),
        b"split" => Ok(EventWord::Split),
        b"pinned" => Ok(EventWord::OfPage(PageWord::Pinned)),
        b"back" => Ok(EventWord::OfPage(PageWord::Back)),
        b"dropped" => Ok(EventWord::OfPage(PageWord::Dropped)),
        b"close" => Ok(EventWord::Close),
        _ => Err(TextKind::BadWord),
    }
}

#[inline(always)]
#[tactic(auto, unfolding(crate::specs::EventWords::later_word))]
fn later_word(name: &[u8]) -> Result<EventWord, TextKind>
    ensures { result ≡ later_word name.now }
{
    match name {
        b"write" => Ok(EventWord::OfRange(RangeWord::Write)),
        b"zero" => Ok(EventWord::OfRange(RangeWord::Zero)),
        b"used" => Ok(EventWord::OfPage(PageWord::Used)),
        _ => common_word(name),
    }
}

/// Returns the event that a word names in a version of the format.
#[inline(always)]
pub(crate) fn event_word(version: Version, name: &[u8]) -> Result<EventWord, TextKind>
    ensures { result ≡ event_word version name.now }
{
    match version {
        Version::Plain | Version::Orders => common_word(name),
        Version::Underused | Version::Large => later_word(name),
    }
}

/// Returns the event that this word names and the text after the word and a space, if the text begins with them.
#[inline(always)]
fn word_at<'t>(version: Version, name: &[u8], text: &'t [u8]) -> Option<(EventWord, &'t [u8])>
    ensures { IfSome result (λ read. FastWord version text.now read.0 read.1.now) }
{
    let rest = after_name(name, text)?;
    let Ok(word) = event_word(version, name) else {
        return None;
    };
    Some((word, rest))
}

#[inline(always)]
fn either_at<'t>(
    version: Version,
    first: &[u8],
    second: &[u8],
    text: &'t [u8],
) -> Option<(EventWord, &'t [u8])>
    ensures { IfSome result (λ read. FastWord version text.now read.0 read.1.now) }
{
    if let Some(read) = word_at(version, first, text) {
        return Some(read);
    }
    word_at(version, second, text)
}

/// Parses the word of an event at the beginning of a text, and returns it with the text after the following space. `None` implies
/// nothing about the text.
#[inline(always)]
pub(crate) fn parse_word_fast(version: Version, text: &[u8]) -> Option<(EventWord, &[u8])>
    ensures { IfSome result (λ read. FastWord version text.now read.0 read.1.now) }
{
    match *text.first()? {
        b'a' => word_at(version, b"alloc", text),
        b'm' => either_at(version, b"mapsub", b"mapwhole", text),
        b'u' => {
            if let Some(read) = either_at(version, b"unmapsub", b"unpin", text) {
                return Some(read);
            }
            either_at(version, b"unmapwhole", b"used", text)
        }
        b's' => either_at(version, b"splitpmd", b"split", text),
        b'p' => either_at(version, b"pin", b"pinned", text),
        b't' => word_at(version, b"taken", text),
        b'b' => word_at(version, b"back", text),
        b'd' => word_at(version, b"dropped", text),
        b'w' => word_at(version, b"write", text),
        b'z' => word_at(version, b"zero", text),
        _ => None,
    }
}

/// Returns the outcome that a word names.
#[tactic(auto, unfolding(crate::specs::EventWords::outcome_of))]
pub(crate) fn outcome_of(word: &[u8]) -> Result<Outcome, TextKind>
    ensures { result ≡ outcome_of word.now }
{
    match word {
        b"stays" => Ok(Outcome::Stays),
        b"queued" => Ok(Outcome::Queued),
        b"freed" => Ok(Outcome::Freed),
        _ => Err(TextKind::BadWord),
    }
}
