//! Appends events to a text, one line each.
ghost use Rattle.std.specs.Prelude.{◌≡◌, [], ◌∷◌, ◌++◌, OnOk};
ghost use Rattle.std.specs.Fmt.{decimal};
ghost use Rattle.thp_journal_writer.specs.Prelude.{ended, event_line, event_page, spaced_line, outcome_room, outcome_word, set_text, what_words, Takes};

use crate::numbers::{put, put_number};
use crate::sets::put_set;
use std::alloc::AllocError;
use thp_history::{Event, Outcome, PageId, SubSet, What};

/// Appends the line of an event of any kind, with its line feed, for any version of the format. On error the text can contain a
/// prefix of the line.
pub fn put_event_line(text: &mut Vec<u8>, event: &Event) -> Result<(), AllocError>
    ensures { OnOk result (text.new.items ≡ text.old.items ++ ended (event_line event.now)) }
{
    put_number(text, u64::from(event.caller), b' ')?;
    put_what(text, &event.what)
}

/// Returns the page in an event's line; `None` for a close.
pub fn event_page(what: &What) -> Option<PageId>
    ensures { result ≡ event_page what.now }
{
    match *what {
        What::Alloc { page, .. }
        | What::MapWhole { page }
        | What::UnmapWhole { page, .. }
        | What::MapSub { page, .. }
        | What::UnmapSub { page, .. }
        | What::SplitPmd { page }
        | What::Pin { page }
        | What::Unpin { page, .. }
        | What::Write { page, .. }
        | What::Zero { page, .. }
        | What::Taken { page }
        | What::Split { page, .. }
        | What::Pinned { page }
        | What::Used { page }
        | What::Back { page }
        | What::Dropped { page } => Some(page),
        What::Close => None,
    }
}

// the event, after the caller
fn put_what(text: &mut Vec<u8>, what: &What) -> Result<(), AllocError>
    ensures { OnOk result (text.new.items ≡ text.old.items ++ ended (spaced_line (what_words what.now))) }
{
    match what {
        What::Alloc { page, .. } => put_page(text, b"alloc ", *page),
        What::MapWhole { page } => put_page(text, b"mapwhole ", *page),
        What::SplitPmd { page } => put_page(text, b"splitpmd ", *page),
        What::Pin { page } => put_page(text, b"pin ", *page),
        What::Taken { page } => put_page(text, b"taken ", *page),
        What::Pinned { page } => put_page(text, b"pinned ", *page),
        What::Used { page } => put_page(text, b"used ", *page),
        What::Back { page } => put_page(text, b"back ", *page),
        What::Dropped { page } => put_page(text, b"dropped ", *page),
        What::Close => put(text, b"close\n"),
        What::MapSub { page, first, count } => {
            put_range(text, b"mapsub ", *page, *first, *count, b'\n')
        }
        What::Write { page, first, count } => {
            put_range(text, b"write ", *page, *first, *count, b'\n')
        }
        What::Zero { page, first, count } => {
            put_range(text, b"zero ", *page, *first, *count, b'\n')
        }
        What::Split { page, released } => {
            put(text, b"split ")?;
            put_number(text, page.0, b' ')?;
            put_set(text, released, b'\n')
        }
        What::UnmapWhole {
            outcome,
            page,
            released,
        } => {
            put(text, b"unmapwhole ")?;
            put_number(text, page.0, b' ')?;
            put_outcome(text, *outcome, released)
        }
        What::Unpin {
            outcome,
            page,
            released,
        } => {
            put(text, b"unpin ")?;
            put_number(text, page.0, b' ')?;
            put_outcome(text, *outcome, released)
        }
        What::UnmapSub {
            outcome,
            page,
            first,
            count,
            released,
        } => {
            put_range(text, b"unmapsub ", *page, *first, *count, b' ')?;
            put_outcome(text, *outcome, released)
        }
    }
}

// a name, a page, and a line feed
#[inline(always)]
fn put_page(text: &mut Vec<u8>, name: &[u8], page: PageId) -> Result<(), AllocError>
    ensures { OnOk result (text.new.items ≡ text.old.items ++ name.now ++ decimal page ++ 10 ∷ []) }
{
    put(text, name)?;
    put_number(text, page.0, b'\n')
}

// a name, a range of a page's subpages, and the byte `after`
#[inline(always)]
fn put_range(
    text: &mut Vec<u8>,
    name: &[u8],
    page: PageId,
    first: u32,
    count: u32,
    after: u8,
) -> Result<(), AllocError>
    ensures { OnOk result (text.new.items ≡ text.old.items ++ name.now ++ spaced_line (decimal page ∷ decimal first ∷ decimal count ∷ []) ++ after ∷ []) }
{
    put(text, name)?;
    put_number(text, page.0, b' ')?;
    put_number(text, u64::from(first), b' ')?;
    put_number(text, u64::from(count), after)
}

/// Appends an outcome, the set given back, and a line feed.
#[inline]
pub fn put_outcome(
    text: &mut Vec<u8>,
    outcome: Outcome,
    released: &SubSet,
) -> Result<(), AllocError>
    ensures text { OnOk result (text.new.items ≡ text.old.items ++ ended (spaced_line (outcome_word outcome ∷ set_text released.now ∷ []))) }
    ensures room { Takes outcome_room text.old text.new result }
{
    match outcome {
        Outcome::Stays => put(text, b"stays ")?,
        Outcome::Queued => put(text, b"queued ")?,
        Outcome::Freed => put(text, b"freed ")?,
    }
    put_set(text, released, b'\n')
}
