//! The events that would fit instead of an event that does not.
ghost use Rattle.std.specs.Prelude.{◌≡◌, ◌++◌, OnOk};
ghost use Rattle.thp_check.specs.Reasons.{with_frames, with_outcome};
ghost use Rattle.thp_history.specs.Prelude.{by};
ghost use Rattle.thp_journal_writer.specs.Prelude.{ended, event_line};
ghost use Rattle.thp_check.specs.Explanations.{expected, or_a_split, or_this, page_of};

use crate::Misfit;
use crate::pieces::{put_last, put_words};
use std::alloc::AllocError;
use thp_history::{Done, Event, Outcome, PageCall, PageId, SubSet, What};
use thp_journal_writer::{event_page, put, put_event_line};

// The events that would fit instead of a caller's event, one line each.
#[tactic(auto, using(crate::proofs::Joined::two, crate::proofs::Joined::three, crate::proofs::Joined::nothing_line))]
pub(crate) fn put_expected(
    text: &mut Vec<u8>,
    caller: u32,
    what: &What,
    misfit: &Misfit,
) -> Result<(), AllocError>
    ensures { OnOk result (text.new.items ≡ text.old.items ++ expected caller what.now misfit.now) }
{
    let page = page_of(what);
    put(text, b"expected: ")?;
    match *misfit {
        Misfit::Number(page) => put_event(text, caller, What::Alloc { page, block: 0 }),
        Misfit::Outcome { outcome, released } => {
            put_event(text, caller, with_outcome(what, outcome, released))
        }
        Misfit::Oldest(Some(page)) => put_event(text, caller, What::Taken { page }),
        Misfit::InUse => put_event(text, caller, What::Used { page }),
        Misfit::WorthSplit => put_event_or_split(text, caller, What::Pinned { page }, page),
        Misfit::HasPins => put_event(text, caller, What::Pinned { page }),
        Misfit::NoPins => put_event_or_split(text, caller, What::Used { page }, page),
        Misfit::Released(released) => put_event(text, caller, with_frames(what, released)),
        Misfit::First(Some(first)) => put_return(text, caller, first),
        Misfit::MustDrop => put_event(text, caller, What::Dropped { page }),
        Misfit::MustRequeue => put_event(text, caller, What::Back { page }),
        Misfit::Refused(_)
        | Misfit::BlockTaken
        | Misfit::Oldest(None)
        | Misfit::HasBatch
        | Misfit::NotInFlight
        | Misfit::First(None) => put_words(text, "nothing"),
    }
}

// An event of a caller.
fn put_event(text: &mut Vec<u8>, caller: u32, what: What) -> Result<(), AllocError>
    ensures { OnOk result (text.new.items ≡ text.old.items ++ ended (event_line (by caller what))) }
{
    put_event_line(text, &Event { caller, what })
}

// An event of a caller, or a split of a page.
#[tactic(auto, using(crate::proofs::Joined::two))]
fn put_event_or_split(
    text: &mut Vec<u8>,
    caller: u32,
    what: What,
    page: PageId,
) -> Result<(), AllocError>
    ensures { OnOk result (text.new.items ≡ text.old.items ++ (ended (event_line (by caller what)) ++ or_a_split page)) }
{
    put_event(text, caller, what)?;
    put_last(text, "or: a split of page ", page.0)
}

// A page that leaves a caller's flight: it is put back, or dropped.
#[tactic(auto, using(crate::proofs::Joined::two))]
fn put_return(text: &mut Vec<u8>, caller: u32, page: PageId) -> Result<(), AllocError>
    ensures { OnOk result (text.new.items ≡ text.old.items ++ (ended (event_line (by caller (What.Back page))) ++ or_this caller (What.Dropped page))) }
{
    put_event(text, caller, What::Back { page })?;
    put(text, b"or: ")?;
    put_event(text, caller, What::Dropped { page })
}

// The page of an event; that of a close is 0.
pub(crate) fn page_of(what: &What) -> PageId
    ensures { result ≡ page_of what.now }
{
    event_page(what).unwrap_or_default()
}

// The same unmap or unpin with this outcome and these frames.
fn with_outcome(what: &What, outcome: Outcome, released: SubSet) -> What
    ensures { result ≡ with_outcome outcome released what.now }
{
    if let Some((page, call)) = what.page_call() {
        if let PageCall::Loss(loss) = call {
            return loss.what(page, &Done { outcome, released });
        }
    }
    *what
}

// The same split with these frames.
fn with_frames(what: &What, released: SubSet) -> What
    ensures { result ≡ with_frames released what.now }
{
    match *what {
        What::Split { page, .. } => What::Split { page, released },
        other => other,
    }
}
