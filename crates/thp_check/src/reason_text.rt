//! Why an event does not fit, as text.
ghost use Rattle.std.specs.Prelude.{◌≡◌, ◌++◌, OnOk};
ghost use Rattle.thp_journal_writer.specs.Prelude.{ended};
ghost use Rattle.thp_check.specs.Explanations.{becomes, refused, why};

use crate::Misfit;
use crate::expected::page_of;
use crate::pieces::{put_caller, put_flight, put_last, put_page, put_words};
use std::alloc::AllocError;
use thp_history::{Outcome, Refusal, What};

// Why a caller's event does not fit, and a line feed.
pub(crate) fn put_why(
    text: &mut Vec<u8>,
    caller: u32,
    what: &What,
    misfit: &Misfit,
) -> Result<(), AllocError>
    ensures { OnOk result (text.new.items ≡ text.old.items ++ ended (why caller what.now misfit.now)) }
{
    let page = page_of(what);
    match misfit {
        Misfit::Refused(refusal) => put_words(text, refused(*refusal)),
        Misfit::Number(number) => put_last(text, "the next page number is ", number.0),
        Misfit::BlockTaken => put_page(text, page, "has no free block"),
        Misfit::Outcome { outcome, .. } => put_page(text, page, becomes(*outcome)),
        Misfit::Oldest(Some(oldest)) => put_page(text, *oldest, "is the oldest in the queue"),
        Misfit::Oldest(None) => put_words(text, "the queue is empty"),
        Misfit::HasBatch => put_caller(
            text,
            caller,
            "has pages in flight, and the previous event is not one of its takes",
        ),
        Misfit::NotInFlight => put_flight(text, page, "is not in", caller),
        Misfit::InUse => put_page(
            text,
            page,
            "is no split candidate: it is neither partly mapped nor underused",
        ),
        Misfit::WorthSplit => put_page(
            text,
            page,
            "is a split candidate: it is partly mapped or underused",
        ),
        Misfit::HasPins => put_page(text, page, "has pins"),
        Misfit::NoPins => put_page(text, page, "has no pin"),
        Misfit::Released(_) => put_page(text, page, "releases these frames when it is split"),
        Misfit::First(Some(first)) => put_flight(text, *first, "is the first of", caller),
        Misfit::First(None) => put_caller(text, caller, "has no page in flight"),
        Misfit::MustDrop => put_page(text, page, "is not partly mapped, or the node is closed"),
        Misfit::MustRequeue => put_page(text, page, "is partly mapped, and the node is open"),
    }
}

// A refusal by its word in answers, and its meaning.
fn refused(refusal: Refusal) -> &'static str
    ensures { result.now ≡ refused refusal }
{
    match refusal {
        Refusal::NoPage => "refused no-page: the page was never allocated, or was freed",
        Refusal::BadRange => { "refused bad-range: the range is empty or exceeds the page" }
        Refusal::IsSplit => "refused is-split: the page is split into base pages",
        Refusal::NotMapped => "refused not-mapped: the mapping does not exist",
        Refusal::Gone => "refused gone: a frame of the range was given back",
        Refusal::NotPinned => "refused not-pinned: the page has no pin",
        Refusal::TooMany => "refused too-many: the count is already 65535",
        Refusal::Closed => "refused closed: the node is closed",
        Refusal::NoBlock => "refused no-block: every block holds a live page",
        Refusal::HasBatch => "refused has-batch: the caller has pages in flight",
        Refusal::OutOfMemory => "refused out-of-memory: the journal could not grow",
    }
}

// Why an unmap or an unpin has this outcome.
fn becomes(outcome: Outcome) -> &'static str
    ensures { result.now ≡ becomes outcome }
{
    match outcome {
        Outcome::Stays => {
            "is still mapped or pinned and does not join the queue; only a split page gives back frames"
        }
        Outcome::Queued => {
            "lost the last mapping of a subpage, has another mapped one, and is on no list: it joins the queue"
        }
        Outcome::Freed =>
            "has no mapping and no pin left: it is freed with all frames that it held",
    }
}
