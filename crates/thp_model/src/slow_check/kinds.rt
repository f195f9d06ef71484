//! Kind by kind: what an event does to a subpage, why a call is refused, and whether an event fits a history.
ghost use Rattle.std.specs.Prelude.{◌≡◌, ◌∷◌, [], ◌<◌, ◌≤◌, ◌↔◌, ◌&&◌, not, false, IsTrue, IfOk};
ghost use Rattle.thp_history.specs.Prelude.{FitsBy, Gives, allocations, block_in_use, covers, has_page, is_held, is_split, is_worth_split, maps, maps_whole, max_order, refusal_of, standing, zero_after};
ghost use Rattle.thp_history.specs.Refusals as call;
ghost use Rattle.thp_history.specs.Refusals.{refusal, first_of, no_page, bad_range, split_page, some_of};
ghost use Rattle.thp_model.specs.Lists.{AreLists};

use super::frames;
use super::frames::{block_in_use, is_held, outcome};
use super::pages::{allocations, is_closed, is_live, is_split, own, pins, total, whole};
use super::passing::any_below;
use super::places::{Lists, flight, has_page, is_first, is_taking, queue, standing};
use super::underused::{is_partly_mapped, is_worth_split};
use std::alloc::{AllocError, Global};
use std::collections::VecDeque;
use thp_history::{Done, Event, PageId, Refusal, Shape, What};

// Whether the event adds a mapping of subpage i of the page.
pub(super) fn maps(what: &What, p: PageId, i: u32) -> bool
    ensures { result ≡ maps p i what.now }
{
    match *what {
        What::Alloc { page, .. } | What::MapWhole { page } => page == p,
        What::MapSub { page, first, count } => page == p && covers(first, count, i),
        _ => false,
    }
}

// Whether the event adds a mapping of the whole page.
pub(super) fn maps_whole(what: &What, p: PageId) -> bool
    ensures { result ≡ maps_whole p what.now }
{
    matches!(*what, What::Alloc { page, .. } | What::MapWhole { page } if page == p)
}

// Whether a range covers subpage i.
pub(super) fn covers(first: u32, count: u32, i: u32) -> bool
    ensures { result ≡ covers first count i }
{
    first <= i && u64::from(i) < u64::from(first) + u64::from(count)
}

// Whether subpage i of the page is zero-filled after the event, by whether it was before.
pub(super) fn zero_after(before: bool, what: &What, p: PageId, i: u32) -> bool
    ensures { result ≡ zero_after p i before what.now }
{
    match *what {
        What::Alloc { page, .. } => before || page == p,
        What::Zero { page, first, count } => before || (page == p && covers(first, count, i)),
        What::Write { page, first, count } => before && !(page == p && covers(first, count, i)),
        _ => before,
    }
}

// The greatest map count of a subpage, and the greatest number of pins.
const MOST: usize = 65_535;

// The first reason of a list that holds.
fn first_of(reasons: &[(bool, Refusal)]) -> Option<Refusal>
    ensures { result ≡ first_of reasons.now }
{
    for reason in reasons {
        if reason.0 {
            return Some(reason.1);
        }
    }
    None
}

fn no_page(events: &[Event], page: PageId) -> (bool, Refusal)
    ensures { result ≡ no_page events.now page }
{
    (!is_live(events, page), Refusal::NoPage)
}

fn bad_range(shape: Shape, first: u32, count: u32) -> (bool, Refusal)
    requires { shape.order ≤ max_order }
    ensures { result ≡ bad_range shape first count }
{
    let ends_outside = u64::from(shape.subpages()) < u64::from(first) + u64::from(count);
    (count == 0 || ends_outside, Refusal::BadRange)
}

// Why a call about a whole page is refused: it is not live, it is split, or the reason holds.
fn of_whole(events: &[Event], page: PageId, holds: bool, reason: Refusal) -> Option<Refusal>
    ensures { result ≡ first_of (no_page events.now page ∷ split_page events.now page ∷ (holds, reason) ∷ []) }
{
    let split = (is_split(events, page), Refusal::IsSplit);
    first_of(&[no_page(events, page), split, (holds, reason)])
}

// Whether the page was split and a frame of the range was given back.
fn gone(shape: Shape, events: &[Event], page: PageId, first: u32, count: u32) -> (bool, Refusal)
    requires { shape.order ≤ max_order }
    ensures { result ≡ (is_split events.now page && some_of shape first count (λ i. not (is_held shape events.now page i)), Refusal.Gone) }
{
    let some_gone = any_below(shape.subpages(), |i| {
        covers(first, count, i) && !is_held(shape, events, page, i)
    });
    (is_split(events, page) && some_gone, Refusal::Gone)
}

// Why a mapping of a range is refused.
fn of_map(shape: Shape, events: &[Event], page: PageId, first: u32, count: u32) -> Option<Refusal>
    requires { shape.order ≤ max_order }
    ensures { result ≡ refusal shape events.now (call.map_sub page first count) }
{
    let is_full = any_below(shape.subpages(), |i| {
        covers(first, count, i) && total(events, page, i) == MOST
    });
    first_of(&[
        no_page(events, page),
        bad_range(shape, first, count),
        gone(shape, events, page, first, count),
        (is_full, Refusal::TooMany),
    ])
}

// Why the call of an event is refused; what a batch does with a page is no call.
fn refusal(shape: Shape, events: &[Event], what: &What) -> Option<Refusal>
    requires { shape.order ≤ max_order }
    ensures { result ≡ refusal_of shape events.now what.now }
{
    match *what {
        What::Alloc { .. } => {
            let is_full = !any_below(shape.blocks, |block| !block_in_use(events, block));
            let closed = (is_closed(events), Refusal::Closed);
            first_of(&[closed, (is_full, Refusal::NoBlock)])
        }
        What::MapWhole { page } => {
            let is_full = any_below(shape.subpages(), |i| total(events, page, i) == MOST);
            of_whole(events, page, is_full, Refusal::TooMany)
        }
        What::UnmapWhole { page, .. } | What::SplitPmd { page } => {
            of_whole(events, page, whole(events, page) == 0, Refusal::NotMapped)
        }
        What::MapSub { page, first, count } => of_map(shape, events, page, first, count),
        What::UnmapSub {
            page,
            first,
            count,
            ..
        } => {
            let is_unmapped = any_below(shape.subpages(), |i| {
                covers(first, count, i) && own(events, page, i) == 0
            });
            let bad = bad_range(shape, first, count);
            first_of(&[
                no_page(events, page),
                bad,
                (is_unmapped, Refusal::NotMapped),
            ])
        }
        What::Pin { page } => {
            of_whole(events, page, pins(events, page) == MOST, Refusal::TooMany)
        }
        What::Unpin { page, .. } => {
            of_whole(events, page, pins(events, page) == 0, Refusal::NotPinned)
        }
        What::Write { page, first, count } | What::Zero { page, first, count } => {
            let is_unmapped = any_below(shape.subpages(), |i| {
                covers(first, count, i) && total(events, page, i) == 0
            });
            first_of(&[
                no_page(events, page),
                bad_range(shape, first, count),
                (is_split(events, page), Refusal::IsSplit),
                (is_unmapped, Refusal::NotMapped),
            ])
        }
        What::Close => first_of(&[(is_closed(events), Refusal::Closed)]),
        _ => None,
    }
}

// Whether an event fits the events before it; `after` are they and the event.
pub(super) fn fits(
    alloc: Global,
    shape: Shape,
    before: &[Event],
    after: &[Event],
    event: &Event,
) -> Result<bool, AllocError>
    requires { shape.order ≤ max_order }
    ensures { IfOk result (λ fits. IsTrue fits ↔ FitsBy shape before.now after.now event.now.caller event.now.what) }
{
    let lists = Lists {
        queue: queue(alloc, shape, before)?,
        flight: flight(alloc, before, event.caller)?,
        standing: standing(alloc, shape, before)?,
    };
    Ok(fits_lists(shape, before, after, event, &lists))
}

// The same, by the lists that pages are on after the events before it.
fn fits_lists(shape: Shape, before: &[Event], after: &[Event], event: &Event, lists: &Lists) -> bool
    requires order { shape.order ≤ max_order }
    requires lists { AreLists shape before.now event.now.caller lists.now }
    ensures { IsTrue result ↔ FitsBy shape before.now after.now event.now.caller event.now.what }
{
    let (flight, caller) = (&lists.flight, event.caller);
    let is_allowed = refusal(shape, before, &event.what).is_none();
    match event.what {
        What::Alloc { page, block } => is_allowed && is_next(shape, before, page, block),
        What::UnmapWhole {
            outcome,
            page,
            released,
        } => {
            let recorded = Done { outcome, released };
            is_allowed && gives(shape, before, after, page, &recorded, lists)
        }
        What::UnmapSub {
            outcome,
            page,
            released,
            ..
        } => {
            let recorded = Done { outcome, released };
            is_allowed && gives(shape, before, after, page, &recorded, lists)
        }
        What::Unpin {
            outcome,
            page,
            released,
        } => {
            let recorded = Done { outcome, released };
            is_allowed && gives(shape, before, after, page, &recorded, lists)
        }
        What::Taken { page } => {
            is_first(page, &lists.queue) && (flight.is_empty() || is_taking(before, caller))
        }
        What::Split { page, released } => {
            can_try(shape, before, page, flight)
                && pins(before, page) == 0
                && released == frames::released(shape, before, after, page)
        }
        What::Pinned { page } => can_try(shape, before, page, flight) && 0 < pins(before, page),
        What::Used { page } => has_page(page, flight) && !is_worth_split(shape, before, page),
        What::Back { page } => {
            is_first(page, flight) && !is_closed(before) && is_partly_mapped(shape, before, page)
        }
        What::Dropped { page } => {
            is_first(page, flight) && (is_closed(before) || !is_partly_mapped(shape, before, page))
        }
        _ => is_allowed,
    }
}

// Whether a page has the next number, and a block exists that holds no live page.
fn is_next(shape: Shape, before: &[Event], page: PageId, block: u32) -> bool
    ensures { IsTrue result ↔ ((page ≡ allocations before.now) × (block < shape.blocks) × (block_in_use before.now block ≡ false)) }
{
    page.0 == allocations(before) as u64 && block < shape.blocks && !block_in_use(before, block)
}

// Whether an unmap or an unpin records the outcome and the frames that the model computes.
fn gives(
    shape: Shape,
    before: &[Event],
    after: &[Event],
    page: PageId,
    recorded: &Done,
    lists: &Lists,
) -> bool
    requires order { shape.order ≤ max_order }
    requires lists { lists.now.standing.items ≡ standing shape before.now }
    ensures { IsTrue result ↔ Gives shape before.now after.now page recorded.now.outcome recorded.now.released }
{
    recorded.outcome == outcome(shape, before, after, page, &lists.standing)
        && recorded.released == frames::released(shape, before, after, page)
}

// Whether a page is in a flight and worth a split.
fn can_try(shape: Shape, before: &[Event], page: PageId, flight: &VecDeque<PageId>) -> bool
    requires { shape.order ≤ max_order }
    ensures { result ≡ (has_page page flight.now.items && is_worth_split shape before.now page) }
{
    has_page(page, flight) && is_worth_split(shape, before, page)
}
