//! Which frames a page holds, which an event gives back, and the outcome of an unmap or an unpin.
ghost use Rattle.std.specs.Prelude.{◌≡◌, ◌≤◌, ◌&&◌, not};
ghost use Rattle.thp_history.specs.Prelude.{block_in_use, is_held, max_order, outcome, released, standing};

use super::pages::{is_closed, is_live, is_mapped, is_split, loses_use, pins, total};
use super::passing::any_event;
use super::places::has_page;
use super::underused::is_zero_filled;
use std::collections::VecDeque;
use thp_history::{Event, MAX_SUBPAGES, Outcome, PageId, Shape, SubSet, What};

// Whether the page holds the frame of its subpage i.
pub(super) fn is_held(shape: Shape, events: &[Event], page: PageId, i: u32) -> bool
    requires { shape.order ≤ max_order }
    ensures { result ≡ is_held shape events.now page i }
{
    let given_as_zero = shape.shrinks_underused() && is_zero_filled(events, page, i);
    i < shape.subpages()
        && is_live(events, page)
        && (!is_split(events, page) || (0 < total(events, page, i) && !given_as_zero))
}

// Whether the page holds the frame of its subpage i before and not after.
fn is_released(shape: Shape, before: &[Event], after: &[Event], page: PageId, i: u32) -> bool
    requires { shape.order ≤ max_order }
    ensures { result ≡ (is_held shape before.now page i && not (is_held shape after.now page i)) }
{
    is_held(shape, before, page, i) && !is_held(shape, after, page, i)
}

// The frames of the page that are held before and not after.
pub(super) fn released(shape: Shape, before: &[Event], after: &[Event], page: PageId) -> SubSet
    requires { shape.order ≤ max_order }
    ensures { result ≡ released shape before.now after.now page }
{
    let mut set = SubSet::empty();
    for i in 0..MAX_SUBPAGES as u32 {
        if is_released(shape, before, after, page, i) {
            set.insert(i);
        }
    }
    set
}

// The outcome for the page of an unmap or an unpin; `listed` are the pages on a list before it.
pub(super) fn outcome(
    shape: Shape,
    before: &[Event],
    after: &[Event],
    page: PageId,
    listed: &VecDeque<PageId>,
) -> Outcome
    requires order { shape.order ≤ max_order }
    requires listed { listed.now.items ≡ standing shape before.now }
    ensures { result ≡ outcome shape before.now after.now page }
{
    if !is_mapped(shape, after, page) && pins(after, page) == 0 {
        Outcome::Freed
    } else if !is_split(before, page)
        && loses_use(shape, before, after, page)
        && is_mapped(shape, after, page)
        && !is_closed(before)
        && !has_page(page, listed)
    {
        Outcome::Queued
    } else {
        Outcome::Stays
    }
}

// Whether the block is that of a live page.
pub(super) fn block_in_use(events: &[Event], block: u32) -> bool
    ensures { result ≡ block_in_use events.now block }
{
    any_event(events, |what| match *what {
        What::Alloc { page, block: other } => block == other && is_live(events, page),
        _ => false,
    })
}
