//! Which subpages of a page are zero-filled, and whether the page is worth a split.
ghost use Rattle.std.specs.Prelude.{◌≡◌, ◌≤◌, ◌&&◌};
ghost use Rattle.thp_history.specs.Prelude.{is_mapped, is_partly_mapped, is_worth_split, is_zero_filled, loses_use, max_order, unmaps_some, zero_filled};

use super::kinds::zero_after;
use super::pages::{is_mapped, loses_use};
use thp_history::{Event, PageId, Shape, What};

// Whether subpage i of the page is zero-filled.
pub(super) fn is_zero_filled(events: &[Event], page: PageId, i: u32) -> bool
    ensures { result ≡ is_zero_filled events.now page i }
{
    let mut zero = true;
    for event in events {
        zero = zero_after(zero, &event.what, page, i);
    }
    zero
}

// Whether the event removes the last mapping of a subpage of the page and leaves another subpage mapped.
fn unmaps_part(shape: Shape, before: &[Event], after: &[Event], p: PageId, what: &What) -> bool
    requires { shape.order ≤ max_order }
    ensures { result ≡ (unmaps_some p what.now && (loses_use shape before.now after.now p && is_mapped shape after.now p)) }
{
    matches!(*what, What::UnmapWhole { page, .. } | What::UnmapSub { page, .. } if page == p)
        && loses_use(shape, before, after, p)
        && is_mapped(shape, after, p)
}

// Whether the page is partly mapped: some event unmapped a part of it and left another part mapped.
pub(super) fn is_partly_mapped(shape: Shape, events: &[Event], page: PageId) -> bool
    requires { shape.order ≤ max_order }
    ensures { result ≡ is_partly_mapped shape events.now page }
{
    let mut partly = false;
    for (place, event) in events.iter().enumerate() {
        let (before, after) = (&events[..place], &events[..place + 1]);
        let unmapped = unmaps_part(shape, before, after, page, &event.what);
        partly = partly || unmapped;
    }
    partly
}

// How many subpages of the page are zero-filled.
fn zero_filled(shape: Shape, events: &[Event], page: PageId) -> u32
    requires { shape.order ≤ max_order }
    ensures { result ≡ zero_filled shape events.now page }
{
    let mut count = 0;
    for i in 0..shape.subpages() {
        if is_zero_filled(events, page, i) {
            count += 1;
        }
    }
    count
}

// Whether the page is worth a split: it is partly mapped, or more of its subpages are zero-filled than the threshold.
pub(super) fn is_worth_split(shape: Shape, events: &[Event], page: PageId) -> bool
    requires { shape.order ≤ max_order }
    ensures { result ≡ is_worth_split shape events.now page }
{
    let zero = zero_filled(shape, events, page);
    is_partly_mapped(shape, events, page) || shape.underused.is_some_and(|most| most < zero)
}
