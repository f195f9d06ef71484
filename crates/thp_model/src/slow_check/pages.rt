//! The state of one page after a history: its map counts, its pins and its states.
ghost use Rattle.std.specs.Prelude.{◌≡◌, ◌≤◌};
ghost use Rattle.thp_history.specs.Prelude.{allocations, is_closed, is_live, is_mapped, is_split, loses_use, max_order, own, pins, total, whole};

use super::kinds::{covers, maps, maps_whole};
use super::passing::{any_below, any_event, count_events};
use thp_history::{Event, Outcome, PageId, Shape, What};

// How many pages were allocated.
pub(super) fn allocations(events: &[Event]) -> usize
    ensures { result ≡ allocations events.now }
{
    count_events(events, |what| matches!(*what, What::Alloc { .. }))
}

// How often subpage i of the page is mapped.
pub(super) fn total(events: &[Event], p: PageId, i: u32) -> usize
    ensures { result ≡ total events.now p i }
{
    let mapped = count_events(events, |what| maps(what, p, i));
    let unmapped = count_events(events, |what| match *what {
        What::UnmapWhole { page, .. } => page == p,
        What::UnmapSub {
            page,
            first,
            count,
            ..
        } => page == p && covers(first, count, i),
        _ => false,
    });
    mapped.saturating_sub(unmapped)
}

// Whether the page was split.
pub(super) fn is_split(events: &[Event], p: PageId) -> bool
    ensures { result ≡ is_split events.now p }
{
    any_event(events, |what| {
        matches!(*what, What::Split { page, .. } if page == p)
    })
}

// How often the page is mapped whole.
pub(super) fn whole(events: &[Event], p: PageId) -> usize
    ensures { result ≡ whole events.now p }
{
    if is_split(events, p) {
        return 0;
    }
    let mapped = count_events(events, |what| maps_whole(what, p));
    let unmapped = count_events(events, |what| {
        matches!(*what, What::UnmapWhole { page, .. } | What::SplitPmd { page } if page == p)
    });
    mapped.saturating_sub(unmapped)
}

// How often subpage i of the page is mapped by itself.
pub(super) fn own(events: &[Event], page: PageId, i: u32) -> usize
    ensures { result ≡ own events.now page i }
{
    total(events, page, i).saturating_sub(whole(events, page))
}

// How many pins the page has.
pub(super) fn pins(events: &[Event], p: PageId) -> usize
    ensures { result ≡ pins events.now p }
{
    let pinned = count_events(events, |what| {
        matches!(*what, What::Pin { page } if page == p)
    });
    let unpinned = count_events(events, |what| {
        matches!(*what, What::Unpin { page, .. } if page == p)
    });
    pinned.saturating_sub(unpinned)
}

// Whether some subpage of the page is mapped.
pub(super) fn is_mapped(shape: Shape, events: &[Event], page: PageId) -> bool
    requires { shape.order ≤ max_order }
    ensures { result ≡ is_mapped shape events.now page }
{
    any_below(shape.subpages(), |i| 0 < total(events, page, i))
}

// Whether some subpage of the page was mapped before and isn't after.
pub(super) fn loses_use(shape: Shape, before: &[Event], after: &[Event], page: PageId) -> bool
    requires { shape.order ≤ max_order }
    ensures { result ≡ loses_use shape before.now after.now page }
{
    any_below(shape.subpages(), |i| {
        0 < total(before, page, i) && total(after, page, i) == 0
    })
}

// Whether the page was allocated and not freed.
pub(super) fn is_live(events: &[Event], p: PageId) -> bool
    ensures { result ≡ is_live events.now p }
{
    let allocated = any_event(events, |what| {
        matches!(*what, What::Alloc { page, .. } if page == p)
    });
    let freed = any_event(events, |what| match *what {
        What::UnmapWhole { page, outcome, .. }
        | What::UnmapSub { page, outcome, .. }
        | What::Unpin { page, outcome, .. } => page == p && outcome == Outcome::Freed,
        _ => false,
    });
    allocated && !freed
}

// Whether the node was closed.
pub(super) fn is_closed(events: &[Event]) -> bool
    ensures { result ≡ is_closed events.now }
{
    any_event(events, |what| matches!(*what, What::Close))
}
