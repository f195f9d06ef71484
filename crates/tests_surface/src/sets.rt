//! Sets of subpages, events and shapes.
use thp_model::{Event, Outcome, PageId, Shape, SubSet, What};

/// The shape of nodes of 4 blocks of order 2, whose shrinker looks for underused pages.
pub(crate) const SMALL: Shape = Shape {
    blocks: 4,
    order: 2,
    underused: Some(1),
};

// Whether sets of subpages contain the subpages that they were built from.
fn sets_hold() -> bool {
    let set = SubSet::range(3, 2).union(SubSet::empty());
    let whole = SubSet::full(9);
    let is_in = set.contains(3);
    is_in && set.count() == 2 && whole.count() == 512 && set == SubSet::range(3, 2)
}

// Whether events of a caller are compared by what happened.
fn events_compare() -> bool {
    let event = Event {
        caller: 1,
        what: What::UnmapSub {
            page: PageId(7),
            first: 0,
            count: 1,
            outcome: Outcome::Queued,
            released: SubSet::empty(),
        },
    };
    let close = Event {
        caller: 1,
        what: What::Close,
    };
    let copy = event;
    event != close && event == copy
}

#[test]
fn sets_and_events(rt: HostRuntime) {
    let hold = sets_hold();
    let compare = events_compare();
    assert!(rt; hold && compare);
}
