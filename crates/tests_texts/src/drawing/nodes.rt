//! The numbers of a node's events.
ghost use Rattle.std.specs.Prelude.{◌≡◌, ◌+◌, ◌<◌, length};

use crate::drawing::columns::at;
use crate::equal::expect_equal;
use std::alloc::Global;
use std::process::Abort;
use thp_drawing::DrawnNode;
use thp_history::{Event, Outcome, PageId, Shape, SubSet, What};
use thp_metrics::{Column, NodeSeries, Numbers, SeriesEnd, Span, Stage, StuckPage};

/// 16 blocks of 512 subpages each.
pub(crate) const LARGE: Shape = Shape {
    blocks: 16,
    order: 9,
    underused: None,
};

/// The page of the first run.
pub(crate) const PAGE: PageId = PageId(0);

// The events of an allocation of page 0 of a large node, an unmap of half of it, its take and its split.
pub(crate) fn first_run() -> [What; 5]
    ensures { length result ≡ 5 }
{
    [
        What::Alloc {
            page: PAGE,
            block: 0,
        },
        What::SplitPmd { page: PAGE },
        What::UnmapSub {
            outcome: Outcome::Queued,
            page: PAGE,
            first: 256,
            count: 256,
            released: SubSet::empty(),
        },
        What::Taken { page: PAGE },
        What::Split {
            page: PAGE,
            released: SubSet::range(256, 256),
        },
    ]
}

// The node with one more event of caller 0, which is legal.
fn admitted(rt: &impl Abort, node: NodeSeries, what: What) -> NodeSeries
    requires { length node.history < 100 }
    ensures shape { result.shape ≡ node.shape }
    ensures events { length result.history ≡ length node.history + 1 }
{
    match node.admit(&Event { caller: 0, what }) {
        Ok(node) => node,
        Err(_) => panic!(rt; "an illegal event"),
    }
}

// A large node with these events of caller 0, which are legal.
pub(crate) fn followed(rt: &impl Abort, alloc: Global, happened: &[What]) -> NodeSeries
    requires { length happened.now < 100 }
    ensures shape { result.shape ≡ LARGE }
    ensures events { length result.history ≡ length happened.now }
{
    let mut node = NodeSeries::new(alloc, LARGE).expect(rt, "memory");
    for what in happened {
        node = admitted(rt, node, *what);
    }
    node
}

// What is drawn of a large node with the events of the first run.
pub(crate) fn drawn_first_run(rt: &impl Abort, alloc: Global) -> DrawnNode {
    let node = followed(rt, alloc, &first_run());
    DrawnNode::of(alloc, LARGE, node).expect(rt, "memory")
}

fn once(number: u128) -> Span {
    Span {
        least: number,
        greatest: number,
    }
}

fn expect_split_numbers(rt: &impl Abort, node: &NodeSeries) {
    let numbers = node.numbers();
    expect_equal(rt, numbers.pages, [0, 0, 0, 0, 1]);
    expect_equal(rt, (numbers.held, numbers.given), (256, 256));
}

fn expect_split_columns(rt: &impl Abort, reported: &[Column]) {
    expect_equal(rt, at(rt, reported, 3).queue, once(1));
    expect_equal(rt, at(rt, reported, 4).in_batches, once(1));
    expect_equal(rt, at(rt, reported, 3).wait, once(1));
    expect_equal(rt, at(rt, reported, 4).wait, once(2));
    expect_equal(rt, at(rt, reported, 5).wait, once(0));
    expect_equal(rt, at(rt, reported, 3).callers, 0);
    expect_equal(rt, at(rt, reported, 4).callers, 1);
    expect_equal(rt, at(rt, reported, 4).pages[Stage::InBatch as usize], 1);
    expect_equal(rt, at(rt, reported, 5).held, once(256));
}

#[test]
fn node_series_follows_a_split(rt: HostRuntime) {
    let node = followed(&rt, rt.alloc(), &first_run());
    expect_split_numbers(&rt, &node);
    expect_split_columns(&rt, &node.into_columns().into_columns());
}

// What the node leaves where a take of the split page stops it.
fn stopped_by_a_take(rt: &impl Abort, node: NodeSeries) -> SeriesEnd
    requires { length node.history < 100 }
{
    let event = Event {
        caller: 0,
        what: What::Taken { page: PAGE },
    };
    match node.admit(&event) {
        Ok(_) => panic!(rt; "a split page is taken"),
        Err(stopped) => stopped,
    }
}

fn expect_end(rt: &impl Abort, stopped: &SeriesEnd, before: &Numbers) {
    assert!(rt; stopped.numbers == *before);
    assert!(rt; stopped.columns.prefixes() == 6);
}

fn expect_stopped(rt: &impl Abort, node: NodeSeries, before: &Numbers)
    requires { length node.history < 100 }
{
    expect_end(rt, &stopped_by_a_take(rt, node), before);
}

#[test]
fn node_series_reports_what_was_before_an_illegal_event(rt: HostRuntime) {
    let node = followed(&rt, rt.alloc(), &first_run());
    let before = node.numbers();
    expect_stopped(&rt, node, &before);
}

// The first run up to its take, then a pin of the page, and a try that finds it pinned.
fn pinned_run() -> [What; 6]
    ensures { length result ≡ 6 }
{
    let run = first_run();
    [
        run[0],
        run[1],
        run[2],
        run[3],
        What::Pin { page: PAGE },
        What::Pinned { page: PAGE },
    ]
}

fn expect_stuck(rt: &impl Abort, alloc: Global, node: &NodeSeries) {
    let stuck = node.stuck(alloc).expect(rt, "memory");
    let page = StuckPage {
        page: PAGE,
        finds: 1,
        since: 3,
    };
    assert!(rt; stuck.len() == 1);
    assert!(rt; stuck[0] == page);
}

#[test]
fn node_series_reports_stuck_pages(rt: HostRuntime) {
    let node = followed(&rt, rt.alloc(), &pinned_run());
    expect_stuck(&rt, rt.alloc(), &node);
    // a call has a shorter proof than a drop at the end of the scope
    drop(node);
}
