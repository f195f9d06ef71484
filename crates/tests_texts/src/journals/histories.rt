//! Events and nodes in short forms, and the comparison of their journal with the expected text.

use std::alloc::Global;
use std::process::Abort;
use thp_history::{Event, Outcome, PageId, Shape, SubSet, What};
use thp_journal_writer::{NodeHistory, journal_text};

pub(crate) const ZERO: PageId = PageId(0);

pub(crate) const ONE: PageId = PageId(1);

pub(crate) const TWO: PageId = PageId(2);

pub(crate) fn by(caller: u32, what: What) -> Event {
    Event { caller, what }
}

pub(crate) fn alloc_page(page: PageId) -> Event {
    by(0, What::Alloc { page, block: 3 })
}

pub(crate) fn split_pmd(page: PageId) -> Event {
    by(0, What::SplitPmd { page })
}

pub(crate) fn taken(page: PageId) -> Event {
    by(0, What::Taken { page })
}

pub(crate) fn split(page: PageId, released: SubSet) -> Event {
    by(0, What::Split { page, released })
}

pub(crate) fn unmap(
    page: PageId,
    first: u32,
    count: u32,
    outcome: Outcome,
    released: SubSet,
) -> Event {
    by(
        0,
        What::UnmapSub {
            outcome,
            page,
            first,
            count,
            released,
        },
    )
}

// An unmap of a few subpages that queues the page.
pub(crate) fn queued(page: PageId, first: u32, count: u32) -> Event {
    unmap(page, first, count, Outcome::Queued, SubSet::empty())
}

// A node of pages of order 9 that doesn't look for underused pages.
pub(crate) fn large(blocks: u32) -> Shape {
    Shape {
        blocks,
        order: 9,
        underused: None,
    }
}

// A node of pages of four subpages.
pub(crate) fn small(blocks: u32, underused: Option<u32>) -> Shape {
    Shape {
        blocks,
        order: 2,
        underused,
    }
}

// The journal of one node is this text.
pub(crate) fn expect_text<A: Abort>(
    rt: &A,
    alloc: Global,
    shape: Shape,
    events: &[Event],
    text: &[u8],
) {
    expect_texts(rt, alloc, &[NodeHistory { shape, events }], text);
}

// The journal of these nodes is this text.
pub(crate) fn expect_texts<A: Abort>(
    rt: &A,
    alloc: Global,
    nodes: &[NodeHistory<'_>],
    text: &[u8],
) {
    match journal_text(alloc, nodes) {
        Ok(written) => assert!(rt; written.as_slice() == text),
        Err(_) => panic!(rt; "out of memory"),
    }
}
