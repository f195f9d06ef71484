//! Journals that are written line by line, and read back.
ghost use Rattle.std.specs.Prelude.{◌≤◌};

use crate::journals::histories::{
    ZERO, by, expect_texts, large, queued, small, split, split_pmd, taken,
};
use std::alloc::{AllocError, Global};
use std::process::Abort;
use thp_check::Misfit;
use thp_history::{Event, MAX_CALLERS, PageId, Shape, SubSet, What};
use thp_journal_reader::{Illegal, LongCheck, read_journal};
use thp_journal_writer::{
    NodeHistory, PutFault, Version, put_end, put_event, put_node, put_version,
};

const VERSIONS: [Version; 3] = [Version::Plain, Version::Orders, Version::Underused];

// A page in the least block, so many of its subpages given back.
fn half_given_back(half: u32) -> [Event; 5]
    requires { half ≤ 512 }
{
    [
        by(
            0,
            What::Alloc {
                page: ZERO,
                block: 0,
            },
        ),
        split_pmd(ZERO),
        queued(ZERO, 0, half),
        taken(ZERO),
        split(ZERO, SubSet::range(0, half)),
    ]
}

// What only version 3 has words for.
fn accesses() -> [What; 3] {
    [
        What::Write {
            page: ZERO,
            first: 0,
            count: 3,
        },
        What::Zero {
            page: ZERO,
            first: 1,
            count: 1,
        },
        What::Used { page: ZERO },
    ]
}

// Adds the journal of one node in a version, line by line.
fn put_journal(
    text: &mut Vec<u8>,
    version: Version,
    shape: &Shape,
    events: &[Event],
) -> Result<(), PutFault> {
    put_version(text, version)?;
    put_node(text, version, 0, shape)?;
    for event in events {
        put_event(text, version, event)?;
    }
    put_end(text)?;
    Ok(())
}

// The journal of one node in a version.
fn written(
    alloc: Global,
    version: Version,
    shape: &Shape,
    events: &[Event],
) -> Result<Vec<u8>, PutFault> {
    let mut text = Vec::new(alloc);
    put_journal(&mut text, version, shape, events)?;
    Ok(text)
}

// Whether what is written in a version is read back as the same.
fn is_read_back(alloc: Global, version: Version, shape: Shape, events: &[Event]) -> bool {
    let Ok(text) = written(alloc, version, &shape, events) else {
        return false;
    };
    let Ok(journals) = read_journal(alloc, text.as_slice()) else {
        return false;
    };
    match journals.nodes.as_slice() {
        [node] => node.shape == shape && node.events.as_slice() == events,
        _ => false,
    }
}

fn expect_large_read_back(rt: &impl Abort, alloc: Global, events: &[Event]) {
    for version in VERSIONS {
        assert!(rt; is_read_back(alloc, version, large(16), events));
    }
}

fn expect_small_read_back(rt: &impl Abort, alloc: Global, events: &[Event]) {
    assert!(rt; is_read_back(alloc, Version::Orders, small(16, None), events));
    assert!(rt; is_read_back(alloc, Version::Underused, small(16, None), events));
    assert!(rt; is_read_back(alloc, Version::Underused, small(4, Some(1)), events));
}

fn expect_accesses_read_back(rt: &impl Abort, alloc: Global) {
    for what in accesses() {
        let events = [by(0, what)];
        assert!(rt; is_read_back(alloc, Version::Underused, small(4, Some(1)), &events));
        assert!(rt; is_read_back(alloc, Version::Underused, large(4), &events));
    }
}

#[test]
fn each_version_is_read_back(rt: HostRuntime) {
    expect_large_read_back(&rt, rt.alloc(), &half_given_back(256));
    expect_small_read_back(&rt, rt.alloc(), &half_given_back(2));
    expect_accesses_read_back(&rt, rt.alloc());
}

#[test]
fn least_version_is_the_journal_text(rt: HostRuntime) {
    let events = half_given_back(2);
    let shape = small(16, None);
    let Ok(text) = written(rt.alloc(), Version::of_shape(&shape), &shape, &events) else {
        panic!(rt; "a fault");
    };
    let nodes = [NodeHistory {
        shape,
        events: &events,
    }];
    expect_texts(&rt, rt.alloc(), &nodes, text.as_slice());
}

#[test]
fn later_version_reports_more(rt: HostRuntime) {
    let events = [taken(ZERO)];
    let Ok(text) = written(rt.alloc(), Version::Underused, &large(16), &events) else {
        panic!(rt; "a fault");
    };
    let wanted = b"thp-journal 3\nnode 0 blocks 16 order 9 underused off\n0 taken 0\nend\n";
    assert!(rt; text.as_slice() == wanted.as_slice());
}

// The version was refused, since this one is the least; nothing was written.
fn expect_too_low(rt: &impl Abort, put: Result<(), PutFault>, least: Version, text: &[u8]) {
    assert!(rt; put == Err(PutFault::VersionTooLow(least)));
    assert!(rt; text.is_empty());
}

#[test]
fn node_below_its_version(rt: HostRuntime) {
    let threshold = Shape {
        underused: Some(0),
        ..large(16)
    };
    let rows = [
        (Version::Plain, small(16, None), Version::Orders),
        (Version::Plain, threshold, Version::Underused),
        (Version::Orders, threshold, Version::Underused),
        (Version::Orders, small(16, Some(1)), Version::Underused),
    ];
    for (version, shape, least) in rows {
        let mut text = Vec::new(rt.alloc());
        let put = put_node(&mut text, version, 0, &shape);
        expect_too_low(&rt, put, least, &text);
    }
}

#[test]
fn event_below_its_version(rt: HostRuntime) {
    for version in [Version::Plain, Version::Orders] {
        for what in accesses() {
            let mut text = Vec::new(rt.alloc());
            let put = put_event(&mut text, version, &by(0, what));
            expect_too_low(&rt, put, Version::Underused, &text);
        }
    }
}

#[test]
fn large_nodes_below_version_4(rt: HostRuntime) {
    let rows = [
        (7, large(Shape::MAX_BLOCKS), None),
        (8, large(1), Some(Version::Large)),
        (0, large(Shape::MAX_BLOCKS + 1), Some(Version::Large)),
    ];
    for (n, shape, least) in rows {
        let mut text = Vec::new(rt.alloc());
        let put = put_node(&mut text, Version::Underused, n, &shape);
        match least {
            None => assert!(rt; put.is_ok()),
            Some(least) => expect_too_low(&rt, put, least, &text),
        }
        assert!(rt; put_node(&mut text, Version::Large, n, &shape).is_ok());
    }
}

#[test]
fn large_callers_below_version_4(rt: HostRuntime) {
    let mut text = Vec::new(rt.alloc());
    let put = put_event(&mut text, Version::Underused, &by(MAX_CALLERS, What::Close));
    expect_too_low(&rt, put, Version::Large, &text);
    let last = by(MAX_CALLERS - 1, What::Close);
    assert!(rt; put_event(&mut text, Version::Underused, &last).is_ok());
    assert!(rt; put_event(&mut text, Version::Large, &by(MAX_CALLERS, What::Close)).is_ok());
}

#[test]
fn refused_memory_is_a_fault(rt: HostRuntime) {
    assert!(rt; PutFault::from(AllocError) == PutFault::OutOfMemory);
}

fn put_head(rt: &impl Abort, text: &mut Vec<u8>) {
    put_version(text, Version::Plain).expect(rt, "memory");
    put_node(text, Version::Plain, 0, &large(1)).expect(rt, "memory");
}

fn put_allocation(rt: &impl Abort, text: &mut Vec<u8>, page: u64) {
    let what = What::Alloc {
        page: PageId(page),
        block: 0,
    };
    put_event(text, Version::Plain, &by(0, what)).expect(rt, "memory");
}

// The check of the lines of two allocations in a node of one block, each line on its own.
fn check_of_lines(rt: &impl Abort, text: &mut Vec<u8>, check: LongCheck) -> LongCheck {
    let mut check = check;
    put_head(rt, text);
    for page in 0..2 {
        put_allocation(rt, text, page);
        check = check.read_part(text.as_slice()).expect(rt, "memory");
        text.clear();
    }
    put_end(text).expect(rt, "memory");
    check.read_part(text.as_slice()).expect(rt, "memory")
}

// A recorder passes each line on and clears the text.
#[test]
fn lines_are_checked_as_they_are_put(rt: HostRuntime) {
    let mut text = Vec::new(rt.alloc());
    let found = check_of_lines(&rt, &mut text, LongCheck::of_input(rt.alloc())).finish();
    assert!(rt;
        matches!(
            found,
            Ok(Some(Illegal {
                line: 4,
                misfit: Misfit::BlockTaken,
                ..
            }))
        )
    );
}
