//! Lines of every kind of event, numbers and sets of every length, and the reasons for each version of a text.
use crate::journals::histories::{
    ONE, ZERO, by, expect_text, expect_texts, large, queued, small, split, unmap,
};
use thp_history::{Outcome, PageId, SubSet, What};
use thp_journal_writer::NodeHistory;

// The kinds that no worked row has, by several callers.
#[test]
fn other_kinds(rt: HostRuntime) {
    let page = ONE;
    let released = SubSet::full(9);
    let outcome = Outcome::Freed;
    let events = [
        by(63, What::MapWhole { page }),
        by(
            10,
            What::UnmapWhole {
                outcome,
                page,
                released,
            },
        ),
        by(
            9,
            What::MapSub {
                page,
                first: 5,
                count: 65535,
            },
        ),
        by(
            1,
            What::Unpin {
                outcome,
                page,
                released,
            },
        ),
        by(2, What::Dropped { page }),
        by(3, What::Close),
    ];
    let text = b"thp-journal 1
node 0 blocks 4096
63 mapwhole 1
10 unmapwhole 1 freed 0-511
9 mapsub 1 5 65535
1 unpin 1 freed 0-511
2 dropped 1
3 close
end
";
    expect_text(&rt, rt.alloc(), large(4096), &events, text);
}

// Page numbers of one digit to twenty.
#[test]
fn numbers(rt: HostRuntime) {
    let events = [
        queued(PageId(9), 10, 99),
        queued(PageId(100), 999, 1000),
        queued(PageId(9999), 10000, 123456),
        queued(PageId(18446744073709551615), 4294967295, 0),
    ];
    let text = b"thp-journal 1
node 0 blocks 1
0 unmapsub 9 10 99 queued -
0 unmapsub 100 999 1000 queued -
0 unmapsub 9999 10000 123456 queued -
0 unmapsub 18446744073709551615 4294967295 0 queued -
end
";
    expect_text(&rt, rt.alloc(), large(1), &events, text);
}

// Sets whose runs begin and end within words, at their ends and across them.
#[test]
fn sets(rt: HostRuntime) {
    let mut ends = SubSet::empty();
    ends.insert(0);
    ends.insert(511);
    let across = SubSet::range(62, 4)
        .union(SubSet::range(127, 1))
        .union(SubSet::range(129, 190));
    let words = SubSet::range(64, 64).union(SubSet::range(192, 64));
    let events = [
        split(ZERO, ends),
        split(ZERO, across),
        split(ZERO, words),
        split(ZERO, SubSet::range(510, 2)),
        unmap(ZERO, 1, 1, Outcome::Stays, SubSet::range(63, 1)),
    ];
    let text = b"thp-journal 1
node 0 blocks 1
0 split 0 0,511
0 split 0 62-65,127,129-318
0 split 0 64-127,192-255
0 split 0 510-511
0 unmapsub 0 1 1 stays 63
end
";
    expect_text(&rt, rt.alloc(), large(1), &events, text);
}

// A switch that is on in one node, or zeros that were written, make a text of version 3, which includes that of each node.
#[test]
fn versions(rt: HostRuntime) {
    let zeroed = [by(
        0,
        What::Zero {
            page: ZERO,
            first: 1,
            count: 2,
        },
    )];
    let of_zeros = b"thp-journal 3\nnode 0 blocks 2 order 9 underused off\n0 zero 0 1 2\nend\n";
    expect_text(&rt, rt.alloc(), large(2), &zeroed, of_zeros);
    let nodes = [
        NodeHistory {
            shape: large(2),
            events: &[],
        },
        NodeHistory {
            shape: small(3, Some(0)),
            events: &[],
        },
    ];
    let of_switch =
        b"thp-journal 3\nnode 0 blocks 2 order 9 underused off\nnode 1 blocks 3 order 2 underused 0\nend\n";
    expect_texts(&rt, rt.alloc(), &nodes, of_switch);
    expect_texts(&rt, rt.alloc(), &[], b"thp-journal 1\nend\n");
}
