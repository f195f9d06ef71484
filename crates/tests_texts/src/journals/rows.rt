//! The journals of worked rows.
use crate::journals::histories::{
    ONE, TWO, ZERO, alloc_page, by, expect_text, expect_texts, large, queued, small, split,
    split_pmd, taken, unmap,
};
use thp_history::{Outcome, SubSet, What};
use thp_journal_writer::NodeHistory;

#[test]
fn first_run(rt: HostRuntime) {
    let events = [
        alloc_page(ZERO),
        split_pmd(ZERO),
        queued(ZERO, 0, 256),
        taken(ZERO),
        split(ZERO, SubSet::range(0, 256)),
    ];
    let text = b"thp-journal 1
node 0 blocks 16
0 alloc 0
0 splitpmd 0
0 unmapsub 0 0 256 queued -
0 taken 0
0 split 0 0-255
end
";
    expect_text(&rt, rt.alloc(), large(16), &events, text);
}

#[test]
fn empty_input(rt: HostRuntime) {
    let text = b"thp-journal 1\nnode 0 blocks 16\nend\n";
    expect_text(&rt, rt.alloc(), large(16), &[], text);
}

#[test]
fn pinned_goes_to_the_tail(rt: HostRuntime) {
    let first = SubSet::range(0, 1);
    let events = [
        by(0, What::Pin { page: ONE }),
        taken(ZERO),
        taken(ONE),
        taken(TWO),
        split(ZERO, first),
        by(0, What::Pinned { page: ONE }),
        split(TWO, first),
        by(0, What::Back { page: ONE }),
        by(
            0,
            What::Unpin {
                outcome: Outcome::Stays,
                page: ONE,
                released: SubSet::empty(),
            },
        ),
        taken(ONE),
        split(ONE, first),
    ];
    let text = b"thp-journal 1
node 0 blocks 16
0 pin 1
0 taken 0
0 taken 1
0 taken 2
0 split 0 0
0 pinned 1
0 split 2 0
0 back 1
0 unpin 1 stays -
0 taken 1
0 split 1 0
end
";
    expect_text(&rt, rt.alloc(), large(16), &events, text);
}

#[test]
fn two_orders(rt: HostRuntime) {
    let of_small = [
        alloc_page(ZERO),
        split_pmd(ZERO),
        queued(ZERO, 0, 3),
        taken(ZERO),
        split(ZERO, SubSet::range(0, 3)),
    ];
    let of_large = [
        alloc_page(ZERO),
        split_pmd(ZERO),
        queued(ZERO, 0, 511),
        taken(ZERO),
        split(ZERO, SubSet::range(0, 511)),
    ];
    let nodes = [
        NodeHistory {
            shape: small(16, None),
            events: &of_small,
        },
        NodeHistory {
            shape: large(16),
            events: &of_large,
        },
    ];
    let text = b"thp-journal 2
node 0 blocks 16 order 2
0 alloc 0
0 splitpmd 0
0 unmapsub 0 0 3 queued -
0 taken 0
0 split 0 0-2
node 1 blocks 16 order 9
0 alloc 0
0 splitpmd 0
0 unmapsub 0 0 511 queued -
0 taken 0
0 split 0 0-510
end
";
    expect_texts(&rt, rt.alloc(), &nodes, text);
}

#[test]
fn underused_scan(rt: HostRuntime) {
    let given = SubSet::range(0, 1).union(SubSet::range(3, 1));
    let events = [
        alloc_page(ZERO),
        by(
            0,
            What::Write {
                page: ZERO,
                first: 0,
                count: 3,
            },
        ),
        taken(ZERO),
        by(0, What::Used { page: ZERO }),
        split_pmd(ZERO),
        queued(ZERO, 0, 1),
        taken(ZERO),
        split(ZERO, given),
        unmap(ZERO, 3, 1, Outcome::Stays, SubSet::empty()),
        unmap(ZERO, 1, 2, Outcome::Freed, SubSet::range(1, 2)),
    ];
    let text = b"thp-journal 3
node 0 blocks 4 order 2 underused 1
0 alloc 0
0 write 0 0 3
0 taken 0
0 used 0
0 splitpmd 0
0 unmapsub 0 0 1 queued -
0 taken 0
0 split 0 0,3
0 unmapsub 0 3 1 stays -
0 unmapsub 0 1 2 freed 1-2
end
";
    expect_text(&rt, rt.alloc(), small(4, Some(1)), &events, text);
}

#[test]
fn version_4_if_something_is_large(rt: HostRuntime) {
    let close = [by(64, What::Close)];
    let text = b"thp-journal 4\nnode 0 blocks 16 order 9 underused off\n64 close\nend\n";
    expect_text(&rt, rt.alloc(), large(16), &close, text);
    let text = b"thp-journal 4\nnode 0 blocks 4097 order 2 underused 1\nend\n";
    expect_text(&rt, rt.alloc(), small(4097, Some(1)), &[], text);
    let last = [by(63, What::Close)];
    let text = b"thp-journal 1\nnode 0 blocks 4096\n63 close\nend\n";
    expect_text(&rt, rt.alloc(), large(4096), &last, text);
}

#[test]
fn version_4_if_there_are_nine_nodes(rt: HostRuntime) {
    let node = NodeHistory {
        shape: large(1),
        events: &[],
    };
    let nodes = [node; 9];
    let text = b"thp-journal 4
node 0 blocks 1 order 9 underused off
node 1 blocks 1 order 9 underused off
node 2 blocks 1 order 9 underused off
node 3 blocks 1 order 9 underused off
node 4 blocks 1 order 9 underused off
node 5 blocks 1 order 9 underused off
node 6 blocks 1 order 9 underused off
node 7 blocks 1 order 9 underused off
node 8 blocks 1 order 9 underused off
end
";
    expect_texts(&rt, rt.alloc(), &nodes, text);
}
