//! Sets of subpages and shapes, with values counted manually.
use crate::equal::expect_equal;
use std::process::Abort;
use thp_history::{Shape, SubSet};

// The sets of each row are the same.
fn expect_same(rt: &impl Abort, rows: &[(SubSet, SubSet)]) {
    for (row, &(set, want)) in rows.iter().enumerate() {
        assert!(rt; set == want, "row {row}");
    }
}

// Whether these subpages are in a set.
fn expect_contains(rt: &impl Abort, set: SubSet, subpages: &[(u32, bool)]) {
    for &(subpage, want) in subpages {
        assert!(rt;
            subpage < 512 && set.contains(subpage) == want,
            "subpage {subpage}"
        );
    }
}

#[test]
fn ranges_and_full_sets(rt: HostRuntime) {
    let set = SubSet::range(60, 10);
    let inside = [
        (0, false),
        (59, false),
        (60, true),
        (63, true),
        (64, true),
        (69, true),
        (70, false),
        (511, false),
    ];
    expect_contains(&rt, set, &inside);
    for (set, want) in [
        (set, 10),
        (SubSet::range(0, 512), 512),
        (SubSet::range(511, 1), 1),
    ] {
        expect_equal(&rt, set.count(), want);
    }
    let full = [
        (SubSet::full(2), SubSet::range(0, 4)),
        (SubSet::full(9), SubSet::range(0, 512)),
    ];
    expect_same(&rt, &full);
}

#[test]
fn sets_of_two(rt: HostRuntime) {
    let (low, high) = (SubSet::range(0, 300), SubSet::range(200, 312));
    let mut one = SubSet::empty();
    expect_equal(&rt, one.is_empty(), true);
    one.insert(300);
    let rows = [
        (low.union(high), SubSet::full(9)),
        (low.difference(high), SubSet::range(0, 200)),
        (one, SubSet::range(300, 1)),
    ];
    expect_same(&rt, &rows);
    assert!(rt; low.difference(SubSet::full(9)).is_empty());
    expect_equal(&rt, low.is_empty(), false);
    assert!(rt; one != low);
}

// A range that begins within a word and ends within another, seen word by word, and one word of it written.
#[test]
fn sets_word_by_word(rt: HostRuntime) {
    let range = SubSet::range(60, 70);
    let words = [range.word(0), range.word(1), range.word(2), range.word(3)];
    expect_equal(&rt, words, [0xf000_0000_0000_0000, u64::MAX, 3, 0]);
    let mut written = range;
    written.set_word(1, 0);
    let rows = [
        (written, SubSet::range(60, 4).union(SubSet::range(128, 2))),
        (
            range.intersection(SubSet::range(0, 64)),
            SubSet::range(60, 4),
        ),
        (range.symmetric_difference(written), SubSet::range(64, 64)),
        (range.symmetric_difference(range), SubSet::empty()),
    ];
    expect_same(&rt, &rows);
    expect_equal(&rt, range.symmetric_difference(range).is_empty(), true);
}

#[test]
fn shapes(rt: HostRuntime) {
    let shape = Shape {
        blocks: 4096,
        order: 9,
        underused: None,
    };
    expect_equal(&rt, shape.is_valid(), true);
    expect_equal(&rt, shape.subpages(), 512);
    for (blocks, order) in [(0, 9), (4097, 9), (1, 1), (1, 10)] {
        let shape = Shape {
            blocks,
            order,
            underused: None,
        };
        assert!(rt; !shape.is_valid(), "{blocks} blocks of order {order}");
    }
}

#[test]
fn thresholds(rt: HostRuntime) {
    for (underused, is_valid, is_on) in [
        (None, true, false),
        (Some(0), true, true),
        (Some(3), true, true),
        (Some(4), false, true),
    ] {
        let shape = Shape {
            blocks: 1,
            order: 2,
            underused,
        };
        expect_equal(&rt, shape.is_valid(), is_valid);
        expect_equal(&rt, shape.shrinks_underused(), is_on);
    }
}
