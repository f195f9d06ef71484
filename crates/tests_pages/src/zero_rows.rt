//! Worked rows on zero-filled subpages, of pages of order 2 unless stated otherwise.
use crate::calls::{Answer, Call, change, expect};
use crate::equal::expect_equal;
use std::process::Abort;
use thp_history::{Refusal, SubSet};
use thp_page::{Change, Page};

// A change after which no subpage is in use, with what it gave back.
fn last_unmap(released: SubSet) -> Answer {
    Answer::Changed(Change {
        unused: true,
        used_left: false,
        released,
    })
}

// The zero-filled subpages of a page, and whether it is partly mapped.
fn expect_zeros(rt: &impl Abort, page: &Page, zeros: SubSet, partly: bool) {
    expect_equal(rt, page.zero_set(), zeros);
    expect_equal(rt, page.zero_count(), zeros.count());
    expect_equal(rt, page.is_partly(), partly);
}

#[test]
fn zero_filled_subpages(rt: HostRuntime) {
    let mut page = Page::fresh(2);
    expect_zeros(&rt, &page, SubSet::range(0, 4), false);
    expect(&rt, &mut page, &[(Call::Write(0, 3), Answer::Done)]);
    expect_zeros(&rt, &page, SubSet::range(3, 1), false);
    expect(&rt, &mut page, &[(Call::Zero(1, 1), Answer::Done)]);
    let zeros = SubSet::range(1, 1).union(SubSet::range(3, 1));
    expect_zeros(&rt, &page, zeros, false);
}

#[test]
fn zero_filled_subpages_at_order_9(rt: HostRuntime) {
    let mut page = Page::fresh(9);
    expect_zeros(&rt, &page, SubSet::range(0, 512), false);
    let steps = [
        (Call::Write(60, 452), Answer::Done),
        (Call::Zero(64, 3), Answer::Done),
        (Call::Write(65, 1), Answer::Done),
        (Call::Zero(511, 1), Answer::Done),
    ];
    expect(&rt, &mut page, &steps);
    let low = SubSet::range(0, 60).union(SubSet::range(64, 1));
    let high = SubSet::range(66, 1).union(SubSet::range(511, 1));
    expect_zeros(&rt, &page, low.union(high), false);
}

// A page stays partly mapped, and mappings don't change the content of its subpages.
#[test]
fn partly_mapped(rt: HostRuntime) {
    let mut page = Page::fresh(2);
    let unmapped = [
        (Call::SplitPmd, Answer::Done),
        (Call::UnmapSub(0, 1), change(true, true)),
    ];
    expect(&rt, &mut page, &unmapped);
    expect_zeros(&rt, &page, SubSet::range(0, 4), true);
    let mapped = [(Call::MapSub(0, 1), Answer::Done)];
    expect(&rt, &mut page, &mapped);
    expect_zeros(&rt, &page, SubSet::range(0, 4), true);
}

// A page is not partly mapped if all its use ends at once, or if another mapping is left.
#[test]
fn not_partly_mapped(rt: HostRuntime) {
    let mut page = Page::fresh(2);
    let steps = [
        (Call::MapWhole, Answer::Done),
        (Call::UnmapWhole, change(false, true)),
        (Call::SplitPmd, Answer::Done),
        (Call::MapSub(1, 1), Answer::Done),
        (Call::UnmapSub(1, 1), change(false, true)),
        (Call::UnmapSub(0, 4), last_unmap(SubSet::empty())),
    ];
    expect(&rt, &mut page, &steps);
    expect_zeros(&rt, &page, SubSet::range(0, 4), false);
}

// A page is worth a split if it is partly mapped, or has more zero-filled subpages than the threshold.
#[test]
fn worth_a_split(rt: HostRuntime) {
    let mut page = Page::fresh(2);
    expect_worth(&rt, &page, [false, true, true, true]);
    expect(&rt, &mut page, &[(Call::Write(0, 3), Answer::Done)]);
    expect_worth(&rt, &page, [false, true, false, false]);
    let unmapped = [
        (Call::SplitPmd, Answer::Done),
        (Call::UnmapSub(0, 1), change(true, true)),
    ];
    expect(&rt, &mut page, &unmapped);
    expect_worth(&rt, &page, [true, true, true, true]);
}

// Whether a page is worth a split with the switch off, and at the thresholds 0, 1 and 3.
fn expect_worth(rt: &impl Abort, page: &Page, wants: [bool; 4]) {
    let reported = [
        page.is_split_candidate(None),
        page.is_split_candidate(Some(0)),
        page.is_split_candidate(Some(1)),
        page.is_split_candidate(Some(3)),
    ];
    expect_equal(rt, reported, wants);
}

// A split gives back unused and zero-filled subpages; the mappings of the latter remain, and their unmaps give nothing back.
#[test]
fn split_gives_zero_filled_frames(rt: HostRuntime) {
    let mut page = Page::fresh(2);
    let given = SubSet::range(0, 1).union(SubSet::range(3, 1));
    let steps = [
        (Call::Write(0, 3), Answer::Done),
        (Call::SplitPmd, Answer::Done),
        (Call::UnmapSub(0, 1), change(true, true)),
        (Call::Split(true), Answer::GaveBack(given)),
        (Call::UnmapSub(3, 1), change(true, true)),
        (Call::MapSub(3, 1), Answer::Refused(Refusal::Gone)),
        (Call::Write(1, 1), Answer::Refused(Refusal::IsSplit)),
        (Call::UnmapSub(1, 2), last_unmap(SubSet::range(1, 2))),
    ];
    expect(&rt, &mut page, &steps);
    expect_equal(&rt, page.has_use(), false);
}

#[test]
fn split_of_a_new_page(rt: HostRuntime) {
    let mut page = Page::fresh(2);
    let with_zeros = [
        (Call::Split(true), Answer::GaveBack(SubSet::full(2))),
        (Call::UnmapSub(0, 4), last_unmap(SubSet::empty())),
    ];
    expect(&rt, &mut page, &with_zeros);
    let mut page = Page::fresh(2);
    let without_zeros = [
        (Call::Split(false), Answer::GaveBack(SubSet::empty())),
        (Call::UnmapSub(0, 4), last_unmap(SubSet::full(2))),
    ];
    expect(&rt, &mut page, &without_zeros);
}

#[test]
fn write_and_zero_refusals(rt: HostRuntime) {
    let mut page = Page::fresh(2);
    let steps = [
        (Call::Write(0, 0), Answer::Refused(Refusal::BadRange)),
        (Call::Zero(4, 1), Answer::Refused(Refusal::BadRange)),
        (Call::Write(3, 2), Answer::Refused(Refusal::BadRange)),
        (Call::Zero(u32::MAX, 1), Answer::Refused(Refusal::BadRange)),
        (Call::SplitPmd, Answer::Done),
        (Call::UnmapSub(0, 1), change(true, true)),
        (Call::Write(0, 1), Answer::Refused(Refusal::NotMapped)),
        (Call::Zero(0, 2), Answer::Refused(Refusal::NotMapped)),
        (Call::Zero(1, 1), Answer::Done),
        (Call::Write(1, 3), Answer::Done),
        (Call::Split(true), Answer::GaveBack(SubSet::range(0, 1))),
    ];
    expect(&rt, &mut page, &steps);
    let split = [
        (Call::Write(4, 1), Answer::Refused(Refusal::BadRange)),
        (Call::Zero(0, 0), Answer::Refused(Refusal::BadRange)),
        (Call::Write(0, 1), Answer::Refused(Refusal::IsSplit)),
        (Call::Zero(1, 1), Answer::Refused(Refusal::IsSplit)),
    ];
    expect(&rt, &mut page, &split);
}
