//! Worked rows on the calls of one page, of the greatest order and of the least.
ghost use Rattle.std.specs.Prelude.{◌≡◌, ◌≤◌};

use crate::calls::{Answer, Call, change, expect, repeat};
use crate::equal::expect_equal;
use std::process::Abort;
use thp_history::{Refusal, SubSet};
use thp_page::{Change, Page};

fn counts_at_their_limit_at(rt: &impl Abort, order: u32)
    requires least { 2 ≤ order }
    requires most { order ≤ 9 }
{
    let mut page = Page::fresh(order);
    repeat(rt, &mut page, &[(Call::MapWhole, Answer::Done)], 65_534);
    expect_equal(rt, page.whole(), 65_535);
    let steps = [
        (Call::MapWhole, Answer::Refused(Refusal::TooMany)),
        (Call::MapSub(0, 1), Answer::Refused(Refusal::TooMany)),
        (Call::SplitPmd, Answer::Done),
        (Call::MapSub(0, 1), Answer::Refused(Refusal::TooMany)),
    ];
    expect(rt, &mut page, &steps);
    expect_equal(rt, page.whole(), 65_534);

    let mut pinned = Page::fresh(order);
    repeat(rt, &mut pinned, &[(Call::Pin, Answer::Done)], 65_535);
    expect(
        rt,
        &mut pinned,
        &[(Call::Pin, Answer::Refused(Refusal::TooMany))],
    );
    expect_equal(rt, pinned.pins(), 65_535);
}

#[test]
fn counts_at_their_limit(rt: HostRuntime) {
    counts_at_their_limit_at(&rt, 9);
}

#[test]
fn counts_at_their_limit_at_order_2(rt: HostRuntime) {
    counts_at_their_limit_at(&rt, 2);
}

// `last` is the last of the page's subpages.
fn refusals_after_a_split_at(rt: &impl Abort, order: u32, last: u32)
    requires least { 2 ≤ order }
    requires most { order ≤ 9 }
    requires inside { last ≤ 511 }
{
    let mut page = Page::fresh(order);
    let freed = Answer::Changed(Change {
        unused: true,
        used_left: false,
        released: SubSet::range(0, 1),
    });
    let steps = [
        (Call::SplitPmd, Answer::Done),
        (Call::UnmapSub(1, last), change(true, true)),
        (Call::Split(false), Answer::GaveBack(SubSet::range(1, last))),
        (Call::MapSub(1, 1), Answer::Refused(Refusal::Gone)),
        (Call::UnmapSub(1, 1), Answer::Refused(Refusal::NotMapped)),
        (Call::MapSub(0, 1), Answer::Done),
        (Call::MapWhole, Answer::Refused(Refusal::IsSplit)),
        (Call::UnmapWhole, Answer::Refused(Refusal::IsSplit)),
        (Call::SplitPmd, Answer::Refused(Refusal::IsSplit)),
        (Call::Pin, Answer::Refused(Refusal::IsSplit)),
        (Call::Unpin, Answer::Refused(Refusal::IsSplit)),
        (Call::UnmapSub(0, 1), change(false, true)),
        (Call::UnmapSub(0, 1), freed),
    ];
    expect(rt, &mut page, &steps);
    expect_equal(rt, page.has_use(), false);
}

#[test]
fn refusals_after_a_split(rt: HostRuntime) {
    refusals_after_a_split_at(&rt, 9, 511);
}

#[test]
fn refusals_after_a_split_at_order_2(rt: HostRuntime) {
    refusals_after_a_split_at(&rt, 2, 3);
}

// The last unmap is of two subpages from `first` on.
fn refusals_before_a_split_at(rt: &impl Abort, order: u32, first: u32)
    requires least { 2 ≤ order }
    requires most { order ≤ 9 }
    requires few { first ≤ 5 }
{
    let mut page = Page::fresh(order);
    let unused = SubSet::range(0, 1).union(SubSet::range(3, 1));
    let given_back = Answer::Changed(Change {
        unused: true,
        used_left: order > 2,
        released: SubSet::range(first, 2),
    });
    let steps = [
        (Call::UnmapSub(0, 1), Answer::Refused(Refusal::NotMapped)),
        (Call::Unpin, Answer::Refused(Refusal::NotPinned)),
        (Call::SplitPmd, Answer::Done),
        (Call::SplitPmd, Answer::Refused(Refusal::NotMapped)),
        (Call::UnmapWhole, Answer::Refused(Refusal::NotMapped)),
        (Call::UnmapSub(0, 1), change(true, true)),
        (Call::UnmapSub(3, 1), change(true, true)),
        (Call::Split(false), Answer::GaveBack(unused)),
        (Call::UnmapSub(first, 2), given_back),
    ];
    expect(rt, &mut page, &steps);
}

#[test]
fn refusals_before_a_split(rt: HostRuntime) {
    refusals_before_a_split_at(&rt, 9, 5);
}

#[test]
fn refusals_before_a_split_at_order_2(rt: HostRuntime) {
    refusals_before_a_split_at(&rt, 2, 1);
}

// `last` is the last of the page's subpages.
fn bad_ranges_at(rt: &impl Abort, order: u32, last: u32)
    requires least { 2 ≤ order }
    requires most { order ≤ 9 }
    requires inside { last ≤ 511 }
{
    let mut page = Page::fresh(order);
    let steps = [
        (Call::SplitPmd, Answer::Done),
        (Call::UnmapSub(last, 1), change(true, true)),
        (Call::MapSub(last, 2), Answer::Refused(Refusal::BadRange)),
        (Call::UnmapSub(0, 0), Answer::Refused(Refusal::BadRange)),
        (
            Call::UnmapSub(last + 1, 1),
            Answer::Refused(Refusal::BadRange),
        ),
        (Call::UnmapSub(last, 1), Answer::Refused(Refusal::NotMapped)),
        (Call::MapSub(last, 1), Answer::Done),
        // ranges whose end is past the greatest number
        (
            Call::MapSub(u32::MAX, u32::MAX),
            Answer::Refused(Refusal::BadRange),
        ),
        (
            Call::MapSub(1, u32::MAX),
            Answer::Refused(Refusal::BadRange),
        ),
        (
            Call::UnmapSub(u32::MAX, 1),
            Answer::Refused(Refusal::BadRange),
        ),
    ];
    expect(rt, &mut page, &steps);
}

#[test]
fn bad_ranges(rt: HostRuntime) {
    bad_ranges_at(&rt, 9, 511);
}

#[test]
fn bad_ranges_at_order_2(rt: HostRuntime) {
    bad_ranges_at(&rt, 2, 3);
}

// `last` is the last of the page's subpages.
fn split_of_a_mapped_page_at(rt: &impl Abort, order: u32, last: u32)
    requires least { 2 ≤ order }
    requires most { order ≤ 9 }
    requires inside { last ≤ 511 }
{
    let mut page = Page::fresh(order);
    let unmapped = [
        (Call::SplitPmd, Answer::Done),
        (Call::UnmapSub(0, 1), change(true, true)),
    ];
    expect(rt, &mut page, &unmapped);
    expect_equal(rt, page.in_use_set(), SubSet::range(1, last));
    let split = [
        (Call::MapWhole, Answer::Done),
        (Call::Split(false), Answer::GaveBack(SubSet::empty())),
    ];
    expect(rt, &mut page, &split);
    expect_equal(rt, page.in_use_set(), SubSet::full(order));
    expect_equal(
        rt,
        (page.whole(), page.is_split(), page.order()),
        (0, true, order),
    );
}

#[test]
fn split_of_a_mapped_page(rt: HostRuntime) {
    split_of_a_mapped_page_at(&rt, 9, 511);
}

#[test]
fn split_of_a_mapped_page_at_order_2(rt: HostRuntime) {
    split_of_a_mapped_page_at(&rt, 2, 3);
}

fn pinned_page_is_freed_by_unpin_at(rt: &impl Abort, order: u32)
    requires least { 2 ≤ order }
    requires most { order ≤ 9 }
{
    let mut page = Page::fresh(order);
    let unmapped = [
        (Call::Pin, Answer::Done),
        (Call::UnmapWhole, change(true, false)),
    ];
    expect(rt, &mut page, &unmapped);
    expect_equal(rt, page.pins(), 1);
    expect(rt, &mut page, &[(Call::Unpin, Answer::Done)]);
    expect_equal(rt, (page.pins(), page.has_use()), (0, false));
    expect_equal(rt, page.in_use_set(), SubSet::empty());
}

#[test]
fn pinned_page_is_freed_by_unpin(rt: HostRuntime) {
    pinned_page_is_freed_by_unpin_at(&rt, 9);
}

#[test]
fn pinned_page_is_freed_by_unpin_at_order_2(rt: HostRuntime) {
    pinned_page_is_freed_by_unpin_at(&rt, 2);
}

// Each subpage of a new page is in use, and is unmapped one by one until none is.
#[tactic(auto, unfolding(thp_history::specs::Pages::size))]
#[test]
fn subpages_go_out_of_use_one_by_one(rt: HostRuntime) {
    let mut page = Page::fresh(2);
    assert!(rt; page.in_use(0) && page.in_use(3));
    let unmapped = [
        (Call::SplitPmd, Answer::Done),
        (Call::UnmapSub(3, 1), change(true, true)),
    ];
    expect(&rt, &mut page, &unmapped);
    expect_equal(&rt, page.order(), 2);
    assert!(rt; page.in_use(0) && !page.in_use(3));
}
