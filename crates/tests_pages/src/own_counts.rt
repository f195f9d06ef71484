//! Own map counts at their limit, and carries and borrows through each bit of them.
ghost use Rattle.std.specs.Prelude.{◌+◌, ◌≤◌};

use crate::calls::{Answer, Call, change, expect, repeat};
use crate::equal::expect_equal;
use std::process::Abort;
use thp_history::{Refusal, SubSet};
use thp_page::{Change, Page};

// Maps a range as often as possible, one mapping after the other, and unmaps it again.
fn up_and_down(rt: &impl Abort, first: u32, count: u32)
    requires { first + count ≤ 510 }
{
    let mut page = Page::fresh(9);
    let (map, unmap) = (Call::MapSub(first, count), Call::UnmapSub(first, count));
    expect(rt, &mut page, &[(Call::SplitPmd, Answer::Done)]);
    repeat(rt, &mut page, &[(map, Answer::Done)], 65_534);
    let steps = [
        (map, Answer::Refused(Refusal::TooMany)),
        (Call::MapSub(0, 512), Answer::Refused(Refusal::TooMany)),
        (Call::MapWhole, Answer::Refused(Refusal::TooMany)),
        (Call::MapSub(511, 1), Answer::Done),
    ];
    expect(rt, &mut page, &steps);
    expect_equal(rt, page.own(first), 65_535);
    expect_equal(rt, page.own(first + count), 1);
    expect_equal(rt, page.own(512), 0);
    repeat(rt, &mut page, &[(unmap, change(false, true))], 65_534);
    let steps = [
        (unmap, change(true, true)),
        (unmap, Answer::Refused(Refusal::NotMapped)),
    ];
    expect(rt, &mut page, &steps);
    expect_equal(
        rt,
        page.in_use_set(),
        SubSet::full(9).difference(SubSet::range(first, count)),
    );
}

#[test]
fn a_range_of_one_word_up_and_down(rt: HostRuntime) {
    up_and_down(&rt, 60, 4);
}

#[test]
fn a_range_of_many_words_up_and_down(rt: HostRuntime) {
    up_and_down(&rt, 63, 400);
}

// A split turns `whole` mappings of the page into as many of each subpage, in addition to 0, 1 or 2 of its own.
fn counts_after_a_split(rt: &impl Abort, whole: u32)
    requires { whole ≤ 65533 }
{
    let mut page = Page::fresh(9);
    repeat(rt, &mut page, &[(Call::MapWhole, Answer::Done)], whole);
    let steps = [
        (Call::SplitPmd, Answer::Done),
        (Call::UnmapSub(0, 1), change(whole == 0, true)),
        (Call::MapSub(2, 1), Answer::Done),
    ];
    expect(rt, &mut page, &steps);
    let unused = if whole == 0 { 1 } else { 0 };
    let given = Answer::GaveBack(SubSet::range(0, unused));
    expect(rt, &mut page, &[(Call::Split(false), given)]);
    for (subpage, own) in [(0, 0), (1, 1), (2, 2), (511, 1)] {
        let unmap = Call::UnmapSub(subpage, 1);
        let mappings = whole + own;
        if mappings > 0 {
            repeat(rt, &mut page, &[(unmap, change(false, true))], mappings - 1);
            let last = Answer::Changed(Change {
                unused: true,
                used_left: true,
                released: SubSet::range(subpage, 1),
            });
            expect(rt, &mut page, &[(unmap, last)]);
        }
        expect(
            rt,
            &mut page,
            &[(unmap, Answer::Refused(Refusal::NotMapped))],
        );
    }
}

#[test]
fn counts_of_each_bit_after_a_split(rt: HostRuntime) {
    for whole in [0, 1, 2, 3, 255, 256, 21_845, 43_690, 65_533] {
        counts_after_a_split(&rt, whole);
    }
}
