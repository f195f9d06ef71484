//! Calls on one page as values, so that a row is a table of calls and results.
use std::process::Abort;
use thp_history::{Refusal, SubSet};
use thp_page::{Change, Page};

// A call on a page.
#[derive(Clone, Copy)]
pub(crate) enum Call {
    MapWhole,
    UnmapWhole,
    // of `count` subpages from `first` on
    MapSub(u32, u32),
    UnmapSub(u32, u32),
    SplitPmd,
    Pin,
    Unpin,
    // of `count` subpages from `first` on
    Write(u32, u32),
    Zero(u32, u32),
    // of a page that the row knows can be split, with the frames of its zero-filled subpages or without
    Split(bool),
}

// The result of a call.
#[derive(Clone, Copy, PartialEq, Eq)]
pub(crate) enum Answer {
    Done,
    Changed(Change),
    GaveBack(SubSet),
    Refused(Refusal),
}

// A change that gave nothing back.
pub(crate) fn change(unused: bool, used_left: bool) -> Answer {
    Answer::Changed(Change {
        unused,
        used_left,
        released: SubSet::empty(),
    })
}

// Makes these calls on a page one after the other, each with its result.
pub(crate) fn expect(rt: &impl Abort, page: &mut Page, steps: &[(Call, Answer)]) {
    for (place, &(call, want)) in steps.iter().enumerate() {
        let answer = answer_of(rt, page, call);
        assert!(rt; answer == want, "step {place}");
    }
}

// Makes these calls this many times, each time with these results.
pub(crate) fn repeat(rt: &impl Abort, page: &mut Page, steps: &[(Call, Answer)], times: u32) {
    for _time in 0..times {
        expect(rt, page, steps);
    }
}

fn answer_of(rt: &impl Abort, page: &mut Page, call: Call) -> Answer {
    match call {
        Call::MapWhole => done(page.map_whole()),
        Call::UnmapWhole => changed(page.unmap_whole()),
        Call::MapSub(first, count) => done(page.map_sub(first, count)),
        Call::UnmapSub(first, count) => changed(page.unmap_sub(first, count)),
        Call::SplitPmd => done(page.split_pmd()),
        Call::Pin => done(page.pin()),
        Call::Unpin => done(page.unpin()),
        Call::Write(first, count) => done(page.write(first, count)),
        Call::Zero(first, count) => done(page.zero(first, count)),
        Call::Split(give_zero) => split(rt, page, give_zero),
    }
}

fn split(rt: &impl Abort, page: &mut Page, give_zero: bool) -> Answer {
    assert!(rt; !page.is_split());
    assert!(rt; page.pins() == 0);
    Answer::GaveBack(page.split(give_zero))
}

fn done(reply: Result<(), Refusal>) -> Answer {
    match reply {
        Ok(()) => Answer::Done,
        Err(refusal) => Answer::Refused(refusal),
    }
}

fn changed(reply: Result<Change, Refusal>) -> Answer {
    match reply {
        Ok(change) => Answer::Changed(change),
        Err(refusal) => Answer::Refused(refusal),
    }
}
