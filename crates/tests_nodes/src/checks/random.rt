//! Histories of random events, on which the check and the slow check must agree.
ghost use Rattle.std.specs.Prelude.{◌≡◌, ◌+◌, ◌<◌};

use std::alloc::Global;
use std::process::Abort;
use thp_check::check;
use thp_history::{Event, Outcome, PageId, Shape, SubSet, What};
use thp_model::check as slow_check;

// Numbers that look random, the same in each run.
#[derive(Drop)]
struct Dice {
    state: u64,
}

impl Dice {
    // A number below `sides`.
    fn roll(&mut self, sides: u32) -> u32
        requires { 0 < sides }
        ensures { result < sides }
    {
        self.state = self
            .state
            .wrapping_mul(6_364_136_223_846_793_005)
            .wrapping_add(1_442_695_040_888_963_407);
        ((self.state >> 33) % u64::from(sides)) as u32
    }

    fn page(&mut self) -> PageId {
        PageId(u64::from(self.roll(4)))
    }

    fn outcome(&mut self) -> Outcome {
        match self.roll(4) {
            0 => Outcome::Freed,
            1 => Outcome::Queued,
            _ => Outcome::Stays,
        }
    }

    // Frames that an event may have given back: mostly none, or those of a range.
    fn released(&mut self, first: u32, count: u32) -> SubSet
        requires { first + count < 512 }
    {
        match self.roll(4) {
            0 => SubSet::range(first, count),
            1 => SubSet::full(2),
            _ => SubSet::empty(),
        }
    }

    // A possible event of an unmap or an unpin.
    fn loss(&mut self, page: PageId, first: u32, count: u32) -> What
        requires { first + count < 512 }
    {
        let outcome = self.outcome();
        let released = self.released(first, count);
        match self.roll(4) {
            0 => What::UnmapWhole {
                outcome,
                page,
                released,
            },
            1 => What::Unpin {
                outcome,
                page,
                released,
            },
            _ => What::UnmapSub {
                outcome,
                page,
                first,
                count,
                released,
            },
        }
    }

    // What may happen to a page in a batch.
    fn flight(&mut self, page: PageId, first: u32, count: u32) -> What
        requires { first + count < 512 }
    {
        match self.roll(7) {
            0 | 1 => What::Taken { page },
            2 => What::Pinned { page },
            3 => What::Used { page },
            4 => What::Back { page },
            5 => What::Dropped { page },
            _ => What::Split {
                page,
                released: self.released(first, count),
            },
        }
    }

    // What may happen to a page that gains something.
    fn gain(&mut self, page: PageId, first: u32, count: u32) -> What {
        match self.roll(7) {
            0 => What::MapWhole { page },
            1 => What::MapSub { page, first, count },
            2 | 3 => What::SplitPmd { page },
            4 => What::Pin { page },
            5 => What::Write { page, first, count },
            _ => What::Zero { page, first, count },
        }
    }

    // An event of any kind, which may fit or not.
    fn event(&mut self) -> Event {
        let caller = self.roll(2);
        let page = self.page();
        let (first, count) = (self.roll(4), self.roll(5));
        let what = match self.roll(40) {
            0 => What::Close,
            1..=9 => What::Alloc {
                page,
                block: self.roll(4),
            },
            10..=17 => self.gain(page, first, count),
            18..=29 => self.loss(page, first, count),
            _ => self.flight(page, first, count),
        };
        Event { caller, what }
    }
}

// Whether both checks answer alike, and whether they find the history legal.
fn reported_by_both(alloc: Global, shape: Shape, events: &[Event]) -> (bool, bool)
    requires { shape.order ≡ 2 }
{
    let reported = check(alloc, shape, events);
    (
        slow_check(alloc, shape, events) == reported,
        reported.is_ok(),
    )
}

// A small node, whose shrinker looks for underused pages in every second round.
fn shape_in(round: u32) -> Shape
    ensures { result.order ≡ 2 }
{
    Shape {
        blocks: 3,
        order: 2,
        underused: if round % 2 == 0 { None } else { Some(1) },
    }
}

// Adds an event if it fits. Both checks agree on that.
fn add(rt: &impl Abort, alloc: Global, shape: Shape, events: &mut Vec<Event>, event: Event)
    requires { shape.order ≡ 2 }
{
    events.push(event).expect(rt, "memory");
    let (agree, is_legal) = reported_by_both(alloc, shape, events);
    assert!(rt; agree);
    if !is_legal {
        let _ = events.pop();
    }
}

// Each event is kept if it fits, so the history grows, and most events don't fit.
fn expect_agreement(rt: &impl Abort, alloc: Global, dice: &mut Dice, shape: Shape)
    requires { shape.order ≡ 2 }
{
    let mut events = Vec::new(alloc);
    for _ in 0..200 {
        add(rt, alloc, shape, &mut events, dice.event());
    }
    drop(events);
}

#[test]
fn both_checks_agree(rt: HostRuntime) {
    let mut dice = Dice { state: 1 };
    for round in 0..12u32 {
        expect_agreement(&rt, rt.alloc(), &mut dice, shape_in(round));
    }
}
