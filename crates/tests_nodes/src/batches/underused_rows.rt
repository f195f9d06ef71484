//! Rows of batches on nodes whose shrinker looks for underused pages: order 2, more than one zero-filled subpage.
use crate::batches::steps::{BatchStep, expect_batch_row};
use crate::event_rows::{ONE, ZERO};
use crate::nodes::Start;
use tests_steps::{Answer, Call, STAYS};
use thp_history::Refusal;

const WRITE_AND_ZERO: &[BatchStep] = &[
    BatchStep::Call(0, Call::Alloc, Answer::Page(ZERO)),
    BatchStep::Call(0, Call::Pin(ZERO), Answer::Done),
    BatchStep::Call(0, Call::SplitPmd(ZERO), Answer::Done),
    BatchStep::Take(0, 1, 1),
    BatchStep::Pinned(ZERO),
    BatchStep::Call(0, Call::UnmapSub(ZERO, 0, 1), STAYS),
    BatchStep::Call(
        0,
        Call::Write(ZERO, 0, 1),
        Answer::Refused(Refusal::NotMapped),
    ),
    BatchStep::Call(
        0,
        Call::Zero(ZERO, 4, 1),
        Answer::Refused(Refusal::BadRange),
    ),
    BatchStep::Call(0, Call::Zero(ZERO, 1, 1), Answer::Done),
    BatchStep::Call(0, Call::Write(ONE, 0, 1), Answer::Refused(Refusal::NoPage)),
    BatchStep::PutBack(1, 0),
];

#[test]
fn write_and_zero_refusals(rt: HostRuntime) {
    expect_batch_row(&rt, rt.alloc(), Start::Small(4), WRITE_AND_ZERO);
}

const FOUND_USED: &[BatchStep] = &[
    BatchStep::Call(0, Call::Alloc, Answer::Page(ZERO)),
    BatchStep::Call(0, Call::Alloc, Answer::Page(ONE)),
    BatchStep::Call(0, Call::Write(ZERO, 0, 3), Answer::Done),
    BatchStep::Call(0, Call::Write(ONE, 0, 4), Answer::Done),
    BatchStep::Call(0, Call::Pin(ONE), Answer::Done),
    BatchStep::Take(0, 8, 2),
    BatchStep::Used(ZERO),
    BatchStep::Used(ONE),
    BatchStep::NoMore,
    BatchStep::PutBack(0, 0),
    BatchStep::Queued(0),
];

// A try that finds a page in use takes it out of its batch, pinned or not.
#[test]
fn used_pages_leave_their_batch(rt: HostRuntime) {
    expect_batch_row(&rt, rt.alloc(), Start::Small(4), FOUND_USED);
}
