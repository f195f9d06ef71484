//! Batches at their limit: 128 pages, all of them pinned.
use crate::equal::expect_equal;
use crate::steps::{Step, event_count, node_of_one};
use std::alloc::Global;
use std::process::Abort;
use tests_steps::{Answer, Call, shape_of};

const MOST: u64 = 128;

fn add(rt: &impl Abort, steps: &mut Vec<Step>, step: Step) {
    steps.push(step).expect(rt, "memory");
}

// Adds steps that queue and pin the pages 0 to 127.
fn add_pinned(rt: &impl Abort, steps: &mut Vec<Step>) {
    for page in 0..MOST {
        add(rt, steps, Step::Queue(page));
        add(rt, steps, Step::Call(Call::Pin(page), Answer::Done));
    }
}

// Adds steps that take these pages, try them all, find no page left to be tried and put them back.
fn add_batch(rt: &impl Abort, steps: &mut Vec<Step>) {
    add(rt, steps, Step::Take(128, 0, 127));
    add(rt, steps, Step::Count(0));
    for page in 0..MOST {
        add(rt, steps, Step::Pinned(page));
    }
    add(rt, steps, Step::NoMore);
    add(rt, steps, Step::PutBack(128));
}

fn expect_all(rt: &impl Abort, alloc: Global, steps: &[Step]) {
    // four events queued and pinned each page, three came of the batch, and three of the scan
    expect_equal(
        rt,
        event_count(node_of_one(rt, alloc, shape_of(128), steps)),
        1280,
    );
}

#[test]
fn batches_at_their_limit(rt: HostRuntime) {
    let mut steps = Vec::new(rt.alloc());
    add_pinned(&rt, &mut steps);
    add_batch(&rt, &mut steps);
    // a scan of these pages
    add(&rt, &mut steps, Step::Scan(128, [128, 0, 128, 128, 0, 0]));
    add(&rt, &mut steps, Step::Count(128));
    expect_all(&rt, rt.alloc(), &steps);
}
