//! Rows of workers on one node and on a node each.
use crate::scripts::runs::{ExpectedAnswer, are_answers, expect_answers, ran, settings_of};
use std::alloc::Global;
use std::process::Abort;
use std::thread::Threads;
use thp_run::RunResult;
use thp_worker::NoGate;

// The run has this many nodes and sections.
fn has(ran: &RunResult, nodes: usize, sections: usize) -> bool {
    ran.nodes.len() == nodes && ran.sections.len() == sections
}

// Each node has this many events and holds this many frames, and gave none back.
fn each_node_holds(ran: &RunResult, events: usize, frames: u128) -> bool {
    ran.nodes.iter().all(|node| {
        node.journal().len() == events && node.frames_held() == frames && node.frames_given() == 0
    })
}

// Each section is numbered by its place and has no answers.
fn are_without_answers(ran: &RunResult) -> bool {
    ran.sections.iter().enumerate().all(|(number, section)| section.worker as usize == number
        && section.answers.len() == 0)
}

// Each of both workers allocated a page, in either order.
fn expect_either_order(rt: &impl Abort, run: &RunResult) {
    let first = are_answers(run, 1, &[ExpectedAnswer::Page(0)])
        && are_answers(run, 2, &[ExpectedAnswer::Page(1)]);
    let second = are_answers(run, 1, &[ExpectedAnswer::Page(1)])
        && are_answers(run, 2, &[ExpectedAnswer::Page(0)]);
    assert!(rt; first || second);
    assert!(rt; each_node_holds(run, 2, 1024));
}

fn expect_node_each(rt: &impl Abort, run: &RunResult) {
    let page: &[ExpectedAnswer] = &[ExpectedAnswer::Page(0)];
    expect_answers(rt, run, &[(1, page), (2, page)]);
    assert!(rt; has(run, 2, 3));
    assert!(rt; each_node_holds(run, 1, 512));
}

fn expect_no_answers(rt: &impl Abort, run: &RunResult) {
    assert!(rt; has(run, 8, 64));
    assert!(rt; are_without_answers(run));
}

// The run of a script without a gate, on so many nodes with these blocks, by so many workers.
fn run_of<R: Threads + Abort + Sync>(
    rt: &R,
    alloc: Global,
    nodes: u32,
    blocks: u32,
    workers: u32,
    script: &[u8],
) -> RunResult {
    let settings = settings_of(rt, nodes, blocks, workers);
    ran(rt, alloc, &settings, script, &NoGate)
}

#[test]
fn two_workers_totals(rt: HostRuntime) {
    let script = b"worker 1\nalloc 0\nworker 2\nalloc 0\n";
    let run = run_of(&rt, rt.alloc(), 1, 16, 2, script.as_slice());
    expect_either_order(&rt, &run);
    drop(run);
}

#[test]
fn workers_on_a_node_each(rt: HostRuntime) {
    let script = b"worker 1\nalloc 0\nworker 2\nalloc 1\n";
    let run = run_of(&rt, rt.alloc(), 2, 16, 2, script.as_slice());
    expect_node_each(&rt, &run);
    drop(run);
}

// Without commands there are sections without answers, one for setup and one for each worker.
#[test]
fn empty_input(rt: HostRuntime) {
    let run = run_of(&rt, rt.alloc(), 8, 1, 63, b"".as_slice());
    expect_no_answers(&rt, &run);
    drop(run);
}
