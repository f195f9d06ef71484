//! Four threads with mixed calls on a shared node. Each logs the results of its calls, which must be its part of the journal, and
//! the journal must pass the check of a history.
ghost use Rattle.std.specs.Prelude.{◌≡◌, ◌<◌, ◌≤◌, ◌+◌, false, IfSome};
ghost use Rattle.std.specs.Thread.{IsSync};
ghost use Rattle.thp_node.specs.Prelude.{IsInFront};
ghost use Rattle.thp_cell.specs.Prelude.{HasCaller, HasAll, IsJoined, continuing, BatchesStay};

use crate::equal::expect_equal;
use crate::steps::cell_of;
use std::alloc::Global;
use std::process::Abort;
use std::thread;
use std::thread::Threads;
use thp_cell::{NodeCell, Pass};
use thp_check::check;
use thp_history::{Event, Outcome, PageId, What};
use thp_node::{BackReply, Batch, Node, Tried};

// The pass of a thread that has finished, and the results of its calls.
type Logged = (Pass, Vec<Answer>);

// The results of the calls of two threads.
type Logs = (Vec<Answer>, Vec<Answer>);

// The result of a call, as far as a journal contains it.
#[derive(Clone, Copy, PartialEq, Eq)]
enum Answer {
    Page(PageId),
    PmdSplit(PageId),
    Unmapped(PageId, Outcome),
    Pinned(PageId),
    Unpinned(PageId, Outcome),
    Taken(PageId),
    Split(PageId),
    FoundPinned(PageId),
    Returned,
    Other,
}

// The result in an event.
fn answer_of(what: What) -> Answer {
    match what {
        What::Alloc { page, block: _ } => Answer::Page(page),
        What::SplitPmd { page } => Answer::PmdSplit(page),
        What::UnmapSub {
            page,
            first: _,
            count: _,
            outcome,
            released: _,
        } => Answer::Unmapped(page, outcome),
        What::Pin { page } => Answer::Pinned(page),
        What::Unpin {
            page,
            outcome,
            released: _,
        } => Answer::Unpinned(page, outcome),
        What::Taken { page } => Answer::Taken(page),
        What::Split { page, released: _ } => Answer::Split(page),
        What::Pinned { page } => Answer::FoundPinned(page),
        What::Back { page: _ } | What::Dropped { page: _ } => Answer::Returned,
        _ => Answer::Other,
    }
}

// The answers are those of a caller's events, in order.
fn is_part(events: &[Event], caller: u32, answers: &[Answer]) -> bool {
    let mut rest = answers.iter();
    for event in events {
        if event.caller == caller {
            match rest.next() {
                Some(answer) => {
                    if *answer != answer_of(event.what) {
                        return false;
                    }
                }
                None => return false,
            }
        }
    }
    rest.next().is_none()
}

// Adds an answer to a log. One that finds no memory is missed at the end.
fn note(log: &mut Vec<Answer>, answer: Answer) {
    let _ = log.push(answer);
}

// One call about the newest page of the caller, of alternating kinds; returns the newest page.
fn change(
    cell: &NodeCell,
    pass: &mut Pass,
    caller: u32,
    turn: u32,
    page: PageId,
    log: &mut Vec<Answer>,
) -> PageId
    requires cell { pass.old.cell ≡ cell.now }
    requires caller { HasCaller pass.old caller }
    ensures same { pass.new ≡ continuing pass.old pass.new }
    ensures batches { BatchesStay pass.old pass.new }
{
    match turn % 6 {
        0 => {
            if let Ok(page) = cell.alloc_page(pass, caller) {
                note(log, Answer::Page(page));
                return page;
            }
        }
        1 => {
            if let Ok(()) = cell.split_pmd(pass, caller, page) {
                note(log, Answer::PmdSplit(page));
            }
        }
        2 => {
            if let Ok(()) = cell.pin(pass, caller, page) {
                note(log, Answer::Pinned(page));
            }
        }
        3 => {
            if let Ok(done) = cell.unmap_sub(pass, caller, page, 0, 256) {
                note(log, Answer::Unmapped(page, done.outcome));
            }
        }
        4 => {
            if let Ok(done) = cell.unpin(pass, caller, page) {
                note(log, Answer::Unpinned(page, done.outcome));
            }
        }
        _ => {
            if let Ok(done) = cell.unmap_sub(pass, caller, page, 256, 256) {
                note(log, Answer::Unmapped(page, done.outcome));
            }
        }
    }
    page
}

// One call of the shrinker: a take if the caller has no batch, otherwise alternately a try or a put back.
fn shrink(
    cell: &NodeCell,
    pass: &mut Pass,
    caller: u32,
    turn: u32,
    batch: Option<Batch>,
    log: &mut Vec<Answer>,
) -> Option<Batch>
    requires cell { pass.old.cell ≡ cell.now }
    requires caller { HasCaller pass.old caller }
    requires own { IfSome batch (λ b. b.caller ≡ caller) }
    requires front { IfSome batch (IsInFront pass.old.front) }
    ensures same { pass.new ≡ continuing pass.old pass.new }
    ensures own { IfSome result (λ b. b.caller ≡ caller) }
    ensures front { IfSome result (IsInFront pass.new.front) }
{
    match batch {
        None => take(cell, pass, caller, log),
        Some(batch) => {
            if turn % 4 == 3 {
                put_back(cell, pass, batch, log)
            } else {
                Some(try_next(cell, pass, batch, log))
            }
        }
    }
}

fn note_taken(log: &mut Vec<Answer>, pages: &[PageId]) {
    for &page in pages {
        note(log, Answer::Taken(page));
    }
}

fn take(cell: &NodeCell, pass: &mut Pass, caller: u32, log: &mut Vec<Answer>) -> Option<Batch>
    requires cell { pass.old.cell ≡ cell.now }
    requires caller { HasCaller pass.old caller }
    ensures same { pass.new ≡ continuing pass.old pass.new }
    ensures own { IfSome result (λ b. b.caller ≡ caller) }
    ensures front { IfSome result (IsInFront pass.new.front) }
{
    match cell.take(pass, caller, 3) {
        Ok(batch) => {
            note_taken(log, batch.pages());
            Some(batch)
        }
        Err(_) => None,
    }
}

fn note_tried(log: &mut Vec<Answer>, pages: &[PageId], tried: Tried) {
    for &page in pages {
        if tried == Tried::Split(page) {
            note(log, Answer::Split(page));
        }
        if tried == Tried::Pinned(page) {
            note(log, Answer::FoundPinned(page));
        }
    }
}

fn try_next(cell: &NodeCell, pass: &mut Pass, batch: Batch, log: &mut Vec<Answer>) -> Batch
    requires cell { pass.old.cell ≡ cell.now }
    requires caller { HasCaller pass.old batch.caller }
    requires front { IsInFront pass.old.front batch }
    ensures same { pass.new ≡ continuing pass.old pass.new }
    ensures own { result.caller ≡ batch.caller }
    ensures front { IsInFront pass.new.front result }
{
    let mut batch = batch;
    if let Ok(tried) = cell.split_next(pass, &mut batch) {
        note_tried(log, batch.pages(), tried);
    }
    batch
}

fn note_returned(log: &mut Vec<Answer>, pages: u32) {
    for _ in 0..pages {
        note(log, Answer::Returned);
    }
}

fn put_back(cell: &NodeCell, pass: &mut Pass, batch: Batch, log: &mut Vec<Answer>) -> Option<Batch>
    requires cell { pass.old.cell ≡ cell.now }
    requires caller { HasCaller pass.old batch.caller }
    requires front { IsInFront pass.old.front batch }
    ensures same { pass.new ≡ continuing pass.old pass.new }
    ensures own { IfSome result (λ b. b.caller ≡ batch.caller) }
    ensures front { IfSome result (IsInFront pass.new.front) }
{
    match cell.put_back(pass, batch) {
        Ok(BackReply { back, dropped }) => {
            note_returned(log, back);
            note_returned(log, dropped);
            None
        }
        Err((batch, _)) => Some(batch),
    }
}

// The turns of one thread, and the log of its answers. A batch that it has at the end is abandoned.
fn work(alloc: Global, cell: &NodeCell, pass: Pass, caller: u32) -> Logged
    requires cell { pass.cell ≡ cell.now }
    requires caller { HasCaller pass caller }
    ensures same { result.0 ≡ continuing pass result.0 }
{
    let mut pass = pass;
    let mut log = Vec::new(alloc);
    let mut page = PageId(0);
    let mut batch = None;
    for turn in 0..60_000 {
        page = change(cell, &mut pass, caller, turn, page, &mut log);
        batch = shrink(cell, &mut pass, caller, turn, batch, &mut log);
    }
    (pass, log)
}

// Two threads, with two callers that follow one another.
fn work_in_pairs<R: Threads + Sync>(
    rt: &R,
    alloc: Global,
    cell: &NodeCell,
    left: Pass,
    right: Pass,
    caller: u32,
) -> (Logged, Logged)
    requires few { caller < 63 }
    requires left_cell { left.cell ≡ cell.now }
    requires right_cell { right.cell ≡ cell.now }
    requires left { HasCaller left caller }
    requires right { HasCaller right (caller + 1) }
    ensures left { result.0.0 ≡ continuing left result.0.0 }
    ensures right { result.1.0 ≡ continuing right result.1.0 }
{
    let next = caller + 1;
    thread::join(
        rt,
        move || work(alloc, cell, left, caller),
        move || work(alloc, cell, right, next),
    )
}

// The passes of one caller each, of the pass that has all four.
fn split_in_four(cell: &NodeCell, pass: Pass) -> ((Pass, Pass), (Pass, Pass))
    requires cell { pass.cell ≡ cell.now }
    requires all { HasAll pass }
    requires four { pass.callers ≡ 4 }
    ensures first { result.0.0 ≡ record pass { first = 0; end = 1; keeps = false } }
    ensures second { result.0.1 ≡ record pass { first = 1; end = 2; keeps = false; locks = 0; misses = 0 } }
    ensures third { result.1.0 ≡ record pass { first = 2; end = 3; keeps = false; locks = 0; misses = 0 } }
    ensures fourth { result.1.1 ≡ record pass { first = 3; end = 4; keeps = false; locks = 0; misses = 0 } }
{
    let (low, high) = cell.split(pass, 2);
    (cell.split(low, 1), cell.split(high, 3))
}

// Four threads, with the callers 0 to 3.
fn work_in_fours<R: Threads + Sync>(
    rt: &R,
    alloc: Global,
    cell: &NodeCell,
    a: Pass,
    b: Pass,
    c: Pass,
    d: Pass,
) -> ((Logged, Logged), (Logged, Logged))
    requires first_cell { a.cell ≡ cell.now }
    requires second_cell { b.cell ≡ cell.now }
    requires third_cell { c.cell ≡ cell.now }
    requires fourth_cell { d.cell ≡ cell.now }
    requires first { HasCaller a 0 }
    requires second { HasCaller b 1 }
    requires third { HasCaller c 2 }
    requires fourth { HasCaller d 3 }
    ensures first { result.0.0.0 ≡ continuing a result.0.0.0 }
    ensures second { result.0.1.0 ≡ continuing b result.0.1.0 }
    ensures third { result.1.0.0 ≡ continuing c result.1.0.0 }
    ensures fourth { result.1.1.0 ≡ continuing d result.1.1.0 }
{
    thread::join(
        rt,
        move || -> (Logged, Logged)
            requires { IsSync R.row × (a.cell ≡ cell.now) × (b.cell ≡ cell.now) × HasCaller a 0 × HasCaller b 1 }
            ensures { (result.0.0 ≡ continuing a result.0.0) × (result.1.0 ≡ continuing b result.1.0) }
        { work_in_pairs(rt, alloc, cell, a, b, 0) },
        move || -> (Logged, Logged)
            requires { IsSync R.row × (c.cell ≡ cell.now) × (d.cell ≡ cell.now) × HasCaller c 2 × HasCaller d 3 }
            ensures { (result.0.0 ≡ continuing c result.0.0) × (result.1.0 ≡ continuing d result.1.0) }
        { work_in_pairs(rt, alloc, cell, c, d, 2) },
    )
}

// The journal is legal, and all of its events are of the callers 0 to 3.
fn is_legal(alloc: Global, node: &Node) -> bool {
    let events = node.journal();
    check(alloc, node.shape(), events) == Ok(()) && events.iter().all(|event| event.caller < 4)
}

// The events of a caller are those of its log.
fn is_log(node: &Node, caller: u32, answers: &[Answer]) -> bool {
    is_part(node.journal(), caller, answers)
}

// The pass of two threads that have finished, and the logs of both.
fn join_pair(cell: &NodeCell, left: Logged, right: Logged) -> (Pass, Logs)
    requires left_cell { left.0.cell ≡ cell.now }
    requires right_cell { right.0.cell ≡ cell.now }
    requires adjacent { left.0.end ≡ right.0.first }
    ensures { IsJoined left.0 right.0 result.0 }
{
    let (left, of_left) = left;
    let (right, of_right) = right;
    (cell.join(left, right), (of_left, of_right))
}

// Lets four threads work with the callers of the pass, and returns the pass of all of them and their logs.
fn work_by_four<R: Threads + Sync>(
    rt: &R,
    alloc: Global,
    cell: &NodeCell,
    pass: Pass,
) -> (Pass, Logs, Logs)
    requires cell { pass.cell ≡ cell.now }
    requires all { HasAll pass }
    requires four { pass.callers ≡ 4 }
    ensures cell { result.0.cell ≡ cell.now }
    ensures all { HasAll result.0 }
{
    let ((a, b), (c, d)) = split_in_four(cell, pass);
    let ((a, b), (c, d)) = work_in_fours(rt, alloc, cell, a, b, c, d);
    let (low, of_low) = join_pair(cell, a, b);
    let (high, of_high) = join_pair(cell, c, d);
    (cell.join(low, high), of_low, of_high)
}

// The node after the calls of four threads, and their logs.
fn node_of_four_threads<R: Threads + Sync + Abort>(rt: &R, alloc: Global) -> (Node, Logs, Logs) {
    let (cell, pass) = cell_of(rt, alloc, 64, 4);
    let (pass, of_low, of_high) = work_by_four(rt, alloc, &cell, pass);
    (cell.finish(pass), of_low, of_high)
}

// The journal is legal, and the events of each caller are those of its log.
fn expect_logs(rt: &impl Abort, alloc: Global, node: &Node, of_low: &Logs, of_high: &Logs) {
    expect_equal(rt, is_legal(alloc, node), true);
    expect_equal(rt, is_log(node, 0, &of_low.0), true);
    expect_equal(rt, is_log(node, 1, &of_low.1), true);
    expect_equal(rt, is_log(node, 2, &of_high.0), true);
    expect_equal(rt, is_log(node, 3, &of_high.1), true);
}

#[test]
fn four_threads_mix_calls(rt: HostRuntime) {
    let (node, of_low, of_high) = node_of_four_threads(&rt, rt.alloc());
    expect_logs(&rt, rt.alloc(), &node, &of_low, &of_high);
    drop(node);
}
