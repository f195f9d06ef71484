//! Rows as tables of steps: calls through passes of a shared node, each with its result.
ghost use Rattle.std.specs.Prelude.{◌≡◌, ◌<◌, IfSome};
ghost use Rattle.thp_node.specs.Prelude.{IsInFront};
ghost use Rattle.thp_cell.specs.Prelude.{HasCaller, HasAll, continuing, BatchesStay};
ghost use Rattle.tests_cells.specs.Passes.{Stays};

use std::alloc::Global;
use std::process::Abort;
use tests_steps::{Answer, Call, QUEUED, done, outcome, shape_of};
use thp_cell::{Busy, CellFault, NodeCell, Pass};
use thp_history::{Event, PageId, Refusal, Shape, What};
use thp_node::{BackReply, Batch, Done, Node, ScanReply, Tried};

// A cell over a node of this shape, and the pass that has all its callers.
fn cell_with(rt: &impl Abort, alloc: Global, shape: Shape, callers: u32) -> (NodeCell, Pass)
    ensures cell { result.1.cell ≡ result.0 }
    ensures all { HasAll result.1 }
    ensures callers { result.1.callers ≡ callers }
{
    let Ok(node) = Node::new(alloc, shape) else {
        panic!(rt; "no node of this shape");
    };
    match NodeCell::new(alloc, node, callers) {
        Ok(made) => made,
        Err(_) => panic!(rt; "no cell of these callers"),
    }
}

// The same over a node of order 9 with these blocks.
pub(crate) fn cell_of(rt: &impl Abort, alloc: Global, blocks: u32, callers: u32) -> (NodeCell, Pass)
    ensures cell { result.1.cell ≡ result.0 }
    ensures all { HasAll result.1 }
    ensures callers { result.1.callers ≡ callers }
{
    cell_with(rt, alloc, shape_of(blocks), callers)
}

// The event is the allocation of this page by this caller.
pub(crate) fn is_allocation(event: &Event, caller: u32, page: PageId) -> bool {
    match event.what {
        What::Alloc {
            page: allocated,
            block: _,
        } => event.caller == caller && allocated == page,
        _ => false,
    }
}

// A step of a caller that has at most one batch, with the result that the row expects.
#[derive(Clone, Copy)]
pub(crate) enum Step {
    // a call that the node answers
    Call(Call, Answer),
    // an allocation that finds the node busy
    Busy,
    // the page of this number is allocated and queued
    Queue(u64),
    // a scan of up to so many pages: how many are taken, split, pinned, put back, dropped and used
    Scan(u32, [u32; 6]),
    // how many pages the queue has
    Count(u32),
    // a take of up to so many pages, of which these are the first and the last
    Take(u32, u64, u64),
    // a try that splits the next page, or finds it pinned
    Split(u64),
    Pinned(u64),
    // a try that finds no page left
    NoMore,
    // this many pages of the batch return to the queue, and none is dropped
    PutBack(u32),
    // a scan is refused, since the caller has a batch
    NoScan,
    // so is a take; the batch is then discarded
    NoTake,
    // the pass keeps the node, can't keep it since another does, or returns it
    Keep,
    NoKeep,
    Return,
}

fn result_unless_busy<T>(reply: Result<T, CellFault>) -> Option<Result<T, Refusal>> {
    match reply {
        Ok(reply) => Some(Ok(reply)),
        Err(CellFault::Refused(refusal)) => Some(Err(refusal)),
        Err(CellFault::Busy) => None,
    }
}

// The answers of the node; none if it was busy.
fn page_of(reply: Result<PageId, CellFault>) -> Option<Answer> {
    match result_unless_busy(reply)? {
        Ok(PageId(page)) => Some(Answer::Page(page)),
        Err(refusal) => Some(Answer::Refused(refusal)),
    }
}

fn done_of(reply: Result<(), CellFault>) -> Option<Answer> {
    Some(done(result_unless_busy(reply)?))
}

fn outcome_of(reply: Result<Done, CellFault>) -> Option<Answer> {
    Some(outcome(result_unless_busy(reply)?))
}

// The answer to a call; none if the node was busy.
fn answer_of(cell: &NodeCell, pass: &mut Pass, caller: u32, call: Call) -> Option<Answer>
    requires cell { pass.old.cell ≡ cell.now }
    requires caller { HasCaller pass.old caller }
    ensures same { pass.new ≡ continuing pass.old pass.new }
    ensures batches { BatchesStay pass.old pass.new }
{
    match call {
        Call::Alloc => page_of(cell.alloc_page(pass, caller)),
        Call::MapWhole(page) => done_of(cell.map_whole(pass, caller, PageId(page))),
        Call::UnmapWhole(page) => outcome_of(cell.unmap_whole(pass, caller, PageId(page))),
        Call::MapSub(page, first, count) => {
            done_of(cell.map_sub(pass, caller, PageId(page), first, count))
        }
        Call::UnmapSub(page, first, count) => {
            outcome_of(cell.unmap_sub(pass, caller, PageId(page), first, count))
        }
        Call::SplitPmd(page) => done_of(cell.split_pmd(pass, caller, PageId(page))),
        Call::Pin(page) => done_of(cell.pin(pass, caller, PageId(page))),
        Call::Unpin(page) => outcome_of(cell.unpin(pass, caller, PageId(page))),
        Call::Write(page, first, count) => {
            done_of(cell.write(pass, caller, PageId(page), first, count))
        }
        Call::Zero(page, first, count) => {
            done_of(cell.zero(pass, caller, PageId(page), first, count))
        }
        Call::Close => done_of(cell.close(pass, caller)),
    }
}

// The call has this answer, or finds the node busy.
fn is_answered(
    cell: &NodeCell,
    pass: &mut Pass,
    caller: u32,
    call: Call,
    want: Option<Answer>,
) -> bool
    requires cell { pass.old.cell ≡ cell.now }
    requires caller { HasCaller pass.old caller }
    ensures same { pass.new ≡ continuing pass.old pass.new }
    ensures batches { BatchesStay pass.old pass.new }
{
    answer_of(cell, pass, caller, call) == want
}

// The page of this number is allocated, its PMD mapping is split, and its first subpage is unmapped, which queues it.
fn is_queued(cell: &NodeCell, pass: &mut Pass, caller: u32, page: u64) -> bool
    requires cell { pass.old.cell ≡ cell.now }
    requires caller { HasCaller pass.old caller }
    ensures same { pass.new ≡ continuing pass.old pass.new }
{
    let allocated = answer_of(cell, pass, caller, Call::Alloc);
    let divided = answer_of(cell, pass, caller, Call::SplitPmd(page));
    let unmapped = answer_of(cell, pass, caller, Call::UnmapSub(page, 0, 1));
    are_queueing(page, allocated, divided, unmapped)
}

fn are_queueing(
    page: u64,
    allocated: Option<Answer>,
    divided: Option<Answer>,
    unmapped: Option<Answer>,
) -> bool {
    allocated == Some(Answer::Page(page))
        && divided == Some(Answer::Done)
        && unmapped == Some(QUEUED)
}

fn reply_of(counts: [u32; 6]) -> ScanReply {
    let [taken, split, pinned, back, dropped, used] = counts;
    ScanReply {
        taken,
        split,
        pinned,
        back,
        dropped,
        used,
    }
}

fn is_scanned(
    cell: &NodeCell,
    pass: &mut Pass,
    caller: u32,
    n: u32,
    want: Result<ScanReply, CellFault>,
) -> bool
    requires cell { pass.old.cell ≡ cell.now }
    requires caller { HasCaller pass.old caller }
    ensures same { pass.new ≡ continuing pass.old pass.new }
    ensures batches { BatchesStay pass.old pass.new }
{
    if n > 128 {
        return false;
    }
    cell.scan(pass, caller, n) == want
}

fn is_count(cell: &NodeCell, pass: &mut Pass, pages: u32) -> bool
    requires { pass.old.cell ≡ cell.now }
    ensures same { pass.new ≡ continuing pass.old pass.new }
    ensures batches { BatchesStay pass.old pass.new }
{
    cell.count(pass) == pages
}

// These are the first and the last of the pages.
fn are_ends(pages: &[PageId], first: u64, last: u64) -> bool {
    pages.first() == Some(&PageId(first)) && pages.last() == Some(&PageId(last))
}

fn taken(
    cell: &NodeCell,
    pass: &mut Pass,
    caller: u32,
    n: u32,
    first: u64,
    last: u64,
) -> (bool, Option<Batch>)
    requires cell { pass.old.cell ≡ cell.now }
    requires caller { HasCaller pass.old caller }
    ensures same { pass.new ≡ continuing pass.old pass.new }
    ensures own { IfSome result.1 (λ b. b.caller ≡ caller) }
    ensures front { IfSome result.1 (IsInFront pass.new.front) }
{
    if n > 128 {
        return (false, None);
    }
    match cell.take(pass, caller, n) {
        Ok(batch) => (are_ends(batch.pages(), first, last), Some(batch)),
        Err(_) => (false, None),
    }
}

fn tried(cell: &NodeCell, pass: &mut Pass, batch: Batch, want: Tried) -> (bool, Option<Batch>)
    requires cell { pass.old.cell ≡ cell.now }
    requires caller { HasCaller pass.old batch.caller }
    requires front { IsInFront pass.old.front batch }
    ensures same { pass.new ≡ continuing pass.old pass.new }
    ensures own { IfSome result.1 (λ b. b.caller ≡ batch.caller) }
    ensures front { IfSome result.1 (IsInFront pass.new.front) }
{
    let mut batch = batch;
    let tried = cell.split_next(pass, &mut batch);
    (tried == Ok(want), Some(batch))
}

fn is_returned(cell: &NodeCell, pass: &mut Pass, batch: Batch, back: u32) -> bool
    requires cell { pass.old.cell ≡ cell.now }
    requires caller { HasCaller pass.old batch.caller }
    requires front { IsInFront pass.old.front batch }
    ensures { pass.new ≡ continuing pass.old pass.new }
{
    match cell.put_back(pass, batch) {
        Ok(reply) => reply == BackReply { back, dropped: 0 },
        Err(_) => false,
    }
}

// A take by a caller that has a batch is refused for that reason.
fn is_not_taken(cell: &NodeCell, pass: &mut Pass, caller: u32) -> bool
    requires cell { pass.old.cell ≡ cell.now }
    requires caller { HasCaller pass.old caller }
    ensures { pass.new ≡ continuing pass.old pass.new }
{
    match cell.take(pass, caller, 8) {
        Ok(_) => false,
        Err(fault) => fault == HAS_BATCH,
    }
}

const HAS_BATCH: CellFault = CellFault::Refused(Refusal::HasBatch);

fn is_kept(cell: &NodeCell, pass: &mut Pass, want: Result<(), Busy>) -> bool
    requires { pass.old.cell ≡ cell.now }
    ensures { Stays pass.old pass.new }
{
    cell.keep_node(pass) == want
}

// Whether a step without a batch has this result, and the batch that there is then.
fn made_without(cell: &NodeCell, pass: &mut Pass, caller: u32, step: Step) -> (bool, Option<Batch>)
    requires cell { pass.old.cell ≡ cell.now }
    requires caller { HasCaller pass.old caller }
    ensures stays { Stays pass.old pass.new }
    ensures own { IfSome result.1 (λ b. b.caller ≡ caller) }
    ensures front { IfSome result.1 (IsInFront pass.new.front) }
{
    match step {
        Step::Call(call, want) => (is_answered(cell, pass, caller, call, Some(want)), None),
        Step::Busy => (is_answered(cell, pass, caller, Call::Alloc, None), None),
        Step::Queue(page) => (is_queued(cell, pass, caller, page), None),
        Step::Scan(n, counts) => {
            (
                is_scanned(cell, pass, caller, n, Ok(reply_of(counts))),
                None,
            )
        }
        Step::Count(pages) => (is_count(cell, pass, pages), None),
        Step::Take(n, first, last) => taken(cell, pass, caller, n, first, last),
        Step::Keep => (is_kept(cell, pass, Ok(())), None),
        Step::NoKeep => (is_kept(cell, pass, Err(Busy)), None),
        Step::Return => {
            cell.return_node(pass);
            (true, None)
        }
        _ => (false, None),
    }
}

// The same of a step with a batch.
fn made_with(cell: &NodeCell, pass: &mut Pass, batch: Batch, step: Step) -> (bool, Option<Batch>)
    requires cell { pass.old.cell ≡ cell.now }
    requires caller { HasCaller pass.old batch.caller }
    requires front { IsInFront pass.old.front batch }
    ensures same { pass.new ≡ continuing pass.old pass.new }
    ensures own { IfSome result.1 (λ b. b.caller ≡ batch.caller) }
    ensures front { IfSome result.1 (IsInFront pass.new.front) }
{
    let caller = batch.caller();
    match step {
        Step::Call(call, want) => {
            (
                is_answered(cell, pass, caller, call, Some(want)),
                Some(batch),
            )
        }
        Step::Count(pages) => (is_count(cell, pass, pages), Some(batch)),
        Step::Split(page) => tried(cell, pass, batch, Tried::Split(PageId(page))),
        Step::Pinned(page) => tried(cell, pass, batch, Tried::Pinned(PageId(page))),
        Step::NoMore => tried(cell, pass, batch, Tried::Done),
        Step::PutBack(back) => (is_returned(cell, pass, batch, back), None),
        Step::NoScan => (
            is_scanned(cell, pass, caller, 8, Err(HAS_BATCH)),
            Some(batch),
        ),
        Step::NoTake => {
            let is_refused = is_not_taken(cell, pass, caller);
            batch.abandon();
            (is_refused, None)
        }
        _ => (false, Some(batch)),
    }
}

fn made(
    cell: &NodeCell,
    pass: &mut Pass,
    caller: u32,
    batch: Option<Batch>,
    step: Step,
) -> (bool, Option<Batch>)
    requires cell { pass.old.cell ≡ cell.now }
    requires caller { HasCaller pass.old caller }
    requires own { IfSome batch (λ b. b.caller ≡ caller) }
    requires front { IfSome batch (IsInFront pass.old.front) }
    ensures stays { Stays pass.old pass.new }
    ensures own { IfSome result.1 (λ b. b.caller ≡ caller) }
    ensures front { IfSome result.1 (IsInFront pass.new.front) }
{
    match batch {
        Some(batch) => made_with(cell, pass, batch, step),
        None => made_without(cell, pass, caller, step),
    }
}

// Makes the steps of one caller, one after the other.
pub(crate) fn expect_steps(
    rt: &impl Abort,
    cell: &NodeCell,
    pass: &mut Pass,
    caller: u32,
    steps: &[Step],
)
    requires cell { pass.old.cell ≡ cell.now }
    requires caller { HasCaller pass.old caller }
    ensures { Stays pass.old pass.new }
{
    let mut batch = None;
    for (place, step) in steps.iter().enumerate() {
        let (is_made, next) = made(cell, pass, caller, batch, *step);
        assert!(rt; is_made, "step {place}");
        batch = next;
    }
}

// The same on a new cell of this shape and one caller; the node afterwards.
pub(crate) fn node_of_one(rt: &impl Abort, alloc: Global, shape: Shape, steps: &[Step]) -> Node {
    let (cell, mut pass) = cell_with(rt, alloc, shape, 1);
    expect_steps(rt, &cell, &mut pass, 0, steps);
    cell.finish(pass)
}

// Makes the steps of the callers 0 and 1, each through its own pass, one after the other.
fn expect_of_two(
    rt: &impl Abort,
    cell: &NodeCell,
    a: &mut Pass,
    b: &mut Pass,
    steps: &[(u32, Step)],
)
    requires a_cell { a.old.cell ≡ cell.now }
    requires b_cell { b.old.cell ≡ cell.now }
    requires a_caller { HasCaller a.old 0 }
    requires b_caller { HasCaller b.old 1 }
    ensures a { Stays a.old a.new }
    ensures b { Stays b.old b.new }
{
    let (mut of_a, mut of_b) = (None, None);
    for (place, (caller, step)) in steps.iter().enumerate() {
        if *caller == 0 {
            let (is_made, next) = made(cell, a, 0, of_a, *step);
            assert!(rt; is_made, "step {place}");
            of_a = next;
        } else {
            let (is_made, next) = made(cell, b, 1, of_b, *step);
            assert!(rt; is_made, "step {place}");
            of_b = next;
        }
    }
}

// The same on a new cell; the node afterwards.
pub(crate) fn node_of_two(rt: &impl Abort, alloc: Global, steps: &[(u32, Step)]) -> Node {
    let (cell, pass) = cell_of(rt, alloc, 16, 2);
    let (mut a, mut b) = cell.split(pass, 1);
    expect_of_two(rt, &cell, &mut a, &mut b, steps);
    let pass = cell.join(a, b);
    cell.finish(pass)
}

// How many events the node's journal has, how many frames its pages hold, and how many were given back.
fn totals_of(node: Node) -> (usize, u128, u128) {
    let totals = (
        node.journal().len(),
        node.frames_held(),
        node.frames_given(),
    );
    drop(node);
    totals
}

// How many events the node's journal has.
pub(crate) fn event_count(node: Node) -> usize {
    let (events, _, _) = totals_of(node);
    events
}

// The node's pages hold so many frames, and so many were given back.
pub(crate) fn has_frames(node: Node, held: u128, given: u128) -> bool {
    let (_, frames_held, frames_given) = totals_of(node);
    frames_held == held && frames_given == given
}
