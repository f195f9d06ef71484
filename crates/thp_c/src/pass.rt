//! The calls of a shared node: of its cell, and of passes of the cell.
ghost use Rattle.std.specs.Prelude.{◌≡◌, None, OnOk, OnErr, IfErr, Ok};
ghost use Rattle.thp_history.specs.Refusals as call;
ghost use Rattle.thp_capi.specs.Prelude.{CellMade, Divided, DoesOnHandle, Emptied, Finished, IsCode, Joined, OneCellHeld, PassAbandon, PassAlloc, PassBack, PassCount, PassNext, PassOne, PassScan, PassTake, Reports, Returns, WhyApart, WhyUndivided, WhyUnfinished, answer_of_code, shape_with, value_of};

use std::alloc::Global;
use thp_capi::{
    BackReply, Fault, HeldEngine, HeldPass, Room, ScanReply, ThpNode, ThpPass, ThpTried, attempt,
    code, on_pass, shape,
};
use thp_history::{Refusal, What};

/// Creates a shared node for `callers` callers, and fills the handle with the pass of all of them. `mark` distinguishes passes of
/// this cell from those of others. A node that is counting only counts its events, and does not keep them.
#[unsafe(no_mangle)]
pub extern "C" fn thp_c_cell_create(
    handle: &mut ThpPass,
    alloc: Global,
    blocks: u32,
    order: u32,
    underused: u32,
    callers: u32,
    mark: u64,
    counting: bool,
) -> u32
    ensures { Reports result (CellMade (value_of handle.old.held) (value_of handle.new.held) (shape_with blocks order underused) callers mark counting) }
{
    if let Ok((room, pass)) = handle.take(alloc) {
        handle.put(room, pass);
        return code(Err(Fault::InUse));
    }
    let room = attempt!(Room::new(alloc));
    let shape = shape(blocks, order, underused);
    let pass = attempt!(HeldPass::new(alloc, shape, callers, mark, counting));
    handle.put(room, pass);
    code(Ok(()))
}

/// Frees the pass that the handle refers to, and empties the handle. The last pass frees the cell too.
#[unsafe(no_mangle)]
pub extern "C" fn thp_c_pass_destroy(handle: &mut ThpPass, alloc: Global) -> u32
    ensures { Reports result (Emptied (value_of handle.old.held) (value_of handle.new.held)) }
{
    let (room, pass) = attempt!(handle.take(alloc));
    drop(pass);
    drop(room);
    code(Ok(()))
}

/// Divides the callers of a pass: those below `at` stay, and the other handle is filled with a pass of those from `at` on.
#[unsafe(no_mangle)]
pub extern "C" fn thp_c_pass_split(
    handle: &mut ThpPass,
    alloc: Global,
    at: u32,
    other: &mut ThpPass,
) -> u32
    ensures done { OnOk (answer_of_code result) (Divided at (value_of handle.old.held) (value_of handle.new.held) (value_of other.new.held)) }
    ensures same { OnErr (answer_of_code result) (value_of handle.new.held ≡ value_of handle.old.held) }
    ensures same_other { OnErr (answer_of_code result) (value_of other.new.held ≡ value_of other.old.held) }
    ensures why { IfErr (answer_of_code result) (WhyUndivided at (value_of handle.old.held) (value_of other.old.held)) }
    ensures known { IsCode result }
{
    if let Ok((room, pass)) = other.take(alloc) {
        other.put(room, pass);
        return code(Err(Fault::InUse));
    }
    let (room, pass) = attempt!(handle.take(alloc));
    let Ok(other_room) = Room::new(alloc) else {
        handle.put(room, pass);
        return code(Err(Fault::Refused(Refusal::OutOfMemory)));
    };
    match pass.split(alloc, at) {
        Ok((left, right)) => {
            handle.put(room, left);
            other.put(other_room, right);
            code(Ok(()))
        }
        Err((pass, fault)) => {
            handle.put(room, pass);
            code(Err(fault))
        }
    }
}

/// Joins the pass of the other handle to this one, and empties the other. The callers of the other must directly follow those of
/// this pass.
#[unsafe(no_mangle)]
pub extern "C" fn thp_c_pass_join(handle: &mut ThpPass, alloc: Global, other: &mut ThpPass) -> u32
    requires { OneCellHeld (value_of handle.old.held) (value_of other.old.held) }
    ensures done { OnOk (answer_of_code result) (Joined (value_of handle.old.held) (value_of other.old.held) (value_of handle.new.held)) }
    ensures emptied { OnOk (answer_of_code result) (value_of other.new.held ≡ None) }
    ensures same { OnErr (answer_of_code result) (value_of handle.new.held ≡ value_of handle.old.held) }
    ensures same_other { OnErr (answer_of_code result) (value_of other.new.held ≡ value_of other.old.held) }
    ensures why { IfErr (answer_of_code result) (WhyApart (value_of handle.old.held) (value_of other.old.held)) }
    ensures known { IsCode result }
{
    let (room, left) = attempt!(handle.take(alloc));
    let Ok((other_room, right)) = other.take(alloc) else {
        handle.put(room, left);
        return code(Err(Fault::Empty));
    };
    match left.join(right) {
        Ok(both) => {
            handle.put(room, both);
            code(Ok(()))
        }
        Err((left, right)) => {
            handle.put(room, left);
            other.put(other_room, right);
            code(Err(Fault::BadPass))
        }
    }
}

/// Dismantles the cell if the pass has all its callers and no other handle refers to the cell: fills the second handle with the
/// node, and empties the first.
#[unsafe(no_mangle)]
pub extern "C" fn thp_c_cell_finish(handle: &mut ThpPass, alloc: Global, node: &mut ThpNode) -> u32
    ensures done { OnOk (answer_of_code result) (Finished (value_of handle.old.held) node.new.held) }
    ensures emptied { OnOk (answer_of_code result) (value_of handle.new.held ≡ None) }
    ensures same { OnErr (answer_of_code result) (value_of handle.new.held ≡ value_of handle.old.held) }
    ensures same_node { OnErr (answer_of_code result) (node.new.held ≡ node.old.held) }
    ensures why { IfErr (answer_of_code result) (WhyUnfinished (value_of handle.old.held) node.old.held) }
    ensures known { IsCode result }
{
    if let Ok(engine) = node.take(alloc) {
        node.store(engine);
        return code(Err(Fault::InUse));
    }
    let (room, pass) = attempt!(handle.take(alloc));
    // allocated before the cell ends, so that nothing is lost without memory
    let spare = HeldEngine::new(alloc, shape(1, 2, u32::MAX), pass.is_counting());
    let Ok(mut engine) = spare else {
        handle.put(room, pass);
        return code(Err(Fault::Refused(Refusal::OutOfMemory)));
    };
    match pass.finish(&mut *engine) {
        Ok(()) => {
            node.store(engine);
            code(Ok(()))
        }
        Err((pass, fault)) => {
            handle.put(room, pass);
            code(Err(fault))
        }
    }
}

/// Allocates a page, mapped whole once. Its number is the number of allocations before it.
#[unsafe(no_mangle)]
pub extern "C" fn thp_c_pass_alloc(
    handle: &mut ThpPass,
    alloc: Global,
    caller: u32,
    page: &mut u64,
) -> u32
    ensures { Reports result (Returns (value_of handle.old.held) (value_of handle.new.held) page.old page.new (PassAlloc caller)) }
{
    on_pass!(handle, alloc, pass => pass.alloc_page(caller), page)
}

/// Closes the node: no page is queued or allocated afterwards.
#[unsafe(no_mangle)]
pub extern "C" fn thp_c_pass_close(handle: &mut ThpPass, alloc: Global, caller: u32) -> u32
    ensures { Reports result (DoesOnHandle (value_of handle.old.held) (value_of handle.new.held) (PassOne caller call.close What.Close)) }
{
    code(on_pass!(handle, alloc, pass => pass.close(caller)))
}

/// Takes up to `n` of the oldest queued pages, in order, tries each, and returns the pinned ones.
#[unsafe(no_mangle)]
pub extern "C" fn thp_c_pass_scan(
    handle: &mut ThpPass,
    alloc: Global,
    caller: u32,
    n: u32,
    scan: &mut ScanReply,
) -> u32
    ensures { Reports result (Returns (value_of handle.old.held) (value_of handle.new.held) scan.old scan.new (PassScan caller n)) }
{
    on_pass!(handle, alloc, pass => pass.scan(caller, n), scan)
}

/// Stores in `pages` the number of queued pages, even while another pass has the node.
#[unsafe(no_mangle)]
pub extern "C" fn thp_c_pass_count(handle: &mut ThpPass, alloc: Global, pages: &mut u32) -> u32
    ensures does { Reports result (DoesOnHandle (value_of handle.old.held) (value_of handle.new.held) (λ old new answer. (answer ≡ Ok tt) × PassCount pages.new old new)) }
    ensures kept { OnErr (answer_of_code result) (pages.new ≡ pages.old) }
{
    *pages = on_pass!(handle, alloc, pass => pass.count());
    code(Ok(()))
}

/// Stores in `first` and `end` the callers of the pass: those from `first` on and below `end`.
#[unsafe(no_mangle)]
pub extern "C" fn thp_c_pass_callers(
    handle: &mut ThpPass,
    alloc: Global,
    first: &mut u32,
    end: &mut u32,
) -> u32
    ensures does { Reports result (DoesOnHandle (value_of handle.old.held) (value_of handle.new.held) (λ old new answer. (new ≡ old) × (answer ≡ Ok tt) × (first.new ≡ old.pass.first) × (end.new ≡ old.pass.end))) }
    ensures kept_first { OnErr (answer_of_code result) (first.new ≡ first.old) }
    ensures kept_end { OnErr (answer_of_code result) (end.new ≡ end.old) }
{
    let (from, to) = on_pass!(handle, alloc, pass => pass.callers());
    *first = from;
    *end = to;
    code(Ok(()))
}

/// Takes up to `n` of the oldest queued pages, in order, into the caller's batch, which is open afterwards. `count` is the number
/// of pages taken.
#[unsafe(no_mangle)]
pub extern "C" fn thp_c_pass_take(
    handle: &mut ThpPass,
    alloc: Global,
    caller: u32,
    n: u32,
    count: &mut u32,
) -> u32
    ensures { Reports result (Returns (value_of handle.old.held) (value_of handle.new.held) count.old count.new (PassTake caller n)) }
{
    on_pass!(handle, alloc, pass => pass.take(caller, n), count)
}

/// Tries the next page of the caller's open batch.
#[unsafe(no_mangle)]
pub extern "C" fn thp_c_pass_split_next(
    handle: &mut ThpPass,
    alloc: Global,
    caller: u32,
    tried: &mut ThpTried,
) -> u32
    ensures { Reports result (Returns (value_of handle.old.held) (value_of handle.new.held) tried.old tried.new (PassNext caller)) }
{
    on_pass!(handle, alloc, pass => pass.split_next(caller), tried)
}

/// Returns the remaining pages of the caller's open batch, and closes the batch.
#[unsafe(no_mangle)]
pub extern "C" fn thp_c_pass_put_back(
    handle: &mut ThpPass,
    alloc: Global,
    caller: u32,
    back: &mut BackReply,
) -> u32
    ensures { Reports result (Returns (value_of handle.old.held) (value_of handle.new.held) back.old back.new (PassBack caller)) }
{
    on_pass!(handle, alloc, pass => pass.put_back(caller), back)
}

/// Discards the caller's open batch: its pages stay in the caller's flight, out of the queue.
#[unsafe(no_mangle)]
pub extern "C" fn thp_c_pass_abandon(handle: &mut ThpPass, alloc: Global, caller: u32) -> u32
    ensures { Reports result (DoesOnHandle (value_of handle.old.held) (value_of handle.new.held) (PassAbandon caller)) }
{
    code(on_pass!(handle, alloc, pass => pass.abandon(caller)))
}
