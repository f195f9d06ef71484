//! The calls of a node.
ghost use Rattle.std.specs.Prelude.{◌≡◌, ◌∷◌, [], Ok, Err, OnErr, length};
ghost use Rattle.thp_history.specs.Prelude.{queue};
ghost use Rattle.thp_history.specs.Refusals as call;
ghost use Rattle.thp_capi.specs.Prelude.{AbandonCall, AllocCall, BackCall, DoesIfKept, DoesOnHandle, Emptied, MadeNode, MapcountCall, NextCall, OneCall, PageCall, QueueCall, Reports, ReserveCall, Returns, ScanCall, TakeCall, Written, answer_of_code, shape_with, stats_of};
ghost use Rattle.thp_journal_writer.specs.Prelude.{journal_text};

use std::alloc::Global;
use thp_capi::{
    BackReply, Fault, Held, HeldEngine, ScanReply, ThpNode, ThpPageState, ThpStats, ThpTried,
    attempt, code, on_node, put_text, report, shape,
};
use thp_history::{PageId, What};

/// Creates a node and fills the handle with it. A node that is counting only counts its events, and does not keep them. The
/// greatest number as the threshold turns the search for underused pages off.
#[unsafe(no_mangle)]
pub extern "C" fn thp_c_node_create(
    handle: &mut ThpNode,
    alloc: Global,
    blocks: u32,
    order: u32,
    underused: u32,
    counting: bool,
) -> u32
    ensures { Reports result (MadeNode handle.old.held handle.new.held (shape_with blocks order underused) counting) }
{
    if let Ok(engine) = handle.take(alloc) {
        handle.store(engine);
        return code(Err(Fault::InUse));
    }
    let shape = shape(blocks, order, underused);
    let engine = attempt!(HeldEngine::new(alloc, shape, counting));
    handle.store(engine);
    code(Ok(()))
}

/// Frees the node that the handle refers to, and empties the handle.
#[unsafe(no_mangle)]
pub extern "C" fn thp_c_node_destroy(handle: &mut ThpNode, alloc: Global) -> u32
    ensures { Reports result (Emptied handle.old.held handle.new.held) }
{
    code(handle.take(alloc).map(drop))
}

/// Allocates a page, mapped whole once. Its number is the number of allocations before it.
#[unsafe(no_mangle)]
pub extern "C" fn thp_c_node_alloc(
    handle: &mut ThpNode,
    alloc: Global,
    caller: u32,
    page: &mut u64,
) -> u32
    ensures { Reports result (Returns handle.old.held handle.new.held page.old page.new (AllocCall caller)) }
{
    on_node!(handle, alloc, engine => engine.alloc_page(caller), page)
}

/// Closes the node: no page is queued or allocated afterwards.
#[unsafe(no_mangle)]
pub extern "C" fn thp_c_node_close(handle: &mut ThpNode, alloc: Global, caller: u32) -> u32
    ensures { Reports result (DoesOnHandle handle.old.held handle.new.held (OneCall caller call.close What.Close)) }
{
    code(on_node!(handle, alloc, engine => engine.close(caller)))
}

/// Takes up to `n` of the oldest queued pages, in order, tries each, and returns the pinned ones.
#[unsafe(no_mangle)]
pub extern "C" fn thp_c_node_scan(
    handle: &mut ThpNode,
    alloc: Global,
    caller: u32,
    n: u32,
    scan: &mut ScanReply,
) -> u32
    ensures { Reports result (Returns handle.old.held handle.new.held scan.old scan.new (ScanCall caller n)) }
{
    on_node!(handle, alloc, engine => engine.scan(caller, n), scan)
}

/// Takes up to `n` of the oldest queued pages, in order, into the caller's batch, which is open afterwards. `count` is the number
/// of pages taken.
#[unsafe(no_mangle)]
pub extern "C" fn thp_c_node_take(
    handle: &mut ThpNode,
    alloc: Global,
    caller: u32,
    n: u32,
    count: &mut u32,
) -> u32
    ensures { Reports result (Returns handle.old.held handle.new.held count.old count.new (TakeCall caller n)) }
{
    on_node!(handle, alloc, engine => engine.take(caller, n), count)
}

/// Tries the next page of the caller's open batch.
#[unsafe(no_mangle)]
pub extern "C" fn thp_c_node_split_next(
    handle: &mut ThpNode,
    alloc: Global,
    caller: u32,
    tried: &mut ThpTried,
) -> u32
    ensures { Reports result (Returns handle.old.held handle.new.held tried.old tried.new (NextCall caller)) }
{
    on_node!(handle, alloc, engine => engine.split_next(caller), tried)
}

/// Returns the remaining pages of the caller's open batch, and closes the batch.
#[unsafe(no_mangle)]
pub extern "C" fn thp_c_node_put_back(
    handle: &mut ThpNode,
    alloc: Global,
    caller: u32,
    back: &mut BackReply,
) -> u32
    ensures { Reports result (Returns handle.old.held handle.new.held back.old back.new (BackCall caller)) }
{
    on_node!(handle, alloc, engine => engine.put_back(caller), back)
}

/// Discards the caller's open batch: its pages stay in the caller's flight, out of the queue.
#[unsafe(no_mangle)]
pub extern "C" fn thp_c_node_abandon(handle: &mut ThpNode, alloc: Global, caller: u32) -> u32
    ensures { Reports result (DoesOnHandle handle.old.held handle.new.held (AbandonCall caller)) }
{
    code(on_node!(handle, alloc, engine => engine.abandon(caller)))
}

/// Reserves room in the journal for `events` events: calls that record no more than that never fail for lack of memory. A scan
/// needs three events for each page that it takes.
#[unsafe(no_mangle)]
pub extern "C" fn thp_c_node_reserve(handle: &mut ThpNode, alloc: Global, events: u32) -> u32
    ensures { Reports result (DoesOnHandle handle.old.held handle.new.held (ReserveCall events)) }
{
    code(on_node!(handle, alloc, engine => engine.reserve(events)))
}

/// Stores in `pages` the number of queued pages, which is the shrinker's count.
#[unsafe(no_mangle)]
pub extern "C" fn thp_c_node_queue_length(
    handle: &mut ThpNode,
    alloc: Global,
    pages: &mut u32,
) -> u32
    ensures { Reports result (Returns handle.old.held handle.new.held pages.old pages.new (λ old new answer. (new ≡ old) × (answer ≡ Ok (length (queue old.node.shape old.node.journal))))) }
{
    on_node!(handle, alloc, engine => Ok(engine.queue_length()), pages)
}

/// Stores the node's statistics in `stats`.
#[unsafe(no_mangle)]
pub extern "C" fn thp_c_node_stats(handle: &mut ThpNode, alloc: Global, stats: &mut ThpStats) -> u32
    ensures { Reports result (Returns handle.old.held handle.new.held stats.old stats.new (λ old new answer. (new ≡ old) × (answer ≡ Ok (stats_of old.node)))) }
{
    on_node!(handle, alloc, engine => Ok(engine.stats()), stats)
}

/// Writes the journal as text to the start of the buffer if the text fits there. `size` is its length in bytes.
#[unsafe(no_mangle)]
pub extern "C" fn thp_c_node_journal(
    handle: &mut ThpNode,
    alloc: Global,
    buffer: &mut [u8],
    size: &mut usize,
) -> u32
    ensures { Reports result (DoesIfKept handle.old.held handle.new.held (λ old new answer. (new ≡ old) × Written (journal_text ((old.node.shape, old.node.journal) ∷ [])) buffer.old buffer.new size.old size.new answer) (λ old new answer. (new ≡ old) × (answer ≡ Err Fault.NoJournal) × (buffer.new ≡ buffer.old) × (size.new ≡ size.old))) }
{
    let engine = attempt!(handle.take(alloc));
    let text = match &*engine {
        Held::Kept(engine) => engine.text(alloc),
        Held::Counted(_) => Err(Fault::NoJournal),
    };
    handle.store(engine);
    code(put_text(text, buffer, size))
}

/// Stores the state of a live page in `state`.
#[unsafe(no_mangle)]
pub extern "C" fn thp_c_node_page(
    handle: &mut ThpNode,
    alloc: Global,
    page: u64,
    state: &mut ThpPageState,
) -> u32
    ensures { Reports result (Returns handle.old.held handle.new.held state.old state.new (PageCall page)) }
{
    on_node!(handle, alloc, engine => engine.page(PageId(page)), state)
}

/// Stores the own map count of a subpage of a live page in `own`: the number of PTE entries that map it.
#[unsafe(no_mangle)]
pub extern "C" fn thp_c_node_mapcount(
    handle: &mut ThpNode,
    alloc: Global,
    page: u64,
    subpage: u32,
    own: &mut u32,
) -> u32
    ensures { Reports result (Returns handle.old.held handle.new.held own.old own.new (MapcountCall page subpage)) }
{
    on_node!(handle, alloc, engine => engine.mapcount(PageId(page), subpage), own)
}

/// Stores in `pages` the queued pages, oldest first, as many as there is room for, and in `count` the number of queued pages.
#[unsafe(no_mangle)]
pub extern "C" fn thp_c_node_queue(
    handle: &mut ThpNode,
    alloc: Global,
    pages: &mut [u64],
    count: &mut u32,
) -> u32
    ensures does { Reports result (Returns handle.old.held handle.new.held count.old count.new (QueueCall pages.old pages.new)) }
    ensures kept { OnErr (answer_of_code result) (pages.new ≡ pages.old) }
{
    on_node!(handle, alloc, engine => Ok(engine.queue(pages)), count)
}
