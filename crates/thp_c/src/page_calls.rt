//! The calls about one page, exported: of a node, and of a pass of a shared node.
ghost use Rattle.thp_history.specs.Refusals as call;
ghost use Rattle.thp_capi.specs.Prelude.{DoesOnHandle, LoseCall, OneCall, PassLost, PassOne, Reports, Returns, value_of};

use std::alloc::Global;
use thp_capi::{ThpDone, ThpNode, ThpPass, code, on_node, on_pass};
use thp_history::{Gain, Loss, PageId, What};

/// Maps the whole page once more, by a PMD entry.
#[unsafe(no_mangle)]
pub extern "C" fn thp_c_node_map_whole(
    handle: &mut ThpNode,
    alloc: Global,
    caller: u32,
    page: u64,
) -> u32
    ensures { Reports result (DoesOnHandle handle.old.held handle.new.held (OneCall caller (call.map_whole page) (What.MapWhole page))) }
{
    code(on_node!(handle, alloc, engine => engine.gain(caller, PageId(page), Gain::MapWhole)))
}

/// Maps each of the `count` subpages from `first` on once more, by PTE entries.
#[unsafe(no_mangle)]
pub extern "C" fn thp_c_node_map_sub(
    handle: &mut ThpNode,
    alloc: Global,
    caller: u32,
    page: u64,
    first: u32,
    count: u32,
) -> u32
    ensures { Reports result (DoesOnHandle handle.old.held handle.new.held (OneCall caller (call.map_sub page first count) (What.MapSub page first count))) }
{
    let gain = Gain::MapSub { first, count };
    code(on_node!(handle, alloc, engine => engine.gain(caller, PageId(page), gain)))
}

/// Replaces one PMD mapping of the page by a PTE mapping of each subpage.
#[unsafe(no_mangle)]
pub extern "C" fn thp_c_node_split_pmd(
    handle: &mut ThpNode,
    alloc: Global,
    caller: u32,
    page: u64,
) -> u32
    ensures { Reports result (DoesOnHandle handle.old.held handle.new.held (OneCall caller (call.split_pmd page) (What.SplitPmd page))) }
{
    code(on_node!(handle, alloc, engine => engine.gain(caller, PageId(page), Gain::SplitPmd)))
}

/// Adds a pin to the page.
#[unsafe(no_mangle)]
pub extern "C" fn thp_c_node_pin(handle: &mut ThpNode, alloc: Global, caller: u32, page: u64) -> u32
    ensures { Reports result (DoesOnHandle handle.old.held handle.new.held (OneCall caller (call.pin page) (What.Pin page))) }
{
    code(on_node!(handle, alloc, engine => engine.gain(caller, PageId(page), Gain::Pin)))
}

/// Records that data is written to each of the `count` subpages from `first` on.
#[unsafe(no_mangle)]
pub extern "C" fn thp_c_node_write(
    handle: &mut ThpNode,
    alloc: Global,
    caller: u32,
    page: u64,
    first: u32,
    count: u32,
) -> u32
    ensures { Reports result (DoesOnHandle handle.old.held handle.new.held (OneCall caller (call.write page first count) (What.Write page first count))) }
{
    let gain = Gain::Write { first, count };
    code(on_node!(handle, alloc, engine => engine.gain(caller, PageId(page), gain)))
}

/// Records that zeros are written to each of the `count` subpages from `first` on.
#[unsafe(no_mangle)]
pub extern "C" fn thp_c_node_zero(
    handle: &mut ThpNode,
    alloc: Global,
    caller: u32,
    page: u64,
    first: u32,
    count: u32,
) -> u32
    ensures { Reports result (DoesOnHandle handle.old.held handle.new.held (OneCall caller (call.zero_fill page first count) (What.Zero page first count))) }
{
    let gain = Gain::Zero { first, count };
    code(on_node!(handle, alloc, engine => engine.gain(caller, PageId(page), gain)))
}

/// Removes one mapping of the whole page.
#[unsafe(no_mangle)]
pub extern "C" fn thp_c_node_unmap_whole(
    handle: &mut ThpNode,
    alloc: Global,
    caller: u32,
    page: u64,
    done: &mut ThpDone,
) -> u32
    ensures { Reports result (Returns handle.old.held handle.new.held done.old done.new (LoseCall caller (call.unmap_whole page) page (λ o released. What.UnmapWhole o page released))) }
{
    on_node!(handle, alloc, engine => engine.lose(caller, PageId(page), Loss::UnmapWhole), done)
}

/// Removes one mapping of each of the `count` subpages from `first` on.
#[unsafe(no_mangle)]
pub extern "C" fn thp_c_node_unmap_sub(
    handle: &mut ThpNode,
    alloc: Global,
    caller: u32,
    page: u64,
    first: u32,
    count: u32,
    done: &mut ThpDone,
) -> u32
    ensures { Reports result (Returns handle.old.held handle.new.held done.old done.new (LoseCall caller (call.unmap_sub page first count) page (λ o released. What.UnmapSub o page first count released))) }
{
    let loss = Loss::UnmapSub { first, count };
    on_node!(handle, alloc, engine => engine.lose(caller, PageId(page), loss), done)
}

/// Removes a pin of the page.
#[unsafe(no_mangle)]
pub extern "C" fn thp_c_node_unpin(
    handle: &mut ThpNode,
    alloc: Global,
    caller: u32,
    page: u64,
    done: &mut ThpDone,
) -> u32
    ensures { Reports result (Returns handle.old.held handle.new.held done.old done.new (LoseCall caller (call.unpin page) page (λ o released. What.Unpin o page released))) }
{
    on_node!(handle, alloc, engine => engine.lose(caller, PageId(page), Loss::Unpin), done)
}

/// Maps the whole page once more, by a PMD entry.
#[unsafe(no_mangle)]
pub extern "C" fn thp_c_pass_map_whole(
    handle: &mut ThpPass,
    alloc: Global,
    caller: u32,
    page: u64,
) -> u32
    ensures { Reports result (DoesOnHandle (value_of handle.old.held) (value_of handle.new.held) (PassOne caller (call.map_whole page) (What.MapWhole page))) }
{
    code(on_pass!(handle, alloc, pass => pass.gain(caller, PageId(page), Gain::MapWhole)))
}

/// Maps each of the `count` subpages from `first` on once more, by PTE entries.
#[unsafe(no_mangle)]
pub extern "C" fn thp_c_pass_map_sub(
    handle: &mut ThpPass,
    alloc: Global,
    caller: u32,
    page: u64,
    first: u32,
    count: u32,
) -> u32
    ensures { Reports result (DoesOnHandle (value_of handle.old.held) (value_of handle.new.held) (PassOne caller (call.map_sub page first count) (What.MapSub page first count))) }
{
    let gain = Gain::MapSub { first, count };
    code(on_pass!(handle, alloc, pass => pass.gain(caller, PageId(page), gain)))
}

/// Replaces one PMD mapping of the page by a PTE mapping of each subpage.
#[unsafe(no_mangle)]
pub extern "C" fn thp_c_pass_split_pmd(
    handle: &mut ThpPass,
    alloc: Global,
    caller: u32,
    page: u64,
) -> u32
    ensures { Reports result (DoesOnHandle (value_of handle.old.held) (value_of handle.new.held) (PassOne caller (call.split_pmd page) (What.SplitPmd page))) }
{
    code(on_pass!(handle, alloc, pass => pass.gain(caller, PageId(page), Gain::SplitPmd)))
}

/// Adds a pin to the page.
#[unsafe(no_mangle)]
pub extern "C" fn thp_c_pass_pin(handle: &mut ThpPass, alloc: Global, caller: u32, page: u64) -> u32
    ensures { Reports result (DoesOnHandle (value_of handle.old.held) (value_of handle.new.held) (PassOne caller (call.pin page) (What.Pin page))) }
{
    code(on_pass!(handle, alloc, pass => pass.gain(caller, PageId(page), Gain::Pin)))
}

/// Records that data is written to each of the `count` subpages from `first` on.
#[unsafe(no_mangle)]
pub extern "C" fn thp_c_pass_write(
    handle: &mut ThpPass,
    alloc: Global,
    caller: u32,
    page: u64,
    first: u32,
    count: u32,
) -> u32
    ensures { Reports result (DoesOnHandle (value_of handle.old.held) (value_of handle.new.held) (PassOne caller (call.write page first count) (What.Write page first count))) }
{
    let gain = Gain::Write { first, count };
    code(on_pass!(handle, alloc, pass => pass.gain(caller, PageId(page), gain)))
}

/// Records that zeros are written to each of the `count` subpages from `first` on.
#[unsafe(no_mangle)]
pub extern "C" fn thp_c_pass_zero(
    handle: &mut ThpPass,
    alloc: Global,
    caller: u32,
    page: u64,
    first: u32,
    count: u32,
) -> u32
    ensures { Reports result (DoesOnHandle (value_of handle.old.held) (value_of handle.new.held) (PassOne caller (call.zero_fill page first count) (What.Zero page first count))) }
{
    let gain = Gain::Zero { first, count };
    code(on_pass!(handle, alloc, pass => pass.gain(caller, PageId(page), gain)))
}

/// Removes one mapping of the whole page.
#[unsafe(no_mangle)]
pub extern "C" fn thp_c_pass_unmap_whole(
    handle: &mut ThpPass,
    alloc: Global,
    caller: u32,
    page: u64,
    done: &mut ThpDone,
) -> u32
    ensures { Reports result (Returns (value_of handle.old.held) (value_of handle.new.held) done.old done.new (PassLost caller (call.unmap_whole page) page (λ o released. What.UnmapWhole o page released))) }
{
    on_pass!(handle, alloc, pass => pass.lose(caller, PageId(page), Loss::UnmapWhole), done)
}

/// Removes one mapping of each of the `count` subpages from `first` on.
#[unsafe(no_mangle)]
pub extern "C" fn thp_c_pass_unmap_sub(
    handle: &mut ThpPass,
    alloc: Global,
    caller: u32,
    page: u64,
    first: u32,
    count: u32,
    done: &mut ThpDone,
) -> u32
    ensures { Reports result (Returns (value_of handle.old.held) (value_of handle.new.held) done.old done.new (PassLost caller (call.unmap_sub page first count) page (λ o released. What.UnmapSub o page first count released))) }
{
    let loss = Loss::UnmapSub { first, count };
    on_pass!(handle, alloc, pass => pass.lose(caller, PageId(page), loss), done)
}

/// Removes a pin of the page.
#[unsafe(no_mangle)]
pub extern "C" fn thp_c_pass_unpin(
    handle: &mut ThpPass,
    alloc: Global,
    caller: u32,
    page: u64,
    done: &mut ThpDone,
) -> u32
    ensures { Reports result (Returns (value_of handle.old.held) (value_of handle.new.held) done.old done.new (PassLost caller (call.unpin page) page (λ o released. What.Unpin o page released))) }
{
    on_pass!(handle, alloc, pass => pass.lose(caller, PageId(page), Loss::Unpin), done)
}
