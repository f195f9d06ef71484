//! A node of one thread.
use crate::sets::SMALL;
use std::alloc::Global;
use thp_model::{PageId, Refusal};
use thp_node::{BackReply, Counters, Done, NewFault, Node, ScanReply, Tried};

// A page that is mapped whole once more, and unmapped again.
fn mapped(node: &mut Node) -> Result<PageId, Refusal> {
    node.reserve(16)?;
    let page = node.alloc_page(0)?;
    node.map_whole(0, page)?;
    let _stays = node.unmap_whole(0, page)?;
    Ok(page)
}

// It is written, and its mapping is split.
fn written(node: &mut Node, page: PageId) -> Result<(), Refusal> {
    node.write(0, page, 0, 3)?;
    node.zero(0, page, 0, 1)?;
    node.split_pmd(0, page)
}

// It is pinned and unpinned, and partly unmapped.
fn unmapped(node: &mut Node, page: PageId) -> Result<Done, Refusal> {
    node.map_sub(0, page, 3, 1)?;
    node.pin(0, page)?;
    let _pinned = node.unpin(0, page)?;
    node.unmap_sub(0, page, 1, 1)
}

fn used(node: &mut Node) -> Result<Done, Refusal> {
    let page = mapped(node)?;
    written(node, page)?;
    unmapped(node, page)
}

// The page is taken, tried and put back, and a scan finds nothing; then the node is closed.
fn shrunk(node: &mut Node) -> Result<(Tried, BackReply, ScanReply), Refusal> {
    let mut batch = node.take(1, 8)?;
    let _caller = batch.caller();
    let _pages = batch.pages();
    let tried = node.split_next(&mut batch)?;
    let back = match node.put_back(batch) {
        Ok(back) => back,
        Err((batch, refusal)) => {
            batch.abandon();
            return Err(refusal);
        }
    };
    let scanned = node.scan(1, 128)?;
    node.close(1)?;
    Ok((tried, back, scanned))
}

// Whether the node shows what happened on it.
fn is_reported(node: &Node) -> bool {
    let counters: Counters = node.counters();
    let frames = node.frames_held().saturating_add(node.frames_given());
    let lists = node.queue().len() == 0 && node.queue_len() == 0;
    let kept = node.table().block_of(PageId(0)).is_some();
    lists && kept && frames == 4 && counters.split_page == 1 && node.shape() == SMALL
}

// Whether a node passes its calls.
fn is_passed(node: &mut Node) -> bool {
    if used(node).is_err() {
        return false;
    }
    match shrunk(node) {
        Ok(
            (
                Tried::Split(PageId(0)),
                BackReply {
                    back: 0,
                    dropped: 0,
                },
                scanned,
            ),
        ) => scanned.taken == 0 && is_reported(node) && !node.journal().is_empty(),
        _ => false,
    }
}

// Whether a new node does.
fn goes_through(alloc: Global) -> Result<bool, NewFault> {
    Ok(is_passed(&mut Node::new(alloc, SMALL)?))
}

#[test]
fn a_node(rt: HostRuntime) {
    assert!(rt; matches!(goes_through(rt.alloc()), Ok(true)));
}
