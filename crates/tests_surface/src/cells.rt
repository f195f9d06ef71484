//! A shared node.
ghost use Rattle.std.specs.Prelude.{◌≡◌};
ghost use Rattle.thp_cell.specs.Prelude.{continuing, returning_node, HasAll, HasCaller};

use crate::equal::expect_equal;
use crate::sets::SMALL;
use std::alloc::Global;
use std::process::Abort;
use thp_cell::{Busy, CellFault, Hold, NodeCell, Pass};
use thp_model::PageId;
use thp_node::{Done, Node, Tried};

// A cell of two callers.
fn cell_of(rt: &impl Abort, alloc: Global) -> (NodeCell, Pass)
    ensures cell { result.1.cell ≡ result.0 }
    ensures all { HasAll result.1 }
    ensures callers { result.1.callers ≡ 2 }
{
    let node = Node::new(alloc, SMALL).expect(rt, "a node");
    NodeCell::new(alloc, node, 2).expect(rt, "a cell")
}

// The calls about a page that is mapped whole.
fn used(cell: &NodeCell, pass: &mut Pass) -> Result<PageId, CellFault>
    requires cell { pass.old.cell ≡ cell.now }
    requires caller { HasCaller pass.old 1 }
    ensures { pass.new ≡ continuing pass.old pass.new }
{
    let page = cell.alloc_page(pass, 1)?;
    cell.map_whole(pass, 1, page)?;
    let _stays = cell.unmap_whole(pass, 1, page)?;
    cell.write(pass, 1, page, 0, 3)?;
    cell.zero(pass, 1, page, 0, 1)?;
    Ok(page)
}

// The calls about its subpages and its pins.
fn unmapped(cell: &NodeCell, pass: &mut Pass, page: PageId) -> Result<Done, CellFault>
    requires cell { pass.old.cell ≡ cell.now }
    requires caller { HasCaller pass.old 1 }
    ensures { pass.new ≡ continuing pass.old pass.new }
{
    cell.split_pmd(pass, 1, page)?;
    cell.map_sub(pass, 1, page, 3, 1)?;
    cell.pin(pass, 1, page)?;
    let _pinned = cell.unpin(pass, 1, page)?;
    cell.unmap_sub(pass, 1, page, 1, 1)
}

// The calls about a batch.
fn tried(cell: &NodeCell, pass: &mut Pass) -> Result<Tried, CellFault>
    requires cell { pass.old.cell ≡ cell.now }
    requires caller { HasCaller pass.old 1 }
    ensures { pass.new ≡ continuing pass.old pass.new }
{
    let mut batch = cell.take(pass, 1, 8)?;
    let tried = cell.split_next(pass, &mut batch)?;
    match cell.put_back(pass, batch) {
        Ok(_) => Ok(tried),
        Err((batch, fault)) => {
            batch.abandon();
            Err(fault)
        }
    }
}

// A scan and the close.
fn closed(cell: &NodeCell, pass: &mut Pass) -> Result<(), CellFault>
    requires cell { pass.old.cell ≡ cell.now }
    requires caller { HasCaller pass.old 1 }
    ensures { pass.new ≡ continuing pass.old pass.new }
{
    let _scanned = cell.scan(pass, 1, 128)?;
    cell.close(pass, 1)
}

// All calls of caller 1: the page that was used, the number of pages queued, and the result of the first try.
fn called(cell: &NodeCell, pass: &mut Pass) -> Result<(PageId, u32, Tried), CellFault>
    requires cell { pass.old.cell ≡ cell.now }
    requires caller { HasCaller pass.old 1 }
    ensures { pass.new ≡ continuing pass.old pass.new }
{
    let page = used(cell, pass)?;
    unmapped(cell, pass, page)?;
    let queued = cell.count(pass);
    let tried = tried(cell, pass)?;
    closed(cell, pass)?;
    Ok((page, queued, tried))
}

// The node is held, and released.
fn held(cell: &NodeCell, pass: Pass) -> Pass
    requires { pass.cell ≡ cell.now }
    ensures { result ≡ continuing (returning_node pass) result }
{
    match cell.hold(pass) {
        Ok(hold) => let_go(cell, hold),
        Err((pass, Busy)) => pass,
    }
}

fn let_go(cell: &NodeCell, hold: Hold) -> Pass
    requires { hold.cell ≡ cell.now }
    ensures { result ≡ continuing hold result }
{
    cell.release(hold)
}

// Caller 1 makes all its calls, and is the only caller of its pass.
fn expect_calls(rt: &impl Abort, cell: &NodeCell, pass: &mut Pass)
    requires cell { pass.old.cell ≡ cell.now }
    requires caller { HasCaller pass.old 1 }
    ensures { pass.new ≡ continuing pass.old pass.new }
{
    let reported = called(cell, pass);
    expect_equal(rt, reported, Ok((PageId(0), 1, Tried::Split(PageId(0)))));
    expect_equal(rt, pass.callers(), (1, 2));
}

fn expect_events(rt: &impl Abort, node: &Node) {
    assert!(rt; !node.journal().is_empty());
}

#[test]
fn a_shared_node(rt: HostRuntime) {
    let (cell, pass) = cell_of(&rt, rt.alloc());
    let (left, mut right) = cell.split(pass, 1);
    expect_calls(&rt, &cell, &mut right);
    let left = held(&cell, left);
    let pass = cell.join(left, right);
    expect_events(&rt, &cell.finish(pass));
}
