//! The table of page descriptors in the hands of callers, by its calls and by its links.
ghost use Rattle.std.specs.Prelude.{◌≡◌, ◌<◌, ℕ, ◌+◌, length, IsSome, OnOk, OnErr, Some, None};
ghost use Rattle.thp_history.specs.Prelude.{PageState};
ghost use Rattle.thp_history.specs.Pages.{Pinned};
ghost use Rattle.thp_page.specs.Prelude.{Slot, slot_at, with_slot, fresh_slot};

use crate::counting::calls_counted;
use crate::equal::expect_equal;
use std::process::Abort;
use std::test::Fail;
use thp_history::{PageId, Refusal};
use thp_links::{Link, LinkTable, NIL};
use thp_page::{PageTable, Standing};

// The pins of the page of a block.
fn pins_at(table: &PageTable, block: u32) -> u32
    requires inside { block < length table.now.links }
    requires occupied { IsSome (slot_at table.now block) }
    ensures { (s : Slot) → slot_at table.now block ≡ Some s → result ≡ s.page.pins }
{
    match table.page(block) {
        Some((_, page)) => page.pins(),
        None => unreachable!(),
    }
}

// Pins the page of a block.
fn pin_at(table: &mut PageTable, block: u32) -> Result<(), Refusal>
    requires inside { block < length table.old.links }
    requires occupied { IsSome (slot_at table.old block) }
    ensures pinned { OnOk result ((s : Slot) → slot_at table.old block ≡ Some s → (p : PageState) × Pinned s.page p × (table.new ≡ with_slot table.old block (Some (record s { page = p })))) }
    ensures kept { OnErr result (table.new ≡ table.old) }
{
    match table.page_mut(block) {
        Some(page) => page.pin(),
        None => unreachable!(),
    }
}

// Pins the page of a block in use.
fn pin_occupant(table: &mut PageTable, block: u32) -> Result<(), Refusal>
    requires inside { block < length table.old.links }
    requires occupied { IsSome (slot_at table.old block) }
    ensures pinned { OnOk result ((s : Slot) → slot_at table.old block ≡ Some s → (p : PageState) × Pinned s.page p × (table.new ≡ with_slot table.old block (Some (record s { page = p })))) }
    ensures kept { OnErr result (table.new ≡ table.old) }
{
    table.occupant_mut(block).pin()
}

// Puts a page of this number into a block, if the block is empty and the number new.
fn put(rt: &impl Abort, table: &mut PageTable, block: u32, id: PageId)
    requires { block < length table.old.links }
    ensures { table.new ≡ with_slot table.old block (Some (fresh_slot table.old.order id)) }
{
    assert!(rt; table.page(block).is_none());
    match table.block_of(id) {
        None => table.place(block, id),
        Some(_) => panic!(rt; "a number in use"),
    }
}

// The pair of an index after it was set, of any table.
fn pair_after<T: LinkTable>(table: &mut T, i: u32, link: Link) -> Link
    requires { i < length (T.links table.old) }
    ensures value { result ≡ link }
    ensures size { length (T.links table.new) ≡ length (T.links table.old) }
    ensures accesses { T.accesses table.new ≡ T.accesses table.old + 2 }
    ensures rest { T.same_rest table.old table.new }
{
    table.set_link(i, link);
    table.link(i)
}

// A new table of four blocks has no page, and one that is placed is found by its number.
fn expect_found(rt: &impl Abort, table: &mut PageTable)
    requires { length table.old.links ≡ 4 }
{
    expect_equal(rt, table.len(), 4);
    put(rt, table, 2, PageId(0));
    expect_equal(rt, table.block_of(PageId(0)), Some(2));
}

#[test]
fn limits_and_constructors(rt: HostRuntime) -> Result<(), Fail> {
    expect_found(&rt, &mut PageTable::new(rt.alloc(), 4, 9)?);
    Ok(())
}

// A page of this number is placed in block 2, on no list and without pins.
fn page_comes(rt: &impl Abort, table: &mut PageTable, id: PageId)
    requires size { length table.old.links ≡ 4 }
    requires slots { length table.old.slots ≡ 4 }
    ensures size { length table.new.links ≡ 4 }
    ensures slots { length table.new.slots ≡ 4 }
    ensures occupied { IsSome (slot_at table.new 2) }
{
    put(rt, table, 2, id);
    expect_equal(rt, table.standing(2), Standing::Nowhere);
    expect_equal(rt, pins_at(table, 2), 0);
}

// The page of block 2 is pinned, and moves into a batch.
fn page_moves(rt: &impl Abort, table: &mut PageTable)
    requires size { length table.old.links ≡ 4 }
    requires slots { length table.old.slots ≡ 4 }
    requires occupied { IsSome (slot_at table.old 2) }
    ensures size { length table.new.links ≡ 4 }
    ensures slots { length table.new.slots ≡ 4 }
    ensures occupied { IsSome (slot_at table.new 2) }
{
    expect_equal(rt, pin_at(table, 2), Ok(()));
    expect_equal(rt, pin_occupant(table, 2), Ok(()));
    table.set_standing(2, Standing::Batch(5));
    expect_equal(rt, (pins_at(table, 2), table.occupant(2).pins()), (2, 2));
    expect_equal(rt, table.standing(2), Standing::Batch(5));
}

// The page of block 2, which has this number, is removed.
fn page_goes(rt: &impl Abort, table: &mut PageTable, id: PageId)
    requires size { length table.old.links ≡ 4 }
    requires slots { length table.old.slots ≡ 4 }
    requires occupied { IsSome (slot_at table.old 2) }
    ensures size { length table.new.links ≡ 4 }
    ensures slots { length table.new.slots ≡ 4 }
{
    expect_equal(rt, table.number(2), id);
    table.clear(2);
    let is_empty = table.page(2).is_none();
    expect_equal(rt, (table.block_of(id), is_empty), (None, true));
}

// A page is placed, pinned, moved between lists and taken away, and its block's pair stays.
fn come_and_go(rt: &impl Abort, table: &mut PageTable)
    requires size { length table.old.links ≡ 4 }
    requires slots { length table.old.slots ≡ 4 }
{
    let link = Link { prev: 3, next: 0 };
    expect_equal(rt, pair_after(table, 2, link), link);
    let alone = Link {
        prev: NIL,
        next: NIL,
    };
    expect_equal(rt, table.link(1), alone);
    expect_equal(rt, (table.peek_next(2), table.peek_next(1)), (0, NIL));
    page_comes(rt, table, PageId(7));
    page_moves(rt, table);
    expect_equal(rt, table.link(2), link);
    page_goes(rt, table, PageId(7));
    expect_equal(rt, table.link(2), link);
    page_comes(rt, table, PageId(8));
}

#[test]
fn page_comes_and_goes(rt: HostRuntime) -> Result<(), Fail> {
    come_and_go(&rt, &mut PageTable::new(rt.alloc(), 4, 9)?);
    Ok(())
}

// A page comes into each block, with numbers that all share their low bits.
fn fill_alike(rt: &impl Abort, table: &mut PageTable)
    requires { length table.old.links ≡ 20000 }
{
    for block in 0..20_000 {
        put(rt, table, block, PageId(block as u64 * 65_536));
    }
}

// Each of these numbers is found, and no other.
fn expect_alike(rt: &impl Abort, table: &PageTable) {
    for block in 0..20_000 {
        let number = block as u64 * 65_536;
        expect_equal(rt, table.block_of(PageId(number)), Some(block));
        expect_equal(rt, table.block_of(PageId(number + 1)), None);
        expect_equal(rt, table.block_of(PageId(u64::MAX - number)), None);
    }
}

fn find_alike(rt: &impl Abort, table: &mut PageTable)
    requires { length table.old.links ≡ 20000 }
{
    fill_alike(rt, table);
    expect_alike(rt, table);
}

#[test]
fn numbers_alike_are_found(rt: HostRuntime) -> Result<(), Fail> {
    find_alike(&rt, &mut PageTable::new(rt.alloc(), 20_000, 2)?);
    Ok(())
}

// Empties a block in use, or puts a page of this number into it unless another block has one. Returns whether that block has the
// page now.
fn change(table: &mut PageTable, block: u32, id: PageId) -> bool
    requires { block < length table.old.links }
    ensures { length table.new.links ≡ length table.old.links }
{
    if table.page(block).is_some() {
        table.clear(block);
        return false;
    }
    match table.block_of(id) {
        None => {
            table.place(block, id);
            true
        }
        Some(_) => false,
    }
}

// The number of the page of a block, if it has one.
fn number_at(table: &PageTable, block: u32) -> Option<PageId>
    requires { block < length table.now.links }
{
    match table.page(block) {
        Some((id, _)) => Some(id),
        None => None,
    }
}

// The first block that holds this number.
fn holder(held: &[Option<PageId>; 64], id: PageId) -> Option<u32> {
    for block in 0..64u32 {
        if held[block as usize] == Some(id) {
            return Some(block);
        }
    }
    None
}

// The pages of 64 blocks come and go, with numbers that share many of their bits. Each time the table finds what it holds.
fn change_often(rt: &impl Abort, table: &mut PageTable)
    requires { length table.old.links ≡ 64 }
{
    let mut held = [None; 64];
    let mut random = 1u64;
    for _step in 0..30_000u32 {
        random = random
            .wrapping_mul(6_364_136_223_846_793_005)
            .wrapping_add(1);
        let block = (random >> 33) as u32 % 64;
        let id = PageId((random >> 40) % 3 * 8192 + (random >> 45) % 64 * 65_536);
        let there = change(table, block, id);
        held[block as usize] = if there { Some(id) } else { None };
        if let Some(id) = held[(random >> 50) as usize % 64] {
            expect_equal(rt, table.block_of(id), holder(&held, id));
        }
    }
    for block in 0..64u32 {
        expect_equal(rt, number_at(table, block), held[block as usize]);
    }
}

#[test]
fn pages_come_and_go_often(rt: HostRuntime) -> Result<(), Fail> {
    change_often(&rt, &mut PageTable::new(rt.alloc(), 64, 2)?);
    Ok(())
}

// A table of the most blocks that a node may have, two of which are used.
fn use_two(rt: &impl Abort, table: &mut PageTable)
    requires { length table.old.links ≡ 16777216 }
{
    put(rt, table, 0, PageId(5));
    put(rt, table, 1, PageId(6));
    expect_equal(rt, table.len(), 16_777_216);
    expect_equal(rt, table.block_of(PageId(6)), Some(1));
    expect_equal(rt, table.block_of(PageId(7)), None);
}

#[test]
fn most_blocks(rt: HostRuntime) -> Result<(), Fail> {
    use_two(&rt, &mut PageTable::new(rt.alloc(), 16_777_216, 9)?);
    Ok(())
}

// No call on a queue of pages walks it.
#[test]
fn accesses_counted(rt: HostRuntime) -> Result<(), Fail> {
    calls_counted(&rt, PageTable::new(rt.alloc(), 3, 2)?, 1);
    calls_counted(&rt, PageTable::new(rt.alloc(), 4096, 2)?, 2048);
    Ok(())
}
