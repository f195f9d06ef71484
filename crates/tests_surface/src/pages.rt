//! Pages and their table.
ghost use Rattle.std.specs.Prelude.{◌≡◌, ◌<◌, Some, length};
ghost use Rattle.thp_page.specs.Prelude.{fresh_slot, with_slot};

use std::process::Abort;
use std::test::Fail;
use thp_model::{PageId, Refusal, SubSet};
use thp_page::{Change, Page, PageTable, Standing};

// A page after calls that succeed here.
fn written() -> Result<Page, Refusal> {
    let mut page = Page::fresh(9);
    page.map_whole()?;
    let _change = page.unmap_whole()?;
    page.write(0, 2)?;
    page.zero(0, 1)?;
    page.split_pmd()?;
    Ok(page)
}

// The change of the last of its other calls.
fn changed() -> Result<Change, Refusal> {
    let mut page = written()?;
    page.map_sub(0, 1)?;
    page.pin()?;
    page.unpin()?;
    page.unmap_sub(3, 1)
}

// Whether a fresh page is read as it is.
fn is_fresh() -> bool {
    let page = Page::fresh(9);
    let used = page.in_use(511);
    let all = page.in_use_set() == SubSet::full(9) && page.zero_set() == SubSet::full(9);
    let counts = page.whole() == 1 && page.pins() == 0;
    used && all && counts && !page.is_split() && !page.is_partly()
}

// Whether the split of a fresh page gives its zero-filled subpages back.
fn gives_zero() -> bool {
    let mut page = Page::fresh(2);
    page.split(true) == SubSet::full(2)
}

// Places a page of this number in an empty block, if the number is new.
fn put(rt: &impl Abort, table: &mut PageTable, block: u32, id: PageId)
    requires { block < length table.old.links }
    ensures { table.new ≡ with_slot table.old block (Some (fresh_slot table.old.order id)) }
{
    assert!(rt; table.block_of(id) == None);
    assert!(rt; table.page(block).is_none());
    table.place(block, id);
}

#[test]
fn table(rt: HostRuntime) -> Result<(), Fail> {
    let mut table = PageTable::new(rt.alloc(), 4, 9)?;
    put(&rt, &mut table, 2, PageId(0));
    table.set_standing(2, Standing::Batch(1));
    assert!(rt; table.standing(2) == Standing::Batch(1));
    table.clear(2);
    assert!(rt; table.page_mut(2).is_none());
    Ok(())
}

#[test]
fn a_page(rt: HostRuntime) {
    let calls = changed();
    let unused = matches!(
        calls,
        Ok(Change {
            unused: true,
            used_left: true,
            ..
        })
    );
    assert!(rt; unused && is_fresh() && gives_zero());
}
