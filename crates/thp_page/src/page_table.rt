//! The table of page descriptors: a link pair for each block of a node, and a page for each block in use.
ghost use Rattle.std.specs.Prelude.{◌≡◌, ◌<◌, ◌≤◌, ℕ, ◌+◌, ◌-◌, ◌++◌, length, replicate, slice_get, vec_capacity, IsSome, IfOk, IfSome, IfNone, Option, Some, None};
ghost use Rattle.std.specs.Option.{option_map, option_copied_mut};
ghost use Rattle.thp_history.specs.Prelude.{max_order, min_order, IsFresh};
ghost use Rattle.thp_page.specs.Descriptors.{blank_descriptor};
ghost use Rattle.thp_page.specs.Fresh.{fresh_page};
ghost use Rattle.thp_page.specs.Table.{Slot};
ghost use Rattle.thp_page.specs.Slots.{slot_at, with_slot, fresh_slot, number_in, page_in, stood, HoldsPage};

use crate::page::Page;
use crate::page_numbers::PageNumbers;
use crate::standing::Standing;
use std::alloc::{AllocError, Global};
use std::marker::Model;
use thp_history::PageId;
use thp_links::{AccessCount, Link, LinkTable, NIL};

// The pair of a block that was never linked.
const NO_LINK: Link = Link {
    prev: NIL,
    next: NIL,
};

// What the table stores for a block, in use or not. An empty block keeps the contents of its last page.
#[derive(Drop)]
struct Descriptor {
    link: Link,
    standing: Standing,
    page: Page,
}

/// The page descriptors of a node, by block. All memory is reserved by [`new`](PageTable::new), and the system provides it as
/// blocks are used for the first time.
#[derive(Drop)]
pub struct PageTable {
    order: u32,
    blocks: u32,
    // A block is in use exactly if it has a number.
    numbers: PageNumbers,
    // The descriptors up to the highest block used so far; those of the blocks above it are blank.
    descriptors: Vec<Descriptor>,
    accesses: AccessCount,
}

impl Model for PageTable {
    ghost use Rattle.std.specs.Prelude.{vec_capacity};
    ghost use Rattle.thp_page.specs.Table.{Table};
    ghost use Rattle.thp_page.specs.Descriptors.{descriptors_of, links_of, slots_of, IsSized};

    ghost Value = { Table };

    ghost view = { λ t. record {
      order = t.order;
      links = links_of (descriptors_of t.order t.blocks t.descriptors.items);
      slots = slots_of t.numbers (descriptors_of t.order t.blocks t.descriptors.items);
      accesses = t.accesses;
    } };

    ghost invariant = { λ t. IsSized t.order t.blocks (vec_capacity t.descriptors) t.numbers t.descriptors.items };
}

impl Descriptor {
    ghost use Rattle.std.specs.Borrow.{sem};
    ghost use Rattle.std.specs.Prelude.{cond};
    ghost use Rattle.thp_page.specs.Lending.{lends_own_page};

    // The page, if the block is in use.
    fn page_mut(&mut self, taken: bool) -> Option<&mut Page>
        ensures* writes_back { sem 𝓛 (lends_own_page self.entry result) }
        ensures value { option_copied_mut result ≡ cond taken (Some self.old.page) None }
    {
        if taken { Some(&mut self.page) } else { None }
    }
}

// The descriptor of a block that was never used.
fn blank(order: u32) -> Descriptor
    requires least { min_order ≤ order }
    requires most { order ≤ max_order }
    ensures { result ≡ blank_descriptor order }
{
    Descriptor {
        link: NO_LINK,
        standing: Standing::Nowhere,
        page: Page::fresh(order),
    }
}

// Appends blank descriptors up to that of the block, if there are fewer.
#[inline(always)]
fn reach(descriptors: &mut Vec<Descriptor>, order: u32, block: u32)
    requires least { min_order ≤ order }
    requires most { order ≤ max_order }
    requires room { block < vec_capacity descriptors.old }
    ensures blank { descriptors.new.items ≡ descriptors.old.items ++ replicate (block + 1 - length descriptors.old.items) (blank_descriptor order) }
    ensures capacity { vec_capacity descriptors.new ≡ vec_capacity descriptors.old }
{
    if block as usize >= descriptors.len() {
        extend(descriptors, order, block);
    }
}

// The same where the block has no descriptor.
#[inline(never)]
fn extend(descriptors: &mut Vec<Descriptor>, order: u32, block: u32)
    requires least { min_order ≤ order }
    requires most { order ≤ max_order }
    requires room { block < vec_capacity descriptors.old }
    requires absent { length descriptors.old.items ≤ block }
    ensures blank { descriptors.new.items ≡ descriptors.old.items ++ replicate (block + 1 - length descriptors.old.items) (blank_descriptor order) }
    ensures capacity { vec_capacity descriptors.new ≡ vec_capacity descriptors.old }
{
    while descriptors.len() <= block as usize {
        descriptors.push_reserved(blank(order));
    }
}

impl PageTable {
    ghost use Rattle.std.specs.Borrow.{sem};
    ghost use Rattle.thp_page.specs.Lending.{lends_occupant, lends_page};

    /// Creates a table of `blocks` empty blocks, for pages of `2 ^ order` subpages. Reserves all memory that the table will ever
    /// use, and fails if it can't be reserved. Touches none of a block's memory before the block is used.
    pub fn new(alloc: Global, blocks: u32, order: u32) -> Result<PageTable, AllocError>
        requires least { min_order ≤ order }
        requires most { order ≤ max_order }
        ensures order { IfOk result (λ t. t.order ≡ order) }
        ensures size { IfOk result (λ t. length t.links ≡ blocks) }
        ensures empty { IfOk result (λ t. t.slots ≡ replicate blocks None) }
        ensures accesses { IfOk result (λ t. t.accesses ≡ 0) }
    {
        Ok(PageTable {
            order,
            blocks,
            numbers: PageNumbers::new(alloc, blocks)?,
            descriptors: Vec::with_capacity(alloc, blocks as usize)?,
            accesses: AccessCount::new(),
        })
    }

    /// Returns the block of the page with this number, or `None` if no block holds it.
    pub fn block_of(&self, id: PageId) -> Option<u32>
        ensures found { IfSome result (λ b. HoldsPage (slot_at self.now b) id) }
        ensures inside { IfSome result (λ b. b < length self.now.links) }
        ensures absent { IfNone result ((b : ℕ) → HoldsPage (slot_at self.now b) id → ⊥) }
    {
        self.numbers.block_of(id)
    }

    /// Returns the page of a block and its number, or `None` if the block is empty.
    pub fn page(&self, block: u32) -> Option<(PageId, &Page)>
        requires inside { block < length self.now.links }
        ensures number { option_map (λ r. r.0) result ≡ number_in (slot_at self.now block) }
        ensures page { option_map (λ r. r.1.now) result ≡ page_in (slot_at self.now block) }
    {
        let id = self.numbers.at(block)?;
        Some((id, &self.descriptors[block as usize].page))
    }

    /// Returns the page of a block for changes, or `None` if the block is empty.
    pub fn page_mut(&mut self, block: u32) -> Option<&mut Page>
        requires inside { block < length self.old.links }
        ensures* writes_back { sem 𝓛 (lends_page self.entry block result) }
        ensures value { option_copied_mut result ≡ page_in (slot_at self.old block) }
    {
        let taken = self.numbers.at(block).is_some();
        if !taken {
            return None;
        }
        self.descriptors[block as usize].page_mut(taken)
    }

    /// Returns the page of a block in use.
    pub fn occupant(&self, block: u32) -> &Page
        requires inside { block < length self.now.links }
        requires occupied { IsSome (slot_at self.now block) }
        ensures { IfSome (slot_at self.now block) (λ s. result.now ≡ s.page) }
    {
        &self.descriptors[block as usize].page
    }

    /// Returns the page of a block in use for changes.
    pub fn occupant_mut(&mut self, block: u32) -> &mut Page
        requires inside { block < length self.old.links }
        requires occupied { IsSome (slot_at self.old block) }
        ensures* writes_back { sem 𝓛 (lends_occupant self.entry block result) }
        ensures value { Some result.now ≡ page_in (slot_at self.old block) }
    {
        &mut self.descriptors[block as usize].page
    }

    /// Returns the number of the page of a block in use.
    pub fn number(&self, block: u32) -> PageId
        requires inside { block < length self.now.links }
        requires occupied { IsSome (slot_at self.now block) }
        ensures { IfSome (slot_at self.now block) (λ s. result ≡ s.id) }
    {
        self.numbers.number(block)
    }

    /// Places a new page with this number in an empty block. The page is on no list.
    pub fn place(&mut self, block: u32, id: PageId)
        requires inside { block < length self.old.links }
        requires empty { slot_at self.old block ≡ None }
        requires new { (b : ℕ) → HoldsPage (slot_at self.old b) id → ⊥ }
        ensures table { self.new ≡ with_slot self.old block (Some (fresh_slot self.old.order id)) }
        ensures fresh { IsFresh self.old.order (fresh_page self.old.order) }
    {
        reach(&mut self.descriptors, self.order, block);
        let descriptor = &mut self.descriptors[block as usize];
        descriptor.standing = Standing::Nowhere;
        descriptor.page.renew(self.order);
        self.numbers.place(block, id);
    }

    /// Empties a block that is in use.
    pub fn clear(&mut self, block: u32)
        requires inside { block < length self.old.links }
        requires occupied { IsSome (slot_at self.old block) }
        ensures { self.new ≡ with_slot self.old block None }
    {
        self.numbers.clear(block);
    }

    /// Returns the list that the page of a block is on.
    pub fn standing(&self, block: u32) -> Standing
        requires inside { block < length self.now.links }
        requires occupied { IsSome (slot_at self.now block) }
        ensures { IfSome (slot_at self.now block) (λ s. result ≡ s.standing) }
    {
        self.descriptors[block as usize].standing
    }

    /// Sets the list that the page of a block is on.
    pub fn set_standing(&mut self, block: u32, standing: Standing)
        requires inside { block < length self.old.links }
        requires occupied { IsSome (slot_at self.old block) }
        ensures { self.new ≡ with_slot self.old block (stood (slot_at self.old block) standing) }
    {
        self.descriptors[block as usize].standing = standing;
    }

    /// Returns the block after this one on its list, or `NIL`, without counting an access: for reports.
    pub fn peek_next(&self, block: u32) -> u32
        requires { block < length self.now.links }
        ensures { IfSome (slice_get self.now.links block) (λ l. result ≡ l.next) }
    {
        if block as usize >= self.descriptors.len() {
            return NIL;
        }
        self.descriptors[block as usize].link.next
    }
}

impl LinkTable for PageTable {
    ghost use Rattle.std.proofs.Common.{refl, ◌∙◌};
    ghost use Rattle.thp_page.specs.Table.{SameSlots};

    ghost links = { λ t. t.links };

    ghost accesses = { λ t. t.accesses };

    ghost same_rest = { SameSlots };

    fn len(&self) -> u32 {
        self.blocks
    }

    fn link(&mut self, i: u32) -> Link {
        self.accesses.step();
        if i as usize >= self.descriptors.len() {
            return NO_LINK;
        }
        self.descriptors[i as usize].link
    }

    fn set_link(&mut self, i: u32, link: Link) {
        self.accesses.step();
        reach(&mut self.descriptors, self.order, i);
        self.descriptors[i as usize].link = link;
    }

    ghost same_rest_refl = { λ t. record { order = refl; slots = refl } };

    ghost same_rest_trans = { λ a b c p q. record { order = q.order ∙ p.order; slots = q.slots ∙ p.slots } };
}
