//! The trees by which the block of a page's number is found.
ghost use Rattle.std.specs.Prelude.{◌≡◌, ◌≢◌, ◌<◌, ◌≤◌, ◌+◌, ◌*◌, ◌/◌, ◌++◌, ◌^◌, ℕ, [], ◌∷◌, length, slice_index_or, slice_set, vec_capacity, IfOk, IfSome, IfNone, IsSome, Some, None};
ghost use Rattle.thp_links.specs.declared.link.TheConstants.{NIL};
ghost use Rattle.thp_page.specs.declared.number_trees.Place.{Place};
ghost use Rattle.thp_page.specs.declared.number_trees.Place.TheVariants.{Child};
ghost use Rattle.thp_page.specs.Searching.{bucket_in, depth_in, block_in, number_at, HasTreeRoom, HasPlace, IsLeafBelow, IsParted, IsPlaceOf, IsReplaced, IsSearchable, IsTakenOver};

use std::alloc::{AllocError, Global};
use thp_history::PageId;
use thp_links::NIL;

// The number of buckets before any block is used, and of the low bits that give them.
const FIRST_BUCKETS: usize = 8192;

const FIRST_BITS: u32 = 13;

// Where a block hangs: as the root of this bucket, or as this child. Child `2 * b` is the left one of block b, and child
// `2 * b + 1` the right one.
#[derive(Clone, Copy)]
pub(crate) enum Place {
    Root(usize),
    Child(usize),
}

// The numbers of the pages of a table, by block, and a search tree for each bucket of numbers. Numbers of one bucket have their
// low bits in common, and blocks below one of a tree one bit more with each step down: the bit decides between left and right.
#[derive(Drop)]
pub(crate) struct NumberTrees {
    pub(crate) numbers: Vec<Option<PageId>>,
    // For each block its two children, or `NIL`.
    children: Vec<u32>,
    // For each bucket its root, or `NIL`.
    roots: Vec<u32>,
    // Buckets differ by this number of low bits, and those that were split by one bit more.
    bits: u32,
    // The mask of `bits + 1` low bits.
    mask: u64,
}

impl NumberTrees {
    // Trees for this many blocks, none of which is there yet.
    pub(crate) fn new(alloc: Global, blocks: u32) -> Result<NumberTrees, AllocError>
        ensures empty { IfOk result (λ t. t.numbers.items ≡ []) }
        ensures searchable { IfOk result (λ t. IsSearchable t) }
        ensures room { IfOk result (λ t. HasTreeRoom blocks t) }
    {
        let mut roots = Vec::with_capacity(alloc, FIRST_BUCKETS + 2 * blocks as usize)?;
        for _bucket in 0..FIRST_BUCKETS {
            roots.push_reserved(NIL);
        }
        Ok(NumberTrees {
            numbers: Vec::with_capacity(alloc, blocks as usize)?,
            children: Vec::with_capacity(alloc, 2 * blocks as usize)?,
            roots,
            bits: FIRST_BITS - 1,
            mask: FIRST_BUCKETS as u64 - 1,
        })
    }

    // The bucket of a number.
    #[inline(always)]
    fn bucket_of(&self, id: PageId) -> usize
        requires { IsSearchable self.now }
        ensures value { result ≡ bucket_in self.now.bits (length self.now.roots.items) id }
        ensures inside { result < length self.now.roots.items }
    {
        let low = (id.0 & self.mask) as usize;
        if low < self.roots.len() {
            low
        } else {
            (id.0 & (self.mask >> 1)) as usize
        }
    }

    // The number of low bits that the numbers of a bucket have in common.
    fn depth_of(&self, bucket: usize) -> u32
        requires searchable { IsSearchable self.now }
        requires inside { bucket < length self.now.roots.items }
        ensures value { result ≡ depth_in self.now.bits (length self.now.roots.items) bucket }
        ensures most { result ≤ 64 }
    {
        let half = (self.mask >> 1) as usize + 1;
        if bucket + half < self.roots.len() || bucket >= half {
            self.bits + 1
        } else {
            self.bits
        }
    }

    // The block at a place, or `NIL`.
    fn block_at(&self, place: Place) -> u32
        requires { HasPlace self.now place }
        ensures { result ≡ block_in self.now place }
    {
        match place {
            Place::Root(bucket) => self.roots[bucket],
            Place::Child(child) => self.children[child],
        }
    }

    // Hangs a block, or `NIL`, at a place.
    fn set(&mut self, place: Place, block: u32)
        requires { HasPlace self.old place }
        ensures { IsReplaced self.old self.new place block }
    {
        match place {
            Place::Root(bucket) => self.roots[bucket] = block,
            Place::Child(child) => self.children[child] = block,
        }
    }

    // The place of the block with this number, or the one at which such a block has to be hung.
    fn place_of(&self, id: PageId) -> Place
        requires { IsSearchable self.now }
        ensures { IsPlaceOf self.now id result }
    {
        let bucket = self.bucket_of(id);
        let mut place = Place::Root(bucket);
        let mut block = self.roots[bucket];
        for depth in self.depth_of(bucket)..64 {
            if block == NIL {
                return place;
            }
            if self.numbers[block as usize] == Some(id) {
                return place;
            }
            let child = 2 * block as usize + (id.0 >> depth & 1) as usize;
            place = Place::Child(child);
            block = self.children[child];
        }
        place
    }

    // The block with this number, if any. In the usual case it is its bucket's root.
    #[inline(always)]
    pub(crate) fn block_of(&self, id: PageId) -> Option<u32>
        requires { IsSearchable self.now }
        ensures found { IfSome result (λ b. number_at self.now b ≡ Some id) }
        ensures absent { IfNone result ((b : ℕ) → number_at self.now b ≢ Some id) }
    {
        let root = self.roots[self.bucket_of(id)];
        if root == NIL {
            return None;
        }
        if self.numbers[root as usize] == Some(id) {
            return Some(root);
        }
        self.search(id)
    }

    // The same in all cases.
    #[inline(never)]
    fn search(&self, id: PageId) -> Option<u32>
        requires { IsSearchable self.now }
        ensures found { IfSome result (λ b. number_at self.now b ≡ Some id) }
        ensures absent { IfNone result ((b : ℕ) → number_at self.now b ≢ Some id) }
    {
        let block = self.block_at(self.place_of(id));
        if block == NIL { None } else { Some(block) }
    }

    // Sets the number of a block that has none.
    pub(crate) fn place(&mut self, block: u32, id: PageId)
        requires searchable { IsSearchable self.old }
        requires inside { block < length self.old.numbers.items }
        requires empty { number_at self.old block ≡ None }
        requires new { (b : ℕ) → number_at self.old b ≢ Some id }
        ensures searchable { IsSearchable self.new }
        ensures numbers { self.new.numbers.items ≡ slice_set self.old.numbers.items block (Some id) }
        ensures room { (blocks : ℕ) → HasTreeRoom blocks self.old → HasTreeRoom blocks self.new }
        ensures buckets { length self.new.roots.items ≡ length self.old.roots.items }
    {
        let place = self.place_of(id);
        self.set(place, block);
        self.numbers[block as usize] = Some(id);
    }

    // A place with a leaf: that of the block at this place, or of one below it.
    fn leaf_below(&self, place: Place) -> Place
        requires searchable { IsSearchable self.now }
        requires inside { HasPlace self.now place }
        requires occupied { block_in self.now place ≢ NIL }
        ensures { IsLeafBelow self.now place result }
    {
        let mut leaf = place;
        for _depth in 0..64u32 {
            let left = 2 * self.block_at(leaf) as usize;
            if self.children[left] != NIL {
                leaf = Place::Child(left);
            } else if self.children[left + 1] != NIL {
                leaf = Place::Child(left + 1);
            } else {
                return leaf;
            }
        }
        leaf
    }

    // Clears the number of a block. A leaf below the block, if any, takes its place.
    pub(crate) fn clear(&mut self, block: u32, id: PageId)
        requires searchable { IsSearchable self.old }
        requires taken { number_at self.old block ≡ Some id }
        ensures searchable { IsSearchable self.new }
        ensures numbers { self.new.numbers.items ≡ slice_set self.old.numbers.items block None }
        ensures room { (blocks : ℕ) → HasTreeRoom blocks self.old → HasTreeRoom blocks self.new }
    {
        let place = self.place_of(id);
        let end = self.leaf_below(place);
        let leaf = self.block_at(end);
        self.set(end, NIL);
        if leaf != block {
            self.replace(place, block, leaf);
        }
        self.numbers[block as usize] = None;
    }

    // Hangs a block without children in place of another one, and that one's children below it.
    fn replace(&mut self, place: Place, block: u32, other: u32)
        requires searchable { length self.old.children.items ≡ 2 * length self.old.numbers.items }
        requires inside { HasPlace self.old place }
        requires block { block < length self.old.numbers.items }
        requires other { other < length self.old.numbers.items }
        requires apart { block ≢ other }
        requires outside { (i : ℕ) → place ≡ Child i → (i / 2 ≢ block) × (i / 2 ≢ other) }
        ensures { IsTakenOver self.old self.new place block other }
    {
        let from = 2 * block as usize;
        let to = 2 * other as usize;
        self.children[to] = self.children[from];
        self.children[to + 1] = self.children[from + 1];
        self.children[from] = NIL;
        self.children[from + 1] = NIL;
        self.set(place, other);
    }

    // Adds a block without a number, of so many, and splits buckets as long as they are fewer than twice as many as blocks.
    pub(crate) fn push(&mut self, blocks: u32)
        requires searchable { IsSearchable self.old }
        requires room { HasTreeRoom blocks self.old }
        requires fewer { length self.old.numbers.items < blocks }
        ensures searchable { IsSearchable self.new }
        ensures numbers { self.new.numbers.items ≡ self.old.numbers.items ++ None ∷ [] }
        ensures room { HasTreeRoom blocks self.new }
    {
        self.add(blocks);
        self.split_if_few(blocks);
        self.split_if_few(blocks);
    }

    // Splits the next bucket if there are fewer than twice as many as blocks.
    fn split_if_few(&mut self, blocks: u32)
        requires searchable { IsSearchable self.old }
        requires room { HasTreeRoom blocks self.old }
        ensures searchable { IsSearchable self.new }
        ensures numbers { self.new.numbers.items ≡ self.old.numbers.items }
        ensures room { HasTreeRoom blocks self.new }
    {
        if self.roots.len() < 2 * self.numbers.len() {
            self.deepen();
            self.split(blocks);
        }
    }

    // Adds a block without a number, of so many.
    fn add(&mut self, blocks: u32)
        requires searchable { IsSearchable self.old }
        requires room { HasTreeRoom blocks self.old }
        requires fewer { length self.old.numbers.items < blocks }
        ensures searchable { IsSearchable self.new }
        ensures numbers { self.new.numbers.items ≡ self.old.numbers.items ++ None ∷ [] }
        ensures room { HasTreeRoom blocks self.new }
    {
        self.numbers.push_reserved(None);
        self.children.push_reserved(NIL);
        self.children.push_reserved(NIL);
    }

    // Counts one bit more for all buckets once all have been split.
    fn deepen(&mut self)
        requires searchable { IsSearchable self.old }
        requires few { length self.old.roots.items < 2 ^ 33 }
        ensures searchable { IsSearchable self.new }
        ensures below { length self.new.roots.items ≤ self.new.mask }
        ensures numbers { self.new.numbers ≡ self.old.numbers }
        ensures children { self.new.children ≡ self.old.children }
        ensures roots { self.new.roots ≡ self.old.roots }
    {
        if self.roots.len() as u64 > self.mask {
            self.bits += 1;
            self.mask = 2 * self.mask + 1;
        }
    }

    // Splits the next bucket by one bit more.
    fn split(&mut self, blocks: u32)
        requires searchable { IsSearchable self.old }
        requires below { length self.old.roots.items ≤ self.old.mask }
        requires room { HasTreeRoom blocks self.old }
        requires few { length self.old.roots.items < 2 * blocks }
        ensures searchable { IsSearchable self.new }
        ensures numbers { self.new.numbers.items ≡ self.old.numbers.items }
        ensures room { HasTreeRoom blocks self.new }
    {
        let bucket = self.roots.len() - 1 - (self.mask >> 1) as usize;
        let root = self.roots[bucket];
        if root == NIL {
            self.roots.push_reserved(NIL);
            return;
        }
        let Some(id) = self.numbers[root as usize] else {
            unreachable!()
        };
        self.numbers[root as usize] = None;
        self.part(bucket, root);
        self.place(root, id);
    }

    // Makes the children of a root the roots of its bucket and of a new one.
    fn part(&mut self, bucket: usize, root: u32)
        requires bucket { bucket < length self.old.roots.items }
        requires root { root < length self.old.numbers.items }
        requires both { length self.old.children.items ≡ 2 * length self.old.numbers.items }
        requires room { length self.old.roots.items < vec_capacity self.old.roots }
        ensures { IsParted self.old self.new bucket root }
    {
        let left = 2 * root as usize;
        let right = self.children[left + 1];
        self.roots[bucket] = self.children[left];
        self.roots.push_reserved(right);
        self.children[left] = NIL;
        self.children[left + 1] = NIL;
    }
}
