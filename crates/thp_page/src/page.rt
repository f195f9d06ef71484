//! One page: its map counts, its pins, whether it is split, and which of its subpages are zero-filled.
ghost use Rattle.std.specs.Prelude.{◌≡◌, ◌+◌, ◌<◌, ◌≤◌, true, false, not, ◌&&◌, ◌||◌, cond, nat_eq, nat_lt, length, Option, None};
ghost use Rattle.thp_history.specs.Prelude.{max_order, max_subpages, min_order, size, own_at, total_at, zero_at, holds, used_set, has_use, zero_set, zero_count, is_split_candidate, gives_frames, some_in_range, IsFresh, PageSplit, set_of, has, most};
ghost use Rattle.thp_page.specs.Fresh.{fresh_page};

mod calls;

use crate::map_counts::MapCounts;
use std::marker::Model;
use thp_history::SubSet;

/// The effect of an unmap on the use of its page.
#[derive(Clone, Copy, PartialEq, Eq, Debug)]
pub struct Change {
    /// A subpage that was in use no longer is.
    pub unused: bool,
    /// A subpage is still in use.
    pub used_left: bool,
    /// The subpages whose frames were given back, if the page is split.
    pub released: SubSet,
}

impl Change {
    /// Returns no change: nothing in use before or after, and no frame given back.
    pub fn none() -> Change
        ensures { result ≡ record { unused = false; used_left = false; released = set_of (λ i. false) } }
    {
        Change {
            unused: false,
            used_left: false,
            released: SubSet::empty(),
        }
    }
}

/// The map counts, the pins, the split state and the zero-filled subpages of one page.
///
/// A mapping of the whole page by a PMD entry counts in `whole`, and one of a subpage by a PTE entry in that subpage's own count.
/// A subpage is in use while either count is positive (mm/transhuge.rst, "Refcounts and transparent huge pages"; the separate
/// count for the whole page is this project's profile). A subpage is zero-filled from its allocation until data is written to it,
/// and again after zeros are written (admin-guide/mm/transhuge.rst, "shrink_underused"; that recorded writes decide it is this
/// project's profile). No call allocates memory, and none copies the counts.
#[derive(Drop)]
pub struct Page {
    // The page has `2 ^ order` subpages.
    order: u32,
    // The number of PMD entries that map the page.
    whole: u16,
    // The number of extra pins.
    pins: u16,
    // The page was split into base pages.
    split: bool,
    // An unmap removed a subpage's last mapping and left another subpage in use.
    partly: bool,
    // The split gave back the frames of the zero-filled subpages too.
    freed_zero_frames: bool,
    // The zero-filled subpages.
    zero: SubSet,
    // The number of PTE entries that map each subpage. No call reads beyond the page's last subpage.
    own: MapCounts,
}

impl Model for Page {
    ghost use Rattle.thp_history.specs.Prelude.{PageState};

    ghost Value = { PageState };

    ghost use Rattle.thp_page.specs.PageView.{state_of, FieldsAgree};

    ghost view = { state_of };

    ghost invariant = { FieldsAgree };
}

impl Page {
    ghost use Rattle.thp_page.specs.Changes.{IsChange, split_set};

    /// Returns a page that was just allocated: mapped whole once, with all subpages zero-filled.
    pub fn fresh(order: u32) -> Page
        requires least { min_order ≤ order }
        requires most { order ≤ max_order }
        ensures fresh { IsFresh order result }
        ensures state { result ≡ fresh_page order }
    {
        Page {
            order,
            whole: 1,
            pins: 0,
            split: false,
            partly: false,
            freed_zero_frames: false,
            zero: SubSet::full(order),
            own: MapCounts::none(),
        }
    }

    // Turns a freed page into one that was just allocated. The counts are reset in place.
    pub(crate) fn renew(&mut self, order: u32)
        requires least { min_order ≤ order }
        requires most { order ≤ max_order }
        ensures fresh { IsFresh order self.new }
        ensures state { self.new ≡ fresh_page order }
    {
        self.order = order;
        self.whole = 1;
        self.pins = 0;
        self.split = false;
        self.partly = false;
        self.freed_zero_frames = false;
        self.zero = SubSet::full(order);
        self.own.clear();
    }

    /// Splits the page into base pages, and returns the subpages whose frames that gives back.
    ///
    /// Each base page keeps all its mappings as its own. The subpages that are not in use give their frames back
    /// (mm/transhuge.rst, "Partial unmap and deferred_split_huge_page()"), and so do the zero-filled ones if `give_zero` is true.
    /// The mappings of those remain, as mappings of the shared zero page.
    pub fn split(&mut self, give_zero: bool) -> SubSet
        requires whole { self.old.split ≡ false }
        requires unpinned { self.old.pins ≡ 0 }
        ensures counts { PageSplit give_zero self.old self.new }
        ensures given { result ≡ split_set give_zero self.old }
        ensures released { result ≡ gives_frames self.old self.new }
    {
        let subpages = SubSet::full(self.order);
        let unused = if self.whole == 0 {
            subpages.difference(self.own.mapped())
        } else {
            SubSet::empty()
        };
        self.own.add(subpages, self.whole);
        self.whole = 0;
        self.split = true;
        self.freed_zero_frames = give_zero;
        if give_zero {
            unused.union(self.zero)
        } else {
            unused
        }
    }

    /// Returns the page's order.
    pub fn order(&self) -> u32
        ensures value { result ≡ self.now.order }
        ensures most { result ≤ max_order }
    {
        self.order
    }

    /// Returns whether subpage `i` is in use; `false` beyond the page's last subpage.
    pub fn in_use(&self, i: u32) -> bool
        ensures { result ≡ (nat_lt i (size self.now) && nat_lt 0 (total_at self.now i)) }
    {
        let i = i as usize;
        i < self.subpages() && (self.whole > 0 || self.own.is_mapped(i))
    }

    /// Returns whether some subpage is in use.
    #[inline(always)]
    pub fn has_use(&self) -> bool
        ensures { result ≡ has_use self.now }
    {
        self.whole > 0 || self.own.has_mapped()
    }

    /// Returns the subpages in use.
    pub fn in_use_set(&self) -> SubSet
        ensures { result ≡ used_set self.now }
    {
        if self.whole > 0 {
            SubSet::full(self.order)
        } else {
            self.own.mapped()
        }
    }

    /// Returns the zero-filled subpages.
    pub fn zero_set(&self) -> SubSet
        ensures { result ≡ zero_set self.now }
    {
        self.zero
    }

    /// Returns the number of zero-filled subpages.
    pub fn zero_count(&self) -> u32
        ensures { result ≡ zero_count self.now }
    {
        self.zero.count()
    }

    /// Returns whether the page is partly mapped: an unmap removed a subpage's last mapping and left another subpage in use.
    pub fn is_partly(&self) -> bool
        ensures { result ≡ self.now.partly }
    {
        self.partly
    }

    /// Returns whether the page is worth a split: it is partly mapped, or `threshold` is given and more subpages than that are
    /// zero-filled.
    pub fn is_split_candidate(&self, threshold: Option<u32>) -> bool
        ensures { result ≡ is_split_candidate threshold self.now }
    {
        self.partly || threshold.is_some_and(|threshold| self.zero_count() > threshold)
    }

    /// Returns the number of PMD entries that map the whole page.
    pub fn whole(&self) -> u32
        ensures { result ≡ self.now.whole }
    {
        u32::from(self.whole)
    }

    /// Returns the number of PTE entries that map subpage `i`; 0 beyond the page's last subpage.
    pub fn own(&self, i: u32) -> u32
        ensures { result ≡ cond (nat_lt i (size self.now)) (own_at self.now i) 0 }
    {
        let i = i as usize;
        if i < self.subpages() {
            self.own.count(i)
        } else {
            0
        }
    }

    /// Returns the number of extra pins, which prevent the page from being split.
    pub fn pins(&self) -> u32
        ensures { result ≡ self.now.pins }
    {
        u32::from(self.pins)
    }

    /// Returns whether the page was split into base pages.
    pub fn is_split(&self) -> bool
        ensures { result ≡ self.now.split }
    {
        self.split
    }

    // The number of the page's subpages.
    fn subpages(&self) -> usize
        ensures size { result ≡ size self.now }
        ensures most { result ≤ max_subpages }
    {
        1 << self.order
    }

    // Whether a range is empty or is not within the page.
    #[inline(always)]
    fn is_bad_range(&self, first: u32, count: u32) -> bool
        ensures { result ≡ (nat_eq count 0 || nat_lt (size self.now) (first + count)) }
    {
        let subpages = self.subpages() as u32;
        count == 0 || count > subpages || first > subpages - count
    }

    // Whether a subpage of the range is mapped as often as one can be.
    #[inline(always)]
    fn has_total_at_limit(&self, first: usize, count: usize) -> bool
        requires { first + count ≤ size self.now }
        ensures { result ≡ some_in_range self.now first count (λ i. nat_eq (total_at self.now i) most) }
    {
        self.own.has_count(first, count, u16::MAX - self.whole)
    }

    // Whether the frame of a subpage of the range was given back.
    fn has_gone_frame(&self, first: usize, count: usize) -> bool
        requires split { self.now.split ≡ true }
        requires inside { first + count ≤ size self.now }
        ensures { result ≡ some_in_range self.now first count (λ i. not (holds self.now i)) }
    {
        let given = self.freed_zero_frames && self.has_zero_filled(first, count);
        given || self.has_unmapped(first, count)
    }

    // Whether a subpage of the range has no mapping of its own.
    #[inline(always)]
    fn has_unmapped(&self, first: usize, count: usize) -> bool
        requires { first + count ≤ size self.now }
        ensures { result ≡ some_in_range self.now first count (λ i. nat_eq (own_at self.now i) 0) }
    {
        self.own.has_unmapped(first, count)
    }

    // Whether a subpage of the range is zero-filled.
    fn has_zero_filled(&self, first: usize, count: usize) -> bool
        requires { first + count ≤ size self.now }
        ensures { result ≡ some_in_range self.now first count (zero_at self.now) }
    {
        let zero = self.zero;
        let range = SubSet::range(first as u32, count as u32);
        !zero.intersection(range).is_empty()
    }

    // Whether a subpage of the range isn't in use.
    fn has_unused(&self, first: usize, count: usize) -> bool
        requires { first + count ≤ size self.now }
        ensures { result ≡ some_in_range self.now first count (λ i. nat_eq (total_at self.now i) 0) }
    {
        self.whole == 0 && self.has_unmapped(first, count)
    }

    // The subpages of a set that no PTE entry maps now, without those whose frames the page's split gave back as zero-filled.
    fn gone_since(&self, mapped: SubSet) -> SubSet
        ensures { result ≡ set_of (λ i. has mapped i && (nat_eq (own_at self.now i) 0 && not (self.now.freed_zero_frames && zero_at self.now i))) }
    {
        let unmapped = mapped.difference(self.own.mapped());
        if self.freed_zero_frames {
            unmapped.difference(self.zero)
        } else {
            unmapped
        }
    }
}
