//! A call about one page as a value, and the event that it records.
ghost use Rattle.std.specs.Prelude.{◌≡◌, false};
ghost use Rattle.thp_history.specs.Sets.{set_of};
ghost use Rattle.thp_history.specs.PageCalls.{gain_what, loss_what, recorded_call};

use crate::events::{Outcome, PageId, What};
use crate::sub_set::SubSet;

/// A call that adds mappings or a pin, splits a PMD mapping, or fills subpages. The page stays on the list that it is on.
#[derive(Clone, Copy, PartialEq, Eq, Debug)]
pub enum Gain {
    /// Adds a mapping of the whole page.
    MapWhole,
    /// Adds a mapping of each of the `count` subpages from `first` on.
    MapSub { first: u32, count: u32 },
    /// Replaces a mapping of the whole page by one of each subpage.
    SplitPmd,
    /// Adds a pin.
    Pin,
    /// Writes data to each of the `count` subpages from `first` on.
    Write { first: u32, count: u32 },
    /// Writes zeros to each of the `count` subpages from `first` on.
    Zero { first: u32, count: u32 },
}

/// A call that removes mappings or a pin. It can queue or free the page.
#[derive(Clone, Copy, PartialEq, Eq, Debug)]
pub enum Loss {
    /// Removes a mapping of the whole page.
    UnmapWhole,
    /// Removes a mapping of each of the `count` subpages from `first` on.
    UnmapSub { first: u32, count: u32 },
    /// Removes a pin.
    Unpin,
}

/// A call about one page.
#[derive(Clone, Copy, PartialEq, Eq, Debug)]
pub enum PageCall {
    /// A call that keeps the page on its list.
    Gain(Gain),
    /// A call that can queue or free the page.
    Loss(Loss),
}

/// The result of an unmap or an unpin: its outcome, and the subpages whose frames it gave back.
#[derive(Clone, Copy, PartialEq, Eq, Debug)]
pub struct Done {
    /// What the call did to the page.
    pub outcome: Outcome,
    /// The subpages whose frames the call gave back.
    pub released: SubSet,
}

impl Done {
    /// Returns the result of a call without effect: the page stays, and no frame is given back.
    #[inline(always)]
    pub fn none() -> Done
        ensures { result ≡ record { outcome = Outcome.Stays; released = set_of (λ i. false) } }
    {
        Done {
            outcome: Outcome::Stays,
            released: SubSet::empty(),
        }
    }
}

impl Gain {
    /// Returns the event that this call records on `page`.
    #[inline(always)]
    pub fn what(self, page: PageId) -> What
        ensures { result ≡ gain_what self page }
    {
        match self {
            Gain::MapWhole => What::MapWhole { page },
            Gain::MapSub { first, count } => What::MapSub { page, first, count },
            Gain::SplitPmd => What::SplitPmd { page },
            Gain::Pin => What::Pin { page },
            Gain::Write { first, count } => What::Write { page, first, count },
            Gain::Zero { first, count } => What::Zero { page, first, count },
        }
    }
}

impl Loss {
    /// Returns the event that this call records on `page`.
    #[inline(always)]
    pub fn what(self, page: PageId, done: &Done) -> What
        ensures { result ≡ loss_what self page done.now.outcome done.now.released }
    {
        match self {
            Loss::UnmapWhole => What::UnmapWhole {
                outcome: done.outcome,
                page,
                released: done.released,
            },
            Loss::UnmapSub { first, count } => What::UnmapSub {
                outcome: done.outcome,
                page,
                first,
                count,
                released: done.released,
            },
            Loss::Unpin => What::Unpin {
                outcome: done.outcome,
                page,
                released: done.released,
            },
        }
    }
}

impl What {
    /// Returns the page and the call if the event is that of a call about one page.
    #[inline(always)]
    pub fn page_call(&self) -> Option<(PageId, PageCall)>
        ensures { result ≡ recorded_call self.now }
    {
        Some(match *self {
            What::MapWhole { page } => (page, PageCall::Gain(Gain::MapWhole)),
            What::UnmapWhole { page, .. } => (page, PageCall::Loss(Loss::UnmapWhole)),
            What::MapSub { page, first, count } => {
                (page, PageCall::Gain(Gain::MapSub { first, count }))
            }
            What::UnmapSub {
                page,
                first,
                count,
                ..
            } => (page, PageCall::Loss(Loss::UnmapSub { first, count })),
            What::SplitPmd { page } => (page, PageCall::Gain(Gain::SplitPmd)),
            What::Pin { page } => (page, PageCall::Gain(Gain::Pin)),
            What::Unpin { page, .. } => (page, PageCall::Loss(Loss::Unpin)),
            What::Write { page, first, count } => {
                (page, PageCall::Gain(Gain::Write { first, count }))
            }
            What::Zero { page, first, count } => {
                (page, PageCall::Gain(Gain::Zero { first, count }))
            }
            _ => return None,
        })
    }
}
