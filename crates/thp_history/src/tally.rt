//! The sums of the events of a history: the frames given back, and the node's statistics.
ghost use Rattle.std.specs.Prelude.{◌≡◌, ◌+◌, ◌<◌, ◌^◌, false};
ghost use Rattle.std.specs.Int.{from_bool};
ghost use Rattle.thp_history.specs.Sets.{set_size};
ghost use Rattle.thp_history.specs.Totals.{Adds, HasRoom, with_loss};

use crate::events::{Outcome, What};
use crate::sub_set::SubSet;

/// The node's statistics, named as in /proc/vmstat without the prefix `thp_` (admin-guide/mm/transhuge.rst, "Monitoring usage";
/// when each of them increases is this project's profile).
#[derive(Clone, Copy, PartialEq, Eq, Debug)]
pub struct Counters {
    /// The number of pages split.
    pub split_page: u64,
    /// The number of tries that found a page pinned.
    pub split_page_failed: u64,
    /// The number of times that an unmap or an unpin queued a page. A put back or an allocation doesn't count.
    pub deferred_split_page: u64,
    /// The number of pages split that were underused and not partly mapped.
    pub underused_split_page: u64,
    /// The number of PMD mappings split: one for each `split_pmd`, and all mappings of the whole page for each page split.
    pub split_pmd: u128,
}

/// The sums of the events of a history.
#[derive(Clone, Copy)]
pub struct Tally {
    /// The number of frames given back.
    pub frames_given: u128,
    /// The statistics.
    pub counters: Counters,
}

/// The facts about a split that its event does not contain.
#[derive(Clone, Copy)]
pub struct SplitContext {
    /// The number of the page's PMD mappings.
    pub mappings: u32,
    /// Whether the page was not partly mapped.
    pub underused: bool,
}

impl SplitContext {
    /// Returns the context of an event that splits no page: no mapping, and not underused.
    #[inline(always)]
    pub fn none() -> SplitContext
        ensures { result ≡ record { mappings = 0; underused = false } }
    {
        SplitContext {
            mappings: 0,
            underused: false,
        }
    }
}

impl Tally {
    /// Returns the sums of no event.
    pub fn new() -> Tally
        ensures { result ≡ record { frames_given = 0; counters = record { split_page = 0; split_page_failed = 0; deferred_split_page = 0; underused_split_page = 0; split_pmd = 0 } } }
    {
        Tally {
            frames_given: 0,
            counters: Counters {
                split_page: 0,
                split_page_failed: 0,
                deferred_split_page: 0,
                underused_split_page: 0,
                split_pmd: 0,
            },
        }
    }

    /// Counts one more event. Inlined, so that a caller with a known kind of event counts that kind only.
    #[inline(always)]
    pub fn count(&mut self, what: &What, context: SplitContext)
        requires { HasRoom self.old }
        ensures { Adds self.old self.new what.now context }
    {
        match what {
            What::UnmapWhole {
                outcome,
                released,
                ..
            }
            | What::UnmapSub {
                outcome,
                released,
                ..
            }
            | What::Unpin {
                outcome,
                released,
                ..
            } => self.count_loss(*outcome, released),
            What::SplitPmd { .. } => self.counters.split_pmd += 1,
            What::Split { released, .. } => self.count_split(released, context),
            What::Pinned { .. } => self.counters.split_page_failed += 1,
            _ => {}
        }
    }

    /// Counts an unmap or an unpin.
    #[inline(always)]
    pub fn count_loss(&mut self, outcome: Outcome, released: &SubSet)
        requires { HasRoom self.old }
        ensures { self.new ≡ with_loss outcome released.now self.old }
    {
        self.frames_given += u128::from(released.count());
        self.counters.deferred_split_page += u64::from(outcome == Outcome::Queued);
    }

    // Counts the split of a page.
    fn count_split(&mut self, released: &SubSet, context: SplitContext)
        requires { HasRoom self.old }
        ensures few { context.mappings < 2 ^ 32 }
        ensures numbers { self.new ≡ record self.old { frames_given = self.old.frames_given + set_size released.now; counters = record self.old.counters { split_page = self.old.counters.split_page + 1; underused_split_page = self.old.counters.underused_split_page + from_bool context.underused; split_pmd = self.old.counters.split_pmd + context.mappings } } }
    {
        self.frames_given += u128::from(released.count());
        self.counters.split_page += 1;
        self.counters.underused_split_page += u64::from(context.underused);
        self.counters.split_pmd += u128::from(context.mappings);
    }
}
