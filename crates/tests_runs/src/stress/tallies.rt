//! The sums of the events of a node, counted one by one.
use crate::stress::pages::PageSeen;
use crate::stress::scripts::subpages_of;
use std::alloc::{AllocError, Global};
use thp_history::{Event, Outcome, PageId, SubSet, What};
use thp_node::Node;

// The pages of a node and its totals.
#[derive(Drop)]
pub(crate) struct Tally {
    subpages: u32,
    // whether underused pages are looked for
    looks: bool,
    pages: Vec<PageSeen>,
    // the length of the queue before the first event and after each
    lengths: Vec<u32>,
    queue: u32,
    given: u64,
    splits: u64,
    failures: u64,
    queued: u64,
    underused: u64,
    pmds: u64,
}

impl Tally {
    // The tally of a node's journal; none if an event can't be counted, or without memory.
    pub(crate) fn of(alloc: Global, node: &Node) -> Option<Tally> {
        let shape = node.shape();
        let mut tally = Tally {
            subpages: subpages_of(shape.order),
            looks: shape.shrinks_underused(),
            pages: Vec::new(alloc),
            lengths: Vec::new(alloc),
            queue: 0,
            given: 0,
            splits: 0,
            failures: 0,
            queued: 0,
            underused: 0,
            pmds: 0,
        };
        tally.lengths.push(0).ok()?;
        for event in node.journal() {
            tally.add(alloc, event)?;
            tally.lengths.push(tally.queue).ok()?;
        }
        Some(tally)
    }

    // Whether the page was freed.
    pub(crate) fn is_freed(&self, page: PageId) -> bool {
        match self.pages.get(page.0 as usize) {
            Some(seen) => seen.is_freed,
            None => false,
        }
    }

    // Whether the queue had this length after `least` to `most` events.
    pub(crate) fn had_length(&self, length: u32, least: usize, most: usize) -> bool {
        match self.lengths.get(least..=most) {
            Some(lengths) => lengths.contains(&length),
            None => false,
        }
    }

    // Writes the totals of the node as a report does.
    pub(crate) fn write(&self, text: &mut String, node: usize) -> Result<(), AllocError> {
        let pages = self.pages.len() as u64;
        let held = pages
            .wrapping_mul(u64::from(self.subpages))
            .wrapping_sub(self.given);
        let sums = [
            ("node", node as u64),
            ("pages", pages),
            ("queue", u64::from(self.queue)),
            ("frames_held", held),
            ("frames_given", self.given),
            ("thp_split_page", self.splits),
            ("thp_split_page_failed", self.failures),
            ("thp_deferred_split_page", self.queued),
            ("thp_split_pmd", self.pmds),
        ];
        for row in sums.as_slice() {
            let (name, sum) = *row;
            write!(text, "{name} {sum}\n")?;
        }
        if self.looks {
            write!(text, "thp_underused_split_page {}\n", self.underused)?;
        }
        Ok(())
    }

    fn page(&mut self, page: PageId) -> Option<&mut PageSeen> {
        self.pages.get_mut(page.0 as usize)
    }

    fn add(&mut self, alloc: Global, event: &Event) -> Option<()> {
        match event.what {
            What::Alloc { page, block: _ } => self.add_page(alloc, page),
            What::MapWhole { page } | What::MapSub { page, .. } => self
                .page(page)?
                .add(&event.what),
            What::UnmapWhole {
                outcome,
                page,
                released,
            }
            | What::UnmapSub {
                outcome,
                page,
                released,
                ..
            } => {
                self.page(page)?.add(&event.what)?;
                self.add_outcome(page, outcome, &released)
            }
            What::SplitPmd { page } => {
                self.pmds = self.pmds.checked_add(1)?;
                self.page(page)?.add(&event.what)
            }
            What::Unpin {
                outcome,
                page,
                released,
            } => self.add_outcome(page, outcome, &released),
            What::Pin { page: _ }
            | What::Write { .. }
            | What::Zero { .. }
            | What::Used { page: _ }
            | What::Dropped { page: _ }
            | What::Close => Some(()),
            What::Taken { page } => self.leave(page),
            What::Split { page, released } => self.add_split(page, &released),
            What::Pinned { page: _ } => {
                self.failures = self.failures.checked_add(1)?;
                Some(())
            }
            What::Back { page } => self.enter(page),
        }
    }

    fn add_page(&mut self, alloc: Global, page: PageId) -> Option<()> {
        if page.0 != self.pages.len() as u64 {
            return None;
        }
        let seen = PageSeen::new(alloc, self.subpages, false).ok()?;
        self.pages.push(seen).ok()?;
        if self.looks {
            self.enter(page)
        } else {
            Some(())
        }
    }

    // The page joins the queue.
    fn enter(&mut self, page: PageId) -> Option<()> {
        let seen = self.page(page)?;
        if seen.is_queued {
            return None;
        }
        seen.is_queued = true;
        self.queue = self.queue.checked_add(1)?;
        Some(())
    }

    // The page leaves the queue.
    fn leave(&mut self, page: PageId) -> Option<()> {
        let seen = self.page(page)?;
        if !seen.is_queued {
            return None;
        }
        seen.is_queued = false;
        self.queue = self.queue.checked_sub(1)?;
        Some(())
    }

    fn add_outcome(&mut self, page: PageId, outcome: Outcome, released: &SubSet) -> Option<()> {
        self.given = self.given.checked_add(u64::from(released.count()))?;
        match outcome {
            Outcome::Stays => Some(()),
            Outcome::Queued => {
                self.queued = self.queued.checked_add(1)?;
                self.enter(page)
            }
            Outcome::Freed => {
                let seen = self.page(page)?;
                seen.is_freed = true;
                if seen.is_queued {
                    self.leave(page)
                } else {
                    Some(())
                }
            }
        }
    }

    fn add_split(&mut self, page: PageId, released: &SubSet) -> Option<()> {
        self.given = self.given.checked_add(u64::from(released.count()))?;
        self.splits = self.splits.checked_add(1)?;
        let seen = self.page(page)?;
        let whole = seen.whole;
        let is_partly = seen.is_partly;
        seen.spread(whole)?;
        self.pmds = self.pmds.checked_add(u64::from(whole))?;
        if !is_partly {
            self.underused = self.underused.checked_add(1)?;
        }
        Some(())
    }
}
