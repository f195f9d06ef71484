//! A page, reconstructed from the events of its node.
use std::alloc::{AllocError, Global};
use thp_history::What;

// A page's mappings, counted one by one, and the list that it is on.
#[derive(Drop)]
pub(crate) struct PageSeen {
    pub(crate) whole: u32,
    // of each subpage
    own: Vec<u32>,
    pub(crate) is_partly: bool,
    pub(crate) is_queued: bool,
    pub(crate) is_freed: bool,
}

impl PageSeen {
    // A new page, mapped whole once.
    pub(crate) fn new(
        alloc: Global,
        subpages: u32,
        is_queued: bool,
    ) -> Result<PageSeen, AllocError> {
        let mut own = Vec::new(alloc);
        for _ in 0..subpages {
            own.push(0)?;
        }
        Ok(PageSeen {
            whole: 1,
            own,
            is_partly: false,
            is_queued,
            is_freed: false,
        })
    }

    // How many subpages are mapped.
    fn used(&self) -> usize {
        if self.whole > 0 {
            return self.own.len();
        }
        let mut used = 0usize;
        for count in self.own.iter() {
            if *count > 0 {
                used = used.wrapping_add(1);
            }
        }
        used
    }

    // Adds what an event does to the mappings.
    pub(crate) fn add(&mut self, what: &What) -> Option<()> {
        match *what {
            What::MapWhole { .. } => {
                self.whole = self.whole.checked_add(1)?;
                Some(())
            }
            What::UnmapWhole { .. } => self.lose_whole(),
            What::MapSub { first, count, .. } => self.gain(first, count),
            What::UnmapSub { first, count, .. } => self.lose(first, count),
            What::SplitPmd { .. } => self.spread(1),
            _ => Some(()),
        }
    }

    // Each subpage of a range is mapped once more.
    fn gain(&mut self, first: u32, count: u32) -> Option<()> {
        for subpage in first..first.checked_add(count)? {
            let own = self.own.get_mut(subpage as usize)?;
            *own = own.checked_add(1)?;
        }
        Some(())
    }

    // Each subpage of a range is mapped once less.
    fn lose(&mut self, first: u32, count: u32) -> Option<()> {
        let before = self.used();
        for subpage in first..first.checked_add(count)? {
            let own = self.own.get_mut(subpage as usize)?;
            *own = own.checked_sub(1)?;
        }
        self.note_loss(before);
        Some(())
    }

    // The whole page is mapped once less.
    fn lose_whole(&mut self) -> Option<()> {
        let before = self.used();
        self.whole = self.whole.checked_sub(1)?;
        self.note_loss(before);
        Some(())
    }

    // This many mappings of the whole page become mappings of each subpage.
    pub(crate) fn spread(&mut self, mappings: u32) -> Option<()> {
        self.whole = self.whole.checked_sub(mappings)?;
        for own in self.own.iter_mut() {
            *own = own.checked_add(mappings)?;
        }
        Some(())
    }

    // A page that lost some of its used subpages, but not all, is partly mapped from then on.
    fn note_loss(&mut self, before: usize) {
        let after = self.used();
        if 0 < after && after < before {
            self.is_partly = true;
        }
    }
}
