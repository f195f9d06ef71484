//! Whether a batch tries its pages in the order in which it took them.
ghost use Rattle.std.specs.Prelude.{◌≡◌, ◌+◌, ◌++◌, [], nat_eq, OnOk, if◌then◌else◌};
ghost use Rattle.std.specs.List.{position};
ghost use Rattle.thp_journal_scripts.specs.Prelude.{capped_count, done_page, first_untried, is_out_of_turn, taken_by, tried_page, unless_done, untried_after};

use std::alloc::{AllocError, Global};
use thp_history::{Event, Outcome, PageId, What};

/// A page that was taken and not tried yet.
#[derive(Clone, Copy)]
pub(crate) struct UntriedPage {
    caller: u32,
    page: PageId,
}

/// The pages of a node that are taken and not tried yet, in the order of their takes, and the number of tries out of turn: of
/// another page than the first that its caller has taken and not tried yet.
#[derive(Drop)]
pub(crate) struct Turns {
    pub(crate) untried: Vec<UntriedPage>,
    pub(crate) out_of_turn: u64,
}

impl Turns {
    /// Returns the state before the first node.
    pub(crate) fn new(alloc: Global) -> Turns
        ensures untried { result.untried.items ≡ [] }
        ensures none { result.out_of_turn ≡ 0 }
    {
        Turns {
            untried: Vec::new(alloc),
            out_of_turn: 0,
        }
    }

    /// Adds an event of the node.
    pub(crate) fn add(&mut self, event: &Event) -> Result<(), AllocError>
        ensures untried { OnOk result (self.new.untried.items ≡ untried_after self.old.untried.items event.now) }
        ensures count { OnOk result (self.new.out_of_turn ≡ capped_count (self.old.out_of_turn + (if is_out_of_turn self.old.untried.items event.now then 1 else 0))) }
    {
        let more = u64::from(self.is_out_of_turn(event));
        self.out_of_turn = self.out_of_turn.saturating_add(more);
        self.leave(done_page(&event.what));
        if let What::Taken { page } = event.what {
            let caller = event.caller;
            self.untried.push(UntriedPage { caller, page })?;
        }
        Ok(())
    }

    /// Returns whether an event tries another page than the first that its caller has taken and not tried yet.
    fn is_out_of_turn(&self, event: &Event) -> bool
        ensures { result ≡ is_out_of_turn self.now.untried.items event.now }
    {
        let Some(page) = tried_page(&event.what) else {
            return false;
        };
        match self.first_of(event.caller) {
            Some(untried) => untried.page != page,
            None => true,
        }
    }

    /// Returns the first of a caller's pages.
    fn first_of(&self, caller: u32) -> Option<UntriedPage>
        ensures { result ≡ first_untried caller self.now.untried.items }
    {
        self.untried
            .iter()
            .copied()
            .find(|untried| untried.caller == caller)
    }

    /// Returns the index of a page.
    fn place_of(&self, page: PageId) -> Option<usize>
        ensures { result ≡ position (λ u. nat_eq u.page page) self.now.untried.items }
    {
        self.untried.iter().position(|untried| untried.page == page)
    }

    /// Removes a page, if there is one.
    fn leave(&mut self, done: Option<PageId>)
        ensures untried { self.new.untried.items ≡ unless_done done self.old.untried.items }
        ensures count { self.new.out_of_turn ≡ self.old.out_of_turn }
    {
        let Some(page) = done else {
            return;
        };
        if let Some(place) = self.place_of(page) {
            self.untried.remove(place);
        }
    }
}

/// Returns the page that an event tries.
fn tried_page(what: &What) -> Option<PageId>
    ensures { result ≡ tried_page what.now }
{
    match *what {
        What::Split { page, .. } | What::Pinned { page } | What::Used { page } => Some(page),
        _ => None,
    }
}

/// Returns the page that no event tries any more after this one, unless it is taken again.
fn done_page(what: &What) -> Option<PageId>
    ensures { result ≡ done_page what.now }
{
    match *what {
        What::UnmapWhole { outcome, page, .. }
        | What::UnmapSub { outcome, page, .. }
        | What::Unpin { outcome, page, .. } => (outcome == Outcome::Freed).then_some(page),
        What::Back { page } | What::Dropped { page } => Some(page),
        _ => tried_page(what),
    }
}
