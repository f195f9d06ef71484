//! The calls about the node: an allocation, and the close.
ghost use Rattle.std.specs.Prelude.{◌≡◌, ℕ, ◌<◌, [], ◌∷◌, None, IfOk, IfErr, OnOk};
ghost use Rattle.thp_history.specs.Prelude.{max_node_callers, allocations, by, refusal};
ghost use Rattle.thp_history.specs.Refusals as call;
ghost use Rattle.thp_node.specs.Batches.{FrontsStay};
ghost use Rattle.thp_node.specs.Calls.{Did, DidAlloc, Refused};

use crate::node::Node;
use crate::recorder::Recorder;
use thp_history::{PageId, Refusal, SplitContext, What};

impl<R: Recorder> Node<R> {
    /// Allocates a page, mapped whole once, in a block that holds no live page. The page's number is the number of allocations
    /// before it. The page is queued if the shrinker looks for underused pages. Fails with `Closed`, `NoBlock` or `OutOfMemory`.
    pub fn alloc_page(&mut self, caller: u32) -> Result<PageId, Refusal>
        requires { caller < max_node_callers }
        ensures allowed { OnOk result (refusal self.old.shape self.old.journal call.alloc_page ≡ None) }
        ensures number { IfOk result (λ p. p ≡ allocations self.old.journal) }
        ensures recorded { IfOk result (DidAlloc self.old self.new caller) }
        ensures refused { IfErr result (Refused self.old self.new (refusal self.old.shape self.old.journal call.alloc_page) 1) }
        ensures fronts { FrontsStay self.old.journal self.new.journal }
    {
        if self.journal.is_closed() {
            return Err(Refusal::Closed);
        }
        if !self.blocks.has_free() {
            return Err(Refusal::NoBlock);
        }
        self.journal.reserve(1)?;
        let page = PageId(self.journal.next());
        let queued = self.journal.shape().shrinks_underused();
        let block = self.blocks.place(page, queued);
        self.journal
            .record(caller, What::Alloc { page, block }, SplitContext::none());
        Ok(page)
    }

    /// Closes the node: no page is queued or allocated afterwards. Fails with `Closed` or `OutOfMemory`.
    pub fn close(&mut self, caller: u32) -> Result<(), Refusal>
        requires { caller < max_node_callers }
        ensures allowed { OnOk result (refusal self.old.shape self.old.journal call.close ≡ None) }
        ensures recorded { OnOk result (Did self.old self.new caller (by caller What.Close ∷ [])) }
        ensures refused { IfErr result (Refused self.old self.new (refusal self.old.shape self.old.journal call.close) 1) }
        ensures fronts { FrontsStay self.old.journal self.new.journal }
    {
        if self.journal.is_closed() {
            return Err(Refusal::Closed);
        }
        self.journal.reserve(1)?;
        self.journal
            .record(caller, What::Close, SplitContext::none());
        Ok(())
    }
}
