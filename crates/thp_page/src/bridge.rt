//! The connection between a page and the history of its node. The functions do nothing: each contract is the law.
ghost use Rattle.thp_page.specs.Bridge.{OthersLeavePages, RefusalsAgree, FreshPageIsRecorded, GainIsRecorded, LossIsRecorded, CandidatesAgree, SplitIsRecorded};

/// States that a live page in the state that its node's history gives it refuses each call exactly if the history does, with the
/// same reason.
#[tactic(auto, using(crate::proofs::Recording::refusals_agree))]
pub fn refusals_agree()
    ensures { RefusalsAgree }
{}

/// States that an event of another page leaves a page in the state that the history gives it.
pub fn others_leave_pages()
    ensures { OthersLeavePages }
{}

/// States that a page just allocated is in the state that the history with its allocation gives it.
pub fn fresh_page_is_recorded()
    ensures { FreshPageIsRecorded }
{}

/// States that after a gain the page is in the state that the history with the call's event gives it, and that this event fits.
pub fn gain_is_recorded()
    ensures { GainIsRecorded }
{}

/// States the same of a loss, with its outcome and the frames that it gives back.
#[tactic(auto, using(crate::proofs::Recording::loss_is_recorded))]
pub fn loss_is_recorded()
    ensures { LossIsRecorded }
{}

/// States that a page in the state that its node's history gives it is worth a split exactly if the history makes it so.
#[tactic(auto, using(crate::proofs::Recording::candidates_agree))]
pub fn candidates_agree()
    ensures { CandidatesAgree }
{}

/// States the same of `split`, for a page in a caller's batch that is worth a split, with the frames that it gives back.
pub fn split_is_recorded()
    ensures { SplitIsRecorded }
{}
