//! Events of one memory node, and which histories are legal.
//!
//! This is the part to believe: `specs/` has the definitions that all contracts cite; docs/MODEL.md explains them.
//!
//! - Values: `events` (`Event`, `What`, `Outcome`, `PageId`), `page_call` (`Gain`, `Loss`, `PageCall`, `Done`), `refusal`,
//!   `shape`, `limits`, `sub_set` (a set of subpages as 512 bits; proofs `WordSpans`, `WordMarks`), `tally` (the sums of
//!   events; `Totals`), `trace` (what happened so far, for contracts alone).
//! - Laws of every legal history, as contracts of empty functions: `laws`; worked histories likewise: `rows`.
//! - `slow_check` of `thp_model` reads the definitions one for one. A definition that changes is changed there, too.
//! - A page by itself: `Pages`, `PageCalls`, `PageChanges`; proof `PageRefusals`: its refusals are those of the history.
//! - Underused pages: `Underused`, `UnderusedLaws`; proof `PartlyStands` shows that nothing of them happens with the switch off.
//!
//! For callers' proofs: `Pushes` (each definition at a history with one more event), `Tallying` (a page's state after each
//! event), `PageRefusals`, `PageOutcomes`, `Allowed`, and `TakeRuns`, `TryRuns`, `ReturnRuns`, `ScanRuns` (longer calls).
#![tactic(auto)]

mod check_fault;
mod events;
mod laws;
mod limits;
mod page_call;
mod refusal;
mod rows;
mod shape;
mod sub_set;
mod tally;
mod trace;

pub use check_fault::CheckFault;
pub use events::{Event, Outcome, PageId, What};
pub use laws::{
    each_frame_once, flights_go_by_events, freed_pages_are_left_alone, least_blocks_are_legal,
    live_pages_are_apart, no_page_stands_twice, none_is_underused_while_off,
    nothing_enters_after_close, oldest_are_taken, others_only_free, requests_decide,
};
pub use limits::{MAX_BATCH, MAX_CALLERS, MAX_NODE_CALLERS, MAX_SUBPAGES, limits_are_defined};
pub use page_call::{Done, Gain, Loss, PageCall};
pub use refusal::Refusal;
pub use rows::{
    first_run_is_legal, pinned_goes_to_the_tail_is_legal, small_page_split_is_legal,
    underused_pinned_is_legal, underused_scan_is_legal,
};
pub use shape::Shape;
pub use sub_set::SubSet;
pub use tally::{Counters, SplitContext, Tally};
pub use trace::Trace;
