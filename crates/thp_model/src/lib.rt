//! The model of one memory node: all of `thp_history` under this name, and a check that reads its definitions one for one.
//!
//! `check` and its modules recompute everything for each event and keep nothing. They are for readers who doubt `thp_check`: by
//! the same clauses, each is the other's second opinion. No program uses them, so no program's proof waits for theirs.
#![tactic(auto)]

mod slow_check;

pub use slow_check::check;
pub use thp_history::{
    CheckFault, Done, Event, Gain, Loss, MAX_BATCH, MAX_CALLERS, MAX_SUBPAGES, Outcome, PageCall,
    PageId, Refusal, Shape, SubSet, Trace, What, each_frame_once, first_run_is_legal,
    flights_go_by_events, freed_pages_are_left_alone, least_blocks_are_legal, limits_are_defined,
    live_pages_are_apart, no_page_stands_twice, none_is_underused_while_off,
    nothing_enters_after_close, oldest_are_taken, others_only_free,
    pinned_goes_to_the_tail_is_legal, requests_decide, small_page_split_is_legal,
    underused_pinned_is_legal, underused_scan_is_legal,
};
