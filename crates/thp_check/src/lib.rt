//! Decides whether a history is legal, and explains why not.
//!
//! [`check`] replays the events on what a node of that shape would hold and stops at the first that doesn't fit; [`Replay`]
//! takes events one by one. Legality is `IsLegal` and `IsFirstMisfit` of `thp_history`; `Explains` (`Reasons`) defines each
//! reason.
//!
//! - `checking`, `replay`, `node_state` (one step for each kind of event), `flights` (4,096 lists of blocks by the low bits of the
//!   caller; proofs `FlightLists`, `FlightBlocks`), free blocks (`Freeing`, proof `FreeMarks`).
//! - `misfit`: the reasons. A new reason needs its meaning in `Reasons`, its step in `node_state`, its words in `reason_text`.
//! - `explanation`, `expected`, `reason_text`, `pieces`: the text of [`put_explanation`], exactly that of `Explanations`; `laws`
//!   (`Fitting`) ensures that what it expects fits.
//! - `replay/reading`, `live_page`: what a replay shows: queue, flights, pages, and the totals of `thp_history` (`Replays`;
//!   `Showing`).
#![tactic(auto)]

mod checking;
mod expected;
mod explanation;
mod flights;
mod laws;
mod live_page;
mod misfit;
mod node_state;
mod pieces;
mod reason_text;
mod replay;

pub use checking::check;
pub use explanation::put_explanation;
pub use laws::what_is_expected_fits;
pub use live_page::{LivePage, PageLocation};
pub use misfit::Misfit;
pub use replay::Replay;
pub use thp_history::CheckFault;
pub use thp_page::Standing;
