//! The programs `thpcheck` and `thpdraw`, for any length.
//!
//! What they share with `thpsplit` is in `thp_cli`.
//!
//! - Both: `request` (from words to a status, for any kind of request; `Requests`), `keeping_check` (a check that keeps data of
//!   each node: totals or what is drawn; `Keeping`, `Summaries`, `Nodes`).
//! - `thpcheck`: `program`, `help`, `checking` (what is read and written); `Checks`, `Outcomes`, `CommandLine`.
//! - `thpcheck --script`: `scripting` (the loop, and what standard error gets); `Scripting`.
//! - `thpdraw`: `draw_program`, `draw_help`, `writing`; `Drawings`, `DrawOutcomes`, `DrawCommandLine`.
//! - Progress on a terminal: `progress` (the loop, the line, when one is due, events by their bytes; `Progress`, `Counting`,
//!   `Reaching`); proofs `ProgressLaws`, `CountLaws`.
#![tactic(auto)]

mod checking;
mod draw_help;
mod draw_program;
mod help;
mod keeping_check;
mod program;
mod progress;
mod request;
mod scripting;
mod writing;

pub use checking::{CheckFinding, Summed, check_long};
pub use draw_program::{DrawOptions, run_draw_program};
pub use keeping_check::{KeepingCheck, SeriesNode, SummedNode};
pub use program::{CheckOptions, run_check_program};
pub use progress::{Screen, read_journal};
pub use scripting::write_script;
pub use thp_cli::{RunFault, Watched, WordsFault, words_of};
pub use writing::draw;
