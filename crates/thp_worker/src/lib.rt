//! Does the sections of a script as steps of callers.
//!
//! - `steps`: one call on a node, tried again while it is busy, `MAX_TRIES` times in all (`Does`: its events and answer).
//! - `node_pass`: a pass of one node, with the open batches of its callers (`Holdings`).
//! - `command` (`Turns`): the steps of a command. A scan is a take, tries and a put-back.
//! - `working` (`Sections`): the commands of a section in order, then the put-backs of open batches; where a node stays busy the
//!   rest is postponed. `OpenBatches`: on which nodes a batch is open, by the answers. `InParts`: commands arrive in parts.
//! - `halves` (`Halves`): workers side by side.
//! - `answer_log` (`Logs`, `Kept`): answers, stored in little room or only counted.
//! - `Fronts`: what the holder of some callers knows of all nodes. `gate`: a hook for tests. `reply`, `limits` (`Limits`).
//! - Proof `Crosses`: a pass of one node may go to other threads.
#![tactic(auto)]

mod answer_log;
mod command;
mod gate;
mod halves;
mod limits;
mod node_pass;
mod reply;
mod steps;
mod working;

pub use answer_log::{AnswerLog, Answers};
pub use gate::{Gate, NoGate};
pub use halves::{Passes, run_range};
pub use limits::{MAX_TRIES, tries_are_limited};
pub use node_pass::NodePass;
pub use reply::{Answer, Reply, Rest, SectionLog, SectionOutcome};
pub use steps::{Step, Steps};
pub use thp_script::{Command, Op};
pub use working::{begin_section, do_commands, end_section, work, work_rest};
