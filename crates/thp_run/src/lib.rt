//! The program `thpsplit`, from its words to its exit status.
//!
//! - `program`: [`run_program`], by `Finishes` (`Outcomes`); `Choices`: the settings that a command line specifies.
//! - `running`: a run; what it writes is a report of a run of the script in the input (`IsReport` of `Programs`). Reports are
//!   written whole or part by part (`Written`).
//! - `IsRun` (`Runs`) defines a run: each node has one legal history, in which the steps of each caller are in order, and the
//!   answers are those of the steps. `Sections` has its phases: `setup`, the workers, what they postponed.
//! - `script_run`: a run of a script in memory, or of one whose `setup` arrives in parts, none of which is stored (`InParts`,
//!   proof `BegunRunLaws`), on new nodes in cells (`NewNodes`), by passes with all callers (`Sharing`). `do_rest`: postponed
//!   commands, workers ascending. `script_in_progress` (`ScriptInProgress`): `setup` is done as it is read.
//! - `node_passes` (`Passes`, proofs `PassLaws`, `EachLaws`): a pass of each node; `Crosses`: it may go to other threads.
//! - `report`, `answers`: a report as text, a function of the nodes' shapes and histories and of the sections' answers:
//!   `report_of` (`Reports`), over `Answers`, and `Totals` and `Journals` of `thp_journal_writer`. No block appears in it (`Laws`).
//!   `AnswerParts` (`Parts`, proof `PartLaws`): the answers part by part from one buffer; `line_room` bounds a line.
//! - `checking` (`Checks`): the check of a journal. `listed` (`Listed`): sections with their answers in vectors. `values`: scripts
//!   and journals in vectors.
//!
//! It re-exports what a library user of scripts, journals and reports needs.
#![tactic(auto)]

mod answers;
mod checking;
mod listed;
mod node_passes;
mod program;
mod report;
mod running;
mod script_in_progress;
mod script_run;
mod values;

pub use answers::{AnswerParts, answers_text};
pub use checking::check_run;
pub use listed::{Section, Worked, report_text, work, work_rest};
pub use program::run_program;
pub use report::{journals_text, report_of_logs, totals_report_no_block, totals_text};
pub use running::run;
pub use script_run::{RunResult, run_script};
pub use thp_cli::{Ending, Line, ProgramFault, RunFault, Watched, WordsFault, read_line, words_of};
pub use thp_history::{Gain, Loss, PageCall, PageId, Refusal, Shape};
pub use thp_journal_reader::check_text;
pub use thp_node::{BackReply, Done, Node, ScanReply, Tried};
pub use thp_script::{
    Command, MAX_INPUT, Op, ReadFault, Report, Settings, TextKind, read_orders, read_underused,
};
pub use thp_worker::{Answer, Gate, NoGate, Reply, Rest, Step, Steps};
pub use values::{Journals, NodeJournal, Script, read_journal, read_script};
