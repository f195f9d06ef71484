//! Laws of journal texts, runs and reports.
//!
//! Each is the contract of an empty function. A definition is stated once in its own crate; here two of them are shown to agree.
//!
//! - `journals`: what is written of legal histories is read back (`ReadBack`, `Reportable`); a journal's text determines the
//!   totals (`SameTotals`). Proofs: `SetsBack`, `EventsBack`, `LinesBack`, `JournalsBack`.
//! - `runs`: the answer of a step follows from the history (`OneStep`; `SameSteps`, `SameRefusals`); workers on nodes of their
//!   own, or one worker, have one run (`OneRun`; `Walks`, `SideBySide`, `SameTurns`, `SameSections`, `WorkersApart`). A script that
//!   repeats histories records them again (`Repeated`; `RepeatedCalls`, `RepeatedScans`, `RepeatedPlaces`, `RepeatedTurns`,
//!   `CountedTurns`, `RepeatedRuns`).
//! - `reports`: so they have one report (`OneReport`), and one text one totals report (`OneText`; `OneTotals`).
#![tactic(auto)]

mod journals;
mod reports;
mod runs;

pub use journals::{journals_are_read_back, no_block_shows, one_text_is_of_one_run};
pub use reports::{
    one_journal_has_one_totals, one_worker_has_one_report, workers_apart_have_one_report,
};
pub use runs::{
    one_worker_has_one_run, scripts_repeat_histories, steps_have_one_answer,
    workers_apart_have_one_run,
};
