//! Command lines, devices, errors and exit statuses.
//!
//! What the programs of this project share.
//!
//! - `options`, `line`, `option_kinds`, `words` (`CommandLine`, `Options`, `OptionKinds`, `OwnCommand`): the command line of
//!   `thpsplit`, and command lines in general. `help`, `version`: the texts (a new version also changes tests/stored,
//!   CHANGELOG.md and bench/plain).
//! - `answering` (`Answers` of `Outcomes`): `--help`, `--version` and words in error.
//! - `device` (`Devices`), `watched`, `calls` (`Watch`, `Calls`): reads in parts, whole writes, and the calls that contracts
//!   see.
//! - `Passages`: all is read, then one answer is written, or nothing.
//! - `ending`, `fault`, `reporting` (`RunFaults`, `Outcomes`): errors, their lines on standard error, exit statuses.
#![tactic(auto)]

mod answering;
mod calls;
mod device;
mod ending;
mod fault;
mod help;
mod line;
mod option_kinds;
mod options;
mod reporting;
mod version;
mod watched;
mod words;

pub use answering::{WordsAnswer, answer};
pub use device::{read_parts, write_all, write_text};
pub use ending::{Ending, Program, ProgramFault, WordsFault};
pub use fault::RunFault;
pub use line::{Line, read_line};
pub use option_kinds::flag;
pub use reporting::{name_front, report_fault, report_message, report_run_fault, status_of_ending};
pub use version::VERSION;
pub use watched::Watched;
pub use words::{texts_of, words_of};
