//! Writes scripts that repeat journals.
//!
//! - `script_check` (`JournalScripts`): the script that repeats the legal events of a journal of any length. `journal_script`
//!   (`NodeScripts`): the script of all nodes, as text. `turns` (`Turns`): tries in another order than the takes.
//! - `folding`: the commands that repeat a node's events, given one event at a time (`Folds`, `WholeScans`); the kinds of events
//!   (`Repeating`); what a script does in another order than the history (`Moving`). `script_batch` (`ScriptBatches`): the batch
//!   that the script has open, or whose commands are not written yet. `open_flights`: pages in flight, and flights that wait.
//! - `script_text` (`ScriptTexts`): a command's line, and the options of `thpsplit` for a script.
#![tactic(auto)]

mod folding;
mod journal_script;
mod open_flights;
mod script_batch;
mod script_check;
mod script_text;
mod turns;

pub use folding::{EventKind, Moved};
pub use script_check::{ScriptCheck, Scripted};
pub use script_text::{put_command, put_options};
