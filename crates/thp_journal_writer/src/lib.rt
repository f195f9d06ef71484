//! The text of journals, and the lines of totals.
//!
//! - `writer`: whole journals, exactly `journal_text` (`Journals`); no block appears in it. `version`: the least version of the
//!   format that can describe a history.
//! - `stream`: the same line by line, in a version that the caller chooses (`Streams`); `lines_make_a_journal` ensures that such
//!   lines add up to a journal.
//! - `events` (`EventLines`), `sets` (`SetTexts`), `numbers`: the words of a line.
//! - `totals` (`Totals`): nine lines for each node, or ten where underused pages are split. A new number also needs `totals_of`,
//!   and the two callers that compute totals: `totals` of `thp_run` and `keeping_check` of `thp_journal_tools`.
//! - `Room`: how many bytes a line takes at most.
#![tactic(auto)]

mod events;
mod numbers;
mod sets;
mod stream;
mod totals;
mod version;
mod writer;

pub use events::{event_page, put_event_line, put_outcome};
pub use numbers::{put, put_number};
pub use stream::{PutFault, lines_make_a_journal, put_event, put_node};
pub use totals::{Totals, put_totals, put_totals_of_each};
pub use version::{Version, VersionLimits};
pub use writer::{NodeHistory, journal_text, put_end, put_version};
