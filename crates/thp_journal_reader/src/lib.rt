//! Reads and checks journals.
//!
//! - The grammar: `line_of`, `journals_of` (`JournalLines`, `Journals`, `EventLines`, `EventWords`, `SetTexts`); code in `line`,
//!   `event_line`, `set_text`. Texts have no blocks: each page gets its least block.
//! - `text_reader`, `keeps_nodes`: texts in parts (`Parts`), and what is stored of the nodes; `journals`: all of them, with their
//!   events.
//! - `least_blocks` (`BlocksState`): gives each allocation, legal or not, its least free block; built from `page_blocks`.
//! - `parse_event_fast` (`FastParsing`): events read in one pass over the bytes. Proofs `PlainWords`, `PlainLines`: a line whose
//!   words parse needs no second look at its bytes.
//! - Checks: `long_check` (of inputs and of texts of any length; `ReportsIllegal`, `CanBeLegal` of `Answers`; `Verdicts`).
//! - `follower` (`Following`, proof `FollowLaws`), generic in `follows_node`: what follows a node line by line, and what is kept of
//!   it. `long_check` keeps nothing (`Keeping`); `thp_journal_tools` keeps totals or numbers, `thp_journal_scripts` writes scripts.
#![tactic(auto)]

mod event_line;
mod follower;
mod follows_node;
mod journals;
mod keeps_nodes;
mod least_blocks;
mod line;
mod long_check;
mod page_blocks;
mod parse_event_fast;
mod set_text;
mod text_reader;

pub use event_line::{EventWord, PageWord, RangeWord};
pub use follower::FollowedNodes;
pub use follows_node::{FollowsNode, Stopped};
pub use journals::{ReadJournals, ReadNode, read_journal};
pub use keeps_nodes::KeepsNodes;
pub use least_blocks::LeastBlocks;
pub use line::{Accepted, Line, Place};
pub use long_check::{Illegal, LongCheck, check_text, verdict};
pub use text_reader::TextReader;
