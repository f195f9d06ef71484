//! Scripts and settings as values, and the grammar of scripts.
//!
//! - `script` (`Commands`, `PageCommands`): commands, their words and calls. A new command also needs `operands` if its operands
//!   have a new form, `parse_command_fast` if it is read in one pass, `thp_worker` for what it does, and docs/FORMATS.md.
//! - `statement` (`Statements`): a line by itself and in its section; `script_reader` (`Scripts`, `Parts`): whole scripts, also
//!   from text that arrives in parts. Commands of `setup` can be dropped once done (`ScriptReader::setup`, `drop_setup`).
//! - `text_in_parts` (`TextInParts`): lines of a text in parts of any length, and its first error; `reads_parts` (`ReadsParts`):
//!   what consumes such a text. `lines`, `words` (`Lines`, `Words`).
//! - `fast_parsing`, `fast_words` (`FastParsing`, `FastWords`): commands and numbers read in one pass over the bytes; proof
//!   `FastParsingLaws` shows that they agree with the grammar.
//! - `settings` (`Settings`), `lists` (`NumberLists`: orders and thresholds), `limits` (`Limits`), `fault` (`TextKinds`).
#![tactic(auto)]

mod fast_parsing;
mod fast_words;
mod fault;
mod limits;
mod lines;
mod lists;
mod operands;
mod reads_parts;
mod script;
mod script_reader;
mod sequence;
mod settings;
mod statement;
mod text_in_parts;
mod words;

pub use fast_words::{after_name, parse_number_fast};
pub use fault::{LongReadFault, ReadFault, TextFault, TextKind};
pub use limits::{
    MAX_COUNTED, MAX_INPUT, MAX_NODES, MAX_OPERAND, MAX_WORKERS, run_limits_are_defined,
};
pub use lines::{fault_after, fault_of_line, has_empty_word, is_printable};
pub use lists::{read_orders, read_underused};
pub use operands::one_word;
pub use reads_parts::ReadsParts;
pub use script::{Command, Op, ScriptSections};
pub use script_reader::{ScriptReader, read_script};
pub use sequence::Sequence;
pub use settings::{Report, Settings};
pub use text_in_parts::{TextInParts, WholeLine};
pub use words::{Words, cut_at, number};
