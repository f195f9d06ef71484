//! Page descriptors, and the table of them by block.
//!
//! - `page` and `page/calls`: one page, each call by value and by name, with its refusal and its change (`PageView`, `Fresh`).
//! - `map_counts`: own map counts, seen as 512 numbers (`MapCounts`) and stored as bit planes. `planes` carries and borrows
//!   (`Planes`, proofs `Carries`, `Chosen`, `Seen`); `subpages`, `one_word` do the same for one word of a set (`WordBits`).
//! - `page_table`: for each block a link pair, and where it is taken a page and its standing (`Table`, `Slots`, `Changes`,
//!   `Lending`).
//! - `page_numbers`: the number of the page in each block, as blocks are used (`Padding`). `number_trees` finds the block of a number,
//!   by a tree for each bucket of low bits (`Searching`; proofs `LowBits`, `Hanging`, `Seeking`, `TreeSteps`).
//! - `bridge`: empty functions whose contracts connect a page with the history of its node (`Bridge`).
#![tactic(auto)]

pub mod bridge;
mod map_counts;
mod number_trees;
mod one_word;
mod page;
mod page_numbers;
mod page_table;
mod planes;
mod standing;
mod subpages;

pub use page::{Change, Page};
pub use page_table::PageTable;
pub use standing::Standing;
