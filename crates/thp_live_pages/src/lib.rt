//! The live pages of a node by block, with their queue.
//!
//! - `page_store`: the table of pages and the deferred split queue linked through it (`PageStoreState`). A caller tests first
//!   (`PageStore::refusal`, `is_free`, `find_in_batch`), then acts. `page_call`: what follows for a page from an unmap
//!   or unpin (`Outcomes`).
//! - `Homes` and `Holding` define which block, standing and state a history gives each page, `Flying` whose flight it is in.
//! - For what replays journals: `freeing`, and `free_blocks`, whose set (`FreeSets`) is in words (`word_set`) with summaries
//!   (`summed_set`), so that its least block is found at once.
//!
//! For callers' proofs: `Homing`, `Standings` (block and standing of a page in a legal history), `Keeping`, `Admitting`,
//! `Closing` (refusals), `PageEvents`, `ListEvents`, `Starting` (the store after each event), `Worth` (split candidates),
//! `Relinking` (one edit), `FreeChains` (a chain of free blocks in the same links).
#![tactic(auto)]

mod free_blocks;
mod freeing;
mod least_set;
mod page_call;
mod page_store;
mod summed_set;
mod word_set;

pub use free_blocks::FreeBlocks;
pub use freeing::freed_page;
pub use page_store::PageStore;
