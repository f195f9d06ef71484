//! A memory node for one thread: pages, queue and journal.
//!
//! [`Node`] is the engine. A call that succeeds records its event, or its run of events, in the journal, which is legal at every
//! moment; a refused call changes nothing. `Calls` states what every call does, the definitions of `thp_history` the rest.
//!
//! - Public: [`Node`] (`new`, `with_recorder`, `reserve`; `alloc_page`, `close`; `gain`, `lose` and each page call by name;
//!   `take`, `split_next`, `put_back`, `scan`; readers such as `journal`), [`Batch`] (`caller`, `pages`, `abandon`), recorders,
//!   results.
//! - `node`: construction and readers. `node/page_calls`, `list_calls`, `batch_calls`, `return_calls`: the calls.
//! - `batch`, `answers`: batches and results (`Batches`); `Takings`, `Returning`, `Scanning` are for longer calls.
//! - `journal`: events and statistics (`Journals`); `recorder`: [`FullLog`] keeps each event,
//!   [`CountOnly`] counts them, and contracts see one history of both (`Recorders`). `flight_counts` counts each flight in a
//!   byte.
//! - `blocks`: the page store and the chain of freed blocks (`Chaining`, proof `ChainLemmas`).
//! - `laws` and `journal` ensure the laws of `JournalLaws`; proof `JournalFacts` has them for every legal history.
//!
//! `put_back` requires that its batch is a prefix of its flight; `take` ensures it and every call preserves it (`front`,
//! `fronts`, `older`; proof `Fronts`).
#![tactic(auto)]

mod answers;
mod batch;
mod blocks;
mod flight_counts;
mod journal;
mod node;
mod recorder;

pub use answers::{BackReply, NewFault, ScanReply, Tried};
pub use batch::Batch;
pub use node::Node;
pub use recorder::{CountOnly, FullLog, Recorder};
pub use thp_history::{
    Counters, Done, Event, Gain, Loss, Outcome, PageId, Refusal, Shape, SubSet, What,
};
pub use thp_links::Queue;
pub use thp_page::PageTable;
