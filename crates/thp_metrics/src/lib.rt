//! The numbers of a node after each event, in columns.
//!
//! [`NodeSeries`] follows a node's events. After each it has [`Numbers`]: queue length, pages in batches, frames held and given
//! back, pages in each stage, the longest wait, callers with batches. [`Columns`] keeps the least and the greatest of each
//! column. A column is as wide as the least power of two for which 600 columns suffice, so nothing is stored for a single event.
//!
//! - `numbers_at`, `series` (`Series`): the numbers after these events, and after each prefix of them.
//! - `stage_of` (`Stages`): `Split`, else `InBatch`, else `Queued`, else `PartlyMapped`, else `Allocated`; one event changes the
//!   stage of its own page only (proofs `Moving`, `Batches`).
//! - `waited`, `longest_wait`, `callers_at` (`Waits`): waits since a page joined a list; code in `waiting`, `arrivals`,
//!   `batch_counts`, `node_series`.
//! - `AreStuck` (`Stuck`): pages that wait and were found pinned, the longest wait first.
//! - `IsWidth`, `columns_of` (`Columns`, `Spans`); code in `columns`, `column`; proofs `Folding`, `Pairs`, `Widths`.
#![tactic(auto)]

mod arrivals;
mod batch_counts;
mod column;
mod columns;
mod node_series;
mod numbers;
mod stage;
mod waiting;

pub use batch_counts::SHOWN_CALLERS;
pub use column::{Column, Span};
pub use columns::{Columns, MAX_COLUMNS};
pub use node_series::{NodeSeries, SeriesEnd};
pub use numbers::{Numbers, SHOWN_PAGES};
pub use stage::{STAGES, Stage, widened};
pub use waiting::{StuckPage, Waiting};
