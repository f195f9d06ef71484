//! Tests of nodes for one thread, of batches, and of checks.
//!
//! - `calls`: `page_rows`, `scan_rows`, `underused_rows`. A new row is a table of `Step` for `expect_row` (`calls/steps`).
//! - `batches`: `rows`, `full_batch` (128 pinned pages), `underused_rows`; their calls are in `batches/steps`.
//! - `checks`: `legal`, `misfits`, `underused` and `random` histories, for both checks; `explained`, `reasons` (texts),
//!   `reading` (what a replay shows).
//! - `recorders`: `FullLog` and `CountOnly`. `nodes`: construction. `event_rows`: events as constants.
//! - `equal` compares results.
//!
//! It uses the libraries from above, so that they are proved once. Functions that own a node end with a call of `drop`, which has a
//! shorter proof than a drop at the end of the scope.
#![tactic(auto)]

#[cfg(test)]
mod batches;
#[cfg(test)]
mod calls;
#[cfg(test)]
mod checks;
#[cfg(test)]
mod equal;
#[cfg(test)]
mod event_rows;
#[cfg(test)]
mod nodes;
#[cfg(test)]
mod recorders;
