//! Tests of sets, lists by index, pages and the page table.
//!
//! - `sets`; `links` and `counting` (accesses); `page_rows`, `zero_rows`, `calls`; `table`.
//! - `own_counts`: own map counts at their limit, and through each bit. `equal` compares results.
//!
//! Expected values are worked out on paper. It uses the libraries from above, so that they are proved once.
#![tactic(auto)]

#[cfg(test)]
mod calls;
#[cfg(test)]
mod counting;
#[cfg(test)]
mod equal;
#[cfg(test)]
mod links;
#[cfg(test)]
mod own_counts;
#[cfg(test)]
mod page_rows;
#[cfg(test)]
mod sets;
#[cfg(test)]
mod table;
#[cfg(test)]
mod zero_rows;
