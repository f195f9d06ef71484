//! Tests of shared nodes, above `thp_cell`.
//!
//! - `conclusions`: what callers of a cell can conclude, proved without a proof file.
//! - `rows`, `keeping`, `underused`: worked rows with known results; `limits`: batches at their limit; `steps`: their calls.
//! - `threads`: threads side by side (`allocations`; `stress`: four threads, whose journal is checked). `equal` compares results.
//!
//! Allocations that fail are in `tests_spoilt`, times in `bench_nodes`.
#![tactic(auto)]

pub mod conclusions;
#[cfg(test)]
mod equal;
#[cfg(test)]
mod keeping;
#[cfg(test)]
mod limits;
#[cfg(test)]
mod rows;
#[cfg(test)]
mod steps;
#[cfg(test)]
mod threads;
#[cfg(test)]
mod underused;
