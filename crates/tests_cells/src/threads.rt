//! Concurrent threads on a shared node: two that allocate, and four that mix calls, whose journal is checked.

mod allocations;
mod stress;
