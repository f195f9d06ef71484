//! Tests of failing devices and memory, and of limits.
//!
//! - `devices`, `failures`, `short`, `passages`: devices that fail at a chosen call, or move a few bytes in each.
//! - `limits`: inputs at their limit; `large`: histories longer than any input can describe. `programs`: whole programs.
//! - `memory`: allocations that fail, on nodes (`node_growths`), cells (`cell_growths`), `batches`, `parts`, `runs`, `programs`;
//!   `tests/test_memory.py` with `tests/refuse.c` makes each fail in turn.
//!
//! One crate, since proving the libraries below it takes most of the time. Spoilt texts are tested by `tests/test_spoilt.py`.
//! Functions that own a node end with a call of `drop`, which has a shorter proof than a drop at the end of the scope.
#![tactic(auto)]

#[cfg(test)]
mod devices;
#[cfg(test)]
mod failures;
#[cfg(test)]
mod large;
#[cfg(test)]
mod limits;
#[cfg(test)]
mod memory;
#[cfg(test)]
mod passages;
#[cfg(test)]
mod programs;
#[cfg(test)]
mod short;
