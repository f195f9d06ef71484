//! Tests of runs, from one section to the whole program.
//!
//! - `busy_nodes`: sections on one node (`one_node`) that is busy at chosen calls (`stutter`).
//! - `scripts`: whole scripts by `run_script`; `program`: by the program, with answers, totals, journals and errors.
//! - `stress`: generated scripts of 100,000 commands on shared nodes (`scripts` generates, `runs` lets workers take turns);
//!   `tallies`, `pages`, `walks`, `batches`, `commands`, `parts` and `texts` compare the result with plain loops.
//! - `equal` compares results.
//!
//! It uses the libraries from above, so that they are proved once.
#![tactic(auto)]

#[cfg(test)]
mod busy_nodes;
#[cfg(test)]
mod equal;
#[cfg(test)]
mod program;
#[cfg(test)]
mod scripts;
#[cfg(test)]
mod stress;
#[cfg(test)]
mod turns;
