//! Tests of texts: scripts, journals, reports, pictures.
//!
//! - `grammar`: settings, words of a command line, lists and scripts as they are read.
//! - `journals` (written), `reading` (read and checked), `least_blocks`, `reports`.
//! - `drawing`: numbers over the events (`checks`, `columns`, `nodes`), `tables` and `pictures`. `equal` compares results.
//!
//! It uses the libraries from above, so that they are proved once.
#![tactic(auto)]

#[cfg(test)]
mod drawing;
#[cfg(test)]
mod equal;
#[cfg(test)]
mod grammar;
#[cfg(test)]
mod journals;
#[cfg(test)]
mod least_blocks;
#[cfg(test)]
mod reading;
#[cfg(test)]
mod reports;
