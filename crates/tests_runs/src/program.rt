//! Whole runs of scripts, with reports known beforehand, checks of journals, devices that fail, and the program from its words
//! on.

mod checks;
mod faults;
mod gated_reports;
mod programs;
mod running;
mod whole_runs;
