//! Generated scripts of some 100,000 commands, run by up to 63 workers on eight nodes that they share. Plain walks that use none
//! of the definitions check the result of the run: each journal event by event, each worker's answers by its part.

mod batches;
mod commands;
mod pages;
mod parts;
mod runs;
mod scripts;
mod shared_nodes;
mod tallies;
mod texts;
mod walks;
