//! The numbers of nodes over their events, with expected values written out; their columns, tables and pictures.

mod checks;
mod columns;
mod large;
mod nodes;
mod pictures;
mod tables;
