//! Reports on nodes and answers written out, whose texts are known beforehand.

mod answers;
mod journals;
mod nodes;
mod parts;
mod totals;
