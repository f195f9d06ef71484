//! Sections as steps of callers on a real cell: rows on a node that is busy at chosen calls.

mod one_node;
mod rows;
mod sections;
mod stutter;
