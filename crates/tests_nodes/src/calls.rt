//! Rows on the calls of a node.

mod page_rows;
mod scan_rows;
mod steps;
mod underused_rows;
