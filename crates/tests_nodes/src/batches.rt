//! Rows on batches of a node: takes, tries and put backs as separate calls, and batches of the greatest size.

mod full_batch;
mod rows;
mod steps;
mod underused_rows;
