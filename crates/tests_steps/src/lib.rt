//! Calls on a node as values, for tables of calls and results.
//!
//! Several crates of tests use it; it has no tests, so that it is proved once.
#![tactic(auto)]

mod calls;

pub use calls::{
    Answer, Call, FREED, QUEUED, STAYS, answer_of, done, first_wrong, outcome, queued_node,
    queueing, scanned, shape_of,
};
