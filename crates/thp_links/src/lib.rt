//! Lists by index in constant work: a queue and a free chain.
//!
//! Both are linked through any table of link pairs (`LinkTable`): `queue` in both directions, `free_chain` by the `next` words.
//! No call allocates, except the creation of `link_vec`, a table that has nothing but links, and of `reserved_vec`, a vector that
//! takes memory as its elements are set. A ghost count (`access_count`) bounds the accesses of each call.
//!
//! Contracts see the list of indices. `Indices` defines lists without repeats; `Standing` (`Stands`, `ChainStands`) states when
//! a list is stored in the links. Proofs: `QueueSteps`, `ChainSteps`, `OneTable` (two lists in one table leave each other
//! alone).
#![tactic(auto)]

mod access_count;
mod free_chain;
mod index_list;
mod link;
mod link_vec;
mod queue;
mod reserved_vec;
mod table;

pub use access_count::AccessCount;
pub use free_chain::FreeChain;
pub use link::{Link, NIL};
pub use link_vec::LinkVec;
pub use queue::Queue;
pub use reserved_vec::ReservedVec;
pub use table::LinkTable;
