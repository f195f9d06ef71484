//! The static library for C: its calls, on the handles of `thp_capi`.
//!
//! - `node`, `page_calls` (about one page, of nodes and of passes), `pass`, `check`.
//!
//! `c/thp.h` declares the library, `c/thp.c` wraps the exports; docs/C.md states, call by call, what is proved and what a C
//! program must ensure.
#![tactic(auto)]

mod check;
mod node;
mod page_calls;
mod pass;
