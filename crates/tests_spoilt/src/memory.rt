//! Lack of memory: each test passes with any one allocation of its run made to fail.
//!
//! A call that fails for this reason returns nothing else, leaves everything unchanged, and works when it is repeated.
//! `tests/test_memory.py` fails every allocation of these tests in turn; each test except that of `cell_growths` prints which
//! call failed.
mod batches;
mod cell_growths;
mod devices;
mod node_growths;
mod nodes;
mod parts;
mod programs;
mod runs;
