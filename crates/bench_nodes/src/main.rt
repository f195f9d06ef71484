//! Measures the calls of links and pages, and of a shared node.
//!
//! The arguments are two numbers: the rounds of links and pages, and the rounds of each thread on a shared node. The default is
//! 1,000 each; 0 leaves the part out. The times are printed on standard error.
#![tactic(auto)]

mod cells;
mod nodes;
mod stopwatch;
mod tables;

use anyhow::{Context, Result};
use std::env::{self, Env};

fn main(rt: HostRuntime) -> Result<()> {
    let rounds = asked(&rt, 1)?;
    if rounds > 0 {
        tables::time_all(&rt, rounds)?;
    }
    let rounds = asked(&rt, 2)?;
    if rounds > 0 {
        cells::time_all(&rt, rounds)?;
    }
    Ok(())
}

// The program's argument of this number, or 1,000 if there is none.
fn asked<R: Env + AllocGlobal>(rt: &R, number: usize) -> Result<u32> {
    match env::args(rt)?.nth(number) {
        Some(word) => word.as_str().parse::<u32>().context("rounds"),
        None => Ok(1000),
    }
}
