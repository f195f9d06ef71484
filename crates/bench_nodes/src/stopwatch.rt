//! The time that equal rounds take.

use anyhow::Result;
use std::fmt::Display;
use std::time::{CpuClock, Duration};

/// The processor time of this thread since a start.
#[derive(Drop)]
pub(crate) struct Stopwatch {
    start: Duration,
}

impl Stopwatch {
    /// Starts a stopwatch.
    pub(crate) fn start<R: CpuClock>(rt: &R) -> Result<Stopwatch> {
        Ok(Stopwatch {
            start: rt.thread_cpu_time()?,
        })
    }

    /// Prints the nanoseconds per round on standard error, with the sum of the results.
    pub(crate) fn report<R: CpuClock + Eprint, D: Display + Drop>(
        &self,
        rt: &R,
        what: D,
        rounds: u32,
        sum: u64,
    ) -> Result<()> {
        let spent = rt.thread_cpu_time()?.saturating_sub(self.start);
        report_nanos(rt, what, rounds, spent.as_nanos(), sum)
    }
}

/// Prints the nanoseconds per round on standard error, given the total, with the sum of the results.
pub(crate) fn report_nanos<R: Eprint, D: Display + Drop>(
    rt: &R,
    what: D,
    rounds: u32,
    nanos: u128,
    sum: u64,
) -> Result<()> {
    let tenths = nanos.saturating_mul(10) / u128::from(rounds.max(1));
    let (nanos, tenth) = (tenths / 10, tenths % 10);
    eprintln!(rt; "{what}: {nanos}.{tenth} ns a round (answers: {sum})")?;
    Ok(())
}
