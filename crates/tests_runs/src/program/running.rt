//! Shared parts of rows of runs: a run in memory, and comparisons of its result.
use std::alloc::Global;
use std::thread::Threads;
use thp_run::{NoGate, Report, RunFault, Settings, Watched, run};

/// The report of a script by these settings.
pub(crate) fn run_with<T: Threads + Sync>(
    rt: &T,
    alloc: Global,
    settings: &Settings,
    script: &[u8],
) -> Result<Vec<u8>, RunFault> {
    let mut reader = Watched::new(script);
    let mut writer: Watched<Vec<u8>> = Watched::new(Vec::new(alloc));
    run(rt, alloc, settings, &mut reader, &mut writer, &NoGate)?;
    Ok(writer.into_inner())
}

/// The totals of a script on a node of this many blocks.
fn totals_of<T: Threads + Sync>(
    rt: &T,
    alloc: Global,
    blocks: u32,
    script: &[u8],
) -> Result<Vec<u8>, RunFault> {
    let Some(settings) = Settings::new(1, blocks, 1, Report::Totals) else {
        return Err(RunFault::OutOfMemory);
    };
    run_with(rt, alloc, &settings, script)
}

/// Whether the totals are this text.
pub(crate) fn reports<T: Threads + Sync>(
    rt: &T,
    alloc: Global,
    blocks: u32,
    script: &[u8],
    report: &[u8],
) -> bool {
    match totals_of(rt, alloc, blocks, script) {
        Ok(text) => text.as_slice() == report,
        Err(_) => false,
    }
}

/// Whether the script is refused with this line of standard error.
pub(crate) fn refuses<T: Threads + Sync>(
    rt: &T,
    alloc: Global,
    script: &[u8],
    reported: &str,
) -> bool {
    match totals_of(rt, alloc, 16, script) {
        Ok(_) => false,
        Err(fault) => match format!(in alloc; "{fault}") {
            Ok(text) => text.as_str() == reported,
            Err(_) => false,
        },
    }
}
