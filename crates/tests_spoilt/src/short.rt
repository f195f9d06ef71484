//! Devices that move a few bytes per call.
use crate::devices::Manner;
use crate::passages::{WORKS, Work, done, whole};
use std::alloc::Global;
use std::thread::Threads;

/// Whether this many calls move this many bytes in such steps: a last read returns none, and a flush is a call.
fn is_count(calls: u32, bytes: usize, step: usize) -> Option<bool> {
    let least = u32::try_from(bytes.checked_div(step)?).ok()?;
    Some(calls > least && calls <= least.saturating_add(2))
}

/// Whether devices of these steps pass the same bytes as large ones, in as many calls as that takes.
fn is_same<T: Threads + Sync>(
    rt: &T,
    alloc: Global,
    work: &Work,
    read: usize,
    write: usize,
) -> Option<bool> {
    let all = whole(rt, alloc, work)?;
    let some = done(rt, alloc, work, Manner::by(read), Manner::by(write));
    Some(
        some.ended.is_ok()
            && some.held.as_slice() == all.as_slice()
            && is_count(some.reads, work.text.len(), read)?
            && is_count(some.writes, all.len(), write)?,
    )
}

/// Passes each work with all pairs of steps; returns the number passed, or `None` if one differs.
fn pass_all<T: Threads + Sync>(rt: &T, alloc: Global) -> Option<u32> {
    let mut tried = 0u32;
    for work in &WORKS {
        for read in [1, 2, 3, 7] {
            for write in [1, 2, 3, 7] {
                if !is_same(rt, alloc, work, read, write)? {
                    return None;
                }
                tried = tried.saturating_add(1);
            }
        }
    }
    Some(tried)
}

#[test]
fn short_reads_and_writes(rt: HostRuntime) {
    assert!(rt; pass_all(&rt, rt.alloc()) == Some(96));
}
