//! The program on devices that fail: its exit status, and its messages on standard error.
use crate::devices::{LARGE, Manner, Mishap, Sink, Source};
use crate::passages::{FIRST_SCRIPT, JOURNAL};
use std::alloc::Global;
use std::io::ErrorKind;
use std::thread::Threads;
use thp_run::{Watched, run_program};

/// The words of a command line, and what is read.
#[derive(Clone, Copy)]
struct Task {
    word: &'static str,
    input: &'static [u8],
}

const TASKS: [Task; 4] = [
    Task {
        word: "--nodes=2",
        input: FIRST_SCRIPT,
    },
    Task {
        word: "--check",
        input: JOURNAL,
    },
    Task {
        word: "--report=journal",
        input: FIRST_SCRIPT,
    },
    Task {
        word: "--version",
        input: b"",
    },
];

/// Scripts and journals with errors, and the messages about them.
const FAULTY: [(Task, &[u8]); 2] = [
    (
        Task {
            word: "--nodes=2",
            input: b"fly\n",
        },
        b"thpsplit: line 1: bad-word\n",
    ),
    (
        Task {
            word: "--check",
            input: b"thp-journal 1",
        },
        b"thpsplit: line 1: cut\n",
    ),
];

/// The result of the program: its exit status, the numbers of its reads and writes, standard output and standard error.
#[derive(Drop)]
struct Ended {
    status: u8,
    reads: u32,
    writes: u32,
    output: Vec<u8>,
    errors: Vec<u8>,
}

/// The result of the program on devices of these behaviours.
fn end_of<T: Threads + Sync>(
    rt: &T,
    alloc: Global,
    task: &Task,
    reads: Manner,
    writes: Manner,
    reports: Manner,
) -> Option<Ended> {
    let mut words = Vec::new(alloc);
    for word in ["thpsplit", task.word] {
        words.push(String::from_str(alloc, word).ok()?).ok()?;
    }
    let mut reader = Watched::new(Source::new(task.input, 0, reads));
    let mut output = Watched::new(Sink::new(alloc, writes));
    let mut errors = Watched::new(Sink::new(alloc, reports));
    let status = run_program(rt, alloc, Ok(words), &mut reader, &mut output, &mut errors);
    let source = reader.into_inner();
    let output = output.into_inner();
    Some(Ended {
        status,
        reads: source.calls,
        writes: output.calls,
        output: output.held,
        errors: errors.into_inner().held,
    })
}

/// Whether the program ended with this status and these messages, after this many bytes of output.
fn has_ended(ended: &Ended, status: u8, reported: &[u8], written: usize) -> bool {
    ended.status == status && ended.errors.as_slice() == reported && ended.output.len() == written
}

const FAILS: Mishap = Mishap::Fails(ErrorKind::Other);

/// Makes each read of the program fail in turn; returns the number of cases, or `None` if one ends wrong.
fn fail_reads<T: Threads + Sync>(rt: &T, alloc: Global, task: &Task) -> Option<u32> {
    let all = end_of(rt, alloc, task, Manner::by(1), LARGE, LARGE)?.reads;
    for call in 0..all {
        let reads = Manner::with(1, call, FAILS);
        let ended = end_of(rt, alloc, task, reads, LARGE, LARGE)?;
        if !has_ended(&ended, 3, b"thpsplit: read failed\n".as_slice(), 0) {
            return None;
        }
    }
    Some(all)
}

/// Makes each write to standard output fail in turn; returns the number of cases, or `None` if one ends wrong.
fn fail_writes<T: Threads + Sync>(rt: &T, alloc: Global, task: &Task) -> Option<u32> {
    let all = end_of(rt, alloc, task, LARGE, Manner::by(1), LARGE)?.writes;
    for call in 0..all {
        let writes = Manner::with(1, call, FAILS);
        let ended = end_of(rt, alloc, task, LARGE, writes, LARGE)?;
        let reported = b"thpsplit: write failed\n".as_slice();
        if !has_ended(&ended, 3, reported, call as usize) {
            return None;
        }
    }
    Some(all)
}

/// Makes each write to standard error fail in turn, which does not change the exit status; returns the number of cases, or `None`
/// if one ends wrong.
fn fail_reports<T: Threads + Sync>(
    rt: &T,
    alloc: Global,
    task: &Task,
    reported: &[u8],
) -> Option<u32> {
    let mut tried = 0u32;
    for count in 0..=reported.len() {
        let reports = Manner::with(1, tried, FAILS);
        let ended = end_of(rt, alloc, task, LARGE, LARGE, reports)?;
        if !has_ended(&ended, 2, &reported[..count], 0) {
            return None;
        }
        tried = tried.saturating_add(1);
    }
    Some(tried)
}

/// Makes each read and each write of each task fail in turn; returns the number of cases, or `None` if one ends wrong.
fn fail_tasks<T: Threads + Sync>(rt: &T, alloc: Global) -> Option<(u32, u32)> {
    let mut reads = 0u32;
    let mut writes = 0u32;
    for task in &TASKS {
        reads = reads.saturating_add(fail_reads(rt, alloc, task)?);
        writes = writes.saturating_add(fail_writes(rt, alloc, task)?);
    }
    Some((reads, writes))
}

#[test]
fn failing_devices(rt: HostRuntime) {
    assert!(rt; fail_tasks(&rt, rt.alloc()) == Some((219, 411)));
}

/// Makes each write to standard error fail in turn for each text with an error; returns the number of cases, or `None` if one
/// ends wrong.
fn fail_all_reports<T: Threads + Sync>(rt: &T, alloc: Global) -> Option<u32> {
    let mut tried = 0u32;
    for (task, reported) in &FAULTY {
        tried = tried.saturating_add(fail_reports(rt, alloc, task, reported)?);
    }
    Some(tried)
}

#[test]
fn failing_standard_error(rt: HostRuntime) {
    assert!(rt; fail_all_reports(&rt, rt.alloc()) == Some(51));
}
