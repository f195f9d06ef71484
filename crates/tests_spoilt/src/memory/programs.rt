//! The program without memory: its exit status, and its messages on standard error.
use crate::memory::devices::{Compares, print_call};
use crate::memory::runs::JOURNAL;
use std::alloc::{AllocError, Global};
use std::process::Abort;
use std::thread::Threads;
use thp_run::{Watched, run_program};

/// Words of a command line, the input, and the expected exit status, standard output and standard error.
#[derive(Clone, Copy)]
struct Task {
    words: [&'static str; 3],
    input: &'static [u8],
    status: u8,
    output: &'static [u8],
    errors: &'static [u8],
}

const TASKS: [Task; 4] = [
    Task {
        words: ["thpsplit", "--report", "answers"],
        input: b"setup\nalloc 0\nsplitpmd 0 0\nunmap 0 0 0 256\nscan 0 8\n",
        status: 0,
        output: b"0 1 page 0\n0 2 ok\n0 3 queued -\n0 4 taken 1 split 1 pinned 0 back 0 dropped 0\n",
        errors: b"",
    },
    Task {
        words: ["thpsplit", "--check", "--blocks=4"],
        input: JOURNAL,
        status: 0,
        output: b"legal\n",
        errors: b"",
    },
    Task {
        words: ["thpsplit", "--orders", "10"],
        input: b"",
        status: 2,
        output: b"",
        errors: b"thpsplit: bad orders\n",
    },
    Task {
        words: ["thpsplit", "--workers", "2"],
        input: b"worker 1\nfly\n",
        status: 2,
        output: b"",
        errors: b"thpsplit: line 2: bad-word\n",
    },
];

fn words_of(alloc: Global, words: &[&str]) -> Result<Vec<String>, AllocError> {
    let mut all = Vec::new(alloc);
    for word in words {
        all.push(String::from_str(alloc, word)?)?;
    }
    Ok(all)
}

/// The words, at the second try at the latest: their memory is not the program's.
fn words_at_last(rt: &impl Abort, alloc: Global, words: &[&str]) -> Vec<String> {
    match words_of(alloc, words) {
        Ok(words) => words,
        Err(_) => words_of(alloc, words).expect(rt, "words at the second try"),
    }
}

/// Whether memory could not be allocated: nothing was written, and the status is 3. `None` if the program ended wrong in another
/// way.
fn is_refused(task: &Task, status: u8, output: &Compares, reported: &Compares) -> Option<bool> {
    let is_right = if status == 3 {
        output.has_nothing()
    } else {
        status == task.status && output.has_all() && reported.has_all()
    };
    if is_right { Some(status == 3) } else { None }
}

/// Runs the program, and returns whether memory could not be allocated: then it writes nothing, reports that, and ends with
/// status 3.
fn end_once<T: Threads + Sync + Abort>(rt: &T, alloc: Global, task: &Task) -> bool {
    let words = words_at_last(rt, alloc, task.words.as_slice());
    let mut reader = Watched::new(task.input);
    let mut output = Watched::new(Compares::new(task.output));
    let mut reported = Watched::new(Compares::new(task.errors));
    let status = run_program(
        rt,
        alloc,
        Ok(words),
        &mut reader,
        &mut output,
        &mut reported,
    );
    let output = output.into_inner();
    let reported = reported.into_inner();
    is_refused(task, status, &output, &reported).expect(rt, "the end that is wanted")
}

#[test]
fn programs(rt: HostRuntime) {
    for task in &TASKS {
        if end_once(&rt, rt.alloc(), task) {
            print_call(&rt, "run_program");
            assert!(rt; !end_once(&rt, rt.alloc(), task));
        }
    }
}
