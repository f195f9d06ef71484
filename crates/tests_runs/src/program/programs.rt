//! The program: from the words of its command line to its exit status and its output.
use crate::program::whole_runs::FIRST_SCRIPT;
use std::alloc::{AllocError, Global};
use std::process::Abort;
use std::thread::Threads;
use thp_run::{Watched, run_program};

/// The result of the program: its exit status, standard output and standard error.
struct Ended {
    status: u8,
    output: Vec<u8>,
    errors: Vec<u8>,
}

fn words_of(alloc: Global, words: &[&str]) -> Result<Vec<String>, AllocError> {
    let mut all = Vec::new(alloc);
    for word in words {
        all.push(String::from_str(alloc, word)?)?;
    }
    Ok(all)
}

fn outcome_of<T: Threads + Sync>(
    rt: &T,
    alloc: Global,
    words: &[&str],
    input: &[u8],
) -> Result<Ended, AllocError> {
    let words = words_of(alloc, words)?;
    let mut reader = Watched::new(input);
    let mut output: Watched<Vec<u8>> = Watched::new(Vec::new(alloc));
    let mut errors: Watched<Vec<u8>> = Watched::new(Vec::new(alloc));
    let status = run_program(rt, alloc, Ok(words), &mut reader, &mut output, &mut errors);
    Ok(Ended {
        status,
        output: output.into_inner(),
        errors: errors.into_inner(),
    })
}

/// Whether the program ends with this status, this output and these errors.
fn ends<T: Threads + Sync>(
    rt: &T,
    alloc: Global,
    words: &[&str],
    input: &[u8],
    wanted: (u8, &[u8], &[u8]),
) -> bool {
    match outcome_of(rt, alloc, words, input) {
        Ok(
            Ended {
                status,
                output,
                errors,
            },
        ) => status == wanted.0 && output.as_slice() == wanted.1 && errors.as_slice() == wanted.2,
        Err(_) => false,
    }
}

const BAD_ORDERS: &[&[&str]] = &[
    &["thpsplit", "--orders", "10"],
    &["thpsplit", "--orders", "2,3"],
    &["thpsplit", "--nodes", "2", "--orders", "2,"],
    &["thpsplit", "--nodes", "2", "--orders", "9"],
    &["thpsplit", "--orders", "x", "--underused", "x"],
];

const BAD_THRESHOLDS: &[&[&str]] = &[
    &["thpsplit", "--underused", "512"],
    &["thpsplit", "--underused", "off,off"],
    &["thpsplit", "--underused", "on"],
    &["thpsplit", "--orders", "2", "--underused", "4"],
];

/// The program refuses each of these lines of words with this message.
fn expect_refused<T: Threads + Abort + Sync>(
    rt: &T,
    alloc: Global,
    lines: &[&[&str]],
    message: &[u8],
) {
    for words in lines {
        assert!(rt; ends(rt, alloc, words, b"fly\n", (2, b"", message)));
    }
}

#[test]
fn settings_that_are_refused(rt: HostRuntime) {
    expect_refused(&rt, rt.alloc(), BAD_ORDERS, b"thpsplit: bad orders\n");
    expect_refused(
        &rt,
        rt.alloc(),
        BAD_THRESHOLDS,
        b"thpsplit: bad underused\n",
    );
}

/// A line of words with its input, and what the program ends with.
type Row<'a> = (&'a [&'a str], &'a [u8], (u8, &'a [u8], &'a [u8]));

fn expect_ends<T: Threads + Abort + Sync>(rt: &T, alloc: Global, rows: &[Row<'_>]) {
    for row in rows {
        let (words, input, wanted) = *row;
        assert!(rt; ends(rt, alloc, words, input, wanted));
    }
}

const BY_NAME: &[Row<'static>] = &[
    (
        &["thpsplit", "--report", "journal"],
        FIRST_SCRIPT,
        (
            0,
            b"thp-journal 1\nnode 0 blocks 16\n0 alloc 0\n0 splitpmd 0\n0 unmapsub 0 0 256 queued -\n0 taken 0\n0 split 0 0-255\nend\n",
            b"",
        ),
    ),
    (
        &["thpsplit", "--report", "answers"],
        FIRST_SCRIPT,
        (
            0,
            b"0 1 page 0\n0 2 ok\n0 3 queued -\n0 4 taken 1 split 1 pinned 0 back 0 dropped 0\n",
            b"",
        ),
    ),
];

#[test]
fn reports_by_name(rt: HostRuntime) {
    expect_ends(&rt, rt.alloc(), BY_NAME);
}

const OF_TWO_ORDERS: &[u8] =
    b"setup\nalloc 0\nsplitpmd 0 0\nunmap 0 0 0 3\nunmap 0 0 3 2\nalloc 1\nsplitpmd 1 0\nunmap 1 0 0 511\nscan 0 8\nscan 1 8\n";

const TWO_ORDERS: &[Row<'static>] = &[
    (
        &[
            "thpsplit", "--nodes", "2", "--orders", "2,9", "--report", "answers",
        ],
        OF_TWO_ORDERS,
        (
            0,
            b"0 1 page 0\n0 2 ok\n0 3 queued -\n0 4 refused bad-range\n0 5 page 0\n0 6 ok\n0 7 queued -\n0 8 taken 1 split 1 pinned 0 back 0 dropped 0\n0 9 taken 1 split 1 pinned 0 back 0 dropped 0\n",
            b"",
        ),
    ),
    (
        &[
            "thpsplit", "--nodes", "2", "--orders", "2,9", "--report", "journal",
        ],
        OF_TWO_ORDERS,
        (
            0,
            b"thp-journal 2\nnode 0 blocks 16 order 2\n0 alloc 0\n0 splitpmd 0\n0 unmapsub 0 0 3 queued -\n0 taken 0\n0 split 0 0-2\nnode 1 blocks 16 order 9\n0 alloc 0\n0 splitpmd 0\n0 unmapsub 0 0 511 queued -\n0 taken 0\n0 split 0 0-510\nend\n",
            b"",
        ),
    ),
];

#[test]
fn two_orders(rt: HostRuntime) {
    expect_ends(&rt, rt.alloc(), TWO_ORDERS);
}

const CHECKS: &[Row<'static>] = &[
    (
        &["thpsplit", "--check", "--orders", "x"],
        b"thp-journal 1\nnode 0 blocks 1\n0 alloc 0\nend\n",
        (0, b"legal\n", b""),
    ),
    (
        &["thpsplit", "--check", "--orders", "x"],
        b"thp-journal 1\nnode 0 blocks 1\n0 pin 0\nend\n",
        (1, b"illegal line 3\n", b""),
    ),
    (
        &["thpsplit", "--check", "--orders", "x"],
        b"thp-journal 1\nnode 0 blocks 1\n0 pin 0\n",
        (2, b"", b"thpsplit: line 4: cut\n"),
    ),
];

#[test]
fn checks_of_journals(rt: HostRuntime) {
    expect_ends(&rt, rt.alloc(), CHECKS);
}

#[test]
fn faults_of_scripts(rt: HostRuntime) {
    let words = ["thpsplit"];
    let wanted: (u8, &[u8], &[u8]) = (2, b"", b"thpsplit: line 1: bad-word\n");
    assert!(rt; ends(&rt, rt.alloc(), words.as_slice(), b"fly\n", wanted));
}
