//! The program `thpdraw`: reads a journal of any length from standard input, and writes a drawing of its nodes to standard
//! output.
//!
//! Exit status:
//!
//! - 0: the nodes were drawn, or the help or the version was written
//! - 1: a node that was drawn has an illegal event, and was drawn up to it
//! - 2: the journal or the command line has an error, or the journal lacks the requested node
//! - 3: memory could not be allocated, or a read or a write failed
//!
//! Error messages and the progress of the reading go to standard error. The work is done by
//! `thp_journal_tools::run_draw_program`; this crate passes it the words, the streams and the clock.
#![tactic(auto)]

use std::io::IsTerminal;
use std::process::ExitCode;
use thp_journal_tools::{Screen, Watched, run_draw_program, words_of};

fn main(rt: HostRuntime) -> ExitCode {
    let words = words_of(&rt);
    let mut reader = Watched::new(rt.reader());
    let mut output = Watched::new(rt.stdout());
    let mut errors = Watched::new(rt.stderr());
    let mut screen = Screen {
        writer: Watched::new(rt.stderr()),
        clock: rt,
        is_terminal: rt.stderr().is_terminal(),
    };
    let status = run_draw_program(
        rt.alloc(),
        words,
        &mut reader,
        &mut output,
        &mut errors,
        &mut screen,
    );
    ExitCode::from(status)
}
