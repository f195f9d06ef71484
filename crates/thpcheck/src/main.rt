//! The program `thpcheck`: reads a journal of any length from standard input, and writes to standard output whether it is legal.
//!
//! Exit status:
//!
//! - 0: the journal is legal, or the help or the version was written
//! - 1: the journal is illegal
//! - 2: the journal or the command line has an error
//! - 3: memory could not be allocated, or a read or a write failed
//!
//! Error messages and the progress of the check go to standard error. The work is done by `thp_journal_tools::run_check_program`;
//! this crate passes it the words, the streams and the clock.
#![tactic(auto)]

use std::io::IsTerminal;
use std::process::ExitCode;
use thp_journal_tools::{Screen, Watched, run_check_program, words_of};

fn main(rt: HostRuntime) -> ExitCode {
    let words = words_of(&rt);
    let mut reader = Watched::new(rt.reader());
    let mut output = Watched::new(rt.stdout());
    let mut errors = Watched::new(rt.stderr());
    let mut screen = Screen {
        writer: Watched::new(rt.stderr()),
        clock: rt,
        is_terminal: rt.stderr().is_terminal(),
    };
    let status = run_check_program(
        rt.alloc(),
        words,
        &mut reader,
        &mut output,
        &mut errors,
        &mut screen,
    );
    ExitCode::from(status)
}
