//! The program's messages on standard error, and its exit status.
ghost use Rattle.std.specs.Prelude.{◌≡◌, ◌≤◌, ◌++◌, Err, false, length};
ghost use Rattle.arrayvec.specs.ArrayString.{array_string_len};
ghost use Rattle.thp_script.specs.Prelude.{kind_word};
ghost use Rattle.thp_cli.specs.Prelude.{WriterTakes, WritesMessage, device_of, end_status, fault_line, fault_text, name_front, no_node_line, status_of};

use crate::device::write_text;
use crate::ending::{Ending, Program, ProgramFault};
use crate::fault::RunFault;
use crate::watched::Watched;
use arrayvec::ArrayString;
use itoa::Buffer;
use std::io::Write;
use thp_script::TextKind;

/// The exit status if the report, the verdict or the requested text was written.
const DONE: u8 = 0;
/// The exit status if a journal is illegal.
const ILLEGAL: u8 = 1;
/// The exit status of an error in the script, the journal or the command line.
const FAULTY: u8 = 2;
/// The exit status if memory could not be allocated, or a read or a write failed.
const FAILED: u8 = 3;

/// The room for a line that states an error, in bytes. The longest one has 48.
const LINE: usize = 96;

/// Returns the exit status of a program that did what was requested.
pub fn status_of_ending(ending: Ending) -> u8
    ensures { result ≡ end_status ending }
{
    match ending {
        Ending::Written => DONE,
        Ending::Illegal => ILLEGAL,
    }
}

/// Returns the prefix of a program's lines on standard error: its name.
pub fn name_front(program: Program) -> &'static str
    ensures name { result.now ≡ name_front program }
    ensures short { length result.now ≤ 10 }
{
    match program {
        Program::Thpsplit => "thpsplit: ",
        Program::Thpcheck => "thpcheck: ",
        Program::Thpdraw => "thpdraw: ",
    }
}

/// Appends what an error displays to a line that has only a name.
fn put_fault(text: &mut ArrayString<LINE>, fault: &RunFault<u64>)
    requires room { array_string_len text.old ≤ 10 }
    ensures bytes { text.new.bytes ≡ text.old.bytes ++ fault_text fault.now }
    ensures few { array_string_len text.new ≤ 80 }
{
    match fault {
        RunFault::Text { line, kind } => {
            text.push_str("line ");
            text.push_str(Buffer::new().format(*line));
            text.push_str(": ");
            text.push_str(kind.word());
        }
        RunFault::OutOfMemory => text.push_str("out of memory"),
        RunFault::Read => text.push_str("read failed"),
        RunFault::Write => text.push_str("write failed"),
    }
}

/// Returns a line that has only the program's name.
fn named_line(program: Program) -> ArrayString<LINE>
    ensures bytes { result.bytes ≡ name_front program }
    ensures short { array_string_len result ≤ 10 }
{
    let mut text = ArrayString::new();
    text.push_str(name_front(program));
    text
}

/// Returns the line that states an error of a run, with the program's name. It needs no memory, so it states every error as it is.
#[tactic(auto, unfolding(crate::specs::Outcomes::fault_line))]
fn fault_line(program: Program, fault: &RunFault<u64>) -> ArrayString<LINE>
    ensures { result.bytes ≡ fault_line program fault.now }
{
    let mut text = named_line(program);
    put_fault(&mut text, fault);
    text.push_str("\n");
    text
}

/// Returns the line about a node that the journal does not have, with the program's name.
#[tactic(auto, unfolding(crate::specs::Outcomes::no_node_line))]
fn no_node_line(program: Program, number: u32) -> ArrayString<LINE>
    ensures { result.bytes ≡ no_node_line program number }
{
    let mut text = named_line(program);
    text.push_str("no node ");
    text.push_str(Buffer::new().format(number));
    text.push_str("\n");
    text
}

/// Writes a text to standard error. A failure is ignored, as it can't be reported.
pub fn report_message<E: Write>(errors: &mut Watched<E>, text: &[u8])
    requires { errors.old.failed ≡ false }
    ensures { WriterTakes (device_of E.contents errors.old errors.new) text.now }
{
    let _ = write_text(errors, text);
}

/// Reports the error of a run or a check, and returns the exit status. It allocates nothing.
pub fn report_run_fault<E: Write>(
    program: Program,
    fault: RunFault<u64>,
    errors: &mut Watched<E>,
) -> u8
    requires { errors.old.failed ≡ false }
    ensures reported { WriterTakes (device_of E.contents errors.old errors.new) (fault_line program fault) }
    ensures status { result ≡ status_of fault }
{
    let text = fault_line(program, &fault);
    report_message(errors, text.as_str().as_bytes());
    match fault {
        RunFault::Text { .. } => FAULTY,
        _ => FAILED,
    }
}

/// Reports why the program did not do what was requested, and returns the exit status. It allocates nothing.
pub fn report_fault<E: Write>(program: Program, fault: ProgramFault, errors: &mut Watched<E>) -> u8
    requires { errors.old.failed ≡ false }
    ensures { WritesMessage program (device_of E.contents errors.old errors.new) result (Err fault) }
{
    match fault {
        ProgramFault::Run(fault) => return report_run_fault(program, fault, errors),
        ProgramFault::Usage(text) => report_message(errors, text.as_bytes()),
        ProgramFault::Orders => report_message(errors, b"thpsplit: bad orders\n"),
        ProgramFault::Underused => report_message(errors, b"thpsplit: bad underused\n"),
        ProgramFault::NoNode(number) => {
            report_message(errors, no_node_line(program, number).as_str().as_bytes());
        }
        ProgramFault::NoText => report_message(
            errors,
            b"error: invalid UTF-8 was detected in one or more arguments\n",
        ),
    }
    FAULTY
}
