//! The meaning of a line of a script.
ghost use Rattle.std.specs.Prelude.{◌≡◌};
ghost use Rattle.thp_script.specs.Statements.{by_words, may_stand, says_nothing, section_after, setup_of, statement_in, statement_of, worker_of};

use crate::fault::TextKind;
use crate::lines::{fault_of_line, is_printable};
use crate::operands::{command_of, number_up_to, one_word};
use crate::script::Command;
use crate::settings::Settings;
use crate::words::Words;

/// The meaning of a line.
#[derive(Clone, Copy)]
pub(crate) enum Statement {
    /// Nothing: the line is empty or a comment.
    Nothing,
    /// The start of a section: 0 for `setup`, otherwise the number of its worker.
    Section(u32),
    /// A command of the section.
    Call(Command),
}

/// Parses the section line of a worker: `worker K`, with K from 1 to the number of workers.
#[tactic(auto, unfolding(crate::specs::Statements::worker_of))]
fn worker_of(settings: &Settings, words: Words) -> Result<Statement, TextKind>
    ensures { result ≡ worker_of settings.now words.entry }
{
    match number_up_to(u64::from(settings.workers), one_word(words)?)? {
        0 => Err(TextKind::BadNumber),
        worker => Ok(Statement::Section(worker as u32)),
    }
}

/// Parses the section line `setup`.
fn setup_of(mut words: Words) -> Result<Statement, TextKind>
    ensures { result ≡ setup_of words.entry }
{
    match words.next() {
        None => Ok(Statement::Section(0)),
        Some(_) => Err(TextKind::BadCount),
    }
}

/// Parses a section line or a command.
#[tactic(auto, unfolding(crate::specs::Statements::section_or_call))]
fn by_words(settings: &Settings, mut words: Words) -> Result<Statement, TextKind>
    ensures { result ≡ by_words settings.now words.entry }
{
    let name = words.next().ok_or(TextKind::BadWord)?;
    if name == b"setup".as_slice() {
        return setup_of(words);
    }
    if name == b"worker".as_slice() {
        return worker_of(settings, words);
    }
    Ok(Statement::Call(command_of(settings, name, words)?))
}

fn says_nothing(line: &[u8]) -> bool
    ensures { result ≡ says_nothing line.now }
{
    matches!(line, [] | [b'#', ..])
}

/// Parses a whole line. A line that parses as a statement has no bad bytes and no empty words, so its bytes are tested again only
/// if it does not parse.
#[tactic(auto, unfolding(crate::specs::Statements::statement_of))]
fn statement_of(settings: &Settings, line: &[u8]) -> Result<Statement, TextKind>
    ensures { result ≡ statement_of settings.now line.now }
{
    if says_nothing(line) {
        if is_printable(line) {
            return Ok(Statement::Nothing);
        }
        return Err(TextKind::BadByte);
    }
    match by_words(settings, Words::of_line(line)) {
        Ok(statement) => Ok(statement),
        Err(reading) => Err(fault_of_line(line, reading)),
    }
}

fn may_stand(section: Option<u32>, statement: &Statement) -> bool
    ensures { result ≡ may_stand section statement.now }
{
    match (section, statement) {
        (Some(last), Statement::Section(next)) => last < *next,
        (None, Statement::Call(_)) => false,
        _ => true,
    }
}

/// Returns the section after a line, given the section before it.
pub(crate) fn section_after(section: Option<u32>, statement: &Statement) -> Option<u32>
    ensures { result ≡ section_after section statement.now }
{
    match statement {
        Statement::Section(next) => Some(*next),
        Statement::Nothing | Statement::Call(_) => section,
    }
}

/// Parses a whole line at its position.
#[tactic(auto, unfolding(crate::specs::Statements::statement_in))]
pub(crate) fn statement_in(
    settings: &Settings,
    section: Option<u32>,
    line: &[u8],
) -> Result<Statement, TextKind>
    ensures { result ≡ statement_in settings.now section line.now }
{
    let statement = statement_of(settings, line)?;
    if !may_stand(section, &statement) {
        return Err(TextKind::BadOrder);
    }
    Ok(statement)
}
