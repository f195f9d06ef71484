//! The checks of journal texts: of a whole text, and of one that arrives in parts.
ghost use Rattle.std.specs.Prelude.{◌≡◌, [], IfErr, IfOk, Some};
ghost use Rattle.thp_capi.specs.Checks.{CheckAnswer, ReportsText, code_and_line, text_code};
ghost use Rattle.thp_capi.specs.LongChecks.{CheckHasRead, CheckReadsOn, Judges, WhyNoReason, reason_of, verdict_numbers};

use crate::codes::Fault;
use std::alloc::{AllocError, Global};
use thp_check::put_explanation;
use thp_journal_reader::{Illegal, LongCheck};
use thp_script::{ReadFault, TextFault, TextKind};

// The code of a kind of error.
fn code_of_kind(kind: TextKind) -> u32
    ensures { result ≡ text_code kind }
{
    22 + kind as u32
}

/// Checks whether the journals in a text are legal. Returns 0 if they are, 21 for an illegal event, 22 to 29 for an error of that
/// kind in the text, and 11 if memory can't be allocated. `line` is the line of the first illegal event or error, otherwise 0.
pub fn check_text(alloc: Global, text: &[u8], line: &mut u32) -> u32
    ensures { (answer : CheckAnswer) × ReportsText text.now answer × ((result, line.new) ≡ code_and_line answer) }
{
    let (code, at) = match thp_journal_reader::check_text(alloc, text) {
        Ok(None) => (0, 0),
        Ok(Some(line)) => (21, line),
        Err(ReadFault::Text { line, kind }) => (code_of_kind(kind), line),
        Err(ReadFault::OutOfMemory) => (11, 0),
    };
    *line = at;
    code
}

/// A check that is still reading, or the verdict of a finished one: the first illegal event, if any, or the first error in the
/// text.
#[derive(Drop)]
pub enum CheckStage {
    /// The check reads more text.
    Reading(LongCheck),
    /// The check is finished: its verdict.
    Judged(Result<Option<Illegal>, TextFault>),
}

/// Begins a check, which has read nothing.
pub fn begin_check(alloc: Global) -> LongCheck
    ensures { CheckHasRead result [] }
{
    LongCheck::new(alloc)
}

/// Reads the next part of the text. Fails if memory can't be allocated.
pub fn read_on(check: LongCheck, part: &[u8]) -> Result<LongCheck, AllocError>
    ensures { IfOk result (CheckReadsOn part.now check) }
{
    check.read_part(part)
}

/// Returns the verdict, which is computed here unless it exists already.
pub fn judge(stage: CheckStage) -> Result<Option<Illegal>, TextFault>
    ensures { Judges stage result }
{
    match stage {
        CheckStage::Reading(check) => check.finish(),
        CheckStage::Judged(verdict) => verdict,
    }
}

/// Returns the code of a verdict, and its line.
pub fn verdict_code(verdict: &Result<Option<Illegal>, TextFault>) -> (u32, u64)
    ensures { (result.0, result.1) ≡ verdict_numbers verdict.now }
{
    match verdict {
        Ok(None) => (0, 0),
        Ok(Some(illegal)) => (21, illegal.line),
        Err(fault) => (code_of_kind(fault.kind), fault.line),
    }
}

/// Returns why the first illegal event does not fit, as text.
pub fn reason_text(alloc: Global, stage: &CheckStage) -> Result<Vec<u8>, Fault>
    ensures text { IfOk result (λ text. reason_of stage.now ≡ Some text.items) }
    ensures why { IfErr result (WhyNoReason (reason_of stage.now)) }
{
    let CheckStage::Judged(Ok(Some(illegal))) = stage else {
        return Err(Fault::NoReason);
    };
    let mut text = Vec::new(alloc);
    put_explanation(&mut text, illegal.line, &illegal.event, &illegal.misfit)?;
    Ok(text)
}
