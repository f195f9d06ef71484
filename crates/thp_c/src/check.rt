//! The check of journals, exported: of a whole text, and of a text that arrives in parts.
ghost use Rattle.std.specs.Prelude.{◌≡◌};
ghost use Rattle.thp_capi.specs.Prelude.{CheckAnswer, CheckMade, CheckReads, CheckReports, Emptied, LongCheckEnds, Reports, ReportsText, code_and_line, value_of};

use std::alloc::Global;
use thp_capi::{
    CheckStage, Fault, Room, ThpCheck, attempt, begin_check, code, judge, put_text, read_on,
    reason_text, verdict_code,
};

/// Checks whether the journals in a text are legal. Returns 0 if they are, 21 for an illegal event, 22 to 29 for an error of that
/// kind in the text, and 11 if memory can't be allocated. `line` is the line of the first illegal event or error, otherwise 0.
#[unsafe(no_mangle)]
pub extern "C" fn thp_c_check_text(alloc: Global, text: &[u8], line: &mut u32) -> u32
    ensures { (answer : CheckAnswer) × ReportsText text.now answer × ((result, line.new) ≡ code_and_line answer) }
{
    thp_capi::check_text(alloc, text, line)
}

/// Creates a check that has read nothing, and fills the handle with it.
#[unsafe(no_mangle)]
pub extern "C" fn thp_c_check_create(handle: &mut ThpCheck, alloc: Global) -> u32
    ensures { Reports result (CheckMade (value_of handle.old.held) (value_of handle.new.held)) }
{
    if let Ok((room, stage)) = handle.take(alloc) {
        handle.put(room, stage);
        return code(Err(Fault::InUse));
    }
    let room = attempt!(Room::new(alloc));
    handle.put(room, CheckStage::Reading(begin_check(alloc)));
    code(Ok(()))
}

/// Frees the check that the handle refers to, and empties the handle.
#[unsafe(no_mangle)]
pub extern "C" fn thp_c_check_destroy(handle: &mut ThpCheck, alloc: Global) -> u32
    ensures { Reports result (Emptied (value_of handle.old.held) (value_of handle.new.held)) }
{
    let (room, stage) = attempt!(handle.take(alloc));
    drop(stage);
    drop(room);
    code(Ok(()))
}

/// Reads the next part of the text. If memory for that can't be allocated, the check is lost and the handle is empty.
#[unsafe(no_mangle)]
pub extern "C" fn thp_c_check_read(handle: &mut ThpCheck, alloc: Global, part: &[u8]) -> u32
    ensures { Reports result (CheckReads part.now (value_of handle.old.held) (value_of handle.new.held)) }
{
    let (room, stage) = attempt!(handle.take(alloc));
    match stage {
        CheckStage::Judged(verdict) => {
            handle.put(room, CheckStage::Judged(verdict));
            code(Err(Fault::Finished))
        }
        CheckStage::Reading(check) => {
            let check = attempt!(read_on(check, part));
            handle.put(room, CheckStage::Reading(check));
            code(Ok(()))
        }
    }
}

/// Finishes the check, unless it is finished already. Returns 0 if the text read is legal, 21 for an illegal event, and 22 to 29
/// for an error of that kind in the text. `line` is the line of the first illegal event or error, otherwise 0.
#[unsafe(no_mangle)]
pub extern "C" fn thp_c_check_finish(handle: &mut ThpCheck, alloc: Global, line: &mut u64) -> u32
    ensures { LongCheckEnds (value_of handle.old.held) (value_of handle.new.held) result line.old line.new }
{
    let Ok((room, stage)) = handle.take(alloc) else {
        return 12;
    };
    let verdict = judge(stage);
    let (code, at) = verdict_code(&verdict);
    handle.put(room, CheckStage::Judged(verdict));
    *line = at;
    code
}

/// Writes why the first illegal event does not fit, as text, to the start of the buffer if the text fits there. `size` is its
/// length in bytes.
#[unsafe(no_mangle)]
pub extern "C" fn thp_c_check_reason(
    handle: &mut ThpCheck,
    alloc: Global,
    buffer: &mut [u8],
    size: &mut usize,
) -> u32
    ensures { Reports result (CheckReports (value_of handle.old.held) (value_of handle.new.held) buffer.old buffer.new size.old size.new) }
{
    let (room, stage) = attempt!(handle.take(alloc));
    let text = reason_text(alloc, &stage);
    handle.put(room, stage);
    code(put_text(text, buffer, size))
}
