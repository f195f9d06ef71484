//! Fast parsing of commands' operands at the beginning of a text, in one pass over its bytes. Lines that it does not parse, such
//! as section lines, comments and errors, are left to `statement`.
ghost use Rattle.std.specs.Prelude.{IfSome};
ghost use Rattle.thp_script.specs.Prelude.{FastOperands, reading_of};

use crate::fast_words::parse_number_fast;
use crate::limits::MAX_OPERAND;
use crate::script::{Command, CommandWord, Op};
use crate::settings::Settings;
use thp_history::{MAX_BATCH, PageId};

/// Parses the operands of a command, and returns it with the text after the line.
#[inline(always)]
pub(crate) fn parse_operands_fast<'t>(
    settings: &Settings,
    word: CommandWord,
    text: &'t [u8],
) -> Option<(Command, &'t [u8])>
    ensures { IfSome result (λ read. FastOperands (reading_of word settings.now) text.now read.0 read.1.now) }
{
    let most = u64::from(settings.nodes - 1);
    match word {
        CommandWord::OfNode(op) => {
            let (node, rest) = parse_number_fast(b'\n', most, text)?;
            let node = node as u32;
            Some((Command { node, op }, rest))
        }
        CommandWord::OfPage(call) => {
            let (node, rest) = parse_number_fast(b' ', most, text)?;
            let (page, rest) = parse_number_fast(b'\n', u64::MAX, rest)?;
            let node = node as u32;
            let op = Op::of_page(PageId(page), call);
            Some((Command { node, op }, rest))
        }
        CommandWord::OfRange(call) => {
            let (node, rest) = parse_number_fast(b' ', most, text)?;
            let (page, rest) = parse_number_fast(b' ', u64::MAX, rest)?;
            let (first, rest) = parse_number_fast(b' ', MAX_OPERAND, rest)?;
            let (count, rest) = parse_number_fast(b'\n', MAX_OPERAND, rest)?;
            let node = node as u32;
            let op = call.op(PageId(page), first as u32, count as u32);
            Some((Command { node, op }, rest))
        }
        CommandWord::OfBatch(call) => {
            let (node, rest) = parse_number_fast(b' ', most, text)?;
            let (count, rest) = parse_number_fast(b'\n', MAX_BATCH as u64, rest)?;
            let node = node as u32;
            let op = call.op(count as u32);
            Some((Command { node, op }, rest))
        }
    }
}
