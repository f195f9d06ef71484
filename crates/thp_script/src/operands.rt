//! Parses commands from the words of a line.
ghost use Rattle.std.specs.Prelude.{◌≡◌, ◌≤◌, ◌<◌, ◌^◌, Err, IfOk, MatchResult, Ok};
ghost use Rattle.thp_script.specs.Prelude.{batch_command, batch_op, command_of, node_command, node_number, number_up_to, one_word, page_command, page_op, range_command, range_op, two_words};
ghost use Rattle.thp_script.specs.Commands.{four_words};

use crate::fault::TextKind;
use crate::limits::MAX_OPERAND;
use crate::script::{BatchCall, Command, CommandWord, Op, RangeCall, command_word};
use crate::settings::Settings;
use crate::words::{Words, number};
use thp_history::{MAX_BATCH, PageCall, PageId};

#[inline(always)]
pub(crate) fn number_up_to(most: u64, word: &[u8]) -> Result<u64, TextKind>
    ensures value { result ≡ number_up_to most word.now }
    ensures bound { IfOk result (λ n. n ≤ most) }
{
    number(most, word).ok_or(TextKind::BadNumber)
}

/// Parses a number of at most `most`, which is below 2^32.
#[inline(always)]
fn small_number_up_to(most: u64, word: &[u8]) -> Result<u32, TextKind>
    requires { most < 2 ^ 32 }
    ensures value { result ≡ number_up_to most word.now }
    ensures bound { IfOk result (λ n. n ≤ most) }
{
    let value = number_up_to(most, word)?;
    Ok(value as u32)
}

#[inline(always)]
fn node_number(settings: &Settings, word: &[u8]) -> Result<u32, TextKind>
    ensures { result ≡ node_number settings.now word.now }
{
    let node = number_up_to(u64::from(settings.nodes - 1), word)?;
    Ok(node as u32)
}

/// Returns the only word of these.
#[inline(always)]
pub fn one_word<'a>(mut words: Words<'a>) -> Result<&'a [u8], TextKind>
    ensures { MatchResult result (λ word. one_word words.entry ≡ Ok word.now) (λ kind. one_word words.entry ≡ Err kind) }
{
    match (words.next(), words.next()) {
        (Some(word), None) => Ok(word),
        _ => Err(TextKind::BadCount),
    }
}

/// Returns the two words of these, if there are exactly two.
#[inline(always)]
fn two_words<'a>(mut words: Words<'a>) -> Result<(&'a [u8], &'a [u8]), TextKind>
    ensures { MatchResult result (λ word. two_words words.entry ≡ Ok (word.0.now, word.1.now)) (λ kind. two_words words.entry ≡ Err kind) }
{
    match (words.next(), words.next(), words.next()) {
        (Some(first), Some(second), None) => Ok((first, second)),
        _ => Err(TextKind::BadCount),
    }
}

/// Returns the four words of these, if there are exactly four.
#[inline(always)]
fn four_words<'a>(
    mut words: Words<'a>,
) -> Result<(&'a [u8], &'a [u8], &'a [u8], &'a [u8]), TextKind>
    ensures { MatchResult result (λ word. four_words words.entry ≡ Ok (word.0.now, word.1.now, word.2.now, word.3.now)) (λ kind. four_words words.entry ≡ Err kind) }
{
    let (Some(first), Some(second)) = (words.next(), words.next()) else {
        return Err(TextKind::BadCount);
    };
    let (third, fourth) = two_words(words)?;
    Ok((first, second, third, fourth))
}

/// Parses a command on a whole node: `NODE`
#[tactic(auto, unfolding(crate::specs::Commands::node_command))]
#[inline(always)]
fn node_command(settings: &Settings, op: Op, words: Words) -> Result<Command, TextKind>
    ensures { result ≡ node_command op settings.now words.entry }
{
    let node = node_number(settings, one_word(words)?)?;
    Ok(Command { node, op })
}

/// Parses a command on a page: `NODE PAGE`
#[tactic(auto, unfolding(crate::specs::Commands::page_command))]
#[inline(always)]
fn page_command(settings: &Settings, call: PageCall, words: Words) -> Result<Command, TextKind>
    ensures { result ≡ page_command (page_op call) settings.now words.entry }
{
    let (node, page) = two_words(words)?;
    let node = node_number(settings, node)?;
    let page = number_up_to(u64::MAX, page)?;
    Ok(Command {
        node,
        op: Op::of_page(PageId(page), call),
    })
}

/// Parses a command on a range of a page's subpages: `NODE PAGE FIRST COUNT`
#[tactic(auto, unfolding(crate::specs::Commands::range_command))]
#[inline(always)]
fn range_command(settings: &Settings, call: RangeCall, words: Words) -> Result<Command, TextKind>
    ensures { result ≡ range_command (range_op call) settings.now words.entry }
{
    let (node, page, first, count) = four_words(words)?;
    let node = node_number(settings, node)?;
    let page = number_up_to(u64::MAX, page)?;
    let first = small_number_up_to(MAX_OPERAND, first)?;
    let count = small_number_up_to(MAX_OPERAND, count)?;
    Ok(Command {
        node,
        op: call.op(PageId(page), first, count),
    })
}

/// Parses a scan or a take: `NODE COUNT`
#[tactic(auto, unfolding(crate::specs::Commands::batch_command))]
#[inline(always)]
fn batch_command(settings: &Settings, call: BatchCall, words: Words) -> Result<Command, TextKind>
    ensures { result ≡ batch_command (batch_op call) settings.now words.entry }
{
    let (node, count) = two_words(words)?;
    let node = node_number(settings, node)?;
    let count = small_number_up_to(MAX_BATCH as u64, count)?;
    Ok(Command {
        node,
        op: call.op(count),
    })
}

/// Parses the command that the first word names, with its operands.
pub(crate) fn command_of(
    settings: &Settings,
    name: &[u8],
    words: Words,
) -> Result<Command, TextKind>
    ensures { result ≡ command_of settings.now name.now words.entry }
{
    match command_word(name)? {
        CommandWord::OfNode(op) => node_command(settings, op, words),
        CommandWord::OfPage(call) => page_command(settings, call, words),
        CommandWord::OfRange(call) => range_command(settings, call, words),
        CommandWord::OfBatch(call) => batch_command(settings, call, words),
    }
}
