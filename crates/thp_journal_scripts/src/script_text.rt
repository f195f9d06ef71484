//! The text of scripts: the lines of commands, and the options of `thpsplit` for them.
ghost use Rattle.std.specs.Prelude.{◌≡◌, ◌++◌, [], ◌∷◌, OnOk};
ghost use Rattle.std.specs.Fmt.{decimal};
ghost use Rattle.thp_journal_writer.specs.Prelude.{spaced_line, underused_word};
ghost use Rattle.thp_journal_scripts.specs.ScriptTexts.{command_line, commands_text, op_words, most_blocks, options_line, orders_text, thresholds_text};

use std::alloc::AllocError;
use thp_history::Shape;
use thp_journal_writer::{put, put_number};
use thp_script::{Command, Op};

/// Appends the line of a command, with its line feed. On error the text can contain a prefix of the line.
pub fn put_command(text: &mut Vec<u8>, command: Command) -> Result<(), AllocError>
    ensures { OnOk result (text.new.items ≡ text.old.items ++ command_line command) }
{
    let node = command.node;
    match &command.op {
        Op::Alloc => put_node(text, b"alloc ", node),
        Op::MapWhole { page } => put_page(text, b"mapwhole ", node, page.0),
        Op::UnmapWhole { page } => put_page(text, b"unmapwhole ", node, page.0),
        Op::Map { first, count, page } => put_range(text, b"map ", node, page.0, *first, *count),
        Op::Unmap { first, count, page } => put_range(
            text, b"unmap ", node, page.0, *first, *count,
        ),
        Op::Write { first, count, page } => put_range(
            text, b"write ", node, page.0, *first, *count,
        ),
        Op::Zero { first, count, page } => put_range(text, b"zero ", node, page.0, *first, *count),
        Op::SplitPmd { page } => put_page(text, b"splitpmd ", node, page.0),
        Op::Pin { page } => put_page(text, b"pin ", node, page.0),
        Op::Unpin { page } => put_page(text, b"unpin ", node, page.0),
        Op::Close => put_node(text, b"close ", node),
        Op::Scan { count } => put_page(text, b"scan ", node, u64::from(*count)),
        Op::Count => put_node(text, b"count ", node),
        Op::Take { count } => put_page(text, b"take ", node, u64::from(*count)),
        Op::SplitNext => put_node(text, b"splitnext ", node),
        Op::PutBack => put_node(text, b"putback ", node),
    }
}

/// Appends the lines of commands on a node. On error the text can contain a prefix of them.
pub(crate) fn put_commands(text: &mut Vec<u8>, node: u32, ops: &[Op]) -> Result<(), AllocError>
    ensures { OnOk result (text.new.items ≡ text.old.items ++ commands_text node ops.now) }
{
    for op in ops {
        put_command(text, Command { node, op: *op })?;
    }
    Ok(())
}

// a name, a node, and a line feed
#[inline(always)]
fn put_node(text: &mut Vec<u8>, name: &[u8], node: u32) -> Result<(), AllocError>
    ensures { OnOk result (text.new.items ≡ text.old.items ++ name.now ++ decimal node ++ 10 ∷ []) }
{
    put(text, name)?;
    put_number(text, u64::from(node), b'\n')
}

// a name, a node, another number, and a line feed
#[inline(always)]
fn put_page(text: &mut Vec<u8>, name: &[u8], node: u32, page: u64) -> Result<(), AllocError>
    ensures { OnOk result (text.new.items ≡ text.old.items ++ name.now ++ spaced_line (decimal node ∷ decimal page ∷ []) ++ 10 ∷ []) }
{
    put(text, name)?;
    put_number(text, u64::from(node), b' ')?;
    put_number(text, page, b'\n')
}

// a name, a node, a page, a range of its subpages, and a line feed
#[inline(always)]
fn put_range(
    text: &mut Vec<u8>,
    name: &[u8],
    node: u32,
    page: u64,
    first: u32,
    count: u32,
) -> Result<(), AllocError>
    ensures { OnOk result (text.new.items ≡ text.old.items ++ name.now ++ spaced_line (decimal node ∷ decimal page ∷ decimal first ∷ decimal count ∷ []) ++ 10 ∷ []) }
{
    put(text, name)?;
    put_number(text, u64::from(node), b' ')?;
    put_number(text, page, b' ')?;
    put_number(text, u64::from(first), b' ')?;
    put_number(text, u64::from(count), b'\n')
}

/// Appends a comment with the options of `thpsplit` for nodes of these shapes. On error the text can contain a prefix of it.
pub fn put_options(text: &mut Vec<u8>, shapes: &[Shape]) -> Result<(), AllocError>
    ensures { OnOk result (text.new.items ≡ text.old.items ++ options_line shapes.now) }
{
    put(text, b"# thpsplit --nodes ")?;
    put_number(text, shapes.len() as u64, b' ')?;
    put(text, b"--blocks ")?;
    put_number(text, u64::from(most_blocks(shapes)), b' ')?;
    put(text, b"--orders ")?;
    put_orders(text, shapes)?;
    put(text, b"--underused ")?;
    put_thresholds(text, shapes)?;
    Ok(())
}

/// Returns the greatest number of blocks.
fn most_blocks(shapes: &[Shape]) -> u32
    ensures { result ≡ most_blocks shapes.now }
{
    match shapes {
        [] => 0,
        [first, rest @ ..] => first.blocks.max(most_blocks(rest)),
    }
}

/// Appends the order of each node, separated by commas, and a space.
fn put_orders(text: &mut Vec<u8>, shapes: &[Shape]) -> Result<(), AllocError>
    ensures { OnOk result (text.new.items ≡ text.old.items ++ orders_text shapes.now) }
{
    match shapes {
        [] => Ok(()),
        [last] => put_number(text, u64::from(last.order), b' '),
        [first, rest @ ..] => {
            put_number(text, u64::from(first.order), b',')?;
            put_orders(text, rest)
        }
    }
}

/// Appends a threshold, or `off`, and the byte `after`.
fn put_threshold(text: &mut Vec<u8>, threshold: Option<u32>, after: u8) -> Result<(), AllocError>
    ensures { OnOk result (text.new.items ≡ text.old.items ++ underused_word threshold ++ after ∷ []) }
{
    match threshold {
        None => {
            put(text, b"off")?;
            put(text, &[after])
        }
        Some(threshold) => put_number(text, u64::from(threshold), after),
    }
}

/// Appends the threshold of each node, separated by commas, and a line feed.
fn put_thresholds(text: &mut Vec<u8>, shapes: &[Shape]) -> Result<(), AllocError>
    ensures { OnOk result (text.new.items ≡ text.old.items ++ thresholds_text shapes.now) }
{
    match shapes {
        [] => put(text, b"\n"),
        [last] => put_threshold(text, last.underused, b'\n'),
        [first, rest @ ..] => {
            put_threshold(text, first.underused, b',')?;
            put_thresholds(text, rest)
        }
    }
}
