//! The words above the panels of a node: its title, its first illegal event, and the pages whose split is prevented by pins.
ghost use Rattle.std.specs.Prelude.{◌≡◌, ◌++◌, OnOk, codes};
ghost use Rattle.thp_journal_writer.specs.Prelude.{event_line};
ghost use Rattle.thp_drawing.specs.Elements.{shortened, text_at};
ghost use Rattle.thp_drawing.specs.Titles.{illegal_title, node_title_words, threshold_words};
ghost use Rattle.thp_drawing.specs.Stucks.{more_line, stuck_height, stuck_lines, stuck_text, stuck_words};

use crate::element::{PutResult, draw, pieces, put_words};
use crate::node::{DrawnNode, IllegalEvent};
use crate::scale::{plus, times};
use thp_history::Event;
use thp_journal_writer::{put, put_event_line};
use thp_metrics::StuckPage;

// The greatest number of letters in the line of an event that is shown.
const MAX_LETTERS: usize = 70;

/// Appends the words of a node's title: its size, its threshold for underused pages, and the number of events drawn.
pub(crate) fn put_node_words(text: &mut Vec<u8>, number: usize, node: &DrawnNode) -> PutResult
    ensures { OnOk result (text.new.items ≡ text.old.items ++ node_title_words number node.now) }
{
    let shape = &node.shape;
    draw!(text;
        Bytes(b"node ") Decimal(number as u128) Bytes(b": ")
        Many(u128::from(shape.blocks), b"block") Bytes(b" of 2^")
        Decimal(u128::from(shape.order)) Bytes(b" frames, underused ")
    )?;
    put_threshold_words(text, shape.underused)?;
    draw!(text; Bytes(b", ") Many(node.prefixes.saturating_sub(1), b"legal event"))
}

fn put_threshold_words(text: &mut Vec<u8>, threshold: Option<u32>) -> PutResult
    ensures { OnOk result (text.new.items ≡ text.old.items ++ threshold_words threshold) }
{
    match threshold {
        None => put(text, b"off"),
        Some(threshold) => draw!(text; Bytes(b"above ") Decimal(u128::from(threshold))),
    }
}

/// Appends the text about a node's first illegal event.
pub(crate) fn put_illegal_text(text: &mut Vec<u8>, illegal: &Option<IllegalEvent>) -> PutResult
    ensures { OnOk result (text.new.items ≡ text.old.items ++ illegal_title illegal.now) }
{
    match illegal {
        None => Ok(()),
        Some(illegal) => {
            let words = pieces!(
                Bytes(b"illegal line ") Decimal(u128::from(illegal.line)) Bytes(b": ")
                EventLine(&illegal.event)
            );
            put_words(text, b"bad", 900, 420, &words)
        }
    }
}

/// Appends the line of an event, or the beginning of a long one.
pub(crate) fn put_event_words(text: &mut Vec<u8>, event: &Event) -> PutResult
    ensures { OnOk result (text.new.items ≡ text.old.items ++ shortened (event_line event.now)) }
{
    let mut line = Vec::new(*text.allocator());
    put_event_line(&mut line, event)?;
    line.pop();
    put_shortened(text, line.as_slice())
}

#[tactic(auto, using(crate::proofs::Pieces::two), unfolding(crate::specs::Elements::shortened))]
fn put_shortened(text: &mut Vec<u8>, line: &[u8]) -> PutResult
    ensures { OnOk result (text.new.items ≡ text.old.items ++ shortened line.now) }
{
    if line.len() <= MAX_LETTERS {
        return put(text, line);
    }
    put(text, line.split_at(67).0)?;
    put(text, b" ..")
}

// The number of pages that have a line each.
const LISTED_STUCK: usize = 5;

/// Appends the text about the stuck pages of a node, from this height on.
#[tactic(auto, using(crate::proofs::Pieces::two), unfolding(crate::specs::Stucks::stuck_text))]
pub(crate) fn put_stuck_text(text: &mut Vec<u8>, y: u128, node: &DrawnNode) -> PutResult
    ensures { OnOk result (text.new.items ≡ text.old.items ++ stuck_text y node.now) }
{
    let pages = node.stuck.as_slice();
    let (front, _) = pages.split_at(pages.len().min(LISTED_STUCK));
    for (place, page) in front.iter().enumerate() {
        put_stuck_line(text, plus(y, times(165, place as u128)), page)?;
    }
    put_more_line(text, y, pages.len() as u128)
}

// The text about a page.
#[tactic(auto, unfolding(crate::specs::Stucks::stuck_words))]
fn put_stuck_line(text: &mut Vec<u8>, y: u128, page: &StuckPage) -> PutResult
    ensures { OnOk result (text.new.items ≡ text.old.items ++ text_at (codes "ink") 900 y (stuck_words page.now)) }
{
    let words = pieces!(
        Bytes(b"stuck by pins: page ") Decimal(u128::from(page.page.0))
        Bytes(b", found pinned ") Many(u128::from(page.finds), b"time")
        Bytes(b", waits since event ") Grouped(u128::from(page.since))
    );
    put_words(text, b"ink", 900, y, &words)
}

// The number of pages without a line.
#[tactic(auto, unfolding(crate::specs::Stucks::more_words))]
fn put_more_line(text: &mut Vec<u8>, y: u128, count: u128) -> PutResult
    ensures { OnOk result (text.new.items ≡ text.old.items ++ more_line y count) }
{
    let listed = LISTED_STUCK as u128;
    if count <= listed {
        return Ok(());
    }
    let words = pieces!(Bytes(b"stuck by pins: ") Many(count - listed, b"more page"));
    put_words(text, b"ink", 900, plus(y, times(165, listed)), &words)
}

/// Returns the height of the text about stuck pages.
pub(crate) fn stuck_height(node: &DrawnNode) -> u128
    ensures { result ≡ stuck_height node.now }
{
    times(
        165,
        (node.stuck.len() as u128).min(LISTED_STUCK as u128 + 1),
    )
}
