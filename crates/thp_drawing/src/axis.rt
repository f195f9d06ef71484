//! Axes: numbers next to lines.
ghost use Rattle.std.specs.Prelude.{◌≡◌, ◌++◌, OnOk};
ghost use Rattle.thp_drawing.specs.Axes.{event_axis, event_marks, event_rules, event_step, room_of, tick, ticks};

use crate::element::{GROUP_END, PutResult, draw, pieces, put_group, put_words};
use crate::node::DrawnNode;
use crate::scale::{plus, round_step, scaled, steps_in, times};
use thp_journal_writer::put;

/// The line from which areas extend upwards and downwards, and the end of their group.
pub(crate) const BASE_LINE: &[u8] =
    b"<path class=\"zero\" d=\"M0 0h6000\"/>\n<text class=\"soft e\" x=\"-60\" y=\"0\" dy=\"40\">0</text>\n</g>\n";

/// Appends the first `count` numbers of an axis, on a scale where `most` is 1,000 high, and lines at their heights.
pub(crate) fn put_ticks(
    text: &mut Vec<u8>,
    sign: &[u8],
    step: u128,
    most: u128,
    count: u128,
) -> PutResult
    ensures { OnOk result (text.new.items ≡ text.old.items ++ ticks sign.now step most count) }
{
    for before in 0..count {
        let number = times(step, before + 1);
        put_tick(text, sign, number, scaled(1000, number, most))?;
    }
    Ok(())
}

/// Appends a number of an axis, and a line at its height.
#[tactic(auto, unfolding(crate::specs::Axes::tick))]
pub(crate) fn put_tick(text: &mut Vec<u8>, sign: &[u8], number: u128, high: u128) -> PutResult
    ensures { OnOk result (text.new.items ≡ text.old.items ++ tick sign.now number high) }
{
    draw!(text;
        Bytes(b"<path class=\"rule\" d=\"M0 ") Bytes(sign) Decimal(high)
        Bytes(b"h6000\"/>\n<text class=\"soft e\" x=\"-60\" y=\"") Bytes(sign) Decimal(high)
        Bytes(b"\" dy=\"40\">") Grouped(number) Bytes(b"</text>\n")
    )
}

/// Returns the number of events that there is room for.
pub(crate) fn room_of(node: &DrawnNode) -> u128
    ensures { result ≡ room_of node.now }
{
    times(u128::from(node.width), node.columns.len() as u128)
}

// The step of the numbers of events.
fn event_step(node: &DrawnNode) -> u128
    ensures { result ≡ event_step node.now }
{
    round_step(node.prefixes.saturating_sub(1))
}

// How many events have numbers.
fn event_marks(node: &DrawnNode) -> u128
    ensures { result ≡ event_marks node.now }
{
    plus(
        steps_in(event_step(node), node.prefixes.saturating_sub(1)),
        1,
    )
}

/// Appends the vertical lines of a panel of this height.
#[tactic(auto, using(crate::proofs::Pieces::three), unfolding(crate::specs::Axes::event_rules))]
pub(crate) fn put_event_rules(text: &mut Vec<u8>, high: u128, node: &DrawnNode) -> PutResult
    ensures { OnOk result (text.new.items ≡ text.old.items ++ event_rules high node.now) }
{
    put(text, b"<path class=\"rule\" d=\"")?;
    let step = event_step(node);
    let room = room_of(node);
    for before in 0..event_marks(node) {
        let x = scaled(6000, times(step, before), room);
        draw!(text; Bytes(b"M") Decimal(x) Bytes(b" 0v") Decimal(high))?;
    }
    put(text, b"\"/>\n")
}

/// Appends the numbers of events at this height.
#[tactic(auto, using(crate::proofs::Pieces::four), unfolding(crate::specs::Axes::event_axis))]
pub(crate) fn put_event_axis(text: &mut Vec<u8>, y: u128, node: &DrawnNode) -> PutResult
    ensures { OnOk result (text.new.items ≡ text.old.items ++ event_axis y node.now) }
{
    put_group(text, 900, y)?;
    put(
        text,
        b"<text class=\"soft e\" x=\"-130\" y=\"0\">event</text>\n",
    )?;
    let step = event_step(node);
    let room = room_of(node);
    for before in 0..event_marks(node) {
        let event = times(step, before);
        let x = scaled(6000, event, room);
        put_words(text, b"soft c", x, 0, &pieces!(Grouped(event)))?;
    }
    put(text, GROUP_END)
}
