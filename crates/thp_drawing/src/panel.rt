//! The panels of a node.
ghost use Rattle.std.specs.Prelude.{◌≡◌, ◌++◌, [], codes, OnOk};
ghost use Rattle.thp_drawing.specs.Panels.{lower_end, content_height, first_words, height_of, panel_at, panel_content, panel_start, panel_title, panels_drawn, panels_foot, panels_of, half_most, quantity_half, quantity_halves, quantity_item, unit_of};

use crate::area::put_quantity_areas;
use crate::axis::{BASE_LINE, put_event_rules, put_ticks};
use crate::bar::{
    allocated_pages, first_rows_height, has_rows, lanes_height, put_lanes, put_rows, rows_height,
};
use crate::element::{PutResult, draw, pieces, put_group, put_item, put_words};
use crate::node::DrawnNode;
use crate::quantity::Quantity;
use crate::scale::{plus, scaled, steps_in, times};
use crate::stages::{pages_most, put_stage_items, put_stages};
use thp_journal_writer::put;
use thp_metrics::{Column, SHOWN_PAGES};

/// A panel of a node.
#[derive(Clone, Copy, Debug, PartialEq, Eq)]
pub(crate) enum Panel {
    /// Two quantities, one drawn upwards and the other downwards, each on its own scale.
    Quantities(Quantity, Quantity),
    /// A lane for each caller that ever had pages in its batch.
    Lanes,
    /// A row for each page.
    Rows,
    /// The number of pages in each stage.
    Stages,
    /// A row for each of the first pages, of many.
    FirstRows,
}

impl Panel {
    // What its numbers count.
    fn unit(self) -> &'static [u8]
        ensures { result.now ≡ unit_of self }
    {
        match self {
            Panel::Quantities(up, _) => up.words().2,
            Panel::Lanes => b"caller",
            Panel::Rows | Panel::FirstRows => b"page",
            Panel::Stages => b"pages",
        }
    }

    // The height of its content: 0 if the panel is left out.
    fn content_height(self, node: &DrawnNode) -> u128
        ensures { result ≡ content_height self node.now }
    {
        match self {
            Panel::Quantities(up, down) => {
                let columns = node.columns.as_slice();
                height_of(plus(up.most(columns), down.most(columns)))
            }
            Panel::Lanes => lanes_height(node),
            Panel::Rows => rows_height(allocated_pages(node)),
            Panel::Stages => height_of(pages_most(node)),
            Panel::FirstRows => first_rows_height(node),
        }
    }
}

// The height of what is drawn on a scale whose greatest number is this.
fn height_of(most: u128) -> u128
    ensures { result ≡ height_of most }
{
    if most == 0 { 0 } else { 1000 }
}

// The lower end of a panel that begins at this height, and whose content is this high.
fn below(y: u128, high: u128) -> u128
    ensures { result ≡ lower_end y high }
{
    if high == 0 {
        y
    } else {
        plus(y, plus(360, high))
    }
}

// The panels of a node, from top to bottom. One has a row for each page, or the number of pages in each stage.
fn panels_of(node: &DrawnNode) -> [Panel; 8]
    ensures { result ≡ panels_of node.now }
{
    [
        Panel::Quantities(Quantity::Queue, Quantity::InBatches),
        Panel::Lanes,
        Panel::Quantities(Quantity::Wait, Quantity::Nothing),
        Panel::Quantities(Quantity::Held, Quantity::Given),
        Panel::Quantities(Quantity::Splits, Quantity::PinnedTries),
        Panel::Quantities(Quantity::UnderusedSplits, Quantity::Nothing),
        if has_rows(node) {
            Panel::Rows
        } else {
            Panel::Stages
        },
        Panel::FirstRows,
    ]
}

/// Returns the lower end of a node's panels, which begin at this height.
pub(crate) fn panels_foot(top: u128, node: &DrawnNode) -> u128
    ensures { result ≡ panels_foot top (panels_of node.now) node.now }
{
    let panels = panels_of(node);
    let mut y = top;
    for panel in &panels {
        y = below(y, panel.content_height(node));
    }
    y
}

/// Appends a node's panels from this height on.
pub(crate) fn put_panels(text: &mut Vec<u8>, top: u128, node: &DrawnNode) -> PutResult
    ensures { OnOk result (text.new.items ≡ text.old.items ++ panels_drawn top (panels_of node.now) node.now) }
{
    let panels = panels_of(node);
    let mut y = top;
    for panel in &panels {
        let high = panel.content_height(node);
        put_panel(text, *panel, y, high, node)?;
        y = below(y, high);
    }
    Ok(())
}

// A panel from this height on, whose content is this high.
#[tactic(auto, using(crate::proofs::Pieces::six), unfolding(crate::specs::Panels::panel_at))]
fn put_panel(text: &mut Vec<u8>, panel: Panel, y: u128, high: u128, node: &DrawnNode) -> PutResult
    ensures { OnOk result (text.new.items ≡ text.old.items ++ panel_at panel y high node.now) }
{
    if high == 0 {
        return Ok(());
    }
    put_panel_start(text, y, panel.unit())?;
    put_panel_title(text, panel, node)?;
    put_group(text, 0, 260)?;
    put_event_rules(text, high, node)?;
    put_panel_content(text, panel, node)?;
    put(text, b"</g>\n</g>\n")
}

// The beginning of a panel whose numbers count these.
#[tactic(auto, using(crate::proofs::Pieces::two), unfolding(crate::specs::Panels::panel_start))]
fn put_panel_start(text: &mut Vec<u8>, y: u128, unit: &[u8]) -> PutResult
    ensures { OnOk result (text.new.items ≡ text.old.items ++ panel_start y unit.now) }
{
    put_group(text, 900, y)?;
    draw!(text;
        Bytes(b"<text class=\"soft e\" x=\"-60\" y=\"150\">") Bytes(unit) Bytes(b"</text>\n")
    )
}

// The colours and words above a panel's content.
#[tactic(auto, using(crate::proofs::Pieces::two))]
fn put_panel_title(text: &mut Vec<u8>, panel: Panel, node: &DrawnNode) -> PutResult
    ensures { OnOk result (text.new.items ≡ text.old.items ++ panel_title panel node.now) }
{
    match panel {
        Panel::Quantities(up, down) => {
            put_quantity_item(text, up, 0, node)?;
            put_quantity_item(text, down, 3000, node)
        }
        Panel::Lanes => {
            let words = pieces!(Bytes(b"pages in its batch at least once in a column"));
            put_item(text, b"s3", 0, &words)
        }
        Panel::Rows | Panel::Stages => put_stage_items(text, node),
        Panel::FirstRows => put_first_words(text, allocated_pages(node)),
    }
}

fn put_panel_content(text: &mut Vec<u8>, panel: Panel, node: &DrawnNode) -> PutResult
    ensures { OnOk result (text.new.items ≡ text.old.items ++ panel_content panel node.now) }
{
    match panel {
        Panel::Quantities(up, down) => put_quantity_halves(text, up, down, node),
        Panel::Lanes => put_lanes(text, node.columns.as_slice()),
        Panel::Rows => put_rows(text, allocated_pages(node), node),
        Panel::Stages => put_stages(text, node),
        Panel::FirstRows => put_rows(text, SHOWN_PAGES as u128, node),
    }
}

// Which pages have rows, of this many.
fn put_first_words(text: &mut Vec<u8>, count: u128) -> PutResult
    ensures { OnOk result (text.new.items ≡ text.old.items ++ first_words count) }
{
    let words = pieces!(
        Bytes(b"rows of 60 of ") Grouped(count) Bytes(b" pages: those allocated first")
    );
    put_words(text, b"ink", 0, 150, &words)
}

// A quantity's colour and words, if it has any number other than 0.
fn put_quantity_item(text: &mut Vec<u8>, quantity: Quantity, x: u128, node: &DrawnNode) -> PutResult
    ensures { OnOk result (text.new.items ≡ text.old.items ++ quantity_item quantity x node.now) }
{
    let most = quantity.most(node.columns.as_slice());
    if most == 0 {
        return Ok(());
    }
    let (name, class, _) = quantity.words();
    let last = quantity.span(&Column::of(&node.last)).least;
    let words = pieces!(
        Bytes(name) Bytes(b": most ") Grouped(most) Bytes(b", last ") Grouped(last)
    );
    put_item(text, class, x, &words)
}

// The number that is 1,000 high on the scale of a quantity, given its greatest number and that of the panel's other quantity.
fn half_most(own: u128, other: u128) -> u128
    ensures { result ≡ half_most own other }
{
    if other == 0 { own } else { times(2, own) }
}

// The content above and below the base line, each quantity on its own scale.
#[tactic(auto, using(crate::proofs::Pieces::four), unfolding(crate::specs::Panels::scaled_halves))]
fn put_quantity_halves(
    text: &mut Vec<u8>,
    up: Quantity,
    down: Quantity,
    node: &DrawnNode,
) -> PutResult
    ensures { OnOk result (text.new.items ≡ text.old.items ++ quantity_halves up down node.now) }
{
    let most_up = up.most(node.columns.as_slice());
    let most_down = down.most(node.columns.as_slice());
    let above = half_most(most_up, most_down);
    put_group(text, 0, scaled(1000, most_up, above))?;
    put_quantity_half(text, b"-", up, above, node)?;
    put_quantity_half(text, b"", down, half_most(most_down, most_up), node)?;
    put(text, BASE_LINE)
}

// The lines and areas of a quantity, if it has any number other than 0.
#[tactic(auto, using(crate::proofs::Pieces::two), unfolding(crate::specs::Panels::quantity_half))]
fn put_quantity_half(
    text: &mut Vec<u8>,
    sign: &[u8],
    quantity: Quantity,
    most: u128,
    node: &DrawnNode,
) -> PutResult
    ensures { OnOk result (text.new.items ≡ text.old.items ++ quantity_half sign.now quantity most node.now) }
{
    let own = quantity.most(node.columns.as_slice());
    if own == 0 {
        return Ok(());
    }
    let step = quantity.step(most);
    put_ticks(text, sign, step, most, steps_in(step, own))?;
    put_quantity_areas(text, sign, quantity, most, node)
}
