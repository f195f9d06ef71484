//! Many nodes, each drawn small, on the same scales.
ghost use Rattle.std.specs.Prelude.{◌≡◌, ◌<◌, ◌-◌, ◌^◌, ◌++◌, length, min, OnOk, codes, decimal};
ghost use Rattle.thp_drawing.specs.Elements.{text_at};
ghost use Rattle.thp_drawing.specs.Grids.{cell_areas, cell_at, cell_mark, cell_title, cell_wide, cells_drawn, cells_foot, cells_of, cells_top, chosen_words, ends_step, extent_items, extents_of, greatest_left, grid_heads, most_among, most_cells, most_room, step_if, step_width, stepped_area};

use crate::axis::room_of;
use crate::element::{
    GROUP_END, PutResult, draw, pieces, put_group, put_item, put_text, put_words,
};
use crate::node::{DrawnNode, IllegalEvent};
use crate::quantity::Quantity;
use crate::scale::{plus, scaled, times};
use thp_journal_writer::put;
use thp_metrics::Column;

// The greatest number of nodes that are drawn.
const MAX_CELLS: usize = 256;

// The number of nodes in a row.
const CELLS_ACROSS: u128 = 4;

// The height of a row.
const CELL_HEIGHT: u128 = 1250;

/// The upper end of the nodes.
pub(crate) const CELLS_TOP: u128 = 1100;

/// The numbers that are drawn in full width and height: the greatest of all nodes.
#[derive(Clone, Copy, Debug, PartialEq, Eq)]
pub(crate) struct Extents {
    /// The number of events that a node has room for.
    pub(crate) events: u128,
    /// Pages in a queue.
    pub(crate) queued: u128,
    /// Frames given back.
    pub(crate) given: u128,
}

/// Returns the nodes that are drawn.
pub(crate) fn cells_of(nodes: &[DrawnNode]) -> &[DrawnNode]
    ensures { result.now ≡ cells_of nodes.now }
{
    nodes.split_at(MAX_CELLS.min(nodes.len())).0
}

// The greatest number of a quantity in any node.
fn most_among(quantity: Quantity, nodes: &[DrawnNode]) -> u128
    ensures { result ≡ most_among quantity nodes.now }
{
    let mut most = 0;
    for node in nodes {
        most = quantity.most(node.columns.as_slice()).max(most);
    }
    most
}

// The greatest number of events that a node has room for.
fn most_room(nodes: &[DrawnNode]) -> u128
    ensures { result ≡ most_room nodes.now }
{
    let mut most = 0;
    for node in nodes {
        most = room_of(node).max(most);
    }
    most
}

/// Returns the scales of these nodes.
pub(crate) fn extents_of(nodes: &[DrawnNode]) -> Extents
    ensures { result ≡ extents_of nodes.now }
{
    Extents {
        events: most_room(nodes),
        queued: most_among(Quantity::Queue, nodes),
        given: most_among(Quantity::Given, nodes),
    }
}

/// Returns the lower end of this many nodes.
pub(crate) fn cells_foot(top: u128, count: u128) -> u128
    ensures { result ≡ cells_foot top count }
{
    plus(top, times(CELL_HEIGHT, plus(count, 3) / CELLS_ACROSS))
}

/// Appends the words about the scales, and about which of `count` nodes are drawn.
#[tactic(auto, using(crate::proofs::Pieces::four), unfolding(crate::specs::Grids::grid_heads))]
pub(crate) fn put_grid_heads(text: &mut Vec<u8>, count: u128, extents: Extents) -> PutResult
    ensures { OnOk result (text.new.items ≡ text.old.items ++ grid_heads count extents) }
{
    put_chosen_words(text, count)?;
    put_group(text, 150, 660)?;
    put_extent_items(text, extents)?;
    put(text, GROUP_END)
}

// The last of so many nodes that is drawn.
fn last_drawn(count: u128) -> u128
    ensures { result ≡ min most_cells count - 1 }
{
    count.min(MAX_CELLS as u128).saturating_sub(1)
}

// The words about which nodes are drawn.
fn put_chosen_words(text: &mut Vec<u8>, count: u128) -> PutResult
    ensures { OnOk result (text.new.items ≡ text.old.items ++ text_at (codes "soft") 150 640 (chosen_words count)) }
{
    let last = last_drawn(count);
    let words = pieces!(
        Bytes(b"Nodes 0 to ") Grouped(last) Bytes(b" of ") Grouped(count)
        Bytes(b", all on the same scales; thpdraw --node draws any of them alone, with all its panels.")
    );
    put_words(text, b"soft", 150, 640, &words)
}

// The quantities, with the numbers that have full height and width.
#[tactic(auto, using(crate::proofs::Pieces::three), unfolding(crate::specs::Grids::extent_items))]
fn put_extent_items(text: &mut Vec<u8>, extents: Extents) -> PutResult
    ensures { OnOk result (text.new.items ≡ text.old.items ++ extent_items extents) }
{
    let queued = pieces!(Bytes(b"queue: up to ") Many(extents.queued, b"page"));
    put_item(text, b"s2", 0, &queued)?;
    let given = pieces!(Bytes(b"given back: up to ") Many(extents.given, b"frame"));
    put_item(text, b"given", 2400, &given)?;
    let events = pieces!(Bytes(b"width: ") Many(extents.events, b"event"));
    put_words(text, b"soft", 5100, 150, &events)
}

/// Appends nodes, which are numbered from 0, below this height.
pub(crate) fn put_cells(
    text: &mut Vec<u8>,
    top: u128,
    extents: Extents,
    nodes: &[DrawnNode],
) -> PutResult
    ensures { OnOk result (text.new.items ≡ text.old.items ++ cells_drawn top extents 0 nodes.now) }
{
    for (number, node) in nodes.iter().enumerate() {
        put_cell(text, top, extents, number, node)?;
    }
    Ok(())
}

// A node at its place.
#[tactic(auto, using(crate::proofs::Pieces::four), unfolding(crate::specs::Grids::cell_at))]
fn put_cell(
    text: &mut Vec<u8>,
    top: u128,
    extents: Extents,
    number: usize,
    node: &DrawnNode,
) -> PutResult
    ensures { OnOk result (text.new.items ≡ text.old.items ++ cell_at top extents number node.now) }
{
    let place = number as u128;
    let x = plus(150, times(1740, place % CELLS_ACROSS));
    let y = plus(top, times(CELL_HEIGHT, place / CELLS_ACROSS));
    put_group(text, x, y)?;
    put_cell_title(text, number, node)?;
    put_cell_areas(text, extents, node)?;
    put(text, GROUP_END)
}

// A node's number, its illegal event and its greatest queue.
#[tactic(auto, using(crate::proofs::Pieces::three), unfolding(crate::specs::Grids::cell_title))]
fn put_cell_title(text: &mut Vec<u8>, number: usize, node: &DrawnNode) -> PutResult
    ensures { OnOk result (text.new.items ≡ text.old.items ++ cell_title number node.now) }
{
    let name = pieces!(Bytes(b"node ") Decimal(number as u128));
    put_words(text, b"ink", 0, 0, &name)?;
    put_cell_mark(text, &node.illegal)?;
    let most = Quantity::Queue.most(node.columns.as_slice());
    put_words(
        text,
        b"soft",
        0,
        150,
        &pieces!(Bytes(b"most queued ") Grouped(most)),
    )
}

// The line of an illegal event.
fn put_cell_mark(text: &mut Vec<u8>, illegal: &Option<IllegalEvent>) -> PutResult
    ensures { OnOk result (text.new.items ≡ text.old.items ++ cell_mark illegal.now) }
{
    match illegal {
        None => Ok(()),
        Some(illegal) => {
            let words = pieces!(Bytes(b"illegal line ") Decimal(u128::from(illegal.line)));
            put_words(text, b"bad", 660, 0, &words)
        }
    }
}

// The width of a node's events.
fn cell_wide(extents: Extents, node: &DrawnNode) -> u128
    ensures { result ≡ cell_wide extents node.now }
{
    scaled(1575, room_of(node), extents.events)
}

// Lines at the greatest heights.
const CELL_RULES: &[u8] = b"<path class=\"rule\" d=\"M0 -500h1575M0 300h1575M0 -500v800\"/>\n";

// The line between the areas, and their end.
const CELL_LINE: &[u8] = b"<path class=\"zero\" d=\"M0 0h1575\"/>\n</g>\n";

// The areas of a node: the queue upwards, and the frames given back downwards.
#[tactic(auto, using(crate::proofs::Pieces::five), unfolding(crate::specs::Grids::cell_areas))]
fn put_cell_areas(text: &mut Vec<u8>, extents: Extents, node: &DrawnNode) -> PutResult
    ensures { OnOk result (text.new.items ≡ text.old.items ++ cell_areas extents node.now) }
{
    let wide = cell_wide(extents, node);
    let columns = node.columns.as_slice();
    put_group(text, 0, 720)?;
    put(text, CELL_RULES)?;
    put_stepped_area(
        text,
        b"-",
        Quantity::Queue,
        500,
        extents.queued,
        wide,
        columns,
    )?;
    put_stepped_area(
        text,
        b"",
        Quantity::Given,
        300,
        extents.given,
        wide,
        columns,
    )?;
    put(text, CELL_LINE)
}

// The area of a quantity over columns, on a scale where `most` is `high`.
#[tactic(auto, using(crate::proofs::Pieces::three), unfolding(crate::specs::Grids::stepped_area))]
fn put_stepped_area(
    text: &mut Vec<u8>,
    sign: &[u8],
    quantity: Quantity,
    high: u128,
    most: u128,
    wide: u128,
    columns: &[Column],
) -> PutResult
    ensures { OnOk result (text.new.items ≡ text.old.items ++ stepped_area sign.now quantity high most wide columns.now) }
{
    let (_, kind, _) = quantity.words();
    draw!(text; Bytes(b"<path class=\"") Bytes(kind) Bytes(b"\" d=\"M0 0"))?;
    let count = columns.len();
    let mut so_far = 0;
    for (place, column) in columns.iter().enumerate() {
        let number = quantity.span(column).greatest.max(so_far);
        let ends = ends_step(count, place);
        put_step(
            text,
            sign,
            ends,
            scaled(high, number, most),
            step_width(wide, count, place),
        )?;
        so_far = left_of(ends, number);
    }
    put(text, b"V0z\"/>\n")
}

// Whether the column at this index, of `count`, is the last of its step.
fn ends_step(count: usize, place: usize) -> bool
    requires { place < count }
    ensures { result ≡ ends_step count place }
{
    (place + 1) % 4 == 0 || place + 1 == count
}

// The width of the step that ends with the column at this index, of `count`, if all are this wide.
fn step_width(wide: u128, count: usize, place: usize) -> u128
    requires { place < count }
    ensures { result ≡ step_width wide count place }
{
    let end = scaled(wide, place as u128 + 1, count as u128);
    end.saturating_sub(scaled(wide, (place - place % 4) as u128, count as u128))
}

// The greatest number of the step so far, for the next column.
fn left_of(ends: bool, number: u128) -> u128
    ensures { result ≡ greatest_left ends number }
{
    if ends { 0 } else { number }
}

// A step to this height and this far to the right, if it ends here.
fn put_step(text: &mut Vec<u8>, sign: &[u8], ends: bool, high: u128, wide: u128) -> PutResult
    ensures { OnOk result (text.new.items ≡ text.old.items ++ step_if ends sign.now high wide) }
{
    if ends {
        draw!(text; Bytes(b"V") Bytes(sign) Decimal(high) Bytes(b"h") Decimal(wide))
    } else {
        Ok(())
    }
}
