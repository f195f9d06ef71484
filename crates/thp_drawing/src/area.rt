//! Areas over a node's columns.
ghost use Rattle.std.specs.Prelude.{◌≡◌, ◌<◌, ◌^◌, ◌++◌, OnOk};
ghost use Rattle.thp_drawing.specs.Areas.{area, column_width, height_at, quantity_areas, stage_area};

use crate::element::{PutResult, draw};
use crate::node::DrawnNode;
use crate::quantity::Quantity;
use crate::scale::{scaled, times};
use crate::stages::{most_in, pages_most, prefixes_of, stage_words, sum_up_to};
use thp_journal_writer::put;
use thp_metrics::{Column, Stage};

/// What the heights of an area are, on a scale where `most` is 1,000 high.
#[derive(Clone, Copy, Debug, PartialEq, Eq)]
pub(crate) enum Height {
    /// The least number of a column.
    Least(Quantity, u128),
    /// The greatest number of a column.
    Greatest(Quantity, u128),
    /// The mean number of pages up to a stage, given the prefixes of a column, and of all columns.
    UpTo(Stage, u64, u128, u128),
}

// The height of the column at this index.
fn height_at(height: Height, place: usize, column: &Column) -> u128
    ensures { result ≡ height_at height place column.now }
{
    match height {
        Height::Least(quantity, most) => scaled(1000, quantity.span(column).least, most),
        Height::Greatest(quantity, most) => scaled(1000, quantity.span(column).greatest, most),
        Height::UpTo(stage, width, prefixes, most) => {
            let room = times(prefixes_of(width, prefixes, place), most);
            scaled(1000, sum_up_to(stage, &column.pages), room)
        }
    }
}

/// Appends the areas of a quantity, on a scale where `most` is 1,000 high.
#[tactic(auto, using(crate::proofs::Pieces::two), unfolding(crate::specs::Areas::quantity_areas))]
pub(crate) fn put_quantity_areas(
    text: &mut Vec<u8>,
    sign: &[u8],
    quantity: Quantity,
    most: u128,
    node: &DrawnNode,
) -> PutResult
    ensures { OnOk result (text.new.items ≡ text.old.items ++ quantity_areas sign.now quantity most node.now) }
{
    let (_, kind, _) = quantity.words();
    let columns = node.columns.as_slice();
    if node.width != 1 {
        let greatest = Height::Greatest(quantity, most);
        put_area(text, kind, b" pale", sign, greatest, columns)?;
    }
    put_area(
        text,
        kind,
        b"",
        sign,
        Height::Least(quantity, most),
        columns,
    )
}

// An area of this class, and of this shade.
#[tactic(auto, using(crate::proofs::Pieces::three), unfolding(crate::specs::Areas::area))]
fn put_area<'a>(
    text: &mut Vec<u8>,
    kind: &'a [u8],
    shade: &'a [u8],
    sign: &[u8],
    height: Height,
    columns: &[Column],
) -> PutResult
    ensures { OnOk result (text.new.items ≡ text.old.items ++ area kind.now shade.now sign.now height columns.now) }
{
    draw!(text; Bytes(b"<path class=\"") Bytes(kind) Bytes(shade) Bytes(b"\" d=\"M0 0"))?;
    let count = columns.len() as u128;
    for (place, column) in columns.iter().enumerate() {
        let high = height_at(height, place, column);
        let wide = column_width(count, place as u128);
        draw!(text; Bytes(b"V") Bytes(sign) Decimal(high) Bytes(b"h") Decimal(wide))?;
    }
    put(text, b"V0z\"/>\n")
}

// The width of the column at this index, of `count`: from its position to that of the next.
fn column_width(count: u128, place: u128) -> u128
    requires { place < 2 ^ 64 }
    ensures { result ≡ column_width count place }
{
    scaled(6000, place + 1, count).saturating_sub(scaled(6000, place, count))
}

/// Appends the area of a stage, if any page was ever in it.
pub(crate) fn put_stage_area(text: &mut Vec<u8>, stage: Stage, node: &DrawnNode) -> PutResult
    ensures { OnOk result (text.new.items ≡ text.old.items ++ stage_area stage node.now) }
{
    let columns = node.columns.as_slice();
    if most_in(stage, columns) == 0 {
        return Ok(());
    }
    let height = Height::UpTo(stage, node.width, node.prefixes, pages_most(node));
    put_area(text, stage_words(stage).1, b"", b"-", height, columns)
}
