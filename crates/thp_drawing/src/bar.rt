//! Bars over a node's columns: the rows of its pages, one for each, and the lanes of callers' batches.
ghost use Rattle.std.specs.Prelude.{◌≡◌, ◌≤◌, ◌++◌, false, length, OnOk, ◌*◌};
ghost use Rattle.thp_drawing.specs.Bars.{bar_at, bar_covers, bar_turns, is_among, line_turn, stage_in};
ghost use Rattle.thp_drawing.specs.Rows.{allocated_pages, first_rows_height, has_rows, page_turns, row_class, row_height, row_middle, row_turns, rows_drawn, rows_height, stage_bars, stage_rows};
ghost use Rattle.thp_drawing.specs.Lanes.{all_lanes, all_turns, has_lane, lane_count, lane_drawn, lanes_height};
ghost use Rattle.thp_drawing.specs.Laws.{EachPageHasItsRow};

use crate::axis::put_tick;
use crate::element::{PutResult, draw};
use crate::node::DrawnNode;
use crate::scale::{plus, scaled, steps_in, times};
use crate::stages::{most_in, stage_words};
use thp_history::{Shape, each_frame_once};
use thp_journal_writer::put;
use thp_metrics::{Column, SHOWN_CALLERS, SHOWN_PAGES, Stage};

/// The content of a bar.
#[derive(Clone, Copy, Debug, PartialEq, Eq)]
pub(crate) enum Bar {
    /// The times when the page of this number was in the stage.
    PageIn(Stage, u128),
    /// The times when the caller of this number had pages in its batch.
    BatchOf(u32),
}

impl Bar {
    // Whether the bar covers a column.
    fn covers(self, column: &Column) -> bool
        ensures { result ≡ bar_covers self column.now }
    {
        match self {
            Bar::PageIn(stage, page) => { stage_in(page, &column.stages) == Some(stage) }
            Bar::BatchOf(caller) => is_among(caller, column.callers),
        }
    }

    /// Returns the number of starts and ends of the bar.
    pub(crate) fn turns(self, columns: &[Column]) -> u128
        ensures count { result ≡ bar_turns self false columns.now }
        ensures most { result ≤ length columns.now }
    {
        let mut count = 0;
        let mut before = false;
        for column in columns {
            let now = self.covers(column);
            if before != now {
                count += 1;
            }
            before = now;
        }
        count
    }
}

/// Returns whether a caller is in a set of callers given as bits.
pub(crate) fn is_among(caller: u32, callers: u64) -> bool
    ensures { result ≡ is_among caller callers }
{
    caller < SHOWN_CALLERS && (callers >> caller) % 2 == 1
}

// The stage of a page after a column's last prefix.
fn stage_in(page: u128, stages: &[Option<Stage>]) -> Option<Stage>
    ensures { result ≡ stage_in page stages.now }
{
    if page < stages.len() as u128 {
        stages[page as usize]
    } else {
        None
    }
}

/// Appends the lines of a bar at this height.
pub(crate) fn put_bar(text: &mut Vec<u8>, bar: Bar, y: u128, columns: &[Column]) -> PutResult
    ensures { OnOk result (text.new.items ≡ text.old.items ++ bar_at bar y columns.now) }
{
    let count = columns.len() as u128;
    let mut before = false;
    for (place, column) in columns.iter().enumerate() {
        let now = bar.covers(column);
        put_turn(text, y, scaled(6000, place as u128, count), before, now)?;
        before = now;
    }
    put_turn(text, y, scaled(6000, count, count), before, false)
}

// The start or end of a line, where the bar starts or ends.
fn put_turn(text: &mut Vec<u8>, y: u128, x: u128, before: bool, now: bool) -> PutResult
    ensures { OnOk result (text.new.items ≡ text.old.items ++ line_turn y x before now) }
{
    match (before, now) {
        (false, true) => draw!(text; Bytes(b"M") Decimal(x) Bytes(b" ") Decimal(y)),
        (true, false) => draw!(text; Bytes(b"H") Decimal(x)),
        (false, false) | (true, true) => Ok(()),
    }
}

/// The greatest number of starts and ends for which bars can be distinguished.
pub(crate) const MAX_TURNS: u128 = 4000;

// Up to this many rows are spaced widely, more are spaced closely.
const FEW_ROWS: u128 = 24;

/// Returns the number of pages allocated: each of their frames is held or was given back.
pub(crate) fn allocated_pages(node: &DrawnNode) -> u128
    ensures { result ≡ allocated_pages node.now }
{
    plus(node.last.held, node.last.given) >> node.shape.order.min(Shape::MAX_ORDER)
}

/// Returns whether each page has a row: few were allocated, and their bars can be distinguished.
pub(crate) fn has_rows(node: &DrawnNode) -> bool
    ensures { result ≡ has_rows node.now }
{
    let count = allocated_pages(node);
    1 <= count && count <= SHOWN_PAGES as u128 && row_turns(node.columns.as_slice()) <= MAX_TURNS
}

// The number of starts and ends of the bars of all pages that can have a row.
#[tactic(auto, unfolding(crate::specs::Rows::row_turns))]
fn row_turns(columns: &[Column]) -> u128
    ensures { result ≡ row_turns columns.now }
{
    let shown = SHOWN_PAGES as u128;
    let mut count = 0;
    for page in 0..shown {
        count += page_turns(columns, page);
    }
    count
}

// The number of starts and ends of this page's bars.
fn page_turns(columns: &[Column], page: u128) -> u128
    ensures count { result ≡ page_turns columns.now page }
    ensures most { result ≤ 5 * length columns.now }
{
    Bar::PageIn(Stage::Allocated, page).turns(columns)
        + Bar::PageIn(Stage::PartlyMapped, page).turns(columns)
        + Bar::PageIn(Stage::Queued, page).turns(columns)
        + Bar::PageIn(Stage::InBatch, page).turns(columns)
        + Bar::PageIn(Stage::Split, page).turns(columns)
}

// The height of each row, for this many rows.
fn row_height(count: u128) -> u128
    ensures { result ≡ row_height count }
{
    if count <= FEW_ROWS { 140 } else { 90 }
}

/// Returns the middle of the row of this number.
pub(crate) fn row_middle(high: u128, number: u128) -> u128
    ensures { result ≡ row_middle high number }
{
    plus(times(high, number), high / 2)
}

/// Returns the height of this many rows together.
pub(crate) fn rows_height(count: u128) -> u128
    ensures { result ≡ rows_height count }
{
    times(row_height(count), count)
}

// The class of bars in this many rows.
fn row_class(count: u128) -> &'static [u8]
    ensures { result.now ≡ row_class count }
{
    if count <= FEW_ROWS {
        b"bar "
    } else {
        b"bar thin "
    }
}

// The number of pages above which rows of the first pages are drawn below the number of pages in each stage.
const MANY_PAGES: u128 = 1000;

/// Returns the height of the rows of a node's first pages: 0 if few pages were allocated, or if their bars can't be distinguished.
pub(crate) fn first_rows_height(node: &DrawnNode) -> u128
    ensures { result ≡ first_rows_height node.now }
{
    if MANY_PAGES < allocated_pages(node) && row_turns(node.columns.as_slice()) <= MAX_TURNS {
        rows_height(SHOWN_PAGES as u128)
    } else {
        0
    }
}

/// Appends the rows of a node's first pages, this many: the numbers of rows and thin lines through them, and bars.
#[tactic(auto, using(crate::proofs::Pieces::six), unfolding(crate::specs::Rows::rows_drawn))]
pub(crate) fn put_rows(text: &mut Vec<u8>, count: u128, node: &DrawnNode) -> PutResult
    ensures { OnOk result (text.new.items ≡ text.old.items ++ rows_drawn count node.now) }
{
    let high = row_height(count);
    let step = if count <= FEW_ROWS { 1 } else { 2 };
    for before in 0..steps_in(step, plus(count, step - 1)) {
        let page = times(step, before);
        put_tick(text, b"", page, row_middle(high, page))?;
    }
    put_stage_bars(text, Stage::Allocated, count, node)?;
    put_stage_bars(text, Stage::PartlyMapped, count, node)?;
    put_stage_bars(text, Stage::Queued, count, node)?;
    put_stage_bars(text, Stage::InBatch, count, node)?;
    put_stage_bars(text, Stage::Split, count, node)
}

// The bars of the first `count` pages in a stage, if any page was ever in it.
#[tactic(auto, using(crate::proofs::Pieces::three), unfolding(crate::specs::Rows::stage_bars))]
fn put_stage_bars(text: &mut Vec<u8>, stage: Stage, count: u128, node: &DrawnNode) -> PutResult
    ensures { OnOk result (text.new.items ≡ text.old.items ++ stage_bars stage count node.now) }
{
    let columns = node.columns.as_slice();
    if most_in(stage, columns) == 0 {
        return Ok(());
    }
    draw!(text;
        Bytes(b"<path class=\"") Bytes(row_class(count)) Bytes(stage_words(stage).1) Bytes(b"\" d=\"")
    )?;
    put_stage_rows(text, stage, row_height(count), columns, count)?;
    put(text, b"\"/>\n")
}

fn put_stage_rows(
    text: &mut Vec<u8>,
    stage: Stage,
    high: u128,
    columns: &[Column],
    count: u128,
) -> PutResult
    ensures { OnOk result (text.new.items ≡ text.old.items ++ stage_rows stage high columns.now count) }
{
    for page in 0..count {
        let y = row_middle(high, page);
        put_bar(text, Bar::PageIn(stage, page), y, columns)?;
    }
    Ok(())
}

// The height of a lane.
const LANE_HEIGHT: u128 = 140;

// Whether a caller ever had pages in its batch.
fn has_lane(columns: &[Column], caller: u32) -> bool
    ensures { result ≡ has_lane columns.now caller }
{
    0 < Bar::BatchOf(caller).turns(columns)
}

// The number of lanes.
fn count_lanes(columns: &[Column]) -> u128
    ensures { result ≡ lane_count columns.now }
{
    let mut count = 0;
    for caller in 0..SHOWN_CALLERS {
        if has_lane(columns, caller) {
            count += 1;
        }
    }
    count
}

// The number of starts and ends of their bars.
#[tactic(auto, unfolding(crate::specs::Lanes::all_turns))]
fn all_turns(columns: &[Column]) -> u128
    ensures { result ≡ all_turns columns.now }
{
    let mut count = 0;
    for caller in 0..SHOWN_CALLERS {
        count += Bar::BatchOf(caller).turns(columns);
    }
    count
}

/// Returns the height of all lanes: 0 if there are none, or if their bars can't be distinguished.
pub(crate) fn lanes_height(node: &DrawnNode) -> u128
    ensures { result ≡ lanes_height node.now }
{
    let columns = node.columns.as_slice();
    if all_turns(columns) <= MAX_TURNS {
        times(LANE_HEIGHT, count_lanes(columns))
    } else {
        0
    }
}

/// Appends a lane for each caller that ever had pages in its batch.
pub(crate) fn put_lanes(text: &mut Vec<u8>, columns: &[Column]) -> PutResult
    ensures { OnOk result (text.new.items ≡ text.old.items ++ all_lanes columns.now) }
{
    let mut lane = 0;
    for caller in 0..SHOWN_CALLERS {
        if has_lane(columns, caller) {
            put_lane_drawn(text, columns, row_middle(LANE_HEIGHT, lane), caller)?;
            lane += 1;
        }
    }
    Ok(())
}

// The lane of a caller, at this height: the caller's number, and its bar.
fn put_lane_drawn(text: &mut Vec<u8>, columns: &[Column], y: u128, caller: u32) -> PutResult
    ensures { OnOk result (text.new.items ≡ text.old.items ++ lane_drawn columns.now y caller) }
{
    put_tick(text, b"", u128::from(caller), y)?;
    put(text, b"<path class=\"lane s3\" d=\"")?;
    put_bar(text, Bar::BatchOf(caller), y, columns)?;
    put(text, b"\"/>\n")
}

/// States that each allocated page has a row, if there are few enough: each of its frames is held or was given back.
pub fn each_page_has_its_row()
    ensures { EachPageHasItsRow }
{
    each_frame_once();
}
