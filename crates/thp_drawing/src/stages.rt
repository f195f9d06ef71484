//! The numbers of pages in each stage, and their panel.
ghost use Rattle.std.specs.Prelude.{◌≡◌, ◌++◌, OnOk};
ghost use Rattle.thp_drawing.specs.Panels.{stage_item, stage_items, stages_drawn};
ghost use Rattle.thp_drawing.specs.Quantities.{most_in, pages_most, prefixes_of, stage_class, stage_name, sum_up_to};

use crate::area::put_stage_area;
use crate::axis::{BASE_LINE, put_ticks};
use crate::element::{PutResult, pieces, put_group, put_item};
use crate::node::DrawnNode;
use crate::scale::{plus, round_step, steps_in, times};
use thp_journal_writer::put;
use thp_metrics::{Column, STAGES, Stage};

/// Returns the name of a stage, and the class with its colour.
pub(crate) fn stage_words(stage: Stage) -> (&'static [u8], &'static [u8])
    ensures name { result.0.now ≡ stage_name stage }
    ensures class { result.1.now ≡ stage_class stage }
{
    match stage {
        Stage::Allocated => (b"allocated", b"s0"),
        Stage::PartlyMapped => (b"partly mapped", b"s1"),
        Stage::Queued => (b"queued", b"s2"),
        Stage::InBatch => (b"in a batch", b"s3"),
        Stage::Split => (b"split", b"s4"),
    }
}

/// Returns the number of pages in a stage or an earlier one, given that of each stage.
#[tactic(auto, unfolding(crate::specs::Scales::plus))]
pub(crate) fn sum_up_to(stage: Stage, counts: &[u128; STAGES]) -> u128
    ensures { result ≡ sum_up_to stage counts.now }
{
    let mut sum = 0;
    for count in counts.split_at(stage as usize + 1).0 {
        sum = plus(sum, *count);
    }
    sum
}

/// Returns the greatest sum of a stage in any column: 0 if the stage does not occur.
pub(crate) fn most_in(stage: Stage, columns: &[Column]) -> u128
    ensures { result ≡ most_in stage columns.now }
{
    let mut most = 0;
    for column in columns {
        most = column.pages[stage as usize].max(most);
    }
    most
}

/// Returns the number of prefixes in the column at this index, given `width` per column and `prefixes` in all.
pub(crate) fn prefixes_of(width: u64, prefixes: u128, place: usize) -> u128
    ensures { result ≡ prefixes_of width prefixes place }
{
    let before = times(u128::from(width), place as u128);
    u128::from(width).min(prefixes.saturating_sub(before))
}

/// Returns the greatest mean number of pages of a column.
pub(crate) fn pages_most(node: &DrawnNode) -> u128
    ensures { result ≡ pages_most node.now }
{
    let columns = node.columns.as_slice();
    let mut most = 0;
    for (place, column) in columns.iter().enumerate() {
        let count = prefixes_of(node.width, node.prefixes, place);
        let sum = sum_up_to(Stage::Split, &column.pages);
        let mean = plus(sum, count.saturating_sub(1)) / count.max(1);
        most = mean.max(most);
    }
    most
}

/// Appends the colours and names of the stages that occur.
#[tactic(auto, using(crate::proofs::Pieces::five), unfolding(crate::specs::Panels::stage_items))]
pub(crate) fn put_stage_items(text: &mut Vec<u8>, node: &DrawnNode) -> PutResult
    ensures { OnOk result (text.new.items ≡ text.old.items ++ stage_items node.now) }
{
    put_stage_item(text, Stage::Allocated, 0, node)?;
    put_stage_item(text, Stage::PartlyMapped, 1200, node)?;
    put_stage_item(text, Stage::Queued, 2400, node)?;
    put_stage_item(text, Stage::InBatch, 3600, node)?;
    put_stage_item(text, Stage::Split, 4800, node)
}

// A stage's colour and name, if it occurs.
fn put_stage_item(text: &mut Vec<u8>, stage: Stage, x: u128, node: &DrawnNode) -> PutResult
    ensures { OnOk result (text.new.items ≡ text.old.items ++ stage_item stage x node.now) }
{
    if most_in(stage, node.columns.as_slice()) == 0 {
        return Ok(());
    }
    let (name, class) = stage_words(stage);
    put_item(text, class, x, &pieces!(Bytes(name)))
}

/// Appends the areas of the stages: the last is drawn first, and earlier stages on top of it.
#[tactic(auto, using(crate::proofs::Pieces::eight), unfolding(crate::specs::Panels::stages_drawn))]
pub(crate) fn put_stages(text: &mut Vec<u8>, node: &DrawnNode) -> PutResult
    ensures { OnOk result (text.new.items ≡ text.old.items ++ stages_drawn node.now) }
{
    let most = pages_most(node);
    let step = round_step(most);
    put_group(text, 0, 1000)?;
    put_ticks(text, b"-", step, most, steps_in(step, most))?;
    put_stage_area(text, Stage::Split, node)?;
    put_stage_area(text, Stage::InBatch, node)?;
    put_stage_area(text, Stage::Queued, node)?;
    put_stage_area(text, Stage::PartlyMapped, node)?;
    put_stage_area(text, Stage::Allocated, node)?;
    put(text, BASE_LINE)
}
