//! The numbers of nodes as a table.
ghost use Rattle.std.specs.Prelude.{◌≡◌, ◌≤◌, ◌++◌, ◌+◌, ◌*◌, ◌-◌, List, [], ◌∷◌, length, min, OnOk, codes};
ghost use Rattle.thp_drawing.specs.Elements.{field};
ghost use Rattle.thp_drawing.specs.Tables.{caller_item, caller_words, column_line, column_lines, illegal_fields, node_lines, node_table, node_table_line, stage_fields, stage_letters, stuck_line, stuck_table_lines, table_text, threshold_field};

use crate::bar::is_among;
use crate::element::{PutResult, draw, put_decimal};
use crate::node::{DrawnNode, IllegalEvent};
use itoa::Buffer;
use std::alloc::AllocError;
use thp_journal_writer::{put, put_event_line};
use thp_metrics::{Column, SHOWN_CALLERS, STAGES, Stage, widened};

// The names of the fields of nodes, of columns, and of stuck pages.
const HEADS: &[u8] =
    b"#node\tnode\tblocks\torder\tunderused\tlegal\twidth\tqueue-last\tin-batches-last\theld-last\tgiven-last\tsplits-last\tunderused-splits-last\tpinned-tries-last\twait-last\tallocated-last\tpartly-mapped-last\tqueued-last\tin-batch-last\tsplit-last\tillegal-line\tillegal-event
#column\tnode\tfirst\tlast\tqueue-least\tqueue-greatest\tin-batches-least\tin-batches-greatest\theld-least\theld-greatest\tgiven-least\tgiven-greatest\tsplits-least\tsplits-greatest\tunderused-splits-least\tunderused-splits-greatest\tpinned-tries-least\tpinned-tries-greatest\twait-least\twait-greatest\tallocated-sum\tpartly-mapped-sum\tqueued-sum\tin-batch-sum\tsplit-sum\tstages\tcallers
#stuck\tnode\tpage\tfinds\tsince
";

/// Appends the table of nodes, which are numbered from 0, to a text. If memory can't be allocated, the text can contain a prefix
/// of it.
#[tactic(auto, using(crate::proofs::Pieces::two), unfolding(crate::specs::Tables::heads))]
pub fn put_table(text: &mut Vec<u8>, nodes: &[DrawnNode]) -> Result<(), AllocError>
    ensures { OnOk result (text.new.items ≡ text.old.items ++ table_text nodes.now) }
{
    put(text, HEADS)?;
    for (number, node) in nodes.iter().enumerate() {
        put_node(text, number, node)?;
    }
    Ok(())
}

/// Appends the table of one node alone, with its number, to a text. If memory can't be allocated, the text can contain a prefix of
/// it.
#[tactic(auto, using(crate::proofs::Pieces::two), unfolding(crate::specs::Tables::heads))]
pub fn put_node_table(text: &mut Vec<u8>, number: usize, node: &DrawnNode) -> Result<(), AllocError>
    ensures { OnOk result (text.new.items ≡ text.old.items ++ node_table number node.now) }
{
    put(text, HEADS)?;
    put_node(text, number, node)
}

#[tactic(auto, using(crate::proofs::Pieces::three), unfolding(crate::specs::Tables::node_lines))]
fn put_node(text: &mut Vec<u8>, number: usize, node: &DrawnNode) -> PutResult
    ensures { OnOk result (text.new.items ≡ text.old.items ++ node_lines number node.now) }
{
    put_node_line(text, number, node)?;
    let width = u128::from(node.width);
    for (place, column) in node.columns.iter().enumerate() {
        let first = width * place as u128;
        let last = (first + width).min(node.prefixes).saturating_sub(1);
        put_column(text, number, first, last, column)?;
    }
    for page in node.stuck.iter() {
        draw!(text;
            Bytes(b"stuck") Field(number as u128) Field(u128::from(page.page.0))
            Field(u128::from(page.finds)) Field(u128::from(page.since)) Bytes(b"\n")
        )?;
    }
    Ok(())
}

#[tactic(auto, using(crate::proofs::Pieces::five), unfolding(crate::specs::Tables::node_table_line, crate::specs::Tables::node_numbers))]
fn put_node_line(text: &mut Vec<u8>, number: usize, node: &DrawnNode) -> PutResult
    ensures { OnOk result (text.new.items ≡ text.old.items ++ node_table_line number node.now) }
{
    let shape = &node.shape;
    draw!(text;
        Bytes(b"node") Field(number as u128) Field(u128::from(shape.blocks))
        Field(u128::from(shape.order))
    )?;
    put_threshold(text, shape.underused)?;
    let last = &node.last;
    draw!(text;
        Field(node.prefixes.saturating_sub(1)) Field(u128::from(node.width))
        Field(u128::from(last.queue)) Field(u128::from(last.in_batches)) Field(last.held)
        Field(last.given) Field(u128::from(last.splits)) Field(u128::from(last.underused_splits))
        Field(u128::from(last.pinned_tries)) Field(u128::from(last.wait))
    )?;
    put_stage_fields(text, &widened(&last.pages))?;
    put_illegal(text, &node.illegal)
}

// The last fields of a node's line, and its end.
#[tactic(auto, using(crate::proofs::Pieces::three))]
fn put_illegal(text: &mut Vec<u8>, illegal: &Option<IllegalEvent>) -> PutResult
    ensures { OnOk result (text.new.items ≡ text.old.items ++ illegal_fields illegal.now) }
{
    match illegal {
        None => put(text, b"\t-\t-\n"),
        Some(illegal) => {
            put_field(text, u128::from(illegal.line))?;
            put(text, b"\t")?;
            put_event_line(text, &illegal.event)
        }
    }
}

fn put_threshold(text: &mut Vec<u8>, threshold: Option<u32>) -> PutResult
    ensures { OnOk result (text.new.items ≡ text.old.items ++ threshold_field threshold) }
{
    match threshold {
        None => put(text, b"\toff"),
        Some(threshold) => put_field(text, u128::from(threshold)),
    }
}

#[tactic(auto, using(crate::proofs::Pieces::eight), unfolding(crate::specs::Tables::column_line, crate::specs::Tables::column_numbers))]
fn put_column(
    text: &mut Vec<u8>,
    number: usize,
    first: u128,
    last: u128,
    column: &Column,
) -> PutResult
    ensures { OnOk result (text.new.items ≡ text.old.items ++ column_line number first last column.now) }
{
    draw!(text; Bytes(b"column") Field(number as u128) Field(first) Field(last))?;
    draw!(text;
        Field(column.queue.least) Field(column.queue.greatest) Field(column.in_batches.least)
        Field(column.in_batches.greatest) Field(column.held.least) Field(column.held.greatest)
        Field(column.given.least) Field(column.given.greatest) Field(column.splits.least)
        Field(column.splits.greatest) Field(column.underused_splits.least)
        Field(column.underused_splits.greatest) Field(column.pinned_tries.least)
        Field(column.pinned_tries.greatest) Field(column.wait.least) Field(column.wait.greatest)
    )?;
    put_stage_fields(text, &column.pages)?;
    put(text, b"\t")?;
    put_stages(text, &column.stages)?;
    put(text, b"\t")?;
    put_callers(text, column.callers)?;
    put(text, b"\n")
}

// The number for each stage.
fn put_stage_fields(text: &mut Vec<u8>, counts: &[u128; STAGES]) -> PutResult
    ensures { OnOk result (text.new.items ≡ text.old.items ++ stage_fields counts.now) }
{
    draw!(text;
        Field(counts[0]) Field(counts[1]) Field(counts[2]) Field(counts[3]) Field(counts[4])
    )
}

// A set of callers, given as bits: their numbers, separated by commas.
fn put_callers(text: &mut Vec<u8>, callers: u64) -> PutResult
    ensures { OnOk result (text.new.items ≡ text.old.items ++ caller_words callers) }
{
    if callers == 0 {
        return put(text, b"-");
    }
    for caller in 0..SHOWN_CALLERS {
        put_caller_item(text, callers, caller)?;
    }
    Ok(())
}

// A caller, if it is in this set, after a comma if a lower one is.
#[tactic(auto, using(crate::proofs::Pieces::two))]
fn put_caller_item(text: &mut Vec<u8>, callers: u64, caller: u32) -> PutResult
    ensures { OnOk result (text.new.items ≡ text.old.items ++ caller_item callers caller) }
{
    if !is_among(caller, callers) {
        return Ok(());
    }
    if callers % (1 << caller) != 0 {
        put(text, b",")?;
    }
    put(text, Buffer::new().format(caller).as_bytes())
}

fn put_stages(text: &mut Vec<u8>, stages: &[Option<Stage>]) -> PutResult
    ensures { OnOk result (text.new.items ≡ text.old.items ++ stage_letters stages.now) }
{
    for stage in stages {
        let letter = match stage {
            None => b'-',
            Some(stage) => b"amqbs"[*stage as usize],
        };
        put(text, &[letter])?;
    }
    Ok(())
}

/// Appends a tab and a number.
#[tactic(auto, using(crate::proofs::Pieces::two))]
pub(crate) fn put_field(text: &mut Vec<u8>, number: u128) -> PutResult
    ensures { OnOk result (text.new.items ≡ text.old.items ++ field number) }
{
    put(text, b"\t")?;
    put_decimal(text, number)
}
