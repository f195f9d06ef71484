//! The overview of all nodes.
ghost use Rattle.std.specs.Prelude.{◌≡◌, ◌++◌, OnOk};
ghost use Rattle.thp_drawing.specs.Overviews.{number_cell, overview, overview_foot, overview_heads, overview_line};

use crate::element::{GROUP_END, PutResult, pieces, put_group, put_text, put_words};
use crate::node::DrawnNode;
use crate::quantity::Quantity;
use crate::scale::{plus, times};
use crate::stages::sum_up_to;
use thp_journal_writer::put;
use thp_metrics::{Stage, widened};

/// The lower end of the picture's title.
pub(crate) const TITLE_FOOT: u128 = 660;

/// Returns the lower end of the overview.
pub(crate) fn overview_foot(nodes: &[DrawnNode]) -> u128
    ensures { result ≡ overview_foot nodes.now }
{
    if nodes.len() <= 1 {
        TITLE_FOOT
    } else {
        plus(950, times(165, nodes.len() as u128))
    }
}

/// Appends the overview of several nodes.
#[tactic(auto, using(crate::proofs::Pieces::two), unfolding(crate::specs::Overviews::overview))]
pub(crate) fn put_overview(text: &mut Vec<u8>, nodes: &[DrawnNode]) -> PutResult
    ensures { OnOk result (text.new.items ≡ text.old.items ++ overview nodes.now) }
{
    if nodes.len() <= 1 {
        return Ok(());
    }
    put_overview_heads(text)?;
    for (number, node) in nodes.iter().enumerate() {
        let y = plus(1060, times(165, number as u128));
        put_overview_line(text, y, number, node)?;
    }
    Ok(())
}

#[tactic(auto, using(crate::proofs::Pieces::five), unfolding(crate::specs::Overviews::overview_heads))]
fn put_overview_heads(text: &mut Vec<u8>) -> PutResult
    ensures { OnOk result (text.new.items ≡ text.old.items ++ overview_heads) }
{
    put_text(text, b"soft", 150, 895, b"node")?;
    put_text(text, b"soft e", 2400, 895, b"live pages")?;
    put_text(text, b"soft e", 3900, 895, b"most queued")?;
    put_text(text, b"soft e", 5400, 895, b"frames held")?;
    put_text(text, b"soft e", 6900, 895, b"given back")
}

#[tactic(auto, using(crate::proofs::Pieces::seven), unfolding(crate::specs::Overviews::overview_line))]
fn put_overview_line(text: &mut Vec<u8>, y: u128, number: usize, node: &DrawnNode) -> PutResult
    ensures { OnOk result (text.new.items ≡ text.old.items ++ overview_line y number node.now) }
{
    put_group(text, 0, y)?;
    let mark: &[u8] = if node.illegal.is_none() {
        b""
    } else {
        b" (illegal)"
    };
    let words = pieces!(Decimal(number as u128) Bytes(mark));
    put_words(text, b"ink", 150, 0, &words)?;
    put_number(
        text,
        2400,
        sum_up_to(Stage::Split, &widened(&node.last.pages)),
    )?;
    put_number(text, 3900, Quantity::Queue.most(node.columns.as_slice()))?;
    put_number(text, 5400, node.last.held)?;
    put_number(text, 6900, node.last.given)?;
    put(text, GROUP_END)
}

// A right-aligned number that ends at this position.
fn put_number(text: &mut Vec<u8>, x: u128, number: u128) -> PutResult
    ensures { OnOk result (text.new.items ≡ text.old.items ++ number_cell x number) }
{
    put_words(text, b"ink e", x, 0, &pieces!(Grouped(number)))
}
