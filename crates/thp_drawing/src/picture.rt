//! The picture of nodes, as SVG, and its appearance.
ghost use Rattle.std.specs.Prelude.{◌≡◌, ◌++◌, OnOk};
ghost use Rattle.thp_drawing.specs.Pictures.{axis_top, foot_of, full_picture, grid_picture, head, node_drawn, node_height, node_picture, nodes_drawn, pages_top, picture_start, picture_text, picture_titles, stuck_top};

use crate::axis::put_event_axis;
use crate::element::{GROUP_END, PutResult, draw, put_group, put_text};
use crate::grid::{CELLS_TOP, cells_foot, cells_of, extents_of, put_cells, put_grid_heads};
use crate::node::{DrawnNode, IllegalEvent};
use crate::overview::{TITLE_FOOT, overview_foot, put_overview};
use crate::panel::{panels_foot, put_panels};
use crate::scale::plus;
use crate::title::{put_illegal_text, put_node_words, put_stuck_text, stuck_height};
use std::alloc::AllocError;
use thp_journal_writer::put;

// The name and the description for screen readers.
const NAME: &[u8] = b"<title id=\"title\">Deferred split queues</title>
<desc id=\"desc\">Queue, batches, frames and pages of each node over its events; thpdraw --table lists them.</desc>
";

// The caption about the order of events.
const ORDER_WORDS: &[u8] =
    b"The events of a node follow each other from left to right; those of two nodes have no common time.";

// The caption about columns.
const COLUMN_WORDS: &[u8] =
    b"Full colour: a column's least number; pale: its greatest; stacks: its mean; bars of pages: its last stage.";

// Up to this many nodes are drawn with all their panels.
const FULL_NODES: usize = 8;

/// Appends the picture of nodes, which are numbered from 0, to a text: of more than eight, the first 256 are drawn small. If memory
/// can't be allocated, the text can contain a prefix of it.
pub fn put_picture(text: &mut Vec<u8>, nodes: &[DrawnNode]) -> Result<(), AllocError>
    ensures { OnOk result (text.new.items ≡ text.old.items ++ picture_text nodes.now) }
{
    if nodes.len() <= FULL_NODES {
        put_full_picture(text, nodes)
    } else {
        put_grid_picture(text, nodes)
    }
}

// The picture of nodes with all their panels.
#[tactic(auto, using(crate::proofs::Pieces::four), unfolding(crate::specs::Pictures::full_picture))]
fn put_full_picture(text: &mut Vec<u8>, nodes: &[DrawnNode]) -> PutResult
    ensures { OnOk result (text.new.items ≡ text.old.items ++ full_picture nodes.now) }
{
    let top = overview_foot(nodes);
    put_head(text, foot_of(top, nodes))?;
    put_overview(text, nodes)?;
    let mut y = top;
    for (number, node) in nodes.iter().enumerate() {
        put_node(text, y, number, node)?;
        y = plus(y, node_height(node));
    }
    put(text, b"</svg>\n")
}

// The picture of the first nodes, each drawn small.
#[tactic(auto, using(crate::proofs::Pieces::five), unfolding(crate::specs::Pictures::grid_picture))]
fn put_grid_picture(text: &mut Vec<u8>, nodes: &[DrawnNode]) -> PutResult
    ensures { OnOk result (text.new.items ≡ text.old.items ++ grid_picture nodes.now) }
{
    let cells = cells_of(nodes);
    let extents = extents_of(cells);
    put_start(text, cells_foot(CELLS_TOP, cells.len() as u128))?;
    put_titles(text)?;
    put_grid_heads(text, nodes.len() as u128, extents)?;
    put_cells(text, CELLS_TOP, extents, cells)?;
    put(text, b"</svg>\n")
}

/// Appends the picture of one node alone, with its number, to a text. If memory can't be allocated, the text can contain a prefix
/// of it.
#[tactic(auto, using(crate::proofs::Pieces::three), unfolding(crate::specs::Pictures::node_picture))]
pub fn put_node_picture(
    text: &mut Vec<u8>,
    number: usize,
    node: &DrawnNode,
) -> Result<(), AllocError>
    ensures { OnOk result (text.new.items ≡ text.old.items ++ node_picture number node.now) }
{
    put_head(text, plus(TITLE_FOOT, node_height(node)))?;
    put_node(text, TITLE_FOOT, number, node)?;
    put(text, b"</svg>\n")
}

// The beginning of a picture of this height, with its title.
fn put_head(text: &mut Vec<u8>, high: u128) -> PutResult
    ensures { OnOk result (text.new.items ≡ text.old.items ++ head high) }
{
    put_start(text, high)?;
    put_titles(text)?;
    put_text(text, b"soft", 150, 640, COLUMN_WORDS)
}

// The beginning of a picture of this height.
#[tactic(auto, unfolding(crate::specs::Pictures::picture_start))]
fn put_start(text: &mut Vec<u8>, high: u128) -> PutResult
    ensures { OnOk result (text.new.items ≡ text.old.items ++ picture_start high) }
{
    draw!(text;
        Bytes(b"<svg xmlns=\"http://www.w3.org/2000/svg\" viewBox=\"0 0 7200 ") Decimal(high)
        Bytes(b"\" role=\"img\" aria-labelledby=\"title desc\">\n") Bytes(NAME) Bytes(STYLE)
        Bytes(b"<rect class=\"bg\" x=\"0\" y=\"0\" width=\"7200\" height=\"") Decimal(high)
        Bytes(b"\"/>\n")
    )
}

// The title of a picture, and the caption about the order of events.
#[tactic(auto, using(crate::proofs::Pieces::two), unfolding(crate::specs::Pictures::picture_titles))]
fn put_titles(text: &mut Vec<u8>) -> PutResult
    ensures { OnOk result (text.new.items ≡ text.old.items ++ picture_titles) }
{
    put_text(text, b"ink hh", 150, 300, b"Deferred split queues")?;
    put_text(text, b"soft", 150, 480, ORDER_WORDS)
}

// The lower end of the nodes, from this height on.
fn foot_of(top: u128, nodes: &[DrawnNode]) -> u128
    ensures { result ≡ foot_of top nodes.now }
{
    let mut y = top;
    for node in nodes {
        y = plus(y, node_height(node));
    }
    y
}

#[tactic(auto, using(crate::proofs::Pieces::seven), unfolding(crate::specs::Pictures::node_drawn))]
fn put_node(text: &mut Vec<u8>, y: u128, number: usize, node: &DrawnNode) -> PutResult
    ensures { OnOk result (text.new.items ≡ text.old.items ++ node_drawn y number node.now) }
{
    let mut words = Vec::new(*text.allocator());
    put_node_words(&mut words, number, node)?;
    put_group(text, 0, y)?;
    put_text(text, b"ink h", 150, 240, words.as_slice())?;
    put_illegal_text(text, &node.illegal)?;
    put_stuck_text(text, plus(stuck_top(&node.illegal), 140), node)?;
    put_panels(text, pages_top(node), node)?;
    put_event_axis(text, plus(axis_top(node), 110), node)?;
    put(text, GROUP_END)
}

// Where the text about a node's stuck pages begins, below its first illegal event.
fn stuck_top(illegal: &Option<IllegalEvent>) -> u128
    ensures { result ≡ stuck_top illegal.now }
{
    match illegal {
        None => 280,
        Some(_) => 460,
    }
}

// Where a node's panels begin.
fn pages_top(node: &DrawnNode) -> u128
    ensures { result ≡ pages_top node.now }
{
    plus(stuck_top(&node.illegal), stuck_height(node))
}

// Where they end.
fn axis_top(node: &DrawnNode) -> u128
    ensures { result ≡ axis_top node.now }
{
    panels_foot(pages_top(node), node)
}

fn node_height(node: &DrawnNode) -> u128
    ensures { result ≡ node_height node.now }
{
    plus(axis_top(node), 300)
}

/// Classes of letters, lines, bars and stages, and their colours on a light and on a dark background.
pub(crate) const STYLE: &[u8] = b"<style>
svg{display:block;width:100%;max-width:1080px;height:auto;margin:0 auto;color-scheme:light dark}
text{font:120px system-ui,sans-serif;font-variant-numeric:tabular-nums}
.h{font-size:150px;font-weight:600}.hh{font-size:190px;font-weight:600}.e{text-anchor:end}.c{text-anchor:middle}
path{shape-rendering:crispEdges}.pale{fill-opacity:.35}.rule,.zero{fill:none;shape-rendering:auto;stroke-width:6}
.s0,.s1,.s2,.s3,.s4{fill:currentColor}.bar,.lane{fill:none;stroke:currentColor;stroke-width:90}.thin{stroke-width:60}
svg{background:#ffffff}.bg{fill:#ffffff}.ink{fill:#1c2128}.soft{fill:#5d6673}.bad{fill:#c8102e}
.rule{stroke:#e4e7ec}.zero{stroke:#1c2128}.held{fill:#64748b}.given{fill:#a4582a}.pin,.wait{fill:#868d97}
.s0{color:#8292a3}.s1{color:#a86b00}.s2{color:#2c46a4}.s3{color:#a03a8b}.s4{color:#10422a}
@media(prefers-color-scheme:dark){
svg{background:#14171c}.bg{fill:#14171c}.ink{fill:#e8ebf0}.soft{fill:#a3acb9}.bad{fill:#ff6b78}
.rule{stroke:#2a3038}.zero{stroke:#e8ebf0}.held{fill:#8b9ab0}.given{fill:#d28a55}.pin,.wait{fill:#7f8793}
.s0{color:#5d6878}.s1{color:#ffcc80}.s2{color:#397aff}.s3{color:#e07ab2}.s4{color:#6cca98}
}</style>
";
