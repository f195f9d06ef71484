//! Journals as values.
ghost use Rattle.std.specs.Prelude.{◌≡◌, true, Ok, IfOk, IfErr, ◌≤◌, ◌+◌, ◌++◌, ◌∷◌, [], OnOk, IfSome};
ghost use Rattle.thp_history.specs.Prelude.{by};
ghost use Rattle.thp_journal_reader.specs.Prelude.{began, journals_of, nodes_in, on_last, reads_later, with_event, with_line, AreJournals, BlocksGoAlong, IsLineInRange, IsReadingNodes};
ghost use Rattle.thp_journal_writer.specs.Prelude.{includes};
ghost use Rattle.thp_journal_writer.specs.declared.version.Version.TheVariants.{Underused};
ghost use Rattle.thp_script.specs.Prelude.{ReportsFault, max_input};

use crate::keeps_nodes::KeepsNodes;
use crate::least_blocks::LeastBlocks;
use crate::line::{Accepted, Line};
use crate::text_reader::TextReader;
use std::alloc::{AllocError, Global};
use thp_history::{Event, Shape, What};
use thp_script::{ReadFault, Sequence, TextInParts};

/// The journal of a node, read from a text.
#[derive(Debug, Drop)]
pub struct ReadNode {
    /// The node's size.
    pub shape: Shape,
    /// The line of the first event, counted from 1; the event at index i is on line `first_line + i`.
    pub first_line: u32,
    /// The events, in order. Each allocation has the least block that no page holds.
    pub events: Sequence<Event>,
}

/// The journals of a text's nodes.
#[derive(Debug, Drop)]
pub struct ReadJournals {
    /// The nodes, in order of their numbers.
    pub nodes: Sequence<ReadNode>,
}

/// Parses journals of version 1 to 3, or returns the first error of the text.
///
/// The text is read once, from its start to its first error. Journals contain no blocks: each allocation gets the least block
/// that no page holds; a page holds its block from its allocation to the next event that frees it.
pub fn read_journal(alloc: Global, text: &[u8]) -> Result<ReadJournals, ReadFault>
    ensures journals { IfOk result (λ journals. journals_of text.now ≡ Ok journals) }
    ensures in_range { IfOk result AreJournals }
    ensures fault { IfErr result (ReportsFault (journals_of text.now)) }
{
    let reader: TextReader<Option<Nodes>> = TextReader::new(
        alloc,
        Accepted::UpToVersion3,
        TextInParts::new(alloc),
        None,
    );
    let reader = reader.read_part(text)?;
    match reader.finish() {
        Err(fault) => Err(ReadFault::Text {
            line: fault.line as u32,
            kind: fault.kind,
        }),
        Ok(nodes) => Ok(ReadJournals {
            nodes: close(alloc, nodes)?,
        }),
    }
}

/// A node whose events are being read, and the blocks of its pages.
#[derive(Drop)]
pub(crate) struct OpenNode {
    journal: ReadNode,
    blocks: LeastBlocks,
}

impl OpenNode {
    /// Appends an event; an allocation gets the least free block.
    fn push(&mut self, caller: u32, what: What) -> Result<(), AllocError>
        requires { BlocksGoAlong self.old }
        ensures along { OnOk result (BlocksGoAlong self.new) }
        ensures pushed { OnOk result (self.new.journal ≡ with_event (by caller what) self.old.journal) }
    {
        let event = self.blocks.place(Event { caller, what })?;
        self.journal.events.push(event)?;
        Ok(())
    }
}

/// The nodes read so far, at least one. Events are added to the last of them.
#[derive(Drop)]
pub(crate) struct Nodes {
    closed: Sequence<ReadNode>,
    last: OpenNode,
}

/// Closes the last node, and returns the nodes.
pub(crate) fn close(alloc: Global, nodes: Option<Nodes>) -> Result<Sequence<ReadNode>, AllocError>
    ensures { IfOk result (λ closed. closed ≡ nodes_in nodes) }
{
    let Some(nodes) = nodes else {
        return Ok(Sequence::new(alloc));
    };
    let Nodes { mut closed, last } = nodes;
    closed.push(last.journal)?;
    Ok(closed)
}

/// Begins a node, after the end of the one before it.
fn begin(
    alloc: Global,
    nodes: &mut Option<Nodes>,
    number: u64,
    shape: Shape,
) -> Result<(), AllocError>
    requires blocks { 1 ≤ shape.blocks }
    requires room { number ≤ max_input }
    ensures nodes { OnOk result (nodes_in nodes.new ≡ nodes_in nodes.old ++ began (number + 1) shape ∷ []) }
    ensures along { OnOk result (IfSome nodes.new (λ n. BlocksGoAlong n.last)) }
{
    let blocks = LeastBlocks::new(alloc, shape)?;
    let journal = ReadNode {
        shape,
        first_line: number as u32 + 1,
        events: Sequence::new(alloc),
    };
    let closed = close(alloc, nodes.take())?;
    let last = OpenNode { journal, blocks };
    *nodes = Some(Nodes { closed, last });
    Ok(())
}

/// Appends an event to the last node, if there is one.
fn push(nodes: &mut Option<Nodes>, event: Event) -> Result<(), AllocError>
    requires { IfSome nodes.old (λ n. BlocksGoAlong n.last) }
    ensures nodes { OnOk result (nodes_in nodes.new ≡ on_last (with_event event) (nodes_in nodes.old)) }
    ensures along { OnOk result (IfSome nodes.new (λ n. BlocksGoAlong n.last)) }
{
    if let Some(nodes) = nodes {
        nodes.last.push(event.caller, event.what)?;
    }
    Ok(())
}

impl KeepsNodes for Option<Nodes> {
    ghost reported = { λ nodes. nodes_in nodes };

    ghost goes_along = { λ number nodes. IsReadingNodes number nodes };

    ghost taken = { λ nodes. [] };

    ghost allows = { λ v. includes Underused v ≡ true };

    ghost last_line = { max_input };

    fn add(&mut self, alloc: Global, number: u64, line: &Line) -> Result<(), AllocError> {
        match line {
            Line::Node { shape, .. } => begin(alloc, self, number, *shape)?,
            Line::Happened(event) => push(self, *event)?,
            Line::Head(_) | Line::End => {}
        }
        Ok(())
    }

    ghost later = { λ number nodes along. reads_later number nodes along };
}
