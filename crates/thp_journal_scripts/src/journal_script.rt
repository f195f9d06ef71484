//! The script of the nodes in a journal.
ghost use Rattle.std.specs.Prelude.{◌≡◌, ◌++◌, ◌-◌, [], ℕ, None, OnOk};
ghost use Rattle.thp_history.specs.Prelude.{event_with};
ghost use Rattle.thp_journal_scripts.specs.Prelude.{commands_text, head_text, taken_of, untaken, BeginsNode, EndsNode, GoesOnWith, IsWriting, StaysWritten};

use crate::folding::{Folding, Moved};
use crate::script_text::{put_commands, put_options};
use crate::turns::Turns;
use std::alloc::{AllocError, Global};
use std::marker::Model;
use std::snapshot::Snapshot;
use thp_history::{Event, Shape};
use thp_journal_writer::put;
use thp_script::Op;

/// The script of the nodes in a journal, in one section `setup`: the commands of one node after those of another. Before each
/// node's commands, a comment has the options of `thpsplit` for the nodes so far.
///
/// The text is taken out in parts. An error leaves the script unusable.
#[derive(Drop)]
pub(crate) struct JournalScript {
    alloc: Global,
    // the nodes so far, and their number
    shapes: Vec<Shape>,
    nodes: u32,
    // the last of them, if it has not ended
    node: Option<Folding>,
    pub(crate) turns: Turns,
    // the commands that are not in the text yet
    ops: Vec<Op>,
    pub(crate) text: Vec<u8>,
    // the text that was taken out; has no bytes
    taken: TextTrace,
    pub(crate) moved: Moved,
}

impl JournalScript {
    /// Creates the script of no node.
    pub(crate) fn new(alloc: Global) -> JournalScript
        ensures writing { IsWriting [] None result }
        ensures text { (taken_of result ≡ []) × (untaken result ≡ []) }
    {
        JournalScript {
            alloc,
            shapes: Vec::new(alloc),
            nodes: 0,
            node: None,
            turns: Turns::new(alloc),
            ops: Vec::new(alloc),
            text: Vec::new(alloc),
            taken: TextTrace::new(),
            moved: Moved::default(),
        }
    }

    /// Begins a node, after the end of the one before it.
    pub(crate) fn begin_node(&mut self, shape: Shape) -> Result<(), AllocError>
        ensures begins { OnOk result (BeginsNode shape self.old self.new) }
        ensures taken { OnOk result (taken_of self.new ≡ taken_of self.old) }
    {
        self.end_node()?;
        self.shapes.push(shape)?;
        self.nodes = self.nodes.saturating_add(1);
        put_head(&mut self.text, self.shapes.as_slice())?;
        self.node = Some(Folding::new(self.alloc));
        self.turns.untried.clear();
        Ok(())
    }

    /// Adds an event of the last node; it is ignored if there is none.
    pub(crate) fn add(&mut self, event: &Event) -> Result<(), AllocError>
        ensures goes_on { OnOk result ((block : ℕ) → GoesOnWith (event_with block event.now) self.old self.new) }
        ensures taken { OnOk result (taken_of self.new ≡ taken_of self.old) }
    {
        let Some(node) = &mut self.node else {
            return Ok(());
        };
        self.turns.add(event)?;
        node.add(event, &mut self.ops)?;
        self.write()?;
        Ok(())
    }

    /// Ends the last node, if there is one.
    pub(crate) fn end_node(&mut self) -> Result<(), AllocError>
        ensures ends { OnOk result (EndsNode self.old self.new) }
        ensures taken { OnOk result (taken_of self.new ≡ taken_of self.old) }
    {
        if let Some(node) = self.node.take() {
            let moved = node.finish(&mut self.ops)?;
            self.moved = self.moved.and(moved);
            self.write()?;
        }
        Ok(())
    }

    /// Appends the lines of the commands that are not in the text yet.
    fn write(&mut self) -> Result<(), AllocError>
        ensures text { OnOk result (self.new.text.items ≡ self.old.text.items ++ commands_text (self.old.nodes - 1) self.old.ops.items) }
        ensures ops { OnOk result (self.new.ops.items ≡ []) }
        ensures node { self.new.node ≡ self.old.node }
        ensures nodes { self.new.nodes ≡ self.old.nodes }
        ensures shapes { self.new.shapes ≡ self.old.shapes }
        ensures moved { self.new.moved ≡ self.old.moved }
        ensures turns { self.new.turns ≡ self.old.turns }
        ensures taken { self.new.taken ≡ self.old.taken }
    {
        let node = self.nodes.saturating_sub(1);
        put_commands(&mut self.text, node, self.ops.as_slice())?;
        self.ops.clear();
        Ok(())
    }

    /// Takes the text out.
    pub(crate) fn clear_text(&mut self)
        ensures none { untaken self.new ≡ [] }
        ensures taken { taken_of self.new ≡ taken_of self.old ++ untaken self.old }
        ensures stays { StaysWritten self.old self.new }
    {
        self.taken.push(&self.text);
        self.text.clear();
    }
}

/// Appends the options of `thpsplit` for nodes of these shapes, and `setup` if there is one.
fn put_head(text: &mut Vec<u8>, shapes: &[Shape]) -> Result<(), AllocError>
    ensures { OnOk result (text.new.items ≡ text.old.items ++ head_text shapes.now) }
{
    put_options(text, shapes)?;
    match shapes {
        [_one] => put(text, b"setup\n"),
        _ => Ok(()),
    }
}

/// Parts of a text one after the other, the newest outside.
#[derive(Drop)]
enum TextChain {
    Start,
    Then(Snapshot<Vec<u8>>, Snapshot<TextChain>),
}

/// A text that is visible to contracts only and has no bytes.
#[derive(Drop)]
pub(crate) struct TextTrace {
    parts: Snapshot<TextChain>,
}

impl Model for TextTrace {
    ghost use Rattle.std.specs.Prelude.{ℕ, List};
    ghost use Rattle.thp_journal_scripts.specs.TextTrace.{traced_text};

    ghost Value = { List ℕ };

    ghost view = { λ t. traced_text t.parts.value };
}

impl TextTrace {
    /// Returns the empty text.
    pub(crate) fn new() -> TextTrace
        ensures { result ≡ [] }
    {
        TextTrace {
            parts: Snapshot::of(&TextChain::Start),
        }
    }

    /// Appends a text.
    pub(crate) fn push(&mut self, text: &Vec<u8>)
        ensures { self.new ≡ self.old ++ text.now.items }
    {
        let start = Snapshot::of(&TextChain::Start);
        let parts = std::mem::replace(&mut self.parts, start);
        self.parts = Snapshot::of(&TextChain::Then(Snapshot::of(text), parts));
    }
}
