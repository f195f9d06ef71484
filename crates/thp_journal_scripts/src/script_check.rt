//! The check of journals of any length that also writes the script that repeats them.
ghost use Rattle.std.specs.Prelude.{◌≡◌, ⊤, ◌++◌, Ok, Err, [], IfOk, IfErr, ℕ, false, List, OnOk};
ghost use Rattle.thp_journal_scripts.specs.Prelude.{taken_of, untaken, AddsLine, AreScripted, IsScriptOf, IsScripting};
ghost use Rattle.thp_journal_reader.specs.Prelude.{follows_later, journals_for_scripts, nodes_read, result_with, FollowsLines, KeepsNothing, ReportsLongReadFault};
ghost use Rattle.thp_journal_reader.specs.declared.journals.ReadJournals.{ReadJournals};
ghost use Rattle.thp_journal_reader.specs.declared.journals.ReadNode.{ReadNode};
ghost use Rattle.thp_script.specs.Prelude.{max_counted, Text};

use crate::folding::Moved;
use crate::journal_script::JournalScript;
use std::alloc::{AllocError, Global};
use std::marker::Model;
use thp_check::Replay;
use thp_journal_reader::{Accepted, FollowedNodes, Illegal, KeepsNodes, Line, TextReader};
use thp_script::{LongReadFault, TextInParts};

/// A check of journals of any length that also writes the script that repeats them, up to the first illegal event. It differs
/// from a [`LongCheck`](thp_journal_reader::LongCheck) in that the text of the script is taken out after each part.
#[derive(Drop)]
pub struct ScriptCheck {
    text: TextReader<ScriptedNodes>,
}

impl Model for ScriptCheck {
    ghost use Rattle.std.specs.Prelude.{◌≤◌, false};
    ghost use Rattle.thp_journal_reader.specs.Prelude.{nodes_read, FollowsLines, KeepsNothing, so_far};
    ghost use Rattle.thp_journal_scripts.specs.Prelude.{taken_of, untaken, IsScripting, ScriptSoFar};
    ghost use Rattle.thp_script.specs.Prelude.{max_counted};

    ghost Value = { ScriptSoFar };

    ghost view = { λ c. record { read = so_far (nodes_read c.text.nodes.checked.lines) c.text.place c.text.text; taken = taken_of c.text.nodes.script; untaken = untaken c.text.nodes.script } };

    ghost invariant = { λ c. FollowsLines (λ replay. replay) KeepsNothing false c.text.text.line c.text.nodes.checked × IsScripting (nodes_read c.text.nodes.checked.lines) c.text.nodes.checked.follower.illegal c.text.nodes.script × (c.text.text.most ≤ max_counted) };
}

impl ScriptCheck {
    /// Creates a check that has read nothing. The journals can have any length and version, and the
    /// nodes that a script can have: at most 8, each of at most 4,096 blocks.
    pub fn new(alloc: Global) -> ScriptCheck
        ensures reports { (text : Text) → result_with result.read text ≡ journals_for_scripts text }
        ensures taken { result.taken ≡ [] }
        ensures untaken { result.untaken ≡ [] }
    {
        ScriptCheck {
            text: TextReader::new(
                alloc,
                Accepted::ForScripts,
                TextInParts::unlimited(alloc),
                ScriptedNodes::new(alloc),
            ),
        }
    }

    /// Reads the next part of the text. After the first error the part is ignored. Fails if memory for a node's replay, for the
    /// script of the part, or for a line that spans several parts, can't be allocated.
    pub fn read_part(self, part: &[u8]) -> Result<ScriptCheck, AllocError>
        ensures reports { IfOk result (λ check. (more : Text) → result_with check.read more ≡ result_with self.read (part.now ++ more)) }
        ensures taken { IfOk result (λ check. check.taken ≡ self.taken) }
    {
        let text = self.text.read_part(part)?;
        Ok(ScriptCheck { text })
    }

    /// Returns the text of the script that was not taken out.
    pub fn script(&self) -> &[u8]
        ensures { result.now ≡ self.now.untaken }
    {
        self.text.nodes.script.text.as_slice()
    }

    /// Takes the text of the script out.
    pub fn clear_script(&mut self)
        ensures { self.new ≡ record self.old { taken = self.old.taken ++ self.old.untaken; untaken = [] } }
    {
        self.text.nodes.script.clear_text();
    }

    /// Returns the first illegal event of the whole text, in the order of the text, and why it is illegal, or `None` if each
    /// node's events are legal; and the rest of the script. Fails with the first error of the text, even if that is after an
    /// illegal event, and if memory for the rest of the script can't be allocated.
    pub fn finish(self) -> Result<Scripted, LongReadFault>
        ensures scripted { IfOk result (λ scripted. (journals : ReadJournals) × (result_with self.read [] ≡ Ok journals) × AreScripted journals.nodes self.taken scripted) }
        ensures fault { IfErr result (ReportsLongReadFault (result_with self.read [])) }
    {
        match self.text.finish() {
            Ok(nodes) => Ok(nodes.finish()?),
            Err(fault) => Err(LongReadFault::Text(fault)),
        }
    }
}

/// The result of a check that also writes a script, after the journal's last line.
#[derive(Drop)]
pub struct Scripted {
    /// The first illegal event; `None` if each node's events are legal.
    pub illegal: Option<Illegal>,
    /// The text of the script that was not taken out.
    pub text: Vec<u8>,
    /// What the script does in another order than the journal.
    pub moved: Moved,
    /// The number of tries of another page than the first that its caller has taken and not tried yet: the script tries pages in
    /// the order of their takes. It stops at 2^64 - 1.
    pub out_of_turn: u64,
}

/// The verdict on the nodes in the lines so far, and the script of their events up to the first illegal one.
#[derive(Drop)]
pub(crate) struct ScriptedNodes {
    pub(crate) checked: FollowedNodes<Replay, ()>,
    pub(crate) script: JournalScript,
}

impl ScriptedNodes {
    /// Returns the state before the first line.
    pub(crate) fn new(alloc: Global) -> ScriptedNodes
        ensures lines { result.checked.lines ≡ [] }
        ensures follows { FollowsLines (λ replay. replay) KeepsNothing false 1 result.checked }
        ensures script { IsScripting [] result.checked.follower.illegal result.script }
        ensures taken { taken_of result.script ≡ [] }
        ensures untaken { untaken result.script ≡ [] }
    {
        ScriptedNodes {
            checked: FollowedNodes::new(alloc),
            script: JournalScript::new(alloc),
        }
    }

    /// Ends the script, after the last line.
    pub(crate) fn finish(self) -> Result<Scripted, AllocError>
        ensures illegal { IfOk result (λ s. s.illegal ≡ self.checked.follower.illegal) }
        ensures script { IfOk result (λ s. (nodes : List ReadNode) → IsScripting nodes self.checked.follower.illegal self.script → IsScriptOf nodes s.illegal (taken_of self.script ++ s.text.items) s.moved s.out_of_turn) }
    {
        let ScriptedNodes {
            checked,
            mut script,
        } = self;
        script.end_node()?;
        Ok(Scripted {
            illegal: checked.illegal(),
            moved: script.moved,
            out_of_turn: script.turns.out_of_turn,
            text: script.text,
        })
    }
}

/// Adds a line without an illegal event to a script. The last line changes nothing: the script of the last node ends later.
fn add_line(script: &mut JournalScript, line: &Line) -> Result<(), AllocError>
    ensures adds { OnOk result (AddsLine line.now script.old script.new) }
    ensures taken { OnOk result (taken_of script.new ≡ taken_of script.old) }
{
    match line {
        Line::Node { shape, .. } => script.begin_node(*shape),
        Line::Happened(event) => script.add(event),
        Line::Head(_) | Line::End => Ok(()),
    }
}

impl KeepsNodes for ScriptedNodes {
    ghost reported = { λ nodes. nodes_read nodes.checked.lines };

    ghost goes_along = { λ number nodes. FollowsLines (λ replay. replay) KeepsNothing false number nodes.checked × IsScripting (nodes_read nodes.checked.lines) nodes.checked.follower.illegal nodes.script };

    ghost taken = { λ nodes. taken_of nodes.script };

    ghost allows = { λ v. ⊤ };

    ghost last_line = { max_counted };

    fn add(&mut self, alloc: Global, number: u64, line: &Line) -> Result<(), AllocError> {
        self.checked.add(alloc, number, line)?;
        if self.checked.illegal().is_some() {
            self.script.end_node()
        } else {
            add_line(&mut self.script, line)
        }
    }

    ghost later = { λ number nodes along. (follows_later (λ replay. replay) KeepsNothing false number nodes.checked along.0, along.1) };
}
