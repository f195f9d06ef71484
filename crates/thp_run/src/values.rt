//! Scripts and journals whose lists are vectors, for callers that need them as values. The programs use the sequences of
//! `thp_script` and `thp_journal_reader`, which contracts see as the same lists.
ghost use Rattle.std.specs.Prelude.{◌≡◌, IfErr, IfOk, Ok};
ghost use Rattle.thp_journal_reader.specs.Prelude.{AreJournals, journals_of};
ghost use Rattle.thp_script.specs.Prelude.{IsScriptFor, ReportsFault, script_of};

use std::alloc::{AllocError, Global};
use std::marker::Model;
use thp_history::{Event, Shape};
use thp_journal_reader::ReadJournals;
use thp_script::{Command, ReadFault, ScriptSections, Sequence, Settings};

/// The commands of a script's sections, in order.
#[derive(Debug, Drop)]
pub struct Script {
    /// The commands of the section `setup`, which are executed first.
    pub setup: Vec<Command>,
    /// The commands of each worker, beginning with worker 1.
    pub workers: Vec<Vec<Command>>,
}

impl Model for Script {
    ghost use Rattle.std.specs.Prelude.{map};
    ghost use Rattle.thp_script.specs.declared.script.ScriptSections.{ScriptSections};

    ghost Value = { ScriptSections };

    ghost view = { λ s. record { setup = s.setup.items; workers = map (λ commands. commands.items) s.workers.items } };
}

/// The journal of a node, read from a text.
#[derive(Debug, Drop)]
pub struct NodeJournal {
    /// The node's size.
    pub shape: Shape,
    /// The line of the first event, counted from 1; the event at index i is on line `first_line + i`.
    pub first_line: u32,
    /// The events, in order. Each allocation has the least block that no page holds.
    pub events: Vec<Event>,
}

impl Model for NodeJournal {
    ghost use Rattle.thp_journal_reader.specs.declared.journals.ReadNode.{ReadNode};

    ghost Value = { ReadNode };

    ghost view = { λ n. record { shape = n.shape; first_line = n.first_line; events = n.events.items } };
}

/// The journals of a text's nodes.
#[derive(Debug, Drop)]
pub struct Journals {
    /// The nodes, in order of their numbers.
    pub nodes: Vec<NodeJournal>,
}

impl Model for Journals {
    ghost use Rattle.thp_journal_reader.specs.declared.journals.ReadJournals.{ReadJournals};

    ghost Value = { ReadJournals };

    ghost view = { λ j. record { nodes = j.nodes.items } };
}

/// Parses a script, or returns its first error.
///
/// A section line, `setup` or `worker K`, begins a section, and the following lines are its commands. Empty lines and lines that
/// begin with `#` are ignored. The text is read once, from its start to its first error. The script has a list of commands for
/// each worker, including those without a section.
pub fn read_script(alloc: Global, settings: &Settings, text: &[u8]) -> Result<Script, ReadFault>
    ensures script { IfOk result (λ script. script_of settings.now text.now ≡ Ok script) }
    ensures in_range { IfOk result (IsScriptFor settings.now) }
    ensures fault { IfErr result (ReportsFault (script_of settings.now text.now)) }
{
    let sections = thp_script::read_script(alloc, settings, text)?;
    let script = script_of_sections(alloc, sections)?;
    Ok(script)
}

/// Parses journals, or returns the first error of the text.
///
/// The text is read once, from its start to its first error. Journals contain no blocks: each allocation gets the least block
/// that no page holds; a page holds its block from its allocation to the next event that frees it.
pub fn read_journal(alloc: Global, text: &[u8]) -> Result<Journals, ReadFault>
    ensures journals { IfOk result (λ journals. journals_of text.now ≡ Ok journals) }
    ensures in_range { IfOk result AreJournals }
    ensures fault { IfErr result (ReportsFault (journals_of text.now)) }
{
    let read = thp_journal_reader::read_journal(alloc, text)?;
    let journals = journals_of_read(alloc, read)?;
    Ok(journals)
}

/// Converts the sections of a script to vectors.
fn script_of_sections(alloc: Global, sections: ScriptSections) -> Result<Script, AllocError>
    ensures { IfOk result (λ script. script ≡ sections) }
{
    let mut workers = Vec::new(alloc);
    for commands in sections.workers.into_vec() {
        workers.push(commands.into_vec())?;
    }
    Ok(Script {
        setup: sections.setup.into_vec(),
        workers,
    })
}

/// Converts a script to sections as the programs have them.
pub(crate) fn sections_of_script(
    alloc: Global,
    script: Script,
) -> Result<ScriptSections, AllocError>
    ensures { IfOk result (λ sections. sections ≡ script) }
{
    let Script { setup, workers } = script;
    let mut sections = Sequence::new(alloc);
    for commands in workers {
        sections.push(Sequence::from_vec(commands))?;
    }
    Ok(ScriptSections {
        setup: Sequence::from_vec(setup),
        workers: sections,
    })
}

/// Converts journals to vectors.
fn journals_of_read(alloc: Global, read: ReadJournals) -> Result<Journals, AllocError>
    ensures { IfOk result (λ journals. journals ≡ read) }
{
    let mut nodes = Vec::new(alloc);
    for node in read.nodes.into_vec() {
        nodes.push(NodeJournal {
            shape: node.shape,
            first_line: node.first_line,
            events: node.events.into_vec(),
        })?;
    }
    Ok(Journals { nodes })
}
