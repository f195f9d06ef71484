//! Reads scripts from bytes.
ghost use Rattle.std.specs.Prelude.{◌≡◌, ◌≢◌, ◌≤◌, ◌<◌, ◌+◌, ◌++◌, ◌∷◌, [], ℕ, List, All, IfOk, IfErr, IfSome, OnOk, length, replicate, slice_set, vec_len};
ghost use Rattle.thp_script.specs.Prelude.{IsCommandFor, IsPartRead, IsScriptFor, ReportsFault, Text, first_section, placed, read_after, script_in, script_of, spelled_after, spelled_with, with_commands};
ghost use Rattle.thp_script.specs.declared.fault.ReadFault.TheVariants.{OutOfMemory};

use crate::fault::ReadFault;
use crate::lines::fault_after;
use crate::script::{Command, Op, ScriptSections, parse_command_fast};
use crate::sequence::Sequence;
use crate::settings::Settings;
use crate::statement::{Statement, section_after, statement_in};
use crate::text_in_parts::{TextInParts, WholeLine};
use std::alloc::Global;
use std::marker::Model;

/// Returns the empty sections of a script, `setup` first.
fn empty_sections(alloc: Global, workers: u32) -> Result<Vec<Sequence<Command>>, ReadFault>
    ensures empty { IfOk result (λ sections. sections.items ≡ replicate (workers + 1) []) }
    ensures memory { IfErr result (λ fault. fault ≡ OutOfMemory) }
{
    let mut sections = Vec::new(alloc);
    sections.push(Sequence::new(alloc))?;
    for _ in 0..workers {
        sections.push(Sequence::new(alloc))?;
    }
    Ok(sections)
}

/// Appends a command to the section of this number.
#[inline(always)]
fn add_command(
    sections: &mut Vec<Sequence<Command>>,
    section: u32,
    command: Command,
) -> Result<(), ReadFault>
    requires { section < vec_len sections.old }
    ensures added { OnOk result (sections.new.items ≡ with_commands sections.old.items ((section, command) ∷ [])) }
    ensures memory { IfErr result (λ fault. fault ≡ OutOfMemory) }
{
    // the toolchain finds this type, which commands contain, only in functions that name it
    let _in_commands = Op::Close;
    sections[section as usize].push(command)?;
    Ok(())
}

/// Appends the command of a line, if it has one, to its section.
fn add(
    sections: &mut Vec<Sequence<Command>>,
    section: Option<u32>,
    statement: Statement,
) -> Result<(), ReadFault>
    requires { IfSome section (λ k. k < vec_len sections.old) }
    ensures added { OnOk result (sections.new.items ≡ with_commands sections.old.items (placed section statement)) }
    ensures memory { IfErr result (λ fault. fault ≡ OutOfMemory) }
{
    if let (Some(section), Statement::Call(command)) = (section, statement) {
        add_command(sections, section, command)?;
    }
    Ok(())
}

/// Appends the commands at the beginning of the rest of a part, line by line up to the first line that is not parsed fast, and
/// returns the text from there on.
fn add_fast<'p>(
    settings: &Settings,
    sections: &mut Vec<Sequence<Command>>,
    section: Option<u32>,
    text: &mut TextInParts,
    part: &'p [u8],
) -> Result<&'p [u8], ReadFault>
    requires { IsPartRead settings.now sections.old.items section text.old part.now }
    ensures inside { IfOk result (λ rest. IsPartRead settings.now sections.new.items section text.new rest.now) }
    ensures spelled { IfOk result (λ rest. (more : Text) → spelled_after settings.now sections.new.items section text.new rest.now more ≡ spelled_after settings.now sections.old.items section text.old part.now more) }
    ensures shorter { IfOk result (λ rest. length rest.now ≤ length part.now) }
    ensures memory { IfErr result (λ fault. fault ≡ OutOfMemory) }
{
    let (Some(at), true) = (section, text.begins_line()) else {
        return Ok(part);
    };
    let mut rest = part;
    while let Some((command, after)) = parse_command_fast(settings, rest) {
        add_command(sections, at, command)?;
        text.pass_line();
        rest = after;
    }
    Ok(rest)
}

/// Assembles the script of its sections.
fn script_of_sections(mut sections: Vec<Sequence<Command>>) -> ScriptSections
    requires { 0 < vec_len sections }
    ensures { result ≡ script_in sections.items }
{
    let setup = sections.remove(0);
    ScriptSections {
        setup,
        workers: Sequence::from_vec(sections),
    }
}

/// A reader of a script whose text arrives in parts of any length. It stores the commands that it has read, and only the line in
/// progress of the text.
#[derive(Drop)]
pub struct ScriptReader<'a> {
    settings: &'a Settings,
    sections: Vec<Sequence<Command>>,
    // the section of the last line
    section: Option<u32>,
    text: TextInParts,
}

impl<'a> Model for ScriptReader<'a> {
    ghost use Rattle.thp_script.specs.Parts.{IsReading, ReadSoFar};

    ghost Value = { ReadSoFar };

    ghost view = { λ r. record { settings = r.settings.now; sections = r.sections.items; section = r.section; text = r.text } };

    ghost invariant = { λ r. IsReading (record { settings = r.settings.now; sections = r.sections.items; section = r.section; text = r.text }) };
}

impl<'a> ScriptReader<'a> {
    /// Creates a reader that has read nothing.
    pub fn new(alloc: Global, settings: &'a Settings) -> Result<ScriptReader<'a>, ReadFault>
        ensures text { IfOk result (λ reader. (text : Text) → spelled_with reader text ≡ script_of settings.now text) }
        ensures settings { IfOk result (λ reader. reader.settings ≡ settings.now) }
        ensures memory { IfErr result (λ fault. fault ≡ OutOfMemory) }
    {
        Ok(ScriptReader {
            settings,
            sections: empty_sections(alloc, settings.workers)?,
            section: None,
            text: TextInParts::new(alloc),
        })
    }

    /// Reads the next part of the text. After the first error, or after more bytes than an input may have, nothing more is
    /// stored.
    pub fn read_part(self, part: &[u8]) -> Result<ScriptReader<'a>, ReadFault>
        ensures text { IfOk result (λ reader. (more : Text) → spelled_with reader more ≡ spelled_with self.entry (part.now ++ more)) }
        ensures settings { IfOk result (λ reader. reader.settings ≡ self.entry.settings) }
        ensures memory { IfErr result (λ fault. fault ≡ OutOfMemory) }
    {
        let ScriptReader {
            settings,
            mut sections,
            mut section,
            mut text,
        } = self;
        let rest = text.next_part(part);
        let mut rest = add_fast(settings, &mut sections, section, &mut text, rest)?;
        while let Some(WholeLine { bytes, .. }) = text.next_line(&mut rest)? {
            let said = statement_in(settings, section, bytes.as_slice());
            drop(bytes);
            match said {
                Ok(statement) => {
                    let next = section_after(section, &statement);
                    add(&mut sections, section, statement)?;
                    section = next;
                    rest = add_fast(settings, &mut sections, section, &mut text, rest)?;
                }
                Err(kind) => {
                    text.note_fault(kind);
                    break;
                }
            }
        }
        Ok(ScriptReader {
            settings,
            sections,
            section,
            text,
        })
    }

    /// Returns the commands of `setup` that were read and not dropped.
    pub fn setup(&self) -> &[Command]
        ensures commands { result.now ≡ first_section self.now.sections }
        ensures in_range { All (IsCommandFor self.now.settings.nodes) result.now }
    {
        self.sections[0].as_slice()
    }

    /// Drops the commands of `setup` that were read, after they were executed. From then on `finish` returns the script without
    /// them; the script of the text has them at the beginning of its `setup`. Their memory is freed with the reader only.
    pub fn drop_setup(&mut self)
        ensures text { (more : Text) → spelled_with self.old more ≡ read_after (first_section self.old.sections) (spelled_with self.new more) }
        ensures gone { first_section self.new.sections ≡ [] }
        ensures settings { self.new.settings ≡ self.old.settings }
    {
        self.sections[0].clear();
    }

    /// Returns the script that the whole text represents, or its first error. Allocates no memory.
    pub fn finish(self) -> Result<ScriptSections, ReadFault>
        ensures script { IfOk result (λ script. spelled_with self.entry [] ≡ Ok script) }
        ensures in_range { IfOk result (IsScriptFor self.entry.settings) }
        ensures fault { IfErr result (ReportsFault (spelled_with self.entry [])) }
        ensures memory { IfErr result (λ fault. fault ≢ OutOfMemory) }
    {
        if let Some((line, kind)) = self.text.fault() {
            return Err(ReadFault::Text {
                line: line as u32,
                kind,
            });
        }
        let (line, behind) = self.text.last_line();
        match fault_after(behind) {
            Some(kind) => Err(ReadFault::Text {
                line: line as u32,
                kind,
            }),
            None => Ok(script_of_sections(self.sections)),
        }
    }
}

/// Parses a script, or returns its first error.
///
/// A section line, `setup` or `worker K`, begins a section, and the following lines are its commands. Empty lines and lines that
/// begin with `#` are ignored. The text is read once, from its start to its first error. The script has a list of commands for
/// each worker, including those without a section.
pub fn read_script(
    alloc: Global,
    settings: &Settings,
    text: &[u8],
) -> Result<ScriptSections, ReadFault>
    ensures script { IfOk result (λ script. script_of settings.now text.now ≡ Ok script) }
    ensures in_range { IfOk result (IsScriptFor settings.now) }
    ensures fault { IfErr result (ReportsFault (script_of settings.now text.now)) }
{
    let reader = ScriptReader::new(alloc, settings)?;
    let reader = reader.read_part(text)?;
    reader.finish()
}
