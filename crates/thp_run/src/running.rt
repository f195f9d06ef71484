//! From the bytes of a script to the bytes of its report, which are written whole or in parts.
ghost use Rattle.std.specs.Prelude.{◌≡◌, ℕ, List, IfOk, IfSome, IfNone, map, false, true};
ghost use Rattle.std.specs.Io.KnownBytes.{Appends};
ghost use Rattle.thp_script.specs.Prelude.{max_input};
ghost use Rattle.thp_cli.specs.Prelude.{ReadsOn, WritesAnswer, WritesFront, WritesOn};
ghost use Rattle.thp_run.specs.Prelude.{Wrote, answers_text, shape_of, with_stored};
ghost use Rattle.thp_run.specs.Programs.{RunEnds};

use crate::answers::AnswerParts;
use crate::report::{journals_text, totals_text};
use crate::script_in_progress::run_as_read;
use crate::script_run::RunResult;
use std::alloc::{AllocError, Global};
use std::io::{Read, Write};
use std::thread::Threads;
use thp_cli::{RunFault, Watched, write_all, write_text};
use thp_node::{CountOnly, Recorder};
use thp_script::{Report, Settings};
use thp_worker::Gate;

/// Runs the script from the reader and writes the report of the run.
///
/// Creates the nodes that the settings describe, executes the section `setup` while reading it, and then executes the sections of
/// the workers, each on its own thread. Only the report is written, once everything is done; if the writer fails, a prefix of the
/// report has been written. Each worker passes the gate before each of its commands. Nodes store their events only for a report
/// of journals.
pub fn run<T: Threads + Sync, R: Read, W: Write, G: Gate + Sync>(
    rt: &T,
    alloc: Global,
    settings: &Settings,
    reader: &mut Watched<R>,
    writer: &mut Watched<W>,
    gate: &G,
) -> Result<(), RunFault>
    requires reader { reader.old.failed ≡ false }
    requires writer { writer.old.failed ≡ false }
    ensures ends { RunEnds settings.now (R.remaining reader.old.device) (W.contents writer.old.device) (W.contents writer.new.device) reader.new.failed writer.new.failed result }
    ensures reads { ReadsOn max_input reader.new.failed reader.old.calls reader.new.calls }
    ensures writes { WritesAnswer result writer.new.failed writer.old.calls writer.new.calls }
{
    match settings.report {
        Report::Totals => {
            let ran: RunResult<CountOnly> = run_as_read(rt, alloc, settings, reader, gate)?;
            write_whole(totals_text(alloc, ran.nodes.as_slice()), writer)
        }
        Report::Answers => {
            let ran: RunResult<CountOnly> = run_as_read(rt, alloc, settings, reader, gate)?;
            write_answers(alloc, &ran, writer)
        }
        Report::Journal => {
            let ran: RunResult = run_as_read(rt, alloc, settings, reader, gate)?;
            write_whole(journals_text(alloc, ran.nodes.as_slice()), writer)
        }
    }
}

/// Writes the answers that a run's sections store, and flushes once. The whole text is never in memory: it is written in parts
/// from one buffer, which is allocated before the first write.
fn write_answers<R: Recorder, W: Write>(
    alloc: Global,
    ran: &RunResult<R>,
    writer: &mut Watched<W>,
) -> Result<(), RunFault>
    requires { writer.old.failed ≡ false }
    ensures wrote { Wrote (answers_text (map shape_of ran.now.nodes.items) (map with_stored ran.now.sections.items)) (W.contents writer.old.device) (W.contents writer.new.device) writer.new.failed result }
    ensures calls { WritesAnswer result writer.new.failed writer.old.calls writer.new.calls }
{
    let mut parts = AnswerParts::new(alloc, ran.nodes.as_slice(), ran.sections.as_slice())?;
    write_parts(&mut parts, writer).ok_or(RunFault::Write)
}

/// Writes a report whole and flushes once, unless there was no memory for it.
fn write_whole<W: Write>(
    report: Result<Vec<u8>, AllocError>,
    writer: &mut Watched<W>,
) -> Result<(), RunFault>
    requires { writer.old.failed ≡ false }
    ensures wrote { (text : List ℕ) → IfOk report (λ r. r.items ≡ text) → Wrote text (W.contents writer.old.device) (W.contents writer.new.device) writer.new.failed result }
    ensures calls { WritesAnswer result writer.new.failed writer.old.calls writer.new.calls }
{
    let text = report?;
    write_text(writer, text.as_slice()).ok_or(RunFault::Write)
}

// Writes the rest of the text in parts, and flushes once. `None` if the writer failed, after a prefix of the text.
fn write_parts<R: Recorder, W: Write>(
    parts: &mut AnswerParts<R>,
    writer: &mut Watched<W>,
) -> Option<()>
    requires { writer.old.failed ≡ false }
    ensures written { IfSome result (λ _. Appends (W.contents writer.old.device) (W.contents writer.new.device) parts.old.rest) }
    ensures cut { IfNone result (WritesFront (W.contents writer.old.device) (W.contents writer.new.device) parts.old.rest) }
    ensures flag { IfSome result (λ _. writer.new.failed ≡ false) }
    ensures failed { IfNone result (writer.new.failed ≡ true) }
    ensures calls { WritesOn writer.new.failed writer.old.calls writer.new.calls }
{
    loop {
        parts.fill();
        if parts.part().is_empty() {
            return writer.flush();
        }
        write_all(writer, parts.part())?;
    }
}
