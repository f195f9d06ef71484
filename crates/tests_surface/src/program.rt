//! The program's parts: settings, scripts, runs, journals and their check.
use std::alloc::Global;
use std::io::{Read, Write};
use std::thread::Threads;
use thp_model::{Event, PageId, Shape};
use thp_run::{
    Command, Gate, Journals, Line, NoGate, NodeJournal, Op, ReadFault, Report, RunFault, Script,
    Settings, TextKind, Watched, check_run, check_text, read_journal, read_line, read_orders,
    read_script, read_underused, run,
};

// The settings of two nodes by lists as on a command line.
fn settings_of(orders: &str, thresholds: &str) -> Option<Settings> {
    let orders = read_orders(orders)?;
    let thresholds = read_underused(thresholds)?;
    let settings = Settings::new(2, 16, 2, Report::Answers)?;
    let settings = settings.with_orders(&orders)?;
    settings.with_underused(&thresholds)
}

// Whether a command line is read.
fn is_read(alloc: Global) -> bool {
    let words = ["thpsplit", "--nodes", "2"];
    let Ok(line) = read_line(alloc, &words) else {
        return false;
    };
    let Line {
        nodes,
        blocks,
        workers,
        report,
        check,
        orders,
        underused,
        ..
    } = line;
    let default = blocks == 16 && workers == 1 && report == Report::Totals && !check;
    nodes == 2 && default && orders.is_none() && underused.is_none()
}

// Whether a script is read as its commands.
fn is_script(alloc: Global, settings: &Settings) -> bool {
    match read_script(alloc, settings, b"setup\nalloc 1\n") {
        Ok(Script { setup, workers }) => {
            let setup: Vec<Command> = setup;
            let workers: Vec<Vec<Command>> = workers;
            let command = Command {
                node: 1,
                op: Op::Alloc,
            };
            setup.as_slice() == [command].as_slice() && workers.len() == 2
        }
        Err(_) => false,
    }
}

// The commands about ranges of subpages and about numbers of pages, with their operands.
fn range_of(op: Op) -> Option<(PageId, u32, u32)> {
    match op {
        Op::Map { page, first, count }
        | Op::Unmap { page, first, count }
        | Op::Write { page, first, count }
        | Op::Zero { page, first, count } => Some((page, first, count)),
        Op::Scan { count } | Op::Take { count } => Some((PageId(0), 0, count)),
        _ => None,
    }
}

// The commands about a page, with the page.
fn page_of(op: Op) -> Option<PageId> {
    match op {
        Op::MapWhole { page }
        | Op::UnmapWhole { page }
        | Op::SplitPmd { page }
        | Op::Pin { page }
        | Op::Unpin { page } => Some(page),
        Op::Alloc | Op::Close | Op::Count | Op::SplitNext | Op::PutBack => None,
        _ => None,
    }
}

// Whether the operands of commands are read as they were written.
fn has_operands() -> bool {
    let page = PageId(7);
    let unmap = Op::Unmap {
        page,
        first: 1,
        count: 2,
    };
    range_of(unmap) == Some((page, 1, 2)) && page_of(Op::Pin { page }) == Some(page)
}

// The line of the first error of a run, which has 32 bits.
fn line_of(fault: &RunFault) -> Option<u32> {
    match fault {
        RunFault::Text { line, kind: _ } => Some(*line),
        RunFault::OutOfMemory | RunFault::Read | RunFault::Write => None,
    }
}

// Whether the first error of a script is reported.
fn is_faulty(alloc: Global, settings: &Settings) -> bool {
    matches!(
        read_script(alloc, settings, b"fly\n"),
        Err(ReadFault::Text {
            line: 1,
            kind: TextKind::BadWord
        })
    )
}

// A gate defined here.
#[derive(Drop)]
struct Open;

impl Gate for Open {
    fn pass(&self, _worker: u32, _index: u32) {}
}

// The output of a run of a script with a gate.
fn written<T: Threads + Sync, G: Gate + Sync>(
    rt: &T,
    alloc: Global,
    settings: &Settings,
    script: &[u8],
    gate: &G,
) -> Result<Vec<u8>, RunFault> {
    let mut reader = Watched::new(script);
    let mut writer: Watched<Vec<u8>> = Watched::new(Vec::new(alloc));
    run(rt, alloc, settings, &mut reader, &mut writer, gate)?;
    Ok(writer.into_inner())
}

// Whether a run has the output of its command, and one without commands succeeds.
fn is_run<T: Threads + Sync>(rt: &T, alloc: Global, settings: &Settings) -> bool {
    let is_report = match written(rt, alloc, settings, b"worker 1\nalloc 0\n", &Open) {
        Ok(text) => text.as_slice() == b"1 1 page 0\n".as_slice(),
        Err(_) => false,
    };
    is_report && written(rt, alloc, settings, b"", &NoGate).is_ok()
}

// Whether one read, one write and one flush succeed.
fn is_answered<R: Read, W: Write>(reader: &mut Watched<R>, writer: &mut Watched<W>) -> bool {
    let read = reader.read(&mut [0u8; 4]);
    let wrote = writer.write(b"node");
    let flushed = writer.flush();
    let answered = read.is_some() && wrote.is_some() && flushed.is_some();
    answered && !reader.failed() && !writer.failed()
}

// Eight nodes, of which only the first has an event.
const JOURNAL: &[u8] =
    b"thp-journal 1\nnode 0 blocks 4\n0 alloc 0\nnode 1 blocks 1\nnode 2 blocks 1\nnode 3 blocks 1\nnode 4 blocks 1\nnode 5 blocks 1\nnode 6 blocks 1\nnode 7 blocks 1\nend\n";

// Whether this is the journal, by its shape, its line and its events.
fn is_first(node: &NodeJournal) -> bool {
    let shape: &Shape = &node.shape;
    let events: &Vec<Event> = &node.events;
    shape.blocks == 4 && node.first_line == 3 && events.len() == 1
}

// Whether a journal is read, and found to be legal.
fn is_journal(alloc: Global) -> bool {
    let first = match read_journal(alloc, JOURNAL) {
        Ok(Journals { nodes }) => match nodes.as_slice().first() {
            Some(node) => nodes.len() == 8 && is_first(node),
            None => false,
        },
        Err(_) => false,
    };
    first && matches!(check_text(alloc, JOURNAL), Ok(None))
}

// Whether the check of a journal on a reader finds it legal.
fn is_checked(alloc: Global) -> bool {
    let mut reader = Watched::new(JOURNAL);
    let mut writer: Watched<Vec<u8>> = Watched::new(Vec::new(alloc));
    matches!(check_run(alloc, &mut reader, &mut writer), Ok(true))
}

#[test]
fn settings_and_scripts(rt: HostRuntime) {
    let alloc = rt.alloc();
    let settings = settings_of("9,2", "off,1").expect(&rt, "settings");
    let read = is_read(alloc);
    let script = is_script(alloc, &settings);
    let fault = is_faulty(alloc, &settings);
    let reported = is_run(&rt, alloc, &settings);
    assert!(rt; read && script && fault && reported && has_operands());
    assert!(rt; line_of(&RunFault::Read).is_none());
}

#[test]
fn journals_and_devices(rt: HostRuntime) {
    let alloc = rt.alloc();
    let mut writer: Watched<Vec<u8>> = Watched::new(Vec::new(alloc));
    let answered = is_answered(&mut Watched::new(JOURNAL), &mut writer);
    let read = is_journal(alloc);
    let legal = is_checked(alloc);
    assert!(rt; answered && read && legal);
}
