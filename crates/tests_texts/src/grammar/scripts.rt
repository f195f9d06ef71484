//! Scripts as the whole grammar parses them: sections of workers, all commands, and first errors.
use std::alloc::Global;
use thp_history::PageId;
use thp_script::{
    Command, Op, ReadFault, Report, ScriptSections, Sequence, Settings, TextKind, read_script,
};

/// The result of parsing a script of one node and one worker.
fn read(alloc: Global, script: &[u8]) -> Result<ScriptSections, ReadFault> {
    match Settings::new(1, 16, 1, Report::Totals) {
        Some(settings) => read_script(alloc, &settings, script),
        None => Err(ReadFault::OutOfMemory),
    }
}

/// The first error of a script by line and kind, `None` if it has none.
fn first_fault(alloc: Global, script: &[u8]) -> Option<(u32, TextKind)> {
    match read(alloc, script) {
        Err(ReadFault::Text { line, kind }) => Some((line, kind)),
        _ => None,
    }
}

/// Whether a script is parsed as these commands of the setup and those of the worker.
fn reads(alloc: Global, text: &[u8], setup: &[Command], worker: &[Command]) -> bool {
    match read(alloc, text) {
        Ok(script) => {
            script.setup.as_slice() == setup && is_worker(script.workers.as_slice(), worker)
        }
        Err(_) => false,
    }
}

fn is_worker(workers: &[Sequence<Command>], commands: &[Command]) -> bool {
    match workers {
        [worker] => worker.as_slice() == commands,
        _ => false,
    }
}

fn command(op: Op) -> Command {
    Command { node: 0, op }
}

#[test]
fn faults_of_the_whole_grammar(rt: HostRuntime) {
    let rows: [(&[u8], u32, TextKind); 13] = [
        (b"worker 2\n", 1, TextKind::BadNumber),
        (b"worker 0\n", 1, TextKind::BadNumber),
        (b"worker 01\n", 1, TextKind::BadNumber),
        (b"worker\n", 1, TextKind::BadCount),
        (b"worker 1 1\n", 1, TextKind::BadCount),
        (b"setup x\n", 1, TextKind::BadCount),
        (b"worker 1\nworker 1\n", 2, TextKind::BadOrder),
        (b"worker 1\nsetup\n", 2, TextKind::BadOrder),
        (b"count 0\n", 1, TextKind::BadOrder),
        (b"worker 1\ntake 0 129\n", 2, TextKind::BadNumber),
        (b"worker 1\nsplitnext 0 0\n", 2, TextKind::BadCount),
        (b"worker 1\nputback 1\n", 2, TextKind::BadNumber),
        (b"worker 1\n count 0\n", 2, TextKind::BadWord),
    ];
    for (script, line, kind) in rows {
        assert!(rt;
            first_fault(rt.alloc(), script) == Some((line, kind)),
            "{line} {kind}"
        );
    }
}

#[test]
fn sections_and_all_commands(rt: HostRuntime) {
    let script =
        b"# setup first\nsetup\nalloc 0\n\nworker 1\nmap 0 7 3 4\ncount 0\ntake 0 8\nsplitnext 0\nputback 0\n";
    let commands = [
        command(Op::Map {
            first: 3,
            count: 4,
            page: PageId(7),
        }),
        command(Op::Count),
        command(Op::Take { count: 8 }),
        command(Op::SplitNext),
        command(Op::PutBack),
    ];
    assert!(rt; reads(rt.alloc(), script, &[command(Op::Alloc)], &commands));
}

#[test]
fn without_sections_each_worker_has_no_commands(rt: HostRuntime) {
    assert!(rt; reads(rt.alloc(), b"", &[], &[]));
}
