//! Scripts whose text arrives in parts.
ghost use Rattle.std.specs.Prelude.{◌<◌};

use crate::equal::expect_equal;
use std::alloc::Global;
use std::process::Abort;
use thp_script::{
    Command, Op, ReadFault, Report, ScriptReader, ScriptSections, Settings, TextInParts, TextKind,
};

const SCRIPT: &[u8] = b"# pages\nsetup\nalloc 0\nalloc 0\n\nworker 1\npin 0 1\ncount 0\n";

/// The script of a text that arrives in parts of this many bytes.
fn by_parts(
    alloc: Global,
    settings: &Settings,
    text: &[u8],
    size: usize,
) -> Result<ScriptSections, ReadFault>
    requires { 0 < size }
{
    let mut script = ScriptReader::new(alloc, settings)?;
    for part in text.chunks(size) {
        script = script.read_part(part)?;
    }
    script.finish()
}

fn alloc_page() -> Command {
    Command {
        node: 0,
        op: Op::Alloc,
    }
}

/// Whether the setup allocates two pages, and the one worker has two commands.
fn is_whole(script: &ScriptSections) -> bool {
    match script.workers.as_slice() {
        [commands] => {
            commands.as_slice().len() == 2
                && script.setup.as_slice() == [alloc_page(), alloc_page()].as_slice()
        }
        _ => false,
    }
}

#[test]
fn parts_of_each_length(rt: HostRuntime) {
    let settings = Settings::new(1, 16, 1, Report::Totals).expect(&rt, "within the limits");
    for size in 1..60 {
        let reported = by_parts(rt.alloc(), &settings, SCRIPT, size);
        assert!(rt;
            matches!(&reported, Ok(script) if is_whole(script)),
            "{size}"
        );
    }
}

#[test]
fn first_fault_of_parts(rt: HostRuntime) {
    let settings = Settings::new(1, 16, 1, Report::Totals).expect(&rt, "within the limits");
    let text = b"setup\nalloc 0\nalloc 9\nfly\nworker 1";
    for size in 1..36 {
        let reported = by_parts(rt.alloc(), &settings, text.as_slice(), size);
        let is_first = matches!(
            reported,
            Err(ReadFault::Text {
                line: 3,
                kind: TextKind::BadNumber
            })
        );
        assert!(rt; is_first, "{size}");
    }
}

/// Whether the next part of a text ends this line, and no other.
fn ends_one(text: &mut TextInParts, part: &[u8], number: u64, bytes: &[u8]) -> bool {
    let mut rest = text.next_part(part);
    let Ok(Some(line)) = text.next_line(&mut rest) else {
        return false;
    };
    let is_line = line.number == number && line.bytes.as_slice() == bytes;
    is_line && matches!(text.next_line(&mut rest), Ok(None))
}

fn expect_lines(rt: &impl Abort, text: &mut TextInParts) {
    expect_equal(rt, ends_one(text, b"one\ntw", 1, b"one"), true);
    expect_equal(rt, ends_one(text, b"o\n", 2, b"two"), true);
    text.note_fault(TextKind::BadWord);
    expect_equal(rt, text.fault(), Some((2, TextKind::BadWord)));
}

#[test]
fn lines_in_turn(rt: HostRuntime) {
    let mut text = TextInParts::new(rt.alloc());
    expect_lines(&rt, &mut text);
    let (line, behind) = text.last_line();
    expect_equal(&rt, (line, behind.len()), (3, 0));
}
