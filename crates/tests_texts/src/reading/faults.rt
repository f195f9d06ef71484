//! The first faults of journal texts, by line and kind.
use crate::equal::expect_equal;
use std::alloc::Global;
use std::process::Abort;
use thp_journal_reader::check_text;
use thp_script::{MAX_INPUT, ReadFault, Report, Settings, TextKind, read_script};

/// The first fault of a text by line and kind, `None` where it has none.
fn first_fault(alloc: Global, text: &[u8]) -> Option<(u32, TextKind)> {
    match check_text(alloc, text) {
        Err(ReadFault::Text { line, kind }) => Some((line, kind)),
        _ => None,
    }
}

#[test]
fn first_lines_and_nodes(rt: HostRuntime) {
    let rows: [(&[u8], u32, TextKind); 12] = [
        (b"", 1, TextKind::Cut),
        (b"\n", 1, TextKind::BadWord),
        (b"thp-journal 1", 1, TextKind::Cut),
        (b"thp-journal 9\nend\n", 1, TextKind::BadNumber),
        (b"thp-journal\n", 1, TextKind::BadCount),
        (b"0 close\n", 1, TextKind::BadOrder),
        (b"thp-journal 1\nend\n", 2, TextKind::BadOrder),
        (b"thp-journal 1\nthp-journal 9\n", 2, TextKind::BadNumber),
        (b"thp-journal 1\nthp-journal 1\n", 2, TextKind::BadOrder),
        (
            b"thp-journal 1\nnode 1 blocks 4\nend\n",
            2,
            TextKind::BadOrder,
        ),
        (b"thp-journal 1\nnode 0\n", 2, TextKind::BadWord),
        (b"thp-journal 1\nnode 0 blocks 0\n", 2, TextKind::BadNumber),
    ];
    for (text, line, kind) in rows {
        assert!(rt;
            first_fault(rt.alloc(), text) == Some((line, kind)),
            "{line} {kind}"
        );
    }
}

#[test]
fn journal_faults(rt: HostRuntime) {
    let rows: [(&[u8], TextKind); 14] = [
        (
            b"thp-journal 1\nnode 0 blocks 4\n0 taken 0 0\n",
            TextKind::BadCount,
        ),
        (
            b"thp-journal 1\nnode 0 blocks 4\n0 fly 0\n",
            TextKind::BadWord,
        ),
        (
            b"thp-journal 1\nnode 0 blocks 4\n0  close\n",
            TextKind::BadWord,
        ),
        (b"thp-journal 1\nnode 0 blocks 4\n0\n", TextKind::BadWord),
        (
            b"thp-journal 1\nnode 0 blocks 4\n64 close\n",
            TextKind::BadNumber,
        ),
        (
            b"thp-journal 1\nnode 0 blocks 4\n0 unpin 0 stays 3-3\n",
            TextKind::BadSet,
        ),
        (
            b"thp-journal 1\nnode 0 blocks 4\n0 unpin 0 stays 0-1,2\n",
            TextKind::BadSet,
        ),
        (
            b"thp-journal 1\nnode 0 blocks 4\n0 unpin 0 stays 5,3\n",
            TextKind::BadSet,
        ),
        (
            b"thp-journal 1\nnode 0 blocks 4\n0 unpin 0 stays 512\n",
            TextKind::BadSet,
        ),
        (
            b"thp-journal 1\nnode 0 blocks 4\n0 unpin 0 stays 1-2-3\n",
            TextKind::BadSet,
        ),
        (
            b"thp-journal 1\nnode 0 blocks 4\n0 unpin 0 gone\n",
            TextKind::BadWord,
        ),
        (
            b"thp-journal 1\nnode 0 blocks 4\n0 unpin 0\n",
            TextKind::BadCount,
        ),
        (
            b"thp-journal 1\nnode 0 blocks 4\n0 write 0 0 1\n",
            TextKind::BadWord,
        ),
        (
            b"thp-journal 1\nnode 0 blocks 4\n0 pin \t\n",
            TextKind::BadByte,
        ),
    ];
    for (text, kind) in rows {
        assert!(rt; first_fault(rt.alloc(), text) == Some((3, kind)), "{kind}");
    }
    let twice = b"thp-journal 1\nnode 0 blocks 4\nend\nend\n";
    assert!(rt; first_fault(rt.alloc(), twice) == Some((4, TextKind::BadOrder)));
}

#[test]
fn order_faults(rt: HostRuntime) {
    let rows: [(&[u8], TextKind); 9] = [
        (b"thp-journal 2\nnode 0 blocks 4\n", TextKind::BadWord),
        (
            b"thp-journal 1\nnode 0 blocks 4 order 9\n",
            TextKind::BadCount,
        ),
        (
            b"thp-journal 2\nnode 0 blocks 4 order 1\n",
            TextKind::BadNumber,
        ),
        (
            b"thp-journal 2\nnode 0 blocks 4 order 10\n",
            TextKind::BadNumber,
        ),
        (
            b"thp-journal 2\nnode 0 blocks 4 order\n",
            TextKind::BadCount,
        ),
        (
            b"thp-journal 3\nnode 0 blocks 4 order 9\n",
            TextKind::BadWord,
        ),
        (
            b"thp-journal 3\nnode 0 blocks 4 order 2 underused 4\n",
            TextKind::BadNumber,
        ),
        (
            b"thp-journal 3\nnode 0 blocks 4 order 2 underused on\n",
            TextKind::BadNumber,
        ),
        (
            b"thp-journal 3\nnode 0 blocks 4 order 2 underused\n",
            TextKind::BadCount,
        ),
    ];
    for (text, kind) in rows {
        assert!(rt; first_fault(rt.alloc(), text) == Some((2, kind)), "{kind}");
    }
}

/// Whether a text is too long for a script.
fn is_too_long(alloc: Global, settings: &Settings, text: &[u8]) -> bool {
    matches!(
        read_script(alloc, settings, text),
        Err(ReadFault::Text {
            line: 0,
            kind: TextKind::TooLong,
        })
    )
}

fn expect_too_long(rt: &impl Abort, alloc: Global, text: &[u8]) {
    let settings = Settings::new(1, 16, 1, Report::Totals).expect(rt, "within the limits");
    expect_equal(rt, text.len(), 16_777_217);
    expect_equal(rt, first_fault(alloc, text), Some((0, TextKind::TooLong)));
    expect_equal(rt, is_too_long(alloc, &settings, text), true);
}

#[test]
fn a_text_that_is_too_long(rt: HostRuntime) {
    let alloc = rt.alloc();
    let text = vec![in alloc; b'\n'; MAX_INPUT + 1].expect(&rt, "memory");
    expect_too_long(&rt, alloc, &text);
    // a byte less is within the limit, and its first line is no journal's
    expect_equal(
        &rt,
        first_fault(alloc, &text[1..]),
        Some((1, TextKind::BadWord)),
    );
}

#[test]
fn each_prefix_is_cut(rt: HostRuntime) {
    let text =
        b"thp-journal 1\nnode 0 blocks 4\n0 alloc 0\n0 splitpmd 0\n0 unmapsub 0 0 1 queued -\nend\n";
    for end in 0..text.len() {
        let prefix = &text[..end];
        let whole_lines = prefix.iter().filter(|b| **b == b'\n').count();
        let Err(ReadFault::Text { line, kind }) = check_text(rt.alloc(), prefix) else {
            assert!(rt; false, "{end}");
            return;
        };
        assert!(rt; kind == TextKind::Cut, "{end}");
        assert!(rt; line as usize == whole_lines.saturating_add(1), "{end}");
    }
}
