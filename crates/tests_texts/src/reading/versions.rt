//! The limits of each version: inputs have version 1 to 3, journals of any length also version 4.
use crate::equal::expect_equal;
use std::alloc::Global;
use std::process::Abort;
use thp_journal_reader::{LongCheck, check_text};
use thp_journal_writer::{put, put_number};
use thp_script::{ReadFault, TextKind};

/// The first fault of a text that is an input, by line and kind; `None` where it has none.
fn fault_of_input(alloc: Global, text: &[u8]) -> Option<(u64, TextKind)> {
    match check_text(alloc, text) {
        Err(ReadFault::Text { line, kind }) => Some((u64::from(line), kind)),
        _ => None,
    }
}

/// The first fault of a text of any length; `None` where it has none.
fn fault_of_long(rt: &impl Abort, alloc: Global, text: &[u8]) -> Option<(u64, TextKind)> {
    let check = LongCheck::new(alloc).read_part(text).expect(rt, "memory");
    match check.finish() {
        Err(fault) => Some((fault.line, fault.kind)),
        Ok(_) => None,
    }
}

/// Appends the line of node n.
fn put_node(rt: &impl Abort, text: &mut Vec<u8>, version: u64, n: u64, blocks: u64) {
    put(text, b"node ").expect(rt, "memory");
    put_number(text, n, b' ').expect(rt, "memory");
    put(text, b"blocks ").expect(rt, "memory");
    let after = if version == 1 { b'\n' } else { b' ' };
    put_number(text, blocks, after).expect(rt, "memory");
    let words: &[u8] = match version {
        1 => b"",
        2 => b"order 2\n",
        _ => b"order 2 underused off\n",
    };
    put(text, words).expect(rt, "memory");
}

/// A journal: its version, its number of nodes, the blocks of the last of them (the others have 1), and the caller that closes it.
type Row = (u64, u64, u64, u64);

fn journal(rt: &impl Abort, alloc: Global, row: Row) -> Vec<u8> {
    let (version, nodes, blocks, caller) = row;
    let mut text = Vec::new(alloc);
    put(&mut text, b"thp-journal ").expect(rt, "memory");
    put_number(&mut text, version, b'\n').expect(rt, "memory");
    for n in 1..nodes {
        put_node(rt, &mut text, version, n - 1, 1);
    }
    put_node(rt, &mut text, version, nodes.saturating_sub(1), blocks);
    put_number(&mut text, caller, b' ').expect(rt, "memory");
    put(&mut text, b"close\nend\n").expect(rt, "memory");
    text
}

/// The fault of a journal of any length, `None` where it has none, and the same of an input of version 1 to 3.
fn expect_fault(rt: &impl Abort, alloc: Global, row: Row, fault: Option<u64>) {
    let (version, nodes, blocks, caller) = row;
    let text = journal(rt, alloc, row);
    let wanted = fault.map(|line| (line, TextKind::BadNumber));
    assert!(rt;
        fault_of_long(rt, alloc, &text) == wanted,
        "{version} {nodes} {blocks} {caller}"
    );
    if version < 4 {
        expect_equal(rt, fault_of_input(alloc, &text), wanted);
    } else {
        expect_equal(
            rt,
            fault_of_input(alloc, &text),
            Some((1, TextKind::BadNumber)),
        );
    }
}

#[test]
fn limits_of_versions_before_4(rt: HostRuntime) {
    for version in 1u64..4 {
        let rows = [
            ((version, 1, 0, 0), Some(2)),
            ((version, 1, 1, 0), None),
            ((version, 1, 4096, 0), None),
            ((version, 1, 4097, 0), Some(2)),
            ((version, 8, 1, 0), None),
            ((version, 9, 1, 0), Some(10)),
            ((version, 1, 1, 63), None),
            ((version, 1, 1, 64), Some(3)),
        ];
        for (row, fault) in rows {
            expect_fault(&rt, rt.alloc(), row, fault);
        }
    }
}

#[test]
fn limits_of_version_4(rt: HostRuntime) {
    let rows = [
        ((4, 1, 0, 0), Some(2)),
        ((4, 1, 1, 0), None),
        ((4, 1, 4097, 0), None),
        ((4, 1, 16_777_217, 0), Some(2)),
        ((4, 8, 1, 0), None),
        ((4, 9, 1, 0), None),
        ((4, 300, 1, 64), None),
        ((4, 1, 1, 63), None),
        ((4, 1, 1, 64), None),
        ((4, 1, 1, 65_535), None),
        ((4, 1, 1, 65_536), Some(3)),
    ];
    for (row, fault) in rows {
        expect_fault(&rt, rt.alloc(), row, fault);
    }
}

// Each event of a page has a line of its own in the fast reader and in the slow one: callers are limited in both.
#[test]
fn callers_of_events_with_operands(rt: HostRuntime) {
    let early = b"thp-journal 3\nnode 0 blocks 4 order 9 underused off\n64 alloc 0\nend\n";
    expect_equal(
        &rt,
        fault_of_long(&rt, rt.alloc(), early),
        Some((3, TextKind::BadNumber)),
    );
    let large =
        b"thp-journal 4\nnode 0 blocks 4 order 9 underused off\n64 alloc 0\n65535 splitpmd 0\n40000 unmapsub 0 0 1 queued -\n65535 taken 0\n65535 split 0 0\nend\n";
    expect_equal(&rt, fault_of_long(&rt, rt.alloc(), large), None);
    let beyond = b"thp-journal 4\nnode 0 blocks 4 order 9 underused off\n65536 alloc 0\nend\n";
    expect_equal(
        &rt,
        fault_of_long(&rt, rt.alloc(), beyond),
        Some((3, TextKind::BadNumber)),
    );
}

#[test]
fn later_heads(rt: HostRuntime) {
    let rows: [(&[u8], u64, TextKind); 4] = [
        (b"thp-journal 5\n", 1, TextKind::BadNumber),
        (b"thp-journal 4\nthp-journal 5\n", 2, TextKind::BadNumber),
        (b"thp-journal 4\nthp-journal 4\n", 2, TextKind::BadOrder),
        (b"thp-journal 1\nthp-journal 4\n", 2, TextKind::BadOrder),
    ];
    for (text, line, kind) in rows {
        expect_equal(
            &rt,
            fault_of_long(&rt, rt.alloc(), text),
            Some((line, kind)),
        );
    }
    let input = b"thp-journal 1\nthp-journal 4\n";
    expect_equal(
        &rt,
        fault_of_input(rt.alloc(), input),
        Some((2, TextKind::BadNumber)),
    );
}
