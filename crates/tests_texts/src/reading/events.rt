//! Single events from the bytes of their lines.
use std::alloc::Global;
use thp_history::{Event, Outcome, PageId, SubSet, What};
use thp_journal_reader::{check_text, read_journal};
use thp_journal_writer::{Version, put, put_event};
use thp_script::{ReadFault, TextKind};

const PAGE: PageId = PageId(7);

// Whether the line that is written of what caller 3 did is read back as the same.
fn is_read_back(alloc: Global, what: What) -> bool {
    let event = Event { caller: 3, what };
    let mut text = Vec::new(alloc);
    let head = b"thp-journal 3\nnode 0 blocks 4 order 9 underused off\n";
    if put(&mut text, head).is_err()
        || put_event(&mut text, Version::Underused, &event).is_err()
        || put(&mut text, b"end\n").is_err()
    {
        return false;
    }
    match read_journal(alloc, text.as_slice()) {
        Ok(journals) => match journals.nodes.as_slice() {
            [node] => node.events.as_slice() == [event].as_slice(),
            _ => false,
        },
        Err(_) => false,
    }
}

#[test]
fn events_are_read_back(rt: HostRuntime) {
    let page = PAGE;
    let released = SubSet::range(3, 4);
    let outcome = Outcome::Queued;
    let kinds = [
        What::Alloc { page, block: 0 },
        What::Split { page, released },
        What::Used { page },
        What::Close,
        What::Write {
            page,
            first: 1,
            count: 2,
        },
        What::Unpin {
            outcome,
            page,
            released,
        },
        What::UnmapSub {
            outcome,
            page,
            first: 3,
            count: 4,
            released,
        },
    ];
    for what in kinds {
        assert!(rt; is_read_back(rt.alloc(), what));
    }
}

// The error of the third line of a text.
fn fault_of_line(alloc: Global, line: &[u8]) -> Option<TextKind> {
    let mut text = Vec::new(alloc);
    put(&mut text, b"thp-journal 1\nnode 0 blocks 4\n").ok()?;
    put(&mut text, line).ok()?;
    put(&mut text, b"\n").ok()?;
    match check_text(alloc, text.as_slice()) {
        Err(ReadFault::Text { line: 3, kind }) => Some(kind),
        _ => None,
    }
}

#[test]
fn faults_of_a_line(rt: HostRuntime) {
    let rows: [(&[u8], TextKind); 9] = [
        (b"", TextKind::BadWord),
        (b"0 alloc 7\t", TextKind::BadByte),
        (b"0 alloc  7", TextKind::BadWord),
        (b"0 used 7", TextKind::BadWord),
        (b"0 alloc", TextKind::BadCount),
        (b"64 alloc 7", TextKind::BadNumber),
        (b"0 split 7 1,2", TextKind::BadSet),
        (b"thp-journal 1", TextKind::BadOrder),
        (b"node 0 blocks 4", TextKind::BadOrder),
    ];
    for (line, kind) in rows {
        assert!(rt; fault_of_line(rt.alloc(), line) == Some(kind));
    }
}
