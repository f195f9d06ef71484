//! Journals whose text comes in parts.
ghost use Rattle.std.specs.Prelude.{◌<◌};

use thp_check::Misfit;
use thp_history::{Event, PageId, What};
use thp_journal_reader::{Illegal, LongCheck};
use thp_script::{TextFault, TextKind};

/// The first illegal event by this check, or the first fault; `None` where memory was refused.
fn found_by_parts(
    check: LongCheck,
    text: &[u8],
    size: usize,
) -> Option<Result<Option<Illegal>, TextFault>>
    requires { 0 < size }
{
    let mut check = check;
    for part in text.chunks(size) {
        check = check.read_part(part).ok()?;
    }
    Some(check.finish())
}

#[test]
fn parts_of_each_length(rt: HostRuntime) {
    let text =
        b"thp-journal 1\nnode 0 blocks 4\n0 alloc 0\n0 close\nnode 1 blocks 4\n0 alloc 0\n0 pin 1\nend\n";
    for size in 1..100 {
        let found = found_by_parts(LongCheck::of_input(rt.alloc()), text.as_slice(), size);
        assert!(rt;
            matches!(found, Some(Ok(Some(Illegal { line: 7, .. })))),
            "{size}"
        );
    }
}

// Whether page 1 is the first illegal one, in the block that page 0 has.
fn is_block_taken(check: LongCheck, text: &[u8]) -> bool {
    matches!(
        found_by_parts(check, text, 8),
        Some(Ok(Some(Illegal {
            line: 4,
            event: Event {
                caller: 5,
                what: What::Alloc {
                    page: PageId(1),
                    block: 0
                }
            },
            misfit: Misfit::BlockTaken
        })))
    )
}

fn is_legal(check: LongCheck, text: &[u8]) -> bool {
    matches!(found_by_parts(check, text, 8), Some(Ok(None)))
}

#[test]
fn an_illegal_page_has_the_least_block(rt: HostRuntime) {
    let text = b"thp-journal 1\nnode 0 blocks 1\n0 alloc 0\n5 alloc 1\nend\n";
    assert!(rt; is_block_taken(LongCheck::new(rt.alloc()), text.as_slice()));
    let legal = b"thp-journal 1\nnode 0 blocks 1\n0 alloc 0\nend\n";
    assert!(rt; is_legal(LongCheck::new(rt.alloc()), legal.as_slice()));
}

#[test]
fn first_fault_of_parts(rt: HostRuntime) {
    let text = b"thp-journal 1\nnode 0 blocks 4\n0 fly 0\n0 close 1\n";
    for size in 1..52 {
        let fault = TextFault {
            line: 3,
            kind: TextKind::BadWord,
        };
        let found = found_by_parts(LongCheck::of_input(rt.alloc()), text.as_slice(), size);
        assert!(rt;
            matches!(found, Some(Err(reported)) if reported == fault),
            "{size}"
        );
        let found = found_by_parts(LongCheck::new(rt.alloc()), text.as_slice(), size);
        assert!(rt;
            matches!(found, Some(Err(reported)) if reported == fault),
            "{size}"
        );
    }
}
