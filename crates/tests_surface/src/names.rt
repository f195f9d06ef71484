//! Every variant and field of the values that calls take and return. Each match names all variants.
use thp_cell::CellFault;
use thp_model::{Outcome, PageId, Refusal, SubSet, What};
use thp_node::{BackReply, Counters, Done, NewFault, ScanReply, Tried};
use thp_page::Standing;
use thp_run::{Op, ReadFault, Reply, Report, Rest, RunFault, Step, TextKind};

// The number of a refusal, in the order of the tests.
fn number_of(refusal: Refusal) -> u32 {
    match refusal {
        Refusal::NoPage => 1,
        Refusal::BadRange => 2,
        Refusal::IsSplit => 3,
        Refusal::NotMapped => 4,
        Refusal::Gone => 5,
        Refusal::NotPinned => 6,
        Refusal::TooMany => 7,
        Refusal::Closed => 8,
        Refusal::NoBlock => 9,
        Refusal::HasBatch => 10,
        Refusal::OutOfMemory => 11,
    }
}

// A call on a cell that another pass holds has number 0.
fn number_of_fault(fault: CellFault) -> u32 {
    match fault {
        CellFault::Busy => 0,
        CellFault::Refused(refusal) => number_of(refusal),
    }
}

// The set that an event gives back.
fn released_by(what: &What) -> Option<SubSet> {
    match what {
        What::UnmapWhole {
            page: _,
            outcome: _,
            released,
        }
        | What::UnmapSub {
            page: _,
            first: _,
            count: _,
            outcome: _,
            released,
        }
        | What::Unpin {
            page: _,
            outcome: _,
            released,
        }
        | What::Split { page: _, released } => Some(*released),
        What::Alloc { page: _, block: _ }
        | What::MapWhole { page: _ }
        | What::MapSub {
            page: _,
            first: _,
            count: _,
        }
        | What::SplitPmd { page: _ }
        | What::Pin { page: _ }
        | What::Write {
            page: _,
            first: _,
            count: _,
        }
        | What::Zero {
            page: _,
            first: _,
            count: _,
        }
        | What::Taken { page: _ }
        | What::Pinned { page: _ }
        | What::Used { page: _ }
        | What::Back { page: _ }
        | What::Dropped { page: _ }
        | What::Close => None,
    }
}

// The word for an outcome.
fn word_of(outcome: Outcome) -> &'static str {
    match outcome {
        Outcome::Stays => "stays",
        Outcome::Queued => "queued",
        Outcome::Freed => "freed",
    }
}

// The caller whose batch a page is in.
fn caller_of(standing: Standing) -> Option<u32> {
    match standing {
        Standing::Nowhere | Standing::Queued => None,
        Standing::Batch(caller) => Some(caller),
    }
}

// The page of a try.
fn page_of(tried: Tried) -> Option<PageId> {
    match tried {
        Tried::Split(page) | Tried::Pinned(page) | Tried::Used(page) => Some(page),
        Tried::Done => None,
    }
}

// The number of pages that a reply counts.
fn counted(reply: Reply) -> u32 {
    match reply {
        Reply::Page(_) | Reply::Unit | Reply::NoBatch => 0,
        Reply::Done(Done { outcome, released }) => released
            .count()
            .saturating_add(u32::from(outcome == Outcome::Freed)),
        Reply::Scan(
            ScanReply {
                taken,
                split: _,
                pinned: _,
                back: _,
                dropped: _,
                used: _,
            },
        ) => taken,
        Reply::Count(length) => length,
        Reply::Taken(taken) => taken,
        Reply::Tried(tried) => u32::from(page_of(tried).is_some()),
        Reply::Back(BackReply { back, dropped: _ }) => back,
    }
}

// The pages that a step takes at most.
fn taken_by(step: Step) -> u32 {
    match step {
        Step::One(Op::Count) => 0,
        Step::One(_) => 1,
        Step::Take(count) => count,
        Step::SplitNext | Step::PutBack => 2,
    }
}

// The kinds of error of a text, in their order.
fn place_of(kind: TextKind) -> u32 {
    match kind {
        TextKind::TooLong => 0,
        TextKind::BadByte => 1,
        TextKind::Cut => 2,
        TextKind::BadWord => 3,
        TextKind::BadCount => 4,
        TextKind::BadNumber => 5,
        TextKind::BadSet => 6,
        TextKind::BadOrder => 7,
    }
}

// The line of an error of a text.
fn line_of(fault: &ReadFault) -> u32 {
    match fault {
        ReadFault::Text { line, kind: _ } => *line,
        ReadFault::OutOfMemory => 0,
    }
}

// The line of an error of a run.
fn line_of_run(fault: &RunFault) -> u32 {
    match fault {
        RunFault::Text { line, kind: _ } => *line,
        RunFault::OutOfMemory | RunFault::Read | RunFault::Write => 0,
    }
}

// Whether a node is refused for its size.
fn is_size(fault: NewFault) -> bool {
    match fault {
        NewFault::BadSize => true,
        NewFault::OutOfMemory => false,
    }
}

// Whether the report is of answers.
fn is_of_answers(report: Report) -> bool {
    match report {
        Report::Answers => true,
        Report::Totals | Report::Journal => false,
    }
}

// The sum of the counters but one.
fn sum_of(counters: Counters) -> u128 {
    let Counters {
        split_page,
        split_page_failed,
        deferred_split_page,
        underused_split_page,
        split_pmd,
    } = counters;
    let tries = u128::from(split_page).saturating_add(u128::from(split_page_failed));
    let pages = u128::from(deferred_split_page).saturating_add(u128::from(underused_split_page));
    tries.saturating_add(pages).saturating_add(split_pmd)
}

// The number of steps made of a command that was begun.
fn steps_of(rest: Rest) -> u32 {
    let Rest {
        command: _,
        steps,
        so_far: _,
    } = rest;
    steps
}

#[test]
fn values_of_nodes(rt: HostRuntime) {
    assert!(rt;
        number_of_fault(CellFault::Refused(Refusal::HasBatch)) == 10
            && number_of_fault(CellFault::Busy) == 0
    );
    assert!(rt; word_of(Outcome::Queued) == "queued" && caller_of(Standing::Batch(3)) == Some(3));
    assert!(rt; released_by(&What::Close).is_none() && is_size(NewFault::BadSize));
}

#[test]
fn values_of_runs(rt: HostRuntime) {
    assert!(rt; counted(Reply::Taken(2)) == 2 && taken_by(Step::Take(3)) == 3);
    assert!(rt; place_of(TextKind::BadOrder) == 7 && line_of(&ReadFault::OutOfMemory) == 0);
    assert!(rt; line_of_run(&RunFault::Write) == 0 && is_of_answers(Report::Answers));
}
