//! The events that a command's answer implies.
use thp_history::{Refusal, What};
use thp_script::Op;
use thp_worker::Reply;

// The event that a command of one call left, according to its answer. Blocks are not included.
pub(crate) fn event_of(op: Op, reply: Reply) -> Option<What> {
    match (&op, reply) {
        (Op::Alloc, Reply::Page(page)) => Some(What::Alloc { page, block: 0 }),
        (Op::Close, Reply::Unit) => Some(What::Close),
        (Op::MapWhole { page }, Reply::Unit) => Some(What::MapWhole { page: *page }),
        (Op::SplitPmd { page }, Reply::Unit) => Some(What::SplitPmd { page: *page }),
        (Op::Pin { page }, Reply::Unit) => Some(What::Pin { page: *page }),
        (Op::Map { first, count, page }, Reply::Unit) => Some(What::MapSub {
            page: *page,
            first: *first,
            count: *count,
        }),
        (Op::Write { first, count, page }, Reply::Unit) => Some(What::Write {
            page: *page,
            first: *first,
            count: *count,
        }),
        (Op::Zero { first, count, page }, Reply::Unit) => Some(What::Zero {
            page: *page,
            first: *first,
            count: *count,
        }),
        (Op::UnmapWhole { page }, Reply::Done(done)) => Some(What::UnmapWhole {
            outcome: done.outcome,
            page: *page,
            released: done.released,
        }),
        (Op::Unpin { page }, Reply::Done(done)) => Some(What::Unpin {
            outcome: done.outcome,
            page: *page,
            released: done.released,
        }),
        (Op::Unmap { first, count, page }, Reply::Done(done)) => Some(What::UnmapSub {
            outcome: done.outcome,
            page: *page,
            first: *first,
            count: *count,
            released: done.released,
        }),
        _ => None,
    }
}

// The event without its block.
pub(crate) fn without_block(what: What) -> What {
    match what {
        What::Alloc { page, block: _ } => What::Alloc { page, block: 0 },
        other => other,
    }
}

// Whether a command of this kind may have this refusal. Lack of memory is no answer of a run.
pub(crate) fn may_refuse(op: Op, refusal: Refusal) -> bool {
    match refusal {
        Refusal::OutOfMemory => false,
        Refusal::Closed => matches!(op, Op::Alloc | Op::Close),
        Refusal::NoBlock => matches!(op, Op::Alloc),
        Refusal::HasBatch => matches!(op, Op::Take { .. } | Op::Scan { .. }),
        Refusal::NotPinned => matches!(op, Op::Unpin { .. }),
        Refusal::Gone => matches!(op, Op::Map { .. }),
        Refusal::BadRange => is_of_range(op),
        Refusal::NotMapped => takes_a_mapping(op),
        Refusal::TooMany => matches!(op, Op::MapWhole { .. } | Op::Map { .. } | Op::Pin { .. }),
        Refusal::IsSplit => needs_an_unsplit_page(op),
        Refusal::NoPage => is_of_page(op),
    }
}

fn is_of_range(op: Op) -> bool {
    matches!(
        op,
        Op::Map { .. } | Op::Unmap { .. } | Op::Write { .. } | Op::Zero { .. }
    )
}

fn takes_a_mapping(op: Op) -> bool {
    matches!(
        op,
        Op::UnmapWhole { .. }
            | Op::SplitPmd { .. }
            | Op::Unmap { .. }
            | Op::Write { .. }
            | Op::Zero { .. }
    )
}

fn needs_an_unsplit_page(op: Op) -> bool {
    matches!(
        op,
        Op::MapWhole { .. }
            | Op::UnmapWhole { .. }
            | Op::SplitPmd { .. }
            | Op::Pin { .. }
            | Op::Unpin { .. }
            | Op::Write { .. }
            | Op::Zero { .. }
    )
}

fn is_of_page(op: Op) -> bool {
    matches!(
        op,
        Op::MapWhole { .. }
            | Op::UnmapWhole { .. }
            | Op::SplitPmd { .. }
            | Op::Pin { .. }
            | Op::Unpin { .. }
            | Op::Map { .. }
            | Op::Unmap { .. }
            | Op::Write { .. }
            | Op::Zero { .. }
    )
}
