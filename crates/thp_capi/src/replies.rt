//! The results of calls other than their codes, for C.
ghost use Rattle.std.specs.Prelude.{◌≡◌, ◌-◌, ◌≤◌, ◌^◌, Err, IfErr, IfOk, min};
ghost use Rattle.std.specs.Int.{from_bool};
ghost use Rattle.thp_capi.specs.Calls.{Written};
ghost use Rattle.thp_capi.specs.Reading.{flight_caller, list_number};
ghost use Rattle.thp_capi.specs.Replies.{outcome_number, MasksSet, tried_of};

use crate::codes::Fault;
use thp_history::{Done, Outcome, SubSet};
use thp_node::Tried;
use thp_page::{Page, Standing};

/// The effect of an unmap or an unpin on its page and frames.
#[repr(C)]
#[derive(Clone, Copy, PartialEq, Eq, Debug)]
pub struct ThpDone {
    /// 0 if the page stays, 1 if it joined the queue, 2 if it was freed.
    pub outcome: u32,
    /// The subpages whose frames were given back: subpage `i` is bit `i % 64` of word `i / 64`.
    pub released: [u64; 8],
}

impl ThpDone {
    /// Converts a node's result.
    pub fn of(done: &Done) -> ThpDone
        ensures outcome { result.outcome ≡ outcome_number done.now.outcome }
        ensures released { MasksSet result.released done.now.released }
    {
        ThpDone {
            outcome: match done.outcome {
                Outcome::Stays => 0,
                Outcome::Queued => 1,
                Outcome::Freed => 2,
            },
            released: mask(&done.released),
        }
    }
}

// The set as eight words.
fn mask(set: &SubSet) -> [u64; 8]
    ensures { MasksSet result set.now }
{
    let mut words = [0; 8];
    for at in 0..8 {
        words[at] = set.word(at);
    }
    words
}

/// The result of a try.
#[repr(C)]
#[derive(Clone, Copy, PartialEq, Eq, Debug)]
pub struct ThpTried {
    /// 0 if no page was left, 1 if the page was split, 2 if it is pinned, 3 if it is not worth a split.
    pub kind: u32,
    /// The page that was tried; 0 if no page was left.
    pub page: u64,
}

impl ThpTried {
    /// Converts a node's result.
    pub fn of(tried: &Tried) -> ThpTried
        ensures value { tried_of result ≡ tried.now }
        ensures kind { result.kind ≤ 3 }
    {
        let (kind, page) = match *tried {
            Tried::Done => (0, 0),
            Tried::Split(page) => (1, page.0),
            Tried::Pinned(page) => (2, page.0),
            Tried::Used(page) => (3, page.0),
        };
        ThpTried { kind, page }
    }
}

/// The state of a live page.
#[repr(C)]
#[derive(Clone, Copy, PartialEq, Eq, Debug)]
pub struct ThpPageState {
    /// The whole map count: the number of PMD entries that map the page.
    pub whole_mapcount: u32,
    /// The number of pins.
    pub pins: u32,
    /// 1 if the page is partly mapped, otherwise 0.
    pub partly_mapped: u32,
    /// 1 if the page was split into base pages, otherwise 0.
    pub split: u32,
    /// The list that the page is on: 0 for none, 1 for the deferred split queue, 2 for a caller's flight.
    pub list: u32,
    /// The caller in whose flight the page is, otherwise 0.
    pub caller: u32,
}

impl ThpPageState {
    /// Converts the state of a page on this list.
    pub fn of(page: &Page, standing: Standing) -> ThpPageState
        ensures whole { result.whole_mapcount ≡ page.now.whole }
        ensures pins { result.pins ≡ page.now.pins }
        ensures partly { result.partly_mapped ≡ from_bool page.now.partly }
        ensures split { result.split ≡ from_bool page.now.split }
        ensures list { result.list ≡ list_number standing }
        ensures caller { result.caller ≡ flight_caller standing }
    {
        let (list, caller) = match standing {
            Standing::Nowhere => (0, 0),
            Standing::Queued => (1, 0),
            Standing::Batch(caller) => (2, caller),
        };
        ThpPageState {
            whole_mapcount: page.whole(),
            pins: page.pins(),
            partly_mapped: u32::from(page.is_partly()),
            split: u32::from(page.is_split()),
            list,
            caller,
        }
    }
}

/// A node's statistics. Each number is at most 2^64 - 1; greater values are stored as that.
#[repr(C)]
#[derive(Clone, Copy, PartialEq, Eq, Debug)]
pub struct ThpStats {
    /// The number of events in the journal.
    pub events: u64,
    /// The number of pages ever allocated, including those that were freed.
    pub allocations: u64,
    /// The number of pages in the deferred split queue.
    pub queued: u64,
    /// The number of frames given back.
    pub frames_given: u64,
    /// The number of frames that the live pages hold.
    pub frames_held: u64,
    /// The number of pages split.
    pub split_page: u64,
    /// The number of tries that found a page pinned.
    pub split_page_failed: u64,
    /// The number of times that an unmap or an unpin queued a page. A put back or an allocation doesn't count.
    pub deferred_split_page: u64,
    /// The number of pages split that were underused and not partly mapped.
    pub underused_split_page: u64,
    /// The number of PMD mappings split.
    pub split_pmd: u64,
}

/// Converts the number to 64 bits; greater ones become 2^64 - 1.
pub fn narrow(n: u128) -> u64
    ensures { result ≡ min n (2 ^ 64 - 1) }
{
    n.min(u128::from(u64::MAX)) as u64
}

/// Writes the text to the start of the buffer if it fits there. `size` is its length in bytes.
pub fn put_text(
    text: Result<Vec<u8>, Fault>,
    buffer: &mut [u8],
    size: &mut usize,
) -> Result<(), Fault>
    ensures text { IfOk text (λ text. Written text.items buffer.old buffer.new size.old size.new result) }
    ensures fault { IfErr text (λ fault. (result ≡ Err fault) × (buffer.new ≡ buffer.old) × (size.new ≡ size.old)) }
{
    let text = text?;
    *size = text.len();
    if buffer.len() < text.len() {
        return Err(Fault::TooSmall);
    }
    buffer[..text.len()].copy_from_slice(&text);
    Ok(())
}
