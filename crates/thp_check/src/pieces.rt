//! Pieces of the text: words, and numbers among them.
ghost use Rattle.std.specs.Prelude.{◌≡◌, ◌++◌, codes, OnOk};
ghost use Rattle.std.specs.Fmt.{decimal};
ghost use Rattle.thp_journal_writer.specs.Prelude.{ended};
ghost use Rattle.thp_check.specs.Explanations.{caller_is, in_flight_of, page_is};

use std::alloc::AllocError;
use thp_history::PageId;
use thp_journal_writer::{put, put_number};

// Words, and a line feed.
pub(crate) fn put_words(text: &mut Vec<u8>, words: &str) -> Result<(), AllocError>
    ensures { OnOk result (text.new.items ≡ text.old.items ++ ended words.now) }
{
    put(text, words.as_bytes())?;
    put(text, b"\n")
}

// Words, a number, and a line feed.
#[tactic(auto, using(crate::proofs::Joined::two))]
pub(crate) fn put_last(text: &mut Vec<u8>, words: &str, number: u64) -> Result<(), AllocError>
    ensures { OnOk result (text.new.items ≡ text.old.items ++ ended (words.now ++ decimal number)) }
{
    put(text, words.as_bytes())?;
    put_number(text, number, b'\n')
}

// A statement about a page, and a line feed.
#[tactic(auto, using(crate::proofs::Joined::page_line))]
pub(crate) fn put_page(text: &mut Vec<u8>, page: PageId, words: &str) -> Result<(), AllocError>
    ensures { OnOk result (text.new.items ≡ text.old.items ++ ended (page_is page words.now)) }
{
    put(text, b"page ")?;
    put_number(text, page.0, b' ')?;
    put_words(text, words)
}

// A statement about a caller, and a line feed.
#[tactic(auto, using(crate::proofs::Joined::caller_line))]
pub(crate) fn put_caller(text: &mut Vec<u8>, caller: u32, words: &str) -> Result<(), AllocError>
    ensures { OnOk result (text.new.items ≡ text.old.items ++ ended (caller_is caller words.now)) }
{
    put(text, b"caller ")?;
    put_number(text, u64::from(caller), b' ')?;
    put_words(text, words)
}

// The relation of a page to a caller's flight, and a line feed.
pub(crate) fn put_flight(
    text: &mut Vec<u8>,
    page: PageId,
    words: &str,
    caller: u32,
) -> Result<(), AllocError>
    ensures { OnOk result (text.new.items ≡ text.old.items ++ ended (in_flight_of page words.now caller)) }
{
    put(text, b"page ")?;
    put_number(text, page.0, b' ')?;
    put(text, words.as_bytes())?;
    put_last(text, " the flight of caller ", u64::from(caller))
}
