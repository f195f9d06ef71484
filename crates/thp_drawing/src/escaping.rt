//! Escapes words for a text of XML.
ghost use Rattle.std.specs.Prelude.{◌≡◌, ◌++◌, OnOk};
ghost use Rattle.thp_drawing.specs.Escapes.{escaped, escaped_byte, EscapedStaysWithin};

use crate::element::PutResult;
use std::alloc::AllocError;
use thp_journal_writer::put;

/// Appends words to a text of XML, escaped. If memory can't be allocated, the text can contain a prefix of them.
pub fn put_escaped(text: &mut Vec<u8>, words: &[u8]) -> Result<(), AllocError>
    ensures { OnOk result (text.new.items ≡ text.old.items ++ escaped words.now) }
{
    for byte in words {
        put_byte(text, *byte)?;
    }
    Ok(())
}

fn put_byte(text: &mut Vec<u8>, byte: u8) -> PutResult
    ensures { OnOk result (text.new.items ≡ text.old.items ++ escaped_byte byte) }
{
    match byte {
        b'&' => put(text, b"&amp;"),
        b'<' => put(text, b"&lt;"),
        b'>' => put(text, b"&gt;"),
        b'"' => put(text, b"&quot;"),
        _ => put(text, &[byte]),
    }
}

/// States that escaped words never end the text or the attribute value that contains them.
///
/// The function does nothing: its contract is the law.
pub fn escaped_stays_within()
    ensures { EscapedStaysWithin }
{}
