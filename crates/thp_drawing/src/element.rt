//! Texts made of pieces, numbers in decimal and with their digits in groups of three, and the elements of a picture.
ghost use Rattle.std.specs.Prelude.{◌≡◌, ◌++◌, OnOk, ◌<◌};
ghost use Rattle.thp_drawing.specs.Elements.{group_start, item_at, piece_text, pieces_text, text_at};
ghost use Rattle.std.specs.Fmt.{decimal};
ghost use Rattle.thp_drawing.specs.Grouped.{grouped, many, separator};

use crate::escaping::put_escaped;
use crate::scale::plus;
use crate::table::put_field;
use crate::title::put_event_words;
use itoa::Buffer;
use std::alloc::AllocError;
use thp_history::Event;
use thp_journal_writer::put;

/// The result of appending to a text, which fails if memory can't be allocated.
pub(crate) type PutResult = Result<(), AllocError>;

/// The text that ends a group.
pub(crate) const GROUP_END: &[u8] = b"</g>\n";

/// A piece of a text.
#[derive(Clone, Copy)]
pub(crate) enum Piece<'a> {
    /// These bytes.
    Bytes(&'a [u8]),
    /// Words, escaped.
    Escaped(&'a [u8]),
    /// The line of an event, or the beginning of a long one.
    EventLine(&'a Event),
    /// A number in decimal.
    Decimal(u128),
    /// A tab, and a number in decimal.
    Field(u128),
    /// A number whose digits are in groups of three.
    Grouped(u128),
    /// A number and a word, with an `s` unless the number is 1.
    Many(u128, &'a [u8]),
}

/// Pieces of a text, each as its kind and its value.
macro_rules! pieces {
    ($($kind:ident $value:tt)*) => {
        [$($crate::element::Piece::$kind $value),*]
    };
}

/// Appends pieces, each given as its kind and its value, to a text.
macro_rules! draw {
    ($text:expr; $($kind:ident $value:tt)*) => {
        $crate::element::put_pieces($text, &$crate::element::pieces!($($kind $value)*))
    };
}

pub(crate) use draw;
pub(crate) use pieces;

/// Appends pieces to a text.
pub(crate) fn put_pieces(text: &mut Vec<u8>, pieces: &[Piece<'_>]) -> PutResult
    ensures { OnOk result (text.new.items ≡ text.old.items ++ pieces_text pieces.now) }
{
    for piece in pieces {
        put_piece(text, piece)?;
    }
    Ok(())
}

fn put_piece(text: &mut Vec<u8>, piece: &Piece<'_>) -> PutResult
    ensures { OnOk result (text.new.items ≡ text.old.items ++ piece_text piece.now) }
{
    match piece {
        Piece::Bytes(bytes) => put(text, *bytes),
        Piece::Escaped(words) => put_escaped(text, *words),
        Piece::EventLine(event) => put_event_words(text, *event),
        Piece::Decimal(number) => put_decimal(text, *number),
        Piece::Field(number) => put_field(text, *number),
        Piece::Grouped(number) => put_grouped(text, *number),
        Piece::Many(number, word) => put_many(text, *number, *word),
    }
}

/// Appends a text of this class, from this position on.
#[tactic(auto, unfolding(crate::specs::Elements::text_at))]
pub(crate) fn put_text<'a>(
    text: &mut Vec<u8>,
    kind: &'a [u8],
    x: u128,
    y: u128,
    words: &'a [u8],
) -> PutResult
    ensures { OnOk result (text.new.items ≡ text.old.items ++ text_at kind.now x y words.now) }
{
    draw!(text;
        Bytes(b"<text class=\"") Bytes(kind) Bytes(b"\" x=\"") Decimal(x) Bytes(b"\" y=\"")
        Decimal(y) Bytes(b"\">") Escaped(words) Bytes(b"</text>\n")
    )
}

/// Appends a text whose words are these pieces.
pub(crate) fn put_words(
    text: &mut Vec<u8>,
    kind: &[u8],
    x: u128,
    y: u128,
    pieces: &[Piece<'_>],
) -> PutResult
    ensures { OnOk result (text.new.items ≡ text.old.items ++ text_at kind.now x y (pieces_text pieces.now)) }
{
    let mut words = Vec::new(*text.allocator());
    put_pieces(&mut words, pieces)?;
    put_text(text, kind, x, y, words.as_slice())
}

/// Appends words in a panel's title, after a square of this class.
pub(crate) fn put_item(text: &mut Vec<u8>, kind: &[u8], x: u128, pieces: &[Piece<'_>]) -> PutResult
    ensures { OnOk result (text.new.items ≡ text.old.items ++ item_at kind.now x (pieces_text pieces.now)) }
{
    draw!(text;
        Bytes(b"<rect class=\"") Bytes(kind) Bytes(b"\" x=\"") Decimal(x)
        Bytes(b"\" y=\"72\" width=\"80\" height=\"80\"/>\n")
    )?;
    put_words(text, b"ink", plus(x, 130), 150, pieces)
}

/// Begins a group whose origin is this position.
#[tactic(auto, unfolding(crate::specs::Elements::group_start))]
pub(crate) fn put_group(text: &mut Vec<u8>, x: u128, y: u128) -> PutResult
    ensures { OnOk result (text.new.items ≡ text.old.items ++ group_start x y) }
{
    draw!(text;
        Bytes(b"<g transform=\"translate(") Decimal(x) Bytes(b" ") Decimal(y) Bytes(b")\">\n")
    )
}

/// Appends a number to a text.
pub(crate) fn put_decimal(text: &mut Vec<u8>, number: u128) -> PutResult
    ensures { OnOk result (text.new.items ≡ text.old.items ++ decimal number) }
{
    put(text, Buffer::new().format(number).as_bytes())
}

/// Appends a number to a text, with commas between groups of three digits.
#[tactic(auto, using(crate::proofs::Pieces::three), unfolding(crate::specs::Grouped::grouped))]
pub(crate) fn put_grouped(text: &mut Vec<u8>, number: u128) -> PutResult
    ensures { OnOk result (text.new.items ≡ text.old.items ++ grouped number) }
{
    let mut buffer = Buffer::new();
    let digits = buffer.format(number).as_bytes();
    for (place, digit) in digits.iter().enumerate() {
        put(text, separator(digits.len(), place))?;
        put(text, &[*digit])?;
    }
    Ok(())
}

// A comma before each group of three digits but the first, given the number of digits.
fn separator(count: usize, place: usize) -> &'static [u8]
    requires { place < count }
    ensures { result.now ≡ separator count place }
{
    if 0 < place && (count - place) % 3 == 0 {
        b","
    } else {
        b""
    }
}

/// Appends a number and a word, with an `s` unless the number is 1.
#[tactic(auto, using(crate::proofs::Pieces::four), unfolding(crate::specs::Grouped::many))]
pub(crate) fn put_many(text: &mut Vec<u8>, number: u128, word: &[u8]) -> PutResult
    ensures { OnOk result (text.new.items ≡ text.old.items ++ many number word.now) }
{
    put_grouped(text, number)?;
    put(text, b" ")?;
    put(text, word)?;
    if number == 1 { Ok(()) } else { put(text, b"s") }
}
