//! Appends numbers and words to a text.
ghost use Rattle.std.specs.Prelude.{◌≡◌, ◌+◌, ◌<◌, [], ◌∷◌, ◌++◌, OnOk, length};
ghost use Rattle.std.specs.Fmt.{decimal};
ghost use Rattle.thp_journal_writer.specs.Room.{number_room, Takes};

use itoa::write_digits;
use std::alloc::AllocError;

// The end of a 64-bit number in its buffer: the greatest number of its digits.
const DIGITS: usize = 20;

/// Appends the bytes of a word.
#[inline(always)]
pub fn put(text: &mut Vec<u8>, word: &[u8]) -> Result<(), AllocError>
    ensures text { OnOk result (text.new.items ≡ text.old.items ++ word.now) }
    ensures room { Takes (length word.now) text.old text.new result }
{
    text.extend_from_slice(word)
}

/// Appends a number in decimal, and the byte `after`.
#[inline]
pub fn put_number(text: &mut Vec<u8>, number: u64, after: u8) -> Result<(), AllocError>
    ensures text { OnOk result (text.new.items ≡ text.old.items ++ decimal number ++ after ∷ []) }
    ensures room { Takes number_room text.old text.new result }
    ensures short { number < 1000 → Takes 4 text.old text.new result }
{
    if number < 10 {
        put(text, &[digit(number), after])
    } else if number < 100 {
        put(text, &[digit(number / 10), digit(number % 10), after])
    } else if number < 1000 {
        let tens = number / 10;
        put(
            text,
            &[
                digit(tens / 10),
                digit(tens % 10),
                digit(number % 10),
                after,
            ],
        )
    } else {
        put_long(text, number, after)
    }
}

// the digit of a number below 10
#[inline(always)]
fn digit(number: u64) -> u8
    requires { number < 10 }
    ensures { result ≡ 48 + number }
{
    b'0' + number as u8
}

// a number of any length
#[inline(never)]
fn put_long(text: &mut Vec<u8>, number: u64, after: u8) -> Result<(), AllocError>
    ensures text { OnOk result (text.new.items ≡ text.old.items ++ decimal number ++ after ∷ []) }
    ensures room { Takes number_room text.old text.new result }
{
    let mut digits = [after; DIGITS + 1];
    let start = write_digits(number, &mut digits, DIGITS);
    put(text, &digits[start..])
}
