//! Splits a line into words, and parses words as numbers.
ghost use Rattle.std.specs.Prelude.{◌≡◌, ◌≢◌, ◌==◌, ◌∷◌, [], ◌<◌, ◌^◌, ◌≤◌, ◌+◌, ◌*◌, ℕ, true, MatchOption, SomeIff, IfSome, IfNone, length, position};
ghost use Rattle.std.specs.Fmt.{decimal};
ghost use Rattle.std.specs.List.{list_all};
ghost use Rattle.std.specs.Option.{option_copied};
ghost use Rattle.std.specs.Char.{digit_value, is_ascii_digit};
ghost use Rattle.std.specs.Str.Parse.{digits_value};
ghost use Rattle.thp_script.specs.Words.{has_numeral_front, number_of, pieces_at, pieces_left, words_in_line};

use crate::fast_words::digit;
use memchr::memchr;
use std::marker::Model;

// The first index of a byte. The end of a line is searched with vector instructions; other separators are near, within a line.
#[inline(always)]
fn place_of(byte: u8, text: &[u8]) -> Option<usize>
    ensures { result ≡ position (λ b. b == byte) text.now }
{
    if byte == b'\n' {
        memchr(byte, text)
    } else {
        text.iter().position(|b| *b == byte)
    }
}

/// Splits a text at the first separator: returns the text before it, and the text after it if there is one.
#[inline(always)]
pub fn cut_at(separator: u8, text: &[u8]) -> (&[u8], Option<&[u8]>)
    ensures pieces { pieces_at separator text.now ≡ result.0.now ∷ pieces_left separator (option_copied result.1) }
    ensures shorter { IfSome result.1 (λ rest. length rest.now < length text.now) }
    ensures whole { IfNone result.1 (result.0.now ≡ text.now) }
{
    match place_of(separator, text) {
        Some(place) => (&text[..place], Some(&text[place + 1..])),
        None => (text, None),
    }
}

/// The words of a line that are not yet read.
#[derive(Drop)]
pub struct Words<'a> {
    // `None` after the last word.
    rest: Option<&'a [u8]>,
}

impl<'a> Model for Words<'a> {
    ghost use Rattle.std.specs.Prelude.{ℕ, List};
    ghost use Rattle.std.specs.Option.{option_copied};
    ghost use Rattle.thp_script.specs.Words.{pieces_left};

    ghost Value = { List (List ℕ) };

    ghost view = { λ words. pieces_left 32 (option_copied words.rest) };
}

impl<'a> Words<'a> {
    /// Returns the words of a line, before the first is read.
    pub fn of_line(line: &'a [u8]) -> Words<'a>
        ensures { result ≡ words_in_line line.entry.now }
    {
        Words { rest: Some(line) }
    }

    /// Returns the next word, if any.
    #[inline(always)]
    pub fn next(&mut self) -> Option<&'a [u8]>
        ensures { MatchOption result ((self.old ≡ []) × (self.new ≡ [])) (λ word. self.old ≡ word.now ∷ self.new) }
    {
        let (word, rest) = cut_at(b' ', self.rest?);
        self.rest = rest;
        Some(word)
    }
}

// Whether digits are a numeral: there is at least one, and no leading zero.
#[inline(always)]
fn has_numeral_front(word: &[u8]) -> bool
    ensures { result ≡ has_numeral_front word.now }
{
    !word.is_empty() && (word[0] != b'0' || word.len() == 1)
}

/// Appends a digit to a number: returns the result if the byte is a digit and the result fits.
#[inline(always)]
fn with_digit(before: u64, byte: u8) -> Option<u64>
    ensures { SomeIff result ((is_ascii_digit byte ≡ true) × (before * 10 + digit_value byte < 2 ^ 64)) (before * 10 + digit_value byte) }
{
    let digit = digit(byte)?;
    before.checked_mul(10)?.checked_add(digit)
}

/// Returns the value of a word of digits only, if it fits.
#[inline(always)]
fn value_of(word: &[u8]) -> Option<u64>
    ensures { SomeIff result ((list_all is_ascii_digit word.now ≡ true) × (digits_value 10 word.now < 2 ^ 64)) (digits_value 10 word.now) }
{
    let mut value = 0;
    for byte in word {
        value = with_digit(value, *byte)?;
    }
    Some(value)
}

/// Parses a decimal number without a sign or leading zeros, if it is at most `most`.
#[inline(always)]
pub fn number(most: u64, word: &[u8]) -> Option<u64>
    ensures value { result ≡ number_of most word.now }
    ensures in_range { IfSome result (λ n. n ≤ most) }
    ensures written { IfSome result (λ n. word.now ≡ decimal n) }
    ensures refused { IfNone result ((n : ℕ) → n ≤ most → word.now ≢ decimal n) }
{
    if !has_numeral_front(word) {
        return None;
    }
    match value_of(word) {
        Some(value) if value <= most => Some(value),
        _ => None,
    }
}
