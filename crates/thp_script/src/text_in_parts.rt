//! Texts that arrive in parts.
ghost use Rattle.std.specs.Prelude.{◌≡◌, ◌↔◌, ◌≤◌, ◌<◌, ◌+◌, ◌-◌, ◌++◌, ◌∷◌, [], IfOk, IfSome, IfNone, IsTrue, OnOk, OnErr, length};
ghost use Rattle.std.specs.Cow.{cow_slice_items};
ghost use Rattle.thp_script.specs.Prelude.{IsCounted, Text, after_line, fault_with, lines_of, max_counted, max_input, nothing_of, read_unless, with_begun, with_fault, with_part};

use crate::fault::TextKind;
use crate::limits::{MAX_COUNTED, MAX_INPUT};
use crate::words::cut_at;
use std::alloc::{AllocError, Global};
use std::borrow::CowSlice;
use std::marker::Model;

/// A whole line of a text.
#[derive(Drop)]
pub struct WholeLine<'p> {
    /// The line number, counted from 1.
    pub number: u64,
    /// The bytes without the line feed: borrowed from a part, or joined from several.
    pub bytes: CowSlice<'p, u8, Global>,
}

/// A text that arrives in parts of any length, line by line. Only the line in progress is stored.
#[derive(Drop)]
pub struct TextInParts {
    alloc: Global,
    // the bytes of the line in progress, by its number
    begun: Vec<u8>,
    line: u64,
    // the number of bytes read, and the greatest number allowed
    given: usize,
    most: usize,
    // the first error, and its line
    fault: Option<(u64, TextKind)>,
}

impl Model for TextInParts {
    ghost use Rattle.thp_script.specs.TextInParts.{HasCome, TextSoFar};

    ghost Value = { TextSoFar };

    ghost view = { λ t. record { begun = t.begun.items; line = t.line; given = t.given; most = t.most; fault = t.fault } };

    ghost invariant = { λ t. HasCome (record { begun = t.begun.items; line = t.line; given = t.given; most = t.most; fault = t.fault }) };
}

impl TextInParts {
    /// Creates an input of which nothing has been read: a text of at most 16 MiB.
    pub fn new(alloc: Global) -> TextInParts
        ensures { result ≡ nothing_of max_input }
    {
        TextInParts::of_at_most(alloc, MAX_INPUT)
    }

    /// Creates a text of any length of which nothing has been read.
    pub fn unlimited(alloc: Global) -> TextInParts
        ensures { result ≡ nothing_of max_counted }
    {
        TextInParts::of_at_most(alloc, MAX_COUNTED)
    }

    fn of_at_most(alloc: Global, most: usize) -> TextInParts
        requires { most ≤ max_counted }
        ensures { result ≡ nothing_of most }
    {
        TextInParts {
            alloc,
            begun: Vec::new(alloc),
            line: 1,
            given: 0,
            most,
            fault: None,
        }
    }

    /// Counts the next part, and returns the bytes of it to be parsed: none after an error, or after more bytes than allowed.
    pub fn next_part<'p>(&mut self, part: &'p [u8]) -> &'p [u8]
        ensures part { self.new ≡ with_part self.old part.now }
        ensures to_read { result.now ≡ read_unless (fault_with self.new []) part.now }
        ensures counted { IsCounted result.now self.new }
    {
        self.given = self.given.saturating_add(part.len());
        if self.fault().is_some() {
            return &[];
        }
        part
    }

    /// Returns the next whole line of the rest of a part. `None` if no line ends there, and the rest begins one. A line that lies
    /// within the part is borrowed from it and not copied.
    #[inline(always)]
    pub fn next_line<'p>(
        &mut self,
        rest: &mut &'p [u8],
    ) -> Result<Option<WholeLine<'p>>, AllocError>
        requires { IsCounted rest.old.now self.old }
        ensures number { IfOk result (λ next. IfSome next (λ line. line.number ≡ self.old.line)) }
        ensures line { IfOk result (λ next. IfSome next (λ line. (more : Text) → lines_of (self.old.begun ++ (rest.old.now ++ more)) ≡ cow_slice_items line.bytes ∷ lines_of (rest.new.now ++ more))) }
        ensures after_line { IfOk result (λ next. IfSome next (λ _. self.new ≡ after_line self.old)) }
        ensures shorter { IfOk result (λ next. IfSome next (λ _. length rest.new.now < length rest.old.now)) }
        ensures begun { IfOk result (λ next. IfNone next (self.new ≡ with_begun self.old rest.old.now)) }
        ensures nothing_left { IfOk result (λ next. IfNone next (rest.new.now ≡ [])) }
        ensures counted { OnOk result (IsCounted rest.new.now self.new) }
        ensures unchanged { OnErr result ((self.new ≡ self.old) × (rest.new.now ≡ rest.old.now)) }
    {
        let (piece, after) = cut_at(b'\n', *rest);
        let Some(after) = after else {
            self.begun.extend_from_slice(piece)?;
            *rest = &[];
            return Ok(None);
        };
        let bytes = if self.begun.is_empty() {
            CowSlice::Borrowed(piece)
        } else {
            self.begun.extend_from_slice(piece)?;
            CowSlice::Owned(std::mem::replace(&mut self.begun, Vec::new(self.alloc)))
        };
        let number = self.line;
        self.line += 1;
        *rest = after;
        Ok(Some(WholeLine { number, bytes }))
    }

    /// Returns whether the next byte begins a line.
    #[inline(always)]
    pub fn begins_line(&self) -> bool
        ensures { IsTrue result ↔ self.now.begun ≡ [] }
    {
        self.begun.is_empty()
    }

    /// Counts a whole line that begins and ends in the rest of a part.
    #[inline(always)]
    pub fn pass_line(&mut self)
        requires begins { self.old.begun ≡ [] }
        requires given { self.old.line ≤ self.old.given }
        requires most { self.old.line ≤ self.old.most }
        ensures { self.new ≡ after_line self.old }
    {
        self.line += 1;
    }

    /// Records an error of the whole line that was returned last. Only the first error is stored.
    pub fn note_fault(&mut self, kind: TextKind)
        ensures { self.new ≡ with_fault self.old (self.old.line - 1, kind) }
    {
        if self.fault.is_none() {
            self.fault = Some((self.line - 1, kind));
        }
    }

    /// Returns the error so far, without the text after the last line feed: too many bytes, or an error in a line.
    pub fn fault(&self) -> Option<(u64, TextKind)>
        ensures fault { result ≡ fault_with self.now [] }
        ensures line { IfSome result (λ fault. fault.0 ≤ self.now.most) }
    {
        if self.given > self.most {
            return Some((0, TextKind::TooLong));
        }
        self.fault
    }

    /// Returns the text after the last line feed, and the number of that line.
    pub fn last_line(&self) -> (u64, &[u8])
        ensures number { result.0 ≡ self.now.line }
        ensures most { result.0 ≤ self.now.most + 1 }
        ensures line { result.1.now ≡ self.now.begun }
        ensures one_line { lines_of result.1.now ≡ result.1.now ∷ [] }
    {
        (self.line, self.begun.as_slice())
    }
}
