//! Reads journals whose bytes arrive in parts, for any kind of data about their nodes.
ghost use Rattle.std.specs.Prelude.{◌≡◌, ◌≤◌, ◌+◌, ◌++◌, Ok, Err, [], IfOk, IfErr, length};
ghost use Rattle.thp_journal_reader.specs.Prelude.{fault_at, journals_in, result_of_lines, so_far, result_with, AllowsVersionsAt, Start};
ghost use Rattle.thp_script.specs.Prelude.{fault_after, result_after, IsCounted, Text};

use crate::keeps_nodes::KeepsNodes;
use crate::line::{Accepted, Line, Place, line_in, place_after};
use crate::parse_event_fast::parse_event_fast;
use std::alloc::{AllocError, Global};
use thp_script::{TextFault, TextInParts, TextKind, WholeLine, fault_after};

/// Returns the error of the text after the last line, at this position.
fn fault_at(begun: &[u8], place: Place) -> Option<TextKind>
    ensures { result ≡ fault_at (fault_after begun.now) place }
{
    if let Some(kind) = fault_after(begun) {
        return Some(kind);
    }
    match place {
        Place::Ended { .. } => None,
        _ => Some(TextKind::Cut),
    }
}

/// Processes the events at the beginning of the rest of a part, line by line up to the first line that is not parsed fast, and
/// returns the text from there on.
fn add_fast<'p, N: KeepsNodes>(
    alloc: Global,
    nodes: &mut N,
    place: Place,
    text: &mut TextInParts,
    part: &'p [u8],
) -> Result<&'p [u8], AllocError>
    requires along { N.goes_along text.old.line nodes.old }
    requires limit { text.old.most ≤ N.last_line }
    requires counted { IsCounted part.now text.old }
    requires allows { AllowsVersionsAt N.allows place }
    ensures reports { IfOk result (λ rest. (more : Text) → result_after text.new more (result_of_lines (N.reported nodes.new) place text.new.line (text.new.begun ++ (rest.now ++ more))) ≡ result_after text.old more (result_of_lines (N.reported nodes.old) place text.old.line (text.old.begun ++ (part.now ++ more)))) }
    ensures along { IfOk result (λ _. N.goes_along text.new.line nodes.new) }
    ensures counted { IfOk result (λ rest. IsCounted rest.now text.new) }
    ensures most { IfOk result (λ _. text.new.most ≡ text.old.most) }
    ensures shorter { IfOk result (λ rest. length rest.now ≤ length part.now) }
    ensures taken { IfOk result (λ _. N.taken nodes.new ≡ N.taken nodes.old) }
{
    let Place::Inside {
        version,
        nodes: count,
        ..
    } = place
    else {
        return Ok(part);
    };
    if count == 0 || !text.begins_line() {
        return Ok(part);
    }
    let mut rest = part;
    while let Some((event, after)) = parse_event_fast(version, rest) {
        let (number, _) = text.last_line();
        nodes.add(alloc, number, &Line::Happened(event))?;
        text.pass_line();
        rest = after;
    }
    Ok(rest)
}

/// The state of reading a text of journals. Only the line in progress of the text is stored.
#[derive(Drop)]
pub struct TextReader<N> {
    alloc: Global,
    pub nodes: N,
    // after the last line
    pub place: Place,
    pub text: TextInParts,
}

impl<N: KeepsNodes + Drop> TextReader<N> {
    /// Creates the state before the first byte of this text, for a reader that accepts these journals.
    pub fn new(alloc: Global, accepted: Accepted, text: TextInParts, nodes: N) -> TextReader<N>
        ensures nodes { result.nodes ≡ nodes }
        ensures place { result.place ≡ Start accepted }
        ensures text { result.text ≡ text }
    {
        TextReader {
            alloc,
            nodes,
            place: Place::Start { accepted },
            text,
        }
    }

    /// Reads the next part of the text. After the first error, or after more bytes than allowed, the part is ignored.
    pub fn read_part(self, part: &[u8]) -> Result<TextReader<N>, AllocError>
        requires along { N.goes_along self.text.line self.nodes }
        requires limit { self.text.most ≤ N.last_line }
        requires allows { AllowsVersionsAt N.allows self.place }
        ensures text { IfOk result (λ r. (more : Text) → result_with (so_far (N.reported r.nodes) r.place r.text) more ≡ result_with (so_far (N.reported self.nodes) self.place self.text) (part.now ++ more)) }
        ensures along { IfOk result (λ r. N.goes_along r.text.line r.nodes) }
        ensures limit { IfOk result (λ r. r.text.most ≡ self.text.most) }
        ensures allows { IfOk result (λ r. AllowsVersionsAt N.allows r.place) }
        ensures taken { IfOk result (λ r. N.taken r.nodes ≡ N.taken self.nodes) }
    {
        let TextReader {
            alloc,
            mut nodes,
            mut place,
            mut text,
        } = self;
        let rest = text.next_part(part);
        let mut rest = add_fast(alloc, &mut nodes, place, &mut text, rest)?;
        while let Some(WholeLine { number, bytes }) = text.next_line(&mut rest)? {
            let line = line_in(place, bytes.as_slice());
            drop(bytes);
            match line {
                Ok(line) => {
                    nodes.add(alloc, number, &line)?;
                    place = place_after(place, &line);
                    rest = add_fast(alloc, &mut nodes, place, &mut text, rest)?;
                }
                Err(kind) => {
                    text.note_fault(kind);
                    break;
                }
            }
        }
        Ok(TextReader {
            alloc,
            nodes,
            place,
            text,
        })
    }

    /// Returns the data about the nodes of the whole text. Fails with the first error of the text.
    pub fn finish(self) -> Result<N, TextFault>
        ensures nodes { IfOk result (λ nodes. nodes ≡ self.nodes) }
        ensures reported { IfOk result (λ nodes. result_with (so_far (N.reported self.nodes) self.place self.text) [] ≡ Ok (journals_in (N.reported self.nodes))) }
        ensures fault { IfErr result (λ fault. result_with (so_far (N.reported self.nodes) self.place self.text) [] ≡ Err (fault.line, fault.kind)) }
        ensures fault_line { IfErr result (λ fault. fault.line ≤ self.text.most + 1) }
        ensures last_line { self.text.line ≤ self.text.most + 1 }
    {
        let (line, begun) = self.text.last_line();
        match (self.text.fault(), fault_at(begun, self.place)) {
            (Some((line, kind)), _) => Err(TextFault { line, kind }),
            (None, Some(kind)) => Err(TextFault { line, kind }),
            (None, None) => Ok(self.nodes),
        }
    }
}
