//! The answers to commands, as text: whole, or in parts in one buffer.
ghost use Rattle.std.specs.Prelude.{◌≡◌, ◌<◌, ◌+◌, ◌++◌, ◌≤◌, ◌∷◌, [], OnOk, IfOk, IfSome, MatchOption, codes, drop, length, map, vec_capacity, vec_len};
ghost use Rattle.std.specs.Fmt.{decimal};
ghost use Rattle.std.specs.List.{flat_map};
ghost use Rattle.thp_journal_writer.specs.Prelude.{spaced_line, ended, number_room, outcome_room, Takes};
ghost use Rattle.thp_run.specs.Answers.{refusal_word, tried_words, back_words, scan_words, used_words, reply_words, looks, answer_line, section_text, with_stored, answers_text as text_of};
ghost use Rattle.thp_run.specs.Prelude.{full_part, line_room, shape_of};
ghost use Rattle.thp_worker.specs.Prelude.{stored};

use std::alloc::{AllocError, Global};
use std::marker::Model;
use thp_history::Refusal;
use thp_journal_writer::{put, put_number, put_outcome};
use thp_node::{Node, Recorder, ScanReply, Tried};
use thp_worker::{Answer, AnswerLog, Reply, SectionLog};

// A part of this many bytes is full: no further line is added.
const FULL_PART: usize = 65_536;

// The greatest length of a line.
const MAX_LINE: usize = 4_145;

/// The text of the answers that sections store, whose parts are produced one by one. Contracts see the current part, and the rest
/// of the text after it.
#[derive(Drop)]
pub struct AnswerParts<'a, R: Recorder> {
    nodes: &'a [Node<R>],
    sections: &'a [SectionLog],
    // the next answer: its section, and its index there
    section: usize,
    place: usize,
    // has room for one more line than a full part
    part: Vec<u8>,
}

impl<'a, R: Recorder> Model for AnswerParts<'a, R> {
    ghost use Rattle.std.specs.Prelude.{◌≤◌, ◌+◌, drop, map, vec_capacity};
    ghost use Rattle.thp_run.specs.Prelude.{AnswersLeft, full_part, line_room, shape_of, text_from, with_stored};

    ghost Value = { AnswersLeft };

    ghost view = { λ p. record { part = p.part.items; rest = text_from (map shape_of p.nodes.now) p.place (map with_stored (drop p.section p.sections.now)) } };

    ghost invariant = { λ p. full_part + line_room ≤ vec_capacity p.part };
}

impl<'a, R: Recorder> AnswerParts<'a, R> {
    /// Returns the whole text, before its first part. Allocates the buffer of the parts; no later call allocates memory.
    pub fn new(
        alloc: Global,
        nodes: &'a [Node<R>],
        sections: &'a [SectionLog],
    ) -> Result<AnswerParts<'a, R>, AllocError>
        ensures { IfOk result (λ parts. parts.rest ≡ text_of (map shape_of nodes.now) (map with_stored sections.now)) }
    {
        Ok(AnswerParts {
            nodes,
            sections,
            section: 0,
            place: 0,
            part: Vec::with_capacity(alloc, FULL_PART + MAX_LINE)?,
        })
    }

    /// Replaces the part by the next one. A part is empty only at the end of the text. Every part except the last is full, and
    /// exceeds that by at most a line.
    pub fn fill(&mut self)
        ensures text { self.new.part ++ self.new.rest ≡ self.old.rest }
        ensures end { self.new.part ≡ [] → self.old.rest ≡ [] }
        ensures full { length self.new.part < full_part → self.new.rest ≡ [] }
        ensures most { length self.new.part < full_part + line_room }
    {
        self.part.clear();
        while let Some(section) = self.sections.get(self.section) {
            let answers = &section.answers;
            if let Some(place) = put_from(
                &mut self.part,
                self.nodes,
                section.worker,
                answers,
                self.place,
            ) {
                self.place = place;
                return;
            }
            self.section += 1;
            self.place = 0;
        }
    }

    /// Returns the current part.
    pub fn part(&self) -> &[u8]
        ensures { result.now ≡ self.now.part }
    {
        self.part.as_slice()
    }
}

// Appends the answers of a worker's section, from an index on, to a part until it is full. Returns the index of the next answer.
fn put_from<R: Recorder>(
    part: &mut Vec<u8>,
    nodes: &[Node<R>],
    worker: u32,
    answers: &AnswerLog,
    from: usize,
) -> Option<usize>
    requires room { full_part + line_room ≤ vec_capacity part.old }
    requires most { vec_len part.old < full_part + line_room }
    ensures text { let line = answer_line (map shape_of nodes.now) worker in MatchOption result (part.new.items ≡ part.old.items ++ flat_map line (drop from (stored answers.now))) (λ place. part.new.items ++ flat_map line (drop place (stored answers.now)) ≡ part.old.items ++ flat_map line (drop from (stored answers.now))) }
    ensures full { IfSome result (λ _. full_part ≤ vec_len part.new) }
    ensures most { vec_len part.new < full_part + line_room }
    ensures room { full_part + line_room ≤ vec_capacity part.new }
{
    for place in from..answers.stored_len() {
        if part.len() >= FULL_PART {
            return Some(place);
        }
        let Some(answer) = answers.get(place) else {
            unreachable!();
        };
        let Ok(()) = put_answer(part, nodes, worker, &answer) else {
            unreachable!();
        };
    }
    None
}

/// Returns the answers of the sections that are stored, in order, one line each. The nodes need not store their events.
#[tactic(auto, unfolding(crate::specs::Answers::answers_text, crate::specs::Answers::section_text))]
pub fn answers_text<R: Recorder>(
    alloc: Global,
    nodes: &[Node<R>],
    sections: &[SectionLog],
) -> Result<Vec<u8>, AllocError>
    ensures { IfOk result (λ text. text.items ≡ text_of (map shape_of nodes.now) (map with_stored sections.now)) }
{
    let mut text = Vec::new(alloc);
    for section in sections {
        for place in 0..section.answers.stored_len() {
            let Some(answer) = section.answers.get(place) else {
                unreachable!();
            };
            put_answer(&mut text, nodes, section.worker, &answer)?;
        }
    }
    Ok(text)
}

/// Appends an answer, after its section and its index there.
pub(crate) fn put_answer<R: Recorder>(
    text: &mut Vec<u8>,
    nodes: &[Node<R>],
    section: u32,
    answer: &Answer,
) -> Result<(), AllocError>
    ensures text { OnOk result (text.new.items ≡ text.old.items ++ answer_line (map shape_of nodes.now) section answer.now) }
    ensures room { Takes line_room text.old text.new result }
{
    put_number(text, u64::from(section), b' ')?;
    put_number(text, u64::from(answer.command) + 1, b' ')?;
    match &answer.reply {
        Ok(reply) => put_reply(text, looks_on(nodes, answer.node), reply),
        Err(refusal) => put_refusal(text, *refusal),
    }
}

// the reply to a command that was not refused, on a node whose shrinker looks for underused pages or not
fn put_reply(text: &mut Vec<u8>, looks: bool, reply: &Reply) -> Result<(), AllocError>
    ensures text { OnOk result (text.new.items ≡ text.old.items ++ ended (spaced_line (reply_words looks reply.now))) }
    ensures room { Takes outcome_room text.old text.new result }
{
    match reply {
        Reply::Page(page) => put_named(text, b"page ", page.0, b'\n'),
        Reply::Unit => put(text, b"ok\n"),
        Reply::Done(done) => put_outcome(text, done.outcome, &done.released),
        Reply::Scan(counted) => put_scan(text, looks, *counted),
        Reply::Count(queued) => put_named(text, b"count ", u64::from(*queued), b'\n'),
        Reply::Taken(taken) => put_named(text, b"taken ", u64::from(*taken), b'\n'),
        Reply::Tried(tried) => put_tried(text, *tried),
        Reply::Back(reply) => put_back(text, reply.back, reply.dropped, b'\n'),
        Reply::NoBatch => put(text, b"no-batch\n"),
    }
}

// the result of a try
fn put_tried(text: &mut Vec<u8>, tried: Tried) -> Result<(), AllocError>
    ensures text { OnOk result (text.new.items ≡ text.old.items ++ ended (spaced_line (tried_words tried))) }
    ensures room { Takes 28 text.old text.new result }
{
    match tried {
        Tried::Split(page) => put_named(text, b"split ", page.0, b'\n'),
        Tried::Pinned(page) => put_named(text, b"pinned ", page.0, b'\n'),
        Tried::Used(page) => put_named(text, b"used ", page.0, b'\n'),
        Tried::Done => put(text, b"done\n"),
    }
}

// the counts of a scan
fn put_scan(text: &mut Vec<u8>, looks: bool, counted: ScanReply) -> Result<(), AllocError>
    ensures text { OnOk result (text.new.items ≡ text.old.items ++ ended (spaced_line (scan_words counted ++ used_words looks counted))) }
    ensures room { Takes 163 text.old text.new result }
{
    put_named(text, b"taken ", u64::from(counted.taken), b' ')?;
    put_named(text, b"split ", u64::from(counted.split), b' ')?;
    put_named(text, b"pinned ", u64::from(counted.pinned), b' ')?;
    if looks {
        put_back(text, counted.back, counted.dropped, b' ')?;
        put_named(text, b"used ", u64::from(counted.used), b'\n')
    } else {
        put_back(text, counted.back, counted.dropped, b'\n')
    }
}

// the numbers of pages put back and dropped, and the byte `after`
#[inline]
fn put_back(text: &mut Vec<u8>, back: u32, dropped: u32, after: u8) -> Result<(), AllocError>
    ensures text { OnOk result (text.new.items ≡ text.old.items ++ (spaced_line (back_words back dropped) ++ after ∷ [])) }
    ensures room { Takes 55 text.old text.new result }
{
    put_named(text, b"back ", u64::from(back), b' ')?;
    put_named(text, b"dropped ", u64::from(dropped), after)
}

// why a command was refused
fn put_refusal(text: &mut Vec<u8>, refusal: Refusal) -> Result<(), AllocError>
    ensures text { OnOk result (text.new.items ≡ text.old.items ++ ended (spaced_line (codes "refused" ∷ refusal_word refusal ∷ []))) }
    ensures room { Takes 19 text.old text.new result }
{
    put(text, b"refused ")?;
    put(text, word_of(refusal).as_bytes())?;
    put(text, b"\n")
}

// the word of a refusal
fn word_of(refusal: Refusal) -> &'static str
    ensures word { result.now ≡ refusal_word refusal }
    ensures short { length result.now ≤ 10 }
{
    match refusal {
        Refusal::NoPage => "no-page",
        Refusal::BadRange => "bad-range",
        Refusal::IsSplit => "is-split",
        Refusal::NotMapped => "not-mapped",
        Refusal::Gone => "gone",
        Refusal::NotPinned => "not-pinned",
        Refusal::TooMany => "too-many",
        Refusal::Closed => "closed",
        Refusal::NoBlock => "no-block",
        Refusal::HasBatch => "has-batch",
        Refusal::OutOfMemory => "",
    }
}

// a name, a number, and the byte `after`
#[inline]
fn put_named(text: &mut Vec<u8>, name: &[u8], number: u64, after: u8) -> Result<(), AllocError>
    ensures text { OnOk result (text.new.items ≡ text.old.items ++ (name.now ++ (decimal number ++ after ∷ []))) }
    ensures room { Takes (length name.now + number_room) text.old text.new result }
{
    put(text, name)?;
    put_number(text, number, after)
}

// whether the shrinker of a node looks for underused pages
fn looks_on<R: Recorder>(nodes: &[Node<R>], node: u32) -> bool
    ensures { result ≡ looks (map shape_of nodes.now) node }
{
    match nodes.get(node as usize) {
        Some(node) => node.shape().shrinks_underused(),
        None => false,
    }
}
