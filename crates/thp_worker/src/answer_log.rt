//! The answers of a section, stored in less memory than a list of them needs, or only counted.
ghost use Rattle.std.specs.Prelude.{◌≡◌, ◌<◌, ◌≤◌, ◌+◌, ◌++◌, ◌∷◌, [], length, slice_get, vec_capacity, vec_len, IfOk, Ok, OnOk};
ghost use Rattle.thp_worker.specs.Does.{answer_of};
ghost use Rattle.thp_worker.specs.Kept.{is_there, reaction_in};
ghost use Rattle.thp_worker.specs.Logs.{stored};
ghost use Rattle.thp_worker.specs.declared.answer_log.ShortReply.{ShortReply};

use crate::reply::{Answer, Reply};
use std::alloc::{AllocError, Global};
use std::marker::Model;
use thp_history::{Outcome, PageId, Refusal, SubSet, Trace};
use thp_node::{BackReply, Done, Tried};

/// What happens to the answers to the commands of a section.
#[derive(Clone, Copy, Debug, PartialEq, Eq)]
pub enum Answers {
    /// They are stored.
    Kept,
    /// They are only counted, which needs no memory.
    Counted,
}

// The answer to a command, in 24 bytes. Longer replies, of scans and of calls that gave frames back, are stored separately, and
// this contains their index.
#[derive(Clone, Copy)]
enum ShortReply {
    Page(PageId),
    Unit,
    // no frame was given back
    Done(Outcome),
    Count(u32),
    Taken(u32),
    Tried(Tried),
    Back(BackReply),
    NoBatch,
    Refused(Refusal),
    Long(usize),
}

// An answer; its reply is stored separately if it is long.
#[derive(Clone, Copy)]
struct ShortAnswer {
    command: u32,
    node: u32,
    reply: ShortReply,
}

/// The answers to the commands of a section, in order. Stored answers take 32 bytes each, and 80 more for the reply of a scan or of
/// a call that gave frames back. If they are only counted, their content is visible to contracts only.
#[derive(Drop)]
pub struct AnswerLog {
    are: Answers,
    // the answers that are stored
    short: Vec<ShortAnswer>,
    // their long replies, in order
    long: Vec<Reply>,
    // the number of answers that are only counted
    count: usize,
    // the number of answers that there is room for
    room: usize,
    // all answers, for contracts only
    reported: Trace<Answer>,
}

impl Model for AnswerLog {
    ghost use Rattle.thp_worker.specs.Kept.{IsLog};
    ghost use Rattle.thp_worker.specs.Logs.{LogState};

    ghost Value = { LogState };

    ghost view = { λ l. record { items = l.reported; are = l.are; room = l.room } };

    ghost invariant = { λ l. IsLog l.are l.reported l.short l.long l.count l.room };
}

impl AnswerLog {
    /// Creates a log without answers, with room for `room` of them.
    #[tactic(auto, using(crate::proofs::KeptLaws::none_stored))]
    pub fn new(alloc: Global, room: usize, are: Answers) -> Result<AnswerLog, AllocError>
        ensures items { IfOk result (λ log. log.items ≡ []) }
        ensures are { IfOk result (λ log. log.are ≡ are) }
        ensures room { IfOk result (λ log. log.room ≡ room) }
    {
        let kept = match are {
            Answers::Kept => room,
            Answers::Counted => 0,
        };
        Ok(AnswerLog {
            are,
            short: Vec::with_capacity(alloc, kept)?,
            long: Vec::with_capacity(alloc, kept)?,
            count: 0,
            room,
            reported: Trace::new(),
        })
    }

    /// Appends the answer to a command, with the command's number and node. There must be room for it. If the command was not
    /// refused, the answer is the reply, which is copied only if answers are stored.
    #[inline(always)]
    pub fn push(&mut self, command: u32, node: u32, called: Result<(), Refusal>, reply: &Reply)
        requires { length self.old.items < self.old.room }
        ensures items { self.new.items ≡ self.old.items ++ record { command = command; node = node; reply = answer_of called reply.now } ∷ [] }
        ensures count { length self.new.items ≡ length self.old.items + 1 }
        ensures are { self.new.are ≡ self.old.are }
        ensures room { self.new.room ≡ self.old.room }
    {
        // for contracts only: no code at run time
        self.reported.push(&Answer {
            command,
            node,
            reply: called.and(Ok(*reply)),
        });
        match self.are {
            Answers::Kept => {
                let reply = match called {
                    Ok(()) => shortened(reply, &mut self.long),
                    Err(refusal) => ShortReply::Refused(refusal),
                };
                self.short.push_reserved(ShortAnswer {
                    command,
                    node,
                    reply,
                });
            }
            Answers::Counted => self.count += 1,
        }
    }

    /// Reserves room for `more` answers.
    pub fn reserve(&mut self, more: usize) -> Result<(), AllocError>
        ensures items { self.new.items ≡ self.old.items }
        ensures are { self.new.are ≡ self.old.are }
        ensures room { OnOk result (length self.old.items + more ≤ self.new.room) }
    {
        let Some(room) = self.len().checked_add(more) else {
            return Err(AllocError);
        };
        match self.are {
            Answers::Kept => {
                self.short.reserve(more)?;
                // there are at most as many long replies as answers
                self.long.reserve(room - self.long.len())?;
            }
            Answers::Counted => {}
        }
        self.room = room;
        Ok(())
    }

    /// Returns the number of answers.
    pub fn len(&self) -> usize
        ensures { result ≡ length self.now.items }
    {
        match self.are {
            Answers::Kept => self.short.len(),
            Answers::Counted => self.count,
        }
    }

    /// Returns the number of answers that are stored: of all, or of none.
    pub fn stored_len(&self) -> usize
        ensures { result ≡ length (stored self.now) }
    {
        self.short.len()
    }

    /// Returns the answer at an index, counted from 0, if it is stored.
    #[inline]
    pub fn get(&self, place: usize) -> Option<Answer>
        ensures { result ≡ slice_get (stored self.now) place }
    {
        let short = self.short.get(place)?;
        Some(Answer {
            command: short.command,
            node: short.node,
            reply: lengthened(short.reply, &self.long),
        })
    }
}

// The short form of a reply. A long reply is appended to the long ones, which have room for it.
#[inline]
fn shortened(reply: &Reply, long: &mut Vec<Reply>) -> ShortReply
    requires { vec_len long.old < vec_capacity long.old }
    ensures reply { reaction_in long.new.items result ≡ Ok reply.now }
    ensures there { is_there (length long.new.items) result }
    ensures others { (other : ShortReply) → is_there (length long.old.items) other → is_there (length long.new.items) other × (reaction_in long.new.items other ≡ reaction_in long.old.items other) }
    ensures one { vec_len long.new ≤ vec_len long.old + 1 }
    ensures capacity { vec_capacity long.new ≡ vec_capacity long.old }
{
    match reply {
        Reply::Page(page) => ShortReply::Page(*page),
        Reply::Unit => ShortReply::Unit,
        Reply::Done(done) if done.released.is_empty() => ShortReply::Done(done.outcome),
        Reply::Count(queued) => ShortReply::Count(*queued),
        Reply::Taken(taken) => ShortReply::Taken(*taken),
        Reply::Tried(tried) => ShortReply::Tried(*tried),
        Reply::Back(back) => ShortReply::Back(*back),
        Reply::NoBatch => ShortReply::NoBatch,
        Reply::Done(_) | Reply::Scan(_) => {
            let place = long.len();
            long.push_reserved(*reply);
            ShortReply::Long(place)
        }
    }
}

// The answer to a command, from its short form and the long replies.
#[inline]
fn lengthened(reply: ShortReply, long: &[Reply]) -> Result<Reply, Refusal>
    requires { is_there (length long.now) reply }
    ensures { result ≡ reaction_in long.now reply }
{
    match reply {
        ShortReply::Page(page) => Ok(Reply::Page(page)),
        ShortReply::Unit => Ok(Reply::Unit),
        ShortReply::Done(outcome) => Ok(Reply::Done(Done {
            outcome,
            released: SubSet::empty(),
        })),
        ShortReply::Count(queued) => Ok(Reply::Count(queued)),
        ShortReply::Taken(taken) => Ok(Reply::Taken(taken)),
        ShortReply::Tried(tried) => Ok(Reply::Tried(tried)),
        ShortReply::Back(back) => Ok(Reply::Back(back)),
        ShortReply::NoBatch => Ok(Reply::NoBatch),
        ShortReply::Refused(refusal) => Err(refusal),
        ShortReply::Long(place) => Ok(long[place]),
    }
}
