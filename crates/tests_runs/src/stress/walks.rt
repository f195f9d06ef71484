//! A caller's answers, checked command by command against its own events.
use crate::stress::batches::Batch;
use crate::stress::commands::{event_of, may_refuse, without_block};
use crate::stress::parts::Part;
use crate::stress::tallies::Tally;
use std::alloc::Global;
use thp_history::Refusal;
use thp_node::{BackReply, Node, ScanReply, Tried};
use thp_script::{Command, Op};
use thp_worker::{AnswerLog, Reply, SectionLog};

// A caller on a node: the events that aren't explained yet, and the open batch.
#[derive(Drop)]
struct Walk<'a> {
    part: Part<'a>,
    tally: &'a Tally,
    open: Option<Batch>,
}

impl<'a> Walk<'a> {
    // Explains an answer by the caller's next events.
    fn explain(&mut self, alloc: Global, op: Op, answer: Result<Reply, Refusal>) -> Option<()> {
        let reply = match answer {
            Ok(reply) => reply,
            Err(refusal) => return self.explain_refusal(op, refusal),
        };
        match (op, reply) {
            (Op::Count, Reply::Count(length)) => self.explain_count(length),
            (Op::Take { count }, Reply::Taken(taken)) => self.explain_take(alloc, count, taken),
            (Op::Scan { count }, Reply::Scan(scan)) => self.explain_scan(alloc, count, scan),
            (Op::SplitNext, Reply::Tried(tried)) => self.explain_try(tried),
            (Op::PutBack, Reply::Back(reply)) => self.explain_put_back(reply),
            (Op::SplitNext | Op::PutBack, Reply::NoBatch) => is_so(self.open.is_none()),
            _ => {
                let wanted = event_of(op, reply)?;
                is_so(without_block(self.part.next()?) == wanted)
            }
        }
    }

    // A refused command has no event. Only an open batch is in the way of another.
    fn explain_refusal(&self, op: Op, refusal: Refusal) -> Option<()> {
        is_so(may_refuse(op, refusal) && (refusal != Refusal::HasBatch || self.open.is_some()))
    }

    // The queue had this length at some time between the caller's own events.
    fn explain_count(&self, length: u32) -> Option<()> {
        let (least, most) = self.part.before();
        is_so(self.tally.had_length(length, least, most))
    }

    fn explain_take(&mut self, alloc: Global, count: u32, taken: u32) -> Option<()> {
        if self.open.is_some() || taken > count {
            return None;
        }
        self.open = Some(Batch::take(alloc, &mut self.part, taken)?);
        Some(())
    }

    fn explain_try(&mut self, tried: Tried) -> Option<()> {
        let batch = self.open.as_mut()?;
        if tried == Tried::Done {
            return is_so(batch.is_passed(self.tally));
        }
        is_so(batch.try_next(self.tally, &mut self.part)? == tried)
    }

    fn explain_put_back(&mut self, reply: BackReply) -> Option<()> {
        let events = reply.back.checked_add(reply.dropped)?;
        let mut batch = self.open.take()?;
        is_so(batch.put_back(self.tally, &mut self.part, events as usize)? == reply)
    }

    // The events of a scan are its takes, its tries, and its put backs.
    fn explain_scan(&mut self, alloc: Global, count: u32, scan: ScanReply) -> Option<()> {
        self.explain_take(alloc, count, scan.taken)?;
        self.explain_tries(scan)?;
        self.explain_put_back(BackReply {
            back: scan.back,
            dropped: scan.dropped,
        })
    }

    // The tries of a scan go to the end of its batch.
    fn explain_tries(&mut self, scan: ScanReply) -> Option<()> {
        let batch = self.open.as_mut()?;
        let tries = scan.split.checked_add(scan.pinned)?.checked_add(scan.used)?;
        let (mut split, mut pinned, mut used) = (0u32, 0u32, 0u32);
        for _ in 0..tries {
            match batch.try_next(self.tally, &mut self.part)? {
                Tried::Split(_) => split = split.wrapping_add(1),
                Tried::Pinned(_) => pinned = pinned.wrapping_add(1),
                Tried::Used(_) => used = used.wrapping_add(1),
                Tried::Done => return None,
            }
        }
        let are_so = split == scan.split && pinned == scan.pinned && used == scan.used;
        is_so(are_so && batch.is_passed(self.tally))
    }

    // The rest at the end of a section is the put back of its open batch.
    fn end(self) -> Option<()> {
        let Walk { part, tally, open } = self;
        let mut part = part;
        match open {
            Some(mut batch) => {
                let left = part.left();
                let _reply = batch.put_back(tally, &mut part, left)?;
                Some(())
            }
            None => is_so(part.left() == 0),
        }
    }
}

fn is_so(holds: bool) -> Option<()> {
    if holds { Some(()) } else { None }
}

// Checks the answers of a section, each with its command.
fn explain_answers(
    alloc: Global,
    commands: &[Command],
    answers: &AnswerLog,
    walks: &mut Vec<Walk<'_>>,
) -> Option<()> {
    if answers.len() != commands.len() {
        return None;
    }
    for (index, command) in commands.iter().enumerate() {
        let Some(answer) = answers.get(index) else {
            return None;
        };
        if answer.command as usize != index || answer.node != command.node {
            return None;
        }
        let walk = walks.get_mut(command.node as usize)?;
        walk.explain(alloc, command.op, answer.reply)?;
    }
    Some(())
}

// Whether a section's answers are explained by its caller's parts of the nodes' journals, with no event left.
pub(crate) fn explain_section(
    alloc: Global,
    nodes: &[Node],
    tallies: &[Tally],
    commands: &[Command],
    section: &SectionLog,
) -> Option<()> {
    let mut walks = Vec::new(alloc);
    for (node, tally) in nodes.iter().zip(tallies) {
        let part = Part::new(alloc, node.journal(), section.worker).ok()?;
        walks
            .push(Walk {
                part,
                tally,
                open: None,
            })
            .ok()?;
    }
    explain_answers(alloc, commands, &section.answers, &mut walks)?;
    for walk in walks {
        walk.end()?;
    }
    Some(())
}
