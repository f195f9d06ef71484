//! The reports of a run, compared with the nodes and the answers.
use crate::stress::commands::without_block;
use crate::stress::tallies::Tally;
use std::alloc::{AllocError, Global};
use thp_history::{Event, Outcome, PageId, Refusal, SubSet};
use thp_journal_reader::{ReadNode, check_text, read_journal};
use thp_node::{BackReply, Node, ScanReply, Tried};
use thp_run::report_of_logs;
use thp_script::{Report, Settings};
use thp_worker::{Reply, SectionLog};

// The report of this kind.
fn report_of(
    alloc: Global,
    settings: &Settings,
    report: Report,
    nodes: &[Node],
    sections: &[SectionLog],
) -> Option<Vec<u8>> {
    let mut settings = *settings;
    settings.report = report;
    report_of_logs(alloc, &settings, nodes, sections).ok()
}

// Whether the report `totals` has the sums of the journals.
pub(crate) fn are_totals(
    alloc: Global,
    settings: &Settings,
    nodes: &[Node],
    tallies: &[Tally],
) -> Option<bool> {
    let reported = report_of(alloc, settings, Report::Totals, nodes, &[])?;
    let mut text = String::new(alloc);
    for (number, tally) in tallies.iter().enumerate() {
        tally.write(&mut text, number).ok()?;
    }
    Some(reported.as_slice() == text.as_bytes())
}

// Whether the report `journal` is legal and, read back, has the nodes' events, except for blocks.
pub(crate) fn is_journal(alloc: Global, settings: &Settings, nodes: &[Node]) -> Option<bool> {
    let text = report_of(alloc, settings, Report::Journal, nodes, &[])?;
    if check_text(alloc, text.as_slice()).ok()?.is_some() {
        return Some(false);
    }
    let journals = read_journal(alloc, text.as_slice()).ok()?;
    let read = journals.nodes.as_slice();
    Some(
        read.len() == nodes.len()
            && read
                .iter()
                .zip(nodes)
                .all(|(read, node)| is_read_back(read, node)),
    )
}

fn is_read_back(read: &ReadNode, node: &Node) -> bool {
    let events = read.events.as_slice();
    read.shape == node.shape()
        && events.len() == node.journal().len()
        && events
            .iter()
            .zip(node.journal())
            .all(|(read, event)| is_same(read, event))
}

fn is_same(read: &Event, event: &Event) -> bool {
    read.caller == event.caller && without_block(read.what) == without_block(event.what)
}

// Whether the report `answers` has a line for each answer.
pub(crate) fn are_answers(
    alloc: Global,
    settings: &Settings,
    nodes: &[Node],
    sections: &[SectionLog],
) -> Option<bool> {
    let reported = report_of(alloc, settings, Report::Answers, nodes, sections)?;
    let mut text = String::new(alloc);
    for section in sections {
        write_section(&mut text, nodes, section).ok()?;
    }
    Some(reported.as_slice() == text.as_bytes())
}

fn write_section(
    text: &mut String,
    nodes: &[Node],
    section: &SectionLog,
) -> Result<(), AllocError> {
    for place in 0..section.answers.len() {
        let Some(answer) = section.answers.get(place) else {
            return Err(AllocError);
        };
        write!(text, "{} {} ", section.worker, place.wrapping_add(1))?;
        let looks = match nodes.get(answer.node as usize) {
            Some(node) => node.shape().shrinks_underused(),
            None => false,
        };
        match answer.reply {
            Ok(reply) => write_reply(text, reply, looks)?,
            Err(refusal) => write_refusal(text, refusal)?,
        }
        write!(text, "\n")?;
    }
    Ok(())
}

fn write_refusal(text: &mut String, refusal: Refusal) -> Result<(), AllocError> {
    let word = match refusal {
        Refusal::NoPage => "no-page",
        Refusal::BadRange => "bad-range",
        Refusal::IsSplit => "is-split",
        Refusal::NotMapped => "not-mapped",
        Refusal::Gone => "gone",
        Refusal::NotPinned => "not-pinned",
        Refusal::TooMany => "too-many",
        Refusal::Closed => "closed",
        Refusal::NoBlock => "no-block",
        Refusal::HasBatch => "has-batch",
        Refusal::OutOfMemory => "no word",
    };
    write!(text, "refused {word}")
}

fn write_reply(text: &mut String, reply: Reply, looks: bool) -> Result<(), AllocError> {
    let (words, number) = match reply {
        Reply::Page(PageId(page)) => ("page ", Some(page)),
        Reply::Unit => ("ok", None),
        Reply::Done(done) => {
            write_outcome(text, done.outcome)?;
            return write_set(text, &done.released);
        }
        Reply::Scan(scan) => return write_scan(text, &scan, looks),
        Reply::Count(length) => ("count ", Some(u64::from(length))),
        Reply::Taken(taken) => ("taken ", Some(u64::from(taken))),
        Reply::Tried(tried) => words_of_try(tried),
        Reply::Back(BackReply { back, dropped }) => return write!(
            text,
            "back {back} dropped {dropped}"
        ),
        Reply::NoBatch => ("no-batch", None),
    };
    match number {
        Some(number) => write!(text, "{words}{number}"),
        None => text.push_str(words),
    }
}

fn words_of_try(tried: Tried) -> (&'static str, Option<u64>) {
    match tried {
        Tried::Split(PageId(page)) => ("split ", Some(page)),
        Tried::Pinned(PageId(page)) => ("pinned ", Some(page)),
        Tried::Used(PageId(page)) => ("used ", Some(page)),
        Tried::Done => ("done", None),
    }
}

fn write_outcome(text: &mut String, outcome: Outcome) -> Result<(), AllocError> {
    match outcome {
        Outcome::Stays => write!(text, "stays "),
        Outcome::Queued => write!(text, "queued "),
        Outcome::Freed => write!(text, "freed "),
    }
}

fn write_scan(text: &mut String, scan: &ScanReply, looks: bool) -> Result<(), AllocError> {
    write!(text, "taken {} split {} ", scan.taken, scan.split)?;
    write!(text, "pinned {} back {} ", scan.pinned, scan.back)?;
    write!(text, "dropped {}", scan.dropped)?;
    if looks {
        write!(text, " used {}", scan.used)?;
    }
    Ok(())
}

// Writes a set as its runs.
fn write_set(text: &mut String, set: &SubSet) -> Result<(), AllocError> {
    let mut comma = "";
    let mut start = None;
    for subpage in 0..=512u32 {
        let is_in = subpage < 512 && set.contains(subpage);
        match (start, is_in) {
            (None, true) => start = Some(subpage),
            (Some(first), false) => {
                write!(text, "{comma}")?;
                write_run(text, first, subpage.wrapping_sub(1))?;
                comma = ",";
                start = None;
            }
            _ => {}
        }
    }
    if comma == "" {
        write!(text, "-")
    } else {
        Ok(())
    }
}

fn write_run(text: &mut String, first: u32, last: u32) -> Result<(), AllocError> {
    if first == last {
        write!(text, "{first}")
    } else {
        write!(text, "{first}-{last}")
    }
}
