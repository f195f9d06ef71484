//! The report of a run.
ghost use Rattle.std.specs.Prelude.{◌≡◌, IfOk, map};
ghost use Rattle.thp_journal_writer.specs.Prelude.{journal_text as journals_reported, totals_of, totals_text};
ghost use Rattle.thp_run.specs.Laws.{TotalsReportNoBlock};
ghost use Rattle.thp_run.specs.Prelude.{report_of, reported_journal, with_stored};

use crate::answers::answers_text;
use std::alloc::{AllocError, Global};
use thp_journal_writer::{NodeHistory, Totals, journal_text, put_totals};
use thp_node::{Node, Recorder};
use thp_script::{Report, Settings};
use thp_worker::SectionLog;

/// Returns the report that the settings select, for nodes numbered from 0 and the answers to the sections' commands.
///
/// - totals: nine lines for each node, and a tenth if its shrinker looks for underused pages;
/// - journal: the events of each node, in order;
/// - answers: a line `S I ANSWER` for each answer, where section S is 0 for setup and K for worker K, and I is the index of the
///   command in its section, counted from 1.
///
/// A report of answers has those that the sections store; the other reports ignore the sections. The text is written to
/// one buffer, which grows. The call fails only if that is not possible. A refusal for lack of memory has no word: such a run has
/// no report.
#[tactic(auto, using(crate::proofs::ReportLaws::shapes_reported))]
pub fn report_of_logs(
    alloc: Global,
    settings: &Settings,
    nodes: &[Node],
    sections: &[SectionLog],
) -> Result<Vec<u8>, AllocError>
    ensures { IfOk result (λ text. text.items ≡ report_of settings.now.report (map reported_journal nodes.now) (map with_stored sections.now)) }
{
    match settings.report {
        Report::Totals => totals_text(alloc, nodes),
        Report::Journal => journals_text(alloc, nodes),
        Report::Answers => answers_text(alloc, nodes, sections),
    }
}

/// Returns the journals of the nodes, in order.
pub fn journals_text(alloc: Global, nodes: &[Node]) -> Result<Vec<u8>, AllocError>
    ensures { IfOk result (λ text. text.items ≡ journals_reported (map reported_journal nodes.now)) }
{
    let mut histories = Vec::new(alloc);
    for node in nodes {
        histories.push(NodeHistory {
            shape: node.shape(),
            events: node.journal(),
        })?;
    }
    journal_text(alloc, histories.as_slice())
}

/// Returns the totals of the nodes, in order. The nodes need not store their events.
pub fn totals_text<R: Recorder>(alloc: Global, nodes: &[Node<R>]) -> Result<Vec<u8>, AllocError>
    ensures { IfOk result (λ text. text.items ≡ totals_text (map reported_journal nodes.now)) }
{
    let mut text = Vec::new(alloc);
    for (number, node) in nodes.iter().enumerate() {
        put_totals(&mut text, number, &totals_of(node))?;
    }
    Ok(text)
}

/// Returns the totals of a node.
fn totals_of<R: Recorder>(node: &Node<R>) -> Totals
    ensures { result ≡ totals_of node.now.shape node.now.journal }
{
    let counters = node.counters();
    Totals {
        pages: node.allocations(),
        queue: node.queue_len(),
        frames_held: node.frames_held(),
        frames_given: node.frames_given(),
        thp_split_page: counters.split_page,
        thp_split_page_failed: counters.split_page_failed,
        thp_deferred_split_page: counters.deferred_split_page,
        thp_split_pmd: counters.split_pmd,
        thp_underused_split_page: if node.shape().shrinks_underused() {
            Some(counters.underused_split_page)
        } else {
            None
        },
    }
}

/// States that nodes that are equal except for the blocks of their pages have the same totals.
pub fn totals_report_no_block()
    ensures { TotalsReportNoBlock }
{}
