//! Writes whole journals as text.
ghost use Rattle.std.specs.Prelude.{◌≡◌, ◌+◌, [], ◌∷◌, ◌++◌, map, OnOk, IfOk, codes};
ghost use Rattle.std.specs.List.{flat_map, list_any, list_all};
ghost use Rattle.std.specs.Fmt.{decimal};
ghost use Rattle.thp_journal_writer.specs.Histories.{journal_of};
ghost use Rattle.thp_journal_writer.specs.Journals.{are_large, has_large_caller, is_large, journal_text as text_of, version_of, version_line, node_line, lines_of_node, underused_word, reports_underused, has_order_9, ended, is_access};

use crate::events::put_event_line;
use crate::numbers::{put, put_number};
use crate::version::Version;
use std::alloc::{AllocError, Global};
use thp_history::{Event, MAX_CALLERS, Shape, What};

/// Returns the journal text of these nodes, which are numbered from 0.
///
/// The first line contains the version, the least that suffices for these nodes. For each node a line with its size and one line
/// for each event follow. The last line is `end`. The text does not contain the blocks of new pages. It is written to one buffer,
/// which grows.
pub fn journal_text(alloc: Global, nodes: &[NodeHistory<'_>]) -> Result<Vec<u8>, AllocError>
    ensures { IfOk result (λ text. text.items ≡ text_of (map journal_of nodes.now)) }
{
    let version = least_version(nodes);
    let mut text = Vec::new(alloc);
    put_version(&mut text, version)?;
    for (n, node) in nodes.iter().enumerate() {
        put_history(&mut text, version, n, node)?;
    }
    put_end(&mut text)?;
    Ok(text)
}

// the least version that suffices for these nodes
fn least_version(nodes: &[NodeHistory<'_>]) -> Version
    ensures { result ≡ version_of (map journal_of nodes.now) }
{
    if are_large(nodes) {
        Version::Large
    } else if report_underused(nodes) {
        Version::Underused
    } else if have_order_9(nodes) {
        Version::Plain
    } else {
        Version::Orders
    }
}

// whether there are more nodes than the versions before 4 can contain, or one of them is large
fn are_large(nodes: &[NodeHistory<'_>]) -> bool
    ensures { result ≡ are_large (map journal_of nodes.now) }
{
    nodes.len() > 8 || have_large(nodes)
}

// whether some node has more blocks or callers than the versions before 4 can contain
fn have_large(nodes: &[NodeHistory<'_>]) -> bool
    ensures { result ≡ list_any (λ node. is_large (journal_of node)) nodes.now }
{
    nodes.iter().any(|node| node.is_large())
}

// whether a node looks for underused pages, or writes to its pages were recorded
fn report_underused(nodes: &[NodeHistory<'_>]) -> bool
    ensures { result ≡ list_any (λ node. reports_underused (journal_of node)) nodes.now }
{
    nodes.iter().any(|node| node.is_reported_underused())
}

// whether the pages of each node have order 9
fn have_order_9(nodes: &[NodeHistory<'_>]) -> bool
    ensures { result ≡ list_all (λ node. has_order_9 (journal_of node)) nodes.now }
{
    nodes
        .iter()
        .all(|node| node.shape.order == Shape::MAX_ORDER)
}

/// Appends the first line of a journal, which contains the version.
pub fn put_version(text: &mut Vec<u8>, version: Version) -> Result<(), AllocError>
    ensures { OnOk result (text.new.items ≡ text.old.items ++ ended (version_line version)) }
{
    put(text, b"thp-journal ")?;
    put_number(text, version.number(), b'\n')
}

/// Appends the last line of a journal.
pub fn put_end(text: &mut Vec<u8>) -> Result<(), AllocError>
    ensures { OnOk result (text.new.items ≡ text.old.items ++ ended (codes "end")) }
{
    put(text, b"end\n")
}

// the lines of node n
fn put_history(
    text: &mut Vec<u8>,
    version: Version,
    n: usize,
    node: &NodeHistory<'_>,
) -> Result<(), AllocError>
    ensures { OnOk result (text.new.items ≡ text.old.items ++ flat_map ended (lines_of_node version n (journal_of node.now))) }
{
    put_node_line(text, version, n, &node.shape)?;
    for event in node.events {
        put_event_line(text, event)?;
    }
    Ok(())
}

/// Appends the line of node n.
pub(crate) fn put_node_line(
    text: &mut Vec<u8>,
    version: Version,
    n: usize,
    shape: &Shape,
) -> Result<(), AllocError>
    ensures { OnOk result (text.new.items ≡ text.old.items ++ ended (node_line version n shape.now)) }
{
    put(text, b"node ")?;
    put_number(text, n as u64, b' ')?;
    put(text, b"blocks ")?;
    match version {
        Version::Plain => put_number(text, u64::from(shape.blocks), b'\n'),
        Version::Orders => put_order(text, shape, b'\n'),
        _ => {
            put_order(text, shape, b' ')?;
            put_underused(text, shape.underused)
        }
    }
}

// the blocks and the order, and the byte `after`
fn put_order(text: &mut Vec<u8>, shape: &Shape, after: u8) -> Result<(), AllocError>
    ensures { OnOk result (text.new.items ≡ text.old.items ++ decimal shape.now.blocks ++ codes " order " ++ decimal shape.now.order ++ after ∷ []) }
{
    put_number(text, u64::from(shape.blocks), b' ')?;
    put(text, b"order ")?;
    put_number(text, u64::from(shape.order), after)
}

// what the node looks for, and a line feed
fn put_underused(text: &mut Vec<u8>, underused: Option<u32>) -> Result<(), AllocError>
    ensures { OnOk result (text.new.items ≡ text.old.items ++ codes "underused " ++ ended (underused_word underused)) }
{
    put(text, b"underused ")?;
    match underused {
        None => put(text, b"off\n"),
        Some(threshold) => put_number(text, u64::from(threshold), b'\n'),
    }
}

/// The size of a node, and its events, oldest first.
#[derive(Clone, Copy, Debug)]
pub struct NodeHistory<'a> {
    /// The shape of the node.
    pub shape: Shape,
    /// The events, oldest first.
    pub events: &'a [Event],
}

impl NodeHistory<'_> {
    // whether the node looks for underused pages, or writes to its pages were recorded
    fn is_reported_underused(&self) -> bool
        ensures { result ≡ reports_underused (journal_of self.now) }
    {
        self.shape.shrinks_underused() || has_access(self.events)
    }

    // whether the node has more blocks or callers than the versions before 4 can contain
    fn is_large(&self) -> bool
        ensures { result ≡ is_large (journal_of self.now) }
    {
        self.shape.blocks > Shape::MAX_BLOCKS || has_large_caller(self.events)
    }
}

// whether some event is of a caller that the versions before 4 can't contain
fn has_large_caller(events: &[Event]) -> bool
    ensures { result ≡ list_any has_large_caller events.now }
{
    events.iter().any(|event| event.caller >= MAX_CALLERS)
}

// whether some event is a write of data or zeros
fn has_access(events: &[Event]) -> bool
    ensures { result ≡ list_any (λ event. is_access event.what) events.now }
{
    events.iter().any(|event| matches!(event.what, What::Write { .. } | What::Zero { .. }))
}
