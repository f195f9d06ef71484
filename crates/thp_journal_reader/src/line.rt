//! Parses lines of a journal.
ghost use Rattle.std.specs.Prelude.{◌≡◌, true, ◌≤◌, ◌<◌, ◌^◌, Ok, Err, IfOk, IfSome, MatchResult};
ghost use Rattle.thp_history.specs.Prelude.{max_order, min_order};
ghost use Rattle.thp_journal_reader.specs.Prelude.{before, line_by_words, line_in, line_of, accepted_at, accepts, accepts_node, accepts_version, line_may_stand, may_have_version, node_of, node_with, number_between, place_after, node_threshold_of, version_at, parsed_version, IsLineInRange};
ghost use Rattle.thp_journal_writer.specs.declared.version.Version.{Version};

use crate::event_line::{event_of, small_number};
use thp_history::{Event, Shape};
use thp_journal_writer::Version;
use thp_script::{MAX_NODES, TextKind, Words, fault_of_line, one_word};

/// The content of a line of a journal.
#[derive(Clone, Copy)]
pub enum Line {
    /// The version of the format; it is the first line.
    Head(Version),
    /// The start of a node's journal.
    Node { number: u32, shape: Shape },
    /// An event of the node. An allocation has block 0 here, as the line contains no block.
    Happened(Event),
    /// The end of the journals.
    End,
}

#[tactic(auto, unfolding(crate::specs::JournalLines::parsed_version))]
fn version_of(word: &[u8]) -> Result<Version, TextKind>
    ensures { result ≡ parsed_version word.now }
{
    match word {
        b"1" => Ok(Version::Plain),
        b"2" => Ok(Version::Orders),
        b"3" => Ok(Version::Underused),
        b"4" => Ok(Version::Large),
        _ => Err(TextKind::BadNumber),
    }
}

/// Returns the next word, if this one follows it.
fn before<'a>(key: &[u8], words: &mut Words<'a>) -> Result<&'a [u8], TextKind>
    ensures { MatchResult result (λ operand. before key.now words.old ≡ Ok (operand.now, words.new)) (λ kind. before key.now words.old ≡ Err kind) }
{
    let (Some(operand), Some(word)) = (words.next(), words.next()) else {
        return Err(TextKind::BadWord);
    };
    if word != key {
        return Err(TextKind::BadWord);
    }
    Ok(operand)
}

fn number_between(least: u32, most: u32, word: &[u8]) -> Result<u32, TextKind>
    ensures value { result ≡ number_between least most word.now }
    ensures least { IfOk result (λ n. least ≤ n) }
    ensures most { IfOk result (λ n. n ≤ most) }
{
    let value = small_number(most, word)?;
    if value < least {
        return Err(TextKind::BadNumber);
    }
    Ok(value)
}

/// Parses a threshold for underused pages of this order, or `off`.
#[tactic(auto, unfolding(crate::specs::JournalLines::node_threshold_of))]
fn threshold_of(order: u32, word: &[u8]) -> Result<Option<u32>, TextKind>
    requires { order ≤ max_order }
    ensures value { result ≡ node_threshold_of order word.now }
    ensures bound { IfOk result (λ threshold. IfSome threshold (λ t. t < 2 ^ order)) }
{
    if word == b"off".as_slice() {
        return Ok(None);
    }
    let subpages: u32 = 1 << order;
    let threshold = small_number(subpages - 1, word)?;
    Ok(Some(threshold))
}

fn node_with(
    version: Version,
    number: &[u8],
    blocks: &[u8],
    order: u32,
    underused: Option<u32>,
) -> Result<Line, TextKind>
    requires least { min_order ≤ order }
    requires most { order ≤ max_order }
    requires threshold { IfSome underused (λ t. t < 2 ^ order) }
    ensures value { result ≡ node_with version number.now blocks.now order underused }
    ensures in_range { IfOk result (IsLineInRange version) }
{
    let limits = version.limits();
    let number = small_number(limits.last_node, number)?;
    let blocks = number_between(1, limits.most_blocks, blocks)?;
    Ok(Line::Node {
        number,
        shape: Shape {
            blocks,
            order,
            underused,
        },
    })
}

/// Parses `node N blocks B`, followed by `order O` and `underused T` in the versions that have them.
#[tactic(auto, unfolding(crate::specs::JournalLines::plain_node, crate::specs::JournalLines::ordered_node, crate::specs::JournalLines::underused_node))]
fn node_of(version: Version, mut words: Words) -> Result<Line, TextKind>
    ensures value { result ≡ node_of version words.entry }
    ensures in_range { IfOk result (IsLineInRange version) }
{
    let number = before(b"blocks", &mut words)?;
    match version {
        Version::Plain => {
            let blocks = one_word(words)?;
            node_with(version, number, blocks, Shape::MAX_ORDER, None)
        }
        Version::Orders => {
            let blocks = before(b"order", &mut words)?;
            let order = one_word(words)?;
            let order = number_between(Shape::MIN_ORDER, Shape::MAX_ORDER, order)?;
            node_with(version, number, blocks, order, None)
        }
        Version::Underused | Version::Large => {
            let blocks = before(b"order", &mut words)?;
            let order = before(b"underused", &mut words)?;
            let threshold = one_word(words)?;
            let order = number_between(Shape::MIN_ORDER, Shape::MAX_ORDER, order)?;
            let threshold = threshold_of(order, threshold)?;
            node_with(version, number, blocks, order, threshold)
        }
    }
}

/// Parses the words of a line.
#[tactic(auto, unfolding(crate::specs::JournalLines::line_by, crate::specs::JournalLines::head_of))]
fn by_words(version: Version, mut words: Words) -> Result<Line, TextKind>
    ensures value { result ≡ line_by_words version words.entry }
    ensures in_range { IfOk result (IsLineInRange version) }
{
    let Some(name) = words.next() else {
        return Err(TextKind::BadWord);
    };
    if name == b"thp-journal".as_slice() {
        return Ok(Line::Head(version_of(one_word(words)?)?));
    }
    if name == b"node".as_slice() {
        return node_of(version, words);
    }
    if name == b"end".as_slice() {
        if words.next().is_some() {
            return Err(TextKind::BadCount);
        }
        return Ok(Line::End);
    }
    Ok(Line::Happened(event_of(version, name, words)?))
}

/// Parses a whole line in a version of the format, regardless of its position. A line whose words parse has no bad bytes and no
/// empty words, so its bytes are tested again only if they do not parse.
pub(crate) fn line_of(version: Version, text: &[u8]) -> Result<Line, TextKind>
    ensures value { result ≡ line_of version text.now }
    ensures in_range { IfOk result (IsLineInRange version) }
{
    match by_words(version, Words::of_line(text)) {
        Ok(line) => Ok(line),
        Err(reading) => Err(fault_of_line(text, reading)),
    }
}

/// The journals that a reader accepts. A line of another one has the error `bad-number`.
#[derive(Clone, Copy, PartialEq, Eq, Debug)]
pub enum Accepted {
    /// Journals of version 1 to 3.
    UpToVersion3,
    /// Journals of every version.
    EveryVersion,
    /// The same, if a script can have their nodes: at most 8, each of at most 4,096 blocks.
    ForScripts,
}

impl Accepted {
    fn accepts_version(self, version: Version) -> bool
        ensures { result ≡ accepts_version self version }
    {
        match self {
            Accepted::UpToVersion3 => Version::Underused.includes(version),
            Accepted::EveryVersion | Accepted::ForScripts => true,
        }
    }

    fn accepts_node(self, number: u32, shape: &Shape) -> bool
        ensures { result ≡ accepts_node self number shape.now }
    {
        match self {
            Accepted::ForScripts => {
                number < MAX_NODES as u32 && shape.blocks <= Shape::MAX_BLOCKS
            }
            Accepted::UpToVersion3 | Accepted::EveryVersion => true,
        }
    }

    fn accepts(self, line: &Line) -> bool
        ensures { result ≡ accepts self line.now }
    {
        match line {
            Line::Head(version) => self.accepts_version(*version),
            Line::Node { number, shape } => self.accepts_node(*number, shape),
            Line::Happened(_) | Line::End => true,
        }
    }
}

/// A position between the lines of a journal.
#[derive(Clone, Copy)]
pub enum Place {
    /// Before the first line.
    Start {
        accepted: Accepted,
    },
    /// After the version and the lines of this many nodes.
    Inside {
        accepted: Accepted,
        version: Version,
        nodes: u32,
    },
    /// After the end.
    Ended {
        accepted: Accepted,
        version: Version,
    },
}

fn version_at(place: Place) -> Version
    ensures { result ≡ version_at place }
{
    match place {
        Place::Start { .. } => Version::Plain,
        Place::Inside { version, .. } | Place::Ended { version, .. } => version,
    }
}

fn accepted_at(place: Place) -> Accepted
    ensures { result ≡ accepted_at place }
{
    match place {
        Place::Start { accepted }
        | Place::Inside { accepted, .. }
        | Place::Ended { accepted, .. } => accepted,
    }
}

fn may_stand(place: Place, line: &Line) -> bool
    ensures { result ≡ line_may_stand place line.now }
{
    match (place, line) {
        (Place::Start { .. }, Line::Head(_)) => true,
        (Place::Inside { nodes, .. }, Line::Node { number, .. }) => *number == nodes,
        (Place::Inside { nodes, .. }, Line::Happened(_) | Line::End) => 0 < nodes,
        _ => false,
    }
}

/// Returns the position after a line.
pub(crate) fn place_after(place: Place, line: &Line) -> Place
    requires { IsLineInRange (version_at place) line.now }
    ensures { result ≡ place_after place line.now }
{
    match (place, line) {
        (_, Line::Head(version)) => Place::Inside {
            accepted: accepted_at(place),
            version: *version,
            nodes: 0,
        },
        (
            Place::Inside {
                accepted,
                version,
                ..
            },
            Line::Node { number, .. },
        ) => Place::Inside {
            accepted,
            version,
            nodes: *number + 1,
        },
        (_, Line::Node { .. } | Line::Happened(_)) => place,
        (_, Line::End) => Place::Ended {
            accepted: accepted_at(place),
            version: version_at(place),
        },
    }
}

/// Parses a whole line at its position.
#[tactic(auto, unfolding(crate::specs::JournalLines::line_in))]
pub(crate) fn line_in(place: Place, text: &[u8]) -> Result<Line, TextKind>
    ensures value { result ≡ line_in place text.now }
    ensures in_range { IfOk result (IsLineInRange (version_at place)) }
    ensures within { IfOk result (λ line. (v : Version) → may_have_version (place_after place line) v ≡ true → may_have_version place v ≡ true) }
{
    let line = line_of(version_at(place), text)?;
    if !accepted_at(place).accepts(&line) {
        return Err(TextKind::BadNumber);
    }
    if !may_stand(place, &line) {
        return Err(TextKind::BadOrder);
    }
    Ok(line)
}
