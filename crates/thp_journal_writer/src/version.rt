//! The version of the format for a journal.
ghost use Rattle.std.specs.Prelude.{◌≡◌};
ghost use Rattle.thp_journal_writer.specs.Prelude.{event_version, includes, node_version, shape_version, version_limits, version_number, what_version};

use thp_history::{Event, MAX_CALLERS, Shape, What};

/// The version of a journal's text. Each later one contains more about a node; a text has the least version that suffices for its
/// nodes.
#[derive(Clone, Copy, PartialEq, Eq, Debug)]
pub enum Version {
    /// Version 1: the blocks of each node, whose pages have order 9.
    Plain,
    /// Version 2: also the order of each node's pages.
    Orders,
    /// Version 3: also the threshold of a node that looks for underused pages, and writes to pages.
    Underused,
    /// Version 4: the same, for more and larger nodes with more callers.
    Large,
}

/// The greatest numbers that the lines of a version can contain.
#[derive(Clone, Copy, PartialEq, Eq, Debug)]
pub struct VersionLimits {
    /// The greatest number of a node; nodes are numbered from 0.
    pub last_node: u32,
    /// The greatest number of blocks of a node.
    pub most_blocks: u32,
    /// The greatest number of a caller.
    pub last_caller: u32,
}

impl Version {
    /// Returns the number of the version, counted from 1.
    pub fn number(self) -> u64
        ensures { result ≡ version_number self }
    {
        match self {
            Version::Plain => 1,
            Version::Orders => 2,
            Version::Underused => 3,
            Version::Large => 4,
        }
    }

    /// Returns the greatest numbers that the lines of this version can contain.
    #[inline(always)]
    pub fn limits(self) -> VersionLimits
        ensures { result ≡ version_limits self }
    {
        match self {
            Version::Large => VersionLimits {
                last_node: 65_535,
                most_blocks: Shape::MAX_NODE_BLOCKS,
                last_caller: 65_535,
            },
            Version::Plain | Version::Orders | Version::Underused => VersionLimits {
                last_node: 7,
                most_blocks: Shape::MAX_BLOCKS,
                last_caller: MAX_CALLERS - 1,
            },
        }
    }

    /// Returns the least version for a node of this shape.
    pub fn of_shape(shape: &Shape) -> Version
        ensures { result ≡ shape_version shape.now }
    {
        if shape.blocks > Shape::MAX_BLOCKS {
            Version::Large
        } else if shape.underused.is_some() {
            Version::Underused
        } else if shape.order == Shape::MAX_ORDER {
            Version::Plain
        } else {
            Version::Orders
        }
    }

    /// Returns the least version for node n, which has this shape.
    pub fn of_node(n: usize, shape: &Shape) -> Version
        ensures { result ≡ node_version n shape.now }
    {
        if n > 7 {
            Version::Large
        } else {
            Version::of_shape(shape)
        }
    }

    /// Returns the least version that has a word for this kind of event.
    pub fn of_what(what: &What) -> Version
        ensures { result ≡ what_version what.now }
    {
        match what {
            What::Write { .. } | What::Zero { .. } | What::Used { .. } => Version::Underused,
            _ => Version::Plain,
        }
    }

    /// Returns the least version that has a line for this event.
    pub fn of_event(event: &Event) -> Version
        ensures { result ≡ event_version event.now }
    {
        if event.caller >= MAX_CALLERS {
            Version::Large
        } else {
            Version::of_what(&event.what)
        }
    }

    /// Returns whether this version includes that one, that is, whether it is not an earlier one.
    pub fn includes(self, least: Version) -> bool
        ensures { result ≡ includes self least }
    {
        least.number() <= self.number()
    }
}
