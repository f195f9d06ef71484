//! The size of a node.
ghost use Rattle.std.specs.Prelude.{◌≡◌, ◌≤◌, IsTrue, ◌↔◌};
ghost use Rattle.thp_history.specs.Limits.{max_order};
ghost use Rattle.thp_history.specs.Shapes.{subpages, IsNodeShape, IsShape, IsShapeWithin};
ghost use Rattle.thp_history.specs.Underused.{shrinks_underused};

/// The number of a node's blocks and the order of its pages. Each page has `2 ^ order` subpages, and each block as many frames.
/// On x86-64 a page that one PMD entry maps has order 9.
///
/// If `underused` is a threshold, the shrinker considers every page and also splits those with more zero-filled subpages than the
/// threshold (the kernel's switch `shrink_underused`). `None` turns this off.
#[derive(Clone, Copy, PartialEq, Eq, Debug)]
pub struct Shape {
    /// The number of blocks, 1 to 16,777,216; in scripts and in journals of version 1 to 3 at most 4,096.
    pub blocks: u32,
    /// The order of the pages, 2 to 9.
    pub order: u32,
    /// The threshold for underused pages, below the number of subpages; `None` if the switch is off.
    pub underused: Option<u32>,
}

impl Shape {
    /// The greatest number of blocks of a node in scripts and in journals of version 1 to 3.
    pub const MAX_BLOCKS: u32 = 4096;

    /// The greatest number of blocks of any node: 32 TiB of memory in pages of order 9.
    pub const MAX_NODE_BLOCKS: u32 = 16_777_216;

    /// The least order of a node's pages; `MAX_ORDER` is the greatest.
    pub const MIN_ORDER: u32 = 2;

    /// The greatest order of a node's pages.
    pub const MAX_ORDER: u32 = 9;

    /// Returns whether a node of scripts and of journals of version 1 to 3 can have this shape: 1 to 4,096 blocks, order 2 to 9,
    /// and a threshold below the number of subpages.
    pub fn is_valid(&self) -> bool
        ensures { IsTrue result ↔ IsShape self.now }
    {
        self.is_within(Shape::MAX_BLOCKS)
    }

    /// Returns whether a node can have this shape: as `is_valid`, with up to 16,777,216 blocks.
    pub fn is_of_node(&self) -> bool
        ensures { IsTrue result ↔ IsNodeShape self.now }
    {
        self.is_within(Shape::MAX_NODE_BLOCKS)
    }

    // Whether a node of at most this many blocks can have this shape.
    fn is_within(&self, most: u32) -> bool
        ensures { IsTrue result ↔ IsShapeWithin most self.now }
    {
        if self.order < Shape::MIN_ORDER || Shape::MAX_ORDER < self.order {
            return false;
        }
        self.underused
            .is_none_or(|threshold| threshold < self.subpages())
            && 1 <= self.blocks
            && self.blocks <= most
    }

    /// Returns whether the shrinker looks for underused pages, that is, whether the switch is on.
    pub fn shrinks_underused(&self) -> bool
        ensures { result ≡ shrinks_underused self.now }
    {
        self.underused.is_some()
    }

    /// Returns the number of subpages of a page.
    pub fn subpages(&self) -> u32
        requires { self.now.order ≤ max_order }
        ensures { result ≡ subpages self.now }
    {
        1 << self.order
    }
}
