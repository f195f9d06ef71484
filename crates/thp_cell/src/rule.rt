//! The instance of the lock-free table that a cell uses: what its seats know, the rule that holds between any two steps, and what
//! each kind of step adds to a seat. The definitions are in `specs/Rule.antt` and `specs/Steps.antt`.
ghost use Rattle.std.specs.Prelude.{ℕ};
ghost use Rattle.thp_cell.specs.Rule.{RuleHolds, root};
ghost use Rattle.thp_cell.specs.Steps.{Locked, Stored, Counted, Looked, left_of, right_of, joined_seats, spent};

use atomic_table::{Join, Play, Split, TableRule};
use std::collections::LinkedList;
use std::marker::{Brand, PhantomData};
use std::snapshot::Snapshot;
use thp_history::{Event, Shape};
use thp_node::{Node, Recorder};

/// The front and the callers of a seat before it was joined. No value of this type is created.
pub struct OldFront {
    /// The first of the callers.
    pub first: u32,
    /// The number after the last of the callers.
    pub end: u32,
    /// The history that the seat knew.
    pub front: LinkedList<Event>,
}

/// What a seat knows. No value of this type is created.
pub struct SeatKnowledge {
    /// The number of the cell's callers.
    pub callers: u32,
    /// The shape of the cell's node.
    pub shape: Shape,
    /// The first of the seat's own callers, which are below `end`. A seat with none is spent.
    pub first: u32,
    /// The number after the last of the seat's callers.
    pub end: u32,
    /// Whether the seat has the slot, and the node in it.
    pub has_node: bool,
    /// The history that the seat knows.
    pub front: LinkedList<Event>,
    /// The fronts that a join has joined, until the load after it.
    pub old_fronts: LinkedList<OldFront>,
    /// How many lock steps of the seat took the slot.
    pub locks: u64,
    /// How many found another seat to have it.
    pub misses: u64,
}

/// The parameters of a new table: the number of callers, and the node.
#[derive(Drop)]
pub struct Key<R: Recorder> {
    /// The number of the cell's callers.
    pub callers: u32,
    /// The node, as it was when the table was created.
    pub node: Snapshot<Node<R>>,
}

/// The rule of a cell.
pub struct CellRule;

impl<R: Recorder> TableRule<Node<R>, SeatKnowledge, Key<R>> for CellRule {
    ghost holds = { λ key. RuleHolds key.callers key.node.value.shape };

    ghost first = { λ key. root key.callers key.node.value };
}

/// The lock step: finds the bit clear and takes the slot, or finds it set.
pub struct Lock;

impl<R: Recorder> Play<Node<R>, SeatKnowledge> for Lock {
    ghost then = { Locked };
}

/// The store that ends a hold.
pub struct Store;

impl<R: Recorder> Play<Node<R>, SeatKnowledge> for Store {
    ghost then = { Stored };
}

/// The load of a count.
pub struct Count;

impl<R: Recorder> Play<Node<R>, SeatKnowledge> for Count {
    ghost then = { Counted };
}

/// The load after a join.
pub struct Look;

impl<R: Recorder> Play<Node<R>, SeatKnowledge> for Look {
    ghost then = { Looked };
}

/// The caller at which a seat is split. Each call chooses it.
pub trait Cut {
    ghost at: { ℕ };
}

impl Cut for Brand {
    ghost at = { 0 };
}

/// The split of a seat at a caller.
pub struct SplitAt<C: Cut> {
    cut: PhantomData<C>,
}

impl<C: Cut> Split<SeatKnowledge> for SplitAt<C> {
    ghost left = { left_of C.at };

    ghost right = { right_of C.at };
}

/// The join of two seats.
pub struct Both;

impl Join<SeatKnowledge> for Both {
    ghost both = { joined_seats };

    ghost spent = { spent };
}
