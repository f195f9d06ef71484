//! A node that threads share: creating it, locking it, dividing its passes among threads, and dismantling it.
ghost use Rattle.std.specs.Prelude.{◌≡◌, ℕ, ◌<◌, ◌≤◌, ◌⊎◌, ◌↔◌, [], ◌∷◌, length, true, false, Err, All, IfOk, IfErr, OnOk, OnErr};
ghost use Rattle.thp_history.specs.Prelude.{max_callers, max_node_callers, events_of, IsLegal, queue};
ghost use Rattle.thp_node.specs.Prelude.{StandsOnce, StandsWhole, TakesOldest, LeavesFreedAlone, NothingEnters, HasFramesOnce, KeepsFrames, NodeState};
ghost use Rattle.thp_cell.specs.Views.{HasCaller, HasAll, part};
ghost use Rattle.thp_cell.specs.Calls.{Follows, PartsStay, BatchesStay, IsBusy, IsJoined, below, from, keeping, locking, returning_node};
ghost use Rattle.atomic_table.specs.Seated.{TableId};
ghost use Rattle.std.specs.Borrow.{sem};
ghost use Rattle.thp_cell.specs.Steps.{seat_with_front, left_of, right_of, SeatTook, WasBusy};
ghost use Rattle.thp_cell.specs.Seats.{seat_front, known_state, IsFree, IsIn, IsLocked, IsLent, HasSlot, HasTaken, FoundBusy};
ghost use Rattle.thp_cell.specs.Lending.{lends_node};

mod batch_calls;
mod list_calls;
mod page_calls;

use crate::fault::Busy;
use crate::pass::{Hold, Pass};
use crate::rule::{Both, CellRule, Count, Cut, Key, Lock, Look, SeatKnowledge, SplitAt, Store};
use atomic_table::{Seat, Table};
use std::alloc::Global;
use std::marker::{Brand, Model};
use std::snapshot::Snapshot;
use thp_history::{MAX_CALLERS, MAX_NODE_CALLERS};
use thp_node::{FullLog, NewFault, Node, Recorder};

// Makes a call of the node for a pass, which takes the node first unless it keeps it.
macro_rules! call_node {
    ($cell:expr, $pass:expr, $call:ident($($argument:expr),*)) => {{
        if !$cell.begin_call(&mut $pass.seat, $pass.keeps) {
            return Err(CellFault::Busy);
        }
        let answer = Self::node(&mut $pass.seat, $cell).$call($($argument),*);
        $cell.end_call(&mut $pass.seat, $pass.keeps);
        match answer {
            Ok(value) => Ok(value),
            Err(refusal) => Err(CellFault::Refused(refusal)),
        }
    }};
}

pub(crate) use call_node;

/// A node that threads share through one atomic word and one slot.
///
/// The word is twice the length of the queue plus the lock bit. Contracts see the identity of the cell. Each call requires a pass
/// of this cell, and a caller of that pass.
///
/// A call that needs the node fails with `CellFault::Busy` while another pass has it, and with `CellFault::Refused` for the
/// reasons that its documentation lists, or for `OutOfMemory` if the journal can't grow. A call that fails leaves the node
/// unchanged.
#[derive(Drop)]
pub struct NodeCell<R: Recorder = FullLog> {
    table: Table<Node<R>, SeatKnowledge, Key<R>, CellRule, Global>,
}

impl<R: Recorder> Model for NodeCell<R> {
    ghost Value = { TableId };

    ghost view = { λ c. c.table.shared.table_id };

    ghost invariant = { λ c. (c.table.shared.table_id.words ≡ 1) × (c.table.shared.table_id.slots ≡ 1) };
}

impl<R: Recorder> NodeCell<R> {
    /// Creates a cell that owns the node, and the pass that has all callers: the numbers below `callers`, which is 1 to 64, as in
    /// scripts. `with_callers` allows more.
    ///
    /// Fails with `BadSize` for any other number of callers, which is tested first, and with `OutOfMemory` if the cell can't be
    /// allocated. An error drops the node.
    pub fn new(
        alloc: Global,
        node: Node<R>,
        callers: u32,
    ) -> Result<(NodeCell<R>, Pass<R>), NewFault>
        requires { All (λ e. e.caller < callers) node.journal }
        ensures bad_size { (result ≡ Err NewFault.BadSize) ↔ ((callers ≡ 0) ⊎ (max_callers < callers)) }
        ensures cell { IfOk result (λ r. r.1.cell ≡ r.0) }
        ensures callers { IfOk result (λ r. r.1.callers ≡ callers) }
        ensures all { IfOk result (λ r. HasAll r.1) }
        ensures few { IfOk result (λ r. (0 < callers) × (callers ≤ max_callers)) }
        ensures free { IfOk result (λ r. r.1.keeps ≡ false) }
        ensures shape { IfOk result (λ r. r.1.shape ≡ node.shape) }
        ensures front { IfOk result (λ r. r.1.front ≡ node.journal) }
        ensures legal { IfOk result (λ r. IsLegal r.1.shape r.1.front) }
        ensures parts { IfOk result (λ r. (c : ℕ) → part r.1 c ≡ events_of c node.journal) }
        ensures untried { IfOk result (λ r. (r.1.locks ≡ 0) × (r.1.misses ≡ 0)) }
    {
        if callers > MAX_CALLERS {
            drop(node);
            return Err(NewFault::BadSize);
        }
        NodeCell::with_callers(alloc, node, callers)
    }

    /// Creates a cell that owns the node, and the pass that has all callers: the numbers below `callers`, which is 1 to 4,096. The
    /// cell stores nothing for a caller.
    ///
    /// Fails with `BadSize` for any other number of callers, which is tested first, and with `OutOfMemory` if the cell can't be
    /// allocated. An error drops the node.
    pub fn with_callers(
        alloc: Global,
        node: Node<R>,
        callers: u32,
    ) -> Result<(NodeCell<R>, Pass<R>), NewFault>
        requires { All (λ e. e.caller < callers) node.journal }
        ensures bad_size { (result ≡ Err NewFault.BadSize) ↔ ((callers ≡ 0) ⊎ (max_node_callers < callers)) }
        ensures cell { IfOk result (λ r. r.1.cell ≡ r.0) }
        ensures callers { IfOk result (λ r. r.1.callers ≡ callers) }
        ensures all { IfOk result (λ r. HasAll r.1) }
        ensures few { IfOk result (λ r. (0 < callers) × (callers ≤ max_node_callers)) }
        ensures free { IfOk result (λ r. r.1.keeps ≡ false) }
        ensures shape { IfOk result (λ r. r.1.shape ≡ node.shape) }
        ensures front { IfOk result (λ r. r.1.front ≡ node.journal) }
        ensures legal { IfOk result (λ r. IsLegal r.1.shape r.1.front) }
        ensures parts { IfOk result (λ r. (c : ℕ) → part r.1 c ≡ events_of c node.journal) }
        ensures untried { IfOk result (λ r. (r.1.locks ≡ 0) × (r.1.misses ≡ 0)) }
    {
        if callers == 0 || callers > MAX_NODE_CALLERS {
            drop(node);
            return Err(NewFault::BadSize);
        }
        let word = 2 * u64::from(node.queue_len());
        let key = Key {
            callers,
            node: Snapshot::of(&node),
        };
        // shows the proof that the history is legal, as the cell's rule requires, and that its pages are of order 9 at most
        node.laws();
        let _shape = node.shape();
        let Ok(mut slots) = Vec::with_capacity(alloc, 1) else {
            drop(node);
            return Err(NewFault::OutOfMemory);
        };
        slots.push_reserved(node);
        let Ok((table, seat)) = Table::new(alloc, &[word], slots, &key) else {
            return Err(NewFault::OutOfMemory);
        };
        let pass = Pass {
            first: 0,
            end: callers,
            keeps: false,
            seat,
        };
        Ok((NodeCell { table }, pass))
    }

    /// Divides the callers of a pass into those below `at` and those from `at` on. Releases the node first if the pass keeps it.
    pub fn split(&self, pass: Pass<R>, at: u32) -> (Pass<R>, Pass<R>)
        requires cell { pass.cell ≡ self.now }
        requires after { pass.first < at }
        requires before { at < pass.end }
        ensures left { result.0 ≡ below pass at }
        ensures right { result.1 ≡ from pass at }
        ensures inside { pass.end ≤ pass.callers }
        ensures legal { IsLegal pass.shape pass.front }
    {
        let mut left = pass;
        self.return_node(&mut left);
        let right = Pass {
            first: at,
            end: left.end,
            keeps: false,
            seat: self.split_seat::<Brand>(&mut left.seat, at),
        };
        left.end = at;
        (left, right)
    }

    // Divides the callers of a seat.
    fn split_seat<C: Cut>(
        &self,
        seat: &mut Seat<Node<R>, SeatKnowledge>,
        at: u32,
    ) -> Seat<Node<R>, SeatKnowledge>
        requires cell { seat.old.table_id ≡ self.now }
        requires free { IsFree seat.old }
        requires cut { C.at ≡ at }
        requires after { seat.old.me.0.first < at }
        requires before { at < seat.old.me.0.end }
        ensures same_cell { seat.new.table_id ≡ seat.old.table_id }
        ensures left { seat.new.me ≡ (left_of at seat.old.me.0, []) }
        ensures right_cell { result.table_id ≡ seat.old.table_id }
        ensures right { result.me ≡ (right_of at seat.old.me.0, []) }
    {
        self.table.shared.split_seat::<SplitAt<C>>(seat)
    }

    /// Joins two passes whose callers are adjacent. One front is a prefix of the other, and the joined pass has the longer one.
    /// Releases the node first if one of the passes keeps it.
    pub fn join(&self, left: Pass<R>, right: Pass<R>) -> Pass<R>
        requires left_cell { left.cell ≡ self.now }
        requires right_cell { right.cell ≡ self.now }
        requires adjacent { left.end ≡ right.first }
        ensures fronts { IsJoined left right result }
        ensures inside { result.end ≤ result.callers }
        ensures legal { IsLegal result.shape result.front }
        ensures left_callers { (c : ℕ) → HasCaller left c → HasCaller result c }
        ensures right_callers { (c : ℕ) → HasCaller right c → HasCaller result c }
        ensures left_parts { PartsStay left result }
        ensures right_parts { PartsStay right result }
        ensures left_batches { BatchesStay left result }
        ensures right_batches { BatchesStay right result }
    {
        let mut joined = left;
        let mut other = right;
        self.return_node(&mut joined);
        self.return_node(&mut other);
        joined.end = other.end;
        self.table
            .shared
            .join_seat::<Both>(&mut joined.seat, other.seat);
        self.table.shared.load::<Look>(&mut joined.seat, 0);
        joined
    }

    /// Locks the node without recording an event: no other pass can call it before the release. Releases the node first if the
    /// pass keeps it.
    ///
    /// Fails with `Busy` if another pass has the node, and returns the pass. That never happens to a pass of all callers.
    pub fn hold(&self, pass: Pass<R>) -> Result<Hold<R>, (Pass<R>, Busy)>
        requires { pass.cell ≡ self.now }
        ensures follows { IfOk result (λ h. Follows (locking (returning_node pass)) h) }
        ensures busy { IfErr result (λ e. IsBusy (returning_node pass) e.0) }
    {
        let mut pass = pass;
        self.return_node(&mut pass);
        if self.lock(&mut pass.seat) {
            Ok(Hold {
                first: pass.first,
                end: pass.end,
                seat: pass.seat,
            })
        } else {
            Err((pass, Busy))
        }
    }

    /// Releases the node and returns the pass, without recording an event.
    pub fn release(&self, hold: Hold<R>) -> Pass<R>
        requires { hold.cell ≡ self.now }
        ensures { result ≡ hold }
    {
        let Hold {
            first,
            end,
            mut seat,
        } = hold;
        self.unlock(&mut seat);
        Pass {
            first,
            end,
            keeps: false,
            seat,
        }
    }

    /// Keeps the node locked between the pass's following calls, which saves taking and releasing it for each.
    ///
    /// No other pass can call the node until the pass returns it, is divided, joined or turned into a hold, or the cell is
    /// dismantled. Fails with `Busy` if another pass has the node, which never happens to a pass of all callers.
    pub fn keep_node(&self, pass: &mut Pass<R>) -> Result<(), Busy>
        requires { pass.old.cell ≡ self.now }
        ensures follows { OnOk result (Follows (keeping (locking pass.old)) pass.new) }
        ensures busy { OnErr result (IsBusy pass.old pass.new) }
    {
        if !self.begin_call(&mut pass.seat, pass.keeps) {
            return Err(Busy);
        }
        pass.keeps = true;
        Ok(())
    }

    /// Releases the node if the pass keeps it.
    pub fn return_node(&self, pass: &mut Pass<R>)
        requires { pass.old.cell ≡ self.now }
        ensures { pass.new ≡ returning_node pass.old }
    {
        if pass.keeps {
            self.unlock(&mut pass.seat);
            pass.keeps = false;
        }
    }

    /// Returns the number of queued pages, by a single load without the lock, even while another pass has the node. A pass that
    /// keeps the node reads the length there.
    pub fn count(&self, pass: &mut Pass<R>) -> u32
        requires { pass.old.cell ≡ self.now }
        ensures follows { Follows pass.old pass.new }
        ensures count { result ≡ length (queue pass.new.shape pass.new.front) }
    {
        if pass.keeps {
            return Self::node(&mut pass.seat, self).queue_len();
        }
        let found = self.table.shared.load::<Count>(&mut pass.seat, 0);
        (found / 2) as u32
    }

    /// Dismantles the cell, consuming the pass that has all its callers, and returns the node.
    ///
    /// The node's journal is the one legal history of everything the threads did. It is the pass's front, each caller's part is
    /// what that caller did, and every event has one of the cell's callers.
    pub fn finish(self, pass: Pass<R>) -> Node<R>
        requires cell { pass.cell ≡ self }
        requires all { HasAll pass }
        ensures shape { result.shape ≡ pass.shape }
        ensures journal { result.journal ≡ pass.front }
        ensures legal { IsLegal result.shape result.journal }
        ensures parts { (c : ℕ) → events_of c result.journal ≡ part pass c }
        ensures callers { All (λ e. e.caller < pass.callers) result.journal }
        // the laws of every legal history that the main theorem states, at this one
        ensures oldest { TakesOldest result.shape result.journal }
        ensures once { StandsOnce result.shape result.journal }
        ensures whole { StandsWhole result.shape result.journal }
        ensures freed { LeavesFreedAlone result.journal }
        ensures closed { NothingEnters result.journal }
        ensures frames { HasFramesOnce result.shape result.journal }
        ensures sum { KeepsFrames result.shape result.journal }
    {
        let mut pass = pass;
        self.return_node(&mut pass);
        let mut closed = self.table.close_with(pass.seat);
        let node = closed.take(0);
        closed.free();
        // shows the proof the laws at the journal
        node.laws();
        node
    }

    // Takes the node for a call, unless the pass keeps it.
    #[inline(always)]
    fn begin_call(&self, seat: &mut Seat<Node<R>, SeatKnowledge>, keeps: bool) -> bool
        requires cell { seat.old.table_id ≡ self.now }
        requires is { IsIn keeps seat.old }
        ensures same_cell { seat.new.table_id ≡ seat.old.table_id }
        ensures took { result ≡ true → HasTaken (known_state keeps seat.old) seat.new }
        ensures busy { result ≡ false → FoundBusy keeps seat.old seat.new }
    {
        keeps || self.lock(seat)
    }

    // Ends a call: releases the node, unless the pass keeps it.
    #[inline(always)]
    fn end_call(&self, seat: &mut Seat<Node<R>, SeatKnowledge>, keeps: bool)
        requires cell { seat.old.table_id ≡ self.now }
        requires kept { IsLocked seat.old }
        ensures same_cell { seat.new.table_id ≡ seat.old.table_id }
        ensures is { IsIn keeps seat.new }
        ensures same { known_state keeps seat.new ≡ known_state keeps seat.old }
    {
        if !keeps {
            self.unlock(seat);
        }
    }

    // The lock step: unless another pass has the node, the seat has the slot and the node in it until `unlock`.
    fn lock(&self, seat: &mut Seat<Node<R>, SeatKnowledge>) -> bool
        requires cell { seat.old.table_id ≡ self.now }
        requires free { IsFree seat.old }
        ensures same_cell { seat.new.table_id ≡ seat.old.table_id }
        ensures took { result ≡ true → SeatTook seat.old.me seat.new.me }
        ensures busy { result ≡ false → WasBusy seat.old.me seat.new.me }
    {
        self.table.shared.fetch_or::<Lock>(seat, 0, 1) % 2 == 0
    }

    // The node in the seat's slot, to be called in place. The seat is the first argument, since it is what lends.
    fn node<'a>(
        seat: &'a mut Seat<Node<R>, SeatKnowledge>,
        cell: &'a NodeCell<R>,
    ) -> &'a mut Node<R>
        requires cell { seat.old.table_id ≡ cell.now }
        requires slot { HasSlot seat.old }
        ensures* writes_back { sem 𝓛 (lends_node R.row R.Recorder seat.entry result) }
        ensures value { seat.old.me.1 ≡ (0, result.now) ∷ [] }
    {
        seat.slot_mut(&cell.table.shared, 0)
    }

    // Ends the loan: stores the length of the queue in the word, and clears the lock bit.
    fn unlock(&self, seat: &mut Seat<Node<R>, SeatKnowledge>)
        requires cell { seat.old.table_id ≡ self.now }
        requires lent { IsLent seat.old }
        ensures same_cell { seat.new.table_id ≡ seat.old.table_id }
        ensures free { IsFree seat.new }
        ensures now { (node : NodeState) → seat.old.me.1 ≡ (0, node) ∷ [] → seat.new.me ≡ (seat_with_front seat.old.me.0 false node.journal, []) }
    {
        let word = 2 * u64::from(Self::node(seat, self).queue_len());
        self.table.shared.store::<Store>(seat, 0, word);
    }
}
