//! Follows the nodes of a journal as its lines are read: replays their events without storing them, and keeps data of each node.
ghost use Rattle.std.specs.Prelude.{◌≡◌, ⊤, ◌≤◌, ◌∷◌, ◌++◌, ℕ, [], List, None, IfOk, OnOk};
ghost use Rattle.thp_check.specs.Prelude.{Replayed};
ghost use Rattle.thp_journal_reader.specs.Prelude.{began, follows_later, has_stopped, illegal_so_far, nodes_read, on_last, with_event, with_line, FollowerKnows, FollowsLines, FollowsWith, HasEnded, FollowerHasRoom, HasRoomIn, HasShapeWithin, KnowsNodes, ReadNode, StopsWith};
ghost use Rattle.thp_history.specs.Prelude.{event_with, least_free, max_node_blocks, IsNodeShape};
ghost use Rattle.thp_history.specs.declared.events.Event.{Event};
ghost use Rattle.thp_history.specs.declared.events.What.TheVariants.{Alloc};
ghost use Rattle.thp_script.specs.Prelude.{max_counted};

use crate::follows_node::{FollowsNode, Stopped};
use crate::keeps_nodes::KeepsNodes;
use crate::line::Line;
use crate::long_check::Illegal;
use std::alloc::{AllocError, Global};
use thp_history::{Event, PageId, Shape, Trace, What};

/// What is known of the nodes so far. `F` follows the current node, and a `K` is kept of each other.
#[derive(Drop)]
pub struct Follower<F, K> {
    alloc: Global,
    // the last node, while its events are legal
    at_hand: Option<F>,
    // the line of that node's next event
    next_line: u64,
    // the first illegal event of all nodes
    illegal: Option<Illegal>,
    kept: Vec<K>,
}

impl<K: Drop, F: FollowsNode<Kept = K>> Follower<F, K> {
    /// Returns whether no further node is followed.
    fn has_stopped(&self) -> bool
        ensures { result ≡ has_stopped F.FOLLOWS_ALL self.now.illegal }
    {
        self.illegal.is_some() && !F::FOLLOWS_ALL
    }

    /// Ends the current node, if there is one.
    fn end(&mut self) -> Result<(), AllocError>
        ensures ended { OnOk result ((nodes : List ReadNode) → FollowerKnows F.replayed F.keeps F.FOLLOWS_ALL nodes self.old → HasEnded F.keeps F.FOLLOWS_ALL nodes self.new.illegal self.new.kept.items) }
        ensures none { self.new.at_hand ≡ None }
    {
        let Some(node) = self.at_hand.take() else {
            return Ok(());
        };
        let kept = node.end(self.alloc)?;
        self.kept.push(kept)?;
        Ok(())
    }

    /// Begins a node whose first event is on this line.
    fn begin(&mut self, first_line: u64, shape: Shape) -> Result<(), AllocError>
        requires { IsNodeShape shape }
        ensures { OnOk result ((nodes : List ReadNode) → FollowerKnows F.replayed F.keeps F.FOLLOWS_ALL nodes self.old → FollowerKnows F.replayed F.keeps F.FOLLOWS_ALL (nodes ++ began first_line shape ∷ []) self.new) }
    {
        self.end()?;
        if self.has_stopped() {
            return Ok(());
        }
        let node = F::begin(self.alloc, shape)?;
        self.at_hand = Some(node);
        self.next_line = first_line;
        Ok(())
    }

    // Rare cases have functions of their own: otherwise each event would clear the stack for them.

    /// Records that this event on the current node is illegal.
    #[inline(never)]
    fn stop(&mut self, event: &Event, stopped: Stopped<F::Rest>) -> Result<(), AllocError>
        ensures stops { OnOk result (StopsWith F.keeps F.leaves stopped.rest (record { line = self.old.next_line; event = event.now; misfit = stopped.misfit }) self.old.illegal self.old.kept.items self.new.illegal self.new.kept.items) }
        ensures at_hand { self.new.at_hand ≡ self.old.at_hand }
    {
        let Stopped { misfit, rest } = stopped;
        let illegal = Illegal {
            line: self.next_line,
            event: *event,
            misfit,
        };
        let kept = F::stop(rest, self.alloc, &illegal)?;
        self.illegal = self.illegal.or(Some(illegal));
        self.kept.push(kept)?;
        Ok(())
    }

    /// Replays an event on the current node. The event has no block if it is an allocation, as no line contains blocks.
    fn go_on(&mut self, node: F, event: &Event) -> Result<(), AllocError>
        requires none { self.old.at_hand ≡ None }
        requires room { HasRoomIn self.old.next_line (F.replayed node) }
        ensures { OnOk result ((nodes : List ReadNode) → (reported : Event) → FollowsWith F.keeps nodes (F.replayed node) self.old → event.now ≡ event_with (least_free (F.replayed node).shape (F.replayed node).history) reported → FollowerKnows F.replayed F.keeps F.FOLLOWS_ALL (on_last (with_event reported) nodes) self.new) }
    {
        match node.follow(event) {
            Ok(node) => {
                self.at_hand = Some(node);
                self.next_line += 1;
                Ok(())
            }
            Err(stopped) => self.stop(event, stopped),
        }
    }

    /// Replays an allocation on the current node, in the least free block.
    #[inline(never)]
    fn place(&mut self, node: F, caller: u32, page: PageId) -> Result<(), AllocError>
        requires none { self.old.at_hand ≡ None }
        requires room { HasRoomIn self.old.next_line (F.replayed node) }
        ensures { OnOk result ((nodes : List ReadNode) → (reported : Event) → (block : ℕ) → FollowsWith F.keeps nodes (F.replayed node) self.old → reported ≡ record { caller = caller; what = Alloc page block } → FollowerKnows F.replayed F.keeps F.FOLLOWS_ALL (on_last (with_event reported) nodes) self.new) }
    {
        let block = node.free_block();
        let what = What::Alloc { page, block };
        self.go_on(node, &Event { caller, what })
    }

    /// Replays an event on the last node, if there is one; an allocation uses the least free block.
    fn admit(&mut self, event: &Event) -> Result<(), AllocError>
        requires { FollowerHasRoom F.replayed self.old }
        ensures { OnOk result ((nodes : List ReadNode) → FollowerKnows F.replayed F.keeps F.FOLLOWS_ALL nodes self.old → FollowerKnows F.replayed F.keeps F.FOLLOWS_ALL (on_last (with_event event.now) nodes) self.new) }
    {
        let Some(node) = self.at_hand.take() else {
            return Ok(());
        };
        match event.what {
            What::Alloc { page, .. } => self.place(node, event.caller, page),
            _ => self.go_on(node, event),
        }
    }

    /// Processes the line of this number.
    fn follow(&mut self, number: u64, line: &Line) -> Result<(), AllocError>
        requires room { FollowerHasRoom F.replayed self.old }
        requires in_range { HasShapeWithin max_node_blocks line.now }
        requires number { number ≤ max_counted }
        ensures { OnOk result ((nodes : List ReadNode) → FollowerKnows F.replayed F.keeps F.FOLLOWS_ALL nodes self.old → FollowerKnows F.replayed F.keeps F.FOLLOWS_ALL (with_line number nodes line.now) self.new) }
    {
        match line {
            Line::Node { shape, .. } => self.begin(number + 1, *shape),
            Line::Happened(event) => self.admit(event),
            Line::Head(_) | Line::End => Ok(()),
        }
    }
}

/// What is known of the nodes in the lines so far.
#[derive(Drop)]
pub struct FollowedNodes<F, K> {
    follower: Follower<F, K>,
    /// The lines so far, with their numbers. Contracts alone see them.
    pub lines: Trace<(u64, Line)>,
}

impl<K: Drop, F: FollowsNode<Kept = K>> FollowedNodes<F, K> {
    /// Returns the state before the first line.
    pub fn new(alloc: Global) -> FollowedNodes<F, K>
        ensures lines { result.lines ≡ [] }
        ensures follows { FollowsLines F.replayed F.keeps F.FOLLOWS_ALL 1 result }
    {
        FollowedNodes {
            follower: Follower {
                alloc,
                at_hand: None,
                next_line: 0,
                illegal: None,
                kept: Vec::new(alloc),
            },
            lines: Trace::new(),
        }
    }

    /// Returns the first illegal event, if there is one.
    pub fn illegal(&self) -> Option<Illegal>
        ensures { result ≡ illegal_so_far self.now }
    {
        self.follower.illegal
    }

    /// Returns the first illegal event, if there is one, and the kept data of each node, after the last line.
    pub fn finish(self) -> Result<(Option<Illegal>, Vec<K>), AllocError>
        ensures { IfOk result (λ found. (nodes : List ReadNode) → KnowsNodes F.replayed F.keeps F.FOLLOWS_ALL nodes self → HasEnded F.keeps F.FOLLOWS_ALL nodes found.0 found.1.items) }
    {
        let mut follower = self.follower;
        follower.end()?;
        Ok((follower.illegal, follower.kept))
    }
}

impl<K: Drop, F: FollowsNode<Kept = K>> KeepsNodes for FollowedNodes<F, K> {
    ghost reported = { λ nodes. nodes_read nodes.lines };

    ghost goes_along = { λ number nodes. FollowsLines F.replayed F.keeps F.FOLLOWS_ALL number nodes };

    ghost taken = { λ nodes. [] };

    ghost allows = { λ v. ⊤ };

    ghost last_line = { max_counted };

    fn add(&mut self, _alloc: Global, number: u64, line: &Line) -> Result<(), AllocError> {
        self.follower.follow(number, line)?;
        self.lines.push(&(number, *line));
        Ok(())
    }

    ghost later = { λ number nodes along. follows_later F.replayed F.keeps F.FOLLOWS_ALL number nodes along };
}
