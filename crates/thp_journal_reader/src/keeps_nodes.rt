//! What is stored about the nodes in the lines of a journal.
ghost use Rattle.std.specs.Prelude.{◌≡◌, ◌≤◌, ◌+◌, ℕ, List, OnOk};
ghost use Rattle.thp_journal_reader.specs.declared.journals.ReadNode.{ReadNode};
ghost use Rattle.thp_journal_reader.specs.LineRanges.{IsLineInRange};
ghost use Rattle.thp_journal_writer.specs.declared.version.Version.{Version};
ghost use Rattle.thp_journal_reader.specs.Reading.{with_line};

use crate::line::Line;
use std::alloc::{AllocError, Global};

/// The data that is stored about the nodes in the lines of a journal.
pub trait KeepsNodes: Sized {
    /// The nodes so far.
    ghost reported: { Self → List ReadNode };

    /// The stored data agrees with the nodes, which are before the line of this number.
    ghost goes_along: { ℕ → Self → Type 0 };

    /// The text that was taken out, if the stored data has a text.
    ghost taken: { Self → List ℕ };

    /// The versions whose lines are processed.
    ghost allows: { Version → Type 0 };

    /// The greatest line number allowed.
    ghost last_line: { ℕ };

    /// Processes a line, which has this number.
    fn add(&mut self, alloc: Global, number: u64, line: &Line) -> Result<(), AllocError>
        requires along { goes_along number self.old }
        requires in_range { (v : Version) × allows v × IsLineInRange v line.now }
        requires room { number ≤ last_line }
        ensures nodes { OnOk result (reported self.new ≡ with_line number (reported self.old) line.now) }
        ensures along { OnOk result (goes_along (number + 1) self.new) }
        ensures taken { OnOk result (taken self.new ≡ taken self.old) };

    /// The stored data still agrees after a line without content.
    ghost later: { (number : ℕ) (nodes : Self) → goes_along number nodes → goes_along (number + 1) nodes };
}
