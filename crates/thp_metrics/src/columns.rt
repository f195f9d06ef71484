//! The columns of a node, which are merged in pairs when there are too many.
ghost use Rattle.std.specs.Prelude.{◌≡◌, ◌+◌, ◌<◌, ◌^◌, ℕ, [], ◌∷◌, ◌++◌, length, IfOk, ◌*◌, List, vec_capacity};
ghost use Rattle.thp_metrics.specs.Prelude.{AreWithin, ColumnsAreLow, Folds, HasRoomForOne, IsWidth, Numbers, column_of, columns_of, in_pairs};

use crate::column::Column;
use crate::numbers::Numbers;
use std::alloc::{AllocError, Global};
use std::marker::Model;
use thp_history::Trace;

/// The greatest number of columns.
pub const MAX_COLUMNS: usize = 600;

/// The numbers of a node for each prefix of its events, in columns.
///
/// Contracts see the numbers of each prefix so far, beginning with the empty one.
#[derive(Drop)]
pub struct Columns {
    folded: Folded,
    prefixes: u128,
    // has no bytes
    past: Trace<Numbers>,
}

impl Model for Columns {
    ghost use Rattle.std.specs.Prelude.{◌≡◌, length, List};
    ghost use Rattle.thp_metrics.specs.Folding.{Folds};
    ghost use Rattle.thp_metrics.specs.declared.numbers.Numbers.{Numbers};

    ghost Value = { List Numbers };

    ghost view = { λ c. c.past };

    ghost invariant = { λ c. Folds c.past c.folded × (c.prefixes ≡ length c.past) };
}

impl Columns {
    /// Creates the columns of one prefix. Fails if memory for 600 columns can't be allocated; further prefixes allocate none.
    pub fn new(alloc: Global, first: &Numbers) -> Result<Columns, AllocError>
        ensures { IfOk result (λ c. c ≡ first.now ∷ []) }
    {
        let mut past = Trace::new();
        past.push(first);
        Ok(Columns {
            folded: Folded {
                full: Vec::with_capacity(alloc, MAX_COLUMNS)?,
                last: Column::of(first),
                room: 0,
                width: 1,
            },
            prefixes: 1,
            past,
        })
    }

    /// Adds a prefix.
    pub fn push(&mut self, next: &Numbers)
        requires { length self.old < 2 ^ 64 }
        ensures { self.new ≡ self.old ++ next.now ∷ [] }
    {
        self.folded.push(next);
        self.prefixes += 1;
        self.past.push(next);
    }

    /// Returns the number of prefixes in a column; the last column can have fewer.
    pub fn width(&self) -> u64
        ensures { IsWidth (length self.now) result }
    {
        self.folded.width
    }

    /// Returns the number of prefixes.
    pub fn prefixes(&self) -> u128
        ensures { result ≡ length self.now }
    {
        self.prefixes
    }

    /// Returns the columns, in the order of their prefixes.
    pub fn into_columns(self) -> Vec<Column>
        ensures { (w : ℕ) → IsWidth (length self) w → result.items ≡ columns_of w self }
    {
        let Folded { mut full, last, .. } = self.folded;
        full.push_reserved(last);
        full
    }
}

// Columns of one width. `Folds` defines their content.
#[derive(Drop)]
pub(crate) struct Folded {
    // those that are full
    pub(crate) full: Vec<Column>,
    // the last column, which has at least one prefix
    pub(crate) last: Column,
    // the number of further prefixes that the last column has room for
    pub(crate) room: u64,
    // the number of prefixes in a column
    pub(crate) width: u64,
}

impl Folded {
    // Adds a prefix.
    pub(crate) fn push(&mut self, next: &Numbers)
        requires { HasRoomForOne self.old }
        ensures { (past : List Numbers) → Folds past self.old → Folds (past ++ next.now ∷ []) self.new }
    {
        let next = Column::of(next);
        if self.room == 0 {
            self.begin(next);
        } else {
            self.last = self.last.join(&next);
            self.room -= 1;
        }
    }

    // Begins a column, since the last is full.
    fn begin(&mut self, next: Column)
        requires room { HasRoomForOne self.old }
        requires full { self.old.room ≡ 0 }
        requires few { AreWithin (2 ^ 64) next.pages }
        ensures { (past : List Numbers) (n : Numbers) → next ≡ column_of (n ∷ []) → Folds past self.old → Folds (past ++ n ∷ []) self.new }
    {
        self.full.push_reserved(self.last);
        if self.full.len() == MAX_COLUMNS {
            fold(&mut self.full);
            self.width *= 2;
        }
        self.last = next;
        self.room = self.width - 1;
    }
}

// Merges each column with its neighbour.
fn fold(columns: &mut Vec<Column>)
    requires count { length columns.old.items ≡ 600 }
    requires few { ColumnsAreLow columns.old.items }
    ensures columns { columns.new.items ≡ in_pairs columns.old.items }
    ensures capacity { vec_capacity columns.new ≡ vec_capacity columns.old }
{
    let half = columns.len() / 2;
    for place in 0..half {
        let joined = columns[2 * place].join(&columns[2 * place + 1]);
        columns[place] = joined;
    }
    columns.truncate(half);
}
